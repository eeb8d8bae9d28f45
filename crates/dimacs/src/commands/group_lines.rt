//! The texts of commands.
ghost use Rattle.std.specs.Prelude.{◌≡◌, ◌≢◌, ◌++◌, [], ◌∷◌, if◌then◌else◌, ℕ, false, None, Some, List, IfErr, IfSome, length, vec_items};
ghost use Rattle.dimacs.specs.Lines.{fields};
ghost use Rattle.dimacs.specs.Faults.{Row, is_empty};
ghost use Rattle.dimacs.specs.Reading.{one_numeral, two_numerals, three_numerals};
ghost use Rattle.dimacs.specs.CommandReading.{HasGroups, IsGroupBound, IsGroupLineKind, number_read, numbers_read, three_read, ReadsCommandLine};

use crate::commands::open_group::OpenGroup;
use crate::commands::words::{OneNumber, word_of_one};
use crate::fault::{Code, Fault};
use crate::graphs::reading::{split_one, split_three, split_two};
use crate::lines::feed::Ended;
use crate::lines::line::split_field;
use crate::lines::taking::TakeLines;
use crate::lines::text::Text;
use roadnet::{Command, Group};
use std::alloc::Global;

/// The groups of the lines so far.
#[derive(Drop)]
pub(crate) struct GroupLines {
    closed: Vec<Group>,
    /// The group that is open, if one is.
    open: OpenGroup,
}

/// A line by its kind, with what follows its first field.
enum GroupLineKind<'a> {
    /// A line with no field, or a comment.
    Ignored,
    Set(&'a [u8]),
    Lay(&'a [u8]),
    One(OneNumber, &'a [u8]),
    Unknown,
}

fn kind_of(line: &[u8]) -> GroupLineKind<'_>
    ensures { IsGroupLineKind (fields line.now) result }
{
    match split_field(line) {
        None | Some(([b'#', ..], _)) => GroupLineKind::Ignored,
        Some((b"set", numbers)) => GroupLineKind::Set(numbers),
        Some((b"lay", numbers)) => GroupLineKind::Lay(numbers),
        Some((word, numbers)) => match word_of_one(word) {
            Some(word) => GroupLineKind::One(word, numbers),
            None => GroupLineKind::Unknown,
        },
    }
}

/// The one number after the word of a command or of a script's event, at most 2^63 - 1. It fails with `BadLine` unless there is one numeral and nothing
/// else, and with `NumberRange` if the numeral has a minus or is greater.
///
/// ` 7` gives 7; ` 7 8` and ` x` are refused with `BadLine`, ` -7` with `NumberRange`.
pub fn number(numbers: &[u8]) -> Result<u64, Code>
    ensures { result ≡ number_read (one_numeral (fields numbers.now)) }
{
    match split_one(numbers) {
        None => Err(Code::BadLine),
        Some(number) => {
            if number.is_refused() {
                return Err(Code::NumberRange);
            }
            Ok(number.size)
        }
    }
}

/// The two numbers after such a word, judged as by `number`.
pub fn two_numbers(numbers: &[u8]) -> Result<(u64, u64), Code>
    ensures { result ≡ numbers_read (two_numerals (fields numbers.now)) }
{
    match split_two(numbers) {
        None => Err(Code::BadLine),
        Some((first, second)) => {
            if first.is_refused() || second.is_refused() {
                return Err(Code::NumberRange);
            }
            Ok((first.size, second.size))
        }
    }
}

/// The three numbers after such a word, judged as by `number`.
pub fn three_numbers(numbers: &[u8]) -> Result<(u64, u64, u64), Code>
    ensures { result ≡ three_read (three_numerals (fields numbers.now)) }
{
    match split_three(numbers) {
        None => Err(Code::BadLine),
        Some((first, second, third)) => {
            if first.is_refused() || (second.is_refused() || third.is_refused()) {
                return Err(Code::NumberRange);
            }
            Ok((first.size, second.size, third.size))
        }
    }
}

/// What a line of a command text says that neither begins nor ends a group: a command, or nothing. It fails with `BadLine` for another word or other
/// numbers than the command has, and with `NumberRange` for a number with a minus or above 2^63 - 1.
pub fn read_command(line: &[u8]) -> Result<Option<Command>, Code>
    ensures { ReadsCommandLine (fields line.now) result }
{
    match kind_of(line) {
        GroupLineKind::Ignored => Ok(None),
        GroupLineKind::Set(numbers) => {
            let (arc, length) = two_numbers(numbers)?;
            Ok(Some(Command::Set { arc, length }))
        }
        GroupLineKind::Lay(numbers) => {
            let (tail, head, length) = three_numbers(numbers)?;
            Ok(Some(Command::Lay { tail, head, length }))
        }
        GroupLineKind::One(word, numbers) => Ok(Some(word.command(number(numbers)?))),
        GroupLineKind::Unknown => Err(Code::BadLine),
    }
}

/// Whether a line begins a group or ends one, with what follows its first field.
pub enum Bound<'a> {
    Begin(&'a [u8]),
    End(&'a [u8]),
    Other,
}

/// Whether the line begins a group or ends one. What follows its word is not examined.
pub fn bound_of(line: &[u8]) -> Bound<'_>
    ensures { IsGroupBound (fields line.now) result }
{
    match split_field(line) {
        Some((b"begin", rest)) => Bound::Begin(rest),
        Some((b"end", rest)) => Bound::End(rest),
        _ => Bound::Other,
    }
}

/// Adds a group. Returns whether there was memory for it.
fn keep(closed: &mut Vec<Group>, group: Group) -> bool
    ensures { closed.new.items ≡ (if result then closed.old.items ++ group ∷ [] else closed.old.items) }
{
    closed.push(group).is_ok()
}

/// Whether there is no field.
pub fn is_blank(rest: &[u8]) -> bool
    ensures { result ≡ is_empty (fields rest.now) }
{
    split_field(rest).is_none()
}

impl GroupLines {
    ghost use Rattle.std.specs.Prelude.{[], ◌∷◌};
    ghost use lib.Chars.{codes};
    ghost use Rattle.dimacs.specs.Commanded.{command_of, begins, ends, group_code};
    ghost use Rattle.dimacs.specs.Commands.{commands, command_code};
    ghost use Rattle.dimacs.specs.CommandReading.{HasGroups};
    ghost use Rattle.dimacs.specs.Taking.{Takes};

    fn new(alloc: Global) -> GroupLines
        ensures { HasGroups [] result }
    {
        GroupLines {
            closed: Vec::new(alloc),
            open: OpenGroup::none(alloc),
        }
    }

    /// Takes a line `begin`, with what follows the word.
    fn begin(&mut self, rest: &[u8]) -> Result<(), Code>
        ensures reads_nothing { IfErr result (λ code. code ≢ Code.Read) }
        ensures takes { (earlier : List Row) → HasGroups earlier self.old → Takes group_code HasGroups earlier (codes "begin" ∷ fields rest.now) self.new result }
    {
        if !is_blank(rest) {
            return Err(Code::BadLine);
        }
        match self.open.begin() {
            Ok(()) => Ok(()),
            Err(code) => Err(code),
        }
    }

    /// Takes a line `end`, with what follows the word.
    fn end(&mut self, rest: &[u8]) -> Result<(), Code>
        ensures reads_nothing { IfErr result (λ code. code ≢ Code.Read) }
        ensures takes { (earlier : List Row) → HasGroups earlier self.old → Takes group_code HasGroups earlier (codes "end" ∷ fields rest.now) self.new result }
    {
        if !is_blank(rest) {
            return Err(Code::BadLine);
        }
        let group = match self.open.end() {
            Ok(group) => group,
            Err(code) => return Err(code),
        };
        if !keep(&mut self.closed, group) {
            return Err(Code::OutOfMemory);
        }
        Ok(())
    }

    /// Takes a line with this command.
    fn add(&mut self, command: Command) -> Result<(), Code>
        ensures reads_nothing { IfErr result (λ code. code ≢ Code.Read) }
        ensures takes { (earlier : List Row) (row : Row) → begins row ≡ false → ends row ≡ false → command_code commands earlier row ≡ None → command_of row ≡ Some command → HasGroups earlier self.old → Takes group_code HasGroups earlier row self.new result }
    {
        if !self.open.is_open() {
            if !keep(&mut self.closed, Group::one(command)) {
                return Err(Code::OutOfMemory);
            }
            return Ok(());
        }
        match self.open.add(command) {
            Ok(()) => Ok(()),
            Err(code) => Err(code),
        }
    }
}

impl TakeLines for GroupLines {
    ghost use Rattle.std.specs.Prelude.{refl};
    ghost use Rattle.dimacs.specs.Commanded.{group_code};
    ghost use Rattle.dimacs.specs.CommandReading.{HasGroups};
    ghost use Rattle.dimacs.specs.Overflow.{bad_line};

    ghost judge = { group_code };

    ghost has_taken = { HasGroups };

    ghost COMMENT = { 35 };

    ghost code_of_overflow = { bad_line };

    const COMMENT: u8 = b'#';

    fn take_line(&mut self, line: &[u8]) -> Result<(), Code> {
        match bound_of(line) {
            Bound::Begin(rest) => self.begin(rest),
            Bound::End(rest) => self.end(rest),
            Bound::Other => {
                let Some(command) = read_command(line)? else {
                    return Ok(());
                };
                self.add(command)
            }
        }
    }

    fn pass_comment(&mut self) {}

    fn overflow_decides(&self) {}

    fn same_is_taken(&self) {}

    ghost run_is_no_comment = { refl };

    ghost return_is_no_comment = { refl };

    ghost blank_is_no_comment = { refl };
}

ghost use Rattle.dimacs.specs.Calling.{KeepsText};
ghost use Rattle.dimacs.specs.Commanded.{group_text};
ghost use Rattle.dimacs.specs.Counts.{CountsFailures};
ghost use Rattle.dimacs.specs.Texts.{InMemory, EndsText, ReadsText, map_ok};

/// The groups at the end of a text. The text must not end within a group.
fn groups_at_end(ended: Ended<GroupLines>) -> Result<Vec<Group>, Fault>
    ensures reads_nothing { IfErr result (λ fault. fault.code ≢ Code.Read) }
    ensures ends { (lines : List Row) → HasGroups lines ended.taker → ended.lines ≡ length lines → EndsText group_text lines (map_ok vec_items result) }
{
    let Ended {
        taker,
        lines,
        at_run: _,
    } = ended;
    let GroupLines { closed, open } = taker;
    if open.is_open() {
        return Err(Fault {
            line: lines,
            code: Code::OpenGroup,
        });
    }
    Ok(closed)
}

/// The groups of commands in a text, in the order of their lines, or the text's first fault. The lines `begin` and `end` enclose the commands of a group;
/// any other command is a group of one. Whether numbers are in range is judged when the commands are carried out. The count of failed calls distinguishes a
/// failed read from a fault of the text. After an `Err` the text is not used again. The call takes 40 bytes for each group, and 32 for each command between
/// `begin` and `end`.
///
/// With `/` for a line feed, `begin / close 7 / set 8 4 / end / reopen 7` gives two groups, of two commands and of one. `begin / end` gives
/// line 2, `GroupSize`; `begin / close 7` gives line 2, `OpenGroup`; `begin / begin` and `end` give `BadLine`.
pub fn read_commands<S: Text>(alloc: Global, text: &mut S) -> Result<Vec<Group>, Fault>
    ensures read { IfSome (S.bytes text.old) (λ bytes. ReadsText group_text bytes (S.source text.new) (map_ok vec_items result)) }
    ensures counts { KeepsText CountsFailures S.Text result text.old text.new }
{
    let ended = text.give_lines(alloc, GroupLines::new(alloc))?;
    groups_at_end(ended)
}

/// The groups of commands in a text in memory, as by `read_commands`.
pub fn parse_commands(alloc: Global, bytes: &[u8]) -> Result<Vec<Group>, Fault>
    ensures { ReadsText group_text bytes.now InMemory (map_ok vec_items result) }
{
    let mut text = bytes;
    read_commands(alloc, &mut text)
}
