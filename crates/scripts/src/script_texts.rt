//! The texts of scripts.
ghost use Rattle.std.specs.Prelude.{◌≡◌, ◌≢◌, ◌∷◌, List, length, true, false, None, Some, Ok, IfSome, IfErr, map};
ghost use Rattle.dimacs.specs.Lines.{fields};
ghost use Rattle.dimacs.specs.Faults.{Row};
ghost use Rattle.dimacs.specs.Texts.{InMemory, EndsText, ReadsText, map_ok};
ghost use Rattle.dimacs.specs.Calling.{KeepsText};
ghost use Rattle.dimacs.specs.Counts.{CountsFailures};
ghost use Rattle.scripts.specs.ScriptTexts.{as_line, script_text};
ghost use Rattle.scripts.specs.ScriptReading.{HasEvents, IsScriptLineKind, script_spelling, ReadsEvent, ReadsScriptLine};

use crate::script_steps::step_event;
use crate::script_stops::stop_event;
use crate::script_words::{
    BareScriptWord, ScriptWord, bare_event, lay_event, one_event, two_event, word_of,
};
use dimacs::{
    Bound, Code, Ended, Fault, OneNumber, OpenGroup, TakeLines, Text, TwoNumbers, bound_of,
    is_blank, number, read_command, split_field, three_numbers, two_numbers,
};
use disk::Pick;
use machine::Event;
use roadnet::Command;
use std::alloc::Global;

/// The events of the lines so far.
#[derive(Drop)]
pub struct EventLines {
    alloc: Global,
    events: Vec<Event<Pick>>,
    /// The group that is open, if one is.
    open: OpenGroup,
}

/// A line by its word, with what follows it.
enum ScriptLineKind<'a> {
    /// A line with no field, or a comment.
    Ignored,
    Known(ScriptWord, &'a [u8]),
    Unknown,
}

fn kind_of(line: &[u8]) -> ScriptLineKind<'_>
    ensures { IsScriptLineKind (fields line.now) result }
{
    match split_field(line) {
        None | Some(([b'#', ..], _)) => ScriptLineKind::Ignored,
        Some((first, rest)) => match word_of(first) {
            Some(word) => ScriptLineKind::Known(word, rest),
            None => ScriptLineKind::Unknown,
        },
    }
}

/// The event of a word alone, or the fault of what follows it.
fn read_bare(word: BareScriptWord, rest: &[u8]) -> Result<Event<Pick>, Code>
    ensures { ReadsEvent (script_spelling (ScriptWord.WithNone word) ∷ fields rest.now) result }
{
    match split_field(rest) {
        None => Ok(bare_event(word)),
        Some(_) => Err(Code::BadLine),
    }
}

/// The event of a word with one number, or the fault of what follows it.
fn read_one(word: OneNumber, rest: &[u8]) -> Result<Event<Pick>, Code>
    ensures { ReadsEvent (script_spelling (ScriptWord.WithOne word) ∷ fields rest.now) result }
{
    Ok(one_event(word, number(rest)?))
}

/// The event of a word with two numbers, or the fault of what follows it.
fn read_two(word: TwoNumbers, rest: &[u8]) -> Result<Event<Pick>, Code>
    ensures { ReadsEvent (script_spelling (ScriptWord.WithTwo word) ∷ fields rest.now) result }
{
    let (first, second) = two_numbers(rest)?;
    Ok(two_event(word, first, second))
}

/// The event of `lay`, or the fault of what follows it.
fn read_lay(rest: &[u8]) -> Result<Event<Pick>, Code>
    ensures { ReadsEvent (script_spelling ScriptWord.Lay ∷ fields rest.now) result }
{
    let (tail, head, length) = three_numbers(rest)?;
    Ok(lay_event(tail, head, length))
}

/// The event of a word, or the fault of what follows it.
fn read_event(alloc: Global, word: ScriptWord, rest: &[u8]) -> Result<Event<Pick>, Code>
    ensures { ReadsEvent (script_spelling word ∷ fields rest.now) result }
{
    match word {
        ScriptWord::WithNone(word) => read_bare(word, rest),
        ScriptWord::WithOne(word) => read_one(word, rest),
        ScriptWord::WithTwo(word) => read_two(word, rest),
        ScriptWord::Lay => read_lay(rest),
        ScriptWord::Stop => stop_event(alloc, rest),
        ScriptWord::Step => step_event(rest),
    }
}

/// What a line of a script outside of groups says: an event, or nothing.
fn read_line(alloc: Global, line: &[u8]) -> Result<Option<Event<Pick>>, Code>
    ensures { ReadsScriptLine (fields line.now) result }
{
    match kind_of(line) {
        ScriptLineKind::Ignored => Ok(None),
        ScriptLineKind::Known(word, rest) => Ok(Some(read_event(alloc, word, rest)?)),
        ScriptLineKind::Unknown => Err(Code::BadLine),
    }
}

impl EventLines {
    ghost use Rattle.std.specs.Prelude.{◌++◌, [], is_some, if◌then◌else◌};
    ghost use lib.Chars.{codes};
    ghost use Rattle.dimacs.specs.Commanded.{command_of, begins, ends};
    ghost use Rattle.dimacs.specs.Commands.{commands, command_code};
    ghost use Rattle.dimacs.specs.Taking.{Takes};
    ghost use Rattle.scripts.specs.ScriptTexts.{script_line_code};
    ghost use Rattle.scripts.specs.ScriptReading.{HasEvents};

    /// No line has been taken.
    fn new(alloc: Global) -> EventLines
        ensures { HasEvents [] result }
    {
        EventLines {
            alloc,
            events: Vec::new(alloc),
            open: OpenGroup::none(alloc),
        }
    }

    /// Adds an event. Returns whether there was memory for it.
    fn keep(&mut self, event: Event<Pick>) -> bool
        ensures kept { self.new.events.items ≡ (if result then self.old.events.items ++ event ∷ [] else self.old.events.items) }
        ensures open { self.new.open ≡ self.old.open }
    {
        self.events.push(event).is_ok()
    }

    /// Takes a line `begin`, with what follows the word.
    fn begin(&mut self, rest: &[u8]) -> Result<(), Code>
        ensures reads_nothing { IfErr result (λ code. code ≢ Code.Read) }
        ensures takes { (earlier : List Row) → HasEvents earlier self.old → Takes script_line_code HasEvents earlier (codes "begin" ∷ fields rest.now) self.new result }
    {
        if !is_blank(rest) {
            return Err(Code::BadLine);
        }
        match self.open.begin() {
            Ok(()) => Ok(()),
            Err(code) => Err(code),
        }
    }

    /// Takes a line `end`, with what follows the word: then the group is an event.
    fn end(&mut self, rest: &[u8]) -> Result<(), Code>
        ensures reads_nothing { IfErr result (λ code. code ≢ Code.Read) }
        ensures takes { (earlier : List Row) → HasEvents earlier self.old → Takes script_line_code HasEvents earlier (codes "end" ∷ fields rest.now) self.new result }
    {
        if !is_blank(rest) {
            return Err(Code::BadLine);
        }
        let group = match self.open.end() {
            Ok(group) => group,
            Err(code) => return Err(code),
        };
        if !self.keep(Event::Submit { group }) {
            return Err(Code::OutOfMemory);
        }
        Ok(())
    }

    /// Takes a line of a group with this command.
    fn add(&mut self, command: Command) -> Result<(), Code>
        requires { is_some self.old.open ≡ true }
        ensures reads_nothing { IfErr result (λ code. code ≢ Code.Read) }
        ensures takes { (earlier : List Row) (row : Row) → begins row ≡ false → ends row ≡ false → command_code commands earlier row ≡ None → command_of row ≡ Some command → HasEvents earlier self.old → Takes script_line_code HasEvents earlier row self.new result }
    {
        match self.open.add(command) {
            Ok(()) => Ok(()),
            Err(code) => Err(code),
        }
    }

    /// Takes a line of a group that is neither `begin` nor `end`: a command, or nothing.
    fn take_within(&mut self, line: &[u8]) -> Result<(), Code>
        requires within { is_some self.old.open ≡ true }
        requires no_bound { (begins (fields line.now) ≡ false) × (ends (fields line.now) ≡ false) }
        ensures reads_nothing { IfErr result (λ code. code ≢ Code.Read) }
        ensures takes { (earlier : List Row) → HasEvents earlier self.old → Takes script_line_code HasEvents earlier (fields line.now) self.new result }
    {
        match read_command(line)? {
            None => Ok(()),
            Some(command) => self.add(command),
        }
    }

    /// Takes a line outside of groups that is neither `begin` nor `end`: an event, or nothing.
    fn take_event(&mut self, line: &[u8]) -> Result<(), Code>
        requires outside { self.old.open ≡ None }
        requires no_bound { (begins (fields line.now) ≡ false) × (ends (fields line.now) ≡ false) }
        ensures reads_nothing { IfErr result (λ code. code ≢ Code.Read) }
        ensures takes { (earlier : List Row) → HasEvents earlier self.old → Takes script_line_code HasEvents earlier (fields line.now) self.new result }
    {
        match read_line(self.alloc, line)? {
            None => Ok(()),
            Some(event) => {
                if !self.keep(event) {
                    return Err(Code::OutOfMemory);
                }
                Ok(())
            }
        }
    }
}

impl TakeLines for EventLines {
    ghost use Rattle.std.specs.Prelude.{refl};
    ghost use Rattle.scripts.specs.ScriptTexts.{script_line_code};
    ghost use Rattle.scripts.specs.ScriptReading.{HasEvents};
    ghost use Rattle.dimacs.specs.Overflow.{bad_line};

    ghost judge = { script_line_code };

    ghost has_taken = { HasEvents };

    ghost COMMENT = { 35 };

    ghost code_of_overflow = { bad_line };

    const COMMENT: u8 = b'#';

    fn take_line(&mut self, line: &[u8]) -> Result<(), Code> {
        match bound_of(line) {
            Bound::Begin(rest) => self.begin(rest),
            Bound::End(rest) => self.end(rest),
            Bound::Other => {
                if self.open.is_open() {
                    self.take_within(line)
                } else {
                    self.take_event(line)
                }
            }
        }
    }

    fn pass_comment(&mut self) {}

    fn overflow_decides(&self) {}

    fn same_is_taken(&self) {}

    ghost run_is_no_comment = { refl };

    ghost return_is_no_comment = { refl };

    ghost blank_is_no_comment = { refl };
}

/// The events at the end of a script. The script must not end within a group.
fn events_at_end(ended: Ended<EventLines>) -> Result<Vec<Event<Pick>>, Fault>
    ensures reads_nothing { IfErr result (λ fault. fault.code ≢ Code.Read) }
    ensures ends { (lines : List Row) → HasEvents lines ended.taker → ended.lines ≡ length lines → EndsText script_text lines (map_ok (λ events. map as_line events.items) result) }
{
    let Ended {
        taker,
        lines,
        at_run: _,
    } = ended;
    let EventLines {
        alloc: _,
        events,
        open,
    } = taker;
    if open.is_open() {
        return Err(Fault {
            line: lines,
            code: Code::OpenGroup,
        });
    }
    Ok(events)
}

/// The events of a script, in the order of its lines, or the script's first fault. The lines `begin` and `end` enclose the commands of a group, which is an
/// event at its `end`; any other command is a group of one. Whether numbers name an arc, a node or a length is judged when the event is run. The count of
/// failed calls distinguishes a failed read from a fault of the text. After an `Err` the text is not used again. The call takes the memory of an event for
/// each line, and 32 bytes for each command between `begin` and `end`.
pub fn read_script<S: Text>(alloc: Global, text: &mut S) -> Result<Vec<Event<Pick>>, Fault>
    ensures read { IfSome (S.bytes text.old)
        (λ bytes. ReadsText script_text bytes (S.source text.new) (map_ok (λ events. map as_line events.items) result)) }
    ensures counts { KeepsText CountsFailures S.Text result text.old text.new }
{
    let ended = text.give_lines(alloc, EventLines::new(alloc))?;
    events_at_end(ended)
}

/// The events of a script in memory, as by `read_script`.
pub fn parse_script(alloc: Global, bytes: &[u8]) -> Result<Vec<Event<Pick>>, Fault>
    ensures { ReadsText script_text bytes.now InMemory (map_ok (λ events. map as_line events.items) result) }
{
    let mut text = bytes;
    read_script(alloc, &mut text)
}
