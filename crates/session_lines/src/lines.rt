//! What the lines of a session ask for, and the stages of a line that is judged byte by byte. Of a line only a word, a name, and the numbers of a table are kept.
ghost use Rattle.std.specs.Prelude.{◌≡◌, ◌||◌, ◌∷◌, ◌++◌, [], List, ℕ, Some, true, false};
ghost use Rattle.std.specs.Bool.{Decides};
ghost use Rattle.dimacs.specs.declared.fault.Code.TheVariants.{BadLine as bad_line};
ghost use Rattle.dimacs.specs.Commands.{is_refused};
ghost use Rattle.dimacs.specs.Faults.{Row};
ghost use Rattle.dimacs.specs.Lines.{is_blank, fields};
ghost use Rattle.session_lines.specs.Fields.{IsNumbers};
ghost use Rattle.session_lines.specs.Spelled.{session_spelling};
ghost use Rattle.session_lines.specs.Words.{bare_line, one_line, two_line};
ghost use Rattle.session_lines.specs.SessionLines.{IsLine, session_code};
ghost use Rattle.session_lines.specs.Judging.{IsStage};
ghost use Rattle.session_lines.specs.SessionLines.{is_quit};

use crate::asked_tables::Table;
use crate::fields::{Field, Numbers, one_of, three_of, two_of};
use crate::letters::Letters;
use crate::names::{Name, is_name_byte};
use crate::tables::Listing;
use crate::words::{Bare, One, SessionWord, Two};
use dimacs::{Code, Numeral, TwoNumbers};
use printing::Look;
use roadnet::Command;
use rows::{Near, Query};
use std::alloc::Global;

/// What a line asks for.
#[derive(Drop)]
pub enum Line {
    /// Nothing: a line with no field, or a comment.
    Ignored,
    Command(Command),
    Query(Query),
    /// What the network has.
    Look(Look),
    /// The nodes near a node.
    Near(Near),
    /// The arcs of a shortest walk.
    Route { source: u64, target: u64 },
    /// The lengths of all pairs of sources and targets.
    Table(Table),
    /// A table for whose numbers there was no memory.
    Unkept,
    /// A copy of the network, under this name.
    Copy(Name),
    /// To wait until the session's last accepted command is shown.
    Wait,
    /// To wait until this version is shown.
    Until(u64),
    /// The state of the desk.
    State,
    /// A group begins that is to be supposed.
    Suppose,
    /// What is supposed is given up.
    Forget,
    Quit,
    /// A group begins.
    Begin,
    /// The group ends.
    End,
    /// It has the first fault if it is alone, and the second within a group: 1 BadLine or 5 NumberRange.
    Refused { code: Code, grouped: Code },
}

/// A line that is a bad line everywhere (1).
pub fn bad_line() -> Line
    ensures { (row : Row) → session_code row ≡ Some bad_line → IsLine row result }
{
    Line::Refused {
        code: Code::BadLine,
        grouped: Code::BadLine,
    }
}

/// Whether a line ends the session.
pub fn is_quit(line: &Line) -> bool
    ensures { result ≡ is_quit line.now }
{
    matches!(line, Line::Quit)
}

/// Whether a line ends a group.
pub fn is_end(line: &Line) -> bool
    ensures { Decides result (line.now ≡ Line.End) }
{
    matches!(line, Line::End)
}

/// How far a line has come, by what it asks for.
#[derive(Drop)]
pub enum Stage {
    /// Only blanks.
    Blank,
    /// The first field, which may continue.
    Beginning(Letters),
    /// A comment, whatever follows.
    Remark,
    /// No line of a session, whatever follows.
    Unknown,
    /// After a word: the complete fields, and the one that may continue.
    Behind {
        word: SessionWord,
        numbers: Numbers,
        field: Field,
    },
    /// After `table`: the complete numbers, and the one that may continue.
    Listing {
        listing: Listing,
        field: Field,
    },
    /// After `copy`, before any byte of a name.
    Unnamed,
    /// After `copy`: the name, which may continue.
    Naming(Name),
    /// After `copy` and a complete name.
    Named(Name),
}

fn is_blank(byte: u8) -> bool
    ensures { result ≡ is_blank byte }
{
    byte == b' ' || byte == b'\t'
}

/// What a word alone asks for.
fn bare_line(word: Bare) -> Line
    ensures { result ≡ bare_line word }
{
    match word {
        Bare::Wait => Line::Wait,
        Bare::Quit => Line::Quit,
        Bare::Begin => Line::Begin,
        Bare::End => Line::End,
        Bare::Landmarks => Line::Look(Look::Landmarks),
        Bare::Closed => Line::Look(Look::Closed),
        Bare::State => Line::State,
        Bare::Suppose => Line::Suppose,
        Bare::Forget => Line::Forget,
    }
}

/// What a word with a number asks for.
fn one_line(word: One, number: u64) -> Line
    ensures { result ≡ one_line word number }
{
    match word {
        One::Common(word) => Line::Command(word.command(number)),
        One::Arc => Line::Look(Look::Arc { number }),
        One::Until => Line::Until(number),
    }
}

/// What a word with two numbers asks for.
fn two_line(word: Two, first: u64, second: u64) -> Line
    ensures { result ≡ two_line word first second }
{
    match word {
        Two::Common(TwoNumbers::Set) => Line::Command(Command::Set {
            arc: first,
            length: second,
        }),
        Two::Common(TwoNumbers::Dist) => Line::Query(Query::Dist {
            source: first,
            target: second,
        }),
        Two::Common(TwoNumbers::From) => Line::Query(Query::From {
            landmark: first,
            target: second,
        }),
        Two::Common(TwoNumbers::Lower) => Line::Query(Query::Lower {
            source: first,
            target: second,
        }),
        Two::Arcs => Line::Look(Look::Between {
            tail: first,
            head: second,
        }),
        Two::Reach => Line::Near(Near::Reach {
            source: first,
            limit: second,
        }),
        Two::Reached => Line::Near(Near::Reached {
            target: first,
            limit: second,
        }),
        Two::Nearest => Line::Near(Near::Nearest {
            source: first,
            count: second,
        }),
        Two::Route => Line::Route {
            source: first,
            target: second,
        },
    }
}

/// What a word without numbers asks for.
fn read_bare(word: Bare, numbers: Numbers) -> Line
    ensures { (row : Row) → IsNumbers row numbers → IsLine (session_spelling (SessionWord.WithNone word) ∷ row) result }
{
    match numbers {
        Numbers::Nothing => bare_line(word),
        Numbers::One(_) => bad_line(),
        Numbers::Two(..) => bad_line(),
        Numbers::Three(..) => bad_line(),
        Numbers::TooMany => bad_line(),
    }
}

/// What a word with one number after it asks for.
fn read_one(word: One, numbers: Numbers) -> Line
    ensures { (row : Row) → IsNumbers row numbers → IsLine (session_spelling (SessionWord.WithOne word) ∷ row) result }
{
    let Some(number) = one_of(numbers) else {
        return bad_line();
    };
    if number.is_refused() {
        return Line::Refused {
            code: Code::NumberRange,
            grouped: word.out_of_range(),
        };
    }
    one_line(word, number.size)
}

/// What a word with two numbers after it asks for.
fn read_two(word: Two, numbers: Numbers) -> Line
    ensures { (row : Row) → IsNumbers row numbers → IsLine (session_spelling (SessionWord.WithTwo word) ∷ row) result }
{
    let Some((first, second)) = two_of(numbers) else {
        return bad_line();
    };
    if first.is_refused() || second.is_refused() {
        return Line::Refused {
            code: Code::NumberRange,
            grouped: word.out_of_range(),
        };
    }
    two_line(word, first.size, second.size)
}

/// Whether one of three numbers is refused.
fn is_one_refused(first: Numeral, second: Numeral, third: Numeral) -> bool
    ensures { result ≡ (is_refused first || (is_refused second || is_refused third)) }
{
    first.is_refused() || (second.is_refused() || third.is_refused())
}

/// What `lay` asks for, given the tail, the head and the length after it.
fn read_lay(numbers: Numbers) -> Line
    ensures { (row : Row) → IsNumbers row numbers → IsLine (session_spelling SessionWord.Lay ∷ row) result }
{
    let Some((tail, head, length)) = three_of(numbers) else {
        return bad_line();
    };
    if is_one_refused(tail, head, length) {
        return Line::Refused {
            code: Code::NumberRange,
            grouped: Code::NumberRange,
        };
    }
    Line::Command(Command::Lay {
        tail: tail.size,
        head: head.size,
        length: length.size,
    })
}

/// What a line asks for, given its word and what follows it.
fn read_line(word: SessionWord, numbers: Numbers) -> Line
    ensures { (row : Row) → IsNumbers row numbers → IsLine (session_spelling word ∷ row) result }
{
    match word {
        SessionWord::WithNone(word) => read_bare(word, numbers),
        SessionWord::WithOne(word) => read_one(word, numbers),
        SessionWord::WithTwo(word) => read_two(word, numbers),
        SessionWord::Lay => read_lay(numbers),
    }
}

/// A line that begins with this byte, which is not a blank.
fn beginning(byte: u8) -> Stage
    requires { is_blank byte ≡ false }
    ensures { (front : List ℕ) → IsStage front Stage.Blank → IsStage (front ++ byte ∷ []) result }
{
    if byte == b'#' {
        return Stage::Remark;
    }
    Stage::Beginning(Letters::one(byte))
}

/// A line whose first field continues with this byte.
fn going_on(letters: Letters, byte: u8) -> Stage
    requires { is_blank byte ≡ false }
    ensures { (front : List ℕ) → IsStage front (Stage.Beginning letters) → IsStage (front ++ byte ∷ []) result }
{
    match letters.with(byte) {
        Some(letters) => Stage::Beginning(letters),
        None => Stage::Unknown,
    }
}

/// A line whose first field is complete.
fn behind(alloc: Global, letters: Letters, blank: u8) -> Stage
    requires { is_blank blank ≡ true }
    ensures { (front : List ℕ) → IsStage front (Stage.Beginning letters) → IsStage (front ++ blank ∷ []) result }
{
    if letters.are_copy() {
        return Stage::Unnamed;
    }
    if letters.are_table() {
        return Stage::Listing {
            listing: Listing::new(alloc),
            field: Field::Unbegun,
        };
    }
    match letters.word() {
        Some(word) => Stage::Behind {
            word,
            numbers: Numbers::Nothing,
            field: Field::Unbegun,
        },
        None => Stage::Unknown,
    }
}

/// A line that continues after its word.
fn with_field(word: SessionWord, numbers: Numbers, field: Field, byte: u8) -> Stage
    ensures { (front : List ℕ) → IsStage front (Stage.Behind word numbers field) → IsStage (front ++ byte ∷ []) result }
{
    if is_blank(byte) {
        return Stage::Behind {
            word,
            numbers: numbers.ended(field),
            field: Field::Unbegun,
        };
    }
    Stage::Behind {
        word,
        numbers,
        field: field.with(byte),
    }
}

/// A line `table` that continues after its word.
fn with_number(listing: Listing, field: Field, byte: u8) -> Stage
    ensures { (front : List ℕ) → IsStage front (Stage.Listing listing field) → IsStage (front ++ byte ∷ []) result }
{
    if is_blank(byte) {
        return Stage::Listing {
            listing: listing.ended(field),
            field: Field::Unbegun,
        };
    }
    Stage::Listing {
        listing,
        field: field.with(byte),
    }
}

/// What a line `table` that ends here asks for.
fn listed_line(listing: Listing, field: Field) -> Line
    ensures { (front : List ℕ) → IsStage front (Stage.Listing listing field) → IsLine (fields front) result }
{
    let listing = listing.ended(field);
    listing.line()
}

/// A line `copy` whose name begins with this byte, which is not a blank.
fn naming(byte: u8) -> Stage
    requires { is_blank byte ≡ false }
    ensures { (front : List ℕ) → IsStage front Stage.Unnamed → IsStage (front ++ byte ∷ []) result }
{
    if is_name_byte(byte) {
        return Stage::Naming(Name::one(byte));
    }
    Stage::Unknown
}

/// A line `copy` whose name continues with this byte, which is not a blank.
fn naming_on(name: Name, byte: u8) -> Stage
    requires { is_blank byte ≡ false }
    ensures { (front : List ℕ) → IsStage front (Stage.Naming name) → IsStage (front ++ byte ∷ []) result }
{
    if !is_name_byte(byte) {
        return Stage::Unknown;
    }
    match name.with(byte) {
        Some(name) => Stage::Naming(name),
        None => Stage::Unknown,
    }
}

/// A line `copy` with a name that continues with this byte.
fn with_name(name: Name, byte: u8) -> Stage
    ensures { (front : List ℕ) → IsStage front (Stage.Naming name) → IsStage (front ++ byte ∷ []) result }
{
    if is_blank(byte) {
        return Stage::Named(name);
    }
    naming_on(name, byte)
}

/// A line `copy` with a complete name that continues with this byte. No other field may follow.
fn behind_name(name: Name, byte: u8) -> Stage
    ensures { (front : List ℕ) → IsStage front (Stage.Named name) → IsStage (front ++ byte ∷ []) result }
{
    if is_blank(byte) {
        return Stage::Named(name);
    }
    Stage::Unknown
}

impl Stage {
    /// The line with one more byte. It only takes memory for the numbers of a table.
    pub fn with(self, alloc: Global, byte: u8) -> Stage
        ensures { (front : List ℕ) → IsStage front self → IsStage (front ++ byte ∷ []) result }
    {
        match self {
            Stage::Blank => {
                if is_blank(byte) {
                    Stage::Blank
                } else {
                    beginning(byte)
                }
            }
            Stage::Beginning(letters) => {
                if is_blank(byte) {
                    behind(alloc, letters, byte)
                } else {
                    going_on(letters, byte)
                }
            }
            Stage::Remark => Stage::Remark,
            Stage::Unknown => Stage::Unknown,
            Stage::Behind {
                word,
                numbers,
                field,
            } => with_field(word, numbers, field, byte),
            Stage::Listing { listing, field } => with_number(listing, field, byte),
            Stage::Unnamed => {
                if is_blank(byte) {
                    Stage::Unnamed
                } else {
                    naming(byte)
                }
            }
            Stage::Naming(name) => with_name(name, byte),
            Stage::Named(name) => behind_name(name, byte),
        }
    }

    /// What the line asks for if it ends here.
    pub fn line(self) -> Line
        ensures { (front : List ℕ) → IsStage front self → IsLine (fields front) result }
    {
        match self {
            Stage::Blank => Line::Ignored,
            Stage::Remark => Line::Ignored,
            Stage::Unknown => bad_line(),
            Stage::Beginning(letters) => match letters.word() {
                Some(word) => read_line(word, Numbers::Nothing),
                None => bad_line(),
            },
            Stage::Behind {
                word,
                numbers,
                field,
            } => read_line(word, numbers.ended(field)),
            Stage::Listing { listing, field } => listed_line(listing, field),
            Stage::Unnamed => bad_line(),
            Stage::Naming(name) => Line::Copy(name),
            Stage::Named(name) => Line::Copy(name),
        }
    }
}
