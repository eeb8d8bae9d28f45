//! The words with which the lines of a session begin.
ghost use Rattle.std.specs.Prelude.{◌≡◌};
ghost use Rattle.std.specs.Str.{bytes_eq};
ghost use lib.Chars.{codes};
ghost use Rattle.dimacs.specs.Spelling.{spelled_word};
ghost use Rattle.session_lines.specs.Words.{one_out_of_range, two_out_of_range};
ghost use Rattle.session_lines.specs.Spelled.{bare_spelling, bare_words, one_session_spelling, one_session_words, two_session_spelling, two_session_words, session_word_from};

use dimacs::{Code, OneNumber, TwoNumbers, word_of_one, word_of_two};

/// A word with no field after it.
#[derive(Clone, Copy)]
pub enum Bare {
    Wait,
    Quit,
    Begin,
    End,
    Landmarks,
    Closed,
    State,
    Suppose,
    Forget,
}

/// A word with one number after it.
#[derive(Clone, Copy)]
pub enum One {
    /// That of a command.
    Common(OneNumber),
    Arc,
    Until,
}

/// A word with two numbers after it.
#[derive(Clone, Copy)]
pub enum Two {
    /// That of a command or of a query.
    Common(TwoNumbers),
    Arcs,
    Reach,
    Reached,
    Nearest,
    Route,
}

impl One {
    /// The code, within a group, of a line with this word whose number is out of range: 5 for a command, 1 for any other line.
    pub fn out_of_range(self) -> Code
        ensures { result ≡ one_out_of_range self }
    {
        match self {
            One::Common(_) => Code::NumberRange,
            One::Arc => Code::BadLine,
            One::Until => Code::BadLine,
        }
    }
}

impl Two {
    /// The same for a line with two numbers.
    pub fn out_of_range(self) -> Code
        ensures { result ≡ two_out_of_range self }
    {
        match self {
            Two::Common(TwoNumbers::Set) => Code::NumberRange,
            Two::Common(TwoNumbers::Dist) => Code::BadLine,
            Two::Common(TwoNumbers::From) => Code::BadLine,
            Two::Common(TwoNumbers::Lower) => Code::BadLine,
            Two::Arcs => Code::BadLine,
            Two::Reach => Code::BadLine,
            Two::Reached => Code::BadLine,
            Two::Nearest => Code::BadLine,
            Two::Route => Code::BadLine,
        }
    }
}

/// A word by the numbers that follow it.
#[derive(Clone, Copy)]
pub enum SessionWord {
    WithNone(Bare),
    WithOne(One),
    WithTwo(Two),
    /// `lay`, with three numbers after it.
    Lay,
}

/// The word with one number that a field spells.
fn one_of_session(field: &[u8]) -> Option<One>
    ensures { result ≡ spelled_word one_session_spelling one_session_words field.now }
{
    if let Some(word) = word_of_one(field) {
        return Some(One::Common(word));
    }
    if field == b"arc".as_slice() {
        return Some(One::Arc);
    }
    if field == b"until".as_slice() {
        return Some(One::Until);
    }
    None
}

/// The word with two numbers that a field spells.
fn two_of_session(field: &[u8]) -> Option<Two>
    ensures { result ≡ spelled_word two_session_spelling two_session_words field.now }
{
    if let Some(word) = word_of_two(field) {
        return Some(Two::Common(word));
    }
    if field == b"arcs".as_slice() {
        return Some(Two::Arcs);
    }
    if field == b"reach".as_slice() {
        return Some(Two::Reach);
    }
    if field == b"reached".as_slice() {
        return Some(Two::Reached);
    }
    if field == b"nearest".as_slice() {
        return Some(Two::Nearest);
    }
    if field == b"route".as_slice() {
        return Some(Two::Route);
    }
    None
}

/// The word without numbers that a field spells.
fn bare_of_session(field: &[u8]) -> Option<Bare>
    ensures { result ≡ spelled_word bare_spelling bare_words field.now }
{
    if field == b"wait".as_slice() {
        return Some(Bare::Wait);
    }
    if field == b"quit".as_slice() {
        return Some(Bare::Quit);
    }
    if field == b"begin".as_slice() {
        return Some(Bare::Begin);
    }
    if field == b"end".as_slice() {
        return Some(Bare::End);
    }
    if field == b"landmarks".as_slice() {
        return Some(Bare::Landmarks);
    }
    if field == b"closed".as_slice() {
        return Some(Bare::Closed);
    }
    if field == b"state".as_slice() {
        return Some(Bare::State);
    }
    if field == b"suppose".as_slice() {
        return Some(Bare::Suppose);
    }
    if field == b"forget".as_slice() {
        return Some(Bare::Forget);
    }
    None
}

/// Whether a field spells `copy`, which is followed by a name and no number.
pub fn is_copy(field: &[u8]) -> bool
    ensures { result ≡ bytes_eq field.now (codes "copy") }
{
    field == b"copy".as_slice()
}

/// Whether a field spells `table`, which is followed by as many numbers as the first two of them say.
pub fn is_table(field: &[u8]) -> bool
    ensures { result ≡ bytes_eq field.now (codes "table") }
{
    field == b"table".as_slice()
}

/// The word that a field spells, if it is followed by a certain number of numbers.
pub fn word_of(field: &[u8]) -> Option<SessionWord>
    ensures { result ≡ session_word_from field.now }
{
    if let Some(word) = one_of_session(field) {
        return Some(SessionWord::WithOne(word));
    }
    if let Some(word) = two_of_session(field) {
        return Some(SessionWord::WithTwo(word));
    }
    if let Some(word) = bare_of_session(field) {
        return Some(SessionWord::WithNone(word));
    }
    if field == b"lay".as_slice() {
        return Some(SessionWord::Lay);
    }
    None
}
