//! The words of commands and queries, with which lines of several kinds of text begin.
ghost use Rattle.std.specs.Prelude.{◌≡◌};
ghost use Rattle.dimacs.specs.Spelling.{spelled_word, one_spelling, one_words, one_command, two_spelling, two_words};

use roadnet::Command;

/// A word of a command that has one number after it.
#[derive(Clone, Copy)]
pub enum OneNumber {
    Close,
    Reopen,
    Mark,
    Unmark,
}

impl OneNumber {
    /// The command of this word with the number after it: that of a node after `mark` and `unmark`, otherwise that of an arc.
    pub fn command(self, number: u64) -> Command
        ensures { result ≡ one_command self number }
    {
        match self {
            OneNumber::Close => Command::Close { arc: number },
            OneNumber::Reopen => Command::Reopen { arc: number },
            OneNumber::Mark => Command::Mark { node: number },
            OneNumber::Unmark => Command::Unmark { node: number },
        }
    }
}

/// A word with two numbers after it. `set` is a command, the others are queries.
#[derive(Clone, Copy)]
pub enum TwoNumbers {
    Set,
    Dist,
    From,
    Lower,
}

/// The word with one number that a field spells: `close`, `reopen`, `mark` or `unmark`.
pub fn word_of_one(field: &[u8]) -> Option<OneNumber>
    ensures { result ≡ spelled_word one_spelling one_words field.now }
{
    if field == b"close".as_slice() {
        return Some(OneNumber::Close);
    }
    if field == b"reopen".as_slice() {
        return Some(OneNumber::Reopen);
    }
    if field == b"mark".as_slice() {
        return Some(OneNumber::Mark);
    }
    if field == b"unmark".as_slice() {
        return Some(OneNumber::Unmark);
    }
    None
}

/// The word with two numbers that a field spells: `set`, `dist`, `from` or `lower`.
pub fn word_of_two(field: &[u8]) -> Option<TwoNumbers>
    ensures { result ≡ spelled_word two_spelling two_words field.now }
{
    if field == b"set".as_slice() {
        return Some(TwoNumbers::Set);
    }
    if field == b"dist".as_slice() {
        return Some(TwoNumbers::Dist);
    }
    if field == b"from".as_slice() {
        return Some(TwoNumbers::From);
    }
    if field == b"lower".as_slice() {
        return Some(TwoNumbers::Lower);
    }
    None
}
