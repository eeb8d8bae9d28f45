//! The words with which the lines of a script begin.
ghost use Rattle.std.specs.Prelude.{◌≡◌};
ghost use Rattle.scripts.specs.ScriptTexts.{as_line};
ghost use Rattle.scripts.specs.ScriptReading.{script_word_from, bare_script_line, one_script_line, two_script_line, lay_line};

use dimacs::{OneNumber, TwoNumbers, word_of_one, word_of_two};
use disk::Pick;
use machine::Event;
use roadnet::{Command, Group};
use rows::Query;

/// A word with no field after it.
#[derive(Clone, Copy)]
pub(crate) enum BareScriptWord {
    Flush,
    Checkpoint,
    Task,
    Publish,
}

/// A word by what follows it.
#[derive(Clone, Copy)]
pub(crate) enum ScriptWord {
    WithNone(BareScriptWord),
    WithOne(OneNumber),
    WithTwo(TwoNumbers),
    Lay,
    Stop,
    Step,
}

/// The word that a field spells.
pub(crate) fn word_of(field: &[u8]) -> Option<ScriptWord>
    ensures { result ≡ script_word_from field.now }
{
    if field == b"flush".as_slice() {
        return Some(ScriptWord::WithNone(BareScriptWord::Flush));
    }
    if field == b"checkpoint".as_slice() {
        return Some(ScriptWord::WithNone(BareScriptWord::Checkpoint));
    }
    if field == b"task".as_slice() {
        return Some(ScriptWord::WithNone(BareScriptWord::Task));
    }
    if field == b"publish".as_slice() {
        return Some(ScriptWord::WithNone(BareScriptWord::Publish));
    }
    if let Some(word) = word_of_one(field) {
        return Some(ScriptWord::WithOne(word));
    }
    if let Some(word) = word_of_two(field) {
        return Some(ScriptWord::WithTwo(word));
    }
    if field == b"lay".as_slice() {
        return Some(ScriptWord::Lay);
    }
    if field == b"stop".as_slice() {
        return Some(ScriptWord::Stop);
    }
    if field == b"step".as_slice() {
        return Some(ScriptWord::Step);
    }
    None
}

/// The event of a word alone.
pub(crate) fn bare_event(word: BareScriptWord) -> Event<Pick>
    ensures { as_line result ≡ bare_script_line word }
{
    match word {
        BareScriptWord::Flush => Event::Flush,
        BareScriptWord::Checkpoint => Event::Checkpoint,
        BareScriptWord::Task => Event::Task,
        BareScriptWord::Publish => Event::Publish,
    }
}

/// The event of a word with a number.
pub(crate) fn one_event(word: OneNumber, number: u64) -> Event<Pick>
    ensures { as_line result ≡ one_script_line word number }
{
    Event::Submit {
        group: Group::one(word.command(number)),
    }
}

/// The event of a word with two numbers.
pub(crate) fn two_event(word: TwoNumbers, first: u64, second: u64) -> Event<Pick>
    ensures { as_line result ≡ two_script_line word first second }
{
    match word {
        TwoNumbers::Set => Event::Submit {
            group: Group::one(Command::Set {
                arc: first,
                length: second,
            }),
        },
        TwoNumbers::Dist => Event::Ask {
            query: Query::Dist {
                source: first,
                target: second,
            },
        },
        TwoNumbers::From => Event::Ask {
            query: Query::From {
                landmark: first,
                target: second,
            },
        },
        TwoNumbers::Lower => Event::Ask {
            query: Query::Lower {
                source: first,
                target: second,
            },
        },
    }
}

/// The event of `lay` with its three numbers.
pub(crate) fn lay_event(tail: u64, head: u64, length: u64) -> Event<Pick>
    ensures { as_line result ≡ lay_line tail head length }
{
    Event::Submit {
        group: Group::one(Command::Lay { tail, head, length }),
    }
}
