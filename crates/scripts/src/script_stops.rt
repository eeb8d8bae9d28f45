//! The lines of a script that stop a life.
ghost use Rattle.std.specs.Prelude.{◌≡◌, ◌+◌, ◌∷◌, ◌++◌, ◌&&◌, ◌<◌, ◌≤◌, []};
ghost use Rattle.std.specs.Option.{option_map};
ghost use lib.Chars.{codes};
ghost use Rattle.dimacs.specs.Lines.{fields};
ghost use Rattle.scripts.specs.ScriptTexts.{as_line, writing_line};
ghost use Rattle.scripts.specs.ScriptReading.{call_of_numeral, call_read, byte_of_numeral, pick_read, pick_kept, picks_read, is_in_range, ReadsPicks};
ghost use Rattle.scripts.specs.ScriptReading.{writing_word, alone_read, step_read, writing_read, map_line, cut_of, IsUnlessMemory, ReadsEvent};

use crate::script_steps::pages_of;
use dimacs::{Code, Numeral, split_field, split_one};
use disk::Pick;
use machine::{Event, Writing};
use std::alloc::Global;

/// The most picks of a stop.
const MOST_PICKS: usize = 8;

/// The most picks that are read: one more than a stop may have is enough to see that there are too many.
const MOST_READ: usize = MOST_PICKS + 1;

/// The picks at the beginning of some fields, and what follows them.
#[derive(Clone, Copy)]
pub(crate) struct PicksRead<'a> {
    /// The picks, followed by free places.
    places: [Pick; MOST_READ],
    count: usize,
    /// Whether each number is that of a byte.
    in_range: bool,
    rest: &'a [u8],
}

/// The word of an event that writes.
#[derive(Clone, Copy)]
pub(crate) enum WritingWord {
    Flush,
    Checkpoint,
    Step,
}

/// The number of a call, which is at least 1.
fn call_of(number: Numeral) -> Result<u64, Code>
    ensures { result ≡ call_of_numeral number }
{
    if number.is_refused() || number.size == 0 {
        return Err(Code::NumberRange);
    }
    Ok(number.size)
}

/// The number of a call. Nothing if the field is no numeral.
fn read_call(field: &[u8]) -> Option<Result<u64, Code>>
    ensures { result ≡ call_read field.now }
{
    let number = Numeral::parse(field)?;
    Some(call_of(number))
}

/// The pick of a number, which is at most 255.
fn byte_of(number: Numeral) -> Result<Pick, Code>
    ensures { result ≡ byte_of_numeral number }
{
    if number.is_refused() || number.size > 255 {
        return Err(Code::NumberRange);
    }
    Ok(Pick::Byte(number.size as u8))
}

/// `old`, `new` or the number of a byte. Nothing if the field is none of these.
fn read_pick(field: &[u8]) -> Option<Result<Pick, Code>>
    ensures { result ≡ pick_read field.now }
{
    if field == b"old".as_slice() {
        return Some(Ok(Pick::Old));
    }
    if field == b"new".as_slice() {
        return Some(Ok(Pick::New));
    }
    let number = Numeral::parse(field)?;
    Some(byte_of(number))
}

impl<'a> PicksRead<'a> {
    /// Appends a pick to those that were read, with what follows it. For a number that is not a byte's it puts an old byte.
    fn take(&mut self, pick: Result<Pick, Code>, rest: &'a [u8])
        requires { self.old.count < 9 }
        ensures picks { picks_read self.new ≡ picks_read self.old ++ pick_kept pick ∷ [] }
        ensures count { self.new.count ≡ self.old.count + 1 }
        ensures in_range { self.new.in_range ≡ (self.old.in_range && is_in_range pick) }
        ensures rest { self.new.rest.now ≡ rest.now }
    {
        self.places[self.count] = match pick {
            Ok(pick) => pick,
            Err(_) => {
                self.in_range = false;
                Pick::Old
            }
        };
        self.count += 1;
        self.rest = rest;
    }
}

/// Reads the picks at the beginning of the fields, up to nine.
fn read_picks<'a>(behind: &'a [u8]) -> PicksRead<'a>
    ensures read { ReadsPicks (fields behind.now) result }
    ensures within { result.count ≤ 9 }
{
    let mut read = PicksRead {
        places: [Pick::Old; MOST_READ],
        count: 0,
        in_range: true,
        rest: behind,
    };
    for _ in 0..MOST_READ {
        let Some((field, rest)) = split_field(read.rest) else {
            return read;
        };
        let Some(pick) = read_pick(field) else {
            return read;
        };
        read.take(pick, rest);
    }
    read
}

/// The word of an event that writes.
fn writing_word(field: &[u8]) -> Option<WritingWord>
    ensures { result ≡ writing_word field.now }
{
    if field == b"flush".as_slice() {
        return Some(WritingWord::Flush);
    }
    if field == b"checkpoint".as_slice() {
        return Some(WritingWord::Checkpoint);
    }
    if field == b"step".as_slice() {
        return Some(WritingWord::Step);
    }
    None
}

/// The event, if nothing follows its word.
fn alone(writing: Writing, behind: &[u8]) -> Option<Result<Writing, Code>>
    ensures { option_map (λ read. map_line writing_line read) result ≡ alone_read (writing_line writing) (fields behind.now) }
{
    match split_field(behind) {
        None => Some(Ok(writing)),
        Some(_) => None,
    }
}

/// The step with this number of pages.
fn step_of(number: Numeral) -> Result<Writing, Code>
    ensures { map_line writing_line result ≡ step_read number }
{
    let pages = pages_of(number)?;
    Ok(Writing::Step { pages })
}

/// The event at the end of the fields. Nothing if they are no event.
fn read_writing(rest: &[u8]) -> Option<Result<Writing, Code>>
    ensures { option_map (λ read. map_line writing_line read) result ≡ writing_read (fields rest.now) }
{
    let (word, behind) = split_field(rest)?;
    match writing_word(word)? {
        WritingWord::Flush => alone(Writing::Flush, behind),
        WritingWord::Checkpoint => alone(Writing::Checkpoint, behind),
        WritingWord::Step => Some(step_of(split_one(behind)?)),
    }
}

/// The event that is cut at this call, by these picks, which are all in range or not. Memory for the picks is only asked for if there is no fault.
fn cut_event(
    alloc: Global,
    call: Option<Result<u64, Code>>,
    picks: &[Pick],
    in_range: bool,
    writing: Option<Result<Writing, Code>>,
) -> Result<Event<Pick>, Code>
    ensures { IsUnlessMemory (cut_of call picks.now in_range (option_map (λ read. map_line writing_line read) writing)) (map_line as_line result) }
{
    let (Some(call), Some(writing)) = (call, writing) else {
        return Err(Code::BadLine);
    };
    if picks.is_empty() || picks.len() > MOST_PICKS {
        return Err(Code::BadLine);
    }
    let (Ok(call), true, Ok(writing)) = (call, in_range, writing) else {
        return Err(Code::NumberRange);
    };
    match Vec::from_slice(alloc, picks) {
        Ok(picks) => Ok(Event::StopWithin {
            call,
            picks,
            writing,
        }),
        Err(_) => Err(Code::OutOfMemory),
    }
}

/// The event of a line `stop`, given what follows that word.
pub(crate) fn stop_event(alloc: Global, rest: &[u8]) -> Result<Event<Pick>, Code>
    ensures { ReadsEvent (codes "stop" ∷ fields rest.now) result }
{
    let Some((call, behind)) = split_field(rest) else {
        return Ok(Event::Stop);
    };
    let read = read_picks(behind);
    let picks = &read.places[..read.count];
    let writing = read_writing(read.rest);
    cut_event(alloc, read_call(call), picks, read.in_range, writing)
}
