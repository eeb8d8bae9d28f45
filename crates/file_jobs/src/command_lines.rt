//! The lines of a text's commands, and those of them that were refused.

use dimacs::{Bound, bound_of, read_command};
use progress::ToldName;
use roadnet::Refusal;
use std::alloc::Global;
use std::cell::RefCell;
use std::io::{self, Read};
use storetexts::HearsRefusals;

/// A line of more bytes is not kept, and then no lines are reported.
const LONGEST: usize = 1 << 16;

/// Whether the line, with its end, is a command.
fn has_command(line: &[u8]) -> bool {
    let line = line.strip_suffix(b"\n").unwrap_or(line);
    let line = line.strip_suffix(b"\r").unwrap_or(line);
    match bound_of(line) {
        Bound::Begin(_) | Bound::End(_) => false,
        Bound::Other => matches!(read_command(line), Ok(Some(_))),
    }
}

/// What is noted of the lines of a text.
#[derive(Drop)]
struct Noted {
    /// The line that is being read.
    line: Vec<u8>,
    /// How many lines were read before it.
    passed: u64,
    /// The lines of the commands.
    lines: Vec<u64>,
    /// Whether all of them could be noted.
    are_all: bool,
}

impl Noted {
    /// A line has ended.
    fn end_line(&mut self) {
        self.passed = self.passed.saturating_add(1);
        if has_command(&self.line) && self.lines.push(self.passed).is_err() {
            self.are_all = false;
        }
        self.line.clear();
    }

    /// These bytes were read, or the end, if there are none.
    fn note(&mut self, bytes: &[u8]) {
        if bytes.is_empty() && !self.line.is_empty() {
            self.end_line();
        }
        for part in bytes.split_inclusive(|byte| *byte == b'\n') {
            if self.line.len() > LONGEST || self.line.extend_from_slice(part).is_err() {
                self.are_all = false;
            }
            if part.ends_with(b"\n") {
                self.end_line();
            }
        }
    }
}

/// A reader of a text of commands that notes the line of each. It passes every call on, and is what it wraps.
#[derive(Drop)]
pub struct CommandLines<S> {
    stream: S,
    noted: Noted,
}

impl<S> CommandLines<S> {
    /// Nothing is read yet.
    pub fn new(alloc: Global, stream: S) -> CommandLines<S> {
        CommandLines {
            stream,
            noted: Noted {
                line: Vec::new(alloc),
                passed: 0,
                lines: Vec::new(alloc),
                are_all: true,
            },
        }
    }

    /// The line of the command at this place, counted from 0, if all lines could be noted.
    fn line_of(&self, place: usize) -> Option<u64> {
        if !self.noted.are_all {
            return None;
        }
        self.noted.lines.get(place).copied()
    }
}

impl<S: Read> Read for CommandLines<S> {
    ghost remaining = { λ reader. S.remaining reader.stream };

    fn read(&mut self, buf: &mut [u8]) -> io::Result<usize> {
        let answer = self.stream.read(buf);
        if let Ok(count) = &answer {
            self.noted.note(&buf[..*count]);
        }
        answer
    }
}

/// The commands that were refused, by their places, in order.
#[derive(Drop)]
pub struct RefusedLines {
    commands: RefCell<Vec<(usize, Refusal)>>,
}

impl RefusedLines {
    /// None yet.
    pub fn new(alloc: Global) -> RefusedLines {
        RefusedLines {
            commands: RefCell::new(Vec::new(alloc)),
        }
    }

    /// Reports the line of each: `roadmark: NAME: line L: CODE Name`.
    pub fn tell<R: Eprint, S>(&self, rt: &R, name: &str, lines: &CommandLines<S>) {
        let Ok(commands) = self.commands.try_borrow() else {
            return;
        };
        for (place, refusal) in commands.iter() {
            if let Some(line) = lines.line_of(*place) {
                let name = ToldName { name };
                let _ = eprintln!(rt; "roadmark: {name}: line {line}: {refusal}");
            }
        }
    }
}

impl HearsRefusals for RefusedLines {
    fn refused(&self, place: usize, refusal: Refusal) {
        if let Ok(mut commands) = self.commands.try_borrow_mut() {
            let _ = commands.push((place, refusal));
        }
    }
}
