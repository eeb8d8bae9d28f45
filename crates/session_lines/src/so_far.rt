//! A line of a session, as far as it has been read.
ghost use Rattle.std.specs.Prelude.{◌∷◌, ◌++◌, [], List, ℕ};
ghost use Rattle.std.specs.Io.BufRead.{strip_last};
ghost use Rattle.dimacs.specs.Lines.{fields};
ghost use Rattle.session_lines.specs.SessionLines.{IsLine};
ghost use Rattle.session_lines.specs.Judging.{IsStage, IsSoFar};

use crate::lines::{Line, Stage};
use std::alloc::Global;

/// A line as far as it has come: however long it is, it takes a few bytes, and memory only for the numbers of a table.
#[derive(Drop)]
pub struct LineSoFar {
    stage: Stage,
    /// The last byte was a carriage return, which is not part of the line if the line ends after it.
    after_return: bool,
}

impl LineSoFar {
    /// No byte so far.
    pub fn new() -> LineSoFar
        ensures { IsSoFar [] result }
    {
        LineSoFar {
            stage: Stage::Blank,
            after_return: false,
        }
    }

    /// How far the line has come with all its bytes, including a carriage return at the end.
    fn settled(self, alloc: Global) -> Stage
        ensures { (front : List ℕ) → IsSoFar front self → IsStage front result }
    {
        if self.after_return {
            return self.stage.with(alloc, b'\r');
        }
        self.stage
    }

    /// The line with one more byte, which is not a line feed.
    pub fn with(self, alloc: Global, byte: u8) -> LineSoFar
        ensures { (front : List ℕ) → IsSoFar front self → IsSoFar (front ++ byte ∷ []) result }
    {
        let stage = self.settled(alloc);
        if byte == b'\r' {
            return LineSoFar {
                stage,
                after_return: true,
            };
        }
        LineSoFar {
            stage: stage.with(alloc, byte),
            after_return: false,
        }
    }

    /// What the line asks for if it ends here.
    pub fn line(self) -> Line
        ensures { (front : List ℕ) → IsSoFar front self → IsLine (fields (strip_last 13 front)) result }
    {
        self.stage.line()
    }
}
