//! Reports on standard error of how far a job has come, if `--verbose` asks for them, and of why it failed.
ghost use Rattle.std.specs.Prelude.{◌≡◌};

use std::cell::Cell;
use std::fmt::{self, Display};
use std::time::{Clock, Instant};

/// The least number of seconds between two lines of progress.
const APART: u64 = 1;

/// A name in a line of a report. What is not printable text in it is escaped, as in a fault line.
#[derive(Clone, Copy)]
pub struct ToldName<'a> {
    pub name: &'a str,
}

impl Display for ToldName<'_> {
    fn fmt<W: fmt::Write>(&self, f: &mut fmt::Formatter<W>) -> fmt::Result {
        for letter in self.name.chars() {
            match letter {
                '\\' | '\'' | '"' => write!(f, "{letter}")?,
                _ => write!(f, "{}", letter.escape_debug())?,
            }
        }
        Ok(())
    }
}

/// Reports on a job on standard error: lines `note: NAME: ..`, where NAME is a file of the job. A fault line begins with another word. Nothing depends on
/// these reports: a line that cannot be written is skipped, and so is one for which the clock gives no time.
///
/// It also keeps why a call of the job failed last, to report it after the fault line.
#[derive(Drop)]
pub struct Progress<'a, R> {
    rt: &'a R,
    is_asked: bool,
    // When the last line of progress was written; at first, when there was first one to write.
    told_at: Cell<Option<Instant>>,
    // On what a call failed, and why.
    reason: Cell<Option<String>>,
}

impl<'a, R> Progress<'a, R> {
    /// Nothing is reported yet, and nothing will be unless reports are asked for.
    pub fn new(rt: &'a R, is_asked: bool) -> Progress<'a, R> {
        Progress {
            rt,
            is_asked,
            told_at: Cell::new(None),
            reason: Cell::new(None),
        }
    }

    /// Whether reports are asked for.
    pub fn is_asked(&self) -> bool
        ensures { result ≡ self.now.is_asked }
    {
        self.is_asked
    }
}

impl<'a, R: Clock> Progress<'a, R> {
    /// Whether a line of progress may be written, because the last one is a second old. If so, it counts as written.
    fn is_due(&self) -> bool {
        let Ok(now) = Instant::now(self.rt) else {
            return false;
        };
        match self.told_at.get() {
            Some(before) if now.duration_since(before).as_secs() < APART => false,
            before => {
                self.told_at.set(Some(now));
                before.is_some()
            }
        }
    }
}

impl<'a, R: AllocGlobal> Progress<'a, R> {
    /// Keeps why a call on this file failed, instead of what was kept before. If there is no memory for it, nothing is kept.
    pub fn keep<D: Display>(&self, name: &str, why: &D) {
        let name = ToldName { name };
        self.reason
            .set(format!(in self.rt.alloc(); "{name}: {why}").ok());
    }
}

impl<'a, R: Eprint> Progress<'a, R> {
    /// Reports what was kept, if anything was: `roadmark: NAME: WHY`.
    pub fn tell_reason(&self) {
        if let Some(reason) = self.reason.take() {
            let rt = self.rt;
            let _ = eprintln!(rt; "roadmark: {reason}");
        }
    }

    /// Reports this about a file.
    pub fn tell<D: Display>(&self, name: &str, what: &D) {
        if self.is_asked {
            let rt = self.rt;
            let name = ToldName { name };
            let _ = eprintln!(rt; "note: {name}: {what}");
        }
    }
}

impl<'a, R: Clock + Eprint> Progress<'a, R> {
    /// Reports how far the work on a file has come, unless a line of progress was written in the last second.
    pub fn tell_progress<D: Display>(&self, name: &str, how_far: &D) {
        if self.is_asked && self.is_due() {
            self.tell(name, how_far);
        }
    }
}
