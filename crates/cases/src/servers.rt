//! What a server tells of itself on standard error.
//!
//! | Call | Tells |
//! |---|---|
//! | `standing` | how a server stands, by the words of its text: the durable and the shown version, how its flusher and its builder are (`on`, `ended`, `broken`), how many clients came and how many went |
//! | `gave-up` | what is told of a builder that gave up, behind the gate's calls that come before |
use blocks::Given;
use desk::{Gate, Working};
use program::{ServerStanding, Teller, VisitCounts};
use shells::Shell;
use std::io::{self, Write};

/// The number at a place among words, or 0.
fn number(words: &str, at: usize) -> u64 {
    words
        .split_whitespace()
        .nth(at)
        .and_then(|word| word.parse().ok())
        .unwrap_or(0)
}

/// How a thread is by the word at a place.
fn working(words: &str, at: usize) -> Working {
    match words.split_whitespace().nth(at) {
        Some("on") => Working::On,
        Some("broken") => Working::Broken,
        _ => Working::Ended,
    }
}

/// How a server stands by these words.
fn standing(words: &str) -> ServerStanding {
    ServerStanding {
        durable: number(words, 0),
        shown: number(words, 1),
        flusher: working(words, 2),
        builder: working(words, 3),
        visits: VisitCounts {
            came: number(words, 4),
            went: number(words, 5),
        },
    }
}

/// Adds what a gate tells of a builder that gave up. Nothing was held up before.
fn put_giving_up<R: AllocGlobal>(rt: &R, out: &mut Vec<u8>) -> io::Result<()> {
    let shell = Shell::new(rt, "/", "")?;
    let teller = Teller { rt: &shell };
    teller.before_row(1, 1);
    if teller.before_flush(1) && teller.before_task(1) && teller.before_step(1) {
        teller.builder_gave_up();
    }
    let told = shell.told();
    write!(out, "{}{}", told.err.as_str(), told.out.as_str())
}

/// Makes the call of a case, and adds what comes out.
pub(crate) fn tell<R: AllocGlobal>(
    rt: &R,
    given: Given<'_, '_>,
    out: &mut Vec<u8>,
) -> io::Result<()> {
    match given.head.word(0) {
        "standing" => {
            let words = str::from_utf8(given.text(0)).unwrap_or("");
            writeln!(out, "{}", standing(words))
        }
        _ => put_giving_up(rt, out),
    }
}
