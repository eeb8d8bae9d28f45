//! Plays the cases of the files that its words name, or of standard input where there are none. Tells on standard error each case that comes out otherwise than its file says,
//! and how many there were. The status is 0 where all came out as they are to, and there was one at least.
#![tactic(auto)]

mod servers;

use blocks::{Call, Calls, Given, run_files};
use program::{ServerRuntime, run_program};
use shells::Shell;
use std::alloc::Global;
use std::env::{self, Env};
use std::io;
use std::process::{self, ExitCode};
use text_plays::Made;

/// The calls of the cases.
const TABLES: &[&[Call]] = &[
    text_plays::CALLS,
    plays::CALLS,
    session_plays::CALLS,
    &[("play", ""), ("standing", ""), ("gave-up", "")],
];

/// What plays cases.
#[derive(Drop)]
struct Player<R> {
    rt: R,
    /// The disk that the texts of a file share.
    made: Made<R>,
    /// Where a transcript is played.
    folder: String,
}

impl<R: ServerRuntime> Player<R>
where
    R::Dir: Send + 'static,
{
    /// Plays a transcript by runs of the program.
    fn transcript(&self, text: &[u8], out: &mut Vec<u8>) -> io::Result<()> {
        let runs = |shell: &Shell<'_, R>| -> u8 { run_program(shell, self.rt) };
        word_plays::play(&self.rt, self.folder.as_str(), text, &runs, out)
    }

    /// Plays a case, and adds what comes out.
    fn play(&self, alloc: Global, given: Given<'_, '_>, out: &mut Vec<u8>) -> io::Result<()> {
        match given.head.word(0) {
            "desk" => plays::play(self.rt, alloc, given, out),
            "session" | "doors" => session_plays::play(self.rt, alloc, given, out),
            "play" => self.transcript(given.text(0), out),
            "standing" | "gave-up" => servers::tell(&self.rt, given, out),
            _ => self.made.call(alloc, given, out),
        }
    }
}

/// Plays the cases of the files.
fn play_files<R: ServerRuntime + Env + Input>(rt: &R, player: &Player<R>) -> io::Result<ExitCode>
where
    R::Dir: Send + 'static,
{
    let calls = Calls {
        tables: TABLES,
        make: |alloc: Global, given: Given<'_, '_>, out: &mut Vec<u8>| -> io::Result<()> {
            player.play(alloc, given, out)
        },
    };
    run_files(rt, &calls)
}

fn main(rt: HostRuntime) -> io::Result<ExitCode> {
    let temporary = env::temp_dir(&rt)?;
    let id = process::id(rt.process());
    let folder = format!(in rt.alloc(); "{}/transcript-{id}", temporary.as_str())?;
    let made = Made::new(rt);
    play_files(&rt, &Player { rt, made, folder })
}
