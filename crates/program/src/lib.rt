//! What the program does, for any runtime: its words, the jobs on files that they name, and the sessions of a server.
//!
//! It passes on the calls on texts of the libraries below it, with their failures, fault lines and statuses, and the disk over a file.
//!
//! Before any other file is opened, the program makes sure that the standard streams are in use: in a process that begins with one of them closed, the next
//! file that is opened gets its number, and output would be written into that file.
#![tactic(auto)]

ghost use Rattle.std.specs.Prelude.{◌≡◌, ◌≤◌, ◌⊎◌};
ghost use Rattle.std.specs.Option.{ForSome};
ghost use Rattle.rows.specs.Kept.{IsWidth};
ghost use Rattle.words.specs.Pipes.{ArePipesFit};
ghost use Rattle.words.specs.Words.{IsJournal, IsWorkers, delta_of, journal_pages_of, pipes_of, workers_of};

mod bounds;
mod running;
mod serve_jobs;
mod server_life;
mod standings;

pub use bounds::ServerRuntime;
use file_jobs::{
    Streams, ended, hold_streams, job_status, show_usage, tell_cause, tell_failure, text_name,
    without_words,
};
pub use filedisk::FileDisk;
pub use printing::{Done, Failed, Look, fault_line, status};
use progress::Progress;
pub use querytexts::{Reach, batch_text, once_text, reach_text, route_text, table_text};
pub use rehearsals::{joint_text, rehearse_text};
use roadnet::Refusal;
pub use running::run;
pub use scripts::parse_script;
pub use serve_jobs::{Teller, serve_disk};
pub use server_files::{FileNames, VisitCounts, copy_store, doors_of, see_pipes};
pub use sessions::serve;
pub use standings::ServerStanding;
use std::env;
use std::fs::File;
use std::rt::{Env, Files};
use std::thread::Threads;
use std::time::Clock;
pub use storetexts::{
    apply_text, ask_table_text, ask_text, check_text, copy_text, create_text, export_text,
    migrate_text, show_text, upgrade_text,
};
pub use words::{Asked, Job, MISUSE, Misfit, PairTexts, PipePair, Usage, read_words};

/// Does what is asked for, reports what failed, and returns the exit status.
fn do_asked<
    R: AllocGlobal + Clock + Eprint + Files<File = File> + Input + Print + Threads,
    T: ServerRuntime,
>(rt: &R, threads: T, asked: &Asked<'_>) -> u8
where
    T::Dir: Send + 'static,
    requires width { ForSome (delta_of asked.now.job) IsWidth }
    requires journal { ForSome (journal_pages_of asked.now.job) IsJournal }
    requires workers { ForSome (workers_of asked.now.job) IsWorkers }
    requires pipes { ArePipesFit (pipes_of asked.now.job) }
    ensures { (result ≤ 1) ⊎ (result ≡ 3) }
{
    let progress = Progress::new(rt, asked.verbose);
    let outcome = run(rt, threads, &progress, &asked.job);
    if let Err(failed) = &outcome {
        tell_failure(rt, &outcome, text_name(&asked.job, failed));
        tell_cause(&progress, &asked.job, failed);
    }
    job_status(&outcome)
}

/// Does what these words ask for, and returns the exit status.
fn do_these<
    R: AllocGlobal + Clock + Eprint + Files<File = File> + Input + Print + Threads,
    T: ServerRuntime,
>(rt: &R, threads: T, words: &[String]) -> u8
where
    T::Dir: Send + 'static,
    ensures { result ≤ 3 }
{
    match read_words(rt.alloc(), words) {
        Ok(asked) => do_asked(rt, threads, &asked),
        Err(usage) => show_usage(rt, &usage),
    }
}

/// Does what the program's words ask for, and returns the exit status. The standard streams are lent for this, so they are held until it is done.
fn do_words<
    R: AllocGlobal + Clock + Env + Eprint + Files<File = File> + Input + Print + Threads,
    T: ServerRuntime,
>(rt: &R, threads: T, _held: &Streams) -> u8
where
    T::Dir: Send + 'static,
    ensures { result ≤ 3 }
{
    let words = match env::args(rt) {
        Ok(words) => words,
        Err(error) => return without_words(rt, &error),
    };
    match words.collect::<Vec<String>>(rt.alloc()) {
        Ok(words) => do_these(rt, threads, &words),
        Err(_) => ended::<R, ()>(rt, &Err(Failed::Code(Refusal::OutOfMemory)), ""),
    }
}

/// Holds the standard streams, does what the program's words ask for, and returns the exit status: 0 if everything was done, 1 after a fault, 2 if it does
/// not accept the words, 3 if a server accepted nearly all commands of one life. `threads` is the runtime of a desk's threads.
pub fn run_program<
    R: AllocGlobal + Clock + Env + Eprint + Files<File = File> + Input + Print + Threads,
    T: ServerRuntime,
>(rt: &R, threads: T) -> u8
where
    T::Dir: Send + 'static,
    ensures { result ≤ 3 }
{
    match hold_streams(rt) {
        Ok(streams) => do_words(rt, threads, &streams),
        Err(_) => ended::<R, ()>(rt, &Err(Failed::Code(Refusal::Write)), ""),
    }
}
