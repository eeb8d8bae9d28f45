//! How the program ends: what it reports of a failure, and its exit status.
ghost use Rattle.std.specs.Prelude.{◌≡◌, ◌≢◌, ◌≤◌, is_ok, if◌then◌else◌};
ghost use Rattle.std.specs.IoError.{error_kind};
ghost use Rattle.file_jobs.specs.Failures.{job_status};

use crate::names::{WhyRefused, refused_file};
use dimacs::Code;
use printing::{Failed, fault_line, status};
use progress::Progress;
use roadnet::Refusal;
use std::io::{self, ErrorKind};
use words::{Job, MISUSE, Usage};

/// Keeps the file of a refusal whose fault line names none, and why it is refused.
fn keep_file<R: AllocGlobal>(progress: &Progress<'_, R>, job: &Job<'_>, failed: &Failed) {
    if let Failed::Code(refusal) = *failed
        && let Some(name) = refused_file(job, refusal)
    {
        progress.keep(name, &WhyRefused { refusal });
    }
}

/// Whether the fault line of a failure leaves open why a call failed, or which file is refused.
fn leaves_cause_open(failed: &Failed) -> bool {
    match failed {
        Failed::Text { which: _, fault } => fault.code == Code::Read,
        Failed::Code(Refusal::OutOfMemory | Refusal::HistoryFull) => false,
        Failed::Code(_) => true,
    }
}

/// Reports after the fault line why a job failed, if that line leaves it open and the reason is known.
pub fn tell_cause<R: AllocGlobal + Eprint>(
    progress: &Progress<'_, R>,
    job: &Job<'_>,
    failed: &Failed,
) {
    keep_file(progress, job, failed);
    if leaves_cause_open(failed) {
        progress.tell_reason();
    }
}

/// Prints help on standard output and a misuse on standard error, and returns the exit status.
pub fn show_usage<R: Print + Eprint>(rt: &R, usage: &Usage) -> u8
    ensures help { usage.now.status ≡ 0 → result ≤ 1 }
    ensures memory { usage.now.status ≡ 1 → result ≡ 1 }
    ensures misuse { usage.now.status ≡ 2 → result ≡ 2 }
{
    let text = usage.text.as_str();
    let outcome = match usage.status {
        0 => match print!(rt; "{text}") {
            Ok(()) => Ok(()),
            Err(_) => Err(Failed::Code(Refusal::Write)),
        },
        MISUSE => {
            let _ = eprint!(rt; "{text}");
            return MISUSE;
        }
        _ => Err(Failed::Code(Refusal::OutOfMemory)),
    };
    ended(rt, &outcome, "")
}

/// Prints the fault line of a failure, if there is one.
pub fn tell_failure<R: Eprint, T>(rt: &R, outcome: &Result<T, Failed>, name: &str) {
    if let Err(failed) = outcome {
        let line = fault_line(failed, name);
        let _ = eprintln!(rt; "{line}");
    }
}

/// Prints the fault line of a failure, if there is one, and returns the exit status.
pub fn ended<R: Eprint, T>(rt: &R, outcome: &Result<T, Failed>, name: &str) -> u8
    ensures { result ≡ (if is_ok outcome.now then 0 else 1) }
{
    tell_failure(rt, outcome, name);
    status(outcome)
}

/// The status of a server that should be started again, since it accepted nearly all commands of one life.
const SPENT: u8 = 3;

/// The exit status of a job: 0 if it is done, 3 if a server should be started again (62), and 1 after any other fault.
pub fn job_status<T>(outcome: &Result<T, Failed>) -> u8
    ensures status { result ≡ job_status outcome.now }
{
    match outcome {
        Ok(_) => 0,
        Err(Failed::Code(Refusal::HistoryFull)) => SPENT,
        Err(_) => 1,
    }
}

/// Words that are not text are a misuse.
pub fn without_words<R: Eprint>(rt: &R, error: &io::Error) -> u8
    ensures memory { error_kind error.now ≡ ErrorKind.OutOfMemory → result ≡ 1 }
    ensures misuse { error_kind error.now ≢ ErrorKind.OutOfMemory → result ≡ 2 }
{
    match error.kind() {
        ErrorKind::OutOfMemory => ended::<R, ()>(rt, &Err(Failed::Code(Refusal::OutOfMemory)), ""),
        _ => {
            let _ = eprintln!(rt;
                "error: a word is not UTF-8\n\nFor more information, try '--help'."
            );
            MISUSE
        }
    }
}
