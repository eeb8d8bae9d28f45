//! Running a job of the program, by what it works on.
ghost use Rattle.std.specs.Prelude.{◌≡◌, Some, IfOk};
ghost use Rattle.std.specs.Option.{ForSome};
ghost use Rattle.rows.specs.Kept.{IsWidth};
ghost use Rattle.file_jobs.specs.Kinds.{kind_of};
ghost use Rattle.words.specs.Pipes.{ArePipesFit};
ghost use Rattle.words.specs.Words.{IsJournal, IsWorkers, delta_of, journal_pages_of, pipes_of, workers_of, searched_width};
ghost use Rattle.printing.specs.Widths.{told_width, told_workers};

use crate::bounds::ServerRuntime;
use crate::serve_jobs::run_serve;
use file_jobs::{Kind, kind_of, run_making, run_on_store, run_on_texts};
use printing::{Done, Failed};
use progress::Progress;
use std::fs::File;
use std::rt::Files;
use std::thread::Threads;
use std::time::Clock;
use words::Job;

/// Does the job that serves a store. `threads` is the runtime of a desk's threads.
fn run_serving<
    R: AllocGlobal + Clock + Eprint + Files<File = File> + Input + Print,
    T: ServerRuntime,
>(rt: &R, threads: T, progress: &Progress<'_, R>, job: &Job<'_>) -> Result<Done, Failed>
where
    T::Dir: Send + 'static,
    requires kind { kind_of job.now ≡ Kind.Served }
    requires width { ForSome (delta_of job.now) IsWidth }
    requires workers { ForSome (workers_of job.now) IsWorkers }
    requires pipes { ArePipesFit (pipes_of job.now) }
    ensures width { IfOk result (λ done. told_width done ≡ searched_width job.now) }
    ensures workers { ForSome (workers_of job.now) (λ workers. IfOk result (λ done. told_workers done ≡ Some workers)) }
{
    match job {
        Job::Serve {
            store,
            pipes,
            copies,
            delta,
            workers,
            patience,
        } => run_serve(
            rt,
            threads,
            progress,
            store,
            pipes.as_slice(),
            *copies,
            *delta,
            *workers,
            *patience,
        ),
        _ => unreachable!(),
    }
}

/// Does a job, with searches of the job's width. `threads` is the runtime of a desk's threads.
pub fn run<
    R: AllocGlobal + Clock + Eprint + Files<File = File> + Input + Print + Threads,
    T: ServerRuntime,
>(rt: &R, threads: T, progress: &Progress<'_, R>, job: &Job<'_>) -> Result<Done, Failed>
where
    T::Dir: Send + 'static,
    requires width { ForSome (delta_of job.now) IsWidth }
    requires journal { ForSome (journal_pages_of job.now) IsJournal }
    requires workers { ForSome (workers_of job.now) IsWorkers }
    requires pipes { ArePipesFit (pipes_of job.now) }
    ensures width { IfOk result (λ done. told_width done ≡ searched_width job.now) }
    ensures workers { ForSome (workers_of job.now) (λ workers. IfOk result (λ done. told_workers done ≡ Some workers)) }
{
    match kind_of(job) {
        Kind::Texts => run_on_texts(rt, progress, job),
        Kind::NewStore => run_making(rt, progress, job),
        Kind::OldStore => run_on_store(rt, progress, job),
        Kind::Served => run_serving(rt, threads, progress, job),
    }
}
