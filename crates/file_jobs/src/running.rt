//! Running a job on files, by what it works on.
ghost use Rattle.std.specs.Prelude.{◌≡◌, None, IfOk};
ghost use Rattle.std.specs.Option.{ForSome};
ghost use Rattle.rows.specs.Kept.{IsWidth};
ghost use Rattle.file_jobs.specs.Kinds.{kind_of};
ghost use Rattle.words.specs.Words.{IsJournal, delta_of, journal_pages_of, workers_of, searched_width};
ghost use Rattle.printing.specs.Widths.{told_width};

use crate::jobs::{batch, find_reached, joint, once, rehearse, route};
use crate::making_jobs::{copy, create, migrate, upgrade};
use crate::store_jobs::{apply, ask, check, export, show};
use printing::{Done, Failed};
use progress::Progress;
use querytexts::Reach;
use std::fs::File;
use std::rt::Files;
use std::thread::Threads;
use std::time::Clock;
use words::Job;

/// What a job works on.
#[derive(Clone, Copy)]
pub enum Kind {
    /// Only texts.
    Texts,
    /// A store that it makes.
    NewStore,
    /// A store that is there.
    OldStore,
    /// A store that it serves.
    Served,
}

/// What a job works on.
pub fn kind_of(job: &Job<'_>) -> Kind
    ensures { result ≡ kind_of job.now }
{
    match job {
        Job::Joint { .. }
        | Job::Once { .. }
        | Job::Route { .. }
        | Job::Batch { .. }
        | Job::Reach { .. }
        | Job::Reached { .. }
        | Job::Rehearse { .. } => Kind::Texts,
        Job::Create { .. } | Job::Migrate { .. } | Job::Upgrade { .. } | Job::Copy { .. } =>
            Kind::NewStore,
        Job::Apply { .. }
        | Job::Ask { .. }
        | Job::Check { .. }
        | Job::Show { .. }
        | Job::Export { .. } => Kind::OldStore,
        Job::Serve { .. } => Kind::Served,
    }
}

/// Done without a search, unless something failed.
fn without_search(outcome: Result<(), Failed>) -> Result<Done, Failed>
    ensures { IfOk result (λ done. told_width done ≡ None) }
{
    outcome?;
    Ok(Done::without_search())
}

/// Does a job on texts.
pub fn run_on_texts<R: AllocGlobal + Clock + Eprint + Files<File = File> + Input + Print + Threads>(
    rt: &R,
    progress: &Progress<'_, R>,
    job: &Job<'_>,
) -> Result<Done, Failed>
    requires kind { kind_of job.now ≡ Kind.Texts }
    requires width { ForSome (delta_of job.now) IsWidth }
    requires journal { ForSome (journal_pages_of job.now) IsJournal }
    ensures width { IfOk result (λ done. told_width done ≡ searched_width job.now) }
    ensures workers { workers_of job.now ≡ None }
{
    match *job {
        Job::Joint { delta } => joint(rt, delta),
        Job::Once {
            network,
            source,
            target,
            delta,
        } => once(rt, progress, network, source, target, delta),
        Job::Route {
            network,
            source,
            target,
            delta,
        } => route(rt, progress, network, source, target, delta),
        Job::Batch {
            network,
            pairs,
            delta,
        } => batch(rt, progress, network, pairs, delta),
        Job::Reach {
            network,
            source,
            within,
            delta,
        } => find_reached(rt, progress, network, Reach::From { source }, within, delta),
        Job::Reached {
            network,
            target,
            within,
            delta,
        } => find_reached(rt, progress, network, Reach::To { target }, within, delta),
        Job::Rehearse {
            network,
            script,
            journal_pages,
            room,
            delta,
        } => rehearse(rt, progress, network, script, journal_pages, room, delta),
        _ => unreachable!(),
    }
}

/// Does a job that makes a store.
pub fn run_making<R: AllocGlobal + Clock + Eprint + Files<File = File> + Input + Print>(
    rt: &R,
    progress: &Progress<'_, R>,
    job: &Job<'_>,
) -> Result<Done, Failed>
    requires kind { kind_of job.now ≡ Kind.NewStore }
    requires journal { ForSome (journal_pages_of job.now) IsJournal }
    ensures width { IfOk result (λ done. told_width done ≡ searched_width job.now) }
    ensures workers { workers_of job.now ≡ None }
{
    match *job {
        Job::Create {
            store,
            network,
            landmarks,
            journal_pages,
            room,
        } => without_search(create(rt, progress, store, network, landmarks, journal_pages, room)),
        Job::Migrate { old, new, room } => without_search(migrate(rt, progress, old, new, room)),
        Job::Upgrade {
            store,
            old,
            network,
            new,
            room,
        } => without_search(upgrade(rt, progress, store, old, network, new, room)),
        Job::Copy {
            store,
            file,
            room,
            journal_pages,
        } => without_search(copy(rt, progress, store, file, room, journal_pages)),
        _ => unreachable!(),
    }
}

/// Does a job on a store that is there, unless it serves it.
pub fn run_on_store<R: AllocGlobal + Clock + Eprint + Files<File = File> + Input + Print + Threads>(
    rt: &R,
    progress: &Progress<'_, R>,
    job: &Job<'_>,
) -> Result<Done, Failed>
    requires kind { kind_of job.now ≡ Kind.OldStore }
    requires width { ForSome (delta_of job.now) IsWidth }
    ensures width { IfOk result (λ done. told_width done ≡ searched_width job.now) }
    ensures workers { workers_of job.now ≡ None }
{
    match *job {
        Job::Apply {
            store,
            commands,
            delta: _,
        } => without_search(apply(rt, progress, store, commands)),
        Job::Ask {
            store,
            pairs,
            routes,
            delta,
        } => ask(rt, progress, store, pairs, routes, delta),
        Job::Check { store } => without_search(check(rt, progress, store)),
        Job::Show { store, look } => without_search(show(rt, progress, store, look)),
        Job::Export { store, folder } => without_search(export(rt, progress, store, folder)),
        _ => unreachable!(),
    }
}
