//! The names by which the program reports on a job: those of its texts in fault lines, and that of its store if a fault line names none.
ghost use Rattle.std.specs.Prelude.{◌≡◌, false, option_map};
ghost use Rattle.file_jobs.specs.Failures.{text_name, folder_name, pairs_name, pipe_name, opened_store, made_store, old_map, refused_file, served_store, unopened, is_of_first, is_of_second, is_of_third};

use crate::files::FIRST_PIPE;
use printing::Failed;
use roadnet::{MOST_ARCS, Refusal};
use std::fmt::{self, Display};
use words::{Job, PairTexts, PipePair, pipe_at};

/// The name in a fault line of `serve` for the text of a failure: 3 and on are its pipes.
fn pipe_name<'w>(store: &'w str, pipes: &[PipePair<'w>], failed: &Failed) -> &'w str
    ensures { result.now ≡ pipe_name store.now pipes.now failed.now }
{
    match failed {
        Failed::Text { which, fault: _ } if *which >= FIRST_PIPE => {
            pipe_at(pipes, usize::from(*which - FIRST_PIPE)).unwrap_or(store)
        }
        Failed::Text { .. } | Failed::Code(_) => store,
    }
}

/// The name in a fault line of `serve` for its folder of copies.
fn folder_name<'w>(store: &'w str, copies: Option<&'w str>) -> &'w str
    ensures { result.now ≡ folder_name store.now (option_map (λ folder. folder.now) copies.entry) }
{
    match copies {
        Some(folder) => folder,
        None => store,
    }
}

/// The name of the text of pairs that a failure is about.
fn pairs_name<'w>(pairs: PairTexts<'w>, of_targets: bool) -> &'w str
    ensures { result.now ≡ pairs_name pairs.entry of_targets }
{
    match pairs {
        PairTexts::Listed { pairs } => pairs,
        PairTexts::Table { sources, targets } => { if of_targets { targets } else { sources } }
    }
}

/// The name in a fault line for the first text of a job.
fn first_name<'w>(job: &Job<'w>) -> &'w str
    ensures { result.now ≡ text_name job.now (unopened 0) }
{
    match *job {
        Job::Joint { delta: _ } => "net",
        Job::Once { network, .. }
        | Job::Route { network, .. }
        | Job::Batch { network, .. }
        | Job::Reach { network, .. }
        | Job::Reached { network, .. }
        | Job::Rehearse { network, .. }
        | Job::Create { network, .. } => network,
        Job::Apply { commands, .. } => commands,
        Job::Ask { pairs, .. } => pairs_name(pairs, false),
        Job::Migrate { old, .. } | Job::Upgrade { old, .. } => old,
        Job::Check { store }
        | Job::Serve { store, .. }
        | Job::Copy { store, .. }
        | Job::Show { store, .. }
        | Job::Export { store, .. } => store,
    }
}

/// The name in a fault line for the second text of a job.
fn second_name<'w>(job: &Job<'w>) -> &'w str
    ensures { result.now ≡ text_name job.now (unopened 1) }
{
    match *job {
        Job::Joint { delta: _ } => "script",
        Job::Once { network, .. }
        | Job::Route { network, .. }
        | Job::Reach { network, .. }
        | Job::Reached { network, .. }
        | Job::Upgrade { network, .. } => network,
        Job::Batch { pairs, .. } => pairs_name(pairs, false),
        Job::Rehearse { script, .. } => script,
        Job::Create { landmarks, .. } => landmarks,
        Job::Ask { pairs, .. } => pairs_name(pairs, true),
        Job::Serve { store, copies, .. } => folder_name(store, copies),
        Job::Migrate { new, .. } => new,
        Job::Copy { file, .. } => file,
        Job::Export { folder, .. } => folder,
        Job::Apply { store, .. } | Job::Check { store } | Job::Show { store, .. } => store,
    }
}

/// The name in a fault line for the third text of a job.
fn third_name<'w>(job: &Job<'w>) -> &'w str
    ensures { result.now ≡ text_name job.now (unopened 2) }
{
    match *job {
        Job::Joint { delta: _ } => "script",
        Job::Once { network, .. }
        | Job::Route { network, .. }
        | Job::Reach { network, .. }
        | Job::Reached { network, .. } => network,
        Job::Batch { pairs, .. } => pairs_name(pairs, true),
        Job::Rehearse { script, .. } => script,
        Job::Migrate { new, .. } | Job::Upgrade { new, .. } => new,
        Job::Copy { file, .. } => file,
        Job::Create { store, .. }
        | Job::Apply { store, .. }
        | Job::Ask { store, .. }
        | Job::Check { store }
        | Job::Serve { store, .. }
        | Job::Show { store, .. }
        | Job::Export { store, .. } => store,
    }
}

/// The name in a fault line for the text of a failure that is not among the first three: a pipe has a name of its own.
fn other_name<'w>(job: &Job<'w>, failed: &Failed) -> &'w str
    requires first { is_of_first failed.now ≡ false }
    requires second { is_of_second failed.now ≡ false }
    requires third { is_of_third failed.now ≡ false }
    ensures { result.now ≡ text_name job.now failed.now }
{
    match *job {
        Job::Joint { delta: _ } => "script",
        Job::Once { network, .. }
        | Job::Route { network, .. }
        | Job::Reach { network, .. }
        | Job::Reached { network, .. } => network,
        Job::Batch { pairs, .. } | Job::Ask { pairs, .. } => pairs_name(pairs, false),
        Job::Rehearse { script, .. } => script,
        Job::Serve {
            store,
            ref pipes,
            ..
        } => pipe_name(store, pipes.as_slice(), failed),
        Job::Migrate { new, .. } => new,
        Job::Copy { file, .. } => file,
        Job::Create { store, .. }
        | Job::Apply { store, .. }
        | Job::Check { store }
        | Job::Upgrade { store, .. }
        | Job::Show { store, .. }
        | Job::Export { store, .. } => store,
    }
}

/// The name in a fault line for the text of a failure.
pub fn text_name<'w>(job: &Job<'w>, failed: &Failed) -> &'w str
    ensures { result.now ≡ text_name job.now failed.now }
{
    match failed {
        Failed::Text { which: 0, fault: _ } => first_name(job),
        Failed::Text { which: 1, fault: _ } => second_name(job),
        Failed::Text { which: 2, fault: _ } => third_name(job),
        Failed::Text { .. } | Failed::Code(_) => other_name(job, failed),
    }
}

/// The store that a job opens, if it opens one.
fn opened_store<'w>(job: &Job<'w>) -> Option<&'w str>
    ensures { option_map (λ name. name.now) result ≡ opened_store job.now }
{
    match *job {
        Job::Apply { store, .. }
        | Job::Ask { store, .. }
        | Job::Check { store }
        | Job::Serve { store, .. }
        | Job::Migrate { old: store, .. }
        | Job::Upgrade { store, .. }
        | Job::Copy { store, .. }
        | Job::Show { store, .. }
        | Job::Export { store, .. } => Some(store),
        Job::Joint { .. }
        | Job::Once { .. }
        | Job::Route { .. }
        | Job::Batch { .. }
        | Job::Reach { .. }
        | Job::Reached { .. }
        | Job::Rehearse { .. }
        | Job::Create { .. } => None,
    }
}

/// The store that a job makes, if it makes one.
fn made_store<'w>(job: &Job<'w>) -> Option<&'w str>
    ensures { option_map (λ name. name.now) result ≡ made_store job.now }
{
    match *job {
        Job::Create { store, .. }
        | Job::Migrate { new: store, .. }
        | Job::Upgrade { new: store, .. }
        | Job::Copy { file: store, .. } => Some(store),
        _ => None,
    }
}

/// The text from which the store of a job is said to have been made, if there is one.
fn old_map<'w>(job: &Job<'w>) -> Option<&'w str>
    ensures { option_map (λ name. name.now) result ≡ old_map job.now }
{
    match *job {
        Job::Upgrade { old, .. } => Some(old),
        _ => None,
    }
}

/// The store that a job serves, if it serves one.
fn served_store<'w>(job: &Job<'w>) -> Option<&'w str>
    ensures { option_map (λ name. name.now) result ≡ served_store job.now }
{
    match *job {
        Job::Serve { store, .. } => Some(store),
        _ => None,
    }
}

/// What a refusal is about which names nothing: the store that was opened (40 to 42), what was to be made (46), the map from which the store was not made
/// (52), the store that is served (43), or the room that was asked for (9).
pub fn refused_file<'w>(job: &Job<'w>, refusal: Refusal) -> Option<&'w str>
    ensures { option_map (λ name. name.now) result ≡ refused_file job.now refusal }
{
    match refusal {
        Refusal::NotAStore | Refusal::WrongFormat | Refusal::Damaged { page: _ } => {
            opened_store(job)
        }
        Refusal::NotEmpty => made_store(job),
        Refusal::OtherNetwork => old_map(job),
        Refusal::Device => served_store(job),
        Refusal::TooLarge => Some("--room"),
        _ => None,
    }
}

/// What a refusal says about its file.
#[derive(Clone, Copy)]
pub struct WhyRefused {
    pub refusal: Refusal,
}

impl Display for WhyRefused {
    fn fmt<W: fmt::Write>(&self, f: &mut fmt::Formatter<W>) -> fmt::Result {
        match self.refusal {
            Refusal::NotAStore => f.write_str("it is not a store"),
            Refusal::WrongFormat => f.write_str("it is a store of another format"),
            Refusal::Damaged { page } => write!(f, "its page {page} is damaged"),
            Refusal::NotEmpty => f.write_str("it is not empty"),
            Refusal::OtherNetwork => f.write_str("the store was not made from it"),
            Refusal::Device => f.write_str("a read or a write of it failed"),
            Refusal::TooLarge => { write!(f, "it may be from the number of arcs to {}", MOST_ARCS) }
            refusal => write!(f, "{refusal}"),
        }
    }
}
