//! The program's words, read as a job.
ghost use Rattle.std.specs.Prelude.{◌≡◌, ◌⊎◌, [], ◌∷◌, Some, None, false, IsOk, IfOk, IfErr, IfSome, option_map};
ghost use Rattle.std.specs.Option.{ForSome};
ghost use lib.Chars.{codes};
ghost use Rattle.clap.specs.Words.{found_of, subcommand_name_of};
ghost use Rattle.words.specs.Pipes.{ArePipesFit, AreMisfit, ArePairs};
ghost use Rattle.words.specs.Words.{delta_of, journal_pages_of, workers_of, pipes_of, pair_names, names_given, given_pairs, all_values, subcommand_of, HasFitParts, GivesNumber, GivesOr, GivesArcs, GivesParts, GivesJob, GivesNoServer, GivesVerbose, Lacks, IsUpTo, IsWidth, IsJournal, IsWorkers, IsLong, IsUsage, NamesInputTwice};

use crate::commands::program;
use crate::inputs::names_input_twice;
use crate::jobs::{ArcNumbers, Job, PairTexts};
use crate::names::{
    APPLY, ASK, ASKING, BATCH, CHECK, COMMANDS, COPIES, COPY, CREATE, DELTA, EXPORT, FILE, FOLDER,
    HEAD, JOURNAL, LANDMARKS, MIGRATE, MOST_JOURNAL_PAGES, MOST_PATIENCE, MOST_WIDTH, MOST_WORKERS,
    NETWORK, NEW, NUMBER, OLD, ONCE, PAIRS, PATIENCE, PIPES, REACH, REACHED, REHEARSE, ROOM, ROUTE,
    ROUTES, SCRIPT, SERVE, SHOW, SOURCE, SOURCES, STORE, TARGET, TARGETS, UPGRADE, VERBOSE, WITHIN,
    WORKERS,
};
use crate::pipes::{Misfit, PipePair, pairs_of};
use crate::usages::{Usage, usage_for, usage_of};
use clap::{ArgMatches, Error};
use std::alloc::Global;
use std::convert::AsStr;

/// What the words ask for: a job, and whether it is told on standard error how far it has come.
#[derive(Debug, Drop)]
pub struct Asked<'w> {
    pub job: Job<'w>,
    pub verbose: bool,
}

/// The journal pages of a store where none are given.
const DEFAULT_JOURNAL: u32 = 64;

/// The row workers of a desk where none are given.
const DEFAULT_WORKERS: u32 = 4;

/// For how many seconds a version is waited for where none are given.
const DEFAULT_PATIENCE: u32 = 30;

/// The number that the word of this name gives, of 64 bits.
fn number_in(matches: &ArgMatches<'_>, name: &str) -> Option<u64>
    ensures { GivesNumber (found_of matches.now) name.now IsLong result }
{
    matches.get_one::<u64>(name)
}

/// The number that the word of this name gives, if any; from 1 to the most, as the option's parser has it.
fn number_up_to(matches: &ArgMatches<'_>, name: &str, most: u32) -> Option<u32>
    ensures { GivesNumber (found_of matches.now) name.now (IsUpTo most) result }
{
    let number = matches.get_one::<u32>(name)?;
    if 1 <= number && number <= most {
        Some(number)
    } else {
        None
    }
}

/// The same, or another number where the words give none.
fn number_or(matches: &ArgMatches<'_>, name: &str, most: u32, other: u32) -> u32
    ensures { GivesOr (found_of matches.now) name.now (IsUpTo most) other result }
{
    match number_up_to(matches, name, most) {
        Some(number) => number,
        None => other,
    }
}

/// The width that these words give, if any.
fn width_in(matches: &ArgMatches<'_>) -> Option<u32>
    ensures { GivesNumber (found_of matches.now) (codes "delta") IsWidth result }
{
    number_up_to(matches, DELTA, MOST_WIDTH)
}

/// The journal pages that these words give, or 64.
fn journal_in(matches: &ArgMatches<'_>) -> u32
    ensures { GivesOr (found_of matches.now) (codes "journal") IsJournal 64 result }
{
    number_or(matches, JOURNAL, MOST_JOURNAL_PAGES, DEFAULT_JOURNAL)
}

/// Whether these words of a subcommand have `--verbose`.
fn verbose_in(matches: &ArgMatches<'_>) -> bool
    ensures { GivesVerbose (found_of matches.now) result }
{
    matches.get_flag(VERBOSE)
}

/// Whether the words of the subcommand have `--verbose`. The joint form has none, and isn't told of.
fn asks_to_tell(matches: &ArgMatches<'_>) -> bool
    ensures { subcommand_name_of matches.now ≡ None → result ≡ false }
{
    match matches.subcommand() {
        Some((_, inner)) => verbose_in(inner),
        None => false,
    }
}

fn once_in<'w>(matches: &ArgMatches<'w>) -> Option<Job<'w>>
    ensures given { IfSome result (GivesJob (codes "once") (found_of matches.now)) }
    ensures missing { result ≡ None → Lacks (found_of matches.now) (codes "GR" ∷ []) (codes "S" ∷ codes "T" ∷ []) }
{
    let network = matches.get_str(NETWORK)?;
    let source = number_in(matches, SOURCE)?;
    let target = number_in(matches, TARGET)?;
    Some(Job::Once {
        network,
        source,
        target,
        delta: width_in(matches),
    })
}

fn route_in<'w>(matches: &ArgMatches<'w>) -> Option<Job<'w>>
    ensures given { IfSome result (GivesJob (codes "route") (found_of matches.now)) }
    ensures missing { result ≡ None → Lacks (found_of matches.now) (codes "GR" ∷ []) (codes "S" ∷ codes "T" ∷ []) }
{
    let network = matches.get_str(NETWORK)?;
    let source = number_in(matches, SOURCE)?;
    let target = number_in(matches, TARGET)?;
    Some(Job::Route {
        network,
        source,
        target,
        delta: width_in(matches),
    })
}

/// The texts of pairs by these names: a list alone, or sources and targets together and no list.
fn named_pairs<'w>(
    pairs: Option<&'w str>,
    sources: Option<&'w str>,
    targets: Option<&'w str>,
) -> Option<PairTexts<'w>>
    ensures { option_map pair_names result ≡ names_given (option_map (λ name. name.now) pairs.entry) (option_map (λ name. name.now) sources.entry) (option_map (λ name. name.now) targets.entry) }
{
    match (pairs, sources, targets) {
        (Some(pairs), None, None) => Some(PairTexts::Listed { pairs }),
        (None, Some(sources), Some(targets)) => Some(PairTexts::Table { sources, targets }),
        _ => None,
    }
}

/// The texts of pairs that these words name.
fn pairs_in<'w>(matches: &ArgMatches<'w>) -> Option<PairTexts<'w>>
    ensures { option_map pair_names result ≡ given_pairs (found_of matches.now) }
{
    named_pairs(
        matches.get_str(PAIRS),
        matches.get_str(SOURCES),
        matches.get_str(TARGETS),
    )
}

fn batch_in<'w>(matches: &ArgMatches<'w>) -> Option<Job<'w>>
    ensures given { IfSome result (GivesJob (codes "batch") (found_of matches.now)) }
    ensures missing { result ≡ None → Lacks (found_of matches.now) (codes "GR" ∷ []) [] ⊎ (given_pairs (found_of matches.now) ≡ None) }
{
    let network = matches.get_str(NETWORK)?;
    let pairs = pairs_in(matches)?;
    Some(Job::Batch {
        network,
        pairs,
        delta: width_in(matches),
    })
}

fn reach_in<'w>(matches: &ArgMatches<'w>) -> Option<Job<'w>>
    ensures given { IfSome result (GivesJob (codes "reach") (found_of matches.now)) }
    ensures missing { result ≡ None → Lacks (found_of matches.now) (codes "GR" ∷ []) (codes "S" ∷ []) }
{
    let network = matches.get_str(NETWORK)?;
    let source = number_in(matches, SOURCE)?;
    Some(Job::Reach {
        network,
        source,
        within: number_in(matches, WITHIN),
        delta: width_in(matches),
    })
}

fn reached_in<'w>(matches: &ArgMatches<'w>) -> Option<Job<'w>>
    ensures given { IfSome result (GivesJob (codes "reached") (found_of matches.now)) }
    ensures missing { result ≡ None → Lacks (found_of matches.now) (codes "GR" ∷ []) (codes "T" ∷ []) }
{
    let network = matches.get_str(NETWORK)?;
    let target = number_in(matches, TARGET)?;
    Some(Job::Reached {
        network,
        target,
        within: number_in(matches, WITHIN),
        delta: width_in(matches),
    })
}

fn rehearse_in<'w>(matches: &ArgMatches<'w>) -> Option<Job<'w>>
    ensures given { IfSome result (GivesJob (codes "rehearse") (found_of matches.now)) }
    ensures missing { result ≡ None → Lacks (found_of matches.now) (codes "GR" ∷ codes "SCRIPT" ∷ []) [] }
{
    let network = matches.get_str(NETWORK)?;
    let script = matches.get_str(SCRIPT)?;
    Some(Job::Rehearse {
        network,
        script,
        journal_pages: journal_in(matches),
        room: number_in(matches, ROOM),
        delta: width_in(matches),
    })
}

fn create_in<'w>(matches: &ArgMatches<'w>) -> Option<Job<'w>>
    ensures given { IfSome result (GivesJob (codes "create") (found_of matches.now)) }
    ensures missing { result ≡ None → Lacks (found_of matches.now) (codes "STORE" ∷ codes "GR" ∷ codes "SS" ∷ []) [] }
{
    let store = matches.get_str(STORE)?;
    let network = matches.get_str(NETWORK)?;
    let landmarks = matches.get_str(LANDMARKS)?;
    Some(Job::Create {
        store,
        network,
        landmarks,
        journal_pages: journal_in(matches),
        room: number_in(matches, ROOM),
    })
}

fn apply_in<'w>(matches: &ArgMatches<'w>) -> Option<Job<'w>>
    ensures given { IfSome result (GivesJob (codes "apply") (found_of matches.now)) }
    ensures missing { result ≡ None → Lacks (found_of matches.now) (codes "STORE" ∷ codes "COMMANDS" ∷ []) [] }
{
    let store = matches.get_str(STORE)?;
    let commands = matches.get_str(COMMANDS)?;
    Some(Job::Apply {
        store,
        commands,
        delta: width_in(matches),
    })
}

fn ask_in<'w>(matches: &ArgMatches<'w>) -> Option<Job<'w>>
    ensures given { IfSome result (GivesJob (codes "ask") (found_of matches.now)) }
    ensures missing { result ≡ None → Lacks (found_of matches.now) (codes "STORE" ∷ []) [] ⊎ (given_pairs (found_of matches.now) ≡ None) }
{
    let store = matches.get_str(STORE)?;
    let pairs = pairs_in(matches)?;
    Some(Job::Ask {
        store,
        pairs,
        routes: matches.get_flag(ROUTES),
        delta: width_in(matches),
    })
}

fn check_in<'w>(matches: &ArgMatches<'w>) -> Option<Job<'w>>
    ensures given { IfSome result (GivesJob (codes "check") (found_of matches.now)) }
    ensures missing { result ≡ None → Lacks (found_of matches.now) (codes "STORE" ∷ []) [] }
{
    let store = matches.get_str(STORE)?;
    Some(Job::Check { store })
}

/// The pairs that the names of pipes make; none where there are no names.
fn pipes_in<'w>(alloc: Global, matches: &ArgMatches<'w>) -> Result<Vec<PipePair<'w>>, Misfit<'w>>
    ensures pairs { IfOk result (λ pairs. ArePairs (all_values (found_of matches.now) (codes "PIPES")) (all_values (found_of matches.now) (codes "asking")) pairs.items) }
    ensures fit { IfOk result (λ pairs. ArePipesFit pairs.items) }
    ensures refused { IfErr result (AreMisfit (all_values (found_of matches.now) (codes "PIPES")) (all_values (found_of matches.now) (codes "asking"))) }
{
    match (matches.get_strs(PIPES), matches.get_strs(ASKING)) {
        (Some(pipes), Some(asking)) => pairs_of(alloc, pipes, asking),
        (Some(pipes), None) => pairs_of(alloc, pipes, &[]),
        (None, Some(asking)) => pairs_of(alloc, &[], asking),
        (None, None) => pairs_of(alloc, &[], &[]),
    }
}

fn serve_in<'w>(alloc: Global, matches: &ArgMatches<'w>) -> Result<Job<'w>, Misfit<'w>>
    ensures given { IfOk result (GivesJob (codes "serve") (found_of matches.now)) }
    ensures refused { IfErr result (GivesNoServer (found_of matches.now)) }
{
    let Some(store) = matches.get_str(STORE) else {
        return Err(Misfit::MissingWord);
    };
    match pipes_in(alloc, matches) {
        Ok(pipes) => Ok(Job::Serve {
            store,
            pipes,
            copies: matches.get_str(COPIES),
            delta: width_in(matches),
            workers: number_or(matches, WORKERS, MOST_WORKERS, DEFAULT_WORKERS),
            patience: number_or(matches, PATIENCE, MOST_PATIENCE, DEFAULT_PATIENCE),
        }),
        Err(misfit) => Err(misfit),
    }
}

fn migrate_in<'w>(matches: &ArgMatches<'w>) -> Option<Job<'w>>
    ensures given { IfSome result (GivesJob (codes "migrate") (found_of matches.now)) }
    ensures missing { result ≡ None → Lacks (found_of matches.now) (codes "OLD" ∷ codes "NEW" ∷ []) [] }
{
    let old = matches.get_str(OLD)?;
    let new = matches.get_str(NEW)?;
    Some(Job::Migrate {
        old,
        new,
        room: number_in(matches, ROOM),
    })
}

fn upgrade_in<'w>(matches: &ArgMatches<'w>) -> Option<Job<'w>>
    ensures given { IfSome result (GivesJob (codes "upgrade") (found_of matches.now)) }
    ensures missing { result ≡ None → Lacks (found_of matches.now) (codes "STORE" ∷ codes "OLD" ∷ codes "GR" ∷ codes "NEW" ∷ []) [] }
{
    let store = matches.get_str(STORE)?;
    let old = matches.get_str(OLD)?;
    let network = matches.get_str(NETWORK)?;
    let new = matches.get_str(NEW)?;
    Some(Job::Upgrade {
        store,
        old,
        network,
        new,
        room: number_in(matches, ROOM),
    })
}

fn copy_in<'w>(matches: &ArgMatches<'w>) -> Option<Job<'w>>
    ensures given { IfSome result (GivesJob (codes "copy") (found_of matches.now)) }
    ensures missing { result ≡ None → Lacks (found_of matches.now) (codes "STORE" ∷ codes "FILE" ∷ []) [] }
{
    let store = matches.get_str(STORE)?;
    let file = matches.get_str(FILE)?;
    Some(Job::Copy {
        store,
        file,
        room: number_in(matches, ROOM),
        journal_pages: number_up_to(matches, JOURNAL, MOST_JOURNAL_PAGES),
    })
}

/// The arcs to be looked at: the arc of one number, or all arcs from the one node to the other.
fn arcs_in(matches: &ArgMatches<'_>) -> Option<ArcNumbers>
    ensures { GivesArcs (found_of matches.now) result }
{
    let number = number_in(matches, NUMBER)?;
    match number_in(matches, HEAD) {
        Some(head) => Some(ArcNumbers::Between { tail: number, head }),
        None => Some(ArcNumbers::Arc { number }),
    }
}

fn show_in<'w>(matches: &ArgMatches<'w>) -> Option<Job<'w>>
    ensures given { IfSome result (GivesJob (codes "show") (found_of matches.now)) }
    ensures missing { result ≡ None → Lacks (found_of matches.now) (codes "STORE" ∷ []) (codes "K" ∷ []) }
{
    let store = matches.get_str(STORE)?;
    let look = arcs_in(matches)?;
    Some(Job::Show { store, look })
}

fn export_in<'w>(matches: &ArgMatches<'w>) -> Option<Job<'w>>
    ensures given { IfSome result (GivesJob (codes "export") (found_of matches.now)) }
    ensures missing { result ≡ None → Lacks (found_of matches.now) (codes "STORE" ∷ codes "FOLDER" ∷ []) [] }
{
    let store = matches.get_str(STORE)?;
    let folder = matches.get_str(FOLDER)?;
    Some(Job::Export { store, folder })
}

/// The job of the subcommand of this name, unless it is `serve`.
fn plain_job_in<'w>(name: &str, matches: &ArgMatches<'w>) -> Option<Job<'w>>
    ensures { IfSome result (GivesJob name.now (found_of matches.now)) }
{
    match name {
        ONCE => once_in(matches),
        ROUTE => route_in(matches),
        BATCH => batch_in(matches),
        REACH => reach_in(matches),
        REACHED => reached_in(matches),
        REHEARSE => rehearse_in(matches),
        CREATE => create_in(matches),
        APPLY => apply_in(matches),
        ASK => ask_in(matches),
        CHECK => check_in(matches),
        MIGRATE => migrate_in(matches),
        UPGRADE => upgrade_in(matches),
        COPY => copy_in(matches),
        SHOW => show_in(matches),
        EXPORT => export_in(matches),
        _ => None,
    }
}

/// The job of the subcommand of this name.
fn named_job_in<'w>(
    alloc: Global,
    name: &str,
    matches: &ArgMatches<'w>,
) -> Result<Job<'w>, Misfit<'w>>
    ensures { IfOk result (GivesJob name.now (found_of matches.now)) }
{
    if name == SERVE {
        return serve_in(alloc, matches);
    }
    match plain_job_in(name, matches) {
        Some(job) => Ok(job),
        None => Err(Misfit::MissingWord),
    }
}

/// The job that was matched.
fn job_in<'w>(alloc: Global, matches: &ArgMatches<'w>) -> Result<Job<'w>, Misfit<'w>>
    ensures fit { IfOk result HasFitParts }
    ensures kind { IfOk result (λ job. subcommand_name_of matches.now ≡ subcommand_of job) }
    ensures joint { subcommand_name_of matches.now ≡ None → IfOk result (GivesParts (found_of matches.now)) }
    ensures once { IfOk result (λ job. ¬ NamesInputTwice job) }
    ensures given { subcommand_name_of matches.now ≡ None → IsOk result }
{
    match matches.subcommand() {
        None => Ok(Job::Joint {
            delta: width_in(matches),
        }),
        Some((name, inner)) => {
            let job = named_job_in(alloc, name, inner)?;
            if names_input_twice(&job) {
                Err(Misfit::SameInput)
            } else {
                Ok(job)
            }
        }
    }
}

/// Reads the program's words, the first of which is its own name.
pub fn read_words<'w, S: AsStr>(alloc: Global, words: &'w [S]) -> Result<Asked<'w>, Usage>
    ensures width { IfOk result (λ asked. ForSome (delta_of asked.job) IsWidth) }
    ensures journal { IfOk result (λ asked. ForSome (journal_pages_of asked.job) IsJournal) }
    ensures workers { IfOk result (λ asked. ForSome (workers_of asked.job) IsWorkers) }
    ensures pipes { IfOk result (λ asked. ArePipesFit (pipes_of asked.job)) }
    ensures once { IfOk result (λ asked. ¬ NamesInputTwice asked.job) }
    // Of the joint form nothing is told.
    ensures verbose { IfOk result (λ asked. subcommand_of asked.job ≡ None → asked.verbose ≡ false) }
    ensures usage { IfErr result IsUsage }
{
    let matched = match program(alloc) {
        Ok(command) => command.try_get_matches_from(words),
        Err(error) => Err(Error::from(error)),
    };
    match matched {
        Ok(matches) => match job_in(alloc, &matches) {
            Ok(job) => Ok(Asked {
                job,
                verbose: asks_to_tell(&matches),
            }),
            Err(misfit) => Err(usage_for(alloc, misfit)),
        },
        Err(error) => Err(usage_of(alloc, &error)),
    }
}
