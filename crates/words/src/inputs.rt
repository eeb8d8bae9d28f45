//! Which jobs read the standard input, and that none reads it twice.
ghost use Rattle.std.specs.Bool.{Decides};
ghost use Rattle.words.specs.Words.{ComesTwice, IsInput, NamesInputTwice};

use crate::jobs::{Job, PairTexts};

/// What is written in place of a text's file for the standard input.
const INPUT: &str = "-";

/// Whether a text is the standard input.
pub fn is_input(name: &str) -> bool
    ensures { Decides result (IsInput name.now) }
{
    name == INPUT
}

/// Whether texts of pairs, or the text of a network beside them, are twice the standard input.
fn pairs_name_input_twice(pairs: PairTexts<'_>, has_input: bool) -> bool
    ensures { Decides result (ComesTwice has_input pairs.entry) }
{
    match pairs {
        PairTexts::Listed { pairs } => has_input && is_input(pairs),
        PairTexts::Table { sources, targets } => {
            if has_input {
                is_input(sources) || is_input(targets)
            } else {
                is_input(sources) && is_input(targets)
            }
        }
    }
}

/// Whether a job names the standard input for two of its texts.
pub fn names_input_twice(job: &Job<'_>) -> bool
    ensures { Decides result (NamesInputTwice job.now) }
{
    match *job {
        Job::Batch { network, pairs, .. } => pairs_name_input_twice(pairs, is_input(network)),
        Job::Ask { pairs, .. } => pairs_name_input_twice(pairs, false),
        Job::Rehearse {
            network,
            script: second,
            ..
        }
        | Job::Create {
            network,
            landmarks: second,
            ..
        }
        | Job::Upgrade {
            old: network,
            network: second,
            ..
        } => is_input(network) && is_input(second),
        Job::Joint { .. }
        | Job::Once { .. }
        | Job::Route { .. }
        | Job::Reach { .. }
        | Job::Reached { .. }
        | Job::Apply { .. }
        | Job::Check { .. }
        | Job::Serve { .. }
        | Job::Migrate { .. }
        | Job::Copy { .. }
        | Job::Show { .. }
        | Job::Export { .. } => false,
    }
}
