//! The pairs of named pipes that words name.
ghost use Rattle.std.specs.Prelude.{◌≡◌, ◌%◌, ◌<◌, ◌++◌, length, slice_get, MatchBool, MatchOption, IfOk, IfErr, option_map};
ghost use Rattle.words.specs.Pipes.{names_of, texts, StandsBefore, AreDifferent, StandsTwice, ArePipesFit, AreMisfit, ArePairs, AreUnfit, AskBehind};
ghost use Rattle.words.specs.declared.pipes.Misfit.TheVariants.{OutOfMemory as out_of_memory};

use std::alloc::{AllocError, AllocFailed, Global};
use thiserror::Error;

/// A pair of named pipes, as they were written: the one from which a client's lines come, and the one into which its answers go.
#[derive(Clone, Copy, Debug, PartialEq, Eq)]
pub struct PipePair<'w> {
    pub input: &'w str,
    pub output: &'w str,
    /// Sessions there ask alone: none of their commands is carried out.
    pub asks_alone: bool,
}

/// Why words that were matched are no job.
#[derive(Clone, Copy, Debug, PartialEq, Eq, Error)]
pub enum Misfit<'w> {
    /// A word that has to stand at its place is not there.
    #[error("a word is missing")]
    MissingWord,
    /// The names are an odd number.
    #[error("a pipe is named alone: each client needs two, IN and OUT")]
    LonePipe,
    /// There are more than 120 names.
    #[error("more than 120 pipes are named")]
    TooManyPipes,
    /// This name stands twice among them.
    #[error("the pipe {name} is named twice")]
    SamePipe { name: &'w str },
    /// Two texts are to be read from standard input.
    #[error("standard input is named for two texts: of one of them a file is needed")]
    SameInput,
    /// There is no memory for the list of pairs.
    #[error("out of memory")]
    OutOfMemory,
}

/// The most names of pipes, two a pair.
const MOST_PIPES: usize = 120;

impl<'w, T: Drop> From<AllocFailed<T>> for Misfit<'w> {
    ghost from_gives = { λ _ why. why ≡ out_of_memory };

    fn from(_failed: AllocFailed<T>) -> Misfit<'w> {
        Misfit::OutOfMemory
    }
}

impl<'w> From<AllocError> for Misfit<'w> {
    ghost from_gives = { λ _ why. why ≡ out_of_memory };

    fn from(_error: AllocError) -> Misfit<'w> {
        Misfit::OutOfMemory
    }
}

/// Whether the name at a place stands at an earlier one too.
fn stands_before(names: &[&str], later: usize) -> bool
    requires { later < length names.now }
    ensures { MatchBool result (StandsBefore (texts names.now) later) (¬ StandsBefore (texts names.now) later) }
{
    for earlier in 0..later {
        if names[earlier] == names[later] {
            return true;
        }
    }
    false
}

/// A name that stands at two places, if there is one.
fn same_of<'w>(names: &[&'w str]) -> Option<&'w str>
    ensures { MatchOption result (AreDifferent (texts names.now)) (λ name. StandsTwice (texts names.now) name.now) }
{
    for later in 0..names.len() {
        if stands_before(names, later) {
            return Some(names[later]);
        }
    }
    None
}

/// The names two by two. A last one that stands alone is left out. Sessions ask alone at the pairs behind the first `changing` names.
fn two_by_two<'w>(
    alloc: Global,
    names: &[&'w str],
    changing: usize,
) -> Result<Vec<PipePair<'w>>, Misfit<'w>>
    requires { length names.now % 2 ≡ 0 }
    ensures pairs { IfOk result (λ pairs. names_of pairs.items ≡ texts names.now) }
    ensures asking { IfOk result (λ pairs. AskBehind changing pairs.items) }
    ensures causes { IfErr result (λ why. (why ≡ out_of_memory) × (0 < length names.now)) }
{
    let mut pairs = Vec::new(alloc);
    for k in 0..names.len() / 2 {
        pairs.push(PipePair {
            input: names[2 * k],
            output: names[2 * k + 1],
            asks_alone: changing <= 2 * k,
        })?;
    }
    Ok(pairs)
}

/// The same. Refused are more than 120 names, then a name that stands twice, then want of memory.
fn paired<'w>(
    alloc: Global,
    names: &[&'w str],
    changing: usize,
) -> Result<Vec<PipePair<'w>>, Misfit<'w>>
    requires { length names.now % 2 ≡ 0 }
    ensures pairs { IfOk result (λ pairs. names_of pairs.items ≡ texts names.now) }
    ensures asking { IfOk result (λ pairs. AskBehind changing pairs.items) }
    ensures fit { IfOk result (λ pairs. ArePipesFit pairs.items) }
    ensures refused { IfErr result (AreUnfit (texts names.now)) }
{
    if names.len() > MOST_PIPES {
        return Err(Misfit::TooManyPipes);
    }
    if let Some(name) = same_of(names) {
        return Err(Misfit::SamePipe { name });
    }
    two_by_two(alloc, names, changing)
}

/// Names, and behind them others.
fn joined<'w>(
    alloc: Global,
    names: &[&'w str],
    others: &[&'w str],
) -> Result<Vec<&'w str>, Misfit<'w>>
    ensures names { IfOk result (λ joined. joined.items ≡ names.now ++ others.now) }
    ensures causes { IfErr result (λ why. why ≡ out_of_memory) }
{
    let mut joined = Vec::from_slice(alloc, names)?;
    for name in others {
        joined.push(*name)?;
    }
    Ok(joined)
}

/// The pairs that these names make, of each the one that is read first: those at which clients may change the network, and behind them those at which they ask alone.
///
/// Refused is an odd number of either names, then more than 120 of both, then a name that stands twice among them, then want of memory.
pub fn pairs_of<'w>(
    alloc: Global,
    changing: &[&'w str],
    asking: &[&'w str],
) -> Result<Vec<PipePair<'w>>, Misfit<'w>>
    ensures pairs { IfOk result (λ pairs. ArePairs (texts changing.now) (texts asking.now) pairs.items) }
    ensures fit { IfOk result (λ pairs. ArePipesFit pairs.items) }
    ensures refused { IfErr result (AreMisfit (texts changing.now) (texts asking.now)) }
{
    if changing.len() % 2 == 1 || asking.len() % 2 == 1 {
        return Err(Misfit::LonePipe);
    }
    if asking.is_empty() {
        return paired(alloc, changing, changing.len());
    }
    let names = joined(alloc, changing, asking)?;
    paired(alloc, &names, changing.len())
}

/// The name of the pipe of this number, counted from 0 through the pairs.
pub fn pipe_at<'w>(pairs: &[PipePair<'w>], number: usize) -> Option<&'w str>
    ensures { option_map (λ n. n.now) result ≡ slice_get (names_of pairs.now) number }
{
    let place = number / 2;
    let pair = pairs.get(place)?;
    Some(if number == 2 * place {
        pair.input
    } else {
        pair.output
    })
}
