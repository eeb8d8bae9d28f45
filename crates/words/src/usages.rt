//! What a command line shows that asks for no job.
ghost use Rattle.std.specs.Prelude.{◌≡◌, ◌≢◌, ◌≤◌};
ghost use Rattle.clap.specs.Words.{kind_of};
ghost use Rattle.words.specs.Words.{IsUsage};

use crate::pipes::Misfit;
use clap::Error;
use clap::error::ErrorKind;
use std::alloc::{AllocError, Global};

/// Why the words are no job: help was asked for (status 0), they were not understood (2), or memory ran out (1, without a text).
#[derive(Debug, Drop)]
pub struct Usage {
    pub status: u8,
    pub text: String,
}

/// The status of a command line that was not understood.
pub const MISUSE: u8 = 2;

/// How the line begins that says how an option that there is none of would be taken for a name.
const NAME_TIP: &str = "\n  tip: to pass '";

/// The text of a refusal of the words, without that line.
fn text_of(alloc: Global, error: &Error) -> Result<String, AllocError> {
    let text = format!(in alloc; "{error}")?;
    let Some((before, tip)) = text.as_str().split_once(NAME_TIP) else {
        return Ok(text);
    };
    match tip.split_once("\n") {
        Some((_, after)) => format!(in alloc; "{}\n{after}", before.trim_end()),
        None => Ok(text),
    }
}

/// What a refusal of the words shows.
pub fn usage_of(alloc: Global, error: &Error) -> Usage
    ensures usage { IsUsage result }
    ensures memory { kind_of error.now ≡ ErrorKind.OutOfMemory → result.status ≡ 1 }
    ensures help { kind_of error.now ≡ ErrorKind.DisplayHelp → result.status ≤ 1 }
    ensures version { kind_of error.now ≡ ErrorKind.DisplayVersion → result.status ≤ 1 }
    ensures misuse { kind_of error.now ≢ ErrorKind.DisplayHelp → kind_of error.now ≢ ErrorKind.DisplayVersion → 1 ≤ result.status }
{
    if let ErrorKind::OutOfMemory = error.kind() {
        return out_of_memory(alloc);
    }
    match text_of(alloc, error) {
        Ok(text) => Usage {
            status: if error.use_stderr() { MISUSE } else { 0 },
            text,
        },
        Err(_) => out_of_memory(alloc),
    }
}

fn out_of_memory(alloc: Global) -> Usage
    ensures usage { IsUsage result }
    ensures status { result.status ≡ 1 }
{
    Usage {
        status: 1,
        text: String::new(alloc),
    }
}

/// What a refusal of words that were matched shows: a misuse, but where memory ran out.
pub fn usage_for(alloc: Global, misfit: Misfit<'_>) -> Usage
    ensures usage { IsUsage result }
    ensures memory { misfit.entry ≡ Misfit.OutOfMemory → result.status ≡ 1 }
    ensures misuse { misfit.entry ≢ Misfit.OutOfMemory → 1 ≤ result.status }
{
    if let Misfit::OutOfMemory = misfit {
        return out_of_memory(alloc);
    }
    match format!(in alloc; "error: {misfit}\n\nFor more information, try '--help'.\n") {
        Ok(text) => Usage {
            status: MISUSE,
            text,
        },
        Err(_) => out_of_memory(alloc),
    }
}
