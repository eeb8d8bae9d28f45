//! The lines of a script that make a step of a checkpoint.
ghost use Rattle.std.specs.Prelude.{◌≡◌, ◌∷◌, true, false, MatchResult};
ghost use lib.Chars.{codes};
ghost use Rattle.dimacs.specs.Lines.{fields};
ghost use Rattle.scripts.specs.ScriptTexts.{is_no_step};
ghost use Rattle.scripts.specs.ScriptReading.{ReadsEvent};

use dimacs::{Code, Numeral, split_one};
use disk::Pick;
use machine::{Event, StepPages};

/// How many pages a step may write: 1 to 64.
pub(crate) fn pages_of(number: Numeral) -> Result<StepPages, Code>
    ensures { MatchResult result (λ pages. (is_no_step number ≡ false) × (pages.pages ≡ number.size)) (λ code. (is_no_step number ≡ true) × (code ≡ Code.NumberRange)) }
{
    if number.is_refused() {
        return Err(Code::NumberRange);
    }
    match StepPages::new(number.size) {
        Some(pages) => Ok(pages),
        None => Err(Code::NumberRange),
    }
}

/// The event of a line `step`, given what follows that word.
pub(crate) fn step_event(rest: &[u8]) -> Result<Event<Pick>, Code>
    ensures { ReadsEvent (codes "step" ∷ fields rest.now) result }
{
    let Some(number) = split_one(rest) else {
        return Err(Code::BadLine);
    };
    let pages = pages_of(number)?;
    Ok(Event::CheckpointStep { pages })
}
