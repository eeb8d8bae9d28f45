// What readers and the writer know, and the steps: a switch and an entering, which see what is shown, and a note from the writer's seat.
use crate::published::Published;
use atomic_table::{Join, Split};
use crossbeam_utils::rule::{Outcome, Protocol};
use history::Front;
use left_right::Absorb;
use std::alloc::AllocError;
use std::sync::Arc;

impl Absorb<Published> for Published {
    type State = Published;

    ghost state = { λ shown. shown };

    ghost applied = { λ before next. next };

    fn absorb_first(
        &mut self,
        operation: &Published,
        _other: &Published,
    ) -> Result<(), AllocError> {
        let view = Arc::try_clone(&operation.view)?;
        *self = Published::new(view, operation.groups.again());
        Ok(())
    }

    fn absorb_second(&mut self, operation: Published, _other: &Published) -> Result<(), Published> {
        *self = operation;
        Ok(())
    }
}

/// The groups of what is shown begin with those that each seat has seen. A seat that has no name yet has seen nothing.
pub struct Shows;

impl Protocol<Published, Option<Front>> for Shows {
    ghost use Rattle.std.specs.Prelude.{None};
    ghost use Rattle.published.specs.Rules.{AllBegin};

    ghost holds = { λ x. AllBegin x.shown };

    ghost first = { None };
}

/// A seat sees what is shown after the step.
pub struct Sees;

impl Outcome<Published, Option<Front>> for Sees {
    ghost use Rattle.std.specs.Prelude.{◌≡◌, Some};
    ghost use Rattle.published.specs.Rules.{SeatFollows};

    ghost then = { λ seen before after now. SeatFollows seen after.shown × (now ≡ Some after.shown) };
}

/// The writer's seat names the desk to a new reader's seat, which has seen nothing.
pub struct NamesReader;

impl Split<Option<Front>> for NamesReader {
    ghost use Rattle.published.specs.Rules.{opening};

    ghost left = { λ seen. seen };

    ghost right = { opening };
}

impl Join<Option<Front>> for NamesReader {
    ghost use Rattle.std.specs.Prelude.{None};

    ghost both = { λ seen told. told };

    ghost spent = { None };
}
