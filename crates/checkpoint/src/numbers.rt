//! The words of arcs as numbers.
ghost use Rattle.std.specs.Prelude.{◌≡◌, ◌<◌, ◌^◌, All, IfOk};
ghost use Rattle.checkpoint.specs.Frozen.{numbers_of};

use pages::word_number;
use roadnet::RoadArc;
use std::alloc::{AllocError, Global};

/// The words of these arcs as numbers.
pub fn numbers_of(alloc: Global, arcs: &[RoadArc]) -> Result<Vec<u32>, AllocError>
    requires { All (λ arc. arc.length < 2 ^ 31) arcs.now }
    ensures { IfOk result (λ numbers. numbers.items ≡ numbers_of arcs.now) }
{
    let mut numbers = Vec::with_capacity(alloc, arcs.len())?;
    for arc in arcs {
        numbers.push(word_number(arc))?;
    }
    Ok(numbers)
}
