ghost use Rattle.std.specs.Prelude.{◌≤◌, ◌<◌, IsTrue, IsFalse, unwrap_or};

/// Whether the value is below the known one, or below `top` if none is known.
#[inline(always)]
pub fn is_lower(known: Option<u64>, top: u64, value: u64) -> bool
    ensures lower { IsTrue result → value < unwrap_or known top }
    ensures not_lower { IsFalse result → unwrap_or known top ≤ value }
{
    match known {
        Some(old) => value < old,
        None => value < top,
    }
}
