// Groups copied.
ghost use Rattle.std.specs.Prelude.{◌≡◌, IfOk};

use roadnet::{Group, OutOfMemory};
use std::alloc::Global;

/// Copies of groups, in their order.
pub(crate) fn copies(alloc: Global, groups: &[Group]) -> Result<Vec<Group>, OutOfMemory>
    ensures { IfOk result (λ copies. copies.items ≡ groups.now) }
{
    let mut copies = Vec::new(alloc);
    for group in groups {
        if copies.push(group.copy()?).is_err() {
            return Err(OutOfMemory);
        }
    }
    Ok(copies)
}
