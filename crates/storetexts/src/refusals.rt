//! The commands for which groups are refused, and who is told.
ghost use Rattle.std.specs.Prelude.{◌≡◌, ◌≤◌, ◌++◌, ◌∷◌, [], false, length, take, IfOk};
ghost use Rattle.storetexts.specs.Refusals.{IsFirstRefused, is_admitted, waiting_of};

use disk::Disk;
use keeper::Ledger;
use roadnet::{Group, OutOfMemory, Refusal};
use std::alloc::Global;

/// Whoever is told which commands of a text are refused.
pub trait HearsRefusals {
    /// The command at this place, counted from 0 through all groups of the text, is refused, and with it its group.
    fn refused(&self, place: usize, refusal: Refusal);
}

/// Nobody is told.
impl HearsRefusals for () {
    fn refused(&self, _place: usize, _refusal: Refusal) {}
}

/// The groups that are accepted and not durable yet.
fn waiting<D: Disk>(ledger: &Ledger<D>) -> &[Group]
    ensures { result.now ≡ waiting_of ledger.now.machine }
{
    let accepted = ledger.groups();
    let count = ledger.latest().saturating_sub(ledger.durable()) as usize;
    &accepted[accepted.len().saturating_sub(count)..]
}

/// Copies of groups, and after them a group of the first commands of another one, so many.
fn with_front(
    alloc: Global,
    groups: &[Group],
    group: &Group,
    count: usize,
) -> Result<Vec<Group>, OutOfMemory>
    requires some { 1 ≤ count }
    requires few { count ≤ length group.now }
    ensures { IfOk result (λ copies. copies.items ≡ groups.now ++ take count group.now ∷ []) }
{
    let mut copies = Vec::new(alloc);
    for other in groups {
        if copies.push(other.copy()?).is_err() {
            return Err(OutOfMemory);
        }
    }
    let front = Vec::from_slice(alloc, &group.commands()[..count])?;
    let Ok(front) = Group::new(front) else {
        return Err(OutOfMemory);
    };
    match copies.push(front) {
        Ok(()) => Ok(copies),
        Err(_) => Err(OutOfMemory),
    }
}

/// Whether the first commands of a group, so many, would be admitted as a group.
fn is_admitted<D: Disk>(
    alloc: Global,
    ledger: &Ledger<D>,
    group: &Group,
    count: usize,
) -> Result<bool, OutOfMemory>
    requires some { 1 ≤ count }
    requires few { count ≤ length group.now }
    ensures { IfOk result (λ fits. fits ≡ is_admitted ledger.now.machine group.now count) }
{
    let groups = with_front(alloc, waiting(ledger), group, count)?;
    Ok(ledger.network().admit_groups(&groups).is_ok())
}

/// The place, counted from 0, of the command for which a group is refused: the commands before it would be admitted as a group, and together with it they are
/// not. It is 0 for a group that is refused although all of it would be admitted. The group and at most eight fronts of it are judged.
pub(crate) fn refused_place<D: Disk>(
    alloc: Global,
    ledger: &Ledger<D>,
    group: &Group,
) -> Result<usize, OutOfMemory>
    ensures { IfOk result (λ place. is_admitted ledger.now.machine group.now (length group.now) ≡ false → IsFirstRefused ledger.now.machine group.now place) }
{
    let mut admitted = 0;
    let mut refused = group.commands().len();
    if is_admitted(alloc, ledger, group, refused)? {
        return Ok(0);
    }
    'halves: while refused - admitted > 1 {
        let middle = admitted + (refused - admitted) / 2;
        if is_admitted(alloc, ledger, group, middle)? {
            admitted = middle;
        } else {
            refused = middle;
        }
    }
    Ok(admitted)
}
