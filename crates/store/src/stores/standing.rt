// How a store stands in its file: for a store, and for a file that is only examined.
ghost use Rattle.std.specs.Prelude.{◌≡◌, ◌↔◌, IfOk, IfErr, OnOk};
ghost use Rattle.disk.specs.Contents.{Only};
ghost use Rattle.disk.specs.Moments.{StaysSame};
ghost use Rattle.roadnet.specs.declared.refusals.Refusal.TheVariants.{OutOfMemory as out_of_memory};
ghost use Rattle.roadnet.specs.Net.{Net};
ghost use Rattle.pagereader.specs.Outcomes.{failures_told, MayEndOpening};
ghost use Rattle.store.specs.Inspecting.{HasStanding};
ghost use Rattle.store.specs.Opening.{HeaderFits, MayRefuseToOpen};
ghost use Rattle.store.specs.State.{WhileTidy, BeforeCommit};

use crate::opened::opening::find;
use crate::stores::store::Store;
use disk::Disk;
use pages::{Format, Slot};
use roadnet::Refusal;
use std::alloc::Global;

/// How a store stands in its file.
#[derive(Clone, Copy, Debug, PartialEq, Eq)]
pub struct Standing {
    /// The current slot: it holds the last checkpoint.
    pub slot: Slot,
    /// The epoch of that slot. It rises by one with each checkpoint.
    pub epoch: u64,
    /// How many pages of the journal follow that checkpoint.
    pub unchecked: u32,
}

/// What an examination of the file of a store finds.
#[derive(Clone, Copy, Debug, PartialEq, Eq)]
pub struct Inspected {
    /// The version of the network that the file stands for.
    pub version: u64,
    pub standing: Standing,
}

impl<D: Disk> Store<D> {
    /// How the store stands in its file: just after `open`, as its content did. It makes no call of the disk and takes no memory. If the store came tidy,
    /// on a disk that keeps the disk model, and is not broken, this is how the content stands, whatever was called since. If it did not come tidy, that
    /// holds until the first commit.
    pub fn standing(&self) -> Standing
        ensures slot { result.slot ≡ self.now.slot }
        ensures epoch { result.epoch ≡ self.now.epoch }
        ensures unchecked { result.unchecked ≡ self.now.unchecked }
        ensures stands { WhileTidy D.honest D.content self.now (HasStanding (D.content self.now.disk) self.now.network self.now.version result) }
        ensures before_commit { BeforeCommit D.honest D.content self.now (HasStanding (D.content self.now.disk) self.now.network self.now.version result) }
    {
        Standing {
            slot: self.pages.found.slot,
            epoch: self.pages.found.epoch,
            unchecked: self.pages.found.unchecked,
        }
    }
}

/// Examines the file of a store: it is synced, judged and read as by `open`, and refused in the same cases. It writes nothing.
///
/// It takes the memory of `open`, and frees it.
///
/// For a new store of `examples/six.gr` it finds version 0, slot A of epoch 1, and no unchecked page. After a commit the version is 1 and one page is
/// unchecked. After a checkpoint, slot B of epoch 2 is current, and no page is unchecked.
pub fn inspect<D: Disk>(alloc: Global, disk: &mut D) -> Result<Inspected, Refusal>
    // The content stands for a network at this version, and so.
    ensures stands { D.honest disk.old → IfOk result (λ found. (net : Net) × HasStanding (D.content disk.old) net found.version found.standing) }
    // It refuses what the format refuses. Its other refusals are for lack of memory, or because the disk failed in this call.
    ensures judged { D.honest disk.old → IfErr result (MayRefuseToOpen (D.content disk.old)) }
    // Lack of memory is reported only if the header fits the file.
    ensures order { D.honest disk.old → IfErr result (λ refusal. refusal ≡ out_of_memory → HeaderFits (D.content disk.old)) }
    // Whatever the disk, it refuses with 11 or 40 to 43. Its count of failures rises by one if 43 is reported, and otherwise not at all.
    ensures causes { IfErr result MayEndOpening }
    ensures counted { D.failures disk.new ≡ failures_told result (D.failures disk.old) }
    ensures untouched { D.honest disk.old → StaysSame D.content D.left D.moment D.left_since disk.old disk.new }
    // No stop takes back what it found.
    ensures at_rest { D.honest disk.old → OnOk result (Only (D.content disk.new) (D.left disk.new)) }
    ensures honest { D.honest disk.new ↔ D.honest disk.old }
{
    let found = find(alloc, disk, Format::Two)?;
    Ok(Inspected {
        version: found.version,
        standing: Standing {
            slot: found.slot,
            epoch: found.epoch,
            unchecked: found.unchecked,
        },
    })
}
