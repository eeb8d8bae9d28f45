// A checkpoint that goes part by part, with commits between the parts.
ghost use Rattle.std.specs.Prelude.{◌≡◌, ◌≢◌, ◌≤◌, ◌↔◌, true, false, None, Some, Ok, IfOk, OnOk, OnErr, IfErr, IsSome};
ghost use Rattle.disk.specs.Contents.{Only};
ghost use Rattle.roadnet.specs.declared.refusals.Refusal.TheVariants.{Device as device};
ghost use Rattle.store.specs.Checkpointing.{MayRefuseCheckpoint};
ghost use Rattle.store.specs.Durable.{told_by, going_of, begun_by, begun_progress, has_all_checked};
ghost use Rattle.store.specs.Going.{part_by, progress_by, unchecked_by, slot_by, epoch_by};
ghost use Rattle.store.specs.PagedCalls.{KeepsDurable, TellsFailures, RefusesCheckpoint, KeepsStanding, KeepsAsTold, LeavesFor, StaysFor};

use crate::paged::going::GoingCheckpoint;
use crate::paged::parts::Part;
use crate::paged::state::Paged;
use checkpoint::{Frozen, FrozenNetwork, NextCheckpoint};
use disk::Disk;
use roadnet::Refusal;

impl<D: Disk> Paged<D> {
    // Begins a checkpoint: keeps what it needs of the network as it is, and closes the gate of the slot that is not current.
    pub(crate) fn begin_checkpoint(&mut self) -> Result<(), Refusal>
        requires works { self.old.broken ≡ false }
        requires none { self.old.going ≡ None }
        requires some { self.old.found.unchecked ≢ 0 }
        ensures told { told_by self.new ≡ told_by self.old }
        ensures going { OnOk result (going_of self.new ≡ Some (begun_by self.old)) }
        ensures works { OnOk result (self.new.broken ≡ false) }
        ensures refused { IfErr result (λ refusal. MayRefuseCheckpoint None refusal) }
        ensures same { IfErr result (λ refusal. refusal ≢ device → self.new ≡ self.old) }
        ensures tells { TellsFailures result self.old self.new }
        ensures kept { OnErr result (going_of self.new ≡ None) }
        ensures any_moment { LeavesFor self.old self.new }
        ensures stands { KeepsStanding result self.old self.new }
        ensures as_told { KeepsAsTold result self.old self.new }
    {
        let Ok(frozen) = Frozen::of(self.alloc, &self.found.network) else {
            return Err(Refusal::OutOfMemory);
        };
        let Ok(next) = NextCheckpoint::new(
            self.alloc,
            self.found.slot,
            self.found.epoch,
            self.found.version,
            self.found.next_sequence,
        ) else {
            return Err(Refusal::OutOfMemory);
        };
        let Ok(()) = next.begin(&mut self.disk, &self.found.header) else {
            self.broken = true;
            return Err(Refusal::Device);
        };
        self.going = Some(GoingCheckpoint {
            next,
            frozen,
            committed: 0,
        });
        Ok(())
    }

    // A part of the checkpoint that is going.
    fn go_on(&mut self, pages: u32) -> Result<Part, Refusal>
        requires works { self.old.broken ≡ false }
        requires going { IsSome self.old.going }
        requires some { 1 ≤ pages }
        requires few { pages ≤ 64 }
        ensures keeps { KeepsDurable self.old self.new }
        ensures answers { IfOk result (λ part. part ≡ part_by (begun_progress self.old) pages) }
        ensures going { OnOk result (going_of self.new ≡ progress_by (begun_progress self.old) pages) }
        ensures unchecked { OnOk result (self.new.found.unchecked ≡ unchecked_by (begun_progress self.old) self.old.found.unchecked pages) }
        ensures works { OnOk result (self.new.broken ≡ false) }
        ensures slot { OnOk result (self.new.found.slot ≡ slot_by (begun_progress self.old) self.old.found.slot pages) }
        ensures epoch { OnOk result (self.new.found.epoch ≡ epoch_by (begun_progress self.old) self.old.found.epoch pages) }
        ensures refused { IfErr result (λ refusal. refusal ≡ device) }
        ensures tells { TellsFailures result self.old self.new }
        ensures kept { OnErr result ((told_by self.new ≡ told_by self.old) × (going_of self.new ≡ going_of self.old)) }
        ensures any_moment { LeavesFor self.old self.new }
        ensures stands { KeepsStanding result self.old self.new }
        ensures as_told { KeepsAsTold result self.old self.new }
    {
        let Some(going) = self.going.take() else {
            return Err(Refusal::Device);
        };
        let mut going = going;
        let network = FrozenNetwork::new(&going.frozen, &self.found.network);
        let Ok(whole) = going
            .next
            .go_on(&mut self.disk, &self.found.header, &network, pages)
        else {
            self.broken = true;
            self.going = Some(going);
            return Err(Refusal::Device);
        };
        if !whole {
            self.going = Some(going);
            return Ok(Part::Going);
        }
        self.found.slot = going.next.slot();
        self.found.epoch = going.next.epoch();
        self.found.unchecked = going.committed;
        Ok(Part::Done(going.next.version()))
    }

    // `Store::checkpoint_part`, over the store's pages.
    pub fn checkpoint_part(&mut self, pages: u32) -> Result<Part, Refusal>
        requires some { 1 ≤ pages }
        requires few { pages ≤ 64 }
        // Network and version stay, even after a refusal.
        ensures keeps { KeepsDurable self.old self.new }
        // If no checkpoint is going and no page is unchecked, nothing is changed, not even on the disk.
        ensures nothing { self.old.broken ≡ false → has_all_checked self.old ≡ true → (result ≡ Ok (Part.Done self.old.found.version)) × (self.new ≡ self.old) }
        // Otherwise this many more pages are written, or all that are left, and only what was committed since is unchecked.
        ensures answers { has_all_checked self.old ≡ false → IfOk result (λ part. part ≡ part_by (begun_progress self.old) pages) }
        ensures going { has_all_checked self.old ≡ false → OnOk result (going_of self.new ≡ progress_by (begun_progress self.old) pages) }
        ensures unchecked { has_all_checked self.old ≡ false → OnOk result (self.new.found.unchecked ≡ unchecked_by (begun_progress self.old) self.old.found.unchecked pages) }
        // Once it is done, the other slot is current, with the next epoch.
        ensures slot { has_all_checked self.old ≡ false → OnOk result (self.new.found.slot ≡ slot_by (begun_progress self.old) self.old.found.slot pages) }
        ensures epoch { has_all_checked self.old ≡ false → OnOk result (self.new.found.epoch ≡ epoch_by (begun_progress self.old) self.old.found.epoch pages) }
        ensures works { OnOk result (self.new.broken ≡ false) }
        ensures refuses { RefusesCheckpoint result self.old self.new }
        ensures tells { TellsFailures result self.old self.new }
        // After a refusal the checkpoint has come as far as before.
        ensures kept { OnErr result ((told_by self.new ≡ told_by self.old) × (going_of self.new ≡ going_of self.old)) }
        // A stop during the call or after it leaves content that stands for this network and version.
        ensures any_moment { self.old.broken ≡ false → LeavesFor self.old self.new }
        ensures left { self.old.broken ≡ false → StaysFor self.old self.new }
        // After Ok a stop leaves only the content, which stands for the same network and version, by the fields as they are now.
        ensures only { D.honest self.old.disk → OnOk result (Only (D.content self.new.disk) (D.left self.new.disk)) }
        ensures stands { KeepsStanding result self.old self.new }
        ensures as_told { KeepsAsTold result self.old self.new }
    {
        if self.broken {
            return Err(Refusal::Broken);
        }
        if self.going.is_some() {
            return self.go_on(pages);
        }
        if self.found.unchecked == 0 {
            return Ok(Part::Done(self.found.version));
        }
        self.begin_checkpoint()?;
        match self.go_on(pages) {
            Ok(part) => Ok(part),
            Err(refusal) => {
                self.going = None;
                Err(refusal)
            }
        }
    }
}
