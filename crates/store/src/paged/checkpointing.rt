// A whole checkpoint, or the rest of the one that is going.
ghost use Rattle.std.specs.Prelude.{◌≡◌, ◌≢◌, ◌+◌, ◌↔◌, true, false, None, Some, Ok, IfOk, OnOk, OnErr, IfErr, IsSome};
ghost use Rattle.disk.specs.Contents.{Only};
ghost use Rattle.roadnet.specs.declared.refusals.Refusal.TheVariants.{Device as device};
ghost use Rattle.pages.specs.Layout.{other};
ghost use Rattle.store.specs.Durable.{told_by, going_of, begun_progress, has_all_checked};
ghost use Rattle.store.specs.PagedCalls.{KeepsDurable, TellsFailures, RefusesCheckpoint, KeepsStanding, KeepsAsTold, LeavesFor, StaysFor};

use crate::paged::state::Paged;
use checkpoint::FrozenNetwork;
use disk::Disk;
use pages::PAGES_AT_ONCE;
use roadnet::Refusal;

impl<D: Disk> Paged<D> {
    // The rest of the checkpoint that is going.
    fn complete_checkpoint(&mut self) -> Result<u64, Refusal>
        requires works { self.old.broken ≡ false }
        requires going { IsSome self.old.going }
        ensures keeps { KeepsDurable self.old self.new }
        ensures answers { IfOk result (λ version. version ≡ (begun_progress self.old).version) }
        ensures going { OnOk result (going_of self.new ≡ None) }
        ensures unchecked { OnOk result (self.new.found.unchecked ≡ (begun_progress self.old).committed) }
        ensures works { OnOk result (self.new.broken ≡ false) }
        ensures slot { OnOk result (self.new.found.slot ≡ other self.old.found.slot) }
        ensures epoch { OnOk result (self.new.found.epoch ≡ self.old.found.epoch + 1) }
        ensures refused { IfErr result (λ refusal. refusal ≡ device) }
        ensures tells { TellsFailures result self.old self.new }
        ensures kept { OnErr result ((told_by self.new ≡ told_by self.old) × (going_of self.new ≡ going_of self.old)) }
        ensures any_moment { LeavesFor self.old self.new }
        ensures stands { KeepsStanding result self.old self.new }
        ensures as_told { KeepsAsTold result self.old self.new }
    {
        let Some(going) = self.going.take() else {
            return Err(Refusal::Device);
        };
        let mut going = going;
        let network = FrozenNetwork::new(&going.frozen, &self.found.network);
        let Ok(()) = going.next.complete(
            &mut self.disk,
            &self.found.header,
            &network,
            PAGES_AT_ONCE as u32,
        )
        else {
            self.broken = true;
            self.going = Some(going);
            return Err(Refusal::Device);
        };
        self.found.slot = going.next.slot();
        self.found.epoch = going.next.epoch();
        self.found.unchecked = going.committed;
        Ok(going.next.version())
    }

    // `Store::checkpoint`, over the store's pages.
    pub fn checkpoint(&mut self) -> Result<u64, Refusal>
        // Network and version stay, even after a refusal.
        ensures keeps { KeepsDurable self.old self.new }
        // If no checkpoint is going and no page is unchecked, nothing is changed, not even on the disk.
        ensures nothing { self.old.broken ≡ false → has_all_checked self.old ≡ true → (result ≡ Ok self.old.found.version) × (self.new ≡ self.old) }
        ensures answers { IfOk result (λ version. version ≡ (begun_progress self.old).version) }
        ensures going { OnOk result (going_of self.new ≡ None) }
        ensures unchecked { OnOk result (self.new.found.unchecked ≡ (begun_progress self.old).committed) }
        ensures works { OnOk result (self.new.broken ≡ false) }
        // Otherwise, at Ok, the other slot is current, with the next epoch.
        ensures slot { has_all_checked self.old ≡ false → OnOk result (self.new.found.slot ≡ other self.old.found.slot) }
        ensures epoch { has_all_checked self.old ≡ false → OnOk result (self.new.found.epoch ≡ self.old.found.epoch + 1) }
        ensures refuses { RefusesCheckpoint result self.old self.new }
        ensures tells { TellsFailures result self.old self.new }
        ensures kept { OnErr result ((told_by self.new ≡ told_by self.old) × (going_of self.new ≡ going_of self.old)) }
        // A stop during the call or after it leaves content that stands for this network and version.
        ensures any_moment { self.old.broken ≡ false → LeavesFor self.old self.new }
        ensures left { self.old.broken ≡ false → StaysFor self.old self.new }
        // After Ok a stop leaves only the content, which stands for the same network and version, by the fields as they are now.
        ensures only { D.honest self.old.disk → OnOk result (Only (D.content self.new.disk) (D.left self.new.disk)) }
        ensures stands { KeepsStanding result self.old self.new }
        ensures as_told { KeepsAsTold result self.old self.new }
    {
        if self.broken {
            return Err(Refusal::Broken);
        }
        if self.going.is_some() {
            return self.complete_checkpoint();
        }
        if self.found.unchecked == 0 {
            return Ok(self.found.version);
        }
        self.begin_checkpoint()?;
        match self.complete_checkpoint() {
            Ok(version) => Ok(version),
            Err(refusal) => {
                self.going = None;
                Err(refusal)
            }
        }
    }
}
