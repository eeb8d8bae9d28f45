// Checkpoints between flushes.
ghost use Rattle.std.specs.Prelude.{◌≡◌, ◌≢◌, ◌≤◌, ◌↔◌, true, false, None, IfErr};
ghost use Rattle.disk.specs.Contents.{Rose};
ghost use Rattle.disk.specs.Moments.{AddsNothing, LeavesOnly};
ghost use Rattle.pagereader.specs.Outcomes.{failures_told};
ghost use Rattle.roadnet.specs.declared.refusals.Refusal.TheVariants.{Device as device, OutOfMemory as out_of_memory};
ghost use Rattle.machine.specs.Calls.{StepsCheckpoint, has_nothing_unchecked};
ghost use Rattle.keeper.specs.Keeping.{IsDurableIn};
ghost use Rattle.office.specs.Offices.{WhenTidy};
ghost use Rattle.keeper.specs.Parts.{told_step};

use crate::naming::Naming;
use crate::offices::Office;
use disk::Disk;
use roadnet::Refusal;
use store::Part;

impl<N: Naming, D: Disk> Office<N, D> {
    /// A step of a checkpoint of the durable network, as the keeper's, of at most this many pages, 1 to 64. Returns `Done` with the version that the
    /// checkpoint holds, or `Going` if some of its pages are left.
    ///
    /// It is refused if the store is broken (45); then for lack of memory (11) when a checkpoint would begin; then if the disk fails (43), after which the
    /// store is broken. After any other refusal nothing has changed.
    pub fn checkpoint_step(&mut self, pages: u32) -> Result<Part, Refusal>
        requires some { 1 ≤ pages }
        requires few { pages ≤ 64 }
        ensures step { StepsCheckpoint self.old.machine pages (told_step result) self.new.machine }
        // If no checkpoint is going and no page is unchecked, nothing is changed, not even on the disk.
        ensures nothing { self.old.machine.broken ≡ false → has_nothing_unchecked self.old.machine ≡ true → self.new ≡ self.old }
        ensures same { IfErr result (λ refusal. refusal ≢ device → self.new ≡ self.old) }
        ensures memory { IfErr result (λ refusal. refusal ≡ out_of_memory → self.old.machine.checkpoint ≡ None) }
        ensures counted { D.failures self.new.disk ≡ failures_told result (D.failures self.old.disk) }
        ensures failed { IfErr result (λ refusal. refusal ≡ device → Rose (D.failures self.old.disk) (D.failures self.new.disk)) }
        ensures width { self.new.width ≡ self.old.width }
        ensures given { self.new.given ≡ self.old.given }
        ensures adds_nothing { self.old.machine.broken ≡ true → AddsNothing D.moment D.left_since self.old.disk self.new.disk }
        // A stop during the call leaves content that stands for what is durable.
        ensures any_moment { WhenTidy N.came_tidy self.old (LeavesOnly D.moment D.left_since self.old.disk self.new.disk (IsDurableIn self.old.machine)) }
        ensures honest { D.honest self.new.disk ↔ D.honest self.old.disk }
    {
        self.keeper.checkpoint_step(pages)
    }
}
