// A store as its callers see it: its pages, and which groups a stop may add to them. It is apart from `Paged`, so that a caller sees numbers and no page.
ghost use Rattle.std.specs.Prelude.{◌≡◌, ◌≢◌, ◌+◌, ◌≤◌, ◌↔◌, true, false, List, [], ℕ, None, Ok, length, IfOk, OnOk, OnErr, IfErr, MatchResult};
ghost use Rattle.disk.specs.Contents.{Only, Rose};
ghost use Rattle.disk.specs.Moments.{LeavesOnly, AddsNothing};
ghost use Rattle.roadnet.specs.Groups.{count_of};
ghost use Rattle.roadnet.specs.declared.refusals.Refusal.TheVariants.{Device as device, OutOfMemory as out_of_memory};
ghost use Rattle.pages.specs.Limits.{most_commands};
ghost use Rattle.pagereader.specs.Outcomes.{failures_told};
ghost use Rattle.store.specs.Commits.{Commits};
ghost use Rattle.store.specs.Committing.{alone};
ghost use Rattle.store.specs.Checkpointing.{refusal_of_checkpoint, MayRefuseCheckpoint};
ghost use Rattle.pages.specs.Layout.{other, slot_pages};
ghost use Rattle.store.specs.Going.{part_by, progress_by, slot_by, epoch_by, unchecked_by};
ghost use Rattle.store.specs.State.{CameTidy, WhileTidy, HasCommittedNothing, HasRoom, HasCheckpointPages, IsDurable, IsDurableOrAfter, HasTold, told, is_calm, going_checkpoint_of, has_none_unchecked};

use crate::paged::parts::Part;
use crate::paged::state::Paged;
use crate::stores::alone::groups_of;
use crate::stores::in_flight::{InFlight, Made, has_failed};
use disk::Disk;
use roadnet::{Command, Group, Network, Refusal};
use std::marker::Model;
use std::snapshot::Snapshot;

/// A network that is kept on a disk.
///
/// It takes the network, and a few numbers; while a checkpoint is going, also 4 bytes an arc and a buffer of 64 pages.
#[derive(Drop)]
pub struct Store<D: Disk> {
    pub(crate) pages: Paged<D>,
    /// The disk as it was when the store was made or opened.
    pub(crate) given: Snapshot<D>,
    /// The groups of the commit that failed, if one did.
    pub(crate) in_flight: InFlight,
}

impl<D: Disk> Model for Store<D> {
    ghost use Rattle.std.specs.Prelude.{◌≡◌, true, false, List, [], ℕ};
    ghost use Rattle.disk.specs.Contents.{Only};
    ghost use Rattle.pages.specs.Layout.{slot_pages};
    ghost use Rattle.store.specs.Committing.{HasTidyStanding};
    ghost use Rattle.store.specs.Durable.{told_by, KeepsTold};
    ghost use Rattle.storefile.specs.Standing.{IsBeforeOrAfter};
    ghost use Rattle.store.specs.State.{StoreState, CameTidy, state_of};

    ghost Value = { StoreState D };

    ghost view = { λ s. state_of s.pages s.given.value s.in_flight.groups };

    ghost invariant = { λ s.
        (s.pages.broken ≡ false → s.in_flight.groups ≡ [])
        × (CameTidy D.honest D.content s.given.value
        → D.honest s.pages.disk
        × (s.pages.broken ≡ false → Only (D.content s.pages.disk) (D.left s.pages.disk) × HasTidyStanding (D.content s.pages.disk) (told_by s.pages))
        × (s.pages.broken ≡ true → (c : List ℕ) → D.left s.pages.disk c → IsBeforeOrAfter s.pages.found.header.journal_pages (slot_pages s.pages.found.header) s.pages.found.network s.pages.found.version s.in_flight.groups c))
        × KeepsTold s.given.value s.pages };
}

impl<D: Disk> Store<D> {
    /// The durable network, even if the store is broken.
    pub fn network(&self) -> &Network
        ensures { result.now ≡ self.now.network }
    {
        &self.pages.found.network
    }

    /// The version of the durable network: how many groups were ever made durable. If the store came tidy, on a disk that keeps the disk model, and is not
    /// broken, a stop leaves only the content, and that stands for this network and version: a fact of the store, whatever was called since. If it is
    /// broken, each content that a stop may leave stands for them, or for those after the groups in flight, which are those of the commit that failed, or
    /// none.
    pub fn version(&self) -> u64
        ensures version { result ≡ self.now.version }
        ensures honest { CameTidy D.honest D.content self.now.given → D.honest self.now.disk }
        ensures room { HasRoom self.now }
        ensures only { D.honest self.now.disk → self.now.broken ≡ false → Only (D.content self.now.disk) (D.left self.now.disk) }
        ensures stands { CameTidy D.honest D.content self.now.given → self.now.broken ≡ false → IsDurable self.now (D.content self.now.disk) }
        // Tidy or not, before a commit the content stands for the store's network and version.
        ensures before_commit { HasCommittedNothing D.honest D.content self.now → self.now.broken ≡ false → HasTold (D.content self.now.disk) (told self.now) }
        ensures left { CameTidy D.honest D.content self.now.given → (c : List ℕ) → D.left self.now.disk c → IsDurableOrAfter self.now self.now.in_flight c }
        ensures none_in_flight { self.now.broken ≡ false → self.now.in_flight ≡ [] }
        ensures checkpoint_pages { CameTidy D.honest D.content self.now.given → self.now.broken ≡ false → HasCheckpointPages self.now }
    {
        self.pages.found.version
    }

    /// How many pages of the journal follow the current checkpoint. If the store came tidy, or nothing was committed since, on a disk that keeps the disk
    /// model, and it is not broken, so many pages follow it in the content.
    pub fn unchecked(&self) -> u32
        ensures unchecked { result ≡ self.now.unchecked }
        ensures stands { CameTidy D.honest D.content self.now.given → self.now.broken ≡ false → HasTold (D.content self.now.disk) (told self.now) }
        ensures before_commit { HasCommittedNothing D.honest D.content self.now → self.now.broken ≡ false → HasTold (D.content self.now.disk) (told self.now) }
    {
        self.pages.found.unchecked
    }

    /// How many pages the journal has.
    pub fn journal_pages(&self) -> u32
        ensures { result ≡ self.now.journal_pages }
    {
        self.pages.found.header.journal_pages
    }

    /// Whether the store is not broken and no checkpoint is going.
    pub fn calm(&self) -> bool
        ensures { result ≡ is_calm self.now }
    {
        !self.pages.broken && self.pages.going.is_none()
    }

    /// The disk. No call of it is made. If the store came tidy, on a disk that keeps the disk model, and is not broken, a stop may leave only its content,
    /// and that stands for the store's network and version: opening gives both again. If it is broken, each content that a stop may leave stands for them,
    /// or for those after the groups in flight.
    pub fn close(self) -> D
        ensures disk { result ≡ self.disk }
        ensures honest { CameTidy D.honest D.content self.given → D.honest result }
        ensures only { D.honest result → self.broken ≡ false → Only (D.content result) (D.left result) }
        ensures stands { CameTidy D.honest D.content self.given → self.broken ≡ false → IsDurable self (D.content result) }
        ensures left { CameTidy D.honest D.content self.given → (c : List ℕ) → D.left result c → IsDurableOrAfter self self.in_flight c }
    {
        self.pages.disk
    }

    /// Makes these groups, of 1 to 253 commands in all, durable as one page of the journal, and carries them out. Returns the new version: each group
    /// counts one. All of them take effect or none, whenever a stop comes. At `Ok` they are there for good.
    ///
    /// It is refused, in this order, if the store is broken (45), if the version would exceed 2^48 (28), if the journal has no free page (44), with the
    /// refusal of the first command that is not admitted after those before it (20 to 27, 29), or for lack of memory (11), all before any call of the disk;
    /// then if the disk fails (43), after which the store is broken and writes nothing more. After any other refusal nothing has changed.
    ///
    /// It makes four writes and syncs, or six if the page at that place is open. It takes 4 bytes a landmark, and never a copy of the arcs: n commands cost
    /// O(n^2) comparisons.
    ///
    /// In a new store of `examples/six.gr`, `Close { arc: 7 }` twice in one call, as two groups or as one, is `AlreadyClosed`, and version 0 stays. Once,
    /// it returns 1. With a journal of 2 pages, the third commit before a checkpoint is `JournalFull`.
    pub fn commit_groups(&mut self, groups: &[Group]) -> Result<u64, Refusal>
        requires some { 1 ≤ length groups.now }
        requires few { count_of groups.now ≤ most_commands }
        ensures { Commits D.Disk groups.now result self.old self.new }
    {
        let made = self.pages.commit_groups(groups);
        let failed = has_failed(&made);
        self.in_flight = self.in_flight.after(&Made { groups, failed });
        made
    }

    /// Commits commands as `commit_groups` does, each as a group of its own: n commands are n versions. All of them take effect or none.
    ///
    /// In a new store of `examples/six.gr`, `Close { arc: 7 }` and `Set { arc: 8, length: 4 }` return 2.
    pub fn commit(&mut self, commands: &[Command]) -> Result<u64, Refusal>
        requires some { 1 ≤ length commands.now }
        requires few { length commands.now ≤ most_commands }
        ensures { Commits D.Disk (alone commands.now) result self.old self.new }
    {
        let groups = groups_of(commands);
        self.commit_groups(&groups[..commands.len()])
    }

    /// Writes a part of a checkpoint: of the one that is going, or otherwise of a new one. A checkpoint holds the network as it was when it began, and goes
    /// to the slot that is not current. At most so many word pages and end pages, 1 to 64, are written. Returns `Going` if some are then left. Otherwise
    /// the slot is current, only the pages of the journal committed since the checkpoint began are unchecked, and it returns `Done` with the version that
    /// the checkpoint holds. If none is going and no page is unchecked, nothing is done.
    ///
    /// The store's network and version stay, whenever a stop comes. A stop loses a checkpoint that is going, and nothing else.
    ///
    /// It is refused if the store is broken (45); then for lack of memory (11) when a checkpoint would begin, before any call of the disk; then if the disk
    /// fails (43), after which the store is broken and writes nothing more. After any other refusal nothing has changed.
    ///
    /// If a slot has three word pages and a commit has made version 1, a part of 1 page returns `Going`, and then one of 64 `Done(1)`.
    pub fn checkpoint_part(&mut self, pages: u32) -> Result<Part, Refusal>
        requires some { 1 ≤ pages }
        requires few { pages ≤ 64 }
        // Network and version stay, even after a refusal.
        ensures network { self.new.network ≡ self.old.network }
        ensures version { self.new.version ≡ self.old.version }
        ensures given { self.new.given ≡ self.old.given }
        ensures same_in_flight { self.new.in_flight ≡ self.old.in_flight }
        ensures sizes { (self.new.journal_pages ≡ self.old.journal_pages) × (self.new.checkpoint_pages ≡ self.old.checkpoint_pages) }
        // If no checkpoint is going and no page is unchecked, nothing is changed, not even on the disk.
        ensures nothing { self.old.broken ≡ false → has_none_unchecked self.old ≡ true → (result ≡ Ok (Part.Done self.old.version)) × (self.new ≡ self.old) }
        // Otherwise this many more pages are written, or all that are left, and only what was committed since is unchecked.
        ensures answers { has_none_unchecked self.old ≡ false → IfOk result (λ part. part ≡ part_by (going_checkpoint_of self.old) pages) }
        ensures going { has_none_unchecked self.old ≡ false → OnOk result (self.new.going ≡ progress_by (going_checkpoint_of self.old) pages) }
        ensures unchecked { has_none_unchecked self.old ≡ false → OnOk result (self.new.unchecked ≡ unchecked_by (going_checkpoint_of self.old) self.old.unchecked pages) }
        // Once all are written, the slot is current, with an epoch above the one before.
        ensures slot { has_none_unchecked self.old ≡ false → OnOk result (self.new.slot ≡ slot_by (going_checkpoint_of self.old) self.old.slot pages) }
        ensures epoch { has_none_unchecked self.old ≡ false → OnOk result (self.new.epoch ≡ epoch_by (going_checkpoint_of self.old) self.old.epoch pages) }
        ensures works { OnOk result (self.new.broken ≡ false) }
        // It refuses if the store is broken. If it is not, it may refuse only for lack of memory when a checkpoint would begin, or because the disk failed
        // in this call.
        ensures refused { MatchResult result (λ _. refusal_of_checkpoint self.old.broken ≡ None) (MayRefuseCheckpoint (refusal_of_checkpoint self.old.broken)) }
        ensures memory { IfErr result (λ refusal. refusal ≡ out_of_memory → self.old.going ≡ None) }
        ensures same { IfErr result (λ refusal. refusal ≢ device → self.new ≡ self.old) }
        // The count of failures rises by one if a failure of the disk is reported, and otherwise not at all: no failure goes unreported.
        ensures counted { D.failures self.new.disk ≡ failures_told result (D.failures self.old.disk) }
        ensures failed { IfErr result (λ refusal. refusal ≡ device → Rose (D.failures self.old.disk) (D.failures self.new.disk)) }
        ensures breaks { IfErr result (λ refusal. refusal ≡ device → self.new.broken ≡ true) }
        // After a refusal the checkpoint has come as far as before.
        ensures kept { OnErr result ((self.new.unchecked ≡ self.old.unchecked) × (self.new.going ≡ self.old.going)) }
        ensures kept_slot { OnErr result ((self.new.slot ≡ self.old.slot) × (self.new.epoch ≡ self.old.epoch)) }
        ensures adds_nothing { self.old.broken ≡ true → AddsNothing D.moment D.left_since self.old.disk self.new.disk }
        // A stop during the call or after it leaves content that stands for this network and version.
        ensures any_moment { WhileTidy D.honest D.content self.old (LeavesOnly D.moment D.left_since self.old.disk self.new.disk (IsDurable self.old)) }
        ensures left { CameTidy D.honest D.content self.old.given → self.old.broken ≡ false → (c : List ℕ) → D.left self.new.disk c → IsDurable self.old c }
        // Tidy or not, before a commit the content stands, after Ok, for the store's network and version.
        ensures before_commit { HasCommittedNothing D.honest D.content self.old → OnOk result (HasTold (D.content self.new.disk) (told self.new)) }
        ensures only { D.honest self.old.disk → OnOk result (Only (D.content self.new.disk) (D.left self.new.disk)) }
        ensures honest { D.honest self.new.disk ↔ D.honest self.old.disk }
    {
        self.pages.checkpoint_part(pages)
    }

    /// Writes everything that is left of the checkpoint that is going, or otherwise a whole new one. Network and version stay, whenever a stop comes.
    /// Returns the version that the checkpoint holds. Then only the pages of the journal committed since it began are unchecked. If none is going and no
    /// page is unchecked, nothing is done.
    ///
    /// It is refused as a part is.
    ///
    /// With two commands made durable by a call each and no checkpoint going, it returns 2, and then no page of the journal is unchecked.
    pub fn checkpoint(&mut self) -> Result<u64, Refusal>
        // Network and version stay, even after a refusal.
        ensures network { self.new.network ≡ self.old.network }
        ensures version { self.new.version ≡ self.old.version }
        ensures given { self.new.given ≡ self.old.given }
        ensures same_in_flight { self.new.in_flight ≡ self.old.in_flight }
        ensures sizes { (self.new.journal_pages ≡ self.old.journal_pages) × (self.new.checkpoint_pages ≡ self.old.checkpoint_pages) }
        // If no checkpoint is going and no page is unchecked, nothing is changed, not even on the disk.
        ensures nothing { self.old.broken ≡ false → has_none_unchecked self.old ≡ true → (result ≡ Ok self.old.version) × (self.new ≡ self.old) }
        ensures answers { IfOk result (λ version. version ≡ (going_checkpoint_of self.old).version) }
        ensures going { OnOk result (self.new.going ≡ None) }
        ensures unchecked { OnOk result (self.new.unchecked ≡ (going_checkpoint_of self.old).committed) }
        ensures slot { has_none_unchecked self.old ≡ false → OnOk result ((self.new.slot ≡ other self.old.slot) × (self.new.epoch ≡ self.old.epoch + 1)) }
        ensures works { OnOk result (self.new.broken ≡ false) }
        // It refuses if the store is broken. If it is not, it may refuse only for lack of memory when a checkpoint would begin, or because the disk failed
        // in this call.
        ensures refused { MatchResult result (λ _. refusal_of_checkpoint self.old.broken ≡ None) (MayRefuseCheckpoint (refusal_of_checkpoint self.old.broken)) }
        ensures memory { IfErr result (λ refusal. refusal ≡ out_of_memory → self.old.going ≡ None) }
        ensures same { IfErr result (λ refusal. refusal ≢ device → self.new ≡ self.old) }
        // The count of failures rises by one if a failure of the disk is reported, and otherwise not at all: no failure goes unreported.
        ensures counted { D.failures self.new.disk ≡ failures_told result (D.failures self.old.disk) }
        ensures failed { IfErr result (λ refusal. refusal ≡ device → Rose (D.failures self.old.disk) (D.failures self.new.disk)) }
        ensures breaks { IfErr result (λ refusal. refusal ≡ device → self.new.broken ≡ true) }
        ensures kept { OnErr result ((self.new.unchecked ≡ self.old.unchecked) × (self.new.going ≡ self.old.going)) }
        ensures kept_slot { OnErr result ((self.new.slot ≡ self.old.slot) × (self.new.epoch ≡ self.old.epoch)) }
        ensures adds_nothing { self.old.broken ≡ true → AddsNothing D.moment D.left_since self.old.disk self.new.disk }
        // A stop during the call or after it leaves content that stands for this network and version.
        ensures any_moment { WhileTidy D.honest D.content self.old (LeavesOnly D.moment D.left_since self.old.disk self.new.disk (IsDurable self.old)) }
        ensures left { CameTidy D.honest D.content self.old.given → self.old.broken ≡ false → (c : List ℕ) → D.left self.new.disk c → IsDurable self.old c }
        // Tidy or not, before a commit the content stands, after Ok, for the store's network and version.
        ensures before_commit { HasCommittedNothing D.honest D.content self.old → OnOk result (HasTold (D.content self.new.disk) (told self.new)) }
        ensures only { D.honest self.old.disk → OnOk result (Only (D.content self.new.disk) (D.left self.new.disk)) }
        ensures honest { D.honest self.new.disk ↔ D.honest self.old.disk }
    {
        self.pages.checkpoint()
    }
}
