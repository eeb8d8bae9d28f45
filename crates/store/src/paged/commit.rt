// Groups of commands made durable, all of them or none.
ghost use Rattle.std.specs.Prelude.{◌≡◌, ◌≢◌, ◌+◌, ◌≤◌, ◌↔◌, true, false, List, ℕ, length, Some, IfOk, OnOk, OnErr, IfErr, option_map};
ghost use Rattle.std.specs.List.{AllByRecursion};
ghost use Rattle.disk.specs.Contents.{Only};
ghost use Rattle.disk.specs.Moments.{AddsNothing};
ghost use Rattle.roadnet.specs.Groups.{count_of};
ghost use Rattle.roadnet.specs.Step.{after};
ghost use Rattle.roadnet.specs.declared.refusals.Refusal.TheVariants.{Device as device};
ghost use Rattle.store.specs.Durable.{going_of};
ghost use Rattle.store.specs.Committing.{RefusesCommit};
ghost use Rattle.pages.specs.Limits.{most_commands};
ghost use Rattle.store.specs.Going.{with_page_committed};
ghost use Rattle.store.specs.PagedCalls.{commit_refusal_by, TellsFailures, KeepsNumbers, KeepsStanding, AreTidyPages, IsFor, LeavesForOrAfter, StaysForOrAfter};

use crate::paged::going::count_page;
use crate::paged::state::Paged;
use disk::Disk;
use journal::append_page;
use pages::MOST_VERSIONS;
use roadnet::{Group, Refusal};

// No group is empty.
fn none_is_empty(groups: &[Group])
    ensures { AllByRecursion (λ group. 1 ≤ length group) groups.now }
{
    for group in groups {
        let _commands = group.commands();
    }
}

impl<D: Disk> Paged<D> {
    // `Store::commit_groups`, over the store's pages.
    pub fn commit_groups(&mut self, groups: &[Group]) -> Result<u64, Refusal>
        requires some { 1 ≤ length groups.now }
        requires few { count_of groups.now ≤ most_commands }
        // At Ok the groups are carried out, each counts one version, and there is one more unchecked page.
        ensures version { IfOk result (λ version. (version ≡ self.new.found.version) × (version ≡ self.old.found.version + length groups.now)) }
        ensures network { OnOk result (after self.old.found.network groups.now ≡ Some self.new.found.network) }
        ensures unchecked { OnOk result (self.new.found.unchecked ≡ self.old.found.unchecked + 1) }
        ensures next { OnOk result (self.new.found.next_sequence ≡ self.old.found.next_sequence + 1) }
        ensures works { OnOk result (self.new.broken ≡ false) }
        // A checkpoint that is going continues, and counts the page.
        ensures going { OnOk result (going_of self.new ≡ option_map with_page_committed (going_of self.old)) }
        ensures same_going { OnErr result (going_of self.new ≡ going_of self.old) }
        ensures header { self.new.found.header ≡ self.old.found.header }
        ensures slot { self.new.found.slot ≡ self.old.found.slot }
        ensures epoch { self.new.found.epoch ≡ self.old.found.epoch }
        // It refuses if there is a cause. If there is none, it may refuse only for lack of memory, or because the disk failed in this call.
        ensures refused { RefusesCommit (commit_refusal_by self.old groups.now) result }
        ensures same { IfErr result (λ refusal. refusal ≢ device → self.new ≡ self.old) }
        ensures tells { TellsFailures result self.old self.new }
        ensures kept { OnErr result (KeepsNumbers self.old self.new) }
        ensures adds_nothing { self.old.broken ≡ true → AddsNothing D.moment D.left_since self.old.disk self.new.disk }
        // A stop during the call leaves content that stands for the network before the groups, or after them.
        ensures any_moment { self.old.broken ≡ false → LeavesForOrAfter groups.now self.old self.new }
        // So does a stop after the call; and after Ok, what it leaves stands for the network after them.
        ensures in_flight { self.old.broken ≡ false → StaysForOrAfter groups.now self.old self.new }
        ensures durable { D.honest self.old.disk → AreTidyPages self.old → OnOk result ((c : List ℕ) → D.left self.new.disk c → IsFor self.new c) }
        ensures only { D.honest self.old.disk → OnOk result (Only (D.content self.new.disk) (D.left self.new.disk)) }
        ensures stands { KeepsStanding result self.old self.new }
    {
        if self.broken {
            return Err(Refusal::Broken);
        }
        let count = groups.len() as u64;
        if self.found.version + count > MOST_VERSIONS {
            return Err(Refusal::VersionsExhausted);
        }
        if self.found.unchecked >= self.found.header.journal_pages {
            return Err(Refusal::JournalFull);
        }
        none_is_empty(groups);
        let undo = self.found.network.carry_out(groups)?;
        let Ok(()) = append_page(
            &mut self.disk,
            &self.found.header,
            self.found.next_sequence,
            self.found.version + 1,
            groups,
        ) else {
            self.found.network.take_back(undo);
            self.broken = true;
            return Err(Refusal::Device);
        };
        self.found.version += count;
        self.found.next_sequence += 1;
        self.found.unchecked += 1;
        count_page(&mut self.going);
        Ok(self.found.version)
    }
}
