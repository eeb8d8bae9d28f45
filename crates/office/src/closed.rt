// An office that is closed.
ghost use Rattle.std.specs.Prelude.{◌≡◌, ◌<◌, ◌≤◌, List, take, length, MatchBool};
ghost use Rattle.std.proofs.Props.{props};
ghost use Rattle.disk.specs.Contents.{AreAmong};
ghost use mathlib.Core.List.{IsPrefix};
ghost use Rattle.roadnet.specs.declared.groups.Group.{Group as Accepted};
ghost use Rattle.machine.specs.Machine.{groups_to};
ghost use Rattle.machine.specs.Laws.{IsAt};
ghost use Rattle.office.specs.Left.{KeepsDesk, KeepsSeen};

use crate::naming::Naming;
use crate::offices::Office;
use disk::Disk;
use history::{Front, Settled, Whole};
use published::Shown;
use roadnet::Group;
use std::sync::Wait;

/// What a desk leaves: the groups that it accepted, in order, what was shown last, and the disk, whose journal has so many pages. What was shown last is a
/// front of the history.
#[derive(Drop)]
pub struct Closed<D: Disk> {
    pub history: Vec<Group>,
    pub shown: Shown,
    pub disk: D,
    /// How many pages the journal on the disk has.
    pub journal_pages: u32,
    /// The history with which tokens are compared.
    pub whole: Whole,
    ghost listed: { whole.groups ≡ history.items },
    ghost desk: { shown.origin ≡ whole.origin } by { Prim.hlevel props },
    ghost begins: { shown.groups ≡ take (length shown.groups) history.items },
}

impl<N: Naming, D: Disk> Office<N, D> {
    /// Closes the office: no more groups are accepted, and readers can no longer look. No call of the disk is made. It waits for those readers that are
    /// taking a share of the view.
    pub fn close<R: Wait>(self, rt: &R) -> Closed<D>
    where
        D: Drop,
        ensures history { result.history.items ≡ self.machine.accepted }
        ensures origin { result.whole.origin ≡ N.origin }
        ensures shown { result.shown.groups ≡ groups_to self.machine self.machine.shown }
        ensures acknowledged { result.whole.acknowledged ≤ self.machine.durable }
        ensures disk { result.disk ≡ self.disk }
        ensures pages { result.journal_pages ≡ self.machine.sizes.journal_pages }
        // The disk keeps the disk model.
        ensures honest { N.came_tidy → D.honest result.disk }
        // What a stop may leave on the disk stands for the network after a front of the history that has everything acknowledged or shown.
        ensures left { N.came_tidy → AreAmong (D.left result.disk) (KeepsDesk result.whole result.shown result.journal_pages) }
    {
        let _ = self.keeper.opened();
        let journal_pages = self.keeper.journal_pages();
        let Office {
            keeper,
            history,
            publisher,
            of: _,
        } = self;
        let shown = publisher.tell();
        publisher.close(rt);
        let whole = history.close();
        let (history, disk) = keeper.close();
        Closed {
            history,
            shown,
            disk,
            journal_pages,
            whole,
        }
    }
}

impl<D: Disk> Closed<D> {
    /// The group at the receipt's number, if the receipt is of this desk. The receipt lends it. It takes no memory.
    pub fn confirm<'a>(&self, receipt: &'a Settled) -> &'a Group
        requires { receipt.now.origin ≡ self.now.whole.origin }
        ensures group { result.now ≡ receipt.now.ticket.group }
        ensures there { IsAt self.now.whole.origin.version self.now.history.items receipt.now.ticket }
        ensures acknowledged { receipt.now.ticket.number ≤ self.now.whole.acknowledged }
        // It is at its number in each front of the history that has everything acknowledged and shown.
        ensures kept { (kept : List Accepted) → KeepsSeen self.now.whole self.now.shown kept → IsAt self.now.whole.origin.version kept receipt.now.ticket }
    {
        self.whole.confirm(receipt)
    }

    /// Whether what was shown last begins with these groups, a front of this desk's history. Otherwise it is shorter. It takes no memory.
    pub fn has_shown(&self, known: &Front) -> bool
        requires { known.now.origin ≡ self.now.whole.origin }
        ensures { MatchBool result (IsPrefix known.now.groups self.now.shown.groups) (length self.now.shown.groups < length known.now.groups) }
    {
        known.begins(self.shown.groups())
    }
}
