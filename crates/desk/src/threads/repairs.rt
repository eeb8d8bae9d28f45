// What the rows of a view are made from: those of an older view.
ghost use Rattle.std.specs.Prelude.{IfSome};
ghost use Rattle.std.specs.Option.{ForSome};
ghost use Rattle.snapshot.specs.Groups.{IsSnapshotOf};
ghost use Rattle.desk.specs.Repairs.{IsBefore, IsOlder, LeadBackTo};

use crate::threads::older::Older;
use rows::View;
use shared_network::SharedNetwork;
use snapshot::Snapshot;
use std::alloc::Global;

/// An older view, of a network with as many nodes as that of another snapshot has.
#[derive(Drop)]
pub(crate) struct Before<'a> {
    pub(crate) view: &'a View,
    /// The groups of the older view.
    pub(crate) snapshot: &'a Snapshot,
    /// All nodes that do not have the same legs in the other snapshot; others may be among them, or one twice.
    pub(crate) changed: Vec<u32>,
    /// For each leg of the other snapshot, one from its head to its tail.
    pub(crate) back: &'a Snapshot,
}

impl Before<'_> {
    /// The older view, with what this network's snapshot has changed of it, and the reversed legs of the snapshot. Nothing if the view or the reversed legs
    /// are not given, if the older network has other nodes, or if there is no memory for the list of changed nodes: then all rows are made anew.
    pub(crate) fn of<'a>(
        alloc: Global,
        old: Option<Older<'a>>,
        network: &SharedNetwork,
        snapshot: &Snapshot,
        back: Option<&'a Snapshot>,
    ) -> Option<Before<'a>>
        requires old { ForSome old (IsOlder network.now) }
        requires snapshot { IsSnapshotOf network.now snapshot.now }
        requires back { ForSome back (λ back. LeadBackTo snapshot.now back.now) }
        ensures { IfSome result (IsBefore snapshot.now) }
    {
        let (old, back) = (old?, back?);
        let before = old.view.snapshot();
        if before.nodes() != snapshot.nodes() {
            return None;
        }
        let changed = old.changed_tails(alloc, network, before, snapshot)?;
        Some(Before {
            view: old.view,
            snapshot: before,
            changed,
            back,
        })
    }
}
