// What the groups of a view are made from: those of an older view.
ghost use Rattle.std.specs.Prelude.{◌≡◌, IfOk, IfSome};
ghost use Rattle.std.specs.Option.{ForSome};
ghost use Rattle.rows.specs.Kept.{IsWidth};
ghost use Rattle.snapshot.specs.Groups.{IsSnapshotOf};
ghost use Rattle.deltastep.specs.Repair.{AreChanged};
ghost use Rattle.desk.specs.Repairs.{AreGroupedBy, IsOlder};

use deltastep::changed_nodes;
use roadnet::OutOfMemory;
use rows::View;
use shared_network::SharedNetwork;
use snapshot::{ArcIndex, Snapshot, default_delta, tails_of};
use std::alloc::Global;
use std::sync::Arc;

/// An older view, and the numbers of all arcs that are new since or not the same.
#[derive(Clone, Copy)]
pub(crate) struct Older<'a> {
    pub(crate) view: &'a View,
    pub(crate) changed: &'a [u32],
}

/// The groups of a network's open arcs, and the index of its arcs, if it was made or taken over.
#[derive(Drop)]
pub(crate) struct Grouped {
    pub(crate) snapshot: Snapshot,
    pub(crate) index: Option<Arc<ArcIndex>>,
}

/// The groups of a network by this width, or by its default if none is given. Those of an older view that has that width are taken over, but for the blocks of
/// the arcs that changed; otherwise all are made anew. The index is kept once there is an older view: before any change it is not worth its memory. The only
/// error is lack of memory.
pub(crate) fn groups_after(
    alloc: Global,
    delta: Option<u32>,
    old: Option<Older<'_>>,
    network: &SharedNetwork,
) -> Result<Grouped, OutOfMemory>
    requires delta { ForSome delta IsWidth }
    requires old { ForSome old (IsOlder network.now) }
    ensures { IfOk result (AreGroupedBy network.now delta) }
{
    let Some(old) = old else {
        let width = match delta {
            Some(width) => width,
            None => default_delta(network),
        };
        let snapshot = Snapshot::build(alloc, network, width)?;
        return Ok(Grouped {
            snapshot,
            index: None,
        });
    };
    let index = old.view.index_after(alloc, network)?;
    let before = old.view.snapshot();
    let mut snapshot = before.after(alloc, network, &index, old.changed)?;
    let width = match delta {
        Some(width) => width,
        None => snapshot.default_delta(),
    };
    if width != snapshot.delta() {
        snapshot = Snapshot::build_by(alloc, network, &index, width)?;
    }
    Ok(Grouped {
        snapshot,
        index: Some(index),
    })
}

impl Older<'_> {
    /// The nodes that may have other legs in the newer snapshot: the tails of the arcs that changed, if the widths are the same; otherwise they are looked for.
    /// Nothing if there is no memory.
    pub(crate) fn changed_tails(
        &self,
        alloc: Global,
        network: &SharedNetwork,
        before: &Snapshot,
        snapshot: &Snapshot,
    ) -> Option<Vec<u32>>
        requires older { IsOlder network.now self.now }
        requires before { IsSnapshotOf self.now.view.now.network before.now }
        requires snapshot { IsSnapshotOf network.now snapshot.now }
        requires nodes { before.now.nodes ≡ snapshot.now.nodes }
        ensures { IfSome result (λ nodes. AreChanged before.now snapshot.now nodes.items) }
    {
        if before.delta() == snapshot.delta() {
            return tails_of(alloc, network, self.changed).ok();
        }
        changed_nodes(alloc, before, snapshot).ok()
    }
}
