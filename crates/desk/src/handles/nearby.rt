//! What is near a node of a view, and the lengths of many pairs, all of one version.
ghost use Rattle.std.specs.Prelude.{◌≡◌, true, IfOk, IfErr, IfSome, OnOk};
ghost use Rattle.roadnet.specs.Reversal.{reversed};
ghost use Rattle.roadnet.specs.Step.{is_node};
ghost use Rattle.roadnet.specs.Walks.{RowOf};
ghost use Rattle.snapshot.specs.Groups.{IsSnapshotOf};
ghost use Rattle.rows.specs.Views.{AreRight};
ghost use Rattle.rows.specs.Nearby.{node_of, are_pairs, IsNear, IsUntold};

use crate::handles::handle::Handle;
use crate::readers::places::Glance;
use crate::served::Served;
use deltastep::{Distances, NodeDistance, Workspace};
use office::Naming;
use relax::{CHUNK, Crew};
use roadnet::Refusal;
use rows::{Asker, Near, Reply};
use snapshot::Snapshot;
use std::alloc::Global;
use std::sync::Arc;

/// The reversed arcs of a network, to be shared; nothing if there is no memory for them.
fn turned_by(alloc: Global, asker: &Asker) -> Option<Arc<Snapshot>>
    ensures { IfSome result (λ back. IsSnapshotOf (reversed asker.now.network) back.value) }
{
    let back = asker.turn(alloc).ok()?;
    Arc::new(alloc, back).ok()
}

/// An asker of a view, with its reversed arcs, if they are given.
fn asker_with<'a, N: Naming>(glance: &'a Glance<N>, turned: &'a Option<Arc<Snapshot>>) -> Asker<'a>
    requires { IfSome turned.now (λ back. IsSnapshotOf (reversed glance.now.view.network) back.value) }
    ensures { result ≡ glance.now.view }
{
    match turned {
        Some(back) => glance.asker().with_turned(back),
        None => glance.asker(),
    }
}

impl<S: Served> Handle<S> {
    /// A share of the row of the node that the question is about, if it is kept for all callers.
    fn shared(&self, glance: &Glance<S::Naming>, near: Near) -> Option<Distances>
        ensures { IfSome result (RowOf glance.now.view.network (node_of near)) }
    {
        let Ok(node) = u32::try_from(near.node()) else {
            return None;
        };
        let mut rows = self.shared.rows.lock(&self.rt);
        rows.row(glance, node)
    }

    /// A share of the reversed arcs of a view, if they are kept for all callers.
    fn kept_turned(&self, glance: &Glance<S::Naming>) -> Option<Arc<Snapshot>>
        ensures { IfSome result (λ back. IsSnapshotOf (reversed glance.now.view.network) back.value) }
    {
        let mut rows = self.shared.rows.lock(&self.rt);
        rows.turned(glance)
    }

    /// The reversed arcs of a view, if the question needs them: those that are kept for all callers, otherwise new ones, which are then kept. While they
    /// are made no lock is held. Nothing if there is no memory for them.
    fn turned(&self, glance: &Glance<S::Naming>, near: Near) -> Option<Arc<Snapshot>>
        ensures { IfSome result (λ back. IsSnapshotOf (reversed glance.now.view.network) back.value) }
    {
        if !near.is_turned() || !glance.network().has_node(near.node()) {
            return None;
        }
        if let Some(back) = self.kept_turned(glance) {
            return Some(back);
        }
        let back = turned_by(self.alloc, &glance.asker())?;
        let shared = Arc::try_clone(&back).ok()?;
        let mut rows = self.shared.rows.lock(&self.rt);
        rows.keep_turned(glance, shared);
        Some(back)
    }

    /// The memory of a search.
    fn workspace(&self) -> Workspace {
        let mut rows = self.shared.rows.lock(&self.rt);
        rows.workspace()
    }

    /// Keeps what a search left.
    fn leave(&self, workspace: Workspace) {
        let mut rows = self.shared.rows.lock(&self.rt);
        rows.leave(workspace);
    }

    /// The nodes near a node in a view of this desk, as `rows::Asker::near` gives them: from a row of the source, or over the reversed arcs, if these are
    /// kept for all callers. While they are collected no lock is held.
    ///
    /// It fails with 24 for a number that is not a node's, and with 11 for lack of memory.
    pub fn near(&self, glance: &Glance<S::Naming>, near: Near) -> Result<Vec<NodeDistance>, Refusal>
        ensures near { IfOk result (λ told. IsNear glance.now.view.network near told.items) }
        ensures node { OnOk result (is_node glance.now.view.network (node_of near) ≡ true) }
        ensures causes { IfErr result (IsUntold (is_node glance.now.view.network (node_of near))) }
    {
        let row = self.shared(glance, near);
        let turned = self.turned(glance, near);
        let mut workspace = self.workspace();
        let crew = Crew::new(&self.rt, CHUNK);
        let asker = asker_with(glance, &turned);
        let told = asker.near(self.alloc, near, row.as_ref(), &crew, &mut workspace);
        self.leave(workspace);
        told
    }

    /// The replies to `Dist` for pairs of a source and a target, in their order, all in one view of this desk, as `rows::Asker::table` gives them. It uses
    /// no row that is kept for all callers, and keeps none.
    ///
    /// It fails with 24 for a number that is not a node's, and with 11 for lack of memory.
    pub fn table(
        &self,
        glance: &Glance<S::Naming>,
        pairs: &[(u64, u64)],
    ) -> Result<Vec<Reply>, Refusal>
        ensures right { IfOk result (λ replies. AreRight glance.now.view.network pairs.now replies.items) }
        ensures nodes { OnOk result (are_pairs glance.now.view.network pairs.now ≡ true) }
        ensures causes { IfErr result (IsUntold (are_pairs glance.now.view.network pairs.now)) }
    {
        glance.asker().table(&self.rt, self.alloc, pairs)
    }
}
