//! A network with a group of commands carried out, for whoever supposes it.

ghost use Rattle.std.specs.Prelude.{◌≡◌, ◌↔◌, true, All, IsTrue, IfOk, IfErr, IsOk, IsSome, OnOk};
ghost use Rattle.std.specs.Option.{ForSome};
ghost use Rattle.roadnet.specs.Batches.{MayRefuseBatch};
ghost use Rattle.roadnet.specs.Ends.{KeepsEnds};
ghost use Rattle.roadnet.specs.Net.{IsNode};
ghost use Rattle.roadnet.specs.Step.{is_node};
ghost use Rattle.rows.specs.Backs.{LeadsBack};
ghost use Rattle.rows.specs.declared.queries.Query.TheVariants.{Dist, From};
ghost use Rattle.rows.specs.Nearby.{are_pairs, node_of, IsNear, IsUntold};
ghost use Rattle.rows.specs.Replies.{query_refusal_of, IsRight};
ghost use Rattle.rows.specs.Views.{AreRight};
ghost use Rattle.routes.specs.RouteReplies.{IsRightRoute};
ghost use Rattle.suppositions.specs.Supposing.{Supposes};

use deltastep::{NodeDistance, Workspace};
use relax::{CHUNK, Crew};
use roadnet::{Group, OutOfMemory, Refusal};
use routes::{RouteReply, answer_route};
use rows::{Asker, Near, Reply, RowCache, WIDEST, numbered_back};
use shared_network::SharedNetwork;
use snapshot::Snapshot;
use std::alloc::Global;
use std::array::from_ref;
use std::marker::Model;
use std::sync::Arc;
use std::thread::Threads;

/// A supposed network: a network at some version, with a group of commands carried out. It shares with the original network the arcs that the group does not
/// change: later changes of that network do not change it, and questions to it change nothing elsewhere.
///
/// It takes 16,384 bytes for each 1,024 arcs of which the group changes one; 8 bytes an open arc and 4 a node for the groups of its arcs; as much again for
/// the reversed arcs, once it was asked what reaches a node; 8 an arc and 4 a node for all arcs reversed with their numbers, once it was asked for a route,
/// unless it was given those of the original network; 4 or 8 a node for one row, that of a source that was asked twice; and the memory of two searches. It
/// has no rows of landmarks.
#[derive(Drop)]
pub struct Supposed {
    version: u64,
    network: SharedNetwork,
    groups: Snapshot,
    /// The open arcs the other way round, grouped, once they are needed.
    turned: Option<Snapshot>,
    /// All arcs the other way round, with their numbers, once they are needed.
    back: Option<Arc<Snapshot>>,
    rows: RowCache,
    /// The memory of searches for routes.
    workspace: Workspace,
}

impl Model for Supposed {
    ghost use Rattle.std.specs.Option.{ForSome};
    ghost use Rattle.roadnet.specs.Reversal.{reversed};
    ghost use Rattle.snapshot.specs.Groups.{IsSnapshotOf};
    ghost use Rattle.rows.specs.Backs.{LeadsBack};
    ghost use Rattle.kept_rows.specs.Cached.{HasRowsOf};
    ghost use Rattle.suppositions.specs.Supposing.{Supposition};

    ghost Value = { Supposition };

    ghost view = { λ s. record { version = s.version; network = s.network } };

    ghost invariant = { λ s.
        IsSnapshotOf s.network s.groups
        × ForSome s.turned (λ back. IsSnapshotOf (reversed s.network) back)
        × HasRowsOf s.version s.network s.rows
        × ForSome s.back (λ back. LeadsBack s.network back.value) };
}

/// Whether all of these are nodes.
fn has_nodes(network: &SharedNetwork, nodes: &[u64]) -> bool
    ensures { IsTrue result ↔ All (IsNode network.now) nodes.now }
{
    for node in nodes {
        if !network.has_node(*node) {
            return false;
        }
    }
    true
}

/// A share of these arcs. The only error is that there is none.
fn shared(back: &Arc<Snapshot>) -> Result<Arc<Snapshot>, OutOfMemory>
    ensures { IfOk result (λ share. share.value ≡ back.now.value) }
{
    match Arc::try_clone(back) {
        Ok(share) => Ok(share),
        Err(_) => Err(OutOfMemory),
    }
}

/// The reversed arcs of the network before a change, if they are those of the network after it, because no arc was laid.
fn back_since(
    before: &SharedNetwork,
    after: &SharedNetwork,
    back: Option<Arc<Snapshot>>,
) -> Option<Arc<Snapshot>>
    requires back { ForSome back (λ back. LeadsBack before.now back.value) }
    requires ends { KeepsEnds before.now after.now }
    ensures { ForSome result (λ back. LeadsBack after.now back.value) }
{
    if before.arcs().len() == after.arcs().len() {
        back
    } else {
        None
    }
}

impl Supposed {
    /// Supposes that the group is carried out, all of it, on the network of this version. `delta` is the width of the buckets of searches. Below 1 it
    /// counts as 1, and above 2147483647 as that. `back` has the arcs of that network the other way round, with their numbers, if they are there. They serve
    /// routes if the group lays no arc.
    ///
    /// It fails with the refusal of the first command of the group that is not admitted after those before it; or, if all are admitted, for lack of memory
    /// (11). Then nothing is supposed. For a group that is not admitted it takes no memory.
    ///
    /// For the network of `examples/six.gr`, `Close { arc: 7 }` supposes one in which the least length from 1 to 6 is 22 instead of 15.
    pub fn new(
        alloc: Global,
        version: u64,
        network: &SharedNetwork,
        back: Option<Arc<Snapshot>>,
        delta: u32,
        group: &Group,
    ) -> Result<Supposed, Refusal>
        requires { ForSome back (λ back. LeadsBack network.now back.value) }
        ensures supposed { IfOk result (Supposes version network.now group.now) }
        ensures refused { IfErr result (MayRefuseBatch network.now group.now) }
    {
        let after = network.after(alloc, from_ref(group))?;
        let groups = Snapshot::build(alloc, &after, delta.max(1).min(WIDEST))?;
        let back = back_since(network, &after, back);
        Ok(Supposed {
            version,
            network: after,
            groups,
            turned: None,
            back,
            rows: RowCache::new(alloc, 1),
            workspace: Workspace::new(),
        })
    }

    /// The version of the network that it was copied from.
    pub fn version(&self) -> u64
        ensures { result ≡ self.now.version }
    {
        self.version
    }

    /// The network with the group carried out.
    pub fn network(&self) -> &SharedNetwork
        ensures { result.now ≡ self.now.network }
    {
        &self.network
    }

    /// Whether all of these are nodes of the supposed network. It takes no memory.
    pub fn has_nodes(&self, nodes: &[u64]) -> bool
        ensures { IsTrue result ↔ All (IsNode self.now.network) nodes.now }
    {
        has_nodes(&self.network, nodes)
    }

    /// The reply to `Dist` in the supposed network, as `rows::Asker::ask` gives it. The only error is lack of memory for a search; a refused query takes
    /// none.
    ///
    /// If arc 7 of `examples/six.gr` is supposed to be closed, from 1 to 6 it is `Length(22)`.
    pub fn dist<R: Threads>(
        &mut self,
        rt: &R,
        alloc: Global,
        source: u64,
        target: u64,
    ) -> Result<Reply, OutOfMemory>
        ensures right { IfOk result (IsRight self.old.network (Dist source target)) }
        ensures refused { IsSome (query_refusal_of self.old.network (Dist source target)) → IsOk result }
        ensures same { self.new ≡ self.old }
    {
        let asker = Asker::of(self.version, &self.network, &self.groups);
        asker.ask(rt, alloc, &mut self.rows, source, target)
    }

    /// The reply to `From` in the supposed network, by a search, since there is no row of the landmark. The only error is lack of memory for it; a refused
    /// query takes none.
    ///
    /// If node 3 of `examples/six.gr` is supposed to be a landmark, from 3 to 4 it is `Length(2)`, and from 1 to 4 `Refused(NotALandmark)`.
    pub fn from_landmark<R: Threads>(
        &mut self,
        rt: &R,
        alloc: Global,
        landmark: u64,
        target: u64,
    ) -> Result<Reply, OutOfMemory>
        ensures right { IfOk result (IsRight self.old.network (From landmark target)) }
        ensures refused { IsSome (query_refusal_of self.old.network (From landmark target)) → IsOk result }
        ensures same { self.new ≡ self.old }
    {
        let asker = Asker::of(self.version, &self.network, &self.groups);
        asker.ask_from(rt, alloc, &mut self.rows, landmark, target)
    }

    /// Makes the reversed arcs, if this question needs them and there is memory for them.
    fn turn(&mut self, alloc: Global, near: Near)
        ensures { self.new ≡ self.old }
    {
        if near.is_turned() && self.turned.is_none() && self.network.has_node(near.node()) {
            let asker = Asker::of(self.version, &self.network, &self.groups);
            self.turned = asker.turn(alloc).ok();
        }
    }

    /// The nodes near a node of the supposed network, as `rows::Asker::near` gives them. The reversed arcs are made once.
    ///
    /// It fails with 24 for a number that is not a node's, and with 11 for lack of memory.
    ///
    /// If arc 7 of `examples/six.gr` is supposed to be closed, and nodes 2 and 3 to be landmarks, from 1 within 10 there are 1, 3 and 5, with the lengths
    /// 0, 10 and 10. 2 and 4 lead to 4 within 2, with 2 and 0. The landmark nearest to 1 is 3, at 10.
    pub fn near<R: Threads>(
        &mut self,
        rt: &R,
        alloc: Global,
        near: Near,
    ) -> Result<Vec<NodeDistance>, Refusal>
        ensures near { IfOk result (λ told. IsNear self.old.network near told.items) }
        ensures node { OnOk result (is_node self.old.network (node_of near) ≡ true) }
        ensures causes { IfErr result (IsUntold (is_node self.old.network (node_of near))) }
        ensures same { self.new ≡ self.old }
    {
        self.turn(alloc, near);
        let asker = Asker::of(self.version, &self.network, &self.groups);
        match &self.turned {
            Some(back) => asker
                .with_turned(back)
                .ask_near(rt, alloc, &mut self.rows, near),
            None => asker.ask_near(rt, alloc, &mut self.rows, near),
        }
    }

    /// All arcs the other way round, with their numbers. They are made once. The only error is lack of memory.
    fn back(&mut self, alloc: Global) -> Result<Arc<Snapshot>, OutOfMemory>
        ensures back { IfOk result (λ back. LeadsBack self.old.network back.value) }
        ensures same { self.new ≡ self.old }
    {
        if let Some(back) = &self.back {
            return shared(back);
        }
        let Ok(back) = Arc::new(alloc, numbered_back(alloc, &self.network)?) else {
            return Err(OutOfMemory);
        };
        let share = shared(&back)?;
        self.back = Some(share);
        Ok(back)
    }

    /// The reply to a question for a route in the supposed network, as `routes::answer_route` gives it, by a search that ends at the target. The only error is
    /// lack of memory. What is refused takes none.
    ///
    /// If arc 7 of `examples/six.gr` is supposed to be closed, the route from 1 to 6 is 22 long, with the arcs 1, 3 and 6.
    pub fn route<R: Threads>(
        &mut self,
        rt: &R,
        alloc: Global,
        source: u64,
        target: u64,
    ) -> Result<RouteReply, OutOfMemory>
        ensures right { IfOk result (IsRightRoute self.old.network source target) }
        ensures refused { IsSome (query_refusal_of self.old.network (Dist source target)) → IsOk result }
        ensures same { self.new ≡ self.old }
    {
        if !self.network.has_node(source) || !self.network.has_node(target) {
            return Ok(RouteReply::Refused(Refusal::NoSuchNode));
        }
        let back = self.back(alloc)?;
        let crew = Crew::new(rt, CHUNK);
        let asker = Asker::of(self.version, &self.network, &self.groups);
        answer_route(
            alloc,
            &asker,
            &back,
            source,
            target,
            None,
            &crew,
            &mut self.workspace,
        )
    }

    /// The replies to `Dist` for pairs of a source and a target in the supposed network, in their order, as `rows::Asker::table` gives them.
    ///
    /// It fails with 24 for a number that is not a node's, and with 11 for lack of memory.
    ///
    /// If arc 7 of `examples/six.gr` is supposed to be closed, the pairs (1, 6), (1, 1), (6, 6) and (6, 1) give `Length(22)`, `Length(0)`, `Length(0)` and
    /// `NoWalk`.
    pub fn table<R: Threads>(
        &self,
        rt: &R,
        alloc: Global,
        pairs: &[(u64, u64)],
    ) -> Result<Vec<Reply>, Refusal>
        ensures right { IfOk result (λ replies. AreRight self.now.network pairs.now replies.items) }
        ensures nodes { OnOk result (are_pairs self.now.network pairs.now ≡ true) }
        ensures causes { IfErr result (IsUntold (are_pairs self.now.network pairs.now)) }
    {
        let asker = Asker::of(self.version, &self.network, &self.groups);
        asker.table(rt, alloc, pairs)
    }
}
