//! Whoever asks a network: for a length, a row, or what is near a node.

ghost use Rattle.std.specs.Prelude.{◌≡◌, ◌+◌, length, true, IfOk, IfErr, IfSome, OnOk, MatchOption};
ghost use Rattle.relax.specs.Values.{value_at};
ghost use Rattle.deltastep.specs.Reach.{AreNearest, IsReach, IsReachTo};
ghost use Rattle.roadnet.specs.Net.{IsNetwork, IsNode};
ghost use Rattle.roadnet.specs.Reversal.{reversed};
ghost use Rattle.roadnet.specs.Step.{is_node};
ghost use Rattle.roadnet.specs.Walks.{Least, NoWalk, RowOf};
ghost use Rattle.snapshot.specs.Groups.{IsSnapshotOf};
ghost use Rattle.rows.specs.Nearby.{node_of, IsNear, IsUntold};
ghost use Rattle.rows.specs.Replies.{IsDistance};

use crate::nearby::{Near, count_of};
use crate::queries::Reply;
use crate::turning::{WIDEST, turned_groups};
use crate::views::View;
use deltastep::{
    Distances, NodeDistance, RowError, Workspace, distance_to_in, nearest_in, nearest_of_row,
    reach_in, reach_of_row, reached_in, row_in,
};
use relax::{Team, Tentative};
use roadnet::{OutOfMemory, Refusal};
use shared_network::SharedNetwork;
use snapshot::Snapshot;
use std::alloc::Global;
use std::marker::Model;

/// A network that is asked: its grouped open arcs, and, for the rows of its landmarks, the view that it belongs to, if it belongs to one. Contracts see it
/// as a view. Its searches use what earlier ones left in a workspace, and leave their own memory there.
#[derive(Drop)]
pub struct Asker<'a> {
    version: u64,
    network: &'a SharedNetwork,
    groups: &'a Snapshot,
    view: Option<&'a View>,
    /// The open arcs the other way round, grouped, if they are given.
    turned: Option<&'a Snapshot>,
}

impl<'a> Model for Asker<'a> {
    ghost use Rattle.std.specs.Prelude.{◌≡◌};
    ghost use Rattle.std.specs.Option.{ForSome};
    ghost use Rattle.roadnet.specs.Reversal.{reversed};
    ghost use Rattle.snapshot.specs.Groups.{IsSnapshotOf};
    ghost use Rattle.rows.specs.Views.{Viewed};

    ghost Value = { Viewed };

    ghost view = { λ a. record { version = a.version; network = a.network.now; delta = a.groups.now.delta } };

    ghost invariant = { λ a.
        IsSnapshotOf a.network.now a.groups.now
        × ForSome a.view (λ view. view.now.network ≡ a.network.now)
        × ForSome a.turned (λ back. IsSnapshotOf (reversed a.network.now) back.now) };
}

impl<'a> Asker<'a> {
    /// An asker of a network that has only its groups, and no row of a landmark.
    pub fn of(version: u64, network: &'a SharedNetwork, groups: &'a Snapshot) -> Asker<'a>
        requires { IsSnapshotOf network.now groups.now }
        ensures { result ≡ record { version = version; network = network.now; delta = groups.now.delta } }
    {
        Asker {
            version,
            network,
            groups,
            view: None,
            turned: None,
        }
    }

    /// An asker of a view.
    pub(crate) fn of_view(view: &'a View) -> Asker<'a>
        ensures { result ≡ view.now }
    {
        Asker {
            version: view.version(),
            network: view.network(),
            groups: view.snapshot(),
            view: Some(view),
            turned: None,
        }
    }

    /// The same asker, with the open arcs of the network the other way round, as `turn` makes them.
    pub fn with_turned(self, turned: &'a Snapshot) -> Asker<'a>
        requires { IsSnapshotOf (reversed self.network) turned.now }
        ensures { result ≡ self.entry }
    {
        Asker {
            turned: Some(turned),
            ..self
        }
    }

    /// The version of the network.
    pub(crate) fn version(&self) -> u64
        ensures { result ≡ self.now.version }
    {
        self.version
    }

    /// The network.
    pub fn network(&self) -> &SharedNetwork
        ensures { result.now ≡ self.now.network }
    {
        self.network
    }

    /// The open arcs of the network, grouped.
    pub fn groups(&self) -> &Snapshot
        ensures { IsSnapshotOf self.now.network result.now }
    {
        self.groups
    }

    /// The view that is asked, if there is one.
    fn view(&self) -> Option<&View>
        ensures { IfSome result (λ view. view.now.network ≡ self.now.network) }
    {
        self.view
    }

    /// The row of a node, if there is one: the given one, or that of a landmark of the view.
    pub fn row_had<'b>(&'b self, node: u32, kept: Option<&'b Distances>) -> Option<&'b Distances>
        requires { IfSome kept (λ row. RowOf self.now.network node row.now) }
        ensures { IfSome result (λ row. RowOf self.now.network node row.now) }
    {
        if let Some(row) = kept {
            return Some(row);
        }
        let view = self.view()?;
        let own = view.find_row(node)?;
        Some(&own.distances)
    }

    /// A new row of a node, of 4 or 8 bytes a node. The only error is lack of memory.
    pub fn row<T: Team>(
        &self,
        alloc: Global,
        source: u32,
        team: &T,
        workspace: &mut Workspace,
    ) -> Result<Distances, OutOfMemory>
        requires { IsNode self.now.network source }
        ensures { IfOk result (RowOf self.now.network source) }
    {
        match row_in(alloc, self.groups(), source, team, workspace) {
            Ok(row) => Ok(row),
            Err(RowError::OutOfMemory) => Err(OutOfMemory),
        }
    }

    /// The least length of a walk between two nodes, or nothing if no walk leads from the one to the other.
    fn length<T: Team>(
        &self,
        alloc: Global,
        source: u32,
        target: u32,
        team: &T,
        workspace: &mut Workspace,
    ) -> Result<Option<u64>, RowError>
        requires source { IsNode self.now.network source }
        requires target { IsNode self.now.network target }
        ensures { IfOk result (λ length. MatchOption length (NoWalk self.now.network source target) (Least self.now.network source target)) }
    {
        match self.view() {
            Some(view) => view.distance_in(alloc, source, target, team, workspace),
            None => distance_to_in(alloc, self.groups(), source, target, team, workspace),
        }
    }

    /// The reply to `Dist` of two nodes, by a search that ends at the target. The rows of the view's landmarks lead it, if there are any. It keeps no row.
    /// The only error is lack of memory.
    ///
    /// In the network of `examples/six.gr`, from 1 to 6 it is `Length(15)`, and from 6 to 1 `NoWalk`.
    pub fn distance<T: Team>(
        &self,
        alloc: Global,
        source: u32,
        target: u32,
        team: &T,
        workspace: &mut Workspace,
    ) -> Result<Reply, OutOfMemory>
        requires source { IsNode self.now.network source }
        requires target { IsNode self.now.network target }
        ensures { IfOk result (IsDistance self.now.network source target) }
    {
        match self.length(alloc, source, target, team, workspace) {
            Ok(Some(length)) => Ok(Reply::Length(length)),
            Ok(None) => Ok(Reply::NoWalk),
            Err(RowError::OutOfMemory) => Err(OutOfMemory),
        }
    }

    /// The values of a search that the rows of the view's landmarks lead from `source` to `target`, as `deltastep::values_guided_in` gives them; nothing if
    /// there is no landmark. The only error is lack of memory.
    pub fn led_values(
        &self,
        alloc: Global,
        source: u32,
        target: u32,
        workspace: &mut Workspace,
    ) -> Result<Option<Tentative>, OutOfMemory>
        requires source { IsNode self.now.network source }
        requires target { IsNode self.now.network target }
        ensures places { IfOk result (λ led. IfSome led (λ values. length values ≡ self.now.network.nodes + 1)) }
        ensures distance { IfOk result (λ led. IfSome led (λ values. MatchOption (value_at values target) (NoWalk self.now.network source target) (Least self.now.network source target))) }
    {
        let Some(view) = self.view() else {
            return Ok(None);
        };
        match view.led_values(alloc, source, target, workspace) {
            Ok(led) => Ok(led),
            Err(RowError::OutOfMemory) => Err(OutOfMemory),
        }
    }

    /// The nodes that the source reaches within the limit: from its row, if there is one, otherwise by a search that ends beyond the limit.
    fn reach<T: Team>(
        &self,
        alloc: Global,
        source: u32,
        limit: u64,
        kept: Option<&Distances>,
        team: &T,
        workspace: &mut Workspace,
    ) -> Result<Vec<NodeDistance>, RowError>
        requires source { IsNode self.now.network source }
        requires kept { IfSome kept (λ row. RowOf self.now.network source row.now) }
        ensures reach { IfOk result (λ told. IsReach self.now.network source limit told.items) }
    {
        if let Some(row) = self.row_had(source, kept) {
            return reach_of_row(alloc, row, self.network().nodes(), limit);
        }
        reach_in(alloc, self.groups(), source, limit, team, workspace)
    }

    /// The open arcs of the network the other way round, grouped by the same width. `near` searches over them the nodes from which a node is reached. The
    /// only error is lack of memory, for 8 bytes an open arc and 4 a node, and temporarily 20 an arc.
    pub fn turn(&self, alloc: Global) -> Result<Snapshot, OutOfMemory>
        ensures { IfOk result (IsSnapshotOf (reversed self.now.network)) }
    {
        let delta = self.groups().delta().min(WIDEST);
        turned_groups(alloc, self.network(), delta)
    }

    /// These arcs, if they are given.
    fn turned(&self) -> Option<&Snapshot>
        ensures network { IsNetwork self.now.network }
        ensures arcs { IfSome result (λ back. IsSnapshotOf (reversed self.now.network) back.now) }
    {
        let _nodes = self.network.nodes();
        self.turned
    }

    /// The nodes from which the target is reached within the limit, by a search over the reversed arcs: the given ones, otherwise new ones.
    fn reached<T: Team>(
        &self,
        alloc: Global,
        target: u32,
        limit: u64,
        team: &T,
        workspace: &mut Workspace,
    ) -> Result<Vec<NodeDistance>, RowError>
        requires target { IsNode self.now.network target }
        ensures reached { IfOk result (λ told. IsReachTo self.now.network target limit told.items) }
    {
        if let Some(back) = self.turned() {
            return reached_in(alloc, back, target, limit, team, workspace);
        }
        let back = self.turn(alloc)?;
        reached_in(alloc, &back, target, limit, team, workspace)
    }

    /// The landmarks nearest to the source: from its row, if there is one, otherwise by a search that ends as soon as so many are final.
    fn nearest<T: Team>(
        &self,
        alloc: Global,
        source: u32,
        count: u32,
        kept: Option<&Distances>,
        team: &T,
        workspace: &mut Workspace,
    ) -> Result<Vec<NodeDistance>, RowError>
        requires source { IsNode self.now.network source }
        requires kept { IfSome kept (λ row. RowOf self.now.network source row.now) }
        ensures nearest { IfOk result (λ told. AreNearest self.now.network source self.now.network.landmarks count told.items) }
    {
        let landmarks = self.network().landmarks();
        if let Some(row) = self.row_had(source, kept) {
            return nearest_of_row(alloc, row, landmarks, count);
        }
        nearest_in(
            alloc,
            self.groups(),
            source,
            landmarks,
            count,
            team,
            workspace,
        )
    }

    /// The answer to a question about the nodes near this one of the network's nodes.
    fn found<T: Team>(
        &self,
        alloc: Global,
        near: Near,
        node: u32,
        kept: Option<&Distances>,
        team: &T,
        workspace: &mut Workspace,
    ) -> Result<Vec<NodeDistance>, RowError>
        requires node { IsNode self.now.network node }
        requires asked { node ≡ node_of near }
        requires kept { IfSome kept (λ row. RowOf self.now.network node row.now) }
        ensures { IfOk result (λ told. IsNear self.now.network near told.items) }
    {
        match near {
            Near::Reach { source: _, limit } => {
                self.reach(alloc, node, limit, kept, team, workspace)
            }
            Near::Reached { target: _, limit } => {
                self.reached(alloc, node, limit, team, workspace)
            }
            Near::Nearest { source: _, count } => {
                self.nearest(alloc, node, count_of(count), kept, team, workspace)
            }
        }
    }

    /// The nodes near a node, each with its least length: those that walks from a source reach within a limit, or from which walks reach a target within
    /// it, ascending by node; or the landmarks nearest to a source, ascending by length, and the lower number first if two are equally near, fewer if walks
    /// lead to fewer. If a row of the node is given, or the source is a landmark of the view, they come from that row. Otherwise they come from a search
    /// that ends beyond the limit, or as soon as so many landmarks are final. The nodes from which a target is reached are searched over the reversed arcs:
    /// those that `turn` made, if they are given, otherwise new ones.
    ///
    /// It fails with 24 for a number that is not a node's, and with 11 for lack of memory.
    ///
    /// In the network of `examples/six.gr` with the landmarks 3 and 6, from 1 within 10 there are 1, 2, 3 and 5, with the lengths 0, 10, 10 and 10. 2, 3, 4
    /// and 5 lead to 4 within 2, with 2, 2, 0 and 2. The landmark nearest to 1 is 3, at 10.
    pub fn near<T: Team>(
        &self,
        alloc: Global,
        near: Near,
        kept: Option<&Distances>,
        team: &T,
        workspace: &mut Workspace,
    ) -> Result<Vec<NodeDistance>, Refusal>
        requires { IfSome kept (λ row. RowOf self.now.network (node_of near) row.now) }
        ensures near { IfOk result (λ told. IsNear self.now.network near told.items) }
        ensures node { OnOk result (is_node self.now.network (node_of near) ≡ true) }
        ensures causes { IfErr result (IsUntold (is_node self.now.network (node_of near))) }
    {
        if !self.network().has_node(near.node()) {
            return Err(Refusal::NoSuchNode);
        }
        match self.found(alloc, near, near.node() as u32, kept, team, workspace) {
            Ok(told) => Ok(told),
            Err(RowError::OutOfMemory) => Err(Refusal::OutOfMemory),
        }
    }
}
