ghost use Rattle.std.specs.Prelude.{◌≡◌, ◌<◌, true, length, slice_index, unwrap_or, IfOk, IfSome};
ghost use Rattle.std.specs.List.Sorted.{IsStrictlyIncreasing};
ghost use Rattle.std.specs.Option.{ForSome};
ghost use Rattle.snapshot.specs.Blocks.{AreArcsByBlock};
ghost use Rattle.snapshot.specs.Groups.{IsSnapshotOf, default_width};
ghost use Rattle.roadnet.specs.Members.{is_member};
ghost use Rattle.roadnet.specs.Step.{is_landmark};
ghost use Rattle.roadnet.specs.Walks.{RowOf};
ghost use Rattle.rows.specs.Backs.{LeadsBack};
ghost use Rattle.rows.specs.Kept.{IsWidth};
ghost use Rattle.rows.specs.Views.{AreLandmarkRows};
ghost use Rattle.kept_rows.specs.Cached.{HasRowsOf};
ghost use Rattle.rows.specs.Pins.{viewed, cached, HasOwnRows};

use crate::askers::Asker;
use crate::landmark_rows::Row;
use crate::pinned::Pinned;
use kept_rows::RowCache;
use relax::Team;
use roadnet::OutOfMemory;
use shared_network::SharedNetwork;
use snapshot::{ArcIndex, Snapshot, default_delta};
use std::alloc::Global;
use std::marker::Model;
use std::sync::Arc;

/// A network at a version, prepared for queries: its open arcs are grouped, and there is a row for each of its landmarks.
///
/// Beside the network it takes 8 bytes an open arc, 4 a node for the groups, and 4 or 8 a node for each landmark. If it was given the arcs the other way
/// round with their numbers, which views share, these take 8 bytes an arc and 4 a node. If it was given the index of its arcs, which views share too, this
/// takes 4 bytes an arc.
#[derive(Drop)]
pub struct View {
    version: u64,
    network: SharedNetwork,
    snapshot: Snapshot,
    rows: Vec<Row>,
    /// All arcs the other way round, with their numbers.
    back: Option<Arc<Snapshot>>,
    /// Which arcs leave which tails.
    index: Option<Arc<ArcIndex>>,
}

impl Model for View {
    ghost use Rattle.std.specs.Prelude.{◌≡◌};
    ghost use Rattle.snapshot.specs.Blocks.{AreArcsByBlock};
    ghost use Rattle.snapshot.specs.Groups.{IsSnapshotOf};
    ghost use Rattle.std.specs.Option.{ForSome};
    ghost use Rattle.rows.specs.Backs.{LeadsBack};
    ghost use Rattle.rows.specs.Views.{Viewed, AreLandmarkRows};

    ghost Value = { Viewed };

    ghost view = { λ v. record { version = v.version; network = v.network; delta = v.snapshot.delta } };

    ghost invariant = { λ v. IsSnapshotOf v.network v.snapshot × AreLandmarkRows v.version v.network v.rows.items × ForSome v.back (λ back. LeadsBack v.network back.value) × ForSome v.index (λ index. AreArcsByBlock v.network.nodes v.network.arcs index.value) };
}

/// The given width, otherwise the network's default.
pub(crate) fn width_of(network: &SharedNetwork, delta: Option<u32>) -> u32
    requires { ForSome delta IsWidth }
    ensures width { result ≡ unwrap_or delta (default_width network.now) }
    ensures fits { IsWidth result }
{
    match delta {
        Some(width) => width,
        None => default_delta(network),
    }
}

/// The rows of a network's landmarks, in their order. The only error is lack of memory; then no row is kept.
fn rows_of<T: Team>(
    alloc: Global,
    version: u64,
    network: &SharedNetwork,
    snapshot: &Snapshot,
    team: &T,
) -> Result<Vec<Row>, OutOfMemory>
    requires { IsSnapshotOf network.now snapshot.now }
    ensures { IfOk result (λ rows. AreLandmarkRows version network.now rows.items) }
{
    let landmarks = network.landmarks();
    let mut rows = Vec::with_capacity(alloc, landmarks.len())?;
    for landmark in landmarks {
        let row = Row::build(alloc, version, snapshot, *landmark, team)?;
        if rows.push(row).is_err() {
            return Err(OutOfMemory);
        }
    }
    Ok(rows)
}

/// The place of a number in an ascending list that has it, by a binary search.
fn place_of(landmarks: &[u32], landmark: u32) -> usize
    requires ascending { IsStrictlyIncreasing landmarks.now }
    requires member { is_member landmark landmarks.now ≡ true }
    ensures within { result < length landmarks.now }
    ensures at { slice_index landmarks.now result ≡ landmark }
{
    let Ok(place) = landmarks.binary_search(&landmark) else {
        unreachable!();
    };
    place
}

impl View {
    /// A view of a network at this version: its arcs are grouped, and the given team makes the row of each landmark. `delta`, 1 to 2147483647, is the width
    /// of the buckets. If none is given, it is the network's default.
    ///
    /// The only error is lack of memory; then the network is dropped, with what was made of it.
    ///
    /// For the network of `examples/six.gr` with the landmarks 3 and 6, it has two rows. That of 3 has 2 for node 4 and nothing for node 1. That of 6 has 0
    /// for node 6, and nothing else.
    pub fn build<T: Team>(
        alloc: Global,
        version: u64,
        network: SharedNetwork,
        delta: Option<u32>,
        team: &T,
    ) -> Result<View, OutOfMemory>
        requires { ForSome delta IsWidth }
        ensures version { IfOk result (λ view. view.version ≡ version) }
        ensures network { IfOk result (λ view. view.network ≡ network) }
        ensures delta { IfOk result (λ view. view.delta ≡ unwrap_or delta (default_width network)) }
    {
        let snapshot = Snapshot::build(alloc, &network, width_of(&network, delta))?;
        let rows = rows_of(alloc, version, &network, &snapshot, team)?;
        Ok(View::assemble(version, network, snapshot, rows))
    }

    /// A view made of its parts: the network's groups, and the rows of its landmarks at this version, in their order. It takes no memory.
    pub fn assemble(
        version: u64,
        network: SharedNetwork,
        snapshot: Snapshot,
        rows: Vec<Row>,
    ) -> View
        requires snapshot { IsSnapshotOf network snapshot }
        requires rows { AreLandmarkRows version network rows.items }
        ensures { result ≡ record { version = version; network = network; delta = snapshot.delta } }
    {
        View {
            version,
            network,
            snapshot,
            rows,
            back: None,
            index: None,
        }
    }

    /// The same view, with the arcs of its network the other way round, as `numbered_back` makes them.
    pub fn with_back(self, back: Arc<Snapshot>) -> View
        requires { LeadsBack self.network back.value }
        ensures { result ≡ self }
    {
        View {
            back: Some(back),
            ..self
        }
    }

    /// A share of the arcs of its network the other way round, if it has them and a share can be made.
    pub fn back(&self) -> Option<Arc<Snapshot>>
        ensures { ForSome result (λ back. LeadsBack self.now.network back.value) }
    {
        let back = self.back.as_ref()?;
        Arc::try_clone(back).ok()
    }

    /// The same view, with the index of its network's arcs.
    pub fn with_index(self, index: Arc<ArcIndex>) -> View
        requires { AreArcsByBlock self.network.nodes self.network.arcs index.value }
        ensures { result ≡ self }
    {
        View {
            index: Some(index),
            ..self
        }
    }

    /// A share of the index of its network's arcs, if it has one and a share can be made.
    pub(crate) fn index(&self) -> Option<Arc<ArcIndex>>
        ensures { ForSome result (λ index. AreArcsByBlock self.now.network.nodes self.now.network.arcs index.value) }
    {
        let index = self.index.as_ref()?;
        Arc::try_clone(index).ok()
    }

    /// The version of the network.
    pub fn version(&self) -> u64
        ensures { result ≡ self.now.version }
    {
        self.version
    }

    /// The network.
    pub fn network(&self) -> &SharedNetwork
        ensures { result.now ≡ self.now.network }
    {
        &self.network
    }

    /// The width of the buckets of its searches. It takes no memory.
    pub fn width(&self) -> u32
        ensures { result ≡ self.now.delta }
    {
        self.snapshot.delta()
    }

    /// The open arcs of the network, grouped.
    pub fn snapshot(&self) -> &Snapshot
        ensures arcs { IsSnapshotOf self.now.network result.now }
        ensures delta { result.now.delta ≡ self.now.delta }
    {
        &self.snapshot
    }

    /// The rows of the landmarks, ascending.
    pub fn rows(&self) -> &[Row]
        ensures { AreLandmarkRows self.now.version self.now.network result.now }
    {
        &self.rows
    }

    /// The row of a landmark, by a binary search. It takes no memory.
    pub(crate) fn row_of(&self, landmark: u32) -> &Row
        requires { is_landmark self.now.network landmark ≡ true }
        ensures { RowOf self.now.network landmark result.now.distances }
    {
        let place = place_of(self.network.landmarks(), landmark);
        &self.rows[place]
    }

    /// The row of a node, if it is a landmark, by a binary search. It takes no memory.
    pub fn find_row(&self, node: u32) -> Option<&Row>
        ensures { IfSome result (λ row. RowOf self.now.network node row.now.distances) }
    {
        if !self.network.is_landmark(u64::from(node)) {
            return None;
        }
        Some(self.row_of(node))
    }

    /// An asker of this view. It takes no memory.
    pub fn asker(&self) -> Asker<'_>
        ensures { result ≡ self.now }
    {
        Asker::of_view(self)
    }

    /// A value that answers queries of this view. The cache must keep, for the view's version, only rows of its network; it keeps the rows that queries
    /// make. It takes no memory.
    pub fn pinned<'a>(&'a self, cache: &'a mut RowCache) -> Pinned<'a>
        requires { HasRowsOf self.now.version self.now.network cache.old }
        ensures view { viewed result ≡ self.now }
        ensures cache { cached result ≡ cache.old }
        ensures own { HasOwnRows result }
        ensures same { result.cache.ghost_name ≡ cache.entry.ghost_name }
    {
        Pinned::new(self, cache)
    }
}
