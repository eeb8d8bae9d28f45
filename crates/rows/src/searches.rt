//! Networks that are asked once, as those of texts are.

ghost use Rattle.std.specs.Prelude.{◌≡◌, ◌&&◌, ◌≤◌, [], IfOk, IsOk, IsSome, OnOk};
ghost use Rattle.std.specs.Option.{ForSome};
ghost use Rattle.roadnet.specs.Net.{IsNetwork};
ghost use Rattle.roadnet.specs.Reversal.{reversed};
ghost use Rattle.snapshot.specs.Groups.{IsSnapshotOf};
ghost use Rattle.rows.specs.Replies.{are_nodes, IsRight, query_refusal_of};
ghost use Rattle.rows.specs.declared.queries.Query.TheVariants.{Dist};
ghost use Rattle.rows.specs.Batches.{AreRightBy};
ghost use Rattle.rows.specs.Kept.{AreGroupsOf, IsWidth};

use crate::askers::Asker;
use crate::batches::replies_to;
use crate::ends::PairEnds;
use crate::queries::Reply;
use crate::turning::turned_groups;
use crate::views::width_of;
use deltastep::Workspace;
use kept_rows::RowCache;
use relax::{CHUNK, Crew};
use roadnet::{Network, OutOfMemory, Refusal};
use shared_network::SharedNetwork;
use snapshot::Snapshot;
use std::alloc::Global;
use std::thread::Threads;

/// The version of a network that is asked once.
const VERSION: u64 = 0;

/// Whether both are nodes of the network.
fn are_nodes(network: &Network, source: u64, target: u64) -> bool
    ensures { result ≡ are_nodes network.now source target }
{
    network.has_node(source) && network.has_node(target)
}

/// How networks are asked once: with buckets of this width, or with the network's default if none is given, and with up to so many rows at once. Each call
/// copies the network, with 16 bytes an arc, and groups its open arcs, with 8 bytes an open arc and 4 a node.
#[derive(Clone, Copy)]
pub struct Searches {
    delta: Option<u32>,
    rows: u32,
    ghost width: { ForSome delta IsWidth },
    ghost some: { 1 ≤ rows },
    ghost few: { rows ≤ 64 },
}

impl Searches {
    /// `delta`, 1 to 2147483647, is the width of the buckets. Up to `rows` rows, 1 to 64, exist at once, of 4 or 8 bytes a node.
    pub fn new(delta: Option<u32>, rows: u32) -> Searches
        requires delta { ForSome delta IsWidth }
        requires rows { (1 ≤ rows) × (rows ≤ 64) }
        ensures delta { result.delta ≡ delta }
        ensures rows { result.rows ≡ rows }
    {
        Searches { delta, rows }
    }

    /// The width that was given, if one was.
    pub fn delta(&self) -> Option<u32>
        ensures { result ≡ self.now.delta }
    {
        self.delta
    }

    /// The network's open arcs, grouped. The only error is lack of memory.
    pub fn group(&self, alloc: Global, network: &SharedNetwork) -> Result<Snapshot, OutOfMemory>
        ensures { IfOk result (AreGroupsOf network.now self.now.delta) }
    {
        Snapshot::build(alloc, network, width_of(network, self.delta))
    }

    /// The same for the arcs the other way round, as `turned_groups` gives them.
    pub fn turn(&self, alloc: Global, network: &SharedNetwork) -> Result<Snapshot, OutOfMemory>
        ensures network { OnOk result (IsNetwork network.now) }
        ensures arcs { IfOk result (IsSnapshotOf (reversed network.now)) }
    {
        turned_groups(alloc, network, width_of(network, self.delta))
    }

    /// The reply to `Dist`, by a search that ends at the target. The only error is lack of memory for groups or search; a refused query takes none.
    ///
    /// In the network of `examples/six.gr`, from 1 to 6 it is `Length(15)`.
    pub fn distance<R: Threads>(
        &self,
        rt: &R,
        alloc: Global,
        network: &Network,
        source: u64,
        target: u64,
    ) -> Result<Reply, OutOfMemory>
        ensures right { IfOk result (IsRight network.now (Dist source target)) }
        ensures refused { IsSome (query_refusal_of network.now (Dist source target)) → IsOk result }
    {
        if !are_nodes(network, source, target) {
            return Ok(Reply::Refused(Refusal::NoSuchNode));
        }
        let network = SharedNetwork::of(alloc, network)?;
        let groups = self.group(alloc, &network)?;
        let crew = Crew::new(rt, CHUNK);
        let asker = Asker::of(VERSION, &network, &groups);
        asker.distance(
            alloc,
            source as u32,
            target as u32,
            &crew,
            &mut Workspace::new(),
        )
    }

    /// The replies to `Dist` for pairs, in their order. Whatever the order, each source is searched once; or, if there are fewer targets, each target is,
    /// over the reversed arcs. Up to four searches are made side by side.
    ///
    /// The only error is lack of memory, for the groups, 20 bytes a pair, a flag a node and a row.
    ///
    /// In the network of `examples/six.gr`, the pairs (1, 6) and (6, 1) give `Length(15)` and `NoWalk`.
    pub fn batch<R: Threads, E: PairEnds>(
        &self,
        rt: &R,
        alloc: Global,
        network: &Network,
        ends: &E,
        pairs: &[E::Pair],
    ) -> Result<Vec<Reply>, OutOfMemory>
        ensures right { IfOk result (λ replies. AreRightBy network.now E.source E.target pairs.now replies.items) }
        ensures empty { pairs.now ≡ [] → IsOk result }
    {
        if pairs.is_empty() {
            return Ok(Vec::new(alloc));
        }
        let network = SharedNetwork::of(alloc, network)?;
        let groups = self.group(alloc, &network)?;
        let mut made = RowCache::new(alloc, self.rows);
        replies_to(
            rt, alloc, VERSION, &network, &groups, &mut made, ends, pairs,
        )
    }
}
