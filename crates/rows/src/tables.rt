//! The lengths of many pairs of nodes, or why they are refused.

ghost use Rattle.std.specs.Prelude.{◌≡◌, true, IfOk, IfErr, OnOk};
ghost use Rattle.rows.specs.Nearby.{are_pairs, IsUntold};
ghost use Rattle.rows.specs.Replies.{are_nodes};
ghost use Rattle.rows.specs.Views.{AreRight};

use crate::askers::Asker;
use crate::batches::replies_to;
use crate::ends::NumberPair;
use crate::queries::Reply;
use kept_rows::{DEFAULT_ROWS, RowCache};
use roadnet::{OutOfMemory, Refusal};
use shared_network::SharedNetwork;
use std::alloc::Global;
use std::thread::Threads;

/// Whether both are nodes of the network.
fn are_nodes(network: &SharedNetwork, source: u64, target: u64) -> bool
    ensures { result ≡ are_nodes network.now source target }
{
    network.has_node(source) && network.has_node(target)
}

/// Whether both ends of each pair are nodes of the network.
fn are_pairs(network: &SharedNetwork, pairs: &[(u64, u64)]) -> bool
    ensures { result ≡ are_pairs network.now pairs.now }
{
    pairs.iter().all(|pair| are_nodes(network, pair.0, pair.1))
}

impl Asker<'_> {
    /// The replies to `Dist` for pairs of a source and a target, in their order. Whatever the order, each source is searched once; or, if there are fewer
    /// targets, each target is, over the reversed arcs. Up to four are searched side by side.
    ///
    /// It fails with 24 for a number that is not a node's, and with 11 for lack of memory, for 36 bytes a pair, a flag a node and a row.
    ///
    /// In the network of `examples/six.gr`, the pairs (1, 6) and (6, 1) give `Length(15)` and `NoWalk`.
    pub fn table<R: Threads>(
        &self,
        rt: &R,
        alloc: Global,
        pairs: &[(u64, u64)],
    ) -> Result<Vec<Reply>, Refusal>
        ensures right { IfOk result (λ replies. AreRight self.now.network pairs.now replies.items) }
        ensures nodes { OnOk result (are_pairs self.now.network pairs.now ≡ true) }
        ensures causes { IfErr result (IsUntold (are_pairs self.now.network pairs.now)) }
    {
        let network = self.network();
        if !are_pairs(network, pairs) {
            return Err(Refusal::NoSuchNode);
        }
        let mut made = RowCache::new(alloc, DEFAULT_ROWS);
        let (version, groups) = (self.version(), self.groups());
        match replies_to(
            rt,
            alloc,
            version,
            network,
            groups,
            &mut made,
            &NumberPair,
            pairs,
        ) {
            Ok(replies) => Ok(replies),
            Err(OutOfMemory) => Err(Refusal::OutOfMemory),
        }
    }
}
