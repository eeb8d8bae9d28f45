ghost use Rattle.std.specs.Prelude.{◌≡◌, ◌&&◌, ◌<◌, ◌↔◌, false, IsTrue, IfOk, length};
ghost use Rattle.roadnet.specs.Net.{IsNode, IsNetwork, arc_at};
ghost use Rattle.roadnet.specs.Step.{is_landmark};

use crate::marking::copied;
use chunked::ChunkedArray;
use roadnet::{Network, OutOfMemory, RoadArc, is_member};
use std::alloc::Global;
use std::marker::Model;
use std::sync::Arc;

/// A road network that shares its arcs and its landmarks with those that it was made of.
///
/// It takes 16 bytes an arc and 4 a landmark. Of these a network that `after` made has its own only where something is changed: 16,384 bytes for each 1,024
/// arcs of which one is changed, and its landmarks if one is marked or unmarked.
#[derive(Drop)]
pub struct SharedNetwork {
    pub(crate) nodes: u32,
    pub(crate) arcs: ChunkedArray<RoadArc>,
    pub(crate) landmarks: Arc<Vec<u32>>,
    pub(crate) room: u32,
}

impl Model for SharedNetwork {
    ghost use Rattle.roadnet.specs.Net.{Net, IsNetwork};

    ghost Value = { Net };

    ghost view = { λ a. record { nodes = a.nodes; arcs = a.arcs; landmarks = a.landmarks.value.items; room = a.room } };

    ghost invariant = { λ a. IsNetwork (record { nodes = a.nodes; arcs = a.arcs; landmarks = a.landmarks.value.items; room = a.room }) };
}

impl SharedNetwork {
    /// The same network, which has its arcs and landmarks for itself: a copy. The only error is lack of memory.
    pub fn of(alloc: Global, network: &Network) -> Result<SharedNetwork, OutOfMemory>
        ensures { IfOk result (λ shared. shared ≡ network.now) }
    {
        let arcs = ChunkedArray::from_slice(alloc, network.arcs())?;
        let landmarks = copied(alloc, network.landmarks())?;
        Ok(SharedNetwork {
            nodes: network.nodes(),
            arcs,
            landmarks,
            room: network.room(),
        })
    }

    /// The same network once more: it costs a counter for each 262,144 arcs. The only error is lack of memory.
    pub fn share(&self) -> Result<SharedNetwork, OutOfMemory>
        ensures { IfOk result (λ shared. shared ≡ self.now) }
    {
        Ok(SharedNetwork {
            nodes: self.nodes,
            arcs: self.arcs.share()?,
            landmarks: Arc::try_clone(&self.landmarks)?,
            room: self.room,
        })
    }

    /// How many arcs the network has room for.
    pub fn room(&self) -> u32
        ensures value { result ≡ self.now.room }
        ensures network { IsNetwork self.now }
    {
        self.room
    }

    /// The number of nodes. They are numbered from 1 on.
    pub fn nodes(&self) -> u32
        ensures value { result ≡ self.now.nodes }
        ensures network { IsNetwork self.now }
    {
        self.nodes
    }

    /// The arcs in the order of their numbers: arc k is at place k - 1.
    pub fn arcs(&self) -> &ChunkedArray<RoadArc>
        ensures value { result.now ≡ self.now.arcs }
        ensures network { IsNetwork self.now }
    {
        &self.arcs
    }

    /// The landmarks, in ascending order.
    pub fn landmarks(&self) -> &[u32]
        ensures value { result.now ≡ self.now.landmarks }
        ensures network { IsNetwork self.now }
    {
        &self.landmarks
    }

    /// Whether the network has a node of this number.
    pub fn has_node(&self, x: u64) -> bool
        ensures node { IsTrue result ↔ IsNode self.now x }
        ensures network { IsNetwork self.now }
    {
        1 <= x && x <= u64::from(self.nodes)
    }

    /// Whether the node of this number is a landmark, by a binary search.
    pub fn is_landmark(&self, x: u64) -> bool
        ensures { result ≡ is_landmark self.now x }
    {
        let landmarks = self.landmarks();
        self.has_node(x) && is_member(landmarks, x as u32)
    }

    /// The arc of number `k`, if there is one.
    pub fn arc(&self, k: u64) -> Option<RoadArc>
        ensures { result ≡ arc_at self.now k }
    {
        if k == 0 || k > self.arcs.len() as u64 {
            return None;
        }
        Some(*self.arcs.get((k - 1) as usize))
    }
}
