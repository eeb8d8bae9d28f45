//! What a search takes from a queue, by a queue that keeps a record of that, and how large a ring is.

use buckets::{BucketQueue, OrderedBuckets, RingBuckets};
use deltastep::{ring_size, row_from, suits};
use fixtures::{network, six};
use relax::Solo;
use roadnet::Refusal;
use shared_network::SharedNetwork;
use snapshot::Snapshot;
use std::alloc::{AllocError, Global};

/// A queue that keeps a record of what was taken from it.
#[derive(Drop)]
struct Recorded<'a, Q> {
    alloc: Global,
    inner: Q,
    takings: &'a mut Vec<(u64, Vec<u32>)>,
}

impl<Q: BucketQueue> BucketQueue for Recorded<'_, Q> {
    ghost entries = { λ q. Q.entries q.inner };

    ghost width = { λ q. Q.width q.inner };

    ghost span = { λ q. Q.span q.inner };

    ghost accepts = { λ q. Q.accepts q.inner };

    fn delta(&self) -> u32 {
        self.inner.delta()
    }

    fn window(&self) -> u64 {
        self.inner.window()
    }

    fn is_empty(&self) -> bool {
        self.inner.is_empty()
    }

    fn fits(&self, value: u64) -> bool {
        self.inner.fits(value)
    }

    fn put(&mut self, node: u32, value: u64) -> Result<(), AllocError> {
        self.inner.put(node, value)
    }

    fn take_least(&mut self) -> Result<Option<(u64, Vec<u32>)>, AllocError> {
        self.inner.take_least()
    }

    fn take_least_into(&mut self, nodes: &mut Vec<u32>) -> Result<Option<u64>, AllocError> {
        let taken = self.inner.take_least_into(nodes)?;
        if let Some(bucket) = taken
            && let Ok(copy) = Vec::from_slice(self.alloc, nodes)
        {
            let _kept = self.takings.push((bucket, copy)).is_ok();
        }
        Ok(taken)
    }
}

/// Whether the takings of a search from node 1 of the six-node network by this queue, whose nodes are taken one by one, are those of the
/// table, or nothing where the queue does not suit.
fn takes_as_told<Q: BucketQueue + Drop>(
    alloc: Global,
    snapshot: &Snapshot,
    inner: Q,
) -> Result<bool, Refusal> {
    let mut takings = Vec::new(alloc);
    let buckets = Recorded {
        alloc,
        inner,
        takings: &mut takings,
    };
    if !snapshot.has_node(1) || !suits(&buckets, snapshot) {
        return Ok(false);
    }
    let row = row_from(alloc, snapshot, 1, &Solo, buckets).map_err(|_| Refusal::OutOfMemory)?;
    let want = [(0, 1), (2, 3), (2, 5), (2, 2), (2, 4), (3, 6)];
    let mut right = row.get(6) == Some(15) && takings.len() == want.len();
    for (taken, &(bucket, node)) in takings.iter().zip(&want) {
        right = right && taken.0 == bucket && taken.1.as_slice() == [node].as_slice();
    }
    Ok(right)
}

/// The first queue whose takings are others, or that does not suit: 1 for ordered buckets, 2 for a ring of five; 0 where both are right.
fn first_other(alloc: Global) -> Result<u32, Refusal> {
    let snapshot = Snapshot::build(alloc, &SharedNetwork::of(alloc, &six(alloc)?)?, 5)?;
    if !takes_as_told(alloc, &snapshot, OrderedBuckets::new(alloc, 5))? {
        return Ok(1);
    }
    let Ok(ring) = RingBuckets::new(alloc, 5, 5) else {
        return Err(Refusal::OutOfMemory);
    };
    if !takes_as_told(alloc, &snapshot, ring)? {
        return Ok(2);
    }
    Ok(0)
}

#[test]
fn takings_of_a_search(rt: HostRuntime) {
    assert!(rt; first_other(rt.alloc()).expect(&rt, "memory") == 0);
}

/// The ring's size for a network of two nodes with one arc of this length, under this delta.
fn size_for(alloc: Global, length: u32, delta: u32) -> Result<Option<u32>, Refusal> {
    if delta == 0 || delta > 2147483647 {
        return Err(Refusal::NumberRange);
    }
    let network = SharedNetwork::of(alloc, &network(alloc, 2, &[(1, 2, length)], &[])?)?;
    Ok(ring_size(&Snapshot::build(alloc, &network, delta)?))
}

const SIZES: [(u32, u32, Option<u32>); 6] = [
    (20, 5, Some(5)),
    (20, 1, Some(21)),
    (65535, 1, Some(65536)),
    (65536, 1, None),
    (2147483647, 2097152, Some(1025)),
    (0, 1, Some(1)),
];

#[test]
fn sizes_of_rings(rt: HostRuntime) {
    for (length, delta, size) in SIZES {
        let found = size_for(rt.alloc(), length, delta).expect(&rt, "memory");
        assert!(rt; found == size, "{length} {delta}");
    }
}
