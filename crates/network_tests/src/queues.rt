use buckets::{BucketQueue, OrderedBuckets, RingBuckets};
use std::alloc::{AllocError, Global};

/// Whether the queue has as its least bucket this one with just these nodes, and gives it.
fn takes<Q: BucketQueue>(queue: &mut Q, bucket: u64, nodes: &[u32]) -> Result<bool, AllocError> {
    match queue.take_least()? {
        Some((number, taken)) => Ok(number == bucket && taken.as_slice() == nodes),
        None => Ok(false),
    }
}

/// The same into a list that has something else.
fn takes_into<Q: BucketQueue>(
    queue: &mut Q,
    list: &mut Vec<u32>,
    bucket: u64,
    nodes: &[u32],
) -> Result<bool, AllocError> {
    let taken = queue.take_least_into(list)?;
    Ok(taken == Some(bucket) && list.as_slice() == nodes)
}

/// Puts these nodes with their values, of which each must fit.
fn put_all<Q: BucketQueue>(queue: &mut Q, entries: &[(u32, u64)]) -> Result<bool, AllocError> {
    for &(node, value) in entries {
        if !queue.fits(value) {
            return Ok(false);
        }
        queue.put(node, value)?;
    }
    Ok(true)
}

/// Nodes that move to lower and to higher buckets, within a bucket, and back.
const MOVES: [(u32, u64); 9] = [
    (4, 12),
    (2, 3),
    (9, 14),
    (0, 10),
    (2, 4),
    (4, 7),
    (9, 21),
    (7, 22),
    (4, 12),
];

/// Takings under delta 5, the last of them into one list.
fn moves<Q: BucketQueue>(alloc: Global, queue: &mut Q) -> Result<bool, AllocError> {
    let mut list = Vec::new(alloc);
    let mut right = queue.delta() == 5 && put_all(queue, &MOVES)? && !queue.is_empty();
    right = right && takes(queue, 0, &[2])? && takes(queue, 2, &[0, 4])?;
    right = right && put_all(queue, &[(2, 20), (4, 20), (7, 23)])?;
    right = right && takes_into(queue, &mut list, 4, &[2, 4, 7, 9])?;
    right = right && put_all(queue, &[(1, 31), (1, 26)])?;
    right = right && takes_into(queue, &mut list, 5, &[1])?;
    Ok(right && queue.is_empty() && queue.take_least()?.is_none())
}

/// The same of a ring of five, that begins anew.
fn moves_of_a_ring(alloc: Global) -> Result<bool, AllocError> {
    let mut queue = RingBuckets::new(alloc, 5, 5)?;
    let once = moves(alloc, &mut queue)? && !queue.fits(24) && queue.fits(25);
    if !queue.is_empty() {
        return Ok(false);
    }
    queue.restart();
    Ok(once && queue.window() == 5 && moves(alloc, &mut queue)?)
}

#[test]
fn takings_of_a_table_of_puts(rt: HostRuntime) {
    let mut queue = OrderedBuckets::new(rt.alloc(), 5);
    assert!(rt; queue.window() == u64::MAX);
    assert!(rt; moves(rt.alloc(), &mut queue).expect(&rt, "memory"));
    assert!(rt; moves_of_a_ring(rt.alloc()).expect(&rt, "memory"));
}
