// The counterparts of a map's arcs, found by reading two sorted lists of numbers side by side.

ghost use Rattle.std.specs.Prelude.{◌≡◌, ℕ, ◌≤◌, ◌<◌, All, length, slice_index, IfOk, if◌then◌else◌};
ghost use Rattle.roadnet.specs.Net.{IsNetwork};
ghost use Rattle.upgrades.specs.Ordered.{AreByEnds};
ghost use Rattle.upgrades.specs.Counterparts.{AreCounterparts, SaysParts, part_in};
ghost use Rattle.upgrades.specs.Upgrading.{arcs_alone};

use crate::ordered::{end_of, first_from, has_pair_at, pair_at};
use roadnet::{Network, OutOfMemory};
use std::alloc::Global;

/// The number of the stored arc at the place of the i-th of these parallel arcs of the map, or 0 if the two do not have equally many.
fn part_in(group: &[u32], stored: &[u32], i: usize) -> u32
    requires { i < length group.now }
    ensures { result ≡ part_in group.now stored.now i }
{
    if stored.len() == group.len() {
        stored[i]
    } else {
        0
    }
}

/// For each of these parallel arcs of the map, writes the number of its counterpart, or 0, at the arc's number.
fn put_group(parts: &mut Vec<u32>, group: &[u32], stored: &[u32])
    requires { All (λ k. k < length parts.old.items) group.now }
    ensures kept { (part : ℕ → ℕ) → SaysParts group.now stored.now part → (k : ℕ) → slice_index parts.old.items k ≡ part k → slice_index parts.new.items k ≡ part k }
    ensures put { (part : ℕ → ℕ) → SaysParts group.now stored.now part → (i : ℕ) → i < length group.now
        → slice_index parts.new.items (slice_index group.now i) ≡ part (slice_index group.now i) }
    ensures count { length parts.new.items ≡ length parts.old.items }
{
    for (i, number) in group.iter().enumerate() {
        parts[*number as usize] = part_in(group, stored, i);
    }
}

/// For each arc of the map `new`, the number of its counterpart in the network `stored`, given the numbers of both sorted by their ends. The only error is
/// lack of memory, for 4 bytes an arc of the map.
pub fn counterparts(
    alloc: Global,
    stored: &Network,
    before: &[u32],
    new: &Network,
    after: &[u32],
) -> Result<Vec<u32>, OutOfMemory>
    requires network { IsNetwork stored.now }
    requires stored { AreByEnds stored.now.arcs before.now }
    requires new { AreByEnds new.now.arcs after.now }
    ensures { IfOk result (λ parts. AreCounterparts stored.now.arcs new.now.arcs parts.items) }
{
    let mut parts = Vec::from_elem(alloc, 0, new.arcs().len() + 1)?;
    let mut from = 0;
    let mut next = 0;
    while next < after.len() {
        let pair = pair_at(new, after[next]);
        let end = end_of(new, after, next, pair);
        let start = first_from(stored, before, from, pair);
        from = end_of(stored, before, start, pair);
        put_group(&mut parts, &after[next..end], &before[start..from]);
        next = end;
    }
    Ok(parts)
}

/// 0 if there is something, otherwise 1.
fn one_unless(found: bool) -> u64
    ensures value { result ≡ (if found then 0 else 1) }
    ensures few { result ≤ 1 }
{
    if found { 0 } else { 1 }
}

/// How many arcs of a network have ends that no arc of the other has, given the numbers of both sorted by their ends.
pub fn count_alone(network: &Network, numbers: &[u32], other: &Network, others: &[u32]) -> u64
    requires network { IsNetwork network.now }
    requires other { IsNetwork other.now }
    requires numbers { AreByEnds network.now.arcs numbers.now }
    requires others { AreByEnds other.now.arcs others.now }
    ensures { result ≡ arcs_alone network.now.arcs other.now.arcs }
{
    let mut count = 0;
    let mut from = 0;
    for number in numbers {
        let pair = pair_at(network, *number);
        from = first_from(other, others, from, pair);
        let missing = one_unless(has_pair_at(other, others, from, pair));
        count += missing;
    }
    count
}
