// Numbers of arcs, sorted so that parallel arcs are side by side.

ghost use Rattle.std.specs.Prelude.{◌≡◌, ℕ, ◌≤◌, ◌<◌, ◌+◌, ◌*◌, ◌≢◌, ◌==◌, ◌&&◌, nat_lt, length, slice_index, IfOk};
ghost use Rattle.roadnet.specs.Net.{IsNetwork};
ghost use Rattle.upgrades.specs.Ordered.{pair_at, AreByEnds};

use roadnet::{Network, OutOfMemory};
use std::alloc::Global;

/// The ends of arc `number` as one number, ascending by tail and then by head; 0 if there is no such arc.
pub fn pair_at(network: &Network, number: u32) -> u64
    ensures { result ≡ pair_at network.now.arcs number }
{
    match network.arc(u64::from(number)) {
        Some(arc) => u64::from(arc.tail) * 4294967296 + u64::from(arc.head),
        None => 0,
    }
}

/// The number by which the numbers of arcs are sorted.
fn rank_of(network: &Network, number: u32) -> u128
    ensures { result ≡ pair_at network.now.arcs number * 4294967296 + number }
{
    u128::from(pair_at(network, number)) * 4294967296 + u128::from(number)
}

/// The numbers of the arcs, ascending by tail, head and number. The only error is lack of memory, for 4 bytes an arc.
pub fn numbers_by_ends(alloc: Global, network: &Network) -> Result<Vec<u32>, OutOfMemory>
    ensures sorted { IfOk result (λ numbers. AreByEnds network.now.arcs numbers.items) }
    ensures network { IsNetwork network.now }
{
    let count = network.arcs().len();
    let mut numbers = Vec::with_capacity(alloc, count)?;
    for place in 0..count {
        if numbers.push(place as u32 + 1).is_err() {
            return Err(OutOfMemory);
        }
    }
    numbers.sort_unstable_by_key(|number: &u32| -> u128 { rank_of(network, *number) });
    Ok(numbers)
}

/// The first place, from `from` on, whose arc does not have lower ends than `pair`; if there is none, the place after the last one.
pub fn first_from(network: &Network, numbers: &[u32], from: usize, pair: u64) -> usize
    requires { from ≤ length numbers.now }
    ensures after { from ≤ result }
    ensures within { result ≤ length numbers.now }
    ensures passed { (i : ℕ) → from ≤ i → i < result → pair_at network.now.arcs (slice_index numbers.now i) < pair }
    ensures stopped { result < length numbers.now → pair ≤ pair_at network.now.arcs (slice_index numbers.now result) }
{
    for place in from..numbers.len() {
        if pair_at(network, numbers[place]) >= pair {
            return place;
        }
    }
    numbers.len()
}

/// The first place, from `from` on, whose arc has other ends than `pair`; if there is none, the place after the last one.
pub fn end_of(network: &Network, numbers: &[u32], from: usize, pair: u64) -> usize
    requires { from ≤ length numbers.now }
    ensures after { from ≤ result }
    ensures within { result ≤ length numbers.now }
    ensures same { (i : ℕ) → from ≤ i → i < result → pair_at network.now.arcs (slice_index numbers.now i) ≡ pair }
    ensures stopped { result < length numbers.now → pair_at network.now.arcs (slice_index numbers.now result) ≢ pair }
{
    for place in from..numbers.len() {
        if pair_at(network, numbers[place]) != pair {
            return place;
        }
    }
    numbers.len()
}

/// Whether the arc at this place has these ends.
pub fn has_pair_at(network: &Network, numbers: &[u32], place: usize, pair: u64) -> bool
    ensures { result ≡ (nat_lt place (length numbers.now) && (pair_at network.now.arcs (slice_index numbers.now place) == pair)) }
{
    if place >= numbers.len() {
        return false;
    }
    pair_at(network, numbers[place]) == pair
}
