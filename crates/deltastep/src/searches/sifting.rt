//! Requests that lower nothing are dropped before the rest is met, by passes whose reads of memory do not wait for each other.

ghost use Rattle.std.specs.Prelude.{◌≡◌, ℕ, ◌≤◌, ◌<◌, nat_lt, map, take, filter, length, All, IfOk, OnOk};
ghost use Rattle.relax.specs.Values.{value_or};
ghost use Rattle.deltastep.specs.Sifting.{sifted};

use crate::rows::distances::RowError;
use frontier::Frontier;
use std::alloc::{AllocError, Global};

/// The known value of the node of each request, or `top` if none is known, in a loop that does nothing else.
#[inline(always)]
fn look_up<F: Frontier>(
    alloc: Global,
    requests: &[(u32, u64)],
    frontier: &F,
    top: u64,
) -> Result<Vec<u64>, AllocError>
    requires nodes { All (λ r. (1 ≤ r.0) × (r.0 < length (F.tentative frontier.now))) requests.now }
    ensures { IfOk result (λ known. known.items ≡ map (λ r. value_or top (F.tentative frontier.now) r.0) requests.now) }
{
    let mut known = Vec::with_capacity(alloc, requests.len())?;
    for request in requests {
        let (node, _value) = *request;
        known.push_reserved(frontier.value(node).unwrap_or(top));
    }
    Ok(known)
}

/// Moves those requests whose value is below the known one to the front, in their order, and returns how many they are. No branch depends on a value.
#[inline(always)]
fn compact(requests: &mut Vec<(u32, u64)>, known: &[u64]) -> usize
    requires len { length known.now ≡ length requests.old.items }
    ensures kept { (f : ℕ → ℕ) → known.now ≡ map (λ r. f r.0) requests.old.items → take result requests.new.items ≡ filter (λ r. nat_lt r.1 (f r.0)) requests.old.items }
    ensures few { result ≤ length requests.new.items }
{
    let mut kept = 0;
    for place in 0..requests.len() {
        let request = requests[place];
        requests[kept] = request;
        kept += usize::from(request.1 < known[place]);
    }
    kept
}

/// Keeps those requests that ask for less than is known. The only error is lack of memory, for 8 bytes a request.
#[inline(always)]
pub(crate) fn sift<F: Frontier>(
    alloc: Global,
    requests: &mut Vec<(u32, u64)>,
    frontier: &F,
    top: u64,
) -> Result<(), RowError>
    requires nodes { All (λ r. (1 ≤ r.0) × (r.0 < length (F.tentative frontier.now))) requests.old.items }
    ensures sifted { OnOk result (requests.new.items ≡ sifted top (F.tentative frontier.now) requests.old.items) }
{
    let known = look_up(alloc, requests, frontier, top)?;
    let kept = compact(requests, &known);
    requests.truncate(kept);
    Ok(())
}
