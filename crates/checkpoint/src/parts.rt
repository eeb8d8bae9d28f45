//! Parts of the lists that pages tell.
ghost use Rattle.std.specs.Prelude.{◌≡◌, ◌≤◌, drop};
ghost use Rattle.storefile.specs.StoreFile.{part};

use roadnet::RoadArc;

/// The items of the `i`-th page, if a page has so many places.
pub fn part_of<T>(items: &[T], i: u64, places: usize) -> &[T]
    requires { places ≤ 1023 }
    ensures { result.now ≡ part places i items.now }
{
    let from = (i as usize).saturating_mul(places).min(items.len());
    let rest = &items[from..];
    &rest[..places.min(rest.len())]
}

/// The arcs after the first ones.
pub fn behind(arcs: &[RoadArc], first: usize) -> &[RoadArc]
    ensures { result.now ≡ drop first arcs.now }
{
    &arcs[first.min(arcs.len())..]
}
