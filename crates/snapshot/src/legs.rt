ghost use Rattle.std.specs.Prelude.{◌≡◌, ◌≤◌, ◌+◌, ◌*◌};
ghost use Rattle.snapshot.specs.Groups.{part_place};
ghost use Rattle.snapshot.specs.Places.{part_ends_of, part_place_of};

use roadnet::RoadArc;

/// An open arc as a search sees it from its tail, 8 bytes.
#[derive(Clone, Copy, Debug, PartialEq, Eq)]
pub struct Leg {
    /// The node that it reaches.
    pub head: u32,
    /// Its length, 0 to 2147483647.
    pub length: u32,
}

/// The two parts of the arcs of a node: light arcs are at most delta long, heavy arcs are longer.
#[derive(Clone, Copy, Debug, PartialEq, Eq)]
pub enum Part {
    Light,
    Heavy,
}

/// The place of a part of a node among the parts of nodes 0, 1, 2, ..
pub(crate) fn part_place(part: Part, node: u32) -> usize
    ensures { result ≡ part_place part node }
{
    let first = 2 * node as usize;
    match part {
        Part::Light => first,
        Part::Heavy => first + 1,
    }
}

/// The places where a part of a node begins and ends, where its light part has all its legs or not.
#[inline(always)]
pub(crate) fn part_ends(joined: bool, part: Part, node: u32) -> (usize, usize)
    ensures ends { result ≡ part_ends_of joined part node }
    ensures order { result.0 ≤ result.1 }
    ensures within { result.1 ≤ 2 * node + 2 }
{
    let first = 2 * node as usize;
    if joined {
        return match part {
            Part::Light => (first, first + 2),
            Part::Heavy => (first + 2, first + 2),
        };
    }
    match part {
        Part::Light => (first, first + 1),
        Part::Heavy => (first + 1, first + 2),
    }
}

/// The place of an arc's part.
pub(crate) fn place_of(arc: &RoadArc, delta: u32) -> usize
    ensures { result ≡ part_place_of delta arc.now }
{
    let part = if arc.length <= delta {
        Part::Light
    } else {
        Part::Heavy
    };
    part_place(part, arc.tail)
}
