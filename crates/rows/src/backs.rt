//! The arcs of a network the other way round, grouped, each with its number.

ghost use Rattle.std.specs.Prelude.{◌≡◌, ◌≤◌, IfOk, drop, length};
ghost use Rattle.roadnet.specs.Ends.{KeepsEnds};
ghost use Rattle.rows.specs.Backs.{back_numbered, numbered_from, LeadsBack};

use roadnet::{LONGEST_ARC, OutOfMemory, RoadArc};
use shared_network::SharedNetwork;
use snapshot::{Roads, Snapshot};
use std::alloc::{AllocError, Global};

/// The arc the other way round, open, with its number in place of its length.
fn numbered(number: u32, arc: RoadArc) -> RoadArc
    ensures { result ≡ back_numbered number arc }
{
    RoadArc {
        tail: arc.head,
        head: arc.tail,
        length: number,
        opened: true,
    }
}

/// A network of which each arc is read the other way round, open, with its number in place of its length.
#[derive(Drop)]
struct WithNumbers<'a> {
    network: &'a SharedNetwork,
}

impl Roads for WithNumbers<'_> {
    ghost use Rattle.rows.specs.Backs.{numbered_back};

    ghost network = { λ roads. numbered_back roads.network.now };

    #[inline(always)]
    fn node_count(&self) -> u32 {
        self.network.nodes()
    }

    #[inline(always)]
    fn arc_count(&self) -> usize {
        self.network.arcs().len()
    }

    #[inline(always)]
    fn arc_at_place(&self, place: usize) -> RoadArc {
        let arc = *self.network.arcs().get(place);
        numbered(place as u32 + 1, arc)
    }
}

/// All arcs of a network, open or closed, grouped by their heads. The legs of a node are the tails of the arcs that lead to it, each with the arc's number in
/// place of a length. So it serves this network, those from which it came by commands, and those that come from it until an arc is laid, whatever the
/// lengths and whichever arcs are open. Its only error is lack of memory, for 8 bytes an arc and 4 a node, and temporarily 4 more an arc.
pub fn numbered_back(alloc: Global, network: &SharedNetwork) -> Result<Snapshot, OutOfMemory>
    ensures { IfOk result (LeadsBack network.now) }
{
    let back = Snapshot::build(alloc, &WithNumbers { network }, LONGEST_ARC)?;
    let _nodes = network.nodes();
    let _grouped = back.nodes();
    Ok(back)
}

/// The arcs of a network from this place on, each the other way round with its number.
fn numbered_arcs(
    alloc: Global,
    network: &SharedNetwork,
    first: usize,
) -> Result<Vec<RoadArc>, AllocError>
    requires { first ≤ length network.now.arcs }
    ensures { IfOk result (λ all. all.items ≡ drop first (numbered_from 1 network.now.arcs)) }
{
    let roads = WithNumbers { network };
    let mut all = Vec::new(alloc);
    for place in first..roads.arc_count() {
        all.push(roads.arc_at_place(place))?;
    }
    Ok(all)
}

/// What `numbered_back` gives for a newer network, made from what it gave for an older one: with a leg more for each arc that was laid since. It shares the
/// blocks of all other heads. If more arcs were laid than there are blocks, all is made anew. Its only error is lack of memory.
pub fn numbered_back_after(
    alloc: Global,
    back: &Snapshot,
    older: &SharedNetwork,
    newer: &SharedNetwork,
) -> Result<Snapshot, OutOfMemory>
    requires back { LeadsBack older.now back.now }
    requires ends { KeepsEnds older.now newer.now }
    ensures { IfOk result (LeadsBack newer.now) }
{
    let _nodes = newer.nodes();
    let _grouped = back.nodes();
    let laid = numbered_arcs(alloc, newer, older.arcs().len())?;
    match back.with_arcs(alloc, &laid)? {
        Some(more) => Ok(more),
        None => numbered_back(alloc, newer),
    }
}
