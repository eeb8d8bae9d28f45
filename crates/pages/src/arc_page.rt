ghost use Rattle.std.specs.Prelude.{◌≡◌, ◌*◌, ◌≤◌, length, drop, map, ◌==◌, IfOk, ◌&&◌};
ghost use Rattle.std.specs.List.{list_all};
ghost use Rattle.pages.specs.Spelling.{Decodes, SpelledArcs, arc_page, ends_of};
ghost use Rattle.pages.specs.Reading.{read_items, read_ends, is_ends};

use crate::content::Ends;
use crate::writer::{PAGE_SIZE, PageWriter, are_zero};
use byteorder::{BigEndian, ByteOrder};
use roadnet::{OutOfMemory, RoadArc};
use std::alloc::{AllocError, Global};
use std::marker::Model;

const PLACE_SIZE: usize = 8;

/// The ends of the arcs of a page, in the order of the arcs' numbers.
#[derive(Debug, Drop)]
pub struct ArcPage {
    ends: Vec<Ends>,
}

impl Model for ArcPage {
    ghost use Rattle.std.specs.Prelude.{List};
    ghost use Rattle.pages.specs.declared.content.Ends.{Ends};

    ghost Value = { List Ends };

    ghost view = { λ p. p.ends.items };
}

impl ArcPage {
    /// The ends of the page's arcs, in the order of the arcs' numbers: at most 511.
    pub fn ends(&self) -> &[Ends]
        ensures { result.now ≡ self.now }
    {
        &self.ends
    }
}

/// The page of the ends of these arcs, at most 511.
pub fn encode_arc_page(arcs: &[RoadArc]) -> [u8; PAGE_SIZE]
    requires { length arcs.now ≤ 511 }
    ensures { result ≡ arc_page (map ends_of arcs.now) }
{
    let mut page = PageWriter::new();
    for arc in arcs {
        page.put_u32(arc.tail);
        page.put_u32(arc.head);
    }
    page.finish()
}

fn read_ends(bytes: &[u8]) -> Ends
    requires { 8 ≤ length bytes.now }
    ensures { result ≡ read_ends bytes.now }
{
    Ends {
        tail: BigEndian::read_u32(bytes),
        head: BigEndian::read_u32(&bytes[4..]),
    }
}

fn read_places(alloc: Global, bytes: &[u8], count: usize) -> Result<Vec<Ends>, AllocError>
    requires { 8 * count ≤ length bytes.now }
    ensures { IfOk result (λ ends. ends.items ≡ read_items read_ends 8 count bytes.now) }
{
    let mut ends = Vec::with_capacity(alloc, count)?;
    let mut rest = bytes;
    for _ in 0..count {
        let (front, after) = rest.split_at(PLACE_SIZE);
        ends.push(read_ends(front))?;
        rest = after;
    }
    Ok(ends)
}

/// Whether everything after so many places is zero.
fn is_zero_behind(page: &[u8; PAGE_SIZE], count: usize) -> bool
    requires { count ≤ 511 }
    ensures { result ≡ list_all (λ byte. byte == 0) (drop (8 * count) page.now) }
{
    are_zero(&page[PLACE_SIZE * count..])
}

fn are_ends(ends: &[Ends], nodes: u32) -> bool
    ensures { result ≡ list_all (is_ends nodes) ends.now }
{
    ends.iter().all(|e| 1 <= e.tail && e.tail <= nodes && 1 <= e.head && e.head <= nodes)
}

/// The ends of arcs on the page, in a network of so many nodes, if so many places (at most 511) are in use. `None` if the page is not valid.
pub fn decode_arc_page(
    alloc: Global,
    page: &[u8; PAGE_SIZE],
    nodes: u32,
    count: usize,
) -> Result<Option<ArcPage>, OutOfMemory>
    requires { count ≤ 511 }
    ensures { IfOk result (λ found. Decodes (SpelledArcs nodes count page.now) found) }
{
    if !is_zero_behind(page, count) {
        return Ok(None);
    }
    let ends = read_places(alloc, page, count)?;
    if !are_ends(&ends, nodes) {
        return Ok(None);
    }
    Ok(Some(ArcPage { ends }))
}
