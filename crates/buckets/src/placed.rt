//! Lists of nodes. Each node is in at most one list, and its place there is kept.

ghost use Rattle.std.specs.Prelude.{◌≡◌, ◌≢◌, ℕ, ◌+◌, ◌<◌, ◌≤◌, ◌^◌, ◌%◌, ◌++◌, ◌∷◌, [], set, Option, None, Some, IsTrue, ◌↔◌, OnOk, OnErr, IfOk, length, slice_index};
ghost use Rattle.std.specs.List.{slice_get, swap_remove};
ghost use Rattle.buckets.specs.Places.{place_bit};
ghost use Rattle.buckets.specs.Rings.{AreFull, ArePlaced, IsNodeMoved, IsPlacedIn, bucket_nodes_of};

use crate::places::Places;
use std::alloc::{AllocError, Global};
use std::mem::replace;

/// A list with at most this many places keeps them when its nodes are taken.
const FEW_PLACES: usize = 8;

/// This many empty lists.
fn empty_lists(alloc: Global, size: u32) -> Result<Vec<Vec<u32>>, AllocError>
    ensures len { IfOk result (λ lists. length lists.items ≡ size) }
    ensures empty { IfOk result (λ lists. (p : ℕ) → bucket_nodes_of lists.items p ≡ []) }
{
    let mut lists = Vec::with_capacity(alloc, size as usize)?;
    for _place in 0..size {
        lists.push(Vec::new(alloc))?;
    }
    Ok(lists)
}

/// Whether the list has a node.
fn has_nodes(lists: &Vec<Vec<u32>>, list: usize) -> bool
    requires { list < length lists.now.items }
    ensures { IsTrue result ↔ (0 < length (bucket_nodes_of lists.now.items list)) }
{
    !lists[list].is_empty()
}

/// Adds the node at the end of the list, and returns its place there. If memory runs out, each list is as it was.
#[inline(always)]
fn push(lists: &mut Vec<Vec<u32>>, list: usize, node: u32) -> Result<u32, AllocError>
    requires { list < length lists.old.items }
    ensures added { OnOk result (bucket_nodes_of lists.new.items list ≡ bucket_nodes_of lists.old.items list ++ node ∷ []) }
    ensures place { IfOk result (λ place. place ≡ length (bucket_nodes_of lists.old.items list)) }
    ensures err { OnErr result (bucket_nodes_of lists.new.items list ≡ bucket_nodes_of lists.old.items list) }
    ensures others { (p : ℕ) → p ≢ list → bucket_nodes_of lists.new.items p ≡ bucket_nodes_of lists.old.items p }
    ensures len { length lists.new.items ≡ length lists.old.items }
{
    let place = lists[list].len();
    if place > u32::MAX as usize {
        return Err(AllocError);
    }
    lists[list].push(node)?;
    Ok(place as u32)
}

/// Takes the node at this place out of the list. The last node of the list takes its place.
#[inline(always)]
fn take_out(lists: &mut Vec<Vec<u32>>, places: &mut Vec<u32>, list: usize, place: u32)
    requires list { list < length lists.old.items }
    requires place { place < length (bucket_nodes_of lists.old.items list) }
    requires within { (i node : ℕ) → slice_get (bucket_nodes_of lists.old.items list) i ≡ Some node → node < length places.old.items }
    ensures removed { bucket_nodes_of lists.new.items list ≡ swap_remove (bucket_nodes_of lists.old.items list) place 0 }
    ensures others { (p : ℕ) → p ≢ list → bucket_nodes_of lists.new.items p ≡ bucket_nodes_of lists.old.items p }
    ensures places { (last : ℕ) → last + 1 ≡ length (bucket_nodes_of lists.old.items list) → places.new.items ≡ set places.old.items (slice_index (bucket_nodes_of lists.old.items list) last) place }
    ensures len { length lists.new.items ≡ length lists.old.items }
{
    let last = lists[list].len() - 1;
    let moved = lists[list][last];
    places[moved as usize] = place;
    lists[list].swap_remove(place as usize);
}

/// Gives the table a place for the node, and at least twice as many places as it has. If memory runs out, the table is as it was.
fn grow(places: &mut Vec<u32>, node: u32) -> Result<(), AllocError>
    requires { length places.old.items ≤ node }
    ensures room { OnOk result (node < length places.new.items) }
    ensures more { length places.old.items ≤ length places.new.items }
    ensures same { (k : ℕ) → k < length places.old.items → slice_index places.new.items k ≡ slice_index places.old.items k }
{
    let room = (node as usize + 1).max(places.len().saturating_mul(2));
    places.resize(room, 0)?;
    Ok(())
}

/// Makes sure that the node has a place in the table, in amortized O(1). If memory runs out, the table is as it was.
#[inline(always)]
fn make_room(places: &mut Vec<u32>, node: u32) -> Result<(), AllocError>
    ensures room { OnOk result (node < length places.new.items) }
    ensures more { length places.old.items ≤ length places.new.items }
    ensures same { (k : ℕ) → k < length places.old.items → slice_index places.new.items k ≡ slice_index places.old.items k }
{
    if places.len() <= node as usize {
        grow(places, node)?;
    }
    Ok(())
}

/// Adds a node that is in no list at the end of this one. If memory runs out, each list and each place is as it was.
#[inline(always)]
fn enlist(
    lists: &mut Vec<Vec<u32>>,
    places: &mut Vec<u32>,
    list: usize,
    node: u32,
) -> Result<(), AllocError>
    requires { list < length lists.old.items }
    ensures placed { OnOk result ((home there : ℕ → Option ℕ) → ArePlaced lists.old.items places.old.items home → home node ≡ None → IsNodeMoved home node list there → ArePlaced lists.new.items places.new.items there) }
    ensures added { OnOk result (bucket_nodes_of lists.new.items list ≡ bucket_nodes_of lists.old.items list ++ node ∷ []) }
    ensures err { OnErr result ((home : ℕ → Option ℕ) → ArePlaced lists.old.items places.old.items home → ArePlaced lists.new.items places.new.items home) }
    ensures same { OnErr result (bucket_nodes_of lists.new.items list ≡ bucket_nodes_of lists.old.items list) }
    ensures others { (p : ℕ) → p ≢ list → bucket_nodes_of lists.new.items p ≡ bucket_nodes_of lists.old.items p }
    ensures len { length lists.new.items ≡ length lists.old.items }
{
    make_room(places, node)?;
    let place = push(lists, list, node)?;
    places[node as usize] = place;
    Ok(())
}

/// Moves a node from its list to the end of another. If memory runs out, each list and each place is as it was.
#[inline(always)]
fn relist(
    lists: &mut Vec<Vec<u32>>,
    places: &mut Vec<u32>,
    from: usize,
    to: usize,
    node: u32,
) -> Result<(), AllocError>
    requires apart { from ≢ to }
    requires list { to < length lists.old.items }
    requires stands { IsPlacedIn lists.old.items places.old.items from node }
    ensures placed { OnOk result ((home there : ℕ → Option ℕ) → ArePlaced lists.old.items places.old.items home → home node ≡ Some from → IsNodeMoved home node to there → ArePlaced lists.new.items places.new.items there) }
    ensures added { OnOk result (bucket_nodes_of lists.new.items to ≡ bucket_nodes_of lists.old.items to ++ node ∷ []) }
    ensures err { OnErr result ((home : ℕ → Option ℕ) → ArePlaced lists.old.items places.old.items home → ArePlaced lists.new.items places.new.items home) }
    ensures same { OnErr result ((p : ℕ) → bucket_nodes_of lists.new.items p ≡ bucket_nodes_of lists.old.items p) }
    ensures others { (p : ℕ) → p ≢ from → p ≢ to → bucket_nodes_of lists.new.items p ≡ bucket_nodes_of lists.old.items p }
    ensures len { length lists.new.items ≡ length lists.old.items }
{
    let place = push(lists, to, node)?;
    let at = places[node as usize];
    take_out(lists, places, from, at);
    places[node as usize] = place;
    Ok(())
}

/// Adds nodes at the end of a list. A single node is added without a call that copies memory.
#[inline(always)]
fn append(nodes: &mut Vec<u32>, more: &[u32]) -> Result<(), AllocError>
    ensures { OnOk result (nodes.new.items ≡ nodes.old.items ++ more.now) }
{
    if let [node] = more {
        nodes.push(*node)?;
        return Ok(());
    }
    nodes.extend_from_slice(more)?;
    Ok(())
}

/// Takes all nodes of the list, and puts them into an empty one. A list of few places keeps these, and its nodes are copied. If memory runs out, each list
/// is as it was.
#[inline(always)]
fn take_list(
    lists: &mut Vec<Vec<u32>>,
    alloc: Global,
    list: usize,
    nodes: &mut Vec<u32>,
) -> Result<(), AllocError>
    requires list { list < length lists.old.items }
    requires none { nodes.old.items ≡ [] }
    ensures taken { OnOk result (nodes.new.items ≡ bucket_nodes_of lists.old.items list) }
    ensures emptied { OnOk result (bucket_nodes_of lists.new.items list ≡ []) }
    ensures err { OnErr result (lists.new ≡ lists.old) }
    ensures others { (p : ℕ) → p ≢ list → bucket_nodes_of lists.new.items p ≡ bucket_nodes_of lists.old.items p }
    ensures len { length lists.new.items ≡ length lists.old.items }
{
    if lists[list].capacity() <= FEW_PLACES {
        append(nodes, &lists[list])?;
        lists[list].clear();
    } else {
        *nodes = replace(&mut lists[list], Vec::new(alloc));
    }
    Ok(())
}

/// Lists of nodes, where each node is in at most one. The place of a node in its list is kept, so that it moves to another list in O(1). The lists that
/// have nodes are marked in a set of bits. It takes 24 bytes a list; 4 bytes for each place of its table, which has at most twice as many places as the
/// greatest node that was ever added; and 4 bytes for each place of a list that was ever in use at once.
#[derive(Drop)]
pub struct PlacedLists {
    pub(crate) alloc: Global,
    pub(crate) lists: Vec<Vec<u32>>,
    pub(crate) places: Vec<u32>,
    pub(crate) marks: Places,
    ghost full: { AreFull lists.items marks },
}

impl PlacedLists {
    /// This many empty lists. The only error is lack of memory.
    pub fn new(alloc: Global, size: u32) -> Result<PlacedLists, AllocError>
        ensures len { IfOk result (λ made. length made.lists.items ≡ size) }
        ensures empty { IfOk result (λ made. (p : ℕ) → bucket_nodes_of made.lists.items p ≡ []) }
    {
        let lists = empty_lists(alloc, size)?;
        Ok(PlacedLists {
            alloc,
            lists,
            places: Vec::new(alloc),
            marks: Places::new(alloc, size)?,
        })
    }

    /// How many lists there are.
    pub fn len(&self) -> usize
        ensures { result ≡ length self.now.lists.items }
    {
        self.lists.len()
    }

    /// Adds a node that is in no list at the end of this one, in amortized O(1). If memory runs out, each node is where it was.
    #[inline(always)]
    pub fn add(&mut self, list: usize, node: u32) -> Result<(), AllocError>
        requires { list < length self.old.lists.items }
        ensures placed { OnOk result ((home there : ℕ → Option ℕ) → ArePlaced self.old.lists.items self.old.places.items home → home node ≡ None → IsNodeMoved home node list there → ArePlaced self.new.lists.items self.new.places.items there) }
        ensures err { OnErr result ((home : ℕ → Option ℕ) → ArePlaced self.old.lists.items self.old.places.items home → ArePlaced self.new.lists.items self.new.places.items home) }
        ensures len { length self.new.lists.items ≡ length self.old.lists.items }
    {
        enlist(&mut self.lists, &mut self.places, list, node)?;
        self.marks.insert(list);
        Ok(())
    }

    /// Moves a node from its list to the end of another, in amortized O(1). If memory runs out, each node is where it was.
    #[inline(always)]
    pub fn move_to(&mut self, from: usize, to: usize, node: u32) -> Result<(), AllocError>
        requires apart { from ≢ to }
        requires list { to < length self.old.lists.items }
        requires stands { IsPlacedIn self.old.lists.items self.old.places.items from node }
        ensures placed { OnOk result ((home there : ℕ → Option ℕ) → ArePlaced self.old.lists.items self.old.places.items home → home node ≡ Some from → IsNodeMoved home node to there → ArePlaced self.new.lists.items self.new.places.items there) }
        ensures err { OnErr result ((home : ℕ → Option ℕ) → ArePlaced self.old.lists.items self.old.places.items home → ArePlaced self.new.lists.items self.new.places.items home) }
        ensures len { length self.new.lists.items ≡ length self.old.lists.items }
    {
        relist(&mut self.lists, &mut self.places, from, to, node)?;
        let left = has_nodes(&self.lists, from);
        self.marks.set(from, left);
        self.marks.insert(to);
        Ok(())
    }

    /// Takes all nodes of this list, and puts them into an empty list. If memory runs out, each node is where it was.
    #[inline(always)]
    pub fn take(&mut self, list: usize, nodes: &mut Vec<u32>) -> Result<(), AllocError>
        requires list { list < length self.old.lists.items }
        requires none { nodes.old.items ≡ [] }
        ensures taken { OnOk result (nodes.new.items ≡ bucket_nodes_of self.old.lists.items list) }
        ensures emptied { OnOk result (bucket_nodes_of self.new.lists.items list ≡ []) }
        ensures err { OnErr result (self.new ≡ self.old) }
        ensures others { (p : ℕ) → p ≢ list → bucket_nodes_of self.new.lists.items p ≡ bucket_nodes_of self.old.lists.items p }
        ensures places { self.new.places ≡ self.old.places }
        ensures len { length self.new.lists.items ≡ length self.old.lists.items }
    {
        take_list(&mut self.lists, self.alloc, list, nodes)?;
        self.marks.remove(list);
        Ok(())
    }
}
