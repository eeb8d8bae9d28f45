//! Entries in a ring of lists, by the buckets of keys.

ghost use Rattle.std.specs.Prelude.{◌≡◌, ◌≢◌, ℕ, ◌<◌, ◌≤◌, ◌+◌, ◌-◌, ◌/◌, ◌%◌, ◌++◌, [], ◌∷◌, min, set, OnOk, OnErr, IfOk, MatchOption, length};
ghost use Rattle.buckets.specs.Rings.{IsBucketWithin};
ghost use Rattle.std.specs.Bool.{OnTrue};
ghost use Rattle.frontier.specs.Entries.{AreMarked, AreSmall, IsAdded, IsFresh, TakesNext, entries_at, entry_count};

use buckets::{Places, buckets_between, next_marked};
use std::alloc::{AllocError, Global};
use std::mem::swap;

/// This many empty lists.
fn empty_lists(alloc: Global, size: u32) -> Result<Vec<Vec<(u32, u64)>>, AllocError>
    ensures len { IfOk result (λ lists. length lists.items ≡ size) }
    ensures empty { IfOk result (λ lists. (p : ℕ) → entries_at lists.items p ≡ []) }
{
    let mut lists = Vec::with_capacity(alloc, size as usize)?;
    for _place in 0..size {
        lists.push(Vec::new(alloc))?;
    }
    Ok(lists)
}

/// A list for more entries than these goes on in places that another one had, if there are any, and leaves its own to others.
const FEW: usize = 64;

/// Has the entries of a list go on in spare places, if there are any and it has few.
#[inline(never)]
fn widen(list: &mut Vec<(u32, u64)>, spares: &mut Vec<Vec<(u32, u64)>>)
    ensures { list.new.items ≡ list.old.items }
{
    if list.capacity() > FEW {
        return;
    }
    let Some(mut spare) = spares.pop() else {
        return;
    };
    spare.clear();
    if spare.append(list).is_ok() {
        swap(list, &mut spare);
    }
}

/// Adds the entry at the end of the list. If memory runs out, the list is as it was.
#[inline(always)]
fn push_to(
    list: &mut Vec<(u32, u64)>,
    spares: &mut Vec<Vec<(u32, u64)>>,
    node: u32,
    value: u64,
) -> Result<(), AllocError>
    ensures ok { OnOk result (list.new.items ≡ list.old.items ++ (node, value) ∷ []) }
    ensures err { OnErr result (list.new.items ≡ list.old.items) }
{
    if list.len() == FEW {
        widen(list, spares);
    }
    list.push((node, value))?;
    Ok(())
}

/// Adds the entry at the end of the list of this number. If memory runs out, each list is as it was.
#[inline(always)]
fn push(
    lists: &mut Vec<Vec<(u32, u64)>>,
    spares: &mut Vec<Vec<(u32, u64)>>,
    list: usize,
    node: u32,
    value: u64,
) -> Result<(), AllocError>
    requires { list < length lists.old.items }
    ensures added { OnOk result (IsAdded lists.old.items lists.new.items list (node, value)) }
    ensures err { OnErr result ((p : ℕ) → entries_at lists.new.items p ≡ entries_at lists.old.items p) }
    ensures len { length lists.new.items ≡ length lists.old.items }
{
    push_to(&mut lists[list], spares, node, value)
}

/// Sets the places of a list aside whose entries were taken, if they are many.
#[inline(always)]
fn set_aside(spares: &mut Vec<Vec<(u32, u64)>>, entries: &mut Vec<(u32, u64)>)
    requires none { entries.old.items ≡ [] }
    ensures none { entries.new.items ≡ [] }
{
    if entries.capacity() > FEW {
        let mut emptied = Vec::new(*entries.allocator());
        swap(&mut emptied, entries);
        let _kept = spares.push(emptied).is_ok();
    }
}

/// Swaps the entries of the list with these.
#[inline(always)]
fn exchange(lists: &mut Vec<Vec<(u32, u64)>>, list: usize, entries: &mut Vec<(u32, u64)>)
    requires { list < length lists.old.items }
    ensures lists { lists.new.items ≡ set lists.old.items list entries.old }
    ensures entries { entries.new.items ≡ entries_at lists.old.items list }
{
    swap(&mut lists[list], entries);
}

/// How many entries these lists have room for, up to the greatest number of the type.
fn places_of(lists: &[Vec<(u32, u64)>]) -> usize {
    let mut places: usize = 0;
    for list in lists {
        places = places.saturating_add(list.capacity());
    }
    places
}

/// Entries, each a node with a value, in a ring of lists by a key that is given with them: bucket `b` has the entries whose key divided by `delta` is `b`, rounded
/// down, and its list is at the place `b` modulo the number of lists. The keys are not kept. It takes 24 bytes a list, and 16 for each entry that it had at once,
/// or twice that.
#[derive(Drop)]
pub struct EntryRing {
    pub(crate) delta: u32,
    pub(crate) last: u64,
    first: usize,
    pub(crate) lists: Vec<Vec<(u32, u64)>>,
    spares: Vec<Vec<(u32, u64)>>,
    marks: Places,
    ghost positive: { 1 ≤ delta },
    ghost some: { 1 ≤ length lists.items },
    ghost begins: { first ≡ last % length lists.items },
    ghost marked: { AreMarked lists.items marks },
    ghost small: { AreSmall last lists.items },
}

impl EntryRing {
    /// An empty ring, of `size` buckets in a row from bucket 0 on. Each bucket spans `delta` keys. The only error is lack of memory.
    pub fn new(alloc: Global, delta: u32, size: u32) -> Result<EntryRing, AllocError>
        requires positive { 1 ≤ delta }
        requires some { 1 ≤ size }
        requires few { size ≤ 65536 }
        ensures width { IfOk result (λ ring. ring.delta ≡ delta) }
        ensures last { IfOk result (λ ring. ring.last ≡ 0) }
        ensures size { IfOk result (λ ring. length ring.lists.items ≡ size) }
        ensures empty { IfOk result (λ ring. (p : ℕ) → entries_at ring.lists.items p ≡ []) }
    {
        let lists = empty_lists(alloc, size)?;
        let marks = Places::new(alloc, size)?;
        Ok(EntryRing {
            delta,
            last: 0,
            first: 0,
            lists,
            spares: Vec::new(alloc),
            marks,
        })
    }

    /// How many entries its lists and its spare ones have room for, up to the greatest number of the type.
    pub fn places(&self) -> usize {
        places_of(&self.lists).saturating_add(places_of(&self.spares))
    }

    /// Whether a search that asks for buckets of this width, and for so many in a row, can begin with it: it has no entry, bucket 0 is the first that fits,
    /// and there are as many lists.
    pub fn is_fresh(&self, delta: u32, size: u32) -> bool
        ensures { OnTrue result (IsFresh self.now.delta self.now.last self.now.lists.items delta size) }
    {
        if self.delta != delta || self.last != 0 || self.size() < size as usize {
            return false;
        }
        let Some(_place) = self.marks.first() else {
            return true;
        };
        false
    }

    /// Begins anew with this bucket, where there is no entry.
    pub(crate) fn begin_at(&mut self, last: u64)
        requires none { (p : ℕ) → entries_at self.old.lists.items p ≡ [] }
        ensures last { self.new.last ≡ last }
        ensures lists { self.new.lists ≡ self.old.lists }
        ensures width { self.new.delta ≡ self.old.delta }
    {
        self.first = (last % self.size() as u64) as usize;
        self.last = last;
    }

    /// Takes out all entries, in exchange for an empty list, and begins anew with bucket 0. It takes time for the lists that have entries.
    pub fn empty(&mut self, spare: &mut Vec<(u32, u64)>)
        requires none { spare.old.items ≡ [] }
        ensures fresh { IsFresh self.new.delta self.new.last self.new.lists.items self.old.delta (length self.old.lists.items) }
        ensures size { length self.new.lists.items ≡ length self.old.lists.items }
        ensures spare { spare.new.items ≡ [] }
    {
        'lists: while let Some(_bucket) = self.take(spare) {
            spare.clear();
        }
        self.begin_at(0);
    }

    /// How many keys a bucket spans.
    #[inline(always)]
    pub fn delta(&self) -> u32
        ensures value { result ≡ self.now.delta }
        ensures positive { 1 ≤ self.now.delta }
    {
        self.delta
    }

    /// How many lists there are.
    #[inline(always)]
    pub fn size(&self) -> usize
        ensures value { result ≡ length self.now.lists.items }
        ensures some { 1 ≤ length self.now.lists.items }
    {
        self.lists.len()
    }

    /// The bucket that was taken last.
    #[inline(always)]
    pub(crate) fn last(&self) -> u64
        ensures { result ≡ self.now.last }
    {
        self.last
    }

    /// How many buckets on from the last one that was taken that of the value is.
    #[inline(always)]
    pub(crate) fn ahead(&self, value: u64) -> u64
        requires { self.now.last ≤ value / self.now.delta }
        ensures { result ≡ value / self.now.delta - self.now.last }
    {
        buckets_between(self.delta, self.last, value)
    }

    /// The first bucket that is beyond its lists, or the greatest number there is.
    #[inline(always)]
    pub(crate) fn reach(&self) -> u64
        ensures { result ≡ min (self.now.last + length self.now.lists.items) u64.MAX }
    {
        self.last.saturating_add(self.size() as u64)
    }

    /// The place of the list of a key that fits.
    #[inline(always)]
    fn place(&self, key: u64) -> usize
        requires { IsBucketWithin self.now.last (length self.now.lists.items) (key / self.now.delta) }
        ensures { result ≡ (key / self.now.delta) % length self.now.lists.items }
    {
        let ahead = self.ahead(key) as usize;
        let place = self.first + ahead;
        let size = self.size();
        if place < size { place } else { place - size }
    }

    /// Adds an entry to the bucket of a key, in amortized O(1). If memory runs out, the entries are as they were.
    #[inline(always)]
    pub fn add(&mut self, key: u64, node: u32, value: u64) -> Result<(), AllocError>
        requires fits { IsBucketWithin self.old.last (length self.old.lists.items) (key / self.old.delta) }
        ensures ok { OnOk result (IsAdded self.old.lists.items self.new.lists.items ((key / self.old.delta) % length self.old.lists.items) (node, value)) }
        ensures err { OnErr result ((p : ℕ) → entries_at self.new.lists.items p ≡ entries_at self.old.lists.items p) }
        ensures size { length self.new.lists.items ≡ length self.old.lists.items }
        ensures width { self.new.delta ≡ self.old.delta }
        ensures last { self.new.last ≡ self.old.last }
    {
        let place = self.place(key);
        push(&mut self.lists, &mut self.spares, place, node, value)?;
        self.marks.insert(place);
        Ok(())
    }

    /// Takes all entries of the least bucket that has any, in exchange for an empty list, and returns the bucket's number; nothing if there is no entry.
    /// From then on the keys of as many buckets fit as there are lists, beginning with that bucket.
    #[inline(always)]
    pub fn take(&mut self, entries: &mut Vec<(u32, u64)>) -> Option<u64>
        requires none { entries.old.items ≡ [] }
        ensures taken { MatchOption result ((p : ℕ) → entries_at self.old.lists.items p ≡ []) (λ b. TakesNext self.old.last self.old.lists.items self.new.lists.items b entries.new.items) }
        ensures last { MatchOption result (self.new.last ≡ self.old.last) (λ b. self.new.last ≡ b) }
        ensures unused { MatchOption result (entries.new ≡ entries.old) (λ _. Unit {0}) }
        ensures none { MatchOption result (self.new.lists ≡ self.old.lists) (λ _. entry_count self.new.lists.items < entry_count self.old.lists.items) }
        ensures size { length self.new.lists.items ≡ length self.old.lists.items }
        ensures width { self.new.delta ≡ self.old.delta }
    {
        let Some(_some) = self.marks.first() else {
            return None;
        };
        let size = self.size();
        let (bucket, place) = next_marked(&self.marks, size, self.last, self.first);
        set_aside(&mut self.spares, entries);
        exchange(&mut self.lists, place, entries);
        self.marks.remove(place);
        self.last = bucket;
        self.first = place;
        Some(bucket)
    }
}
