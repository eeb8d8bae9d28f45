//! A frontier whose entries stay where they were put.

ghost use Rattle.std.specs.Prelude.{◌≡◌, ℕ, ◌+◌, ◌≤◌, ◌<◌, ◌/◌, ◌^◌, ◌==◌, ◌++◌, ◌∷◌, List, [], true, Option, Some, IsSome, IsTrue, IsFalse, Contains, IfOk, OnOk, OnErr, MatchOption, All, length};
ghost use Rattle.std.specs.List.{IsDistinct};
ghost use Rattle.std.specs.FinMap as map;
ghost use Rattle.frontier.specs.Entries.{AreInPlace, IsFresh, entries_at, entry_count};
ghost use Rattle.frontier.specs.Frontier.{TakesAny};
ghost use Rattle.relax.specs.Values.{value_at, value_or};
ghost use Rattle.frontier.specs.Live.{AreEntriesDealt, AreEntriesKept, AreJustQueued, CanStand, IsDealt, IsLeastOf, IsNowhere, all_queued, are_once, is_live, live_nodes, queued, standing};

use crate::entries::EntryRing;
use crate::frontier::Frontier;
use crate::lower::is_lower;
use crate::values::SearchValues;
use relax::Team;
use roadnet::OutOfMemory;
use snapshot::{Part, Snapshot};
use std::alloc::{AllocError, Global};
use std::mem::swap;

/// A frontier in which all buckets fit from the last one taken on.
///
/// A node that is lowered is put into the list of its bucket, and entries that it had before stay in theirs: an entry is live where its value
/// is the tentative value of its node. Each put lowers a value, so no node has two live entries, and entries that are not live are dropped
/// when their bucket is taken. What lies beyond the lists waits in a bag, and is dealt to the lists once they are empty. Beside its values it takes 24 bytes a list,
/// and 16 for each entry.
#[derive(Drop)]
pub struct LazyRing<V: SearchValues> {
    pub(crate) tentative: V,
    pub(crate) ring: EntryRing,
    taken: Vec<(u32, u64)>,
    pub(crate) bag: Vec<(u32, u64)>,
    bound: u64,
    ghost none: { taken.items ≡ [] },
    ghost within: { AreInPlace ring.delta ring.last ring.lists.items },
    ghost kept: { AreEntriesKept (V.values tentative) ring.delta bound ring.lists.items bag.items },
    ghost room: { bound ≤ ring.last + length ring.lists.items },
}

/// Adds the nodes of those entries that are live.
#[inline(always)]
fn add_live<V: SearchValues>(
    nodes: &mut Vec<u32>,
    tentative: &V,
    entries: &[(u32, u64)],
) -> Result<(), AllocError>
    requires nodes { All (λ e. (1 ≤ e.0) × (e.0 < length (V.values tentative.now))) entries.now }
    ensures added { OnOk result (nodes.new.items ≡ nodes.old.items ++ live_nodes (V.values tentative.now) entries.now) }
{
    for entry in entries {
        let (node, value) = *entry;
        if tentative.value(node) == Some(value) {
            nodes.push(node)?;
        }
    }
    Ok(())
}

/// Whether the node has this value, so that an entry of the two is live.
#[inline(always)]
fn has_value<V: SearchValues>(tentative: &V, node: u32, value: u64) -> bool
    requires node { (1 ≤ node) × (node < length (V.values tentative.now)) }
    ensures { result ≡ is_live (V.values tentative.now) (node, value) }
{
    match tentative.value(node) {
        Some(known) => value == known,
        None => false,
    }
}

/// The lesser of what is the least so far, if anything is, and the value of one more entry, if that is live.
fn lesser<V: SearchValues>(tentative: &V, least: Option<u64>, node: u32, value: u64) -> Option<u64>
    requires node { (1 ≤ node) × (node < length (V.values tentative.now)) }
    ensures { (entries : List (ℕ × ℕ)) → IsLeastOf (V.values tentative.now) entries least → IsLeastOf (V.values tentative.now) (entries ++ (node, value) ∷ []) result }
{
    if !has_value(tentative, node, value) {
        return least;
    }
    match least {
        Some(old) => Some(old.min(value)),
        None => Some(value),
    }
}

/// The least value of a live one of these entries, if there is one.
fn least_live<V: SearchValues>(tentative: &V, entries: &[(u32, u64)]) -> Option<u64>
    requires nodes { All (λ e. (1 ≤ e.0) × (e.0 < length (V.values tentative.now))) entries.now }
    ensures { IsLeastOf (V.values tentative.now) entries.now result }
{
    let mut least: Option<u64> = None;
    for entry in entries {
        let (node, value) = *entry;
        least = lesser(tentative, least, node, value);
    }
    least
}

/// Whether the bucket of a value is below the bound. It takes no other division than that of the place in the ring.
#[inline(always)]
fn is_near(ring: &EntryRing, bound: u64, value: u64) -> bool
    requires from { ring.now.last ≤ value / ring.now.delta }
    ensures near { IsTrue result → value / ring.now.delta < bound }
    ensures far { IsFalse result → bound ≤ value / ring.now.delta }
{
    ring.ahead(value) < bound.saturating_sub(ring.last())
}

/// Adds an entry: to its list, if its bucket is below the bound, else to the bag. After want of memory both are as they were.
#[inline(always)]
fn put(
    ring: &mut EntryRing,
    bag: &mut Vec<(u32, u64)>,
    bound: u64,
    node: u32,
    value: u64,
) -> Result<(), AllocError>
    requires from { ring.old.last ≤ value / ring.old.delta }
    requires room { bound ≤ ring.old.last + length ring.old.lists.items }
    requires small { value < u64.MAX }
    ensures placed { AreInPlace ring.old.delta ring.old.last ring.old.lists.items → AreInPlace ring.new.delta ring.new.last ring.new.lists.items }
    ensures kept { (tentative : List (Option ℕ)) → AreEntriesKept tentative ring.old.delta bound ring.old.lists.items bag.old.items → CanStand tentative ring.old.lists.items bag.old.items (node, value) → AreEntriesKept tentative ring.old.delta bound ring.new.lists.items bag.new.items }
    ensures dealt { OnOk result ((tentative : List (Option ℕ)) → IsDealt tentative ring.old.delta (node, value) ring.old.lists.items bag.old.items ring.new.lists.items bag.new.items) }
    ensures err { OnErr result (((p : ℕ) → entries_at ring.new.lists.items p ≡ entries_at ring.old.lists.items p) × (bag.new.items ≡ bag.old.items)) }
    ensures width { ring.new.delta ≡ ring.old.delta }
    ensures last { ring.new.last ≡ ring.old.last }
    ensures size { length ring.new.lists.items ≡ length ring.old.lists.items }
{
    if is_near(ring, bound, value) {
        return ring.add(value, node, value);
    }
    bag.push((node, value))?;
    Ok(())
}

/// Deals an entry that stands nowhere, if it is live.
fn deal_one<V: SearchValues>(
    tentative: &V,
    ring: &mut EntryRing,
    bag: &mut Vec<(u32, u64)>,
    bound: u64,
    node: u32,
    value: u64,
) -> Result<(), AllocError>
    requires node { (1 ≤ node) × (node < length (V.values tentative.now)) }
    requires from { value_at (V.values tentative.now) node ≡ Some value → ring.old.last ≤ value / ring.old.delta }
    requires room { bound ≤ ring.old.last + length ring.old.lists.items }
    requires small { value < u64.MAX }
    requires lone { IsNowhere ring.old.lists.items bag.old.items (node, value) }
    requires kept { AreEntriesKept (V.values tentative.now) ring.old.delta bound ring.old.lists.items bag.old.items }
    ensures placed { AreInPlace ring.old.delta ring.old.last ring.old.lists.items → AreInPlace ring.new.delta ring.new.last ring.new.lists.items }
    ensures kept { AreEntriesKept (V.values tentative.now) ring.old.delta bound ring.new.lists.items bag.new.items }
    ensures dealt { OnOk result (IsDealt (V.values tentative.now) ring.old.delta (node, value) ring.old.lists.items bag.old.items ring.new.lists.items bag.new.items) }
    ensures width { ring.new.delta ≡ ring.old.delta }
    ensures last { ring.new.last ≡ ring.old.last }
    ensures size { length ring.new.lists.items ≡ length ring.old.lists.items }
{
    if !has_value(tentative, node, value) {
        return Ok(());
    }
    put(ring, bag, bound, node, value)?;
    Ok(())
}

/// Deals entries, each of which stands there once: to the lists of a ring, or those from the bound on to a bag.
fn deal_all<V: SearchValues>(
    tentative: &V,
    ring: &mut EntryRing,
    bag: &mut Vec<(u32, u64)>,
    bound: u64,
    entries: &[(u32, u64)],
) -> Result<(), AllocError>
    requires nodes { All (λ e. (1 ≤ e.0) × (e.0 < length (V.values tentative.now))) entries.now }
    requires from { (e : ℕ × ℕ) → Contains entries.now e → is_live (V.values tentative.now) e ≡ true → ring.old.last ≤ e.1 / ring.old.delta }
    requires room { bound ≤ ring.old.last + length ring.old.lists.items }
    requires small { All (λ e. e.1 < u64.MAX) entries.now }
    requires once { are_once entries.now ≡ true }
    requires none { (p : ℕ) → entries_at ring.old.lists.items p ≡ [] }
    requires empty { bag.old.items ≡ [] }
    ensures placed { AreInPlace ring.new.delta ring.new.last ring.new.lists.items }
    ensures kept { AreEntriesKept (V.values tentative.now) ring.new.delta bound ring.new.lists.items bag.new.items }
    ensures dealt { OnOk result (AreEntriesDealt (V.values tentative.now) ring.new.delta entries.now (length entries.now) ring.new.lists.items bag.new.items) }
    ensures width { ring.new.delta ≡ ring.old.delta }
    ensures last { ring.new.last ≡ ring.old.last }
    ensures size { length ring.new.lists.items ≡ length ring.old.lists.items }
{
    for entry in entries {
        let (node, value) = *entry;
        deal_one(tentative, ring, bag, bound, node, value)?;
    }
    Ok(())
}

/// Deals what is in the bag, where no node is queued in the ring: from then on the lists begin with the bucket of the least live entry. It takes
/// a list that is empty in exchange.
fn deal<V: SearchValues>(
    tentative: &V,
    ring: &mut EntryRing,
    bag: &mut Vec<(u32, u64)>,
    spare: &mut Vec<(u32, u64)>,
    bound: &mut u64,
) -> Result<(), AllocError>
    requires spare { spare.old.items ≡ [] }
    requires kept { AreEntriesKept (V.values tentative.now) ring.old.delta bound.old ring.old.lists.items bag.old.items }
    requires room { bound.old ≤ ring.old.last + length ring.old.lists.items }
    requires none { queued ring.old.delta ring.old.lists.items (V.values tentative.now) ≡ map.empty }
    ensures spare { spare.new.items ≡ [] }
    ensures placed { AreInPlace ring.old.delta ring.old.last ring.old.lists.items → AreInPlace ring.new.delta ring.new.last ring.new.lists.items }
    ensures kept { AreEntriesKept (V.values tentative.now) ring.new.delta bound.new ring.new.lists.items bag.new.items }
    ensures room { bound.new ≤ ring.new.last + length ring.new.lists.items }
    ensures same { OnOk result (all_queued ring.new.delta ring.new.lists.items bag.new.items (V.values tentative.now) ≡ all_queued ring.old.delta ring.old.lists.items bag.old.items (V.values tentative.now)) }
    ensures some { OnOk result (queued ring.new.delta ring.new.lists.items (V.values tentative.now) ≡ map.empty → all_queued ring.new.delta ring.new.lists.items bag.new.items (V.values tentative.now) ≡ map.empty) }
    ensures width { ring.new.delta ≡ ring.old.delta }
{
    let Some(least) = least_live(tentative, bag) else {
        bag.clear();
        return Ok(());
    };
    ring.empty(spare);
    ring.begin_at(least / u64::from(ring.delta()));
    *bound = ring.reach();
    swap(bag, spare);
    let dealt = deal_all(tentative, ring, bag, *bound, spare);
    spare.clear();
    dealt?;
    Ok(())
}

/// An entry for each of these nodes, which all have values.
fn bag_of<V: SearchValues>(
    alloc: Global,
    tentative: &V,
    nodes: &[u32],
) -> Result<Vec<(u32, u64)>, AllocError>
    requires nodes { All (λ u. (1 ≤ u) × (u < length (V.values tentative.now))) nodes.now }
    ensures entries { IfOk result (λ bag. bag.items ≡ standing (V.values tentative.now) nodes.now) }
{
    let mut bag = Vec::with_capacity(alloc, nodes.len())?;
    for &node in nodes {
        let value = tentative.value(node).unwrap_or(0);
        bag.push((node, value))?;
    }
    Ok(bag)
}

impl<V: SearchValues> LazyRing<V> {
    /// A frontier with these values and no queued node, over an empty ring whose first bucket is bucket 0.
    pub fn new(alloc: Global, tentative: V, ring: EntryRing) -> LazyRing<V>
        requires none { (p : ℕ) → entries_at ring.lists.items p ≡ [] }
        requires first { ring.last ≡ 0 }
        ensures tentative { ⟦<LazyRing<V> as Frontier>⟧.tentative result ≡ V.values tentative }
        ensures width { ⟦<LazyRing<V> as Frontier>⟧.width result ≡ ring.delta }
        ensures span { ⟦<LazyRing<V> as Frontier>⟧.span result ≡ 2 ^ 64 }
        ensures empty { ⟦<LazyRing<V> as Frontier>⟧.entries result ≡ map.empty }
        ensures accepts { (value : ℕ) → ⟦<LazyRing<V> as Frontier>⟧.accepts result value }
    {
        let bound = ring.reach();
        LazyRing {
            tentative,
            ring,
            taken: Vec::new(alloc),
            bag: Vec::new(alloc),
            bound,
        }
    }

    /// The values.
    pub fn values(&self) -> &V
        ensures { V.values result.now ≡ ⟦<LazyRing<V> as Frontier>⟧.tentative self.now }
    {
        &self.tentative
    }

    /// The values, and the emptied ring, for another search.
    pub fn into_parts(self) -> (V, EntryRing)
        ensures tentative { V.values result.0 ≡ ⟦<LazyRing<V> as Frontier>⟧.tentative self }
        ensures width { result.1.delta ≡ ⟦<LazyRing<V> as Frontier>⟧.width self }
        ensures fresh { IsFresh result.1.delta result.1.last result.1.lists.items result.1.delta (length result.1.lists.items) }
    {
        let LazyRing {
            tentative,
            ring,
            taken,
            bag: _,
            bound: _,
        } = self;
        let mut ring = ring;
        let mut taken = taken;
        ring.empty(&mut taken);
        (tentative, ring)
    }

    /// Takes the entries of the least bucket of the ring that has any, and adds the nodes of the live ones to a list that is empty; nothing where
    /// there is no entry.
    #[inline(always)]
    fn take_entries(&mut self, nodes: &mut Vec<u32>) -> Result<Option<u64>, AllocError>
        requires none { nodes.old.items ≡ [] }
        ensures taken { IfOk result (λ taken. MatchOption taken (queued self.old.ring.delta self.old.ring.lists.items (V.values self.old.tentative) ≡ map.empty) (λ bucket. 0 < length nodes.new.items → TakesAny self.old.ring.delta (queued self.old.ring.delta self.old.ring.lists.items (V.values self.old.tentative)) bucket nodes.new.items (queued self.new.ring.delta self.new.ring.lists.items (V.values self.new.tentative)))) }
        ensures dead { IfOk result (λ taken. nodes.new.items ≡ [] → queued self.new.ring.delta self.new.ring.lists.items (V.values self.new.tentative) ≡ queued self.old.ring.delta self.old.ring.lists.items (V.values self.old.tentative)) }
        ensures none { IfOk result (λ taken. MatchOption taken (nodes.new.items ≡ []) (λ _. Unit {0})) }
        ensures fewer { IfOk result (λ taken. MatchOption taken (Unit {0}) (λ _. entry_count self.new.ring.lists.items < entry_count self.old.ring.lists.items)) }
        ensures last { IfOk result (λ taken. MatchOption taken (Unit {0}) (λ bucket. self.new.ring.last ≡ bucket)) }
        ensures tentative { V.values self.new.tentative ≡ V.values self.old.tentative }
        ensures bag { self.new.bag ≡ self.old.bag }
        ensures width { self.new.ring.delta ≡ self.old.ring.delta }
        ensures size { length self.new.ring.lists.items ≡ length self.old.ring.lists.items }
        ensures bound { self.new.bound ≡ self.old.bound }
    {
        let Some(bucket) = self.ring.take(&mut self.taken) else {
            return Ok(None);
        };
        let added = add_live(nodes, &self.tentative, &self.taken);
        self.taken.clear();
        added?;
        Ok(Some(bucket))
    }

    /// Has the lists go on from the bucket that was taken, where nothing is in the bag.
    #[inline(always)]
    fn slide(&mut self)
        ensures tentative { V.values self.new.tentative ≡ V.values self.old.tentative }
        ensures ring { self.new.ring ≡ self.old.ring }
        ensures bag { self.new.bag ≡ self.old.bag }
    {
        if self.bag.is_empty() {
            self.bound = self.bound.max(self.ring.reach());
        }
    }

    /// Takes the nodes of the least bucket of the ring that has a live entry into a list that is empty, and drops the entries of those before it.
    #[inline(always)]
    fn take_near(&mut self, nodes: &mut Vec<u32>) -> Result<Option<u64>, AllocError>
        requires none { nodes.old.items ≡ [] }
        ensures taken { IfOk result (λ taken. MatchOption taken (queued self.old.ring.delta self.old.ring.lists.items (V.values self.old.tentative) ≡ map.empty) (λ bucket. TakesAny self.old.ring.delta (queued self.old.ring.delta self.old.ring.lists.items (V.values self.old.tentative)) bucket nodes.new.items (queued self.new.ring.delta self.new.ring.lists.items (V.values self.new.tentative)))) }
        ensures same { IfOk result (λ taken. MatchOption taken (queued self.new.ring.delta self.new.ring.lists.items (V.values self.new.tentative) ≡ queued self.old.ring.delta self.old.ring.lists.items (V.values self.old.tentative)) (λ _. Unit {0})) }
        ensures none { IfOk result (λ taken. MatchOption taken (nodes.new.items ≡ []) (λ _. Unit {0})) }
        ensures last { IfOk result (λ taken. MatchOption taken (Unit {0}) (λ bucket. self.new.ring.last ≡ bucket)) }
        ensures tentative { V.values self.new.tentative ≡ V.values self.old.tentative }
        ensures bag { self.new.bag ≡ self.old.bag }
        ensures width { self.new.ring.delta ≡ self.old.ring.delta }
        ensures size { length self.new.ring.lists.items ≡ length self.old.ring.lists.items }
    {
        'buckets: while let Some(bucket) = self.take_entries(nodes)? {
            if !nodes.is_empty() {
                self.slide();
                return Ok(Some(bucket));
            }
        }
        Ok(None)
    }
}

impl<V: SearchValues + Drop> LazyRing<V> {
    /// A frontier with these values, in which just these nodes are queued, each of which is there once and has a value. They wait in the bag, so their values
    /// may lie anywhere. The only error is lack of memory, for 16 bytes a node.
    pub fn resumed(
        alloc: Global,
        tentative: V,
        ring: EntryRing,
        nodes: &[u32],
    ) -> Result<LazyRing<V>, AllocError>
        requires none { (p : ℕ) → entries_at ring.lists.items p ≡ [] }
        requires first { ring.last ≡ 0 }
        requires nodes { All (λ u. (1 ≤ u) × (u < length (V.values tentative))) nodes.now }
        requires values { All (λ u. IsSome (value_at (V.values tentative) u) × (value_or 0 (V.values tentative) u < u64.MAX)) nodes.now }
        requires once { IsDistinct (λ a b. a == b) nodes.now }
        ensures tentative { IfOk result (λ made. ⟦<LazyRing<V> as Frontier>⟧.tentative made ≡ V.values tentative) }
        ensures width { IfOk result (λ made. ⟦<LazyRing<V> as Frontier>⟧.width made ≡ ring.delta) }
        ensures span { IfOk result (λ made. ⟦<LazyRing<V> as Frontier>⟧.span made ≡ 2 ^ 64) }
        ensures queued { IfOk result (λ made. AreJustQueued (V.values tentative) nodes.now (⟦<LazyRing<V> as Frontier>⟧.entries made)) }
        ensures accepts { IfOk result (λ made. (value : ℕ) → ⟦<LazyRing<V> as Frontier>⟧.accepts made value) }
    {
        let bag = bag_of(alloc, &tentative, nodes)?;
        Ok(LazyRing {
            tentative,
            ring,
            taken: Vec::new(alloc),
            bag,
            bound: 0,
        })
    }
}

impl<V: SearchValues> Frontier for LazyRing<V> {
    ghost tentative = { λ q. V.values q.tentative };

    ghost entries = { λ q. all_queued q.ring.delta q.ring.lists.items q.bag.items (V.values q.tentative) };

    ghost width = { λ q. q.ring.delta };

    ghost span = { λ _. 2 ^ 64 };

    ghost accepts = { λ q value. q.ring.last ≤ value / q.ring.delta };

    ghost notes = { λ q. V.notes q.tentative };

    /// How many values a bucket spans.
    fn delta(&self) -> u32 {
        self.ring.delta()
    }

    /// The value of a node.
    #[inline(always)]
    fn value(&self, node: u32) -> Option<u64> {
        self.tentative.value(node)
    }

    /// The requests that the team computes.
    #[inline(always)]
    fn requests<T: Team>(
        &self,
        alloc: Global,
        snapshot: &Snapshot,
        team: &T,
        nodes: &[u32],
        part: Part,
    ) -> Result<Vec<(u32, u64)>, OutOfMemory> {
        self.tentative.requests(alloc, snapshot, team, nodes, part)
    }

    /// Lowers a node's value, in amortized O(1).
    #[inline(always)]
    fn lower(&mut self, top: u64, node: u32, value: u64) -> Result<bool, AllocError> {
        if !is_lower(self.tentative.value(node), top, value) {
            return Ok(false);
        }
        self.tentative.set(node, value)?;
        put(&mut self.ring, &mut self.bag, self.bound, node, value)?;
        Ok(true)
    }

    /// Takes out the nodes of the least bucket that has a live entry, in O(k) for k entries, and those before it. Where the lists have none, the bag is
    /// dealt first, in O(k) for k entries in it.
    #[inline(always)]
    fn take_least_into(&mut self, nodes: &mut Vec<u32>) -> Result<Option<u64>, AllocError> {
        nodes.clear();
        match self.take_near(nodes)? {
            Some(bucket) => return Ok(Some(bucket)),
            None => deal(
                &self.tentative,
                &mut self.ring,
                &mut self.bag,
                &mut self.taken,
                &mut self.bound,
            )?,
        }
        match self.take_near(nodes)? {
            Some(bucket) => Ok(Some(bucket)),
            None => Ok(None),
        }
    }
}
