//! The distance to one target, by a search that lower bounds of the ways to it guide there.

ghost use Rattle.std.specs.Prelude.{◌≡◌, ◌+◌, ◌*◌, ◌/◌, ◌≤◌, ◌<◌, ◌^◌, ◌↔◌, ℕ, [], All, Contains, None, Some, false, length, max, replicate, IfOk, IfSome, IsTrue, OnOk, MatchOption};
ghost use Rattle.relax.specs.Values.{value_at, value_or};
ghost use Rattle.roadnet.specs.Net.{Net};
ghost use Rattle.snapshot.specs.Groups.{Groups, IsGrouped, IsSnapshotOf};
ghost use Rattle.snapshot.specs.declared.legs.Part.{Part};
ghost use Rattle.buckets.specs.Rings.{IsBucketWithin};
ghost use Rattle.frontier.specs.Entries.{entries_at};
ghost use Rattle.deltastep.specs.Search.{most_lists};
ghost use Rattle.deltastep.specs.Guided.{ConsistentIsLowerBound, EndsReached, GoesOnTo, HasDone, IsBest, IsKey, IsLowerBound, IsStart, IsUnderWayTo, KeepsWindow, KeyStaysBelow, LowersByKey};
ghost use Rattle.deltastep.specs.Reach.{IsLeastLength};

use crate::rows::distances::RowError;
use crate::searches::search::top;
use crate::searches::stepping::{MOST_LISTS, narrower};
use crate::searches::workspace::Workspace;
use frontier::EntryRing;
use relax::Tentative;
use snapshot::{Part, Snapshot};
use std::alloc::Global;

/// Lower bounds of the remaining ways to a target.
pub trait Guide {
    /// The node where the ways end.
    ghost target: { Self → ℕ };

    /// The snapshots whose ways it bounds.
    ghost knows: { Self → Groups → Type 0 };

    /// A number that is at most the length of each way from the node to the target. What a search finds does not depend on it. If it is consistent, no node
    /// comes back into a bucket that was left; a node may come back into its own bucket, as in each search by buckets. As a rule a greater bound settles
    /// fewer nodes, but not always.
    fn bound(&self, node: u32) -> u64
        ensures below { (groups : Groups) → knows self.now groups → IsGrouped groups → 1 ≤ node → node ≤ groups.nodes → IsLowerBound groups (target self.now) node result };
}

/// What is known of guides, as a contract with no body to run: a consistent potential that is 0 at the target bounds each way from below.
pub fn laws_of_guides()
    ensures consistent { ConsistentIsLowerBound }
{}

/// The key of a node with this value: the value plus the guide's bound, but at least `start` and at most `end`.
#[inline(always)]
fn key_of<G: Guide>(guide: &G, node: u32, value: u64, start: u64, end: u64) -> u64
    requires window { start ≤ end }
    ensures from { start ≤ result }
    ensures to { result ≤ end }
    ensures below { KeyStaysBelow (G.knows guide.now) (G.target guide.now) node value start result }
{
    let wanted = value.saturating_add(guide.bound(node));
    wanted.min(end).max(start)
}

/// The start of the last bucket of the window that begins with this bucket, or the greatest number of the type if it is above that.
#[inline(always)]
fn end_of(bucket: u64, window: u64, delta: u64) -> u64
    requires positive { (1 ≤ delta) × (1 ≤ window) }
    requires small { bucket * delta < 2 ^ 64 }
    ensures from { bucket * delta ≤ result }
    ensures to { result / delta < bucket + window }
{
    bucket.saturating_add(window - 1).saturating_mul(delta)
}

/// The width of the buckets of keys: the greatest power of two that is at most an eighth of the snapshot's width, but at least 1. Along a shortest way keys
/// hardly grow, so with buckets as wide as those of values many nodes would be relaxed more than once. With a power of two, a bucket is found without a
/// division.
fn width_of_keys(snapshot: &Snapshot) -> u32
    ensures positive { 1 ≤ result }
    ensures narrow { result ≤ max (snapshot.now.delta / 8) 1 }
    ensures greatest { max (snapshot.now.delta / 8) 1 < 2 * result }
{
    let widest = (snapshot.delta() / 8).max(1);
    1 << widest.ilog2()
}

/// How many buckets of keys a ring gets: those of twice the greatest length, by which a key may grow at an arc, if a ring may have so many.
fn lists_of_keys(snapshot: &Snapshot, width: u32) -> u32
    requires positive { 1 ≤ width }
    ensures some { 1 ≤ result }
    ensures few { result ≤ most_lists }
{
    let keys = u64::from(snapshot.greatest()) * 2 / u64::from(width) + 2;
    keys.min(u64::from(MOST_LISTS)) as u32
}

/// A search by keys under way: the least value found so far for each node, and entries in buckets by key. The legs of a node are still to be relaxed if it
/// has a live entry, which is one with its value. Each entry lowers its node's value, so the others are of no use, and are passed over.
#[derive(Drop)]
pub struct KeyedSearch {
    pub(crate) tentative: Tentative,
    pub(crate) ring: EntryRing,
}

impl KeyedSearch {
    /// A search by keys that knows only the source, with empty values and an empty ring.
    fn begin_guided(
        snapshot: &Snapshot,
        source: u32,
        tentative: Tentative,
        ring: EntryRing,
    ) -> Result<KeyedSearch, RowError>
        requires node { (1 ≤ source) × (source ≤ snapshot.now.nodes) }
        requires blank { tentative ≡ replicate (snapshot.now.nodes + 1) None }
        requires first { ring.last ≡ 0 }
        requires empty { (p : ℕ) → entries_at ring.lists.items p ≡ [] }
        ensures state { IfOk result (λ search. (target : ℕ) → IsUnderWayTo snapshot.now source target search) }
        ensures done { IfOk result (λ search. (part : Part) (u : ℕ) → HasDone snapshot.now part search u) }
        ensures grouped { OnOk result (IsGrouped snapshot.now) }
    {
        let _grouped = snapshot.nodes();
        let mut search = KeyedSearch { tentative, ring };
        search.ring.add(0, source, 0)?;
        search.tentative.set(source, 0);
        Ok(search)
    }

    /// Lowers a node's value to the given one, if that is below `top` and the present value, and adds an entry by a key from `start` to `end`, which it
    /// returns.
    #[inline(always)]
    fn lower_to<G: Guide>(
        &mut self,
        top: u64,
        node: u32,
        value: u64,
        start: u64,
        end: u64,
        guide: &G,
    ) -> Result<Option<u64>, RowError>
        requires node { (1 ≤ node) × (node < length self.old.tentative) }
        requires window { start ≤ end }
        requires fits { (v : ℕ) → start ≤ v → v ≤ end → IsBucketWithin self.old.ring.last (length self.old.ring.lists.items) (v / self.old.ring.delta) }
        requires small { top ≤ 2 ^ 56 }
        ensures lowered { IfOk result (λ key. MatchOption key (value_or top self.old.tentative node ≤ value) (λ _. value < value_or top self.old.tentative node)) }
        ensures changed { IfOk result (λ key. LowersByKey node value self.old self.new key) }
        ensures to { IfOk result (λ key. IfSome key (λ key. key ≤ end)) }
        ensures below { IfOk result (λ key. IfSome key (KeyStaysBelow (G.knows guide.now) (G.target guide.now) node value start)) }
        ensures keeps { KeepsWindow self.old.ring self.new.ring }
    {
        let lowers = match self.tentative.get(node) {
            Some(old) => value < old,
            None => value < top,
        };
        if !lowers {
            return Ok(None);
        }
        let key = key_of(guide, node, value, start, end);
        self.ring.add(key, node, value)?;
        self.tentative.set(node, value);
        Ok(Some(key))
    }

    /// Relaxes the legs of a part of a node.
    #[inline(always)]
    fn relax_part<G: Guide>(
        &mut self,
        snapshot: &Snapshot,
        node: u32,
        part: Part,
        start: u64,
        end: u64,
        guide: &G,
    ) -> Result<(), RowError>
        requires knows { G.knows guide.now snapshot.now }
        requires state { (source : ℕ) × IsUnderWayTo snapshot.now source (G.target guide.now) self.old }
        requires key { IsKey snapshot.now (G.target guide.now) self.old.tentative node start }
        requires window { start ≤ end }
        requires fits { (v : ℕ) → start ≤ v → v ≤ end → IsBucketWithin self.old.ring.last (length self.old.ring.lists.items) (v / self.old.ring.delta) }
        ensures goes_on { OnOk result (GoesOnTo snapshot.now (G.target guide.now) start self.old self.new) }
        ensures done { OnOk result (HasDone snapshot.now part self.new node) }
        ensures keeps { KeepsWindow self.old.ring self.new.ring }
    {
        let top = top(snapshot);
        let value = self.tentative.get(node).unwrap_or(0);
        for leg in snapshot.legs(node, part) {
            let through = value + u64::from(leg.length);
            self.lower_to(top, leg.head, through, start, end, guide)?;
        }
        Ok(())
    }

    /// Relaxes all legs of a node.
    #[inline(always)]
    fn relax_node<G: Guide>(
        &mut self,
        snapshot: &Snapshot,
        node: u32,
        start: u64,
        end: u64,
        guide: &G,
    ) -> Result<(), RowError>
        requires knows { G.knows guide.now snapshot.now }
        requires state { (source : ℕ) × IsUnderWayTo snapshot.now source (G.target guide.now) self.old }
        requires key { IsKey snapshot.now (G.target guide.now) self.old.tentative node start }
        requires window { start ≤ end }
        requires fits { (v : ℕ) → start ≤ v → v ≤ end → IsBucketWithin self.old.ring.last (length self.old.ring.lists.items) (v / self.old.ring.delta) }
        ensures goes_on { OnOk result (GoesOnTo snapshot.now (G.target guide.now) start self.old self.new) }
        ensures done { OnOk result ((part : Part) → HasDone snapshot.now part self.new node) }
        ensures keeps { KeepsWindow self.old.ring self.new.ring }
    {
        self.relax_part(snapshot, node, Part::Light, start, end, guide)?;
        if snapshot.is_joined() {
            return Ok(());
        }
        self.relax_part(snapshot, node, Part::Heavy, start, end, guide)?;
        Ok(())
    }

    /// Relaxes all legs of an entry's node, if the entry is live.
    #[inline(always)]
    fn relax_entry<G: Guide>(
        &mut self,
        snapshot: &Snapshot,
        node: u32,
        value: u64,
        start: u64,
        end: u64,
        guide: &G,
    ) -> Result<(), RowError>
        requires knows { G.knows guide.now snapshot.now }
        requires state { (source : ℕ) × IsUnderWayTo snapshot.now source (G.target guide.now) self.old }
        requires node { (1 ≤ node) × (node ≤ snapshot.now.nodes) }
        requires key { IsStart snapshot.now (G.target guide.now) node value start }
        requires window { start ≤ end }
        requires fits { (v : ℕ) → start ≤ v → v ≤ end → IsBucketWithin self.old.ring.last (length self.old.ring.lists.items) (v / self.old.ring.delta) }
        ensures goes_on { OnOk result (GoesOnTo snapshot.now (G.target guide.now) start self.old self.new) }
        ensures done { OnOk result ((part : Part) → value_at self.new.tentative node ≡ Some value → HasDone snapshot.now part self.new node) }
        ensures keeps { KeepsWindow self.old.ring self.new.ring }
    {
        if self.tentative.get(node) != Some(value) {
            return Ok(());
        }
        self.relax_node(snapshot, node, start, end, guide)
    }

    /// Relaxes all legs of the nodes of live entries that were taken from a bucket, whose start is given.
    #[inline(always)]
    fn relax_all<G: Guide>(
        &mut self,
        snapshot: &Snapshot,
        entries: &[(u32, u64)],
        start: u64,
        end: u64,
        guide: &G,
    ) -> Result<(), RowError>
        requires knows { G.knows guide.now snapshot.now }
        requires state { (source : ℕ) × IsUnderWayTo snapshot.now source (G.target guide.now) self.old }
        requires nodes { All (λ e. (1 ≤ e.0) × (e.0 ≤ snapshot.now.nodes)) entries.now }
        requires keys { All (λ e. IsStart snapshot.now (G.target guide.now) e.0 e.1 start) entries.now }
        requires window { start ≤ end }
        requires fits { (v : ℕ) → start ≤ v → v ≤ end → IsBucketWithin self.old.ring.last (length self.old.ring.lists.items) (v / self.old.ring.delta) }
        ensures goes_on { OnOk result (GoesOnTo snapshot.now (G.target guide.now) start self.old self.new) }
        ensures done { OnOk result ((part : Part) (e : ℕ × ℕ) → Contains entries.now e → value_at self.new.tentative e.0 ≡ Some e.1 → HasDone snapshot.now part self.new e.0) }
        ensures keeps { KeepsWindow self.old.ring self.new.ring }
    {
        for entry in entries {
            let (node, value) = *entry;
            self.relax_entry(snapshot, node, value, start, end, guide)?;
        }
        Ok(())
    }

    /// Whether a node has a value that is at most the given one.
    #[inline(always)]
    fn is_at_most(&self, node: u32, most: u64) -> bool
        requires node { (1 ≤ node) × (node < length self.now.tentative) }
        ensures { MatchOption (value_at self.now.tentative node) (result ≡ false) (λ value. IsTrue result ↔ (value ≤ most)) }
    {
        match self.tentative.get(node) {
            Some(value) => value <= most,
            None => false,
        }
    }

    /// Settles bucket after bucket of keys until the value of the guide's target is final: until it is at most the start of the least bucket, or no entry is
    /// left.
    fn settle_guided<G: Guide>(
        &mut self,
        snapshot: &Snapshot,
        target: u32,
        taken: &mut Vec<(u32, u64)>,
        guide: &G,
    ) -> Result<(), RowError>
        requires target { (1 ≤ target) × (target ≤ snapshot.now.nodes) }
        requires leads { G.target guide.now ≡ target }
        requires knows { G.knows guide.now snapshot.now }
        requires none { taken.old.items ≡ [] }
        requires state { (source : ℕ) × IsUnderWayTo snapshot.now source (G.target guide.now) self.old }
        requires done { (part : Part) (u : ℕ) → HasDone snapshot.now part self.old u }
        ensures none { OnOk result (taken.new.items ≡ []) }
        ensures places { OnOk result (length self.new.tentative ≡ snapshot.now.nodes + 1) }
        ensures reached { OnOk result (EndsReached snapshot.now (G.target guide.now) self.old self.new.tentative) }
        ensures best { OnOk result (IsBest snapshot.now self.new.tentative (G.target guide.now)) }
    {
        let delta = u64::from(self.ring.delta());
        let window = self.ring.size() as u64;
        'buckets: while let Some(bucket) = self.ring.take(taken) {
            let start = bucket * delta;
            if self.is_at_most(target, start) {
                taken.clear();
                return Ok(());
            }
            let end = end_of(bucket, window, delta);
            self.relax_all(snapshot, taken, start, end, guide)?;
            taken.clear();
        }
        Ok(())
    }
}

/// The values and the emptied ring, after a search from `source` that ends once the value of `target` is final, with the given guide, empty values and an
/// empty ring.
#[inline(always)]
fn guided_by<G: Guide>(
    alloc: Global,
    snapshot: &Snapshot,
    source: u32,
    target: u32,
    guide: &G,
    values: Tentative,
    ring: EntryRing,
) -> Result<(Tentative, EntryRing), RowError>
    requires blank { values ≡ replicate (snapshot.now.nodes + 1) None }
    requires source { (1 ≤ source) × (source ≤ snapshot.now.nodes) }
    requires target { (1 ≤ target) × (target ≤ snapshot.now.nodes) }
    requires leads { G.target guide.now ≡ target }
    requires knows { G.knows guide.now snapshot.now }
    requires first { ring.last ≡ 0 }
    requires empty { (p : ℕ) → entries_at ring.lists.items p ≡ [] }
    ensures places { IfOk result (λ over. length over.0 ≡ snapshot.now.nodes + 1) }
    ensures distance { IfOk result (λ over. (net : Net) → IsSnapshotOf net snapshot.now → IsLeastLength net source target (value_at over.0 target)) }
{
    let mut search = KeyedSearch::begin_guided(snapshot, source, values, ring)?;
    let mut taken = Vec::new(alloc);
    search.settle_guided(snapshot, target, &mut taken, guide)?;
    let KeyedSearch {
        tentative,
        mut ring,
    } = search;
    ring.empty(&mut taken);
    Ok((tentative, ring))
}

/// The values of a search that the guide leads from `source` to `target`, and that ends once the value of `target` is final: its distance, or nothing if no
/// walk leads there. Nodes are settled in the order of their value plus the guide's bound. Each other value is the length of some walk.
///
/// The search uses the workspace as `distance_to_in` does, whatever that holds, except that its ring has narrower buckets and is left to the next such search.
/// The values are taken out of the workspace, and `keep_values` puts them back. Its only error is lack of memory.
///
/// If all bounds are 0, it settles what the search of `distance_to_in` does, or one bucket less. In the network of `examples/six.gr`, from 1 to 4 the value of
/// 4 is 12 with any guide, and from 6 to 1 node 1 has none.
pub fn values_guided_in<G: Guide>(
    alloc: Global,
    snapshot: &Snapshot,
    source: u32,
    target: u32,
    guide: &G,
    workspace: &mut Workspace,
) -> Result<Tentative, RowError>
    requires source { (1 ≤ source) × (source ≤ snapshot.now.nodes) }
    requires target { (1 ≤ target) × (target ≤ snapshot.now.nodes) }
    requires leads { G.target guide.now ≡ target }
    requires knows { G.knows guide.now snapshot.now }
    ensures places { IfOk result (λ values. length values ≡ snapshot.now.nodes + 1) }
    ensures distance { IfOk result (λ values. (net : Net) → IsSnapshotOf net snapshot.now → IsLeastLength net source target (value_at values target)) }
{
    let values = workspace.take_values(alloc, snapshot.nodes())?;
    let narrow = snapshot.narrowed()?;
    let delta = width_of_keys(narrower(&narrow, snapshot));
    let ring = workspace.take_ring(alloc, delta, lists_of_keys(snapshot, delta))?;
    let (values, ring) = guided_by(alloc, snapshot, source, target, guide, values, ring)?;
    workspace.keep_ring_of_keys(ring);
    Ok(values)
}
