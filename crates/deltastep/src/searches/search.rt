//! A search by delta-stepping: bucket after bucket is settled, the least first.

ghost use Rattle.std.specs.Prelude.{◌≡◌, ◌↔◌, ℕ, ◌≤◌, ◌<◌, ◌/◌, ◌*◌, ◌+◌, min, IsTrue, ◌==◌, ◌^◌, ◌++◌, List, [], Contains, Option, IfOk, IfSome, OnOk, MatchBool, MatchOption, All, None, Some, replicate, slice_set, length, vec_len};
ghost use Rattle.std.specs.List.{IsDistinct};
ghost use Rattle.std.specs.Bool.{OnTrue, OnFalse};
ghost use Rattle.std.specs.FinMap as map;
ghost use Rattle.snapshot.specs.Groups.{IsGrouped, legs_of};
ghost use Rattle.snapshot.specs.declared.legs.Part.TheVariants.{Light, Heavy};
ghost use Rattle.buckets.specs.Queue.{Entries};
ghost use Rattle.relax.specs.Values.{value_or};
ghost use Rattle.relax.specs.Requests.{requests_of};
ghost use Rattle.deltastep.specs.Search.{AreLiveFrom, IsBetweenBuckets, EndsPhase, EmptiesBucket, AreInBucket, IsRelaxedBut, IsSuited, Suits, top_of, requests_by, weight};
ghost use Rattle.deltastep.specs.Stepping.{IsUnderWay, IsEmptyAt, IsQueuedAt, OwesOnly, HasWidth, HasRoomFrom, IsBetween, StaysBetween, StaysReached, KeepsInBucket, WeighsNoMore, WeighsLess, KeepsEmpty, KeepsQueued, StaysLive, Meets, MeetsOneMore, QueuesWhere, TakesBucket, TellsWindow, IsBehind, IsOver};

use crate::rows::distances::RowError;
use crate::searches::sifting::sift;
use frontier::{Frontier, Remembered};
use relax::Team;
use roadnet::{LONGEST_ARC, OutOfMemory};
use snapshot::{Leg, Part, Snapshot};
use std::alloc::Global;

/// One above the length of every walk that visits no node twice: longer ways are dropped.
#[inline(always)]
#[tactic(auto, unfolding(crate::specs::Search::top_of))]
pub(crate) fn top(snapshot: &Snapshot) -> u64
    ensures value { result ≡ top_of snapshot.now }
    ensures small { result ≤ 2 ^ 56 }
    ensures grouped { IsGrouped snapshot.now }
{
    u64::from(snapshot.nodes() - 1) * u64::from(LONGEST_ARC) + 1
}

/// Whether the value is less than `delta` above the start of a bucket. For a value of that bucket or a later one, this is whether it is in the bucket.
#[inline(always)]
fn is_near(start: u64, value: u64, delta: u64) -> bool
    requires positive { 1 ≤ delta }
    requires above { start ≤ value }
    ensures { (b : ℕ) → start ≡ min (b * delta) u64.MAX → b ≤ value / delta → IsTrue result ↔ (value / delta ≡ b) }
{
    value - start < delta
}

/// Whether the list has a single node without light legs. Then no node comes back into its bucket, and no node has to be remembered.
#[inline(always)]
fn is_alone(snapshot: &Snapshot, nodes: &[u32]) -> bool
    ensures once { OnTrue result (IsDistinct (λ a b. a == b) nodes.now) }
    ensures light { OnTrue result ((u : ℕ) → Contains nodes.now u → legs_of snapshot.now Light u ≡ []) }
{
    match nodes {
        [node] => snapshot.legs(*node, Part::Light).is_empty(),
        _ => false,
    }
}

/// Remembers nodes, each once, unless no node has heavy legs that it may owe.
#[inline(always)]
fn remember(
    snapshot: &Snapshot,
    remembered: &mut Remembered,
    nodes: &[u32],
) -> Result<(), OutOfMemory>
    requires within { All (λ u. u < remembered.old.limit) nodes.now }
    ensures owed { OnOk result ((tentative : List (Option ℕ)) (queue : Entries) → IsRelaxedBut snapshot.now Heavy tentative queue (remembered.old.nodes ++ nodes.now) → IsRelaxedBut snapshot.now Heavy tentative queue remembered.new.nodes) }
    ensures nodes { OnOk result ((tentative : List (Option ℕ)) (width b : ℕ) → AreInBucket tentative width b remembered.old.nodes → AreInBucket tentative width b nodes.now → AreInBucket tentative width b remembered.new.nodes) }
    ensures limit { remembered.new.limit ≡ remembered.old.limit }
{
    if snapshot.is_joined() {
        return Ok(());
    }
    remembered.add_all(nodes)
}

/// A search under way: a frontier, which has the least value found so far for each node, and the nodes whose legs are still to be relaxed.
///
/// It begins with `begin`, and continues with `take_bucket` and `settle` in turn, until no bucket is left. After an `Err` it is not used again.
#[derive(Drop)]
pub struct Search<F> {
    pub(crate) frontier: F,
}

impl<F: Frontier> Search<F> {
    /// A search that knows only the source, which is queued with 0, over a frontier without values.
    pub fn begin(snapshot: &Snapshot, source: u32, frontier: F) -> Result<Search<F>, RowError>
    where
        F: Drop,
        requires node { (1 ≤ source) × (source ≤ snapshot.now.nodes) }
        requires blank { F.tentative frontier ≡ replicate (snapshot.now.nodes + 1) None }
        requires suits { Suits snapshot.now (F.entries frontier) (F.accepts frontier) (F.width frontier) (F.span frontier) }
        ensures state { IfOk result (λ search. IsBetweenBuckets snapshot.now source (F.tentative search.frontier) (F.entries search.frontier)) }
        ensures live { IfOk result (λ search. AreLiveFrom snapshot.now 0 (F.entries search.frontier)) }
        ensures grouped { OnOk result (IsGrouped snapshot.now) }
        ensures suited { IfOk result (λ search. IsSuited snapshot.now (F.width search.frontier) (F.span search.frontier)) }
    {
        let mut search = Search { frontier };
        search.lower(top(snapshot), source, 0)?;
        Ok(search)
    }

    /// Takes the least bucket that is not empty. Returns its number, or nothing if no node is queued, and puts its nodes, each once, into the given list in
    /// place of what was there. If all queued values are in `ceil(L / delta) + 1` buckets in a row, where L is the greatest length of a leg, then they are
    /// in as many buckets from the taken one on. That holds in each search that knew only the source when it began.
    ///
    /// In the network of `examples/six.gr`, from node 1 with buckets of width 5, it gives bucket 0 with node 1, then 2 with node 3, then 3 with node 6, and
    /// then nothing. Between them, `settle` of bucket 2 takes nodes 5, 2 and 4.
    #[inline(always)]
    pub fn take_bucket(
        &mut self,
        _snapshot: &Snapshot,
        taken: &mut Vec<u32>,
    ) -> Result<Option<u64>, RowError>
        requires suited { HasWidth F.Frontier _snapshot.now self.old }
        ensures taken { IfOk result (λ bucket. TakesBucket F.Frontier _snapshot.now.delta taken.new.items self.old self.new bucket) }
        ensures live { IfOk result (λ bucket. TellsWindow F.Frontier _snapshot.now self.old self.new bucket) }
        ensures window { IfOk result (λ bucket. MatchOption bucket (Unit {0}) (λ bucket. HasRoomFrom F.Frontier _snapshot.now self.new bucket)) }
        ensures tentative { (F.tentative self.new.frontier) ≡ (F.tentative self.old.frontier) }
        ensures suited { HasWidth F.Frontier _snapshot.now self.new }
    {
        Ok(self.frontier.take_least_into(taken)?)
    }

    /// Settles bucket after bucket until none is left, with the given memory of nodes.
    #[inline(always)]
    pub(crate) fn settle_all<T: Team>(
        &mut self,
        alloc: Global,
        snapshot: &Snapshot,
        team: &T,
        remembered: &mut Remembered,
    ) -> Result<(), RowError>
        requires state { (source : ℕ) × IsBetween F.Frontier snapshot.now source self.old }
        requires suited { HasWidth F.Frontier snapshot.now self.old }
        requires none { remembered.old ≡ record { limit = snapshot.now.nodes + 1; nodes = [] } }
        ensures settled { OnOk result ((source : ℕ) → IsBetween F.Frontier snapshot.now source self.old → IsBetweenBuckets snapshot.now source (F.tentative self.new.frontier) map.empty) }
    {
        let mut taken = Vec::new(alloc);
        'buckets: while let Some(_bucket) = self.settle_next(
            alloc, snapshot, team, &mut taken, remembered,
        )? {}
        Ok(())
    }

    /// Takes the least bucket that is not empty and settles it. Returns its number, or nothing if no node is queued. Then all queued nodes are in later
    /// buckets. The list is used for the nodes that are taken.
    #[inline(always)]
    pub(crate) fn settle_next<T: Team>(
        &mut self,
        alloc: Global,
        snapshot: &Snapshot,
        team: &T,
        taken: &mut Vec<u32>,
        remembered: &mut Remembered,
    ) -> Result<Option<u64>, RowError>
        requires state { (source : ℕ) × IsBetween F.Frontier snapshot.now source self.old }
        requires suited { HasWidth F.Frontier snapshot.now self.old }
        requires none { remembered.old ≡ record { limit = snapshot.now.nodes + 1; nodes = [] } }
        ensures state { OnOk result (StaysBetween F.Frontier snapshot.now self.old self.new) }
        ensures later { IfOk result (λ bucket. MatchOption bucket (IsOver F.Frontier self.new) (λ bucket. IsBehind F.Frontier snapshot.now.delta bucket self.new)) }
        ensures falls { IfOk result (λ bucket. IfSome bucket (λ _. WeighsLess F.Frontier (top_of snapshot.now) self.old self.new)) }
        ensures suited { OnOk result (HasWidth F.Frontier snapshot.now self.new) }
        ensures none { OnOk result (remembered.new ≡ record { limit = snapshot.now.nodes + 1; nodes = [] }) }
    {
        let Some(bucket) = self.take_bucket(snapshot, taken)? else {
            return Ok(None);
        };
        self.settle(alloc, snapshot, team, bucket, taken, remembered)?;
        Ok(Some(bucket))
    }

    /// Settles a bucket, given the nodes that were taken from it: relaxes light legs while nodes come back into it, and then the heavy legs of all nodes
    /// that were taken, if any node has heavy legs. The bucket is empty afterwards. The list is used for the nodes that come back.
    #[inline(always)]
    pub fn settle<T: Team>(
        &mut self,
        alloc: Global,
        snapshot: &Snapshot,
        team: &T,
        bucket: u64,
        taken: &mut Vec<u32>,
        remembered: &mut Remembered,
    ) -> Result<(), RowError>
        requires search { IsUnderWay F.Frontier snapshot.now self.old bucket }
        requires light { OwesOnly F.Frontier snapshot.now Light self.old taken.old.items }
        requires heavy { OwesOnly F.Frontier snapshot.now Heavy self.old taken.old.items }
        requires taken { AreInBucket (F.tentative self.old.frontier) snapshot.now.delta bucket taken.old.items }
        requires emptied { IsEmptyAt F.Frontier snapshot.now.delta bucket self.old }
        requires none { remembered.old ≡ record { limit = snapshot.now.nodes + 1; nodes = [] } }
        requires window { HasRoomFrom F.Frontier snapshot.now self.old bucket }
        requires suited { HasWidth F.Frontier snapshot.now self.old }
        ensures settled { OnOk result (EmptiesBucket snapshot.now bucket (F.tentative self.old.frontier) (F.tentative self.new.frontier) (F.entries self.new.frontier) []) }
        ensures weight { OnOk result (WeighsNoMore F.Frontier (top_of snapshot.now) self.old self.new) }
        ensures none { OnOk result (remembered.new ≡ record { limit = snapshot.now.nodes + 1; nodes = [] }) }
        ensures live { OnOk result (StaysLive F.Frontier snapshot.now bucket self.old self.new) }
        ensures suited { OnOk result (HasWidth F.Frontier snapshot.now self.new) }
    {
        if is_alone(snapshot, taken) {
            self.relax(alloc, snapshot, team, bucket, taken, Part::Heavy)?;
            return Ok(());
        }
        self.empty(alloc, snapshot, team, bucket, taken, remembered)?;
        if remembered.nodes().is_empty() {
            return Ok(());
        }
        self.relax(
            alloc,
            snapshot,
            team,
            bucket,
            remembered.nodes(),
            Part::Heavy,
        )?;
        remembered.clear();
        Ok(())
    }

    /// Relaxes light legs while nodes come back into a bucket, and remembers all nodes that were taken from it, each once.
    #[inline(always)]
    fn empty<T: Team>(
        &mut self,
        alloc: Global,
        snapshot: &Snapshot,
        team: &T,
        bucket: u64,
        nodes: &mut Vec<u32>,
        remembered: &mut Remembered,
    ) -> Result<(), RowError>
        requires search { IsUnderWay F.Frontier snapshot.now self.old bucket }
        requires light { OwesOnly F.Frontier snapshot.now Light self.old nodes.old.items }
        requires heavy { OwesOnly F.Frontier snapshot.now Heavy self.old nodes.old.items }
        requires nodes { AreInBucket (F.tentative self.old.frontier) snapshot.now.delta bucket nodes.old.items }
        requires emptied { IsEmptyAt F.Frontier snapshot.now.delta bucket self.old }
        requires none { remembered.old ≡ record { limit = snapshot.now.nodes + 1; nodes = [] } }
        requires window { HasRoomFrom F.Frontier snapshot.now self.old bucket }
        requires suited { HasWidth F.Frontier snapshot.now self.old }
        ensures emptied { OnOk result (EmptiesBucket snapshot.now bucket (F.tentative self.old.frontier) (F.tentative self.new.frontier) (F.entries self.new.frontier) remembered.new.nodes) }
        ensures weight { OnOk result (WeighsNoMore F.Frontier (top_of snapshot.now) self.old self.new) }
        ensures limit { OnOk result (remembered.new.limit ≡ snapshot.now.nodes + 1) }
        ensures window { OnOk result (HasRoomFrom F.Frontier snapshot.now self.new bucket) }
        ensures live { OnOk result (StaysLive F.Frontier snapshot.now bucket self.old self.new) }
        ensures suited { OnOk result (HasWidth F.Frontier snapshot.now self.new) }
    {
        'phases: while !nodes.is_empty() {
            remember(snapshot, remembered, nodes)?;
            self.phase(alloc, snapshot, team, bucket, nodes)?;
        }
        Ok(())
    }

    /// Relaxes the light legs of nodes that were taken from a bucket. Takes out the nodes that came back into it, if there are any, and puts them in the
    /// list in place of the former.
    #[inline(always)]
    fn phase<T: Team>(
        &mut self,
        alloc: Global,
        snapshot: &Snapshot,
        team: &T,
        bucket: u64,
        nodes: &mut Vec<u32>,
    ) -> Result<(), RowError>
        requires search { IsUnderWay F.Frontier snapshot.now self.old bucket }
        requires light { OwesOnly F.Frontier snapshot.now Light self.old nodes.old.items }
        requires nodes { AreInBucket (F.tentative self.old.frontier) snapshot.now.delta bucket nodes.old.items }
        requires emptied { IsEmptyAt F.Frontier snapshot.now.delta bucket self.old }
        requires window { HasRoomFrom F.Frontier snapshot.now self.old bucket }
        requires suited { HasWidth F.Frontier snapshot.now self.old }
        ensures phase { OnOk result (EndsPhase snapshot.now bucket (F.tentative self.old.frontier) (F.entries self.old.frontier) (F.tentative self.new.frontier) (F.entries self.new.frontier) nodes.new.items) }
        ensures weight { OnOk result (WeighsNoMore F.Frontier (top_of snapshot.now) self.old self.new) }
        ensures emptied { OnOk result (IsEmptyAt F.Frontier snapshot.now.delta bucket self.new) }
        ensures falls { OnOk result (0 < vec_len nodes.new → WeighsLess F.Frontier (top_of snapshot.now) self.old self.new) }
        ensures window { OnOk result (HasRoomFrom F.Frontier snapshot.now self.new bucket) }
        ensures live { OnOk result (StaysLive F.Frontier snapshot.now bucket self.old self.new) }
        ensures suited { OnOk result (HasWidth F.Frontier snapshot.now self.new) }
    {
        if self.relax(alloc, snapshot, team, bucket, nodes, Part::Light)? {
            self.frontier.take_least_into(nodes)?;
        } else {
            nodes.clear();
        }
        Ok(())
    }

    /// Relaxes one part of the legs of the nodes, whose values are in the given bucket, and returns whether a node came into that bucket.
    #[inline(always)]
    pub(crate) fn relax<T: Team>(
        &mut self,
        alloc: Global,
        snapshot: &Snapshot,
        team: &T,
        bucket: u64,
        nodes: &[u32],
        part: Part,
    ) -> Result<bool, RowError>
        requires search { IsUnderWay F.Frontier snapshot.now self.old bucket }
        requires nodes { AreInBucket (F.tentative self.old.frontier) snapshot.now.delta bucket nodes.now }
        requires once { part ≡ Heavy → IsDistinct (λ a b. a == b) nodes.now }
        requires window { HasRoomFrom F.Frontier snapshot.now self.old bucket }
        requires suited { HasWidth F.Frontier snapshot.now self.old }
        ensures search { OnOk result (IsUnderWay F.Frontier snapshot.now self.new bucket) }
        ensures reached { OnOk result (StaysReached F.Frontier snapshot.now self.old self.new) }
        ensures met { OnOk result (Meets F.Frontier (top_of snapshot.now) (requests_of snapshot.now nodes.now (F.tentative self.old.frontier) part) self.old self.new) }
        ensures stays { OnOk result (KeepsInBucket F.Frontier snapshot.now bucket self.old self.new) }
        ensures came_back { IfOk result (λ came_back. OnTrue came_back (IsQueuedAt F.Frontier snapshot.now.delta bucket self.new)) }
        ensures none_came { IfOk result (λ came_back. OnFalse came_back (KeepsEmpty F.Frontier snapshot.now.delta bucket self.old self.new)) }
        ensures weight { OnOk result (WeighsNoMore F.Frontier (top_of snapshot.now) self.old self.new) }
        ensures window { OnOk result (HasRoomFrom F.Frontier snapshot.now self.new bucket) }
        ensures live { OnOk result (StaysLive F.Frontier snapshot.now bucket self.old self.new) }
        ensures suited { OnOk result (HasWidth F.Frontier snapshot.now self.new) }
        ensures grouped { OnOk result (IsGrouped snapshot.now) }
    {
        let top = top(snapshot);
        let came_back = self.ask(alloc, snapshot, team, top, bucket, nodes, part)?;
        Ok(came_back)
    }

    /// Meets the requests of the nodes, and returns whether a node came into the given bucket. The requests of a single node need neither a list nor a
    /// team.
    #[inline(always)]
    fn ask<T: Team>(
        &mut self,
        alloc: Global,
        snapshot: &Snapshot,
        team: &T,
        top: u64,
        bucket: u64,
        nodes: &[u32],
        part: Part,
    ) -> Result<bool, RowError>
        requires top { top ≡ top_of snapshot.now }
        requires small { top ≤ 2 ^ 56 }
        requires grouped { IsGrouped snapshot.now }
        requires search { IsUnderWay F.Frontier snapshot.now self.old bucket }
        requires nodes { AreInBucket (F.tentative self.old.frontier) snapshot.now.delta bucket nodes.now }
        requires window { HasRoomFrom F.Frontier snapshot.now self.old bucket }
        requires width { F.width self.old.frontier ≡ snapshot.now.delta }
        ensures met { OnOk result (Meets F.Frontier top (requests_of snapshot.now nodes.now (F.tentative self.old.frontier) part) self.old self.new) }
        ensures came_back { IfOk result (λ came_back. OnTrue came_back (IsQueuedAt F.Frontier (F.width self.old.frontier) bucket self.new)) }
        ensures none_came { IfOk result (λ came_back. OnFalse came_back (KeepsEmpty F.Frontier (F.width self.old.frontier) bucket self.old self.new)) }
        ensures weight { OnOk result (WeighsNoMore F.Frontier top self.old self.new) }
        ensures accepts { OnOk result ((v : ℕ) → F.accepts self.old.frontier v → F.accepts self.new.frontier v) }
        ensures width { OnOk result (F.width self.new.frontier ≡ F.width self.old.frontier) }
        ensures span { OnOk result (F.span self.new.frontier ≡ F.span self.old.frontier) }
    {
        if let [node] = nodes {
            let value = self.frontier.value(*node).unwrap_or(0);
            return self.meet_legs(top, bucket, value, snapshot.legs(*node, part));
        }
        let mut requests = self.frontier.requests(alloc, snapshot, team, nodes, part)?;
        sift(alloc, &mut requests, &self.frontier, top)?;
        self.meet(top, bucket, &requests)
    }

    /// Meets the requests of one node, whose value is given, leg by leg, and returns whether a node came into the given bucket.
    #[inline(always)]
    fn meet_legs(
        &mut self,
        top: u64,
        bucket: u64,
        value: u64,
        legs: &[Leg],
    ) -> Result<bool, RowError>
        requires nodes { All (λ r. (1 ≤ r.0) × (r.0 < length (F.tentative self.old.frontier))) (requests_by value legs.now) }
        requires fits { All (λ r. F.accepts self.old.frontier r.1) (requests_by value legs.now) }
        requires above { All (λ r. bucket ≤ r.1 / F.width self.old.frontier) (requests_by value legs.now) }
        requires small { (top ≤ 2 ^ 56) × (value < 2 ^ 56) }
        ensures met { OnOk result (Meets F.Frontier top (requests_by value legs.now) self.old self.new) }
        ensures came_back { IfOk result (λ came_back. OnTrue came_back (IsQueuedAt F.Frontier (F.width self.old.frontier) bucket self.new)) }
        ensures none_came { IfOk result (λ came_back. OnFalse came_back (KeepsEmpty F.Frontier (F.width self.old.frontier) bucket self.old self.new)) }
        ensures weight { OnOk result (WeighsNoMore F.Frontier top self.old self.new) }
        ensures accepts { OnOk result ((v : ℕ) → F.accepts self.old.frontier v → F.accepts self.new.frontier v) }
        ensures width { OnOk result (F.width self.new.frontier ≡ F.width self.old.frontier) }
        ensures span { OnOk result (F.span self.new.frontier ≡ F.span self.old.frontier) }
    {
        let delta = u64::from(self.frontier.delta());
        let start = bucket.saturating_mul(delta);
        let mut came_back = false;
        for leg in legs {
            let through = value + u64::from(leg.length);
            if self.meet_one(top, bucket, start, delta, leg.head, through)? {
                came_back = true;
            }
        }
        Ok(came_back)
    }

    /// Meets the requests in order, and returns whether a node came into the given bucket.
    fn meet(&mut self, top: u64, bucket: u64, requests: &[(u32, u64)]) -> Result<bool, RowError>
        requires nodes { All (λ r. (1 ≤ r.0) × (r.0 < length (F.tentative self.old.frontier))) requests.now }
        requires fits { All (λ r. F.accepts self.old.frontier r.1) requests.now }
        requires above { All (λ r. bucket ≤ r.1 / F.width self.old.frontier) requests.now }
        requires small { top ≤ 2 ^ 56 }
        ensures met { OnOk result (Meets F.Frontier top requests.now self.old self.new) }
        ensures came_back { IfOk result (λ came_back. OnTrue came_back (IsQueuedAt F.Frontier (F.width self.old.frontier) bucket self.new)) }
        ensures none_came { IfOk result (λ came_back. OnFalse came_back (KeepsEmpty F.Frontier (F.width self.old.frontier) bucket self.old self.new)) }
        ensures weight { OnOk result (WeighsNoMore F.Frontier top self.old self.new) }
        ensures accepts { OnOk result ((v : ℕ) → F.accepts self.old.frontier v → F.accepts self.new.frontier v) }
        ensures width { OnOk result (F.width self.new.frontier ≡ F.width self.old.frontier) }
        ensures span { OnOk result (F.span self.new.frontier ≡ F.span self.old.frontier) }
    {
        let delta = u64::from(self.frontier.delta());
        let start = bucket.saturating_mul(delta);
        let mut came_back = false;
        for request in requests {
            let (node, value) = *request;
            if self.meet_one(top, bucket, start, delta, node, value)? {
                came_back = true;
            }
        }
        Ok(came_back)
    }

    /// Meets one request, and returns whether its node came into the given bucket, whose start and width are given.
    #[inline(always)]
    fn meet_one(
        &mut self,
        top: u64,
        bucket: u64,
        start: u64,
        delta: u64,
        node: u32,
        value: u64,
    ) -> Result<bool, RowError>
        requires width { delta ≡ F.width self.old.frontier }
        requires positive { 1 ≤ delta }
        requires start { start ≡ min (bucket * delta) u64.MAX }
        requires node { (1 ≤ node) × (node < length (F.tentative self.old.frontier)) }
        requires fits { F.accepts self.old.frontier value }
        requires above { bucket ≤ value / F.width self.old.frontier }
        requires small { top ≤ 2 ^ 56 }
        ensures met { OnOk result (MeetsOneMore F.Frontier top (node, value) self.old self.new) }
        ensures came_back { IfOk result (λ came_back. OnTrue came_back (IsQueuedAt F.Frontier (F.width self.old.frontier) bucket self.new)) }
        ensures stays { OnOk result (KeepsQueued F.Frontier (F.width self.old.frontier) bucket self.old self.new) }
        ensures none_came { IfOk result (λ came_back. OnFalse came_back (KeepsEmpty F.Frontier (F.width self.old.frontier) bucket self.old self.new)) }
        ensures weight { OnOk result (WeighsNoMore F.Frontier top self.old self.new) }
        ensures accepts { OnOk result ((v : ℕ) → F.accepts self.old.frontier v → F.accepts self.new.frontier v) }
        ensures width { OnOk result (F.width self.new.frontier ≡ F.width self.old.frontier) }
        ensures span { OnOk result (F.span self.new.frontier ≡ F.span self.old.frontier) }
        ensures places { OnOk result (length (F.tentative self.new.frontier) ≡ length (F.tentative self.old.frontier)) }
    {
        if !self.lower(top, node, value)? {
            return Ok(false);
        }
        Ok(is_near(start, value, delta))
    }

    /// Lowers a node's value to the given one, if that is below `top` and the present value, and queues the node. Returns whether it did.
    #[inline(always)]
    pub(crate) fn lower(&mut self, top: u64, node: u32, value: u64) -> Result<bool, RowError>
        requires node { (1 ≤ node) × (node < length (F.tentative self.old.frontier)) }
        requires fits { F.accepts self.old.frontier value }
        requires small { top ≤ 2 ^ 56 }
        ensures lowered { IfOk result (λ lowers. MatchBool lowers (value < value_or top (F.tentative self.old.frontier) node) (value_or top (F.tentative self.old.frontier) node ≤ value)) }
        ensures tentative { IfOk result (λ lowers. MatchBool lowers ((F.tentative self.new.frontier) ≡ slice_set (F.tentative self.old.frontier) node (Some value)) ((F.tentative self.new.frontier) ≡ (F.tentative self.old.frontier))) }
        ensures queued { IfOk result (λ lowers. QueuesWhere F.Frontier lowers node value self.old self.new) }
        ensures accepts { (v : ℕ) → F.accepts self.old.frontier v → F.accepts self.new.frontier v }
        ensures width { F.width self.new.frontier ≡ F.width self.old.frontier }
        ensures span { F.span self.new.frontier ≡ F.span self.old.frontier }
    {
        Ok(self.frontier.lower(top, node, value)?)
    }
}
