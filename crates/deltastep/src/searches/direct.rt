//! Buckets whose nodes are relaxed one after another, as soon as they are taken.

ghost use Rattle.std.specs.Prelude.{ℕ, [], ◌∷◌, IfOk, IfSome, MatchOption, OnOk};
ghost use Rattle.std.specs.Bool.{OnTrue, OnFalse};
ghost use Rattle.snapshot.specs.declared.legs.Part.{Part};
ghost use Rattle.snapshot.specs.declared.legs.Part.TheVariants.{Light, Heavy};
ghost use Rattle.deltastep.specs.Search.{AreInBucket, top_of, weight};
ghost use Rattle.deltastep.specs.Stepping.{IsUnderWay, OwesOnly, HasWidth, HasRoomFrom, IsBetween, StaysBetween, StaysReached, KeepsInBucket, WeighsNoMore, WeighsLess, KeepsEmpty, RelaxesNode, IsBehind, IsOver};

use crate::rows::distances::RowError;
use crate::searches::search::Search;
use frontier::Frontier;
use relax::Team;
use snapshot::{Part, Snapshot};
use std::alloc::Global;

impl<F: Frontier> Search<F> {
    /// Relaxes all legs of a node whose value is in the given bucket, and returns whether a node came into that bucket.
    #[inline(always)]
    fn relax_legs<T: Team>(
        &mut self,
        alloc: Global,
        snapshot: &Snapshot,
        team: &T,
        bucket: u64,
        node: u32,
    ) -> Result<bool, RowError>
        requires search { IsUnderWay F.Frontier snapshot.now self.old bucket }
        requires node { AreInBucket (F.tentative self.old.frontier) snapshot.now.delta bucket (node ∷ []) }
        requires window { HasRoomFrom F.Frontier snapshot.now self.old bucket }
        requires suited { HasWidth F.Frontier snapshot.now self.old }
        ensures search { OnOk result (IsUnderWay F.Frontier snapshot.now self.new bucket) }
        ensures reached { OnOk result (StaysReached F.Frontier snapshot.now self.old self.new) }
        ensures relaxed { OnOk result (RelaxesNode F.Frontier snapshot.now node self.old self.new) }
        ensures stays { OnOk result (KeepsInBucket F.Frontier snapshot.now bucket self.old self.new) }
        ensures none_came { IfOk result (λ came_back. OnFalse came_back (KeepsEmpty F.Frontier snapshot.now.delta bucket self.old self.new)) }
        ensures weight { OnOk result (WeighsNoMore F.Frontier (top_of snapshot.now) self.old self.new) }
        ensures window { OnOk result (HasRoomFrom F.Frontier snapshot.now self.new bucket) }
        ensures suited { OnOk result (HasWidth F.Frontier snapshot.now self.new) }
    {
        let came_back = self.relax(alloc, snapshot, team, bucket, &[node], Part::Light)?;
        self.relax(alloc, snapshot, team, bucket, &[node], Part::Heavy)?;
        Ok(came_back)
    }

    /// Relaxes all legs of the nodes that were taken from a bucket, one node after another, and returns whether a node came into that bucket.
    #[inline(always)]
    fn relax_taken<T: Team>(
        &mut self,
        alloc: Global,
        snapshot: &Snapshot,
        team: &T,
        bucket: u64,
        nodes: &[u32],
    ) -> Result<bool, RowError>
        requires search { IsUnderWay F.Frontier snapshot.now self.old bucket }
        requires owed { (part : Part) → OwesOnly F.Frontier snapshot.now part self.old nodes.now }
        requires nodes { AreInBucket (F.tentative self.old.frontier) snapshot.now.delta bucket nodes.now }
        requires window { HasRoomFrom F.Frontier snapshot.now self.old bucket }
        requires suited { HasWidth F.Frontier snapshot.now self.old }
        ensures search { OnOk result (IsUnderWay F.Frontier snapshot.now self.new bucket) }
        ensures reached { OnOk result (StaysReached F.Frontier snapshot.now self.old self.new) }
        ensures relaxed { OnOk result ((part : Part) → OwesOnly F.Frontier snapshot.now part self.new []) }
        ensures none_came { IfOk result (λ came_back. OnFalse came_back (KeepsEmpty F.Frontier snapshot.now.delta bucket self.old self.new)) }
        ensures weight { OnOk result (WeighsNoMore F.Frontier (top_of snapshot.now) self.old self.new) }
        ensures suited { OnOk result (HasWidth F.Frontier snapshot.now self.new) }
    {
        let mut came_back = false;
        for &node in nodes {
            if self.relax_legs(alloc, snapshot, team, bucket, node)? {
                came_back = true;
            }
        }
        Ok(came_back)
    }

    /// Takes the least bucket that is not empty and relaxes all legs of its nodes. Returns its number, and whether it is settled, so that all queued nodes
    /// are in later buckets; or nothing if no node is queued. If it is not settled, nodes came back into it, and the next such call takes them. The list is
    /// used for the nodes that are taken.
    ///
    /// A node that comes back has its heavy legs relaxed once more; delta-stepping puts these off. But no request is written down, and no node is
    /// remembered. So this is faster if buckets hold few nodes.
    #[inline(always)]
    pub(crate) fn relax_next<T: Team>(
        &mut self,
        alloc: Global,
        snapshot: &Snapshot,
        team: &T,
        taken: &mut Vec<u32>,
    ) -> Result<Option<(u64, bool)>, RowError>
        requires state { (source : ℕ) × IsBetween F.Frontier snapshot.now source self.old }
        requires suited { HasWidth F.Frontier snapshot.now self.old }
        ensures state { OnOk result (StaysBetween F.Frontier snapshot.now self.old self.new) }
        ensures over { IfOk result (λ found. MatchOption found (IsOver F.Frontier self.new) (λ found. OnTrue found.1 (IsBehind F.Frontier snapshot.now.delta found.0 self.new))) }
        ensures falls { IfOk result (λ found. IfSome found (λ _. WeighsLess F.Frontier (top_of snapshot.now) self.old self.new)) }
        ensures suited { OnOk result (HasWidth F.Frontier snapshot.now self.new) }
    {
        let Some(bucket) = self.take_bucket(snapshot, taken)? else {
            return Ok(None);
        };
        let came_back = self.relax_taken(alloc, snapshot, team, bucket, taken)?;
        Ok(Some((bucket, !came_back)))
    }
}
