//! What remains of a row after a change of some arcs, and which nodes lose their values.

ghost use Rattle.std.specs.Prelude.{◌≡◌, ◌+◌, ◌≤◌, ◌<◌, ◌⊎◌, ◌↔◌, [], Some, IsTrue, OnOk, IfOk, IfSome, All, Contains, length};
ghost use Rattle.std.specs.FinMap as map;
ghost use Rattle.std.specs.Bool.{OnTrue};
ghost use Rattle.roadnet.specs.Net.{Net};
ghost use Rattle.roadnet.specs.Walks.{RowOf, distance_at};
ghost use Rattle.snapshot.specs.Groups.{IsSnapshotOf};
ghost use Rattle.deltastep.specs.Search.{AreReached, IsSearch};
ghost use Rattle.deltastep.specs.Repair.{AreListed, AreChanged, HasLeg, IsLost, IsKeptOf, LeadToLost, AreThereOrLost, AreGoneLost, IsSpread, IsClosedBut, Thins};

use crate::rows::distances::{Distances, RowError};
use relax::SharedTentative;
use snapshot::{Leg, Part, Snapshot};
use std::alloc::Global;

/// Whether the leg is among these.
fn is_among(legs: &[Leg], leg: &Leg) -> bool
    ensures { OnTrue result (Contains legs.now leg.now) }
{
    for other in legs {
        if other.head == leg.head && other.length == leg.length {
            return true;
        }
    }
    false
}

/// Whether the node has the leg.
pub(crate) fn has_leg(snapshot: &Snapshot, node: u32, leg: &Leg) -> bool
    ensures { OnTrue result (HasLeg snapshot.now node leg.now) }
{
    if is_among(snapshot.legs(node, Part::Light), leg) {
        return true;
    }
    is_among(snapshot.legs(node, Part::Heavy), leg)
}

/// Whether the distance is the sum of the value and the length.
pub(crate) fn is_sum(distance: Option<u64>, value: u64, length: u32) -> bool
    ensures { IsTrue result ↔ (distance ≡ Some (value + length)) }
{
    match distance {
        Some(far) => value <= far && far - value == u64::from(length),
        None => false,
    }
}

/// The values of a row that remain, and the nodes that lost theirs.
#[derive(Drop)]
pub(crate) struct Remains {
    pub(crate) tentative: SharedTentative,
    pub(crate) lost: Vec<u32>,
}

impl Remains {
    /// Removes a node's value, if it has one and is not the source.
    #[inline(always)]
    fn lose(&mut self, source: u32, node: u32) -> Result<(), RowError>
        requires node { (1 ≤ node) × (node < length self.old.tentative) }
        ensures thins { OnOk result (Thins source self.old.tentative self.old.lost.items self.new.tentative self.new.lost.items) }
        ensures lost { OnOk result (IsLost source self.new.tentative node) }
    {
        if node == source || self.tentative.get(node).is_none() {
            return Ok(());
        }
        if self.lost.push(node).is_err() {
            return Err(RowError::OutOfMemory);
        }
        self.tentative.clear(node)?;
        Ok(())
    }

    /// Removes the value of the leg's head, if the leg is tight.
    #[inline(always)]
    fn lose_tight(
        &mut self,
        source: u32,
        row: &Distances,
        value: u64,
        leg: &Leg,
    ) -> Result<(), RowError>
        requires head { (1 ≤ leg.now.head) × (leg.now.head < length self.old.tentative) }
        ensures thins { OnOk result (Thins source self.old.tentative self.old.lost.items self.new.tentative self.new.lost.items) }
        ensures lost { OnOk result (distance_at row.now leg.now.head ≡ Some (value + leg.now.length) → IsLost source self.new.tentative leg.now.head) }
    {
        if !is_sum(row.get(u64::from(leg.head)), value, leg.length) {
            return Ok(());
        }
        self.lose(source, leg.head)
    }

    /// Removes the value of the leg's head, if the leg is tight and the node no longer has such a leg.
    #[inline(always)]
    fn lose_gone(
        &mut self,
        after: &Snapshot,
        source: u32,
        row: &Distances,
        node: u32,
        value: u64,
        leg: &Leg,
    ) -> Result<(), RowError>
        requires head { (1 ≤ leg.now.head) × (leg.now.head < length self.old.tentative) }
        ensures thins { OnOk result (Thins source self.old.tentative self.old.lost.items self.new.tentative self.new.lost.items) }
        ensures lost { OnOk result (distance_at row.now leg.now.head ≡ Some (value + leg.now.length) → HasLeg after.now node leg.now ⊎ IsLost source self.new.tentative leg.now.head) }
    {
        if has_leg(after, node, leg) {
            return Ok(());
        }
        self.lose_tight(source, row, value, leg)
    }

    /// Removes the values of the heads of those legs that are tight.
    #[inline(always)]
    fn lose_heads(
        &mut self,
        source: u32,
        row: &Distances,
        value: u64,
        legs: &[Leg],
    ) -> Result<(), RowError>
        requires heads { All (λ leg. (1 ≤ leg.head) × (leg.head < length self.old.tentative)) legs.now }
        ensures thins { OnOk result (Thins source self.old.tentative self.old.lost.items self.new.tentative self.new.lost.items) }
        ensures lead { OnOk result (LeadToLost source row.now self.new.tentative value legs.now) }
    {
        for leg in legs {
            self.lose_tight(source, row, value, leg)?;
        }
        Ok(())
    }

    /// Removes the values of the heads of those legs of a node that are tight and that the node no longer has.
    #[inline(always)]
    fn lose_gone_heads(
        &mut self,
        after: &Snapshot,
        source: u32,
        row: &Distances,
        node: u32,
        value: u64,
        legs: &[Leg],
    ) -> Result<(), RowError>
        requires heads { All (λ leg. (1 ≤ leg.head) × (leg.head < length self.old.tentative)) legs.now }
        ensures thins { OnOk result (Thins source self.old.tentative self.old.lost.items self.new.tentative self.new.lost.items) }
        ensures lead { OnOk result (AreThereOrLost after.now source row.now self.new.tentative node value legs.now) }
    {
        for leg in legs {
            self.lose_gone(after, source, row, node, value, leg)?;
        }
        Ok(())
    }

    /// Removes the values that depend on tight legs of this node that are gone.
    #[inline(always)]
    fn lose_behind_gone(
        &mut self,
        before: &Snapshot,
        after: &Snapshot,
        source: u32,
        row: &Distances,
        node: u32,
    ) -> Result<(), RowError>
        requires places { length self.old.tentative ≡ before.now.nodes + 1 }
        ensures thins { OnOk result (Thins source self.old.tentative self.old.lost.items self.new.tentative self.new.lost.items) }
        ensures gone { OnOk result (AreGoneLost before.now after.now source row.now self.new.tentative node) }
    {
        let Some(value) = row.get(u64::from(node)) else {
            return Ok(());
        };
        self.lose_gone_heads(
            after,
            source,
            row,
            node,
            value,
            before.legs(node, Part::Light),
        )?;
        self.lose_gone_heads(
            after,
            source,
            row,
            node,
            value,
            before.legs(node, Part::Heavy),
        )?;
        Ok(())
    }

    /// Removes the values that depend on tight legs of these nodes that are gone.
    fn lose_changed(
        &mut self,
        before: &Snapshot,
        after: &Snapshot,
        source: u32,
        row: &Distances,
        changed: &[u32],
    ) -> Result<(), RowError>
        requires places { length self.old.tentative ≡ before.now.nodes + 1 }
        ensures thins { OnOk result (Thins source self.old.tentative self.old.lost.items self.new.tentative self.new.lost.items) }
        ensures gone { OnOk result (All (AreGoneLost before.now after.now source row.now self.new.tentative) changed.now) }
    {
        for &node in changed {
            self.lose_behind_gone(before, after, source, row, node)?;
        }
        Ok(())
    }

    /// Removes the values that depend on tight legs of this node, which lost its own.
    #[inline(always)]
    fn lose_behind(
        &mut self,
        after: &Snapshot,
        source: u32,
        row: &Distances,
        node: u32,
    ) -> Result<(), RowError>
        requires places { length self.old.tentative ≡ after.now.nodes + 1 }
        ensures thins { OnOk result (Thins source self.old.tentative self.old.lost.items self.new.tentative self.new.lost.items) }
        ensures spread { OnOk result (IsSpread after.now source row.now self.new.tentative node) }
    {
        let Some(value) = row.get(u64::from(node)) else {
            return Ok(());
        };
        self.lose_heads(source, row, value, after.legs(node, Part::Light))?;
        self.lose_heads(source, row, value, after.legs(node, Part::Heavy))?;
        Ok(())
    }

    /// Removes all values that depend on tight legs of nodes that lost theirs, in the order of the list, unless these are `most` or more. Returns whether the
    /// legs of each are examined.
    fn spread(
        &mut self,
        after: &Snapshot,
        source: u32,
        row: &Distances,
        most: u32,
    ) -> Result<bool, RowError>
        requires places { length self.old.tentative ≡ after.now.nodes + 1 }
        requires closed { IsClosedBut after.now source row.now self.old.tentative self.old.lost.items }
        ensures thins { OnOk result (Thins source self.old.tentative self.old.lost.items self.new.tentative self.new.lost.items) }
        ensures closed { IfOk result (λ done. OnTrue done (IsClosedBut after.now source row.now self.new.tentative [])) }
    {
        for place in 0..most as usize {
            if place >= self.lost.len() {
                return Ok(true);
            }
            let node = self.lost[place];
            self.lose_behind(after, source, row, node)?;
        }
        Ok(false)
    }
}

/// The values of a row before a change that are certainly still lengths of walks, and the nodes that lost theirs; or nothing if too many did, or if the row is
/// not kept in words of 4 bytes.
pub(crate) fn remaining(
    alloc: Global,
    before: &Snapshot,
    after: &Snapshot,
    source: u32,
    row: &Distances,
    changed: &[u32],
) -> Result<Option<Remains>, RowError>
    requires node { (1 ≤ source) × (source ≤ after.now.nodes) }
    requires nodes { before.now.nodes ≡ after.now.nodes }
    requires row { (net : Net) × IsSnapshotOf net before.now × RowOf net source row.now }
    requires changed { AreChanged before.now after.now changed.now }
    ensures search { IfOk result (λ left. IfSome left (λ remains. IsSearch after.now remains.tentative map.empty 0)) }
    ensures reached { IfOk result (λ left. IfSome left (λ remains. AreReached after.now source remains.tentative)) }
    ensures kept { IfOk result (λ left. IfSome left (λ remains. IsKeptOf source row.now remains.tentative)) }
    ensures listed { IfOk result (λ left. IfSome left (λ remains. AreListed row.now remains.tentative remains.lost.items)) }
{
    let Some(tentative) = row.to_tentative()? else {
        return Ok(None);
    };
    let mut remains = Remains {
        tentative,
        lost: Vec::new(alloc),
    };
    remains.lose_changed(before, after, source, row, changed)?;
    if !remains.spread(after, source, row, before.nodes() / 4)? {
        return Ok(None);
    }
    Ok(Some(remains))
}
