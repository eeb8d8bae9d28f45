// The rules by which commands are judged, given what the network says of the arc or the node that a command names.

ghost use Rattle.std.specs.Prelude.{◌≡◌, ◌&&◌, ℕ, length};
ghost use Rattle.roadnet.specs.declared.commands.Command.TheVariants.{Set as set, Close as close, Reopen as reopen, Mark as mark, Unmark as unmark, Lay as lay};
ghost use Rattle.roadnet.specs.Net.{Net};
ghost use Rattle.roadnet.specs.Step.{is_node, is_landmark, refusal_of};
ghost use Rattle.roadnet.specs.Batches.{opened_at};
ghost use Rattle.roadnet.specs.Judging.{IsVerdict};

use crate::networks::{LONGEST_ARC, MOST_LANDMARKS};
use crate::refusals::Refusal;

/// Whether an arc may get this length. `opened` says whether the arc is open, if there is one.
pub fn judge_set(opened: Option<bool>, length: u64) -> Result<(), Refusal>
    ensures { (net : Net) (k : ℕ) → opened_at net k ≡ opened → IsVerdict (refusal_of net (set k length)) result }
{
    if opened.is_none() {
        return Err(Refusal::NoSuchArc);
    }
    if length > u64::from(LONGEST_ARC) {
        return Err(Refusal::LengthRange);
    }
    Ok(())
}

/// Whether an arc may be closed.
pub fn judge_close(opened: Option<bool>) -> Result<(), Refusal>
    ensures { (net : Net) (k : ℕ) → opened_at net k ≡ opened → IsVerdict (refusal_of net (close k)) result }
{
    match opened {
        None => Err(Refusal::NoSuchArc),
        Some(true) => Ok(()),
        Some(false) => Err(Refusal::AlreadyClosed),
    }
}

/// Whether an arc may be opened again.
pub fn judge_reopen(opened: Option<bool>) -> Result<(), Refusal>
    ensures { (net : Net) (k : ℕ) → opened_at net k ≡ opened → IsVerdict (refusal_of net (reopen k)) result }
{
    match opened {
        None => Err(Refusal::NoSuchArc),
        Some(true) => Err(Refusal::AlreadyOpen),
        Some(false) => Ok(()),
    }
}

/// Whether the node of a number may become a landmark, if there are `count` landmarks.
pub fn judge_mark(there: bool, marked: bool, count: u64) -> Result<(), Refusal>
    ensures { (net : Net) (x : ℕ) → is_node net x ≡ there → is_landmark net x ≡ marked → length net.landmarks ≡ count → IsVerdict (refusal_of net (mark x)) result }
{
    if !there {
        return Err(Refusal::NoSuchNode);
    }
    if marked {
        return Err(Refusal::AlreadyLandmark);
    }
    if count >= MOST_LANDMARKS as u64 {
        return Err(Refusal::TooManyLandmarks);
    }
    Ok(())
}

/// Whether the node of a number may stop being a landmark.
pub fn judge_unmark(there: bool, marked: bool) -> Result<(), Refusal>
    ensures { (net : Net) (x : ℕ) → is_node net x ≡ there → is_landmark net x ≡ marked → IsVerdict (refusal_of net (unmark x)) result }
{
    if !there {
        return Err(Refusal::NoSuchNode);
    }
    if !marked {
        return Err(Refusal::NotALandmark);
    }
    Ok(())
}

/// Whether an arc of this length may be laid between two numbers, if there are `count` arcs. `there` says whether both are nodes.
pub fn judge_lay(there: bool, count: u64, room: u64, span: u64) -> Result<(), Refusal>
    ensures { (net : Net) (t h : ℕ) → (is_node net t && is_node net h) ≡ there → length net.arcs ≡ count → net.room ≡ room → IsVerdict (refusal_of net (lay t h span)) result }
{
    if span > u64::from(LONGEST_ARC) {
        return Err(Refusal::LengthRange);
    }
    if !there {
        return Err(Refusal::NoSuchNode);
    }
    if count >= room {
        return Err(Refusal::NoRoom);
    }
    Ok(())
}
