// Changes of arcs, noted so that they can be undone.

ghost use Rattle.std.specs.Prelude.{◌≡◌, ◌-◌, ◌<◌, ◌++◌, [], ◌∷◌, OnOk, All, fold, length, set};
ghost use Rattle.roadnet.specs.Net.{nth};
ghost use Rattle.roadnet.specs.Batches.{changed_arcs, HasFitNumbers};
ghost use Rattle.roadnet.specs.Groups.{commands_of};
ghost use Rattle.roadnet.specs.Undoing.{restored};

use crate::arcs::RoadArc;
use crate::commands::Command;
use crate::groups::Group;
use std::alloc::AllocError;

/// What undoes one change of a list of arcs.
#[derive(Clone, Copy, Debug)]
pub enum Earlier {
    /// The arc that was at this place.
    Was { place: usize, arc: RoadArc },
    /// An arc was added.
    Added,
}

/// The arc of number `k`, if there is one.
fn arc_of(arcs: &[RoadArc], k: u64) -> Option<RoadArc>
    ensures { result ≡ nth arcs.now k }
{
    if k == 0 || k > arcs.len() as u64 {
        return None;
    }
    Some(arcs[(k - 1) as usize])
}

/// Replaces an arc, and notes the old one.
fn replace_arc(
    arcs: &mut Vec<RoadArc>,
    notes: &mut Vec<Earlier>,
    place: usize,
    arc: RoadArc,
) -> Result<(), AllocError>
    requires { place < length arcs.old.items }
    ensures ok { OnOk result (arcs.new.items ≡ set arcs.old.items place arc) }
    ensures back { restored notes.new.items arcs.new.items ≡ restored notes.old.items arcs.old.items }
{
    let was = arcs[place];
    notes.push(Earlier::Was { place, arc: was })?;
    arcs[place] = arc;
    Ok(())
}

/// Adds the arc, and notes that.
fn add_arc(
    arcs: &mut Vec<RoadArc>,
    notes: &mut Vec<Earlier>,
    arc: RoadArc,
) -> Result<(), AllocError>
    ensures ok { OnOk result (arcs.new.items ≡ arcs.old.items ++ arc ∷ []) }
    ensures back { restored notes.new.items arcs.new.items ≡ restored notes.old.items arcs.old.items }
{
    notes.reserve(1)?;
    arcs.push(arc)?;
    notes.push_reserved(Earlier::Added);
    Ok(())
}

/// Changes the arc that the command names, or adds the one that it lays, and notes what undoes that.
fn change_arc(
    arcs: &mut Vec<RoadArc>,
    notes: &mut Vec<Earlier>,
    command: &Command,
) -> Result<(), AllocError>
    requires { HasFitNumbers command.now }
    ensures ok { OnOk result (arcs.new.items ≡ changed_arcs arcs.old.items command.now) }
    ensures back { restored notes.new.items arcs.new.items ≡ restored notes.old.items arcs.old.items }
{
    match *command {
        Command::Set { arc, length } => {
            let Some(mut found) = arc_of(arcs, arc) else {
                return Ok(());
            };
            found.length = length as u32;
            replace_arc(arcs, notes, (arc - 1) as usize, found)
        }
        Command::Close { arc } => {
            let Some(mut found) = arc_of(arcs, arc) else {
                return Ok(());
            };
            found.opened = false;
            replace_arc(arcs, notes, (arc - 1) as usize, found)
        }
        Command::Reopen { arc } => {
            let Some(mut found) = arc_of(arcs, arc) else {
                return Ok(());
            };
            found.opened = true;
            replace_arc(arcs, notes, (arc - 1) as usize, found)
        }
        Command::Mark { node: _ } => Ok(()),
        Command::Unmark { node: _ } => Ok(()),
        Command::Lay { tail, head, length } => {
            let laid = RoadArc {
                tail: tail as u32,
                head: head as u32,
                length: length as u32,
                opened: true,
            };
            add_arc(arcs, notes, laid)
        }
    }
}

/// Changes arcs by commands, the first one first.
fn change_arcs(
    arcs: &mut Vec<RoadArc>,
    notes: &mut Vec<Earlier>,
    commands: &[Command],
) -> Result<(), AllocError>
    requires { All HasFitNumbers commands.now }
    ensures ok { OnOk result (arcs.new.items ≡ fold changed_arcs arcs.old.items commands.now) }
    ensures back { restored notes.new.items arcs.new.items ≡ restored notes.old.items arcs.old.items }
{
    for command in commands {
        change_arc(arcs, notes, command)?;
    }
    Ok(())
}

/// Changes arcs by groups, the first one first.
pub fn change_all(
    arcs: &mut Vec<RoadArc>,
    notes: &mut Vec<Earlier>,
    groups: &[Group],
) -> Result<(), AllocError>
    requires { All HasFitNumbers (commands_of groups.now) }
    ensures ok { OnOk result (arcs.new.items ≡ fold changed_arcs arcs.old.items (commands_of groups.now)) }
    ensures back { restored notes.new.items arcs.new.items ≡ restored notes.old.items arcs.old.items }
{
    for group in groups {
        change_arcs(arcs, notes, group.commands())?;
    }
    Ok(())
}

/// Undoes the changes, the last one first.
pub fn restore(arcs: &mut Vec<RoadArc>, notes: Vec<Earlier>)
    ensures { arcs.new.items ≡ restored notes.items arcs.old.items }
{
    let mut notes = notes;
    while let Some(change) = notes.pop() {
        match change {
            Earlier::Was { place, arc } => {
                if place < arcs.len() {
                    arcs[place] = arc;
                }
            }
            Earlier::Added => {
                arcs.pop();
            }
        }
    }
}
