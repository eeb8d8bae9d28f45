// Groups of commands carried out: all of them or none.

ghost use Rattle.std.specs.Prelude.{◌≡◌, ℕ, List, true, None, Some, All, OnOk, OnErr, IfOk, IfErr, fold};
ghost use Rattle.std.specs.List.Sorted.{IsStrictlyIncreasing};
ghost use Rattle.roadnet.specs.Net.{Net, IsNetwork};
ghost use Rattle.roadnet.specs.Step.{after, step_group};
ghost use Rattle.roadnet.specs.Batches.{changed_landmarks, HasFitNumbers, first_refusal_of_all, MayRefuseBatch, MayRefuseGroups, TakeMemory};
ghost use Rattle.roadnet.specs.declared.refusals.Refusal.TheVariants.{OutOfMemory as out_of_memory};
ghost use Rattle.roadnet.specs.Groups.{commands_of};
ghost use Rattle.roadnet.specs.Judging.{IsVerdict};
ghost use Rattle.roadnet.specs.Undoing.{undone};

use crate::ascending::{add_member, remove_member};
use crate::commands::Command;
use crate::flags::names_no_node;
use crate::groups::Group;
use crate::networks::Network;
use crate::probes::admit_all;
use crate::refusals::Refusal;
use crate::undoing::{Earlier, change_all, restore};
use std::alloc::{AllocError, Global};
use std::array::from_ref;
use std::marker::Model;
use std::mem::replace;

/// Adds or removes a landmark for each command that names one, in the order of the commands.
fn change_landmarks(landmarks: &mut Vec<u32>, command: &Command) -> Result<(), AllocError>
    requires ascending { IsStrictlyIncreasing landmarks.old.items }
    requires fits { HasFitNumbers command.now }
    ensures { OnOk result (landmarks.new.items ≡ changed_landmarks landmarks.old.items command.now) }
{
    match *command {
        Command::Mark { node } => add_member(landmarks, node as u32)?,
        Command::Unmark { node } => remove_member(landmarks, node as u32),
        Command::Set { arc: _, length: _ } => {}
        Command::Close { arc: _ } => {}
        Command::Reopen { arc: _ } => {}
        Command::Lay {
            tail: _,
            head: _,
            length: _,
        } => {}
    }
    Ok(())
}

/// Applies the changes of landmarks that commands make, the first command first.
fn change_landmarks_by(landmarks: &mut Vec<u32>, commands: &[Command]) -> Result<(), AllocError>
    requires ascending { IsStrictlyIncreasing landmarks.old.items }
    requires fits { All HasFitNumbers commands.now }
    ensures ok { OnOk result (landmarks.new.items ≡ fold changed_landmarks landmarks.old.items commands.now) }
    ensures ascending { OnOk result (IsStrictlyIncreasing landmarks.new.items) }
{
    for command in commands {
        change_landmarks(landmarks, command)?;
    }
    Ok(())
}

/// The landmarks after the groups, as a list of their own.
pub fn landmarks_after(
    alloc: Global,
    landmarks: &[u32],
    groups: &[Group],
) -> Result<Vec<u32>, AllocError>
    requires ascending { IsStrictlyIncreasing landmarks.now }
    requires fits { All HasFitNumbers (commands_of groups.now) }
    ensures { IfOk result (λ found. found.items ≡ fold changed_landmarks landmarks.now (commands_of groups.now)) }
{
    let mut found = Vec::from_slice(alloc, landmarks)?;
    for group in groups {
        change_landmarks_by(&mut found, group.commands())?;
    }
    Ok(found)
}

/// Whether the groups name no node, so that the landmarks do not change.
fn name_no_node(groups: &[Group]) -> bool
    ensures { result ≡ true → (landmarks : List ℕ) → fold changed_landmarks landmarks (commands_of groups.now) ≡ landmarks }
{
    for group in groups {
        if !names_no_node(group.commands()) {
            return false;
        }
    }
    true
}

/// What is needed to undo groups that a network carried out.
#[derive(Debug, Drop)]
pub struct Undo {
    arcs: Vec<Earlier>,
    /// The earlier landmarks, if the groups name a node.
    landmarks: Option<Vec<u32>>,
}

impl Model for Undo {
    ghost use Rattle.std.specs.Prelude.{option_map, vec_items};
    ghost use Rattle.roadnet.specs.Undoing.{Undoing};

    ghost Value = { Undoing };

    ghost view = { λ u. record { changes = u.arcs.items; landmarks = option_map vec_items u.landmarks } };
}

impl Network {
    /// Whether the groups may be carried out one after another. Otherwise the refusal of the first command that is not admitted after those before it. This
    /// takes no memory, whatever the network's size.
    ///
    /// Each command is judged by the network as it is and by the commands before it: n commands cost O(n^2) comparisons.
    ///
    /// If arc 7 is open, `Close { arc: 7 }` and then `Reopen { arc: 7 }` are admitted; `Close { arc: 7 }` twice is `AlreadyClosed`. A command may close an
    /// arc that an earlier one laid.
    pub fn admit_groups(&self, groups: &[Group]) -> Result<(), Refusal>
        ensures { IsVerdict (first_refusal_of_all self.now groups.now) result }
    {
        let _nodes = self.nodes();
        admit_all(self, groups)
    }

    /// Carries the groups out, all of them or none, and returns what is needed to undo them.
    ///
    /// It fails with the refusal of the first command that is not admitted after those before it; or, if all are admitted, for lack of memory (11). After a
    /// refusal the network is as it was. An arc is changed in place. The call takes memory for a list of landmarks if a command names one, 24 bytes for
    /// each command that names an arc, and what new arcs need.
    pub fn carry_out(&mut self, groups: &[Group]) -> Result<Undo, Refusal>
        ensures ok { OnOk result (after self.old groups.now ≡ Some self.new) }
        ensures admitted { OnOk result (first_refusal_of_all self.old groups.now ≡ None) }
        ensures back { IfOk result (λ undo. undone undo self.new ≡ self.old) }
        ensures fits { OnOk result (All HasFitNumbers (commands_of groups.now)) }
        ensures err { OnErr result (self.new ≡ self.old) }
        ensures refused { IfErr result (MayRefuseGroups self.old groups.now) }
        ensures network { IsNetwork self.old }
    {
        if let Err(refusal) = self.admit_groups(groups) {
            return Err(refusal);
        }
        let alloc = *self.landmarks.allocator();
        let mut notes = Vec::new(alloc);
        if name_no_node(groups) {
            let Ok(()) = change_all(&mut self.arcs, &mut notes, groups) else {
                restore(&mut self.arcs, notes);
                return Err(Refusal::OutOfMemory);
            };
            return Ok(Undo {
                arcs: notes,
                landmarks: None,
            });
        }
        let Ok(landmarks) = landmarks_after(alloc, &self.landmarks, groups) else {
            return Err(Refusal::OutOfMemory);
        };
        let Ok(()) = change_all(&mut self.arcs, &mut notes, groups) else {
            restore(&mut self.arcs, notes);
            return Err(Refusal::OutOfMemory);
        };
        let landmarks = replace(&mut self.landmarks, landmarks);
        Ok(Undo {
            arcs: notes,
            landmarks: Some(landmarks),
        })
    }

    /// Undoes the groups that were carried out last. It takes no memory and cannot fail.
    pub fn take_back(&mut self, undo: Undo)
        requires { IsNetwork (undone undo self.old) }
        ensures { self.new ≡ undone undo self.old }
    {
        restore(&mut self.arcs, undo.arcs);
        if let Some(landmarks) = undo.landmarks {
            self.landmarks = landmarks;
        }
    }

    /// Carries the group out, all of it or nothing. It fails with the refusal of the first command that is not admitted after those before it; or, if all
    /// are admitted, for lack of memory (11). After a refusal the network is as it was.
    ///
    /// In the network of `examples/six.gr`, `Close { arc: 7 }` and `Set { arc: 8, length: 4 }` are one step; `Reopen { arc: 7 }` twice
    /// is then `AlreadyOpen`, and arc 7 stays closed.
    pub fn apply_group(&mut self, group: &Group) -> Result<(), Refusal>
        ensures ok { OnOk result (step_group self.old group.now ≡ Some self.new) }
        ensures err { OnErr result (self.new ≡ self.old) }
        ensures refused { IfErr result (MayRefuseBatch self.old group.now) }
        // A group of one takes memory exactly when `apply` does.
        ensures memory { IfErr result (λ refusal. refusal ≡ out_of_memory → TakeMemory group.now) }
    {
        if let &[command] = group.commands() {
            return self.apply(command);
        }
        match self.carry_out(from_ref(group)) {
            Ok(_) => Ok(()),
            Err(refusal) => Err(refusal),
        }
    }
}
