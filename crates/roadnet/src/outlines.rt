// The part of a network by which commands are judged.

ghost use Rattle.std.specs.Prelude.{◌≡◌, IfOk, OnOk, OnErr, IfErr, IfSome, IfNone, map};
ghost use Rattle.roadnet.specs.Net.{nth};
ghost use Rattle.roadnet.specs.Made.{is_node_among};
ghost use Rattle.roadnet.specs.Members.{is_member};
ghost use Rattle.roadnet.specs.Step.{TakesMemory};
ghost use Rattle.roadnet.specs.Batches.{changed_landmarks};

use crate::arcs::RoadArc;
use crate::ascending::is_member;
use crate::batches::landmarks_after;
use crate::commands::Command;
use crate::flags::{change_flags, names_no_node, restore_flags};
use crate::groups::Group;
use crate::judging::{judge_close, judge_lay, judge_mark, judge_reopen, judge_set, judge_unmark};
use crate::networks::Network;
use crate::probes::{Probed, admit_one};
use crate::refusals::{OutOfMemory, Refusal};
use std::alloc::{AllocError, Global};
use std::array::from_ref;
use std::marker::Model;
use std::mem::replace;

/// The outline of a network: which arcs there are, which of them are open, and the landmarks. Commands are judged by nothing else, so an outline admits
/// what every network with this outline admits. It has no ends and no lengths of arcs.
///
/// It takes 1 byte an arc and 4 a landmark.
#[derive(Debug, Drop)]
pub struct Outline {
    nodes: u32,
    opened: Vec<bool>,
    landmarks: Vec<u32>,
    room: u32,
}

impl Model for Outline {
    ghost use Rattle.roadnet.specs.Outlines.{Outlined, IsOutline};

    ghost Value = { Outlined };

    ghost view = { λ o. record { nodes = o.nodes; opened = o.opened.items; landmarks = o.landmarks.items; room = o.room } };

    ghost invariant = { λ o. IsOutline (record { nodes = o.nodes; opened = o.opened.items; landmarks = o.landmarks.items; room = o.room }) };
}

/// For each arc, whether it is open.
fn opened_flags(alloc: Global, arcs: &[RoadArc]) -> Result<Vec<bool>, AllocError>
    ensures { IfOk result (λ flags. flags.items ≡ map (λ arc. arc.opened) arcs.now) }
{
    let mut flags = Vec::with_capacity(alloc, arcs.len())?;
    for arc in arcs {
        flags.push_reserved(arc.opened);
    }
    Ok(flags)
}

impl Outline {
    ghost use Rattle.roadnet.specs.Step.{refusal_of};
    ghost use Rattle.roadnet.specs.Judging.{IsVerdict};
    ghost use Rattle.std.specs.Prelude.{option_map, vec_items};
    ghost use Rattle.roadnet.specs.Step.{first_refusal};
    ghost use Rattle.roadnet.specs.Batches.{MayRefuseBatch};
    ghost use Rattle.roadnet.specs.Flags.{outline_before};
    ghost use Rattle.roadnet.specs.Outlines.{outline_of, IsOutline, OfEach, EachAdmitsGroup, EachStepsByGroup};

    /// The outline of this network, by one pass over its arcs.
    pub fn of(alloc: Global, network: &Network) -> Result<Outline, OutOfMemory>
        ensures { IfOk result (λ outline. outline ≡ outline_of network.now) }
    {
        Ok(Outline {
            nodes: network.nodes(),
            opened: opened_flags(alloc, network.arcs())?,
            landmarks: Vec::from_slice(alloc, network.landmarks())?,
            room: network.room(),
        })
    }

    fn has_node(&self, x: u64) -> bool
        ensures { result ≡ is_node_among self.now.nodes x }
    {
        1 <= x && x <= u64::from(self.nodes)
    }

    fn is_landmark(&self, x: u64) -> bool
        ensures { result ≡ is_member x self.now.landmarks }
    {
        let landmarks = self.landmarks.as_slice();
        self.has_node(x) && is_member(landmarks, x as u32)
    }

    /// Whether arc `k` is open, if there is such an arc.
    fn is_open(&self, k: u64) -> Option<bool>
        ensures { result ≡ nth self.now.opened k }
    {
        if k == 0 || k > self.opened.len() as u64 {
            return None;
        }
        Some(self.opened[(k - 1) as usize])
    }

    /// Whether the command may be carried out, or otherwise the lowest refusal that applies. It takes no memory.
    pub fn admit(&self, command: &Command) -> Result<(), Refusal>
        ensures { OfEach self.now (λ net. IsVerdict (refusal_of net command.now) result) }
    {
        match *command {
            Command::Set { arc, length } => judge_set(self.is_open(arc), length),
            Command::Close { arc } => judge_close(self.is_open(arc)),
            Command::Reopen { arc } => judge_reopen(self.is_open(arc)),
            Command::Mark { node } => {
                let count = self.landmarks.len() as u64;
                judge_mark(self.has_node(node), self.is_landmark(node), count)
            }
            Command::Unmark { node } => judge_unmark(self.has_node(node), self.is_landmark(node)),
            Command::Lay { tail, head, length } => {
                let there = self.has_node(tail) && self.has_node(head);
                let count = self.opened.len() as u64;
                judge_lay(there, count, u64::from(self.room), length)
            }
        }
    }

    /// Whether the group may be carried out, or otherwise the refusal of its first command that is not admitted after those before it. It takes no memory.
    pub fn admit_group(&self, group: &Group) -> Result<(), Refusal>
        ensures { OfEach self.now (λ net. IsVerdict (first_refusal net group.now) result) }
    {
        let _room = self.room;
        admit_one(self, &[], group.commands())
    }

    /// Carries an admitted group out, all of it or nothing. Returns the earlier landmarks if the group names some. It takes memory for new arcs, and for a
    /// copy of the landmarks if the group names one. After a refusal the outline is as it was.
    pub fn carry_out(&mut self, group: &Group) -> Result<Option<Vec<u32>>, OutOfMemory>
        requires admitted { EachAdmitsGroup self.old group.now }
        ensures ok { OnOk result (EachStepsByGroup self.old group.now self.new) }
        ensures back { IfOk result (λ landmarks. outline_before group.now (option_map vec_items landmarks) self.new ≡ self.old) }
        ensures err { OnErr result (self.new ≡ self.old) }
    {
        let commands = group.commands();
        if names_no_node(commands) {
            change_flags(&mut self.opened, commands)?;
            return Ok(None);
        }
        let alloc = *self.landmarks.allocator();
        let landmarks = landmarks_after(alloc, &self.landmarks, from_ref(group))?;
        change_flags(&mut self.opened, commands)?;
        Ok(Some(replace(&mut self.landmarks, landmarks)))
    }

    /// Undoes the group that was carried out last, given the landmarks that `carry_out` returned. It takes no memory and cannot fail.
    pub fn take_back(&mut self, group: &Group, landmarks: Option<Vec<u32>>)
        requires { IsOutline (outline_before group.now (option_map vec_items landmarks) self.old) }
        ensures { self.new ≡ outline_before group.now (option_map vec_items landmarks) self.old }
    {
        restore_flags(&mut self.opened, group.commands());
        if let Some(landmarks) = landmarks {
            self.landmarks = landmarks;
        }
    }

    /// Carries the group out, all of it or nothing. It fails with the refusal of the first command that is not admitted after those before it; or, if all
    /// are admitted, for lack of memory (11). After a refusal the outline is as it was.
    pub fn apply_group(&mut self, group: &Group) -> Result<(), Refusal>
        ensures ok { OnOk result (EachStepsByGroup self.old group.now self.new) }
        ensures err { OnErr result (self.new ≡ self.old) }
        ensures refused { IfErr result (λ refusal. OfEach self.old (λ net. MayRefuseBatch net group.now refusal)) }
    {
        if let Err(refusal) = self.admit_group(group) {
            return Err(refusal);
        }
        match self.carry_out(group) {
            Ok(_) => Ok(()),
            Err(_) => Err(Refusal::OutOfMemory),
        }
    }
}

impl Probed for Outline {
    ghost outline = { λ o. o };

    fn knows_node(&self, x: u64) -> bool {
        self.has_node(x)
    }

    fn flag_of(&self, k: u64) -> Option<bool> {
        self.is_open(k)
    }

    fn is_marked(&self, x: u64) -> bool {
        self.is_landmark(x)
    }

    fn count_arcs(&self) -> u64 {
        self.opened.len() as u64
    }

    fn count_landmarks(&self) -> u64 {
        self.landmarks.len() as u64
    }

    fn most_arcs(&self) -> u64 {
        u64::from(self.room)
    }
}
