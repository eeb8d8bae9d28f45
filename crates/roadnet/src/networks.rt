ghost use Rattle.std.specs.Prelude.{false, ◌&&◌, ◌≡◌, ◌-◌, ◌<◌, ◌↔◌, IsTrue, OnOk, OnErr, IfOk, IfErr, MatchResult, Some, None, Err, length};
ghost use Rattle.roadnet.specs.Made.{is_node_among, is_node_count, is_long, is_stray, has_long_arc, has_stray_end, has_stray_landmark, flaw_of, MayRefuseParts};
ghost use Rattle.roadnet.specs.Members.{set_of};

use crate::arcs::RoadArc;
use crate::ascending::{add_member, collect, is_member, remove_member};
use crate::commands::Command;
use crate::judging::{judge_close, judge_lay, judge_mark, judge_reopen, judge_set, judge_unmark};
use crate::probes::Probed;
use crate::refusals::{OutOfMemory, Refusal};
use std::alloc::Global;
use std::marker::Model;

/// The most nodes that a network may have: 33,554,432.
pub const MOST_NODES: u32 = 1 << 25;

/// The most arcs that a network may have: 67,108,864.
pub const MOST_ARCS: usize = 1 << 26;

/// The greatest length of an arc.
pub const LONGEST_ARC: u32 = 2147483647;

/// The most landmarks that a network may have.
pub const MOST_LANDMARKS: usize = 1000;

/// A road network: its nodes are 1 to n, its arcs are numbered from 1 on, and some nodes are landmarks.
///
/// It takes 16 bytes an arc and 4 a landmark.
#[derive(Debug, Drop)]
pub struct Network {
    pub(crate) nodes: u32,
    pub(crate) arcs: Vec<RoadArc>,
    pub(crate) landmarks: Vec<u32>,
    pub(crate) room: u32,
}

impl Model for Network {
    ghost use Rattle.roadnet.specs.Net.{Net, IsNetwork};

    ghost Value = { Net };

    ghost view = { λ a. record { nodes = a.nodes; arcs = a.arcs.items; landmarks = a.landmarks.items; room = a.room } };

    ghost invariant = { λ a. IsNetwork (record { nodes = a.nodes; arcs = a.arcs.items; landmarks = a.landmarks.items; room = a.room }) };
}

fn is_node_among(nodes: u32, x: u32) -> bool
    ensures { result ≡ is_node_among nodes x }
{
    1 <= x && x <= nodes
}

fn has_fit_count(nodes: u32) -> bool
    ensures { result ≡ is_node_count nodes }
{
    1 <= nodes && nodes <= MOST_NODES
}

fn is_long(arc: &RoadArc) -> bool
    ensures { result ≡ is_long arc.now }
{
    arc.length > LONGEST_ARC
}

fn is_stray(nodes: u32, arc: &RoadArc) -> bool
    ensures { result ≡ is_stray nodes arc.now }
{
    !(is_node_among(nodes, arc.tail) && is_node_among(nodes, arc.head))
}

/// What is wrong with some arcs.
#[derive(Clone, Copy)]
struct ArcFaults {
    long: bool,
    stray: bool,
}

/// Whether some arc is too long, and whether some end is not a node.
fn arc_faults(nodes: u32, arcs: &[RoadArc]) -> ArcFaults
    ensures long { result.long ≡ has_long_arc arcs.now }
    ensures stray { result.stray ≡ has_stray_end nodes arcs.now }
{
    let mut long = false;
    let mut stray = false;
    for arc in arcs {
        long = long || is_long(arc);
        stray = stray || is_stray(nodes, arc);
    }
    ArcFaults { long, stray }
}

fn has_stray_landmark(nodes: u32, landmarks: &[u32]) -> bool
    ensures { result ≡ has_stray_landmark nodes landmarks.now }
{
    landmarks.iter().any(|&x| !is_node_among(nodes, x))
}

impl Network {
    ghost use Rattle.roadnet.specs.declared.refusals.Refusal.TheVariants.{TooLarge as too_large};
    ghost use Rattle.roadnet.specs.Net.{IsNode, IsNetwork, IsRoomFor, arc_at};
    ghost use Rattle.roadnet.specs.Step.{is_node, is_landmark, refusal_of, step, MayRefuseCommand};
    ghost use Rattle.roadnet.specs.Batches.{opened_at};

    /// A network of the nodes 1 to `nodes`, of these arcs in the order of their numbers, open or closed as given, and of these landmarks; one that is
    /// listed twice counts once.
    ///
    /// It is refused, lowest number first, for a count of nodes that is not 1 to 33,554,432 (5), too many arcs (9), a length above 2147483647 (21), an end
    /// of an arc or a landmark that is not a node (24), or more than 1,000 landmarks (27). If none of the first four holds and a landmark is given, it may
    /// also fail for lack of memory for the landmarks (11).
    ///
    /// With six nodes and the arcs of `examples/six.gr`, the landmarks 6, 3 and 6 make a network with the landmarks 3 and 6. The landmark 7 is refused with
    /// `NoSuchNode`, and so is an arc from 1 to 7.
    pub fn new(
        alloc: Global,
        nodes: u32,
        arcs: Vec<RoadArc>,
        landmarks: &[u32],
    ) -> Result<Network, Refusal>
        ensures ok { OnOk result (flaw_of nodes arcs.items landmarks.now ≡ None) }
        ensures network { IfOk result (λ net. net ≡ record { nodes = nodes; arcs = arcs.items; landmarks = set_of landmarks.now; room = length arcs.items }) }
        ensures refused { IfErr result (MayRefuseParts nodes arcs.items landmarks.now) }
    {
        if !has_fit_count(nodes) {
            return Err(Refusal::NumberRange);
        }
        if arcs.len() > MOST_ARCS {
            return Err(Refusal::TooLarge);
        }
        let faults = arc_faults(nodes, &arcs);
        if faults.long {
            return Err(Refusal::LengthRange);
        }
        if faults.stray || has_stray_landmark(nodes, landmarks) {
            return Err(Refusal::NoSuchNode);
        }
        let landmarks = collect(alloc, landmarks, MOST_LANDMARKS)?;
        let room = arcs.len() as u32;
        Ok(Network {
            nodes,
            arcs,
            landmarks,
            room,
        })
    }

    /// The network with room for this many arcs, which `Lay` may fill. It takes no memory. It fails with 9, and returns the network as it was, if there are
    /// more arcs than that, or if the room is above 67,108,864.
    ///
    /// `examples/six.gr` has 8 arcs and room for 8. With room for 10, two arcs may be laid.
    pub fn with_room(self, room: u64) -> Result<Network, (Refusal, Network)>
        ensures ok { IfOk result (λ net. net ≡ record self { room = room }) }
        ensures fits { OnOk result (IsRoomFor self room) }
        ensures refused { IfErr result (λ back. (back.0 ≡ too_large) × (back.1 ≡ self) × ¬ IsRoomFor self room) }
    {
        if room < self.arcs.len() as u64 || room > MOST_ARCS as u64 {
            return Err((Refusal::TooLarge, self));
        }
        Ok(Network {
            nodes: self.nodes,
            arcs: self.arcs,
            landmarks: self.landmarks,
            room: room as u32,
        })
    }

    /// How many arcs the network has room for.
    pub fn room(&self) -> u32
        ensures value { result ≡ self.now.room }
        ensures network { IsNetwork self.now }
    {
        self.room
    }

    /// The number of nodes. They are numbered from 1 on.
    pub fn nodes(&self) -> u32
        ensures value { result ≡ self.now.nodes }
        ensures network { IsNetwork self.now }
    {
        self.nodes
    }

    /// The arcs in the order of their numbers: arc k is at place k - 1.
    pub fn arcs(&self) -> &[RoadArc]
        ensures value { result.now ≡ self.now.arcs }
        ensures network { IsNetwork self.now }
    {
        &self.arcs
    }

    /// The landmarks, in ascending order.
    pub fn landmarks(&self) -> &[u32]
        ensures value { result.now ≡ self.now.landmarks }
        ensures network { IsNetwork self.now }
    {
        &self.landmarks
    }

    /// Whether the network has a node of this number.
    pub fn has_node(&self, x: u64) -> bool
        ensures node { IsTrue result ↔ IsNode self.now x }
        ensures network { IsNetwork self.now }
    {
        1 <= x && x <= u64::from(self.nodes)
    }

    /// Whether the network has nodes of both numbers.
    fn has_nodes(&self, x: u64, y: u64) -> bool
        ensures { result ≡ (is_node self.now x && is_node self.now y) }
    {
        if !self.has_node(x) {
            return false;
        }
        self.has_node(y)
    }

    /// Whether the node of this number is a landmark, by a binary search.
    pub fn is_landmark(&self, x: u64) -> bool
        ensures { result ≡ is_landmark self.now x }
    {
        let landmarks = self.landmarks.as_slice();
        self.has_node(x) && is_member(landmarks, x as u32)
    }

    /// The arc of number `k`, if there is one.
    ///
    /// In `examples/six.gr`, 7 gives the arc from 5 to 2 of length 0, and 0 and 9 give nothing.
    pub fn arc(&self, k: u64) -> Option<RoadArc>
        ensures { result ≡ arc_at self.now k }
    {
        if k == 0 || k > self.arcs.len() as u64 {
            return None;
        }
        Some(self.arcs[(k - 1) as usize])
    }

    /// Whether arc `k` is open, if there is such an arc.
    fn is_open(&self, k: u64) -> Option<bool>
        ensures { result ≡ opened_at self.now k }
    {
        match self.arc(k) {
            Some(arc) => Some(arc.opened),
            None => None,
        }
    }

    /// Whether the command may be carried out, or otherwise the lowest refusal that applies. It takes no memory.
    ///
    /// In the network of `examples/six.gr`, whose arcs are open, `Close { arc: 7 }` is admitted, `Reopen { arc: 7 }` is `AlreadyOpen` and
    /// `Mark { node: 7 }` is `NoSuchNode`. `Set { arc: 9, length: 2147483648 }` is `NoSuchArc`, the lower of the two that apply.
    pub fn admit(&self, command: &Command) -> Result<(), Refusal>
        ensures { MatchResult result (λ _. refusal_of self.now command.now ≡ None) (λ refusal. refusal_of self.now command.now ≡ Some refusal) }
    {
        match *command {
            Command::Set { arc, length } => judge_set(self.is_open(arc), length),
            Command::Close { arc } => judge_close(self.is_open(arc)),
            Command::Reopen { arc } => judge_reopen(self.is_open(arc)),
            Command::Mark { node } => {
                let count = self.landmarks.len() as u64;
                judge_mark(self.has_node(node), self.is_landmark(node), count)
            }
            Command::Unmark { node } => judge_unmark(self.has_node(node), self.is_landmark(node)),
            Command::Lay { tail, head, length } => {
                let there = self.has_nodes(tail, head);
                let count = self.arcs.len() as u64;
                judge_lay(there, count, u64::from(self.room), length)
            }
        }
    }

    /// A copy of this network, from the same allocator.
    pub fn copy(&self) -> Result<Network, OutOfMemory>
        ensures same { IfOk result (λ copy. copy ≡ self.now) }
        ensures network { IfOk result IsNetwork }
    {
        let alloc = *self.landmarks.allocator();
        Ok(Network {
            nodes: self.nodes,
            arcs: Vec::from_slice(alloc, &self.arcs)?,
            landmarks: Vec::from_slice(alloc, &self.landmarks)?,
            room: self.room,
        })
    }

    /// Carries the command out if it is admitted. Only `Mark` and `Lay` take memory, and may fail for lack of it (11). After a refusal the network is as it
    /// was.
    ///
    /// A change of an arc takes O(1), one of the landmarks a binary search and one shift.
    ///
    /// `Close { arc: 7 }` closes arc 7 of `examples/six.gr`; a second one is `AlreadyClosed`.
    pub fn apply(&mut self, command: Command) -> Result<(), Refusal>
        ensures ok { OnOk result (step self.old command ≡ Some self.new) }
        ensures err { OnErr result (self.new ≡ self.old) }
        ensures refused { IfErr result (MayRefuseCommand self.old command) }
    {
        self.admit(&command)?;
        match command {
            Command::Set { arc, length } => {
                let found = &mut self.arcs[(arc - 1) as usize];
                found.length = length as u32;
            }
            Command::Close { arc } => {
                let found = &mut self.arcs[(arc - 1) as usize];
                found.opened = false;
            }
            Command::Reopen { arc } => {
                let found = &mut self.arcs[(arc - 1) as usize];
                found.opened = true;
            }
            Command::Mark { node } => {
                add_member(&mut self.landmarks, node as u32)?;
            }
            Command::Unmark { node } => remove_member(&mut self.landmarks, node as u32),
            Command::Lay { tail, head, length } => {
                let laid = RoadArc {
                    tail: tail as u32,
                    head: head as u32,
                    length: length as u32,
                    opened: true,
                };
                if self.arcs.push(laid).is_err() {
                    return Err(Refusal::OutOfMemory);
                }
            }
        }
        Ok(())
    }
}

impl Probed for Network {
    ghost use Rattle.roadnet.specs.Outlines.{outline_of};

    ghost outline = { outline_of };

    fn knows_node(&self, x: u64) -> bool {
        self.has_node(x)
    }

    fn flag_of(&self, k: u64) -> Option<bool> {
        self.is_open(k)
    }

    fn is_marked(&self, x: u64) -> bool {
        self.is_landmark(x)
    }

    fn count_arcs(&self) -> u64 {
        self.arcs().len() as u64
    }

    fn count_landmarks(&self) -> u64 {
        self.landmarks().len() as u64
    }

    fn most_arcs(&self) -> u64 {
        u64::from(self.room())
    }
}
