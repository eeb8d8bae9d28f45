// Whether groups lead from one network to another, decided without memory.
ghost use Rattle.std.specs.Prelude.{◌≡◌, ◌≤◌, ◌<◌, ◌+◌, None, Some, option_map};
ghost use Rattle.std.specs.Bool.{Decides};
ghost use Rattle.roadnet.specs.declared.commands.Command.TheVariants.{Lay};
ghost use Rattle.roadnet.specs.Net.{Net, IsNetwork, longest_arc, most_nodes};
ghost use Rattle.roadnet.specs.Step.{after, changed, first_refusal, new_arc, refusal_of};
ghost use Rattle.roadnet.specs.Batches.{changed_by, changed_by_all, first_refusal_of_all};
ghost use Rattle.keeper.specs.Leading.{SeesAt};

use roadnet::{Command, Group, RoadArc};
use shared_network::SharedNetwork;

/// What a network shows at one number: its arc, if there is one, whether its node is a landmark, and how many arcs there are.
#[derive(Clone, Copy, Debug, PartialEq, Eq)]
struct SeenPlace {
    arc: Option<RoadArc>,
    marked: bool,
    arcs: u64,
}

/// One more, if that is a number of 64 bits.
fn one_more(n: u64) -> u64
    ensures { n < 18446744073709551615 → result ≡ n + 1 }
{
    if n < u64::MAX { n + 1 } else { n }
}

/// An arc of this length.
fn with_length(arc: Option<RoadArc>, length: u64) -> Option<RoadArc>
    ensures { length ≤ longest_arc → result ≡ option_map (λ (arc : RoadArc). record arc { length = length }) arc }
{
    let mut arc = arc?;
    arc.length = length.min(2_147_483_647) as u32;
    Some(arc)
}

/// An arc that walks may use, or one that they may not.
fn with_flag(arc: Option<RoadArc>, opened: bool) -> Option<RoadArc>
    ensures { result ≡ option_map (λ (arc : RoadArc). record arc { opened = opened }) arc }
{
    let mut arc = arc?;
    arc.opened = opened;
    Some(arc)
}

/// An open arc of these ends and this length.
fn laid(tail: u64, head: u64, length: u64) -> RoadArc
    ensures { tail ≤ most_nodes → head ≤ most_nodes → length ≤ longest_arc → result ≡ new_arc tail head length }
{
    RoadArc {
        tail: tail.min(33_554_432) as u32,
        head: head.min(33_554_432) as u32,
        length: length.min(2_147_483_647) as u32,
        opened: true,
    }
}

/// What number `k` shows after an arc was laid.
fn seen_after_lay(tail: u64, head: u64, length: u64, k: u64, seen: SeenPlace) -> SeenPlace
    ensures { (net : Net) → IsNetwork net → refusal_of net (Lay tail head length) ≡ None → SeesAt net k seen → SeesAt (changed net (Lay tail head length)) k result }
{
    let SeenPlace { arc, marked, arcs } = seen;
    let arcs = one_more(arcs);
    if arcs != k {
        return SeenPlace { arc, marked, arcs };
    }
    let arc = Some(laid(tail, head, length));
    SeenPlace { arc, marked, arcs }
}

/// What number `k` shows after an admitted command.
fn seen_after_one(command: &Command, k: u64, seen: SeenPlace) -> SeenPlace
    ensures { (net : Net) → IsNetwork net → refusal_of net command.now ≡ None → SeesAt net k seen → SeesAt (changed net command.now) k result }
{
    let SeenPlace { arc, marked, arcs } = seen;
    match *command {
        Command::Set { arc: named, length } => {
            if named != k {
                return seen;
            }
            let arc = with_length(arc, length);
            SeenPlace { arc, marked, arcs }
        }
        Command::Close { arc: named } => {
            if named != k {
                return seen;
            }
            let arc = with_flag(arc, false);
            SeenPlace { arc, marked, arcs }
        }
        Command::Reopen { arc: named } => {
            if named != k {
                return seen;
            }
            let arc = with_flag(arc, true);
            SeenPlace { arc, marked, arcs }
        }
        Command::Mark { node } => {
            if node != k {
                return seen;
            }
            let marked = true;
            SeenPlace { arc, marked, arcs }
        }
        Command::Unmark { node } => {
            if node != k {
                return seen;
            }
            let marked = false;
            SeenPlace { arc, marked, arcs }
        }
        Command::Lay { tail, head, length } => seen_after_lay(tail, head, length, k, seen),
    }
}

/// What number `k` shows after commands that are each admitted in turn.
fn seen_after(commands: &[Command], k: u64, seen: SeenPlace) -> SeenPlace
    ensures { (net : Net) → IsNetwork net → first_refusal net commands.now ≡ None → SeesAt net k seen → SeesAt (changed_by net commands.now) k result }
{
    let mut last = seen;
    for command in commands {
        last = seen_after_one(command, k, last);
    }
    last
}

/// What number `k` shows after groups whose commands are each admitted in turn.
fn seen_after_all(groups: &[Group], k: u64, seen: SeenPlace) -> SeenPlace
    ensures { (net : Net) → IsNetwork net → first_refusal_of_all net groups.now ≡ None → SeesAt net k seen → SeesAt (changed_by_all net groups.now) k result }
{
    let mut last = seen;
    for group in groups {
        last = seen_after(group.commands(), k, last);
    }
    last
}

/// What number `k` of a network shows.
fn see(network: &SharedNetwork, k: u64) -> SeenPlace
    ensures { SeesAt network.now k result }
{
    SeenPlace {
        arc: network.arc(k),
        marked: network.is_landmark(k),
        arcs: network.arcs().len() as u64,
    }
}

/// Whether both show the same.
fn is_same(one: SeenPlace, other: SeenPlace) -> bool
    ensures { Decides result (one ≡ other) }
{
    one == other
}

/// Whether groups that a network admits lead to another network. It takes no memory, and looks at each command once for each arc and node.
pub(crate) fn lead_to(network: &SharedNetwork, groups: &[Group], other: &SharedNetwork) -> bool
    requires { first_refusal_of_all network.now groups.now ≡ None }
    ensures { Decides result (after network.now groups.now ≡ Some other.now) }
{
    if network.nodes() != other.nodes() || network.room() != other.room() {
        return false;
    }
    let most = u64::from(other.nodes()).max(other.arcs().len() as u64);
    for k in 0..most + 1 {
        let seen = seen_after_all(groups, k, see(network, k));
        if !is_same(seen, see(other, k)) {
            return false;
        }
    }
    true
}
