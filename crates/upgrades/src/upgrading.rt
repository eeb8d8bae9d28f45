ghost use Rattle.std.specs.Prelude.{◌≡◌, ◌≤◌, ◌<◌, ◌==◌, false, [], length, IfOk, IfErr, OnOk, drop, filter, count_by, not, if◌then◌else◌};
ghost use Rattle.std.specs.List.Sorted.{IsStrictlyIncreasing};
ghost use Rattle.roadnet.specs.declared.refusals.Refusal.TheVariants.{OutOfMemory as out_of_memory};
ghost use Rattle.roadnet.specs.Ends.{KeepsEnds};
ghost use Rattle.roadnet.specs.Net.{IsNetwork, most_landmarks};
ghost use Rattle.roadnet.specs.declared.commands.Command.TheVariants.{Mark};
ghost use Rattle.roadnet.specs.Step.{changed, is_landmark, is_node};
ghost use Rattle.upgrades.specs.Counterparts.{AreCounterparts};
ghost use Rattle.upgrades.specs.Ordered.{AreByEnds};
ghost use Rattle.upgrades.specs.Upgrading.{IsUpgraded, CountsArcs, AreUpgradeCounts, MayRefuseUpgrade};

use crate::counterparts::{count_alone, counterparts};
use crate::counts::Counts;
use crate::maps::was_made_of;
use crate::ordered::numbers_by_ends;
use crate::renewing::renew_all;
use roadnet::{Command, Network, OutOfMemory, Refusal};
use std::alloc::Global;

/// Makes a node a landmark unless it is one, if there is such a node. The only refusal is lack of memory (11).
fn mark_node(network: &mut Network, node: u64) -> Result<(), Refusal>
    requires fresh { is_landmark network.old node ≡ false }
    requires few { length network.old.landmarks < most_landmarks }
    ensures marked { OnOk result (network.new ≡ (if is_node network.old node then changed network.old (Mark node) else network.old)) }
    ensures refused { IfErr result (λ refusal. refusal ≡ out_of_memory) }
{
    if !network.has_node(node) {
        return Ok(());
    }
    network.apply(Command::Mark { node })?;
    Ok(())
}

/// Adds to the network, which has no landmark, those of these ascending landmarks that are nodes of it. Also returns how many are not. The only refusal is
/// lack of memory (11).
fn mark_all(network: Network, landmarks: &[u32]) -> Result<(Network, u64), Refusal>
    requires bare { network.landmarks ≡ [] }
    requires ascending { IsStrictlyIncreasing landmarks.now }
    requires few { length landmarks.now ≤ most_landmarks }
    ensures marked { IfOk result (λ made. made.0 ≡ record network { landmarks = filter (is_node network) landmarks.now }) }
    ensures counted { IfOk result (λ made. made.1 ≡ count_by (λ x. not (is_node network x)) landmarks.now) }
    ensures refused { IfErr result (λ refusal. refusal ≡ out_of_memory) }
{
    let mut marked = network;
    for node in landmarks {
        mark_node(&mut marked, u64::from(*node))?;
    }
    let left = marked.landmarks().len();
    let gone = (landmarks.len() - left) as u64;
    Ok((marked, gone))
}

/// How many of these numbers, without the first, are not 0.
fn count_found(parts: &[u32]) -> u64
    ensures { result ≡ count_by (λ part. not (part == 0)) (drop 1 parts.now) }
{
    parts.iter().skip(1).filter(|part| **part != 0).count() as u64
}

/// What becomes of the arcs, given the numbers of both networks sorted by their ends and the counterparts of the map's arcs. Landmarks are not counted.
fn count_arcs(
    stored: &Network,
    before: &[u32],
    new: &Network,
    after: &[u32],
    parts: &[u32],
) -> Counts
    requires network { IsNetwork stored.now }
    requires stored { AreByEnds stored.now.arcs before.now }
    requires new { AreByEnds new.now.arcs after.now }
    requires parts { AreCounterparts stored.now.arcs new.now.arcs parts.now }
    ensures { CountsArcs stored.now.arcs new.now.arcs result }
{
    let all = new.arcs().len() as u64;
    let kept = count_found(parts);
    let added = count_alone(new, after, stored, before);
    let gone = count_alone(stored, before, new, after);
    let others = all - kept;
    let doubtful = others - added;
    Counts {
        kept,
        added,
        gone,
        doubtful,
        landmarks_gone: 0,
    }
}

/// The counterparts of the map's arcs, and what becomes of the arcs. The only error is lack of memory, for 4 bytes an arc of the network and 8 an arc of
/// the map.
fn matched(
    alloc: Global,
    stored: &Network,
    new: &Network,
) -> Result<(Vec<u32>, Counts), OutOfMemory>
    ensures parts { IfOk result (λ found. AreCounterparts stored.now.arcs new.now.arcs found.0.items) }
    ensures counted { IfOk result (λ found. CountsArcs stored.now.arcs new.now.arcs found.1) }
    ensures network { IsNetwork stored.now }
{
    let before = numbers_by_ends(alloc, stored)?;
    let after = numbers_by_ends(alloc, new)?;
    let parts = counterparts(alloc, stored, &before, new, &after)?;
    let counts = count_arcs(stored, &before, new, &after, &parts);
    Ok((parts, counts))
}

/// The network `stored`, which was made from the map `old`, brought to the map `new`, which has no landmarks; and what became of arcs and landmarks.
///
/// Two arcs are the same if they have the same ends and the same place among the parallel ones, and if the stored network and the map have equally many of
/// these. Such an arc takes the map's length if its length in the store is that of the old map; otherwise it keeps the store's. It is closed if it is
/// closed in the store. Every other arc is as in the map. The landmarks are those of the store that are nodes of the map. The room is the map's.
///
/// It fails with 52 if the network was not made from the old map: it has another number of nodes, or an arc of the map is missing or has other ends in it.
/// It fails with 11 for lack of memory, for 4 bytes an arc of the network, 8 an arc of the map, and the landmarks. It takes the time of a sort of the arcs.
pub fn upgraded(
    alloc: Global,
    stored: &Network,
    old: &Network,
    new: Network,
) -> Result<(Network, Counts), Refusal>
    requires bare { new.landmarks ≡ [] }
    ensures made { IfOk result (λ made. IsUpgraded stored.now old.now new made.0) }
    ensures counted { IfOk result (λ made. AreUpgradeCounts stored.now new made.1) }
    ensures of_old { OnOk result (KeepsEnds old.now stored.now) }
    ensures refused { IfErr result (MayRefuseUpgrade stored.now old.now) }
{
    if !was_made_of(stored, old) {
        return Err(Refusal::OtherNetwork);
    }
    let (parts, counts) = matched(alloc, stored, &new)?;
    let renewed = renew_all(stored, old, new, &parts)?;
    let (marked, landmarks_gone) = mark_all(renewed, stored.landmarks())?;
    Ok((
        marked,
        Counts {
            landmarks_gone,
            ..counts
        },
    ))
}
