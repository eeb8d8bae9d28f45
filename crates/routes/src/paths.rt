//! A shortest walk, found from its target back along tight arcs.

ghost use Rattle.std.specs.Prelude.{◌≡◌, ◌+◌, ◌≤◌, ◌<◌, Some, false, slice_index_or, length, map, reverse, IfOk, IfSome, IfNone};
ghost use Rattle.std.specs.Bool.{OnTrue};
ghost use Rattle.relax.specs.Values.{value_at};
ghost use Rattle.deltastep.specs.Reach.{IsLeastLength, IsKnownTo};
ghost use Rattle.roadnet.specs.Net.{IsNode};
ghost use Rattle.roadnet.specs.declared.arcs.RoadArc.{RoadArc};
ghost use Rattle.rows.specs.Backs.{IsNumbered};
ghost use Rattle.routes.specs.Paths.{IsTight, IsNodeDone, AreLegsLooked, IsWay};
ghost use Rattle.routes.specs.Routes.{TellsRoute};

use crate::replies::Route;
use relax::Known;
use roadnet::{OutOfMemory, RoadArc};
use shared_network::SharedNetwork;
use snapshot::{Part, Snapshot};
use std::alloc::Global;

/// An arc of the path, and how many legs of its head were looked at before it.
#[derive(Clone, Copy)]
struct Step {
    number: u32,
    looked: usize,
}

/// A possible next step of the path, and its arc.
#[derive(Clone, Copy)]
struct FoundStep {
    step: Step,
    arc: RoadArc,
}

/// The arc of this number, if it is open and leads to the node, and if a shortest walk to the node may end with it.
fn tight_arc<V: Known>(
    network: &SharedNetwork,
    values: &V,
    node: u32,
    number: u32,
) -> Option<RoadArc>
    requires places { length (V.values values.now) ≡ network.now.nodes + 1 }
    requires node { IsNode network.now node }
    ensures some { IfSome result (IsTight network.now (V.values values.now) node number) }
    ensures none { IfNone result ((arc : RoadArc) → ¬ IsTight network.now (V.values values.now) node number arc) }
{
    let _nodes = network.nodes();
    let arc = network.arc(u64::from(number))?;
    if !arc.opened || arc.head != node {
        return None;
    }
    let near = values.value(arc.tail)?;
    let far = values.value(node)?;
    if near <= far && far - near == u64::from(arc.length) {
        Some(arc)
    } else {
        None
    }
}

/// The first tight arc to the node from a node that was not met, if there is one. None of the first `looked` legs of the node is such an arc.
fn arc_from_new<V: Known>(
    network: &SharedNetwork,
    back: &Snapshot,
    values: &V,
    met: &[bool],
    node: u32,
    looked: usize,
) -> Option<FoundStep>
    requires numbers { IsNumbered network.now back.now }
    requires places { length (V.values values.now) ≡ network.now.nodes + 1 }
    requires marks { length met.now ≡ network.now.nodes + 1 }
    requires node { IsNode network.now node }
    requires looked { AreLegsLooked network.now back.now (V.values values.now) met.now node looked }
    ensures tight { IfSome result (λ found. IsTight network.now (V.values values.now) node found.step.number found.arc) }
    ensures new { IfSome result (λ found. slice_index_or met.now found.arc.tail false ≡ false) }
    ensures looked { IfSome result (λ found. AreLegsLooked network.now back.now (V.values values.now) met.now node found.step.looked) }
    ensures none { IfNone result (IsNodeDone network.now (V.values values.now) met.now node) }
{
    let _nodes = network.nodes();
    let legs = back.legs(node, Part::Light);
    for place in looked..legs.len() {
        let number = legs[place].length;
        if let Some(arc) = tight_arc(network, values, node, number) {
            if !met[arc.tail as usize] {
                let step = Step {
                    number,
                    looked: place,
                };
                return Some(FoundStep { step, arc });
            }
        }
    }
    None
}

/// The arcs of the path in the order of the walk. The arc of the last step is the first one.
fn arcs_of(alloc: Global, steps: &[Step]) -> Result<Vec<u32>, OutOfMemory>
    ensures { IfOk result (λ arcs. arcs.items ≡ map (λ step. step.number) (reverse steps.now)) }
{
    let arcs = steps.iter().rev().map(|step| step.number).collect(alloc)?;
    Ok(arcs)
}

/// The steps of a walk from the source to the target over tight arcs, which visits no node twice, from the last one back. Nothing if there is none. There is
/// one if the values are the distances up to the target's, `far`.
///
/// The only error is lack of memory, for a byte a node and 16 an arc of the walk.
fn way_back<V: Known>(
    alloc: Global,
    network: &SharedNetwork,
    back: &Snapshot,
    values: &V,
    source: u32,
    target: u32,
    far: u64,
) -> Result<Option<Vec<Step>>, OutOfMemory>
    requires target { IsNode network.now target }
    requires places { length (V.values values.now) ≡ network.now.nodes + 1 }
    requires there { value_at (V.values values.now) target ≡ Some far }
    requires numbers { IsNumbered network.now back.now }
    ensures way { IfOk result (λ found. IfSome found (λ steps. IsWay network.now (V.values values.now) source target far (map (λ step. step.number) (reverse steps.items)))) }
    ensures none { IfOk result (λ found. IfNone found (¬ IsKnownTo network.now source target (V.values values.now))) }
{
    let mut met = vec![in alloc; false; network.nodes() as usize + 1]?;
    met[target as usize] = true;
    let mut steps: Vec<Step> = Vec::new(alloc);
    let mut node = target;
    let mut looked = 0;
    while node != source {
        match arc_from_new(network, back, values, &met, node, looked) {
            Some(found) => {
                if steps.push(found.step).is_err() {
                    return Err(OutOfMemory);
                }
                node = found.arc.tail;
                met[node as usize] = true;
                looked = 0;
            }
            None => {
                let Some(step) = steps.pop() else {
                    return Ok(None);
                };
                let Some(arc) = network.arc(u64::from(step.number)) else {
                    unreachable!();
                };
                node = arc.head;
                looked = step.looked;
            }
        }
    }
    Ok(Some(steps))
}

/// The arcs of a shortest walk between two nodes that visits no node twice, by values that are the distances from the source up to the target's. Nothing if
/// no walk leads there. `back` has the arcs by their heads, with their numbers.
///
/// The only error is lack of memory, for a byte a node and 20 an arc of the walk.
pub(crate) fn route_known<V: Known>(
    alloc: Global,
    network: &SharedNetwork,
    back: &Snapshot,
    values: &V,
    source: u32,
    target: u32,
) -> Result<Option<Route>, OutOfMemory>
    requires target { IsNode network.now target }
    requires places { length (V.values values.now) ≡ network.now.nodes + 1 }
    requires known { IsKnownTo network.now source target (V.values values.now) }
    requires numbers { IsNumbered network.now back.now }
    ensures { IfOk result (TellsRoute network.now source target) }
{
    let _nodes = network.nodes();
    let Some(length) = values.value(target) else {
        return Ok(None);
    };
    let Some(steps) = way_back(alloc, network, back, values, source, target, length)? else {
        unreachable!();
    };
    let arcs = arcs_of(alloc, &steps)?;
    Ok(Some(Route { length, arcs }))
}

/// Whether the node has the value 0.
fn is_at_zero<V: Known>(values: &V, node: u32) -> bool
    requires node { (1 ≤ node) × (node < length (V.values values.now)) }
    ensures { OnTrue result (value_at (V.values values.now) node ≡ Some 0) }
{
    match values.value(node) {
        Some(value) => value == 0,
        None => false,
    }
}

/// The same, by values of which only the target's has to be its distance, or nothing if no walk leads there. Nothing is told if they do not lead back to the
/// source.
pub(crate) fn route_led<V: Known>(
    alloc: Global,
    network: &SharedNetwork,
    back: &Snapshot,
    values: &V,
    source: u32,
    target: u32,
) -> Result<Option<Option<Route>>, OutOfMemory>
    requires source { IsNode network.now source }
    requires target { IsNode network.now target }
    requires places { length (V.values values.now) ≡ network.now.nodes + 1 }
    requires distance { IsLeastLength network.now source target (value_at (V.values values.now) target) }
    requires numbers { IsNumbered network.now back.now }
    ensures { IfOk result (λ told. IfSome told (TellsRoute network.now source target)) }
{
    let Some(length) = values.value(target) else {
        return Ok(Some(None));
    };
    if !is_at_zero(values, source) {
        return Ok(None);
    }
    let Some(steps) = way_back(alloc, network, back, values, source, target, length)? else {
        return Ok(None);
    };
    let arcs = arcs_of(alloc, &steps)?;
    Ok(Some(Some(Route { length, arcs })))
}
