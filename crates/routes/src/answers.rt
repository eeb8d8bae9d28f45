//! Routes in a network that is asked.

ghost use Rattle.std.specs.Prelude.{◌≡◌, IfOk, IfSome, IsOk, IsSome};
ghost use Rattle.roadnet.specs.Net.{IsNode};
ghost use Rattle.roadnet.specs.Walks.{RowOf};
ghost use Rattle.rows.specs.Backs.{IsNumbered, LeadsBack};
ghost use Rattle.rows.specs.Replies.{query_refusal_of};
ghost use Rattle.rows.specs.declared.queries.Query.TheVariants.{Dist};
ghost use Rattle.routes.specs.RouteReplies.{IsRightRoute};
ghost use Rattle.routes.specs.Routes.{TellsRoute};

use crate::paths::{route_known, route_led};
use crate::replies::{Route, RouteReply};
use deltastep::{Distances, RowError, Workspace, values_to_in};
use relax::Team;
use roadnet::{OutOfMemory, Refusal};
use rows::Asker;
use snapshot::Snapshot;
use std::alloc::Global;

/// A route between two nodes, by a search that ends at the target. It keeps no row.
fn searched_route<T: Team>(
    alloc: Global,
    asker: &Asker,
    back: &Snapshot,
    source: u32,
    target: u32,
    team: &T,
    workspace: &mut Workspace,
) -> Result<Option<Route>, OutOfMemory>
    requires source { IsNode asker.now.network source }
    requires target { IsNode asker.now.network target }
    requires numbers { IsNumbered asker.now.network back.now }
    ensures { IfOk result (TellsRoute asker.now.network source target) }
{
    let Ok(values) = values_to_in(alloc, asker.groups(), source, target, team, workspace) else {
        return Err(OutOfMemory);
    };
    let route = route_known(alloc, asker.network(), back, &values, source, target)?;
    workspace.keep_values(values);
    Ok(route)
}

/// What a search that the rows of landmarks lead tells of a route between two nodes, if there are landmarks, and if its values lead back to the source.
fn led_route(
    alloc: Global,
    asker: &Asker,
    back: &Snapshot,
    source: u32,
    target: u32,
    workspace: &mut Workspace,
) -> Result<Option<Option<Route>>, OutOfMemory>
    requires source { IsNode asker.now.network source }
    requires target { IsNode asker.now.network target }
    requires numbers { IsNumbered asker.now.network back.now }
    ensures { IfOk result (λ told. IfSome told (TellsRoute asker.now.network source target)) }
{
    let Some(values) = asker.led_values(alloc, source, target, workspace)? else {
        return Ok(None);
    };
    let told = route_led(alloc, asker.network(), back, &values, source, target)?;
    workspace.keep_values(values);
    Ok(told)
}

/// A route between two nodes: by the given row of the source, or by that of a landmark of the asked view; otherwise by a search that ends at the target, and
/// that the rows of landmarks lead, if there are any.
fn route_in<T: Team>(
    alloc: Global,
    asker: &Asker,
    back: &Snapshot,
    source: u32,
    target: u32,
    kept: Option<&Distances>,
    team: &T,
    workspace: &mut Workspace,
) -> Result<Option<Route>, OutOfMemory>
    requires source { IsNode asker.now.network source }
    requires target { IsNode asker.now.network target }
    requires numbers { IsNumbered asker.now.network back.now }
    requires kept { IfSome kept (λ row. RowOf asker.now.network source row.now) }
    ensures { IfOk result (TellsRoute asker.now.network source target) }
{
    if let Some(row) = asker.row_had(source, kept) {
        return route_known(alloc, asker.network(), back, row, source, target);
    }
    match led_route(alloc, asker, back, source, target, workspace)? {
        Some(told) => Ok(told),
        None => searched_route(alloc, asker, back, source, target, team, workspace),
    }
}

/// The reply to a question for a route: the arcs of a shortest walk that visits no node twice; or that no walk leads there, or that a number is not a node's.
/// It uses the given row of the source, or that of a landmark of the asked view; otherwise a search that ends at the target, and that landmarks lead. `back`
/// has the arcs by their heads, with their numbers, as `rows::numbered_back` makes them.
///
/// Behind the search it looks at the arcs that lead to nodes of the walk, and to nodes beside it that are joined to those by walks of length 0, each once or
/// twice. Its only error is lack of memory, for the search, a byte a node and 20 an arc of the walk. What is refused takes none.
///
/// In the network of `examples/six.gr`, the route from 1 to 6 is 15 long, with the arcs 2, 4, 7, 3 and 6; from 6 to 1 there is no walk.
pub fn answer_route<T: Team>(
    alloc: Global,
    asker: &Asker,
    back: &Snapshot,
    source: u64,
    target: u64,
    kept: Option<&Distances>,
    team: &T,
    workspace: &mut Workspace,
) -> Result<RouteReply, OutOfMemory>
    requires back { LeadsBack asker.now.network back.now }
    requires kept { IfSome kept (λ row. RowOf asker.now.network source row.now) }
    ensures right { IfOk result (IsRightRoute asker.now.network source target) }
    ensures refused { IsSome (query_refusal_of asker.now.network (Dist source target)) → IsOk result }
{
    let network = asker.network();
    if !network.has_node(source) || !network.has_node(target) {
        return Ok(RouteReply::Refused(Refusal::NoSuchNode));
    }
    let (source, target) = (source as u32, target as u32);
    match route_in(alloc, asker, back, source, target, kept, team, workspace)? {
        Some(route) => Ok(RouteReply::Arcs(route)),
        None => Ok(RouteReply::NoWalk),
    }
}
