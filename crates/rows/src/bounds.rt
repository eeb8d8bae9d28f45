ghost use Rattle.std.specs.Prelude.{◌≡◌, None, IfOk};
ghost use Rattle.rows.specs.Replies.{IsRight, query_refusal_of};
ghost use Rattle.rows.specs.declared.queries.Query.TheVariants.{Lower};

use crate::queries::Reply;
use crate::views::View;
use deltastep::{RowError, plain_row};
use kept_rows::told_by;
use roadnet::OutOfMemory;
use shared_network::SharedNetwork;
use std::alloc::Global;

/// The reply to `Lower`, unless it is refused, from the rows of the view's landmarks: each is read once. It takes no memory.
pub(crate) fn bound_by(view: &View, source: u64, target: u64) -> Reply
    requires { query_refusal_of view.now.network (Lower source target) ≡ None }
    ensures { IsRight view.now.network (Lower source target) result }
{
    let mut bound: u64 = 0;
    for row in view.rows() {
        match told_by(&row.distances, source, target) {
            Some(difference) => bound = bound.max(difference),
            None => return Reply::NoWalk,
        }
    }
    Reply::AtLeast(bound)
}

/// The same from a row of plain relaxation for each landmark, made for this reply alone. The only error is lack of memory for a row.
pub(crate) fn plain_bound(
    alloc: Global,
    network: &SharedNetwork,
    source: u64,
    target: u64,
) -> Result<Reply, OutOfMemory>
    requires { query_refusal_of network.now (Lower source target) ≡ None }
    ensures { IfOk result (IsRight network.now (Lower source target)) }
{
    let mut bound: u64 = 0;
    for landmark in network.landmarks() {
        let row = match plain_row(alloc, network, *landmark) {
            Ok(row) => row,
            Err(RowError::OutOfMemory) => return Err(OutOfMemory),
        };
        match told_by(&row, source, target) {
            Some(difference) => bound = bound.max(difference),
            None => return Ok(Reply::NoWalk),
        }
    }
    Ok(Reply::AtLeast(bound))
}
