//! Routes in a view.
ghost use Rattle.std.specs.Prelude.{◌≡◌, IfOk, IfSome, IsOk, IsSome};
ghost use Rattle.roadnet.specs.Walks.{RowOf};
ghost use Rattle.rows.specs.Backs.{LeadsBack};
ghost use Rattle.rows.specs.declared.queries.Query.TheVariants.{Dist};
ghost use Rattle.rows.specs.Replies.{query_refusal_of};
ghost use Rattle.routes.specs.RouteReplies.{IsRightRoute};

use crate::handles::handle::Handle;
use crate::readers::places::Glance;
use crate::served::Served;
use deltastep::{Distances, Workspace};
use office::Naming;
use relax::{CHUNK, Crew};
use roadnet::{OutOfMemory, Refusal};
use routes::{RouteReply, answer_route};
use rows::numbered_back;
use snapshot::Snapshot;
use std::alloc::Global;
use std::sync::Arc;

/// All arcs of a view the other way round, with their numbers, made anew to be shared. The only error is lack of memory.
fn new_back<N: Naming>(alloc: Global, glance: &Glance<N>) -> Result<Arc<Snapshot>, OutOfMemory>
    ensures { IfOk result (λ back. LeadsBack glance.now.view.network back.value) }
{
    let back = numbered_back(alloc, glance.network())?;
    match Arc::new(alloc, back) {
        Ok(back) => Ok(back),
        Err(_) => Err(OutOfMemory),
    }
}

/// The memory of a search, and the row of its source, if one is kept for all callers.
struct Lent {
    workspace: Workspace,
    row: Option<Distances>,
}

impl<S: Served> Handle<S> {
    /// A share of the arcs that `back` returns, if the view has them, or if they are kept for all callers.
    fn kept_back(&self, glance: &Glance<S::Naming>) -> Option<Arc<Snapshot>>
        ensures { IfSome result (λ back. LeadsBack glance.now.view.network back.value) }
    {
        if let Some(back) = glance.back() {
            return Some(back);
        }
        let mut rows = self.shared.rows.lock(&self.rt);
        rows.back(glance)
    }

    /// Keeps these arcs for all callers.
    fn keep_back(&self, glance: &Glance<S::Naming>, back: Arc<Snapshot>)
        requires { LeadsBack glance.now.view.network back.value }
    {
        let mut rows = self.shared.rows.lock(&self.rt);
        rows.keep_back(glance, back);
    }

    /// All arcs of a view the other way round, with their numbers: those that the view has, or that are kept for all callers; otherwise new ones, which are
    /// then kept. No lock is held while they are made. The only error is lack of memory.
    fn back(&self, glance: &Glance<S::Naming>) -> Result<Arc<Snapshot>, OutOfMemory>
        ensures { IfOk result (λ back. LeadsBack glance.now.view.network back.value) }
    {
        if let Some(back) = self.kept_back(glance) {
            return Ok(back);
        }
        let back = new_back(self.alloc, glance)?;
        if let Ok(share) = Arc::try_clone(&back) {
            self.keep_back(glance, share);
        }
        Ok(back)
    }

    /// What a search for a route uses.
    fn lend(&self, glance: &Glance<S::Naming>, source: u64) -> Lent
        ensures { IfSome result.row (RowOf glance.now.view.network source) }
    {
        let mut rows = self.shared.rows.lock(&self.rt);
        let workspace = rows.workspace();
        match u32::try_from(source) {
            Ok(source) => Lent {
                workspace,
                row: rows.row(glance, source),
            },
            Err(_) => Lent {
                workspace,
                row: None,
            },
        }
    }

    /// The reply to a question for a route in a view of this desk, as `routes::answer_route` gives it: by a row of the source that is kept for all callers, or
    /// by that of a landmark; otherwise by a search that ends at the target. It keeps no row. The arcs turned round with their numbers are those of the view.
    /// If it has none, they are made at the first question, take 8 bytes an arc and 4 a node, and are kept for all callers. No lock is held during the search.
    ///
    /// The only error is lack of memory. What is refused takes none.
    pub fn route(
        &self,
        glance: &Glance<S::Naming>,
        source: u64,
        target: u64,
    ) -> Result<RouteReply, OutOfMemory>
        ensures right { IfOk result (IsRightRoute glance.now.view.network source target) }
        ensures refused { IsSome (query_refusal_of glance.now.view.network (Dist source target)) → IsOk result }
    {
        if !glance.are_nodes(source, target) {
            return Ok(RouteReply::Refused(Refusal::NoSuchNode));
        }
        let back = self.back(glance)?;
        let Lent { mut workspace, row } = self.lend(glance, source);
        let crew = Crew::new(&self.rt, CHUNK);
        let reply = answer_route(
            self.alloc,
            &glance.asker(),
            &back,
            source,
            target,
            row.as_ref(),
            &crew,
            &mut workspace,
        );
        let mut rows = self.shared.rows.lock(&self.rt);
        rows.leave(workspace);
        reply
    }
}
