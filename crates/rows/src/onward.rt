//! What a view hands on to the view of a newer network, with the arcs that were laid since.

ghost use Rattle.std.specs.Prelude.{◌≡◌, IfOk};
ghost use Rattle.roadnet.specs.Ends.{KeepsEnds};
ghost use Rattle.snapshot.specs.Blocks.{AreArcsByBlock};
ghost use Rattle.rows.specs.Backs.{LeadsBack};

use crate::backs::{numbered_back, numbered_back_after};
use crate::views::View;
use roadnet::OutOfMemory;
use shared_network::SharedNetwork;
use snapshot::{ArcIndex, Snapshot};
use std::alloc::Global;
use std::sync::Arc;

/// The value, to be shared. The only error is lack of memory.
fn shared<T: Drop>(alloc: Global, value: T) -> Result<Arc<T>, OutOfMemory>
    ensures { IfOk result (λ shared. shared.value ≡ value) }
{
    match Arc::new(alloc, value) {
        Ok(shared) => Ok(shared),
        Err(_) => Err(OutOfMemory),
    }
}

impl View {
    /// The index of a newer network's arcs: that of this view, if it has one, with the arcs that were laid since; otherwise it is made anew. The only error is
    /// lack of memory.
    pub fn index_after(
        &self,
        alloc: Global,
        newer: &SharedNetwork,
    ) -> Result<Arc<ArcIndex>, OutOfMemory>
        requires { KeepsEnds self.now.network newer.now }
        ensures { IfOk result (λ index. AreArcsByBlock newer.now.nodes newer.now.arcs index.value) }
    {
        let older = self.network();
        let Some(index) = self.index() else {
            return shared(alloc, ArcIndex::build(alloc, newer)?);
        };
        if older.arcs().len() == newer.arcs().len() {
            return Ok(index);
        }
        shared(alloc, index.after(alloc, older, newer)?)
    }

    /// All arcs of a newer network the other way round, with their numbers: those of this view, if it has them, with the arcs that were laid since; otherwise
    /// they are made anew. The only error is lack of memory.
    pub fn back_after(
        &self,
        alloc: Global,
        newer: &SharedNetwork,
    ) -> Result<Arc<Snapshot>, OutOfMemory>
        requires { KeepsEnds self.now.network newer.now }
        ensures { IfOk result (λ back. LeadsBack newer.now back.value) }
    {
        let older = self.network();
        let Some(back) = self.back() else {
            return shared(alloc, numbered_back(alloc, newer)?);
        };
        if older.arcs().len() == newer.arcs().len() {
            return Ok(back);
        }
        shared(alloc, numbered_back_after(alloc, &back, older, newer)?)
    }
}
