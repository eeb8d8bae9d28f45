//! An asker of a network that keeps rows of it.

ghost use Rattle.std.specs.Prelude.{◌≡◌, true, IfOk, IfErr, IsOk, IsSome, OnOk};
ghost use Rattle.roadnet.specs.Net.{IsNode};
ghost use Rattle.roadnet.specs.Step.{is_node};
ghost use Rattle.kept_rows.specs.Cached.{HasRowsOf, capacity_of};
ghost use Rattle.rows.specs.Nearby.{node_of, IsNear, IsUntold};
ghost use Rattle.rows.specs.Replies.{IsDistance, IsRight, query_refusal_of};
ghost use Rattle.rows.specs.declared.queries.Query.TheVariants.{Dist, From};

use crate::answers::refusal_of;
use crate::askers::Asker;
use crate::cached::{distance, near_of, stopped};
use crate::nearby::Near;
use crate::queries::{Query, Reply};
use deltastep::NodeDistance;
use kept_rows::RowCache;
use relax::{CHUNK, Crew};
use roadnet::{OutOfMemory, Refusal};
use std::alloc::Global;
use std::thread::Threads;

impl Asker<'_> {
    /// The distance between two nodes: from the row of the source, if it is kept; by a new row, which is then kept, if the source is also the one that was
    /// asked last; otherwise by a search that ends at the target.
    fn told<R: Threads>(
        &self,
        rt: &R,
        alloc: Global,
        cache: &mut RowCache,
        source: u32,
        target: u32,
    ) -> Result<Reply, OutOfMemory>
        requires source { IsNode self.now.network source }
        requires target { IsNode self.now.network target }
        requires rows { HasRowsOf self.now.version self.now.network cache.old }
        ensures distance { IfOk result (IsDistance self.now.network source target) }
        ensures kept { HasRowsOf self.now.version self.now.network cache.new }
    {
        let version = self.version();
        if cache.is_wanted(version, source) {
            return distance(
                rt,
                alloc,
                cache,
                version,
                self.groups(),
                source,
                u64::from(target),
            );
        }
        stopped(rt, alloc, cache, self, source, target)
    }

    /// The reply to `Dist`, for an asker that asks now of one source and now of another: from the row of the source, if it is kept; by a new row, which is
    /// then kept if there is memory for it, if the source is also the one that was asked last; otherwise by a search that ends at the target. The only
    /// error is lack of memory for a search; a refused query takes none.
    pub fn ask<R: Threads>(
        &self,
        rt: &R,
        alloc: Global,
        cache: &mut RowCache,
        source: u64,
        target: u64,
    ) -> Result<Reply, OutOfMemory>
        requires { HasRowsOf self.now.version self.now.network cache.old }
        ensures right { IfOk result (IsRight self.now.network (Dist source target)) }
        ensures refused { IsSome (query_refusal_of self.now.network (Dist source target)) → IsOk result }
        ensures kept { HasRowsOf self.now.version self.now.network cache.new }
    {
        let query = Query::Dist { source, target };
        if let Some(refusal) = refusal_of(self.network(), &query) {
            return Ok(Reply::Refused(refusal));
        }
        self.told(rt, alloc, cache, source as u32, target as u32)
    }

    /// The reply to `From`, as `ask` gives that to `Dist`: for a network without rows of landmarks. The only error is lack of memory for a search; a
    /// refused query takes none.
    pub fn ask_from<R: Threads>(
        &self,
        rt: &R,
        alloc: Global,
        cache: &mut RowCache,
        landmark: u64,
        target: u64,
    ) -> Result<Reply, OutOfMemory>
        requires { HasRowsOf self.now.version self.now.network cache.old }
        ensures right { IfOk result (IsRight self.now.network (From landmark target)) }
        ensures refused { IsSome (query_refusal_of self.now.network (From landmark target)) → IsOk result }
        ensures kept { HasRowsOf self.now.version self.now.network cache.new }
    {
        let query = Query::From { landmark, target };
        if let Some(refusal) = refusal_of(self.network(), &query) {
            return Ok(Reply::Refused(refusal));
        }
        self.told(rt, alloc, cache, landmark as u32, target as u32)
    }

    /// The nodes near a node, as `near` gives them, with the memory of a cache's searches. It uses no row that is kept, and keeps none.
    pub fn ask_near<R: Threads>(
        &self,
        rt: &R,
        alloc: Global,
        cache: &mut RowCache,
        near: Near,
    ) -> Result<Vec<NodeDistance>, Refusal>
        requires { HasRowsOf self.now.version self.now.network cache.old }
        ensures near { IfOk result (λ told. IsNear self.now.network near told.items) }
        ensures node { OnOk result (is_node self.now.network (node_of near) ≡ true) }
        ensures causes { IfErr result (IsUntold (is_node self.now.network (node_of near))) }
        ensures kept { HasRowsOf self.now.version self.now.network cache.new }
    {
        near_of(rt, alloc, cache, self, near)
    }
}
