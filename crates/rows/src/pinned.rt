ghost use Rattle.std.specs.Prelude.{◌≡◌, ℕ, [], None, IfOk, IsOk, IsSome, OnErr};
ghost use Rattle.kept_rows.specs.Cached.{KeepsOthers, HasRowsOf, HasUsed, capacity_of, row_kept, rows_of};
ghost use Rattle.rows.specs.Replies.{IsRight, query_refusal_of};
ghost use Rattle.rows.specs.Views.{AreRight};
ghost use Rattle.rows.specs.Pins.{viewed, cached, HasOwnRows, HasAnswered, IsSamePin};
ghost use Rattle.rows.specs.declared.queries.Query.TheVariants.{Dist, From, Lower};

use crate::answers::reply_by;
use crate::batches::replies_to;
use crate::ends::NumberPair;
use crate::queries::{Query, Reply};
use crate::views::View;
use kept_rows::RowCache;
use roadnet::OutOfMemory;
use std::alloc::Global;
use std::thread::Threads;

/// A view that answers queries, with a cache for the rows that they make.
#[derive(Drop)]
pub struct Pinned<'a> {
    view: &'a View,
    cache: &'a mut RowCache,
}

impl<'a> Pinned<'a> {
    pub(crate) fn new(view: &'a View, cache: &'a mut RowCache) -> Pinned<'a>
        ensures view { viewed result ≡ view.now }
        ensures cache { cached result ≡ cache.old }
        ensures same { result.cache.ghost_name ≡ cache.entry.ghost_name }
    {
        Pinned { view, cache }
    }

    /// The version of the network that is asked. It takes no memory.
    pub fn version(&self) -> u64
        ensures { result ≡ (viewed self.now).version }
    {
        let view = self.view;
        view.version()
    }

    /// The width of the buckets of its searches. It takes no memory.
    pub fn width(&self) -> u32
        ensures { result ≡ (viewed self.now).delta }
    {
        let view = self.view;
        view.width()
    }

    /// The reply to `From`, from the landmark's row, as `View::from_landmark` gives it. It takes no memory.
    pub fn from_landmark(&self, landmark: u64, target: u64) -> Reply
        ensures { IsRight (viewed self.now).network (From landmark target) result }
    {
        let view = self.view;
        view.from_landmark(landmark, target)
    }

    /// The reply to `Lower`, from the rows of all landmarks, as `View::lower` gives it. It takes no memory.
    pub fn lower(&self, source: u64, target: u64) -> Reply
        ensures { IsRight (viewed self.now).network (Lower source target) result }
    {
        let view = self.view;
        view.lower(source, target)
    }

    /// The reply to `Dist`, from a row of the cache, or from a new one, which the cache then keeps if there is memory for it. The only error is lack of
    /// memory for a new row; then what the cache keeps stays as it was. A refused query takes none.
    ///
    /// In the network of `examples/six.gr`, from 1 to 6 it is `Length(15)`, from 6 to 1 `NoWalk`, and from 1 to 7 `Refused(NoSuchNode)`.
    pub fn dist<R: Threads>(
        &mut self,
        rt: &R,
        alloc: Global,
        source: u64,
        target: u64,
    ) -> Result<Reply, OutOfMemory>
        requires { HasOwnRows self.old }
        ensures right { IfOk result (IsRight (viewed self.old).network (Dist source target)) }
        ensures refused { IsSome (query_refusal_of (viewed self.old).network (Dist source target)) → IsOk result }
        ensures kept { HasOwnRows self.new }
        ensures others { KeepsOthers (viewed self.old).version (cached self.old) (cached self.new) }
        ensures held { IsSome (row_kept (viewed self.old).version source (cached self.old)) → IsOk result }
        ensures used { query_refusal_of (viewed self.old).network (Dist source target) ≡ None → HasUsed (viewed self.old).version source (cached self.old) (cached self.new) }
        ensures unused { IsSome (query_refusal_of (viewed self.old).network (Dist source target)) → rows_of (cached self.new) ≡ rows_of (cached self.old) }
        ensures cut { OnErr result (rows_of (cached self.new) ≡ rows_of (cached self.old)) }
        ensures capacity { capacity_of (cached self.new) ≡ capacity_of (cached self.old) }
        ensures same { IsSamePin self.old self.new }
    {
        let view = self.view;
        let (version, network) = (view.version(), view.network());
        reply_by(
            rt,
            alloc,
            version,
            network,
            view.snapshot(),
            self.cache,
            source,
            target,
        )
    }

    /// The replies to `Dist` for pairs of a source and a target, in their order, each as `dist` gives it. Whatever the order, each source whose row is not
    /// kept is searched once; or, if there are fewer targets, each target is, over the reversed arcs. Up to four searches are made side by side. The only
    /// error is lack of memory, for 20 bytes a pair, a flag a node and a row; rows of sources that were made by then may be kept.
    ///
    /// In the network of `examples/six.gr`, the pairs (1, 6) and (6, 1) give `Length(15)` and `NoWalk`.
    pub fn batch<R: Threads>(
        &mut self,
        rt: &R,
        alloc: Global,
        pairs: &[(u64, u64)],
    ) -> Result<Vec<Reply>, OutOfMemory>
        requires { HasOwnRows self.old }
        ensures right { IfOk result (λ replies. AreRight (viewed self.old).network pairs.now replies.items) }
        ensures empty { pairs.now ≡ [] → IsOk result }
        ensures kept { HasOwnRows self.new }
        ensures others { KeepsOthers (viewed self.old).version (cached self.old) (cached self.new) }
        ensures capacity { capacity_of (cached self.new) ≡ capacity_of (cached self.old) }
        ensures same { IsSamePin self.old self.new }
    {
        let view = self.view;
        let (version, network) = (view.version(), view.network());
        replies_to(
            rt,
            alloc,
            version,
            network,
            view.snapshot(),
            self.cache,
            &NumberPair,
            pairs,
        )
    }

    /// The reply to a query. The only error is lack of memory for the row of `Dist`; then what the cache keeps stays as it was. A refused query takes none.
    ///
    /// In the network of `examples/six.gr` with the landmark 3, `Dist { source: 1, target: 6 }` is `Length(15)`, `From { landmark: 3, target: 4 }`
    /// `Length(2)` and `Lower { source: 5, target: 6 }` `AtLeast(5)`.
    pub fn answer<R: Threads>(
        &mut self,
        rt: &R,
        alloc: Global,
        query: &Query,
    ) -> Result<Reply, OutOfMemory>
        requires { HasOwnRows self.old }
        ensures right { IfOk result (IsRight (viewed self.old).network query.now) }
        ensures refused { IsSome (query_refusal_of (viewed self.old).network query.now) → IsOk result }
        ensures landmark { (l t : ℕ) → query.now ≡ From l t → IsOk result }
        ensures lower { (s t : ℕ) → query.now ≡ Lower s t → IsOk result }
        ensures held { (s t : ℕ) → query.now ≡ Dist s t → IsSome (row_kept (viewed self.old).version s (cached self.old)) → IsOk result }
        ensures used { HasAnswered (viewed self.old).version (viewed self.old).network query.now (cached self.old) (cached self.new) }
        ensures kept { HasOwnRows self.new }
        ensures others { KeepsOthers (viewed self.old).version (cached self.old) (cached self.new) }
        ensures cut { OnErr result (rows_of (cached self.new) ≡ rows_of (cached self.old)) }
        ensures capacity { capacity_of (cached self.new) ≡ capacity_of (cached self.old) }
        ensures same { IsSamePin self.old self.new }
    {
        match *query {
            Query::Dist { source, target } => self.dist(rt, alloc, source, target),
            Query::From { landmark, target } => Ok(self.from_landmark(landmark, target)),
            Query::Lower { source, target } => Ok(self.lower(source, target)),
        }
    }
}
