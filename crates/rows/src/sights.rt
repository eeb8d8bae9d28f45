ghost use Rattle.std.specs.Prelude.{◌≡◌, ℕ, [], IfOk, IsOk, IsSome};
ghost use Rattle.rows.specs.declared.queries.Query.TheVariants.{From, Lower};
ghost use Rattle.rows.specs.Replies.{query_refusal_of, IsRight};
ghost use Rattle.rows.specs.Views.{AreRight};

use crate::queries::{Query, Reply};
use crate::views::View;
use kept_rows::{DEFAULT_ROWS, RowCache};
use roadnet::OutOfMemory;
use std::alloc::Global;
use std::marker::Model;
use std::sync::Arc;
use std::thread::Threads;

/// A view with the rows that queries of it made: up to 16, of 4 or 8 bytes a node. Whoever shows views, or looks at shown views, has one.
#[derive(Drop)]
pub struct Sight {
    view: Arc<View>,
    cache: RowCache,
}

impl Model for Sight {
    ghost use Rattle.rows.specs.Views.{Viewed};
    ghost use Rattle.std.specs.Prelude.{◌≡◌};
    ghost use Rattle.kept_rows.specs.Cached.{capacity_of, HasRowsOf};

    ghost Value = { Viewed };

    ghost view = { λ s. s.view.value };

    ghost invariant = { λ s. HasRowsOf s.view.value.version s.view.value.network s.cache × (capacity_of s.cache ≡ 16) };
}

impl Sight {
    /// A sight that keeps no row yet. It takes no memory.
    pub fn new(alloc: Global, view: Arc<View>) -> Sight
        ensures { result ≡ view.value }
    {
        Sight {
            view,
            cache: RowCache::new(alloc, DEFAULT_ROWS),
        }
    }

    /// Its version.
    pub fn version(&self) -> u64
        ensures { result ≡ self.now.version }
    {
        self.view.version()
    }

    /// The view.
    pub fn view(&self) -> &Arc<View>
        ensures { result.now.value ≡ self.now }
    {
        &self.view
    }

    /// The width of the buckets of its searches.
    pub fn width(&self) -> u32
        ensures { result ≡ self.now.delta }
    {
        self.view.width()
    }

    /// Replaces the view by another, of any network. No row is kept.
    pub fn show(&mut self, view: Arc<View>)
        ensures { self.new ≡ view.value }
    {
        self.cache.clear();
        self.view = view;
    }

    /// Replaces the view by another of the same history. The rows are kept if it is of the same version.
    pub fn look_at(&mut self, view: Arc<View>)
        requires { view.value.version ≡ self.old.version → view.value.network ≡ self.old.network }
        ensures { self.new ≡ view.value }
    {
        if view.version() != self.view.version() {
            self.cache.clear();
        }
        self.view = view;
    }

    /// The reply to a query. The only error is lack of memory for a row; a refused query takes none, nor does `From` or `Lower`.
    pub fn answer<R: Threads>(
        &mut self,
        rt: &R,
        alloc: Global,
        query: &Query,
    ) -> Result<Reply, OutOfMemory>
        ensures right { IfOk result (IsRight self.old.network query.now) }
        ensures refused { IsSome (query_refusal_of self.old.network query.now) → IsOk result }
        ensures landmark { (l t : ℕ) → query.now ≡ From l t → IsOk result }
        ensures lower { (s t : ℕ) → query.now ≡ Lower s t → IsOk result }
        ensures same { self.new ≡ self.old }
    {
        let mut pinned = self.view.pinned(&mut self.cache);
        pinned.answer(rt, alloc, query)
    }

    /// The replies to `Dist` for pairs.
    pub fn batch<R: Threads>(
        &mut self,
        rt: &R,
        alloc: Global,
        pairs: &[(u64, u64)],
    ) -> Result<Vec<Reply>, OutOfMemory>
        ensures right { IfOk result (λ replies. AreRight self.old.network pairs.now replies.items) }
        ensures empty { pairs.now ≡ [] → IsOk result }
        ensures same { self.new ≡ self.old }
    {
        let mut pinned = self.view.pinned(&mut self.cache);
        pinned.batch(rt, alloc, pairs)
    }
}
