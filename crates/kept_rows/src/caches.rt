ghost use Rattle.std.specs.Prelude.{◌≡◌, ◌≤◌};
ghost use Rattle.std.specs.Option.{ForSome};
ghost use Rattle.std.specs.NonZero.{non_zero_usize_get};

use deltastep::{Distances, Workspace};
use lru::LruCache;
use std::alloc::Global;
use std::num::NonZeroUsize;

/// How many rows a cache keeps by default: 16, of 4 or 8 bytes a node each. 1 to 64 are allowed.
pub const DEFAULT_ROWS: u32 = 16;

/// Rows that queries made, by version and source, up to a number of them. If the cache is full, the row that was not used for the longest time gives way.
/// It takes 4 or 8 bytes a node for each row. What a search needs beside its row is kept for the next one.
#[derive(Drop)]
pub struct RowCache {
    alloc: Global,
    capacity: NonZeroUsize,
    rows: Option<LruCache<(u64, u32), Distances>>,
    /// The version and the source that were given to `is_wanted` last.
    asked: Option<(u64, u32)>,
    /// What a search takes beside its row, for the next one.
    pub workspace: Workspace,
    ghost sized: { ForSome rows (λ rows. rows.cap ≡ non_zero_usize_get capacity) },
}

impl RowCache {
    ghost use Rattle.std.specs.Prelude.{◌≡◌, ◌≤◌, ◌⊎◌, ℕ, List, [], Option, None, length, All, Contains, IsSome, IfSome, MatchOption};
    ghost use Rattle.roadnet.specs.Net.{Net};
    ghost use Rattle.roadnet.specs.Walks.{RowOf, distance_at};
    ghost use Rattle.kept_rows.specs.Cached.{capacity_of, kept_row, rows_of, HasRowsOf, HasNoNewRow, HasOneNewRow, KeepsOthers, row_kept, rows_used, rows_put};

    /// An empty cache for so many rows, 1 to 64. It takes no memory before the first row is kept.
    pub fn new(alloc: Global, capacity: u32) -> RowCache
        requires { (1 ≤ capacity) × (capacity ≤ 64) }
        ensures capacity { capacity_of result ≡ capacity }
        ensures empty { rows_of result ≡ [] }
    {
        let Some(capacity) = NonZeroUsize::new(capacity as usize) else {
            unreachable!();
        };
        RowCache {
            alloc,
            capacity,
            rows: None,
            asked: None,
            workspace: Workspace::new(),
        }
    }

    /// How many rows it may keep.
    pub fn capacity(&self) -> usize
        ensures { result ≡ capacity_of self.now }
    {
        self.capacity.get()
    }

    /// How many rows it keeps.
    pub fn len(&self) -> usize
        ensures rows { result ≡ length (rows_of self.now) }
        ensures within { result ≤ capacity_of self.now }
    {
        match &self.rows {
            Some(rows) => rows.len(),
            None => 0,
        }
    }

    /// Drops all rows. It takes no memory.
    pub fn clear(&mut self)
        ensures empty { rows_of self.new ≡ [] }
        ensures capacity { capacity_of self.new ≡ capacity_of self.old }
    {
        self.rows = None;
    }

    /// The length that the row of this version and source has for a node, if that row is kept: it then counts as used.
    pub fn find(&mut self, version: u64, source: u32, target: u64) -> Option<Option<u64>>
        ensures found { IfSome result (λ length. (row : List (Option ℕ)) × Contains (rows_of self.old) (kept_row version source row) × (length ≡ distance_at row target)) }
        ensures rows { HasNoNewRow self.old self.new }
        ensures missed { result ≡ None → rows_of self.new ≡ rows_of self.old }
        ensures held { MatchOption result (row_kept version source self.old ≡ None) (λ _. IsSome (row_kept version source self.old)) }
        ensures used { rows_of self.new ≡ rows_used version source self.old }
        ensures capacity { capacity_of self.new ≡ capacity_of self.old }
    {
        let Some(rows) = &mut self.rows else {
            return None;
        };
        let row = rows.get(&(version, source))?;
        Some(row.get(target))
    }

    /// Whether the row of this version and source is kept.
    pub fn has(&self, version: u64, source: u32) -> bool {
        match &self.rows {
            Some(rows) => rows.contains(&(version, source)),
            None => false,
        }
    }

    /// Whether a whole row of this version and source is wanted: it is kept, or they were the ones asked last. From now on they are the ones asked last.
    pub fn is_wanted(&mut self, version: u64, source: u32) -> bool
        ensures rows { rows_of self.new ≡ rows_of self.old }
        ensures capacity { capacity_of self.new ≡ capacity_of self.old }
    {
        let again = match self.asked {
            Some(last) => last == (version, source),
            None => false,
        };
        self.asked = Some((version, source));
        again || self.has(version, source)
    }

    /// Whether the row of this version and source is kept. If so, it counts as used.
    pub fn promote(&mut self, version: u64, source: u32) -> bool
        ensures rows { HasNoNewRow self.old self.new }
        ensures capacity { capacity_of self.new ≡ capacity_of self.old }
    {
        match &mut self.rows {
            Some(rows) => rows.promote(&(version, source)),
            None => false,
        }
    }

    /// Makes the map, if it is not made yet and there is memory for it.
    fn make_map(&mut self)
        ensures rows { rows_of self.new ≡ rows_of self.old }
        ensures capacity { capacity_of self.new ≡ capacity_of self.old }
    {
        if self.rows.is_some() {
            return;
        }
        if let Ok(rows) = LruCache::sparse(self.alloc, self.capacity) {
            self.rows = Some(rows);
        }
    }

    /// Keeps a row. If there is no memory for it, it is dropped, and what was kept stays.
    pub fn keep(&mut self, version: u64, source: u32, distances: Distances)
        ensures rows { HasOneNewRow self.old self.new version source distances }
        ensures put { (rows_of self.new ≡ rows_of self.old) ⊎ (rows_of self.new ≡ rows_put version source distances self.old) }
        ensures capacity { capacity_of self.new ≡ capacity_of self.old }
    {
        self.make_map();
        let Some(rows) = &mut self.rows else {
            return;
        };
        let _ = rows.put((version, source), distances);
    }

    /// Keeps rows of nodes, each given with its node, as far as memory allows. The first counts as used last.
    pub fn keep_all(&mut self, version: u64, mut rows: Vec<(u32, Distances)>)
        ensures kept { (net : Net) → All (λ made. RowOf net made.0 made.1) rows.items → HasRowsOf version net self.old → HasRowsOf version net self.new }
        ensures others { KeepsOthers version self.old self.new }
        ensures capacity { capacity_of self.new ≡ capacity_of self.old }
    {
        while let Some((source, distances)) = rows.pop() {
            self.keep(version, source, distances);
        }
    }
}
