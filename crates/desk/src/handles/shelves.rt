// The rows that are kept for all callers of a desk.
ghost use Rattle.std.specs.Prelude.{◌≡◌, ◌<◌, ◌+◌, ◌-◌, [], length, drop, false, true, None, IfNone, IfOk, IfSome};
ghost use Rattle.roadnet.specs.Reversal.{reversed};
ghost use Rattle.roadnet.specs.Walks.{RowOf};
ghost use Rattle.snapshot.specs.Groups.{IsSnapshotOf};
ghost use Rattle.rows.specs.Backs.{LeadsBack};
ghost use Rattle.desk.specs.Readings.{IsViewAfter};
ghost use Rattle.desk.specs.Shelves.{most_rows, is_latest, IsOfShelf, IsAfter, IsRowAsked, IsAskedAt, IsNotAsked, IsKeptRowAt, HasNoRow, HasRow};

use crate::readers::places::Glance;
use deltastep::{Distances, Workspace};
use history::Front;
use office::Naming;
use roadnet::OutOfMemory;
use snapshot::Snapshot;
use std::alloc::Global;
use std::marker::{Model, PhantomData};
use std::sync::Arc;

/// How many rows are kept.
const MOST_ROWS: usize = 64;

/// How many searches' workspaces are kept.
const MOST_WORKSPACES: usize = 4;

/// How many sources without a row are remembered because they were asked.
const MOST_ASKED: usize = 64;

/// A row with its source.
#[derive(Drop)]
pub(crate) struct KeptRow {
    source: u32,
    distances: Distances,
}

/// What a query gets if its source has no kept row.
#[derive(Drop)]
pub(crate) struct Missed {
    /// The memory of a search.
    pub(crate) workspace: Workspace,
    /// Whether the source was asked before in the same view. Then its row is worth the search.
    pub(crate) again: bool,
}

/// The place of the row of this source, if it is among these.
fn place_of(rows: &[KeptRow], source: u32) -> Option<usize>
    ensures found { IfSome result (λ place. IsKeptRowAt source rows.now place) }
    ensures none { IfNone result (HasNoRow source rows.now) }
{
    for place in 0..rows.len() {
        if rows[place].source == source {
            return Some(place);
        }
    }
    None
}

/// The place of this version and source, if they are among these.
fn position_of(asked: &[(u64, u32)], version: u64, source: u32) -> Option<usize>
    ensures found { IfSome result (IsAskedAt version source asked.now) }
    ensures none { IfNone result (IsNotAsked version source asked.now) }
{
    for place in 0..asked.len() {
        if asked[place] == (version, source) {
            return Some(place);
        }
    }
    None
}

/// Rows that queries made, all of one view: up to 64, of 4 or 8 bytes a node, for all callers. If the shelf is full, the row that was not used for the
/// longest time gives way. It only has rows of the latest view that somebody asked, and the reversed arcs of that view, once somebody needed them: the open
/// ones, and for routes all of them with their numbers, if the view has none. It also keeps what up to four searches left, and up to 64 sources that were
/// asked once.
///
/// Contracts see it as the groups after which the view of the rows is shown, the rows, and what was asked.
#[derive(Drop)]
pub(crate) struct Shelf<N: Naming> {
    /// The groups after which the view of the rows is shown.
    groups: Option<Front>,
    /// The rows. The one that was used last is at the end.
    rows: Vec<KeptRow>,
    /// The open arcs of the view the other way round, grouped.
    turned: Option<Arc<Snapshot>>,
    /// All arcs of the view the other way round, with their numbers, if the view has none.
    back: Option<Arc<Snapshot>>,
    workspaces: Vec<Workspace>,
    /// The last versions and sources that were asked and had no row.
    asked: Vec<(u64, u32)>,
    of: PhantomData<N>,
}

impl<N: Naming> Model for Shelf<N> {
    ghost use Rattle.std.specs.Prelude.{◌≤◌};
    ghost use Rattle.std.specs.Option.{ForSome};
    ghost use Rattle.std.specs.Vec.{vec_capacity, vec_len};
    ghost use Rattle.desk.specs.Shelves.{most_rows, IsBackOf, IsShelfOf, IsTurnedOf, Shelved};

    ghost Value = { Shelved };

    ghost view = { λ s. record { groups = s.groups; rows = s.rows.items; asked = s.asked.items } };

    ghost invariant = { λ s.
        IsShelfOf N.origin s.groups s.rows.items
        × (most_rows ≤ vec_capacity s.rows)
        × (vec_len s.rows ≤ most_rows)
        × ForSome s.turned (λ back. IsTurnedOf N.origin s.groups back.value)
        × ForSome s.back (λ back. IsBackOf N.origin s.groups back.value) };
}

impl<N: Naming> Shelf<N> {
    /// An empty shelf. The only error is lack of memory, of which it takes some kilobytes.
    pub(crate) fn new(alloc: Global) -> Result<Shelf<N>, OutOfMemory>
        ensures { IfOk result (λ shelf. (shelf.groups ≡ None) × (shelf.rows ≡ [])) }
    {
        let (Ok(rows), Ok(workspaces), Ok(asked)) = (
            Vec::with_capacity(alloc, MOST_ROWS),
            Vec::with_capacity(alloc, MOST_WORKSPACES),
            Vec::with_capacity(alloc, MOST_ASKED),
        ) else {
            return Err(OutOfMemory);
        };
        Ok(Shelf {
            groups: None,
            rows,
            turned: None,
            back: None,
            workspaces,
            asked,
            of: PhantomData,
        })
    }

    /// Makes it a shelf of this view, unless it has rows of a later one, and returns whether it is one. It drops what it has of an earlier view.
    fn turn_to(&mut self, glance: &Glance<N>) -> bool
        ensures latest { result ≡ is_latest self.old.groups glance.now.known.groups }
        ensures after { result ≡ true → IsAfter self.new.groups glance.now.known.groups }
        ensures view { IsViewAfter N.origin glance.now.known.groups glance.now.view }
    {
        let groups = glance.groups();
        if let Some(front) = &self.groups {
            if groups.begins(front) {
                return front.len() == groups.len();
            }
        }
        self.rows.clear();
        self.turned = None;
        self.back = None;
        self.groups = Some(groups.again());
        true
    }

    /// A share of the row of this source in this view, if it is kept. It then counts as the one that was used last.
    pub(crate) fn row(&mut self, glance: &Glance<N>, source: u32) -> Option<Distances>
        ensures row { IfSome result (RowOf glance.now.view.network source) }
        ensures kept { IfSome result (λ _. HasRow source self.new.rows) }
    {
        if !self.turn_to(glance) {
            return None;
        }
        let place = place_of(&self.rows, source)?;
        let kept = self.rows.remove(place);
        let shared = kept.distances.share();
        self.rows.push_reserved(kept);
        match shared {
            Ok(row) => Some(row),
            Err(_) => None,
        }
    }

    /// A share of the reversed arcs of this view, if they are kept.
    pub(crate) fn turned(&mut self, glance: &Glance<N>) -> Option<Arc<Snapshot>>
        ensures { IfSome result (λ back. IsSnapshotOf (reversed glance.now.view.network) back.value) }
    {
        if !self.turn_to(glance) {
            return None;
        }
        let Some(back) = &self.turned else {
            return None;
        };
        let Ok(share) = Arc::try_clone(back) else {
            return None;
        };
        Some(share)
    }

    /// Keeps the reversed arcs of this view, unless the shelf has rows of a later one.
    pub(crate) fn keep_turned(&mut self, glance: &Glance<N>, back: Arc<Snapshot>)
        requires { IsSnapshotOf (reversed glance.now.view.network) back.value }
    {
        if self.turn_to(glance) {
            self.turned = Some(back);
        }
    }

    /// A share of all arcs of this view the other way round, with their numbers, if they are kept.
    pub(crate) fn back(&mut self, glance: &Glance<N>) -> Option<Arc<Snapshot>>
        ensures { IfSome result (λ back. LeadsBack glance.now.view.network back.value) }
    {
        if !self.turn_to(glance) {
            return None;
        }
        let Some(back) = &self.back else {
            return None;
        };
        let Ok(share) = Arc::try_clone(back) else {
            return None;
        };
        Some(share)
    }

    /// Keeps all arcs of this view the other way round, with their numbers, unless it has rows of a later one.
    pub(crate) fn keep_back(&mut self, glance: &Glance<N>, back: Arc<Snapshot>)
        requires { LeadsBack glance.now.view.network back.value }
    {
        if self.turn_to(glance) {
            self.back = Some(back);
        }
    }

    /// Makes room for one more row: if the shelf is full, the first row gives way.
    fn make_room(&mut self)
        ensures groups { self.new.groups ≡ self.old.groups }
        ensures few { length self.new.rows < most_rows }
        ensures first { self.new.rows ≡ drop (length self.old.rows + 1 - most_rows) self.old.rows }
    {
        if self.rows.len() < MOST_ROWS {
            return;
        }
        let _unused = self.rows.remove(0);
    }

    /// Appends a row of the shelf's view.
    fn put(&mut self, kept: KeptRow)
        requires { IsOfShelf N.origin self.old.groups kept }
        ensures { HasRow kept.source self.new.rows }
    {
        self.make_room();
        self.rows.push_reserved(kept);
    }

    /// Keeps a row of this view, unless the shelf has rows of a later one, or already has a row of the source.
    pub(crate) fn keep(&mut self, glance: &Glance<N>, source: u32, distances: Distances)
        requires { RowOf glance.now.view.network source distances }
        ensures { is_latest self.old.groups glance.now.known.groups ≡ true → HasRow source self.new.rows }
    {
        if !self.turn_to(glance) {
            return;
        }
        match place_of(&self.rows, source) {
            Some(_) => (),
            None => self.put(KeptRow { source, distances }),
        }
    }

    /// Whether this source is remembered for this version. If so, it is forgotten; otherwise it is remembered from now on. If there are 64 already, the
    /// first of them gives way.
    fn is_asked_again(&mut self, version: u64, source: u32) -> bool
        ensures again { result ≡ true → IsRowAsked version source self.old.asked }
        ensures first { result ≡ false → IsNotAsked version source self.old.asked }
        ensures groups { self.new.groups ≡ self.old.groups }
        ensures rows { self.new.rows ≡ self.old.rows }
    {
        if let Some(place) = position_of(&self.asked, version, source) {
            let _again = self.asked.remove(place);
            return true;
        }
        if self.asked.len() == MOST_ASKED {
            let _first = self.asked.remove(0);
        }
        let _ = self.asked.push((version, source));
        false
    }

    /// The memory of a search: what an earlier search left, if there is something.
    pub(crate) fn workspace(&mut self) -> Workspace {
        match self.workspaces.pop() {
            Some(workspace) => workspace,
            None => Workspace::new(),
        }
    }

    /// What a search for this source gets in this view, in which the source has no kept row: what an earlier search left, if there is something.
    pub(crate) fn missed(&mut self, glance: &Glance<N>, source: u32) -> Missed
        // The source is worth a row if it was asked before in the same version.
        ensures again { result.again ≡ true → IsRowAsked glance.now.view.version source self.old.asked }
        ensures first { result.again ≡ false → IsNotAsked glance.now.view.version source self.old.asked }
    {
        let again = self.is_asked_again(glance.version(), source);
        let workspace = self.workspace();
        Missed { workspace, again }
    }

    /// Keeps what a search left, unless four are kept already.
    pub(crate) fn leave(&mut self, workspace: Workspace) {
        if self.workspaces.len() < MOST_WORKSPACES {
            let _ = self.workspaces.push(workspace);
        }
    }
}
