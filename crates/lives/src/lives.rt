// A life of a keeper in a rehearsal, and what holds of it between two events.
ghost use Rattle.std.specs.Prelude.{◌≡◌, Some, option_map, ℕ};
ghost use Rattle.std.specs.Option.{ForSome};
ghost use Rattle.std.proofs.Props.{props};
ghost use Rattle.rows.specs.Kept.{IsWidth};
ghost use Rattle.lives.specs.Rehearsing.{IsLife};

use disk::Stoppable;
use keeper::Keeper;
use rows::View;
use std::sync::Arc;

/// A keeper from an opening of its store to the next stop, and the view that is set aside.
#[derive(Drop)]
pub(crate) struct Life<D: Stoppable> {
    pub(crate) keeper: Keeper<D>,
    /// The version that the store was opened at.
    pub(crate) opened: u64,
    /// The view of the task that is out.
    pub(crate) aside: Option<Arc<View>>,
    /// The width of the buckets that was given, if one was. Each view has it.
    pub(crate) delta: Option<u32>,
    ghost living: { IsLife keeper.machine opened (option_map (λ view. (view.value.version, view.value.network)) aside) } by { Prim.hlevel props },
    ghost width: { ForSome delta IsWidth },
    ghost shown: { (w : ℕ) → delta ≡ Some w → keeper.width ≡ w },
    ghost built: { (w : ℕ) → delta ≡ Some w → ForSome aside (λ view. view.value.delta ≡ w) },
}
