// The beginning of an office.
ghost use Rattle.std.specs.Prelude.{◌≡◌, [], true, IfOk};
ghost use Rattle.store.specs.State.{CameTidy, is_calm};
ghost use Rattle.machine.specs.Machine.{start};
ghost use Rattle.keeper.specs.Keeping.{sizes_of};

use crate::naming::Naming;
use disk::Disk;
use history::History;
use keeper::Keeper;
use published::{Published, Publisher};
use roadnet::OutOfMemory;
use rows::View;
use std::alloc::Global;
use std::marker::{Model, PhantomData};
use std::sync::{Arc, Wait};
use store::Store;

/// The state under a desk's lock. Contracts see it as its keeper, from which the content of the history and what readers see follow.
#[derive(Drop)]
pub struct Office<N: Naming, D: Disk> {
    pub(crate) keeper: Keeper<D>,
    pub(crate) history: History,
    pub(crate) publisher: Publisher,
    pub(crate) of: PhantomData<N>,
}

impl<N: Naming, D: Disk> Model for Office<N, D> {
    ghost use Rattle.store.specs.State.{CameTidy};
    ghost use Rattle.keeper.specs.Keeping.{Keeping};
    ghost use Rattle.office.specs.Offices.{IsOffice};

    ghost Value = { Keeping D };

    ghost view = { λ o. o.keeper };

    ghost invariant = { λ o. IsOffice N.origin o.keeper.machine o.keeper.width o.history o.publisher × (N.came_tidy → CameTidy D.honest D.content o.keeper.given) };
}

impl<N: Naming, D: Disk> Office<N, D> {
    /// An office over a store that is not broken, with the history of a new desk: nothing is pending, and this view of the store's network and version is
    /// shown. The width of the office's searches is the view's.
    ///
    /// The only error is lack of memory; then the store is dropped.
    pub fn new<R: Wait>(
        rt: &R,
        alloc: Global,
        history: History,
        store: Store<D>,
        view: Arc<View>,
    ) -> Result<Office<N, D>, OutOfMemory>
    where
        D: Drop,
        requires calm { is_calm store ≡ true }
        requires view { (view.value.network ≡ store.network) × (view.value.version ≡ store.version) }
        requires origin { (N.origin.base ≡ store.network) × (N.origin.version ≡ store.version) }
        requires history { (history.origin ≡ N.origin) × (history.groups ≡ []) × (history.acknowledged ≡ 0) }
        requires came_tidy { N.came_tidy → CameTidy D.honest D.content store.given }
        ensures begins { IfOk result (λ office. office.machine ≡ start (sizes_of store) store.network store.version store.unchecked) }
        ensures disk { IfOk result (λ office. office.disk ≡ store.disk) }
        ensures width { IfOk result (λ office. office.width ≡ view.value.delta) }
        ensures given { IfOk result (λ office. office.given ≡ store.given) }
    {
        let Ok(keeper) = Keeper::showing(alloc, store, view) else {
            return Err(OutOfMemory);
        };
        let Ok(view) = Arc::try_clone(keeper.view()) else {
            return Err(OutOfMemory);
        };
        let first = Published::new(view, history.front(0));
        let publisher = Publisher::new(rt, alloc, first)?;
        Ok(Office {
            keeper,
            history,
            publisher,
            of: PhantomData,
        })
    }
}
