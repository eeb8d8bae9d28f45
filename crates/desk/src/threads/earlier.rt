// The views that were shown before.

use rows::View;
use std::alloc::Global;
use std::sync::Arc;

/// Views that were shown before, which readers may still hold. The builder has each until nobody else does, so that it lets the memory go, and no reader who
/// answers has to.
#[derive(Drop)]
pub(crate) struct Earlier {
    views: Vec<Arc<View>>,
}

impl Earlier {
    /// No views yet. It takes no memory.
    pub(crate) fn none(alloc: Global) -> Earlier {
        Earlier {
            views: Vec::new(alloc),
        }
    }

    /// Takes a view in. If there is no memory for that, its holders let it go.
    pub(crate) fn keep(&mut self, view: Arc<View>) {
        let _kept = self.views.push(view);
    }

    /// Lets those views go that nobody else has.
    pub(crate) fn let_go(&mut self) {
        self.views.retain_mut(|view| Arc::get_mut(view).is_none());
    }
}
