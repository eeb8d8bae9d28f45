ghost use Rattle.std.specs.Prelude.{◌≡◌, ◌+◌, length, Some};
ghost use Rattle.roadnet.specs.Step.{after};

use history::Front;
use rows::View;
use std::marker::Model;
use std::sync::Arc;

/// A shown view, with the groups after which it is shown: its network is the desk's base after these groups, and its version is the base's plus the number
/// of groups.
#[derive(Drop)]
pub struct Published {
    pub(crate) view: Arc<View>,
    pub(crate) groups: Front,
}

impl Model for Published {
    ghost use Rattle.std.specs.Prelude.{◌≡◌, ◌+◌, length, Some};
    ghost use Rattle.roadnet.specs.Step.{after};
    ghost use Rattle.published.specs.Showing.{Showing};

    ghost Value = { Showing };

    ghost view = { λ p. record { shown = p.groups; view = p.view.value } };

    ghost invariant = { λ p. (after p.groups.origin.base p.groups.groups ≡ Some p.view.value.network) × (p.view.value.version ≡ p.groups.origin.version + length p.groups.groups) };
}

impl Published {
    /// The view, shown after these groups.
    pub fn new(view: Arc<View>, groups: Front) -> Published
        requires network { after groups.origin.base groups.groups ≡ Some view.value.network }
        requires version { view.value.version ≡ groups.origin.version + length groups.groups }
        ensures { result ≡ record { shown = groups; view = view.value } }
    {
        Published { view, groups }
    }
}
