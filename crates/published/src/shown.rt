ghost use Rattle.std.specs.Prelude.{◌≡◌};

use history::Front;
use std::marker::Model;

/// What was shown after these groups. A reader that learns it then sees no less.
#[derive(Drop)]
pub struct Shown {
    pub(crate) groups: Front,
}

impl Model for Shown {
    ghost use Rattle.history.specs.Origins.{Beginning};

    ghost Value = { Beginning };

    ghost view = { λ s. s.groups };

    ghost invariant = { λ _. Unit {0} };
}

impl Shown {
    /// The front of the history after which it was shown.
    pub fn groups(&self) -> &Front
        ensures { result.now ≡ self.now }
    {
        &self.groups
    }
}
