ghost use Rattle.std.specs.Prelude.{◌≡◌};

use crate::rules::{Names, Told};
use logbook::{Pen, Seen, Start};
use std::marker::Model;
use std::snapshot::Snapshot;

/// The name of a history: the pen that wrote its first entry. It takes no bytes and may be copied. Contracts see it as that pen's key.
#[derive(Drop)]
pub struct Root {
    told: Seen<Snapshot<Pen>, u64, Told>,
}

impl Model for Root {
    ghost use Rattle.std.specs.Prelude.{ℕ};
    ghost use Rattle.history.specs.Chains.{named_first};

    ghost Value = { ℕ };

    ghost view = { λ r. named_first r.told.log };

    ghost invariant = { λ _. Unit {0} };
}

impl Root {
    /// The name of the history that this pen begins.
    pub(crate) fn of(pen: &Pen) -> Root
        ensures { result ≡ pen.now.nib.key }
    {
        let name = Snapshot::of(pen);
        let (told, _) = Seen::open_row::<Snapshot<Pen>, Names>(&name, Start::alone(), 0);
        Root { told }
    }

    /// A copy.
    pub(crate) fn again(&self) -> Root
        ensures { result ≡ self.now }
    {
        Root {
            told: self.told.again(),
        }
    }
}
