// The gate's permission to make a row.
ghost use Rattle.std.specs.Prelude.{◌≡◌};
ghost use Rattle.desk.specs.Leaves.{landmark_of};

use crate::gates::Gate;

/// The permission to make the row of one landmark. Only a call of the gate gives it, and the row uses it up: so no row is made before the gate was asked.
#[derive(Drop)]
pub(crate) struct Leave {
    landmark: u32,
}

impl Leave {
    /// Asks the gate: this row worker, counted from 1, is about to make the row of this landmark.
    pub(crate) fn by<G: Gate>(gate: &G, worker: u32, landmark: u32) -> Leave
        ensures { landmark_of result ≡ landmark }
    {
        gate.before_row(worker, landmark);
        Leave { landmark }
    }

    /// The landmark whose row may be made.
    pub(crate) fn landmark(&self) -> u32
        ensures { result ≡ landmark_of self.now }
    {
        self.landmark
    }
}
