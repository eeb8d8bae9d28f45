ghost use Rattle.std.specs.Prelude.{◌≡◌};
ghost use Rattle.roadnet.specs.Reversal.{reversed_arc, ReversedTwice, WalksReverse, LeastReverses, NoWalkReverses, ReversedRowIsTo};

use crate::arcs::RoadArc;

impl RoadArc {
    /// The arc the other way round.
    pub fn reversed(self) -> RoadArc
        ensures { result ≡ reversed_arc self }
    {
        RoadArc {
            tail: self.head,
            head: self.tail,
            ..self
        }
    }
}

/// What holds of a network and of the same network with its arcs the other way round.
pub fn laws_of_reversal()
    ensures twice { ReversedTwice }
    ensures walks { WalksReverse }
    ensures least { LeastReverses }
    ensures no_walk { NoWalkReverses }
    ensures rows { ReversedRowIsTo }
{}
