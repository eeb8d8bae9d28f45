use std::marker::Brand;

/// The desk of an office, as a type: so whoever acquires a lock around an office knows its desk. It exists only in proofs. A caller chooses it for the
/// history and the store at hand.
pub trait Naming {
    ghost use Rattle.history.specs.Origins.{Origin};

    /// The network with which the desk was opened, its version, and its history.
    ghost origin: { Origin };

    /// The desk's store came tidy, on a disk that keeps the disk model.
    ghost came_tidy: { Type 0 };
}

impl Naming for Brand {
    ghost use Rattle.std.specs.Prelude.{[]};

    ghost origin = { record {
      base = record { nodes = 1; arcs = []; landmarks = []; room = 0 };
      version = 0;
      history = record { book = record { number = 0; log_name = 0; cells_name = 0 }; pen = 0 };
    } };

    ghost came_tidy = { Unit {0} };
}
