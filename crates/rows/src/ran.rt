//! What ran, and how.
ghost use Rattle.std.specs.Prelude.{◌≡◌, ℕ, Option, None};

use crate::searches::Searches;

/// Something that made rows, or that came from making them, and says how they were made. So whoever reports it has it from what ran, and not from a number.
pub trait Ran {
    /// The width of the buckets that was given, if one was.
    ghost width_given: { Self → Option ℕ };

    /// How many row workers were asked for, if the rows are distributed.
    ghost workers_given: { Self → Option ℕ };

    /// The width of the buckets of its searches that was given, if one was. Otherwise they have the network's default.
    fn width(&self) -> Option<u32>
        ensures { result ≡ width_given self.now };

    /// How many row workers share its rows, if they do.
    fn workers(&self) -> Option<u32>
        ensures { result ≡ workers_given self.now };
}

impl Ran for Searches {
    ghost width_given = { λ searches. searches.delta };

    ghost workers_given = { λ searches. None };

    fn width(&self) -> Option<u32> {
        self.delta()
    }

    fn workers(&self) -> Option<u32> {
        None
    }
}
