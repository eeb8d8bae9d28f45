ghost use Rattle.std.specs.Prelude.{◌≡◌, None};
ghost use Rattle.printing.specs.Widths.{told_width, told_workers};

use rows::Ran;

/// What a call on texts reports when it is done. It has a width and workers only from what ran, so none that was merely passed on.
#[derive(Clone, Copy, Debug, PartialEq, Eq)]
pub struct Done {
    delta: Option<u32>,
    workers: Option<u32>,
}

impl Done {
    /// The report of something that ran.
    pub fn by<B: Ran>(ran: &B) -> Done
        ensures width { told_width result ≡ B.width_given ran.now }
        ensures workers { told_workers result ≡ B.workers_given ran.now }
    {
        Done {
            delta: ran.width(),
            workers: ran.workers(),
        }
    }

    /// Done without a search whose width is reported.
    pub fn without_search() -> Done
        ensures width { told_width result ≡ None }
        ensures workers { told_workers result ≡ None }
    {
        Done {
            delta: None,
            workers: None,
        }
    }

    /// The width of the buckets of its searches, if one was given. Otherwise they have the network's default.
    pub fn delta(self) -> Option<u32>
        ensures { result ≡ told_width self }
    {
        self.delta
    }

    /// How many row workers shared the rows of its landmarks, if they were shared.
    pub fn workers(self) -> Option<u32>
        ensures { result ≡ told_workers self }
    {
        self.workers
    }
}
