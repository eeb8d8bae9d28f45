//! The clients of a server, counted.
ghost use Rattle.std.specs.Prelude.{◌≡◌, ◌<◌, ◌+◌};

use std::alloc::{AllocError, Global};
use std::sync::{Arc, Mutex, Wait};

/// How many clients came in through the doors of a server, and how many of them left.
#[derive(Clone, Copy, Debug, PartialEq, Eq)]
pub struct VisitCounts {
    pub came: u64,
    pub went: u64,
}

impl VisitCounts {
    /// One more has come.
    fn one_came(&mut self)
        ensures came { self.old.came < 18446744073709551615 → self.new.came ≡ self.old.came + 1 }
        ensures went { self.new.went ≡ self.old.went }
    {
        self.came = self.came.saturating_add(1);
    }

    /// One of them has left.
    fn one_went(&mut self)
        ensures went { self.old.went < 18446744073709551615 → self.new.went ≡ self.old.went + 1 }
        ensures came { self.new.came ≡ self.old.came }
    {
        self.went = self.went.saturating_add(1);
    }
}

/// The clients of a server, counted if their number is reported.
#[derive(Drop)]
pub struct Guests {
    pub counted: Option<Arc<Mutex<VisitCounts>>>,
}

impl Guests {
    /// Nobody has come yet.
    pub fn new(alloc: Global, are_told: bool) -> Result<Guests, AllocError> {
        if !are_told {
            return Ok(Guests { counted: None });
        }
        let none = VisitCounts { came: 0, went: 0 };
        let visits = Arc::new(alloc, Mutex::new(none))?;
        Ok(Guests {
            counted: Some(visits),
        })
    }

    /// The same count, for another door.
    pub fn again(&self) -> Result<Guests, AllocError> {
        let Some(visits) = &self.counted else {
            return Ok(Guests { counted: None });
        };
        let visits = Arc::try_clone(visits)?;
        Ok(Guests {
            counted: Some(visits),
        })
    }

    /// One more has come.
    pub fn one_came<R: Wait>(&self, rt: &R) {
        if let Some(visits) = &self.counted {
            visits.lock(rt).one_came();
        }
    }

    /// One of them has left.
    pub fn one_went<R: Wait>(&self, rt: &R) {
        if let Some(visits) = &self.counted {
            visits.lock(rt).one_went();
        }
    }
}
