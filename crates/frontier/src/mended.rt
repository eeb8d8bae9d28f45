//! The values of a row that is repaired.

ghost use Rattle.std.specs.Prelude.{◌≤◌, IsTrue};
ghost use Rattle.relax.specs.Values.{no_short_value};

use crate::values::SearchValues;
use relax::{SharedTentative, Team, requests_by};
use roadnet::OutOfMemory;
use snapshot::{Part, Snapshot};
use std::alloc::{AllocError, Global};

/// Tentative values in the words of a row, which are copied where they are written. No value of 2^32 - 1 or more has a word: where a node would get one, that
/// is an error, and it is noted.
#[derive(Drop)]
pub struct Mended {
    pub tentative: SharedTentative,
    pub is_beyond: bool,
}

impl SearchValues for Mended {
    ghost values = { λ m. m.tentative };

    ghost notes = { λ m value. no_short_value ≤ value → IsTrue m.is_beyond };

    #[inline(always)]
    fn value(&self, node: u32) -> Option<u64> {
        self.tentative.get(node)
    }

    /// The requests, which one worker computes.
    #[inline(always)]
    fn requests<T: Team>(
        &self,
        alloc: Global,
        snapshot: &Snapshot,
        _team: &T,
        nodes: &[u32],
        part: Part,
    ) -> Result<Vec<(u32, u64)>, OutOfMemory> {
        requests_by(alloc, snapshot, nodes, &self.tentative, part)
    }

    /// Sets the value, if it has a word.
    #[inline(always)]
    fn set(&mut self, node: u32, value: u64) -> Result<(), AllocError> {
        if value >= u64::from(u32::MAX) {
            self.is_beyond = true;
            return Err(AllocError);
        }
        self.tentative.set(node, value as u32)
    }
}
