ghost use Rattle.std.specs.Prelude.{◌≡◌, ◌≤◌, ◌⊎◌, ◌<◌, MatchOption};

use crate::limits::PAGES_OF_STEP;

/// How many pages a step of a checkpoint writes at most: 1 to 64.
#[derive(Clone, Copy, Debug, PartialEq, Eq)]
pub struct StepPages {
    pages: u32,
    ghost some: { 1 ≤ pages },
    ghost few: { pages ≤ 64 },
}

impl StepPages {
    /// This many pages; nothing for 0 or more than 64.
    pub fn new(pages: u64) -> Option<StepPages>
        ensures { MatchOption result ((pages < 1) ⊎ (64 < pages)) (λ step. step.pages ≡ pages) }
    {
        if pages < 1 || pages > u64::from(PAGES_OF_STEP) {
            return None;
        }
        Some(StepPages {
            pages: pages as u32,
        })
    }

    /// The number, 1 to 64.
    pub fn number(self) -> u32
        ensures is { result ≡ self.pages }
        ensures some { 1 ≤ result }
        ensures few { result ≤ 64 }
    {
        self.pages
    }
}
