// A checkpoint that is made part by part.
ghost use Rattle.std.specs.Prelude.{◌≡◌, ◌+◌, ◌<◌, ◌^◌, IfSome, option_map};
ghost use Rattle.store.specs.Going.{with_one_more};

use checkpoint::{Frozen, NextCheckpoint};

/// A checkpoint that is going.
#[derive(Drop)]
pub struct GoingCheckpoint {
    /// What is written of it.
    pub next: NextCheckpoint,
    /// What is kept of the durable network as it was when the checkpoint began.
    pub frozen: Frozen,
    /// How many pages of the journal were committed since.
    pub committed: u32,
}

// One more page of the journal was committed.
pub fn count_page(going: &mut Option<GoingCheckpoint>)
    requires { IfSome going.old (λ g. g.committed + 1 < 2 ^ 32) }
    ensures { going.new ≡ option_map with_one_more going.old }
{
    if let Some(going) = going {
        going.committed += 1;
    }
}
