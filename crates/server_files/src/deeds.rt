//! What a door did last with the pipes of its pair, for clauses.
ghost use Rattle.std.specs.Prelude.{◌≡◌};
ghost use Rattle.server_files.specs.Deeds.{with_deed};

/// A pipe of a pair: the one for reading, or the one for writing.
#[derive(Clone, Copy)]
pub enum Side {
    Input,
    Output,
}

/// What a door does with its pipes.
#[derive(Clone, Copy)]
pub enum Deed {
    /// Nothing yet.
    Nothing,
    /// It asks the system to open one.
    Open(Side),
    /// It closes one.
    Close(Side),
    /// It reports on standard error why a session on one ended, or why no more clients come through it.
    Tell(Side),
    /// It waits for a while.
    Rest,
}

/// The last deeds of a door. Nothing depends on them at run time.
#[derive(Clone, Copy)]
pub struct Deeds {
    pub last: Deed,
    pub before: Deed,
    pub earlier: Deed,
}

impl Deeds {
    /// The same after one more deed.
    pub fn then(self, deed: Deed) -> Deeds
        ensures { result ≡ with_deed deed self }
    {
        Deeds {
            last: deed,
            before: self.last,
            earlier: self.before,
        }
    }
}
