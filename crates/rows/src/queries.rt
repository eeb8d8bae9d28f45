ghost use Rattle.std.specs.Prelude.{◌≡◌};

use roadnet::Refusal;

/// A question to a network. It may contain any numbers.
#[derive(Clone, Copy, Debug, PartialEq, Eq)]
pub enum Query {
    /// The least length of a walk from `source` to `target`.
    Dist { source: u64, target: u64 },
    /// The same, from a node that must be a landmark.
    From { landmark: u64, target: u64 },
    /// What the landmarks say of the walks from `source` to `target`: how long each is at least, or that there is none.
    Lower { source: u64, target: u64 },
}

impl Query {
    ghost use Rattle.rows.specs.Replies.{source_of, target_of};

    /// The node where the walk begins.
    pub fn source(&self) -> u64
        ensures { result ≡ source_of self.now }
    {
        match *self {
            Query::Dist { source, target: _ } | Query::Lower { source, target: _ } => source,
            Query::From {
                landmark,
                target: _,
            } => landmark,
        }
    }

    /// The node where the walk ends.
    pub fn target(&self) -> u64
        ensures { result ≡ target_of self.now }
    {
        match *self {
            Query::Dist { source: _, target }
            | Query::From {
                landmark: _,
                target,
            }
            | Query::Lower { source: _, target } => target,
        }
    }
}

/// An answer to a query.
#[derive(Clone, Copy, Debug, PartialEq, Eq)]
pub enum Reply {
    /// The least length of a walk.
    Length(u64),
    /// There is no walk.
    NoWalk,
    /// Only to `Lower`: each walk is at least so long.
    AtLeast(u64),
    /// 24 if one of the two is not a node; otherwise 26 if the first node of `From` is not a landmark.
    Refused(Refusal),
}
