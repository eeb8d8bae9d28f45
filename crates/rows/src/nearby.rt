//! What is near a node.

ghost use Rattle.std.specs.Prelude.{◌≡◌, min};
ghost use Rattle.rows.specs.Nearby.{node_of, most_asked};

/// A question about the nodes near a node. It may contain any numbers.
#[derive(Clone, Copy, Debug, PartialEq, Eq)]
pub enum Near {
    /// All nodes that walks from `source` reach within `limit`.
    Reach { source: u64, limit: u64 },
    /// All nodes from which walks reach `target` within `limit`.
    Reached { target: u64, limit: u64 },
    /// The landmarks nearest to `source`, as many as `count`.
    Nearest { source: u64, count: u64 },
}

impl Near {
    /// The node that the question is about.
    pub fn node(self) -> u64
        ensures { result ≡ node_of self }
    {
        match self {
            Near::Reach { source, limit: _ } => source,
            Near::Reached { target, limit: _ } => target,
            Near::Nearest { source, count: _ } => source,
        }
    }

    /// Whether the answer needs the reversed arcs.
    pub fn is_turned(self) -> bool {
        matches!(
            self,
            Near::Reached {
                target: _,
                limit: _
            }
        )
    }
}

/// The count, as a search takes it.
pub(crate) fn count_of(count: u64) -> u32
    ensures { result ≡ min count most_asked }
{
    count.min(4_294_967_295) as u32
}
