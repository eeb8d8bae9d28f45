// A group that was refused, and why.
ghost use Rattle.std.specs.Prelude.{◌≡◌, None};

use office::Basis;
use roadnet::Refusal;

/// Why a group was refused.
#[derive(Drop)]
pub struct Refused {
    pub refusal: Refusal,
    /// The groups that were accepted before it, by which it was judged; none if the desk accepts no more groups (61).
    pub basis: Option<Basis>,
}

impl Refused {
    /// The desk accepts no more groups.
    pub(crate) fn closed() -> Refused
        ensures refusal { result.refusal ≡ Refusal.Closed }
        ensures basis { result.basis ≡ None }
    {
        Refused {
            refusal: Refusal::Closed,
            basis: None,
        }
    }
}
