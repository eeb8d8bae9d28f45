//! The problem line of a `.gr` text.
ghost use Rattle.std.specs.Prelude.{◌≡◌, ◌<◌, ◌∷◌, [], MatchOption, false};
ghost use Rattle.std.specs.List.{starts_with};
ghost use Rattle.std.specs.Str.{bytes_eq};
ghost use lib.Chars.{codes};
ghost use Rattle.dimacs.specs.Lines.{fields};

use crate::lines::line::split_field;

/// What a problem line announces.
#[derive(Clone, Copy, Debug, PartialEq, Eq)]
pub struct Problem {
    pub nodes: u32,
    pub items: u32,
}

/// What follows the kind word `sp`.
pub(crate) fn after_kind(words: &[u8]) -> Option<&[u8]>
    ensures { MatchOption result (starts_with bytes_eq (fields words.now) (codes "sp" ∷ []) ≡ false)
        (λ counts. fields words.now ≡ codes "sp" ∷ fields counts.now) }
{
    match split_field(words) {
        Some((b"sp", counts)) => Some(counts),
        _ => None,
    }
}
