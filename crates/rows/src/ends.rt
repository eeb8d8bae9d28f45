//! Pairs of a source and a target.

ghost use Rattle.std.specs.Prelude.{◌≡◌, ℕ};

/// Which nodes are the source and the target of a pair, for pairs of some type.
pub trait PairEnds {
    /// A pair.
    type Pair;

    /// The node where its walk begins.
    ghost source: { Self.Pair → ℕ };

    /// The node where its walk ends.
    ghost target: { Self.Pair → ℕ };

    /// The number of the node where its walk begins.
    fn source(&self, pair: &Self::Pair) -> u64
        ensures { result ≡ source pair.now };

    /// The number of the node where its walk ends.
    fn target(&self, pair: &Self::Pair) -> u64
        ensures { result ≡ target pair.now };
}

/// Pairs of two numbers, the source first.
#[derive(Drop)]
pub(crate) struct NumberPair;

impl PairEnds for NumberPair {
    type Pair = (u64, u64);

    ghost source = { λ pair. pair.0 };

    ghost target = { λ pair. pair.1 };

    fn source(&self, pair: &(u64, u64)) -> u64 {
        pair.0
    }

    fn target(&self, pair: &(u64, u64)) -> u64 {
        pair.1
    }
}

/// The same pairs with their ends swapped.
#[derive(Drop)]
pub(crate) struct Turned<'a, E> {
    pub(crate) ends: &'a E,
}

impl<'a, E: PairEnds> PairEnds for Turned<'a, E> {
    type Pair = E::Pair;

    ghost source = { λ pair. E.target pair };

    ghost target = { λ pair. E.source pair };

    fn source(&self, pair: &E::Pair) -> u64 {
        let ends = self.ends;
        ends.target(pair)
    }

    fn target(&self, pair: &E::Pair) -> u64 {
        let ends = self.ends;
        ends.source(pair)
    }
}
