ghost use Rattle.std.specs.Prelude.{◌≡◌, ◌≤◌, ◌<◌, ℕ, List, Option, length};
ghost use Rattle.relax.specs.Values.{value_at};

/// What is known of the distances of nodes.
pub trait Known {
    /// The values, with an entry for each node at the place of its number.
    ghost values: { Self → List (Option ℕ) };

    /// The value of a node, if it has one.
    fn value(&self, node: u32) -> Option<u64>
        requires node { (1 ≤ node) × (node < length (values self.now)) }
        ensures { result ≡ value_at (values self.now) node };
}
