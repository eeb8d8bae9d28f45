ghost use Rattle.std.specs.Prelude.{◌≡◌, ◌<◌, ◌≤◌, ◌⊎◌, length, take, MatchBool};
ghost use mathlib.Core.List.{IsPrefix};

use crate::entries::Link;
use crate::roots::Root;
use crate::rules::Law;
use logbook::Seen;
use std::marker::Model;

/// A front of a desk's history: its first groups. Contracts see it as these groups, with the desk.
#[derive(Drop)]
pub struct Front {
    pub(crate) count: u64,
    pub(crate) root: Root,
    pub(crate) seen: Seen<Link, u64, Law>,
}

impl Model for Front {
    ghost use Rattle.std.specs.Prelude.{◌≤◌, length, take};
    ghost use Rattle.history.specs.Entries.{IsBegun};
    ghost use Rattle.history.specs.Origins.{Beginning};

    ghost Value = { Beginning };

    ghost use Rattle.history.specs.Chains.{chain};
    ghost use Rattle.history.specs.Entries.{beginning, accepted};

    ghost view = { λ f. let all = beginning (record { book = f.seen.book; pen = f.root }) (chain f.root f.seen.log) in record all { groups = take f.count all.groups } };

    ghost invariant = { λ f. IsBegun (chain f.root f.seen.log) × (f.count ≤ length (accepted (chain f.root f.seen.log))) };
}

impl Front {
    /// How many groups it has.
    pub fn len(&self) -> u64
        ensures { result ≡ length self.now.groups }
    {
        self.count
    }

    /// A copy.
    pub fn again(&self) -> Front
        ensures { result ≡ self.now }
    {
        Front {
            count: self.count,
            root: self.root.again(),
            seen: self.seen.again(),
        }
    }

    /// The first of its groups, as many as asked for.
    pub fn first(&self, count: u64) -> Front
        requires { count ≤ length self.now.groups }
        ensures { result ≡ record self.now { groups = take count self.now.groups } }
    {
        Front {
            count,
            root: self.root.again(),
            seen: self.seen.again(),
        }
    }

    /// Whether the other front, of the same desk, begins with these groups. Otherwise it is shorter, and these begin with its own.
    pub fn begins(&self, other: &Front) -> bool
        requires { other.now.origin ≡ self.now.origin }
        ensures { MatchBool result (IsPrefix self.now.groups other.now.groups) (IsPrefix other.now.groups self.now.groups × (length other.now.groups < length self.now.groups)) }
    {
        let mut both = self.seen.again();
        both.learn(&other.seen);
        self.count <= other.count
    }

    /// A front of their history with which both agree: it has the groups of the longer one, and everything that either knows to be acknowledged.
    pub fn joined(&self, other: &Front) -> Front
        requires { other.now.origin ≡ self.now.origin }
        ensures origin { result.origin ≡ self.now.origin }
        ensures this { IsPrefix self.now.groups result.groups }
        ensures that { IsPrefix other.now.groups result.groups }
        ensures acknowledged { (self.now.acknowledged ≤ result.acknowledged) × (other.now.acknowledged ≤ result.acknowledged) }
    {
        let mut both = self.seen.again();
        both.learn(&other.seen);
        let root = self.root.again();
        Front {
            count: self.count.max(other.count),
            root,
            seen: both,
        }
    }
}
