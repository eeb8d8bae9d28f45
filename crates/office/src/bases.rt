// What a refusal depends on.
ghost use Rattle.std.specs.Prelude.{◌≡◌, ◌+◌, ◌<◌, ◌≤◌, length, IfSome, IfNone};
ghost use mathlib.Core.List.{IsPrefix};

use crate::naming::Naming;
use crate::offices::Office;
use disk::Disk;
use history::Front;
use std::marker::Model;

/// The basis of a refusal: the groups that the desk had accepted by then, which begin its history. Contracts see that front.
#[derive(Drop)]
pub struct Basis {
    // the version after them
    version: u64,
    accepted: Front,
}

impl Model for Basis {
    ghost use Rattle.std.specs.Prelude.{◌≡◌, ◌+◌, length};
    ghost use Rattle.history.specs.Origins.{Beginning};

    ghost Value = { Beginning };

    ghost view = { λ g. g.accepted };

    ghost invariant = { λ g. g.version ≡ g.accepted.origin.version + length g.accepted.groups };
}

impl Basis {
    /// The version after its groups.
    pub fn version(&self) -> u64
        ensures { result ≡ self.now.origin.version + length self.now.groups }
    {
        self.version
    }
}

impl<N: Naming, D: Disk> Office<N, D> {
    /// All accepted groups.
    pub fn basis(&self) -> Basis
        ensures origin { result.origin ≡ N.origin }
        ensures groups { result.groups ≡ self.now.machine.accepted }
    {
        let _ = self.keeper.opened();
        Basis {
            version: self.keeper.latest(),
            accepted: self.history.front(self.history.len()),
        }
    }

    /// A front of the desk's history that has the groups of a basis, as acknowledged ones, if they are durable: no stop takes them back.
    pub fn acknowledge(&mut self, basis: &Basis) -> Option<Front>
        requires { basis.now.origin ≡ N.origin }
        ensures origin { IfSome result (λ front. front.origin ≡ N.origin) }
        ensures begins { IfSome result (λ front. IsPrefix basis.now.groups front.groups) }
        ensures acknowledged { IfSome result (λ front. N.origin.version + length basis.now.groups ≤ front.acknowledged) }
        ensures none { IfNone result (self.old.machine.durable < N.origin.version + length basis.now.groups) }
        ensures same { self.new ≡ self.old }
    {
        if self.keeper.durable() < basis.version {
            return None;
        }
        self.history.acknowledge(basis.version);
        let all = self.history.front(self.history.len());
        Some(all.joined(&basis.accepted))
    }
}
