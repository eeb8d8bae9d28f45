ghost use Rattle.std.specs.Prelude.{◌≡◌};
ghost use Rattle.history.specs.Claims.{EndsWith, IsAcknowledgedIn};

use crate::fronts::Front;
use machine::Ticket;
use std::marker::Model;

/// The token of a ticket: its group has its number in the history of its desk. Contracts see it as the ticket, with the desk.
#[derive(Drop)]
pub struct Claim {
    pub(crate) ticket: Ticket,
    pub(crate) front: Front,
}

impl Model for Claim {
    ghost use Rattle.history.specs.Claims.{Claimed, EndsWith};

    ghost Value = { Claimed };

    ghost view = { λ c. record { origin = c.front.origin; ticket = c.ticket } };

    ghost invariant = { λ c. EndsWith c.front c.ticket };
}

/// The token of a receipt: its group has its number in the history of its desk, and was acknowledged. Contracts see it as the ticket, with the desk.
#[derive(Drop)]
pub struct Settled {
    pub(crate) claim: Claim,
    /// A front of the history that has the group, and in which the group is acknowledged.
    pub(crate) front: Front,
}

impl Model for Settled {
    ghost use Rattle.std.specs.Prelude.{◌≡◌};
    ghost use Rattle.history.specs.Claims.{Claimed, IsAcknowledgedIn};

    ghost Value = { Claimed };

    ghost view = { λ s. s.claim };

    ghost invariant = { λ s. (s.front.origin ≡ s.claim.origin) × IsAcknowledgedIn s.front s.claim.ticket };
}

impl Claim {
    /// The ticket.
    pub fn ticket(&self) -> &Ticket
        ensures { result.now ≡ self.now.ticket }
    {
        &self.ticket
    }

    /// The front of the history that ends with the ticket's group.
    pub fn front(&self) -> &Front
        ensures origin { result.now.origin ≡ self.now.origin }
        ensures ends { EndsWith result.now self.now.ticket }
    {
        &self.front
    }
}

impl Settled {
    /// The token of the ticket that was acknowledged.
    pub fn ticket(&self) -> &Claim
        ensures { result.now ≡ self.now }
    {
        &self.claim
    }

    /// A front of the history in which the group has its number and is acknowledged.
    pub fn front(&self) -> &Front
        ensures origin { result.now.origin ≡ self.now.origin }
        ensures acknowledged { IsAcknowledgedIn result.now self.now.ticket }
    {
        &self.front
    }
}
