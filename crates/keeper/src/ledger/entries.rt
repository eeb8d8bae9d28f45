// What a ledger says of itself: numbers of its machine, its groups and network, and receipts. None of these calls takes memory.
ghost use Rattle.std.specs.Prelude.{◌≡◌, ◌≤◌, ◌++◌, Some, None};
ghost use Rattle.machine.specs.Machine.{IsState, groups_to, network_at, pending};
ghost use Rattle.machine.specs.Calls.{IsTicketOf, receipt_for};
ghost use Rattle.store.specs.State.{CameTidy};
ghost use Rattle.keeper.specs.Keeping.{Holds, HoldsFor, with_views};

use crate::ledger::ledgers::Ledger;
use disk::Disk;
use machine::{Receipt, Ticket};
use roadnet::{Group, Network, Refusal};

impl<D: Disk> Ledger<D> {
    /// The ledger shows the version at which its store was opened, and no task of it is out.
    pub(crate) fn shows_nothing(&self)
        ensures { self.now.machine ≡ with_views self.now.machine self.now.machine.base_version None }
    {
        let _ = &self.store;
    }

    /// If its store came tidy, on a disk that keeps the disk model, the disk holds what is durable, whatever was called since.
    pub fn holds_durable(&self)
        ensures { CameTidy D.honest D.content self.now.given → HoldsFor D.Disk self.now.disk self.now.machine }
    {
        let _ = &self.store;
    }

    /// How many commands the groups have that are accepted and not durable: at most 4,096.
    pub fn pending(&self) -> u64
        ensures { result ≡ pending self.now.machine }
    {
        self.pending
    }

    /// The versions up to this one are durable. If the ledger's store came tidy, on a disk that keeps the disk model, the disk holds them, whatever was
    /// called since. That is a fact of the ledger, so no caller needs a premise for it.
    pub fn durable(&self) -> u64
        ensures version { result ≡ self.now.machine.durable }
        ensures state { IsState self.now.machine }
        ensures honest { CameTidy D.honest D.content self.now.given → D.honest self.now.disk }
        ensures holds { CameTidy D.honest D.content self.now.given → Holds (D.content self.now.disk) (D.left self.now.disk) self.now.machine }
    {
        self.store.version()
    }

    /// The network at the durable version.
    pub fn network(&self) -> &Network
        ensures { network_at self.now.machine self.now.machine.durable ≡ Some result.now }
    {
        self.store.network()
    }

    /// The groups after one version, up to another one that is durable.
    pub(crate) fn groups_between(&self, from: u64, to: u64) -> &[Group]
        requires base { self.now.machine.base_version ≤ from }
        requires order { from ≤ to }
        requires durable { to ≤ self.now.machine.durable }
        ensures groups { groups_to self.now.machine to ≡ groups_to self.now.machine from ++ result.now }
        ensures state { IsState self.now.machine }
    {
        let first = (from - self.opened) as usize;
        let end = (to - self.opened) as usize;
        &self.history[first..end]
    }

    /// Whether a write failed. Then nothing is written before the store is opened again.
    pub fn broken(&self) -> bool
        ensures { result ≡ self.now.machine.broken }
    {
        self.broken
    }

    /// The groups accepted in this life, in order.
    pub fn groups(&self) -> &[Group]
        ensures { result.now ≡ self.now.machine.accepted }
    {
        &self.history
    }

    /// How many pages of the journal are still needed because no checkpoint covers them.
    pub fn unchecked(&self) -> u32
        ensures { result ≡ self.now.machine.unchecked }
    {
        self.store.unchecked()
    }

    /// How many pages the journal has.
    pub fn journal_pages(&self) -> u32
        ensures { result ≡ self.now.machine.sizes.journal_pages }
    {
        self.store.journal_pages()
    }

    /// A receipt, if the ticket's group is durable: no stop takes it back. The ticket must be one of this life.
    ///
    /// If the number is not durable, it is refused with 45 if the store is broken, otherwise with 54. Then the ticket is handed back.
    ///
    /// For the first ticket of a new store it is `NotYet` before a flush, and after it the receipt of number 1 with its group.
    pub fn receipt(&self, ticket: Ticket) -> Result<Receipt, (Refusal, Ticket)>
        requires { IsTicketOf self.now.machine ticket }
        ensures { result ≡ receipt_for self.now.machine ticket }
    {
        if ticket.number <= self.store.version() {
            let Ticket { number, group } = ticket;
            return Ok(Receipt { number, group });
        }
        if self.broken {
            return Err((Refusal::Broken, ticket));
        }
        Err((Refusal::NotYet, ticket))
    }
}
