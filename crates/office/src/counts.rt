// How an office stands, in numbers of its machine. None of these calls takes memory.
ghost use Rattle.std.specs.Prelude.{◌≡◌, ◌≤◌, Some, length};
ghost use Rattle.machine.specs.Machine.{latest, most_of_life, network_at, of_life};

use crate::naming::Naming;
use crate::offices::Office;
use disk::Disk;
use shared_network::SharedNetwork;

impl<N: Naming, D: Disk> Office<N, D> {
    /// How many commands the groups have that were accepted in this life of the desk: at most 16,777,216.
    pub fn of_life(&self) -> u64
        ensures count { result ≡ of_life self.now.machine }
        ensures most { result ≤ most_of_life }
    {
        self.keeper.of_life()
    }

    /// The version after all accepted groups.
    pub fn latest(&self) -> u64
        ensures { result ≡ latest self.now.machine }
    {
        self.keeper.latest()
    }

    /// The network of the shown version.
    pub fn network(&self) -> &SharedNetwork
        ensures { network_at self.now.machine self.now.machine.shown ≡ Some result.now }
    {
        self.keeper.view().network()
    }
}
