// A disk that is made at the first call of it.
ghost use Rattle.std.specs.Prelude.{◌≡◌, ◌≤◌, ◌↔◌, ℕ, Option, [], None, Some};
ghost use Rattle.disk.specs.Contents.{failures_after};
ghost use Rattle.storetexts.specs.Late.{made_or_known, of_disk, holds_of, GivesKnown};

use disk::{Disk, DiskError};
use printing::Failed;

/// A value that makes a disk, or opens it, once it is needed.
pub trait MakesDisk<D: Disk> {
    /// The disk that it makes, if that is known. A disk of which nothing is known before does not keep the disk model.
    ghost makes: { Self → Option D };

    /// Makes the disk, or returns why there is none. It is called at most once.
    fn make(&mut self) -> Result<D, Failed>
        ensures makes { GivesKnown D.honest (makes self.old) result }
        ensures same { makes self.new ≡ makes self.old };
}

/// A disk that is made at the first call of it: a store's file that is to be opened or made after everything else is read. It behaves as the disk that is
/// made, and passes each call on to that. If none is made, that call fails, and so does each later one.
#[derive(Drop)]
pub struct LateDisk<M, D> {
    maker: M,
    made: Option<D>,
    refused: Option<Failed>,
    failures: u64,
}

/// The outcome. A failure is counted.
fn counted<T>(failures: &mut u64, outcome: Result<T, DiskError>) -> Result<T, DiskError>
    ensures outcome { result ≡ outcome }
    ensures counted { failures.new ≡ failures_after outcome failures.old }
{
    if outcome.is_err() {
        *failures = failures.saturating_add(1);
    }
    outcome
}

impl<M, D> LateDisk<M, D> {
    ghost use Rattle.storetexts.specs.Late.{ended_by};

    /// No call was made yet.
    pub fn new(maker: M) -> LateDisk<M, D>
        ensures maker { result.maker ≡ maker }
        ensures unmade { result.made ≡ None }
    {
        LateDisk {
            maker,
            made: None,
            refused: None,
            failures: 0,
        }
    }

    /// The outcome of a call that had this disk: if no disk was made, the reason for that in place of the 43 that the call reported. Also the maker, and
    /// the disk.
    pub fn ended<T: Drop>(self, outcome: Result<T, Failed>) -> (Result<T, Failed>, M, Option<D>)
        ensures told { result.0 ≡ ended_by self.refused outcome }
        ensures parts { (result.1 ≡ self.maker) × (result.2 ≡ self.made) }
    {
        match self.refused {
            Some(refused) => (Err(refused), self.maker, self.made),
            None => (outcome, self.maker, self.made),
        }
    }
}

impl<D: Disk + Drop, M: MakesDisk<D>> LateDisk<M, D> {
    /// Makes the disk, unless a call was made before.
    fn see_made(&mut self)
        ensures stands { holds_of D.honest (made_or_known self.old.made (M.makes self.old.maker)) → made_or_known self.new.made (M.makes self.new.maker) ≡ made_or_known self.old.made (M.makes self.old.maker) }
        ensures honest { holds_of D.honest (made_or_known self.new.made (M.makes self.new.maker)) → holds_of D.honest (made_or_known self.old.made (M.makes self.old.maker)) }
        ensures failures { self.new.failures ≡ self.old.failures }
    {
        if self.made.is_some() || self.refused.is_some() {
            return;
        }
        match self.maker.make() {
            Ok(disk) => self.made = Some(disk),
            Err(failed) => self.refused = Some(failed),
        }
    }
}

impl<D: Disk + Drop, M: MakesDisk<D>> Disk for LateDisk<M, D> {
    ghost content = { λ late. of_disk D.content [] (made_or_known late.made (M.makes late.maker)) };

    ghost left = { λ late c. holds_of (λ disk. D.left disk c) (made_or_known late.made (M.makes late.maker)) };

    ghost moment = { λ late. of_disk D.moment 0 (made_or_known late.made (M.makes late.maker)) };

    ghost left_since = { λ late t c. holds_of (λ disk. D.left_since disk t c) (made_or_known late.made (M.makes late.maker)) };

    ghost failures = { λ late. late.failures };

    ghost honest = { λ late. holds_of D.honest (made_or_known late.made (M.makes late.maker)) };

    fn len(&mut self) -> Result<u64, DiskError> {
        self.see_made();
        let outcome = match &mut self.made {
            Some(disk) => disk.len(),
            None => Err(DiskError),
        };
        counted(&mut self.failures, outcome)
    }

    fn read(&mut self, at: u64, into: &mut [u8]) -> Result<(), DiskError> {
        self.see_made();
        let outcome = match &mut self.made {
            Some(disk) => disk.read(at, into),
            None => Err(DiskError),
        };
        counted(&mut self.failures, outcome)
    }

    fn write_at(&mut self, at: u64, bytes: &[u8]) -> Result<(), DiskError> {
        self.see_made();
        let outcome = match &mut self.made {
            Some(disk) => disk.write_at(at, bytes),
            None => Err(DiskError),
        };
        counted(&mut self.failures, outcome)
    }

    fn sync(&mut self) -> Result<(), DiskError> {
        self.see_made();
        let outcome = match &mut self.made {
            Some(disk) => disk.sync(),
            None => Err(DiskError),
        };
        counted(&mut self.failures, outcome)
    }

    ghost leaves_content = { λ late. elim (made_or_known late.made (M.makes late.maker)) as (λ stands. holds_of D.honest stands → holds_of (λ disk. D.left disk (of_disk D.content [] stands)) stands) [
      | None ↦ λ h. absurd h
      | Some disk ↦ D.leaves_content disk
    ] };

    ghost counts_now = { λ late t c. elim (made_or_known late.made (M.makes late.maker)) as (λ stands. holds_of D.honest stands → t ≤ of_disk D.moment 0 stands → holds_of (λ disk. D.left disk c) stands → holds_of (λ disk. D.left_since disk t c) stands) [
      | None ↦ λ h. absurd h
      | Some disk ↦ D.counts_now disk t c
    ] };

    ghost only_now = { λ late c. elim (made_or_known late.made (M.makes late.maker)) as (λ stands. holds_of D.honest stands → holds_of (λ disk. D.left_since disk (of_disk D.moment 0 stands) c) stands → holds_of (λ disk. D.left disk c) stands) [
      | None ↦ λ h. absurd h
      | Some disk ↦ D.only_now disk c
    ] };
}
