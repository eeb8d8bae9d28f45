// A disk that fails at one call.
ghost use Rattle.std.specs.Prelude.{◌≡◌, ◌≢◌, ℕ, min, ◌+◌, ◌-◌, ◌^◌, OnOk, OnErr};
ghost use Rattle.disk.specs.Contents.{all_failures};

use crate::{Disk, DiskError};

/// Fails at one call, which is not made. Every other call is passed on to the disk inside.
#[derive(Drop)]
pub struct FailOnce<D> {
    inner: D,
    // Which call from now on fails; 0 for none.
    fails_in: u64,
    failures: u64,
}

impl<D> FailOnce<D> {
    ghost use Rattle.disk.specs.Wrapped.{fail_once_inner, fail_once_failures, fails_in};

    /// Fails at the k-th call from now on, of any of the four kinds, counted from 1. With k = 0 none fails. Its count of failures is that of the disk
    /// inside until then.
    pub fn new(inner: D, k: u64) -> Self
        ensures inner { fail_once_inner result ≡ inner }
        ensures fails_in { fails_in result ≡ k }
        ensures failures { fail_once_failures result ≡ 0 }
    {
        FailOnce {
            inner,
            fails_in: k,
            failures: 0,
        }
    }

    /// The disk inside.
    pub fn into_inner(self) -> D
        ensures { result ≡ fail_once_inner self }
    {
        self.inner
    }

    // Counts the call, and refuses it if it is the one that fails.
    fn admit(&mut self) -> Result<(), DiskError>
        ensures inner { self.new.inner ≡ self.old.inner }
        ensures counts { self.new.fails_in ≡ self.old.fails_in - 1 }
        ensures ok { OnOk result ((self.old.fails_in ≢ 1) × (self.new.failures ≡ self.old.failures)) }
        ensures err { OnErr result ((self.old.fails_in ≡ 1) × (self.new.failures ≡ min (self.old.failures + 1) (2 ^ 64 - 1))) }
    {
        let comes_now = self.fails_in == 1;
        self.fails_in = self.fails_in.saturating_sub(1);
        if comes_now {
            self.failures = self.failures.saturating_add(1);
            return Err(DiskError);
        }
        Ok(())
    }
}

impl<D: Disk> Disk for FailOnce<D> {
    ghost use Rattle.disk.specs.Wrapped.{FailOnceTakes};

    ghost content = { λ disk. D.content disk.inner };

    ghost left = { λ disk. D.left disk.inner };

    ghost moment = { λ disk. D.moment disk.inner };

    ghost left_since = { λ disk. D.left_since disk.inner };

    ghost failures = { λ disk. all_failures (D.failures disk.inner) disk.failures };

    ghost honest = { λ disk. D.honest disk.inner };

    ghost takes = { FailOnceTakes D.takes };

    fn len(&mut self) -> Result<u64, DiskError> {
        self.admit()?;
        self.inner.len()
    }

    fn read(&mut self, at: u64, into: &mut [u8]) -> Result<(), DiskError> {
        self.admit()?;
        self.inner.read(at, into)
    }

    fn write_at(&mut self, at: u64, bytes: &[u8]) -> Result<(), DiskError> {
        self.admit()?;
        self.inner.write_at(at, bytes)
    }

    fn sync(&mut self) -> Result<(), DiskError> {
        self.admit()?;
        self.inner.sync()
    }

    ghost leaves_content = { λ disk. D.leaves_content disk.inner };

    ghost counts_now = { λ disk. D.counts_now disk.inner };

    ghost only_now = { λ disk. D.only_now disk.inner };
}
