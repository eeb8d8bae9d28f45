// A disk that fails from one write or sync on.
ghost use Rattle.std.specs.Prelude.{◌≡◌, ℕ, None, Some, IsSome, IsTrue, min, ◌+◌, ◌-◌, ◌↔◌, ◌^◌};
ghost use Rattle.disk.specs.Contents.{all_failures};

use crate::{Disk, DiskError};

/// Passes some writes and syncs on to the disk inside. The next write or sync, and every call after it, fails and is not made.
#[derive(Drop)]
pub struct FuseDisk<D> {
    inner: D,
    // How many more writes and syncs are passed on. None: the fuse has blown.
    passes: Option<u64>,
    failures: u64,
}

impl<D> FuseDisk<D> {
    ghost use Rattle.disk.specs.Wrapped.{fuse_inner, passes_of, fuse_failures, burnt};

    /// Passes k writes and syncs on. Its count of failures is that of the disk inside until it refuses a call.
    pub fn new(inner: D, k: u64) -> Self
        ensures inner { fuse_inner result ≡ inner }
        ensures passes { passes_of result ≡ Some k }
        ensures failures { fuse_failures result ≡ 0 }
    {
        FuseDisk {
            inner,
            passes: Some(k),
            failures: 0,
        }
    }

    /// The disk inside.
    pub fn into_inner(self) -> D
        ensures { result ≡ fuse_inner self }
    {
        self.inner
    }

    // Counts down one write or sync.
    fn burn(&mut self)
        ensures inner { self.new.inner ≡ self.old.inner }
        ensures burns { self.new.passes ≡ burnt self.old.passes }
        ensures failures { self.new.failures ≡ self.old.failures }
    {
        self.passes = self.passes.and_then(|passes| passes.checked_sub(1));
    }

    // Counts a call that is not made.
    fn refuse(&mut self) -> DiskError
        ensures inner { self.new.inner ≡ self.old.inner }
        ensures passes { self.new.passes ≡ self.old.passes }
        ensures failures { self.new.failures ≡ min (self.old.failures + 1) (2 ^ 64 - 1) }
    {
        self.failures = self.failures.saturating_add(1);
        DiskError
    }
}

impl<D: Disk> Disk for FuseDisk<D> {
    ghost use Rattle.disk.specs.Wrapped.{FuseTakes};

    ghost content = { λ disk. D.content disk.inner };

    ghost left = { λ disk. D.left disk.inner };

    ghost moment = { λ disk. D.moment disk.inner };

    ghost left_since = { λ disk. D.left_since disk.inner };

    ghost failures = { λ disk. all_failures (D.failures disk.inner) disk.failures };

    ghost honest = { λ disk. D.honest disk.inner };

    ghost takes = { FuseTakes D.takes };

    fn len(&mut self) -> Result<u64, DiskError> {
        if self.passes.is_none() {
            return Err(self.refuse());
        }
        self.inner.len()
    }

    fn read(&mut self, at: u64, into: &mut [u8]) -> Result<(), DiskError> {
        if self.passes.is_none() {
            return Err(self.refuse());
        }
        self.inner.read(at, into)
    }

    fn write_at(&mut self, at: u64, bytes: &[u8]) -> Result<(), DiskError> {
        self.burn();
        if self.passes.is_none() {
            return Err(self.refuse());
        }
        self.inner.write_at(at, bytes)
    }

    fn sync(&mut self) -> Result<(), DiskError> {
        self.burn();
        if self.passes.is_none() {
            return Err(self.refuse());
        }
        self.inner.sync()
    }

    ghost leaves_content = { λ disk. D.leaves_content disk.inner };

    ghost counts_now = { λ disk. D.counts_now disk.inner };

    ghost only_now = { λ disk. D.only_now disk.inner };
}
