// Waiting until a number is durable or shown, whoever's groups lead to it.
ghost use Rattle.std.specs.Prelude.{◌≡◌, ◌≢◌, ◌≤◌, ◌<◌, ◌+◌, length, true, false, IfOk, IfErr};
ghost use Rattle.std.specs.Option.{ForSome};
ghost use Rattle.roadnet.specs.declared.refusals.Refusal.TheVariants.{Closed as closed, Broken as broken, NotYet as not_yet};
ghost use Rattle.machine.specs.Machine.{groups_to};
ghost use Rattle.std.specs.Timed.{wait_timed_out};
ghost use Rattle.desk.specs.Turns.{is_lost, is_unseen, is_unsettled, IsUnreached, WereShown};

use crate::handles::handle::Handle;
use crate::lock::held::Held;
use crate::lock::turns::{is_lost, runs};
use crate::served::{OfficeOf, Served};
use disk::Disk;
use office::{Naming, Office};
use published::Shown;
use roadnet::Refusal;
use std::sync::atomic::Ordering;
use std::sync::{MutexGuard, WaitTimeoutResult};

impl<N: Naming, D: Disk> Held<Office<N, D>> {
    /// What is shown, where that is this version or a later one.
    ///
    /// Refused is a version that isn't: with 45 where the store is broken and the version is not durable, with 61 where the builder has ended, else with 54. Refused
    /// so is an office that was taken out (61).
    #[tactic(auto, using(crate::proofs::Reached::reached_by))]
    pub(crate) fn shown_at(&self, version: u64) -> Result<Shown, Refusal>
        ensures origin { IfOk result (λ shown. shown.origin ≡ N.origin) }
        ensures there { IfOk result (λ shown. version ≤ N.origin.version + length shown.groups) }
        ensures own { IfOk result (λ shown. ForSome self.now.office (λ office. shown.groups ≡ groups_to office.machine office.machine.shown)) }
        ensures state { IfOk result (λ shown. WereShown N.origin shown.groups) }
        ensures refused { IfErr result (λ _. ForSome self.now.office (λ office. office.machine.shown < version)) }
        ensures lost { IfErr result (λ refusal. refusal ≡ broken → ForSome self.now.office (λ office. is_lost office.machine version ≡ true)) }
        ensures ended { IfErr result (λ refusal. refusal ≡ closed → ForSome self.now.office (λ office. (is_lost office.machine version ≡ false) × (self.now.builder_ended ≡ true))) }
        ensures not_yet { IfErr result (λ refusal. refusal ≡ not_yet → ForSome self.now.office (λ office. is_unseen office.machine self.now.builder_ended version ≡ true)) }
        ensures causes { IfErr result (IsUnreached N.origin version) }
    {
        let office = self.there()?;
        runs(office);
        if version <= office.shown() {
            return Ok(office.tell());
        }
        if is_lost(office, version) {
            return Err(Refusal::Broken);
        }
        if self.builder_ended {
            return Err(Refusal::Closed);
        }
        Err(Refusal::NotYet)
    }
}

impl<S: Served> Handle<S> {
    /// Waits until this number is durable, or won't be. Meanwhile the caller is counted among those that wait. What lies under the lock then is handed on.
    pub(crate) fn wait_settled(&self, number: u64) -> MutexGuard<'_, Held<OfficeOf<S>>>
        ensures waited { ForSome result.value.office (λ office. is_unsettled office.machine result.value.flusher_ended number ≡ false) }
    {
        self.shared.waiting.fetch_add(1, Ordering::SeqCst);
        let guard = self.shared.flushed.wait_while(
            &self.rt,
            self.shared.held.lock(&self.rt),
            |held: &mut Held<OfficeOf<S>>| held.is_unsettled(number),
        );
        self.shared.waiting.fetch_sub(1, Ordering::SeqCst);
        guard
    }

    /// The same until this number is shown, or won't be.
    pub(crate) fn wait_seen(&self, number: u64) -> MutexGuard<'_, Held<OfficeOf<S>>>
        ensures waited { ForSome result.value.office (λ office. is_unseen office.machine result.value.builder_ended number ≡ false) }
    {
        self.shared.waiting.fetch_add(1, Ordering::SeqCst);
        let guard = self.shared.published.wait_while(
            &self.rt,
            self.shared.held.lock(&self.rt),
            |held: &mut Held<OfficeOf<S>>| held.is_unseen(number),
        );
        self.shared.waiting.fetch_sub(1, Ordering::SeqCst);
        guard
    }

    /// The same of a version for at most the time in the desk's setup, and whether that is over: then it may still be shown.
    fn wait_seen_in_time(
        &self,
        version: u64,
    ) -> (MutexGuard<'_, Held<OfficeOf<S>>>, WaitTimeoutResult)
        ensures waited { ForSome result.0.value.office (λ office. is_unseen office.machine result.0.value.builder_ended version ≡ wait_timed_out result.1) }
    {
        self.shared.waiting.fetch_add(1, Ordering::SeqCst);
        let waited = self.shared.published.wait_timeout_while(
            &self.rt,
            self.shared.held.lock(&self.rt),
            self.patience,
            |held: &mut Held<OfficeOf<S>>| held.is_unseen(version),
        );
        self.shared.waiting.fetch_sub(1, Ordering::SeqCst);
        waited
    }

    /// Waits until this version or a later one is shown, for at most the time in the desk's setup, and returns what is shown. One may also wait for a
    /// version to which no group leads yet.
    ///
    /// It fails with 45 if the store broke before the version was durable, with 61 if the builder ended before that, and with 54 if the version is not
    /// shown in time.
    pub fn wait_version(&self, version: u64) -> Result<Shown, Refusal>
        ensures origin { IfOk result (λ shown. shown.origin ≡ S.Naming.origin) }
        ensures there { IfOk result (λ shown. version ≤ S.Naming.origin.version + length shown.groups) }
        ensures state { IfOk result (λ shown. WereShown S.Naming.origin shown.groups) }
        ensures causes { IfErr result (IsUnreached S.Naming.origin version) }
    {
        let (guard, _) = self.wait_seen_in_time(version);
        guard.shown_at(version)
    }
}
