// A disk in memory, for tests.
ghost use Rattle.std.specs.Prelude.{◌≡◌, ◌⊎◌, ◌↔◌, ◌<◌, nat_lt, nat_le, ◌&&◌, ◌||◌, unwrap_or, if◌then◌else◌, ℕ, List, false, None, Some, IsTrue, ◌+◌, ◌≤◌, ◌^◌, ◌-◌, min, [], ◌∷◌, ◌++◌, length, OnOk, OnErr};
ghost use Rattle.disk.specs.Contents.{overwritten, Torn, PartlyWritten, Only, AreAmong, Follows, Rose};
ghost use Rattle.disk.specs.Moments.{Elapses};
ghost use Rattle.disk.specs.Record.{unsynced, is_in, is_written, before_writes, IsNoted, IsSyncedByte, replaced_at, MayLeave, MightHaveLeft};
ghost use Rattle.disk.specs.Stop.{TakesPicks, picked, nearer};
ghost use Rattle.disk.specs.RecordLaws.{leaves_now, might_now, only_might_now};
ghost use Rattle.disk.specs.declared.mem_disk.Recorded.TheVariants.{Wrote, Synced};

use crate::{Disk, DiskError, Pick, Stoppable};
use std::alloc::{AllocError, Global};

/// A write, with what is needed to undo it.
#[derive(Drop)]
pub struct Write {
    pub at: usize,
    pub count: usize,
    pub length_before: usize,
    pub replaced: Vec<u8>,
}

/// A write or a sync that was made, as recorded by the disk.
#[derive(Drop)]
pub enum Recorded {
    Wrote(Write),
    Synced,
}

/// A disk in memory for tests, empty at first. It records its writes and syncs. If memory runs out in it, the disk fails. Its only other failures are the
/// armed call and those after it.
#[derive(Drop)]
pub struct MemDisk {
    alloc: Global,
    content: Vec<u8>,
    calls: Vec<Recorded>,
    failures: u64,
    // How often memory ran out.
    refusals: u64,
    // How many writes and syncs remain until the armed one, including it; 0 once it has come.
    armed: Option<u64>,
}

impl MemDisk {
    ghost use Rattle.disk.specs.MemDisk.{bytes_of, armed_of, record_of, refusals_of};

    /// An empty disk that has not failed yet.
    pub fn new(alloc: Global) -> Self
        ensures empty { bytes_of result ≡ [] }
        ensures at_rest { Only [] (⟦<MemDisk as Disk>⟧.left result) }
        ensures unarmed { armed_of result ≡ None }
        ensures failures { ⟦<MemDisk as Disk>⟧.failures result ≡ 0 }
        ensures refusals { refusals_of result ≡ 0 }
    {
        MemDisk {
            alloc,
            content: Vec::new(alloc),
            calls: Vec::new(alloc),
            failures: 0,
            refusals: 0,
            armed: None,
        }
    }

    /// Its writes and syncs since it was made, or since it was last stopped, the earliest first.
    pub fn calls(&self) -> &[Recorded]
        ensures { result.now ≡ record_of self.now }
    {
        &self.calls
    }
}

// Whether the armed call has come.
fn has_come(armed: Option<u64>) -> bool
    ensures { IsTrue result ↔ (armed ≡ Some 0) }
{
    armed == Some(0)
}

// What is armed after one more write or sync.
fn nearer(armed: Option<u64>) -> Option<u64>
    ensures { result ≡ nearer armed }
{
    armed.map(|k| k.saturating_sub(1))
}

// Counts a failure.
fn fail(failures: &mut u64) -> DiskError
    ensures { failures.new ≡ min (failures.old + 1) (2 ^ 64 - 1) }
{
    *failures = failures.saturating_add(1);
    DiskError
}

// Counts that memory ran out, and with it a failure.
fn refuse(refusals: &mut u64, failures: &mut u64) -> DiskError
    ensures refused { Rose refusals.old refusals.new }
    ensures failed { failures.new ≡ min (failures.old + 1) (2 ^ 64 - 1) }
{
    *refusals = refusals.saturating_add(1);
    fail(failures)
}

// Writes the bytes over what is there, and beyond the end.
fn overwrite(content: &mut Vec<u8>, at: usize, bytes: &[u8]) -> Result<(), AllocError>
    requires { at ≤ length content.old.items }
    ensures content { OnOk result (content.new.items ≡ overwritten content.old.items at bytes.now) }
    ensures err { OnErr result (content.new.items ≡ content.old.items) }
{
    let within = bytes.len().min(content.len() - at);
    content.extend_from_slice(&bytes[within..])?;
    content[at..at + within].copy_from_slice(&bytes[..within]);
    Ok(())
}

fn note(calls: &mut Vec<Recorded>, call: Recorded) -> Result<(), AllocError>
    ensures ok { OnOk result (calls.new.items ≡ calls.old.items ++ call ∷ []) }
    ensures err { OnErr result (calls.new.items ≡ calls.old.items) }
{
    calls.push(call)?;
    Ok(())
}

// Overwrites, and notes it.
fn overwrite_noted(
    alloc: Global,
    content: &mut Vec<u8>,
    calls: &mut Vec<Recorded>,
    at: usize,
    bytes: &[u8],
) -> Result<(), AllocError>
    requires { at ≤ length content.old.items }
    ensures content { OnOk result (content.new.items ≡ overwritten content.old.items at bytes.now) }
    ensures noted { OnOk result (IsNoted content.old.items content.new.items at (length bytes.now) calls.old.items calls.new.items) }
    ensures err { OnErr result ((content.new.items ≡ content.old.items) × (calls.new.items ≡ calls.old.items)) }
{
    let length_before = content.len();
    let within = bytes.len().min(length_before - at);
    let replaced = content[at..at + within].to_vec(alloc)?;
    let write = Write {
        at,
        count: bytes.len(),
        length_before,
        replaced,
    };
    note(calls, Recorded::Wrote(write))?;
    if overwrite(content, at, bytes).is_err() {
        calls.pop();
        return Err(AllocError);
    }
    Ok(())
}

// Overwrites, which advances the time.
fn write_recorded(
    alloc: Global,
    content: &mut Vec<u8>,
    calls: &mut Vec<Recorded>,
    at: usize,
    bytes: &[u8],
) -> Result<(), AllocError>
    requires { at ≤ length content.old.items }
    ensures content { OnOk result (content.new.items ≡ overwritten content.old.items at bytes.now) }
    ensures partly { OnOk result (PartlyWritten at (length bytes.now) content.old.items content.new.items) }
    ensures stop { OnOk result (Follows (Torn at (length bytes.now))
        (MayLeave (unsynced calls.old.items) content.old.items) (MayLeave (unsynced calls.new.items) content.new.items)) }
    ensures time { OnOk result (Elapses (length calls.old.items) (length calls.new.items)
        (MightHaveLeft calls.old.items content.old.items) (MightHaveLeft calls.new.items content.new.items)
        (MayLeave (unsynced calls.new.items) content.new.items)) }
    ensures synced { OnOk result (before_writes (unsynced calls.new.items) content.new.items ≡ before_writes (unsynced calls.old.items) content.old.items) }
    ensures unsynced { OnOk result ((i : ℕ) →
        is_written (unsynced calls.new.items) i ≡ (is_written (unsynced calls.old.items) i || (nat_le at i && nat_lt i (at + length bytes.now)))) }
    ensures err { OnErr result ((content.new.items ≡ content.old.items) × (calls.new.items ≡ calls.old.items)) }
{
    overwrite_noted(alloc, content, calls, at, bytes)
}

// Records a sync: then nothing is unsynced, whatever the content.
fn record_sync(calls: &mut Vec<Recorded>) -> Result<(), AllocError>
    ensures durable { OnOk result ((now : List ℕ) → Only now (MayLeave (unsynced calls.new.items) now)) }
    ensures stop { OnOk result ((now : List ℕ) → AreAmong (MayLeave (unsynced calls.new.items) now) (MayLeave (unsynced calls.old.items) now)) }
    ensures time { OnOk result ((now : List ℕ) → Elapses (length calls.old.items) (length calls.new.items)
        (MightHaveLeft calls.old.items now) (MightHaveLeft calls.new.items now) (MayLeave (unsynced calls.new.items) now)) }
    ensures synced { OnOk result ((now : List ℕ) → before_writes (unsynced calls.new.items) now ≡ now) }
    ensures unsynced { OnOk result ((i : ℕ) → is_written (unsynced calls.new.items) i ≡ false) }
    ensures err { OnErr result (calls.new.items ≡ calls.old.items) }
{
    note(calls, Recorded::Synced)
}

impl Disk for MemDisk {
    ghost use Rattle.disk.specs.MemDisk.{MemTakes};

    ghost content = { λ disk. disk.content.items };

    ghost left = { λ disk. MayLeave (unsynced disk.calls.items) disk.content.items };

    ghost moment = { λ disk. length disk.calls.items };

    ghost left_since = { λ disk. MightHaveLeft disk.calls.items disk.content.items };

    ghost failures = { λ disk. min disk.failures (2 ^ 64 - 1) };

    ghost honest = { λ _. Unit {0} };

    ghost takes = { MemTakes };

    fn len(&mut self) -> Result<u64, DiskError> {
        if has_come(self.armed) {
            return Err(fail(&mut self.failures));
        }
        Ok(self.content.len() as u64)
    }

    fn read(&mut self, at: u64, into: &mut [u8]) -> Result<(), DiskError> {
        if has_come(self.armed) {
            return Err(fail(&mut self.failures));
        }
        let at = at as usize;
        into.copy_from_slice(&self.content[at..at + into.len()]);
        Ok(())
    }

    fn write_at(&mut self, at: u64, bytes: &[u8]) -> Result<(), DiskError> {
        if has_come(self.armed) {
            return Err(fail(&mut self.failures));
        }
        self.armed = nearer(self.armed);
        let at = at as usize;
        match write_recorded(self.alloc, &mut self.content, &mut self.calls, at, bytes) {
            // A write that is cut is made but not answered.
            Ok(()) if has_come(self.armed) => Err(fail(&mut self.failures)),
            Ok(()) => Ok(()),
            Err(_) => Err(refuse(&mut self.refusals, &mut self.failures)),
        }
    }

    fn sync(&mut self) -> Result<(), DiskError> {
        self.armed = nearer(self.armed);
        // A sync that is cut isn't made.
        if has_come(self.armed) {
            return Err(fail(&mut self.failures));
        }
        match record_sync(&mut self.calls) {
            Ok(()) => Ok(()),
            Err(_) => Err(refuse(&mut self.refusals, &mut self.failures)),
        }
    }

    ghost leaves_content = { λ disk _. leaves_now (unsynced disk.calls.items) disk.content.items };

    ghost counts_now = { λ disk t c _ le left. might_now disk.calls.items disk.content.items t c le left };

    ghost only_now = { λ disk c _ left. only_might_now disk.calls.items disk.content.items c left };
}

impl Write {
    // Whether the place is in the range.
    fn has(&self, place: usize) -> bool
        ensures { result ≡ is_in place self.now }
    {
        self.at <= place && place - self.at < self.count
    }

    // The byte at a place that the write replaced.
    fn replaced_at(&self, place: usize) -> Option<u8>
        ensures { result ≡ replaced_at self.now place }
    {
        if self.has(place) {
            self.replaced.get(place - self.at).copied()
        } else {
            None
        }
    }

    // The length before the write, and the byte at a place before it, given those after it.
    fn before(&self, total: usize, place: usize, byte: u8) -> (usize, u8)
        ensures total { result.0 ≡ min self.now.length_before total }
        ensures byte { result.1 ≡ (if nat_lt place (min self.now.length_before total) then unwrap_or (replaced_at self.now place) byte else 0) }
    {
        let total = self.length_before.min(total);
        if place < total {
            (total, self.replaced_at(place).unwrap_or(byte))
        } else {
            (total, 0)
        }
    }
}

// Whether a place was written since the last sync, and the synced byte there, given the content's length and its byte there.
fn synced_byte(calls: &[Recorded], total: usize, place: usize, byte: u8) -> (bool, u8)
    ensures written { result.0 ≡ is_written (unsynced calls.now) place }
    ensures byte { IsSyncedByte calls.now total place byte result.1 }
{
    let mut left = calls;
    let mut total_then = total;
    let mut byte_then = byte;
    let mut is_written = false;
    while let Some((last, earlier)) = left.split_last() {
        let Recorded::Wrote(write) = last else {
            return (is_written, byte_then);
        };
        is_written = is_written || write.has(place);
        (total_then, byte_then) = write.before(total_then, place, byte_then);
        left = earlier;
    }
    (is_written, byte_then)
}

impl Stoppable for MemDisk {
    ghost use Rattle.disk.specs.MemDiskLaws.{mem_comes_nearer, mem_only_sync_syncs, mem_writes_unsync, mem_cut_fails};

    ghost synced = { λ disk. before_writes (unsynced disk.calls.items) disk.content.items };

    ghost is_unsynced = { λ disk. is_written (unsynced disk.calls.items) };

    ghost armed = { λ disk. disk.armed };

    fn arm(&mut self, k: u64) {
        if !has_come(self.armed) {
            self.armed = Some(k);
        }
    }

    fn stop(&mut self, picks: &[Pick]) -> bool {
        let came = has_come(self.armed);
        restart(&mut self.content, &mut self.calls, picks);
        self.armed = None;
        came
    }

    ghost left_is = { λ disk c _. (λ left. left, λ agrees. agrees) };

    ghost comes_nearer = { mem_comes_nearer };

    ghost only_sync_syncs = { mem_only_sync_syncs };

    ghost writes_unsync = { mem_writes_unsync };

    ghost cut_fails = { mem_cut_fails };
}

fn picked(pick: Pick, old: u8, new: u8) -> u8
    ensures { result ≡ picked pick old new }
{
    match pick {
        Pick::Old => old,
        Pick::New => new,
        Pick::Byte(byte) => byte,
    }
}

fn next_turn(turn: usize, turns: usize) -> usize
    requires { turn < turns }
    ensures bound { result < turns }
    ensures next { ((turn + 1 < turns) × (result ≡ turn + 1)) ⊎ ((turn + 1 ≡ turns) × (result ≡ 0)) }
{
    if turn + 1 < turns { turn + 1 } else { 0 }
}

// Gives each place that was written since the last sync its pick.
fn take_picks(content: &mut [u8], calls: &[Recorded], picks: &[Pick])
    requires { 0 < length picks.now }
    ensures { TakesPicks picks.now (before_writes (unsynced calls.now) content.old) (is_written (unsynced calls.now)) content.old content.new }
{
    let length = content.len();
    let mut turn = 0;
    for (place, byte) in content.iter_mut().enumerate() {
        let (is_written, old) = synced_byte(calls, length, place, *byte);
        if is_written {
            *byte = picked(picks[turn], old, *byte);
            turn = next_turn(turn, picks.len());
        }
    }
}

// Gives each place that was written since the last sync its pick. Then the record begins anew.
fn restart(content: &mut Vec<u8>, calls: &mut Vec<Recorded>, picks: &[Pick])
    requires { 0 < length picks.now }
    ensures picks { TakesPicks picks.now (before_writes (unsynced calls.old.items) content.old.items) (is_written (unsynced calls.old.items)) content.old.items content.new.items }
    ensures record { calls.new.items ≡ [] }
{
    take_picks(content, calls, picks);
    calls.clear();
}
