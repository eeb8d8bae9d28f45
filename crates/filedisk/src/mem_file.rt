//! A file in memory that keeps the model.
ghost use Rattle.std.specs.Prelude.{◌≡◌, ◌+◌, ◌-◌, ◌<◌, ◌≤◌, ◌↔◌, ◌++◌, [], None, Ok, length, take, drop, slice_range, IsTrue, IfOk, IfErr, OnOk, OnErr};
ghost use Rattle.std.specs.IoError.{error_kind};
ghost use Rattle.std.specs.declared.io.ErrorKind.TheVariants.{BrokenPipe};
ghost use Rattle.disk.specs.Contents.{overwritten, AreAmong, Only};
ghost use Rattle.disk.specs.MemDisk.{bytes_of, synced_of, is_unsynced_in, armed_of, IsSame};
ghost use Rattle.disk.specs.Stop.{TakesPicks};
ghost use Rattle.filedisk.specs.Files.{Unchanged, Tears, lengthened};
ghost use Rattle.filedisk.specs.Noted.{outcome_of, told_number, has_failed_sync};
ghost use Rattle.filedisk.specs.MemFiles.{left_of, moment_of, left_since_of};

use crate::RawFile;
use crate::notes::{AskedOfFile, Note, NotedAnswer, Notes};
use crate::system::as_done;
use disk::{Disk, DiskError, MemDisk, Pick, Stoppable};
use std::alloc::Global;
use std::io;
use std::io::ErrorKind;

/// A file in memory, empty at first: the model of a file that does what `RawFile` says. A read or a write does only a part if it is asked for more than so
/// many bytes, and one call can fail. A stop leaves of it what it leaves of a `MemDisk`.
#[derive(Drop)]
pub struct MemFile {
    alloc: Global,
    disk: MemDisk,
    most: usize,
    // Which call from now on fails, where the next one is 1; 0 if none does.
    fails_in: u64,
    sync_failed: bool,
    notes: Notes,
    ghost failed: { sync_failed ≡ has_failed_sync notes.calls },
    ghost unarmed: { armed_of disk ≡ None },
}

/// Whether this call is the one that fails. Also counts the call.
fn comes_now(fails_in: &mut u64) -> bool
    ensures now { IsTrue result ↔ (fails_in.old ≡ 1) }
    ensures next { fails_in.new ≡ fails_in.old - 1 }
{
    let now = *fails_in == 1;
    *fails_in = fails_in.saturating_sub(1);
    now
}

/// The error of each call that fails.
fn broken() -> io::Error
    ensures { error_kind result ≡ BrokenPipe }
{
    io::Error::from(ErrorKind::BrokenPipe)
}

/// The answer of a call that returns a length.
fn as_size<'a>(answer: &io::Result<u64>) -> NotedAnswer<'a>
    ensures { outcome_of result ≡ told_number answer.now }
{
    match answer {
        Ok(size) => NotedAnswer::Told(*size),
        Err(error) => NotedAnswer::Failed(error.kind()),
    }
}

/// The answer of a call that returns how many bytes it wrote.
fn as_count<'a>(answer: &io::Result<usize>) -> NotedAnswer<'a>
    ensures { outcome_of result ≡ told_number answer.now }
{
    match answer {
        Ok(count) => NotedAnswer::Told(*count as u64),
        Err(error) => NotedAnswer::Failed(error.kind()),
    }
}

/// What the disk answered, unless the call fails.
fn answered<T: Drop>(fails: bool, outcome: Result<T, DiskError>) -> io::Result<T>
    ensures told { IfOk result (λ value. outcome ≡ Ok value) }
    ensures kind { IfErr result (λ error. error_kind error ≡ BrokenPipe) }
{
    match outcome {
        Ok(value) if !fails => Ok(value),
        _ => Err(broken()),
    }
}

/// The length, unless the call fails.
fn size_of(disk: &mut MemDisk, fails: bool) -> io::Result<u64>
    ensures length { IfOk result (λ n. n ≡ length (bytes_of disk.old)) }
    ensures same { IsSame disk.old disk.new }
    ensures armed { armed_of disk.new ≡ armed_of disk.old }
{
    let outcome = disk.len();
    answered(fails, outcome)
}

/// Puts at most so many bytes from `at` on into the front of `into`, unless the call fails.
fn read_front(
    disk: &mut MemDisk,
    fails: bool,
    most: usize,
    at: u64,
    into: &mut [u8],
) -> io::Result<usize>
    requires { at + length into.old ≤ length (bytes_of disk.old) }
    ensures bound { IfOk result (λ n. n ≤ length into.old) }
    ensures bytes { IfOk result (λ n. into.new ≡ slice_range (bytes_of disk.old) at (at + n) ++ drop n into.old) }
    ensures kind { IfErr result (λ error. error_kind error ≡ BrokenPipe) }
    ensures same { IsSame disk.old disk.new }
    ensures armed { armed_of disk.new ≡ armed_of disk.old }
{
    let count = into.len().min(most);
    let outcome = disk.read(at, &mut into[..count]);
    answered(fails, outcome)?;
    Ok(count)
}

/// Writes at most so many of the bytes, from the first on, at `at`. If the call fails, they may be written nevertheless.
fn write_front(
    disk: &mut MemDisk,
    fails: bool,
    most: usize,
    at: u64,
    bytes: &[u8],
) -> io::Result<usize>
    requires within { at + length bytes.now ≤ length (bytes_of disk.old) }
    requires unarmed { armed_of disk.old ≡ None }
    ensures bound { IfOk result (λ n. n ≤ length bytes.now) }
    ensures written { IfOk result (λ n. bytes_of disk.new ≡ overwritten (bytes_of disk.old) at (take n bytes.now)) }
    ensures kind { IfErr result (λ error. error_kind error ≡ BrokenPipe) }
    ensures tears { Tears at (length bytes.now) bytes_of left_of moment_of left_since_of disk.old disk.new }
    ensures keeps { AreAmong (left_of disk.old) (left_of disk.new) }
    ensures unarmed { armed_of disk.new ≡ None }
{
    let count = bytes.len().min(most);
    let outcome = disk.write_at(at, &bytes[..count]);
    answered(fails, outcome)?;
    Ok(count)
}

/// Appends these bytes at the end, which is at `end`, or nothing.
fn append(disk: &mut MemDisk, end: u64, bytes: &[u8]) -> io::Result<()>
    requires end { end ≡ length (bytes_of disk.old) }
    requires unarmed { armed_of disk.old ≡ None }
    ensures longer { OnOk result (bytes_of disk.new ≡ bytes_of disk.old ++ bytes.now) }
    ensures failed { OnErr result (bytes_of disk.new ≡ bytes_of disk.old) }
    ensures tears { Tears end (length bytes.now) bytes_of left_of moment_of left_since_of disk.old disk.new }
    ensures keeps { AreAmong (left_of disk.old) (left_of disk.new) }
    ensures unarmed { armed_of disk.new ≡ None }
{
    match disk.write_at(end, bytes) {
        Ok(()) => Ok(()),
        Err(_) => Err(broken()),
    }
}

/// Appends zeros up to this length, unless the call fails or there is no memory.
fn grow(alloc: Global, disk: &mut MemDisk, fails: bool, size: u64) -> io::Result<()>
    requires longer { length (bytes_of disk.old) ≤ size }
    requires unarmed { armed_of disk.old ≡ None }
    ensures longer { OnOk result (bytes_of disk.new ≡ lengthened (bytes_of disk.old) size) }
    ensures failed { OnErr result (bytes_of disk.new ≡ bytes_of disk.old) }
    ensures tears { Tears (length (bytes_of disk.old)) (size - length (bytes_of disk.old)) bytes_of left_of moment_of left_since_of disk.old disk.new }
    ensures keeps { AreAmong (left_of disk.old) (left_of disk.new) }
    ensures unarmed { armed_of disk.new ≡ None }
{
    let end = size_of(disk, fails)?;
    match vec![in alloc; 0u8; (size - end) as usize] {
        Ok(zeros) => append(disk, end, zeros.as_slice()),
        Err(_) => Err(broken()),
    }
}

/// Syncs, unless the call fails.
fn sync_once(disk: &mut MemDisk, fails: bool) -> io::Result<()>
    requires { armed_of disk.old ≡ None }
    ensures durable { OnOk result (Only (bytes_of disk.old) (left_of disk.new)) }
    ensures same { Unchanged bytes_of left_of moment_of left_since_of disk.old disk.new }
    ensures unarmed { armed_of disk.new ≡ None }
{
    if fails {
        return Err(broken());
    }
    match disk.sync() {
        Ok(()) => Ok(()),
        Err(_) => Err(broken()),
    }
}

impl MemFile {
    /// An empty file. It reads or writes at most `most` bytes in a call. Its k-th call from now on fails, of any kind, counted from 1; with k = 0 none
    /// does.
    pub fn new(alloc: Global, most: usize, k: u64) -> MemFile
        ensures honest { ⟦<MemFile as RawFile>⟧.honest result }
        ensures empty { ⟦<MemFile as RawFile>⟧.content result ≡ [] }
        ensures at_rest { Only [] (⟦<MemFile as RawFile>⟧.left result) }
        ensures calls { ⟦<MemFile as RawFile>⟧.calls result ≡ [] }
    {
        MemFile {
            alloc,
            disk: MemDisk::new(alloc),
            most,
            fails_in: k,
            sync_failed: false,
            notes: Notes::new(),
        }
    }

    /// Stops, and opens again with what the stop left, as `Stoppable::stop` says: each byte that was written since the last sync takes its pick. Then no
    /// call of it has been made.
    pub fn stop(&mut self, picks: &[Pick])
        requires { 0 < length picks.now }
        ensures left { ⟦<MemFile as RawFile>⟧.left self.old (⟦<MemFile as RawFile>⟧.content self.new) }
        ensures at_rest { Only (⟦<MemFile as RawFile>⟧.content self.new) (⟦<MemFile as RawFile>⟧.left self.new) }
        ensures picks { TakesPicks picks.now (synced_of self.old.disk) (is_unsynced_in self.old.disk) (bytes_of self.old.disk) (bytes_of self.new.disk) }
        ensures calls { ⟦<MemFile as RawFile>⟧.calls self.new ≡ [] }
    {
        let _ = self.disk.stop(picks);
        self.sync_failed = false;
        self.notes = Notes::new();
    }
}

impl RawFile for MemFile {
    ghost use Rattle.disk.specs.RecordLaws.{leaves_now, might_now, only_might_now};
    ghost use Rattle.disk.specs.Record.{unsynced};
    ghost use Rattle.disk.specs.MemDisk.{record_of};

    ghost calls = { λ file. file.notes.calls };

    ghost content = { λ file. bytes_of file.disk };

    ghost left = { λ file. left_of file.disk };

    ghost moment = { λ file. moment_of file.disk };

    ghost left_since = { λ file. left_since_of file.disk };

    ghost honest = { λ _. Unit {0} };

    fn size(&mut self) -> io::Result<u64> {
        let fails = comes_now(&mut self.fails_in);
        let outcome = size_of(&mut self.disk, fails);
        let asked = AskedOfFile::Size;
        let answer = as_size(&outcome);
        self.notes = self.notes.then(&Note { asked, answer });
        outcome
    }

    fn read_some(&mut self, at: u64, into: &mut [u8]) -> io::Result<usize> {
        let count = into.len();
        let asked = AskedOfFile::Read { at, count };
        let fails = comes_now(&mut self.fails_in);
        let outcome = read_front(&mut self.disk, fails, self.most, at, into);
        match outcome {
            Ok(given) => {
                let answer = NotedAnswer::Gave(&into[..given]);
                self.notes = self.notes.then(&Note { asked, answer });
            }
            Err(error) => {
                let answer = NotedAnswer::Failed(error.kind());
                self.notes = self.notes.then(&Note { asked, answer });
            }
        }
        outcome
    }

    fn lengthen(&mut self, size: u64) -> io::Result<()> {
        let fails = comes_now(&mut self.fails_in);
        let outcome = grow(self.alloc, &mut self.disk, fails, size);
        let asked = AskedOfFile::Lengthen { size };
        let answer = as_done(&outcome);
        self.notes = self.notes.then(&Note { asked, answer });
        outcome
    }

    fn write_some(&mut self, at: u64, bytes: &[u8]) -> io::Result<usize> {
        let fails = comes_now(&mut self.fails_in);
        let outcome = write_front(&mut self.disk, fails, self.most, at, bytes);
        let asked = AskedOfFile::Write { at, bytes };
        let answer = as_count(&outcome);
        self.notes = self.notes.then(&Note { asked, answer });
        outcome
    }

    fn sync(&mut self) -> io::Result<()> {
        if self.sync_failed {
            return Err(broken());
        }
        let fails = comes_now(&mut self.fails_in);
        let outcome = sync_once(&mut self.disk, fails);
        self.sync_failed = outcome.is_err();
        let asked = AskedOfFile::SyncAll;
        let answer = as_done(&outcome);
        self.notes = self.notes.then(&Note { asked, answer });
        outcome
    }

    ghost leaves_content = { λ file _. leaves_now (unsynced (record_of file.disk)) (bytes_of file.disk) };

    ghost counts_now = { λ file t c _ le left. might_now (record_of file.disk) (bytes_of file.disk) t c le left };

    ghost only_now = { λ file c _ since. only_might_now (record_of file.disk) (bytes_of file.disk) c since };
}
