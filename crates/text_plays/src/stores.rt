//! The store that the blocks of a file make, change and ask, and which call each head makes.
use crate::making::made;
use crate::outcomes::put_outcome;
use crate::queries::put_answers;
use crate::reading::{put_before_run, put_text};
use crate::served::served;
use crate::worded::{put_codes, put_fault_line, put_help, put_job};
use blocks::{Call, Given, NotingWriter};
use disk::{Disk, MemDisk};
use printing::Failed;
use std::alloc::Global;
use std::cell::RefCell;
use std::io;
use std::io::{ErrorKind, Write};
use std::thread::Threads;

/// The options of the calls that make a store, and of those that ask one.
const MAKING: &str = "journal= room= here keeping sent";

const ASKING: &str = "routes delta= disk-takes= keeping sent";

/// The calls of these plays.
pub const CALLS: &[Call] = &[
    ("gr", ""),
    ("ss", ""),
    ("p2p", ""),
    ("commands", ""),
    ("script", ""),
    ("gr-before-run", ""),
    ("once", "* * delta= sent"),
    ("route", "* * delta= sent"),
    ("batch", "delta= sent"),
    ("table", "delta= sent"),
    ("joint", "delta= sent"),
    ("reach", "* within= delta= sent"),
    ("reached", "* within= delta= sent"),
    ("pairs", "* rows= delta= sent"),
    ("rehearse", "journal= room= delta= sent"),
    ("create", MAKING),
    ("copy", MAKING),
    ("migrate", MAKING),
    ("upgrade", MAKING),
    ("apply", ASKING),
    ("ask", ASKING),
    ("check", ASKING),
    ("version", ASKING),
    ("show", "* * keeping sent"),
    ("export", "* keeping sent"),
    ("write", "*"),
    ("cut", "*"),
    ("bytes", ""),
    ("words", ""),
    ("help", ""),
    ("fault-line", ""),
    ("codes", ""),
];

/// The disk that the blocks so far have left.
#[derive(Drop)]
pub struct Made<R> {
    rt: R,
    disk: RefCell<Option<MemDisk>>,
}

/// The bytes of a disk.
fn bytes_of(alloc: Global, disk: &mut MemDisk) -> io::Result<Vec<u8>> {
    let Ok(length) = disk.len() else {
        return Err(io::Error::from(ErrorKind::Other));
    };
    let mut bytes = vec![in alloc; 0; length as usize]?;
    match disk.read(0, &mut bytes) {
        Ok(()) => Ok(bytes),
        Err(_) => Err(io::Error::from(ErrorKind::Other)),
    }
}

/// A disk with these bytes, all of them synced.
fn disk_with(alloc: Global, bytes: &[u8]) -> io::Result<MemDisk> {
    let mut disk = MemDisk::new(alloc);
    match (disk.write_at(0, bytes), disk.sync()) {
        (Ok(()), Ok(())) => Ok(disk),
        _ => Err(io::Error::from(ErrorKind::Other)),
    }
}

/// Puts bytes into a file from a place on, as far as it goes.
fn put_bytes(file: &mut [u8], at: usize, bytes: &[u8]) {
    for (place, byte) in file.iter_mut().skip(at).zip(bytes.iter()) {
        *place = *byte;
    }
}

/// A disk with the bytes of a text, or with these and them in the place that the head names.
fn written(alloc: Global, given: Given<'_, '_>, bytes: &[u8]) -> io::Result<MemDisk> {
    let Some(at) = given.head.number(1) else {
        return disk_with(alloc, given.text(0));
    };
    let mut bytes = Vec::from_slice(alloc, bytes)?;
    put_bytes(&mut bytes, at as usize, given.text(0));
    disk_with(alloc, &bytes)
}

/// By what names the texts of a call are told.
fn names_of(call: &str) -> [&'static str; 2] {
    match call {
        "create" => ["network", "landmarks"],
        "upgrade" => ["old network", "new network"],
        "apply" => ["commands", ""],
        _ => ["pairs", ""],
    }
}

/// Whether a call makes a store.
fn makes(call: &str) -> bool {
    call == "create" || call == "copy" || call == "migrate" || call == "upgrade"
}

/// Makes a call on the store of a disk, adds what comes out, and hands the disk back.
fn call_on<T: Threads>(
    rt: &T,
    alloc: Global,
    given: Given<'_, '_>,
    disk: MemDisk,
    out: &mut Vec<u8>,
) -> io::Result<MemDisk> {
    let call = given.head.word(0);
    let mut writer = NotingWriter::new(alloc, given.turn.write);
    let (outcome, disk): (Result<(), Failed>, MemDisk) = if makes(call) {
        made(alloc, given, disk, &mut writer)?
    } else {
        served(rt, alloc, given, disk, &mut writer)?
    };
    put_outcome(given, outcome, &names_of(call), &writer, out)?;
    Ok(disk)
}

impl<R: Threads + Copy> Made<R> {
    /// No store is there yet.
    pub fn new(rt: R) -> Made<R> {
        Made {
            rt,
            disk: RefCell::new(None),
        }
    }

    /// The disk that is there, or an empty one. The first block of a file finds none.
    fn take(&self, alloc: Global, is_first: bool) -> io::Result<MemDisk> {
        let Ok(mut kept) = self.disk.try_borrow_mut() else {
            return Err(io::Error::from(ErrorKind::Other));
        };
        match kept.take() {
            Some(disk) if !is_first => Ok(disk),
            _ => Ok(MemDisk::new(alloc)),
        }
    }

    /// This disk is there.
    fn put(&self, disk: MemDisk) -> io::Result<()> {
        let Ok(mut kept) = self.disk.try_borrow_mut() else {
            return Err(io::Error::from(ErrorKind::Other));
        };
        *kept = Some(disk);
        Ok(())
    }

    /// Makes a call on the store. Behind one of several turns the disk is as it was; where the head has `keeping` it is told whether it is.
    fn call_store(&self, alloc: Global, given: Given<'_, '_>, out: &mut Vec<u8>) -> io::Result<()> {
        let mut disk = self.take(alloc, given.is_first)?;
        let before = bytes_of(alloc, &mut disk)?;
        let mut disk = call_on(&self.rt, alloc, given, disk, out)?;
        if given.head.has("keeping") {
            let is_same = bytes_of(alloc, &mut disk)?.as_slice() == before.as_slice();
            writeln!(out, "{}", if is_same { "kept" } else { "changed" })?;
        }
        if given.turn.is_one_of_several {
            disk = disk_with(alloc, &before)?;
        }
        self.put(disk)
    }

    /// Puts bytes on the disk, cuts it behind so many, or tells how many it has.
    fn call_disk(&self, alloc: Global, given: Given<'_, '_>, out: &mut Vec<u8>) -> io::Result<()> {
        let mut disk = self.take(alloc, given.is_first)?;
        let mut bytes = bytes_of(alloc, &mut disk)?;
        match given.head.word(0) {
            "write" => disk = written(alloc, given, &bytes)?,
            "cut" => {
                bytes.truncate(given.head.number(1).unwrap_or(0) as usize);
                disk = disk_with(alloc, &bytes)?;
            }
            _ => writeln!(out, "{} bytes", bytes.len())?,
        }
        self.put(disk)
    }

    /// Makes the call of a case, and adds what comes out.
    pub fn call(&self, alloc: Global, given: Given<'_, '_>, out: &mut Vec<u8>) -> io::Result<()> {
        match given.head.word(0) {
            "gr" | "ss" | "p2p" | "commands" | "script" => put_text(alloc, given, out),
            "gr-before-run" => put_before_run(alloc, given, out),
            "once"
            | "route"
            | "batch"
            | "table"
            | "reach"
            | "reached"
            | "pairs"
            | "joint"
            | "rehearse" => { put_answers(&self.rt, alloc, given, out) }
            "create"
            | "copy"
            | "migrate"
            | "upgrade"
            | "apply"
            | "ask"
            | "check"
            | "show"
            | "export"
            | "version" => self.call_store(alloc, given, out),
            "write" | "cut" | "bytes" => self.call_disk(alloc, given, out),
            "words" => put_job(alloc, given, out),
            "help" => put_help(alloc, given, out),
            "codes" => put_codes(out),
            _ => put_fault_line(given, out),
        }
    }
}
