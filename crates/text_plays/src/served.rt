//! The calls that a store answers.
use crate::outcomes::width_of;
use blocks::{Given, Head, NotingWriter};
use dimacs::Counted;
use disk::{FailOnce, FuseDisk, MemDisk};
use printing::{CountedWriter, Exported, Failed, Look};
use std::alloc::Global;
use std::io;
use std::io::Write;
use std::thread::Threads;
use store::open;
use storetexts::{apply_text, ask_text, check_text, export_text, show_text};

/// A disk that may fail in one call, or behind some.
type Faulty = FuseDisk<FailOnce<MemDisk>>;

/// What a call came to, and the disk.
type Came = (Result<(), Failed>, Faulty);

/// A disk that fails as the head and the turn say.
fn faulty(given: Given<'_, '_>, disk: MemDisk) -> Faulty {
    let calls = given.head.number_of("disk-takes").unwrap_or(u64::MAX);
    FuseDisk::new(FailOnce::new(disk, u64::from(given.turn.disk)), calls)
}

fn apply(
    alloc: Global,
    given: Given<'_, '_>,
    disk: Faulty,
    writer: &mut NotingWriter,
) -> io::Result<Came> {
    let mut reader = given.reader(alloc, 0)?;
    let mut commands = Counted::new(&mut reader);
    let mut writer = CountedWriter::new(writer);
    Ok(apply_text(alloc, disk, &mut commands, &(), &mut writer))
}

fn ask<T: Threads>(
    rt: &T,
    alloc: Global,
    given: Given<'_, '_>,
    disk: Faulty,
    writer: &mut NotingWriter,
) -> io::Result<Came> {
    let mut reader = given.reader(alloc, 0)?;
    let mut pairs = Counted::new(&mut reader);
    let delta = width_of(given.head);
    let routes = given.head.has("routes");
    let mut writer = CountedWriter::new(writer);
    Ok(
        match ask_text(rt, alloc, disk, &mut pairs, routes, delta, &mut writer) {
            (Ok(_), disk) => (Ok(()), disk),
            (Err(failed), disk) => (Err(failed), disk),
        },
    )
}

/// The look of a head at one arc, or at those between two nodes.
fn look_of(head: Head<'_>) -> Look {
    let first = head.number(1).unwrap_or(0);
    match head.number(2) {
        Some(second) => Look::Between {
            tail: first,
            head: second,
        },
        None => Look::Arc { number: first },
    }
}

/// The text that a head writes out.
fn exported_of(head: Head<'_>) -> Exported {
    match head.word(1) {
        "network" => Exported::Network,
        "landmarks" => Exported::Landmarks,
        _ => Exported::Closings,
    }
}

/// Opens the store, and writes a text of it or its version.
fn look_into(
    alloc: Global,
    head: Head<'_>,
    disk: Faulty,
    writer: &mut NotingWriter,
) -> io::Result<Came> {
    let store = match open(alloc, disk) {
        Ok(store) => store,
        Err((refusal, disk)) => return Ok((Err(Failed::Code(refusal)), disk)),
    };
    if head.word(0) == "version" {
        let version = store.version();
        let disk = store.close();
        writeln!(writer, "v {version}")?;
        return Ok((Ok(()), disk));
    }
    let outcome = export_text(&store, exported_of(head), &mut CountedWriter::new(writer));
    Ok((outcome, store.close()))
}

/// Makes such a call.
fn came_of<T: Threads>(
    rt: &T,
    alloc: Global,
    given: Given<'_, '_>,
    disk: Faulty,
    writer: &mut NotingWriter,
) -> io::Result<Came> {
    match given.head.word(0) {
        "apply" => apply(alloc, given, disk, writer),
        "ask" => ask(rt, alloc, given, disk, writer),
        "check" => Ok(check_text(alloc, disk, &mut CountedWriter::new(writer))),
        "show" => {
            let look = look_of(given.head);
            Ok(show_text(alloc, disk, look, &mut CountedWriter::new(writer)))
        }
        _ => look_into(alloc, given.head, disk, writer),
    }
}

/// Makes such a call on the store of a disk.
pub(crate) fn served<T: Threads>(
    rt: &T,
    alloc: Global,
    given: Given<'_, '_>,
    disk: MemDisk,
    writer: &mut NotingWriter,
) -> io::Result<(Result<(), Failed>, MemDisk)> {
    let (outcome, disk) = came_of(rt, alloc, given, faulty(given, disk), writer)?;
    Ok((outcome, disk.into_inner().into_inner()))
}
