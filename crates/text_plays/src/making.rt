//! The calls that make a store: the only place that names them.
ghost use Rattle.std.specs.Prelude.{◌≤◌};
ghost use Rattle.std.specs.Option.{ForSome};

use crate::queries::pages_of;
use blocks::{Given, Head, NotingWriter};
use dimacs::Counted;
use disk::MemDisk;
use printing::{CountedWriter, Failed};
use std::alloc::Global;
use std::io;
use storetexts::{copy_text, create_text, migrate_text, upgrade_text};

/// What a call came to, and the disk that is there behind it.
type Came = (Result<(), Failed>, MemDisk);

/// The disk of a head, which is an empty one, or `here` the one that is there.
fn place_of(alloc: Global, head: Head<'_>, disk: MemDisk) -> MemDisk {
    if head.has("here") {
        disk
    } else {
        MemDisk::new(alloc)
    }
}

fn create(
    alloc: Global,
    given: Given<'_, '_>,
    disk: MemDisk,
    writer: &mut NotingWriter,
) -> io::Result<Came> {
    let mut network = given.reader(alloc, 0)?;
    let mut landmarks = given.reader(alloc, 1)?;
    Ok(create_text(
        alloc,
        place_of(alloc, given.head, disk),
        &mut Counted::new(&mut network),
        &mut Counted::new(&mut landmarks),
        pages_of(given.head),
        given.head.number_of("room"),
        &mut CountedWriter::new(writer),
    ))
}

/// The journal pages that a copy is given, if it is.
fn new_pages_of(head: Head<'_>) -> Option<u32>
    ensures { ForSome result (λ pages. (1 ≤ pages) × (pages ≤ 65536)) }
{
    match head.count_of("journal") {
        Some(pages) if 1 <= pages && pages <= 65536 => Some(pages),
        _ => None,
    }
}

/// A store that was made of the one that is there, or that one where none was.
fn kept((outcome, new): Came, old: MemDisk) -> Came {
    let disk = if outcome.is_ok() { new } else { old };
    (outcome, disk)
}

fn copy(alloc: Global, head: Head<'_>, mut disk: MemDisk, writer: &mut NotingWriter) -> Came {
    let made = copy_text(
        alloc,
        &mut disk,
        MemDisk::new(alloc),
        head.number_of("room"),
        new_pages_of(head),
        &mut CountedWriter::new(writer),
    );
    kept(made, disk)
}

fn migrate(alloc: Global, head: Head<'_>, mut disk: MemDisk, writer: &mut NotingWriter) -> Came {
    let room = head.number_of("room");
    let mut writer = CountedWriter::new(writer);
    let made = migrate_text(alloc, &mut disk, MemDisk::new(alloc), room, &mut writer);
    kept(made, disk)
}

fn upgrade(
    alloc: Global,
    given: Given<'_, '_>,
    disk: MemDisk,
    writer: &mut NotingWriter,
) -> io::Result<Came> {
    let mut before = given.reader(alloc, 0)?;
    let mut after = given.reader(alloc, 1)?;
    let (outcome, old, new) = upgrade_text(
        alloc,
        disk,
        &mut Counted::new(&mut before),
        &mut Counted::new(&mut after),
        MemDisk::new(alloc),
        given.head.number_of("room"),
        &mut CountedWriter::new(writer),
    );
    Ok(kept((outcome, new), old))
}

/// Makes a store by such a call.
pub(crate) fn made(
    alloc: Global,
    given: Given<'_, '_>,
    disk: MemDisk,
    writer: &mut NotingWriter,
) -> io::Result<Came> {
    match given.head.word(0) {
        "create" => create(alloc, given, disk, writer),
        "copy" => Ok(copy(alloc, given.head, disk, writer)),
        "migrate" => Ok(migrate(alloc, given.head, disk, writer)),
        _ => upgrade(alloc, given, disk, writer),
    }
}
