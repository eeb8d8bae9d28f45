//! The jobs of the program that make a store in a file, answered on standard output. Each is one call on texts and disks.
//!
//! The file of the new store is opened or made at the first call of its disk: so all texts of the store are read before.
ghost use Rattle.std.specs.Prelude.{None};
ghost use Rattle.std.specs.Option.{ForSome};
ghost use Rattle.std.specs.Bool.{Decides};
ghost use Rattle.file_jobs.specs.Failures.{IsStoreMade};
ghost use Rattle.words.specs.Words.{IsJournal};

use crate::files::{
    BASE, OLD, StoreDisk, create_store_file, open_store_to_read, open_texts, told_output,
};
use dimacs::Counted;
use filedisk::MadeFile;
use printing::{CountedWriter, Failed};
use progress::Progress;
use roadnet::Refusal;
use std::fs::File;
use std::rt::Files;
use std::time::Clock;
use storetexts::{LateDisk, MakesDisk, copy_text, create_text, migrate_text, upgrade_text};

/// The file of a new store, which is opened or made.
#[derive(Drop)]
struct NewStoreFile<'a, R> {
    rt: &'a R,
    progress: &'a Progress<'a, R>,
    name: &'a str,
    made: Option<MadeFile>,
}

impl<'a, R: AllocGlobal + Clock + Eprint + Files<File = File>> MakesDisk<StoreDisk<'a, R>>
    for NewStoreFile<'a, R> {
    ghost makes = { λ _. None };

    fn make(&mut self) -> Result<StoreDisk<'a, R>, Failed> {
        let (disk, made) = create_store_file(self.rt, self.progress, self.name)?;
        self.made = made;
        Ok(disk)
    }
}

/// The file of a store from which another is made with texts. It is opened to be read.
#[derive(Drop)]
struct BaseFile<'a, R> {
    rt: &'a R,
    progress: &'a Progress<'a, R>,
    name: &'a str,
}

impl<'a, R: AllocGlobal + Clock + Eprint + Files<File = File>> MakesDisk<StoreDisk<'a, R>>
    for BaseFile<'a, R> {
    ghost makes = { λ _. None };

    fn make(&mut self) -> Result<StoreDisk<'a, R>, Failed> {
        open_store_to_read(self.rt, self.progress, BASE, self.name)
    }
}

/// The disk of a new store.
type NewStore<'a, R> = LateDisk<NewStoreFile<'a, R>, StoreDisk<'a, R>>;

/// The disk of a new store in this file.
fn new_store<'a, R>(rt: &'a R, progress: &'a Progress<'a, R>, name: &'a str) -> NewStore<'a, R> {
    LateDisk::new(NewStoreFile {
        rt,
        progress,
        name,
        made: None,
    })
}

/// Whether a store that was to be made exists: everything was done, or only its line could not be written.
fn is_store_made(outcome: &Result<(), Failed>) -> bool
    ensures { Decides result (IsStoreMade outcome.now) }
{
    match outcome {
        Ok(()) | Err(Failed::Code(Refusal::Write)) => true,
        Err(_) => false,
    }
}

/// The result of a job that makes a store. A file that was made and holds no store in the end is removed while it is still locked.
fn after_making<R: AllocGlobal + Clock + Eprint + Files>(
    rt: &R,
    outcome: Result<(), Failed>,
    store: NewStore<'_, R>,
) -> Result<(), Failed> {
    let (outcome, file, disk) = store.ended(outcome);
    if let Some(made) = file.made
        && let Some(locked) = &disk
        && !is_store_made(&outcome)
    {
        let _ = made.remove(rt, locked.disk());
    }
    outcome
}

/// A new store in a file, for the network of another file with the landmarks of a third, with room for so many arcs. Both texts are read completely before
/// the store's file is opened or made. A file that was made and holds no store in the end is removed while it is still locked.
pub fn create<R: AllocGlobal + Clock + Eprint + Files<File = File> + Input + Print>(
    rt: &R,
    progress: &Progress<'_, R>,
    store: &str,
    network: &str,
    landmarks: &str,
    journal_pages: u32,
    room: Option<u64>,
) -> Result<(), Failed>
    requires { IsJournal journal_pages }
{
    let (mut gr, mut ss) = open_texts(rt, progress, network, landmarks)?;
    let mut writer = told_output(rt, progress)?;
    let (outcome, disk) = create_text(
        rt.alloc(),
        new_store(rt, progress, store),
        &mut Counted::new(&mut gr),
        &mut Counted::new(&mut ss),
        journal_pages,
        room,
        &mut CountedWriter::new(&mut writer),
    );
    after_making(rt, outcome, disk)
}

/// A new store in a file, made from the store of another file, which is only read and stays as it is, with room for so many arcs. A file that was made and
/// holds no store in the end is removed while it is still locked.
pub fn migrate<R: AllocGlobal + Clock + Eprint + Files<File = File> + Print>(
    rt: &R,
    progress: &Progress<'_, R>,
    old: &str,
    new: &str,
    room: Option<u64>,
) -> Result<(), Failed> {
    let mut old = open_store_to_read(rt, progress, OLD, old)?;
    let mut writer = told_output(rt, progress)?;
    let (outcome, disk) = migrate_text(
        rt.alloc(),
        &mut old,
        new_store(rt, progress, new),
        room,
        &mut CountedWriter::new(&mut writer),
    );
    after_making(rt, outcome, disk)
}

/// A copy of the store of a file in another file, with a given room and number of journal pages, if they are given. The store is only read and stays as it
/// is. A file that was made and holds no store in the end is removed while it is still locked.
pub fn copy<R: AllocGlobal + Clock + Eprint + Files<File = File> + Print>(
    rt: &R,
    progress: &Progress<'_, R>,
    store: &str,
    file: &str,
    room: Option<u64>,
    journal_pages: Option<u32>,
) -> Result<(), Failed>
    requires { ForSome journal_pages IsJournal }
{
    let mut old = open_store_to_read(rt, progress, OLD, store)?;
    let mut writer = told_output(rt, progress)?;
    let (outcome, disk) = copy_text(
        rt.alloc(),
        &mut old,
        new_store(rt, progress, file),
        room,
        journal_pages,
        &mut CountedWriter::new(&mut writer),
    );
    after_making(rt, outcome, disk)
}

/// A new store in a file, made from the store of another file, which is only read and stays as it is, brought from the map from which it was made to a new
/// one, with room for so many arcs. Both texts are read completely before the store is opened, and the new store's file is opened or made last. A file that
/// was made and holds no store in the end is removed while it is still locked.
pub fn upgrade<R: AllocGlobal + Clock + Eprint + Files<File = File> + Input + Print>(
    rt: &R,
    progress: &Progress<'_, R>,
    store: &str,
    old: &str,
    network: &str,
    new: &str,
    room: Option<u64>,
) -> Result<(), Failed> {
    let (mut before, mut after) = open_texts(rt, progress, old, network)?;
    let mut writer = told_output(rt, progress)?;
    let stored = LateDisk::new(BaseFile {
        rt,
        progress,
        name: store,
    });
    let (outcome, stored, made) = upgrade_text(
        rt.alloc(),
        stored,
        &mut Counted::new(&mut before),
        &mut Counted::new(&mut after),
        new_store(rt, progress, new),
        room,
        &mut CountedWriter::new(&mut writer),
    );
    let (outcome, _file, _stored) = stored.ended(outcome);
    after_making(rt, outcome, made)
}
