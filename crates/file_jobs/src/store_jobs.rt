//! The jobs of the program on a store in a file, answered on standard output. Each opens its files, and then the output, for one call on any disk.
ghost use Rattle.std.specs.Prelude.{◌≡◌, ◌≢◌, ℕ, OnOk, IfOk, IfErr};
ghost use Rattle.std.specs.Io.KnownBytes.{Appends};
ghost use Rattle.std.specs.Option.{ForSome};
ghost use lib.Chars.{codes};
ghost use Rattle.roadnet.specs.declared.refusals.Refusal.TheVariants.{Write as write};
ghost use Rattle.rows.specs.Kept.{IsWidth};
ghost use Rattle.file_jobs.specs.Failures.{IsToldAfterOpening, IsToldAfterSources, IsTextUnwritten};
ghost use Rattle.printing.specs.Counting.{writer_of};
ghost use Rattle.printing.specs.Replied.{number_line};
ghost use Rattle.printing.specs.Widths.{told_width};
ghost use Rattle.printing.specs.Writers.{Puts};

use crate::command_lines::{CommandLines, RefusedLines};
use crate::exports::{WrittenTexts, write_texts};
use crate::files::{
    STORE, TextReader, buffered, fault_of_sources, open_store, open_store_to_read, open_text,
    told_output,
};
use dimacs::Counted;
use disk::Disk;
use machine::Replied;
use printing::{CountedWriter, Done, Failed, Look, put_reply};
use progress::Progress;
use std::alloc::Global;
use std::fs::File;
use std::io::{BufRead, Write};
use std::rt::Files;
use std::thread::Threads;
use std::time::Clock;
use store::{Store, open};
use storetexts::{apply_text, ask_table_text, ask_text, check_text, show_text};
use words::{ArcNumbers, PairTexts};

/// The failure of a text that is read for a store. A refusal of the store is reported before it.
fn after_opening<D: Disk + Drop>(alloc: Global, disk: D, failed: Failed) -> Failed
    ensures { D.honest disk → IsToldAfterOpening (D.content disk) failed result }
{
    match open(alloc, disk) {
        Ok(_) => failed,
        Err((refusal, _)) => Failed::Code(refusal),
    }
}

/// The failure of a text that follows another in a call on a store. A refusal of the store is reported before it, and then a fault of the text of sources.
fn after_sources<D: Disk + Drop, R: BufRead>(
    alloc: Global,
    disk: D,
    sources: &mut R,
    failed: Failed,
) -> Failed
    ensures { D.honest disk → IsToldAfterSources (D.content disk) failed result }
{
    match open(alloc, disk) {
        Ok(store) => fault_of_sources(alloc, store.network().nodes(), 0, sources, failed),
        Err((refusal, _)) => Failed::Code(refusal),
    }
}

/// The first text of a call on the store of a disk. If it cannot be opened, a refusal of the store is still reported first.
fn open_beside<'a, R: AllocGlobal + Clock + Eprint + Files<File = File> + Input, D: Disk + Drop>(
    rt: &'a R,
    progress: &'a Progress<'a, R>,
    name: &'a str,
    disk: D,
) -> Result<(TextReader<'a, R>, D), Failed> {
    match open_text(rt, progress, 0, name) {
        Ok(text) => Ok((text, disk)),
        Err(failed) => Err(after_opening(rt.alloc(), disk, failed)),
    }
}

/// The groups of commands of a file, on the store of another. A fault of the store is reported before one of the commands. No row is computed, so there is
/// no width. If all goes well, the line of each command for which a group was refused is reported.
pub fn apply<R: AllocGlobal + Clock + Eprint + Files<File = File> + Input + Print>(
    rt: &R,
    progress: &Progress<'_, R>,
    store: &str,
    commands: &str,
) -> Result<(), Failed> {
    let disk = open_store(rt, progress, store)?;
    let (text, disk) = open_beside(rt, progress, commands, disk)?;
    let mut text = buffered(rt.alloc(), CommandLines::new(rt.alloc(), text))?;
    let mut writer = told_output(rt, progress)?;
    let refused = RefusedLines::new(rt.alloc());
    let (outcome, _disk) = apply_text(
        rt.alloc(),
        disk,
        &mut Counted::new(&mut text),
        &refused,
        &mut CountedWriter::new(&mut writer),
    );
    if outcome.is_ok() {
        refused.tell(rt, commands, text.get_ref());
    }
    outcome
}

/// The pairs of a file in the network of a store, which is only read and stays as it is. A fault of the store is reported before one of the pairs.
fn ask_listed<R: AllocGlobal + Clock + Eprint + Files<File = File> + Input + Print + Threads>(
    rt: &R,
    progress: &Progress<'_, R>,
    store: &str,
    pairs: &str,
    routes: bool,
    delta: Option<u32>,
) -> Result<Done, Failed>
    requires { ForSome delta IsWidth }
    ensures { IfOk result (λ done. told_width done ≡ delta) }
{
    let disk = open_store_to_read(rt, progress, STORE, store)?;
    let (mut p2p, disk) = open_beside(rt, progress, pairs, disk)?;
    let mut writer = told_output(rt, progress)?;
    let (outcome, _disk) = ask_text(
        rt,
        rt.alloc(),
        disk,
        &mut Counted::new(&mut p2p),
        routes,
        delta,
        &mut CountedWriter::new(&mut writer),
    );
    outcome
}

/// The pairs between the nodes of two files in the network of a store, which is only read and stays as it is. A fault of the store is reported before one
/// of the texts, and one of the sources before one of the targets.
fn ask_table<R: AllocGlobal + Clock + Eprint + Files<File = File> + Input + Print + Threads>(
    rt: &R,
    progress: &Progress<'_, R>,
    store: &str,
    sources: &str,
    targets: &str,
    delta: Option<u32>,
) -> Result<Done, Failed>
    requires { ForSome delta IsWidth }
    ensures { IfOk result (λ done. told_width done ≡ delta) }
{
    let disk = open_store_to_read(rt, progress, STORE, store)?;
    let (mut from, disk) = open_beside(rt, progress, sources, disk)?;
    let mut to = match open_text(rt, progress, 1, targets) {
        Ok(to) => to,
        Err(failed) => return Err(after_sources(rt.alloc(), disk, &mut from, failed)),
    };
    let mut writer = told_output(rt, progress)?;
    let (outcome, _disk) = ask_table_text(
        rt,
        rt.alloc(),
        disk,
        &mut Counted::new(&mut from),
        &mut Counted::new(&mut to),
        delta,
        &mut CountedWriter::new(&mut writer),
    );
    outcome
}

/// Pairs in the network of a store, which is only read and stays as it is.
pub fn ask<R: AllocGlobal + Clock + Eprint + Files<File = File> + Input + Print + Threads>(
    rt: &R,
    progress: &Progress<'_, R>,
    store: &str,
    pairs: PairTexts<'_>,
    routes: bool,
    delta: Option<u32>,
) -> Result<Done, Failed>
    requires { ForSome delta IsWidth }
    ensures { IfOk result (λ done. told_width done ≡ delta) }
{
    match pairs {
        PairTexts::Listed { pairs } => ask_listed(rt, progress, store, pairs, routes, delta),
        PairTexts::Table { sources, targets } => {
            ask_table(rt, progress, store, sources, targets, delta)
        }
    }
}

/// How the store of a file stands. The file is only read and stays as it is.
pub fn check<R: AllocGlobal + Clock + Eprint + Files<File = File> + Print>(
    rt: &R,
    progress: &Progress<'_, R>,
    store: &str,
) -> Result<(), Failed> {
    let disk = open_store_to_read(rt, progress, STORE, store)?;
    let mut writer = told_output(rt, progress)?;
    let (outcome, _disk) = check_text(rt.alloc(), disk, &mut CountedWriter::new(&mut writer));
    outcome
}

/// What is asked of a network by these numbers.
fn look_by(numbers: ArcNumbers) -> Look
    ensures arc { (number : ℕ) → numbers ≡ ArcNumbers.Arc number → result ≡ Look.Arc number }
    ensures between { (tail head : ℕ) → numbers ≡ ArcNumbers.Between tail head → result ≡ Look.Between tail head }
{
    match numbers {
        ArcNumbers::Arc { number } => Look::Arc { number },
        ArcNumbers::Between { tail, head } => Look::Between { tail, head },
    }
}

/// A look at the arcs of a store's network. The file is only read and stays as it is.
pub fn show<R: AllocGlobal + Clock + Eprint + Files<File = File> + Print>(
    rt: &R,
    progress: &Progress<'_, R>,
    store: &str,
    look: ArcNumbers,
) -> Result<(), Failed> {
    let disk = open_store_to_read(rt, progress, STORE, store)?;
    let mut writer = told_output(rt, progress)?;
    let (outcome, _disk) = show_text(
        rt.alloc(),
        disk,
        look_by(look),
        &mut CountedWriter::new(&mut writer),
    );
    outcome
}

/// Writes `ok V` and sends it, once the texts are durable.
fn tell_version<W: Write>(
    _written: &WrittenTexts,
    version: u64,
    out: &mut CountedWriter<'_, W>,
) -> Result<(), Failed>
    ensures { Puts W.contents (number_line (codes "ok ") version) result out.old out.new }
{
    put_reply(out, &Replied::Durable { version })?;
    out.flush()
}

/// Writes the network of a store as texts in a folder, and reports that to a writer.
fn export_told<R: AllocGlobal + Clock + Eprint + Files<File = File>, D: Disk, W: Write>(
    rt: &R,
    progress: &Progress<'_, R>,
    store: &Store<D>,
    folder: &str,
    out: &mut CountedWriter<'_, W>,
) -> Result<(), Failed>
    ensures told { OnOk result (Appends (W.contents (writer_of out.old)) (W.contents (writer_of out.new)) (number_line (codes "ok ") store.now.version)) }
    // At 12 everything is done, and only its line could not be written. At any other failure nothing is reported.
    ensures refused { IfErr result (λ failed. failed ≢ Failed.Code write → IsTextUnwritten failed) }
    ensures untold { IfErr result (λ failed. failed ≢ Failed.Code write → out.new ≡ out.old) }
{
    let written = match write_texts(rt, progress, store, folder) {
        Ok(written) => written,
        Err(failed) => return Err(failed),
    };
    match tell_version(&written, store.version(), out) {
        Ok(()) => Ok(()),
        Err(failed) => Err(failed),
    }
}

/// The network of a store, written as three texts in a folder. The store's file is only read and stays as it is. If everything is done, and only its line
/// could not be written (12), the texts stay.
pub fn export<R: AllocGlobal + Clock + Eprint + Files<File = File> + Print>(
    rt: &R,
    progress: &Progress<'_, R>,
    store: &str,
    folder: &str,
) -> Result<(), Failed> {
    let disk = open_store_to_read(rt, progress, STORE, store)?;
    let store = match open(rt.alloc(), disk) {
        Ok(store) => store,
        Err((refusal, _)) => return Err(Failed::Code(refusal)),
    };
    let mut writer = told_output(rt, progress)?;
    let mut out = CountedWriter::new(&mut writer);
    export_told(rt, progress, &store, folder, &mut out)
}
