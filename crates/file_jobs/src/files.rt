//! The files of the program's jobs.
ghost use Rattle.std.specs.Prelude.{◌≡◌, ◌⊎◌, true, [], IfOk, IfErr};
ghost use Rattle.std.specs.Io.Buffered.{reader_inner, reader_buffer, writer_inner, writer_buffer};
ghost use Rattle.file_jobs.specs.Failures.{unopened, is_of_first, IsFaultOf, IsFileUnopened, IsFaultOrUnopened, IsTableUnread, IsFileUnmade};

use crate::patient::Patient;
use dimacs::{Code, Counted, Fault, read_gr, read_nodes};
use filedisk::{
    FileDisk, MadeFile, OpenError, SystemFile, create_file, open_file, open_to_read, why_unopened,
};
use printing::{Failed, of_text};
use progress::{Progress, TellingDisk, TellingReader, TellingWriter};
use roadnet::Refusal;
use std::alloc::Global;
use std::fs::{self, File, OpenFile};
use std::io::{self, BufRead, BufReader, BufWriter, Printer, Read, Write};
use std::rt::Files;
use std::time::Clock;
use words::is_input;

/// How many bytes are read or written at once.
const BUFFER: usize = 1 << 16;

/// How many bytes of answers are written at once: whoever waits for them reads the first while the rest is made.
const PIECE: usize = 1 << 12;

/// The number with which a failure names the store's file. The texts are 0 and 1.
pub const STORE: u8 = 2;

/// The number with which a failure names the file of the store from which another is made, if that needs no texts.
pub const OLD: u8 = 0;

/// The number with which a failure names the file of the store from which another is made with texts: the one after the new store's.
pub const BASE: u8 = 3;

/// The number with which a failure names the first pipe of a session. The next ones follow.
pub const FIRST_PIPE: u8 = 3;

/// A reader of larger pieces.
pub fn buffered<F: Read + Drop>(alloc: Global, reader: F) -> Result<BufReader<F>, Failed>
    ensures same { IfOk result (λ buffered. reader_inner buffered ≡ reader) }
    ensures unread { IfOk result (λ buffered. reader_buffer buffered ≡ []) }
    ensures refused { IfErr result (λ failed. failed ≡ Failed.Code Refusal.OutOfMemory) }
{
    match BufReader::with_capacity(alloc, BUFFER, reader) {
        Ok(reader) => Ok(reader),
        Err(_) => Err(Failed::Code(Refusal::OutOfMemory)),
    }
}

/// A writer of pieces of so many bytes.
fn writer_of<W: Write + Drop>(
    alloc: Global,
    piece: usize,
    writer: W,
) -> Result<BufWriter<W>, Failed>
    ensures same { IfOk result (λ buffered. writer_inner buffered ≡ writer) }
    ensures unwritten { IfOk result (λ buffered. writer_buffer buffered ≡ []) }
    ensures refused { IfErr result (λ failed. failed ≡ Failed.Code Refusal.OutOfMemory) }
{
    match BufWriter::with_capacity(alloc, piece, writer) {
        Ok(writer) => Ok(writer),
        Err(_) => Err(Failed::Code(Refusal::OutOfMemory)),
    }
}

/// A writer of larger pieces.
pub fn buffered_writer<W: Write + Drop>(alloc: Global, writer: W) -> Result<BufWriter<W>, Failed>
    ensures same { IfOk result (λ buffered. writer_inner buffered ≡ writer) }
    ensures unwritten { IfOk result (λ buffered. writer_buffer buffered ≡ []) }
    ensures refused { IfErr result (λ failed. failed ≡ Failed.Code Refusal.OutOfMemory) }
{
    writer_of(alloc, BUFFER, writer)
}

/// The standard input, on the heap: it holds the 8 KB that it has read ahead, and every frame that passes it on would hold them too.
fn boxed_input<R: AllocGlobal + Input>(rt: &R) -> Result<Box<R::Reader>, Failed>
    ensures { IfErr result (λ failed. failed ≡ Failed.Code Refusal.OutOfMemory) }
{
    match Box::new(rt.alloc(), rt.reader()) {
        Ok(input) => Ok(input),
        Err(_) => Err(Failed::Code(Refusal::OutOfMemory)),
    }
}

/// The standard input, whose calls wait.
pub fn standard_input<R: AllocGlobal + Clock + Input>(
    rt: &R,
) -> Result<BufReader<Patient<'_, R, Box<R::Reader>>>, Failed>
    ensures { IfErr result (λ failed. failed ≡ Failed.Code Refusal.OutOfMemory) }
{
    let input = boxed_input(rt)?;
    buffered(rt.alloc(), Patient::new(rt, input))
}

/// The standard output for answers, whose calls wait.
pub fn standard_output<R: AllocGlobal + Clock + Print>(
    rt: &R,
) -> Result<BufWriter<Patient<'_, R, Printer<'_, R>>>, Failed>
    ensures { IfErr result (λ failed. failed ≡ Failed.Code Refusal.OutOfMemory) }
{
    writer_of(rt.alloc(), PIECE, Patient::new(rt, io::writer(rt)))
}

/// The name of the standard output in reports.
const OUTPUT: &str = "standard output";

/// The standard output, whose calls wait, with reports of how many lines were written.
pub type ToldOutput<'a, R> = BufWriter<TellingWriter<'a, R, Patient<'a, R, Printer<'a, R>>>>;

/// The standard output for many lines.
pub fn told_output<'a, R: AllocGlobal + Clock + Eprint + Print>(
    rt: &'a R,
    progress: &'a Progress<'a, R>,
) -> Result<ToldOutput<'a, R>, Failed>
    ensures { IfErr result (λ failed. failed ≡ Failed.Code Refusal.OutOfMemory) }
{
    let output = Patient::new(rt, io::writer(rt));
    buffered_writer(rt.alloc(), TellingWriter::new(progress, OUTPUT, output))
}

/// What a job has opened, and behind it the standard output for many lines.
pub fn beside_output<'a, T: Drop, R: AllocGlobal + Clock + Eprint + Print>(
    opened: T,
    rt: &'a R,
    progress: &'a Progress<'a, R>,
) -> Result<(T, ToldOutput<'a, R>), Failed>
    ensures { IfErr result (λ failed. failed ≡ Failed.Code Refusal.OutOfMemory) }
{
    match told_output(rt, progress) {
        Ok(output) => Ok((opened, output)),
        Err(failed) => Err(failed),
    }
}

/// The failure for a file that cannot be opened: fault 10 of line 0.
pub fn unopened(which: u8) -> Failed
    ensures { result ≡ unopened which }
{
    let fault = Fault {
        line: 0,
        code: Code::Read,
    };
    Failed::Text { which, fault }
}

/// Where a text comes from.
#[derive(Drop)]
pub enum Source<'a, R, F, S> {
    /// A file.
    File(F),
    /// The standard input, whose calls wait.
    Input(Patient<'a, R, S>),
}

impl<R: Clock, F: Read, S: Read> Read for Source<'_, R, F, S> {
    fn read(&mut self, buf: &mut [u8]) -> io::Result<usize> {
        match self {
            Source::File(file) => file.read(buf),
            Source::Input(input) => input.read(buf),
        }
    }
}

/// A text's file, or the standard input, with reports of how far it was read.
type TextSource<'a, R> = TellingReader<
    'a,
    R,
    Source<'a, R, <R as Files>::File, Box<<R as Input>::Reader>>,
>;

/// A reader of a text's file, or of the standard input.
pub type TextReader<'a, R> = BufReader<TextSource<'a, R>>;

/// The length of a file, if it is a regular one.
fn length_of<F: OpenFile>(file: &F) -> Option<u64> {
    match file.metadata() {
        Ok(metadata) if metadata.is_file() => Some(metadata.len()),
        _ => None,
    }
}

/// The file of a call's text `which`, or the standard input if `-` is given in its place. A file that cannot be opened is fault 10 of line 0, and the
/// reason is kept.
pub fn open_text<'a, R: AllocGlobal + Clock + Eprint + Files + Input>(
    rt: &'a R,
    progress: &'a Progress<'a, R>,
    which: u8,
    name: &'a str,
) -> Result<TextReader<'a, R>, Failed>
    ensures { IfErr result (IsFileUnopened which) }
{
    if is_input(name) {
        let input = Source::Input(Patient::new(rt, boxed_input(rt)?));
        return buffered(rt.alloc(), TellingReader::new(progress, name, None, input));
    }
    match fs::open(rt, name) {
        Ok(file) => {
            let length = length_of(&file);
            let source = Source::File(file);
            buffered(
                rt.alloc(),
                TellingReader::new(progress, name, length, source),
            )
        }
        Err(error) => {
            progress.keep(name, &why_unopened(&error));
            Err(unopened(which))
        }
    }
}

/// The first fault of a network, or otherwise that the next text cannot be opened.
fn fault_of_network<I: BufRead + Drop>(alloc: Global, mut gr: I, failed: Failed) -> Failed
    ensures { (is_of_first result ≡ true) ⊎ (result ≡ failed) }
{
    match read_gr(alloc, &mut Counted::new(&mut gr)) {
        Ok(_) => failed,
        Err(fault) => Failed::Text { which: 0, fault },
    }
}

/// The files of a network and of the text that follows it. If the second cannot be opened, a fault of the network is still reported first.
pub fn open_texts<'a, R: AllocGlobal + Clock + Eprint + Files + Input>(
    rt: &'a R,
    progress: &'a Progress<'a, R>,
    network: &'a str,
    second: &'a str,
) -> Result<(TextReader<'a, R>, TextReader<'a, R>), Failed>
    ensures { IfErr result IsFaultOrUnopened }
{
    let gr = open_text(rt, progress, 0, network)?;
    match open_text(rt, progress, 1, second) {
        Ok(second) => Ok((gr, second)),
        Err(failed) => Err(fault_of_network(rt.alloc(), gr, failed)),
    }
}

/// The first fault of the network and of the text of sources that follows it, or otherwise that a third text cannot be opened.
fn fault_before<I: BufRead + Drop, J: BufRead + Drop>(
    alloc: Global,
    mut gr: I,
    mut sources: J,
    failed: Failed,
) -> Failed
    ensures { (is_of_first result ≡ true) ⊎ (IsFaultOf 1 result ⊎ (result ≡ failed)) }
{
    let network = match of_text(0, read_gr(alloc, &mut Counted::new(&mut gr))) {
        Ok(network) => network,
        Err(fault) => return fault,
    };
    fault_of_sources(alloc, network.nodes(), 1, &mut sources, failed)
}

/// The first fault of the text `which`, of sources, or otherwise that the next text cannot be opened.
pub fn fault_of_sources<Q: BufRead>(
    alloc: Global,
    nodes: u32,
    which: u8,
    sources: &mut Q,
    failed: Failed,
) -> Failed
    ensures { IsFaultOf which result ⊎ (result ≡ failed) }
{
    let mut sources = Counted::new(sources);
    match of_text(which, read_nodes(alloc, &mut sources, nodes)) {
        Ok(_) => failed,
        Err(fault) => fault,
    }
}

/// The files of a network, and of the sources and the targets of a table.
type TableReaders<'a, R> = (TextReader<'a, R>, TextReader<'a, R>, TextReader<'a, R>);

/// The files of a network, and of the sources and the targets of a table. If one of the last two cannot be opened, a fault of a text before it is still
/// reported first.
pub fn open_table<'a, R: AllocGlobal + Clock + Eprint + Files + Input>(
    rt: &'a R,
    progress: &'a Progress<'a, R>,
    network: &'a str,
    sources: &'a str,
    targets: &'a str,
) -> Result<TableReaders<'a, R>, Failed>
    ensures { IfErr result IsTableUnread }
{
    let (gr, sources) = open_texts(rt, progress, network, sources)?;
    match open_text(rt, progress, 2, targets) {
        Ok(targets) => Ok((gr, sources, targets)),
        Err(failed) => Err(fault_before(rt.alloc(), gr, sources, failed)),
    }
}

/// A store's file, with reports of how far it was read and written.
pub type StoreDisk<'a, R> = TellingDisk<'a, R, FileDisk<SystemFile>>;

/// The file of a store that was opened, or fault 10 of line 0 of text `which`. The reason is kept.
fn opened<'a, R: AllocGlobal>(
    progress: &'a Progress<'a, R>,
    which: u8,
    name: &'a str,
    disk: Result<FileDisk<SystemFile>, OpenError>,
) -> Result<StoreDisk<'a, R>, Failed>
    ensures { IfErr result (λ failed. failed ≡ unopened which) }
{
    match disk {
        Ok(disk) => Ok(TellingDisk::new(progress, name, disk)),
        Err(error) => {
            progress.keep(name, &error);
            Err(unopened(which))
        }
    }
}

/// The file of a store that is changed. If it cannot be opened to read and write it, is not a regular file, or is in use, that is fault 10 of line 0.
pub fn open_store<'a, R: AllocGlobal + Files<File = File>>(
    rt: &R,
    progress: &'a Progress<'a, R>,
    name: &'a str,
) -> Result<StoreDisk<'a, R>, Failed>
    ensures { IfErr result (λ failed. failed ≡ unopened 2) }
{
    opened(progress, STORE, name, open_file(rt, name))
}

/// The file of a store that is served, as `open_store` opens it. There are no reports on its disk.
pub fn open_served_store<R: AllocGlobal + Files<File = File>>(
    rt: &R,
    progress: &Progress<'_, R>,
    name: &str,
) -> Result<FileDisk<SystemFile>, Failed>
    ensures { IfErr result (λ failed. failed ≡ unopened 2) }
{
    match open_file(rt, name) {
        Ok(disk) => Ok(disk),
        Err(error) => {
            progress.keep(name, &error);
            Err(unopened(STORE))
        }
    }
}

/// The file of a store that is read. If it cannot be opened to read it, is not a regular file, or is being changed, that is fault 10 of line 0 of text
/// `which`.
pub fn open_store_to_read<'a, R: AllocGlobal + Files<File = File>>(
    rt: &R,
    progress: &'a Progress<'a, R>,
    which: u8,
    name: &'a str,
) -> Result<StoreDisk<'a, R>, Failed>
    ensures { IfErr result (λ failed. failed ≡ unopened which) }
{
    opened(progress, which, name, open_to_read(rt, name))
}

/// The failure for a new store's file that does not exist.
fn unmade(error: OpenError) -> Failed
    ensures { IsFileUnmade result }
{
    match error {
        OpenError::NameNotSynced(_) => Failed::Code(Refusal::Device),
        OpenError::OutOfMemory => Failed::Code(Refusal::OutOfMemory),
        _ => unopened(STORE),
    }
}

/// The file for a new store, and the file that was made for it, if there was none.
pub type NewDisk<'a, R> = (StoreDisk<'a, R>, Option<MadeFile>);

/// The file for a new store, which is made if there is none. It is refused as by `open_store`, with 43 if its name is not made durable, and with 11 if
/// there is no memory for the name. After a refusal no file exists that did not exist before, unless its lock was refused: then an empty file may stay,
/// which `create` uses again.
pub fn create_store_file<'a, R: AllocGlobal + Files<File = File>>(
    rt: &R,
    progress: &'a Progress<'a, R>,
    name: &'a str,
) -> Result<NewDisk<'a, R>, Failed>
    ensures { IfErr result IsFileUnmade }
{
    match create_file(rt, name) {
        Ok(file) => Ok((TellingDisk::new(progress, name, file.disk), file.made)),
        Err(error) => {
            progress.keep(name, &error);
            Err(unmade(error))
        }
    }
}
