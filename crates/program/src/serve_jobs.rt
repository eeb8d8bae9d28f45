//! The sessions of the program: one on standard input and output, and one with each client that comes through a door.
ghost use Rattle.std.specs.Prelude.{◌≡◌, ◌+◌, ◌⊎◌, ◌↔◌, true, Some, nat_lt, IfOk, IfErr, IfSome};
ghost use Rattle.std.specs.Arc.{arc_value};
ghost use Rattle.std.specs.Option.{ForSome};
ghost use Rattle.roadnet.specs.declared.refusals.Refusal.TheVariants.{Closed as closed};
ghost use Rattle.roadnet.specs.Groups.{count_of, most_of_group};
ghost use Rattle.machine.specs.Machine.{most_of_life};
ghost use Rattle.rows.specs.Kept.{IsWidth};
ghost use Rattle.dimacs.specs.Counts.{failed_calls, reader_of};
ghost use Rattle.printing.specs.Counting.{failed_writes, writer_of};
ghost use Rattle.printing.specs.Failing.{CountsWrites};
ghost use Rattle.printing.specs.Widths.{told_width, told_workers};
ghost use Rattle.disk.specs.Contents.{AreAmong};
ghost use Rattle.store.specs.State.{CameTidy, HasVersion, is_calm};
ghost use Rattle.office.specs.Left.{KeepsDesk};
ghost use Rattle.desk.specs.Openings.{IsNewDesk, IsUnstarted};
ghost use Rattle.storetexts.specs.Asked.{IsStoreUnopened};
ghost use Rattle.session_lines.specs.declared.reading.LastLine.TheVariants.{Taken};
ghost use Rattle.sessions.specs.Told.{CountsRead};
ghost use Rattle.sessions.specs.Turns.{Serves, IsSessionKept};
ghost use Rattle.server_files.specs.Copied.{copies_in};
ghost use Rattle.program.specs.Failures.{server_outcome};
ghost use Rattle.words.specs.Pipes.{ArePipesFit};
ghost use Rattle.words.specs.Words.{IsWorkers};

use crate::bounds::ServerRuntime;
use crate::server_life::{is_spent, start_watching};
use crate::standings::start_telling;
use desk::{Closed, Desk, Gate, Handle, History, Naming, Over, Served, ServedApart, Setup};
use dimacs::Counted;
use disk::Disk;
use file_jobs::{FIRST_PIPE, open_served_store, standard_input, standard_output};
use filedisk::FileLock;
use printing::{CountedWriter, Done, Failed};
use progress::Progress;
use roadnet::Refusal;
use server_files::{
    Doors, FileCopies, FileNames, PipeDoor, SeenPipes, doors_of, see_folder, see_pipes,
};
use sessions::{Answering, Copies, Door, LastLine, Started, Terms, Visits, serve, serve_door};
use std::alloc::Global;
use std::fs::File;
use std::io::{BufRead, Write};
use std::marker::Brand;
use std::rt::Files;
use std::sync::Arc;
use std::time::{Clock, Duration};
use store::{Store, open};
use words::{PipePair, pipe_at};

/// The gate of a session's desk. It delays nothing, and reports on standard error that a builder has ended.
#[derive(Drop)]
pub struct Teller<T: Eprint + Copy> {
    pub rt: T,
}

impl<T: Eprint + Copy> Gate for Teller<T> {
    fn before_row(&self, _worker: u32, _landmark: u32) {}

    fn before_flush(&self, _durable: u64) -> bool {
        true
    }

    fn before_task(&self, _durable: u64) -> bool {
        true
    }

    fn before_step(&self, _version: u64) -> bool {
        true
    }

    fn builder_gave_up(&self) {
        let rt = &self.rt;
        let _ = eprintln!(rt;
            "roadmark: 61 Closed: no memory for views three times in a row, queries stay at the version that is shown"
        );
    }
}

/// What a session leaves.
#[derive(Drop)]
pub struct EndedSession<D: Disk> {
    /// Its outcome.
    pub outcome: Result<(), Failed>,
    /// What its desk leaves.
    pub closed: Closed<D>,
    /// How the desk built its views.
    pub done: Done,
}

/// For how many milliseconds a server that ends lets sessions at doors send the answers that they are within.
const LAST_ANSWERS: u64 = 1000;

/// Starts a thread for a door. It fails with 11 for lack of memory, and with 63 if the system gives no thread.
// Not inlined, as some below, so that what these functions hold is not all in the frame of the server's own session.
#[inline(never)]
fn start_door<
    S: ServedApart,
    A: BufRead + Send + 'static,
    B: Write + Send + 'static,
    P: Door<A, B> + Drop + Send + 'static,
    C: Copies + Drop + Send + Sync + 'static,
>(
    threads: S::Runtime,
    alloc: Global,
    desk: &Handle<S>,
    door: P,
    visits: &Arc<Visits<S::Naming, C>>,
) -> Result<Started, Refusal>
    ensures causes { IfErr result IsUnstarted }
{
    let Ok(desk) = desk.again() else {
        return Err(Refusal::OutOfMemory);
    };
    let Ok(visits) = Arc::try_clone(visits) else {
        return Err(Refusal::OutOfMemory);
    };
    serve_door(threads, alloc, desk, door, visits)
}

/// Starts a thread for each door. It fails with 11 for lack of memory, and with 63 if the system gives no thread.
fn start_each<
    S: ServedApart,
    A: BufRead + Send + 'static,
    B: Write + Send + 'static,
    P: Door<A, B> + Drop + Send + 'static,
    C: Copies + Drop + Send + Sync + 'static,
>(
    threads: S::Runtime,
    alloc: Global,
    desk: &Handle<S>,
    doors: Vec<P>,
    visits: &Arc<Visits<S::Naming, C>>,
) -> Result<(), Refusal>
    ensures causes { IfErr result IsUnstarted }
{
    for door in doors {
        start_door(threads, alloc, desk, door, visits)?;
    }
    Ok(())
}

/// Starts a thread for each door, whose sessions have these copies made, and one that ends the server once it can accept no other group. Opens the doors
/// once all have their threads. If the clients are counted, one more thread reports from then on on the server. It fails with 11 for lack of memory, and
/// with 63 if the system gives no thread; then the doors stay closed.
#[inline(never)]
fn start_doors<
    S: ServedApart,
    A: BufRead + Send + 'static,
    B: Write + Send + 'static,
    P: Door<A, B> + Drop + Send + 'static,
    C: Copies + Drop + Send + Sync + 'static,
>(
    threads: S::Runtime,
    alloc: Global,
    desk: &Handle<S>,
    doors: Doors<P>,
    copies: C,
) -> Result<Arc<Visits<S::Naming, C>>, Refusal>
where
    S::Runtime: Eprint + Files<File = File>,
    <S::Runtime as Files>::Dir: Send + 'static,
    ensures copies { IfOk result (λ visits. (arc_value visits).copies ≡ copies) }
    ensures causes { IfErr result IsUnstarted }
{
    let Ok(visits) = Arc::new(alloc, Visits::new(copies)) else {
        return Err(Refusal::OutOfMemory);
    };
    let Doors {
        doors,
        are_open,
        guests,
    } = doors;
    let mut are_open = are_open.lock(&threads);
    start_each(threads, alloc, desk, doors, &visits)?;
    start_watching(threads, desk)?;
    *are_open = true;
    start_telling(threads, desk, guests);
    Ok(visits)
}

/// Closes a desk after its last session, and returns what it leaves. Once nothing more is written, the file's lock is released; the desk's last view is
/// built after that. Then sessions at doors that are within an answer have a second to send it.
///
/// A desk that cannot be closed (61) never occurs.
#[inline(never)]
fn close_desk<S: Served>(
    threads: S::Runtime,
    desk: Desk<S>,
    lock: Option<FileLock>,
    answering: &Answering,
) -> Result<Closed<S::Disk>, Refusal>
    ensures origin { IfOk result (λ closed. closed.whole.origin ≡ S.Naming.origin) }
    ensures honest { S.Naming.came_tidy → IfOk result (λ closed. S.Disk.honest closed.disk) }
    ensures left { S.Naming.came_tidy → IfOk result (λ closed. AreAmong (S.Disk.left closed.disk) (KeepsDesk closed.whole closed.shown closed.journal_pages)) }
    ensures causes { IfErr result (λ refusal. refusal ≡ closed) }
{
    desk.end_writing();
    if let Some(mut lock) = lock {
        let _ = lock.let_go();
    }
    let ended = desk.end_showing();
    let _ = answering.let_finish(&threads, &ended, LAST_ANSWERS);
    ended.close()
}

/// A session over an opened store, and those with clients that come through doors. Returns its outcome, and what its desk leaves, which is closed after it
/// in any case. Once nothing more is written, the file's lock is released; the desk's last view is built after that. Then sessions at doors that are within
/// an answer have a second to send it. Those that go on get 61 from then on, and are cut off when the program ends.
///
/// It is refused if no desk can be started: for lack of memory (11), or if the system gives no thread (63). A desk that cannot be closed, or that showed
/// less than the session, or a finished one at a door, has seen (61), never occurs.
fn serve_store<
    N: Naming + Send + Sync + 'static,
    D: Disk + Drop + Send + 'static,
    G: Gate + Drop + Send + Sync + 'static,
    T: ServerRuntime,
    A: BufRead + Send + 'static,
    B: Write + Send + 'static,
    P: Door<A, B> + Drop + Send + 'static,
    C: Copies + Drop + Send + Sync + 'static,
    I: BufRead,
    W: Write,
>(
    threads: T,
    alloc: Global,
    history: History,
    store: Store<D>,
    gate: G,
    setup: Setup,
    lock: Option<FileLock>,
    doors: Doors<P>,
    copies: C,
    reader: &mut Counted<'_, I>,
    writer: &mut CountedWriter<'_, W>,
) -> Result<EndedSession<D>, Refusal>
where
    T::Dir: Send + 'static,
    requires calm { is_calm store ≡ true }
    requires width { ForSome setup.delta IsWidth }
    requires workers { IsWorkers setup.workers }
    requires new { IsNewDesk N.origin history store }
    requires came_tidy { N.came_tidy ↔ CameTidy D.honest D.content store.given }
    // The lines were answered in their order. Whatever a stop leaves of the closed desk: each command that was reported to be durable has its number in it,
    // and it begins with all commands after which a query was answered.
    ensures answered { IfOk result (λ ended. IfSome (I.remaining (reader_of reader.old)) (λ text. Serves (C.copying copies) Taken N.origin text (I.remaining (reader_of reader.new)) (W.contents (writer_of writer.old)) (W.contents (writer_of writer.new)) (IsSessionKept ended.closed.whole ended.closed.shown) ended.outcome)) }
    // The desk's views were built by the setup.
    ensures width { IfOk result (λ ended. told_width ended.done ≡ setup.delta) }
    ensures workers { IfOk result (λ ended. told_workers ended.done ≡ Some setup.workers) }
    ensures reads { IfOk result (λ ended. CountsRead (failed_calls reader.old) (failed_calls reader.new) ended.outcome) }
    ensures writes { IfOk result (λ ended. CountsWrites (failed_writes writer.old) (failed_writes writer.new) ended.outcome) }
    ensures origin { IfOk result (λ ended. ended.closed.whole.origin ≡ N.origin) }
    // If the store came tidy, the disk keeps the disk model, and what a stop may leave on it stands for the network after a front of the history that has
    // everything acknowledged or shown.
    ensures honest { CameTidy D.honest D.content store.given → IfOk result (λ ended. D.honest ended.closed.disk) }
    ensures left { CameTidy D.honest D.content store.given → IfOk result (λ ended. AreAmong (D.left ended.closed.disk) (KeepsDesk ended.closed.whole ended.closed.shown ended.closed.journal_pages)) }
    ensures causes { IfErr result (λ refusal. IsUnstarted refusal ⊎ (refusal ≡ closed)) }
{
    let desk: Desk<Over<N, D, G, T>> = Desk::start(threads, alloc, history, store, gate, setup)?;
    let visits = start_doors(threads, alloc, desk.handle(), doors, copies)?;
    let terms = Terms {
        last_line: LastLine::Taken,
        answering: visits.answering(),
        copies: visits.copies(),
    };
    let (outcome, session) = serve(&threads, alloc, desk.handle(), terms, reader, writer);
    let done = Done::by(&desk);
    let closed = close_desk(threads, desk, lock, visits.answering())?;
    if !session.is_kept(&closed) || !visits.past(&threads).is_kept(&closed) {
        return Err(Refusal::Closed);
    }
    Ok(EndedSession {
        outcome,
        closed,
        done,
    })
}

/// A session over the store of a disk, and those with clients that come through doors. Returns its outcome, and what its desk leaves, which is closed after
/// it in any case. Copies that lines ask for are made in this folder, if there is one, with as many journal pages as the store has.
///
/// It is refused if the store cannot be opened (11, 40 to 43), and then if no desk can be started.
pub fn serve_disk<
    D: Disk + Drop + Send + 'static,
    G: Gate + Drop + Send + Sync + 'static,
    T: ServerRuntime,
    A: BufRead + Send + 'static,
    B: Write + Send + 'static,
    P: Door<A, B> + Drop + Send + 'static,
    I: BufRead,
    W: Write,
>(
    threads: T,
    alloc: Global,
    disk: D,
    gate: G,
    setup: Setup,
    lock: Option<FileLock>,
    doors: Doors<P>,
    folder: Option<String>,
    reader: &mut Counted<'_, I>,
    writer: &mut CountedWriter<'_, W>,
) -> Result<EndedSession<D>, Refusal>
where
    T::Dir: Send + 'static,
    requires width { ForSome setup.delta IsWidth }
    requires workers { IsWorkers setup.workers }
    // The desk's views were built by the setup.
    ensures width { IfOk result (λ ended. told_width ended.done ≡ setup.delta) }
    ensures workers { IfOk result (λ ended. told_workers ended.done ≡ Some setup.workers) }
    ensures reads { IfOk result (λ ended. CountsRead (failed_calls reader.old) (failed_calls reader.new) ended.outcome) }
    ensures writes { IfOk result (λ ended. CountsWrites (failed_writes writer.old) (failed_writes writer.new) ended.outcome) }
    // The lines were answered in their order, and what they promised is kept: each command that was reported to be durable has its number in whatever a
    // stop leaves of the closed desk, which begins with all commands after which a query was answered.
    ensures answered { IfOk result (λ ended. IfSome (I.remaining (reader_of reader.old)) (λ text. Serves (copies_in folder) Taken ended.closed.whole.origin text (I.remaining (reader_of reader.new)) (W.contents (writer_of writer.old)) (W.contents (writer_of writer.new)) (IsSessionKept ended.closed.whole ended.closed.shown) ended.outcome)) }
    // The history is of the network and version that the disk's content stood for.
    ensures opened { D.honest disk → IfOk result (λ ended. HasVersion (D.content disk) ended.closed.whole.origin.base ended.closed.whole.origin.version) }
    // If that content was tidy, the closed disk keeps the disk model, and what a stop may leave on it stands for the network after a front of the history
    // that has everything acknowledged or shown.
    ensures honest { CameTidy D.honest D.content disk → IfOk result (λ ended. D.honest ended.closed.disk) }
    ensures left { CameTidy D.honest D.content disk → IfOk result (λ ended. AreAmong (D.left ended.closed.disk) (KeepsDesk ended.closed.whole ended.closed.shown ended.closed.journal_pages)) }
    ensures refused { IfErr result (λ refusal. IsStoreUnopened (D.honest disk) (D.content disk) refusal ⊎ (IsUnstarted refusal ⊎ (refusal ≡ closed))) }
{
    let store = match open(alloc, disk) {
        Ok(store) => store,
        Err((refusal, _)) => return Err(refusal),
    };
    let history = History::new(store.network(), store.version());
    let copies = FileCopies::new(threads, folder, store.journal_pages());
    serve_store::<Brand, _, _, _, _, _, _, _, _, _>(
        threads, alloc, history, store, gate, setup, lock, doors, copies, reader, writer,
    )
}

/// Keeps the name that is not that of a named pipe, if a failure is about one.
fn keep_pipe<R: AllocGlobal>(progress: &Progress<'_, R>, pipes: &[PipePair<'_>], failed: &Failed) {
    if let Failed::Text { which, fault: _ } = failed
        && *which >= FIRST_PIPE
        && let Some(name) = pipe_at(pipes, usize::from(*which - FIRST_PIPE))
    {
        progress.keep(name, &"it is no named pipe");
    }
}

/// What a server has before its first session.
#[derive(Drop)]
struct Opened<D, P> {
    disk: D,
    lock: Option<FileLock>,
    doors: Doors<P>,
    folder: Option<String>,
    setup: Setup,
}

/// The outcome of the session on standard input and output, or how the desk built its views; or that the desk accepted so many commands that the server
/// should be started again (62).
fn outcome_of<D: Disk + Drop>(ended: EndedSession<D>) -> Result<Done, Failed>
    ensures done { IfOk result (λ done. done ≡ ended.done) }
    ensures outcome { result ≡ server_outcome ended.outcome (nat_lt most_of_life (count_of ended.closed.whole.groups + most_of_group)) ended.done }
{
    let EndedSession {
        outcome,
        closed,
        done,
    } = ended;
    outcome?;
    if is_spent(&closed) {
        return Err(Failed::Code(Refusal::HistoryFull));
    }
    Ok(done)
}

/// A session on standard input and output, and one with each client that comes through a door.
fn serve_opened<
    R: AllocGlobal + Clock + Input + Print,
    T: ServerRuntime,
    D: Disk + Drop + Send + 'static,
    A: BufRead + Send + 'static,
    B: Write + Send + 'static,
    P: Door<A, B> + Drop + Send + 'static,
>(rt: &R, threads: T, opened: Opened<D, P>) -> Result<Done, Failed>
where
    T::Dir: Send + 'static,
    requires width { ForSome opened.setup.delta IsWidth }
    requires workers { IsWorkers opened.setup.workers }
    ensures width { IfOk result (λ done. told_width done ≡ opened.setup.delta) }
    ensures workers { IfOk result (λ done. told_workers done ≡ Some opened.setup.workers) }
{
    let mut reader = standard_input(rt)?;
    let mut writer = standard_output(rt)?;
    let Opened {
        disk,
        lock,
        doors,
        folder,
        setup,
    } = opened;
    match serve_disk(
        threads,
        rt.alloc(),
        disk,
        Teller { rt: threads },
        setup,
        lock,
        doors,
        folder,
        &mut Counted::new(&mut reader),
        &mut CountedWriter::new(&mut writer),
    ) {
        Ok(ended) => outcome_of(ended),
        Err(refusal) => Err(Failed::Code(refusal)),
    }
}

/// The pairs of pipes, if each name is that of a named pipe. One that is not is kept as the reason.
fn seen_pipes<'a, 'w, R: AllocGlobal + Files>(
    rt: &R,
    progress: &Progress<'_, R>,
    pipes: &'a [PipePair<'w>],
) -> Result<SeenPipes<'a, 'w>, Failed>
    requires { ArePipesFit pipes.now }
{
    match see_pipes(&FileNames { rt }, pipes) {
        Ok(seen) => Ok(seen),
        Err(failed) => {
            keep_pipe(progress, pipes, &failed);
            Err(failed)
        }
    }
}

/// The doors of a server, and the folder of its copies, if one is named.
type DoorsAndFolder<T> = (Doors<PipeDoor<T>>, Option<String>);

/// The doors at these pipes, still closed, and the folder of copies, if one is named. A name that is not that of a pipe is reported (10 of line 0), and
/// then a folder that does not exist.
fn doors_and_folder<R: AllocGlobal + Files<File = File>, T: Copy + Drop>(
    rt: &R,
    threads: T,
    progress: &Progress<'_, R>,
    pipes: &[PipePair<'_>],
    copies: Option<&str>,
) -> Result<DoorsAndFolder<T>, Failed>
    requires { ArePipesFit pipes.now }
{
    let pipes = seen_pipes(rt, progress, pipes)?;
    let folder = see_folder(rt, progress, copies)?;
    match doors_of(threads, rt.alloc(), pipes, progress.is_asked()) {
        Ok(doors) => Ok((doors, folder)),
        Err(_) => Err(Failed::Code(Refusal::OutOfMemory)),
    }
}

/// A session over the store of a file, which nobody else has open while it may be written, and one with each client that comes through a pair of pipes.
///
/// A name that is not that of a pipe is reported (10 of line 0) before anything is served, and then a folder that does not exist.
pub fn run_serve<
    R: AllocGlobal + Clock + Eprint + Files<File = File> + Input + Print,
    T: ServerRuntime,
>(
    rt: &R,
    threads: T,
    progress: &Progress<'_, R>,
    store: &str,
    pipes: &[PipePair<'_>],
    copies: Option<&str>,
    delta: Option<u32>,
    workers: u32,
    patience: u32,
) -> Result<Done, Failed>
where
    T::Dir: Send + 'static,
    requires width { ForSome delta IsWidth }
    requires workers { IsWorkers workers }
    requires pipes { ArePipesFit pipes.now }
    ensures width { IfOk result (λ done. told_width done ≡ delta) }
    ensures workers { IfOk result (λ done. told_workers done ≡ Some workers) }
{
    let disk = open_served_store(rt, progress, store)?;
    let (doors, folder) = doors_and_folder(rt, threads, progress, pipes, copies)?;
    progress.tell(store, &"opening");
    let lock = disk.lock().ok();
    let opened = Opened {
        disk,
        lock,
        doors,
        folder,
        setup: Setup {
            delta,
            workers,
            patience: Duration::from_secs(u64::from(patience)),
            pairs: pipes.len() as u64,
        },
    };
    serve_opened(rt, threads, opened)
}
