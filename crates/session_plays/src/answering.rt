// A session with one client: what it answers, and what it leaves.
ghost use Rattle.std.specs.Prelude.{◌≡◌, ◌≤◌, true};
ghost use Rattle.std.specs.Option.{ForSome};
ghost use Rattle.rows.specs.Kept.{IsWidth};
ghost use Rattle.store.specs.State.{CameTidy, is_calm};
ghost use Rattle.desk.specs.Openings.{IsNewDesk};

use crate::own_texts::OwnText;
use blocks::{Given, Head, NotingWriter};
use desk::{Closed, Desk, Handle, History, Naming, Reader, Served, Setup};
use dimacs::Counted;
use disk::Disk;
use printing::{CountedWriter, Failed};
use roadnet::Refusal;
use sessions::{Answering, Copies, LastLine, Session, Terms, serve};
use shared_network::SharedNetwork;
use stages::{CaseRuntime, Kept, OfCase, Watch, gate_of, left_by, setup_of, store_of};
use std::alloc::Global;
use std::io::{self, BufReader, ErrorKind, Read, Write};
use std::marker::Brand;
use std::sync::atomic::{AtomicBool, AtomicU64, Ordering};
use store::Store;

/// A reader that fails where an answer waits to be sent out.
#[derive(Drop)]
struct CarefulReader<'a> {
    text: OwnText,
    waits: &'a AtomicBool,
}

impl Read for CarefulReader<'_> {
    fn read(&mut self, buf: &mut [u8]) -> io::Result<usize> {
        if self.waits.load(Ordering::SeqCst) {
            return Err(io::Error::from(ErrorKind::Other));
        }
        self.text.read(buf)
    }
}

/// A writer that notes whether something waits to be sent out.
#[derive(Drop)]
struct CarefulWriter<'a> {
    noting: NotingWriter,
    waits: &'a AtomicBool,
}

impl Write for CarefulWriter<'_> {
    fn write(&mut self, buf: &[u8]) -> io::Result<usize> {
        self.waits.store(true, Ordering::SeqCst);
        self.noting.write(buf)
    }

    fn flush(&mut self) -> io::Result<()> {
        self.waits.store(false, Ordering::SeqCst);
        self.noting.flush()
    }
}

/// Copies that are looked at and not kept, if they are made at all: how many were asked for, and of them at how many the network had as many closed arcs as its version says.
#[derive(Drop)]
pub(crate) struct Looked {
    is_alone: bool,
    are_made: bool,
    asked: AtomicU64,
    fit: AtomicU64,
}

impl Looked {
    /// Those of a head.
    pub(crate) fn new(head: Head<'_>) -> Looked {
        Looked {
            is_alone: head.has("alone"),
            are_made: head.has("copies"),
            asked: AtomicU64::new(0),
            fit: AtomicU64::new(0),
        }
    }
}

/// How many arcs of a network are closed.
fn closed_of(network: &SharedNetwork) -> u64 {
    let arcs = network.arcs();
    let mut closed = 0u64;
    for place in 0..arcs.len() {
        if !arcs.get(place).opened {
            closed = closed.saturating_add(1);
        }
    }
    closed
}

impl Copies for Looked {
    ghost use Rattle.std.specs.Prelude.{not, ⊤};

    ghost copying = { λ looked. record { changes = not looked.is_alone; allowed = looked.are_made; made = λ name network version. ⊤ } };

    fn may_change(&self) -> bool {
        !self.is_alone
    }

    fn are_made(&self) -> bool {
        self.are_made
    }

    fn copy(
        &self,
        _alloc: Global,
        name: &[u8],
        network: &SharedNetwork,
        version: u64,
    ) -> Result<(), Refusal> {
        self.asked.fetch_add(1, Ordering::SeqCst);
        if closed_of(network) == version {
            self.fit.fetch_add(1, Ordering::SeqCst);
        }
        match name {
            b"there" => Err(Refusal::NotEmpty),
            b"torn" => Err(Refusal::Device),
            b"nowhere" => Err(Refusal::Read),
            b"large" => Err(Refusal::OutOfMemory),
            _ => Ok(()),
        }
    }
}

/// As many readers of a desk as it may have, where a session is to find it crowded, and else none.
fn others_of<S: Served>(
    alloc: Global,
    desk: &Handle<S>,
    head: Head<'_>,
) -> Result<Vec<Reader<S::Naming>>, Refusal> {
    let mut others = Vec::new(alloc);
    if head.has("crowded") {
        for _ in 0..64u32 {
            others.push(desk.reader()?).or(Err(Refusal::OutOfMemory))?;
        }
    }
    Ok(others)
}

/// How a session ended: its outcome, how many calls of the reader and of the writer failed, whether what it told is kept, and what the closed desk left.
#[derive(Drop)]
struct Ended {
    outcome: Result<(), Failed>,
    failed_calls: [u64; 2],
    is_kept: bool,
    closed: Closed<Kept>,
}

/// A session with a desk: its outcome, how many calls of the reader and of the writer failed, and what it has of the desk.
fn serve_lines<S: Served>(
    rt: &S::Runtime,
    alloc: Global,
    desk: &Handle<S>,
    head: Head<'_>,
    copies: &Looked,
    input: &mut BufReader<CarefulReader<'_>>,
    output: &mut CarefulWriter<'_>,
) -> Result<(Result<(), Failed>, [u64; 2], Session<S::Naming>), Refusal> {
    let _others = others_of(alloc, desk, head)?;
    if head.has("halted") {
        desk.halt();
    }
    let mut reader = Counted::new(input);
    let mut writer = CountedWriter::new(output);
    let answering = Answering::new();
    let terms = Terms {
        last_line: LastLine::Taken,
        answering: &answering,
        copies,
    };
    let (outcome, session) = serve(rt, alloc, desk, terms, &mut reader, &mut writer);
    let failed_calls = [reader.failed_calls(), writer.failed_writes()];
    Ok((outcome, failed_calls, session))
}

/// A session over a store. The desk is closed behind it.
fn session_over<N: Naming + Send + Sync + 'static, R: CaseRuntime>(
    rt: R,
    alloc: Global,
    history: History,
    store: Store<Kept>,
    gate: Watch<R>,
    setup: Setup,
    head: Head<'_>,
    copies: &Looked,
    input: &mut BufReader<CarefulReader<'_>>,
    output: &mut CarefulWriter<'_>,
) -> Result<Ended, Refusal>
    requires calm { is_calm store ≡ true }
    requires width { ForSome setup.delta IsWidth }
    requires workers { (1 ≤ setup.workers) × (setup.workers ≤ 64) }
    requires new { IsNewDesk N.origin history store }
    requires came_tidy { N.came_tidy → CameTidy ⟦<Kept as Disk>⟧.honest ⟦<Kept as Disk>⟧.content store.given }
{
    let desk: Desk<OfCase<N, R>> = Desk::start(rt, alloc, history, store, gate, setup)?;
    let served = serve_lines(&rt, alloc, desk.handle(), head, copies, input, output);
    let closed = desk.close()?;
    let (outcome, failed_calls, session) = served?;
    Ok(Ended {
        outcome,
        failed_calls,
        is_kept: session.is_kept(&closed),
        closed,
    })
}

/// Adds answers. For how many seconds the desk has served is left out.
pub(crate) fn put_answers(answers: &[u8], out: &mut Vec<u8>) -> io::Result<()> {
    for line in str::from_utf8(answers).unwrap_or("no text").lines() {
        match line.split_once("uptime ") {
            Some((front, _)) => writeln!(out, "{front}uptime")?,
            None => writeln!(out, "{line}")?,
        }
    }
    Ok(())
}

/// Adds how a session ended, where it did not end well.
fn put_end(ended: &Ended, out: &mut Vec<u8>) -> io::Result<()> {
    let counts = match ended.outcome {
        Ok(()) => [0, 0],
        Err(Failed::Code(refusal)) => {
            writeln!(out, "ended by {refusal}")?;
            if refusal == Refusal::Read {
                [1, 0]
            } else {
                [0, 1]
            }
        }
        Err(_) => [2, 2],
    };
    if ended.failed_calls != counts {
        writeln!(out, "failed calls {:?}", ended.failed_calls)?;
    }
    if !ended.is_kept {
        writeln!(out, "not kept")?;
    }
    Ok(())
}

/// Adds how many copies were asked for, if one was, and whether each was that of its version.
fn put_copies(copies: &Looked, out: &mut Vec<u8>) -> io::Result<()> {
    let asked = copies.asked.load(Ordering::SeqCst);
    if asked == 0 {
        return Ok(());
    }
    let fit = copies.fit.load(Ordering::SeqCst);
    writeln!(out, "copies {asked}, of their version {fit}")
}

/// Adds what a session answered, which copies it asked for, and how it ended.
fn put_told(answers: &[u8], copies: &Looked, ended: &Ended, out: &mut Vec<u8>) -> io::Result<()> {
    put_answers(answers, out)?;
    put_copies(copies, out)?;
    put_end(ended, out)
}

/// A session with the lines of a case. Added are its answers, and how it ended.
fn answer<R: CaseRuntime>(
    rt: R,
    alloc: Global,
    given: Given<'_, '_>,
    out: &mut Vec<u8>,
) -> Result<Ended, Refusal> {
    let store = store_of(alloc, given)?;
    let history = History::new(store.network(), store.version());
    let (gate, _board) = gate_of(rt, alloc, given.head)?;
    let waits = AtomicBool::new(false);
    let last = given.texts.len().saturating_sub(1);
    let reading = CarefulReader {
        text: OwnText::new(alloc, given.text(last), given.turn.read)?,
        waits: &waits,
    };
    let mut input = BufReader::with_capacity(alloc, given.turn.parts as usize, reading).or(Err(
        Refusal::OutOfMemory,
    ))?;
    let mut output = CarefulWriter {
        noting: NotingWriter::new(alloc, given.turn.write),
        waits: &waits,
    };
    let copies = Looked::new(given.head);
    let setup = setup_of(given.head);
    let ended = session_over::<Brand, _>(
        rt,
        alloc,
        history,
        store,
        gate,
        setup,
        given.head,
        &copies,
        &mut input,
        &mut output,
    )?;
    put_told(&output.noting.written, &copies, &ended, out).or(Err(Refusal::OutOfMemory))?;
    Ok(ended)
}

/// Plays a case. Where a call fails, or finds no memory, it is added what is left.
pub(crate) fn play<R: CaseRuntime>(
    rt: R,
    alloc: Global,
    given: Given<'_, '_>,
    out: &mut Vec<u8>,
) -> Result<(), Refusal> {
    let ended = answer(rt, alloc, given, out)?;
    let left = left_by(alloc, given, ended.closed)?;
    let other = if left.is_right {
        ""
    } else {
        ", which is another network"
    };
    if given.head.has("left") || !left.is_right {
        writeln!(out, "left {}, kept {}{other}", left.groups, left.version).or(Err(
            Refusal::OutOfMemory,
        ))?;
    }
    Ok(())
}
