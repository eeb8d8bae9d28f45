// What a caller of a desk does, a line each.
ghost use Rattle.std.specs.Prelude.{◌≡◌};

use blocks::Given;
use desk::{Closed, Handle, Naming, Reader, Receipt, Refused, Served, Ticket, Working};
use dimacs::read_command;
use disk::Disk;
use roadnet::{Command, Group, Refusal};
use rows::Reply;
use stages::{Board, Kept, SHORTER};
use std::alloc::Global;
use std::collections::VecDeque;
use std::io::Write;
use std::marker::PhantomData;
use std::sync::Wait;
use std::thread::{self, Threads};
use std::time::{Clock, Duration};

/// How often a reader looks at most, a millisecond apart.
const MOST_TURNS: u32 = 10000;

/// A ticket of this desk.
#[derive(Drop)]
struct Held<N: Naming> {
    ticket: Ticket,
    of: PhantomData<N>,
    ghost named: { ticket.origin ≡ N.origin },
}

/// A receipt of this desk.
#[derive(Drop)]
struct Signed<N: Naming> {
    receipt: Receipt,
    of: PhantomData<N>,
    ghost named: { receipt.origin ≡ N.origin },
}

/// Whether the closed desk confirms the receipt's group.
fn is_confirmed<N: Naming>(closed: &Closed<Kept>, signed: &Signed<N>) -> bool
    requires { closed.now.whole.origin ≡ N.origin }
{
    !closed.confirm(&signed.receipt).commands().is_empty()
}

/// What a caller has: its tickets, the receipts for those that it settled, and a reader, once it looked.
#[derive(Drop)]
pub(crate) struct Caller<N: Naming> {
    tickets: VecDeque<Held<N>>,
    receipts: Vec<Signed<N>>,
    reader: Option<Reader<N>>,
}

/// The command of a line.
fn command_of(line: &str) -> Result<Command, Refusal> {
    match read_command(line.as_bytes()) {
        Ok(Some(command)) => Ok(command),
        _ => Err(Refusal::NumberRange),
    }
}

/// The group of the commands of a line, which stand with commas between them.
fn group_of(alloc: Global, line: &str) -> Result<Group, Refusal> {
    let mut commands = Vec::new(alloc);
    for command in line.split(",") {
        if !command.is_empty() {
            commands
                .push(command_of(command)?)
                .or(Err(Refusal::OutOfMemory))?;
        }
    }
    Group::new(commands)
}

impl<N: Naming> Caller<N> {
    /// Keeps a ticket. Told is its number.
    fn keep(&mut self, ticket: Ticket) -> Result<u64, Refusal>
        requires { ticket.origin ≡ N.origin }
    {
        let number = ticket.ticket().number;
        let held = Held {
            ticket,
            of: PhantomData,
        };
        match self.tickets.push_back(held) {
            Ok(()) => Ok(number),
            Err(_) => Err(Refusal::OutOfMemory),
        }
    }

    /// Submits the group of a line, and keeps its ticket.
    fn submit<S: Served<Naming = N>>(
        &mut self,
        alloc: Global,
        desk: &Handle<S>,
        line: &str,
    ) -> Result<u64, Refusal> {
        self.keep(desk.submit_group(group_of(alloc, line)?)?)
    }

    /// Submits so many commands. Told is the last number.
    fn fill<S: Served<Naming = N>>(
        &mut self,
        desk: &Handle<S>,
        count: u64,
    ) -> Result<u64, Refusal> {
        let mut last = 0;
        for _ in 0..count {
            last = self.keep(desk.submit(SHORTER)?)?;
        }
        Ok(last)
    }

    /// Settles the oldest ticket or the last one, which is gone then.
    fn settle<S: Served<Naming = N>>(
        &mut self,
        desk: &Handle<S>,
        is_last: bool,
    ) -> Result<u64, Refusal> {
        let held = if is_last {
            self.tickets.pop_back()
        } else {
            self.tickets.pop_front()
        };
        let Some(held) = held else {
            return Err(Refusal::NoTask);
        };
        let receipt = match desk.settle(held.ticket) {
            Ok(receipt) => receipt,
            Err((refusal, _)) => return Err(refusal),
        };
        let number = receipt.ticket().ticket().number;
        let signed = Signed {
            receipt,
            of: PhantomData,
        };
        match self.receipts.push(signed) {
            Ok(()) => Ok(number),
            Err(_) => Err(Refusal::OutOfMemory),
        }
    }

    /// How many receipts the closed desk confirms.
    pub(crate) fn confirmed(&self, closed: &Closed<Kept>) -> usize
        requires { closed.now.whole.origin ≡ N.origin }
    {
        let mut count: usize = 0;
        for signed in self.receipts.as_slice() {
            if is_confirmed(closed, signed) {
                count = count.saturating_add(1);
            }
        }
        count
    }

    /// Waits for a view with the command of the oldest ticket or of the last one.
    fn see<S: Served<Naming = N>>(&self, desk: &Handle<S>, is_last: bool) -> Result<u64, Refusal> {
        let held = if is_last {
            self.tickets.back()
        } else {
            self.tickets.front()
        };
        let Some(held) = held else {
            return Err(Refusal::NoTask);
        };
        desk.wait_shown(&held.ticket)?;
        Ok(held.ticket.ticket().number)
    }

    /// Makes its own reader, where there is none yet.
    fn make_reader<S: Served<Naming = N>>(&mut self, desk: &Handle<S>) -> Result<(), Refusal> {
        if self.reader.is_none() {
            self.reader = Some(desk.reader()?);
        }
        Ok(())
    }

    /// Waits for a view with the command of the oldest ticket, of which its own reader learns, and looks.
    fn learn<S: Served<Naming = N>>(
        &mut self,
        rt: &S::Runtime,
        alloc: Global,
        desk: &Handle<S>,
        out: &mut Vec<u8>,
    ) -> Result<(), Refusal> {
        self.make_reader(desk)?;
        match (&mut self.reader, self.tickets.front()) {
            (Some(reader), Some(held)) => {
                reader.learn(&desk.wait_shown(&held.ticket)?);
                look(rt, alloc, reader, out)
            }
            _ => Err(Refusal::NoTask),
        }
    }

    /// Looks by its own reader until this version is shown, and once more.
    fn look<S: Served<Naming = N>>(
        &mut self,
        rt: &S::Runtime,
        alloc: Global,
        desk: &Handle<S>,
        version: u64,
        out: &mut Vec<u8>,
    ) -> Result<(), Refusal> {
        self.make_reader(desk)?;
        match &mut self.reader {
            Some(reader) => {
                await_version(rt, reader, version)?;
                look(rt, alloc, reader, out)
            }
            None => Err(Refusal::NoTask),
        }
    }
}

/// Looks by a reader until this version is shown, 10,000 times at most.
fn await_version<N: Naming, R: Clock>(
    rt: &R,
    reader: &mut Reader<N>,
    version: u64,
) -> Result<(), Refusal> {
    for _ in 0..MOST_TURNS {
        reader.look()?;
        if reader.pinned().version() >= version {
            break;
        }
        thread::sleep(rt, Duration::from_millis(1));
    }
    Ok(())
}

/// A reader pins, and is asked from node 1 to node 6 and back. Told are the version and the distance; there is no way back.
fn look<N: Naming, R: Threads>(
    rt: &R,
    alloc: Global,
    reader: &mut Reader<N>,
    out: &mut Vec<u8>,
) -> Result<(), Refusal> {
    let mut pinned = reader.pin()?;
    let version = pinned.version();
    let replies = pinned.batch(rt, alloc, &[(1, 6), (6, 1)])?;
    let written = match replies.as_slice() {
        [Reply::Length(length), Reply::NoWalk] => writeln!(out, "{version}:{length}"),
        _ => writeln!(out, "{version}"),
    };
    written.or(Err(Refusal::OutOfMemory))
}

/// Offers the group of a line, and settles the basis of its refusal. Told is for what it is refused, or why the basis isn't settled; or its number.
fn decline<S: Served>(alloc: Global, desk: &Handle<S>, line: &str) -> Result<u64, Refusal> {
    let Refused { refusal, basis } = match desk.offer(group_of(alloc, line)?) {
        Ok(ticket) => return Ok(ticket.ticket().number),
        Err(refused) => refused,
    };
    if let Some(basis) = basis {
        desk.settle_basis(&basis)?;
    }
    Err(refusal)
}

/// Waits for a version, as long as the desk's patience lasts. Told is how many groups are shown then.
fn until<S: Served>(desk: &Handle<S>, version: u64) -> Result<u64, Refusal> {
    match desk.wait_version(version) {
        Ok(shown) => Ok(shown.groups().len()),
        Err(refusal) => Err(refusal),
    }
}

/// Waits until the flusher of a halted desk has ended.
fn await_written<S: Served>(rt: &S::Runtime, desk: &Handle<S>) -> Result<(), Refusal> {
    for _ in 0..MOST_TURNS {
        if desk.state()?.flusher != Working::On {
            break;
        }
        thread::sleep(rt, Duration::from_millis(1));
    }
    Ok(())
}

/// The width of the buckets of the view at which a new reader looks.
fn width<S: Served>(desk: &Handle<S>) -> Result<u64, Refusal> {
    let mut reader = desk.reader()?;
    Ok(u64::from(reader.pinned().width()))
}

/// Adds a call's answer, a number or a refusal.
fn put(answer: Result<u64, Refusal>, out: &mut Vec<u8>) -> Result<(), Refusal> {
    let written = match answer {
        Ok(number) => writeln!(out, "{number}"),
        Err(refusal) => writeln!(out, "{refusal}"),
    };
    written.or(Err(Refusal::OutOfMemory))
}

/// Adds a list of numbers.
fn put_list(numbers: &[u64], out: &mut Vec<u8>) -> Result<(), Refusal> {
    writeln!(out, "{numbers:?}").or(Err(Refusal::OutOfMemory))
}

/// Adds a word where something is not as it is to be.
fn put_unless(holds: bool, word: &str, out: &mut Vec<u8>) -> Result<(), Refusal> {
    if holds {
        return Ok(());
    }
    writeln!(out, "{word}").or(Err(Refusal::OutOfMemory))
}

/// Does what a line says of the gate, if it is one of these. Answers whether it is.
fn play_gate<R: Wait + Clock>(
    rt: &R,
    alloc: Global,
    board: &Board,
    line: &str,
    out: &mut Vec<u8>,
) -> Result<bool, Refusal> {
    let mut words = line.split_whitespace();
    let word = words.next().unwrap_or("");
    let post = board.post(words.next().unwrap_or(""));
    let number: Option<u64> = words.next().and_then(|number| number.parse().ok());
    match word {
        "await" => put_unless(post.is_asked(rt, number.unwrap_or(1)), "never", out)?,
        "let" => post.let_pass(number.unwrap_or(u64::MAX)),
        "asked" => put_list(&post.numbers(rt, alloc)?, out)?,
        "rows" => put_list(&board.workers(), out)?,
        "rested" => put_unless(post.rest(rt).is_some_and(|rest| rest < 90), "late", out)?,
        _ => return Ok(false),
    }
    Ok(true)
}

/// Makes the desk's call that a line names, if it is one that answers with a number.
fn call<S: Served>(
    alloc: Global,
    desk: &Handle<S>,
    caller: &mut Caller<S::Naming>,
    word: &str,
    rest: &str,
) -> Option<Result<u64, Refusal>> {
    let number: u64 = rest.parse().unwrap_or(0);
    match word {
        "submit" => Some(caller.submit(alloc, desk, rest)),
        "decline" => Some(decline(alloc, desk, rest)),
        "fill" => Some(caller.fill(desk, number)),
        "settle" => Some(caller.settle(desk, rest == "last")),
        "see" => Some(caller.see(desk, rest == "last")),
        "until" => Some(until(desk, number)),
        "width" => Some(width(desk)),
        _ => None,
    }
}

/// Does what a line says of the desk, if it is one of these. Answers whether it is.
fn play_desk<S: Served>(
    rt: &S::Runtime,
    alloc: Global,
    desk: &Handle<S>,
    caller: &mut Caller<S::Naming>,
    line: &str,
    out: &mut Vec<u8>,
) -> Result<bool, Refusal> {
    let (word, rest) = line.split_once(" ").unwrap_or((line, ""));
    if let Some(answer) = call(alloc, desk, caller, word, rest) {
        put(answer, out)?;
        return Ok(true);
    }
    match word {
        "look" => caller.look(rt, alloc, desk, rest.parse().unwrap_or(0), out)?,
        "learn" => caller.learn(rt, alloc, desk, out)?,
        "halt" => desk.halt(),
        "await-written" => await_written(rt, desk)?,
        _ => return Ok(false),
    }
    Ok(true)
}

/// A caller that has nothing yet.
pub(crate) fn caller_of<N: Naming>(alloc: Global) -> Caller<N> {
    Caller {
        tickets: VecDeque::new(alloc),
        receipts: Vec::new(alloc),
        reader: None,
    }
}

/// Does what lines say, one after the other. Told are the desk's answers; a look that is refused is told so, too.
pub(crate) fn play_lines<S: Served>(
    rt: &S::Runtime,
    alloc: Global,
    desk: &Handle<S>,
    board: &Board,
    lines: &[u8],
    caller: &mut Caller<S::Naming>,
    out: &mut Vec<u8>,
) -> Result<(), Refusal> {
    for line in str::from_utf8(lines).unwrap_or("").lines() {
        match play_desk(rt, alloc, desk, caller, line, out) {
            Ok(true) => {}
            Ok(false) => put_unless(play_gate(rt, alloc, board, line, out)?, "no such line", out)?,
            Err(refusal) => put(Err(refusal), out)?,
        }
    }
    Ok(())
}
