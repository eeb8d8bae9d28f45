// Sessions with clients that come by doors, many at once, in threads that nobody joins.
ghost use Rattle.std.specs.Prelude.{◌≡◌, ◌≤◌, true};
ghost use Rattle.std.specs.Option.{ForSome};
ghost use Rattle.rows.specs.Kept.{IsWidth};
ghost use Rattle.store.specs.State.{CameTidy, is_calm};
ghost use Rattle.desk.specs.Openings.{IsNewDesk};

use crate::answering::put_answers;
use crate::own_texts::OwnText;
use blocks::Given;
use desk::{Closed, Desk, Handle, History, Naming, ServedApart, Setup};
use disk::Disk;
use printing::Failed;
use roadnet::Refusal;
use sessions::{Door, NoCopies, Visits, serve_door};
use stages::{CaseRuntime, Kept, OfCase, Watch, gate_of, left_by, reaches, setup_of, store_of};
use std::alloc::{AllocError, Global};
use std::io::{self, BufReader, Write};
use std::marker::Brand;
use std::sync::atomic::{AtomicU64, Ordering};
use std::sync::{Arc, Mutex, Wait};
use store::Store;

/// What came of the sessions at a door: their answers, how many ended well, and of how many the reader failed.
#[derive(Drop)]
struct Came {
    answers: Vec<u8>,
    well: u64,
    unread: u64,
}

/// What doors tell: what came of the sessions at each, and how many have ended.
#[derive(Drop)]
struct Told {
    came: Mutex<Vec<Came>>,
    ended: AtomicU64,
}

/// A door to which so many clients come, each with the same text.
#[derive(Drop)]
struct TextDoor<R> {
    rt: R,
    alloc: Global,
    place: usize,
    text: Vec<u8>,
    asks_alone: bool,
    reads: u32,
    left: u64,
    told: Arc<Told>,
}

/// A client of this text.
fn client(alloc: Global, text: &[u8], reads: u32) -> Option<BufReader<OwnText>> {
    let own = OwnText::new(alloc, text, reads).ok()?;
    BufReader::with_capacity(alloc, 4, own).ok()
}

impl<R: Wait> Door<BufReader<OwnText>, Vec<u8>> for TextDoor<R> {
    fn asks_alone(&self) -> bool {
        self.asks_alone
    }

    fn next(&mut self) -> Option<(BufReader<OwnText>, Vec<u8>)> {
        self.left = self.left.checked_sub(1)?;
        let reader = client(self.alloc, &self.text, self.reads)?;
        Some((reader, Vec::new(self.alloc)))
    }

    fn ended(&mut self, _reader: BufReader<OwnText>, writer: Vec<u8>, outcome: Result<(), Failed>) {
        if let Some(came) = self.told.came.lock(&self.rt).get_mut(self.place) {
            let _ = came.answers.extend_from_slice(&writer);
            match outcome {
                Ok(()) => came.well = came.well.saturating_add(1),
                Err(Failed::Code(Refusal::Read)) => came.unread = came.unread.saturating_add(1),
                Err(_) => {}
            }
        }
        self.told.ended.fetch_add(1, Ordering::SeqCst);
    }
}

/// The doors of a case: the places of their texts, and how many clients come to each.
fn count_doors(given: Given<'_, '_>) -> usize {
    match given.head.count_of("count") {
        Some(count) => count as usize,
        None => given.texts.len(),
    }
}

/// The door at this place, from 0 on.
fn door_at<R: CaseRuntime>(
    rt: R,
    alloc: Global,
    given: Given<'_, '_>,
    place: usize,
    told: &Arc<Told>,
) -> Result<TextDoor<R>, Refusal> {
    let Ok(told) = Arc::try_clone(told) else {
        return Err(Refusal::OutOfMemory);
    };
    let number = Some((place as u64).wrapping_add(1));
    let reads = if given.head.number_of("in") == number {
        given.turn.read
    } else {
        0
    };
    Ok(TextDoor {
        rt,
        alloc,
        place,
        text: Vec::from_slice(alloc, given.text(place % given.texts.len().max(1)))?,
        asks_alone: given.head.number_of("asking") == number,
        reads,
        left: given.head.number_of("clients").unwrap_or(1),
        told,
    })
}

/// Starts the doors.
fn start_doors<S: ServedApart>(
    rt: S::Runtime,
    alloc: Global,
    desk: &Handle<S>,
    given: Given<'_, '_>,
    told: &Arc<Told>,
    visits: &Arc<Visits<S::Naming, NoCopies>>,
) -> Result<(), Refusal> {
    for place in 0..count_doors(given) {
        let Ok(visits) = Arc::try_clone(visits) else {
            return Err(Refusal::OutOfMemory);
        };
        let door = door_at(rt, alloc, given, place, told)?;
        serve_door(rt, alloc, desk.again()?, door, visits)?;
    }
    Ok(())
}

/// The desk is closed once all sessions have ended. Handles of it are alive then. Answers whether it keeps what they told.
fn serve_doors<N: Naming + Send + Sync + 'static, R: CaseRuntime>(
    rt: R,
    alloc: Global,
    history: History,
    store: Store<Kept>,
    gate: Watch<R>,
    setup: Setup,
    given: Given<'_, '_>,
    told: &Arc<Told>,
) -> Result<(bool, Closed<Kept>), Refusal>
    requires calm { is_calm store ≡ true }
    requires width { ForSome setup.delta IsWidth }
    requires workers { (1 ≤ setup.workers) × (setup.workers ≤ 64) }
    requires new { IsNewDesk N.origin history store }
    requires came_tidy { N.came_tidy → CameTidy ⟦<Kept as Disk>⟧.honest ⟦<Kept as Disk>⟧.content store.given }
{
    let desk: Desk<OfCase<N, R>> = Desk::start(rt, alloc, history, store, gate, setup)?;
    let Ok(visits) = Arc::new(alloc, Visits::new(NoCopies)) else {
        return Err(Refusal::OutOfMemory);
    };
    start_doors(rt, alloc, desk.handle(), given, told, &visits)?;
    let clients = given.head.number_of("clients").unwrap_or(1);
    let all = clients.saturating_mul(count_doors(given) as u64);
    if !reaches(&rt, &told.ended, all) {
        return Err(Refusal::NotYet);
    }
    let ended = desk.end_showing();
    let has_finished = visits.answering().let_finish(&rt, &ended, 1000);
    let closed = ended.close()?;
    Ok((has_finished && visits.past(&rt).is_kept(&closed), closed))
}

/// How many lines begin with `ok`.
fn settled_in(answers: &[u8]) -> usize {
    answers
        .windows(3)
        .filter(|bytes| *bytes == b"ok ".as_slice())
        .count()
}

/// Adds what came of the sessions at a door.
fn put_came(came: &Came, are_told: bool, out: &mut Vec<u8>) -> io::Result<()> {
    if are_told {
        return put_answers(&came.answers, out);
    }
    let settled = settled_in(&came.answers);
    writeln!(
        out,
        "{} ended well, {} were not read, {settled} groups",
        came.well, came.unread
    )
}

/// Nothing has come of so many doors yet.
fn nothing_came(alloc: Global, count: usize) -> Result<Vec<Came>, AllocError> {
    let mut came = Vec::new(alloc);
    for _ in 0..count {
        came.push(Came {
            answers: Vec::new(alloc),
            well: 0,
            unread: 0,
        })?;
    }
    Ok(came)
}

/// What so many doors tell, of which nothing has come yet.
fn told_by(alloc: Global, count: usize) -> Result<Arc<Told>, Refusal> {
    let told = Told {
        came: Mutex::new(nothing_came(alloc, count)?),
        ended: AtomicU64::new(0),
    };
    Arc::new(alloc, told).or(Err(Refusal::OutOfMemory))
}

/// Plays a case.
pub(crate) fn play<R: CaseRuntime>(
    rt: R,
    alloc: Global,
    given: Given<'_, '_>,
    out: &mut Vec<u8>,
) -> Result<(), Refusal> {
    let store = store_of(alloc, given)?;
    let history = History::new(store.network(), store.version());
    let (gate, _board) = gate_of(rt, alloc, given.head)?;
    let told = told_by(alloc, count_doors(given))?;
    let setup = setup_of(given.head);
    let (is_kept, closed) = serve_doors::<Brand, _>(
        rt, alloc, history, store, gate, setup, given, &told,
    )?;
    for came in told.came.lock(&rt).iter() {
        put_came(came, given.head.has("told"), out).or(Err(Refusal::OutOfMemory))?;
    }
    let left = left_by(alloc, given, closed)?;
    let other = if left.is_right && is_kept {
        ""
    } else {
        ", which is not what was told"
    };
    writeln!(out, "left {}, kept {}{other}", left.groups, left.version).or(Err(
        Refusal::OutOfMemory,
    ))
}
