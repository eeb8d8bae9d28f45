//! Reports on a server on standard error, if `--verbose` asks for them.
ghost use Rattle.std.specs.Prelude.{◌≡◌};

use desk::{DeskState, Handle, Served, Working};
use server_files::{Guests, VisitCounts};
use sessions::let_go;
use std::fmt::{self, Display};
use std::sync::{Arc, Mutex, Wait};
use std::thread;
use std::time::Duration;

/// The least number of seconds between two lines.
const APART: u64 = 1;

/// What is reported of a server: `durable D, shown V`, the durable and the shown version; `, B behind`, if the latter is lower by B;
/// `, C clients, N came, M went`, once one has come; and the report of a thread that has ended.
#[derive(Clone, Copy, Debug, PartialEq, Eq)]
pub struct ServerStanding {
    pub durable: u64,
    pub shown: u64,
    pub flusher: Working,
    pub builder: Working,
    pub visits: VisitCounts,
}

impl ServerStanding {
    /// What is reported of a server whose desk is in this state, and of who came and left until then.
    fn of(desk: &DeskState, visits: VisitCounts) -> ServerStanding
        ensures desk { (result.durable ≡ desk.now.durable) × (result.shown ≡ desk.now.shown) × (result.flusher ≡ desk.now.flusher) × (result.builder ≡ desk.now.builder) }
        ensures visits { result.visits ≡ visits }
    {
        ServerStanding {
            durable: desk.durable,
            shown: desk.shown,
            flusher: desk.flusher,
            builder: desk.builder,
            visits,
        }
    }
}

/// The report on a flusher that is not running.
fn told_of_flusher(flusher: Working) -> &'static str {
    match flusher {
        Working::On => "",
        Working::Ended => ", the flusher has ended",
        Working::Broken => ", 43 Device: nothing more is written, what is durable stays",
    }
}

/// The report on a builder that is not running.
fn told_of_builder(builder: Working) -> &'static str {
    match builder {
        Working::On => "",
        Working::Ended | Working::Broken => ", the builder has ended",
    }
}

impl Display for ServerStanding {
    fn fmt<W: fmt::Write>(&self, f: &mut fmt::Formatter<W>) -> fmt::Result {
        let ServerStanding {
            durable,
            shown,
            flusher,
            builder,
            visits,
        } = *self;
        write!(f, "durable {durable}, shown {shown}")?;
        if shown < durable {
            write!(f, ", {} behind", durable - shown)?;
        }
        if visits.came > 0 {
            let here = visits.came.saturating_sub(visits.went);
            write!(
                f,
                ", {here} clients, {} came, {} went",
                visits.came, visits.went
            )?;
        }
        write!(f, "{}", told_of_flusher(flusher))?;
        write!(f, "{}", told_of_builder(builder))
    }
}

/// Reports on a server, at once and then each second in which what is reported has changed, until its desk is closed.
fn tell_standings<S: Served>(rt: &S::Runtime, desk: &Handle<S>, visits: &Mutex<VisitCounts>)
where
    S::Runtime: Eprint,
{
    let mut told = None;
    for _ in rt.forever() {
        let Ok(state) = desk.state() else {
            return;
        };
        let standing = ServerStanding::of(&state, *visits.lock(rt));
        if told != Some(standing) {
            let word = if told.is_none() { "ready, " } else { "" };
            let _ = eprintln!(rt; "note: {word}{standing}");
            told = Some(standing);
        }
        thread::sleep(rt, Duration::from_secs(APART));
    }
}

/// Starts a thread that reports on a server, if its clients are counted, and does not join it: it ends once the desk is closed, or is cut off when the
/// program ends. If there is no memory or no thread for it, nothing is reported.
#[inline(never)]
pub fn start_telling<S: Served + Send + 'static>(rt: S::Runtime, desk: &Handle<S>, guests: Guests)
where
    S::Naming: Send + Sync + 'static,
    S::Disk: Send + 'static,
    S::Gate: Send + Sync + 'static,
    S::Runtime: Eprint + Send + Sync + 'static,
{
    let Some(visits) = guests.counted else {
        return;
    };
    let Ok(desk) = desk.again() else {
        return;
    };
    let _ = let_go(
        &rt,
        desk,
        visits,
        move |desk: Handle<S>, visits: Arc<Mutex<VisitCounts>>| tell_standings(&rt, &desk, &visits),
    );
}
