//! The state of a desk at one moment.
ghost use Rattle.std.specs.Prelude.{◌≡◌, None, IfOk, IfErr};
ghost use Rattle.roadnet.specs.declared.refusals.Refusal.TheVariants.{Closed as closed};
ghost use Rattle.std.specs.Option.{ForSome};
ghost use Rattle.desk.specs.States.{StateStandsIn, StoodSo, flusher_of, working_of};

use crate::handles::handle::Handle;
use crate::lock::held::Held;
use crate::lock::turns::runs;
use crate::served::Served;
use disk::Disk;
use machine::MOST_OF_LIFE;
use office::{Naming, Office};
use roadnet::Refusal;
use std::sync::atomic::Ordering;

/// Whether a thread of a desk is running.
#[derive(Clone, Copy, Debug, PartialEq, Eq)]
pub enum Working {
    On,
    /// It has ended: the desk was halted, or it found no memory.
    Ended,
    /// A write failed: nothing is written before the store is opened again. Only of the flusher.
    Broken,
}

/// The state of a desk, all of one moment.
#[derive(Clone, Copy, Debug, PartialEq, Eq)]
pub struct DeskState {
    /// The version that readers see.
    pub shown: u64,
    /// The last durable version.
    pub durable: u64,
    /// The version after all accepted groups.
    pub accepted: u64,
    /// How many commands the groups have that are accepted and not durable: at most 4,096.
    pub pending: u64,
    /// How many pages of the journal are still needed because no checkpoint covers them.
    pub unchecked: u64,
    /// How many pages the journal has.
    pub pages: u64,
    /// How many landmarks the network of the shown version has.
    pub landmarks: u64,
    /// How many reader places, of 64, are taken. They are given back without the lock, so a moment later there may be fewer.
    pub readers: u64,
    /// How many more commands may be accepted before the store must be opened again: 16,777,216 less those of this life.
    pub left: u64,
    pub flusher: Working,
    pub builder: Working,
    /// How many arcs the network of the shown version has, and how many it has room for.
    pub arcs: u64,
    pub room: u64,
    /// How many clients have come and not left.
    pub clients: u64,
    /// How many pairs of pipes the desk serves.
    pub pairs: u64,
    /// How many callers wait until a group is durable or a version is shown.
    pub waiting: u64,
    /// For how many seconds the desk has served; 0 if the clock cannot be read.
    pub uptime: u64,
}

/// What is reported of a desk beside its machine and threads.
#[derive(Clone, Copy)]
struct Around {
    clients: u64,
    pairs: u64,
    waiting: u64,
    uptime: u64,
}

/// Whether a thread is running or has ended.
fn working_of(ended: bool) -> Working
    ensures { result ≡ working_of ended }
{
    if ended { Working::Ended } else { Working::On }
}

/// The state of the flusher.
fn flusher_of<N: Naming, D: Disk>(office: &Office<N, D>, ended: bool) -> Working
    ensures { result ≡ flusher_of office.now.machine ended }
{
    if office.broken() {
        return Working::Broken;
    }
    working_of(ended)
}

impl<N: Naming, D: Disk> Held<Office<N, D>> {
    /// How the desk stands. Refused is an office that was taken out (61).
    fn state(&self, around: Around) -> Result<DeskState, Refusal>
        ensures stands { IfOk result (λ state. ForSome self.now.office (λ office. StateStandsIn office.machine self.now.flusher_ended self.now.builder_ended state)) }
        ensures stood { IfOk result (StoodSo N.origin) }
        ensures around { IfOk result (λ state. (state.clients ≡ around.clients) × (state.pairs ≡ around.pairs) × (state.waiting ≡ around.waiting) × (state.uptime ≡ around.uptime)) }
        ensures causes { IfErr result (λ refusal. (refusal ≡ closed) × (self.now.office ≡ None)) }
    {
        let office = self.there()?;
        runs(office);
        Ok(DeskState {
            shown: office.shown(),
            durable: office.durable(),
            accepted: office.latest(),
            pending: office.pending(),
            unchecked: u64::from(office.unchecked()),
            pages: u64::from(office.journal_pages()),
            landmarks: office.network().landmarks().len() as u64,
            readers: office.readers(),
            left: MOST_OF_LIFE as u64 - office.of_life(),
            flusher: flusher_of(office, self.flusher_ended),
            builder: working_of(self.builder_ended),
            arcs: office.network().arcs().len() as u64,
            room: u64::from(office.network().room()),
            clients: around.clients,
            pairs: around.pairs,
            waiting: around.waiting,
            uptime: around.uptime,
        })
    }
}

impl<S: Served> Handle<S> {
    /// For how many seconds the desk has served.
    fn uptime(&self) -> u64 {
        let Some(since) = self.since else {
            return 0;
        };
        match since.elapsed(&self.rt) {
            Ok(served) => served.as_secs(),
            Err(_) => 0,
        }
    }

    /// The state of the desk: the numbers of its machine are read under its lock, at one moment. It takes no memory.
    ///
    /// It fails with 61 if the desk is closed.
    pub fn state(&self) -> Result<DeskState, Refusal>
        ensures stood { IfOk result (StoodSo S.Naming.origin) }
        ensures causes { IfErr result (λ refusal. refusal ≡ closed) }
    {
        let around = Around {
            clients: self.shared.clients.load(Ordering::SeqCst),
            pairs: self.pairs,
            waiting: self.shared.waiting.load(Ordering::SeqCst),
            uptime: self.uptime(),
        };
        let guard = self.shared.held.lock(&self.rt);
        guard.state(around)
    }
}
