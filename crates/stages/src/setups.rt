//! The desks of cases: over which store they stand, how they are set up, and what they leave.
ghost use Rattle.std.specs.Prelude.{◌≡◌, ◌≤◌, true, IfOk};
ghost use Rattle.std.specs.Option.{ForSome};
ghost use Rattle.rows.specs.Kept.{IsWidth};
ghost use Rattle.store.specs.State.{is_calm};

use crate::boards::{Board, Watch};
use blocks::{Given, Head};
use desk::{Closed, Over, Setup};
use dimacs::parse_gr;
use disk::{Disk, FailOnce, MemDisk, Pick, Stoppable};
use fixtures::six;
use roadnet::{Command, Group, Network, Refusal};
use std::alloc::Global;
use std::sync::{Arc, Wait};
use std::thread::Threads;
use std::time::{Clock, Duration};
use store::{Store, create, open};

/// A disk in memory that may fail once.
pub type Kept = FailOnce<MemDisk>;

/// The command with which a desk is filled.
pub const SHORTER: Command = Command::Set { arc: 8, length: 4 };

/// What the desk of a case stands on.
pub type OfCase<N, R> = Over<N, Kept, Watch<R>, R>;

/// A runtime that the threads of a case share.
pub trait CaseRuntime: Threads + Wait + Clock + Copy + Send + Sync + 'static {}

impl<R: Threads + Wait + Clock + Copy + Send + Sync + 'static> CaseRuntime for R {}

/// The numbers of a list, `A,B` or `A..B`.
fn numbers_of(alloc: Global, list: &str) -> Result<Vec<u64>, Refusal> {
    let mut numbers = Vec::new(alloc);
    if let Some((from, to)) = list.split_once("..") {
        for number in from.parse().unwrap_or(1)..=to.parse().unwrap_or(0) {
            numbers.push(number).or(Err(Refusal::OutOfMemory))?;
        }
        return Ok(numbers);
    }
    for word in list.split(",") {
        let number = word.parse().or(Err(Refusal::NumberRange))?;
        numbers.push(number).or(Err(Refusal::OutOfMemory))?;
    }
    Ok(numbers)
}

/// The network of a case without landmarks: that of its first text, or that of the worked rows.
fn bare_network(alloc: Global, given: Given<'_, '_>) -> Result<Network, Refusal> {
    if !given.head.has("network") {
        return six(alloc);
    }
    parse_gr(alloc, given.text(0)).or(Err(Refusal::NumberRange))
}

/// The network of a case.
fn network_of(alloc: Global, given: Given<'_, '_>) -> Result<Network, Refusal> {
    let mut network = bare_network(alloc, given)?;
    if let Some(landmarks) = given.head.value("landmarks") {
        for node in numbers_of(alloc, landmarks)? {
            network.apply(Command::Mark { node })?;
        }
    }
    match given.head.number_of("room") {
        Some(room) => network.with_room(room).map_err(|(refusal, _)| refusal),
        None => Ok(network),
    }
}

/// A new store's disk is given this version, which stands in the head of the first slot behind the arcs of the beginning.
fn set_version(disk: &mut MemDisk, arcs: usize, version: u64) -> Result<(), Refusal> {
    let page = (arcs.div_ceil(511) as u64).wrapping_add(1);
    let at = page.wrapping_mul(4096).wrapping_add(8);
    match disk.len() {
        Ok(length) if at <= length => {}
        _ => return Err(Refusal::NumberRange),
    }
    match (disk.write_at(at, &version.to_be_bytes()), disk.sync()) {
        (Ok(()), Ok(())) => Ok(()),
        _ => Err(Refusal::Device),
    }
}

/// The disk of a new store of this network.
fn disk_of(alloc: Global, head: Head<'_>, network: &Network) -> Result<MemDisk, Refusal> {
    let pages = head.count_of("pages").unwrap_or(64);
    if pages < 1 || pages > 65536 {
        return Err(Refusal::NumberRange);
    }
    let mut disk = match create(alloc, MemDisk::new(alloc), network, pages) {
        Ok(store) => store.close(),
        Err((refusal, _)) => return Err(refusal),
    };
    if let Some(version) = head.number_of("version") {
        set_version(&mut disk, network.arcs().len(), version)?;
    }
    Ok(disk)
}

/// The store of a case, on a disk that fails in the call that its turn names.
pub fn store_of(alloc: Global, given: Given<'_, '_>) -> Result<Store<Kept>, Refusal>
    ensures calm { IfOk result (λ store. is_calm store ≡ true) }
{
    let network = network_of(alloc, given)?;
    let disk = disk_of(alloc, given.head, &network)?;
    match open(alloc, FailOnce::new(disk, u64::from(given.turn.disk))) {
        Ok(store) => Ok(store),
        Err((refusal, _)) => Err(refusal),
    }
}

/// How the desk of a head is set up.
pub fn setup_of(head: Head<'_>) -> Setup
    ensures width { ForSome result.delta IsWidth }
    ensures workers { (1 ≤ result.workers) × (result.workers ≤ 64) }
{
    let delta = match head.count_of("delta") {
        Some(width) if width >= 1 && width <= 2147483647 => Some(width),
        _ => None,
    };
    Setup {
        delta,
        workers: head.count_of("workers").unwrap_or(1).clamp(1, 64),
        patience: Duration::from_millis(head.number_of("patience").unwrap_or(30_000)),
        pairs: 0,
    }
}

/// A gate of a head, and the board that it has in common with its case.
pub fn gate_of<R: Wait + Clock + Copy>(
    rt: R,
    alloc: Global,
    head: Head<'_>,
) -> Result<(Watch<R>, Arc<Board>), Refusal> {
    let Ok(board) = Arc::new(alloc, Board::new(&rt, alloc, head)) else {
        return Err(Refusal::OutOfMemory);
    };
    let Ok(shared) = Arc::try_clone(&board) else {
        return Err(Refusal::OutOfMemory);
    };
    Ok((Watch { rt, board: shared }, board))
}

/// What a desk leaves: its groups, how many of them lead to what it showed last, and its disk, on which what a stop left stands.
#[derive(Drop)]
pub struct Left {
    pub groups: usize,
    pub shown: u64,
    pub version: u64,
    /// The network on the disk is that of the beginning after so many of the groups.
    pub is_right: bool,
}

/// The pick of a head.
fn pick_of(head: Head<'_>) -> Option<Pick> {
    match head.value("stop")? {
        "old" => Some(Pick::Old),
        "new" => Some(Pick::New),
        byte => Some(Pick::Byte(byte.parse().unwrap_or(0))),
    }
}

/// Whether a network is another one after so many of these groups.
fn is_after(
    network: &Network,
    mut first: Network,
    groups: &[Group],
    count: u64,
) -> Result<bool, Refusal> {
    for group in groups.iter().take(count as usize) {
        first.apply_group(group)?;
    }
    Ok(first.arcs() == network.arcs() && first.landmarks() == network.landmarks())
}

/// What is left by a desk that began with the network and version of this case.
pub fn left_by(alloc: Global, given: Given<'_, '_>, closed: Closed<Kept>) -> Result<Left, Refusal> {
    let Closed {
        history,
        shown,
        disk,
        journal_pages: _,
        whole: _,
    } = closed;
    let mut disk = disk.into_inner();
    if let Some(pick) = pick_of(given.head) {
        let _ = disk.stop(&[pick]);
    }
    let store = match open(alloc, disk) {
        Ok(store) => store,
        Err((refusal, _)) => return Err(refusal),
    };
    let version = store.version();
    let count = version.saturating_sub(given.head.number_of("version").unwrap_or(0));
    let first = network_of(alloc, given)?;
    Ok(Left {
        groups: history.len(),
        shown: shown.groups().len(),
        version,
        is_right: is_after(store.network(), first, &history, count)?,
    })
}
