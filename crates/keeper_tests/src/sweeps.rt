// A run with checkpoints between its flushes, stopped at each of its calls.
ghost use Rattle.std.specs.Prelude.{◌≡◌, ◌<◌, length, true, IfOk};
ghost use Rattle.store.specs.State.{is_calm};

use disk::{Disk, FuseDisk, MemDisk, Pick, Stoppable};
use keeper::Ledger;
use roadnet::{Command, Group, Network, Refusal};
use std::alloc::Global;
use store::{Store, create, open};

/// How many pages the journal has.
const JOURNAL_PAGES: u32 = 3;

/// How many rounds a run has: in each a `set` and a flush, in each second one a checkpoint.
const ROUNDS: u64 = 40;

/// A disk with a new store of six nodes and eight arcs.
fn six(alloc: Global) -> Result<MemDisk, Refusal> {
    let network = fixtures::six(alloc)?;
    match create(alloc, MemDisk::new(alloc), &network, JOURNAL_PAGES) {
        Ok(store) => Ok(store.close()),
        Err((refusal, _)) => Err(refusal),
    }
}

/// The command of a round, counted from 0.
fn command_of(round: u64) -> Command {
    Command::Set {
        arc: round % 8 + 1,
        length: round.wrapping_add(1000),
    }
}

/// Whether the network is that after so many rounds.
fn is_after(network: &Network, rounds: u64) -> bool {
    let mut lengths = [17, 10, 2, 0, 0, 3, 0, 20];
    for round in 0..rounds {
        lengths[(round % 8) as usize] = round.wrapping_add(1000);
    }
    let mut same = network.nodes() == 6 && network.arcs().len() == 8;
    for (arc, length) in network.arcs().iter().zip(lengths) {
        same = same && arc.opened && u64::from(arc.length) == length;
    }
    same
}

/// The store on a disk.
fn opened<D: Disk + Drop>(alloc: Global, disk: D) -> Result<Store<D>, Refusal>
    ensures { IfOk result (λ store. is_calm store ≡ true) }
{
    match open(alloc, disk) {
        Ok(store) => Ok(store),
        Err((refusal, _)) => Err(refusal),
    }
}

/// Makes the pending commands durable, behind a checkpoint where the journal is full.
fn flush<D: Disk>(ledger: &mut Ledger<D>) -> Result<u64, Refusal> {
    match ledger.flush() {
        Err(Refusal::JournalFull) => {
            let _ = ledger.checkpoint()?;
            ledger.flush()
        }
        told => told,
    }
}

/// Runs the rounds from this one on, up to that one. Answers how many were acknowledged, and whether the disk failed.
fn run<D: Disk>(ledger: &mut Ledger<D>, from: u64, to: u64) -> Result<(u64, bool), Refusal> {
    for round in from..to {
        let _ = ledger.submit_group(Group::one(command_of(round)))?;
        match flush(ledger) {
            Ok(_) => {}
            Err(Refusal::Device) => return Ok((round, true)),
            Err(refusal) => return Err(refusal),
        }
        if round % 2 == 1 {
            match ledger.checkpoint() {
                Ok(_) => {}
                Err(Refusal::Device) => return Ok((round.wrapping_add(1), true)),
                Err(refusal) => return Err(refusal),
            }
        }
    }
    Ok((to, false))
}

/// How a run went: how many rounds were acknowledged, and whether the disk failed.
type Ran = (u64, bool);

/// Opens this disk and runs the rounds from this one on, up to that one, on a disk that takes so many writes and syncs behind that of the opening.
/// Answers how it went, and the disk.
fn ran(
    alloc: Global,
    disk: MemDisk,
    rounds: (u64, u64),
    calls: u64,
) -> Result<(Ran, MemDisk), Refusal> {
    let fused = FuseDisk::new(disk, calls.saturating_add(1));
    let mut ledger = match Ledger::new(alloc, opened(alloc, fused)?) {
        Ok(ledger) => ledger,
        Err((_, _)) => return Err(Refusal::OutOfMemory),
    };
    let went = run(&mut ledger, rounds.0, rounds.1);
    let (_, fused) = ledger.close();
    let disk = fused.into_inner();
    Ok((went?, disk))
}

/// Opens the disk that such a run left. Answers the disk, and the version that is on it: what was acknowledged is there, at most one round more is, and
/// the network is that after so many rounds.
fn left(
    alloc: Global,
    disk: MemDisk,
    (acknowledged, failed): Ran,
) -> Result<(MemDisk, u64), Refusal> {
    let store = opened(alloc, disk)?;
    let version = store.version();
    let most = if failed {
        acknowledged.wrapping_add(1)
    } else {
        acknowledged
    };
    let is_right = version >= acknowledged && version <= most && is_after(store.network(), version);
    let disk = store.close();
    if is_right {
        Ok((disk, version))
    } else {
        Err(Refusal::NotYet)
    }
}

/// Runs these rounds on this disk, and stops. Answers the disk, the version that is then on it, and whether the disk failed.
fn stopped(
    alloc: Global,
    disk: MemDisk,
    rounds: (u64, u64),
    calls: u64,
    picks: &[Pick],
) -> Result<(MemDisk, u64, bool), Refusal>
    requires { 0 < length picks.now }
{
    let (went, mut disk) = ran(alloc, disk, rounds, calls)?;
    let _ = disk.stop(picks);
    let (disk, version) = left(alloc, disk, went)?;
    Ok((disk, version, went.1))
}

/// Stops the next rounds at each of their calls.
fn next_are_stopped(
    alloc: Global,
    mut disk: MemDisk,
    mut version: u64,
    picks: &[Pick],
) -> Result<(), Refusal>
    requires { 0 < length picks.now }
{
    for more in 0..7u64 {
        let next = version.saturating_add(1);
        (disk, version, _) = stopped(alloc, disk, (version, next), more, picks)?;
    }
    Ok(())
}

/// Stops the run at this call, and then the next rounds at each of theirs. Answers whether the disk failed.
fn is_stopped_at(alloc: Global, calls: u64, picks: &[Pick]) -> Result<bool, Refusal>
    requires { 0 < length picks.now }
{
    let (disk, version, failed) = stopped(alloc, six(alloc)?, (0, ROUNDS), calls, picks)?;
    if failed {
        next_are_stopped(alloc, disk, version, picks)?;
    }
    Ok(failed)
}

/// Stops the run at each of its calls. Answers how many there are.
fn sweep(alloc: Global, picks: &[Pick]) -> Result<u64, Refusal>
    requires { 0 < length picks.now }
{
    for calls in 0..600u64 {
        if !is_stopped_at(alloc, calls, picks)? {
            return Ok(calls);
        }
    }
    Err(Refusal::NotYet)
}

// What becomes of bytes that were not synced.
const PICKS: [&[Pick]; 5] = [
    &[Pick::Old],
    &[Pick::New],
    &[Pick::Byte(0)],
    &[Pick::Byte(165)],
    &[Pick::Old, Pick::New],
];

/// How many calls a run makes that is stopped at each of them with the picks at this place.
fn swept(alloc: Global, place: usize) -> Result<u64, Refusal> {
    match PICKS.get(place) {
        Some(&picks) if !picks.is_empty() => sweep(alloc, picks),
        _ => Ok(0),
    }
}

// A flush makes four writes and syncs, and a checkpoint at least five.
#[test]
fn stopped_at_each_call(rt: HostRuntime) {
    for place in 0..PICKS.len() {
        let calls = swept(rt.alloc(), place).expect(&rt, "each opening is right");
        assert!(rt; calls >= 4 * 40 + 5 * 20, "{place}");
    }
}
