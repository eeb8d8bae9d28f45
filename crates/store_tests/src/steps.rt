//! Stores that are taken step by step: what each step answers, what the store tells then, and that its network is that of its version.
use crate::page_rows::{PageRow, first_other_page};
use crate::stores::{created, opened, six_in_room};
use disk::{Disk, FailOnce, FuseDisk, MemDisk, Pick, Stoppable};
use fixtures::arc;
use roadnet::{Command, Group, Network, Refusal};
use std::alloc::Global;
use std::slice::from_ref;
use store::{Part, Store};

/// The life of a store: of how many arcs from node 1 to node 2, each of length 5, or of the worked network without landmarks where there are none; with room
/// for how many arcs, and how many journal pages; and the groups that are committed, one after the other.
#[derive(Clone, Copy)]
pub struct Life {
    pub arcs: Option<usize>,
    pub room: u64,
    pub journal_pages: u32,
    pub groups: &'static [&'static [Command]],
}

/// What is done with a store: nothing, a commit of its life's next group, a checkpoint, or a part of one of so many pages.
#[derive(Clone, Copy)]
pub enum Step {
    Look,
    Commit,
    Checkpoint,
    Part(u32),
}

/// What a part answers with which a checkpoint goes on. Each other step answers a version.
pub const GOING: u64 = u64::MAX;

/// What a store tells: its version, how many pages are unchecked, and whether it is calm.
pub type Told = (u64, u32, bool);

/// A step, its answer, and what the store tells then.
pub type Row = (Step, Result<u64, Refusal>, Told);

/// The group that leads on from a version.
fn group_at(alloc: Global, life: &Life, version: u64) -> Result<Group, Refusal> {
    match life.groups.get(version as usize) {
        Some(commands) => Group::new(Vec::from_slice(alloc, commands)?),
        None => Err(Refusal::NoTask),
    }
}

/// The network with which a life begins.
fn first_network(alloc: Global, life: &Life) -> Result<Network, Refusal> {
    let Some(arcs) = life.arcs else {
        return six_in_room(alloc, &[], life.room);
    };
    let arcs = vec![in alloc; arc(1, 2, 5); arcs]?;
    match Network::new(alloc, 2, arcs, &[])?.with_room(life.room) {
        Ok(network) => Ok(network),
        Err((refusal, _)) => Err(refusal),
    }
}

/// The network of a life at a version.
fn network_at(alloc: Global, life: &Life, version: u64) -> Result<Network, Refusal> {
    let mut network = first_network(alloc, life)?;
    for number in 0..version {
        network.apply_group(&group_at(alloc, life, number)?)?;
    }
    Ok(network)
}

/// The disk of a new store.
pub fn new_disk(alloc: Global, life: &Life) -> Result<MemDisk, Refusal> {
    let network = first_network(alloc, life)?;
    created(alloc, &network, life.journal_pages.clamp(1, 64))
}

/// What the store tells, if its network is that of its version.
pub fn told<D: Disk>(alloc: Global, life: &Life, store: &Store<D>) -> Result<Told, Refusal> {
    let network = network_at(alloc, life, store.version())?;
    let found = store.network();
    if found.arcs() != network.arcs() || found.landmarks() != network.landmarks() {
        return Err(Refusal::NotYet);
    }
    Ok((store.version(), store.unchecked(), store.calm()))
}

/// Takes a store a step on.
pub fn take_step<D: Disk>(
    alloc: Global,
    life: &Life,
    store: &mut Store<D>,
    step: Step,
) -> Result<u64, Refusal> {
    match step {
        Step::Look => Ok(store.version()),
        Step::Commit => {
            let group = group_at(alloc, life, store.version())?;
            store.commit_groups(from_ref(&group))
        }
        Step::Checkpoint => store.checkpoint(),
        Step::Part(pages) => match store.checkpoint_part(pages.clamp(1, 64))? {
            Part::Going => Ok(GOING),
            Part::Done(version) => Ok(version),
        },
    }
}

/// Takes these steps, up to one that is refused.
pub fn take_steps<D: Disk>(
    alloc: Global,
    life: &Life,
    store: &mut Store<D>,
    steps: &[Step],
) -> Result<(), Refusal> {
    for &step in steps {
        take_step(alloc, life, store, step)?;
    }
    Ok(())
}

/// Opens the store on this disk, takes these steps and closes it.
pub fn stepped(
    alloc: Global,
    life: &Life,
    disk: MemDisk,
    steps: &[Step],
) -> Result<MemDisk, Refusal> {
    let mut store = opened(alloc, disk)?;
    let taken = take_steps(alloc, life, &mut store, steps);
    let disk = store.close();
    taken?;
    Ok(disk)
}

/// Whether these rows go as they should.
fn goes<D: Disk>(alloc: Global, life: &Life, store: &mut Store<D>, rows: &[Row]) -> bool {
    for &(step, answer, tells) in rows {
        if take_step(alloc, life, store, step) != answer || told(alloc, life, store) != Ok(tells) {
            return false;
        }
    }
    true
}

/// The store on this disk behind a fuse, which passes the sync of the opening and k writes and syncs more.
pub fn fused(alloc: Global, disk: MemDisk, k: u64) -> Result<Store<FuseDisk<MemDisk>>, Refusal> {
    opened(alloc, FuseDisk::new(disk, k.saturating_add(1)))
}

/// What a stop with this pick leaves.
pub fn stopped(mut disk: MemDisk, pick: Pick) -> MemDisk {
    let _ = disk.stop(&[pick]);
    disk
}

/// What becomes of a disk.
#[derive(Clone, Copy)]
pub enum Act {
    /// Its store is opened, goes through these rows, and is closed.
    Lived(&'static [Row]),
    /// The same behind a fuse that passes the sync of the opening and so many writes and syncs more; then it is stopped with this pick.
    Cut(u64, Pick, &'static [Row]),
    /// The same where the call of this number fails, without a stop.
    Failed(u64, &'static [Row]),
    /// It is stopped with this pick.
    Stopped(Pick),
    /// It has these pages.
    Pages(&'static [PageRow]),
}

/// Whether an act goes as it should, and the disk behind it.
fn done(alloc: Global, life: &Life, disk: MemDisk, act: Act) -> Result<(bool, MemDisk), Refusal> {
    match act {
        Act::Lived(rows) => {
            let mut store = opened(alloc, disk)?;
            let right = goes(alloc, life, &mut store, rows);
            Ok((right, store.close()))
        }
        Act::Cut(k, pick, rows) => {
            let mut store = fused(alloc, disk, k)?;
            let right = goes(alloc, life, &mut store, rows);
            Ok((right, stopped(store.close().into_inner(), pick)))
        }
        Act::Failed(k, rows) => {
            let mut store = opened(alloc, FailOnce::new(disk, k))?;
            let right = goes(alloc, life, &mut store, rows);
            Ok((right, store.close().into_inner()))
        }
        Act::Stopped(pick) => Ok((true, stopped(disk, pick))),
        Act::Pages(pages) => {
            let mut disk = disk;
            let other = first_other_page(&mut disk, pages)?;
            Ok((other.is_none(), disk))
        }
    }
}

/// The first of these acts on a new store's disk that goes otherwise, if there is one.
pub fn first_other_act(alloc: Global, life: &Life, acts: &[Act]) -> Result<Option<usize>, Refusal> {
    let mut disk = new_disk(alloc, life)?;
    for (at, &act) in acts.iter().enumerate() {
        let (right, behind) = done(alloc, life, disk, act)?;
        disk = behind;
        if !right {
            return Ok(Some(at));
        }
    }
    Ok(None)
}
