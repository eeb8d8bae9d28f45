//! Keepers for tests, and tables of their calls.

ghost use Rattle.std.specs.Prelude.{◌≡◌, ◌≤◌, true};
ghost use Rattle.store.specs.State.{is_calm};

use disk::{Disk, MemDisk};
use fixtures::six;
use keeper::{Keeper, Task};
use relax::Solo;
use roadnet::{Command, Network, Refusal};
use rows::{Query, Reply, View};
use shared_network::SharedNetwork;
use std::alloc::Global;
use std::sync::Arc;
use std::thread::Threads;
use store::{Part, Store, create, open};

// A call of a keeper.
#[derive(Clone, Copy)]
pub(crate) enum Call {
    Submit(Command),
    // A command is submitted so many times. The last number is told, or the first refusal.
    Fill(u64, Command),
    Flush,
    // A step of a checkpoint, of 64 pages.
    Step,
    // A task is taken, and the view of it shown.
    Show,
    Dist(u64, u64),
    Lower(u64, u64),
    Pending,
    Durable,
    Shown,
}

// What a keeper tells.
#[derive(Clone, Copy, Debug, PartialEq)]
pub(crate) enum Told {
    Number(u64),
    // A reply, with its version.
    Reply(u64, Reply),
    Nothing,
    Refused(Refusal),
}

// The first call that was told something else, and what; or why there is no keeper.
#[derive(Clone, Copy, Debug, PartialEq)]
pub(crate) struct Wrong {
    at: usize,
    told: Told,
}

// A keeper of a store.
fn keeper_of<R: Threads, D: Disk + Drop>(
    rt: &R,
    alloc: Global,
    store: Store<D>,
) -> Result<Keeper<D>, Refusal>
    requires { is_calm store ≡ true }
{
    match Keeper::new(rt, alloc, store, None) {
        Ok(keeper) => Ok(keeper),
        Err((_, _)) => Err(Refusal::OutOfMemory),
    }
}

// A keeper of a new store of this network.
pub(crate) fn keeper<R: Threads>(
    rt: &R,
    alloc: Global,
    network: &Network,
    journal_pages: u32,
) -> Result<Keeper<MemDisk>, Refusal>
    requires some { 1 ≤ journal_pages }
    requires few { journal_pages ≤ 65536 }
{
    match create(alloc, MemDisk::new(alloc), network, journal_pages) {
        Ok(store) => keeper_of(rt, alloc, store),
        Err((refusal, _)) => Err(refusal),
    }
}

// A keeper of a new store of the network of the worked rows.
pub(crate) fn keeper_of_six<R: Threads>(
    rt: &R,
    alloc: Global,
    journal_pages: u32,
) -> Result<Keeper<MemDisk>, Refusal>
    requires some { 1 ≤ journal_pages }
    requires few { journal_pages ≤ 65536 }
{
    let network = six(alloc)?;
    keeper(rt, alloc, &network, journal_pages)
}

// A keeper of what this disk has.
pub(crate) fn reopened<R: Threads, D: Disk + Drop>(
    rt: &R,
    alloc: Global,
    disk: D,
) -> Result<Keeper<D>, Refusal> {
    match open(alloc, disk) {
        Ok(store) => keeper_of(rt, alloc, store),
        Err((refusal, _)) => Err(refusal),
    }
}

// A share of a view.
fn shared(alloc: Global, view: View) -> Result<Arc<View>, Refusal> {
    match Arc::new(alloc, view) {
        Ok(shared) => Ok(shared),
        Err(_) => Err(Refusal::OutOfMemory),
    }
}

// A view of this network.
fn view(alloc: Global, version: u64, network: &Network) -> Result<Arc<View>, Refusal> {
    let network = SharedNetwork::of(alloc, network)?;
    let view = View::build(alloc, version, network, None, &Solo)?;
    shared(alloc, view)
}

fn number(told: Result<u64, Refusal>) -> Told {
    match told {
        Ok(number) => Told::Number(number),
        Err(refusal) => Told::Refused(refusal),
    }
}

fn submit<D: Disk>(keeper: &mut Keeper<D>, command: Command) -> Told {
    match keeper.submit(command) {
        Ok(ticket) => Told::Number(ticket.number),
        Err(refusal) => Told::Refused(refusal),
    }
}

fn fill<D: Disk>(keeper: &mut Keeper<D>, count: u64, command: Command) -> Told {
    let mut told = Told::Nothing;
    for _ in 0..count {
        told = submit(keeper, command);
        if let Told::Refused(_) = told {
            return told;
        }
    }
    told
}

fn step<D: Disk>(keeper: &mut Keeper<D>) -> Told {
    match keeper.checkpoint_step(64) {
        Ok(Part::Done(version)) => Told::Number(version),
        Ok(Part::Going) => Told::Nothing,
        Err(refusal) => Told::Refused(refusal),
    }
}

// What is answered where a view is published.
fn published<D: Disk>(keeper: &mut Keeper<D>, view: Arc<View>) -> Result<u64, Refusal> {
    match keeper.publish(view) {
        Ok(version) => Ok(version),
        Err((refusal, _)) => Err(refusal),
    }
}

// The view is published, and it is known before what is told.
fn publish<D: Disk>(keeper: &mut Keeper<D>, view: Arc<View>) -> Told {
    let may = keeper.may_publish(&view);
    let answer = published(keeper, view);
    if may.err() == answer.err() {
        number(answer)
    } else {
        Told::Nothing
    }
}

// A view that was made is published.
fn publish_made<D: Disk>(keeper: &mut Keeper<D>, view: Result<Arc<View>, Refusal>) -> Told {
    match view {
        Ok(view) => publish(keeper, view),
        Err(refusal) => Told::Refused(refusal),
    }
}

// The view of a task.
fn view_of(alloc: Global, task: &Task) -> Result<Arc<View>, Refusal> {
    view(alloc, task.version, &task.network)
}

fn show<D: Disk>(alloc: Global, keeper: &mut Keeper<D>) -> Told {
    match keeper.take_task() {
        Ok(Some(task)) => publish_made(keeper, view_of(alloc, &task)),
        Ok(None) => Told::Nothing,
        Err(_) => Told::Refused(Refusal::OutOfMemory),
    }
}

fn ask<R: Threads, D: Disk>(rt: &R, keeper: &mut Keeper<D>, query: Query) -> Told {
    match keeper.ask(rt, query) {
        Ok(answer) => Told::Reply(answer.version, answer.reply),
        Err(_) => Told::Refused(Refusal::OutOfMemory),
    }
}

// What the keeper tells at a call.
fn reply_to<R: Threads, D: Disk>(
    rt: &R,
    alloc: Global,
    keeper: &mut Keeper<D>,
    call: Call,
) -> Told {
    match call {
        Call::Submit(command) => submit(keeper, command),
        Call::Fill(count, command) => fill(keeper, count, command),
        Call::Flush => number(keeper.flush()),
        Call::Step => step(keeper),
        Call::Show => show(alloc, keeper),
        Call::Dist(source, target) => ask(rt, keeper, Query::Dist { source, target }),
        Call::Lower(source, target) => ask(rt, keeper, Query::Lower { source, target }),
        Call::Pending => Told::Number(keeper.pending()),
        Call::Durable => Told::Number(keeper.durable()),
        Call::Shown => Told::Number(keeper.shown()),
    }
}

// Makes these calls in turn, up to the first that is told something else.
pub(crate) fn plays<R: Threads, D: Disk>(
    rt: &R,
    alloc: Global,
    keeper: &mut Keeper<D>,
    table: &[(Call, Told)],
) -> Result<(), Wrong> {
    for at in 0..table.len() {
        let (call, want) = table[at];
        let told = reply_to(rt, alloc, keeper, call);
        if told != want {
            return Err(Wrong { at, told });
        }
    }
    Ok(())
}

// The keeper, once it was told what the table says.
fn played<R: Threads, D: Disk + Drop>(
    rt: &R,
    alloc: Global,
    keeper: Result<Keeper<D>, Refusal>,
    table: &[(Call, Told)],
) -> Result<Keeper<D>, Wrong> {
    let mut keeper = match keeper {
        Ok(keeper) => keeper,
        Err(refusal) => {
            return Err(Wrong {
                at: 0,
                told: Told::Refused(refusal),
            });
        }
    };
    plays(rt, alloc, &mut keeper, table)?;
    Ok(keeper)
}

// The same, and the keeper is let go.
pub(crate) fn plays_on<R: Threads, D: Disk + Drop>(
    rt: &R,
    alloc: Global,
    keeper: Result<Keeper<D>, Refusal>,
    table: &[(Call, Told)],
) -> Result<(), Wrong> {
    let _ = played(rt, alloc, keeper, table)?;
    Ok(())
}

// A keeper of what the disk of this one has, once it is closed.
fn opened_again<R: Threads, D: Disk + Drop>(
    rt: &R,
    alloc: Global,
    keeper: Keeper<D>,
) -> Result<Keeper<D>, Refusal> {
    let (_, disk) = keeper.close();
    reopened(rt, alloc, disk)
}

// The keeper of a disk that was closed once the table was told, and opened again, once it was told what is left.
pub(crate) fn plays_and_opens<R: Threads, D: Disk + Drop>(
    rt: &R,
    alloc: Global,
    keeper: Result<Keeper<D>, Refusal>,
    table: &[(Call, Told)],
    left: &[(Call, Told)],
) -> Result<Keeper<D>, Wrong> {
    let keeper = played(rt, alloc, keeper, table)?;
    played(rt, alloc, opened_again(rt, alloc, keeper), left)
}

pub(crate) fn plays_on_six<R: Threads>(
    rt: &R,
    alloc: Global,
    table: &[(Call, Told)],
) -> Result<(), Wrong> {
    plays_on(rt, alloc, keeper_of_six(rt, alloc, 64), table)
}
