ghost use Rattle.std.specs.Prelude.{IfOk, IfSome};
ghost use Rattle.machine.specs.Calls.{IsTicketOf};

use crate::playing::{
    Call, Told, Wrong, keeper_of_six, plays, plays_and_opens, plays_on, plays_on_six, reopened,
};
use disk::{Disk, FailOnce, MemDisk, Pick, Stoppable};
use keeper::Keeper;
use machine::{Receipt, Ticket};
use roadnet::{Command, Refusal};
use rows::Reply;
use std::alloc::Global;
use std::thread::Threads;

const CLOSE: Command = Command::Close { arc: 7 };

const OPEN: Command = Command::Reopen { arc: 7 };

const SHORTER: Command = Command::Set { arc: 8, length: 4 };

// It leaves the network as it is.
const SAME: Command = Command::Set { arc: 1, length: 17 };
// A ticket of this life.
fn submitted<D: Disk>(keeper: &mut Keeper<D>, command: Command) -> Result<Ticket, Refusal>
    ensures { IfOk result (IsTicketOf keeper.new.machine) }
{
    keeper.submit(command)
}

// A flush, and the receipt for a ticket behind it.
fn flushed<D: Disk>(
    keeper: &mut Keeper<D>,
    ticket: Ticket,
) -> (Result<u64, Refusal>, Result<Receipt, Refusal>)
    requires { IsTicketOf keeper.old.machine ticket }
{
    let answer = keeper.flush();
    match keeper.receipt(ticket) {
        Ok(receipt) => (answer, Ok(receipt)),
        Err((refusal, _)) => (answer, Err(refusal)),
    }
}

// Why there is no receipt for a ticket, and the ticket, which is handed back; none where there is a receipt.
fn not_yet<D: Disk>(keeper: &Keeper<D>, ticket: Ticket) -> Option<(Refusal, Ticket)>
    requires { IsTicketOf keeper.now.machine ticket }
    ensures { IfSome result (λ told. IsTicketOf keeper.now.machine told.1) }
{
    match keeper.receipt(ticket) {
        Ok(_receipt) => None,
        Err(told) => Some(told),
    }
}

// What is told at a submit: why there is no receipt before a flush, of the flush, and of the receipt behind it.
type Received = (Refusal, Result<u64, Refusal>, Result<Receipt, Refusal>);

fn received<D: Disk>(keeper: &mut Keeper<D>, command: Command) -> Result<Received, Refusal> {
    let ticket = submitted(keeper, command)?;
    let Some((refusal, ticket)) = not_yet(keeper, ticket) else {
        return Err(Refusal::Broken);
    };
    let (answer, behind) = flushed(keeper, ticket);
    Ok((refusal, answer, behind))
}

// A closed arc lengthens, a shorter one shortens, and bounds are those of landmarks.
const CLOSED_AND_SHORTER: [(Call, Told); 17] = [
    (Call::Submit(CLOSE), Told::Number(1)),
    (Call::Submit(CLOSE), Told::Refused(Refusal::AlreadyClosed)),
    (Call::Flush, Told::Number(1)),
    (Call::Flush, Told::Refused(Refusal::NothingPending)),
    (Call::Dist(1, 6), Told::Reply(0, Reply::Length(15))),
    (Call::Show, Told::Number(1)),
    (Call::Dist(1, 6), Told::Reply(1, Reply::Length(22))),
    (Call::Submit(SHORTER), Told::Number(2)),
    (Call::Flush, Told::Number(2)),
    (Call::Show, Told::Number(2)),
    (Call::Dist(1, 6), Told::Reply(2, Reply::Length(14))),
    (Call::Submit(Command::Mark { node: 1 }), Told::Number(3)),
    (Call::Flush, Told::Number(3)),
    (Call::Lower(1, 6), Told::Reply(2, Reply::AtLeast(0))),
    (Call::Step, Told::Number(3)),
    (Call::Show, Told::Number(3)),
    (Call::Lower(1, 6), Told::Reply(3, Reply::AtLeast(14))),
];

// A page has 253 commands, and 4,096 may be pending.
const FULL: [(Call, Told); 6] = [
    (Call::Fill(4096, SAME), Told::Number(4096)),
    (Call::Submit(OPEN), Told::Refused(Refusal::QueueFull)),
    (Call::Flush, Told::Number(253)),
    (Call::Pending, Told::Number(3843)),
    (Call::Durable, Told::Number(253)),
    (Call::Shown, Told::Number(0)),
];

const PLAYS: [&[(Call, Told)]; 2] = [&CLOSED_AND_SHORTER, &FULL];

#[test]
fn plays_on_the_six_node_network(rt: HostRuntime) {
    for table in PLAYS {
        let told = plays_on_six(&rt, rt.alloc(), table);
        assert!(rt; told.is_ok(), "{told:?}");
    }
}

// A keeper whose first flush fails at its second sync. Opening makes nine calls of the disk; the flush reads the gate, writes the body,
// syncs, opens the gate, and then its second sync fails.
fn failing<R: Threads>(rt: &R, alloc: Global) -> Result<Keeper<FailOnce<MemDisk>>, Refusal> {
    let keeper = keeper_of_six(rt, alloc, 64)?;
    reopened(rt, alloc, FailOnce::new(keeper.close().1, 9 + 5))
}

// What is told where a flush fails: why there is no receipt before it, its answer, and why there is none behind it.
fn refused<D: Disk>(
    keeper: &mut Keeper<D>,
    command: Command,
) -> Result<(Refusal, Result<u64, Refusal>, Option<Refusal>), Refusal> {
    let (before, answer, behind) = received(keeper, command)?;
    match behind {
        Ok(_) => Ok((before, answer, None)),
        Err(behind) => Ok((before, answer, Some(behind))),
    }
}

// What is told behind it.
const BROKEN: [(Call, Told); 4] = [
    (Call::Submit(CLOSE), Told::Refused(Refusal::Broken)),
    (Call::Flush, Told::Refused(Refusal::Broken)),
    (Call::Step, Told::Refused(Refusal::Broken)),
    (Call::Dist(1, 6), Told::Reply(0, Reply::Length(15))),
];

// Whether a command's flush fails at its sync, and all but queries is refused behind it.
fn breaks<R: Threads, D: Disk>(
    rt: &R,
    alloc: Global,
    keeper: &mut Keeper<D>,
) -> Result<bool, Refusal> {
    let told = refused(keeper, CLOSE)?;
    let wanted = (Refusal::NotYet, Err(Refusal::Device), Some(Refusal::Broken));
    Ok(told == wanted && plays(rt, alloc, keeper, &BROKEN).is_ok())
}

fn breaks_at_a_sync<R: Threads>(rt: &R, alloc: Global) -> Result<bool, Refusal> {
    let mut keeper = failing(rt, alloc)?;
    breaks(rt, alloc, &mut keeper)
}

#[test]
fn sync_fails_once(rt: HostRuntime) {
    assert!(rt; breaks_at_a_sync(&rt, rt.alloc()) == Ok(true));
}

const FAILED: [(Call, Told); 2] = [
    (Call::Submit(CLOSE), Told::Number(1)),
    (Call::Flush, Told::Refused(Refusal::Device)),
];

const FAILED_LEFT: [(Call, Told); 3] = [
    (Call::Pending, Told::Number(0)),
    (Call::Durable, Told::Number(1)),
    (Call::Shown, Told::Number(1)),
];

const FAILED_OPENED: [(Call, Told); 1] = [(Call::Dist(1, 6), Told::Reply(1, Reply::Length(22)))];

// A keeper of what a stop leaves that keeps no byte that was not synced.
fn keeper_of_old<R: Threads>(
    rt: &R,
    alloc: Global,
    keeper: Keeper<FailOnce<MemDisk>>,
) -> Result<Keeper<MemDisk>, Refusal> {
    let (_, disk) = keeper.close();
    let mut disk = disk.into_inner();
    let _ = disk.stop(&[Pick::Old]);
    reopened(rt, alloc, disk)
}

#[test]
fn failed_flush_is_there_when_opened(rt: HostRuntime) -> Result<(), Wrong> {
    let alloc = rt.alloc();
    let keeper = plays_and_opens(&rt, alloc, failing(&rt, alloc), &FAILED, &FAILED_LEFT)?;
    plays_on(
        &rt,
        alloc,
        keeper_of_old(&rt, alloc, keeper),
        &FAILED_OPENED,
    )
}

// Whether there is no receipt for a command before the flush, and one behind it.
fn is_received<D: Disk>(keeper: &mut Keeper<D>, command: Command) -> Result<bool, Refusal> {
    let (before, answer, behind) = received(keeper, command)?;
    let receipt = behind?;
    let told = (before, answer, receipt.number);
    Ok(told == (Refusal::NotYet, Ok(1), 1) && receipt.group.commands() == [command].as_slice())
}

#[test]
fn receipt_behind_a_flush(rt: HostRuntime) {
    let mut keeper = keeper_of_six(&rt, rt.alloc(), 64).expect(&rt, "memory");
    assert!(rt; is_received(&mut keeper, CLOSE) == Ok(true));
}
