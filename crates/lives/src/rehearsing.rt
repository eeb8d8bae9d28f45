// A script's events over lives with stops.
ghost use Rattle.std.specs.Prelude.{◌≡◌, ◌+◌, ◌<◌, ◌≤◌, ◌∷◌, ◌++◌, [], ℕ, true, false, List, None, Some, length, ◌↔◌, IsTrue, IfOk, IfErr, IfSome, OnOk, MatchResult};
ghost use Rattle.std.specs.Option.{ForSome};
ghost use Rattle.std.specs.Vec.{vec_len, vec_capacity};
ghost use Rattle.disk.specs.Contents.{Only, AreAmong};
ghost use Rattle.pagereader.specs.Outcomes.{failures_with, MayEndOpening};
ghost use Rattle.rows.specs.Kept.{IsWidth};
ghost use Rattle.roadnet.specs.declared.refusals.Refusal.TheVariants.{OutOfMemory as out_of_memory, Device as device};
ghost use Rattle.store.specs.State.{CameTidy, is_calm};
ghost use Rattle.store.specs.Opening.{IsPassing, IsStoreFile};
ghost use Rattle.machine.specs.declared.events.Event.TheVariants.{Stop};
ghost use Rattle.machine.specs.declared.events.Replied.TheVariants.{Refused};
ghost use Rattle.lives.specs.Cutting.{IsCut, picks_taken, HaveCut, stops_by};
ghost use Rattle.lives.specs.Failures.{EndsAsTold};
ghost use Rattle.lives.specs.Rehearsing.{first_of};
ghost use Rattle.lives.specs.Running.{width_of, LeavesDurable, HasLivedTo, HasToldForGood, IsToldOrFailed, IsTidy, IsReady, GoesOrEnds, OfEachWithin, Takes};
ghost use Rattle.lives.specs.Running.{Leaves, IsHaltedBy, OfEachHalted, MayResume, OpensAfter, GoesOnBehind, EndsBehind, TellsStop, FailsAtEnd};

use crate::halted::Halted;
use crate::lives::Life;
use disk::{Disk, Pick, Stoppable};
use machine::{Event, Replied, Writing};
use roadnet::{Group, Refusal};
use rows::Ran;
use std::alloc::Global;
use std::thread::Threads;
use store::{Store, open};

/// The most replies to an event.
const MOST_REPLIES: usize = 2;

/// The result of a run of a script's events.
#[derive(Drop)]
pub struct Rehearsal<D: Disk> {
    /// The groups that were accepted and that no stop took back, in order. They follow the version of the store that was handed in. If the run ended with a
    /// stop, they are those that were durable.
    pub history: Vec<Group>,
    /// The replies to the events that were run, in order.
    pub replies: Vec<Replied>,
    /// Why the run ended before its last event was run: the store was not opened, or its first view not built (43 or 11), or there was no memory (11).
    /// Nothing if every event was run.
    pub ended: Option<Refusal>,
    /// The disk, as the run left it.
    pub disk: D,
    // The width of the buckets that each view was built with, if one was given.
    delta: Option<u32>,
}

impl<D: Disk> Ran for Rehearsal<D> {
    ghost width_given = { λ run. run.delta };

    ghost workers_given = { λ run. None };

    fn width(&self) -> Option<u32> {
        self.delta
    }

    fn workers(&self) -> Option<u32> {
        None
    }
}

/// A run in progress.
#[derive(Drop)]
struct Run<D: Stoppable> {
    /// The groups that earlier lives accepted and no stop took back. There is room for those of this life too.
    history: Vec<Group>,
    /// The replies so far.
    replies: Vec<Replied>,
    life: Life<D>,
}

/// Appends groups to a history that has room for them.
fn put_behind(history: &mut Vec<Group>, groups: Vec<Group>)
    requires { vec_len history.old + vec_len groups ≤ vec_capacity history.old }
    ensures { history.new.items ≡ history.old.items ++ groups.items }
{
    let mut groups = groups;
    let _ = history.append(&mut groups);
}

/// Stops the disk with these picks, or with the old bytes if there are none. Returns whether an armed call came.
fn stop_disk<D: Stoppable>(disk: &mut D, picks: &[Pick]) -> bool
    ensures left { D.honest disk.old → D.left disk.old (D.content disk.new) }
    ensures only { D.honest disk.old → Only (D.content disk.new) (D.left disk.new) }
    ensures honest { D.honest disk.old → D.honest disk.new }
    ensures failures { D.failures disk.new ≡ D.failures disk.old }
    ensures came { IsTrue result ↔ (D.armed disk.old ≡ Some 0) }
    ensures cut { D.honest disk.old → IsCut D.Disk (stops_by D.synced D.is_unsynced D.armed) (picks_taken picks.now) disk.old (D.content disk.new) }
{
    if picks.is_empty() {
        disk.stop(&[Pick::Old])
    } else {
        disk.stop(picks)
    }
}

/// Adds the reply to an event that writes, unless the stop came within it.
fn tell_write(replies: &mut Vec<Replied>, came: bool, written: Replied)
    requires { vec_len replies.old < vec_capacity replies.old }
    ensures told { IsToldOrFailed replies.old.items written replies.new.items }
    ensures behind { came ≡ false → replies.new.items ≡ replies.old.items ++ written ∷ [] }
    ensures within { came ≡ true → written ≡ Refused device → replies.new.items ≡ replies.old.items }
    ensures room { vec_len replies.new ≤ vec_len replies.old + 1 }
    ensures capacity { vec_capacity replies.new ≡ vec_capacity replies.old }
{
    match written {
        Replied::Refused {
            refusal: Refusal::Device,
        } if came => {}
        _ => replies.push_reserved(written),
    }
}

/// Opens the store that was stopped on this disk, and begins a life with it. The disk is handed back if the store is not opened, or its first view is not
/// built.
fn reopen<R: Threads, D: Stoppable>(
    rt: &R,
    alloc: Global,
    disk: D,
    delta: Option<u32>,
) -> Result<Life<D>, (Refusal, D)>
    requires width { ForSome delta IsWidth }
    ensures begins { OpensAfter disk result }
    ensures empty { IfOk result (λ life. life.keeper.machine.accepted ≡ []) }
    ensures content { D.honest disk → IfOk result (λ life. D.content life.keeper.disk ≡ D.content disk) }
    ensures delta { IfOk result (λ life. life.delta ≡ delta) }
    ensures causes { IfErr result (λ refused. MayEndOpening refused.0) }
    ensures honest { D.honest disk → IfErr result (λ refused. D.honest refused.1) }
    ensures passing { D.honest disk → ((c : List ℕ) → D.left disk c → IsStoreFile c) → IfErr result (λ refused. IsPassing refused.0) }
    ensures among { D.honest disk → IfErr result (λ refused. AreAmong (D.left refused.1) (D.left disk)) }
    // The count of failures rises by one if 43 is reported, and otherwise not at all.
    ensures counted { MatchResult result (λ life. D.failures life.keeper.disk ≡ D.failures disk)
        (λ why. D.failures why.1 ≡ failures_with why.0 (D.failures disk)) }
{
    let store = open(alloc, disk)?;
    match Life::begin(rt, alloc, store, delta) {
        Ok(life) => Ok(life),
        Err(store) => Err((Refusal::OutOfMemory, store.close())),
    }
}

impl<D: Stoppable> Halted<D> {
    /// Opens what the stop left, and begins the next life. If the store is not opened or its first view is not built, it ends the run.
    fn resume<R: Threads>(self, rt: &R, alloc: Global) -> Result<Run<D>, Rehearsal<D>>
        requires { MayResume self }
        ensures goes { GoesOrEnds self.delta (D.honest self.disk) result }
        ensures resumes { OfEachHalted self (λ m. MatchResult result (GoesOnBehind m self) (EndsBehind m self)) }
        ensures told { TellsStop self.replies.items result }
        ensures counted { FailsAtEnd self.disk result }
    {
        let Halted {
            mut history,
            mut replies,
            mut groups,
            opened,
            durable,
            disk,
            delta,
        } = self;
        match reopen(rt, alloc, disk, delta) {
            Ok(life) => {
                let kept = (life.opened.saturating_sub(opened) as usize).min(groups.len());
                groups.truncate(kept);
                put_behind(&mut history, groups);
                replies.push_reserved(Replied::Opened {
                    version: life.opened,
                });
                Ok(Run {
                    history,
                    replies,
                    life,
                })
            }
            Err((refusal, disk)) => {
                let kept = (durable - opened) as usize;
                groups.truncate(kept);
                put_behind(&mut history, groups);
                replies.push_reserved(Replied::Stopped);
                Err(Rehearsal {
                    history,
                    replies,
                    ended: Some(refusal),
                    disk,
                    delta,
                })
            }
        }
    }
}

impl<D: Stoppable> Run<D> {
    /// Makes room for the replies of one event, and for what the history may need.
    fn grow(&mut self) -> Result<(), Refusal>
        ensures history { self.new.history.items ≡ self.old.history.items }
        ensures replies { self.new.replies.items ≡ self.old.replies.items }
        ensures life { self.new.life ≡ self.old.life }
        ensures ready { OnOk result (IsReady self.new) }
        ensures kept { vec_capacity self.old.history ≤ vec_capacity self.new.history }
        ensures refused { IfErr result (λ refusal. refusal ≡ out_of_memory) }
    {
        let Ok(()) = self.replies.reserve(MOST_REPLIES) else {
            return Err(Refusal::OutOfMemory);
        };
        let Ok(()) = self.history.reserve(self.life.accepted() + 1) else {
            return Err(Refusal::OutOfMemory);
        };
        Ok(())
    }

    /// Closes the keeper and stops the disk. Returns whether an armed call came.
    fn halt(self, picks: &[Pick]) -> (Halted<D>, bool)
        ensures leaves { Leaves self result.0 }
        ensures halted { IsTidy self → IsHaltedBy (picks_taken picks.now) self result.0 }
        ensures came { IsTrue result.1 ↔ (D.armed self.life.keeper.disk ≡ Some 0) }
    {
        let Run {
            history,
            replies,
            life,
        } = self;
        let Life {
            keeper,
            opened,
            delta,
            ..
        } = life;
        let durable = keeper.durable();
        let (groups, mut disk) = keeper.close();
        let came = stop_disk(&mut disk, picks);
        let halted = Halted {
            history,
            replies,
            groups,
            opened,
            durable,
            disk,
            delta,
        };
        (halted, came)
    }

    /// A stop between two calls.
    fn stop<R: Threads>(self, rt: &R, alloc: Global) -> Result<Run<D>, Rehearsal<D>>
        requires { IsReady self }
        ensures goes { GoesOrEnds self.life.delta (IsTidy self) result }
        ensures takes { Takes Stop self result }
    {
        let (halted, _) = self.halt(&[Pick::Old]);
        halted.resume(rt, alloc)
    }

    /// A stop within the write or sync of this number of an event that writes; or after the event, if it makes fewer.
    fn stop_within<R: Threads>(
        self,
        rt: &R,
        alloc: Global,
        call: u64,
        picks: &[Pick],
        writing: Writing,
    ) -> Result<Run<D>, Rehearsal<D>>
        requires { IsReady self }
        ensures goes { GoesOrEnds self.life.delta (IsTidy self) result }
        ensures takes { OfEachWithin writing call picks.now (λ event. Takes event self result) }
    {
        let mut run = self;
        run.life.arm(call);
        // What the armed disk holds.
        run.life.keeper.holds_durable();
        let written = run.life.write(writing);
        let (mut halted, came) = run.halt(picks);
        tell_write(&mut halted.replies, came, written);
        halted.resume(rt, alloc)
    }

    /// Runs an event.
    fn next<R: Threads>(
        self,
        rt: &R,
        alloc: Global,
        event: &Event<Pick>,
    ) -> Result<Run<D>, Rehearsal<D>>
        requires { IsReady self }
        ensures goes { GoesOrEnds self.life.delta (IsTidy self) result }
        ensures takes { Takes event.now self result }
    {
        match event {
            Event::Stop => self.stop(rt, alloc),
            Event::StopWithin {
                call,
                picks,
                writing,
            } => self.stop_within(rt, alloc, *call, picks, *writing),
            _ => {
                let mut run = self;
                let told = run.life.reply(rt, alloc, event);
                run.replies.push_reserved(told);
                Ok(run)
            }
        }
    }

    /// Ends the run, before an event or after the last.
    fn end(self, ended: Option<Refusal>) -> Rehearsal<D>
        requires room { vec_len self.history + length self.life.keeper.machine.accepted ≤ vec_capacity self.history }
        ensures history { result.history.items ≡ self.history.items ++ self.life.keeper.machine.accepted }
        ensures replies { result.replies ≡ self.replies }
        ensures ended { result.ended ≡ ended }
        ensures disk { result.disk ≡ self.life.keeper.disk }
        ensures left { IsTidy self → LeavesDurable D.left self.life.keeper.disk self.life.keeper.machine }
        ensures honest { IsTidy self → D.honest self.life.keeper.disk }
        ensures delta { result.delta ≡ self.life.delta }
    {
        let Run {
            mut history,
            replies,
            life,
        } = self;
        let delta = life.delta;
        let (groups, disk) = life.keeper.close();
        put_behind(&mut history, groups);
        Rehearsal {
            history,
            replies,
            ended,
            disk,
            delta,
        }
    }
}

/// Runs a script's events over lives with stops, on a store that is not broken. It really drives the disk: for a stop within an event it arms the disk
/// before the event, and each stop cuts the disk by its picks and opens what is left. `delta`, 1 to 2147483647, is the width of the buckets of each view's
/// searches. If none is given, it is the network's default. A stop within a call of number 0 arms nothing, so it comes after its event. A stop without
/// picks takes the old bytes.
///
/// Each event has one reply, and a stop that comes after its event has a second one. A stop loses the view that was set aside and all pending groups. The
/// run ends before an event for lack of memory (11), or with a stop after which the store is not opened or its first view is not built (43 or 11).
///
/// On a new store of `examples/six.gr`, the group of `Close { arc: 7 }` and a flush that is cut at its third write or sync have the replies `Accepted {
/// number: 1 }` and, if the picks are old, `Opened { version: 0 }`, or, if they are new, `Opened { version: 1 }`. Then the history has no group, or that
/// one.
pub fn rehearse<R: Threads, D: Stoppable>(
    rt: &R,
    alloc: Global,
    store: Store<D>,
    delta: Option<u32>,
    events: &[Event<Pick>],
) -> Rehearsal<D>
    requires calm { is_calm store ≡ true }
    requires width { ForSome delta IsWidth }
    // The run is one of the lives of the store's network and version, and what a stop now leaves on the disk agrees with its last state.
    ensures lives { CameTidy D.honest D.content store.given → HasLivedTo D.left (first_of store) events.now result }
    // Each content that a stop leaves stands for the network after a front of the accepted groups, in which each acknowledged one has its number. Each
    // answered query names a version up to that, and is right in that version's network.
    ensures told { CameTidy D.honest D.content store.given → HasToldForGood D.left (first_of store) events.now result }
    // Each stop of the events that were run cut a disk that held what the run's state allows there, by its picks: the i-th unsynced byte, ascending, took
    // pick i mod n. What it left stands for the network at the version in the stop's own reply. Before an event with a stop within, the call that it names
    // was armed, on a disk that held what the state allows there. The armed call has come if there is no reply but the stop's own, and has not come if the
    // event's own reply is 43.
    ensures cut { CameTidy D.honest D.content store.given
        → HaveCut D.Disk (stops_by D.synced D.is_unsynced D.armed) (first_of store) events.now result.replies.items result.ended }
    // The disk that is handed back keeps the disk model.
    ensures honest { CameTidy D.honest D.content store.given → D.honest result.disk }
    // Whatever the disk, it ends early only with a refusal of an opening: 11, or 40 to 43.
    ensures causes { IfSome result.ended MayEndOpening }
    // The width that was given is returned.
    ensures width { width_of result ≡ delta }
    // On any disk its count of failures rises by one for each failure that the replies report, with 43 or by a stop that came within an event, and by one
    // more if the run ended with 43, because the disk failed after the last stop. A stop leaves the count as it is.
    ensures failed { EndsAsTold events.now result.replies.items result.ended (D.failures store.disk) (D.failures result.disk) }
{
    let life = match Life::begin(rt, alloc, store, delta) {
        Ok(life) => life,
        Err(store) => {
            return Rehearsal {
                history: Vec::new(alloc),
                replies: Vec::new(alloc),
                ended: Some(Refusal::OutOfMemory),
                disk: store.close(),
                delta,
            };
        }
    };
    let mut run = Run {
        history: Vec::new(alloc),
        replies: Vec::new(alloc),
        life,
    };
    for event in events {
        if run.grow().is_err() {
            return run.end(Some(Refusal::OutOfMemory));
        }
        run = match run.next(rt, alloc, event) {
            Ok(run) => run,
            Err(rehearsal) => return rehearsal,
        };
    }
    run.end(None)
}
