// The groups of a text, applied to a store.
ghost use Rattle.std.specs.Prelude.{◌≡◌, ◌⊎◌, ◌+◌, ◌≤◌, ◌<◌, ◌↔◌, [], false, length, take, vec_capacity};
ghost use Rattle.std.specs.Prelude.{OnOk, IfOk, IfErr, IfSome, MatchResult};
ghost use Rattle.std.specs.Bool.{Decides};
ghost use Rattle.dimacs.specs.Calling.{KeepsText};
ghost use Rattle.disk.specs.Moments.{StaysSame};
ghost use Rattle.pagereader.specs.Outcomes.{failures_with};
ghost use Rattle.roadnet.specs.declared.refusals.Refusal.TheVariants.{OutOfMemory as out_of_memory};
ghost use Rattle.keeper.specs.Keeping.{Holds};
ghost use Rattle.machine.specs.Machine.{pending};
ghost use Rattle.store.specs.State.{CameTidy};
ghost use Rattle.printing.specs.Counting.{writer_of};
ghost use Rattle.printing.specs.Failing.{CountsReads};
ghost use Rattle.printing.specs.Writers.{KeepsWriter, OnlyWriterFails};
ghost use Rattle.storetexts.specs.Applied.{ForTidy, IsApplied, IsCutOff, AreGroupsTold, StandsForBeginningOfText, AtAnyMoment, IsRefusedApply, IfTextOrFileRefused};
ghost use Rattle.storetexts.specs.Applying.{IsReady, IsIdle, IsNew, GroupsTaken, ForNewLedger, IfTold, LinesTold};
ghost use Rattle.storetexts.specs.Applying.{progress, TakesGroup, KeepsGroups, GroupsTakenSince, FirstGroupsTakenSince, OutcomesSettled};
ghost use Rattle.storetexts.specs.Applying.{LinesFollow, OutcomesTold, Goes, Saves, Advances, AppliesGroups};
ghost use Rattle.store.specs.Opening.{HeaderFits, IsPassing};
ghost use Rattle.storetexts.specs.Asked.{OfStore, IsStoreUnopened};
ghost use Rattle.storetexts.specs.Outcomes.{IsGroupSettled, IsUnsettledAt};
ghost use Rattle.storetexts.specs.Refused.{ComesBack, CountsDevice, IfNoMemory, IsOfStore};

use crate::outcomes::{Outcome, reply_of};
use crate::refusals::{HearsRefusals, refused_place};
use dimacs::{Text, read_commands};
use disk::Disk;
use keeper::Ledger;
use pages::MOST_COMMANDS;
use printing::{CountedWriter, Failed, of_text, put_reply};
use roadnet::{Group, Refusal};
use std::alloc::Global;
use std::io::Write;
use store::open;

const COMMANDS: u8 = 0;

/// With this many pending commands they are made durable: as many as a page of the journal holds at most.
const MOST_OF_PAGE: u64 = MOST_COMMANDS as u64;

/// At the end they are made durable while any are pending.
const ANY: u64 = 1;

/// Groups that are being applied, one after the other: the ledger of the store, the outcomes of the groups, in order, and how many of these are reported.
#[derive(Drop)]
struct Applying<D: Disk> {
    ledger: Ledger<D>,
    outcomes: Vec<Outcome>,
    told: usize,
}

impl<D: Disk> Applying<D> {
    /// Submits a copy of the next group, and notes the outcome.
    fn take(&mut self, group: &Group)
        requires ready { IsReady self.old.ledger.machine }
        requires few { pending self.old.ledger.machine < 253 }
        requires room { length self.old.outcomes.items < vec_capacity self.old.outcomes }
        ensures goes { Goes D.Disk self.old self.new }
        ensures calm { self.new.ledger.machine.broken ≡ false }
        ensures come { TakesGroup group.now (progress self.old) (progress self.new) }
        ensures waiting { pending self.new.ledger.machine ≤ 505 }
        ensures noted { length self.new.outcomes.items ≡ length self.old.outcomes.items + 1 }
        ensures told { self.new.told ≡ self.old.told }
        ensures first { self.old.told ≤ length self.old.outcomes.items →
            take self.old.told self.new.outcomes.items ≡ take self.old.told self.old.outcomes.items }
        ensures disk { self.new.ledger.disk ≡ self.old.ledger.disk }
    {
        let _size = group.commands().len();
        let outcome = match self.ledger.submit_copy(group) {
            Ok(number) => Outcome::Accepted { number },
            Err(refusal) => Outcome::Refused { refusal },
        };
        self.outcomes.push_reserved(outcome);
    }

    /// A whole checkpoint.
    fn checkpoint(&mut self) -> Result<(), Refusal>
        requires ready { IsReady self.old.ledger.machine }
        ensures saves { Saves D.Disk result self.old self.new }
        ensures pending { pending self.new.ledger.machine ≡ pending self.old.ledger.machine }
        ensures free { OnOk result (self.new.ledger.machine.unchecked ≡ 0) }
        ensures refused { IfErr result IsPassing }
    {
        self.ledger.checkpoint()?;
        Ok(())
    }

    /// A checkpoint, and then a flush of the first pending groups, of which there are some.
    fn flush_anew(&mut self) -> Result<(), Refusal>
        requires ready { IsReady self.old.ledger.machine }
        requires some { 1 ≤ pending self.old.ledger.machine }
        ensures saves { Saves D.Disk result self.old self.new }
        ensures fewer { OnOk result (pending self.new.ledger.machine < pending self.old.ledger.machine) }
        ensures refused { IfErr result IsPassing }
    {
        self.checkpoint()?;
        self.ledger.flush()?;
        Ok(())
    }

    /// Makes the first pending groups durable, of which there are some. If the journal is full, writes a checkpoint first.
    fn flush(&mut self) -> Result<(), Refusal>
        requires ready { IsReady self.old.ledger.machine }
        requires some { 1 ≤ pending self.old.ledger.machine }
        ensures saves { Saves D.Disk result self.old self.new }
        ensures fewer { OnOk result (pending self.new.ledger.machine < pending self.old.ledger.machine) }
        ensures refused { IfErr result IsPassing }
    {
        match self.ledger.flush() {
            Ok(_) => Ok(()),
            Err(Refusal::JournalFull) => self.flush_anew(),
            Err(refusal) => Err(refusal),
        }
    }

    /// Flushes while at least so many commands are pending.
    fn flush_below(&mut self, limit: u64) -> Result<(), Refusal>
        requires ready { IsReady self.old.ledger.machine }
        requires some { 1 ≤ limit }
        ensures saves { Saves D.Disk result self.old self.new }
        ensures done { OnOk result (pending self.new.ledger.machine < limit) }
        ensures refused { IfErr result IsPassing }
    {
        'pages: while self.ledger.pending() >= limit {
            self.flush()?;
        }
        Ok(())
    }

    /// Whether the outcome may be reported: the group is durable, or was refused.
    fn is_settled(&self, outcome: &Outcome) -> bool
        ensures { Decides result (IsGroupSettled self.now.ledger.machine.durable outcome.now) }
    {
        match outcome {
            Outcome::Accepted { number } => *number <= self.ledger.durable(),
            Outcome::Refused { refusal: _ } => true,
        }
    }

    /// Writes a line for each outcome that is not reported yet, up to the first group that is not durable.
    fn tell<W: Write>(&mut self, out: &mut CountedWriter<'_, W>) -> Result<(), Failed>
        requires { self.old.told ≤ length self.old.outcomes.items }
        ensures ledger { self.new.ledger ≡ self.old.ledger }
        ensures outcomes { self.new.outcomes ≡ self.old.outcomes }
        ensures told_to { self.new.told ≤ length self.old.outcomes.items }
        ensures settled { OutcomesSettled (progress self.old) self.old.told → OutcomesSettled (progress self.old) self.new.told }
        ensures next { OnOk result (IsUnsettledAt self.old.ledger.machine.durable self.old.outcomes.items self.new.told) }
        ensures lines { OnOk result (LinesFollow (W.contents (writer_of out.old)) (W.contents (writer_of out.new)) (progress self.old) (progress self.new)) }
        ensures puts { OnlyWriterFails result out.old out.new }
    {
        for index in self.told..self.outcomes.len() {
            let outcome = self.outcomes[index];
            if !self.is_settled(&outcome) {
                return Ok(());
            }
            put_reply(out, &reply_of(outcome))?;
            self.told = index + 1;
        }
        Ok(())
    }

    /// Makes groups durable while at least so many commands are pending; then, even if that is refused, reports what may be reported, and sends it.
    fn settle<W: Write>(&mut self, limit: u64, out: &mut CountedWriter<'_, W>) -> Result<(), Failed>
        requires ready { IsReady self.old.ledger.machine }
        requires some { 1 ≤ limit }
        requires few { pending self.old.ledger.machine ≤ 505 }
        requires told_to { self.old.told ≤ length self.old.outcomes.items }
        ensures come { KeepsGroups (progress self.old) (progress self.new) }
        ensures done { OnOk result (pending self.new.ledger.machine < limit) }
        ensures all { OnOk result (pending self.new.ledger.machine ≡ 0 → OutcomesTold (progress self.old) (progress self.new)) }
        ensures lines { IfTold result (LinesFollow (W.contents (writer_of out.old)) (W.contents (writer_of out.new)) (progress self.old) (progress self.new)) }
        ensures outcomes { self.new.outcomes ≡ self.old.outcomes }
        ensures advances { Advances D.Disk result self.old self.new out.old out.new }
    {
        let flushed = self.flush_below(limit);
        self.tell(out)?;
        out.flush()?;
        flushed.map_err(Failed::Code)
    }

    /// Tells for which of its commands the last group is refused, if it is: for the first, if there is no memory to look. So many commands come before it.
    fn hear<H: HearsRefusals>(&self, group: &Group, before: usize, hears: &H) {
        if let Some(Outcome::Refused { refusal }) = self.outcomes.last() {
            let alloc = *self.outcomes.allocator();
            let place = match group.commands().len() {
                1 => 0,
                _ => refused_place(alloc, &self.ledger, group).unwrap_or(0),
            };
            hears.refused(before.saturating_add(place), *refusal);
        }
    }

    /// Takes the next group, before which there were so many commands, and settles what is pending if that fills a page.
    fn advance<H: HearsRefusals, W: Write>(
        &mut self,
        group: &Group,
        before: usize,
        hears: &H,
        out: &mut CountedWriter<'_, W>,
    ) -> Result<(), Failed>
        requires ready { IsReady self.old.ledger.machine }
        requires few { pending self.old.ledger.machine < 253 }
        requires told_to { self.old.told ≤ length self.old.outcomes.items }
        requires room { length self.old.outcomes.items < vec_capacity self.old.outcomes }
        ensures come { TakesGroup group.now (progress self.old) (progress self.new) }
        ensures few { OnOk result (pending self.new.ledger.machine < 253) }
        ensures noted { length self.new.outcomes.items ≡ length self.old.outcomes.items + 1 }
        ensures lines { IfTold result (LinesFollow (W.contents (writer_of out.old)) (W.contents (writer_of out.new)) (progress self.old) (progress self.new)) }
        ensures advances { Advances D.Disk result self.old self.new out.old out.new }
    {
        self.take(group);
        self.hear(group, before, hears);
        if self.ledger.pending() < MOST_OF_PAGE {
            return Ok(());
        }
        self.settle(MOST_OF_PAGE, out)
    }

    /// Takes the groups in their order, and settles what is pending whenever that fills a page.
    fn take_all<H: HearsRefusals, W: Write>(
        &mut self,
        groups: &[Group],
        hears: &H,
        out: &mut CountedWriter<'_, W>,
    ) -> Result<(), Failed>
        requires new { IsNew self.old }
        requires room { length groups.now ≤ vec_capacity self.old.outcomes }
        ensures some { FirstGroupsTakenSince self.old.ledger.machine groups.now (progress self.new) }
        ensures come { OnOk result (GroupsTakenSince self.old.ledger.machine groups.now (progress self.new)) }
        ensures lines { IfTold result (LinesTold (W.contents (writer_of out.old)) (W.contents (writer_of out.new)) self.new.outcomes.items self.new.told) }
        ensures advances { Advances D.Disk result self.old self.new out.old out.new }
    {
        let mut before = 0usize;
        for index in 0..groups.len() {
            self.advance(&groups[index], before, hears, out)?;
            before = before.saturating_add(groups[index].commands().len());
        }
        Ok(())
    }

    /// Takes the groups and settles them all.
    fn run<H: HearsRefusals, W: Write>(
        &mut self,
        groups: &[Group],
        hears: &H,
        out: &mut CountedWriter<'_, W>,
    ) -> Result<(), Failed>
        requires new { IsNew self.old }
        requires room { length groups.now ≤ vec_capacity self.old.outcomes }
        ensures some { FirstGroupsTakenSince self.old.ledger.machine groups.now (progress self.new) }
        ensures come { OnOk result (GroupsTakenSince self.old.ledger.machine groups.now (progress self.new)) }
        ensures done { OnOk result (pending self.new.ledger.machine ≡ 0) }
        ensures lines { IfTold result (LinesTold (W.contents (writer_of out.old)) (W.contents (writer_of out.new)) self.new.outcomes.items self.new.told) }
        ensures all { OnOk result (ForNewLedger self.old.ledger.machine (λ net version. self.new.told ≡ length self.new.outcomes.items)) }
        ensures advances { Advances D.Disk result self.old self.new out.old out.new }
    {
        self.take_all(groups, hears, out)?;
        self.settle(ANY, out)
    }

    /// The disk. No call of it is made.
    fn close(self) -> D
        ensures disk { result ≡ self.ledger.disk }
        ensures honest { CameTidy D.honest D.content self.ledger.given → D.honest self.ledger.disk }
        ensures holds { CameTidy D.honest D.content self.ledger.given → Holds (D.content self.ledger.disk) (D.left self.ledger.disk) self.ledger.machine }
    {
        let Applying {
            ledger,
            outcomes: _,
            told: _,
        } = self;
        let (_, disk) = ledger.close();
        disk
    }
}

/// The ledger of the store on a disk.
fn ledger_on<D: Disk>(alloc: Global, disk: D) -> Result<Ledger<D>, (Refusal, D)>
    ensures idle { IfOk result (λ ledger. IsIdle ledger.machine) }
    ensures begins { ForTidy D.honest D.content disk (λ net version. IfOk result (λ ledger. GroupsTaken net version [] [] 0 ledger.machine)) }
    ensures came { ForTidy D.honest D.content disk (λ net version. IfOk result (λ ledger. CameTidy D.honest D.content ledger.given)) }
    // It is the ledger of a store for which the disk stands, if it keeps the disk model.
    ensures opened { IfOk result (λ ledger. OfStore (D.honest disk) (D.content disk) (λ net version. GroupsTaken net version [] [] 0 ledger.machine)) }
    ensures disk { MatchResult result (λ ledger. ComesBack D.Disk (D.failures disk) disk ledger.disk)
        (λ refused. ComesBack D.Disk (failures_with refused.0 (D.failures disk)) disk refused.1) }
    ensures refused { IfErr result (λ refused. IsStoreUnopened (D.honest disk) (D.content disk) refused.0) }
    ensures order { D.honest disk → IfErr result (λ refused. refused.0 ≡ out_of_memory → HeaderFits (D.content disk)) }
    ensures fits { D.honest disk → OnOk result (HeaderFits (D.content disk)) }
{
    let store = open(alloc, disk)?;
    match Ledger::new(alloc, store) {
        Ok(ledger) => Ok(ledger),
        Err((_, store)) => Err((Refusal::OutOfMemory, store.close())),
    }
}

/// Applies these groups to the store of a ledger that has just begun.
fn apply_groups<D: Disk, H: HearsRefusals, W: Write>(
    alloc: Global,
    ledger: Ledger<D>,
    groups: &[Group],
    hears: &H,
    out: &mut CountedWriter<'_, W>,
) -> (Result<(), Failed>, D)
    requires idle { IsIdle ledger.machine }
    ensures applies { AppliesGroups D.Disk ledger groups.now result.0 result.1 (W.contents (writer_of out.old)) (W.contents (writer_of out.new)) }
    ensures writer { KeepsWriter result.0 out.old out.new }
{
    let outcomes = match Vec::with_capacity(alloc, groups.len()) {
        Ok(outcomes) => outcomes,
        Err(_) => {
            let (_, disk) = ledger.close();
            return (Err(Failed::Code(Refusal::OutOfMemory)), disk);
        }
    };
    let mut applying = Applying {
        ledger,
        outcomes,
        told: 0,
    };
    let ended = applying.run(groups, hears, out);
    (ended, applying.close())
}

/// Applies the groups of commands of a text to the store on a disk, in their order, and writes one line for each group: `ok N` once the group is durable as
/// version N, or `no CODE` if it is refused (20 to 29, 62, 11). `hears` is told for which command of the text a group is refused. The disk is handed back.
///
/// The store is opened first, then the text is read completely, then the groups are applied. While 253 commands or more are pending, groups are made
/// durable, and at the end all of them are. If the journal is full, a checkpoint is written. It takes 24 bytes for the outcome of each group, beside the
/// text's and the ledger's groups. No row is computed.
///
/// It is refused as opening is: for a file that is not a store (40), another format (41), a damaged page (42), a failing disk (43), or lack of memory (11);
/// then for a fault of the text, `which` 0. Then nothing is applied or written. If the disk fails later (43), or there is no memory for a flush or
/// checkpoint (11), the call ends after the lines before the first group that is not durable: no group with a line is lost. A failed write (12) ends it
/// too: then the last groups may be durable without a line, or lost. A failed read is fault 10 of the line being read. It and 12 are reported only if the
/// count of failed calls of the text or of the writer rose. After an `Err` the text and the writer are not used again.
pub fn apply_text<D: Disk, S: Text, H: HearsRefusals, W: Write>(
    alloc: Global,
    disk: D,
    commands: &mut S,
    hears: &H,
    out: &mut CountedWriter<'_, W>,
) -> (Result<(), Failed>, D)
    // If the disk stands, tidy, for this network at this version, everything that a stop may leave stands for that network after the accepted groups, and
    // the lines of all groups are written.
    ensures applied { ForTidy D.honest D.content disk (λ net version. OnOk result.0 (IfSome (S.bytes commands.old)
        (λ text. IsApplied net version text (D.content result.1) (D.left result.1) (W.contents (writer_of out.old)) (W.contents (writer_of out.new))))) }
    // If it ends early, nothing was begun, or nothing that has a line is lost.
    ensures cut_off { ForTidy D.honest D.content disk (λ net version. IfErr result.0 (λ failed. IfSome (S.bytes commands.old)
        (λ text. (StaysSame D.content D.left D.moment D.left_since disk result.1 × (writer_of out.new ≡ writer_of out.old))
        ⊎ IsCutOff net version text (D.left result.1) (W.contents (writer_of out.old)) (W.contents (writer_of out.new)) failed))) }
    // A stop during the call leaves what it might have left before, or what stands for the network after some of the text's accepted groups, from the first
    // on.
    ensures any_moment { ForTidy D.honest D.content disk (λ net version. IfSome (S.bytes commands.old)
        (λ text. AtAnyMoment D.moment D.left_since D.left disk result.1 (StandsForBeginningOfText net version text))) }
    // On any disk: Ok means that a store was opened, and that all groups of the text have their lines.
    ensures told { OnOk result.0 (IfSome (S.bytes commands.old)
        (λ text. AreGroupsTold (D.honest disk) (D.content disk) text (W.contents (writer_of out.old)) (W.contents (writer_of out.new)))) }
    ensures refused { IfErr result.0 (λ failed. IfSome (S.bytes commands.old)
        (λ text. IsRefusedApply (D.honest disk) (D.content disk) text (S.source commands.new) failed)) }
    ensures codes { IfErr result.0 IsOfStore }
    // Lack of memory is reported only if the header fits the file.
    ensures order { D.honest disk → IfErr result.0 (λ failed. IfNoMemory failed (HeaderFits (D.content disk))) }
    // The disk's count of failures rises if 43 is reported. At no other refusal does it rise, except perhaps at a failed write.
    ensures failed { CountsDevice (D.failures disk) (D.failures result.1) result.0 }
    ensures untouched { D.honest disk → IfErr result.0 (λ failed.
        IfTextOrFileRefused failed (StaysSame D.content D.left D.moment D.left_since disk result.1)) }
    ensures unwritten { IfErr result.0 (λ failed. IfTextOrFileRefused failed (writer_of out.new ≡ writer_of out.old)) }
    ensures honest { D.honest result.1 ↔ D.honest disk }
    ensures reads { KeepsText CountsReads S.Text result.0 commands.old commands.new }
    ensures writes { KeepsWriter result.0 out.old out.new }
{
    let ledger = match ledger_on(alloc, disk) {
        Ok(ledger) => ledger,
        Err((refusal, disk)) => return (Err(Failed::Code(refusal)), disk),
    };
    let groups = match of_text(COMMANDS, read_commands(alloc, commands)) {
        Ok(groups) => groups,
        Err(failed) => {
            let (_, disk) = ledger.close();
            return (Err(failed), disk);
        }
    };
    apply_groups(alloc, ledger, &groups, hears, out)
}
