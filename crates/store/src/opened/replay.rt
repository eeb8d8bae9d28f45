ghost use Rattle.std.specs.Prelude.{◌≡◌, ◌+◌, ◌≤◌, ◌&&◌, ◌==◌, true, false, None, Some, length, map, IfOk, IfErr, OnOk, OnErr};
ghost use Rattle.roadnet.specs.Step.{refusal_of, step, step_group};
ghost use Rattle.storefile.specs.StoreFile.{page, is_open, first_field};
ghost use Rattle.pagereader.specs.Outcomes.{MayLack, MayRefuse};
ghost use Rattle.pagereader.specs.Reading.{HasFileOf, ReadsToOpen, JudgesToOpen};
ghost use Rattle.store.specs.Opening.{entry_from, journal_of, IsCarriedOut, ReplaysJournal};
ghost use Rattle.pages.specs.Limits.{most_versions};

use disk::Disk;
use pagereader::read_page;
use pages::{Format, Header, MOST_VERSIONS, PAGE_SIZE, Record, decode_journal_page, open_number};
use roadnet::{Command, Network, OutOfMemory, Refusal};
use std::alloc::Global;

// Carries the command out if it is admitted. Returns whether it is. Memory can only run out for an admitted command.
fn carry_out(network: &mut Network, command: Command) -> Result<bool, OutOfMemory>
    ensures carried { IfOk result (λ carried. carried ≡ true → step network.old command ≡ Some network.new) }
    ensures refused { IfOk result (λ carried. carried ≡ false → step network.old command ≡ None) }
    ensures memory { OnErr result (refusal_of network.old command ≡ None) }
{
    let Ok(()) = network.admit(&command) else {
        return Ok(false);
    };
    match network.apply(command) {
        Ok(()) => Ok(true),
        Err(Refusal::OutOfMemory) => Err(OutOfMemory),
        Err(_) => unreachable!(),
    }
}

// Carries the commands of these records out, each if it is admitted in its turn. Returns whether all were.
fn apply_all(network: &mut Network, records: &[Record]) -> Result<bool, OutOfMemory>
    ensures all { IfOk result (λ all. all ≡ true → step_group network.old (map (λ r. r.command) records.now) ≡ Some network.new) }
    ensures one_refused { IfOk result (λ all. all ≡ false → step_group network.old (map (λ r. r.command) records.now) ≡ None) }
{
    for record in records {
        let Ok(carried) = carry_out(network, record.command) else {
            return Err(OutOfMemory);
        };
        if !carried {
            return Ok(false);
        }
    }
    Ok(true)
}

// Judges the journal page of this number, and carries its commands out. Returns the version after them.
fn apply_page(
    alloc: Global,
    page: &[u8; PAGE_SIZE],
    number: u64,
    format: Format,
    version: u64,
    network: &mut Network,
) -> Result<u64, Refusal>
    requires { version ≤ most_versions }
    ensures carried_out { IfOk result (λ new. IsCarriedOut (entry_from format number page.now version network.old) version network.new new) }
    ensures fits { IfOk result (λ new. new ≤ most_versions) }
    ensures later { IfOk result (λ new. version + 1 ≤ new) }
    ensures grows { OnOk result (length network.old.arcs ≤ length network.new.arcs) }
    ensures refused { IfErr result (λ refusal. MayLack (entry_from format number page.now version network.old) refusal) }
    ensures judges { JudgesToOpen result }
{
    let damaged = Refusal::Damaged { page: number };
    let Ok(found) = decode_journal_page(alloc, page, format) else {
        return Err(Refusal::OutOfMemory);
    };
    let Some(entry) = found else {
        return Err(damaged);
    };
    if entry.first_number() != version + 1 {
        return Err(damaged);
    }
    let new = version + entry.group_count() as u64;
    if new > MOST_VERSIONS {
        return Err(damaged);
    }
    let Ok(all) = apply_all(network, entry.records()) else {
        return Err(Refusal::OutOfMemory);
    };
    if !all {
        return Err(damaged);
    }
    Ok(new)
}

// Whether this is the page of the sequence: it is open, and has it in its first field.
fn is_of(page: &[u8; PAGE_SIZE], sequence: u64) -> bool
    ensures { result ≡ (is_open page.now && (first_field page.now == sequence)) }
{
    match open_number(page) {
        Some(found) => found == sequence,
        None => false,
    }
}

/// Carries out the commands of the journal from this sequence on, page by page, up to the first page that is not open or not of its sequence; there are at
/// most as many as the journal has. Returns the version after them, for which each group counts one, and how many pages there are. A page is damaged if it
/// is not valid, if its first number is not the next one, if it passes version 2^48, or if one of its commands is not admitted in its turn; the first such
/// page is reported. Each page is read once, and nothing on the disk is changed.
pub fn replay<D: Disk>(
    alloc: Global,
    disk: &mut D,
    header: &Header,
    from: u64,
    version: u64,
    network: &mut Network,
) -> Result<(u64, u32), Refusal>
    requires file { HasFileOf D.Disk header.now disk.old }
    requires from { from ≤ most_versions }
    requires version { version ≤ most_versions }
    ensures carried_out { D.honest disk.old → IfOk result (λ x. ReplaysJournal (page (D.content disk.old)) header.now from x.1 version network.old network.new x.0) }
    ensures fits { IfOk result (λ x. x.0 ≤ most_versions) }
    ensures later { IfOk result (λ x. version + x.1 ≤ x.0) }
    ensures few { IfOk result (λ x. x.1 ≤ header.now.journal_pages) }
    ensures grows { OnOk result (length network.old.arcs ≤ length network.new.arcs) }
    ensures refused { D.honest disk.old → IfErr result (MayRefuse (journal_of (page (D.content disk.old)) header.now from version network.old)) }
    ensures reads { ReadsToOpen D.Disk result disk.old disk.new }
{
    let mut page = [0; PAGE_SIZE];
    let mut reached = version;
    for i in 0..header.journal_pages {
        let sequence = from + u64::from(i);
        let number = header.journal_page(sequence);
        let Ok(()) = read_page(disk, number, &mut page) else {
            return Err(Refusal::Device);
        };
        if !is_of(&page, sequence) {
            return Ok((reached, i));
        }
        reached = apply_page(alloc, &page, number, header.format, reached, network)?;
    }
    Ok((reached, header.journal_pages))
}
