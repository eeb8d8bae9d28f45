ghost use Rattle.std.specs.Prelude.{◌≡◌, ◌↔◌, false, ℕ, List, Ok, Some, length, IfOk, IfErr, OnOk, MatchResult};
ghost use Rattle.roadnet.specs.declared.refusals.Refusal.TheVariants.{OutOfMemory as out_of_memory, Device as device};
ghost use Rattle.disk.specs.Contents.{Only, Rose};
ghost use Rattle.disk.specs.Moments.{StaysSame};
ghost use Rattle.pages.specs.Spelling.{IsHead};
ghost use Rattle.storefile.specs.StoreFile.{page, StandsFor};
ghost use Rattle.storefile.specs.Judging.{opened_in};
ghost use Rattle.storefile.specs.Standing.{standing_in, standing_of};
ghost use Rattle.pagereader.specs.Outcomes.{MayRefuse, MayEndOpening};
ghost use Rattle.pagereader.specs.Reading.{HasFileOf, ReadsToOpen};
ghost use Rattle.store.specs.Durable.{told_by, going_of};
ghost use Rattle.store.specs.Opening.{standing_by, HeaderFits, HeaderFitsIn, current_from, current_of, journal_behind, IsFoundBehind, IsSound, HasJournalOf, IsPassing, MayRefuseToOpen, IsStoreFile};
ghost use Rattle.store.specs.State.{IsCountedBy};

use crate::opened::found::Found;
use crate::opened::header::read_header;
use crate::opened::replay::replay;
use crate::paged::state::Paged;
use checkpoint::{choose, load, read_arcs};
use disk::{Disk, settle};
use pagereader::PageReader;
use pages::{Format, Header, Slot, SlotHead};
use roadnet::{Network, Refusal};
use std::alloc::Global;

// The current slot, its head and its network. The arc pages, the choice of the slot, its head, its word pages and its end pages are judged in this order.
fn read_current<D: Disk>(
    alloc: Global,
    disk: &mut D,
    header: &Header,
) -> Result<(Slot, SlotHead, Network), Refusal>
    requires file { HasFileOf D.Disk header.now disk.old }
    ensures current { D.honest disk.old → IfOk result (λ x. current_from (page (D.content disk.old)) header.now ≡ Ok (current_of x)) }
    ensures fits { IfOk result (λ x. IsHead header.now x.1) }
    ensures count { IfOk result (λ x. length x.2.arcs ≡ x.1.arcs) }
    ensures refused { D.honest disk.old → IfErr result (λ refusal. MayRefuse (current_from (page (D.content disk.old)) header.now) refusal) }
    ensures reads { ReadsToOpen D.Disk result disk.old disk.new }
{
    let Ok(mut reader) = PageReader::new(alloc) else {
        return Err(Refusal::OutOfMemory);
    };
    let arcs = read_arcs(alloc, disk, header, &mut reader)?;
    let slot = choose(disk, header)?;
    let (head, network) = load(alloc, disk, header, slot, &mut reader, arcs)?;
    Ok((slot, head, network))
}

// The journal after a slot with this head and this network: its unchecked pages, and what they hold.
fn read_journal<D: Disk>(
    alloc: Global,
    disk: &mut D,
    header: &Header,
    slot: Slot,
    head: &SlotHead,
    network: Network,
) -> Result<Found, Refusal>
    requires file { HasFileOf D.Disk header.now disk.old }
    requires fits { IsHead header.now head.now }
    requires count { length network.arcs ≡ head.now.arcs }
    ensures carried_out { D.honest disk.old → IfOk result (HasJournalOf (page (D.content disk.old)) header.now head.now network) }
    ensures found { IfOk result (IsFoundBehind header.now slot head.now) }
    ensures sound { IfOk result IsSound }
    ensures refused { D.honest disk.old → IfErr result (MayRefuse (journal_behind (page (D.content disk.old)) header.now head.now network)) }
    ensures reads { ReadsToOpen D.Disk result disk.old disk.new }
{
    let from = head.next_sequence();
    let mut network = network;
    let (version, unchecked) = replay(alloc, disk, header, from, head.version(), &mut network)?;
    Ok(Found {
        header: *header,
        slot,
        epoch: head.epoch(),
        network,
        version,
        next_sequence: from + u64::from(unchecked),
        unchecked,
    })
}

/// Syncs, and then judges and reads the whole file of this format, in its order. It writes nothing. The first refusal ends it: the file is not a store
/// (40), it has another format (41), or a page is damaged (42). At each step the disk may fail (43). After the header there may be no memory (11).
pub fn find<D: Disk>(alloc: Global, disk: &mut D, format: Format) -> Result<Found, Refusal>
    ensures standing { D.honest disk.old → IfOk result (λ found. standing_in (opened_in format (D.content disk.old)) ≡ Some (standing_by found)) }
    ensures sound { IfOk result IsSound }
    ensures format { IfOk result (λ found. found.header.format ≡ format) }
    ensures refused { D.honest disk.old → IfErr result (λ refusal. MayRefuse (opened_in format (D.content disk.old)) refusal) }
    ensures at_rest { D.honest disk.old → OnOk result (Only (D.content disk.new) (D.left disk.new)) }
    ensures order { D.honest disk.old → IfErr result (λ refusal. refusal ≡ out_of_memory → HeaderFitsIn format (D.content disk.old)) }
    ensures fits { D.honest disk.old → IfOk result (λ found. HeaderFitsIn format (D.content disk.old)) }
    ensures reads { ReadsToOpen D.Disk result disk.old disk.new }
{
    let Ok(()) = settle(disk) else {
        return Err(Refusal::Device);
    };
    let header = read_header(disk, format)?;
    let (slot, head, network) = read_current(alloc, disk, &header)?;
    read_journal(alloc, disk, &header, slot, &head, network)
}

/// The pages of the store on a disk, as `open` finds them.
pub fn open_paged<D: Disk>(alloc: Global, disk: D) -> Result<Paged<D>, (Refusal, D)>
    // The content stands for the store's network and version, and a stop may leave nothing else.
    ensures stands { D.honest disk → IfOk result (λ store. StandsFor (D.content disk) store.found.network store.found.version store.found.next_sequence) }
    ensures standing { D.honest disk → IfOk result (λ store. standing_of (D.content disk) ≡ Some (told_by store)) }
    ensures at_rest { D.honest disk → IfOk result (λ store. Only (D.content store.disk) (D.left store.disk)) }
    ensures works { IfOk result (λ store. store.broken ≡ false) }
    ensures none_going { IfOk result (λ store. going_of store ≡ None) }
    // Nothing is written, and a stop may leave no more than before.
    ensures same { D.honest disk → IfOk result (λ store. StaysSame D.content D.left D.moment D.left_since disk store.disk) }
    ensures handed_back { D.honest disk → IfErr result (λ refused. StaysSame D.content D.left D.moment D.left_since disk refused.1) }
    // It refuses what the format refuses. Its other refusals are for lack of memory, or because the disk failed in this call.
    ensures judged { D.honest disk → IfErr result (λ refused. MayRefuseToOpen (D.content disk) refused.0) }
    // Lack of memory is reported only if the header fits the file.
    ensures order { D.honest disk → IfErr result (λ refused. refused.0 ≡ out_of_memory → HeaderFits (D.content disk)) }
    // Whatever the disk, it refuses with 11 or 40 to 43. Its count of failures rises by one if 43 is reported, and otherwise not at all.
    ensures causes { IfErr result (λ refused. MayEndOpening refused.0) }
    ensures counted { MatchResult result (λ store. D.failures store.disk ≡ D.failures disk) (IsCountedBy D.failures disk) }
    ensures failed { IfErr result (λ refused. refused.0 ≡ device → Rose (D.failures disk) (D.failures refused.1)) }
    ensures opens { D.honest disk → ((c : List ℕ) → D.left disk c → IsStoreFile c) → IfErr result (λ refused. IsPassing refused.0) }
    ensures honest { (IfOk result (λ store. D.honest store.disk ↔ D.honest disk)) × (IfErr result (λ refused. D.honest refused.1 ↔ D.honest disk)) }
{
    let mut disk = disk;
    let found = match find(alloc, &mut disk, Format::Two) {
        Ok(found) => found,
        Err(refusal) => return Err((refusal, disk)),
    };
    Ok(Paged {
        alloc,
        disk,
        found,
        broken: false,
        going: None,
    })
}
