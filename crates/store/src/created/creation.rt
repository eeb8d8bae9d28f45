// Making a store on an empty disk.
ghost use Rattle.std.specs.Prelude.{◌≡◌, ◌≢◌, ◌⊎◌, ◌+◌, ◌*◌, ◌≤◌, ◌<◌, ◌^◌, ◌↔◌, false, Some, [], ◌++◌, length, IfOk, OnOk, IfErr, MatchResult};
ghost use Rattle.roadnet.specs.Net.{IsNetwork};
ghost use Rattle.roadnet.specs.declared.refusals.Refusal.TheVariants.{OutOfMemory as out_of_memory, Device as device, NotEmpty as not_empty};
ghost use Rattle.disk.specs.Calling.{Counts};
ghost use Rattle.disk.specs.Contents.{Only, Rose};
ghost use Rattle.disk.specs.Moments.{StaysSame};
ghost use Rattle.pages.specs.declared.content.Slot.TheVariants.{A as slot_a};
ghost use Rattle.pages.specs.Spelling.{IsHeader, header_page, head_page};
ghost use Rattle.pages.specs.declared.content.Format.TheVariants.{Two};
ghost use Rattle.pages.specs.Layout.{arc_pages, word_pages, slot_pages};
ghost use Rattle.pages.specs.Limits.{most_versions};
ghost use Rattle.pagereader.specs.Reading.{HasFileOf};
ghost use Rattle.storefile.specs.Standing.{IsTidyAt, standing_of};
ghost use Rattle.store.specs.Durable.{told_by, going_of};
ghost use Rattle.store.specs.Created.{IsNewFile};
ghost use Rattle.store.specs.State.{checkpoint_pages_of, IsNewFor, IsCountedBy};
ghost use Rattle.store.specs.Created.{IsLaidOut, arc_bytes, first_head, word_bytes, blank_bytes, with_both_gates, Adds, IsInStep};

use crate::created::batch::Batch;
use crate::opened::found::Found;
use crate::paged::state::Paged;
use checkpoint::part_of;
use disk::{Disk, DiskError, length_of, open_gate, settle};
use pages::{
    ARCS_A_PAGE, Format, GATE_AT, Header, PAGE_SIZE, Slot, WORDS_A_PAGE, encode_arc_page,
    encode_header, encode_slot_head, encode_word_page,
};
use roadnet::{Network, Refusal};
use std::alloc::Global;

// Not inlined, as those that follow, so that the pages that these functions encode are not on the stack all at once.
#[inline(never)]
fn put_arcs<D: Disk>(
    disk: &mut D,
    batch: &mut Batch,
    header: &Header,
    network: &Network,
) -> Result<(), DiskError>
    requires few { batch.old.next + arc_pages header.now ≤ 2 ^ 32 }
    requires in_step { D.honest disk.old → IsInStep (D.content disk.old) batch.old }
    ensures written { D.honest disk.old → OnOk result (Adds (arc_bytes header.now network.now) (D.content disk.old) batch.old (D.content disk.new) batch.new) }
    ensures in_step { D.honest disk.new → OnOk result (IsInStep (D.content disk.new) batch.new) }
    ensures next { OnOk result (batch.new.next ≡ batch.old.next + arc_pages header.now) }
    ensures counts { Counts D.Disk result disk.old disk.new }
{
    for i in 0..header.arc_pages() {
        let page = encode_arc_page(part_of(network.arcs(), i, ARCS_A_PAGE));
        batch.put(disk, &page)?;
    }
    Ok(())
}

#[inline(never)]
fn put_words<D: Disk>(
    disk: &mut D,
    batch: &mut Batch,
    header: &Header,
    network: &Network,
) -> Result<(), DiskError>
    requires few { batch.old.next + word_pages header.now ≤ 2 ^ 32 }
    requires in_step { D.honest disk.old → IsInStep (D.content disk.old) batch.old }
    ensures written { D.honest disk.old → OnOk result (Adds (word_bytes header.now network.now) (D.content disk.old) batch.old (D.content disk.new) batch.new) }
    ensures in_step { D.honest disk.new → OnOk result (IsInStep (D.content disk.new) batch.new) }
    ensures next { OnOk result (batch.new.next ≡ batch.old.next + word_pages header.now) }
    ensures counts { Counts D.Disk result disk.old disk.new }
{
    for i in 0..header.word_pages() {
        let page = encode_word_page(part_of(network.arcs(), i, WORDS_A_PAGE));
        batch.put(disk, &page)?;
    }
    Ok(())
}

#[inline(never)]
fn put_blank<D: Disk>(disk: &mut D, batch: &mut Batch, count: u64) -> Result<(), DiskError>
    requires few { batch.old.next + count ≤ 2 ^ 32 }
    requires in_step { D.honest disk.old → IsInStep (D.content disk.old) batch.old }
    ensures written { D.honest disk.old → OnOk result (Adds (blank_bytes count) (D.content disk.old) batch.old (D.content disk.new) batch.new) }
    ensures in_step { D.honest disk.new → OnOk result (IsInStep (D.content disk.new) batch.new) }
    ensures next { OnOk result (batch.new.next ≡ batch.old.next + count) }
    ensures counts { Counts D.Disk result disk.old disk.new }
{
    for _ in 0..count {
        batch.put(disk, &[0; PAGE_SIZE])?;
    }
    Ok(())
}

/// Writes the page of the header.
#[inline(never)]
fn put_header<D: Disk>(disk: &mut D, batch: &mut Batch, header: &Header) -> Result<(), DiskError>
    requires few { batch.old.next < 2 ^ 32 }
    requires in_step { D.honest disk.old → IsInStep (D.content disk.old) batch.old }
    ensures written { D.honest disk.old → OnOk result (Adds (header_page header.now) (D.content disk.old) batch.old (D.content disk.new) batch.new) }
    ensures in_step { D.honest disk.new → OnOk result (IsInStep (D.content disk.new) batch.new) }
    ensures next { OnOk result (batch.new.next ≡ batch.old.next + 1) }
    ensures counts { Counts D.Disk result disk.old disk.new }
{
    batch.put(disk, &encode_header(header))
}

/// Writes the page of slot A's head, for the network at this version.
#[inline(never)]
fn put_head<D: Disk>(
    disk: &mut D,
    batch: &mut Batch,
    network: &Network,
    version: u64,
) -> Result<(), DiskError>
    requires few { batch.old.next < 2 ^ 32 }
    requires in_step { D.honest disk.old → IsInStep (D.content disk.old) batch.old }
    ensures written { D.honest disk.old → OnOk result (Adds (head_page Two (first_head network.now version)) (D.content disk.old) batch.old (D.content disk.new) batch.new) }
    ensures in_step { D.honest disk.new → OnOk result (IsInStep (D.content disk.new) batch.new) }
    ensures next { OnOk result (batch.new.next ≡ batch.old.next + 1) }
    ensures network { IsNetwork network.now }
    ensures counts { Counts D.Disk result disk.old disk.new }
{
    let head = encode_slot_head(
        Format::Two,
        1,
        version,
        0,
        network.arcs().len() as u32,
        network.landmarks(),
    );
    batch.put(disk, &head)
}

/// Writes all pages of a new store to an empty disk, with their gates closed.
#[inline(never)]
fn lay_out<D: Disk>(
    disk: &mut D,
    batch: &mut Batch,
    header: &Header,
    network: &Network,
    version: u64,
) -> Result<(), DiskError>
    requires header { IsHeader header.now }
    requires start { batch.old ≡ record { next = 0; bytes = [] } }
    requires empty { D.honest disk.old → D.content disk.old ≡ [] }
    ensures laid_out { D.honest disk.old → OnOk result (IsLaidOut (D.content disk.new) header.now network.now version) }
    ensures counts { Counts D.Disk result disk.old disk.new }
{
    put_header(disk, batch, header)?;
    put_arcs(disk, batch, header, network)?;
    put_head(disk, batch, network, version)?;
    put_words(disk, batch, header, network)?;
    put_blank(
        disk,
        batch,
        header.end_pages() + 1 + header.slot_pages() + u64::from(header.journal_pages),
    )?;
    batch.flush(disk)
}

/// Opens the gate of slot A and then that of the header, with a sync before and after each.
fn open_gates<D: Disk>(disk: &mut D, header: &Header) -> Result<(), DiskError>
    requires file { HasFileOf D.Disk header.now disk.old }
    ensures opened { D.honest disk.old → OnOk result (D.content disk.new ≡ with_both_gates header.now (D.content disk.old)) }
    ensures at_rest { D.honest disk.old → OnOk result (Only (D.content disk.new) (D.left disk.new)) }
    ensures counts { Counts D.Disk result disk.old disk.new }
{
    settle(disk)?;
    let head = header.head_page(Slot::A);
    open_gate(disk, PAGE_SIZE as u64 * head + GATE_AT as u64)?;
    open_gate(disk, GATE_AT as u64)
}

/// The pages of a new store of this network at this version, as `create_at` makes it.
#[inline(never)]
pub fn create_paged<D: Disk>(
    alloc: Global,
    disk: D,
    network: &Network,
    version: u64,
    journal_pages: u32,
) -> Result<Paged<D>, (Refusal, D)>
    requires versions { version ≤ most_versions }
    requires some { 1 ≤ journal_pages }
    requires few { journal_pages ≤ 65536 }
    ensures network { IfOk result (λ store. store.found.network ≡ network.now) }
    ensures version { IfOk result (λ store. store.found.version ≡ version) }
    ensures journal_pages { IfOk result (λ store. store.found.header.journal_pages ≡ journal_pages) }
    ensures checkpoint_pages { IfOk result (λ store. slot_pages store.found.header ≡ checkpoint_pages_of (length network.now.arcs) network.now) }
    ensures unchecked { IfOk result (λ store. store.found.unchecked ≡ 0) }
    ensures slot { IfOk result (λ store. (store.found.slot ≡ slot_a) × (store.found.epoch ≡ 1)) }
    ensures works { IfOk result (λ store. store.broken ≡ false) }
    ensures none_going { IfOk result (λ store. going_of store ≡ None) }
    // The content stands for the network at this version and is tidy. It has this many journal pages and slots for the network's room, and a stop may leave
    // nothing else.
    ensures stands { D.honest disk → IfOk result (λ store. IsNewFor journal_pages network.now version (D.content store.disk)) }
    // The file is that of a new store: it has all its arcs from the beginning, and its journal begins with page 0.
    ensures made { D.honest disk → IfOk result (λ store. IsNewFile journal_pages network.now version (D.content store.disk)) }
    ensures only { D.honest disk → IfOk result (λ store. Only (D.content store.disk) (D.left store.disk)) }
    ensures tidy { D.honest disk → IfOk result (λ store. IsTidyAt (D.content store.disk) store.found.header store.found.next_sequence) }
    ensures standing { D.honest disk → IfOk result (λ store. standing_of (D.content store.disk) ≡ Some (told_by store)) }
    ensures empty { D.honest disk → IfOk result (λ store. D.content disk ≡ []) }
    ensures refused { IfErr result (λ refused. (refused.0 ≡ not_empty) ⊎ ((refused.0 ≡ device) ⊎ (refused.0 ≡ out_of_memory))) }
    ensures not_empty { D.honest disk → IfErr result (λ refused. refused.0 ≡ not_empty → D.content disk ≢ []) }
    ensures order { D.honest disk → IfErr result (λ refused. refused.0 ≡ out_of_memory → D.content disk ≡ []) }
    // The count of failures rises by one if 43 is reported, and otherwise not at all.
    ensures counted { MatchResult result (λ store. D.failures store.disk ≡ D.failures disk) (IsCountedBy D.failures disk) }
    ensures failed { IfErr result (λ refused. refused.0 ≡ device → Rose (D.failures disk) (D.failures refused.1)) }
    ensures same { D.honest disk → IfErr result (λ refused. refused.0 ≢ device → StaysSame D.content D.left D.moment D.left_since disk refused.1) }
    ensures honest { (IfOk result (λ store. D.honest store.disk ↔ D.honest disk)) × (IfErr result (λ refused. D.honest refused.1 ↔ D.honest disk)) }
{
    let mut disk = disk;
    let Ok(length) = length_of(&mut disk) else {
        return Err((Refusal::Device, disk));
    };
    if length != 0 {
        return Err((Refusal::NotEmpty, disk));
    }
    let Ok(copy) = network.copy() else {
        return Err((Refusal::OutOfMemory, disk));
    };
    let Ok(mut batch) = Batch::new(alloc) else {
        return Err((Refusal::OutOfMemory, disk));
    };
    let header = Header {
        format: Format::Two,
        nodes: copy.nodes(),
        arcs: copy.arcs().len() as u32,
        room: copy.room(),
        journal_pages,
    };
    let Ok(()) = lay_out(&mut disk, &mut batch, &header, &copy, version) else {
        return Err((Refusal::Device, disk));
    };
    let Ok(()) = open_gates(&mut disk, &header) else {
        return Err((Refusal::Device, disk));
    };
    Ok(Paged {
        alloc,
        disk,
        found: Found {
            header,
            slot: Slot::A,
            epoch: 1,
            network: copy,
            version,
            next_sequence: 0,
            unchecked: 0,
        },
        broken: false,
        going: None,
    })
}
