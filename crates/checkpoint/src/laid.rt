ghost use Rattle.std.specs.Prelude.{◌≡◌, ◌+◌, ◌-◌, ◌*◌, ◌<◌, ◌≤◌, ◌↔◌, ◌++◌, Ok, length, map, min, take, drop, IfErr, OnOk};
ghost use Rattle.std.specs.List.{AllByRecursion};
ghost use Rattle.pages.specs.Spelling.{IsHeader, IsEnds, ends_of, word_of};
ghost use Rattle.pages.specs.Layout.{end_pages};
ghost use Rattle.storefile.specs.StoreFile.{page};
ghost use Rattle.storefile.specs.Judging.{laid_from};
ghost use Rattle.pagereader.specs.Runs.{IsRunOf};
ghost use Rattle.pagereader.specs.Outcomes.{MayLack, MayRefuse};
ghost use Rattle.pagereader.specs.Reading.{HasFileOf, ReadsToOpen, JudgesToOpen};
ghost use Rattle.checkpoint.specs.Loading.{HasLaid, PutsLaid, laid_of_page};

use disk::Disk;
use pagereader::PageReader;
use pages::{ARCS_A_PAGE, Ends, Header, PAGE_SIZE, Slot, decode_arc_page};
use roadnet::{Refusal, RoadArc};
use std::alloc::Global;

/// For the arcs of a store that its arc pages do not have, sets the ends from a slot's end pages. The first page that is not valid is reported as damaged.
/// It changes nothing on the disk.
pub fn read_laid<D: Disk>(
    alloc: Global,
    disk: &mut D,
    header: &Header,
    slot: Slot,
    reader: &mut PageReader,
    arcs: &mut [RoadArc],
) -> Result<(), Refusal>
    requires file { HasFileOf D.Disk header.now disk.old }
    requires run { D.honest disk.old → IsRunOf (D.content disk.old) reader.old }
    requires from { header.now.arcs ≤ length arcs.old }
    requires count { length arcs.old ≤ header.now.room }
    requires ends { AllByRecursion (IsEnds header.now.nodes) (map ends_of (take header.now.arcs arcs.old)) }
    ensures spelled { D.honest disk.old → OnOk result (HasLaid (page (D.content disk.old)) header.now slot arcs.old arcs.new) }
    ensures fits { OnOk result (AllByRecursion (IsEnds header.now.nodes) (map ends_of arcs.new)) }
    ensures first { map ends_of (take header.now.arcs arcs.new) ≡ map ends_of (take header.now.arcs arcs.old) }
    ensures words { map word_of arcs.new ≡ map word_of arcs.old }
    ensures count { length arcs.new ≡ length arcs.old }
    ensures refused { D.honest disk.old → IfErr result (λ refusal. MayRefuse (laid_from (page (D.content disk.old)) header.now slot (length arcs.old)) refusal) }
    ensures run { D.honest disk.old → IsRunOf (D.content disk.old) reader.new }
    ensures reads { ReadsToOpen D.Disk result disk.old disk.new }
{
    let mut page = [0; PAGE_SIZE];
    let end = header.head_page(slot) + 1 + header.slot_pages();
    for i in 0..header.end_pages() {
        let Ok(()) = reader.read(disk, header.end_page(slot, i), end, &mut page) else {
            return Err(Refusal::Device);
        };
        take_page(alloc, &page, header, slot, i, arcs)?;
    }
    Ok(())
}

// Sets the ends of the i-th end page of a slot.
fn take_page(
    alloc: Global,
    page: &[u8; PAGE_SIZE],
    header: &Header,
    slot: Slot,
    i: u64,
    arcs: &mut [RoadArc],
) -> Result<(), Refusal>
    requires within { i < end_pages header.now }
    requires header { IsHeader header.now }
    requires from { header.now.arcs ≤ length arcs.old }
    requires count { length arcs.old ≤ header.now.room }
    ensures count { length arcs.new ≡ length arcs.old }
    ensures first { map ends_of (take header.now.arcs arcs.new) ≡ map ends_of (take header.now.arcs arcs.old) }
    ensures words { map word_of arcs.new ≡ map word_of arcs.old }
    ensures spelled { OnOk result (PutsLaid header.now slot i page.now arcs.old arcs.new) }
    ensures refused { IfErr result (λ refusal. MayLack (laid_of_page header.now slot (length arcs.old) i page.now) refusal) }
    ensures judges { JudgesToOpen result }
{
    let count = header.ends_on_page(i, arcs.len() as u32);
    let Ok(found) = decode_arc_page(alloc, page, header.nodes, count) else {
        return Err(Refusal::OutOfMemory);
    };
    let Some(spelled) = found else {
        return Err(Refusal::Damaged {
            page: header.end_page(slot, i),
        });
    };
    let laid = arcs.len() - header.arcs as usize;
    let first = header.arcs as usize + (ARCS_A_PAGE * i as usize).min(laid);
    put_ends(spelled.ends(), first, arcs);
    Ok(())
}

// Sets these ends, one pair for each arc, from the arc at this place on.
fn put_ends(ends: &[Ends], first: usize, arcs: &mut [RoadArc])
    requires { first + length ends.now ≤ length arcs.old }
    ensures ends { map ends_of (take (first + length ends.now) arcs.new) ≡ map ends_of (take first arcs.old) ++ ends.now }
    ensures words { map word_of arcs.new ≡ map word_of arcs.old }
    ensures count { length arcs.new ≡ length arcs.old }
{
    for (i, e) in ends.iter().enumerate() {
        let arc = &mut arcs[first + i];
        arc.tail = e.tail;
        arc.head = e.head;
    }
}
