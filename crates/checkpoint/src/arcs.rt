ghost use Rattle.std.specs.Prelude.{◌≡◌, ◌+◌, ◌*◌, ◌<◌, ◌↔◌, ◌++◌, Ok, length, map, min, IfOk, IfErr, OnOk};
ghost use Rattle.std.specs.List.{AllByRecursion};
ghost use Rattle.pages.specs.Spelling.{IsEnds, ends_of};
ghost use Rattle.pages.specs.Layout.{arc_pages};
ghost use Rattle.storefile.specs.StoreFile.{page};
ghost use Rattle.storefile.specs.Judging.{ends_from};
ghost use Rattle.pagereader.specs.Runs.{IsRunOf};
ghost use Rattle.pagereader.specs.Outcomes.{MayLack, MayRefuse};
ghost use Rattle.pagereader.specs.Reading.{HasFileOf, ReadsToOpen, JudgesToOpen};
ghost use Rattle.checkpoint.specs.Loading.{EndsArePut, ends_told};

use disk::Disk;
use pagereader::PageReader;
use pages::{ArcPage, Ends, Header, PAGE_SIZE, decode_arc_page};
use roadnet::{Refusal, RoadArc};
use std::alloc::{AllocError, Global};

/// The arcs of a store by their numbers, with the ends from its arc pages. Each has length 0 and is open, until a slot's words are known. The first page
/// that is not valid is reported as damaged. It changes nothing.
///
/// It takes 16 bytes an arc, allocated once.
pub fn read_arcs<D: Disk>(
    alloc: Global,
    disk: &mut D,
    header: &Header,
    reader: &mut PageReader,
) -> Result<Vec<RoadArc>, Refusal>
    requires file { HasFileOf D.Disk header.now disk.old }
    requires run { D.honest disk.old → IsRunOf (D.content disk.old) reader.old }
    ensures spelled { D.honest disk.old → IfOk result (λ arcs. ends_from (page (D.content disk.old)) header.now ≡ Ok (map ends_of arcs.items)) }
    ensures count { IfOk result (λ arcs. length arcs.items ≡ header.now.arcs) }
    ensures fits { IfOk result (λ arcs. AllByRecursion (IsEnds header.now.nodes) (map ends_of arcs.items)) }
    ensures refused { D.honest disk.old → IfErr result (λ refusal. MayRefuse (ends_from (page (D.content disk.old)) header.now) refusal) }
    ensures run { D.honest disk.old → IsRunOf (D.content disk.old) reader.new }
    ensures reads { ReadsToOpen D.Disk result disk.old disk.new }
{
    let Ok(mut arcs) = Vec::with_capacity(alloc, header.arcs as usize) else {
        return Err(Refusal::OutOfMemory);
    };
    let mut page = [0; PAGE_SIZE];
    let end = 1 + header.arc_pages();
    for i in 0..header.arc_pages() {
        let Ok(()) = reader.read(disk, header.arc_page(i), end, &mut page) else {
            return Err(Refusal::Device);
        };
        take_page(alloc, &page, header, i, &mut arcs)?;
    }
    Ok(arcs)
}

// Appends the arcs of the i-th arc page.
fn take_page(
    alloc: Global,
    page: &[u8; PAGE_SIZE],
    header: &Header,
    i: u64,
    arcs: &mut Vec<RoadArc>,
) -> Result<(), Refusal>
    requires within { i < arc_pages header.now }
    requires before { length arcs.old.items ≡ min (511 * i) header.now.arcs }
    ensures spelled { OnOk result (EndsArePut (ends_told header.now i page.now) arcs.old.items arcs.new.items) }
    ensures count { OnOk result (length arcs.new.items ≡ min (511 * (i + 1)) header.now.arcs) }
    ensures refused { IfErr result (λ refusal. MayLack (ends_told header.now i page.now) refusal) }
    ensures judges { JudgesToOpen result }
{
    let Ok(found) = decode_arc_page(alloc, page, header.nodes, header.arcs_on_page(i)) else {
        return Err(Refusal::OutOfMemory);
    };
    let Some(spelled) = found else {
        return Err(Refusal::Damaged {
            page: header.arc_page(i),
        });
    };
    let Ok(()) = put_arcs(spelled.ends(), arcs) else {
        return Err(Refusal::OutOfMemory);
    };
    Ok(())
}

// Appends arcs with these ends.
fn put_arcs(ends: &[Ends], arcs: &mut Vec<RoadArc>) -> Result<(), AllocError>
    ensures { OnOk result (map ends_of arcs.new.items ≡ map ends_of arcs.old.items ++ ends.now) }
{
    for e in ends {
        arcs.push(RoadArc {
            tail: e.tail,
            head: e.head,
            length: 0,
            opened: true,
        })?;
    }
    Ok(())
}
