ghost use Rattle.std.specs.Prelude.{◌≡◌, ◌≢◌, ◌*◌, ◌↔◌, ℕ, List, Ok, length, IfOk, IfErr};
ghost use Rattle.roadnet.specs.declared.refusals.Refusal.TheVariants.{OutOfMemory as out_of_memory};
ghost use Rattle.pages.specs.Spelling.{IsHeader, IsHead};
ghost use Rattle.storefile.specs.StoreFile.{page};
ghost use Rattle.storefile.specs.Judging.{spelled_at, head_in, current_slot};
ghost use Rattle.pagereader.specs.Outcomes.{MayLack, MayRefuse};
ghost use Rattle.pagereader.specs.Reading.{HasFileOf, ReadsToOpen, JudgesToOpen};
ghost use Rattle.checkpoint.specs.Loading.{IsCurrentBy, head_from};

use disk::Disk;
use pagereader::{read_open_number, read_page};
use pages::{Header, PAGE_SIZE, Slot, SlotHead, decode_slot_head};
use roadnet::Refusal;
use std::alloc::Global;

/// The current slot: the open one, or, if both are open, the one of the greater epoch. If none is open, the head of A is damaged; if both have the same
/// epoch, the head of B is. It changes nothing.
pub fn choose<D: Disk>(disk: &mut D, header: &Header) -> Result<Slot, Refusal>
    requires file { HasFileOf D.Disk header.now disk.old }
    ensures slot { D.honest disk.old → IfOk result (λ slot. current_slot (page (D.content disk.old)) header.now ≡ Ok slot) }
    ensures refused { D.honest disk.old → IfErr result (λ refusal. MayRefuse (current_slot (page (D.content disk.old)) header.now) refusal) }
    ensures reads { ReadsToOpen D.Disk result disk.old disk.new }
    // It takes no memory.
    ensures memory { IfErr result (λ refusal. refusal ≢ out_of_memory) }
{
    let Ok(a) = read_open_number(disk, header.head_page(Slot::A)) else {
        return Err(Refusal::Device);
    };
    let Ok(b) = read_open_number(disk, header.head_page(Slot::B)) else {
        return Err(Refusal::Device);
    };
    greater(header, a, b)
}

// Of the open slots, the one of the greater epoch.
fn greater(header: &Header, a: Option<u64>, b: Option<u64>) -> Result<Slot, Refusal>
    ensures slot { IsCurrentBy header.now a b result }
    ensures judges { JudgesToOpen result }
    ensures memory { IfErr result (λ refusal. refusal ≢ out_of_memory) }
{
    match (a, b) {
        (Some(a), Some(b)) if a == b => Err(Refusal::Damaged {
            page: header.head_page(Slot::B),
        }),
        (Some(a), Some(b)) if a < b => Ok(Slot::B),
        (Some(_), _) => Ok(Slot::A),
        (None, Some(_)) => Ok(Slot::B),
        (None, None) => Err(Refusal::Damaged {
            page: header.head_page(Slot::A),
        }),
    }
}

/// The head of a slot. It changes nothing.
pub fn read_head<D: Disk>(
    alloc: Global,
    disk: &mut D,
    header: &Header,
    slot: Slot,
) -> Result<SlotHead, Refusal>
    requires file { HasFileOf D.Disk header.now disk.old }
    ensures spelled { D.honest disk.old → IfOk result (λ head. head_from (page (D.content disk.old)) header.now slot ≡ Ok head) }
    ensures fits { IfOk result (λ head. IsHead header.now head) }
    ensures refused { D.honest disk.old → IfErr result (λ refusal. MayRefuse (head_from (page (D.content disk.old)) header.now slot) refusal) }
    ensures reads { ReadsToOpen D.Disk result disk.old disk.new }
{
    let number = header.head_page(slot);
    let mut page = [0; PAGE_SIZE];
    let Ok(()) = read_page(disk, number, &mut page) else {
        return Err(Refusal::Device);
    };
    judge_head(alloc, &page, header, number)
}

// The head on the page of this number.
fn judge_head(
    alloc: Global,
    page: &[u8; PAGE_SIZE],
    header: &Header,
    number: u64,
) -> Result<SlotHead, Refusal>
    requires { IsHeader header.now }
    ensures spelled { IfOk result (λ head. spelled_at number (head_in header.now page.now) ≡ Ok head) }
    ensures fits { IfOk result (λ head. IsHead header.now head) }
    ensures refused { IfErr result (λ refusal. MayLack (spelled_at number (head_in header.now page.now)) refusal) }
    ensures judges { JudgesToOpen result }
{
    let Ok(found) = decode_slot_head(alloc, page, header) else {
        return Err(Refusal::OutOfMemory);
    };
    let Some(head) = found else {
        return Err(Refusal::Damaged { page: number });
    };
    Ok(head)
}
