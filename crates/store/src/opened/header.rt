ghost use Rattle.std.specs.Prelude.{◌≡◌, ◌≢◌, ◌*◌, ◌↔◌, Ok, length, IfOk, IfErr};
ghost use Rattle.roadnet.specs.declared.refusals.Refusal.TheVariants.{OutOfMemory as out_of_memory};
ghost use Rattle.pages.specs.Spelling.{IsHeader};
ghost use Rattle.pages.specs.Layout.{page_count};
ghost use Rattle.pages.specs.Limits.{page_size};
ghost use Rattle.storefile.specs.StoreFile.{page, is_open};
ghost use Rattle.storefile.specs.Judging.{begins_as_store};
ghost use Rattle.pagereader.specs.Outcomes.{MayRefuse};
ghost use Rattle.pagereader.specs.Reading.{ReadsToOpen, JudgesToOpen};
ghost use Rattle.store.specs.Opening.{header_from};

use disk::{Disk, length_of};
use pagereader::read_page;
use pages::{Format, GateByte, Header, PAGE_SIZE, decode_header, format_of, gate_of, has_magic};
use roadnet::Refusal;

fn is_open(page: &[u8; PAGE_SIZE]) -> bool
    ensures { result ≡ is_open page.now }
{
    match gate_of(page) {
        GateByte::Open => true,
        GateByte::Closed => false,
    }
}

// Whether a file of this length with this first page is a store at all.
fn begins_as_store(page: &[u8; PAGE_SIZE], length: u64) -> bool
    ensures { result ≡ begins_as_store length page.now }
{
    if length < PAGE_SIZE as u64 {
        return false;
    }
    if !has_magic(page) {
        return false;
    }
    is_open(page)
}

// The header of a file of this format and length, whose first page is this one.
fn judge_header(page: &[u8; PAGE_SIZE], length: u64, format: Format) -> Result<Header, Refusal>
    ensures header { header_from format length page.now ≡ result }
    ensures fits { IfOk result IsHeader }
    ensures format { IfOk result (λ header. header.format ≡ format) }
    ensures size { IfOk result (λ header. length ≡ page_size * page_count header) }
    ensures judges { JudgesToOpen result }
    ensures memory { IfErr result (λ refusal. refusal ≢ out_of_memory) }
{
    if !begins_as_store(page, length) {
        return Err(Refusal::NotAStore);
    }
    if format_of(page) != format.number() {
        return Err(Refusal::WrongFormat);
    }
    let Some(header) = decode_header(page) else {
        return Err(Refusal::Damaged { page: 0 });
    };
    if length != header.page_count() * PAGE_SIZE as u64 {
        return Err(Refusal::Damaged { page: 0 });
    }
    Ok(header)
}

/// The header of the store of this format on the disk, with the sizes of the file. It changes nothing and takes no memory.
pub fn read_header<D: Disk>(disk: &mut D, format: Format) -> Result<Header, Refusal>
    ensures header { D.honest disk.old → IfOk result (λ header. header_from format (length (D.content disk.old)) (page (D.content disk.old) 0) ≡ Ok header) }
    ensures fits { IfOk result IsHeader }
    ensures format { IfOk result (λ header. header.format ≡ format) }
    ensures size { D.honest disk.old → IfOk result (λ header. length (D.content disk.old) ≡ page_size * page_count header) }
    ensures refused { D.honest disk.old → IfErr result (MayRefuse (header_from format (length (D.content disk.old)) (page (D.content disk.old) 0))) }
    ensures reads { ReadsToOpen D.Disk result disk.old disk.new }
    ensures memory { IfErr result (λ refusal. refusal ≢ out_of_memory) }
{
    let Ok(length) = length_of(disk) else {
        return Err(Refusal::Device);
    };
    if length < PAGE_SIZE as u64 {
        return Err(Refusal::NotAStore);
    }
    let mut page = [0; PAGE_SIZE];
    let Ok(()) = read_page(disk, 0, &mut page) else {
        return Err(Refusal::Device);
    };
    judge_header(&page, length, format)
}
