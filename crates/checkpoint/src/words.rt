ghost use Rattle.std.specs.Prelude.{◌≡◌, ◌+◌, ◌*◌, ◌<◌, ◌≤◌, ◌↔◌, ◌++◌, Ok, length, map, min, take, IfErr, OnOk};
ghost use Rattle.std.specs.List.{AllByRecursion};
ghost use Rattle.pages.specs.Spelling.{IsHeader, IsWord, ends_of, word_of};
ghost use Rattle.pages.specs.Layout.{word_pages};
ghost use Rattle.storefile.specs.StoreFile.{page};
ghost use Rattle.storefile.specs.Judging.{words_from};
ghost use Rattle.pagereader.specs.Runs.{IsRunOf};
ghost use Rattle.pagereader.specs.Outcomes.{MayLack, MayRefuse};
ghost use Rattle.pagereader.specs.Reading.{HasFileOf, ReadsToOpen, JudgesToOpen};
ghost use Rattle.checkpoint.specs.Loading.{PutsWords, words_of_page};

use disk::Disk;
use pagereader::PageReader;
use pages::{Header, PAGE_SIZE, Slot, WORDS_A_PAGE, Word, decode_word_page, words_on_page};
use roadnet::{Refusal, RoadArc};
use std::alloc::Global;

/// Gives the arcs of a store the lengths from a slot's word pages, and opens or closes each. The first page that is not valid is reported as damaged. It
/// changes nothing on the disk.
pub fn read_words<D: Disk>(
    alloc: Global,
    disk: &mut D,
    header: &Header,
    slot: Slot,
    reader: &mut PageReader,
    arcs: &mut [RoadArc],
) -> Result<(), Refusal>
    requires file { HasFileOf D.Disk header.now disk.old }
    requires run { D.honest disk.old → IsRunOf (D.content disk.old) reader.old }
    requires count { length arcs.old ≤ header.now.room }
    ensures spelled { D.honest disk.old → OnOk result (words_from (page (D.content disk.old)) header.now slot (length arcs.old) ≡ Ok (map word_of arcs.new)) }
    ensures fits { OnOk result (AllByRecursion IsWord (map word_of arcs.new)) }
    ensures ends { map ends_of arcs.new ≡ map ends_of arcs.old }
    ensures count { length arcs.new ≡ length arcs.old }
    ensures refused { D.honest disk.old → IfErr result (MayRefuse (words_from (page (D.content disk.old)) header.now slot (length arcs.old))) }
    ensures run { D.honest disk.old → IsRunOf (D.content disk.old) reader.new }
    ensures reads { ReadsToOpen D.Disk result disk.old disk.new }
{
    let mut page = [0; PAGE_SIZE];
    let end = header.head_page(slot) + 1 + header.word_pages();
    for i in 0..header.word_pages() {
        let Ok(()) = reader.read(disk, header.word_page(slot, i), end, &mut page) else {
            return Err(Refusal::Device);
        };
        take_page(alloc, &page, header, slot, i, arcs)?;
    }
    Ok(())
}

// Sets the words of the i-th word page of a slot.
fn take_page(
    alloc: Global,
    page: &[u8; PAGE_SIZE],
    header: &Header,
    slot: Slot,
    i: u64,
    arcs: &mut [RoadArc],
) -> Result<(), Refusal>
    requires within { i < word_pages header.now }
    requires header { IsHeader header.now }
    requires count { length arcs.old ≤ header.now.room }
    ensures count { length arcs.new ≡ length arcs.old }
    ensures spelled { OnOk result (PutsWords header.now slot i page.now arcs.old arcs.new) }
    ensures ends { map ends_of arcs.new ≡ map ends_of arcs.old }
    ensures refused { IfErr result (λ refusal. MayLack (words_of_page header.now slot (length arcs.old) i page.now) refusal) }
    ensures judges { JudgesToOpen result }
{
    let Ok(found) = decode_word_page(alloc, page, words_on_page(i, arcs.len() as u32)) else {
        return Err(Refusal::OutOfMemory);
    };
    let Some(spelled) = found else {
        return Err(Refusal::Damaged {
            page: header.word_page(slot, i),
        });
    };
    let first = (WORDS_A_PAGE * i as usize).min(arcs.len());
    put_words(spelled.words(), first, arcs);
    Ok(())
}

// Sets these words, one for each arc, from the arc at this place on.
fn put_words(words: &[Word], first: usize, arcs: &mut [RoadArc])
    requires { first + length words.now ≤ length arcs.old }
    ensures words { map word_of (take (first + length words.now) arcs.new) ≡ map word_of (take first arcs.old) ++ words.now }
    ensures ends { map ends_of arcs.new ≡ map ends_of arcs.old }
{
    for (i, word) in words.iter().enumerate() {
        let arc = &mut arcs[first + i];
        arc.length = word.length;
        arc.opened = word.opened;
    }
}
