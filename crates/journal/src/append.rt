ghost use Rattle.std.specs.Prelude.{◌≡◌, ◌*◌, ◌≤◌, ◌↔◌, All, length, OnOk};
ghost use Rattle.disk.specs.Calling.{WritesDisk};
ghost use Rattle.disk.specs.Contents.{Only};
ghost use Rattle.disk.specs.Gated.{IsWholeOrShut, with_page};
ghost use Rattle.pages.specs.Spelling.{FitsRecord, body, entry_page};
ghost use Rattle.pages.specs.declared.content.Format.TheVariants.{Two as two};
ghost use Rattle.roadnet.specs.Groups.{commands_of, count_of};
ghost use Rattle.pagereader.specs.Reading.{HasFileOf};
ghost use Rattle.storefile.specs.StoreFile.{journal_page_at};
ghost use Rattle.pages.specs.Limits.{page_size, gate_at, most_commands};

use disk::{Disk, DiskError, write_gated};
use pages::{GATE_AT, Header, PAGE_SIZE, encode_journal_page};
use roadnet::Group;

/// All of a page except its gate.
fn body_of(page: &[u8; PAGE_SIZE]) -> &[u8]
    ensures bytes { result.now ≡ body page.now }
    ensures size { length result.now ≡ gate_at }
{
    &page[..GATE_AT]
}

/// Writes the journal page of these groups, of 1 to 253 commands in all, at the place of this sequence, over the page that is there: first the old gate is
/// closed if it reads open, then the body is written, then the gate is opened. The first group has this number. A sync follows each of these writes, so
/// there are four writes and syncs, or six.
///
/// A sync must also precede it: a stop may leave only the content. It takes no memory beside one page.
pub fn append_page<D: Disk>(
    disk: &mut D,
    header: &Header,
    sequence: u64,
    first_number: u64,
    groups: &[Group],
) -> Result<(), DiskError>
    requires file { HasFileOf D.Disk header.now disk.old }
    requires some { 1 ≤ length groups.now }
    requires few { count_of groups.now ≤ most_commands }
    requires fits { All (FitsRecord two) (commands_of groups.now) }
    requires at_rest { D.honest disk.old → Only (D.content disk.old) (D.left disk.old) }
    ensures written { D.honest disk.old → OnOk result (D.content disk.new ≡ with_page (D.content disk.old) (page_size * journal_page_at header.now sequence) (body (entry_page (record { sequence = sequence; first_number = first_number; groups = groups.now })))) }
    // A stop during the call leaves the old page whole, the new one whole, or a closed gate.
    ensures writes { WritesDisk D.Disk (IsWholeOrShut (D.content disk.old) (page_size * journal_page_at header.now sequence) (body (entry_page (record { sequence = sequence; first_number = first_number; groups = groups.now })))) result disk.old disk.new }
{
    let page = encode_journal_page(sequence, first_number, groups);
    let body = body_of(&page);
    let number = header.journal_page(sequence);
    write_gated(disk, PAGE_SIZE as u64 * number, body)
}
