ghost use Rattle.std.specs.Prelude.{◌≡◌, ◌+◌, ◌*◌, ◌<◌, ◌≤◌, ◌^◌, ◌↔◌, length, IfOk};
ghost use Rattle.disk.specs.Calling.{ReadsDisk};
ghost use Rattle.storefile.specs.StoreFile.{page};
ghost use Rattle.pages.specs.Gates.{open_number};
ghost use Rattle.pages.specs.Limits.{page_size};

use crate::reader::read_page;
use disk::{Disk, DiskError};
use pages::{PAGE_SIZE, open_number};

/// The first eight bytes of page `k` as a number, if the page's gate is open. It changes nothing.
pub fn read_open_number<D: Disk>(disk: &mut D, k: u64) -> Result<Option<u64>, DiskError>
    requires fits { k < 2 ^ 52 }
    requires within { D.honest disk.old → page_size * (k + 1) ≤ length (D.content disk.old) }
    ensures number { D.honest disk.old → IfOk result (λ found. found ≡ open_number (page (D.content disk.old) k)) }
    ensures reads { ReadsDisk D.Disk result disk.old disk.new }
{
    let mut page = [0; PAGE_SIZE];
    read_page(disk, k, &mut page)?;
    Ok(open_number(&page))
}
