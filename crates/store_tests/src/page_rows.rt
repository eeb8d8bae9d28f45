ghost use Rattle.std.specs.Prelude.{◌≤◌, length};

use disk::Disk;
use roadnet::Refusal;

/// A page by its number, the bytes at its front, and its gate.
pub type PageRow = (u64, &'static [u8], u8);

/// Whether the page of this number begins so, has this gate, and is zero between.
fn is_page<D: Disk>(disk: &mut D, number: u64, front: &[u8], gate: u8) -> Result<bool, Refusal>
    requires few { length front.now ≤ 4095 }
    requires number { number ≤ 1000 }
{
    let Ok(length) = disk.len() else {
        return Err(Refusal::Device);
    };
    let at = 4096 * number;
    if length < at + 4096 {
        return Ok(false);
    }
    let mut page = [0; 4096];
    let Ok(()) = disk.read(at, &mut page) else {
        return Err(Refusal::Device);
    };
    Ok(
        page.starts_with(front)
            && page[front.len()..4095].iter().all(|&byte| byte == 0)
            && page[4095] == gate,
    )
}

/// The number of the first of these pages that the disk has otherwise, if there is one: by its first bytes, behind which it is zero, and its gate. Pages up
/// to 1,000 are looked at, and another is told as one that is otherwise.
pub fn first_other_page<D: Disk>(disk: &mut D, pages: &[PageRow]) -> Result<Option<u64>, Refusal> {
    for at in 0..pages.len() {
        let (number, front, gate) = pages[at];
        if number > 1000 || front.len() > 4095 || !is_page(disk, number, front, gate)? {
            return Ok(Some(number));
        }
    }
    Ok(None)
}
