use disk::{Disk, DiskError, MemDisk, Pick, Stoppable};
use std::alloc::Global;

// Writes at an offset within the content.
pub(crate) fn put<D: Disk>(disk: &mut D, at: u64, bytes: &[u8]) -> Result<(), DiskError> {
    if at > disk.len()? {
        return Err(DiskError);
    }
    disk.write_at(at, bytes)
}

// Reads from an offset, as far as the content goes.
pub(crate) fn get<D: Disk>(disk: &mut D, at: u64, into: &mut [u8]) -> Result<(), DiskError> {
    let len = disk.len()?;
    if at > len || into.len() as u64 > len - at {
        return Err(DiskError);
    }
    disk.read(at, into)
}

#[test]
fn a_failure_has_a_text(rt: HostRuntime) {
    let text = format!(in rt.alloc(); "{DiskError}").expect(&rt, "memory");
    assert!(rt; text.as_str() == "the disk failed");
}

// Two writes over 1, 2, 3, 4, the picks of a stop, and what it leaves: the length, and the first eight bytes.
type Row = ((u64, [u8; 2]), (u64, [u8; 2]), [Pick; 3], (u64, [u8; 8]));

const OLD: Pick = Pick::Old;

const NEW: Pick = Pick::New;

const NINE: Pick = Pick::Byte(9);

// The writes overlap, and pass the end; the picks go round, over the places between as well; the later write stands before the earlier one; growth alone.
const ROWS: [Row; 5] = [
    (
        (2, [7, 7]),
        (3, [8, 8]),
        [OLD, NEW, OLD],
        (5, [1, 2, 3, 8, 0, 0, 0, 0]),
    ),
    (
        (2, [7, 7]),
        (3, [8, 8]),
        [NEW, NEW, NEW],
        (5, [1, 2, 7, 8, 8, 0, 0, 0]),
    ),
    (
        (0, [5, 6]),
        (4, [7, 8]),
        [OLD, NEW, NINE],
        (6, [1, 6, 3, 4, 9, 0, 0, 0]),
    ),
    (
        (1, [5, 5]),
        (0, [6, 6]),
        [NEW, OLD, NEW],
        (4, [6, 2, 5, 4, 0, 0, 0, 0]),
    ),
    (
        (4, [7, 8]),
        (6, [9, 9]),
        [NEW, OLD, NINE],
        (8, [1, 2, 3, 4, 7, 0, 9, 9]),
    ),
];

// The length of a disk, and its first eight bytes.
fn content<D: Disk>(disk: &mut D) -> Result<(u64, [u8; 8]), DiskError> {
    let mut bytes = [0; 8];
    let len = disk.len()?;
    get(disk, 0, &mut bytes[..len.min(8) as usize])?;
    Ok((len, bytes))
}

// What a stop leaves of the writes of a row.
fn left_by(alloc: Global, row: Row) -> Result<(u64, [u8; 8]), DiskError> {
    let (first, second, picks, _) = row;
    let mut disk = MemDisk::new(alloc);
    put(&mut disk, 0, &[1, 2, 3, 4])?;
    disk.sync()?;
    put(&mut disk, first.0, &first.1)?;
    put(&mut disk, second.0, &second.1)?;
    let _ = disk.stop(&picks);
    content(&mut disk)
}

#[test]
fn picks_go_round(rt: HostRuntime) {
    for (i, &row) in ROWS.iter().enumerate() {
        assert!(rt; left_by(rt.alloc(), row) == Ok(row.3), "row {i}");
    }
}

// Adds a hundred bytes and syncs, each once more where it fails. Answers whether the length is that before as long as a write failed, and then greater.
fn grow(disk: &mut MemDisk) -> Result<bool, DiskError> {
    let len = disk.len()?;
    let mut same = true;
    if put(disk, len, &[7; 100]).is_err() {
        same = disk.len()? == len;
        put(disk, len, &[7; 100])?;
    }
    let longer = disk.len()?.checked_sub(len) == Some(100);
    if disk.sync().is_err() {
        disk.sync()?;
    }
    Ok(same && longer)
}

// Where memory is refused to a write or a sync, the call fails, and nothing but the count of failures has changed. To be run with each allocation failing
// in turn.
#[test]
fn a_refused_growth_is_a_failure(rt: HostRuntime) {
    let mut disk = MemDisk::new(rt.alloc());
    for turn in 0..20 {
        assert!(rt; grow(&mut disk) == Ok(true), "turn {turn}");
    }
    let _ = disk.stop(&[Pick::Byte(9)]);
    let mut bytes = [0; 100];
    assert!(rt; get(&mut disk, 1900, &mut bytes).is_ok() && bytes == [7; 100]);
}

// Writes seventy pages, and syncs.
fn fill(disk: &mut MemDisk) -> Result<(), DiskError> {
    for place in 0..70 {
        put(disk, 4096 * place, &[1; 4096])?;
    }
    disk.sync()
}

// Writes ten thousand pages over them in turn, each synced, and then one more.
fn write_over(disk: &mut MemDisk) -> Result<(), DiskError> {
    for turn in 0..10_000 {
        put(disk, 4096 * (turn % 70), &[2; 4096])?;
        disk.sync()?;
    }
    put(disk, 4096, &[3; 4096])
}

// They end within the time that a test has.
#[test]
fn ten_thousand_pages(rt: HostRuntime) {
    let mut disk = MemDisk::new(rt.alloc());
    assert!(rt; fill(&mut disk).is_ok() && write_over(&mut disk).is_ok());
    let _ = disk.stop(&[Pick::Old, Pick::New]);
    let mut bytes = [0; 3];
    assert!(rt; get(&mut disk, 4095, &mut bytes).is_ok() && bytes == [2, 2, 3]);
}
