use crate::paths::own_path;
use disk::Disk;
use filedisk::{FileDisk, OpenError, SystemFile, create_file, open_file, open_to_read};
use std::fs::File;
use std::os::unix::fs::FileExt;
use std::test::Fail;
use std::{env, fs, io};

/// Whether a file is in use, to be written and to be read.
fn is_in_use(rt: &HostRuntime, path: &str) -> bool {
    open_file(rt, path).err() == Some(OpenError::InUse)
        && open_to_read(rt, path).err() == Some(OpenError::InUse)
}

/// Whether a disk is empty, and takes eight bytes and three from the seventh place on.
fn is_written(disk: &mut FileDisk<SystemFile>) -> bool {
    disk.len() == Ok(0)
        && disk.write_at(0, b"abcdefgh") == Ok(())
        && disk.write_at(6, b"GHI") == Ok(())
        && disk.sync() == Ok(())
}

/// Whether they are read back, and not past their end.
fn is_read_back(disk: &mut FileDisk<SystemFile>) -> bool {
    let mut into = [0u8; 4];
    let read = disk.len() == Ok(9) && disk.read(5, &mut into) == Ok(());
    read && into.as_slice() == b"fGHI".as_slice()
        && disk.read(6, &mut into).is_err()
        && disk.failed_calls() == 1
}

/// Whether a file is made and written, and in use until its disk is dropped.
fn is_made(rt: &HostRuntime, path: &str) -> Result<bool, OpenError> {
    let new = create_file(rt, path)?;
    let mut disk = new.disk;
    Ok(new.made.is_some() && is_in_use(rt, path) && is_written(&mut disk))
}

/// Whether it is there, and read back.
fn is_there(rt: &HostRuntime, path: &str) -> Result<bool, OpenError> {
    let new = create_file(rt, path)?;
    let mut disk = new.disk;
    Ok(new.made.is_none() && is_read_back(&mut disk))
}

/// Whether what is there, but no file, is told so.
fn are_no_files(rt: &HostRuntime, folder: &str) -> bool {
    let no_file = Some(OpenError::NoFile);
    open_file(rt, folder).err() == Some(OpenError::Folder)
        && open_to_read(rt, "/dev/null").err() == no_file
        && create_file(rt, "/dev/null").err() == no_file
}

#[test]
fn a_real_file(rt: HostRuntime) -> Result<(), Fail> {
    let path = own_path(&rt, "real")?;
    assert!(rt; open_file(&rt, path.as_str()).err() == Some(OpenError::Missing));
    assert!(rt; open_to_read(&rt, path.as_str()).err() == Some(OpenError::Missing));
    assert!(rt; are_no_files(&rt, env::temp_dir(&rt)?.as_str()));
    assert!(rt; is_made(&rt, path.as_str()) == Ok(true));
    assert!(rt; is_there(&rt, path.as_str()) == Ok(true));
    fs::remove_file(&rt, path.as_str())?;
    Ok(())
}

/// Whether a disk that is read syncs, gives its bytes, and refuses each write.
fn is_read_alone(disk: &mut FileDisk<SystemFile>) -> bool {
    let mut into = [0u8; 4];
    let read = disk.sync() == Ok(()) && disk.read(2, &mut into) == Ok(());
    read && into.as_slice() == b"cdef".as_slice()
        && disk.write_at(0, b"x").is_err()
        && disk.write_at(8, b"x").is_err()
}

/// Whether another that is read beside it syncs, and gives its bytes still.
fn is_read_beside(disk: &mut FileDisk<SystemFile>) -> bool {
    let mut into = [0u8; 4];
    let read = disk.sync() == Ok(()) && disk.read(0, &mut into) == Ok(());
    read && into.as_slice() == b"abcd".as_slice()
}

/// Whether a file is read by two at once, and not written meanwhile.
fn are_read_at_once(rt: &HostRuntime, path: &str) -> Result<bool, OpenError> {
    let mut disk = open_to_read(rt, path)?;
    let mut other = open_to_read(rt, path)?;
    let in_use = open_file(rt, path).err() == Some(OpenError::InUse);
    Ok(in_use && is_read_alone(&mut disk) && is_read_beside(&mut other))
}

/// A disk that is read is shared with those who read it, syncs, and refuses each write.
#[test]
fn a_real_file_that_is_read(rt: HostRuntime) -> Result<(), Fail> {
    let path = own_path(&rt, "read")?;
    fs::write(&rt, path.as_str(), "abcdefgh")?;
    assert!(rt; are_read_at_once(&rt, path.as_str()) == Ok(true));
    assert!(rt; open_file(&rt, path.as_str()).is_ok());
    fs::remove_file(&rt, path.as_str())?;
    Ok(())
}

/// A place past 2^32.
const FAR: u64 = (1 << 32) + 5;

/// Whether a disk takes bytes near its front and far behind, each time synced.
fn is_written_far(disk: &mut FileDisk<SystemFile>) -> bool {
    disk.write_at(3, b"near") == Ok(())
        && disk.sync() == Ok(())
        && disk.write_at(FAR, b"far") == Ok(())
        && disk.sync() == Ok(())
        && disk.sync() == Ok(())
        && disk.len() == Ok(FAR + 3)
}

/// Whether another handle of the file reads them where they were written, and writes over the last.
fn is_changed_by(other: &File) -> io::Result<bool> {
    let mut into = [1u8; 5];
    let near = other.metadata()?.len() == FAR + 3 && other.read_at(&mut into, 2)? == 5;
    let near = near && into.as_slice() == b"\0near".as_slice();
    let far = other.read_at(&mut into, FAR - 1)? == 4 && into.as_slice().starts_with(b"\0far");
    Ok(near && far && other.write_at(b"FAR", FAR)? == 3)
}

/// Whether the disk reads what was written over, and writes over that again.
fn is_read_far(disk: &mut FileDisk<SystemFile>) -> bool {
    let mut into = [1u8; 5];
    let read = disk.read(FAR - 2, &mut into) == Ok(());
    read && into.as_slice() == b"\0\0FAR".as_slice()
        && disk.write_at(FAR + 1, b"x") == Ok(())
        && disk.sync() == Ok(())
        && disk.len() == Ok(FAR + 3)
}

/// Whether the other handle reads that.
fn is_read_by(other: &File) -> io::Result<bool> {
    let mut into = [1u8; 5];
    Ok(other.read_at(&mut into, FAR)? == 3 && into.as_slice().starts_with(b"FxR"))
}

/// Whether the disk reads and writes nothing past its end.
fn ends(disk: &mut FileDisk<SystemFile>) -> bool {
    disk.read(FAR, &mut [1u8; 5]).is_err() && disk.write_at(u64::MAX, b"x").is_err()
}

/// Another handle of a file, by which it is read and written.
fn other_handle(rt: &HostRuntime, path: &str) -> io::Result<File> {
    fs::OpenOptions::new().read(true).write(true).open(rt, path)
}

/// Each byte stands where it was written, and is read from there, also past 2^32: the file is read and written by another handle.
#[test]
fn offsets_of_a_real_file(rt: HostRuntime) -> Result<(), Fail> {
    let path = own_path(&rt, "far")?;
    let new = create_file(&rt, path.as_str())?;
    let mut disk = new.disk;
    let other = other_handle(&rt, path.as_str())?;
    assert!(rt; is_written_far(&mut disk));
    assert!(rt; is_changed_by(&other)?);
    assert!(rt; is_read_far(&mut disk));
    assert!(rt; is_read_by(&other)?);
    assert!(rt; ends(&mut disk));
    fs::remove_file(&rt, path.as_str())?;
    Ok(())
}

/// Whether a file can be locked alone, and with others who read it.
fn locks(file: &File) -> (bool, bool) {
    (file.try_lock().is_ok(), file.try_lock_shared().is_ok())
}

/// What keeps others from writing, from making and from reading a file, if it is kept.
fn kept_from(rt: &HostRuntime, path: &str) -> [Option<OpenError>; 3] {
    [
        open_file(rt, path).err(),
        create_file(rt, path).err(),
        open_to_read(rt, path).err(),
    ]
}

/// How another handle can lock a file while it is open to be written, and while it is open to be read.
fn locks_beside(
    rt: &HostRuntime,
    path: &str,
    other: &File,
) -> Result<((bool, bool), (bool, bool)), OpenError> {
    let disk = open_file(rt, path)?;
    let written = locks(other);
    drop(disk);
    let _disk = open_to_read(rt, path)?;
    Ok((written, locks(other)))
}

/// A file that another holds locked is not opened, or with those who read it alone.
#[test]
fn a_file_that_another_holds(rt: HostRuntime) -> Result<(), Fail> {
    let path = own_path(&rt, "held")?;
    fs::write(&rt, path.as_str(), "abc")?;
    let other = File::open(&rt, path.as_str())?;
    let in_use = Some(OpenError::InUse);
    other.lock()?;
    assert!(rt; kept_from(&rt, path.as_str()) == [in_use; 3]);
    other.lock_shared()?;
    assert!(rt; kept_from(&rt, path.as_str()) == [in_use, in_use, None]);
    other.unlock()?;
    assert!(rt; locks_beside(&rt, path.as_str(), &other) == Ok(((false, false), (false, true))));
    fs::remove_file(&rt, path.as_str())?;
    Ok(())
}

/// Whether a file that a disk has open is locked still once a handle of its lock was dropped, and no more once the lock was let go.
fn lets_go(disk: &FileDisk<SystemFile>, other: &File) -> io::Result<bool> {
    drop(disk.lock()?);
    let dropped = other.try_lock_shared().is_err();
    let mut lock = disk.lock()?;
    let held = other.try_lock_shared().is_err();
    lock.let_go()?;
    Ok(dropped && held && other.try_lock().is_ok())
}

/// Whether a disk's lock is let go, that of another disk is not, and both disks are used still.
fn is_let_go(
    disk: FileDisk<SystemFile>,
    second: FileDisk<SystemFile>,
    other: &File,
    beside: &File,
) -> io::Result<bool> {
    let mut disk = disk;
    let gone = lets_go(&disk, other)? && beside.try_lock_shared().is_err();
    Ok(
        gone && disk.write_at(3, b"d") == Ok(())
            && disk.len() == Ok(4)
            && second.failed_calls() == 0,
    )
}

/// The lock of a disk is that of its file, of no other file, and is held until it is let go: not by a handle that is made or dropped. Behind
/// that the disk is read and written still. Refused is a body that lets go of nothing, or of a part (the file may be read, and not written),
/// and one that lets go at once, or where the handle is dropped.
#[test]
fn the_lock_of_a_disk(rt: HostRuntime) -> Result<(), Fail> {
    let (path, second) = (own_path(&rt, "lock")?, own_path(&rt, "second")?);
    fs::write(&rt, path.as_str(), "abc")?;
    fs::write(&rt, second.as_str(), "abc")?;
    let other = File::open(&rt, path.as_str())?;
    let beside = File::open(&rt, second.as_str())?;
    let disk = open_file(&rt, path.as_str())?;
    assert!(rt; is_let_go(disk, open_file(&rt, second.as_str())?, &other, &beside)?);
    fs::remove_file(&rt, path.as_str())?;
    fs::remove_file(&rt, second.as_str())?;
    Ok(())
}
