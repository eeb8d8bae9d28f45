//! Opening files for a disk.
ghost use Rattle.std.specs.Prelude.{◌≡◌, [], ◌∷◌, false, IfOk, IfErr, OnOk};
ghost use Rattle.std.specs.IoError.{error_kind};
ghost use Rattle.filedisk.specs.Causes.{cause_of};
ghost use Rattle.filedisk.specs.Files.{failures_of};
ghost use Rattle.filedisk.specs.Noted.{Lock, SyncAll, SyncFolder, Done, has_failed_sync};
ghost use Rattle.filedisk.specs.Opened.{IsNotHad, IsUnlocked, why_unlocked, why_unopened};
ghost use Rattle.filedisk.specs.SystemFiles.{calls_made, calls_of};
ghost use Rattle.filedisk.specs.declared.notes.Share.TheVariants.{Alone, WithReaders};

use crate::causes::Cause;
use crate::names::{folder_of, resolve};
use crate::notes::Share;
use crate::system::NotedFile;
use crate::{FileDisk, SystemFile};
use std::fs::{self, File, OpenOptions};
use std::io::{self, ErrorKind};
use std::os::unix::fs::{MetadataExt, OpenOptionsExt};
use std::path::PathBuf;
use std::rt::Files;
use thiserror::Error;

/// Why a file is not opened for a disk.
#[derive(Clone, Copy, Debug, PartialEq, Eq, Error)]
pub enum OpenError {
    /// There is no such file, or no such folder.
    #[error("there is no such file or folder")]
    Missing,
    /// The system does not permit opening it in this way.
    #[error("opening it is not permitted")]
    NotPermitted,
    /// It is to be written, and its file system is read-only.
    #[error("its file system is read-only")]
    ReadOnly,
    /// The system does not open it, for another reason.
    #[error("it can't be opened: {0}")]
    NotOpened(Cause),
    /// It is a folder.
    #[error("it is a folder")]
    Folder,
    /// It is a device or a pipe.
    #[error("it is no file")]
    NoFile,
    /// It is a link.
    #[error("it is a link")]
    Link,
    /// It is open elsewhere, and the lock is not shared.
    #[error("it is in use by another process")]
    InUse,
    /// The system cannot lock it, for example because its file system has no locks.
    #[error("it can't be locked")]
    NoLocks,
    /// The name of a new file was not made durable.
    #[error("its name can't be made durable: {0}")]
    NameNotSynced(Cause),
    /// There is no memory for the file's name.
    #[error("out of memory")]
    OutOfMemory,
}

/// Its owner and group may read and write it, and all may read it.
const MODE: u32 = 0o664;

/// Why a file is not opened, given the system's error.
pub fn why_unopened(error: &io::Error) -> OpenError
    ensures { result ≡ why_unopened (cause_of error.now) }
{
    match error.kind() {
        ErrorKind::NotFound => OpenError::Missing,
        ErrorKind::PermissionDenied => OpenError::NotPermitted,
        ErrorKind::ReadOnlyFilesystem => OpenError::ReadOnly,
        ErrorKind::IsADirectory => OpenError::Folder,
        _ => OpenError::NotOpened(Cause::of(error)),
    }
}

/// Why a file is not locked, given the system's error.
fn why_unlocked(error: &io::Error) -> OpenError
    ensures { result ≡ why_unlocked (error_kind error.now) }
{
    match error.kind() {
        ErrorKind::WouldBlock => OpenError::InUse,
        _ => OpenError::NoLocks,
    }
}

/// A file that this opening made, under its own name: the last part of the name is not a link.
#[derive(Drop)]
pub struct MadeFile {
    path: PathBuf,
}

/// Removes the file of this name. The open file is lent to the call, so its lock keeps others away until the file is gone.
fn remove_locked<R: Files, F>(rt: &R, path: &PathBuf, _locked: &F) -> io::Result<()> {
    fs::remove_file(rt, path.as_path())
}

impl MadeFile {
    /// Removes the file. Its disk is lent to the call, so the file is still open, and its lock keeps others away until it is gone.
    pub fn remove<R: Files>(self, rt: &R, locked: &FileDisk<SystemFile>) -> io::Result<()> {
        remove_locked(rt, &self.path, locked)
    }
}

/// A file that was opened for a new store.
#[derive(Drop)]
pub struct NewFile {
    /// The file as a disk.
    pub disk: FileDisk<SystemFile>,
    /// The file, if there was none and this opening made it.
    pub made: Option<MadeFile>,
}

/// The file, locked, unless another opening prevents that.
fn lock_file(file: File, share: Share) -> Result<NotedFile<File>, OpenError>
    ensures calls { IfOk result (λ file. calls_made file ≡ (Lock share, Done) ∷ []) }
    ensures causes { IfErr result IsUnlocked }
{
    let mut file = NotedFile::new(file);
    match file.lock(share) {
        Ok(()) => Ok(file),
        Err(error) => Err(why_unlocked(&error)),
    }
}

/// Refuses what is not a regular file.
fn look_at(file: &NotedFile<File>) -> Result<(), OpenError>
    ensures causes { IfErr result IsNotHad }
{
    match file.is_file() {
        Ok(true) => Ok(()),
        Ok(false) => Err(OpenError::NoFile),
        Err(error) => Err(why_unopened(&error)),
    }
}

/// The file, if it is a regular file and no other opening prevents its use.
fn claim(file: File, share: Share) -> Result<NotedFile<File>, OpenError>
    ensures calls { IfOk result (λ file. calls_made file ≡ (Lock share, Done) ∷ []) }
    ensures causes { IfErr result IsNotHad }
{
    let file = lock_file(file, share)?;
    look_at(&file)?;
    Ok(file)
}

/// The file as a disk.
fn disk_of(file: NotedFile<File>) -> FileDisk<SystemFile>
    requires { has_failed_sync (calls_made file) ≡ false }
    ensures calls { calls_of result ≡ calls_made file }
    ensures failures { failures_of result ≡ 0 }
{
    FileDisk::new(SystemFile::new(file))
}

/// Opens an existing file. What is not a regular file is not opened at all: opening a device may have an effect, and opening a pipe to read it waits for a
/// writer.
fn open_as<R: Files<File = File>>(
    rt: &R,
    path: &str,
    options: &OpenOptions,
) -> Result<File, OpenError>
    ensures causes { IfErr result IsNotHad }
{
    match fs::metadata(rt, path) {
        Ok(metadata) if metadata.is_file() => {}
        Ok(metadata) if metadata.is_dir() => return Err(OpenError::Folder),
        Ok(_) => return Err(OpenError::NoFile),
        Err(error) => return Err(why_unopened(&error)),
    }
    match options.open(rt, path) {
        Ok(file) => Ok(file),
        Err(error) => Err(why_unopened(&error)),
    }
}

/// Opens an existing file to read and write it.
fn open_to_write<R: Files<File = File>>(rt: &R, path: &str) -> Result<File, OpenError>
    ensures causes { IfErr result IsNotHad }
{
    let mut options = OpenOptions::new();
    options.read(true).write(true);
    open_as(rt, path, &options)
}

/// Opens an existing file to read and write it. It is locked for this opening alone until the disk is dropped.
pub fn open_file<R: Files<File = File>>(
    rt: &R,
    path: &str,
) -> Result<FileDisk<SystemFile>, OpenError>
    ensures failures { IfOk result (λ disk. failures_of disk ≡ 0) }
    ensures calls { IfOk result (λ disk. calls_of disk ≡ (Lock Alone, Done) ∷ []) }
    ensures causes { IfErr result IsNotHad }
{
    let file = open_to_write(rt, path)?;
    let file = claim(file, Share::Alone)?;
    Ok(disk_of(file))
}

/// Opens an existing file to read it: each write of the disk fails. Until the disk is dropped, the file is locked, and the lock is shared with others that
/// read it.
pub fn open_to_read<R: Files<File = File>>(
    rt: &R,
    path: &str,
) -> Result<FileDisk<SystemFile>, OpenError>
    ensures failures { IfOk result (λ disk. failures_of disk ≡ 0) }
    ensures calls { IfOk result (λ disk. calls_of disk ≡ (Lock WithReaders, Done) ∷ []) }
    ensures causes { IfErr result IsNotHad }
{
    let mut options = OpenOptions::new();
    options.read(true);
    let file = open_as(rt, path, &options)?;
    let file = claim(file, Share::WithReaders)?;
    Ok(disk_of(file))
}

/// The file of this name, to be read and written, and whether this call made it.
fn open_or_make<R: Files<File = File>>(rt: &R, path: &str) -> Result<(File, bool), OpenError> {
    let mut options = OpenOptions::new();
    options.read(true).write(true).create_new(true).mode(MODE);
    match options.open(rt, path) {
        Ok(file) => Ok((file, true)),
        Err(error) if error.kind() == ErrorKind::AlreadyExists => {
            Ok((open_to_write(rt, path)?, false))
        }
        Err(error) => Err(why_unopened(&error)),
    }
}

/// The error for a name that is not made durable.
fn not_synced(error: &io::Error) -> OpenError {
    OpenError::NameNotSynced(Cause::of(error))
}

/// Makes the name durable under which a file was opened: the file and its folder are synced.
fn sync_name<R: Files<File = File>>(
    rt: &R,
    file: &mut NotedFile<File>,
    path: &PathBuf,
) -> Result<(), OpenError>
    ensures { OnOk result (calls_made file.new ≡ (SyncFolder, Done) ∷ (SyncAll, Done) ∷ calls_made file.old) }
{
    let folder = match File::open(rt, folder_of(path.as_path())) {
        Ok(folder) => folder,
        Err(error) => return Err(not_synced(&error)),
    };
    match file.sync_all() {
        Ok(()) => {}
        Err(error) => return Err(not_synced(&error)),
    }
    match file.sync_folder(&folder) {
        Ok(()) => Ok(()),
        Err(error) => Err(not_synced(&error)),
    }
}

/// Examines a file that was opened or made for a new store, and makes its name durable.
fn settle<R: Files<File = File>>(
    rt: &R,
    file: &mut NotedFile<File>,
    path: &PathBuf,
) -> Result<(), OpenError>
    ensures { OnOk result (calls_made file.new ≡ (SyncFolder, Done) ∷ (SyncAll, Done) ∷ calls_made file.old) }
{
    look_at(file)?;
    sync_name(rt, file, path)
}

/// A file that was opened under this name, or made there: locked for a new store, and with a durable name.
fn settled<R: Files<File = File>>(
    rt: &R,
    path: PathBuf,
    file: File,
    is_new: bool,
) -> Result<NewFile, OpenError>
    ensures failures { IfOk result (λ new. failures_of new.disk ≡ 0) }
    ensures calls { IfOk result (λ new. calls_of new.disk ≡ (SyncFolder, Done) ∷ (SyncAll, Done) ∷ (Lock Alone, Done) ∷ []) }
{
    let mut file = lock_file(file, Share::Alone)?;
    if let Err(error) = settle(rt, &mut file, &path) {
        if is_new {
            let _ = remove_locked(rt, &path, &file);
        }
        return Err(error);
    }
    let made = if is_new {
        Some(MadeFile { path })
    } else {
        None
    };
    let disk = disk_of(file);
    Ok(NewFile { disk, made })
}

/// Why there is no name of a file.
fn why_unnamed(error: &io::Error) -> OpenError {
    match error.kind() {
        ErrorKind::OutOfMemory => OpenError::OutOfMemory,
        _ => why_unopened(error),
    }
}

/// Opens a file as `open_file` does, and makes an empty one if there is none. A link that leads to no file yet is followed, and the file is made there.
/// Then the file's name is made durable: the file and its folder are synced, once the file is locked and known to be a regular one. What the file contains
/// stays. After an `Err`, a file that was made is removed again while it is locked. If it could not be locked, another program may own it by then: so it
/// stays, empty as it was made, and a later call takes it again.
pub fn create_file<R: AllocGlobal + Files<File = File>>(
    rt: &R,
    path: &str,
) -> Result<NewFile, OpenError>
    ensures failures { IfOk result (λ new. failures_of new.disk ≡ 0) }
    ensures calls { IfOk result (λ new. calls_of new.disk ≡ (SyncFolder, Done) ∷ (SyncAll, Done) ∷ (Lock Alone, Done) ∷ []) }
{
    let path = match resolve(rt, path) {
        Ok(path) => path,
        Err(error) => return Err(why_unnamed(&error)),
    };
    let (file, is_new) = open_or_make(rt, path.as_str())?;
    settled(rt, path, file, is_new)
}

/// Whether an open file is itself the one of this name, and not one to which a link leads.
fn is_named<R: Files<File = File>>(rt: &R, file: &File, path: &str) -> io::Result<bool> {
    let named = fs::symlink_metadata(rt, path)?;
    let opened = file.metadata()?;
    Ok(named.dev() == opened.dev() && named.ino() == opened.ino())
}

/// Opens or makes a file as `create_file` does, but only in the folder of its name: a link of that name is refused, wherever it leads, and stays as it is.
pub fn create_file_here<R: AllocGlobal + Files<File = File>>(
    rt: &R,
    path: &str,
) -> Result<NewFile, OpenError>
    ensures failures { IfOk result (λ new. failures_of new.disk ≡ 0) }
    ensures calls { IfOk result (λ new. calls_of new.disk ≡ (SyncFolder, Done) ∷ (SyncAll, Done) ∷ (Lock Alone, Done) ∷ []) }
{
    let name = match PathBuf::from_str(rt.alloc(), path) {
        Ok(name) => name,
        Err(_) => return Err(OpenError::OutOfMemory),
    };
    let (file, is_new) = open_or_make(rt, path)?;
    match is_named(rt, &file, path) {
        Ok(true) => settled(rt, name, file, is_new),
        Ok(false) => Err(OpenError::Link),
        Err(error) => Err(why_unopened(&error)),
    }
}
