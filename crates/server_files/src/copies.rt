//! Copies of the served network, as stores in files of a folder.
ghost use Rattle.std.specs.Prelude.{◌≡◌, ◌↔◌, IfOk, IfErr, OnOk, option_map, string_bytes};
ghost use Rattle.session_lines.specs.Copying.{IsUnmade};
ghost use Rattle.server_files.specs.Copied.{IsCopyOf, copies_in, copy_refusal_of};
ghost use Rattle.file_jobs.specs.Failures.{IsFileUnopened};
ghost use Rattle.words.specs.Words.{IsJournal};

use crate::flat::flat_copy;
use disk::Disk;
use file_jobs::open_folder;
use filedisk::{NewFile, OpenError, create_file_here};
use pages::MOST_VERSIONS;
use printing::Failed;
use progress::Progress;
use roadnet::{Network, Refusal};
use session_lines::Copies;
use shared_network::SharedNetwork;
use std::alloc::{AllocError, Global};
use std::fs::File;
use std::rt::Files;
use std::time::Clock;
use store::create_at;
use words::MOST_JOURNAL_PAGES;

/// Makes a copy of the network at this version on an empty disk: a store with so many journal pages, 1 to 65,536.
///
/// It is refused if the disk is not empty (46), if the disk fails (43), for lack of memory (11), and for a version above 2^48, which never occurs (10).
#[inline(never)]
pub fn copy_store<D: Disk>(
    alloc: Global,
    disk: D,
    network: &Network,
    version: u64,
    journal_pages: u32,
) -> (Result<(), Refusal>, D)
    requires { IsJournal journal_pages }
    ensures made { D.honest disk → OnOk result.0 (IsCopyOf network.now version journal_pages (D.content result.1) (D.left result.1)) }
    ensures refused { IfErr result.0 IsUnmade }
    ensures honest { D.honest result.1 ↔ D.honest disk }
{
    if version > MOST_VERSIONS {
        return (Err(Refusal::Read), disk);
    }
    match create_at(alloc, disk, network, version, journal_pages) {
        Ok(store) => (Ok(()), store.close()),
        Err((refusal, disk)) => (Err(refusal), disk),
    }
}

/// Why there is no file for a copy: it cannot be opened or made (10), its name cannot be made durable (43), or memory ran out (11).
fn refusal_of(error: OpenError) -> Refusal
    ensures cause { result ≡ copy_refusal_of error }
    ensures unmade { IsUnmade result }
{
    match error {
        OpenError::NameNotSynced(_) => Refusal::Device,
        OpenError::OutOfMemory => Refusal::OutOfMemory,
        _ => Refusal::Read,
    }
}

/// The name of a copy's file.
fn path_of(alloc: Global, folder: &str, name: &[u8]) -> Result<String, AllocError> {
    let mut path = String::from_str(alloc, folder)?;
    path.push('/')?;
    for byte in name {
        path.push(char::from(*byte))?;
    }
    Ok(path)
}

/// The folder in which copies are made, if there is one, and the number of journal pages of the copies.
#[derive(Drop)]
pub struct FileCopies<T> {
    rt: T,
    folder: Option<String>,
    journal_pages: u32,
    ghost journal: { IsJournal journal_pages },
}

impl<T> FileCopies<T> {
    /// Copies in this folder, if there is one, with as many journal pages as the opened store has.
    pub fn new(rt: T, folder: Option<String>, journal_pages: u32) -> FileCopies<T>
        ensures { result.folder ≡ folder }
    {
        FileCopies {
            rt,
            folder,
            journal_pages: journal_pages.max(1).min(MOST_JOURNAL_PAGES),
        }
    }
}

impl<T: AllocGlobal + Files<File = File>> Copies for FileCopies<T> {
    ghost copying = { λ copies. copies_in copies.folder };

    fn may_change(&self) -> bool {
        true
    }

    fn are_made(&self) -> bool {
        self.folder.is_some()
    }

    /// The file is made, locked and synced as that of `create`, but a link of its name is refused, so no copy leaves the folder. A file that this call made
    /// and that holds no store in the end is removed while it is still locked. A file that was there before stays as it was; if it was empty, it is used.
    #[inline(never)]
    fn copy(
        &self,
        alloc: Global,
        name: &[u8],
        network: &SharedNetwork,
        version: u64,
    ) -> Result<(), Refusal> {
        let Some(folder) = &self.folder else {
            return Err(Refusal::Read);
        };
        let Ok(path) = path_of(alloc, folder.as_str(), name) else {
            return Err(Refusal::OutOfMemory);
        };
        let Ok(network) = flat_copy(alloc, network) else {
            return Err(Refusal::OutOfMemory);
        };
        let NewFile { disk, made } = match create_file_here(&self.rt, path.as_str()) {
            Ok(file) => file,
            Err(error) => return Err(refusal_of(error)),
        };
        let (outcome, locked) = copy_store(alloc, disk, &network, version, self.journal_pages);
        if let Some(made) = made
            && outcome.is_err()
        {
            let _ = made.remove(&self.rt, &locked);
        }
        outcome
    }
}

/// The folder of copies, if one is named: it must exist. If it does not, it is reported as text number 1 that cannot be opened (10 of line 0), and the
/// reason is kept.
pub fn see_folder<R: AllocGlobal + Files<File = File>>(
    rt: &R,
    progress: &Progress<'_, R>,
    folder: Option<&str>,
) -> Result<Option<String>, Failed>
    ensures named { IfOk result (λ seen. option_map string_bytes seen ≡ option_map (λ name. name.now) folder.entry) }
    ensures refused { IfErr result (IsFileUnopened 1) }
{
    let Some(folder) = folder else {
        return Ok(None);
    };
    let _ = open_folder(rt, progress, folder)?;
    match String::from_str(rt.alloc(), folder) {
        Ok(folder) => Ok(Some(folder)),
        Err(_) => Err(Failed::Code(Refusal::OutOfMemory)),
    }
}
