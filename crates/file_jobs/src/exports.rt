//! The files of a store's network, written as texts.
ghost use Rattle.std.specs.Prelude.{◌≡◌, IfOk, IfErr};
ghost use Rattle.file_jobs.specs.Failures.{unopened, IsTextUnmade, IsTextUnwritten};
ghost use Rattle.printing.specs.declared.exports.Exported.TheVariants.{Network, Landmarks, Closings};

use crate::files::{buffered_writer, unopened};
use disk::Disk;
use filedisk::{Call, Failure, why_unopened};
use printing::{CountedWriter, Exported, Failed};
use progress::{Progress, TellingWriter};
use roadnet::Refusal;
use std::alloc::{AllocError, Global};
use std::fs::{self, File, OpenOptions};
use std::io::{self, ErrorKind};
use std::os::unix::fs::OpenOptionsExt;
use std::path::PathBuf;
use std::rt::Files;
use std::time::Clock;
use store::Store;
use storetexts::export_text;

/// The number with which a failure names the folder of the texts.
const FOLDER: u8 = 1;

/// Its owner and group may read and write it, and all may read it.
const MODE: u32 = 0o664;

/// The name of a text's file in its folder.
fn name_of(text: Exported) -> &'static str {
    match text {
        Exported::Network => "network.gr",
        Exported::Landmarks => "landmarks.ss",
        Exported::Closings => "closed.commands",
    }
}

/// An existing folder, opened to be synced. What is not a folder is not opened at all: opening a pipe to read it waits for a writer. It is refused as fault
/// 10 of line 0.
pub fn open_folder<R: AllocGlobal + Files<File = File>>(
    rt: &R,
    progress: &Progress<'_, R>,
    folder: &str,
) -> Result<File, Failed>
    ensures { IfErr result (λ failed. failed ≡ unopened 1) }
{
    match fs::metadata(rt, folder) {
        Ok(metadata) if metadata.is_dir() => {}
        Ok(_) => {
            progress.keep(folder, &"it is no folder");
            return Err(unopened(FOLDER));
        }
        Err(error) => return Err(unopened_folder(progress, folder, &error)),
    }
    match fs::open(rt, folder) {
        Ok(place) => Ok(place),
        Err(error) => Err(unopened_folder(progress, folder, &error)),
    }
}

/// The failure for a folder, or for a new file in it, that the system does not open. The reason is kept.
fn unopened_folder<R: AllocGlobal>(
    progress: &Progress<'_, R>,
    name: &str,
    error: &io::Error,
) -> Failed
    ensures { result ≡ unopened 1 }
{
    progress.keep(name, &why_unopened(error));
    unopened(FOLDER)
}

/// The name of a text's file, in its folder.
fn path_of(alloc: Global, folder: &str, text: Exported) -> Result<PathBuf, AllocError> {
    let mut path = PathBuf::from_str(alloc, folder)?;
    path.push(name_of(text))?;
    Ok(path)
}

/// The failure for a text's file that is not made: there is one already (46), or the folder accepts none (fault 10 of line 0). The reason is kept.
fn unmade<R: AllocGlobal>(progress: &Progress<'_, R>, name: &str, error: &io::Error) -> Failed
    ensures { IsTextUnmade result }
{
    match error.kind() {
        ErrorKind::AlreadyExists => {
            progress.keep(name, &"it is there already");
            Failed::Code(Refusal::NotEmpty)
        }
        _ => unopened_folder(progress, name, error),
    }
}

/// The failure for a text or a folder that is not synced (43). The reason is kept.
fn unsynced<R: AllocGlobal>(progress: &Progress<'_, R>, name: &str, error: &io::Error) -> Failed
    ensures { result ≡ Failed.Code Refusal.Device }
{
    progress.keep(name, &Failure::of(Call::Sync, error));
    Failed::Code(Refusal::Device)
}

/// Makes a new file.
fn make_file<R: Files<File = File>>(rt: &R, path: &PathBuf) -> io::Result<File> {
    let mut options = OpenOptions::new();
    options.write(true).create_new(true).mode(MODE);
    options.open(rt, path.as_path())
}

/// Says that the file of this text is written and synced. Only `TextFile::fill` makes it.
#[derive(Drop)]
struct SyncedText {
    text: Exported,
}

/// Says that the folder of the texts is synced. Only `sync_folder` makes it.
#[derive(Drop)]
struct SyncedFolder;

/// Syncs the folder of the texts.
fn sync_folder<R: AllocGlobal>(
    progress: &Progress<'_, R>,
    folder: &str,
    place: &File,
) -> Result<SyncedFolder, Failed>
    ensures { IfErr result IsTextUnwritten }
{
    match place.sync_all() {
        Ok(()) => Ok(SyncedFolder),
        Err(error) => Err(unsynced(progress, folder, &error)),
    }
}

/// Says that all three texts are durable: each is synced, and then their folder.
#[derive(Drop)]
pub struct WrittenTexts {
    network: SyncedText,
    landmarks: SyncedText,
    closings: SyncedText,
    folder: SyncedFolder,
    ghost of_network: { network.text ≡ Network },
    ghost of_landmarks: { landmarks.text ≡ Landmarks },
    ghost of_closings: { closings.text ≡ Closings },
}

/// The file of a text, which was made for it: it has the name of this text, and this text is written into it.
#[derive(Drop)]
struct TextFile {
    path: PathBuf,
    file: File,
    text: Exported,
}

impl TextFile {
    /// Makes the file of a text, which is empty. It is refused if the file exists (46), if the folder accepts none (fault 10 of line 0), and for lack of
    /// memory for its name (11).
    fn make<R: AllocGlobal + Files<File = File>>(
        rt: &R,
        progress: &Progress<'_, R>,
        folder: &str,
        text: Exported,
    ) -> Result<TextFile, Failed>
        ensures text { IfOk result (λ made. made.text ≡ text) }
        ensures refused { IfErr result IsTextUnmade }
    {
        let Ok(path) = path_of(rt.alloc(), folder, text) else {
            return Err(Failed::Code(Refusal::OutOfMemory));
        };
        match make_file(rt, &path) {
            Ok(file) => Ok(TextFile { path, file, text }),
            Err(error) => Err(unmade(progress, path.as_str(), &error)),
        }
    }

    /// Makes the file of a text after these, and removes these if that fails.
    fn make_behind<R: AllocGlobal + Files<File = File>>(
        rt: &R,
        progress: &Progress<'_, R>,
        folder: &str,
        text: Exported,
        made: &[&TextFile],
    ) -> Result<TextFile, Failed>
        ensures text { IfOk result (λ made. made.text ≡ text) }
        ensures refused { IfErr result IsTextUnmade }
    {
        let outcome = TextFile::make(rt, progress, folder, text);
        if outcome.is_err() {
            for file in made {
                file.remove(rt);
            }
        }
        outcome
    }

    /// Writes the text of a store's network into the file.
    fn write<R: AllocGlobal + Clock + Eprint, D: Disk>(
        &self,
        alloc: Global,
        progress: &Progress<'_, R>,
        store: &Store<D>,
    ) -> Result<(), Failed>
        ensures { IfErr result IsTextUnwritten }
    {
        let file = TellingWriter::new(progress, self.path.as_str(), &self.file);
        let mut writer = buffered_writer(alloc, file)?;
        match export_text(store, self.text, &mut CountedWriter::new(&mut writer)) {
            Ok(()) => Ok(()),
            Err(_) => Err(Failed::Code(Refusal::Device)),
        }
    }

    /// Writes the text of a store's network into the file, and syncs it. A failure is reported as 43: 12 means that everything is done, and only its line
    /// is not written.
    fn fill<R: AllocGlobal + Clock + Eprint, D: Disk>(
        &self,
        alloc: Global,
        progress: &Progress<'_, R>,
        store: &Store<D>,
    ) -> Result<SyncedText, Failed>
        ensures text { IfOk result (λ synced. synced.text ≡ self.now.text) }
        ensures refused { IfErr result IsTextUnwritten }
    {
        self.write(alloc, progress, store)?;
        match self.file.sync_all() {
            Ok(()) => Ok(SyncedText { text: self.text }),
            Err(error) => Err(unsynced(progress, self.path.as_str(), &error)),
        }
    }

    /// Removes the file.
    fn remove<R: Files>(&self, rt: &R) {
        let _ = fs::remove_file(rt, self.path.as_path());
    }
}

/// The files of the three texts, which were made for them.
#[derive(Drop)]
struct TextFiles {
    network: TextFile,
    landmarks: TextFile,
    closings: TextFile,
    ghost of_network: { network.text ≡ Network },
    ghost of_landmarks: { landmarks.text ≡ Landmarks },
    ghost of_closings: { closings.text ≡ Closings },
}

impl TextFiles {
    /// Makes all three, or none.
    fn make<R: AllocGlobal + Files<File = File>>(
        rt: &R,
        progress: &Progress<'_, R>,
        folder: &str,
    ) -> Result<TextFiles, Failed>
        ensures { IfErr result IsTextUnmade }
    {
        let network = TextFile::make(rt, progress, folder, Exported::Network)?;
        let landmarks = TextFile::make_behind(
            rt,
            progress,
            folder,
            Exported::Landmarks,
            &[&network],
        )?;
        let closings = TextFile::make_behind(
            rt,
            progress,
            folder,
            Exported::Closings,
            &[&network, &landmarks],
        )?;
        Ok(TextFiles {
            network,
            landmarks,
            closings,
        })
    }

    /// Writes the texts of a store's network into them, each its own. Syncs each file, and then their folder.
    fn fill<R: AllocGlobal + Clock + Eprint, D: Disk>(
        &self,
        alloc: Global,
        progress: &Progress<'_, R>,
        store: &Store<D>,
        folder: &str,
        place: &File,
    ) -> Result<WrittenTexts, Failed>
        ensures { IfErr result IsTextUnwritten }
    {
        let network = self.network.fill(alloc, progress, store)?;
        let landmarks = self.landmarks.fill(alloc, progress, store)?;
        let closings = self.closings.fill(alloc, progress, store)?;
        let folder = sync_folder(progress, folder, place)?;
        Ok(WrittenTexts {
            network,
            landmarks,
            closings,
            folder,
        })
    }

    /// Removes them.
    fn remove<R: Files>(&self, rt: &R) {
        self.network.remove(rt);
        self.landmarks.remove(rt);
        self.closings.remove(rt);
    }
}

/// Writes the network of a store as three texts in an existing folder. If one of the texts is there already, nothing is made (46). Each text is synced, and
/// then the folder. If one of these steps fails (43), the files that were made are removed.
pub fn write_texts<R: AllocGlobal + Clock + Eprint + Files<File = File>, D: Disk>(
    rt: &R,
    progress: &Progress<'_, R>,
    store: &Store<D>,
    folder: &str,
) -> Result<WrittenTexts, Failed>
    ensures { IfErr result IsTextUnwritten }
{
    let place = open_folder(rt, progress, folder)?;
    let texts = TextFiles::make(rt, progress, folder)?;
    let filled = texts.fill(rt.alloc(), progress, store, folder, &place);
    if filled.is_err() {
        texts.remove(rt);
    }
    filled
}
