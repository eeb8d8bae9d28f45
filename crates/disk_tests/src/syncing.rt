use crate::fakes::{Syncs, Told};
use filedisk::NotedFile;
use std::env;
use std::fs::File;
use std::test::Fail;

/// Whether a file's syncs are made: of all, of the data, and of this folder.
fn syncs(file: File, folder: &File) -> [bool; 3] {
    let mut file = NotedFile::new(file);
    [
        file.sync_all().is_ok(),
        file.sync_data().is_ok(),
        file.sync_folder(folder).is_ok(),
    ]
}

/// Each sync is made, and of that very file or folder: the system refuses those of a device. Refused is a body that makes none, and one
/// that syncs the file in place of the folder.
#[test]
fn syncs_reach_the_system(rt: HostRuntime) -> Result<(), Fail> {
    let folder = File::open(&rt, env::temp_dir(&rt)?.as_str())?;
    let device = File::open(&rt, "/dev/null")?;
    let of_device = syncs(File::open(&rt, "/dev/null")?, &folder);
    let beside = syncs(File::open(&rt, "/dev/null")?, &device);
    assert!(rt; of_device == [false, false, true] && beside == [false; 3]);
    assert!(rt; syncs(folder, &device) == [true, true, false]);
    Ok(())
}

/// A sync of all that tells of the file is no sync of its data alone, nor of another file. Refused is a body that makes the one for the other.
#[test]
fn each_sync_is_its_own(rt: HostRuntime) {
    let (file, folder) = (Syncs::new(), Syncs::new());
    let mut noted = NotedFile::new(Told(&file));
    assert!(rt; noted.sync_all().is_ok() && file.counts() == (1, 0));
    assert!(rt; noted.sync_data().is_ok() && file.counts() == (1, 1));
    assert!(rt; noted.sync_folder(&Told(&folder)).is_ok() && file.counts() == (1, 1));
    assert!(rt; folder.counts() == (1, 0));
}
