use crate::fakes::Swapped;
use crate::paths::own_path;
use filedisk::{Cause, OpenError, create_file, folder_of, open_file, open_to_read, resolve};
use std::io::ErrorKind;
use std::os::fd::AsRawFd;
use std::os::unix::fs::symlink;
use std::path::Path;
use std::test::Fail;
use std::{env, fs, io};

/// A name, and the folder in which its file stands.
const FOLDERS: [(&str, &str); 3] = [("a", "."), ("a/b", "a"), ("/b", "/")];

#[test]
fn names_of_files(rt: HostRuntime) -> Result<(), Fail> {
    for (name, folder) in FOLDERS {
        assert!(rt; folder_of(Path::new(name)).as_str() == folder, "{name}");
    }
    assert!(rt; resolve(&rt, "/none/b")?.as_str() == "/none/b");
    Ok(())
}

#[test]
fn links_in_a_circle(rt: HostRuntime) -> Result<(), Fail> {
    let circle = own_path(&rt, "circle")?;
    symlink(&rt, circle.as_str(), circle.as_str())?;
    assert!(rt; resolve(&rt, circle.as_str()).is_err());
    let cause = Cause {
        kind: ErrorKind::FilesystemLoop,
        number: None,
    };
    assert!(rt; create_file(&rt, circle.as_str()).err() == Some(OpenError::NotOpened(cause)));
    fs::remove_file(&rt, circle.as_str())?;
    Ok(())
}

/// What is told where the file of this name is made while another stands in for one of its names, and whether a file was opened and none is left.
fn told_by_other(
    rt: &HostRuntime,
    path: &str,
    name: &str,
    other: &str,
) -> (Option<OpenError>, bool) {
    let swapped = Swapped::new(rt, name, other);
    let error = create_file(&swapped, path).err();
    (
        error,
        swapped.opened.get() > 0 && fs::metadata(rt, path).is_err(),
    )
}

/// A new file and its folder are both synced, and looked at: where the system refuses one of these, the file that was made is removed. A file
/// and a folder of the kernel's stand in, which refuse a sync. Refused is a body that syncs the one twice, or none, and one that leaves
/// the file.
#[test]
fn a_new_file_that_is_refused(rt: HostRuntime) -> Result<(), Fail> {
    let path = own_path(&rt, "new")?;
    let path = path.as_str();
    let folder = env::temp_dir(&rt)?;
    let cause = Cause {
        kind: ErrorKind::InvalidInput,
        number: Some(22),
    };
    let not_synced = (Some(OpenError::NameNotSynced(cause)), true);
    assert!(rt; told_by_other(&rt, path, path, "/proc/self/status") == not_synced);
    assert!(rt; told_by_other(&rt, path, folder.as_str(), "/proc/self/task") == not_synced);
    let no_file = (Some(OpenError::NoFile), true);
    assert!(rt; told_by_other(&rt, path, path, "/proc/self/task") == no_file);
    Ok(())
}

/// What is told of a name, to be read and to be written, and how many files were opened for it.
fn told_of(rt: &HostRuntime, path: &str) -> ([Option<OpenError>; 2], u32) {
    let files = Swapped::new(rt, "", "");
    let told = [
        open_to_read(&files, path).err(),
        open_file(&files, path).err(),
    ];
    (told, files.opened.get())
}

/// What is no file is not opened at all. Refused is a body that opens it first: of a pipe that may wait for ever.
#[test]
fn what_is_no_file(rt: HostRuntime) -> Result<(), Fail> {
    let (reader, _writer) = io::pipe(&rt)?;
    let pipe = format!(in rt.alloc(); "/proc/self/fd/{}", reader.as_raw_fd())?;
    let none = ([Some(OpenError::NoFile); 2], 0);
    let folder = ([Some(OpenError::Folder); 2], 0);
    assert!(rt; told_of(&rt, pipe.as_str()) == none);
    assert!(rt; told_of(&rt, env::temp_dir(&rt)?.as_str()) == folder);
    assert!(rt; told_of(&rt, "/dev/null") == none);
    Ok(())
}
