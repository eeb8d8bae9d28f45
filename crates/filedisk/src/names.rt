//! The names of files: to which file a link leads, and in which folder a file is.
use std::fs;
use std::io::{self, ErrorKind};
use std::path::{Path, PathBuf};
use std::rt::Files;

/// The most links that are followed, one to the next.
const MOST_LINKS: u32 = 40;

/// The name of the file to which a path leads, even if there is no such file yet. A link is followed to what it names, and a relative name is taken from
/// the link's own folder. It fails for more than 40 links, and for lack of memory.
pub fn resolve<R: AllocGlobal + Files>(rt: &R, path: &str) -> io::Result<PathBuf> {
    let mut path = PathBuf::from_str(rt.alloc(), path)?;
    for _ in 0..MOST_LINKS {
        match fs::read_link(rt, path.as_path()) {
            Ok(target) => {
                path.pop();
                path.push(target)?;
            }
            Err(error) if error.kind() == ErrorKind::OutOfMemory => return Err(error),
            Err(_) => return Ok(path),
        }
    }
    Err(io::Error::from(ErrorKind::FilesystemLoop))
}

/// The folder of the file with this name.
pub fn folder_of(path: Path<'_>) -> Path<'_> {
    match path.parent() {
        Some(folder) if !folder.as_str().is_empty() => folder,
        _ => Path::new("."),
    }
}
