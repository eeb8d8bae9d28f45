//! A disk in a file of the system.
#![tactic(auto)]

mod causes;
mod file_disk;
mod mem_file;
mod names;
mod notes;
mod opened;
mod raw_file;
mod system;
mod system_file;
mod whole;

pub use causes::{Call, Cause, Failure};
pub use file_disk::FileDisk;
pub use mem_file::MemFile;
pub use names::{folder_of, resolve};
pub use opened::{
    MadeFile, NewFile, OpenError, create_file, create_file_here, open_file, open_to_read,
    why_unopened,
};
pub use raw_file::RawFile;
pub use system::{FileLock, NotedFile};
pub use system_file::SystemFile;
