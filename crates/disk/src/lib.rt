//! The disk under a store: what a disk is, what a stop may leave of it, the steps by which pages are written so that a
//! stop leaves them whole, and disks for tests.
#![tactic(auto)]

mod disk;
mod fail_once;
mod fuse;
mod gated;
mod mem_disk;
mod stoppable;

pub use disk::{Disk, DiskError};
pub use fail_once::FailOnce;
pub use fuse::FuseDisk;
pub use gated::{
    OPEN, close_gate, is_open, length_of, open_gate, read_at, settle, write_gated, write_synced,
};
pub use mem_disk::{MemDisk, Recorded, Write};
pub use stoppable::{Pick, Stoppable};
