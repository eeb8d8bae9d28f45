//! What the threads of a server are built on, as one trait: whatever has the bounds.

use std::fs::File;
use std::rt::Files;
use std::sync::Wait;
use std::thread::Threads;
use std::time::Clock;

/// A runtime that a server's threads share: they wait for one another, rest, report on standard error, and make files.
pub trait ServerRuntime: AllocGlobal
    + Threads
    + Wait
    + Clock
    + Eprint
    + Files<File = File>
    + Copy
    + Send
    + Sync
    + 'static {}

impl<
    T: AllocGlobal
        + Threads
        + Wait
        + Clock
        + Eprint
        + Files<File = File>
        + Copy
        + Send
        + Sync
        + 'static,
> ServerRuntime for T {}
