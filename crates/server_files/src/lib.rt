//! The files of a server: pairs of named pipes as doors, through which its clients come, and the copies that they ask for, as stores in files of a folder.
#![tactic(auto)]

mod copies;
mod deeds;
mod doors;
mod flat;
mod guests;
mod pipes;

pub use copies::{FileCopies, copy_store, see_folder};
pub use deeds::{Deed, Deeds, Side};
pub use doors::{AnswerPipe, Doors, FileNames, PipeDoor, SeenPipes, doors_of, see_pipes};
pub use guests::{Guests, VisitCounts};
pub use pipes::{Pipes, TellsPipe, Unserved, Why};
