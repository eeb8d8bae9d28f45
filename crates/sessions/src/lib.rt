//! Sessions: the lines of a client are read one after the other, carried out by a desk, and answered; with many clients at once, who come by doors.
#![tactic(auto)]

mod clients;
mod queries;
mod session;
mod told;

pub use clients::answering::Answering;
pub use clients::doors::{Started, Visits, let_go, serve_door};
pub use clients::past::Past;
pub use clients::serving::{Terms, serve};
pub use session::sessions::Session;
pub use session_lines::{AskingAlone, Copies, Door, LastLine, NoCopies};
