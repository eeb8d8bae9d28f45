//! Files of cases, which a person reads and extends: blocks, each with a call, what goes in and what is to come out. A program runs them by calls
//! of its own, and tells the blocks whose outcome differs.
//!
//! A block:
//!
//! ```text
//! == NAME
//! # what the case shows
//! CALL ARGUMENT.. OPTION VALUE..
//! what goes in
//! --
//! a further text that goes in
//! ----
//! what is to come out
//! ```
//!
//! Where one of several texts may come out, a line `or` stands between them. A line `@NAME` stands for the text of a block above with that name whose call is `text`. A call that there is not, and an option that a call does not have, are told in place of what comes out. The options that each call has:
//!
//! | Option | Means |
//! |---|---|
//! | `read-by N` | each text is read in parts of N bytes, and not of 4096; by `A..B` it is run with each size from A to B |
//! | `in N` | the text whose reader fails, in place of the last |
//! | `each` | each line of the last text is a text of its own, whose lines have ` / ` between them, and what comes out of it is one line |
//! | `read-fails A..B` | it is run with each read from A to B failing, and what comes out alike stands once, behind a line `A..B:`; by `N` it is run once |
//! | `interrupted` | the read that fails is one that was interrupted |
//! | `write-fails A..B` | the same of the writer's calls |
//! | `disk-fails A..B` | the same of the disk's calls |
//! | `somewhere` | where what comes out changes from one turn to the next is left open: the line before what comes out first is `first:`, and before what comes out then `then:` |
//!
//! A line ends at its end, but for one that ends with `\`. Within it `\n`, `\r`, `\t`, `\0`, `\\` and `\xHH` are bytes, and `\(A..B TEXT)` is the text once for each number
//! from A to B, which stands where the text has `#`.
#![tactic(auto)]

mod case;
mod given;
mod head;
mod running;
mod spelling;
mod streams;

pub use case::Case;
pub use given::{Given, Turn};
pub use head::Head;
pub use running::{Call, Calls, run_files};
pub use spelling::{put_shown, spelled};
pub use streams::NotingWriter;
