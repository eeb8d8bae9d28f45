//! Plays of words: lines of words as a person types them, and what these tell, as transcripts have them.
//!
//! A transcript is a block of a file of cases, and is played in a folder of its own:
//!
//! ```text
//! == NAME
//! # what the transcript shows
//! play
//! $ words
//! < a line of their standard input
//! <- one without its end
//! what they tell
//! ----
//! ```
//!
//! The words of the program are `SETTING.. roadmark WORD..`. What they tell is the standard output, each line of the standard error behind `!`, and a status other than 0, as `[1]`.
//! In words and in what is told `~` stands for the folder.
//!
//! | Setting | Means |
//! |---|---|
//! | `absent=FILE` | this file can't be opened |
//! | `write-fails=N`, `write-fails=N..` | the write to standard output of this number fails, or each from it on |
//! | `read-fails` | the read behind the input fails |
//! | `unwritable` | new files can't be written |
//! | `slow` | each second read or write of a standard stream would have to wait |
//! | `clock`, `clock=N` | the clock goes on by a second, or by the N-th part of one, each time that it is asked; elsewhere it tells no time |
//! | `mute` | nothing can be written to standard error |
//! | `brief` | of each stream that has a text `...` is told in its place |
//! | `errors-only` | standard output is left out of what is told |
//! | `tells-files`, `tells-writes`, `tells-rests` | behind the rest it is told which files were opened and how, how many bytes each write to standard output had, or how often it was slept |
//!
//! Words on the folder's files:
//!
//! | Words | Do |
//! |---|---|
//! | `put FILE`, `folder FILE`, `link FILE TARGET`, `copy FILE NEW` | make a file of the input, a folder, a link, a copy |
//! | `zeros FILE N`, `change FILE` | make a file of N zero bytes; put bytes into one, by input lines of a place and of bytes in hexadecimal digits |
//! | `text FILE`, `size FILE`, `compare FILE OTHER` | tell a file's text, its size, or whether two have the same bytes |
//! | `hold FILE`, `hold-to-read FILE`, `release` | open a store's file beside the runs that follow, to change it or to read it; let it go |
//! | `hold-pipe` | opens a pipe, the names of whose ends stand for `%` and `%w` in the words that follow |
#![tactic(auto)]

mod files;
mod playing;
mod runs;
mod steps;

pub use playing::play;
