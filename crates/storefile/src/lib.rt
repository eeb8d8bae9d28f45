//! What a store file means: the network and version that its bytes stand for, or the first reason why they stand for none.
#![tactic(auto)]

mod laws;

pub use laws::{
    journal_page_that_is_written, meaning_of_a_file, slot_that_is_written, worked_files,
    worked_groups, worked_old_files, worked_rooms,
};
