//! The texts of the server: what they say, or their first fault.
#![tactic(auto)]

mod commands;
mod fault;
mod graphs;
mod laws;
mod lines;
mod lists;
mod numerals;

pub use commands::group_lines::{
    Bound, bound_of, is_blank, number, parse_commands, read_command, read_commands, three_numbers,
    two_numbers,
};
pub use commands::open_group::OpenGroup;
pub use commands::words::{OneNumber, TwoNumbers, word_of_one, word_of_two};
pub use fault::{Code, Fault};
pub use graphs::gr::{parse_gr, read_gr, read_gr_before_run};
pub use graphs::reading::split_one;
pub use laws::first_fault_is_first;
pub use lines::counted::Counted;
pub use lines::feed::Ended;
pub use lines::line::split_field;
pub use lines::taking::TakeLines;
pub use lines::text::Text;
pub use lists::landmarks::{parse_ss, read_ss};
pub use lists::nodes::read_nodes;
pub use lists::pairs::{Pair, parse_p2p, read_p2p};
pub use numerals::numeral::Numeral;
