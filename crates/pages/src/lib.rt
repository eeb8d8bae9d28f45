//! The pages of a store file, in both its formats: what each byte of each kind of page means, and which page of the file holds what.
#![tactic(auto)]

mod arc_page;
mod content;
mod gate;
mod header;
mod journal_page;
mod laws;
mod layout;
mod slot_head;
mod word_page;
mod writer;

pub use arc_page::{ArcPage, decode_arc_page, encode_arc_page};
pub use content::{Ends, Format, Record, Slot, Word};
pub use gate::{GATE_AT, GateByte, gate_of, open_number};
pub use header::{Header, decode_header, encode_header, format_of, has_magic};
pub use journal_page::{JournalPage, MOST_COMMANDS, decode_journal_page, encode_journal_page};
pub use laws::{parts_fill_the_file, spelling_is_one_to_one, worked_pages};
pub use layout::{ARCS_A_PAGE, PAGES_AT_ONCE, WORDS_A_PAGE, words_on_page};
pub use slot_head::{MOST_VERSIONS, SlotHead, decode_slot_head, encode_slot_head};
pub use word_page::{WordPage, decode_word_page, encode_numbers, encode_word_page, word_number};
pub use writer::PAGE_SIZE;
