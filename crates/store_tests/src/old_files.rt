// The file of the worked rows in format 1, spelled by hand.
use crate::bytes::put;
use std::alloc::{AllocError, Global};

const PAGE: usize = 4096;

// The byte that ends an open page.
const OPEN: u8 = 0xA5;

// Six nodes and eight arcs with a journal of 64 pages: the bytes 0 to 23 of the header, the bytes in use of the arc page, of the word page and of the head of
// slot A, without landmarks; and the journal page of `close 7`, at place 0.
const HEADER: [u8; 24] =
    *b"ROADMRK1\x00\x00\x00\x01\x00\x00\x00\x06\x00\x00\x00\x08\x00\x00\x00\x40";

/// The arc page.
pub const ARCS_OF_SIX: [u8; 64] =
    *b"\x00\x00\x00\x01\x00\x00\x00\x02\x00\x00\x00\x01\x00\x00\x00\x03\x00\x00\x00\x02\x00\x00\x00\x04\x00\x00\x00\x03\x00\x00\x00\x05\x00\x00\x00\x04\x00\x00\x00\x03\x00\x00\x00\x04\x00\x00\x00\x06\x00\x00\x00\x05\x00\x00\x00\x02\x00\x00\x00\x05\x00\x00\x00\x06";

const WORDS: [u8; 32] =
    *b"\x00\x00\x00\x11\x00\x00\x00\x0a\x00\x00\x00\x02\x00\x00\x00\x00\x00\x00\x00\x00\x00\x00\x00\x03\x00\x00\x00\x00\x00\x00\x00\x14";

const HEAD: [u8; 28] =
    *b"\x00\x00\x00\x00\x00\x00\x00\x01\x00\x00\x00\x00\x00\x00\x00\x00\x00\x00\x00\x00\x00\x00\x00\x00\x00\x00\x00\x00";

const CLOSED_7: [u8; 48] =
    *b"\x00\x00\x00\x00\x00\x00\x00\x00\x00\x00\x00\x00\x00\x00\x00\x01\x00\x01\x00\x00\x00\x00\x00\x00\x00\x00\x00\x00\x00\x00\x00\x00\x02\x00\x00\x00\x00\x00\x00\x07\x00\x00\x00\x00\x00\x00\x00\x00";

/// The file in format 1 at version 1, behind `close 7`: 70 pages, the journal from page 6.
pub fn old_six_file(alloc: Global) -> Result<Vec<u8>, AllocError> {
    let mut file = vec![in alloc; 0; 70 * PAGE]?;
    put(&mut file, 0, &HEADER);
    put(&mut file, PAGE - 1, &[OPEN]);
    put(&mut file, PAGE, &ARCS_OF_SIX);
    put(&mut file, 2 * PAGE, &HEAD);
    put(&mut file, 3 * PAGE - 1, &[OPEN]);
    put(&mut file, 3 * PAGE, &WORDS);
    put(&mut file, 6 * PAGE, &CLOSED_7);
    put(&mut file, 7 * PAGE - 1, &[OPEN]);
    Ok(file)
}
