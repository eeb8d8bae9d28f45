ghost use Rattle.std.specs.Prelude.{◌≡◌, slice_index};
ghost use Rattle.pages.specs.Gates.{gate_of, open_number};

use crate::writer::PAGE_SIZE;
use byteorder::{BigEndian, ByteOrder};
use disk::OPEN;

/// The last byte of a header, of a slot's head or of a journal page. What comes before it counts only while its gate is open.
#[derive(Clone, Copy, Debug, PartialEq, Eq)]
pub enum GateByte {
    Open,
    Closed,
}

/// Where the gate is in its page.
pub const GATE_AT: usize = PAGE_SIZE - 1;

impl GateByte {
    /// The gate with this byte: open at 0xA5, closed at any other.
    pub fn of(byte: u8) -> GateByte
        ensures { result ≡ gate_of byte }
    {
        if byte == OPEN {
            GateByte::Open
        } else {
            GateByte::Closed
        }
    }
}

/// The gate of a page.
pub fn gate_of(page: &[u8; PAGE_SIZE]) -> GateByte
    ensures { result ≡ gate_of (slice_index page.now 4095) }
{
    GateByte::of(page[GATE_AT])
}

/// The first eight bytes of a page as a number, if the page's gate is open: the epoch of a slot's head, or the sequence of a journal page.
pub fn open_number(page: &[u8; PAGE_SIZE]) -> Option<u64>
    ensures { result ≡ open_number page.now }
{
    match gate_of(page) {
        GateByte::Open => Some(BigEndian::read_u64(page)),
        GateByte::Closed => None,
    }
}
