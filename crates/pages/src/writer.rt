ghost use Rattle.std.specs.Prelude.{◌≡◌, ◌+◌, ◌≤◌, ℕ, List, [], ◌++◌, length, take, IsTrue, ◌↔◌, ◌==◌};
ghost use Rattle.std.specs.List.{list_all};
ghost use Rattle.byteorder.specs.Endian.{big_bytes};
ghost use Rattle.pages.specs.Spelling.{page_of, zeros, body, IsBlankFrom};

use byteorder::{BigEndian, ByteOrder};
use std::marker::Model;

/// The size of a page in bytes.
pub const PAGE_SIZE: usize = 4096;

/// A page that is written from its first byte on. Bytes that are not written are zero.
pub struct PageWriter {
    page: [u8; PAGE_SIZE],
    used: usize,
}

impl Model for PageWriter {
    ghost Value = { List ℕ };

    ghost view = { λ w. take w.used w.page };

    ghost invariant = { λ w. IsBlankFrom w.used w.page };
}

impl PageWriter {
    pub fn new() -> PageWriter
        ensures { result ≡ [] }
    {
        PageWriter {
            page: [0; PAGE_SIZE],
            used: 0,
        }
    }

    pub fn put_bytes(&mut self, bytes: &[u8])
        requires { length self.old + length bytes.now ≤ 4096 }
        ensures { self.new ≡ self.old ++ bytes.now }
    {
        let end = self.used + bytes.len();
        self.page[self.used..end].copy_from_slice(bytes);
        self.used = end;
    }

    pub fn put_u16(&mut self, number: u16)
        requires { length self.old + 2 ≤ 4096 }
        ensures { self.new ≡ self.old ++ big_bytes 2 number }
    {
        let mut bytes = [0; 2];
        BigEndian::write_u16(&mut bytes, number);
        self.put_bytes(&bytes);
    }

    pub fn put_u32(&mut self, number: u32)
        requires { length self.old + 4 ≤ 4096 }
        ensures { self.new ≡ self.old ++ big_bytes 4 number }
    {
        let mut bytes = [0; 4];
        BigEndian::write_u32(&mut bytes, number);
        self.put_bytes(&bytes);
    }

    pub fn put_u64(&mut self, number: u64)
        requires { length self.old + 8 ≤ 4096 }
        ensures { self.new ≡ self.old ++ big_bytes 8 number }
    {
        let mut bytes = [0; 8];
        BigEndian::write_u64(&mut bytes, number);
        self.put_bytes(&bytes);
    }

    /// Skips bytes, which stay zero.
    pub fn skip(&mut self, count: usize)
        requires { length self.old + count ≤ 4096 }
        ensures { self.new ≡ self.old ++ zeros count }
    {
        self.used += count;
    }

    pub fn finish(self) -> [u8; PAGE_SIZE]
        ensures { result ≡ page_of self }
    {
        let PageWriter { page, used: _ } = self;
        page
    }
}

/// Whether two pages are equal apart from their gates.
pub fn have_same_body(page: &[u8; PAGE_SIZE], other: &[u8; PAGE_SIZE]) -> bool
    ensures { IsTrue result ↔ (body page.now ≡ body other.now) }
{
    page[..PAGE_SIZE - 1] == other[..PAGE_SIZE - 1]
}

/// Whether each of these bytes is zero.
pub fn are_zero(bytes: &[u8]) -> bool
    ensures { result ≡ list_all (λ byte. byte == 0) bytes.now }
{
    bytes.iter().all(|&byte| byte == 0)
}
