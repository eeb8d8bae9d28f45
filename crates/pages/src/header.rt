ghost use Rattle.std.specs.Prelude.{◌≡◌, IsTrue, ◌↔◌, take, drop};
ghost use Rattle.std.specs.Str.{bytes_eq};
ghost use Rattle.byteorder.specs.Endian.{big_number};
ghost use Rattle.pages.specs.Spelling.{body, header_page, Decodes, IsHeader, SpelledHeader};
ghost use Rattle.pages.specs.Reading.{read_header};
ghost use Rattle.pages.specs.Formats.{IsHeaderRoomFor, room_field, room_read};
ghost use Rattle.pages.specs.Limits.{magic};

use crate::content::Format;
use crate::writer::{PAGE_SIZE, PageWriter, have_same_body};
use byteorder::{BigEndian, ByteOrder};
use roadnet::{MOST_ARCS, MOST_NODES};

/// The first bytes of a store.
pub const MAGIC: [u8; 8] = *b"ROADMRK1";

/// Whether the page begins as the first page of a store does, in any format.
pub fn has_magic(page: &[u8; PAGE_SIZE]) -> bool
    ensures { result ≡ bytes_eq (take 8 page.now) magic }
{
    page[..8] == MAGIC[..]
}

/// The number of the format, if the page is the first one of a store.
pub fn format_of(page: &[u8; PAGE_SIZE]) -> u32
    ensures { result ≡ big_number 4 (drop 8 page.now) }
{
    BigEndian::read_u32(&page[8..])
}

/// The format of a store, and its sizes: the nodes, the arcs that it was created with, the number of arcs that it has room for, and the pages of its
/// journal.
#[derive(Clone, Copy, Debug, PartialEq, Eq)]
pub struct Header {
    pub format: Format,
    pub nodes: u32,
    pub arcs: u32,
    pub room: u32,
    pub journal_pages: u32,
}

fn is_room(format: Format, arcs: u32, room: u32) -> bool
    ensures { IsTrue result ↔ IsHeaderRoomFor format arcs room }
{
    match format {
        Format::One => room == arcs,
        Format::Two => true,
    }
}

fn is_header(header: &Header) -> bool
    ensures { IsTrue result ↔ IsHeader header.now }
{
    (1..=MOST_NODES).contains(&header.nodes)
        && header.arcs <= header.room
        && header.room <= MOST_ARCS as u32
        && is_room(header.format, header.arcs, header.room)
        && (1..=65_536).contains(&header.journal_pages)
}

/// What is at the place of the room.
fn room_field(format: Format, room: u32) -> u32
    ensures { result ≡ room_field format room }
{
    match format {
        Format::One => 0,
        Format::Two => room,
    }
}

/// The room, given what is at its place.
fn room_read(format: Format, arcs: u32, field: u32) -> u32
    ensures { result ≡ room_read format arcs field }
{
    match format {
        Format::One => arcs,
        Format::Two => field,
    }
}

/// The page of a header, with its gate closed.
pub fn encode_header(header: &Header) -> [u8; PAGE_SIZE]
    ensures { result ≡ header_page header.now }
{
    let mut page = PageWriter::new();
    page.put_bytes(&MAGIC);
    page.put_u32(header.format.number());
    page.put_u32(header.nodes);
    page.put_u32(header.arcs);
    page.put_u32(header.journal_pages);
    page.put_u32(room_field(header.format, header.room));
    page.finish()
}

/// The numbers at the places of a header's numbers.
fn read_header(page: &[u8; PAGE_SIZE]) -> Header
    ensures { result ≡ read_header page.now }
{
    let number = BigEndian::read_u32(&page[8..]);
    let nodes = BigEndian::read_u32(&page[12..]);
    let arcs = BigEndian::read_u32(&page[16..]);
    let journal_pages = BigEndian::read_u32(&page[20..]);
    let field = BigEndian::read_u32(&page[24..]);
    let format = Format::numbered(number);
    Header {
        format,
        nodes,
        arcs,
        room: room_read(format, arcs, field),
        journal_pages,
    }
}

/// Whether the page, apart from its gate, is the header's.
fn is_header_page(page: &[u8; PAGE_SIZE], header: &Header) -> bool
    ensures { IsTrue result ↔ (body page.now ≡ body (header_page header.now)) }
{
    have_same_body(page, &encode_header(header))
}

/// The header of the page, in either format and with any gate. `None` if the page is not valid.
pub fn decode_header(page: &[u8; PAGE_SIZE]) -> Option<Header>
    ensures { Decodes (SpelledHeader page.now) result }
{
    let header = read_header(page);
    if !is_header(&header) {
        return None;
    }
    if !is_header_page(page, &header) {
        return None;
    }
    Some(header)
}
