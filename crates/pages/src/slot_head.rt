ghost use Rattle.std.specs.Prelude.{◌≡◌, ◌+◌, ◌*◌, ◌≤◌, ◌++◌, length, drop, IsTrue, ◌↔◌, IfOk, nat_le, ◌&&◌};
ghost use Rattle.std.specs.List.{list_all};
ghost use Rattle.std.specs.List.Sorted.{IsStrictlyIncreasing};
ghost use Rattle.byteorder.specs.Endian.{big_number};
ghost use Rattle.pages.specs.Spelling.{body, AreHeadNumbersFit, AreArcsOf, IsHeader, Decodes, SpelledHead, head_front, head_page};
ghost use Rattle.pages.specs.Formats.{arcs_field, arcs_read, landmarks_at};
ghost use Rattle.pages.specs.Reading.{read_items};

use crate::content::Format;
use crate::header::Header;
use crate::writer::{PAGE_SIZE, PageWriter, have_same_body};
use byteorder::{BigEndian, ByteOrder};
use roadnet::{MOST_LANDMARKS, OutOfMemory};
use std::alloc::{AllocError, Global};
use std::marker::Model;

/// The greatest version of a store.
pub const MOST_VERSIONS: u64 = 1 << 48;

const NUMBER_SIZE: usize = 4;

/// The head of a slot: the number of its checkpoint, the version of its network, the sequence of the journal page that follows, how many arcs the network
/// has, and its landmarks, ascending.
#[derive(Debug, Drop)]
pub struct SlotHead {
    epoch: u64,
    version: u64,
    next_sequence: u64,
    arcs: u32,
    landmarks: Vec<u32>,
}

impl Model for SlotHead {
    ghost use Rattle.pages.specs.Contents.{Head};

    ghost Value = { Head };

    ghost view = { λ s. record { epoch = s.epoch; version = s.version; next_sequence = s.next_sequence; arcs = s.arcs; landmarks = s.landmarks.items } };
}

impl SlotHead {
    /// The slot's epoch, at least 1. If two slots are open, the one of the greater epoch is current.
    pub fn epoch(&self) -> u64
        ensures { result ≡ self.now.epoch }
    {
        self.epoch
    }

    /// The version of the slot's network, at most 2^48.
    pub fn version(&self) -> u64
        ensures { result ≡ self.now.version }
    {
        self.version
    }

    /// The sequence of the first journal page after the slot, at most the version.
    pub fn next_sequence(&self) -> u64
        ensures { result ≡ self.now.next_sequence }
    {
        self.next_sequence
    }

    /// How many arcs the slot's network has.
    pub fn arcs(&self) -> u32
        ensures { result ≡ self.now.arcs }
    {
        self.arcs
    }

    /// The landmarks of the slot's network, ascending, each once: at most 1,000.
    pub fn landmarks(&self) -> &[u32]
        ensures { result.now ≡ self.now.landmarks }
    {
        &self.landmarks
    }
}

fn are_fit(epoch: u64, version: u64, next_sequence: u64, count: u32) -> bool
    ensures { IsTrue result ↔ AreHeadNumbersFit epoch version next_sequence count }
{
    (1..=next_sequence.saturating_add(1)).contains(&epoch)
        && next_sequence <= version
        && version <= MOST_VERSIONS
        && count <= MOST_LANDMARKS as u32
}

fn is_ascending(xs: &[u32]) -> bool
    ensures { IsTrue result ↔ IsStrictlyIncreasing xs.now }
{
    xs.windows(2).all(|pair| pair[0] < pair[1])
}

fn are_nodes(xs: &[u32], nodes: u32) -> bool
    ensures { result ≡ list_all (λ x. nat_le 1 x && nat_le x nodes) xs.now }
{
    xs.iter().all(|&x| 1 <= x && x <= nodes)
}

fn are_arcs(header: &Header, arcs: u32) -> bool
    ensures { IsTrue result ↔ AreArcsOf header.now arcs }
{
    header.arcs <= arcs && arcs <= header.room
}

/// Writes the number of arcs, if the format has it.
fn put_arcs(page: &mut PageWriter, format: Format, arcs: u32)
    requires { length page.old + 4 ≤ 4096 }
    ensures { page.new ≡ page.old ++ arcs_field format arcs }
{
    match format {
        Format::One => {}
        Format::Two => page.put_u32(arcs),
    }
}

/// Writes the numbers of a head, which come before the landmarks.
fn put_front(
    page: &mut PageWriter,
    format: Format,
    epoch: u64,
    version: u64,
    next_sequence: u64,
    arcs: u32,
    landmarks: &[u32],
)
    requires room { length page.old + 32 ≤ 4096 }
    requires few { length landmarks.now ≤ 1000 }
    ensures { page.new ≡ page.old ++ head_front format (record { epoch = epoch; version = version; next_sequence = next_sequence; arcs = arcs; landmarks = landmarks.now }) }
{
    page.put_u64(epoch);
    page.put_u64(version);
    page.put_u64(next_sequence);
    page.put_u32(landmarks.len() as u32);
    put_arcs(page, format, arcs);
}

/// The page of a slot's head in this format, with its gate closed. There are at most 1,000 landmarks.
pub fn encode_slot_head(
    format: Format,
    epoch: u64,
    version: u64,
    next_sequence: u64,
    arcs: u32,
    landmarks: &[u32],
) -> [u8; PAGE_SIZE]
    requires { length landmarks.now ≤ 1000 }
    ensures { result ≡ head_page format (record { epoch = epoch; version = version; next_sequence = next_sequence; arcs = arcs; landmarks = landmarks.now }) }
{
    let mut page = PageWriter::new();
    put_front(
        &mut page,
        format,
        epoch,
        version,
        next_sequence,
        arcs,
        landmarks,
    );
    for &landmark in landmarks {
        page.put_u32(landmark);
    }
    page.finish()
}

/// The number of arcs in the head of a slot, in a store of these sizes.
fn read_arcs(page: &[u8; PAGE_SIZE], header: &Header) -> u32
    ensures { result ≡ arcs_read header.now.format header.now.arcs (big_number 4 (drop 28 page.now)) }
{
    match header.format {
        Format::One => header.arcs,
        Format::Two => BigEndian::read_u32(&page[28..]),
    }
}

/// Where the landmarks are.
fn landmarks_at(format: Format) -> usize
    ensures place { result ≡ landmarks_at format }
    ensures within { result ≤ 32 }
{
    match format {
        Format::One => 28,
        Format::Two => 32,
    }
}

fn read_numbers(alloc: Global, bytes: &[u8], count: usize) -> Result<Vec<u32>, AllocError>
    requires { 4 * count ≤ length bytes.now }
    ensures { IfOk result (λ numbers. numbers.items ≡ read_items (big_number 4) 4 count bytes.now) }
{
    let mut numbers = Vec::with_capacity(alloc, count)?;
    let mut rest = bytes;
    for _ in 0..count {
        let (front, after) = rest.split_at(NUMBER_SIZE);
        numbers.push(BigEndian::read_u32(front))?;
        rest = after;
    }
    Ok(numbers)
}

/// Whether the page, apart from its gate, is that of a head with these parts.
fn is_head_page(
    page: &[u8; PAGE_SIZE],
    format: Format,
    epoch: u64,
    version: u64,
    next_sequence: u64,
    arcs: u32,
    landmarks: &[u32],
) -> bool
    requires { length landmarks.now ≤ 1000 }
    ensures { IsTrue result ↔ (body page.now ≡ body (head_page format (record { epoch = epoch; version = version; next_sequence = next_sequence; arcs = arcs; landmarks = landmarks.now }))) }
{
    let encoded = encode_slot_head(format, epoch, version, next_sequence, arcs, landmarks);
    have_same_body(page, &encoded)
}

/// The head of a slot on the page, in a store of these sizes and with any gate. `None` if the page is not valid.
pub fn decode_slot_head(
    alloc: Global,
    page: &[u8; PAGE_SIZE],
    header: &Header,
) -> Result<Option<SlotHead>, OutOfMemory>
    requires { IsHeader header.now }
    ensures { IfOk result (λ found. Decodes (SpelledHead header.now page.now) found) }
{
    let epoch = BigEndian::read_u64(page);
    let version = BigEndian::read_u64(&page[8..]);
    let next_sequence = BigEndian::read_u64(&page[16..]);
    let count = BigEndian::read_u32(&page[24..]);
    if !are_fit(epoch, version, next_sequence, count) {
        return Ok(None);
    }
    let arcs = read_arcs(page, header);
    if !are_arcs(header, arcs) {
        return Ok(None);
    }
    let from = landmarks_at(header.format);
    let landmarks = read_numbers(alloc, &page[from..], count as usize)?;
    if !is_ascending(&landmarks) {
        return Ok(None);
    }
    if !are_nodes(&landmarks, header.nodes) {
        return Ok(None);
    }
    if !is_head_page(
        page,
        header.format,
        epoch,
        version,
        next_sequence,
        arcs,
        &landmarks,
    ) {
        return Ok(None);
    }
    Ok(Some(SlotHead {
        epoch,
        version,
        next_sequence,
        arcs,
        landmarks,
    }))
}
