ghost use Rattle.std.specs.Prelude.{◌≡◌, ℕ, ◌+◌, ◌*◌, ◌<◌, ◌≤◌, ◌++◌, length, map, All, IsTrue, ◌↔◌, IfOk, if◌then◌else◌};
ghost use Rattle.std.specs.List.{flat_map, list_all};
ghost use Rattle.std.specs.Option.{option_map};
ghost use Rattle.roadnet.specs.Groups.{commands_of, count_of};
ghost use Rattle.pages.specs.declared.content.Format.TheVariants.{Two as two};
ghost use Rattle.pages.specs.Grouping.{records_of, records_in, are_whole, ends_in, is_lay, is_of_format};
ghost use Rattle.pages.specs.Spelling.{body, front_bytes, more_byte, Decodes, FitsRecord, IsRecord, AreRecords, SpelledEntry, records_page, entry_page, record_with, command_bytes, record_bytes};
ghost use Rattle.pages.specs.Reading.{read_command, read_record, read_records};
ghost use Rattle.pages.specs.Limits.{most_commands};

use crate::content::{Format, Record};
use crate::writer::{PAGE_SIZE, PageWriter, have_same_body};
use byteorder::{BigEndian, ByteOrder};
use roadnet::{Command, Group, OutOfMemory};
use std::alloc::{AllocError, Global};
use std::marker::Model;

/// The most commands that a journal page holds.
pub const MOST_COMMANDS: usize = 253;

const RECORD_SIZE: usize = 16;

/// A page of the journal: its sequence, the number of its first group, and its groups, record by record.
#[derive(Debug, Drop)]
pub struct JournalPage {
    sequence: u64,
    first_number: u64,
    records: Vec<Record>,
}

impl Model for JournalPage {
    ghost use Rattle.std.specs.Prelude.{◌≡◌, true};
    ghost use Rattle.pages.specs.Contents.{Entry};
    ghost use Rattle.pages.specs.Grouping.{grouped, are_whole};

    ghost Value = { Entry };

    ghost view = { λ j. record { sequence = j.sequence; first_number = j.first_number; groups = grouped j.records.items } };

    ghost invariant = { λ j. are_whole j.records.items ≡ true };
}

impl JournalPage {
    /// The number of its first group.
    pub fn first_number(&self) -> u64
        ensures { result ≡ self.now.first_number }
    {
        self.first_number
    }

    /// The records of its groups, 1 to 253, in the order of their numbers.
    pub fn records(&self) -> &[Record]
        ensures { result.now ≡ records_in self.now.groups }
    {
        &self.records
    }

    /// How many groups it has.
    pub fn group_count(&self) -> usize
        ensures { result ≡ length self.now.groups }
    {
        count_groups(&self.records)
    }
}

/// How many records end a group.
fn count_groups(records: &[Record]) -> usize
    ensures { result ≡ ends_in records.now }
{
    let mut count = 0;
    for record in records {
        if !record.goes_on {
            count += 1;
        }
    }
    count
}

/// The kind and the three numbers that a command's record has.
fn record_parts(command: &Command) -> (u8, u32, u32, u32)
    requires { FitsRecord two command.now }
    ensures { (more : ℕ) → command_bytes more command.now ≡ record_with result.0 more result.1 result.2 result.3 }
{
    match *command {
        Command::Set { arc, length } => (1, arc as u32, length as u32, 0),
        Command::Close { arc } => (2, arc as u32, 0, 0),
        Command::Reopen { arc } => (3, arc as u32, 0, 0),
        Command::Mark { node } => (4, node as u32, 0, 0),
        Command::Unmark { node } => (5, node as u32, 0, 0),
        Command::Lay { tail, head, length } => (6, tail as u32, head as u32, length as u32),
    }
}

fn more_byte(goes_on: bool) -> u8
    ensures { result ≡ more_byte goes_on }
{
    if goes_on { 1 } else { 0 }
}

fn put_record(page: &mut PageWriter, command: &Command, goes_on: bool)
    requires fits { FitsRecord two command.now }
    requires room { length page.old + 16 ≤ 4096 }
    ensures { page.new ≡ page.old ++ command_bytes (more_byte goes_on) command.now }
{
    let (kind, a, b, c) = record_parts(command);
    page.put_bytes(&[kind, more_byte(goes_on), 0, 0]);
    page.put_u32(a);
    page.put_u32(b);
    page.put_u32(c);
}

/// Bytes 0 to 31.
fn put_front(page: &mut PageWriter, sequence: u64, first_number: u64, count: u16)
    requires { length page.old + 32 ≤ 4096 }
    ensures { page.new ≡ page.old ++ front_bytes sequence first_number count }
{
    page.put_u64(sequence);
    page.put_u64(first_number);
    page.put_u16(count);
    page.skip(14);
}

fn put_records(page: &mut PageWriter, records: &[Record])
    requires fits { All (IsRecord two) records.now }
    requires room { length page.old + 16 * length records.now ≤ 4096 }
    ensures { page.new ≡ page.old ++ flat_map record_bytes records.now }
{
    for record in records {
        put_record(page, &record.command, record.goes_on);
    }
}

/// The records of a group.
fn put_group(page: &mut PageWriter, commands: &[Command])
    requires fits { All (FitsRecord two) commands.now }
    requires room { length page.old + 16 * length commands.now ≤ 4096 }
    ensures { page.new ≡ page.old ++ flat_map record_bytes (records_of commands.now) }
{
    for (i, command) in commands.iter().enumerate() {
        put_record(page, command, i + 1 < commands.len());
    }
}

fn put_groups(page: &mut PageWriter, groups: &[Group])
    requires fits { All (FitsRecord two) (commands_of groups.now) }
    requires room { length page.old + 16 * count_of groups.now ≤ 4096 }
    ensures { page.new ≡ page.old ++ flat_map record_bytes (records_in groups.now) }
{
    for group in groups {
        put_group(page, group.commands());
    }
}

/// How many commands these groups have.
fn count_commands(groups: &[Group]) -> usize
    requires { count_of groups.now ≤ most_commands }
    ensures { result ≡ count_of groups.now }
{
    let mut count = 0;
    for group in groups {
        count += group.commands().len();
    }
    count
}

/// The page of these groups, the first of which has this number, with its gate closed. The groups have 1 to 253 commands in all, and each number and length
/// in them is below 2^32.
pub fn encode_journal_page(sequence: u64, first_number: u64, groups: &[Group]) -> [u8; PAGE_SIZE]
    requires few { count_of groups.now ≤ most_commands }
    requires fits { All (FitsRecord two) (commands_of groups.now) }
    ensures { result ≡ entry_page (record { sequence = sequence; first_number = first_number; groups = groups.now }) }
{
    let mut page = PageWriter::new();
    put_front(
        &mut page,
        sequence,
        first_number,
        count_commands(groups) as u16,
    );
    put_groups(&mut page, groups);
    page.finish()
}

/// The page of these records.
fn encode_records(sequence: u64, first_number: u64, records: &[Record]) -> [u8; PAGE_SIZE]
    requires few { length records.now ≤ most_commands }
    requires fits { All (IsRecord two) records.now }
    ensures { result ≡ records_page sequence first_number records.now }
{
    let mut page = PageWriter::new();
    put_front(&mut page, sequence, first_number, records.len() as u16);
    put_records(&mut page, records);
    page.finish()
}

/// The command of a record, if its kind is valid.
fn read_command(bytes: &[u8]) -> Option<Command>
    requires { 16 ≤ length bytes.now }
    ensures { result ≡ read_command bytes.now }
{
    let a = u64::from(BigEndian::read_u32(&bytes[4..]));
    let b = u64::from(BigEndian::read_u32(&bytes[8..]));
    let c = u64::from(BigEndian::read_u32(&bytes[12..]));
    match bytes[0] {
        1 => Some(Command::Set { arc: a, length: b }),
        2 => Some(Command::Close { arc: a }),
        3 => Some(Command::Reopen { arc: a }),
        4 => Some(Command::Mark { node: a }),
        5 => Some(Command::Unmark { node: a }),
        6 => Some(Command::Lay {
            tail: a,
            head: b,
            length: c,
        }),
        _ => None,
    }
}

/// The record at this place, if its kind is valid.
fn read_record(bytes: &[u8]) -> Option<Record>
    requires { 16 ≤ length bytes.now }
    ensures { result ≡ read_record bytes.now }
{
    let Some(command) = read_command(bytes) else {
        return None;
    };
    Some(Record {
        command,
        goes_on: bytes[1] != 0,
    })
}

/// So many records, if all their kinds are valid.
fn read_records(
    alloc: Global,
    bytes: &[u8],
    count: usize,
) -> Result<Option<Vec<Record>>, AllocError>
    requires { 16 * count ≤ length bytes.now }
    ensures { IfOk result (λ found. option_map (λ v. v.items) found ≡ read_records count bytes.now) }
{
    let mut records = Vec::with_capacity(alloc, count)?;
    let mut rest = bytes;
    for _ in 0..count {
        let (front, after) = rest.split_at(RECORD_SIZE);
        let Some(record) = read_record(front) else {
            return Ok(None);
        };
        records.push(record)?;
        rest = after;
    }
    Ok(Some(records))
}

/// Whether a journal page may hold so many commands.
fn is_count(count: usize) -> bool
    ensures { IsTrue result ↔ ((1 ≤ count) × (count ≤ most_commands)) }
{
    (1..=MOST_COMMANDS).contains(&count)
}

fn is_lay(command: &Command) -> bool
    ensures { result ≡ is_lay command.now }
{
    match *command {
        Command::Set { arc: _, length: _ } => false,
        Command::Close { arc: _ } => false,
        Command::Reopen { arc: _ } => false,
        Command::Mark { node: _ } => false,
        Command::Unmark { node: _ } => false,
        Command::Lay {
            tail: _,
            head: _,
            length: _,
        } => true,
    }
}

fn is_of_format(format: Format, found: &Record) -> bool
    ensures { result ≡ is_of_format format found.now }
{
    match format {
        Format::One => !found.goes_on && !is_lay(&found.command),
        Format::Two => true,
    }
}

fn are_of_format(format: Format, records: &[Record]) -> bool
    ensures { result ≡ list_all (is_of_format format) records.now }
{
    records.iter().all(|r| is_of_format(format, r))
}

/// Whether the last group ends with the last record.
fn are_whole(records: &[Record]) -> bool
    ensures { result ≡ are_whole records.now }
{
    match records.last() {
        Some(record) => !record.goes_on,
        None => true,
    }
}

/// Whether the page, apart from its gate, is that of these records.
fn is_records_page(
    page: &[u8; PAGE_SIZE],
    sequence: u64,
    first_number: u64,
    records: &[Record],
) -> bool
    requires few { length records.now ≤ most_commands }
    requires fits { All (IsRecord two) records.now }
    ensures { IsTrue result ↔ (body page.now ≡ body (records_page sequence first_number records.now)) }
{
    let encoded = encode_records(sequence, first_number, records);
    have_same_body(page, &encoded)
}

/// The content of the page in this format, with any gate. `None` if the page is not valid. It is not judged here whether a command is admitted.
pub fn decode_journal_page(
    alloc: Global,
    page: &[u8; PAGE_SIZE],
    format: Format,
) -> Result<Option<JournalPage>, OutOfMemory>
    ensures { IfOk result (λ found. Decodes (SpelledEntry format page.now) found) }
{
    let sequence = BigEndian::read_u64(page);
    let first_number = BigEndian::read_u64(&page[8..]);
    let count = usize::from(BigEndian::read_u16(&page[16..]));
    if !is_count(count) {
        return Ok(None);
    }
    let Some(records) = read_records(alloc, &page[32..], count)? else {
        return Ok(None);
    };
    if !are_of_format(format, &records) {
        return Ok(None);
    }
    if !are_whole(&records) {
        return Ok(None);
    }
    if !is_records_page(page, sequence, first_number, &records) {
        return Ok(None);
    }
    Ok(Some(JournalPage {
        sequence,
        first_number,
        records,
    }))
}
