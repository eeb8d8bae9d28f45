//! The numbers of a line `table`, taken one by one, and the pairs that they ask for.
ghost use Rattle.std.specs.Prelude.{◌≡◌, ◌||◌, ◌+◌, ◌≤◌, ◌++◌, ◌∷◌, [], List, ℕ, Some, length, map, min, slice_index_or, IfOk, OnOk};
ghost use lib.Chars.{codes};
ghost use Rattle.dimacs.specs.Commands.{is_refused};
ghost use Rattle.dimacs.specs.Faults.{Row};
ghost use Rattle.session_lines.specs.Fields.{IsField, as_row, field_number_of};
ghost use Rattle.session_lines.specs.Listings.{AreListed, IsListing, has_room, is_sized, is_whole, numbers_by, sources_of, targets_of};
ghost use Rattle.session_lines.specs.SessionLines.{IsLine};
ghost use Rattle.session_lines.specs.Tables.{is_table_size, pairs_of};

use crate::asked_tables::Table;
use crate::fields::Field;
use crate::lines::{Line, bad_line};
use dimacs::{Code, Numeral};
use roadnet::OutOfMemory;
use std::alloc::Global;

/// The most pairs that a table has.
const MOST_PAIRS: u64 = 16_777_216;

impl Table {
    /// Its sources, and its targets.
    pub fn halves(&self) -> (&[u64], &[u64])
        ensures sources { result.0.now ≡ sources_of self.now }
        ensures targets { result.1.now ≡ targets_of self.now }
    {
        let nodes = &self.numbers[2..];
        nodes.split_at(self.sources)
    }

    /// The pairs of each source with each target, source by source. The only error is lack of memory, for 16 bytes a pair.
    pub fn pairs(&self, alloc: Global) -> Result<Vec<(u64, u64)>, OutOfMemory>
        ensures { IfOk result (λ pairs. pairs.items ≡ pairs_of (sources_of self.now) (targets_of self.now)) }
    {
        let (sources, targets) = self.halves();
        let count = sources.len().saturating_mul(targets.len());
        let mut pairs = Vec::with_capacity(alloc, count)?;
        for source in sources {
            add_pairs(&mut pairs, *source, targets)?;
        }
        Ok(pairs)
    }
}

/// Adds the pairs of one source with each target.
fn add_pairs(pairs: &mut Vec<(u64, u64)>, source: u64, targets: &[u64]) -> Result<(), OutOfMemory>
    ensures { OnOk result (pairs.new.items ≡ pairs.old.items ++ map (λ target. (source, target)) targets.now) }
{
    for target in targets {
        if pairs.push((source, *target)).is_err() {
            return Err(OutOfMemory);
        }
    }
    Ok(())
}

/// Whether so many sources and targets may be a table.
fn is_table_size(sources: u64, targets: u64) -> bool
    ensures { result ≡ is_table_size sources targets }
{
    1 <= sources && (1 <= targets && sources.saturating_mul(targets) <= MOST_PAIRS)
}

/// The number at a place, or 0 if there is none.
fn number_at(sizes: &[u64], place: usize) -> u64
    ensures { result ≡ slice_index_or sizes.now place 0 }
{
    match sizes.get(place) {
        Some(size) => *size,
        None => 0,
    }
}

/// How many numbers a table has that begins with these.
fn numbers_by(sizes: &[u64]) -> u64
    ensures { result ≡ min (numbers_by sizes.now) 18446744073709551615 }
{
    let (sources, targets) = (number_at(sizes, 0), number_at(sizes, 1));
    sources.saturating_add(targets).saturating_add(2)
}

/// Whether the counts at the beginning of these are those of a table.
fn is_sized(sizes: &[u64]) -> bool
    ensures { result ≡ is_sized sizes.now }
{
    is_table_size(number_at(sizes, 0), number_at(sizes, 1))
}

/// Whether one more number may follow these.
fn has_room(sizes: &[u64]) -> bool
    ensures { result ≡ has_room sizes.now }
{
    sizes.len() < 2 || (is_sized(sizes) && (sizes.len() as u64) < numbers_by(sizes))
}

/// Whether these are all numbers of a table.
fn is_whole(sizes: &[u64]) -> bool
    ensures { result ≡ is_whole sizes.now }
{
    is_sized(sizes) && sizes.len() as u64 == numbers_by(sizes)
}

/// The numbers after `table` so far: 8 bytes a number.
#[derive(Drop)]
pub enum Listing {
    /// The sizes of these numerals, and whether one of them is refused.
    Numbers { sizes: Vec<u64>, refused: bool },
    /// A field is no numeral, there are too many, or the counts cannot be those of a table, whatever follows.
    Faulty,
    /// There was no memory for one of them.
    Unkept,
}

/// Whether one of these numbers or this one is refused.
fn is_refused_with(refused: bool, number: Numeral) -> bool
    ensures { result ≡ (refused || is_refused number) }
{
    refused || number.is_refused()
}

/// These numbers and one more, if it may follow.
fn with_number(mut sizes: Vec<u64>, refused: bool, number: Numeral) -> Listing
    ensures { (row : Row) (field : List ℕ) → AreListed row sizes.items refused → Some number ≡ field_number_of field → IsListing (row ++ field ∷ []) result }
{
    if !has_room(&sizes) {
        return Listing::Faulty;
    }
    match sizes.push(number.size) {
        Ok(()) => Listing::Numbers {
            sizes,
            refused: is_refused_with(refused, number),
        },
        Err(_) => Listing::Unkept,
    }
}

/// What a line with these numbers asks for.
fn line_of(sizes: Vec<u64>, refused: bool) -> Line
    ensures { (row : Row) → AreListed row sizes.items refused → IsLine (codes "table" ∷ row) result }
{
    if !is_whole(&sizes) {
        return bad_line();
    }
    if refused {
        return Line::Refused {
            code: Code::NumberRange,
            grouped: Code::BadLine,
        };
    }
    let sources = number_at(&sizes, 0) as usize;
    Line::Table(Table {
        numbers: sizes,
        sources,
    })
}

impl Listing {
    /// No field so far.
    pub fn new(alloc: Global) -> Listing
        ensures { IsListing [] result }
    {
        Listing::Numbers {
            sizes: Vec::new(alloc),
            refused: false,
        }
    }

    /// With one more field.
    fn and(self, number: Option<Numeral>) -> Listing
        ensures { (row : Row) (field : List ℕ) → IsListing row self → number ≡ field_number_of field → IsListing (row ++ field ∷ []) result }
    {
        match self {
            Listing::Numbers { sizes, refused } => match number {
                Some(number) => with_number(sizes, refused, number),
                None => Listing::Faulty,
            },
            Listing::Faulty => Listing::Faulty,
            Listing::Unkept => Listing::Unkept,
        }
    }

    /// With the field that ends here, if it has begun.
    pub fn ended(self, field: Field) -> Listing
        ensures { (row : Row) (last : List ℕ) → IsListing row self → IsField last field → IsListing (row ++ as_row last) result }
    {
        match field {
            Field::Unbegun => self,
            Field::Minus => self.and(None),
            Field::Number(number) => self.and(Some(number)),
            Field::Other => self.and(None),
        }
    }

    /// What the line asks for if it ends here.
    pub fn line(self) -> Line
        ensures { (row : Row) → IsListing row self → IsLine (codes "table" ∷ row) result }
    {
        match self {
            Listing::Numbers { sizes, refused } => line_of(sizes, refused),
            Listing::Faulty => bad_line(),
            Listing::Unkept => Line::Unkept,
        }
    }
}
