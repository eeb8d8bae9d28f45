//! Lines of a text, and fields of a line.
ghost use Rattle.std.specs.Prelude.{◌≡◌, ◌<◌, ◌≤◌, ◌∷◌, [], List, ℕ, length, MatchOption, IfSome, not, ◌≢◌, ◌++◌, All, true};
ghost use Rattle.std.specs.List.{position, position_or_len, list_all};
ghost use Rattle.dimacs.specs.Digits.{is_decimal};
ghost use Rattle.std.specs.Io.BufRead.{strip_last};
ghost use Rattle.dimacs.specs.Lines.{is_line_feed, is_blank, lines, fields};
ghost use Rattle.dimacs.specs.Kinds.{IsLineKind};
ghost use Rattle.dimacs.specs.Faults.{is_remark};
ghost use Rattle.dimacs.specs.Joint.{is_run};
ghost use Rattle.dimacs.specs.Overflow.{LineGoesOn, has_other_byte, is_beyond, Overflowing, IsBlankFront, EndsInBlank};

use memchr::memchr;

pub(crate) fn is_blank(byte: u8) -> bool
    ensures { result ≡ is_blank byte }
{
    byte == b' ' || byte == b'\t'
}

/// Where the first field of a line begins.
fn field_start(line: &[u8]) -> Option<usize>
    ensures { result ≡ position (λ b. not (is_blank b)) line.now }
{
    line.iter().position(|byte| !is_blank(*byte))
}

fn first_blank(rest: &[u8]) -> Option<usize>
    ensures { result ≡ position is_blank rest.now }
{
    rest.iter().position(|byte| is_blank(*byte))
}

/// The length of the field that begins here.
fn field_len(rest: &[u8]) -> usize
    ensures { result ≡ position_or_len is_blank rest.now }
{
    first_blank(rest).unwrap_or(rest.len())
}

/// The first field in the beginning of a line, and what follows it. If nothing follows, the field may continue in the bytes to come.
fn split_front(front: &[u8]) -> Option<(&[u8], &[u8])>
    ensures line { MatchOption result (fields front.now ≡ [])
        (λ found. fields front.now ≡ found.0.now ∷ fields found.1.now) }
    ensures goes_on { IfSome result (λ found. (more : List ℕ) → LineGoesOn front.now found.0.now found.1.now more) }
    ensures shorter { IfSome result (λ found. length found.1.now < length front.now) }
{
    let start = field_start(front)?;
    let (_, rest) = front.split_at(start);
    Some(rest.split_at(field_len(rest)))
}

/// The first field of a line, and what follows it. In ` set 8 4` they are `set` and ` 8 4`. A line of blanks has none.
pub fn split_field(line: &[u8]) -> Option<(&[u8], &[u8])>
    ensures { MatchOption result (fields line.now ≡ [])
        (λ found. fields line.now ≡ found.0.now ∷ fields found.1.now) }
{
    split_front(line)
}

/// More bytes than any word of a text has, and more fields than any line of a text has.
const MUCH: usize = 16;

fn is_decimal(byte: u8) -> bool
    ensures { result ≡ is_decimal byte }
{
    char::from(byte).is_digit(10)
}

pub(crate) fn are_decimal(digits: &[u8]) -> bool
    ensures { result ≡ list_all is_decimal digits.now }
{
    digits.iter().all(|byte| is_decimal(*byte))
}

/// Whether some byte, apart from a minus in front, is not a digit: such a field is no numeral, whatever follows.
fn has_other_byte(field: &[u8]) -> bool
    ensures { result ≡ has_other_byte field.now }
{
    match field {
        [b'-', digits @ ..] => !are_decimal(digits),
        _ => !are_decimal(field),
    }
}

/// Whether a line overflows with this field, which comes after so many others.
fn is_beyond(before: usize, field: &[u8]) -> bool
    ensures { result ≡ is_beyond before field.now }
{
    before >= MUCH || (field.len() > MUCH && (before == 0 || has_other_byte(field)))
}

/// Whether every line that begins with these bytes overflows: it has more than 16 fields, a first field of more than 16 bytes, or a field of more than 16
/// bytes that is no numeral. Such a line of a text is a comment or has a fault.
pub(crate) fn overflows(front: &[u8]) -> bool
    ensures { result ≡ true → Overflowing front.now }
{
    let mut rest = front;
    let mut before = 0;
    while let Some((field, more)) = split_front(rest) {
        if is_beyond(before, field) {
            return true;
        }
        if more.is_empty() {
            return false;
        }
        before += 1;
        rest = more;
    }
    false
}

/// What follows the blanks in front.
pub(crate) fn without_blanks(piece: &[u8]) -> &[u8]
    ensures blanks { IsBlankFront piece.now result.now }
    ensures shorter { length result.now ≤ length piece.now }
{
    match field_start(piece) {
        Some(start) => {
            let (_, rest) = piece.split_at(start);
            rest
        }
        None => &[],
    }
}

/// Whether the last byte is a blank.
pub(crate) fn ends_in_blank(line: &[u8]) -> bool
    ensures { result ≡ true → EndsInBlank line.now }
{
    match line {
        [.., last] => is_blank(*last),
        _ => false,
    }
}

pub(crate) fn without_carriage_return(line: &[u8]) -> &[u8]
    ensures { result.now ≡ strip_last 13 line.now }
{
    match line {
        [front @ .., b'\r'] => front,
        _ => line,
    }
}

fn line_end(text: &[u8]) -> Option<usize>
    ensures { result ≡ position is_line_feed text.now }
{
    memchr(b'\n', text)
}

/// The first line of a text, and what follows it.
pub(crate) fn split_line(text: &[u8]) -> Option<(&[u8], &[u8])>
    ensures line { MatchOption result (lines text.now ≡ [])
        (λ found. lines text.now ≡ found.0.now ∷ lines found.1.now) }
    ensures shorter { IfSome result (λ found. length found.1.now < length text.now) }
{
    if text.is_empty() {
        return None;
    }
    match line_end(text) {
        Some(end) => {
            let (line, _) = text.split_at(end);
            let (_, rest) = text.split_at(end + 1);
            Some((without_carriage_return(line), rest))
        }
        None => Some((without_carriage_return(text), &[])),
    }
}

/// The bytes before the first line feed, and those after it.
pub(crate) fn split_at_feed(bytes: &[u8]) -> Option<(&[u8], &[u8])>
    ensures { MatchOption result (All (λ b. b ≢ 10) bytes.now)
        (λ found. (bytes.now ≡ found.0.now ++ 10 ∷ found.1.now) × All (λ b. b ≢ 10) found.0.now) }
{
    let end = line_end(bytes)?;
    let (line, _) = bytes.split_at(end);
    let (_, rest) = bytes.split_at(end + 1);
    Some((line, rest))
}

/// Whether the first byte after blanks is the mark of a comment.
pub(crate) fn is_remark(line: &[u8], mark: u8) -> bool
    ensures { result ≡ is_remark mark (fields line.now) }
{
    match split_field(line) {
        Some(([first, ..], _)) => *first == mark,
        _ => false,
    }
}

/// Whether the line has only the field `run`.
pub(crate) fn is_run(line: &[u8]) -> bool
    ensures { result ≡ is_run (fields line.now) }
{
    match split_field(line) {
        Some((b"run", rest)) => split_field(rest).is_none(),
        _ => false,
    }
}

/// A line by its kind, with what follows its first field.
pub(crate) enum LineKind<'a> {
    /// A line with no field, or a comment.
    Ignored,
    Problem(&'a [u8]),
    Item(&'a [u8]),
    Unknown,
}

/// The kind of a line, in a format whose item lines begin with this letter.
pub(crate) fn kind_of(line: &[u8], item: u8) -> LineKind<'_>
    requires { (item ≢ 99) × (item ≢ 112) }
    ensures { IsLineKind item (fields line.now) result }
{
    match split_field(line) {
        None | Some(([b'c', ..], _)) => LineKind::Ignored,
        Some((b"p", words)) => LineKind::Problem(words),
        Some(([first], numbers)) if *first == item => LineKind::Item(numbers),
        Some(_) => LineKind::Unknown,
    }
}
