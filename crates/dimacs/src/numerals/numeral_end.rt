//! The numeral at the end of the beginning of a line.
ghost use Rattle.std.specs.Prelude.{◌≡◌, ◌-◌, ◌<◌, ◌≤◌, ◌==◌, ℕ, IfSome, None, true, false, not, length, drop, slice_index, if◌then◌else◌};
ghost use Rattle.std.specs.List.{position, position_or_len};
ghost use Rattle.std.specs.Str.Parse.{starts_with_minus};
ghost use Rattle.dimacs.specs.Digits.{are_digits};
ghost use Rattle.dimacs.specs.Lines.{is_blank};
ghost use Rattle.dimacs.specs.NumeralEnds.{ends_in_numeral, EndsInDigits};

use crate::commands::group_lines;
use crate::lines::line::{are_decimal, is_blank};

/// Where the last field begins: after the last blank.
fn last_field_start(front: &[u8]) -> usize
    ensures within { result ≤ length front.now }
    ensures field { (k : ℕ) → result ≤ k → k < length front.now → is_blank (slice_index front.now k) ≡ false }
    ensures behind { 0 < result → is_blank (slice_index front.now (result - 1)) ≡ true }
{
    let mut start = front.len();
    while start > 0 && !is_blank(front[start - 1]) {
        start -= 1;
    }
    start
}

fn without_minus(field: &[u8]) -> &[u8]
    ensures { result.now ≡ (if starts_with_minus field.now then drop 1 field.now else field.now) }
{
    match field {
        [b'-', digits @ ..] => digits,
        _ => field,
    }
}

fn are_digits(bytes: &[u8]) -> bool
    ensures { result ≡ are_digits bytes.now }
{
    !bytes.is_empty() && are_decimal(bytes)
}

/// Where the digits of the last field begin, if that is a numeral and comes after another field.
pub(crate) fn digits_at_end(front: &[u8]) -> Option<usize>
    ensures found { IfSome result (λ start. EndsInDigits front.now start) }
    ensures none { result ≡ None → ends_in_numeral front.now ≡ false }
{
    let (before, field) = front.split_at(last_field_start(front));
    if group_lines::is_blank(before) {
        return None;
    }
    let digits = without_minus(field);
    if !are_digits(digits) {
        return None;
    }
    Some(front.len() - digits.len())
}

fn first_other(digits: &[u8]) -> Option<usize>
    ensures { result ≡ position (λ b. not (b == 48)) digits.now }
{
    digits.iter().position(|byte| *byte != b'0')
}

/// How many zeros there are before the other digits.
pub(crate) fn zeros_in_front(digits: &[u8]) -> usize
    ensures { result ≡ position_or_len (λ b. not (b == 48)) digits.now }
{
    first_other(digits).unwrap_or(digits.len())
}
