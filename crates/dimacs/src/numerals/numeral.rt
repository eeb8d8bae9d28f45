//! Numerals: digits, with at most one minus in front.
ghost use Rattle.std.specs.Prelude.{◌≡◌};
ghost use Rattle.std.specs.Option.{option_map};
ghost use Rattle.dimacs.specs.Digits.{kept_size};

const MOST_READABLE: u64 = i64::MAX as u64;

/// A numeral by its sign and its size. A size that does not fit 64 bits is kept as `u64::MAX`.
#[derive(Clone, Copy, Debug, PartialEq, Eq)]
pub struct Numeral {
    pub has_minus: bool,
    pub size: u64,
}

impl Numeral {
    ghost use Rattle.dimacs.specs.Numerals.{numeral, kept};
    ghost use Rattle.dimacs.specs.Faults.{is_unreadable, is_under, is_over};
    ghost use Rattle.dimacs.specs.Reading.{is_outside};
    ghost use Rattle.dimacs.specs.Commands.{is_refused};

    /// The numeral that a field is, if it is one.
    pub fn parse(field: &[u8]) -> Option<Numeral>
        ensures { result ≡ option_map kept (numeral field.now) }
    {
        let (has_minus, digits) = match field {
            [b'-', digits @ ..] => (true, digits),
            _ => (false, field),
        };
        let size = size_of(digits)?;
        Some(Numeral { has_minus, size })
    }

    /// Whether the size is above 2^63 - 1.
    pub fn is_unreadable(self) -> bool
        ensures { result ≡ is_unreadable self }
    {
        self.size > MOST_READABLE
    }

    /// Whether it has a minus, or a size above 2^63 - 1: no command and no event takes such a number.
    pub fn is_refused(self) -> bool
        ensures { result ≡ is_refused self }
    {
        self.has_minus || self.is_unreadable()
    }

    /// Whether the number is below `least`.
    pub fn is_under(self, least: u64) -> bool
        ensures { result ≡ is_under least self }
    {
        if self.has_minus {
            self.size > 0 || least > 0
        } else {
            self.size < least
        }
    }

    /// Whether the number is above `most`.
    pub fn is_over(self, most: u64) -> bool
        ensures { result ≡ is_over most self }
    {
        !self.has_minus && self.size > most
    }

    /// Whether the number is not in `least` to `most`.
    pub fn is_outside(self, least: u64, most: u64) -> bool
        ensures { result ≡ is_outside least most self }
    {
        self.is_under(least) || self.is_over(most)
    }
}

/// The number that these digits spell, up to `u64::MAX`.
fn size_of(digits: &[u8]) -> Option<u64>
    ensures { result ≡ kept_size digits.now }
{
    if digits.is_empty() {
        return None;
    }
    let mut size = 0u64;
    for digit in digits {
        if !digit.is_ascii_digit() {
            return None;
        }
        size = size
            .saturating_mul(10)
            .saturating_add(u64::from(*digit - b'0'));
    }
    Some(size)
}
