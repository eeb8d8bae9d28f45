//! Fields for numbers, taken byte by byte: none of their bytes is kept.
ghost use Rattle.std.specs.Prelude.{◌≡◌, ◌≢◌, ◌∷◌, ◌++◌, [], List, ℕ, Some, false, MatchOption};
ghost use Rattle.dimacs.specs.Faults.{Row};
ghost use Rattle.session_lines.specs.Fields.{IsField, IsNumbers, HasDigits, signed_field, field_number_of, as_row, has_one, has_two, has_three};

use dimacs::Numeral;

/// A field for a number, as far as it has come.
#[derive(Clone, Copy)]
pub enum Field {
    /// No byte of it has come.
    Unbegun,
    /// A minus.
    Minus,
    /// A numeral, which may continue.
    Number(Numeral),
    /// No numeral, whatever follows.
    Other,
}

/// The complete fields after a word, each as the numeral that it is, if it is one.
#[derive(Clone, Copy)]
pub enum Numbers {
    Nothing,
    One(Option<Numeral>),
    Two(Option<Numeral>, Option<Numeral>),
    Three(Option<Numeral>, Option<Numeral>, Option<Numeral>),
    /// More than follow any word.
    TooMany,
}

/// What digits of this size, after a minus or without one, become with one more byte.
fn with_digit(has_minus: bool, size: u64, byte: u8) -> Field
    ensures { (digits : List ℕ) → HasDigits digits size → (signed_field has_minus digits ≡ [] → byte ≢ 45)
        → IsField (signed_field has_minus (digits ++ byte ∷ [])) result }
{
    if !byte.is_ascii_digit() {
        return Field::Other;
    }
    Field::Number(Numeral {
        has_minus,
        size: size
            .saturating_mul(10)
            .saturating_add(u64::from(byte - b'0')),
    })
}

impl Field {
    /// The field with one more byte.
    pub fn with(self, byte: u8) -> Field
        ensures { (field : List ℕ) → IsField field self → IsField (field ++ byte ∷ []) result }
    {
        match self {
            Field::Unbegun => {
                if byte == b'-' {
                    Field::Minus
                } else {
                    with_digit(false, 0, byte)
                }
            }
            Field::Minus => with_digit(true, 0, byte),
            Field::Number(number) => with_digit(number.has_minus, number.size, byte),
            Field::Other => Field::Other,
        }
    }
}

impl Numbers {
    /// These, and one more field.
    fn and(self, number: Option<Numeral>) -> Numbers
        ensures { (row : Row) (field : List ℕ) → IsNumbers row self → number ≡ field_number_of field → IsNumbers (row ++ field ∷ []) result }
    {
        match self {
            Numbers::Nothing => Numbers::One(number),
            Numbers::One(first) => Numbers::Two(first, number),
            Numbers::Two(first, second) => Numbers::Three(first, second, number),
            Numbers::Three(..) => Numbers::TooMany,
            Numbers::TooMany => Numbers::TooMany,
        }
    }

    /// These, and the field that ends here, if it has begun.
    pub fn ended(self, field: Field) -> Numbers
        ensures { (row : Row) (last : List ℕ) → IsNumbers row self → IsField last field → IsNumbers (row ++ as_row last) result }
    {
        match field {
            Field::Unbegun => self,
            Field::Minus => self.and(None),
            Field::Number(number) => self.and(Some(number)),
            Field::Other => self.and(None),
        }
    }
}

/// One numeral and no other field.
pub fn one_of(numbers: Numbers) -> Option<Numeral>
    ensures { MatchOption result (has_one numbers ≡ false) (λ number. numbers ≡ Numbers.One (Some number)) }
{
    match numbers {
        Numbers::One(Some(number)) => Some(number),
        _ => None,
    }
}

/// Two numerals and no other field.
pub fn two_of(numbers: Numbers) -> Option<(Numeral, Numeral)>
    ensures { MatchOption result (has_two numbers ≡ false) (λ both. numbers ≡ Numbers.Two (Some both.0) (Some both.1)) }
{
    match numbers {
        Numbers::Two(Some(first), Some(second)) => Some((first, second)),
        _ => None,
    }
}

/// Three numerals and no other field.
pub fn three_of(numbers: Numbers) -> Option<(Numeral, Numeral, Numeral)>
    ensures { MatchOption result (has_three numbers ≡ false) (λ all. numbers ≡ Numbers.Three (Some all.0) (Some all.1) (Some all.2)) }
{
    match numbers {
        Numbers::Three(Some(first), Some(second), Some(third)) => Some((first, second, third)),
        _ => None,
    }
}
