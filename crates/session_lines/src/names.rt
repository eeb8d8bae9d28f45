//! The names of copies.
ghost use Rattle.std.specs.Prelude.{◌≡◌, ◌≤◌, ◌∷◌, ◌++◌, [], take, true, MatchOption};
ghost use Rattle.session_lines.specs.Names.{is_name, is_name_byte};

/// The most bytes that a name has.
const LONGEST_NAME: usize = 64;

/// Whether a byte may be in a name: a letter, a digit, `-` or `_`.
pub fn is_name_byte(byte: u8) -> bool
    ensures { result ≡ is_name_byte byte }
{
    byte.is_ascii_alphanumeric() || (byte == b'-' || byte == b'_')
}

/// The name of a copy: 1 to 64 letters, digits, `-` and `_`.
#[derive(Clone, Copy)]
pub struct Name {
    bytes: [u8; LONGEST_NAME],
    count: usize,
    ghost few: { count ≤ 64 },
    ghost fit: { is_name (take count bytes) ≡ true },
}

impl Name {
    /// One byte.
    pub fn one(byte: u8) -> Name
        requires { is_name_byte byte ≡ true }
        ensures { take result.count result.bytes ≡ byte ∷ [] }
    {
        let mut bytes = [0; LONGEST_NAME];
        bytes[0] = byte;
        Name { bytes, count: 1 }
    }

    /// With one more byte, if a name may have so many.
    pub fn with(self, byte: u8) -> Option<Name>
        requires { is_name_byte byte ≡ true }
        ensures { MatchOption result (self.count ≡ 64) (λ more. take more.count more.bytes ≡ take self.count self.bytes ++ byte ∷ []) }
    {
        if self.count == LONGEST_NAME {
            return None;
        }
        let mut bytes = self.bytes;
        bytes[self.count] = byte;
        Some(Name {
            bytes,
            count: self.count + 1,
        })
    }

    /// Its bytes.
    pub fn bytes(&self) -> &[u8]
        ensures bytes { result.now ≡ take self.now.count self.now.bytes }
        ensures fit { is_name result.now ≡ true }
    {
        &self.bytes[..self.count]
    }
}
