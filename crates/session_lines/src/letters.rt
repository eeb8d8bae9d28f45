//! The bytes of a line's first field.
ghost use Rattle.std.specs.Prelude.{◌≡◌, ◌≤◌, ◌∷◌, ◌++◌, [], take, MatchOption};
ghost use Rattle.std.specs.Str.{bytes_eq};
ghost use lib.Chars.{codes};
ghost use Rattle.session_lines.specs.Spelled.{session_word_from};

use crate::words::{SessionWord, is_copy, is_table, word_of};

/// The most bytes that a word has.
const LONGEST_WORD: usize = 9;

/// The bytes of a line's first field, at most as many as a word may have.
#[derive(Clone, Copy)]
pub struct Letters {
    bytes: [u8; LONGEST_WORD],
    count: usize,
    ghost few: { count ≤ 9 },
}

impl Letters {
    /// One letter.
    pub fn one(byte: u8) -> Letters
        ensures { take result.count result.bytes ≡ byte ∷ [] }
    {
        let mut bytes = [0; LONGEST_WORD];
        bytes[0] = byte;
        Letters { bytes, count: 1 }
    }

    /// With one more letter, if a word may have so many.
    pub fn with(self, byte: u8) -> Option<Letters>
        ensures { MatchOption result (self.count ≡ 9) (λ more. take more.count more.bytes ≡ take self.count self.bytes ++ byte ∷ []) }
    {
        if self.count == LONGEST_WORD {
            return None;
        }
        let mut bytes = self.bytes;
        bytes[self.count] = byte;
        Some(Letters {
            bytes,
            count: self.count + 1,
        })
    }

    /// The word that they spell.
    pub fn word(&self) -> Option<SessionWord>
        ensures { result ≡ session_word_from (take self.now.count self.now.bytes) }
    {
        word_of(&self.bytes[..self.count])
    }

    /// Whether they spell `copy`, which is followed by a name.
    pub fn are_copy(&self) -> bool
        ensures { result ≡ bytes_eq (take self.now.count self.now.bytes) (codes "copy") }
    {
        is_copy(&self.bytes[..self.count])
    }

    /// Whether they spell `table`, which is followed by as many numbers as the first two of them say.
    pub fn are_table(&self) -> bool
        ensures { result ≡ bytes_eq (take self.now.count self.now.bytes) (codes "table") }
    {
        is_table(&self.bytes[..self.count])
    }
}
