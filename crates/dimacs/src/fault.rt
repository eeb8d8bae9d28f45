//! Why a text is refused.

use thiserror::Error;

/// The faults of texts. Each displays as its number and its name, as in `8 LineCount`.
#[derive(Clone, Copy, Debug, PartialEq, Eq, Error)]
pub enum Code {
    /// The first field is unknown to this kind of text, the number of fields is wrong, or a field is no numeral where there must be a number.
    #[error("1 BadLine")]
    BadLine,
    /// An item line comes before the problem line, or the text ends without a problem line.
    #[error("2 NoProblemLine")]
    NoProblemLine,
    /// There is a second problem line.
    #[error("3 SecondProblemLine")]
    SecondProblemLine,
    /// The fields after `p` do not begin with the kind words of this kind of text.
    #[error("4 WrongKind")]
    WrongKind,
    /// A numeral is above 2^63 - 1, or a count is below its least value.
    #[error("5 NumberRange")]
    NumberRange,
    /// A number is not the number of a node.
    #[error("6 NodeRange")]
    NodeRange,
    /// A length is not in 0 to 2147483647.
    #[error("7 LengthRange")]
    LengthRange,
    /// There are more item lines than announced, or the text ends with fewer.
    #[error("8 LineCount")]
    LineCount,
    /// A count is above its limit.
    #[error("9 TooLarge")]
    TooLarge,
    /// The reader failed in this line.
    #[error("10 Read")]
    Read,
    /// There was no memory for this line, and no line before it has a fault. If the text is in memory, this line has none either. If it comes from a
    /// reader, this line may have one, because there was no room for its bytes.
    #[error("11 OutOfMemory")]
    OutOfMemory,
    /// A group ends without a command, or has a 254th.
    #[error("13 GroupSize")]
    GroupSize,
    /// The text ends within a group.
    #[error("14 OpenGroup")]
    OpenGroup,
}

/// A fault, and the line that has it, counted from 1. A fault that is found at the end of a text names the last line; line 0 is the end of a text without
/// lines.
#[derive(Clone, Copy, Debug, PartialEq, Eq, Error)]
#[error("line {line}: {code}")]
pub struct Fault {
    pub line: u64,
    pub code: Code,
}
