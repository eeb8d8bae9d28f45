use roadnet::Command;

/// The format of a store file. Stores are created and opened in format 2. Those of format 1 are only read, to be migrated.
#[derive(Clone, Copy, Debug, PartialEq, Eq)]
pub enum Format {
    One,
    Two,
}

impl Format {
    ghost use Rattle.std.specs.Prelude.{◌≡◌};
    ghost use Rattle.pages.specs.Formats.{format_number_of, format_numbered};

    /// The number of the format, as a header has it.
    pub fn number(self) -> u32
        ensures { result ≡ format_number_of self }
    {
        match self {
            Format::One => 1,
            Format::Two => 2,
        }
    }

    /// The format of this number. Every number except 1 counts as 2.
    pub fn numbered(number: u32) -> Format
        ensures { result ≡ format_numbered number }
    {
        if number == 1 {
            Format::One
        } else {
            Format::Two
        }
    }
}

/// The ends of an arc, as an arc page or an end page holds them.
#[derive(Clone, Copy, Debug, PartialEq, Eq)]
pub struct Ends {
    pub tail: u32,
    pub head: u32,
}

/// What a word page has for an arc: its length, which a closed arc keeps, and whether it is open.
#[derive(Clone, Copy, Debug, PartialEq, Eq)]
pub struct Word {
    pub length: u32,
    pub opened: bool,
}

/// One of the two slots, which checkpoints use in turn.
#[derive(Clone, Copy, Debug, PartialEq, Eq)]
pub enum Slot {
    A,
    B,
}

impl Slot {
    ghost use Rattle.std.specs.Prelude.{◌≡◌};
    ghost use Rattle.pages.specs.Layout.{other};

    /// The other slot.
    pub fn other(self) -> Slot
        ensures { result ≡ other self }
    {
        match self {
            Slot::A => Slot::B,
            Slot::B => Slot::A,
        }
    }
}

/// What a record of a journal page holds: a command, and whether its group goes on in the next record.
#[derive(Clone, Copy, Debug, PartialEq, Eq)]
pub struct Record {
    pub command: Command,
    pub goes_on: bool,
}
