//! Why a call failed, and how the program reports it.
ghost use Rattle.std.specs.Prelude.{◌≡◌, is_ok, if◌then◌else◌};
ghost use Rattle.printing.specs.Failing.{fault_told_of};

use dimacs::Fault;
use roadnet::Refusal;
use std::fmt;

/// Why a call failed.
#[derive(Clone, Copy, Debug, PartialEq, Eq)]
pub enum Failed {
    /// A text has a fault. `which` is 0 for the call's first text and 1 for its second. In the joint form 0 is the network and 1 the script. In the program
    /// 2 is the store's file.
    Text { which: u8, fault: Fault },
    /// Any other refusal.
    Code(Refusal),
}

/// The result of reading a text. Its fault is reported for the text with this number (`which` of `Failed::Text`).
pub fn of_text<T>(which: u8, read: Result<T, Fault>) -> Result<T, Failed>
    ensures { result ≡ fault_told_of which read }
{
    match read {
        Ok(value) => Ok(value),
        Err(fault) => Err(Failed::Text { which, fault }),
    }
}

/// A name in a fault line. What is not printable text in it is escaped, as `\n` or `\u{1b}`, and the rest stays as it is.
#[derive(Clone, Copy)]
struct FaultName<'a> {
    name: &'a str,
}

impl fmt::Display for FaultName<'_> {
    fn fmt<W: fmt::Write>(&self, f: &mut fmt::Formatter<W>) -> fmt::Result {
        for letter in self.name.chars() {
            match letter {
                '\\' | '\'' | '"' => write!(f, "{letter}")?,
                _ => write!(f, "{}", letter.escape_debug())?,
            }
        }
        Ok(())
    }
}

/// A fault line of the program, displayed as `roadmark: FILE: line L: CODE Name` or `roadmark: CODE Name`.
#[derive(Clone, Copy, Debug)]
pub struct FaultLine<'a> {
    pub failed: Failed,
    pub name: &'a str,
}

impl fmt::Display for FaultLine<'_> {
    fn fmt<W: fmt::Write>(&self, f: &mut fmt::Formatter<W>) -> fmt::Result {
        let name = FaultName { name: self.name };
        match self.failed {
            Failed::Text { which: _, fault } => write!(f, "roadmark: {name}: {fault}"),
            Failed::Code(refusal) => write!(f, "roadmark: {refusal}"),
        }
    }
}

/// The fault line of a failure, for a text with this name. It takes no memory.
pub fn fault_line<'a>(failed: &Failed, name: &'a str) -> FaultLine<'a>
    ensures failed { result.failed ≡ failed.now }
    ensures name { result.name.now ≡ name.now }
{
    FaultLine {
        failed: *failed,
        name,
    }
}

/// The exit status of the program: 0 if everything was done, 1 after a fault.
pub fn status<T>(outcome: &Result<T, Failed>) -> u8
    ensures { result ≡ (if is_ok outcome.now then 0 else 1) }
{
    if outcome.is_ok() { 0 } else { 1 }
}
