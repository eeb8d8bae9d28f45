//! How the lines of a file of cases spell bytes.

use crate::head::range;
use std::alloc::{AllocError, Global};

/// What the letters so far have begun.
#[derive(Clone, Copy, PartialEq, Eq)]
enum Begun {
    Nothing,
    Escape,
    Byte,
    Digit { high: u8 },
}

/// What a hexadecimal digit counts.
fn digit(letter: u8) -> u8 {
    match letter {
        b'0'..=b'9' => letter.wrapping_sub(b'0'),
        b'a'..=b'f' => letter.wrapping_sub(b'a').wrapping_add(10),
        _ => 0,
    }
}

/// A letter outside an escape. `#` is the number, where one is counted.
fn add_letter(
    alloc: Global,
    letter: u8,
    number: Option<u32>,
    out: &mut Vec<u8>,
) -> Result<Begun, AllocError> {
    match (letter, number) {
        (b'\\', _) => return Ok(Begun::Escape),
        (b'#', Some(number)) => {
            let digits = format!(in alloc; "{number}")?;
            out.extend_from_slice(digits.as_bytes())?;
        }
        _ => out.push(letter)?,
    }
    Ok(Begun::Nothing)
}

/// The letter behind a backslash.
fn add_escaped(letter: u8, out: &mut Vec<u8>) -> Result<Begun, AllocError> {
    match letter {
        b'x' => return Ok(Begun::Byte),
        b'n' => out.push(b'\n')?,
        b'r' => out.push(b'\r')?,
        b't' => out.push(b'\t')?,
        b'0' => out.push(0)?,
        _ => out.push(letter)?,
    }
    Ok(Begun::Nothing)
}

/// Adds what the letters spell. Answers whether they end with a backslash.
fn add_spelled(
    alloc: Global,
    letters: &str,
    number: Option<u32>,
    out: &mut Vec<u8>,
) -> Result<bool, AllocError> {
    let mut begun = Begun::Nothing;
    for &letter in letters.as_bytes() {
        begun = match begun {
            Begun::Nothing => add_letter(alloc, letter, number, out)?,
            Begun::Escape => add_escaped(letter, out)?,
            Begun::Byte => Begun::Digit {
                high: digit(letter),
            },
            Begun::Digit { high } => {
                out.push(high.wrapping_mul(16).wrapping_add(digit(letter)))?;
                Begun::Nothing
            }
        };
    }
    Ok(begun == Begun::Escape)
}

/// Adds a text once for each number from the first to the last.
fn add_counted(
    alloc: Global,
    (from, to): (u32, u32),
    text: &str,
    out: &mut Vec<u8>,
) -> Result<(), AllocError> {
    for number in from..=to {
        add_spelled(alloc, text, Some(number), out)?;
    }
    Ok(())
}

/// What stands before the first text that is counted, its numbers, the text, and what stands behind it.
fn split_counted(line: &str) -> Option<(&str, (u32, u32), &str, &str)> {
    let (front, rest) = line.split_once("\\(")?;
    let (inside, back) = rest.split_once(")")?;
    let (numbers, text) = inside.split_once(" ")?;
    Some((front, range(numbers)?, text, back))
}

/// Adds what a line spells, with its end.
fn add_line(alloc: Global, line: &str, out: &mut Vec<u8>) -> Result<(), AllocError> {
    let mut rest = line;
    for _ in 0..line.len() {
        let Some((front, numbers, text, back)) = split_counted(rest) else {
            break;
        };
        add_spelled(alloc, front, None, out)?;
        add_counted(alloc, numbers, text, out)?;
        rest = back;
    }
    if !add_spelled(alloc, rest, None, out)? {
        out.push(b'\n')?;
    }
    Ok(())
}

/// What lines spell that stand with this between them.
pub fn spelled(alloc: Global, lines: &str, between: &str) -> Result<Vec<u8>, AllocError> {
    let mut out = Vec::new(alloc);
    for line in lines.split(between) {
        add_line(alloc, line, &mut out)?;
    }
    Ok(out)
}

/// Adds bytes as lines spell them.
pub fn put_shown(alloc: Global, bytes: &[u8], out: &mut Vec<u8>) -> Result<(), AllocError> {
    for &byte in bytes {
        match byte {
            b'\\' => out.extend_from_slice(b"\\\\")?,
            b'\n' | b' '..=b'~' => out.push(byte)?,
            _ => {
                let shown = format!(in alloc; "\\x{byte:02x}")?;
                out.extend_from_slice(shown.as_bytes())?;
            }
        }
    }
    Ok(())
}
