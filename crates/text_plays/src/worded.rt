//! The program's words.
use blocks::Given;
use dimacs::{Code, Fault};
use printing::{Failed, fault_line};
use std::alloc::Global;
use std::io;
use std::io::Write;
use words::{Usage, read_words};

/// The lines of a text.
fn lines_of<'t>(text: &'t [u8]) -> &'t str {
    match str::from_utf8(text) {
        Ok(lines) => lines.strip_suffix("\n").unwrap_or(lines),
        Err(_) => "",
    }
}

/// Adds why words are no job: `help` was asked for, they are a `misuse`, or else the status; and those lines that the text of that has.
fn put_usage(usage: &Usage, parts: &str, out: &mut Vec<u8>) -> io::Result<()> {
    let text = usage.text.as_str();
    match usage.status {
        0 => writeln!(out, "help")?,
        2 if text.starts_with("error: ") => writeln!(out, "misuse")?,
        status => writeln!(out, "status {status}")?,
    }
    for part in parts.split("\n") {
        if !part.is_empty() && text.contains(part) {
            writeln!(out, "{part}")?;
        }
    }
    Ok(())
}

/// Adds what the words of the last text ask for, with the lines of the text before that stand in what is told of a misuse.
pub(crate) fn put_job(alloc: Global, given: Given<'_, '_>, out: &mut Vec<u8>) -> io::Result<()> {
    let last = given.texts.len().wrapping_sub(1);
    let parts = if last == 0 {
        ""
    } else {
        lines_of(given.text(0))
    };
    let words: Vec<&str> = lines_of(given.text(last))
        .split_whitespace()
        .collect(alloc)?;
    match read_words(alloc, &words) {
        Ok(asked) => {
            let verbose = if asked.verbose { "verbose " } else { "" };
            writeln!(out, "{verbose}{:?}", asked.job)
        }
        Err(usage) => put_usage(&usage, parts, out),
    }
}

/// Adds what help is told for the words of the text's first line, and which of its other lines that lacks.
pub(crate) fn put_help(alloc: Global, given: Given<'_, '_>, out: &mut Vec<u8>) -> io::Result<()> {
    let (first, parts) = match lines_of(given.text(0)).split_once("\n") {
        Some((first, parts)) => (first, parts),
        None => (lines_of(given.text(0)), ""),
    };
    let words: Vec<&str> = first.split_whitespace().collect(alloc)?;
    let Err(usage) = read_words(alloc, &words) else {
        return writeln!(out, "no help");
    };
    put_usage(&usage, "", out)?;
    for part in parts.split("\n") {
        if !usage.text.as_str().contains(part) {
            writeln!(out, "lacks {part}")?;
        }
    }
    Ok(())
}

/// Adds the fault line of a length in line 3 of a text with this name.
pub(crate) fn put_fault_line(given: Given<'_, '_>, out: &mut Vec<u8>) -> io::Result<()> {
    let fault = Fault {
        line: 3,
        code: Code::LengthRange,
    };
    let failed = Failed::Text { which: 0, fault };
    writeln!(out, "{}", fault_line(&failed, lines_of(given.text(0))))
}

/// Each code of a fault of a text.
const CODES: [Code; 13] = [
    Code::BadLine,
    Code::NoProblemLine,
    Code::SecondProblemLine,
    Code::WrongKind,
    Code::NumberRange,
    Code::NodeRange,
    Code::LengthRange,
    Code::LineCount,
    Code::TooLarge,
    Code::Read,
    Code::OutOfMemory,
    Code::GroupSize,
    Code::OpenGroup,
];

/// Adds each code of a fault.
pub(crate) fn put_codes(out: &mut Vec<u8>) -> io::Result<()> {
    for code in &CODES {
        writeln!(out, "{code}")?;
    }
    Ok(())
}
