//! The steps of a transcript.
use std::alloc::{AllocError, Global};

/// A line of words, what is on its standard input, and what it is to tell.
#[derive(Drop)]
pub(crate) struct Step {
    pub(crate) words: String,
    pub(crate) input: String,
    pub(crate) wanted: String,
}

/// Adds a line with its end.
fn add(text: &mut String, line: &str) -> Result<(), AllocError> {
    text.push_str(line)?;
    text.push_str("\n")
}

/// A step of these words.
fn step_of(alloc: Global, words: &str) -> Result<Step, AllocError> {
    Ok(Step {
        words: String::from_str(alloc, words)?,
        input: String::new(alloc),
        wanted: String::new(alloc),
    })
}

/// Reads a line of a transcript. One that begins with no words is a step that no words do.
fn read_line(alloc: Global, line: &str, steps: &mut Vec<Step>) -> Result<(), AllocError> {
    if let Some(words) = line.strip_prefix("$ ") {
        steps.push(step_of(alloc, words)?)?;
        return Ok(());
    }
    let Some(step) = steps.last_mut() else {
        steps.push(step_of(alloc, line)?)?;
        return Ok(());
    };
    if let Some(text) = line.strip_prefix("<- ") {
        return step.input.push_str(text);
    }
    match line.strip_prefix("< ") {
        Some(text) => add(&mut step.input, text),
        None => add(&mut step.wanted, line),
    }
}

/// The steps of a transcript.
pub(crate) fn steps_of(alloc: Global, text: &str) -> Result<Vec<Step>, AllocError> {
    let mut steps = Vec::new(alloc);
    let lines = text.strip_suffix("\n").unwrap_or(text);
    for line in lines.split("\n") {
        read_line(alloc, line, &mut steps)?;
    }
    Ok(steps)
}

/// The word at a place, counted from 0, or none of a letter.
pub(crate) fn word(words: &str, at: usize) -> &str {
    words.split_whitespace().nth(at).unwrap_or("")
}
