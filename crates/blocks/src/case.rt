use crate::spelling::spelled;
use std::alloc::{AllocError, Global};

/// What a file's lines so far are of a case.
#[derive(Clone, Copy, PartialEq, Eq)]
enum Part {
    Head,
    Input,
    Wanted,
}

/// A text that blocks may name.
#[derive(Drop)]
pub(crate) struct Named {
    name: String,
    text: String,
}

/// A block of a file.
#[derive(Drop)]
pub struct Case {
    pub(crate) name: String,
    pub(crate) head: String,
    /// The texts that go in, but for the last, as they are spelled, and the last.
    texts: Vec<String>,
    last: String,
    /// What may come out in place of what is wanted.
    others: Vec<String>,
    wanted: String,
    part: Part,
}

/// The text of this name, or none of a letter.
fn text_named<'n>(named: &'n [Named], name: &str) -> &'n str {
    match named.iter().find(|it| it.name.as_str() == name) {
        Some(found) => found.text.as_str(),
        None => "",
    }
}

/// Adds a line with its end.
fn add_raw(text: &mut String, line: &str) -> Result<(), AllocError> {
    text.push_str(line)?;
    text.push_str("\n")
}

impl Case {
    /// A case of which nothing but its name was read.
    pub(crate) fn new(alloc: Global, name: &str) -> Result<Case, AllocError> {
        Ok(Case {
            name: String::from_str(alloc, name)?,
            head: String::new(alloc),
            texts: Vec::new(alloc),
            last: String::new(alloc),
            others: Vec::new(alloc),
            wanted: String::new(alloc),
            part: Part::Head,
        })
    }

    /// Reads a line of it.
    pub(crate) fn add(
        &mut self,
        alloc: Global,
        line: &str,
        named: &[Named],
    ) -> Result<(), AllocError> {
        match self.part {
            Part::Head if line.is_empty() || line.starts_with("#") => Ok(()),
            Part::Head => {
                self.part = Part::Input;
                self.head.push_str(line)
            }
            Part::Input => self.add_input(alloc, line, named),
            Part::Wanted if line.is_empty() => Ok(()),
            Part::Wanted if line == "or" => {
                let wanted = std::mem::replace(&mut self.wanted, String::new(alloc));
                Ok(self.others.push(wanted)?)
            }
            Part::Wanted => add_raw(&mut self.wanted, line),
        }
    }

    /// Reads a line of what goes in, or the line behind that.
    fn add_input(&mut self, alloc: Global, line: &str, named: &[Named]) -> Result<(), AllocError> {
        if line == "----" {
            self.part = Part::Wanted;
            return Ok(());
        }
        if line == "--" {
            let text = std::mem::replace(&mut self.last, String::new(alloc));
            self.texts.push(text)?;
            return Ok(());
        }
        match line.strip_prefix("@") {
            Some(name) => self.last.push_str(text_named(named, name)),
            None => add_raw(&mut self.last, line),
        }
    }

    /// Whether its lines go as far as what is to come out.
    pub(crate) fn is_whole(&self) -> bool {
        self.part == Part::Wanted
    }

    /// The texts but for the last.
    pub(crate) fn first_texts(&self, alloc: Global) -> Result<Vec<Vec<u8>>, AllocError> {
        let mut texts = Vec::new(alloc);
        for text in self.texts.iter() {
            texts.push(spelled_lines(alloc, text.as_str())?)?;
        }
        Ok(texts)
    }

    /// The last text.
    pub(crate) fn last_text(&self, alloc: Global) -> Result<Vec<u8>, AllocError> {
        spelled_lines(alloc, self.last.as_str())
    }

    /// The lines of the last text, as they are spelled.
    pub(crate) fn rows(&self) -> &str {
        self.last.as_str()
    }

    /// What is to come out.
    pub(crate) fn wanted(&self, alloc: Global) -> Result<Vec<u8>, AllocError> {
        spelled_lines(alloc, self.wanted.as_str())
    }

    /// Whether this is what is to come out, or one of several texts that may.
    pub(crate) fn wants(&self, alloc: Global, came: &[u8]) -> Result<bool, AllocError> {
        for other in self.others.iter() {
            if spelled_lines(alloc, other.as_str())?.as_slice() == came {
                return Ok(true);
            }
        }
        Ok(self.wanted(alloc)?.as_slice() == came)
    }

    /// It as a text that blocks may name.
    pub(crate) fn into_named(self) -> Named {
        let Case {
            name,
            head: _,
            texts: _,
            last,
            others: _,
            wanted: _,
            part: _,
        } = self;
        Named { name, text: last }
    }
}

/// What lines spell, each with its end.
fn spelled_lines(alloc: Global, lines: &str) -> Result<Vec<u8>, AllocError> {
    match lines.strip_suffix("\n") {
        Some(lines) => spelled(alloc, lines, "\n"),
        None => Ok(Vec::new(alloc)),
    }
}
