use crate::head::Head;
use fixtures::FailingReader;
use std::alloc::Global;
use std::io;
use std::io::{BufReader, ErrorKind};

/// Of how many bytes the parts are in which a text is read; which call of a text's reader, of the writer and of the disk fails, counted from 1, and none where it is 0; and
/// whether the call is one of several that are to begin alike.
#[derive(Clone, Copy)]
pub struct Turn {
    pub parts: u32,
    pub read: u32,
    pub write: u32,
    pub disk: u32,
    pub is_one_of_several: bool,
}

/// What differs from turn to turn.
#[derive(Clone, Copy)]
pub(crate) enum Varied {
    Parts,
    Read,
    Write,
    Disk,
}

/// What a call is given: the head of its block, the texts, of which there is at least one, and its turn.
#[derive(Clone, Copy)]
pub struct Given<'h, 't> {
    pub head: Head<'h>,
    pub texts: &'t [Vec<u8>],
    pub turn: Turn,
    /// It is the first of its file.
    pub is_first: bool,
}

impl<'h, 't> Given<'h, 't> {
    /// The turn of a head: no call fails but those that it names.
    pub(crate) fn whole(head: Head<'h>, texts: &'t [Vec<u8>], is_first: bool) -> Given<'h, 't> {
        let turn = Turn {
            parts: head.count_of("read-by").unwrap_or(4096),
            read: head.count_of("read-fails").unwrap_or(0),
            write: head.count_of("write-fails").unwrap_or(0),
            disk: head.count_of("disk-fails").unwrap_or(0),
            is_one_of_several: false,
        };
        Given {
            head,
            texts,
            turn,
            is_first,
        }
    }

    /// The turn of this number.
    pub(crate) fn at(self, varied: Varied, number: u32) -> Given<'h, 't> {
        let Given {
            head,
            texts,
            mut turn,
            is_first,
        } = self;
        turn.is_one_of_several = true;
        match varied {
            Varied::Parts => turn.parts = number,
            Varied::Read => turn.read = number,
            Varied::Write => turn.write = number,
            Varied::Disk => turn.disk = number,
        }
        Given {
            head,
            texts,
            turn,
            is_first,
        }
    }

    /// The text at a place, counted from 0, or none of a letter.
    pub fn text(&self, at: usize) -> &'t [u8] {
        match self.texts.get(at) {
            Some(text) => text.as_slice(),
            None => &[],
        }
    }

    /// The number of the text whose reader may fail: that of the option `in`, counted from 1, or else the last.
    fn failing(&self) -> usize {
        match self.head.count_of("in") {
            Some(text) => text as usize,
            None => self.texts.len(),
        }
    }

    /// What the text at a place is read from, whose reads fail as the turn says.
    pub fn failing_reader(&self, at: usize) -> FailingReader<'t> {
        let reads = if at.wrapping_add(1) == self.failing() {
            self.turn.read
        } else {
            0
        };
        let kind = if self.head.has("interrupted") {
            ErrorKind::Interrupted
        } else {
            ErrorKind::BrokenPipe
        };
        let bytes = self.text(at);
        FailingReader { bytes, reads, kind }
    }

    /// A reader of the text at a place.
    pub fn reader(&self, alloc: Global, at: usize) -> io::Result<BufReader<FailingReader<'t>>> {
        BufReader::with_capacity(alloc, self.turn.parts as usize, self.failing_reader(at))
    }
}
