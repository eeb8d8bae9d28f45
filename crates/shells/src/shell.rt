use std::alloc::{AllocError, Global};
use std::cell::{Cell, RefCell};
use std::env::FillError;
use std::rt::Env;
use std::thread::Threads;

/// A run's words, input and output, over the files of a runtime.
#[derive(Drop)]
pub struct Shell<'a, R> {
    pub(crate) rt: &'a R,
    /// The folder of the run: a relative name is one in it.
    pub(crate) folder: String,
    /// The words of the run after the program's own name, with blanks between them; `?` stands for a word that is not text.
    words: &'a str,
    /// The standard input.
    pub input: &'a [u8],
    /// The read fails that comes behind the input.
    pub input_fails: bool,
    /// Each second read of the input, and each second write to the standard output, would have to wait.
    pub is_slow: bool,
    // The next write would have to wait.
    pub(crate) waits: Cell<bool>,
    pub(crate) rests: Cell<usize>,
    pub(crate) out: RefCell<String>,
    pub(crate) writes: RefCell<Vec<usize>>,
    pub(crate) err: RefCell<String>,
    pub(crate) opened: RefCell<String>,
    /// A file that can't be opened.
    pub absent: &'a str,
    /// New files are opened for reading alone, so each write to them fails.
    pub blunt: bool,
    /// The write to the standard output that fails, counted from 1.
    pub fails_at: usize,
    /// Each later one fails too.
    pub stays_failed: bool,
    /// A second of the clock passes while it is asked so often, with the same part of it at each time; it tells no time if that is 0.
    pub asks_a_second: u64,
    // How often the clock was asked.
    pub(crate) asks: Cell<u64>,
    /// Nothing is written to the standard error: each write to it fails.
    pub is_mute: bool,
}

/// What a run has told.
#[derive(Drop)]
pub struct Told {
    /// The standard output.
    pub out: String,
    /// The standard error.
    pub err: String,
    /// How many bytes each write to the standard output had.
    pub writes: Vec<usize>,
    /// Each file that was opened, in order: how, a blank, its name, a line end.
    pub opened: String,
    /// How often it was slept.
    pub rests: usize,
}

impl<'a, R: AllocGlobal> Shell<'a, R> {
    /// A run of these words in this folder.
    pub fn new(rt: &'a R, folder: &str, words: &'a str) -> Result<Shell<'a, R>, AllocError> {
        let folder = String::from_str(rt.alloc(), folder)?;
        Ok(Shell {
            rt,
            folder,
            words,
            input: &[],
            input_fails: false,
            is_slow: false,
            waits: Cell::new(false),
            rests: Cell::new(0),
            out: RefCell::new(String::new(rt.alloc())),
            writes: RefCell::new(Vec::new(rt.alloc())),
            err: RefCell::new(String::new(rt.alloc())),
            opened: RefCell::new(String::new(rt.alloc())),
            absent: "",
            blunt: false,
            fails_at: 0,
            stays_failed: false,
            asks_a_second: 0,
            asks: Cell::new(0),
            is_mute: false,
        })
    }

    /// What the run has told.
    pub fn told(self) -> Told {
        Told {
            out: self.out.into_inner(),
            err: self.err.into_inner(),
            writes: self.writes.into_inner(),
            opened: self.opened.into_inner(),
            rests: self.rests.get(),
        }
    }
}

impl<R: AllocGlobal> Alloc for Shell<'_, R> {
    type A = Global;

    fn alloc(&self) -> Global {
        self.rt.alloc()
    }
}

impl<R: Threads> Threads for Shell<'_, R> {}

/// The word of this number: word 0 is the program's own name.
fn word_at(words: &str, number: usize) -> Option<&str> {
    match number {
        0 => Some("roadmark"),
        _ => words.split_whitespace().nth(number - 1),
    }
}

impl<R> Env for Shell<'_, R> {
    fn arg(&self, i: usize, buf: &mut [u8]) -> Result<usize, FillError> {
        let bytes = match word_at(self.words, i) {
            Some("?") => &[255u8],
            Some(word) => word.as_bytes(),
            None => return Err(FillError::NotPresent),
        };
        if bytes.len() > buf.len() {
            return Err(FillError::TooLong);
        }
        buf[..bytes.len()].copy_from_slice(bytes);
        Ok(bytes.len())
    }

    fn var(&self, _name: &str, _buf: &mut [u8]) -> Result<usize, FillError> {
        Err(FillError::NotPresent)
    }

    fn var_at(&self, _i: usize, _buf: &mut [u8]) -> Result<usize, FillError> {
        Err(FillError::NotPresent)
    }
}
