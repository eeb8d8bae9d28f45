/// A block's head: a call, its arguments, and options, each with its value behind it.
#[derive(Clone, Copy)]
pub struct Head<'h> {
    line: &'h str,
}

impl<'h> Head<'h> {
    /// The words of a line.
    pub(crate) fn new(line: &'h str) -> Head<'h> {
        Head { line }
    }

    /// The word at a place, counted from 0, or none of a letter.
    pub fn word(self, at: usize) -> &'h str {
        self.line.split_whitespace().nth(at).unwrap_or("")
    }

    /// The number at a place.
    pub fn number(self, at: usize) -> Option<u64> {
        self.word(at).parse().ok()
    }

    /// Whether a word is among them.
    pub fn has(self, word: &str) -> bool {
        self.line.split_whitespace().any(|it| it == word)
    }

    /// The value behind an option, if it is given.
    pub fn value(self, option: &str) -> Option<&'h str> {
        let mut words = self.line.split_whitespace();
        words.find(|it| *it == option)?;
        words.next()
    }

    /// The number behind an option, if it is given.
    pub fn number_of(self, option: &str) -> Option<u64> {
        self.value(option)?.parse().ok()
    }

    /// The same, where it is one of 32 bits.
    pub fn count_of(self, option: &str) -> Option<u32> {
        self.value(option)?.parse().ok()
    }

    /// The numbers from and to which an option goes, if it is given.
    pub(crate) fn range_of(self, option: &str) -> Option<(u32, u32)> {
        range(self.value(option)?)
    }

    /// The first word of it that is none of these options, nor an option of each call, nor the value of one. `*` among the options stands for an argument, which comes before them.
    pub(crate) fn unknown(self, options: &str) -> Option<&'h str> {
        let arguments = options.split_whitespace().filter(|it| *it == "*").count();
        let mut is_value = false;
        for word in self
            .line
            .split_whitespace()
            .skip(arguments.saturating_add(1))
        {
            let known = takes_value(OPTIONS, word).or(takes_value(options, word));
            match known {
                _ if is_value => is_value = false,
                Some(takes) => is_value = takes,
                None => return Some(word),
            }
        }
        None
    }
}

/// The options that each call has: behind one that ends with `=` stands its value.
const OPTIONS: &str =
    "read-by= in= each read-fails= interrupted write-fails= disk-fails= somewhere";

/// Whether an option is among these; if it is, whether a value stands behind it.
fn takes_value(options: &str, word: &str) -> Option<bool> {
    for option in options.split_whitespace() {
        if option == word {
            return Some(false);
        }
        if option.strip_suffix("=") == Some(word) {
            return Some(true);
        }
    }
    None
}

/// Two numbers with `..` between them.
pub(crate) fn range(words: &str) -> Option<(u32, u32)> {
    let (from, to) = words.split_once("..")?;
    Some((from.parse().ok()?, to.parse().ok()?))
}
