use crate::case::{Case, Named};
use crate::given::{Given, Varied};
use crate::head::Head;
use crate::spelling::{put_shown, spelled};
use std::alloc::Global;
use std::env::Env;
use std::fs::Files;
use std::io::{Read, Write};
use std::process::ExitCode;
use std::{env, fs, io};

/// A call that blocks may name, with its options: behind one that ends with `=` stands its value, and `*` stands for each argument before them.
pub type Call = (&'static str, &'static str);

/// The calls that the blocks of a program may name, in one table or several, and what makes one: it adds what comes out of a case.
#[derive(Drop)]
pub struct Calls<F> {
    pub tables: &'static [&'static [Call]],
    pub make: F,
}

/// How many cases came out as they are to, and how many did not.
#[derive(Clone, Copy)]
struct Score {
    passed: u64,
    failed: u64,
}

/// What differs from turn to turn by the options of a head, if anything does, and from which number to which.
fn varied_by(head: Head<'_>) -> Option<(Varied, u32, u32)> {
    let table = [
        ("read-by", Varied::Parts),
        ("read-fails", Varied::Read),
        ("write-fails", Varied::Write),
        ("disk-fails", Varied::Disk),
    ];
    for (option, varied) in table {
        if let Some((from, to)) = head.range_of(option) {
            return Some((varied, from, to));
        }
    }
    None
}

/// Adds what came out of some turns of those from `first` on. Under `somewhere` it is left out which they are.
fn put_turns(
    alloc: Global,
    head: Head<'_>,
    first: u32,
    (from, to): (u32, u32),
    came: &[u8],
    out: &mut Vec<u8>,
) -> io::Result<()> {
    if head.has("somewhere") {
        let line: &[u8] = if from == first {
            b"first:\n"
        } else {
            b"then:\n"
        };
        out.extend_from_slice(line)?;
    } else {
        let line = format!(in alloc; "{from}..{to}:\n")?;
        out.extend_from_slice(line.as_bytes())?;
    }
    out.extend_from_slice(came)?;
    Ok(())
}

/// What comes out in each turn, once where it is alike.
fn add_turns<F: Fn(Global, Given<'_, '_>, &mut Vec<u8>) -> io::Result<()>>(
    alloc: Global,
    calls: &Calls<F>,
    given: Given<'_, '_>,
    turns: (Varied, u32, u32),
    out: &mut Vec<u8>,
) -> io::Result<()>
    requires { F.IsAlwaysCallable calls.now.make }
{
    let (varied, from, to) = turns;
    let mut since = from;
    let mut came = Vec::new(alloc);
    for number in from..=to {
        let mut next = Vec::new(alloc);
        (calls.make)(alloc, given.at(varied, number), &mut next)?;
        if number != from && next.as_slice() != came.as_slice() {
            let turns = (since, number.wrapping_sub(1));
            put_turns(alloc, given.head, from, turns, &came, out)?;
            since = number;
        }
        came = next;
    }
    put_turns(alloc, given.head, from, (since, to), &came, out)
}

/// Adds lines in one line, which is a dot where there are none.
fn put_row(came: &[u8], out: &mut Vec<u8>) -> io::Result<()> {
    if came.is_empty() {
        out.push(b'.')?;
    }
    let lines = match came {
        [lines @ .., b'\n'] => lines,
        lines => lines,
    };
    for &byte in lines {
        match byte {
            b'\n' => out.extend_from_slice(b" / ")?,
            _ => out.push(byte)?,
        }
    }
    out.push(b'\n')?;
    Ok(())
}

/// Adds what comes out of a text of one line, in one line.
fn add_row<F: Fn(Global, Given<'_, '_>, &mut Vec<u8>) -> io::Result<()>>(
    alloc: Global,
    calls: &Calls<F>,
    given: Given<'_, '_>,
    out: &mut Vec<u8>,
) -> io::Result<()>
    requires { F.IsAlwaysCallable calls.now.make }
{
    let mut came = Vec::new(alloc);
    (calls.make)(alloc, given, &mut came)?;
    put_row(&came, out)
}

/// What comes out of a case whose rows are texts of their own.
fn add_rows<F: Fn(Global, Given<'_, '_>, &mut Vec<u8>) -> io::Result<()>>(
    alloc: Global,
    calls: &Calls<F>,
    case: &Case,
    is_first: bool,
    out: &mut Vec<u8>,
) -> io::Result<()>
    requires { F.IsAlwaysCallable calls.now.make }
{
    let head = Head::new(case.head.as_str());
    let Some(rows) = case.rows().strip_suffix("\n") else {
        return Ok(());
    };
    for row in rows.split("\n") {
        let mut texts = case.first_texts(alloc)?;
        texts.push(spelled(alloc, row, " / ")?)?;
        add_row(alloc, calls, Given::whole(head, &texts, is_first), out)?;
    }
    Ok(())
}

/// The options of a call, if it has this name.
fn options_if(call: &Call, name: &str) -> Option<&'static str> {
    let &(own, options) = call;
    if own == name { Some(options) } else { None }
}

/// The options of a call, if there is one of this name.
fn options_of(calls: &[Call], name: &str) -> Option<&'static str> {
    for call in calls {
        if let Some(options) = options_if(call, name) {
            return Some(options);
        }
    }
    None
}

/// The same of the calls of several tables.
fn options_in(tables: &[&[Call]], name: &str) -> Option<&'static str> {
    for calls in tables {
        if let Some(options) = options_of(calls, name) {
            return Some(options);
        }
    }
    None
}

/// Tells that there is no such call, or no such option. Answers whether there is.
fn is_known(tables: &[&[Call]], head: Head<'_>, out: &mut Vec<u8>) -> io::Result<bool> {
    let Some(options) = options_in(tables, head.word(0)) else {
        writeln!(out, "no call: {}", head.word(0))?;
        return Ok(false);
    };
    if let Some(word) = head.unknown(options) {
        writeln!(out, "no option: {word}")?;
        return Ok(false);
    }
    Ok(true)
}

/// What comes out of a case.
fn came_of<F: Fn(Global, Given<'_, '_>, &mut Vec<u8>) -> io::Result<()>>(
    alloc: Global,
    calls: &Calls<F>,
    case: &Case,
    is_first: bool,
) -> io::Result<Vec<u8>>
    requires { F.IsAlwaysCallable calls.now.make }
{
    let head = Head::new(case.head.as_str());
    let mut out = Vec::new(alloc);
    if !is_known(calls.tables, head, &mut out)? {
        return Ok(out);
    }
    if head.has("each") {
        add_rows(alloc, calls, case, is_first, &mut out)?;
        return Ok(out);
    }
    let mut texts = case.first_texts(alloc)?;
    texts.push(case.last_text(alloc)?)?;
    let given = Given::whole(head, &texts, is_first);
    match varied_by(head) {
        Some(turns) => add_turns(alloc, calls, given, turns, &mut out)?,
        None => (calls.make)(alloc, given, &mut out)?,
    }
    Ok(out)
}

/// Tells that a case came out otherwise, and how.
fn tell(
    alloc: Global,
    file: &str,
    case: &Case,
    came: &[u8],
    wanted: &[u8],
    told: &mut Vec<u8>,
) -> io::Result<()> {
    let name = case.name.as_str();
    let line = format!(in alloc; "{file}: {name}: wanted\n")?;
    told.extend_from_slice(line.as_bytes())?;
    put_shown(alloc, wanted, told)?;
    told.extend_from_slice(b"and this came out\n")?;
    put_shown(alloc, came, told)?;
    Ok(())
}

/// A file of cases that is run: its name, the texts that its blocks may name, and what is told of it.
#[derive(Drop)]
struct File<'f> {
    name: &'f str,
    named: Vec<Named>,
    score: Score,
    told: Vec<u8>,
}

impl File<'_> {
    /// A case came out so.
    fn judge(&mut self, alloc: Global, case: &Case, came: &[u8]) -> io::Result<()> {
        if case.is_whole() && case.wants(alloc, came)? {
            self.score.passed = self.score.passed.saturating_add(1);
            return Ok(());
        }
        self.score.failed = self.score.failed.saturating_add(1);
        tell(
            alloc,
            self.name,
            case,
            came,
            &case.wanted(alloc)?,
            &mut self.told,
        )
    }

    /// Runs a case that was read, or notes its text.
    fn end<F: Fn(Global, Given<'_, '_>, &mut Vec<u8>) -> io::Result<()>>(
        &mut self,
        alloc: Global,
        calls: &Calls<F>,
        case: Case,
    ) -> io::Result<()>
        requires { F.IsAlwaysCallable calls.now.make }
    {
        if case.head.as_str() == "text" {
            self.named.push(case.into_named())?;
            return Ok(());
        }
        let is_first = self.score.passed == 0 && self.score.failed == 0;
        let came = came_of(alloc, calls, &case, is_first)?;
        self.judge(alloc, &case, &came)
    }
}

/// Runs the cases of a text one after the other. What stands before the first block is passed over.
fn run_cases<F: Fn(Global, Given<'_, '_>, &mut Vec<u8>) -> io::Result<()>>(
    alloc: Global,
    calls: &Calls<F>,
    file: &mut File<'_>,
    text: &str,
) -> io::Result<()>
    requires { F.IsAlwaysCallable calls.now.make }
{
    let mut open: Option<Case> = None;
    for line in text.split("\n") {
        if let Some(name) = line.strip_prefix("== ") {
            if let Some(case) = open.take() {
                file.end(alloc, calls, case)?;
            }
            open = Some(Case::new(alloc, name)?);
        } else if let Some(case) = &mut open {
            case.add(alloc, line, &file.named)?;
        }
    }
    match open.take() {
        Some(case) => file.end(alloc, calls, case),
        None => Ok(()),
    }
}

/// Runs the cases of a text of this name, and tells those that come out otherwise on standard error.
fn run_text<R: AllocGlobal + Eprint, F: Fn(Global, Given<'_, '_>, &mut Vec<u8>) -> io::Result<()>>(
    rt: &R,
    calls: &Calls<F>,
    name: &str,
    text: &str,
) -> io::Result<Score>
    requires { F.IsAlwaysCallable calls.now.make }
{
    let mut file = File {
        name,
        named: Vec::new(rt.alloc()),
        score: Score {
            passed: 0,
            failed: 0,
        },
        told: Vec::new(rt.alloc()),
    };
    run_cases(rt.alloc(), calls, &mut file, text)?;
    if let Ok(told) = str::from_utf8(file.told.as_slice()) {
        eprint!(rt; "{told}")?;
    }
    Ok(file.score)
}

/// The text of standard input.
fn input_of<R: AllocGlobal + Input>(rt: &R) -> io::Result<String> {
    let mut text = String::new(rt.alloc());
    rt.reader().read_to_string(&mut text)?;
    Ok(text)
}

/// Runs the cases of the files that these words name behind the program's own name, or of standard input where there are none.
fn run_words<
    R: AllocGlobal + Eprint + Files + Input,
    F: Fn(Global, Given<'_, '_>, &mut Vec<u8>) -> io::Result<()>,
>(rt: &R, calls: &Calls<F>, words: &[String]) -> io::Result<Score>
    requires { F.IsAlwaysCallable calls.now.make }
{
    if words.len() < 2 {
        return run_text(rt, calls, "standard input", input_of(rt)?.as_str());
    }
    let mut score = Score {
        passed: 0,
        failed: 0,
    };
    for word in words.iter().skip(1) {
        let text = fs::read_to_string(rt, word.as_str())?;
        let came = run_text(rt, calls, word.as_str(), text.as_str())?;
        score.passed = score.passed.saturating_add(came.passed);
        score.failed = score.failed.saturating_add(came.failed);
    }
    Ok(score)
}

/// Runs the cases of the files that the program's words name, or of standard input where there are none, by these calls. Tells on standard error
/// each case that comes out otherwise, and how many there were. The status is 0 where all came out as they are to, and there was one at least.
pub fn run_files<
    R: AllocGlobal + Env + Eprint + Files + Input,
    F: Fn(Global, Given<'_, '_>, &mut Vec<u8>) -> io::Result<()>,
>(rt: &R, calls: &Calls<F>) -> io::Result<ExitCode>
    requires { F.IsAlwaysCallable calls.now.make }
{
    let words = env::args(rt)?.collect::<Vec<String>>(rt.alloc())?;
    let Score { passed, failed } = run_words(rt, calls, &words)?;
    eprintln!(rt; "{passed} passed, {failed} failed")?;
    Ok(ExitCode::from(if failed == 0 && passed > 0 { 0 } else { 1 }))
}
