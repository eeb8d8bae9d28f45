//! Runs of the program.
use shells::{Shell, Told};
use std::alloc::{AllocError, Global};
use std::fs::File;
use std::io;
use std::rt::Files;

/// The write of this number fails; with `..` behind it each later one, too.
fn fail_writes<R>(shell: &mut Shell<'_, R>, number: &str) {
    shell.stays_failed = number.ends_with("..");
    let first = number.strip_suffix("..").unwrap_or(number);
    shell.fails_at = first.parse().unwrap_or(0);
}

/// Sets up the run as a setting says. Answers whether there is that setting.
fn set_up<'a, R>(shell: &mut Shell<'a, R>, setting: &'a str) -> bool {
    match setting.split_once("=") {
        Some(("absent", file)) => shell.absent = file,
        Some(("write-fails", number)) => fail_writes(shell, number),
        Some(("clock", number)) => shell.asks_a_second = number.parse().unwrap_or(0),
        Some(_) => return false,
        None => match setting {
            "read-fails" => shell.input_fails = true,
            "unwritable" => shell.blunt = true,
            "slow" => shell.is_slow = true,
            "clock" => shell.asks_a_second = 1,
            "mute" => shell.is_mute = true,
            "brief" | "errors-only" | "tells-files" | "tells-writes" | "tells-rests" => {}
            _ => return false,
        },
    }
    true
}

/// Adds the lines of a text, with this and a blank before each that is not empty.
fn put_lines(front: &str, text: &str, out: &mut String) -> Result<(), AllocError> {
    for line in text.split_inclusive("\n") {
        out.push_str(front)?;
        out.push_str(if line == "\n" { "" } else { " " })?;
        out.push_str(line)?;
    }
    Ok(())
}

/// Adds how many bytes each write had.
fn put_writes(alloc: Global, writes: &[usize], out: &mut String) -> Result<(), AllocError> {
    for count in writes {
        out.push_str(format!(in alloc; "written {count}\n")?.as_str())?;
    }
    Ok(())
}

/// What stands for a text where a run is told in brief.
fn in_brief(text: &str) -> &str {
    if text.is_empty() { "" } else { "...\n" }
}

/// Adds what a run told on its two streams.
fn put_streams(printed: &str, err: &str, out: &mut String) -> Result<(), AllocError> {
    out.push_str(printed)?;
    put_lines("!", err, out)
}

/// Whether a setting is among these.
fn has(settings: &str, setting: &str) -> bool {
    settings.split_whitespace().any(|it| it == setting)
}

/// What a run with these settings told, and its status.
fn told_by(alloc: Global, settings: &str, told: &Told, status: u8) -> Result<String, AllocError> {
    let mut out = String::new(alloc);
    let (printed, err) = (told.out.as_str(), told.err.as_str());
    let printed = if has(settings, "errors-only") {
        ""
    } else {
        printed
    };
    if has(settings, "brief") {
        put_streams(in_brief(printed), in_brief(err), &mut out)?;
    } else {
        put_streams(printed, err, &mut out)?;
    }
    if status != 0 {
        out.push_str(format!(in alloc; "[{status}]\n")?.as_str())?;
    }
    if has(settings, "tells-files") {
        put_lines("opened", told.opened.as_str(), &mut out)?;
    }
    if has(settings, "tells-writes") {
        put_writes(alloc, told.writes.as_slice(), &mut out)?;
    }
    if has(settings, "tells-rests") {
        out.push_str(format!(in alloc; "slept {}\n", told.rests)?.as_str())?;
    }
    Ok(out)
}

/// Runs the program with these settings on these words and this input, in this folder. Answers what it told.
pub(crate) fn run<'a, R: AllocGlobal + Files<File = File>, F: Fn(&Shell<'_, R>) -> u8>(
    rt: &'a R,
    folder: &str,
    settings: &'a str,
    words: &'a str,
    input: &'a str,
    runs: &F,
) -> io::Result<String>
    requires { F.IsAlwaysCallable runs.now }
{
    let mut shell = Shell::new(rt, folder, words)?;
    shell.input = input.as_bytes();
    for setting in settings.split_whitespace() {
        if !set_up(&mut shell, setting) {
            return Ok(format!(in rt.alloc(); "no setting: {setting}\n")?);
        }
    }
    let status = runs(&shell);
    Ok(told_by(rt.alloc(), settings, &shell.told(), status)?)
}
