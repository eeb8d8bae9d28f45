//! A transcript is read and played.
use crate::files::{Held, told_of_files};
use crate::runs::run;
use crate::steps::{Step, steps_of};
use shells::Shell;
use std::fs::File;
use std::io::{ErrorKind, Write};
use std::rt::Files;
use std::{fs, io};

/// Does the words of a step. Answers what they tell.
fn told_of<R: AllocGlobal + Files<File = File>, F: Fn(&Shell<'_, R>) -> u8>(
    rt: &R,
    folder: &str,
    step: &Step,
    held: &mut Held,
    runs: &F,
) -> io::Result<String>
    requires { F.IsAlwaysCallable runs.now }
{
    let words = step.words.as_str().replace(rt.alloc(), "~", folder)?;
    let words = held.named(rt.alloc(), words.as_str())?;
    let words = words.as_str();
    let input = step.input.as_str();
    let is_run = words.split_whitespace().any(|it| it == "roadmark");
    match words.split_once("roadmark") {
        Some((settings, words)) if is_run => run(rt, folder, settings, words, input, runs),
        _ => told_of_files(rt, folder, words, input, held),
    }
}

/// Plays a step, and adds what it tells where that is something else than it is to.
fn play_step<R: AllocGlobal + Files<File = File>, F: Fn(&Shell<'_, R>) -> u8>(
    rt: &R,
    folder: &str,
    step: &Step,
    held: &mut Held,
    runs: &F,
    out: &mut Vec<u8>,
) -> io::Result<()>
    requires { F.IsAlwaysCallable runs.now }
{
    let told = match told_of(rt, folder, step, held, runs) {
        Ok(told) => told.as_str().replace(rt.alloc(), folder, "~")?,
        Err(error) => format!(in rt.alloc(); "{error}\n")?,
    };
    if told.as_str() == step.wanted.as_str() {
        return Ok(());
    }
    writeln!(out, "$ {}", step.words.as_str())?;
    out.extend_from_slice(told.as_bytes())?;
    Ok(())
}

/// Plays the steps one after the other.
fn play_steps<R: AllocGlobal + Files<File = File>, F: Fn(&Shell<'_, R>) -> u8>(
    rt: &R,
    folder: &str,
    steps: &[Step],
    runs: &F,
    out: &mut Vec<u8>,
) -> io::Result<()>
    requires { F.IsAlwaysCallable runs.now }
{
    let mut held = Held::new();
    for step in steps {
        play_step(rt, folder, step, &mut held, runs, out)?;
    }
    Ok(())
}

/// Plays a transcript in this folder, which is there only meanwhile, by what runs the program in a shell. Adds the steps that tell something else than they are to.
pub fn play<R: AllocGlobal + Files<File = File>, F: Fn(&Shell<'_, R>) -> u8>(
    rt: &R,
    folder: &str,
    text: &[u8],
    runs: &F,
    out: &mut Vec<u8>,
) -> io::Result<()>
    requires { F.IsAlwaysCallable runs.now }
{
    let Ok(text) = str::from_utf8(text) else {
        return Err(io::Error::from(ErrorKind::InvalidData));
    };
    let steps = steps_of(rt.alloc(), text)?;
    fs::create_dir(rt, folder)?;
    play_steps(rt, folder, steps.as_slice(), runs, out)?;
    fs::remove_dir_all(rt, folder)
}
