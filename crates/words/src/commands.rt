//! The commands that read the program's words.
use crate::entries::{HelpEntry, PROGRAM_ENTRY, Taken, WORDS, entry_of};
use crate::helps::{
    ASKING_HELP, COPIES_HELP, HEAD_HELP, P2P_HELP, PATIENCE_HELP, PIPES_HELP, ROUTES_HELP,
    SOURCES_HELP, TARGETS_HELP, VERBOSE_HELP, WITHIN_HELP, WORKERS_HELP,
};
use crate::names::{
    ASKING, COPIES, DELTA, FOLDER, HEAD, JOURNAL, MOST_JOURNAL_PAGES, MOST_PATIENCE, MOST_WIDTH,
    MOST_WORKERS, PAIRS, PATIENCE, PIPES, ROOM, ROUTES, SOURCES, TARGETS, VERBOSE, WITHIN, WORKERS,
};
use clap::{Arg, ArgAction, Command, value_parser};
use std::alloc::{AllocError, Global};

/// A word at its place, or what makes an option.
fn argument<'w>(alloc: Global, name: &'w str, help: &'w str) -> Arg<'w> {
    Arg::new(alloc, name).help(help)
}

/// The same for a number of 64 bits, which help calls so. A negative one is refused as its value.
fn number_argument<'w>(alloc: Global, name: &'w str, value: &'w str, help: &'w str) -> Arg<'w> {
    argument(alloc, name, help)
        .value_name(value)
        .allow_negative_numbers(true)
        .value_parser(value_parser!(u64))
}

/// The word for the pairs, which stands at its place where no sources and targets are given.
fn pairs_word<'w>(alloc: Global) -> Result<Arg<'w>, AllocError> {
    argument(alloc, PAIRS, P2P_HELP)
        .required_unless_present(SOURCES)?
        .required_unless_present(TARGETS)?
        .conflicts_with(SOURCES)?
        .conflicts_with(TARGETS)
}

/// An option with a value, which help calls so.
fn text_option<'w>(alloc: Global, name: &'w str, value: &'w str, help: &'w str) -> Arg<'w> {
    argument(alloc, name, help).long(name).value_name(value)
}

/// An option whose value is a number from 1 to `most`. A negative one is refused as its value.
fn number_option<'w>(
    alloc: Global,
    name: &'w str,
    value: &'w str,
    most: u32,
    help: &'w str,
) -> Arg<'w> {
    text_option(alloc, name, value, help)
        .allow_negative_numbers(true)
        .value_parser(value_parser!(u32).range(1..=i64::from(most)))
}

/// What stands for a word or an option among those of a command.
fn argument_of<'w>(alloc: Global, taken: Taken) -> Result<Arg<'w>, AllocError> {
    match taken {
        Taken::Word(name, help) => Ok(argument(alloc, name, help).required(true)),
        Taken::Number(name, value, help) => Ok(number_argument(alloc, name, value, help).required(
            true,
        )),
        Taken::Head => Ok(number_argument(alloc, HEAD, HEAD, HEAD_HELP)),
        Taken::Pairs => pairs_word(alloc),
        Taken::Sources => text_option(alloc, SOURCES, "SS", SOURCES_HELP).requires_arg(TARGETS),
        Taken::Targets => text_option(alloc, TARGETS, "SS", TARGETS_HELP).requires_arg(SOURCES),
        Taken::Pipes => Ok(
            argument(alloc, PIPES, PIPES_HELP)
                .value_name("IN OUT")
                .num_args(0..)
                .action(ArgAction::Append),
        ),
        Taken::Asking => Ok(
            text_option(alloc, ASKING, "IN OUT", ASKING_HELP)
                .num_args(1..)
                .action(ArgAction::Append),
        ),
        Taken::Copies => Ok(text_option(alloc, COPIES, "FOLDER", COPIES_HELP)),
        Taken::Workers => Ok(number_option(alloc, WORKERS, "W", MOST_WORKERS, WORKERS_HELP)),
        Taken::Patience => { Ok(number_option(alloc, PATIENCE, "S", MOST_PATIENCE, PATIENCE_HELP)) }
        Taken::Within => Ok(number_argument(alloc, WITHIN, "L", WITHIN_HELP).long(WITHIN)),
        Taken::Routes => argument(alloc, ROUTES, ROUTES_HELP)
            .long(ROUTES)
            .action(ArgAction::SetTrue)
            .conflicts_with(SOURCES),
        Taken::Delta(help) => Ok(number_option(alloc, DELTA, "D", MOST_WIDTH, help)),
        Taken::Journal(help) => Ok(number_option(alloc, JOURNAL, "J", MOST_JOURNAL_PAGES, help)),
        Taken::Room(help) => Ok(number_argument(alloc, ROOM, "R", help).long(ROOM)),
        Taken::Verbose => Ok(
            argument(alloc, VERBOSE, VERBOSE_HELP)
                .long(VERBOSE)
                .action(ArgAction::SetTrue),
        ),
    }
}

/// The command of an entry.
fn command_of<'w>(alloc: Global, entry: &HelpEntry) -> Result<Command<'w>, AllocError> {
    let mut command = Command::new(alloc, entry.name)
        .about(entry.about)
        .long_about(entry.long_about)
        .after_help(entry.after_help);
    for taken in entry.takes {
        command = command.arg(argument_of(alloc, *taken)?)?;
    }
    Ok(command)
}

/// The version of the program, of the format that it writes, and of the logic by which it was proved.
const VERSION: &str = "0.2.0 (format 2, rattle logic dac8208d650f15bf)";

/// The program's words.
pub fn program<'w>(alloc: Global) -> Result<Command<'w>, AllocError> {
    let mut program = command_of(alloc, &PROGRAM_ENTRY)?
        .version(VERSION)
        .args_conflicts_with_subcommands(true);
    for word in WORDS {
        program = program.subcommand(command_of(alloc, entry_of(word))?)?;
    }
    Ok(program)
}
