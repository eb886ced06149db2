//! The arguments of commands, as lists from which their command lines are made.

use clap::{Arg, ArgAction, Command};
use std::alloc::{AllocError, Global};

/// An argument of a command: its name first, and its help last.
#[derive(Clone, Copy)]
pub(crate) enum Argument {
    /// A required word.
    Word(&'static str, &'static str),
    /// One word or more, unless `--files-from` has a list of such words.
    Words(&'static str, &'static str),
    /// Zero or more words.
    AnyWords(&'static str, &'static str),
    /// An option with one value, of this name, which is given at most once.
    Value(&'static str, &'static str, &'static str),
    /// Such an option that is required.
    NeededValue(&'static str, &'static str, &'static str),
    /// An option without a value.
    Flag(&'static str, &'static str),
    /// Such an option that excludes others, whose names stand before its help.
    FlagAgainst(&'static str, &'static [&'static str], &'static str),
    /// `--files-from`, a list of what is else words of this name.
    FilesFrom(&'static str),
    /// `--null`, of such a list.
    Null(&'static str),
    /// `--verbose`, as each command takes it.
    Verbose,
}

/// The name of the option that has a list of files.
pub(crate) const FILES_FROM: &str = "files-from";

/// The name of the option that says how the names of that list end.
pub(crate) const NULL: &str = "null";

/// A command: its name, what it does, its arguments in their order, and what its long help prints in addition.
#[derive(Clone, Copy)]
pub(crate) struct CommandWords {
    pub(crate) name: &'static str,
    pub(crate) about: &'static str,
    pub(crate) arguments: &'static [Argument],
    pub(crate) more: &'static str,
}

/// The command lines of commands.
pub(crate) fn command_lines<'a>(
    alloc: Global,
    all: &[CommandWords],
) -> Result<Vec<Command<'a>>, AllocError> {
    let mut lines = Vec::with_capacity(alloc, all.len())?;
    for words in all {
        lines.push(command_line_of(alloc, *words)?)?;
    }
    Ok(lines)
}

fn command_line_of<'a>(alloc: Global, words: CommandWords) -> Result<Command<'a>, AllocError> {
    let arguments = arguments_of(alloc, words.arguments)?;
    Command::new(alloc, words.name)
        .about(words.about)
        .after_long_help(words.more)
        .args(arguments)
}

fn arguments_of<'a>(alloc: Global, all: &[Argument]) -> Result<Vec<Arg<'a>>, AllocError> {
    let mut arguments = Vec::with_capacity(alloc, all.len())?;
    for argument in all {
        arguments.push(argument_of(alloc, *argument)?)?;
    }
    Ok(arguments)
}

fn argument_of<'a>(alloc: Global, argument: Argument) -> Result<Arg<'a>, AllocError> {
    match argument {
        Argument::Word(name, help) => Ok(word(alloc, name, help)),
        Argument::Words(name, help) => words(alloc, name, help),
        Argument::AnyWords(name, help) => Ok(any_words(alloc, name, help)),
        Argument::Value(name, value, help) => Ok(option(alloc, name, value, help)),
        Argument::NeededValue(name, value, help) => Ok(needed_option(alloc, name, value, help)),
        Argument::Flag(name, help) => Ok(flag(alloc, name, help)),
        Argument::FlagAgainst(name, others, help) => flag_against(alloc, name, others, help),
        Argument::FilesFrom(words) => files_from(alloc, words),
        Argument::Null(words) => null_flag(alloc, words),
        Argument::Verbose => Ok(verbose_flag(alloc)),
    }
}

fn word<'a>(alloc: Global, name: &'a str, help: &'a str) -> Arg<'a> {
    Arg::new(alloc, name).required(true).help(help)
}

fn words<'a>(alloc: Global, name: &'a str, help: &'a str) -> Result<Arg<'a>, AllocError> {
    Arg::new(alloc, name)
        .action(ArgAction::Append)
        .num_args(1..)
        .help(help)
        .required_unless_present(FILES_FROM)
}

fn any_words<'a>(alloc: Global, name: &'a str, help: &'a str) -> Arg<'a> {
    Arg::new(alloc, name)
        .action(ArgAction::Append)
        .num_args(0..)
        .help(help)
}

fn option<'a>(alloc: Global, name: &'a str, value: &'a str, help: &'a str) -> Arg<'a> {
    Arg::new(alloc, name)
        .long(name)
        .value_name(value)
        .help(help)
}

fn needed_option<'a>(alloc: Global, name: &'a str, value: &'a str, help: &'a str) -> Arg<'a> {
    option(alloc, name, value, help).required(true)
}

fn flag<'a>(alloc: Global, name: &'a str, help: &'a str) -> Arg<'a> {
    Arg::new(alloc, name)
        .long(name)
        .action(ArgAction::SetTrue)
        .help(help)
}

/// An option without a value that excludes others.
fn flag_against<'a>(
    alloc: Global,
    name: &'a str,
    others: &'a [&'a str],
    help: &'a str,
) -> Result<Arg<'a>, AllocError> {
    let mut against = flag(alloc, name, help);
    for other in others {
        against = against.conflicts_with(other)?;
    }
    Ok(against)
}

fn files_from<'a>(alloc: Global, words: &'a str) -> Result<Arg<'a>, AllocError> {
    let list = option(
        alloc,
        FILES_FROM,
        "LIST",
        "a file with the name of a file on each line, in place of FILE; - for standard input",
    );
    list.conflicts_with(words)
}

fn null_flag<'a>(alloc: Global, words: &'a str) -> Result<Arg<'a>, AllocError> {
    let ends = flag(
        alloc,
        NULL,
        "each name of LIST ends with a NUL, as find -print0 prints them",
    );
    ends.short('0').conflicts_with(words)
}

fn verbose_flag<'a>(alloc: Global) -> Arg<'a> {
    flag(
        alloc,
        "verbose",
        "print steps and the system's reasons on standard error",
    )
    .short('v')
}
