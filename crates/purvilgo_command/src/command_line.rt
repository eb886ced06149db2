//! The command line that the program takes.

use crate::answered_file::ANSWER;
use crate::arguments::{CommandWords, command_lines};
use crate::checking::CHECK;
use crate::explain::EXPLAIN;
use crate::help::PROGRAM_HELP;
use crate::registers::AUDIT;
use crate::run_command::RUN;
use crate::tables::{CLAIMS, HISTORY, SUMMARY, WORKS};
use crate::verified_files::VERIFY;
use crate::version::{VERSION, VERSION_WORD};
use clap::Command;
use std::alloc::{AllocError, Global};

// The commands, in the order in which help prints them. They are three lists, each with a function of its own: one
// function with the texts of all commands is too large for its proof.

/// Commands on files, and on the rules.
const FILE_COMMANDS: [CommandWords; 3] = [RUN, CHECK, EXPLAIN];

/// Commands that print a register.
const REGISTER_COMMANDS: [CommandWords; 5] = [AUDIT, CLAIMS, WORKS, HISTORY, SUMMARY];

/// Commands on a register and files, and on the program.
const OTHER_COMMANDS: [CommandWords; 3] = [VERIFY, ANSWER, VERSION_WORD];

/// The program's name, what it does without words, and its commands.
pub(crate) fn command_line<'a>(alloc: Global) -> Result<Command<'a>, AllocError> {
    let files = file_commands(alloc)?;
    let registers = register_commands(alloc)?;
    let others = other_commands(alloc)?;
    Command::new(alloc, "purvilgo")
        .version(VERSION)
        .about(
            "Keeps a copyright society's registry of musical works; without a command it acknowledges a CWR 2.2 file from standard input to standard output",
        )
        .after_long_help(PROGRAM_HELP)
        .subcommands(files)?
        .subcommands(registers)?
        .subcommands(others)
}

fn file_commands<'a>(alloc: Global) -> Result<Vec<Command<'a>>, AllocError> {
    command_lines(alloc, &FILE_COMMANDS)
}

fn register_commands<'a>(alloc: Global) -> Result<Vec<Command<'a>>, AllocError> {
    command_lines(alloc, &REGISTER_COMMANDS)
}

fn other_commands<'a>(alloc: Global) -> Result<Vec<Command<'a>>, AllocError> {
    command_lines(alloc, &OTHER_COMMANDS)
}
