//! The acknowledgement of a file, made again from a register.

use crate::arguments::{Argument, CommandWords};
use crate::error_terminal::ErrorTerminal;
use crate::files::{InputFile, whole_file};
use crate::help::ANSWER_HELP;
use crate::printing::StandardOutput;
use crate::registers::{REGISTER, named_book};
use crate::run_command::{DATE, NAME, SOCIETY, StampWords, TIME};
use crate::status::{bad_words, no_memory};
use crate::wanted_rows::number_given;
use byte_streams::{ReadRefused, Through};
use clap::ArgMatches;
use cwr_record::Stamp;
use cwr_verify::{NoAnswer, answer};
use register_store::ReadBookError;
use std::io;
use std::process::ExitCode;
use std::rt::Files;
use work_registry::Book;

/// `answer --society NNN --name TEXT --date YYYYMMDD --time HHMMSS [--entry N] [--verbose] REGISTER FILE`.
pub(crate) const ANSWER: CommandWords = CommandWords {
    name: "answer",
    about: "Makes the acknowledgement of a file again, from a register that has its entries",
    arguments: &[
        SOCIETY,
        NAME,
        DATE,
        TIME,
        Argument::Value(
            "entry",
            "N",
            "the entry of the file's first transaction; else the last that fits",
        ),
        Argument::Verbose,
        REGISTER,
        Argument::Word("FILE", "the CWR 2.2 file that was sent"),
    ],
    more: ANSWER_HELP,
};

/// What is to be acknowledged again.
#[derive(Clone, Copy)]
struct Asked<'a> {
    /// The file that was sent.
    file: &'a str,
    /// The stamp of the run that took it.
    stamp: Stamp,
    /// The entry of its first transaction, from 1, if one is named.
    entry: Option<u32>,
    /// Whether steps, and the system's reasons, are printed.
    verbose: bool,
}

/// Makes the acknowledgement of a file again from a register, on standard output. The register `-` is standard input.
/// If there is no acknowledgement, the reason is printed on standard error.
pub(crate) fn answer_file<R: AllocGlobal + Input + Print + ErrorTerminal + Files>(
    rt: &R,
    register: &str,
    given: &ArgMatches,
) -> ExitCode {
    match asked_of(given) {
        Ok(asked) => match answer_asked(rt, register, &asked) {
            Ok(()) => ExitCode::SUCCESS,
            Err(status) => status,
        },
        Err(text) => bad_words(rt, text),
    }
}

/// What the options ask for, or what is wrong with them: of several faults, the first in this order.
fn asked_of<'a>(given: &ArgMatches<'a>) -> Result<Asked<'a>, &'static str> {
    let words = StampWords::given(given).ok_or("the command line is not taken")?;
    if let Some(fault) = words.fault() {
        return Err(fault.text());
    }
    Ok(Asked {
        file: given
            .get_str("FILE")
            .ok_or("the command line is not taken")?,
        stamp: words.stamp().ok_or("the words name no stamp")?,
        entry: number_given(given, "entry", "bad --entry")?,
        verbose: given.get_flag("verbose"),
    })
}

/// The same for a register and options that are right. If there is no acknowledgement, the reason is printed, and its
/// status returned.
fn answer_asked<R: AllocGlobal + Input + Print + ErrorTerminal + Files>(
    rt: &R,
    register: &str,
    asked: &Asked,
) -> Result<(), ExitCode> {
    let book = book_in(rt, register, asked.verbose)?;
    let text = text_of(rt, asked)?;
    let mut out = Through::new(StandardOutput::of(rt));
    match answer(
        rt.alloc(),
        &book,
        &text,
        &asked.stamp,
        asked.entry,
        &mut out,
    ) {
        Ok(()) => Ok(()),
        Err(why) => Err(print_why(rt, asked, why)),
    }
}

/// The book of a register. If there is none, the reason is printed on standard error.
fn book_in<R: AllocGlobal + Input + ErrorTerminal + Files>(
    rt: &R,
    register: &str,
    verbose: bool,
) -> Result<Book, ExitCode> {
    match named_book(rt, register, verbose) {
        Ok(book) => Ok(book),
        Err(ReadBookError::Memory) => Err(no_memory(rt)),
        Err(why) => {
            let _ = eprintln!(rt; "register: {why}");
            Err(ExitCode::FAILURE)
        }
    }
}

/// The bytes of the file. If they cannot be read, the reason is printed on standard error.
fn text_of<R: AllocGlobal + ErrorTerminal + Files>(
    rt: &R,
    asked: &Asked,
) -> Result<Vec<u8>, ExitCode> {
    let mut file = InputFile::new(rt, asked.file, asked.verbose);
    match whole_file(rt.alloc(), &mut file) {
        Ok(bytes) => Ok(bytes),
        Err(ReadRefused::Memory) => Err(no_memory(rt)),
        Err(ReadRefused::TooLong) => Err(print_why(rt, asked, NoAnswer::TooLong)),
        Err(unread) => {
            let _ = eprintln!(rt; "{}: stopped: {unread}", asked.file);
            Err(ExitCode::FAILURE)
        }
    }
}

/// Prints why a file is not acknowledged again. A failure of standard output has been reported before.
fn print_why<R: Eprint>(rt: &R, asked: &Asked, why: NoAnswer) -> ExitCode {
    let name = asked.file;
    let _told = match why {
        NoAnswer::Memory => return no_memory(rt),
        NoAnswer::TooLong => eprintln!(rt; "{name}: too long"),
        NoAnswer::Refused { number, line } => {
            eprintln!(rt; "{name}: refused F{number} at line {line}")
        }
        NoAnswer::OtherEntry => print_other_entry(rt, asked),
        NoAnswer::Transaction { group, sequence } => print_missing(rt, asked, group, sequence),
        NoAnswer::Write { sent: _ } => Ok(()),
    };
    ExitCode::FAILURE
}

/// Prints that the given entry is not that of the file.
fn print_other_entry<R: Eprint>(rt: &R, asked: &Asked) -> io::Result<()> {
    match asked.entry {
        Some(entry) => {
            eprintln!(rt;
                "{}: entry {entry} is not of its first transaction",
                asked.file
            )
        }
        None => Ok(()),
    }
}

/// Prints which transaction has no entry.
fn print_missing<R: Eprint>(rt: &R, asked: &Asked, group: u32, sequence: u32) -> io::Result<()> {
    let name = asked.file;
    match asked.entry {
        Some(entry) => eprintln!(rt;
            "{name}: group {group}, transaction {sequence}: no entry from {entry} on answers it"
        ),
        None => eprintln!(rt;
            "{name}: group {group}, transaction {sequence}: no entry of the register answers it"
        ),
    }
}
