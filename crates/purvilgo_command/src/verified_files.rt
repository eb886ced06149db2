//! Files and their acknowledgements against a register.

use crate::arguments::{Argument, CommandWords, FILES_FROM};
use crate::error_terminal::ErrorTerminal;
use crate::file_names::ack_name;
use crate::files::{InputFile, STANDARD_INPUT, whole_file};
use crate::help::VERIFY_HELP;
use crate::listed_files::given_list;
use crate::printing::StandardOutput;
use crate::progress::Progress;
use crate::registers::{MAX_REGISTER_BYTES, REGISTER, audited_book};
use crate::status::{bad_words, no_memory, status_of};
use byte_streams::{ReadRefused, read_file};
use clap::ArgMatches;
use cwr_verify::{ReadFile, ReadText, VerifyError, read_text, verify_read};
use std::io::{self, Write};
use std::process::ExitCode;
use std::rt::Files;
use work_registry::Book;

/// `verify [--ack ACK] [--verbose] REGISTER FILE..`. In place of FILE there may be `--files-from LIST [--null]`.
pub(crate) const VERIFY: CommandWords = CommandWords {
    name: "verify",
    about: "Checks a register against files and their acknowledgements",
    arguments: &[
        REGISTER,
        Argument::Words("FILE", "a CWR 2.2 file, whose acknowledgement is FILE.ack"),
        Argument::Value(
            "ack",
            "ACK",
            "the acknowledgement of one FILE, in place of FILE.ack",
        ),
        Argument::FilesFrom("FILE"),
        Argument::Null("FILE"),
        Argument::Verbose,
    ],
    more: VERIFY_HELP,
};

/// An acknowledgement.
#[derive(Drop)]
struct Answer {
    name: String,
    bytes: Vec<u8>,
}

/// Checks files and their acknowledgements against a register, and prints the result on standard output. That is how
/// many transactions of the files the register has as the acknowledgements say, or else what does not fit.
///
/// The register `-` is standard input. A refused register is reported as an audit reports it. The acknowledgement of a
/// single file may have another name than its own.
pub(crate) fn verify_files<R: AllocGlobal + Input + Print + ErrorTerminal + Files>(
    rt: &R,
    register: &str,
    given: &ArgMatches,
) -> ExitCode {
    if register == STANDARD_INPUT && given.get_str(FILES_FROM) == Some(STANDARD_INPUT) {
        return bad_words(rt, "standard input is named twice");
    }
    match given_list(rt, given) {
        Ok(None) => verify_named(rt, register, given, given.get_strs("FILE").unwrap_or(&[])),
        Ok(Some(list)) => match list.names(rt) {
            Ok(names) => verify_named(rt, register, given, &names),
            Err(status) => status,
        },
        Err(status) => status,
    }
}

/// Checks the files of these names against a register, as `verify_files` does.
fn verify_named<R: AllocGlobal + Input + Print + ErrorTerminal + Files>(
    rt: &R,
    register: &str,
    given: &ArgMatches,
    names: &[&str],
) -> ExitCode {
    let verbose = given.get_flag("verbose");
    let ack = given.get_str("ack");
    if ack.is_some() && names.len() != 1 {
        return bad_words(rt, "--ack goes with one FILE alone");
    }
    match audited_book(rt, register, verbose, false) {
        Ok(book) => verify_at(rt, &book, names, ack, verbose),
        Err(status) => status,
    }
}

/// Checks files and their acknowledgements against a book, as `verify_files` does. Each file is judged before the next
/// is read, and no byte of its text is held.
///
/// `rt` is the runtime, `book` has the entries, and `names` are those of the files. `ack` is the name of the
/// acknowledgement, if it is given. `verbose` says whether steps, and the system's reasons, are printed.
fn verify_at<R: AllocGlobal + Print + ErrorTerminal + Files>(
    rt: &R,
    book: &Book,
    names: &[&str],
    ack: Option<&str>,
    verbose: bool,
) -> ExitCode {
    let progress = Progress::of_files(rt, names.len(), verbose);
    let (mut texts, mut answers) = (Vec::new(rt.alloc()), Vec::new(rt.alloc()));
    for name in names {
        match pair_of(&progress, name, ack, verbose) {
            Ok((text, answer)) => {
                if texts.push(text).is_err() || answers.push(answer).is_err() {
                    return no_memory(progress.cleared());
                }
            }
            Err(status) => return status,
        }
        progress.add(1);
    }
    verify_and_print(progress.cleared(), book, names, texts, &answers)
}

/// The file of this name, with its acknowledgement. The line of `progress` gives way to what is printed.
fn pair_of<R: AllocGlobal + ErrorTerminal + Files>(
    progress: &Progress<R>,
    name: &str,
    ack: Option<&str>,
    verbose: bool,
) -> Result<(ReadText, Answer), ExitCode> {
    let answer = answer_to(progress, name, ack)?;
    let text = judged_file(progress, name, verbose)?;
    let bytes = acknowledgement_bytes(progress, &answer, verbose)?;
    Ok((
        text,
        Answer {
            name: answer,
            bytes,
        },
    ))
}

/// The result of judging the file of this name.
fn judged_file<R: AllocGlobal + ErrorTerminal + Files>(
    progress: &Progress<R>,
    name: &str,
    verbose: bool,
) -> Result<ReadText, ExitCode> {
    let rt = progress.runtime();
    let mut file = InputFile::new(rt, name, verbose);
    let text = bytes_or_status(progress, name, whole_file(rt.alloc(), &mut file))?;
    match read_text(rt.alloc(), &text) {
        Ok(read) => Ok(read),
        Err(_) => Err(no_memory(progress.cleared())),
    }
}

/// The name of the acknowledgement of a file: the given one, if any is given.
fn answer_to<R: AllocGlobal + ErrorTerminal>(
    progress: &Progress<R>,
    name: &str,
    ack: Option<&str>,
) -> Result<String, ExitCode> {
    let rt = progress.runtime();
    let answer = match ack {
        Some(ack) => format!(in rt.alloc(); "{ack}"),
        None => ack_name(rt, name),
    };
    match answer {
        Ok(answer) => Ok(answer),
        Err(_) => Err(no_memory(progress.cleared())),
    }
}

/// The bytes of an acknowledgement.
fn acknowledgement_bytes<R: AllocGlobal + ErrorTerminal + Files>(
    progress: &Progress<R>,
    name: &str,
    verbose: bool,
) -> Result<Vec<u8>, ExitCode> {
    let rt = progress.runtime();
    let mut file = InputFile::new(rt, name, verbose);
    bytes_or_status(
        progress,
        name,
        read_file(rt.alloc(), &mut file, MAX_REGISTER_BYTES),
    )
}

/// The bytes of a file that was read. If it could not be, the reason is printed on standard error.
fn bytes_or_status<R: AllocGlobal + ErrorTerminal>(
    progress: &Progress<R>,
    name: &str,
    read: Result<Vec<u8>, ReadRefused>,
) -> Result<Vec<u8>, ExitCode> {
    match read {
        Ok(bytes) => Ok(bytes),
        Err(ReadRefused::Memory) => Err(no_memory(progress.cleared())),
        Err(unread) => {
            let _ = eprintln!(progress.cleared(); "{name}: stopped: {unread}");
            Err(ExitCode::FAILURE)
        }
    }
}

/// Compares judged files and their acknowledgements with a book, and prints the result on standard output. The status is
/// 0 if everything fits and that was printed, and 1 if not.
///
/// `rt` is the runtime, and `book` has the entries. `names` has the name of each file, `judged` the result of judging
/// it, and `answers` its acknowledgement, all in the same order.
fn verify_and_print<R: AllocGlobal + Print + Eprint>(
    rt: &R,
    book: &Book,
    names: &[&str],
    judged: Vec<ReadText>,
    answers: &[Answer],
) -> ExitCode {
    let mut files = Vec::new(rt.alloc());
    for (text, answer) in judged.into_iter().zip(answers) {
        let acknowledgement = answer.bytes.as_slice();
        let file = ReadFile {
            text,
            acknowledgement,
        };
        if files.push(file).is_err() {
            return no_memory(rt);
        }
    }
    match verify_read(rt.alloc(), book, &files) {
        Ok(owners) => print_count(rt, &owners, files.len()),
        Err(unverified) => {
            print_unverified(rt, names, answers, unverified);
            ExitCode::FAILURE
        }
    }
}

/// Prints the number of entries that answer one of `files` files.
fn print_count<R: Print + Eprint>(rt: &R, owners: &[usize], files: usize) -> ExitCode {
    let mut transactions: usize = 0;
    for owner in owners {
        if *owner < files {
            transactions = transactions.saturating_add(1);
        }
    }
    let mut out = StandardOutput::of(rt);
    status_of(write!(out, "{transactions} transactions of {files} files\n").is_ok())
}

/// Prints what does not fit, by the names of the files and of their acknowledgements.
fn print_unverified<R: Print + Eprint>(
    rt: &R,
    names: &[&str],
    answers: &[Answer],
    unverified: VerifyError,
) {
    let mut out = StandardOutput::of(rt);
    let _told = match unverified {
        VerifyError::Memory => eprintln!(rt; "stopped: memory"),
        VerifyError::TooLong { file } => write!(out, "{}: too long\n", name_of(names, file)),
        VerifyError::Refused { file, number, line } => {
            print_refused(&mut out, name_of(names, file), number, line)
        }
        VerifyError::Transaction {
            file,
            group,
            sequence,
        } => {
            let place = (group, sequence);
            print_transaction(
                &mut out,
                name_of(names, file),
                place,
                answer_of(answers, file),
            )
        }
        VerifyError::Acknowledgement { file, line } => {
            print_other_line(&mut out, answer_of(answers, file), line)
        }
    };
}

/// Prints the first fault of a file.
fn print_refused<W: Write>(out: &mut W, name: &str, number: u8, line: u64) -> io::Result<()> {
    write!(out, "{name}: refused F{number} at line {line}\n")
}

/// Prints which transaction of a file, of this group and sequence, the register does not have.
fn print_transaction<W: Write>(
    out: &mut W,
    name: &str,
    (group, sequence): (u32, u32),
    answer: &str,
) -> io::Result<()> {
    write!(
        out,
        "{name}: group {group}, transaction {sequence}: not in the register as {answer} has it\n"
    )
}

/// Prints which line of an acknowledgement is another one.
fn print_other_line<W: Write>(out: &mut W, answer: &str, line: usize) -> io::Result<()> {
    write!(out, "{answer}: line {line} is another in the register\n")
}

/// The name of a file, by its number from 0.
fn name_of<'a>(names: &[&'a str], file: usize) -> &'a str {
    match names.get(file) {
        Some(name) => name,
        None => "",
    }
}

/// The name of the acknowledgement of a file, by its number from 0.
fn answer_of<'a>(answers: &'a [Answer], file: usize) -> &'a str {
    match answers.get(file) {
        Some(answer) => &answer.name,
        None => "",
    }
}
