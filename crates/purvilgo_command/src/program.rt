use crate::answered_file::answer_file;
use crate::checking::check_files;
use crate::command_line::command_line;
use crate::error_terminal::ErrorTerminal;
use crate::explain::explain_rules;
use crate::given_words::given_words;
use crate::messages::print_outcome;
use crate::registers::audit_file;
use crate::running::run_files;
use crate::status::{BAD_WORDS, bad_words, no_memory};
use crate::tables::{Table, print_summary, print_table};
use crate::verified_files::verify_files;
use crate::version::print_version;
use atomic_file::Exclusive;
use byte_streams::Through;
use clap::ArgMatches;
use clap::error::ErrorKind;
use cwr_desk::{FileOutcome, acknowledge};
use cwr_field::{Clock, Day, cut, date, time};
use cwr_record::Stamp;
use std::io;
use std::process::ExitCode;
use std::rt::{Env, Files};
use std::sync::Wait;
use std::thread::Threads;

/// Runs the program on its words, and returns its exit status.
///
/// Without words it acknowledges standard input to standard output. `run` acknowledges files at one book, which may
/// come from a register and go to one. The other commands print on standard output:
///
/// `check FILE..` prints which rules each file breaks; with `--long` or `--json` also where and why, and the remarks;
/// with `--quiet` the faults alone. `audit REGISTER` prints the number of entries of a register, or its first fault.
/// `explain` prints what rules require and what answers mean. `claims`, `works` and `history` print a register as a
/// table in CSV, with `--plain` as one for spreadsheets, and `summary` prints its numbers. With `--json`, `audit`,
/// `history` and `summary` print JSON objects. `verify REGISTER FILE..` checks a register against files and their
/// acknowledgements. `answer REGISTER FILE` makes the acknowledgement of a file again from a register. `version`,
/// `--version` and `-V` print the program's version.
///
/// The status is 0 as follows. Without words: the input is acknowledged. `run`: all files are acknowledged, each
/// outcome is printed, and the register that is asked for is kept. `check` and `audit`: there is no fault, and that is
/// printed. `explain` and `version`: all is printed. A table or a summary: the register has no fault, and all of it is
/// printed. `verify`: the register has no fault, and each file is answered as its acknowledgement says. `answer`: the
/// acknowledgement is written.
///
/// It is 2 if the words are not taken: one of them is not text, `clap` answers with a text of its own, help is asked
/// for, a word of `explain` names no page, the value of an option is not valid, those of `run` or `answer` have a
/// [`WordsFault`](run_options::WordsFault), or those of `run` lead to a file of the system that it would write over
/// what it reads, or twice. Else it is 1, also if an allocation for the words fails.
pub fn run_program<
    R: Env + AllocGlobal + Input + Print + ErrorTerminal + Files + Threads + Wait + Sync,
>(rt: &R) -> ExitCode
where
    R::File: Send + Exclusive,
    R::Dir: Send,
{
    let words = match given_words(rt) {
        Ok(words) => words,
        Err(status) => return status,
    };
    let Ok(command) = command_line(rt.alloc()) else {
        return no_memory(rt);
    };
    match command.try_get_matches_from(words.as_slice()) {
        Ok(matches) => run_given(rt, &matches),
        Err(error) => print_clap_error(rt, &error),
    }
}

/// Prints what `clap` answers to words that it does not take: the version on standard output, all else on standard
/// error.
fn print_clap_error<R: Print + Eprint>(rt: &R, error: &clap::Error) -> ExitCode {
    match error.kind() {
        ErrorKind::OutOfMemory => no_memory(rt),
        ErrorKind::DisplayVersion => print_version(rt),
        _ => {
            let _ = eprint!(rt; "{error}");
            ExitCode::from(BAD_WORDS)
        }
    }
}

/// Runs the command that the words name, or without words the one that has no name.
fn run_given<R: AllocGlobal + Input + Print + ErrorTerminal + Files + Threads + Wait + Sync>(
    rt: &R,
    matches: &ArgMatches,
) -> ExitCode
where
    R::File: Send + Exclusive,
    R::Dir: Send,
{
    match matches.subcommand() {
        None => acknowledge_input(rt),
        Some(("run", given)) => run_files(rt, given),
        Some((name, given)) => run_printing_command(rt, name, given),
    }
}

/// Runs a command that prints something, and leaves no file.
fn run_printing_command<R: AllocGlobal + Input + Print + ErrorTerminal + Files>(
    rt: &R,
    name: &str,
    given: &ArgMatches,
) -> ExitCode {
    match name {
        "check" => check_files(rt, given),
        "explain" => explain_rules(rt, given),
        "version" => print_version(rt),
        _ => match given.get_str("REGISTER") {
            Some(path) => run_register_command(rt, name, path, given),
            None => bad_words(rt, "the command line is not taken"),
        },
    }
}

/// Runs a command that prints something of a register.
fn run_register_command<R: AllocGlobal + Input + Print + ErrorTerminal + Files>(
    rt: &R,
    name: &str,
    path: &str,
    given: &ArgMatches,
) -> ExitCode {
    match name {
        "audit" => audit_file(rt, path, given),
        "claims" => print_table(rt, Table::Claims, path, given),
        "works" => print_table(rt, Table::Works, path, given),
        "history" => print_table(rt, Table::History, path, given),
        "summary" => print_summary(rt, path, given),
        "verify" => verify_files(rt, path, given),
        "answer" => answer_file(rt, path, given),
        _ => bad_words(rt, "the command line is not taken"),
    }
}

/// Acknowledges standard input to standard output, with a stamp that never changes.
fn acknowledge_input<R: AllocGlobal + Input + Print + Eprint>(rt: &R) -> ExitCode {
    let mut reader = Through::new(rt.reader());
    let mut writer = Through::new(io::writer(rt));
    match acknowledge(rt.alloc(), &mut reader, &mut writer, &fixed_stamp()) {
        FileOutcome::Acked { transactions: _ } => ExitCode::SUCCESS,
        outcome => {
            print_outcome(rt, "-", &outcome);
            ExitCode::FAILURE
        }
    }
}

/// Society 000, `CWR REGISTRY`, 1 June 2024, 09:00:00.
fn fixed_stamp() -> Stamp {
    let day: Day = date(cut(b"20240601", 1, 8)).unwrap();
    let clock: Clock = time(cut(b"090000", 1, 6)).unwrap();
    Stamp::new(0, b"CWR REGISTRY", day, clock).unwrap()
}
