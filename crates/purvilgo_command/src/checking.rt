//! What the rules say of a file, before it is sent.

use crate::arguments::{Argument, CommandWords};
use crate::error_terminal::ErrorTerminal;
use crate::files::{Reading, bytes_of, read_named};
use crate::help::CHECK_HELP;
use crate::listed_files::{given_list, path_of};
use crate::page_of_check::check_as_page;
use crate::printing::StandardOutput;
use crate::progress::Progress;
use crate::status::{bad_words, status_of};
use byte_streams::{ReadRefused, Source};
use clap::ArgMatches;
use cwr_check::{Checked, check_source};
use cwr_desk::MAX_BYTES;
use cwr_field::Memory;
use cwr_remarks::{
    check_faults, put_fault_lines, put_named_lines, remarked_json, remarked_json_of_file,
    remarked_long,
};
use cwr_source::WINDOW;
use std::alloc::Global;
use std::process::ExitCode;
use std::rt::Files;

/// `check [--long | --json | --html] [--quiet] [--verbose] FILE..`, where `--quiet` is not taken with `--json` or
/// `--html`, and `--html` goes with one FILE alone. In place of FILE there may be `--files-from LIST [--null]`.
pub(crate) const CHECK: CommandWords = CommandWords {
    name: "check",
    about: "Prints which rules a CWR 2.2 file breaks, before it is sent; nothing is registered",
    arguments: &[
        Argument::Words("FILE", "a CWR 2.2 file, or - for standard input"),
        Argument::Flag(
            "long",
            "print for each fault its line, its field, what stands there and what was expected",
        ),
        Argument::FlagAgainst(
            "json",
            &["long"],
            "print the same as one JSON object, on one line",
        ),
        Argument::FlagAgainst(
            "html",
            &["long", "json"],
            "print one page for a browser, with each fault marked in its line",
        ),
        Argument::FlagAgainst(
            "quiet",
            &["json", "html"],
            "print faults alone, and nothing for a file without",
        ),
        Argument::FilesFrom("FILE"),
        Argument::Null("FILE"),
        Argument::Verbose,
    ],
    more: CHECK_HELP,
};

/// How a check prints what it found.
#[derive(Clone, Copy)]
enum CheckForm {
    /// A line for each transaction.
    Short,
    /// Lines for a person for each fault.
    Long,
    /// One JSON object, on one line.
    Json,
}

/// How files are checked, and what is printed of them.
#[derive(Clone, Copy)]
struct Manner {
    form: CheckForm,
    /// Whether faults alone are printed.
    quiet: bool,
    /// Whether each line begins with the name of its file, as that is one of several.
    named: bool,
    /// Whether the names come from a list. There `-` is a file of that name.
    listed: bool,
    verbose: bool,
}

/// How the check of a file ended.
#[derive(Clone, Copy, PartialEq, Eq)]
enum Ended {
    /// It has no fault, and that was printed.
    Clean,
    /// It has faults, or was not checked to its end, and that was printed.
    Faulty,
    /// Standard output failed.
    Unprinted,
}

/// Checks the given files, one after another, and prints what was found on standard output, in the form that is asked
/// for. If there are several files each line begins with the file's name. A file that is not checked stops no other.
///
/// The status is 0 if all of them are clean and that was printed. If standard output fails no more files are read.
pub(crate) fn check_files<R: AllocGlobal + Input + Print + ErrorTerminal + Files>(
    rt: &R,
    given: &ArgMatches,
) -> ExitCode {
    match given_list(rt, given) {
        Ok(None) => check_named(rt, given, given.get_strs("FILE").unwrap_or(&[]), false),
        Ok(Some(list)) => match list.names(rt) {
            Ok(names) => check_named(rt, given, &names, true),
            Err(status) => status,
        },
        Err(status) => status,
    }
}

/// Checks the files of these names, as `check_files` does. `listed` says whether the names come from a list.
fn check_named<R: AllocGlobal + Input + Print + ErrorTerminal + Files>(
    rt: &R,
    given: &ArgMatches,
    names: &[&str],
    listed: bool,
) -> ExitCode {
    if names.is_empty() {
        return bad_words(rt, "the command line is not taken");
    }
    let verbose = given.get_flag("verbose");
    if given.get_flag("html") {
        return check_as_page(rt, names, listed, verbose);
    }
    let manner = Manner {
        form: form_of(given),
        quiet: given.get_flag("quiet"),
        named: names.len() > 1,
        listed,
        verbose,
    };
    status_of(are_clean(rt, names, manner))
}

/// The form that the options ask for.
fn form_of(given: &ArgMatches) -> CheckForm {
    if given.get_flag("json") {
        CheckForm::Json
    } else if given.get_flag("long") {
        CheckForm::Long
    } else {
        CheckForm::Short
    }
}

/// Checks files, and returns whether all of them are clean, and that was printed.
fn are_clean<R: AllocGlobal + Input + Print + ErrorTerminal + Files>(
    rt: &R,
    names: &[&str],
    manner: Manner,
) -> bool {
    let mut out = StandardOutput::of(rt);
    let progress = Progress::of_files(rt, names.len(), manner.verbose);
    let mut clean = true;
    for name in names {
        match check_file(rt, &mut out, name, manner, &progress) {
            Ended::Clean => {}
            Ended::Faulty => clean = false,
            Ended::Unprinted => return false,
        }
        progress.add(1);
    }
    progress.clear();
    clean
}

/// Checks a file, or standard input for `-`.
///
/// `rt` is the runtime, and `out` standard output. `name` is that of the file, and `manner` says how it is checked and
/// what is printed of it. The line of `progress` gives way to what is printed.
fn check_file<R: AllocGlobal + Input + Print + ErrorTerminal + Files>(
    rt: &R,
    out: &mut StandardOutput<'_, R>,
    name: &str,
    manner: Manner,
    progress: &Progress<R>,
) -> Ended {
    match checked_file(rt, name, manner) {
        Ok(checked) => {
            if !checked.text.is_empty() {
                progress.clear();
            }
            print_check(out, &checked)
        }
        Err(unread) => {
            print_unread(progress.cleared(), name, manner, unread);
            Ended::Faulty
        }
    }
}

/// Prints why a file was not checked, with its name if it is one of several.
fn print_unread<R: Eprint>(rt: &R, name: &str, manner: Manner, unread: ReadRefused) {
    let _told = if manner.named {
        eprintln!(rt; "{name}: stopped: {unread}")
    } else {
        eprintln!(rt; "stopped: {unread}")
    };
}

/// The text that is printed of a file. For the short form the file goes through a window. For the others all of it is
/// in memory until it is checked.
fn checked_file<R: AllocGlobal + Input + ErrorTerminal + Files>(
    rt: &R,
    name: &str,
    manner: Manner,
) -> Result<Checked, ReadRefused> {
    let alloc = rt.alloc();
    let verbose = manner.verbose;
    let path = path_of(name, manner.listed);
    match manner.form {
        CheckForm::Short => {
            let checked = read_named(rt, path, verbose, ShortCheck { alloc })?;
            printed_lines(alloc, name, checked, manner)
        }
        CheckForm::Long => {
            let checked = long_check(alloc, &bytes_of(rt, path, verbose)?, manner)?;
            printed_lines(alloc, name, checked, manner)
        }
        CheckForm::Json => json_check(alloc, name, &bytes_of(rt, path, verbose)?, manner),
    }
}

/// A file is checked as it is read.
#[derive(Clone, Copy)]
struct ShortCheck {
    alloc: Global,
}

impl Reading for ShortCheck {
    type Made = Result<Checked, ReadRefused>;

    fn read<S: Source>(self, reader: &mut S) -> Result<Checked, ReadRefused> {
        check_source(self.alloc, reader, MAX_BYTES, WINDOW)
    }
}

/// The long report on a file with these bytes.
fn long_check(alloc: Global, bytes: &[u8], manner: Manner) -> Result<Checked, ReadRefused> {
    let told = if manner.quiet {
        check_faults(alloc, bytes)
    } else {
        remarked_long(alloc, bytes)
    };
    given_memory(told)
}

/// The report on a file with these bytes as JSON.
fn json_check(
    alloc: Global,
    name: &str,
    bytes: &[u8],
    manner: Manner,
) -> Result<Checked, ReadRefused> {
    let told = if manner.named {
        remarked_json_of_file(alloc, name, bytes)
    } else {
        remarked_json(alloc, bytes)
    };
    given_memory(told)
}

/// The result, or the refusal for an allocation that failed.
fn given_memory<T>(made: Result<T, Memory>) -> Result<T, ReadRefused> {
    match made {
        Ok(made) => Ok(made),
        Err(_) => Err(ReadRefused::Memory),
    }
}

/// The lines that are printed of a file: those of faults alone if that is asked for, each behind the file's name if it
/// is one of several.
fn printed_lines(
    alloc: Global,
    name: &str,
    checked: Checked,
    manner: Manner,
) -> Result<Checked, ReadRefused> {
    let Checked { mut text, clean } = checked;
    if manner.quiet && matches!(manner.form, CheckForm::Short) {
        text = given_memory(faults_of(alloc, &text))?;
    }
    if manner.named {
        text = given_memory(named(alloc, name, &text))?;
    }
    Ok(Checked { text, clean })
}

/// The lines of faults alone.
fn faults_of(alloc: Global, text: &[u8]) -> Result<Vec<u8>, Memory> {
    let mut kept = Vec::new(alloc);
    put_fault_lines(&mut kept, text)?;
    Ok(kept)
}

/// Lines behind the name of their file.
fn named(alloc: Global, name: &str, text: &[u8]) -> Result<Vec<u8>, Memory> {
    let mut lines = Vec::new(alloc);
    put_named_lines(&mut lines, name, text)?;
    Ok(lines)
}

/// Prints what was found in a file.
fn print_check<R: Print + Eprint>(out: &mut StandardOutput<'_, R>, checked: &Checked) -> Ended {
    if !out.put(&checked.text) {
        Ended::Unprinted
    } else if checked.clean {
        Ended::Clean
    } else {
        Ended::Faulty
    }
}
