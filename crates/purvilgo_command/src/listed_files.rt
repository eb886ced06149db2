//! The files of a command, as words or from a list of their names.

use crate::arguments::{FILES_FROM, NULL};
use crate::error_terminal::ErrorTerminal;
use crate::files::{Reading, STANDARD_INPUT, read_named};
use crate::status::{BAD_WORDS, no_memory};
use byte_streams::{ReadRefused, Source, read_file};
use clap::ArgMatches;
use file_lists::{ListFault, ListRefused, NameEnd, names_in};
use std::alloc::Global;
use std::process::ExitCode;
use std::rt::Files;

/// No list is read that has more bytes than this.
const MAX_LIST_BYTES: usize = 1_073_741_824;

/// A list of files, as it was read.
#[derive(Drop)]
pub(crate) struct FileList<'a> {
    /// The name of the list.
    name: &'a str,
    end: NameEnd,
    text: Vec<u8>,
}

/// The list of files that a command is given, if it is given one; `-` is standard input. If it cannot be read, the
/// reason is printed on standard error, and its status returned.
pub(crate) fn given_list<'a, R: AllocGlobal + Input + ErrorTerminal + Files>(
    rt: &R,
    given: &ArgMatches<'a>,
) -> Result<Option<FileList<'a>>, ExitCode> {
    let Some(name) = given.get_str(FILES_FROM) else {
        return Ok(None);
    };
    let end = if given.get_flag(NULL) {
        NameEnd::Nul
    } else {
        NameEnd::Newline
    };
    match read_named(
        rt,
        name,
        given.get_flag("verbose"),
        ListText { alloc: rt.alloc() },
    ) {
        Ok(text) => Ok(Some(FileList { name, end, text })),
        Err(ReadRefused::Memory) => Err(no_memory(rt)),
        Err(unread) => {
            let _ = eprintln!(rt; "{name}: stopped: {unread}");
            Err(ExitCode::FAILURE)
        }
    }
}

impl FileList<'_> {
    /// The names of the files. If the list has a fault, that is printed on standard error, and its status returned.
    pub(crate) fn names<R: AllocGlobal + Eprint>(&self, rt: &R) -> Result<Vec<&str>, ExitCode> {
        match names_in(rt.alloc(), &self.text, self.end) {
            Ok(names) => Ok(names),
            Err(ListRefused::Memory) => Err(no_memory(rt)),
            Err(ListRefused::Fault(fault)) => Err(print_bad_list(rt, self.name, fault)),
        }
    }
}

/// The path of a file that is read by this name. In a list `-` is a file of that name, and not standard input.
pub(crate) fn path_of(name: &str, listed: bool) -> &str {
    if listed && name == STANDARD_INPUT {
        "./-"
    } else {
        name
    }
}

/// Prints what is wrong with a list.
fn print_bad_list<R: Eprint>(rt: &R, name: &str, fault: ListFault) -> ExitCode {
    let _ = eprintln!(rt; "{name}: {fault}");
    ExitCode::from(BAD_WORDS)
}

/// The text of a list is kept.
#[derive(Clone, Copy)]
struct ListText {
    alloc: Global,
}

impl Reading for ListText {
    type Made = Result<Vec<u8>, ReadRefused>;

    fn read<S: Source>(self, reader: &mut S) -> Result<Vec<u8>, ReadRefused> {
        read_file(self.alloc, reader, MAX_LIST_BYTES)
    }
}
