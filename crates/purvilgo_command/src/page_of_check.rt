//! What the rules say of a file, as a page of HTML.

use crate::error_terminal::ErrorTerminal;
use crate::files::{STANDARD_INPUT, bytes_of};
use crate::listed_files::path_of;
use crate::printing::StandardOutput;
use crate::status::{bad_words, no_memory, status_of};
use check_pages::{PageError, check_page};
use std::process::ExitCode;
use std::rt::Files;

/// Checks a file, or standard input for `-`, and prints the page of its check on standard output.
///
/// The status is 0 if the file is clean and its whole page was printed, 2 if `names` has not one name alone, and else 1.
/// A file that cannot be read has no page. After a failed allocation or write the page may have no end. `listed` says
/// whether the names come from a list.
pub(crate) fn check_as_page<R: AllocGlobal + Input + Print + ErrorTerminal + Files>(
    rt: &R,
    names: &[&str],
    listed: bool,
    verbose: bool,
) -> ExitCode {
    let [name] = names else {
        return bad_words(rt, "--html goes with one FILE alone");
    };
    let path = path_of(name, listed);
    match bytes_of(rt, path, verbose) {
        Ok(bytes) => print_page(rt, name_shown(path), &bytes),
        Err(unread) => {
            let _ = eprintln!(rt; "stopped: {unread}");
            ExitCode::FAILURE
        }
    }
}

/// What a page calls a file or a register: standard input, if its name is `-`.
pub(crate) fn name_shown(name: &str) -> &str {
    if name == STANDARD_INPUT {
        "standard input"
    } else {
        name
    }
}

/// Prints the page of the check of a file with these bytes. `name` is what the page calls the file.
fn print_page<R: AllocGlobal + Print + Eprint>(rt: &R, name: &str, bytes: &[u8]) -> ExitCode {
    match check_page(rt.alloc(), StandardOutput::of(rt), name, bytes) {
        Ok(page) => status_of(page.clean),
        Err(PageError::Memory) => no_memory(rt),
        Err(PageError::Write) => ExitCode::FAILURE,
    }
}
