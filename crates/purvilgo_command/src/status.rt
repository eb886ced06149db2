//! Statuses of the program, and the texts on standard error that go with them.

use std::process::ExitCode;

/// The status of words that are not taken.
pub(crate) const BAD_WORDS: u8 = 2;

/// The status of a command, by whether all of it is done and printed.
pub(crate) fn status_of(done: bool) -> ExitCode {
    if done {
        ExitCode::SUCCESS
    } else {
        ExitCode::FAILURE
    }
}

/// Prints what is wrong with the words of the command line.
pub(crate) fn bad_words<R: Eprint>(rt: &R, text: &str) -> ExitCode {
    let _ = eprintln!(rt; "{text}");
    ExitCode::from(BAD_WORDS)
}

/// Prints that an allocation failed.
pub(crate) fn no_memory<R: Eprint>(rt: &R) -> ExitCode {
    let _ = eprintln!(rt; "stopped: memory");
    ExitCode::FAILURE
}
