//! Lines on standard error whose text is not fixed: reasons of the system, and how a file ended.

use cwr_desk::{FileOutcome, outcome_line};
use std::{io, str};

/// What stands between a reason of the system and its number.
const NUMBER_START: &str = " (os error ";

/// Prints on standard error, behind `name` and a colon, why a call of the system for that file failed. The number of the
/// error is left out. If an allocation fails, nothing is printed.
pub(crate) fn print_reason<R: AllocGlobal + Eprint>(rt: &R, name: &str, error: &io::Error) {
    if let Ok(text) = error.to_string(rt.alloc()) {
        let reason = without_number(text.as_str());
        let _ = eprintln!(rt; "{name}: {reason}");
    }
}

/// Prints on standard error how the acknowledging of a file of this name ended. If an allocation fails, nothing is
/// printed.
pub(crate) fn print_outcome<R: AllocGlobal + Eprint>(rt: &R, name: &str, outcome: &FileOutcome) {
    if let Ok(line) = outcome_line(rt.alloc(), name.as_bytes(), outcome) {
        if let Ok(text) = str::from_utf8(&line) {
            let _ = eprint!(rt; "{text}");
        }
    }
}

/// A reason of the system without its number.
fn without_number(text: &str) -> &str {
    match text.split_once(NUMBER_START) {
        Some((reason, _)) => reason,
        None => text,
    }
}
