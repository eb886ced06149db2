//! Which rows of a table the options ask for.

use clap::ArgMatches;
use cwr_field::{cut, digits, filled};
use register_tables::Wanted;
use work_registry::Status;

/// The rows of a table that the options ask for, or what is wrong with them: of several faults, the first in this
/// order.
pub(crate) fn wanted_in(given: &ArgMatches) -> Result<Wanted, &'static str> {
    Ok(Wanted {
        work: number_given(given, "work", "bad --work")?,
        submitter: text_given(given, "submitter", "bad --submitter")?,
        number: text_given(given, "number", "bad --number")?,
        status: wanted_status(given)?,
    })
}

/// The number of a work, or of an entry, that is the value of an option, if it is given; a value that is no such number
/// is a fault.
pub(crate) fn number_given(
    given: &ArgMatches,
    option: &str,
    fault: &'static str,
) -> Result<Option<u32>, &'static str> {
    match given.get_str(option) {
        Some(word) => Ok(Some(number_in(word.as_bytes()).ok_or(fault)?)),
        None => Ok(None),
    }
}

/// The text of this width that is the value of an option, if it is given; a value that is no such text is a fault.
fn text_given<const N: usize>(
    given: &ArgMatches,
    option: &str,
    fault: &'static str,
) -> Result<Option<[u8; N]>, &'static str> {
    match given.get_str(option) {
        Some(word) => Ok(Some(text_in(word.as_bytes()).ok_or(fault)?)),
        None => Ok(None),
    }
}

fn wanted_status(given: &ArgMatches) -> Result<Option<Status>, &'static str> {
    match given.get_str("status") {
        Some(word) => Ok(Some(status_in(word.as_bytes()).ok_or("bad --status")?)),
        None => Ok(None),
    }
}

/// A number of one to eight digits that is not 0.
fn number_in(word: &[u8]) -> Option<u32> {
    if word.is_empty() || word.len() > 8 {
        return None;
    }
    match digits(cut(word, 1, word.len())) {
        Some(number) if number > 0 => Some(number as u32),
        _ => None,
    }
}

/// A text of at least one byte, and blanks up to the width.
fn text_in<const N: usize>(word: &[u8]) -> Option<[u8; N]> {
    if word.is_empty() || word.len() > N {
        return None;
    }
    Some(filled(word))
}

fn status_in(word: &[u8]) -> Option<Status> {
    if word.len() != 2 {
        return None;
    }
    Status::named(&[word[0], word[1]])
}
