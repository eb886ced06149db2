//! Lines, and the values of their fields.

ghost use Rattle.std.specs.Prelude.{◌≤◌};

use cwr_field::{Clock, Day, cut, date, time};
use std::alloc::{AllocError, Global};
use std::fmt::Debug;
use std::test::Fail;
use test_comparisons::{same, same_bytes};

/// A line of texts, each with the number of blanks that follow it.
pub(crate) fn line(alloc: Global, texts: &[(&[u8], usize)]) -> Result<Vec<u8>, AllocError> {
    let mut line = Vec::new(alloc);
    for (text, blanks) in texts {
        line.extend_from_slice(text)?;
        for _ in 0..*blanks {
            line.push(b' ')?;
        }
    }
    Ok(line)
}

/// A text in its field, followed by blanks.
pub(crate) fn text<const N: usize>(text: &[u8]) -> [u8; N]
    requires { (1 ≤ N) × (N ≤ 150) }
{
    cut(text, 1, N).bytes()
}

/// The day of eight digits.
pub(crate) fn day(digits: &[u8; 8]) -> Result<Day, Fail> {
    Ok(date(cut(digits, 1, 8)).ok_or("no date")?)
}

/// The time of six digits.
pub(crate) fn clock(digits: &[u8; 6]) -> Result<Clock, Fail> {
    Ok(time(cut(digits, 1, 6)).ok_or("no time")?)
}

/// A record must be written as a line, and be read from it. `written` is what was written, and `line` what it must be.
/// `what` names the record, `read` is what was read of the line, and `wanted` what must be read.
pub(crate) fn expect_record<T: PartialEq + Debug>(
    written: &[u8],
    line: &[u8],
    what: &str,
    read: &T,
    wanted: &T,
) -> Result<(), Fail> {
    same_bytes("the line", written, line)?;
    same(what, read, wanted)
}
