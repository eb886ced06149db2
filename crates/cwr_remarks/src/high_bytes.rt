ghost use Rattle.std.specs.Prelude.{◌≡◌, ◌<◌, length, IfSome};
ghost use Rattle.std.specs.List.{position, count_by};
ghost use Rattle.cwr_remarks.specs.HighBytes.{is_high, high_bytes};

use crate::remark::Remarked;
use cwr_field::{Sought, is_free_before};

/// The greatest byte of ASCII for which a character is printed.
const HIGHEST: u8 = 126;

/// The first byte of a line that is above 126, and the number of such bytes. Most lines have none, which a quick test
/// finds.
pub(crate) fn high_bytes(line: &[u8]) -> Option<Remarked>
    ensures { result ≡ high_bytes line.now }
{
    if is_free_before(line, line.len(), Sought::Above(HIGHEST)) {
        return None;
    }
    let first = first_high(line)?;
    Some(Remarked::HighBytes {
        first: first as u64 + 1,
        count: count_high(line),
    })
}

/// The index of the first.
fn first_high(line: &[u8]) -> Option<usize>
    ensures value { result ≡ position is_high line.now }
    ensures inside { IfSome result (λ first. first < length line.now) }
{
    line.iter().position(|byte| *byte > HIGHEST)
}

fn count_high(line: &[u8]) -> u64
    ensures { result ≡ count_by is_high line.now }
{
    line.iter().filter(|byte| **byte > HIGHEST).count() as u64
}
