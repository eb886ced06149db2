ghost use Rattle.std.specs.Prelude.{◌≡◌, ◌≤◌, length, drop};
ghost use Rattle.cwr_report.specs.BytesBefore.{first_size, bytes_before};

use cwr_field::line_end;

/// The number of bytes in the lines before the one at an index, line ends included. Lines are counted from 0.
pub(crate) fn bytes_before(bytes: &[u8], index: u64) -> usize
    ensures value { result ≡ bytes_before index bytes.now }
    ensures inside { result ≤ length bytes.now }
{
    let mut rest = bytes;
    for _ in 0..index {
        rest = after_first(rest);
    }
    bytes.len() - rest.len()
}

/// What follows the first line and its LF.
fn after_first(bytes: &[u8]) -> &[u8]
    ensures rest { result.now ≡ drop (first_size bytes.now) bytes.now }
    ensures inside { first_size bytes.now ≤ length bytes.now }
{
    match line_end(bytes) {
        None => &bytes[bytes.len()..],
        Some(end) => &bytes[end + 1..],
    }
}
