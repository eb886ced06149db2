//! Texts that are written over a part of a line.

ghost use Rattle.std.specs.Prelude.{◌≡◌, ◌≤◌, ◌+◌, ◌-◌, ◌++◌, ℕ, List, length, take};
ghost use Rattle.cwr_field.specs.Layout.{padded};
ghost use Rattle.cwr_acknowledgement.specs.Acknowledgement.{ended};

use cwr_field::fill_text;
use cwr_record::Column;

/// Overwrites a part of a line with a text, from where the column begins.
#[inline(always)]
pub(crate) fn put<const N: usize>(line: &mut [u8], column: Column, text: [u8; N])
    requires start { 1 ≤ column.start }
    requires within { column.start - 1 + N ≤ length line.old }
    ensures len { length line.new ≡ length line.old }
    // The line up to the end of the text, with any bytes behind it.
    ensures before { (behind : List ℕ) → take (column.start - 1 + N) line.new ++ behind ≡ take (column.start - 1) line.old ++ (text.entry ++ behind) }
{
    let start = column.start - 1;
    put_over(&mut line[start..start + N], text);
}

/// Overwrites a column of a line with a text, and with blanks up to the column's width.
#[inline(always)]
pub(crate) fn put_padded(line: &mut [u8], column: Column, text: &[u8])
    requires start { 1 ≤ column.start }
    requires fits { length text.now ≤ column.width }
    requires within { column.start - 1 + column.width ≤ length line.old }
    ensures len { length line.new ≡ length line.old }
    // The line up to the end of the column, with any bytes behind it.
    ensures before { (behind : List ℕ) → take (column.start - 1 + column.width) line.new ++ behind ≡ take (column.start - 1) line.old ++ (padded column.width text.now ++ behind) }
{
    let start = column.start - 1;
    fill_text(&mut line[start..start + column.width], text);
}

/// Overwrites the bytes with a text of the same length.
#[inline(always)]
fn put_over<const N: usize>(bytes: &mut [u8], text: [u8; N])
    requires { length bytes.old ≡ N }
    ensures { bytes.new ≡ text.entry }
{
    let Some(whole) = bytes.as_mut_array::<N>() else {
        unreachable!()
    };
    *whole = text;
}

/// Overwrites the bytes with a line and its end, which have the same length together.
pub(crate) fn put_ended(bytes: &mut [u8], line: &[u8])
    requires { length bytes.old ≡ length line.now + 2 }
    ensures { bytes.new ≡ ended line.now }
{
    bytes[..line.len()].copy_from_slice(line);
    bytes[line.len()..].copy_from_slice(b"\r\n");
}
