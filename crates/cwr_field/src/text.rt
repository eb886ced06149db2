ghost use Rattle.std.specs.Prelude.{◌≡◌, ◌≤◌, ◌<◌, ◌+◌, ◌++◌, OnOk, OnErr, length, vec_len, vec_capacity};
ghost use Rattle.cwr_field.specs.Layout.{padded, is_printable};

use crate::memory::Memory;
use std::alloc::Allocator;

/// The least byte that is no control byte: a blank.
pub const MIN_PRINTABLE: u8 = 32;

/// Whether no byte is below 32. The bytes below 32 are those of line ends and other controls.
pub fn is_printable(text: &[u8]) -> bool
    ensures { result ≡ is_printable text.now }
{
    text.iter().all(|byte| MIN_PRINTABLE <= *byte)
}

/// Overwrites the bytes with a text, which is no longer than they are, and the rest of them with blanks.
#[inline(always)]
pub fn fill_text(buffer: &mut [u8], text: &[u8])
    requires { length text.now ≤ length buffer.old }
    ensures { buffer.new ≡ padded (length buffer.old) text.now }
{
    buffer[..text.len()].copy_from_slice(text);
    buffer[text.len()..].fill(b' ');
}

/// A text, which is at most `N` bytes long, and blanks up to `N`.
#[inline]
pub fn filled<const N: usize>(text: &[u8]) -> [u8; N]
    requires { length text.now ≤ N }
    ensures { result ≡ padded N text.now }
{
    let mut bytes = [b' '; N];
    bytes[..text.len()].copy_from_slice(text);
    bytes
}

/// Appends a text, which is no longer than the width, and blanks up to the width.
///
/// A refusal leaves the vector as it was.
pub fn put_text<A: Allocator>(out: &mut Vec<u8, A>, text: &[u8], width: usize) -> Result<(), Memory>
    requires { length text.now ≤ width }
    ensures ok { OnOk result (out.new.items ≡ out.old.items ++ padded width text.now) }
    ensures err { OnErr result (out.new.items ≡ out.old.items) }
    ensures len { OnOk result (vec_len out.new ≡ vec_len out.old + width) }
    // The capacity never shrinks, and `Memory` is returned only where the capacity was too small.
    ensures capacity { vec_capacity out.old ≤ vec_capacity out.new }
    ensures full { OnErr result (vec_capacity out.old < vec_len out.old + width) }
{
    out.reserve(width)?;
    let end = out.len() + width;
    out.extend_from_slice(text).unwrap();
    out.resize(end, b' ').unwrap();
    Ok(())
}
