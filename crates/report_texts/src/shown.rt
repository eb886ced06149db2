ghost use Rattle.std.specs.Prelude.{◌≡◌, ◌++◌, ◌<◌, OnOk};
ghost use Rattle.std.specs.Char.{digit_char};
ghost use Rattle.cwr_field.specs.Shown.{is_unprinted};
ghost use Rattle.report_texts.specs.Shown.{shown, shown_text, bytes_as_printed};

use crate::long_lines::put_text;
use cwr_field::{MIN_PRINTABLE, Memory};
use std::alloc::Allocator;

/// Appends bytes of a file as a person is shown them, so that nothing but printable ASCII goes to a terminal.
///
/// A byte below 32 or above 126 is shown as `\xEF`: a backslash, `x` and two digits to the base 16, in capitals. Any
/// other byte stands as it is, a backslash too. An allocation failure may leave a part of them.
pub fn put_shown<A: Allocator>(out: &mut Vec<u8, A>, bytes: &[u8]) -> Result<(), Memory>
    ensures { OnOk result (out.new.items ≡ out.old.items ++ shown_text bytes.now) }
{
    for byte in bytes {
        put_shown_byte(out, *byte)?;
    }
    Ok(())
}

/// Appends bytes of a file, escaped if `shows` is true, else as they stand. An allocation failure may leave a part of
/// them.
pub fn put_bytes<A: Allocator>(
    out: &mut Vec<u8, A>,
    bytes: &[u8],
    shows: bool,
) -> Result<(), Memory>
    ensures { OnOk result (out.new.items ≡ out.old.items ++ bytes_as_printed shows bytes.now) }
{
    if shows {
        put_shown(out, bytes)
    } else {
        put_text(out, bytes)
    }
}

/// Appends a byte, as it is shown.
fn put_shown_byte<A: Allocator>(out: &mut Vec<u8, A>, byte: u8) -> Result<(), Memory>
    ensures { OnOk result (out.new.items ≡ out.old.items ++ shown byte) }
{
    if is_unprinted(byte) {
        let high = hex_digit(byte / 16).to_ascii_uppercase();
        let low = hex_digit(byte % 16).to_ascii_uppercase();
        out.extend_from_slice(&[b'\\', b'x', high, low])?;
    } else {
        out.push(byte)?;
    }
    Ok(())
}

/// Whether a byte has no printable character in ASCII.
fn is_unprinted(byte: u8) -> bool
    ensures { result ≡ is_unprinted byte }
{
    byte < MIN_PRINTABLE || byte > 126
}

/// The character of a digit below 16.
pub fn hex_digit(digit: u8) -> u8
    requires { digit < 16 }
    ensures { result ≡ digit_char digit }
{
    if digit < 10 {
        b'0' + digit
    } else {
        b'a' + (digit - 10)
    }
}
