ghost use Rattle.std.specs.Prelude.{◌≡◌, ◌++◌, ◌<◌, ◌≤◌, length, true, OnOk};
ghost use Rattle.std.specs.Fmt.{decimal};
ghost use Rattle.cwr_record.specs.Territory.{without_trailing};
ghost use Rattle.html_text.specs.Fragments.{fragment_text};
ghost use Rattle.cwr_field.specs.Shown.{hex_digit, is_unprinted};
ghost use Rattle.html_text.specs.Pieces.{byte_text, cell, field_cell, field_shown, page_text, piece_text, shown, text_pieces, Hex};

use crate::fragment::{Fragment, markup};
use crate::kept::{MAX_PRINTABLE, are_kept, are_seen};
use crate::signs::put_blanks;
use cwr_field::{MIN_PRINTABLE, Memory, put_number as put_digits_of};
use std::alloc::Allocator;

/// Appends a fragment.
#[inline(always)]
pub fn put<A: Allocator>(out: &mut Vec<u8, A>, fragment: Fragment) -> Result<(), Memory>
    ensures { OnOk result (out.new.items ≡ out.old.items ++ fragment_text fragment) }
{
    let text = markup(fragment);
    if let [byte] = text {
        out.push(*byte)?;
    } else {
        out.extend_from_slice(text)?;
    }
    Ok(())
}

/// Appends a number, in decimal digits. One of two digits is appended byte by byte, which takes less time.
#[inline(always)]
pub fn put_number<A: Allocator>(out: &mut Vec<u8, A>, number: u64) -> Result<(), Memory>
    ensures { OnOk result (out.new.items ≡ out.old.items ++ decimal number) }
{
    if number >= 10 && number < 100 {
        out.push(b'0' + (number / 10) as u8)?;
        out.push(b'0' + (number % 10) as u8)?;
        return Ok(());
    }
    put_digits_of(out, number)
}

/// Appends bytes of a line, each in its cell: all at once if each is shown as itself.
#[tactic(auto, using(crate::proofs::KeptBytes::shown_kept))]
pub fn put_shown<A: Allocator>(out: &mut Vec<u8, A>, bytes: &[u8]) -> Result<(), Memory>
    ensures { OnOk result (out.new.items ≡ out.old.items ++ page_text (shown bytes.now)) }
{
    if are_kept(bytes) {
        out.extend_from_slice(bytes)?;
        return Ok(());
    }
    put_cells(out, bytes)
}

/// Appends bytes of a line, one by one.
#[tactic(auto, using(crate::proofs::lemmas::Pages::page_append))]
fn put_cells<A: Allocator>(out: &mut Vec<u8, A>, bytes: &[u8]) -> Result<(), Memory>
    ensures { OnOk result (out.new.items ≡ out.old.items ++ page_text (shown bytes.now)) }
{
    for byte in bytes {
        put_cell(out, *byte)?;
    }
    Ok(())
}

/// Appends bytes of a marked field. The blanks behind its text are appended many at once.
pub fn put_field_shown<A: Allocator>(out: &mut Vec<u8, A>, bytes: &[u8]) -> Result<(), Memory>
    ensures { OnOk result (out.new.items ≡ out.old.items ++ page_text (field_shown bytes.now)) }
{
    let text = without_trailing(bytes);
    put_field_text(out, text)?;
    put_blanks(out, bytes.len() - text.len())
}

/// Appends the text of a marked field: at once if each of its bytes stands for itself.
#[tactic(auto, using(crate::proofs::KeptBytes::field_kept))]
fn put_field_text<A: Allocator>(out: &mut Vec<u8, A>, text: &[u8]) -> Result<(), Memory>
    ensures { OnOk result (out.new.items ≡ out.old.items ++ page_text (field_shown text.now)) }
{
    if are_seen(text) {
        out.extend_from_slice(text)?;
        return Ok(());
    }
    put_field_cells(out, text)
}

/// Appends bytes of a marked field, one by one.
#[tactic(auto, using(crate::proofs::lemmas::Pages::page_append))]
fn put_field_cells<A: Allocator>(out: &mut Vec<u8, A>, bytes: &[u8]) -> Result<(), Memory>
    ensures { OnOk result (out.new.items ≡ out.old.items ++ page_text (field_shown bytes.now)) }
{
    for byte in bytes {
        put_field_cell(out, *byte)?;
    }
    Ok(())
}

/// Appends a text in UTF-8: at once if each of its bytes stands for itself.
#[tactic(auto, using(crate::proofs::KeptBytes::text_kept))]
pub fn put_text<A: Allocator>(out: &mut Vec<u8, A>, text: &[u8]) -> Result<(), Memory>
    ensures { OnOk result (out.new.items ≡ out.old.items ++ page_text (text_pieces text.now)) }
{
    if are_kept(text) {
        out.extend_from_slice(text)?;
        return Ok(());
    }
    put_bytes(out, text)
}

/// Appends the bytes of a text, one by one.
fn put_bytes<A: Allocator>(out: &mut Vec<u8, A>, text: &[u8]) -> Result<(), Memory>
    ensures { OnOk result (out.new.items ≡ out.old.items ++ page_text (text_pieces text.now)) }
{
    for byte in text {
        put_byte(out, *byte)?;
    }
    Ok(())
}

/// Appends a byte of a marked field.
fn put_field_cell<A: Allocator>(out: &mut Vec<u8, A>, byte: u8) -> Result<(), Memory>
    ensures { OnOk result (out.new.items ≡ out.old.items ++ page_text (field_cell byte)) }
{
    if byte == b' ' {
        put(out, Fragment::Blank)
    } else {
        put_cell(out, byte)
    }
}

/// Appends a byte, in its cell.
fn put_cell<A: Allocator>(out: &mut Vec<u8, A>, byte: u8) -> Result<(), Memory>
    ensures { OnOk result (out.new.items ≡ out.old.items ++ page_text (cell byte)) }
{
    if byte < MIN_PRINTABLE || byte > MAX_PRINTABLE {
        put_boxed(out, byte)
    } else {
        put_byte(out, byte)
    }
}

/// Appends a byte by its number, in a box.
fn put_boxed<A: Allocator>(out: &mut Vec<u8, A>, byte: u8) -> Result<(), Memory>
    requires { is_unprinted byte ≡ true }
    ensures { OnOk result (out.new.items ≡ out.old.items ++ page_text (cell byte)) }
{
    put(out, Fragment::ByteBox)?;
    put_hex(out, byte)?;
    put(out, Fragment::ByteBoxEnd)
}

/// Appends a byte by its number to the base 16.
pub(crate) fn put_hex<A: Allocator>(out: &mut Vec<u8, A>, byte: u8) -> Result<(), Memory>
    ensures { OnOk result (out.new.items ≡ out.old.items ++ piece_text (Hex byte)) }
{
    out.extend_from_slice(&[hex_digit(byte / 16), hex_digit(byte % 16)])?;
    Ok(())
}

/// Appends a byte of a text.
pub fn put_byte<A: Allocator>(out: &mut Vec<u8, A>, byte: u8) -> Result<(), Memory>
    ensures { OnOk result (out.new.items ≡ out.old.items ++ byte_text byte) }
{
    match byte {
        b'"' => out.extend_from_slice(b"&quot;")?,
        b'&' => out.extend_from_slice(b"&amp;")?,
        b'\'' => out.extend_from_slice(b"&#39;")?,
        b'<' => out.extend_from_slice(b"&lt;")?,
        b'>' => out.extend_from_slice(b"&gt;")?,
        _ => out.push(byte)?,
    }
    Ok(())
}

/// The bytes up to the last one that is not a blank.
pub fn without_trailing(text: &[u8]) -> &[u8]
    ensures value { result.now ≡ without_trailing text.now }
    ensures shorter { length result.now ≤ length text.now }
{
    let mut end = text.len();
    while end > 0 && text[end - 1] == b' ' {
        end -= 1;
    }
    &text[..end]
}

/// The character of a digit below 16, with capitals.
fn hex_digit(digit: u8) -> u8
    requires { digit < 16 }
    ensures { result ≡ hex_digit digit }
{
    if digit < 10 {
        b'0' + digit
    } else {
        b'A' + (digit - 10)
    }
}
