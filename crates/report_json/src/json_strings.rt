ghost use Rattle.std.specs.Prelude.{◌≡◌, ◌+◌, ◌++◌, ◌<◌, ◌∷◌, [], take, drop, length, IfSome, OnOk, OnErr};
ghost use Rattle.std.specs.Char.{encode_utf8};
ghost use Rattle.std.specs.List.{position};
ghost use Rattle.serde_json.specs.Written.{compact_text};
ghost use Rattle.json.specs.Print.{escape_letter, escape_byte, escape, quoted};
ghost use Rattle.report_json.specs.Json.{latin, text_data};
ghost use Rattle.report_json.specs.JsonText.{is_changed};

use crate::json_runs::are_kept;
use cwr_field::{MIN_PRINTABLE, Memory};
use report_texts::hex_digit;

/// Appends bytes as a text of JSON: each byte is the character with its number, so that a text has all of them whatever
/// they are.
///
/// A refusal leaves the vector as it was.
pub fn put_json_text(out: &mut Vec<u8>, bytes: &[u8]) -> Result<(), Memory>
    ensures ok { OnOk result (out.new.items ≡ out.old.items ++ compact_text (text_data bytes.now)) }
    ensures err { OnErr result (out.new.items ≡ out.old.items) }
{
    let length = out.len();
    let told = put_quoted(out, bytes);
    if told.is_err() {
        out.truncate(length);
    }
    told
}

/// The same. An allocation failure may leave a part of it behind what was there.
fn put_quoted(out: &mut Vec<u8>, bytes: &[u8]) -> Result<(), Memory>
    ensures ok { OnOk result (out.new.items ≡ out.old.items ++ compact_text (text_data bytes.now)) }
    ensures err { OnErr result (take (length out.old.items) out.new.items ≡ out.old.items) }
{
    out.push(b'"')?;
    put_characters(out, bytes)?;
    out.push(b'"')?;
    Ok(())
}

/// Appends the characters for bytes in a text. If a quick test finds that each byte stands for itself, all are appended
/// at once.
fn put_characters(out: &mut Vec<u8>, bytes: &[u8]) -> Result<(), Memory>
    ensures ok { OnOk result (out.new.items ≡ out.old.items ++ escape (latin bytes.now)) }
    ensures err { OnErr result (take (length out.old.items) out.new.items ≡ out.old.items) }
{
    if are_kept(bytes) {
        out.extend_from_slice(bytes)?;
        return Ok(());
    }
    put_each(out, bytes)
}

/// Appends what stands for bytes in a text. Those up to the next that is changed are appended at once.
fn put_each(out: &mut Vec<u8>, bytes: &[u8]) -> Result<(), Memory>
    ensures ok { OnOk result (out.new.items ≡ out.old.items ++ escape (latin bytes.now)) }
    ensures err { OnErr result (take (length out.old.items) out.new.items ≡ out.old.items) }
{
    let mut rest = bytes;
    while let Some(kept) = first_changed(rest) {
        out.extend_from_slice(&rest[..kept])?;
        put_character(out, rest[kept])?;
        rest = after(rest, kept);
    }
    out.extend_from_slice(rest)?;
    Ok(())
}

/// The bytes after the one at an index.
fn after(bytes: &[u8], index: usize) -> &[u8]
    requires { index < length bytes.now }
    ensures { result.now ≡ drop (index + 1) bytes.now }
{
    &bytes[index + 1..]
}

/// The index of the first byte that does not stand for itself.
fn first_changed(bytes: &[u8]) -> Option<usize>
    ensures value { result ≡ position is_changed bytes.now }
    ensures inside { IfSome result (λ index. index < length bytes.now) }
{
    bytes.iter().position(|byte| is_changed(*byte))
}

/// A control byte, a quote or a backslash has an escape, and a byte above 127 is a character of two bytes.
fn is_changed(byte: u8) -> bool
    ensures { result ≡ is_changed byte }
{
    byte < MIN_PRINTABLE || byte == b'"' || byte == b'\\' || byte > 127
}

/// Appends what stands for the character with the number of a byte.
fn put_character(out: &mut Vec<u8>, byte: u8) -> Result<(), Memory>
    ensures ok { OnOk result (out.new.items ≡ out.old.items ++ escape (encode_utf8 byte)) }
    ensures err { OnErr result (out.new.items ≡ out.old.items) }
{
    if byte < 128 {
        put_escaped(out, byte)
    } else {
        put_wide(out, byte)
    }
}

/// Appends the two bytes of a character above 127.
fn put_wide(out: &mut Vec<u8>, byte: u8) -> Result<(), Memory>
    requires { 127 < byte }
    ensures ok { OnOk result (out.new.items ≡ out.old.items ++ encode_utf8 byte) }
    ensures err { OnErr result (out.new.items ≡ out.old.items) }
{
    let mut buffer = [0; 4];
    out.extend_from_slice((byte as char).encode_utf8(&mut buffer).as_bytes())?;
    Ok(())
}

/// Appends what stands for a byte of a text in UTF-8.
fn put_escaped(out: &mut Vec<u8>, byte: u8) -> Result<(), Memory>
    ensures ok { OnOk result (out.new.items ≡ out.old.items ++ escape_byte byte) }
    ensures err { OnErr result (out.new.items ≡ out.old.items) }
{
    let letter = escape_letter(byte);
    if letter > 0 {
        out.extend_from_slice(&[b'\\', letter])?;
    } else if byte < MIN_PRINTABLE {
        let high = hex_digit(byte / 16);
        let low = hex_digit(byte % 16);
        out.extend_from_slice(&[b'\\', b'u', b'0', b'0', high, low])?;
    } else {
        out.push(byte)?;
    }
    Ok(())
}

/// The letter of a byte's short escape; 0 if it has none.
fn escape_letter(byte: u8) -> u8
    ensures { result ≡ escape_letter byte }
{
    match byte {
        b'"' | b'\\' => byte,
        8 => b'b',
        12 => b'f',
        b'\n' => b'n',
        b'\r' => b'r',
        b'\t' => b't',
        _ => 0,
    }
}

/// Appends the name of a member and a colon.
pub(crate) fn put_name(out: &mut Vec<u8>, name: &str) -> Result<(), Memory>
    ensures { OnOk result (out.new.items ≡ out.old.items ++ quoted name.now ++ 58 ∷ []) }
{
    put_string(out, name)?;
    out.push(b':')?;
    Ok(())
}

/// Appends a text in UTF-8, between quotes.
pub(crate) fn put_string(out: &mut Vec<u8>, text: &str) -> Result<(), Memory>
    ensures { OnOk result (out.new.items ≡ out.old.items ++ quoted text.now) }
{
    out.push(b'"')?;
    put_bytes(out, text.as_bytes())?;
    out.push(b'"')?;
    Ok(())
}

/// Appends what stands for the bytes of a text in UTF-8.
fn put_bytes(out: &mut Vec<u8>, bytes: &[u8]) -> Result<(), Memory>
    ensures { OnOk result (out.new.items ≡ out.old.items ++ escape bytes.now) }
{
    for byte in bytes {
        put_escaped(out, *byte)?;
    }
    Ok(())
}
