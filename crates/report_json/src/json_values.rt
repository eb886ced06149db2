ghost use Rattle.std.specs.Prelude.{◌≡◌, ◌++◌, ◌∷◌, ℕ, List, IfOk, OnOk, string_bytes};
ghost use Rattle.serde_json.specs.Data.{Data, boolean};
ghost use Rattle.serde_json.specs.View.{view, items_of};
ghost use Rattle.serde_json.specs.Written.{comma_if, compact_text, items_text};
ghost use Rattle.report_json.specs.Json.{latin, text_data, type_data, spot_data, fields_data};
ghost use Rattle.report_json.specs.JsonText.{option_text, field_text, rule_text};

use crate::json_strings::put_json_text;
use cwr_field::{Memory, put_decimal, put_number};
use cwr_report::Spot;
use report_texts::{name_text, put_counted, put_text, stands_at};
use serde_json::Value;
use std::alloc::Global;

/// Bytes as a text: each byte is the character with its number.
fn latin(alloc: Global, bytes: &[u8]) -> Result<String, Memory>
    ensures { IfOk result (λ text. string_bytes text ≡ latin bytes.now) }
{
    let mut text = String::new(alloc);
    for byte in bytes {
        text.push(*byte as char)?;
    }
    Ok(text)
}

/// Bytes as a text of JSON: each byte is the character with its number, so that a text has all of them whatever they
/// are.
pub fn text_value(alloc: Global, bytes: &[u8]) -> Result<Value, Memory>
    ensures { IfOk result (λ value. view value ≡ text_data bytes.now) }
{
    let text = latin(alloc, bytes)?;
    Ok(Value::String(text))
}

/// Appends a comma, if the value is a later one.
pub fn put_comma(out: &mut Vec<u8>, later: bool) -> Result<(), Memory>
    ensures { OnOk result (out.new.items ≡ out.old.items ++ comma_if later) }
{
    if later {
        out.push(b',')?;
    }
    Ok(())
}

/// Appends a number, or null.
pub fn put_option(out: &mut Vec<u8>, number: Option<u64>) -> Result<(), Memory>
    ensures { OnOk result (out.new.items ≡ out.old.items ++ option_text number) }
{
    match number {
        None => put_text(out, b"null"),
        Some(number) => put_number(out, number),
    }
}

/// Appends true or false.
pub(crate) fn put_bool(out: &mut Vec<u8>, value: bool) -> Result<(), Memory>
    ensures { OnOk result (out.new.items ≡ out.old.items ++ compact_text (boolean value)) }
{
    if value {
        put_text(out, b"true")
    } else {
        put_text(out, b"false")
    }
}

/// Appends a record type, or null.
pub fn put_type(out: &mut Vec<u8>, rtype: Option<[u8; 3]>) -> Result<(), Memory>
    ensures { OnOk result (out.new.items ≡ out.old.items ++ compact_text (type_data rtype)) }
{
    match rtype {
        None => put_text(out, b"null"),
        Some(rtype) => put_json_text(out, &rtype),
    }
}

/// Appends the rule of a fault, its letter and its number. `buffer` is a scratch buffer for texts.
pub(crate) fn put_rule(
    out: &mut Vec<u8>,
    buffer: &mut Vec<u8>,
    letter: &[u8],
    number: u8,
) -> Result<(), Memory>
    ensures { OnOk result (out.new.items ≡ out.old.items ++ rule_text letter.now number) }
{
    out.extend_from_slice(b",\"rule\":")?;
    buffer.clear();
    put_counted(buffer, letter, number as u64)?;
    put_json_text(out, buffer)?;
    Ok(())
}

/// Appends a field that breaks a rule, with the bytes that the line has there.
fn put_field(out: &mut Vec<u8>, line: &[u8], spot: &Spot) -> Result<(), Memory>
    ensures { OnOk result (out.new.items ≡ out.old.items ++ field_text line.now spot.now) }
{
    out.extend_from_slice(b"{\"bytes\":")?;
    put_json_text(out, stands_at(line, spot.column))?;
    out.extend_from_slice(b",\"length\":")?;
    put_number(out, spot.column.width as u64)?;
    out.extend_from_slice(b",\"name\":")?;
    put_json_text(out, name_text(spot.name))?;
    out.extend_from_slice(b",\"start\":")?;
    put_decimal(out, spot.column.start as u64)?;
    out.extend_from_slice(b"}")?;
    Ok(())
}

/// Appends the next field, if there is one, and returns whether any has been appended so far.
fn put_spot(
    out: &mut Vec<u8>,
    later: bool,
    line: &[u8],
    spot: &Option<Spot>,
) -> Result<bool, Memory>
    ensures { (ds : List Data) → IfOk result (λ told. out.new.items ++ items_text told (items_of ds) ≡ out.old.items ++ items_text later (items_of (spot_data line.now spot.now ++ ds))) }
{
    let Some(spot) = spot else {
        return Ok(later);
    };
    put_comma(out, later)?;
    put_field(out, line, spot)?;
    Ok(true)
}

/// Appends the fields that break a rule.
pub(crate) fn put_fields(
    out: &mut Vec<u8>,
    line: &[u8],
    spots: &[Option<Spot>],
) -> Result<(), Memory>
    ensures { OnOk result (out.new.items ≡ out.old.items ++ compact_text (fields_data line.now spots.now)) }
{
    out.push(b'[')?;
    let mut later = false;
    for spot in spots {
        later = put_spot(out, later, line, spot)?;
    }
    out.push(b']')?;
    Ok(())
}
