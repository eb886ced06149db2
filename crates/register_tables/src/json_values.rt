//! Values of JSON, which the kit's writer of JSON writes.

ghost use Rattle.std.specs.Prelude.{◌≡◌, ◌++◌, ◌∷◌, [], map, IfOk, OnOk, string_bytes};
ghost use Rattle.std.specs.Fmt.{decimal};
ghost use Rattle.std.specs.List.{flat_map};
ghost use Rattle.std.specs.Str.{encode_utf8_all};
ghost use Rattle.json.specs.Print.{print};
ghost use Rattle.register_tables.specs.JsonValues.{member_tokens, object_data, option_data, shown_data, value_tokens, Adds};

use cwr_field::{Memory, put_decimal};
use json::Writer;
use std::alloc::Allocator;

/// A value of a member of an object.
#[derive(Clone, Copy)]
pub(crate) enum Shown<'a> {
    /// That there is none.
    Null,
    /// A number.
    Number(u64),
    /// Bytes as a text: each byte is the character with its number, so that a text has all of them whatever they are.
    Text(&'a [u8]),
}

/// A number, or null.
pub(crate) fn number_or_null<'t>(number: Option<u32>) -> Shown<'t>
    ensures { shown_data result ≡ option_data number }
{
    match number {
        Some(number) => Shown::Number(number as u64),
        None => Shown::Null,
    }
}

/// Writes an object of members, each a name and a value. `buffer` is a scratch buffer for texts.
pub(crate) fn put_object<A: Allocator + Copy + Drop>(
    out: &mut Writer<A>,
    buffer: &mut String<A>,
    members: &[(&str, Shown<'_>)],
) -> Result<(), Memory>
    ensures { OnOk result (Adds out.old out.new (value_tokens (object_data (map (λ m. (m.0.now, shown_data m.1)) members.now)))) }
{
    out.begin_object()?;
    put_members(out, buffer, members)?;
    out.end_object()?;
    Ok(())
}

/// Writes members, each a name and a value. `buffer` is a scratch buffer for texts.
pub(crate) fn put_members<A: Allocator + Copy + Drop>(
    out: &mut Writer<A>,
    buffer: &mut String<A>,
    members: &[(&str, Shown<'_>)],
) -> Result<(), Memory>
    ensures { OnOk result (Adds out.old out.new (flat_map member_tokens (map (λ m. (m.0.now, shown_data m.1)) members.now))) }
{
    for member in members {
        put_member(out, buffer, member.0, member.1)?;
    }
    Ok(())
}

/// Writes a member.
fn put_member<A: Allocator + Copy + Drop>(
    out: &mut Writer<A>,
    buffer: &mut String<A>,
    name: &str,
    value: Shown<'_>,
) -> Result<(), Memory>
    ensures { OnOk result (Adds out.old out.new (member_tokens (name.now, shown_data value.entry))) }
{
    out.key(name)?;
    put_value(out, buffer, value)
}

/// Writes a value.
fn put_value<A: Allocator + Copy + Drop>(
    out: &mut Writer<A>,
    buffer: &mut String<A>,
    value: Shown<'_>,
) -> Result<(), Memory>
    ensures { OnOk result (Adds out.old out.new (value_tokens (shown_data value.entry))) }
{
    match value {
        Shown::Null => out.null()?,
        Shown::Number(number) => out.u64(number)?,
        Shown::Text(bytes) => {
            set_latin(buffer, bytes)?;
            out.string(buffer)?;
        }
    }
    Ok(())
}

/// Makes a text these bytes, each as the character with its number.
fn set_latin<A: Allocator + Copy + Drop>(text: &mut String<A>, bytes: &[u8]) -> Result<(), Memory>
    ensures { OnOk result (string_bytes text.new ≡ encode_utf8_all bytes.now) }
{
    text.clear();
    for byte in bytes {
        text.push(*byte as char)?;
    }
    Ok(())
}

/// Makes a text the name of a rule.
pub(crate) fn set_rule<A: Allocator + Copy + Drop>(
    text: &mut Vec<u8, A>,
    letter: u8,
    number: u8,
) -> Result<(), Memory>
    ensures { OnOk result (text.new.items ≡ letter ∷ decimal number) }
{
    text.clear();
    text.push(letter)?;
    put_decimal(text, number as u64)
}

/// What was written as a text, and LF.
pub(crate) fn line_of<A: Allocator + Copy + Drop>(out: Writer<A>) -> Result<Vec<u8, A>, Memory>
    ensures { IfOk result (λ line. line.items ≡ out.before ++ print out.tokens ++ 10 ∷ []) }
{
    let mut line = out.into_inner();
    line.push(b'\n')?;
    Ok(line)
}
