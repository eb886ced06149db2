//! The fields of a line that is written, and the line that they make. It may be a record or have any other layout.

ghost use Rattle.std.specs.Prelude.{◌≡◌, ◌++◌, OnOk, OnErr, length, take, vec_len, vec_capacity, sum_by, ◌<◌, ◌≤◌, ◌+◌, ◌^◌};
ghost use Rattle.std.specs.List.{flat_map, AllByRecursion};
ghost use Rattle.cwr_field.specs.Iswc.{iswc_text};
ghost use Rattle.cwr_record.specs.FieldValues.{field_value_text, field_value_width, FitsField, IsDated};

use crate::columns::Column;
use cwr_field::{Clock, Day, Memory, fill_digits, fill_text, iswc_text};
use std::alloc::Allocator;

/// A field that is written.
#[derive(Clone, Copy)]
pub enum FieldValue<'a> {
    /// A text that is no longer than the column is wide, and blanks up to that width.
    Text(&'a [u8], Column),
    /// A number in as many digits as the column is wide, at most 18. The number has at most that many digits.
    Digits(u64, Column),
    /// A share in five digits, at most 10000.
    Share(u16),
    /// A date.
    Day(Day),
    /// A time.
    Time(Clock),
    /// A date, or blanks.
    OptionalDay(Option<Day>),
    /// A time, or blanks.
    OptionalTime(Option<Clock>),
    /// A work's code (ISWC), from the number of its nine digits; or eleven blanks.
    Code(Option<u64>),
}

/// How many bytes a field has.
#[inline(always)]
pub(crate) fn width_of(field_value: &FieldValue) -> usize
    ensures { result ≡ field_value_width field_value.now }
{
    match *field_value {
        FieldValue::Text(_, column) | FieldValue::Digits(_, column) => column.width,
        FieldValue::Share(_) => 5,
        FieldValue::Day(_) | FieldValue::OptionalDay(_) => 8,
        FieldValue::Time(_) | FieldValue::OptionalTime(_) => 6,
        FieldValue::Code(_) => 11,
    }
}

/// Overwrites the bytes, of which there are as many as the field has, with a field.
#[inline(always)]
pub(crate) fn fill_field_value(buffer: &mut [u8], field_value: &FieldValue)
    requires fits { FitsField field_value.now }
    requires width { length buffer.old ≡ field_value_width field_value.now }
    ensures text { buffer.new ≡ field_value_text field_value.now }
    ensures dated { IsDated field_value.now }
{
    match *field_value {
        FieldValue::Text(text, _) => fill_text(buffer, text),
        FieldValue::Digits(value, _) => fill_digits(buffer, value),
        FieldValue::Share(share) => fill_digits(buffer, share as u64),
        FieldValue::Day(day) => fill_digits(buffer, day.number() as u64),
        FieldValue::Time(time) => fill_digits(buffer, time.number() as u64),
        FieldValue::OptionalDay(None) => fill_text(buffer, b""),
        FieldValue::OptionalDay(Some(day)) => fill_digits(buffer, day.number() as u64),
        FieldValue::OptionalTime(None) => fill_text(buffer, b""),
        FieldValue::OptionalTime(Some(time)) => fill_digits(buffer, time.number() as u64),
        FieldValue::Code(None) => fill_text(buffer, b""),
        FieldValue::Code(Some(number)) => fill_text(buffer, &iswc_text(number as u32)),
    }
}

/// Appends a field. A refusal leaves the vector as it was.
fn put_field_value<A: Allocator>(
    out: &mut Vec<u8, A>,
    field_value: &FieldValue,
) -> Result<(), Memory>
    requires { FitsField field_value.now }
    ensures ok { OnOk result (out.new.items ≡ out.old.items ++ field_value_text field_value.now) }
    ensures err { OnErr result (take (vec_len out.old) out.new.items ≡ out.old.items) }
    ensures len { OnOk result (vec_len out.new ≡ vec_len out.old + field_value_width field_value.now) }
    ensures capacity { vec_capacity out.old ≤ vec_capacity out.new }
    ensures full { OnErr result (vec_capacity out.old < vec_len out.old + field_value_width field_value.now) }
    ensures dated { OnOk result (IsDated field_value.now) }
{
    let width = width_of(field_value);
    out.reserve(width)?;
    let start = out.len();
    out.resize(start + width, b' ').unwrap();
    fill_field_value(&mut out[start..], field_value);
    Ok(())
}

/// Appends a line of these fields, one after another and without a line end.
///
/// A refusal leaves the vector as it was.
pub fn put_line<A: Allocator>(
    out: &mut Vec<u8, A>,
    field_values: &[FieldValue],
) -> Result<(), Memory>
    requires { AllByRecursion FitsField field_values.now }
    ensures ok { OnOk result (out.new.items ≡ out.old.items ++ flat_map field_value_text field_values.now) }
    ensures err { OnErr result (out.new.items ≡ out.old.items) }
    // `Memory` is returned only where there was no room for the line.
    ensures full { OnErr result (vec_capacity out.old < vec_len out.old + sum_by field_value_width field_values.now) }
    ensures dated { OnOk result (AllByRecursion IsDated field_values.now) }
{
    let mark = out.len();
    for field_value in field_values {
        if put_field_value(out, field_value).is_err() {
            out.truncate(mark);
            return Err(Memory);
        }
    }
    Ok(())
}
