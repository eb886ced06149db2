//! The values of fields that were checked.

ghost use Rattle.std.specs.Prelude.{◌≡◌, ◌≤◌, ◌<◌, ◌^◌, IsTrue, IsSome, Some, if◌then◌else◌};
ghost use Rattle.cwr_record.specs.Columns.{field_at, every_record_type};
ghost use Rattle.cwr_record.specs.Layout.{value_of, Bytes, Number, Maybe};
ghost use Rattle.cwr_record.specs.Ranges.{is_in_line};
ghost use Rattle.cwr_record.specs.declared.slot.Content.TheVariants as content;

use crate::columns::{Column, digits_at, field_at};
use crate::record_type::RecordType;
use crate::slot::is_no_day;
use cwr_field::{Clock, Day, Iswc, date, iswc, share, time};

/// The number of a field.
pub(crate) fn number_at(line: &[u8], column: Column) -> u32
    requires column { IsTrue (is_in_line column) }
    requires width { column.width ≤ 9 }
    requires checked { IsSome (value_of content.Digits (field_at line.now column)) }
    ensures value { value_of content.Digits (field_at line.now column) ≡ Some (Number result) }
    ensures bound { result < 10 ^ column.width }
{
    digits_at(line, column).unwrap() as u32
}

/// The share of a field.
pub(crate) fn share_at(line: &[u8], column: Column) -> u16
    requires column { IsTrue (is_in_line column) }
    requires width { column.width ≡ 5 }
    requires checked { IsSome (value_of content.Share (field_at line.now column)) }
    ensures { value_of content.Share (field_at line.now column) ≡ Some (Number result) }
{
    share(field_at(line, column)).unwrap()
}

/// The text of a field.
pub(crate) fn text_at<const N: usize>(line: &[u8], column: Column) -> [u8; N]
    requires column { IsTrue (is_in_line column) }
    requires width { column.width ≡ N }
    ensures { result ≡ field_at line.now column }
{
    field_at(line, column).bytes()
}

/// The date of a field.
pub(crate) fn day_at(line: &[u8], column: Column) -> Day
    requires column { IsTrue (is_in_line column) }
    requires width { column.width ≡ 8 }
    requires checked { IsSome (value_of content.Day (field_at line.now column)) }
    ensures { value_of content.Day (field_at line.now column) ≡ Some (Number result) }
{
    date(field_at(line, column)).unwrap()
}

/// The time of a field.
pub(crate) fn time_at(line: &[u8], column: Column) -> Clock
    requires column { IsTrue (is_in_line column) }
    requires width { column.width ≡ 6 }
    requires checked { IsSome (value_of content.Time (field_at line.now column)) }
    ensures { value_of content.Time (field_at line.now column) ≡ Some (Number result) }
{
    time(field_at(line, column)).unwrap()
}

/// The date of a field, or none.
pub(crate) fn optional_day_at(line: &[u8], column: Column) -> Option<Day>
    requires column { IsTrue (is_in_line column) }
    requires width { column.width ≡ 8 }
    requires checked { IsSome (value_of content.OptionalDay (field_at line.now column)) }
    ensures { value_of content.OptionalDay (field_at line.now column) ≡ Some (Maybe result) }
{
    let text = field_at(line, column);
    if is_no_day(&text) { None } else { date(text) }
}

/// The time of a field, or none.
pub(crate) fn optional_time_at(line: &[u8], column: Column) -> Option<Clock>
    requires column { IsTrue (is_in_line column) }
    requires width { column.width ≡ 6 }
    requires checked { IsSome (value_of content.OptionalTime (field_at line.now column)) }
    ensures { value_of content.OptionalTime (field_at line.now column) ≡ Some (Maybe result) }
{
    let text = field_at(line, column);
    if text.is_blank() { None } else { time(text) }
}

/// The nine digits of a field's work code (ISWC) as a number, or none.
pub(crate) fn code_at(line: &[u8], column: Column) -> Option<u64>
    requires column { IsTrue (is_in_line column) }
    requires width { column.width ≡ 11 }
    requires checked { IsSome (value_of content.Code (field_at line.now column)) }
    ensures { value_of content.Code (field_at line.now column) ≡ Some (Maybe result) }
{
    match iswc(field_at(line, column)) {
        Iswc::Valid(number) => Some(number),
        Iswc::Blank | Iswc::Wrong => None,
    }
}

/// Whether the record type of a line is `first`. It is known to be `first` or `second`.
pub(crate) fn is_first(line: &[u8], first: [u8; 3], second: [u8; 3]) -> bool
    requires { IsSome (value_of (content.OneOf first second) (field_at line.now every_record_type)) }
    ensures { value_of (content.OneOf first second) (field_at line.now every_record_type) ≡ Some (Bytes (if result then first else second)) }
{
    field_at(line, RecordType::COLUMN).bytes() == first
}
