ghost use Rattle.std.specs.Prelude.{◌≡◌, length, is_some, OnOk, IfErr, IsTrue};
ghost use Rattle.std.specs.List.{AllByRecursion};
ghost use Rattle.cwr_record.specs.Layout.{reading, is_no_day};
ghost use Rattle.cwr_record.specs.Faults.{fault_number, IsLeastFault};
ghost use Rattle.cwr_record.specs.Readable.{IsReadable};
ghost use Rattle.cwr_record.specs.Ranges.{is_slot, all_in_line, starts_rise};

use crate::columns::{Column, field_at};
use cwr_field::{Field, Iswc, date, digits, iswc, share, time};

/// Eight zeros: the optional date of a work whose copyright date is not known.
const NO_DAY: [u8; 8] = *b"00000000";

/// The first field of a line that cannot be read.
///
/// Of several such fields it is the one with the least start.
#[derive(Clone, Copy, Debug, PartialEq, Eq, Hash)]
pub struct FieldFault {
    /// The position of the field's first byte, counted from 1.
    pub start: usize,
    /// What is wrong with it: 1 not digits, 2 not a share, 3 not a date, 4 not a time, 5 a wrong work code (ISWC). 6 is
    /// another record type; then `start` is 1.
    pub number: u8,
}

/// What a field that can have a fault holds.
#[derive(Clone, Copy)]
pub(crate) enum Content {
    /// The record type, this one.
    Kind([u8; 3]),
    /// The record type, one of these two.
    OneOf([u8; 3], [u8; 3]),
    /// A number in digits that fill the field.
    Digits,
    /// A share, in hundredths of one per cent.
    Share,
    /// A date.
    Day,
    /// A time.
    Time,
    /// A date; blanks or zeros for none.
    OptionalDay,
    /// A time; blanks for none.
    OptionalTime,
    /// A work's code (ISWC); blanks for none.
    Code,
}

impl Content {
    fn fault_number(&self) -> u8
        ensures { result ≡ fault_number self.now }
    {
        match self {
            Content::Digits => 1,
            Content::Share => 2,
            Content::Day | Content::OptionalDay => 3,
            Content::Time | Content::OptionalTime => 4,
            Content::Code => 5,
            Content::Kind(_) | Content::OneOf(_, _) => 6,
        }
    }
}

/// A field of a layout: where it stands, and what it holds.
#[derive(Clone, Copy)]
pub(crate) struct Slot {
    pub(crate) column: Column,
    pub(crate) content: Content,
}

/// The slots of a layout, each on a line: `column: content;`.
macro_rules! slots {
    ($($column:path: $content:expr;)*) => {
        [$(Slot { column: $column, content: $content }),*]
    };
}

pub(crate) use slots;

/// Whether a field of eight bytes holds blanks or zeros, which stand for no date.
pub fn is_no_day(text: &Field) -> bool
    requires { length text.now ≡ 8 }
    ensures { result ≡ is_no_day text.now }
{
    text.is_blank() || text.bytes::<8>() == NO_DAY
}

fn is_readable(line: &[u8], slot: &Slot) -> bool
    requires { IsTrue (is_slot slot.now) }
    ensures value { result ≡ is_some (reading line.now slot.now) }
    ensures readable { IsTrue result → IsReadable line.now slot.now }
{
    let text = field_at(line, slot.column);
    match slot.content {
        Content::Kind(code) => text.bytes() == code,
        Content::OneOf(first, second) => {
            let code = text.bytes();
            code == first || code == second
        }
        Content::Digits => digits(text).is_some(),
        Content::Share => share(text).is_some(),
        Content::Day => date(text).is_some(),
        Content::Time => time(text).is_some(),
        Content::OptionalDay => is_no_day(&text) || date(text).is_some(),
        Content::OptionalTime => text.is_blank() || time(text).is_some(),
        Content::Code => iswc(text) != Iswc::Wrong,
    }
}

/// Checks the fields of a line from left to right.
///
/// The first fault is the least one.
pub(crate) fn check(line: &[u8], slots: &[Slot]) -> Result<(), FieldFault>
    requires rising { IsTrue (starts_rise slots.now) }
    requires in_line { IsTrue (all_in_line slots.now) }
    ensures ok { OnOk result (AllByRecursion (IsReadable line.now) slots.now) }
    ensures fault { IfErr result (IsLeastFault line.now slots.now) }
{
    for slot in slots {
        if !is_readable(line, slot) {
            return Err(FieldFault {
                start: slot.column.start,
                number: slot.content.fault_number(),
            });
        }
    }
    Ok(())
}
