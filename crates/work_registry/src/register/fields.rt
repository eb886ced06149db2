//! Fields of a line that only a register has in this form.

ghost use Rattle.std.specs.Prelude.{◌≡◌, IfSome, IsTrue, option_map};
ghost use Rattle.cwr_field.specs.Iswc.{iswc_of};
ghost use Rattle.cwr_record.specs.Columns.{field_at};
ghost use Rattle.cwr_record.specs.Layout.{code_value, Maybe};
ghost use Rattle.cwr_record.specs.Lines.{FitsCode};
ghost use Rattle.cwr_record.specs.Ranges.{is_in_line};

use cwr_field::{Iswc, iswc};
use cwr_record::{Column, field_at};

/// The work's code (ISWC) in a column: `Some(None)` where it is blank, `None` where it is wrong.
#[inline(always)]
pub(super) fn code_at(line: &[u8], column: Column) -> Option<Option<u64>>
    requires column { IsTrue (is_in_line column) }
    requires width { column.width ≡ 11 }
    ensures value { code_value (iswc_of (field_at line.now column)) ≡ option_map Maybe result }
    ensures fits { IfSome result FitsCode }
{
    match iswc(field_at(line, column)) {
        Iswc::Blank => Some(None),
        Iswc::Valid(number) => Some(Some(number)),
        Iswc::Wrong => None,
    }
}
