ghost use Rattle.std.specs.Prelude.{◌≡◌};
ghost use Rattle.cwr_remarks.specs.Typed.{left, IsTyped};

use cwr_grammar::Lines;
use cwr_record::{RecordType, type_of};

/// A line, and the type of the record that it is.
#[derive(Clone, Copy)]
pub(crate) struct Typed<'a> {
    pub(crate) line: &'a [u8],
    pub(crate) record_type: RecordType,
}

/// Takes the next line, if there is one, and reads its type.
#[inline(always)]
pub(crate) fn next_typed<'a>(rest: &mut Lines<'a>) -> Option<Typed<'a>>
    ensures left { left result rest.new ≡ rest.old }
    ensures typed { IsTyped result }
{
    let line = rest.next()?;
    Some(Typed {
        line,
        record_type: type_of(line),
    })
}
