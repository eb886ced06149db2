ghost use Rattle.std.specs.Prelude.{◌≡◌};
ghost use Rattle.cwr_record.specs.Columns.{field_at, every_record_type};
ghost use Rattle.cwr_remarks.specs.Types.{is_standard, unknown_type};

use crate::remark::Remarked;
use cwr_record::{RecordType, field_at};

/// That a line names a record type that CWR 2.2 does not have. `record_type` is the type that was read of it.
pub(crate) fn unknown_type(record_type: RecordType, line: &[u8]) -> Option<Remarked>
    ensures { result ≡ unknown_type record_type (field_at line.now every_record_type) }
{
    if record_type != RecordType::Carried
        || is_standard(field_at(line, RecordType::COLUMN).bytes())
    {
        return None;
    }
    Some(Remarked::UnknownType)
}

/// Whether the name is that of a record of the standard which the profile does not name: of an agreement, of names and
/// titles in other alphabets, or of a work.
fn is_standard(name: [u8; 3]) -> bool
    ensures { result ≡ is_standard name }
{
    [
        *b"TER", *b"IPA", *b"NPA", *b"NPN", *b"NWN", *b"NOW", *b"NPR", *b"NAT", *b"NET", *b"NCT",
        *b"NVT", *b"OPT", *b"OWT", *b"EWT", *b"VER", *b"PER", *b"REC", *b"ORN", *b"INS", *b"IND",
        *b"COM", *b"ARI", *b"MSG",
    ]
    .contains(&name)
}
