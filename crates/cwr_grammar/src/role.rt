ghost use Rattle.std.specs.Prelude.{◌≡◌};
ghost use Rattle.cwr_record.specs.Columns.{field_at, group_head_transaction_type};
ghost use Rattle.cwr_record.specs.Kinds.{work_kind_named};
ghost use Rattle.cwr_grammar.specs.Roles.{role_at, transaction_header, detail, is_dated};
ghost use Rattle.cwr_grammar.specs.Visiting.{leaves_open};

use cwr_field::{date, time};
use cwr_record::{
    FileTrailer, GroupHead, GroupTrailer, Header, Prefix, RecordType, WorkKind, digits_at, field_at,
};

/// A line by its role in a file: what its record opens, continues or closes, and the numbers that it states.
///
/// A number is `None` where its field is not all digits.
#[derive(Clone, Copy)]
pub(crate) enum Role {
    /// HDR: whether its dates and its time are valid.
    FileHeader(bool),
    /// GRH: the transaction type, `None` for one that is not read; the group id.
    GroupHeader(Option<WorkKind>, Option<u64>),
    /// The header of a transaction: its kind, `None` for one that is not read; transaction sequence; record sequence.
    TransactionHeader(Option<WorkKind>, Option<u64>, Option<u64>),
    /// A detail of a transaction: transaction sequence, record sequence.
    Detail(Option<u64>, Option<u64>),
    /// GRT: group id, transaction count, record count.
    GroupTrailer(Option<u64>, Option<u64>, Option<u64>),
    /// TRL: group count, transaction count, record count.
    FileTrailer(Option<u64>, Option<u64>, Option<u64>),
    /// No record type.
    Unnamed,
}

/// The role of a line with a record of this type.
#[inline(always)]
pub(crate) fn role_at(record_type: RecordType, line: &[u8]) -> Role
    ensures { result ≡ role_at record_type line.now }
{
    match record_type {
        RecordType::Hdr => Role::FileHeader(is_dated(line)),
        RecordType::Grh => Role::GroupHeader(group_kind(line), digits_at(line, GroupHead::GROUP)),
        RecordType::Grt => Role::GroupTrailer(
            digits_at(line, GroupTrailer::GROUP),
            digits_at(line, GroupTrailer::TRANSACTIONS),
            digits_at(line, GroupTrailer::RECORDS),
        ),
        RecordType::Trl => Role::FileTrailer(
            digits_at(line, FileTrailer::GROUPS),
            digits_at(line, FileTrailer::TRANSACTIONS),
            digits_at(line, FileTrailer::RECORDS),
        ),
        RecordType::Nwr => transaction_header(Some(WorkKind::Nwr), line),
        RecordType::Rev => transaction_header(Some(WorkKind::Rev), line),
        RecordType::Ack | RecordType::Other => transaction_header(None, line),
        RecordType::Spu
        | RecordType::Spt
        | RecordType::Opu
        | RecordType::Swr
        | RecordType::Swt
        | RecordType::Pwr
        | RecordType::Owr
        | RecordType::Alt
        | RecordType::Xrf
        | RecordType::Carried => detail(line),
        RecordType::Bad => Role::Unnamed,
    }
}

/// Whether a transaction is open after a line of a role.
#[inline(always)]
pub(crate) fn leaves_open(role: &Role) -> bool
    ensures { result ≡ leaves_open role.now }
{
    matches!(
        *role,
        Role::Detail(_, _) | Role::TransactionHeader(Some(_), _, _)
    )
}

fn transaction_header(kind: Option<WorkKind>, line: &[u8]) -> Role
    ensures { result ≡ transaction_header kind line.now }
{
    Role::TransactionHeader(
        kind,
        digits_at(line, Prefix::TRANSACTION),
        digits_at(line, Prefix::DETAIL),
    )
}

fn detail(line: &[u8]) -> Role
    ensures { result ≡ detail line.now }
{
    Role::Detail(
        digits_at(line, Prefix::TRANSACTION),
        digits_at(line, Prefix::DETAIL),
    )
}

/// The transaction type of a group header; `None` for one that is not read.
fn group_kind(line: &[u8]) -> Option<WorkKind>
    ensures { result ≡ work_kind_named (field_at line.now group_head_transaction_type) }
{
    WorkKind::named(&field_at(line, GroupHead::TRANSACTION_TYPE).bytes())
}

/// Whether the creation date, the creation time and the transmission date of a file header are valid.
fn is_dated(line: &[u8]) -> bool
    ensures { result ≡ is_dated line.now }
{
    let created = date(field_at(line, Header::CREATION_DATE)).is_some();
    let created_at = time(field_at(line, Header::CREATION_TIME)).is_some();
    let sent = date(field_at(line, Header::TRANSMISSION_DATE)).is_some();
    created && created_at && sent
}
