//! What can be read of an acknowledgement: its stamp, and the status of each transaction. No file is verified by these
//! alone: its whole acknowledgement is compared.
ghost use Rattle.std.specs.Prelude.{◌≡◌, ◌≤◌, codes, is_some, IfOk, IsTrue};
ghost use Rattle.std.specs.Str.{bytes_eq};
ghost use Rattle.cwr_field.specs.Calendar.{day_of, time_of};
ghost use Rattle.cwr_field.specs.Layout.{field};
ghost use Rattle.cwr_field.specs.Number.{number_of};
ghost use Rattle.cwr_record.specs.Columns.{field_at, every_record_type, ack_recipient_number, ack_status};
ghost use Rattle.cwr_record.specs.Kinds.{status_named};
ghost use Rattle.cwr_record.specs.Ranges.{is_in_line};
ghost use Rattle.cwr_verify.specs.Acknowledged.{can_be_read, is_ack, stamp_in, stamp_in_line, status_in_line, statuses_in};
ghost use Rattle.cwr_verify.specs.Wanting.{status_of_reply};

use cwr_field::{cut, date, digits, time};
use cwr_grammar::Lines;
use cwr_record::{Ack, Column, Prefix, RecordType, Stamp, digits_at, field_at, read_header};
use std::alloc::{AllocError, Allocator};
use work_registry::{Reply, Status};

/// What an acknowledgement says of a transaction: its status, and the work that it names.
#[derive(Clone, Copy, PartialEq, Eq, Drop)]
pub(crate) struct AckStatus {
    pub(crate) status: Status,
    pub(crate) work: Option<u32>,
}

impl AckStatus {
    /// What an acknowledgement says of a transaction with this reply.
    pub(crate) fn of(reply: Reply) -> AckStatus
        ensures { result ≡ status_of_reply reply }
    {
        AckStatus {
            status: reply.status(),
            work: reply.work(),
        }
    }
}

/// What an acknowledgement says of each transaction, in order. An ACK record whose status is none of the four is left
/// out.
pub(crate) fn statuses_in<A: Allocator>(
    alloc: A,
    acknowledgement: &[u8],
) -> Result<Vec<AckStatus, A>, AllocError>
    ensures { IfOk result (λ all. all.items ≡ statuses_in acknowledgement.now) }
{
    let mut all = Vec::new(alloc);
    for line in Lines::of(acknowledgement) {
        if let Some(told) = status_in_line(line) {
            all.push(told)?;
        }
    }
    Ok(all)
}

/// What a line says of a transaction, where it is an ACK record with one of the four statuses. Its other fields are
/// only tested.
fn status_in_line(line: &[u8]) -> Option<AckStatus>
    ensures { result ≡ status_in_line line.now }
{
    if !is_ack(line) {
        return None;
    }
    let status = status_at(line)?;
    Some(AckStatus {
        status,
        work: work_at(line),
    })
}

/// Whether a line is an ACK record: none of its fields that can have a fault has one.
fn is_ack(line: &[u8]) -> bool
    ensures { result ≡ is_ack line.now }
{
    can_be_read(line)
}

/// Whether a line has the record type ACK, and each of its numbers, dates and times can be read.
#[inline(always)]
fn can_be_read(line: &[u8]) -> bool
    ensures { result ≡ can_be_read line.now }
{
    is_of_type(line)
        && is_number(line, Prefix::TRANSACTION)
        && is_number(line, Prefix::DETAIL)
        && is_day(line, Ack::CREATION_DATE)
        && is_time(line, Ack::CREATION_TIME)
        && is_number(line, Ack::ORIGINAL_GROUP)
        && is_number(line, Ack::ORIGINAL_TRANSACTION)
        && is_day(line, Ack::PROCESSING_DATE)
}

/// Whether a line has the record type ACK.
fn is_of_type(line: &[u8]) -> bool
    ensures { result ≡ bytes_eq (field_at line.now every_record_type) (codes "ACK") }
{
    field_at(line, RecordType::COLUMN).bytes() == *b"ACK"
}

/// Whether a column holds a number.
fn is_number(line: &[u8], column: Column) -> bool
    requires column { IsTrue (is_in_line column) }
    requires width { column.width ≤ 8 }
    ensures { result ≡ is_some (number_of (field_at line.now column)) }
{
    digits_at(line, column).is_some()
}

/// Whether a column holds a date.
fn is_day(line: &[u8], column: Column) -> bool
    requires column { IsTrue (is_in_line column) }
    requires width { column.width ≡ 8 }
    ensures { result ≡ is_some (day_of (field_at line.now column)) }
{
    date(field_at(line, column)).is_some()
}

/// Whether a column holds a time.
fn is_time(line: &[u8], column: Column) -> bool
    requires column { IsTrue (is_in_line column) }
    requires width { column.width ≡ 6 }
    ensures { result ≡ is_some (time_of (field_at line.now column)) }
{
    time(field_at(line, column)).is_some()
}

/// The status in an ACK record; `None` where it is none of the four.
fn status_at(line: &[u8]) -> Option<Status>
    ensures { result ≡ status_named (field_at line.now ack_status) }
{
    Status::named(&field_at(line, Ack::STATUS).bytes())
}

/// The registry's number of the work in an ACK record; `None` where its column does not begin with eight digits.
fn work_at(line: &[u8]) -> Option<u32>
    ensures { result ≡ number_of (field (field_at line.now ack_recipient_number) 1 8) }
{
    let number: [u8; 20] = field_at(line, Ack::RECIPIENT_NUMBER).bytes();
    match digits(cut(&number, 1, 8)) {
        Some(work) => Some(work as u32),
        None => None,
    }
}

/// The stamp of an acknowledgement, which says who acknowledges, and when, read from its first line.
///
/// `None` where there is no line, or the first is no HDR, one of its dates or its time cannot be read, its sender does
/// not end in three digits, or its name has a byte below 32.
pub(crate) fn stamp_in(acknowledgement: &[u8]) -> Option<Stamp>
    ensures { result ≡ stamp_in acknowledgement.now }
{
    stamp_in_line(Lines::of(acknowledgement).next()?)
}

/// The stamp in a line.
fn stamp_in_line(line: &[u8]) -> Option<Stamp>
    ensures { result ≡ stamp_in_line line.now }
{
    let Ok(header) = read_header(line) else {
        return None;
    };
    let sender = header.sender;
    let name = header.name;
    let society = digits(cut(&sender, 9, 3))?;
    Stamp::new(
        society as u16,
        &name,
        header.creation_date,
        header.creation_time,
    )
}
