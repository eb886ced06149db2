ghost use Rattle.std.specs.Prelude.{◌≡◌, ◌++◌, IfOk, IfErr, OnOk, OnErr, vec_len, vec_capacity, ◌<◌, ◌+◌};
ghost use Rattle.std.specs.List.{AllByRecursion};
ghost use Rattle.cwr_record.specs.Layout.{StandsFor};
ghost use Rattle.cwr_record.specs.Readable.{IsReadable};
ghost use Rattle.cwr_record.specs.Faults.{IsLeastFault, checked};
ghost use Rattle.cwr_record.specs.Lines.{Fits, IsWhole, line_of};
ghost use Rattle.cwr_record.specs.Acknowledgement as table;
ghost use Rattle.cwr_record.specs.declared.acknowledgement.Ack.{Ack};
ghost use Rattle.cwr_record.specs.declared.acknowledgement.Message.{Message};

use crate::field_values::FieldValue;
use crate::line_room::LineRoom;
use crate::prefix::Prefix;
use crate::record_type::RecordType;
use crate::slot::{Content, FieldFault, Slot, check, slots};
use crate::values::{day_at, number_at, text_at, time_at};
use cwr_field::{Clock, Day, Memory};
use std::alloc::Allocator;

/// The acknowledgement of a transaction: ACK, Acknowledgement of Transaction.
#[derive(Clone, Copy, Debug, PartialEq, Eq)]
pub struct Ack {
    /// The place of this record in the acknowledgement file.
    pub prefix: Prefix,
    /// Creation date of the acknowledged file, at [`Ack::CREATION_DATE`].
    pub creation_date: Day,
    /// Creation time of the acknowledged file, at [`Ack::CREATION_TIME`].
    pub creation_time: Clock,
    /// Group id in the acknowledged file, at [`Ack::ORIGINAL_GROUP`].
    pub original_group: u32,
    /// Transaction sequence in the acknowledged file, at [`Ack::ORIGINAL_TRANSACTION`].
    pub original_transaction: u32,
    /// Transaction type in the acknowledged file, at [`Ack::ORIGINAL_TYPE`].
    pub original_type: [u8; 3],
    /// Creation title, at [`Ack::TITLE`].
    pub title: [u8; 60],
    /// Submitter creation number, at [`Ack::SUBMITTER_NUMBER`].
    pub submitter_number: [u8; 20],
    /// Recipient creation number, at [`Ack::RECIPIENT_NUMBER`].
    pub recipient_number: [u8; 20],
    /// Processing date, at [`Ack::PROCESSING_DATE`].
    pub processing_date: Day,
    /// Transaction status, at [`Ack::STATUS`].
    pub status: [u8; 2],
}

const ACK: [Slot; 8] = slots! {
    RecordType::COLUMN: Content::Kind(*b"ACK");
    Prefix::TRANSACTION: Content::Digits;
    Prefix::DETAIL: Content::Digits;
    Ack::CREATION_DATE: Content::Day;
    Ack::CREATION_TIME: Content::Time;
    Ack::ORIGINAL_GROUP: Content::Digits;
    Ack::ORIGINAL_TRANSACTION: Content::Digits;
    Ack::PROCESSING_DATE: Content::Day;
};

/// Reads an acknowledgement (ACK) from a line.
///
/// An error is the first field of the line that cannot be read.
pub fn read_ack(line: &[u8]) -> Result<Ack, FieldFault>
    ensures ok { IfOk result (StandsFor table.ack line.now) }
    ensures fault { IfErr result (IsLeastFault line.now (checked table.ack)) }
    // What was written is read back.
    ensures again { (x : Ack) → IsWhole table.ack x → line.now ≡ line_of table.ack x → result ≡ Ok x }
{
    check(line, &ACK)?;
    Ok(ack_at(line))
}

/// The acknowledgement of a line whose fields were checked.
fn ack_at(line: &[u8]) -> Ack
    requires { AllByRecursion (IsReadable line.now) (checked table.ack) }
    ensures { StandsFor table.ack line.now result }
{
    Ack {
        prefix: Prefix {
            transaction: number_at(line, Prefix::TRANSACTION),
            detail: number_at(line, Prefix::DETAIL),
        },
        creation_date: day_at(line, Ack::CREATION_DATE),
        creation_time: time_at(line, Ack::CREATION_TIME),
        original_group: number_at(line, Ack::ORIGINAL_GROUP),
        original_transaction: number_at(line, Ack::ORIGINAL_TRANSACTION),
        original_type: text_at(line, Ack::ORIGINAL_TYPE),
        title: text_at(line, Ack::TITLE),
        submitter_number: text_at(line, Ack::SUBMITTER_NUMBER),
        recipient_number: text_at(line, Ack::RECIPIENT_NUMBER),
        processing_date: day_at(line, Ack::PROCESSING_DATE),
        status: text_at(line, Ack::STATUS),
    }
}

/// The line of an acknowledgement, 159 bytes without a line end.
///
/// The group id has at most five digits, each sequence at most eight.
pub fn ack_line(ack: &Ack) -> LineRoom<159>
    requires { Fits table.ack ack.now }
    ensures line { result ≡ line_of table.ack ack.now }
    // This is what the reader requires of a value that it reads back.
    ensures whole { IsWhole table.ack ack.now }
{
    let mut line = LineRoom::<159>::new();
    line.put(&FieldValue::Text(b"ACK", RecordType::COLUMN));
    line.put(&FieldValue::Digits(ack.prefix.transaction as u64, Prefix::TRANSACTION));
    line.put(&FieldValue::Digits(ack.prefix.detail as u64, Prefix::DETAIL));
    line.put(&FieldValue::Day(ack.creation_date));
    line.put(&FieldValue::Time(ack.creation_time));
    line.put(&FieldValue::Digits(ack.original_group as u64, Ack::ORIGINAL_GROUP));
    line.put(&FieldValue::Digits(ack.original_transaction as u64, Ack::ORIGINAL_TRANSACTION));
    line.put(&FieldValue::Text(&ack.original_type, Ack::ORIGINAL_TYPE));
    line.put(&FieldValue::Text(&ack.title, Ack::TITLE));
    line.put(&FieldValue::Text(&ack.submitter_number, Ack::SUBMITTER_NUMBER));
    line.put(&FieldValue::Text(&ack.recipient_number, Ack::RECIPIENT_NUMBER));
    line.put(&FieldValue::Day(ack.processing_date));
    line.put(&FieldValue::Text(&ack.status, Ack::STATUS));
    line
}

/// Appends the line of an acknowledgement, 159 bytes without a line end.
///
/// The group id has at most five digits, each sequence at most eight. A refusal leaves the vector as it was.
pub fn write_ack<A: Allocator>(out: &mut Vec<u8, A>, ack: &Ack) -> Result<(), Memory>
    requires { Fits table.ack ack.now }
    ensures ok { OnOk result (out.new.items ≡ out.old.items ++ line_of table.ack ack.now) }
    // This is what the reader requires of a value that it reads back.
    ensures whole { OnOk result (IsWhole table.ack ack.now) }
    ensures err { OnErr result (out.new.items ≡ out.old.items) }
    // `Memory` is returned only where there was no room for the line.
    ensures full { OnErr result (vec_capacity out.old < vec_len out.old + 159) }
{
    out.extend_from_slice(ack_line(ack).bytes())?;
    Ok(())
}

/// A message of an acknowledgement: MSG, Message. It says what is wrong with a record of the acknowledged transaction.
#[derive(Clone, Copy, Debug, PartialEq, Eq)]
pub struct Message {
    /// The place of this record in the acknowledgement file.
    pub prefix: Prefix,
    /// Message type, at [`Message::MESSAGE_TYPE`].
    pub message_type: [u8; 1],
    /// Record sequence in the acknowledged transaction, at [`Message::ORIGINAL_RECORD`].
    pub original_record: u32,
    /// Type of that record, at [`Message::RECORD_TYPE`].
    pub record_type: [u8; 3],
    /// Message level, at [`Message::MESSAGE_LEVEL`].
    pub message_level: [u8; 1],
    /// Validation number, at [`Message::VALIDATION_NUMBER`].
    pub validation_number: u16,
    /// Message text, at [`Message::TEXT`].
    pub text: [u8; 150],
}

const MESSAGE: [Slot; 5] = slots! {
    RecordType::COLUMN: Content::Kind(*b"MSG");
    Prefix::TRANSACTION: Content::Digits;
    Prefix::DETAIL: Content::Digits;
    Message::ORIGINAL_RECORD: Content::Digits;
    Message::VALIDATION_NUMBER: Content::Digits;
};

/// Reads a message (MSG) from a line.
///
/// An error is the first field of the line that cannot be read.
pub fn read_message(line: &[u8]) -> Result<Message, FieldFault>
    ensures ok { IfOk result (StandsFor table.message line.now) }
    ensures fault { IfErr result (IsLeastFault line.now (checked table.message)) }
    // What was written is read back.
    ensures again { (x : Message) → IsWhole table.message x → line.now ≡ line_of table.message x → result ≡ Ok x }
{
    check(line, &MESSAGE)?;
    Ok(message_at(line))
}

/// The message of a line whose fields were checked.
fn message_at(line: &[u8]) -> Message
    requires { AllByRecursion (IsReadable line.now) (checked table.message) }
    ensures { StandsFor table.message line.now result }
{
    Message {
        prefix: Prefix {
            transaction: number_at(line, Prefix::TRANSACTION),
            detail: number_at(line, Prefix::DETAIL),
        },
        message_type: text_at(line, Message::MESSAGE_TYPE),
        original_record: number_at(line, Message::ORIGINAL_RECORD),
        record_type: text_at(line, Message::RECORD_TYPE),
        message_level: text_at(line, Message::MESSAGE_LEVEL),
        validation_number: number_at(line, Message::VALIDATION_NUMBER) as u16,
        text: text_at(line, Message::TEXT),
    }
}

/// The line of a message, 185 bytes without a line end.
///
/// Each sequence has at most eight digits, the validation number at most three.
pub fn message_line(message: &Message) -> LineRoom<185>
    requires { Fits table.message message.now }
    ensures line { result ≡ line_of table.message message.now }
    // This is what the reader requires of a value that it reads back.
    ensures whole { IsWhole table.message message.now }
{
    let mut line = LineRoom::<185>::new();
    line.put(&FieldValue::Text(b"MSG", RecordType::COLUMN));
    line.put(&FieldValue::Digits(message.prefix.transaction as u64, Prefix::TRANSACTION));
    line.put(&FieldValue::Digits(message.prefix.detail as u64, Prefix::DETAIL));
    line.put(&FieldValue::Text(&message.message_type, Message::MESSAGE_TYPE));
    line.put(&FieldValue::Digits(message.original_record as u64, Message::ORIGINAL_RECORD));
    line.put(&FieldValue::Text(&message.record_type, Message::RECORD_TYPE));
    line.put(&FieldValue::Text(&message.message_level, Message::MESSAGE_LEVEL));
    line.put(&FieldValue::Digits(
        message.validation_number as u32 as u64,
        Message::VALIDATION_NUMBER,
    ));
    line.put(&FieldValue::Text(&message.text, Message::TEXT));
    line
}

/// Appends the line of a message, 185 bytes without a line end.
///
/// Each sequence has at most eight digits, the validation number at most three. A refusal leaves the vector as it was.
pub fn write_message<A: Allocator>(out: &mut Vec<u8, A>, message: &Message) -> Result<(), Memory>
    requires { Fits table.message message.now }
    ensures ok { OnOk result (out.new.items ≡ out.old.items ++ line_of table.message message.now) }
    // This is what the reader requires of a value that it reads back.
    ensures whole { OnOk result (IsWhole table.message message.now) }
    ensures err { OnErr result (out.new.items ≡ out.old.items) }
    // `Memory` is returned only where there was no room for the line.
    ensures full { OnErr result (vec_capacity out.old < vec_len out.old + 185) }
{
    out.extend_from_slice(message_line(message).bytes())?;
    Ok(())
}
