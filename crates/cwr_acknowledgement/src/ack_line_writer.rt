//! The ACK and MSG lines of an acknowledgement.

ghost use Rattle.std.specs.Prelude.{◌≡◌, length};
ghost use Rattle.cwr_record.specs.Lines.{line_of};
ghost use Rattle.cwr_record.specs.Acknowledgement as table;
ghost use Rattle.cwr_acknowledgement.specs.Acknowledgement.{FitsFault, ack_record, ended, message_record};

use crate::ack_item::AckItem;
use crate::ack_records::recipient_number;
use crate::messages::message_text;
use crate::numeral::Numeral;
use crate::places::{put, put_padded};
use cwr_call::Fault;
use cwr_field::{filled, last_digits};
use cwr_record::{Ack, Column, Header, Message, Prefix, RecordType, Stamp};
use std::marker::Model;

/// How many bytes an ACK line has, with its end.
pub(crate) const ACK_LEN: usize = 161;

/// The end of an ACK line, behind its last field.
const ACK_END: Column = Column {
    start: 160,
    width: 2,
};

/// How many bytes a MSG line has, with its end.
pub(crate) const MESSAGE_LEN: usize = 187;

/// The end of a MSG line, behind its last field.
const MESSAGE_END: Column = Column {
    start: 186,
    width: 2,
};

/// Writes the ACK and MSG lines of the transactions of one file.
///
/// The dates and the time are the same in each ACK line, and are converted to text once. The numbers are mostly those
/// of the line before, or one more, so their digits are counted up.
#[derive(Drop)]
pub(crate) struct AckLineWriter<'a> {
    stamp: &'a Stamp,
    header: &'a Header,
    creation_date: [u8; 8],
    creation_time: [u8; 6],
    processing_date: [u8; 8],
    transaction: Numeral<8>,
    group: Numeral<5>,
    sequence: Numeral<8>,
    work: Numeral<8>,
    detail: Numeral<8>,
    original_record: Numeral<8>,
}

impl<'a> Model for AckLineWriter<'a> {
    ghost use Rattle.std.specs.Prelude.{◌≡◌};
    ghost use Rattle.cwr_field.specs.Number.{number_text};
    ghost use Rattle.cwr_acknowledgement.specs.AckLineWriter.{Form};

    ghost Value = { Form };

    ghost view = { λ f. record { stamp = f.stamp.now; header = f.header.now } };

    ghost invariant = { λ f. (f.creation_date ≡ number_text 8 f.header.now.creation_date)
        × (f.creation_time ≡ number_text 6 f.header.now.creation_time)
        × (f.processing_date ≡ number_text 8 f.stamp.now.date) };
}

impl<'a> AckLineWriter<'a> {
    /// A form for the lines that answer the file with this header. `stamp` is who acknowledges, and when.
    pub(crate) fn new(stamp: &'a Stamp, header: &'a Header) -> AckLineWriter<'a>
        ensures { result ≡ record { stamp = stamp.now; header = header.now } }
    {
        AckLineWriter {
            stamp,
            header,
            creation_date: last_digits(header.creation_date.number() as u64),
            creation_time: last_digits(header.creation_time.number() as u64),
            processing_date: last_digits(stamp.date().number() as u64),
            transaction: Numeral::of(0),
            group: Numeral::of(0),
            sequence: Numeral::of(0),
            work: Numeral::of(0),
            detail: Numeral::of(0),
            original_record: Numeral::of(0),
        }
    }

    /// Writes the line that acknowledges an item, as the transaction `index` of its file, with its end.
    #[inline(always)]
    pub(crate) fn fill_ack(&mut self, line: &mut [u8], index: u32, item: &AckItem)
        requires { length line.old ≡ 161 }
        ensures same { self.new ≡ self.old }
        ensures line { line.new ≡ ended (line_of table.ack (ack_record self.old.stamp self.old.header index item.now)) }
    {
        put(line, RecordType::COLUMN, *b"ACK");
        put(line, Prefix::TRANSACTION, self.transaction.spelled(index));
        put(line, Prefix::DETAIL, *b"00000000");
        put(line, Ack::CREATION_DATE, self.creation_date);
        put(line, Ack::CREATION_TIME, self.creation_time);
        put(line, Ack::ORIGINAL_GROUP, self.group.spelled(item.group));
        put(
            line,
            Ack::ORIGINAL_TRANSACTION,
            self.sequence.spelled(item.sequence),
        );
        put(line, Ack::ORIGINAL_TYPE, *item.kind.code());
        put(line, Ack::TITLE, item.title);
        put(line, Ack::SUBMITTER_NUMBER, filled::<20>(&item.number));
        put(
            line,
            Ack::RECIPIENT_NUMBER,
            recipient_number(&mut self.work, item.work),
        );
        put(line, Ack::PROCESSING_DATE, self.processing_date);
        put(line, Ack::STATUS, *item.status.code());
        put(line, ACK_END, *b"\r\n");
    }

    /// Writes the MSG line of a fault, as record `detail` of transaction `index` (both from 0), with its end.
    #[inline(always)]
    pub(crate) fn fill_message(&mut self, line: &mut [u8], index: u32, detail: u32, fault: &Fault)
        requires length { length line.old ≡ 187 }
        requires fits { FitsFault fault.now }
        ensures same { self.new ≡ self.old }
        ensures line { line.new ≡ ended (line_of table.message (message_record index detail fault.now)) }
    {
        put(line, RecordType::COLUMN, *b"MSG");
        put(line, Prefix::TRANSACTION, self.transaction.spelled(index));
        put(line, Prefix::DETAIL, self.detail.spelled(detail));
        put(line, Message::MESSAGE_TYPE, *b"T");
        put(
            line,
            Message::ORIGINAL_RECORD,
            self.original_record.spelled(fault.sequence),
        );
        put(line, Message::RECORD_TYPE, fault.rtype);
        put(line, Message::MESSAGE_LEVEL, *b"T");
        put(
            line,
            Message::VALIDATION_NUMBER,
            last_digits::<3>(fault.number as u64),
        );
        put_padded(line, Message::TEXT, message_text(fault.number));
        put(line, MESSAGE_END, *b"\r\n");
    }
}
