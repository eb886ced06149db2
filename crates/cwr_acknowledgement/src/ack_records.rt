//! The records of an acknowledgement.

ghost use Rattle.std.specs.Prelude.{◌≡◌, ◌≤◌, ◌+◌, ◌%◌, ◌++◌, codes, length};
ghost use Rattle.cwr_field.specs.Layout.{padded};
ghost use Rattle.cwr_field.specs.Number.{number_text};
ghost use Rattle.cwr_acknowledgement.specs.Acknowledgement.{file_header, group_header, group_trailer, file_trailer, work_text, max_ack_records};

use crate::numeral::Numeral;
use cwr_field::filled;
use cwr_record::{FileTrailer, GroupHead, GroupTrailer, Header, Stamp};

/// The header (HDR) of an acknowledgement. `stamp` is who acknowledges, and when.
#[inline]
pub(crate) fn file_header(stamp: &Stamp) -> Header
    ensures { result ≡ file_header stamp.now }
{
    Header {
        sender: sender(stamp.society()),
        name: stamp.name(),
        creation_date: stamp.date(),
        creation_time: stamp.time(),
        transmission_date: stamp.date(),
        character_set: [b' '; 15],
    }
}

/// A society as the sender of a file: `SO`, six zeros, and its number in three digits.
fn sender(society: u16) -> [u8; 11]
    ensures { result ≡ codes "SO000000" ++ number_text 3 society }
{
    let [hundreds, tens, ones] = [
        ascii_digit(society / 10 / 10),
        ascii_digit(society / 10),
        ascii_digit(society),
    ];
    [
        b'S', b'O', b'0', b'0', b'0', b'0', b'0', b'0', hundreds, tens, ones,
    ]
}

/// The last digit of a number, in ASCII.
fn ascii_digit(number: u16) -> u8
    ensures { result ≡ 48 + number % 10 }
{
    b'0' + (number % 10) as u8
}

/// The group header (GRH) of an acknowledgement, which has one group.
pub(crate) fn group_header() -> GroupHead
    ensures { result ≡ group_header }
{
    GroupHead {
        transaction_type: *b"ACK",
        group: 1,
        version: *b"02.20",
        batch_request: *b"0000000000",
        submission_type: [b' '; 2],
    }
}

/// The registry's number of a work in eight digits and blanks up to 20 bytes, or only blanks where there is none.
/// `last` is the number that was converted before it.
#[inline]
pub(crate) fn recipient_number(last: &mut Numeral<8>, work: Option<u32>) -> [u8; 20]
    ensures { result ≡ padded 20 (work_text work) }
{
    match work {
        Some(work) => filled(&last.spelled(work)),
        None => [b' '; 20],
    }
}

/// The group trailer (GRT) of an acknowledgement with an ACK for each of `transactions`, and `messages` MSG in all.
pub(crate) fn group_trailer(transactions: u32, messages: u32) -> GroupTrailer
    requires { transactions + messages ≤ max_ack_records }
    ensures { result ≡ group_trailer transactions messages }
{
    GroupTrailer {
        group: 1,
        transactions,
        records: transactions + 2 + messages,
    }
}

/// The file trailer (TRL) of an acknowledgement with an ACK for each of `transactions`, and `messages` MSG in all.
pub(crate) fn file_trailer(transactions: u32, messages: u32) -> FileTrailer
    requires { transactions + messages ≤ max_ack_records }
    ensures { result ≡ file_trailer transactions messages }
{
    FileTrailer {
        groups: 1,
        transactions,
        records: transactions + 4 + messages,
    }
}
