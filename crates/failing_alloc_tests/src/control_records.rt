//! The records of a file's frame and of its acknowledgement, each written once.
ghost use Rattle.std.specs.Prelude.{◌≤◌};

use crate::texts::Put;
use cwr_field::{Clock, Day, Memory, cut, date, time};
use cwr_record::{
    Ack, FileTrailer, GroupHead, GroupTrailer, Header, Message, Prefix, write_ack,
    write_file_trailer, write_group_head, write_group_trailer, write_header, write_message,
};
use std::alloc::Allocator;
use std::test::Fail;

/// A text in its field, followed by blanks.
pub(crate) fn text<const N: usize>(text: &[u8]) -> [u8; N]
    requires { (1 ≤ N) × (N ≤ 150) }
{
    cut(text, 1, N).bytes()
}

pub(crate) fn day(digits: &[u8; 8]) -> Result<Day, Fail> {
    Ok(date(cut(digits, 1, 8)).ok_or("no day")?)
}

pub(crate) fn clock(digits: &[u8; 6]) -> Result<Clock, Fail> {
    Ok(time(cut(digits, 1, 6)).ok_or("no time")?)
}

pub(crate) fn put_file_header<A: Allocator>(out: &mut Vec<u8, A>) -> Put {
    let header = Header {
        sender: *b"PB000000123",
        name: text(b"PUBLISHER A"),
        creation_date: day(b"20240501")?,
        creation_time: clock(b"120000")?,
        transmission_date: day(b"20240501")?,
        character_set: text(b""),
    };
    Ok(write_header(out, &header))
}

pub(crate) fn put_group_header<A: Allocator>(out: &mut Vec<u8, A>) -> Result<(), Memory> {
    write_group_head(
        out,
        &GroupHead {
            transaction_type: *b"NWR",
            group: 1,
            version: *b"02.20",
            batch_request: *b"0000000001",
            submission_type: *b"  ",
        },
    )
}

pub(crate) fn put_group_trailer<A: Allocator>(out: &mut Vec<u8, A>) -> Result<(), Memory> {
    write_group_trailer(
        out,
        &GroupTrailer {
            group: 1,
            transactions: 1,
            records: 4,
        },
    )
}

pub(crate) fn put_file_trailer<A: Allocator>(out: &mut Vec<u8, A>) -> Result<(), Memory> {
    write_file_trailer(
        out,
        &FileTrailer {
            groups: 1,
            transactions: 1,
            records: 6,
        },
    )
}

pub(crate) fn put_ack<A: Allocator>(out: &mut Vec<u8, A>) -> Put {
    let ack = Ack {
        prefix: Prefix {
            transaction: 0,
            detail: 0,
        },
        creation_date: day(b"20240501")?,
        creation_time: clock(b"120000")?,
        original_group: 1,
        original_transaction: 0,
        original_type: *b"NWR",
        title: text(b"SONG ONE"),
        submitter_number: text(b"W1"),
        recipient_number: text(b"00000001"),
        processing_date: day(b"20240601")?,
        status: *b"AS",
    };
    Ok(write_ack(out, &ack))
}

pub(crate) fn put_message<A: Allocator>(out: &mut Vec<u8, A>) -> Result<(), Memory> {
    let message = Message {
        prefix: Prefix {
            transaction: 0,
            detail: 1,
        },
        message_type: *b"T",
        original_record: 1,
        record_type: *b"SWR",
        message_level: *b"T",
        validation_number: 6,
        text: text(b"SHARE IS NOT VALID"),
    };
    write_message(out, &message)
}
