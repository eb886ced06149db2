//! Acknowledgements and messages, written and read.

use crate::lines::{clock, day, expect_record, line, text};
use cwr_record::{Ack, Message, Prefix, read_ack, read_message, write_ack, write_message};
use std::test::Fail;

#[test]
fn acknowledgement(rt: HostRuntime) -> Result<(), Fail> {
    let ack = Ack {
        prefix: Prefix {
            transaction: 0,
            detail: 0,
        },
        creation_date: day(b"20240501")?,
        creation_time: clock(b"120000")?,
        original_group: 1,
        original_transaction: 0,
        original_type: *b"NWR",
        title: text(b"SONG ONE"),
        submitter_number: text(b"W1"),
        recipient_number: text(b"00000001"),
        processing_date: day(b"20240601")?,
        status: *b"AS",
    };
    let vector = line(
        rt.alloc(),
        &[
            (b"ACK00000000000000002024050112000000001", 0),
            (b"00000000NWRSONG ONE", 52),
            (b"W1", 18),
            (b"00000001", 12),
            (b"20240601AS", 0),
        ],
    )?;
    let mut out = Vec::new(rt.alloc());
    write_ack(&mut out, &ack)?;
    expect_record(
        &out,
        &vector,
        "the ack that is read",
        &read_ack(&vector),
        &Ok(ack),
    )
}

#[test]
fn message(rt: HostRuntime) -> Result<(), Fail> {
    let vector = line(
        rt.alloc(),
        &[(
            b"MSG0000000000000001T00000001SWRT006SHARE IS NOT VALID",
            132,
        )],
    )?;
    let message = Message {
        prefix: Prefix {
            transaction: 0,
            detail: 1,
        },
        message_type: *b"T",
        original_record: 1,
        record_type: *b"SWR",
        message_level: *b"T",
        validation_number: 6,
        text: text(b"SHARE IS NOT VALID"),
    };
    let mut out = Vec::new(rt.alloc());
    write_message(&mut out, &message)?;
    expect_record(
        &out,
        &vector,
        "the message that is read",
        &read_message(&vector),
        &Ok(message),
    )
}
