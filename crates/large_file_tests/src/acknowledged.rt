//! Files of real size, acknowledged.

use byte_streams::{Feed, ReadRefused, Room, read_file};
use cwr_desk::{FileOutcome, MAX_BYTES, Why, acknowledge};
use std::alloc::Global;
use std::test::Fail;
use test_comparisons::{same, same_bytes};
use test_files::{
    SENDER, acknowledgement, crowded_faults, crowded_work, decision, many_answers, many_groups,
    many_works, stamp,
};

/// Acknowledges a file: how it must end, and what must be written.
fn expect(alloc: Global, input: &[u8], end: FileOutcome, written: &[u8]) -> Result<(), Fail> {
    let stamp = stamp()?;
    let mut reader = Feed::new(input, 65_536, None);
    let mut writer = Room::new(alloc, written.len(), true)?;
    let outcome = acknowledge(alloc, &mut reader, &mut writer, &stamp);
    expect_left(outcome, &writer, end, written)
}

/// A file ended like this, and this was written.
fn expect_left(
    outcome: FileOutcome,
    writer: &Room,
    end: FileOutcome,
    written: &[u8],
) -> Result<(), Fail> {
    same("how the file ended", &outcome, &end)?;
    same_bytes("what was written", writer.bytes(), written)
}

#[test]
fn acknowledges_70_000_transactions(rt: HostRuntime) -> Result<(), Fail> {
    let alloc = rt.alloc();
    let input = many_works(alloc, SENDER, 70_000)?;
    let end = FileOutcome::Acked {
        transactions: 70_000,
    };
    expect(alloc, &input, end, &many_answers(alloc, 70_000, 0)?)
}

/// The acknowledgement goes out in three pieces, the first two of 407 lines each. The writer fails before, at and after
/// their ends.
#[test]
fn stops_in_each_chunk_of_an_acknowledgement(rt: HostRuntime) -> Result<(), Fail> {
    let alloc = rt.alloc();
    let input = many_works(alloc, SENDER, 1000)?;
    let answers = many_answers(alloc, 1000, 0)?;
    for size in [
        0, 1, 65_403, 65_404, 65_405, 130_930, 130_931, 130_932, 161_263,
    ] {
        let end = FileOutcome::Stopped {
            handed: 1000,
            why: Why::Write { sent: size as u64 },
        };
        expect(alloc, &input, end, answers.get(..size).ok_or("a front")?)?;
    }
    Ok(())
}

/// A rejected work, with a message for each of 19,999 faults.
#[test]
fn acknowledges_30_000_records(rt: HostRuntime) -> Result<(), Fail> {
    let alloc = rt.alloc();
    let input = crowded_work(alloc, SENDER, 30_000)?;
    let faults = crowded_faults(alloc, 30_000)?;
    let answers = [decision(0, "NWR", "W1", "", "RJ", &faults)];
    let end = FileOutcome::Acked { transactions: 1 };
    expect(alloc, &input, end, &acknowledgement(alloc, &answers)?)
}

#[test]
fn acknowledges_99_999_groups(rt: HostRuntime) -> Result<(), Fail> {
    let alloc = rt.alloc();
    let input = many_groups(alloc, &["TRL999990000000000200000"])?;
    let end = FileOutcome::Acked { transactions: 0 };
    expect(alloc, &input, end, &acknowledgement(alloc, &[])?)
}

#[test]
fn refuses_one_group_more(rt: HostRuntime) -> Result<(), Fail> {
    let last = ["GRHNWR00000", "TRL999990000000000200000"];
    let input = many_groups(rt.alloc(), &last)?;
    let end = FileOutcome::Refused {
        number: 7,
        line: 200_000,
    };
    expect(rt.alloc(), &input, end, b"")
}

/// The greatest number of bytes of a file.
const LIMIT: usize = 16_777_216;

const TOO_LONG: FileOutcome = FileOutcome::Stopped {
    handed: 0,
    why: Why::TooLong,
};

#[test]
fn refuses_line_ends_alone(rt: HostRuntime) -> Result<(), Fail> {
    let alloc = rt.alloc();
    let mut input = vec![in alloc; b'\n'; LIMIT]?;
    let end = FileOutcome::Refused { number: 1, line: 1 };
    expect(alloc, &input, end, b"")?;
    input.push(b'\n')?;
    expect(alloc, &input, TOO_LONG, b"")
}

/// Blanks behind the last record are no fault, so a file may be filled up with them.
#[test]
fn acknowledges_16_777_216_bytes(rt: HostRuntime) -> Result<(), Fail> {
    let alloc = rt.alloc();
    same("the limit", &MAX_BYTES, &LIMIT)?;
    let mut input = many_works(alloc, SENDER, 70_000)?;
    input.resize(LIMIT, b' ')?;
    let end = FileOutcome::Acked {
        transactions: 70_000,
    };
    expect(alloc, &input, end, &many_answers(alloc, 70_000, 0)?)?;
    input.push(b' ')?;
    expect(alloc, &input, TOO_LONG, b"")
}

/// Reads these bytes, of which at most `limit` are taken.
fn read(alloc: Global, bytes: &[u8], limit: usize) -> Result<Vec<u8>, ReadRefused> {
    read_file(alloc, &mut Feed::new(bytes, 65_536, None), limit)
}

#[test]
fn reads_16_777_216_bytes(rt: HostRuntime) -> Result<(), Fail> {
    let alloc = rt.alloc();
    let mut input = vec![in alloc; b'\n'; LIMIT]?;
    same_bytes("what was read", &read(alloc, &input, LIMIT)?, &input)?;
    input.push(b'X')?;
    same(
        "a byte more",
        &read(alloc, &input, LIMIT).err(),
        &Some(ReadRefused::TooLong),
    )?;
    same_bytes(
        "and a limit of it",
        &read(alloc, &input, LIMIT + 1)?,
        &input,
    )
}
