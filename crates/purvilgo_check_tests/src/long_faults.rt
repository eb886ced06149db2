//! What `check --long` prints of a file that is refused: of each file fault, as `examples/faults.long` has it of the
//! files `examples/rules/F01.v22` to `F12.v22`, and of faults at other places.

use std::alloc::Global;
use std::process::ExitCode;
use std::sync::Wait;
use std::test::Fail;
use std::thread::Threads;
use test_program::{Fake, expect_program};

/// A well-formed file.
const PLAIN: [&str; 6] = [
    "HDRPB000000123PUBLISHER A                                  01.102024050112000020240501",
    "GRHNWR0000102.200000000001",
    "NWR0000000000000000SONG ONE                                                      W1",
    "SWR0000000000000001000000001DOE                                                                         CA                       10000   10000   10000",
    "GRT000010000000100000004",
    "TRL000010000000100000006",
];

/// The lines of a file, each with CR and LF at its end.
fn file_of(alloc: Global, lines: &[&str]) -> Result<Vec<u8>, Fail> {
    let mut text = Vec::new(alloc);
    for line in lines {
        text.extend_from_slice(line.as_bytes())?;
        text.extend_from_slice(b"\r\n")?;
    }
    Ok(text)
}

/// The well-formed file with another line in the place of the one with this number.
fn with_line(alloc: Global, number: usize, line: &str) -> Result<Vec<u8>, Fail> {
    let mut text = Vec::new(alloc);
    for (index, plain) in PLAIN.iter().enumerate() {
        let line = if index + 1 == number { line } else { *plain };
        text.extend_from_slice(line.as_bytes())?;
        text.extend_from_slice(b"\r\n")?;
    }
    Ok(text)
}

/// What is printed of this file.
fn expect_told<T: AllocGlobal + Threads + Wait + Sync>(
    rt: &T,
    input: &[u8],
    wanted: &str,
) -> Result<(), Fail> {
    let fake = Fake::new(rt, &["purvilgo", "check", "--long", "-"], input);
    expect_program(fake, ExitCode::FAILURE, wanted.as_bytes(), "")
}

#[test]
fn tells_each_fault_of_a_line(rt: HostRuntime) -> Result<(), Fail> {
    let alloc = rt.alloc();
    let cases: [(usize, &str, &str); 9] = [
        (
            1,
            "\u{feff}HDRPB000000123PUBLISHER A                                  01.102024050112000020240501",
            "line 1: no record type: F1 the file does not begin with HDR\n  record type, start 1, length 3: \"\\xEF\\xBB\\xBF\"\n  expected: HDR\nrefused F1 at line 1\nremark, line 1: the file begins with a byte order mark of UTF-8, which is no part of CWR; write it without one\n",
        ),
        (
            3,
            "NWR0000000000000000SONG\tONE                                                      W1",
            "line 3: NWR 0 of transaction 0 in group 1: F2 a control character in a line\n  byte 9, position 24 of the line, 140 of the file\n  expected: no byte below 32\nrefused F2 at line 3\n",
        ),
        (
            1,
            "HDRPB000000123PUBLISHER A                                  01.102024023012000020240501",
            "line 1: HDR: F3 no record type, or a wrong date or time in HDR\n  creation date, start 65, length 8: \"20240230\"\n  expected: a date as YYYYMMDD, a time as HHMMSS\nrefused F3 at line 1\n",
        ),
        (
            2,
            "GRHAGR0000102.200000000001",
            "line 2: GRH of group 1: F5 a group that is not of NWR or REV\n  transaction type, start 4, length 3: \"AGR\"\n  expected: NWR or REV\nrefused F5 at line 2\n",
        ),
        (
            3,
            "REV0000000000000000SONG ONE                                                      W1",
            "line 3: REV 0 of transaction 0 in group 1: F6 a header of another type than its group\n  record type, start 1, length 3: \"REV\"\n  expected: NWR\nrefused F6 at line 3\n",
        ),
        (
            2,
            "GRHNWR0000202.200000000001",
            "line 2: GRH of group 1: F7 group IDs do not run 00001, 00002, ..\n  group ID, start 7, length 5: \"00002\"\n  expected: group ID 1\nrefused F7 at line 2\n",
        ),
        (
            4,
            "SWR0000000000000002000000001DOE                                                                         CA                       10000   10000   10000",
            "line 4: SWR 1 of transaction 0 in group 1: F8 transaction or record sequences do not run\n  record sequence, start 12, length 8: \"00000002\"\n  expected: transaction sequence 0, record sequence 1\nrefused F8 at line 4\n",
        ),
        (
            5,
            "GRT000010000000100000002",
            "line 5: GRT of group 1: F9 the counts of GRT are not those of the group\n  record count, start 17, length 8: \"00000002\"\n  expected: transaction count 1, record count 4\nrefused F9 at line 5\n",
        ),
        (
            6,
            "TRL000010000000100000007",
            "line 6: TRL: F10 the counts of TRL are not those of the file\n  record count, start 17, length 8: \"00000007\"\n  expected: group count 1, transaction count 1, record count 6\nrefused F10 at line 6\n",
        ),
    ];
    for (number, line, wanted) in cases {
        expect_told(&rt, &with_line(alloc, number, line)?, wanted)?;
    }
    Ok(())
}

#[test]
fn tells_a_record_that_stands_in_no_group(rt: HostRuntime) -> Result<(), Fail> {
    let [header, _, work, writer, group_trailer, trailer] = PLAIN;
    let input = file_of(rt.alloc(), &[header, work, writer, group_trailer, trailer])?;
    expect_told(
        &rt,
        &input,
        "line 2: NWR: F4 a record in the wrong place\n  record type, start 1, length 3: \"NWR\"\n  expected: GRH or TRL\nrefused F4 at line 2\n",
    )
}

#[test]
fn tells_that_the_trailer_is_absent(rt: HostRuntime) -> Result<(), Fail> {
    let [header, group, work, writer, group_trailer, _] = PLAIN;
    let input = file_of(rt.alloc(), &[header, group, work, writer, group_trailer])?;
    expect_told(
        &rt,
        &input,
        "line 6: end of the file: F11 no TRL at the end, or something after it\n  expected: TRL\nrefused F11 at line 6\n",
    )
}

#[test]
fn tells_the_length_of_a_line(rt: HostRuntime) -> Result<(), Fail> {
    let alloc = rt.alloc();
    let mut line = String::from_str(alloc, PLAIN[3])?;
    for _ in 0..4097usize.saturating_sub(line.len()) {
        line.push(' ')?;
    }
    expect_told(
        &rt,
        &with_line(alloc, 4, line.as_str())?,
        "line 4: SWR 1 of transaction 0 in group 1: F12 a line of more than 4,096 bytes\n  expected: at most 4096 bytes; the line has 4097\nrefused F12 at line 4\n",
    )
}

#[test]
fn tells_a_detail_before_the_first_header(rt: HostRuntime) -> Result<(), Fail> {
    let lines = [PLAIN[0], PLAIN[1], PLAIN[3], PLAIN[4], PLAIN[5]];
    let wanted =
        "line 3: SWR: F4 a record in the wrong place\n  record type, start 1, length 3: \"SWR\"\n  expected: NWR or GRT\nrefused F4 at line 3\n";
    expect_told(&rt, &file_of(rt.alloc(), &lines)?, wanted)
}

#[test]
fn tells_a_group_in_a_group(rt: HostRuntime) -> Result<(), Fail> {
    let lines = [
        PLAIN[0], PLAIN[1], PLAIN[2], PLAIN[3], PLAIN[1], PLAIN[4], PLAIN[5],
    ];
    let wanted =
        "line 5: GRH of group 2: F4 a record in the wrong place\n  record type, start 1, length 3: \"GRH\"\n  expected: a detail, NWR or GRT\nrefused F4 at line 5\n";
    expect_told(&rt, &file_of(rt.alloc(), &lines)?, wanted)
}

#[test]
fn tells_a_line_that_names_no_type(rt: HostRuntime) -> Result<(), Fail> {
    let lines = [
        PLAIN[0],
        PLAIN[1],
        PLAIN[2],
        PLAIN[3],
        "swr0000000000000001000000001DOE                                                                         CA                       10000   10000   10000",
        PLAIN[4],
        PLAIN[5],
    ];
    let wanted =
        "line 5: no record type: F3 no record type, or a wrong date or time in HDR\n  record type, start 1, length 3: \"swr\"\n  expected: a record type, three capitals from A to Z\nrefused F3 at line 5\n";
    expect_told(&rt, &file_of(rt.alloc(), &lines)?, wanted)
}

#[test]
fn tells_both_sequences_of_a_header(rt: HostRuntime) -> Result<(), Fail> {
    let lines = [
        PLAIN[0],
        PLAIN[1],
        PLAIN[2],
        PLAIN[3],
        "NWR0000000200000001SONG ONE                                                      W1",
        PLAIN[4],
        PLAIN[5],
    ];
    let wanted =
        "line 5: NWR 0 of transaction 1 in group 1: F8 transaction or record sequences do not run\n  transaction sequence, start 4, length 8: \"00000002\"\n  record sequence, start 12, length 8: \"00000001\"\n  expected: transaction sequence 1, record sequence 0\nrefused F8 at line 5\n";
    expect_told(&rt, &file_of(rt.alloc(), &lines)?, wanted)
}

#[test]
fn tells_the_group_of_a_trailer(rt: HostRuntime) -> Result<(), Fail> {
    let lines = [
        PLAIN[0],
        PLAIN[1],
        PLAIN[2],
        PLAIN[3],
        "GRT000020000000100000004",
        PLAIN[5],
    ];
    let wanted =
        "line 5: GRT of group 1: F7 group IDs do not run 00001, 00002, ..\n  group ID, start 4, length 5: \"00002\"\n  expected: group ID 1\nrefused F7 at line 5\n";
    expect_told(&rt, &file_of(rt.alloc(), &lines)?, wanted)
}

#[test]
fn tells_both_counts_of_the_second_group(rt: HostRuntime) -> Result<(), Fail> {
    let lines = [
        PLAIN[0],
        PLAIN[1],
        PLAIN[2],
        PLAIN[3],
        PLAIN[4],
        "GRHREV0000202.200000000001",
        "REV0000000000000000SONG ONE                                                      W1",
        PLAIN[3],
        "GRT000020000000200000005",
        "TRL000020000000200000010",
    ];
    let wanted =
        "line 9: GRT of group 2: F9 the counts of GRT are not those of the group\n  transaction count, start 9, length 8: \"00000002\"\n  record count, start 17, length 8: \"00000005\"\n  expected: transaction count 1, record count 4\nrefused F9 at line 9\n";
    expect_told(&rt, &file_of(rt.alloc(), &lines)?, wanted)
}

#[test]
fn tells_all_counts_of_a_file(rt: HostRuntime) -> Result<(), Fail> {
    let lines = [PLAIN[0], "TRL00001000000010000000X"];
    let wanted =
        "line 2: TRL: F10 the counts of TRL are not those of the file\n  group count, start 4, length 5: \"00001\"\n  transaction count, start 9, length 8: \"00000001\"\n  record count, start 17, length 8: \"0000000X\"\n  expected: group count 0, transaction count 0, record count 2\nrefused F10 at line 2\n";
    expect_told(&rt, &file_of(rt.alloc(), &lines)?, wanted)
}

#[test]
fn tells_a_byte_after_the_trailer(rt: HostRuntime) -> Result<(), Fail> {
    let lines = [
        PLAIN[0], PLAIN[1], PLAIN[2], PLAIN[3], PLAIN[4], PLAIN[5], " X",
    ];
    let wanted =
        "line 7: after TRL: F11 no TRL at the end, or something after it\n  byte 88, position 2 of the line, 407 of the file\n  expected: blanks and bytes 26 alone\nrefused F11 at line 7\n";
    expect_told(&rt, &file_of(rt.alloc(), &lines)?, wanted)
}
