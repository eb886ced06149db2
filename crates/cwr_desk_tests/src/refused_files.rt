//! Files with a fault: none of their transactions is decided, and no byte is written.
use crate::decided::carried_file;
use crate::lines::{Line, file_dated, file_with};
use crate::three_ways::expect_three_ways;
use cwr_desk::FileOutcome;
use std::alloc::Global;
use std::sync::Wait;
use std::test::Fail;
use std::thread::Threads;
use test_files::miscounted;

const GROUP: Line<'static> = Line::Text("GRHNWR0000102.200000000001");

/// The header of the one work of a file, and its writer.
const HEAD: Line<'static> = Line::Work("NWR", 0, "W1", "");

const DETAIL: Line<'static> = Line::Writer("SWR", 0, 1, "10000", "10000");

const GROUP_END: Line<'static> = Line::Text("GRT000010000000100000004");

const END: Line<'static> = Line::Text("TRL000010000000100000006");

/// A file that must be refused, alone, as a job in turn, and at the desk. `rt` starts threads and waits, `alloc`
/// allocates, and `input` is the file. `number` is that of the fault, and `line` its line, from 1.
fn expect_fault<T: Threads + Wait + Sync>(
    rt: &T,
    alloc: Global,
    input: &[u8],
    number: u8,
    line: u64,
) -> Result<(), Fail> {
    let end = FileOutcome::Refused { number, line };
    expect_three_ways(rt, alloc, input, 1000, end, b"", &[])
}

#[test]
fn an_empty_file(rt: HostRuntime) -> Result<(), Fail> {
    expect_fault(&rt, rt.alloc(), b"", 1, 1)
}

/// A file that must be refused. `rt` starts threads and waits, `alloc` allocates, and `lines` follow its HDR. `number`
/// is that of the fault, and `line` its line, from 1.
fn expect_lines<T: Threads + Wait + Sync>(
    rt: &T,
    alloc: Global,
    lines: &[Line],
    number: u8,
    line: u64,
) -> Result<(), Fail> {
    let input = file_with(alloc, lines)?;
    expect_fault(rt, alloc, &input, number, line)
}

#[test]
fn a_wrong_header(rt: HostRuntime) -> Result<(), Fail> {
    let alloc = rt.alloc();
    let again = Line::Work("NWR", 0, "W2", "");
    let wrong_end = Line::Text("GRT000010000000900000009");
    let twice = [GROUP, HEAD, DETAIL, again, wrong_end, END];
    expect_lines(&rt, alloc, &twice, 8, 5)?;
    let agreement = Line::Work("AGR", 0, "W1", "");
    let no_work = [GROUP, agreement, DETAIL, GROUP_END, END];
    expect_lines(&rt, alloc, &no_work, 6, 3)
}

#[test]
fn a_wrong_group(rt: HostRuntime) -> Result<(), Fail> {
    let alloc = rt.alloc();
    let group = Line::Text("GRHAGR0000102.20");
    expect_lines(&rt, alloc, &[group, HEAD, DETAIL, GROUP_END, END], 5, 2)?;
    expect_fault(&rt, alloc, &miscounted(alloc)?, 9, 5)
}

#[test]
fn a_wrong_end(rt: HostRuntime) -> Result<(), Fail> {
    let alloc = rt.alloc();
    expect_lines(&rt, alloc, &[GROUP, HEAD, DETAIL, GROUP_END], 11, 6)?;
    let more = [GROUP, HEAD, DETAIL, GROUP_END, END, Line::Text("X")];
    expect_lines(&rt, alloc, &more, 11, 7)
}

#[test]
fn a_wrong_count_at_the_end(rt: HostRuntime) -> Result<(), Fail> {
    let miscounted = Line::Text("TRL000010000000100000007");
    let lines = [GROUP, HEAD, DETAIL, GROUP_END, miscounted];
    expect_lines(&rt, rt.alloc(), &lines, 10, 6)
}

#[test]
fn lines_out_of_place(rt: HostRuntime) -> Result<(), Fail> {
    let alloc = rt.alloc();
    expect_lines(&rt, alloc, &[GROUP, DETAIL, HEAD, GROUP_END, END], 4, 3)?;
    expect_lines(&rt, alloc, &[HEAD, DETAIL, GROUP_END, END], 4, 2)
}

#[test]
fn a_day_that_no_month_has(rt: HostRuntime) -> Result<(), Fail> {
    let lines = [GROUP, HEAD, DETAIL, GROUP_END, END];
    let input = file_dated(rt.alloc(), "20240230", &lines)?;
    expect_fault(&rt, rt.alloc(), &input, 3, 1)
}

/// A file of one work that must be refused for its carried record, on line 8. `rt` starts threads and waits, and
/// `alloc` allocates. The record has `blanks` blanks and the text `end` at its end. `number` is that of the fault.
fn expect_carried<T: Threads + Wait + Sync>(
    rt: &T,
    alloc: Global,
    blanks: usize,
    end: &str,
    number: u8,
) -> Result<(), Fail> {
    let sixth = format!(in alloc; "PER0000000000000005X{:blanks$}{end}", "")?;
    let input = carried_file(alloc, &sixth)?;
    expect_fault(rt, alloc, &input, number, 8)
}

#[test]
fn a_carried_line(rt: HostRuntime) -> Result<(), Fail> {
    expect_carried(&rt, rt.alloc(), 4077, "", 12)?;
    expect_carried(&rt, rt.alloc(), 0, "\t", 2)
}
