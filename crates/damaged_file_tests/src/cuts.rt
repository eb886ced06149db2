//! What remains of a file after a cut.

use crate::three_ways::{NEW, Wanted, expect_three_ways, nothing, whole};
use byte_streams::{Feed, Room};
use cwr_desk::{FileOutcome, acknowledge};
use std::alloc::Global;
use std::sync::Wait;
use std::test::Fail;
use std::thread::Threads;
use test_comparisons::same;
use test_files::{one_answer, plain_file, stamp};

/// The number of bytes of the plain file's last line and its end.
const LAST_LINE: usize = 26;

/// The faults that some cuts leave, each with the number of bytes that remain. The plain file has `all` bytes.
fn faults(all: usize) -> [(usize, FileOutcome); 9] {
    let five = all.saturating_sub(LAST_LINE);
    let refused = |number: u8, line: u64| FileOutcome::Refused { number, line };
    [
        (0, refused(1, 1)),
        (1, refused(1, 1)),
        (2, refused(1, 1)),
        (3, refused(3, 1)),
        (five.saturating_sub(2), refused(11, 6)),
        (five.saturating_sub(1), refused(2, 5)),
        (five, refused(11, 6)),
        (all.saturating_sub(3), refused(10, 6)),
        (all.saturating_sub(1), refused(2, 6)),
    ]
}

/// How a file ends, worked alone.
fn end_of(alloc: Global, bytes: &[u8]) -> Result<FileOutcome, Fail> {
    let stamp = stamp()?;
    let mut reader = Feed::new(bytes, 4096, None);
    let mut writer = Room::new(alloc, 425, true)?;
    Ok(acknowledge(alloc, &mut reader, &mut writer, &stamp))
}

/// What remains is refused, in each way for the same fault: that of the list, if it is in the list.
fn expect_refused<T: AllocGlobal + Threads + Wait + Sync>(
    rt: &T,
    remains: &[u8],
    faults: &[(usize, FileOutcome)],
) -> Result<(), Fail> {
    let left = remains.len();
    let end = end_of(rt.alloc(), remains)?;
    let is_refused = matches!(end, FileOutcome::Refused { .. });
    same(
        "a cut, and whether it is refused",
        &(left, is_refused),
        &(left, true),
    )?;
    for (cut, fault) in faults {
        if *cut == left {
            same("a cut, and the fault", &(left, end), &(left, *fault))?;
        }
    }
    expect_three_ways(rt, whole(remains), nothing(end))
}

#[test]
fn refuses_a_file_that_was_cut(rt: HostRuntime) -> Result<(), Fail> {
    let text = plain_file(rt.alloc())?;
    let faults = faults(text.len());
    for left in 0..text.len() {
        // The last line may end without CR LF.
        if left != text.len().saturating_sub(2) {
            expect_refused(&rt, text.get(..left).ok_or("a cut")?, &faults)?;
        }
    }
    Ok(())
}

#[test]
fn takes_a_file_without_its_last_line_end(rt: HostRuntime) -> Result<(), Fail> {
    let text = plain_file(rt.alloc())?;
    let unended = text.get(..text.len().saturating_sub(2)).ok_or("a cut")?;
    let answer = one_answer(rt.alloc(), "AS")?;
    let wanted = Wanted {
        end: FileOutcome::Acked { transactions: 1 },
        written: &answer,
        replies: &NEW,
    };
    expect_three_ways(&rt, whole(unended), wanted)
}
