//! Runs of three groups with a full book, and with readers and writers that fail.

use crate::files::{files, first};
use crate::same_runs::expect_as_chained;
use cwr_desk::{FileOutcome, Why};
use std::alloc::Global;
use std::test::Fail;
use test_comparisons::{same, same_lists};
use test_jobs::{ACKED, Input, unread, with_room};

/// The number of files of each run: three groups.
const FILES: usize = 130;

/// No transaction of a file was decided, since the book was full.
const FULL: FileOutcome = FileOutcome::Stopped {
    handed: 0,
    why: Why::Full,
};

/// Of the first 72 files ten are refused, so the book is full behind them.
#[test]
fn a_book_that_is_full_in_the_second_group(rt: HostRuntime) -> Result<(), Fail> {
    let alloc = rt.alloc();
    let files = files(alloc, FILES)?;
    let inputs = first(alloc, &files, FILES)?;
    let chain = expect_as_chained(&rt, alloc, 62, &inputs)?;
    expect_full(&chain.outcomes)
}

/// The 72nd file must have got the last entry, and the book must have been full for the next ones, up to the last file.
fn expect_full(outcomes: &[FileOutcome]) -> Result<(), Fail> {
    let ends = outcomes.get(71..74).ok_or("three outcomes")?;
    same_lists("about the last entry", ends, &[ACKED, FULL, FULL])?;
    same("the last job", &outcomes.last(), &Some(&FULL))
}

/// The places of files that are not read.
const UNREAD: [usize; 4] = [0, 62, 94, 126];

/// The places of files whose acknowledgements are not written.
const UNWRITTEN: [usize; 4] = [31, 63, 125, 128];

/// The file could not be read.
const STOPPED_READ: FileOutcome = FileOutcome::Stopped {
    handed: 0,
    why: Why::Read,
};

/// Its acknowledgement could not be written.
const STOPPED_WRITE: FileOutcome = FileOutcome::Stopped {
    handed: 1,
    why: Why::Write { sent: 100 },
};

/// The files, with readers and writers that fail in each group.
fn failing<'a>(alloc: Global, files: &'a [Vec<u8>]) -> Result<Vec<Input<'a>>, Fail> {
    let mut inputs = first(alloc, files, FILES)?;
    for place in UNREAD {
        let input = inputs.get_mut(place).ok_or("a file")?;
        *input = unread(input.bytes);
    }
    for place in UNWRITTEN {
        let input = inputs.get_mut(place).ok_or("a file")?;
        *input = with_room(input.bytes, 100);
    }
    Ok(inputs)
}

/// The jobs in these places must have ended so.
fn expect_ends(
    outcomes: &[FileOutcome],
    places: &[usize],
    wanted: FileOutcome,
) -> Result<(), Fail> {
    for place in places {
        same("how a job ended", &outcomes.get(*place), &Some(&wanted))?;
    }
    Ok(())
}

#[test]
fn readers_and_writers_that_fail_in_each_group(rt: HostRuntime) -> Result<(), Fail> {
    let alloc = rt.alloc();
    let files = files(alloc, FILES)?;
    let inputs = failing(alloc, &files)?;
    let chain = expect_as_chained(&rt, alloc, 1000, &inputs)?;
    expect_ends(&chain.outcomes, &UNREAD, STOPPED_READ)?;
    expect_ends(&chain.outcomes, &UNWRITTEN, STOPPED_WRITE)
}
