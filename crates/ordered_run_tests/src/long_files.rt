//! Long files among short ones, whose acknowledgements are written on threads.
ghost use Rattle.std.specs.Prelude.{◌≤◌};

use crate::beginnings::Beginning;
use crate::same_runs::expect_as_in_turn;
use crate::stock::put;
use cwr_desk::{FileOutcome, Why};
use std::alloc::Global;
use std::test::Fail;
use std::thread::Threads;
use test_files::{OTHER_SENDER, SENDER, many_works, miscounted, plain_file, three_works};
use test_jobs::{ACKED, Input, MemoryRun, all_with_room, expect_ends, with_room};

/// Room for each acknowledgement.
const AMPLE: usize = 200_000;

/// Puts the files of a group of eight behind other files. Three of their acknowledgements are written on threads. The
/// sixth file has one transaction too few for that, and behind the eighth one of the group there is none to be decided
/// meanwhile.
fn push_group(files: &mut Vec<Vec<u8>>, alloc: Global) -> Result<(), Fail> {
    put(files, many_works(alloc, SENDER, 1001))?;
    put(files, plain_file(alloc))?;
    put(files, many_works(alloc, SENDER, 1001))?;
    put(files, three_works(alloc))?;
    put(files, many_works(alloc, OTHER_SENDER, 1000))?;
    put(files, many_works(alloc, "000000789", 999))?;
    put(files, miscounted(alloc))?;
    put(files, many_works(alloc, "000000790", 1002))
}

/// Puts the files of a second group behind other files. One of their acknowledgements is written on a thread.
fn push_rest(files: &mut Vec<Vec<u8>>, alloc: Global) -> Result<(), Fail> {
    put(files, plain_file(alloc))?;
    put(files, many_works(alloc, "000000791", 1003))?;
    put(files, three_works(alloc))
}

/// Eleven files.
fn eleven_files(alloc: Global) -> Result<Vec<Vec<u8>>, Fail> {
    let mut files = Vec::new(alloc);
    push_group(&mut files, alloc)?;
    push_rest(&mut files, alloc)?;
    Ok(files)
}

fn acknowledged(transactions: u32) -> FileOutcome {
    FileOutcome::Acked { transactions }
}

const MISCOUNTED: FileOutcome = FileOutcome::Refused { number: 9, line: 5 };

/// Works files in both ways, with a book of `limit` entries.
fn run_both<'a, T: Threads + Sync>(
    rt: &T,
    alloc: Global,
    inputs: &[Input<'a>],
    limit: u32,
) -> Result<MemoryRun<'a>, Fail>
    requires least { 1 ≤ limit }
    requires most { limit ≤ 10000 }
{
    expect_as_in_turn(rt, alloc, "long files", &Beginning::empty(limit), inputs)
}

/// How the files end if nothing fails.
fn whole_ends() -> [FileOutcome; 11] {
    [
        acknowledged(1001),
        ACKED,
        acknowledged(1001),
        acknowledged(3),
        acknowledged(1000),
        acknowledged(999),
        MISCOUNTED,
        acknowledged(1002),
        ACKED,
        acknowledged(1003),
        acknowledged(3),
    ]
}

#[test]
fn whole_files(rt: HostRuntime) -> Result<(), Fail> {
    let alloc = rt.alloc();
    let files = eleven_files(alloc)?;
    let inputs = all_with_room(alloc, &files, AMPLE)?;
    let run = run_both(&rt, alloc, &inputs, 10_000)?;
    expect_ends(&run, &whole_ends())
}

/// The writers of the long files that fail: their places, and the number of bytes after which they fail. An
/// acknowledgement goes out in pieces, the first of 65,404 bytes.
const ROOMS: [(usize, usize); 5] = [(0, 0), (2, 1), (4, 65_404), (7, 65_405), (9, 130_000)];

/// The files, with little room for the acknowledgements of the long ones.
fn with_little_room(alloc: Global, files: &[Vec<u8>]) -> Result<Vec<Input<'_>>, Fail> {
    let mut inputs = all_with_room(alloc, files, AMPLE)?;
    for (place, room) in ROOMS {
        let input = inputs.get_mut(place).ok_or("a file")?;
        *input = with_room(input.bytes, room);
    }
    Ok(inputs)
}

/// All transactions of a file were decided, and then a write failed.
fn unwritten(handed: u32, sent: u64) -> FileOutcome {
    FileOutcome::Stopped {
        handed,
        why: Why::Write { sent },
    }
}

/// How the files end if the writers of the long ones fail.
fn unwritten_ends() -> [FileOutcome; 11] {
    [
        unwritten(1001, 0),
        ACKED,
        unwritten(1001, 1),
        acknowledged(3),
        unwritten(1000, 65_404),
        acknowledged(999),
        MISCOUNTED,
        unwritten(1002, 65_405),
        ACKED,
        unwritten(1003, 130_000),
        acknowledged(3),
    ]
}

#[test]
fn writers_of_long_files_that_fail(rt: HostRuntime) -> Result<(), Fail> {
    let alloc = rt.alloc();
    let files = eleven_files(alloc)?;
    let inputs = with_little_room(alloc, &files)?;
    let run = run_both(&rt, alloc, &inputs, 10_000)?;
    expect_ends(&run, &unwritten_ends())
}

/// The files, with a reader that fails in the middle of the first long one.
fn with_failing_reader(alloc: Global, files: &[Vec<u8>]) -> Result<Vec<Input<'_>>, Fail> {
    let mut inputs = all_with_room(alloc, files, AMPLE)?;
    let input = inputs.get_mut(0).ok_or("a file")?;
    *input = Input {
        fail: Some(20),
        ..*input
    };
    Ok(inputs)
}

/// `handed` transactions of a file were decided, and then the job was stopped.
fn stopped(handed: u32, why: Why) -> FileOutcome {
    FileOutcome::Stopped { handed, why }
}

/// How the files end if the first one is not read to its end, and the book is full in the middle of the fifth.
fn full_ends() -> [FileOutcome; 11] {
    [
        stopped(0, Why::Read),
        ACKED,
        acknowledged(1001),
        acknowledged(3),
        stopped(495, Why::Full),
        stopped(0, Why::Full),
        MISCOUNTED,
        stopped(0, Why::Full),
        stopped(0, Why::Full),
        stopped(0, Why::Full),
        stopped(0, Why::Full),
    ]
}

#[test]
fn a_book_that_is_full_in_a_long_file(rt: HostRuntime) -> Result<(), Fail> {
    let alloc = rt.alloc();
    let files = eleven_files(alloc)?;
    let inputs = with_failing_reader(alloc, &files)?;
    let run = run_both(&rt, alloc, &inputs, 1500)?;
    expect_ends(&run, &full_ends())
}
