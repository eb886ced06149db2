//! Ten files of which the readers, or the writers, of three fail, in each place.

use crate::beginnings::Beginning;
use crate::same_runs::expect_as_in_turn;
use crate::stock::ten_files;
use cwr_desk::{FileOutcome, Why};
use std::alloc::Global;
use std::test::Fail;
use std::thread::Threads;
use test_comparisons::same;
use test_jobs::{ACKED, Input, all_with_room, with_room};

/// Where the three files stand: the first one and a middle one of the first eight, and the ninth. Each holds one work.
const PLACES: [usize; 3] = [0, 4, 8];

/// Room for each acknowledgement.
const AMPLE: usize = 4000;

/// The number of bytes that a read of the three files gives.
const CHUNK: usize = 4;

/// The number of bytes of the acknowledgement of one work.
const ANSWER: usize = 425;

/// What fails of a file.
#[derive(Clone, Copy)]
enum Fails {
    Reader,
    Writer,
}

impl Fails {
    /// The number of places where it may fail. Behind the last of them is the end, so that it does not fail.
    fn places(self) -> usize {
        match self {
            Fails::Reader => 160,
            Fails::Writer => ANSWER + 3,
        }
    }

    /// A file of which it fails after `after` pieces or bytes.
    fn input(self, bytes: &[u8], after: usize) -> Input<'_> {
        match self {
            Fails::Reader => Input {
                chunk: CHUNK,
                fail: Some((after as u64).saturating_add(1)),
                ..with_room(bytes, AMPLE)
            },
            Fails::Writer => with_room(bytes, after),
        }
    }

    /// How that file must end. The last read of a file, after all of its pieces, finds the end.
    fn end(self, bytes: &[u8], after: usize) -> FileOutcome {
        let unread = FileOutcome::Stopped {
            handed: 0,
            why: Why::Read,
        };
        let unwritten = FileOutcome::Stopped {
            handed: 1,
            why: Why::Write { sent: after as u64 },
        };
        match self {
            Fails::Reader if after <= bytes.len().div_ceil(CHUNK) => unread,
            Fails::Writer if after < ANSWER => unwritten,
            Fails::Reader | Fails::Writer => ACKED,
        }
    }

    /// The number of pieces or bytes after which it fails, for one of the three, counted from 0, in a run. It differs
    /// from that of the other two. In as many runs as there are places, it fails in each place.
    fn after(self, run: usize, which: usize) -> usize {
        let ahead = which.saturating_mul(self.places() / 3);
        run.saturating_add(ahead) % self.places().max(1)
    }
}

/// The files, of three of which something fails.
fn inputs<'a>(
    alloc: Global,
    files: &'a [Vec<u8>],
    fails: Fails,
    run: usize,
) -> Result<Vec<Input<'a>>, Fail> {
    let mut inputs = all_with_room(alloc, files, AMPLE)?;
    for (which, place) in PLACES.iter().enumerate() {
        let input = inputs.get_mut(*place).ok_or("a file")?;
        *input = fails.input(input.bytes, fails.after(run, which));
    }
    Ok(inputs)
}

/// The three files must have ended where something of them failed.
fn expect_ends(
    files: &[Vec<u8>],
    fails: Fails,
    run: usize,
    ends: &[FileOutcome],
) -> Result<(), Fail> {
    for (which, place) in PLACES.iter().enumerate() {
        let file = files.get(*place).ok_or("a file")?;
        let end = ends.get(*place).ok_or("an outcome")?;
        let wanted = fails.end(file, fails.after(run, which));
        same(
            "a run, and how one of the three ended",
            &(run, *end),
            &(run, wanted),
        )?;
    }
    Ok(())
}

/// Works the files in both ways. `rt` starts threads, and `alloc` allocates. `files` are worked, and `fails` says what
/// fails of three of them. `run` is the number of the run, from 0.
fn expect_run<T: Threads + Sync>(
    rt: &T,
    alloc: Global,
    files: &[Vec<u8>],
    fails: Fails,
    run: usize,
) -> Result<(), Fail> {
    let what = format!(in alloc; "run {run}")?;
    let inputs = inputs(alloc, files, fails, run)?;
    let left = expect_as_in_turn(rt, alloc, &what, &Beginning::empty(100), &inputs)?;
    expect_ends(files, fails, run, &left.outcomes)
}

/// Works the files in every second run, from this one on.
fn expect_runs<T: Threads + Sync>(
    rt: &T,
    alloc: Global,
    fails: Fails,
    first: usize,
) -> Result<(), Fail> {
    let files = ten_files(alloc)?;
    for run in 0..fails.places() {
        if run % 2 == first {
            expect_run(rt, alloc, &files, fails, run)?;
        }
    }
    Ok(())
}

#[test]
fn reads_that_fail(rt: HostRuntime) -> Result<(), Fail> {
    expect_runs(&rt, rt.alloc(), Fails::Reader, 0)
}

#[test]
fn other_reads_that_fail(rt: HostRuntime) -> Result<(), Fail> {
    expect_runs(&rt, rt.alloc(), Fails::Reader, 1)
}

#[test]
fn writes_that_fail(rt: HostRuntime) -> Result<(), Fail> {
    expect_runs(&rt, rt.alloc(), Fails::Writer, 0)
}

#[test]
fn other_writes_that_fail(rt: HostRuntime) -> Result<(), Fail> {
    expect_runs(&rt, rt.alloc(), Fails::Writer, 1)
}
