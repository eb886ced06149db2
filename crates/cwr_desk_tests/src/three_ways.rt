//! One file alone, in turn, and at the desk.

use byte_streams::{Feed, Room};
use cwr_desk::{Book, FileOutcome, OpenGate, Reply, acknowledge};
use std::alloc::Global;
use std::sync::Wait;
use std::test::Fail;
use std::thread::Threads;
use test_comparisons::{same, same_bytes};
use test_files::stamp;
use test_jobs::{expect_run, run_at_desk, run_in_turn, whole};

/// A file that was worked alone ended like this, and this was written.
pub(crate) fn expect_left(
    outcome: FileOutcome,
    sink: &Room,
    end: FileOutcome,
    written: &[u8],
) -> Result<(), Fail> {
    same("how the file ended", &outcome, &end)?;
    same_bytes("what was written", sink.bytes(), written)
}

/// Works a file alone. `alloc` allocates, `input` is the file, and the writer takes `capacity` bytes. `end` is how it
/// must end, and `written` what must be written.
fn expect_alone(
    alloc: Global,
    input: &[u8],
    capacity: usize,
    end: FileOutcome,
    written: &[u8],
) -> Result<(), Fail> {
    let stamp = stamp()?;
    let mut reader = Feed::new(input, 4096, None);
    let mut sink = Room::new(alloc, capacity, true)?;
    let outcome = acknowledge(alloc, &mut reader, &mut sink, &stamp);
    expect_left(outcome, &sink, end, written)
}

/// Works a file into an empty book, as a job in turn. `alloc` allocates, and `input` is the file. `end` is how it must
/// end, `written` what must be written, and `replies` those that the book must hold.
fn expect_in_turn(
    alloc: Global,
    input: &[u8],
    end: FileOutcome,
    written: &[u8],
    replies: &[Reply],
) -> Result<(), Fail> {
    let run = run_in_turn(alloc, Book::new(alloc, 100), &[whole(input)])?;
    expect_run(&run, end, written, replies)
}

/// The same at the desk. `rt` starts threads and waits, `alloc` allocates, and `input` is the file. `end` is how it
/// must end, `written` what must be written, and `replies` those that the book must hold.
fn expect_at_desk<T: Threads + Wait + Sync>(
    rt: &T,
    alloc: Global,
    input: &[u8],
    end: FileOutcome,
    written: &[u8],
    replies: &[Reply],
) -> Result<(), Fail> {
    let run = run_at_desk(rt, alloc, Book::new(alloc, 100), &[whole(input)], &OpenGate)?;
    expect_run(&run, end, written, replies)
}

/// Works a file into an empty book, alone, as a job in turn, and at the desk. `rt` starts threads and waits, `alloc`
/// allocates, and `input` is the file. The writer of the file that is worked alone takes `capacity` bytes. `end` is how
/// it must end each time, `written` what must be written, and `replies` those that the two books must hold.
pub(crate) fn expect_three_ways<T: Threads + Wait + Sync>(
    rt: &T,
    alloc: Global,
    input: &[u8],
    capacity: usize,
    end: FileOutcome,
    written: &[u8],
    replies: &[Reply],
) -> Result<(), Fail> {
    expect_alone(alloc, input, capacity, end, written)?;
    expect_in_turn(alloc, input, end, written, replies)?;
    expect_at_desk(rt, alloc, input, end, written, replies)
}
