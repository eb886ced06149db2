//! Files worked in both ways, and what both leave compared.

use crate::beginnings::Beginning;
use byte_streams::{Room, Sink, Source};
use cwr_desk::{Book, Job};
use std::alloc::Global;
use std::test::Fail;
use std::thread::Threads;
use test_comparisons::{same, same_bytes, same_lists};
use test_jobs::{Input, MemoryRun, run_in_order, run_in_turn};

/// The writers of two runs must have taken the same bytes, and the same readers and writers must have failed.
fn expect_same_jobs<R: Source>(
    what: &str,
    found: &[Job<R, Room>],
    wanted: &[Job<R, Room>],
) -> Result<(), Fail> {
    for (one, other) in found.iter().zip(wanted) {
        same_bytes(what, one.writer.bytes(), other.writer.bytes())?;
        let failed = (one.reader.failed(), one.writer.failed());
        same(
            what,
            &failed,
            &(other.reader.failed(), other.writer.failed()),
        )?;
    }
    same(what, &found.len(), &wanted.len())
}

/// Two books must have the same sessions with the same replies, the same limit and the same register.
pub(crate) fn expect_same_books(
    alloc: Global,
    what: &str,
    found: &Book,
    wanted: &Book,
) -> Result<(), Fail> {
    for (one, other) in found.history().iter().zip(wanted.history()) {
        let entry = (one.session(), one.reply());
        same(what, &entry, &(other.session(), other.reply()))?;
    }
    same(what, &found.limit(), &wanted.limit())?;
    let register = found.write_register(alloc)?;
    same_bytes(what, &register, &wanted.write_register(alloc)?)
}

/// Two runs must have left the same.
fn expect_same_runs(
    alloc: Global,
    what: &str,
    found: &MemoryRun,
    wanted: &MemoryRun,
) -> Result<(), Fail> {
    same_lists(what, &found.outcomes, &wanted.outcomes)?;
    expect_same_jobs(what, &found.jobs, &wanted.jobs)?;
    expect_same_books(alloc, what, &found.book, &wanted.book)
}

/// Works files in their order, which must leave what they left in turn. `rt` starts threads, and `alloc` allocates.
/// `what` names the test, `beginning` gives the run its book, and `inputs` are worked. `wanted` is what they left.
fn expect_in_order<T: Threads + Sync>(
    rt: &T,
    alloc: Global,
    what: &str,
    beginning: &Beginning,
    inputs: &[Input],
    wanted: &MemoryRun,
) -> Result<(), Fail> {
    let found = run_in_order(rt, alloc, beginning.book(alloc)?, inputs)?;
    expect_same_runs(alloc, what, &found, wanted)
}

/// Works files in turn and in their order. Both must leave the same, which is returned. `rt` starts threads, and
/// `alloc` allocates. `what` names the test, `beginning` gives each run its book, and `inputs` are worked.
pub(crate) fn expect_as_in_turn<'a, T: Threads + Sync>(
    rt: &T,
    alloc: Global,
    what: &str,
    beginning: &Beginning,
    inputs: &[Input<'a>],
) -> Result<MemoryRun<'a>, Fail> {
    let wanted = run_in_turn(alloc, beginning.book(alloc)?, inputs)?;
    expect_in_order(rt, alloc, what, beginning, inputs, &wanted)?;
    Ok(wanted)
}
