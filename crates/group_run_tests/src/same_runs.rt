//! Files worked in one run, in both ways, and what it leaves compared with what a chain of runs leaves.
ghost use Rattle.std.specs.Prelude.{◌≤◌};

use crate::told::Told;
use byte_streams::{Feed, Room, Sink, Source};
use cwr_desk::{Book, Job};
use std::alloc::Global;
use std::test::Fail;
use std::thread::Threads;
use test_comparisons::{same, same_bytes, same_lists};
use test_jobs::{Chain, Input, MemoryRun, run_all, run_all_in_turn, run_chain};

/// The writers of two runs must have taken the same bytes, and the same readers and writers must have failed.
fn expect_same_jobs(
    what: &str,
    found: &[Job<Feed, Room>],
    wanted: &[Job<Feed, Room>],
) -> Result<(), Fail> {
    for (one, other) in found.iter().zip(wanted) {
        same_bytes(what, one.writer.bytes(), other.writer.bytes())?;
        let failed = (one.reader.failed(), one.writer.failed());
        same(
            what,
            &failed,
            &(other.reader.failed(), other.writer.failed()),
        )?;
    }
    same(what, &found.len(), &wanted.len())
}

/// All entries of a book must be of the opening, and it must have this register.
fn expect_book(alloc: Global, what: &str, book: &Book, register: &[u8]) -> Result<(), Fail> {
    for entry in book.history() {
        same(what, &entry.session(), &0)?;
    }
    same(what, &book.is_opening(), &true)?;
    same_bytes(what, &book.write_register(alloc)?, register)
}

/// A run must have left what a chain of runs left.
fn expect_as_chain(alloc: Global, what: &str, run: &MemoryRun, chain: &Chain) -> Result<(), Fail> {
    same_lists(what, &run.outcomes, &chain.outcomes)?;
    expect_same_jobs(what, &run.jobs, &chain.jobs)?;
    expect_book(alloc, what, &run.book, &chain.register)
}

/// Works files on one thread, which must leave what the chain left.
fn expect_in_turn(alloc: Global, limit: u32, inputs: &[Input], chain: &Chain) -> Result<(), Fail>
    requires least { 1 ≤ limit }
    requires most { limit ≤ 10000 }
{
    let told = Told::nothing(&chain.outcomes);
    let run = run_all_in_turn(alloc, Book::new(alloc, limit), inputs, &told)?;
    expect_as_chain(alloc, "in turn", &run, chain)?;
    told.expect_all()
}

/// Works files on threads, which must leave what the chain left.
fn expect_on_threads<T: Threads + Sync>(
    rt: &T,
    alloc: Global,
    limit: u32,
    inputs: &[Input],
    chain: &Chain,
) -> Result<(), Fail>
    requires least { 1 ≤ limit }
    requires most { limit ≤ 10000 }
{
    let told = Told::nothing(&chain.outcomes);
    let run = run_all(rt, alloc, Book::new(alloc, limit), inputs, &told)?;
    expect_as_chain(alloc, "on threads", &run, chain)?;
    told.expect_all()
}

/// Works files in a chain of runs, and in one run, in both ways. All must leave the same, and what the chain left is
/// returned. `rt` starts threads, and `alloc` allocates. Each book has `limit` entries, and `inputs` are worked.
pub(crate) fn expect_as_chained<'a, T: Threads + Sync>(
    rt: &T,
    alloc: Global,
    limit: u32,
    inputs: &[Input<'a>],
) -> Result<Chain<'a>, Fail>
    requires least { 1 ≤ limit }
    requires most { limit ≤ 10000 }
{
    let chain = run_chain(alloc, limit, inputs)?;
    expect_in_turn(alloc, limit, inputs, &chain)?;
    expect_on_threads(rt, alloc, limit, inputs, &chain)?;
    Ok(chain)
}
