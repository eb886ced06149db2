//! Claims that are shared, in conflict, and registered twice.

use crate::books::{ISWC, ONE, OTHER, W1, accepted, call, controlled, expect_reply, reply};
use std::alloc::Global;
use std::test::Fail;
use test_comparisons::same;
use work_registry::{Book, Reply, WorkKind};

const CONFLICT: Reply = Reply::Conflict { work: 1 };

/// The claim of one submitter to half of a work, and then another submitter's. `book` takes the calls, and `alloc`
/// allocates. `iswc` is that of the work, if it has one. `control` is what the other submitter claims of each right,
/// and `wanted` the reply to that.
fn expect_after_half(
    book: &mut Book,
    alloc: Global,
    iswc: Option<u64>,
    control: [u64; 3],
    wanted: Reply,
) -> Result<(), Fail> {
    reply(book, call(alloc, ONE, WorkKind::Nwr, W1, iswc, 5000)?)?;
    let next = controlled(alloc, OTHER, WorkKind::Nwr, W1, iswc, control)?;
    expect_reply(book, next, wanted)
}

/// The reply to another submitter's claim, with this control, to a work of which one owns half.
fn expect_shared(alloc: Global, control: [u64; 3], wanted: Reply) -> Result<(), Fail> {
    let mut book = Book::new(alloc, 100);
    expect_after_half(&mut book, alloc, ISWC, control, wanted)
}

/// Two submitters that name one work by its ISWC share it, up to the whole and its tolerance.
#[test]
fn shares_of_one_work(rt: HostRuntime) -> Result<(), Fail> {
    let alloc = rt.alloc();
    expect_shared(alloc, [5006; 3], accepted(1, 1))?;
    expect_shared(alloc, [5007; 3], CONFLICT)?;
    expect_shared(alloc, [5007, 0, 0], CONFLICT)?;
    expect_shared(alloc, [0, 5007, 0], CONFLICT)?;
    expect_shared(alloc, [0, 0, 5007], CONFLICT)
}

/// All submitters together control this share of each right of a work.
fn expect_control(book: &Book, work: u32, control: u64) -> Result<(), Fail> {
    same("what all control", &book.control_of(work), &[control; 3])
}

/// Two works of two submitters.
fn expect_two_works(book: &Book) -> Result<(), Fail> {
    expect_control(book, 0, 0)?;
    expect_control(book, 1, 5000)?;
    expect_control(book, 2, 5007)?;
    expect_control(book, 3, 0)
}

fn expect_two_claims(book: &mut Book, alloc: Global) -> Result<(), Fail> {
    expect_after_half(book, alloc, None, [5007; 3], accepted(2, 1))?;
    expect_two_works(book)
}

/// Without an ISWC they claim two works, under one number that is each submitter's own.
#[test]
fn numbers_of_two_submitters(rt: HostRuntime) -> Result<(), Fail> {
    let mut book = Book::new(rt.alloc(), 100);
    expect_two_claims(&mut book, rt.alloc())
}

fn expect_duplicate(book: &mut Book, alloc: Global) -> Result<(), Fail> {
    let first = call(alloc, ONE, WorkKind::Nwr, W1, None, 10000)?;
    expect_reply(book, first, accepted(1, 1))?;
    let again = call(alloc, ONE, WorkKind::Nwr, W1, None, 10000)?;
    expect_reply(book, again, Reply::Duplicate { work: 1 })?;
    expect_control(book, 1, 10000)
}

/// One submitter's second registration under a number is a duplicate.
#[test]
fn one_number_twice(rt: HostRuntime) -> Result<(), Fail> {
    let mut book = Book::new(rt.alloc(), 100);
    expect_duplicate(&mut book, rt.alloc())
}
