//! Claims that are revised.

use crate::books::{ISWC, ONE, OTHER, W1, accepted, call, call_with_fault, expect_reply};
use std::alloc::Global;
use std::test::Fail;
use test_comparisons::same;
use work_registry::{Book, Claim, Reply, WorkKind};

const W7: [u8; 14] = *b"W7            ";

/// One submitter revises its claim to the work, and another one claims half of it. `book` takes the calls, and `alloc`
/// allocates. `control` is what the first submitter then claims of each right. `first` and `next` are the replies to
/// both calls.
fn expect_both(
    book: &mut Book,
    alloc: Global,
    control: u64,
    first: Reply,
    next: Reply,
) -> Result<(), Fail> {
    let one = call(alloc, ONE, WorkKind::Rev, W1, ISWC, control)?;
    expect_reply(book, one, first)?;
    let other = call(alloc, OTHER, WorkKind::Nwr, W7, ISWC, 5000)?;
    expect_reply(book, other, next)
}

/// One submitter gives up a part of its claim, so that another's is accepted at its second try.
pub(crate) fn revise(book: &mut Book, alloc: Global) -> Result<(), Fail> {
    let conflict = Reply::Conflict { work: 1 };
    expect_both(book, alloc, 6000, accepted(1, 1), conflict)?;
    expect_both(book, alloc, 5000, accepted(1, 2), accepted(1, 1))
}

/// The claim of the first submitter under a number.
fn expect_claim(book: &Book, number: &[u8; 14], wanted: Option<Claim>) -> Result<(), Fail> {
    same("a claim", &book.claim(&ONE, number), &wanted)
}

fn expect_claims(book: &mut Book, alloc: Global) -> Result<(), Fail> {
    revise(book, alloc)?;
    let claim = Claim {
        work: 1,
        version: 2,
        control: [5000; 3],
    };
    expect_claim(book, &W1, Some(claim))?;
    expect_claim(book, &W7, None)?;
    same("what all control", &book.control_of(1), &[10000; 3])
}

#[test]
fn claims_of_a_revised_work(rt: HostRuntime) -> Result<(), Fail> {
    let mut book = Book::new(rt.alloc(), 100);
    expect_claims(&mut book, rt.alloc())
}

fn expect_one_name(book: &Book) -> Result<(), Fail> {
    same("the ISWC's work", &book.work_of_iswc(34524680), &Some(1))?;
    same("another's", &book.work_of_iswc(1), &None)
}

fn expect_names(book: &mut Book, alloc: Global) -> Result<(), Fail> {
    revise(book, alloc)?;
    expect_one_name(book)?;
    same("entries", &book.len(), &4)?;
    same("the limit", &book.limit(), &100)
}

#[test]
fn names_of_a_revised_work(rt: HostRuntime) -> Result<(), Fail> {
    let mut book = Book::new(rt.alloc(), 100);
    expect_names(&mut book, rt.alloc())
}

fn expect_iswcs(book: &mut Book, alloc: Global) -> Result<(), Fail> {
    revise(book, alloc)?;
    let unnamed = call(alloc, ONE, WorkKind::Rev, W1, None, 5000)?;
    expect_reply(book, unnamed, accepted(1, 3))?;
    let renamed = call(alloc, ONE, WorkKind::Rev, W1, Some(1), 5000)?;
    expect_reply(book, renamed, Reply::Conflict { work: 1 })?;
    expect_one_name(book)
}

/// A revision without an ISWC keeps the work's, and one with another is in conflict.
#[test]
fn iswcs_of_a_revised_work(rt: HostRuntime) -> Result<(), Fail> {
    let mut book = Book::new(rt.alloc(), 100);
    expect_iswcs(&mut book, rt.alloc())
}

fn expect_wrong_iswc(book: &mut Book, alloc: Global) -> Result<(), Fail> {
    revise(book, alloc)?;
    expect_reply(book, call_with_fault(alloc)?, Reply::Rejected)
}

/// A revision with a wrong check digit is rejected.
#[test]
fn wrong_iswc_of_a_revised_work(rt: HostRuntime) -> Result<(), Fail> {
    let mut book = Book::new(rt.alloc(), 100);
    expect_wrong_iswc(&mut book, rt.alloc())
}
