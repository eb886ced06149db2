//! Many calls, with the replies that the plain registry gives.

use crate::books::{call, expect_reply};
use crate::plain;
use std::alloc::Global;
use std::test::Fail;
use test_comparisons::same;
use work_registry::{Book, Call, WorkKind};

fn digit(value: u64) -> u8 {
    b'0' + (value % 10) as u8
}

/// `W` and a number below 50.
fn number(value: u64) -> [u8; 14] {
    let mut text = *b"W             ";
    if value < 10 {
        text[1] = digit(value);
    } else {
        text[1] = digit(value / 10);
        text[2] = digit(value);
    }
    text
}

/// `PB00000000` and a digit.
fn submitter(value: u64) -> [u8; 11] {
    let mut text = *b"PB000000000";
    text[10] = digit(value);
    text
}

/// The call of a number of the sequence.
fn call_of(alloc: Global, x: u64) -> Result<Call, Fail> {
    let kind = if x % 2 == 0 {
        WorkKind::Nwr
    } else {
        WorkKind::Rev
    };
    let iswc = if x % 7 == 0 { None } else { Some(x % 20) };
    call(
        alloc,
        submitter(x % 3),
        kind,
        number(x % 50),
        iswc,
        x % 10007,
    )
}

/// The book must answer for a submitter's number of a work as its history does.
fn expect_claim(book: &Book, submitter: &[u8; 11], number: &[u8; 14]) -> Result<(), Fail> {
    let wanted = plain::claim(book.history(), submitter, number);
    same("a claim", &book.claim(submitter, number), &wanted)
}

fn compare_claims(book: &Book) -> Result<(), Fail> {
    for sender in 0..4 {
        for value in 0..51 {
            expect_claim(book, &submitter(sender), &number(value))?;
        }
    }
    Ok(())
}

fn compare_iswcs(book: &Book) -> Result<(), Fail> {
    for iswc in 0..21 {
        let wanted = plain::work_of_iswc(book.history(), iswc);
        same("the work of an ISWC", &book.work_of_iswc(iswc), &wanted)?;
    }
    Ok(())
}

/// There is at most one work for each of the 150 keys.
fn compare_works(book: &Book) -> Result<(), Fail> {
    for work in 0..152 {
        let wanted = plain::control_of(book.history(), work, None);
        same("what all control", &book.control_of(work), &wanted)?;
    }
    Ok(())
}

fn compare(book: &Book) -> Result<(), Fail> {
    compare_claims(book)?;
    compare_iswcs(book)?;
    compare_works(book)
}

/// Hands a call in, which must have the reply that the history gives.
fn expect_plain_reply(book: &mut Book, call: Call) -> Result<(), Fail> {
    let wanted = plain::reply(book.history(), &call);
    expect_reply(book, call, wanted)
}

/// Hands the calls of a sequence in. After every 100th the book must answer as the history does.
fn fill(book: &mut Book, alloc: Global, calls: u32) -> Result<(), Fail> {
    let mut x: u64 = 1;
    for before in 0..calls {
        x = x.wrapping_mul(48271) % 2147483647;
        expect_plain_reply(book, call_of(alloc, x)?)?;
        if before % 100 == 99 {
            compare(book)?;
        }
    }
    same("entries", &book.len(), &10000)
}

/// Indexes and running totals answer as the history does.
#[test]
fn indexes_and_history(rt: HostRuntime) -> Result<(), Fail> {
    let mut book = Book::new(rt.alloc(), 10000);
    fill(&mut book, rt.alloc(), 10000)
}
