//! The number of entries that a book takes, and what they are.

ghost use Rattle.std.specs.Prelude.{◌≤◌};

use crate::books::{
    ONE, Said, W1, accepted, call, call_with_fault, expect_entry, expect_reply, reply,
};
use std::alloc::Global;
use std::test::Fail;
use test_comparisons::same;
use work_registry::{Book, Call, Fault, HandInError, Reply, WorkKind};

const W2: [u8; 14] = *b"W2            ";

const W3: [u8; 14] = *b"W3            ";

fn whole(alloc: Global, number: [u8; 14]) -> Result<Call, Fail> {
    call(alloc, ONE, WorkKind::Nwr, number, None, 10000)
}

/// A full book must hand the call for this number of a work back.
fn expect_full(book: &mut Book, call: Call, number: [u8; 14]) -> Result<(), Fail> {
    let answer = book.apply(1, call);
    let refused = answer.err().ok_or("a full book took a call")?;
    same("why it is refused", &refused.why, &HandInError::Full)?;
    same("the call", &refused.call.number(), &number)
}

/// Fills a book of two entries, which then hands the third call back.
fn expect_two_and_no_more(book: &mut Book, alloc: Global) -> Result<(), Fail> {
    expect_reply(book, whole(alloc, W1)?, accepted(1, 1))?;
    expect_reply(book, whole(alloc, W2)?, accepted(2, 1))?;
    let third = whole(alloc, W3)?;
    expect_full(book, third, W3)?;
    same("entries", &book.len(), &2)
}

#[test]
fn full_book(rt: HostRuntime) -> Result<(), Fail> {
    let mut book = Book::new(rt.alloc(), 2);
    expect_two_and_no_more(&mut book, rt.alloc())
}

/// The book must have these two entries, and no others.
fn expect_two(book: &Book, first: &Said, second: &Said) -> Result<(), Fail> {
    let [one, other] = book.history() else {
        return Err(Fail::from("not two entries"));
    };
    expect_entry(one, first)?;
    expect_entry(other, second)
}

/// A rejected call, and then an accepted one.
fn expect_rejected_and_taken(book: &Book) -> Result<(), Fail> {
    let faults = [Fault {
        sequence: 0,
        number: 4,
        rtype: *b"REV",
    }];
    let rejected = Said {
        session: 1,
        number: W1,
        faults: &faults,
        reply: Reply::Rejected,
    };
    let taken = Said {
        session: 1,
        number: W2,
        faults: &[],
        reply: accepted(1, 1),
    };
    expect_two(book, &rejected, &taken)
}

fn expect_entries(book: &mut Book, alloc: Global) -> Result<(), Fail> {
    reply(book, call_with_fault(alloc)?)?;
    reply(book, whole(alloc, W2)?)?;
    expect_rejected_and_taken(book)
}

/// Each call that is taken is an entry, a rejected one too.
#[test]
fn entries_of_a_book(rt: HostRuntime) -> Result<(), Fail> {
    let mut book = Book::new(rt.alloc(), 2);
    expect_entries(&mut book, rt.alloc())
}

/// Hands a call in for a session, after which the book must be an opening, or must not.
fn expect_opening(book: &mut Book, call: Call, session: u32, opening: bool) -> Result<(), Fail>
    requires { session ≤ 63 }
{
    let taken = book.apply(session, call).is_ok();
    same("a call is taken", &taken, &true)?;
    same("the book is an opening", &book.is_opening(), &opening)
}

fn expect_openings(book: &mut Book, alloc: Global) -> Result<(), Fail> {
    same("an empty book is an opening", &book.is_opening(), &true)?;
    expect_opening(book, whole(alloc, W1)?, 0, true)?;
    expect_opening(book, whole(alloc, W1)?, 63, false)?;
    expect_opening(book, whole(alloc, W1)?, 0, false)
}

/// A book is an opening as long as every entry is of session 0.
#[test]
fn openings(rt: HostRuntime) -> Result<(), Fail> {
    let mut book = Book::new(rt.alloc(), 3);
    expect_openings(&mut book, rt.alloc())
}

/// It has three entries for the first work, all of the opening, and the limit that it had.
fn expect_reopened(book: &Book) -> Result<(), Fail> {
    same("the reopened book is an opening", &book.is_opening(), &true)?;
    same("the limit", &book.limit(), &3)?;
    same("entries", &book.len(), &3)?;
    for entry in book.history() {
        same("a session", &entry.session(), &0)?;
        same("a number", &entry.call().number(), &W1)?;
    }
    Ok(())
}

/// A book that is reopened has the same entries, all of session 0.
#[test]
fn reopened(rt: HostRuntime) -> Result<(), Fail> {
    let mut book = Book::new(rt.alloc(), 3);
    expect_openings(&mut book, rt.alloc())?;
    expect_reopened(&book.reopened())
}
