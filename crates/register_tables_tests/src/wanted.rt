//! The rows that are wanted of tables.

use crate::books::{
    ONE, OTHER, TITLE, W1, W7, expect_claims, expect_history, expect_works, hand_in,
    hand_in_decisions,
};
use register_tables::Wanted;
use std::alloc::Global;
use std::test::Fail;
use work_registry::{Book, Status, WorkKind};

/// Hands in the decisions, and a second work.
fn hand_in_two_works(alloc: Global, book: &mut Book) -> Result<(), Fail> {
    hand_in_decisions(alloc, book)?;
    let told = (OTHER, WorkKind::Nwr, TITLE, W1, None, [300; 3]);
    hand_in(alloc, book, told, &[])
}

/// The book of both works.
fn two_works(alloc: Global) -> Result<Book, Fail> {
    let mut book = Book::new(alloc, 100);
    hand_in_two_works(alloc, &mut book)?;
    Ok(book)
}

const SECOND: &[u8] =
    b"PB000000456,W1            ,2,1,SONG ONE                                                    ,,300,300,300\n";

/// The claims of a work, of a number and of a submitter.
fn expect_narrow_claims(alloc: Global, book: &Book) -> Result<(), Fail> {
    let mut wanted = Wanted::all();
    wanted.work = Some(2);
    expect_claims(alloc, book, &wanted, SECOND)?;
    wanted.number = Some(W7);
    expect_claims(alloc, book, &wanted, b"")?;
    wanted.work = None;
    wanted.number = Some(W1);
    wanted.submitter = Some(OTHER);
    expect_claims(alloc, book, &wanted, SECOND)?;
    wanted.submitter = Some(ONE);
    expect_claims(
        alloc,
        book,
        &wanted,
        b"PB000000123,W1            ,1,3,SONG ONE                                                    ,,5000,5000,5000\n",
    )
}

#[test]
fn narrows_claims(rt: HostRuntime) -> Result<(), Fail> {
    let alloc = rt.alloc();
    let book = two_works(alloc)?;
    expect_narrow_claims(alloc, &book)
}

/// The second work, and a third that does not exist.
fn expect_narrow_works(alloc: Global, book: &Book) -> Result<(), Fail> {
    let mut wanted = Wanted::all();
    wanted.work = Some(2);
    expect_works(alloc, book, &wanted, b"2,,300,300,300,1\n")?;
    wanted.work = Some(3);
    expect_works(alloc, book, &wanted, b"")
}

#[test]
fn narrows_works(rt: HostRuntime) -> Result<(), Fail> {
    let alloc = rt.alloc();
    let book = two_works(alloc)?;
    expect_narrow_works(alloc, &book)
}

/// The entries of a reply, of a submitter and of a work.
fn expect_narrow_history(alloc: Global, book: &Book) -> Result<(), Fail> {
    let mut wanted = Wanted::all();
    wanted.status = Some(Status::Conflict);
    expect_history(
        alloc,
        book,
        &wanted,
        b"2,PB000000456,NWR,W7            ,SONG ONE                                                    ,T0345246801,5000,5000,5000,CO,1,,\n\
6,PB000000123,REV,W1            ,SONG ONE                                                    ,T0000000010,5000,5000,5000,CO,1,,\n",
    )?;
    wanted.submitter = Some(OTHER);
    expect_history(
        alloc,
        book,
        &wanted,
        b"2,PB000000456,NWR,W7            ,SONG ONE                                                    ,T0345246801,5000,5000,5000,CO,1,,\n",
    )?;
    wanted.status = Some(Status::Rejected);
    wanted.submitter = None;
    expect_history(
        alloc,
        book,
        &wanted,
        b"7,PB000000123,REV,W1            ,SONG ONE                                                    ,,5000,5000,5000,RJ,,,0:J4\n",
    )?;
    wanted.work = Some(1);
    expect_history(alloc, book, &wanted, b"")
}

/// An entry keeps its index if others are left out. A rejection names no work.
#[test]
fn narrows_the_history(rt: HostRuntime) -> Result<(), Fail> {
    let alloc = rt.alloc();
    let book = two_works(alloc)?;
    expect_narrow_history(alloc, &book)
}
