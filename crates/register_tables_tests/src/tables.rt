//! The tables of the example in the profile's section on decisions, and of books with no work and with two.

use crate::books::{
    ISWC, ONE, TITLE, Transaction, W1, W7, decisions, expect_claims, expect_history, expect_works,
    hand_in_all,
};
use register_tables::Wanted;
use std::alloc::Global;
use std::test::Fail;
use work_registry::{Book, WorkKind};

/// Of three accepted transactions of one key the last is the claim, after that of the other submitter.
#[test]
fn tells_current_claims(rt: HostRuntime) -> Result<(), Fail> {
    let alloc = rt.alloc();
    let book = decisions(alloc)?;
    expect_claims(
        alloc,
        &book,
        &Wanted::all(),
        b"PB000000456,W7            ,1,1,SONG ONE                                                    ,T0345246801,5000,5000,5000\n\
PB000000123,W1            ,1,3,SONG ONE                                                    ,,5000,5000,5000\n",
    )
}

#[test]
fn tells_a_work(rt: HostRuntime) -> Result<(), Fail> {
    let alloc = rt.alloc();
    let book = decisions(alloc)?;
    expect_works(
        alloc,
        &book,
        &Wanted::all(),
        b"1,T0345246801,10000,10000,10000,2\n",
    )
}

#[test]
fn tells_every_entry(rt: HostRuntime) -> Result<(), Fail> {
    let alloc = rt.alloc();
    let book = decisions(alloc)?;
    expect_history(
        alloc,
        &book,
        &Wanted::all(),
        b"1,PB000000123,REV,W1            ,SONG ONE                                                    ,T0345246801,6000,6000,6000,AS,1,1,\n\
2,PB000000456,NWR,W7            ,SONG ONE                                                    ,T0345246801,5000,5000,5000,CO,1,,\n\
3,PB000000123,REV,W1            ,SONG ONE                                                    ,T0345246801,5000,5000,5000,AS,1,2,\n\
4,PB000000456,NWR,W7            ,SONG ONE                                                    ,T0345246801,5000,5000,5000,AS,1,1,\n\
5,PB000000123,REV,W1            ,SONG ONE                                                    ,,5000,5000,5000,AS,1,3,\n\
6,PB000000123,REV,W1            ,SONG ONE                                                    ,T0000000010,5000,5000,5000,CO,1,,\n\
7,PB000000123,REV,W1            ,SONG ONE                                                    ,,5000,5000,5000,RJ,,,0:J4\n",
    )
}

/// No table of a book has a line after its header.
fn expect_no_lines(alloc: Global, book: &Book) -> Result<(), Fail> {
    expect_claims(alloc, book, &Wanted::all(), b"")?;
    expect_works(alloc, book, &Wanted::all(), b"")?;
    expect_history(alloc, book, &Wanted::all(), b"")
}

#[test]
fn tells_of_an_empty_book(rt: HostRuntime) -> Result<(), Fail> {
    let alloc = rt.alloc();
    let book = Book::new(alloc, 1);
    expect_no_lines(alloc, &book)
}

/// The works of four transactions in an empty book, and their claims.
fn expect_both_works(alloc: Global, book: &mut Book) -> Result<(), Fail> {
    let transactions: [Transaction; 4] = [
        (ONE, WorkKind::Nwr, TITLE, W1, None, [1, 20, 300]),
        (ONE, WorkKind::Nwr, TITLE, W7, None, [0; 3]),
        (ONE, WorkKind::Rev, TITLE, W1, ISWC, [4, 50, 600]),
        (ONE, WorkKind::Rev, TITLE, W1, None, [7, 80, 900]),
    ];
    hand_in_all(alloc, book, &transactions)?;
    expect_works(
        alloc,
        book,
        &Wanted::all(),
        b"1,T0345246801,7,80,900,1\n2,,0,0,0,1\n",
    )?;
    expect_claims(
        alloc,
        book,
        &Wanted::all(),
        b"PB000000123,W7            ,2,1,SONG ONE                                                    ,,0,0,0\n\
PB000000123,W1            ,1,3,SONG ONE                                                    ,,7,80,900\n",
    )
}

/// A work of which nothing is controlled is listed, and the one before it too, whose ISWC came with its second version.
/// The three rights stand in their columns.
#[test]
fn tells_each_work(rt: HostRuntime) -> Result<(), Fail> {
    let alloc = rt.alloc();
    expect_both_works(alloc, &mut Book::new(alloc, 100))
}
