//! Plain tables, for spreadsheets.

use crate::books::{
    ISWC, ONE, TITLE, Transaction, W1, W7, decisions, expect_plain_claims, expect_plain_history,
    expect_plain_works, hand_in, hand_in_all,
};
use cwr_field::filled;
use std::alloc::Global;
use std::test::Fail;
use work_registry::{Book, Fault, WorkKind};

/// The tables of the example in the profile's section on decisions.
fn expect_decisions(alloc: Global, book: &Book) -> Result<(), Fail> {
    expect_plain_claims(
        alloc,
        book,
        b"PB000000456,W7,1,1,SONG ONE,T0345246801,50.00,50.00,50.00\n\
PB000000123,W1,1,3,SONG ONE,,50.00,50.00,50.00\n",
    )?;
    expect_plain_works(alloc, book, b"1,T0345246801,100.00,100.00,100.00,2\n")
}

#[test]
fn tells_plain_decisions(rt: HostRuntime) -> Result<(), Fail> {
    let alloc = rt.alloc();
    let book = decisions(alloc)?;
    expect_decisions(alloc, &book)
}

/// The entries of a transaction with shares that have hundredths and none, and of one with a fault and more than all of
/// a right, in an empty book.
fn expect_shares(alloc: Global, book: &mut Book) -> Result<(), Fail> {
    let told = (ONE, WorkKind::Nwr, TITLE, W1, ISWC, [5007, 10, 1]);
    hand_in(alloc, book, told, &[])?;
    let wrong = Fault {
        sequence: 12,
        number: 8,
        rtype: *b"SWT",
    };
    let told = (ONE, WorkKind::Rev, TITLE, W7, None, [20000, 0, 5]);
    hand_in(alloc, book, told, &[wrong])?;
    expect_plain_history(
        alloc,
        book,
        b"1,PB000000123,NWR,W1,SONG ONE,T0345246801,50.07,0.10,0.01,AS,1,1,\n\
2,PB000000123,REV,W7,SONG ONE,,200.00,0.00,0.05,RJ,,,12:J8\n",
    )
}

/// Shares stand in per cent, with two places.
#[test]
fn tells_shares_in_per_cent(rt: HostRuntime) -> Result<(), Fail> {
    let alloc = rt.alloc();
    expect_shares(alloc, &mut Book::new(alloc, 100))
}

/// The claims of transactions in an empty book, whose texts a spreadsheet would take for formulas, and of some that it
/// would not.
fn expect_formulas(alloc: Global, book: &mut Book) -> Result<(), Fail> {
    let nwr = WorkKind::Nwr;
    let transactions: [Transaction; 4] = [
        (
            *b"=1+1       ",
            nwr,
            filled(b"=SUM(A1)"),
            filled(b"+1"),
            None,
            [0; 3],
        ),
        (
            *b"-1         ",
            nwr,
            filled(b"@A, B"),
            filled(b"A=B"),
            None,
            [0; 3],
        ),
        (ONE, nwr, filled(b" =1"), filled(b"- 1"), None, [0; 3]),
        (ONE, nwr, filled(b""), filled(b"A  B"), None, [0; 3]),
    ];
    hand_in_all(alloc, book, &transactions)?;
    expect_plain_claims(
        alloc,
        book,
        b"'=1+1,'+1,1,1,'=SUM(A1),,0.00,0.00,0.00\n\
'-1,A=B,2,1,\"'@A, B\",,0.00,0.00,0.00\n\
PB000000123,'- 1,3,1, =1,,0.00,0.00,0.00\n\
PB000000123,A  B,4,1,,,0.00,0.00,0.00\n",
    )
}

/// What begins as a formula has an apostrophe before it. Blanks within a text, or before it, stay.
#[test]
fn guards_formulas(rt: HostRuntime) -> Result<(), Fail> {
    let alloc = rt.alloc();
    expect_formulas(alloc, &mut Book::new(alloc, 100))
}
