//! Texts that CSV must quote, bytes outside ASCII, and faults.

use crate::books::{ONE, TITLE, W1, W7, expect_claims, expect_history, hand_in};
use register_tables::Wanted;
use std::alloc::{AllocError, Global};
use std::test::Fail;
use work_registry::{Book, Fault, WorkKind};

/// A title with a comma and quotes, and a byte that is no UTF-8.
const SAID: [u8; 60] = *b"SAY, \"CAF\xc9\"                                                 ";

/// Its field.
const QUOTED: &[u8] = b"\"SAY, \"\"CAF\xc9\"\"                                                 \"";

/// Appends the line of its claim.
fn put_line(line: &mut Vec<u8>) -> Result<(), AllocError> {
    line.extend_from_slice(b"PB000000123,\"W,1           \",1,1,")?;
    line.extend_from_slice(QUOTED)?;
    line.extend_from_slice(b",,10000,10000,10000\n")
}

/// That line must be the one claim of an empty book, once its transaction is handed in.
fn expect_line(alloc: Global, book: &mut Book) -> Result<(), Fail> {
    let told = (
        ONE,
        WorkKind::Nwr,
        SAID,
        *b"W,1           ",
        None,
        [10000; 3],
    );
    hand_in(alloc, book, told, &[])?;
    let mut line = Vec::new(alloc);
    put_line(&mut line)?;
    expect_claims(alloc, book, &Wanted::all(), &line)
}

#[test]
fn quotes_where_needed(rt: HostRuntime) -> Result<(), Fail> {
    let alloc = rt.alloc();
    expect_line(alloc, &mut Book::new(alloc, 100))
}

/// The entries of a transaction with three faults, and of one with one, in an empty book.
fn expect_faults(alloc: Global, book: &mut Book) -> Result<(), Fail> {
    let faults = [(0, 4, *b"NWR"), (0, 15, *b"NWR"), (12, 8, *b"SWT")];
    let faults = faults.map(|(sequence, number, rtype)| Fault {
        sequence,
        number,
        rtype,
    });
    let told = (ONE, WorkKind::Nwr, TITLE, W1, None, [20000, 0, 5]);
    hand_in(alloc, book, told, &faults)?;
    let told = (ONE, WorkKind::Nwr, TITLE, W7, None, [0; 3]);
    hand_in(alloc, book, told, &faults[2..])?;
    expect_history(
        alloc,
        book,
        &Wanted::all(),
        b"1,PB000000123,NWR,W1            ,SONG ONE                                                    ,,20000,0,5,RJ,,,0:J4 0:J15 12:J8\n\
2,PB000000123,NWR,W7            ,SONG ONE                                                    ,,0,0,0,RJ,,,12:J8\n",
    )
}

/// Faults stand with a blank between two, and so need no quotes.
#[test]
fn tells_each_fault(rt: HostRuntime) -> Result<(), Fail> {
    let alloc = rt.alloc();
    expect_faults(alloc, &mut Book::new(alloc, 100))
}
