//! Books, and what their tables must be.

use register_tables::{
    Form, TableError, Wanted, WrittenTable, claims_table, history_json, history_table,
    summary_json, summary_text, works_table,
};
use std::alloc::Global;
use std::test::Fail;
use test_comparisons::{same, same_bytes};
use work_registry::{Book, Call, Fault, Faults, WorkKind};

/// The submitters of the sample files.
pub(crate) const ONE: [u8; 11] = *b"PB000000123";

pub(crate) const OTHER: [u8; 11] = *b"PB000000456";

pub(crate) const W1: [u8; 14] = *b"W1            ";

pub(crate) const W7: [u8; 14] = *b"W7            ";

pub(crate) const TITLE: [u8; 60] = *b"SONG ONE                                                    ";

/// The nine digits of ISWC T0345246801.
pub(crate) const ISWC: Option<u64> = Some(34524680);

/// A transaction without faults: its submitter, kind, title, number, ISWC and control.
pub(crate) type Transaction = (
    [u8; 11],
    WorkKind,
    [u8; 60],
    [u8; 14],
    Option<u64>,
    [u64; 3],
);

/// The call of a transaction with these faults.
fn call_of(alloc: Global, told: Transaction, faults: &[Fault]) -> Result<Call, Fail> {
    let faults = Faults::new(faults.to_vec(alloc)?);
    let (submitter, kind, title, number, iswc, control) = told;
    Ok(Call::of(submitter, kind, title, number, iswc, control, faults).ok_or("no call")?)
}

/// Hands in a transaction with these faults, which must be taken.
pub(crate) fn hand_in(
    alloc: Global,
    book: &mut Book,
    told: Transaction,
    faults: &[Fault],
) -> Result<(), Fail> {
    let call = call_of(alloc, told, faults)?;
    book.apply(1, call).ok().ok_or("the call was refused")?;
    Ok(())
}

/// Hands in transactions without faults, which must be taken.
pub(crate) fn hand_in_all(
    alloc: Global,
    book: &mut Book,
    transactions: &[Transaction],
) -> Result<(), Fail> {
    for told in transactions {
        hand_in(alloc, book, *told, &[])?;
    }
    Ok(())
}

/// Hands in the example in the profile's section on decisions: seven transactions of two submitters on one work.
pub(crate) fn hand_in_decisions(alloc: Global, book: &mut Book) -> Result<(), Fail> {
    let (nwr, rev, other) = (WorkKind::Nwr, WorkKind::Rev, Some(1));
    let transactions: [Transaction; 6] = [
        (ONE, rev, TITLE, W1, ISWC, [6000; 3]),
        (OTHER, nwr, TITLE, W7, ISWC, [5000; 3]),
        (ONE, rev, TITLE, W1, ISWC, [5000; 3]),
        (OTHER, nwr, TITLE, W7, ISWC, [5000; 3]),
        (ONE, rev, TITLE, W1, None, [5000; 3]),
        (ONE, rev, TITLE, W1, other, [5000; 3]),
    ];
    hand_in_all(alloc, book, &transactions)?;
    let wrong = Fault {
        sequence: 0,
        number: 4,
        rtype: *b"REV",
    };
    hand_in(
        alloc,
        book,
        (ONE, rev, TITLE, W1, None, [5000; 3]),
        &[wrong],
    )
}

/// The book of that example.
pub(crate) fn decisions(alloc: Global) -> Result<Book, Fail> {
    let mut book = Book::new(alloc, 100);
    hand_in_decisions(alloc, &mut book)?;
    Ok(book)
}

/// A text that must be complete.
fn whole(written: Result<Vec<u8>, TableError>) -> Result<Vec<u8>, Fail> {
    match written {
        Ok(text) => Ok(text),
        Err(_) => Err("it was not written")?,
    }
}

/// A table that must be complete, with a row count that is the number of these lines.
fn told(table: Result<WrittenTable<Vec<u8>>, TableError>, lines: &[u8]) -> Result<Vec<u8>, Fail> {
    match table {
        Ok(told) => {
            let rows = lines.iter().filter(|byte| **byte == b'\n').count() as u64;
            same("how many rows", &told.rows, &rows)?;
            Ok(told.to)
        }
        Err(_) => Err("the table was not written")?,
    }
}

/// The claims that are wanted must be these lines, after their header.
pub(crate) fn expect_claims(
    alloc: Global,
    book: &Book,
    wanted: &Wanted,
    lines: &[u8],
) -> Result<(), Fail> {
    let table = claims_table(alloc, Vec::new(alloc), book, wanted, Form::Exact);
    let text = told(table, lines)?;
    expect_lines(
        alloc,
        &text,
        b"submitter,number,work,version,title,iswc,performing,mechanical,synchronization\n",
        lines,
    )
}

/// The works that are wanted must be these lines, after their header.
pub(crate) fn expect_works(
    alloc: Global,
    book: &Book,
    wanted: &Wanted,
    lines: &[u8],
) -> Result<(), Fail> {
    let table = works_table(alloc, Vec::new(alloc), book, wanted, Form::Exact);
    let text = told(table, lines)?;
    expect_lines(
        alloc,
        &text,
        b"work,iswc,performing,mechanical,synchronization,claims\n",
        lines,
    )
}

/// The entries of the history that are wanted must be these lines, after their header.
pub(crate) fn expect_history(
    alloc: Global,
    book: &Book,
    wanted: &Wanted,
    lines: &[u8],
) -> Result<(), Fail> {
    let table = history_table(alloc, Vec::new(alloc), book, wanted, Form::Exact);
    let text = told(table, lines)?;
    expect_lines(
        alloc,
        &text,
        b"entry,submitter,kind,number,title,iswc,performing,mechanical,synchronization,status,work,version,faults\n",
        lines,
    )
}

/// The summary of a book must be this page.
pub(crate) fn expect_summary(alloc: Global, book: &Book, page: &[u8]) -> Result<(), Fail> {
    let text = whole(summary_text(alloc, Vec::new(alloc), book))?;
    same_bytes("the summary", &text, page)
}

/// The claims of a book must be these plain lines, after their header.
pub(crate) fn expect_plain_claims(alloc: Global, book: &Book, lines: &[u8]) -> Result<(), Fail> {
    let table = claims_table(alloc, Vec::new(alloc), book, &Wanted::all(), Form::Plain);
    let text = told(table, lines)?;
    expect_lines(
        alloc,
        &text,
        b"submitter,number,work,version,title,iswc,performing_control,mechanical_control,synchronization_control\n",
        lines,
    )
}

/// The works of a book must be these plain lines, after their header.
pub(crate) fn expect_plain_works(alloc: Global, book: &Book, lines: &[u8]) -> Result<(), Fail> {
    let table = works_table(alloc, Vec::new(alloc), book, &Wanted::all(), Form::Plain);
    let text = told(table, lines)?;
    expect_lines(
        alloc,
        &text,
        b"work,iswc,performing_control,mechanical_control,synchronization_control,claims\n",
        lines,
    )
}

/// The history of a book must be these plain lines, after their header.
pub(crate) fn expect_plain_history(alloc: Global, book: &Book, lines: &[u8]) -> Result<(), Fail> {
    let table = history_table(alloc, Vec::new(alloc), book, &Wanted::all(), Form::Plain);
    let text = told(table, lines)?;
    expect_lines(
        alloc,
        &text,
        b"entry,submitter,kind,number,title,iswc,performing_control,mechanical_control,synchronization_control,status,work,version,faults\n",
        lines,
    )
}

/// The entries of the history that are wanted must be these JSON objects, each on a line.
pub(crate) fn expect_objects(
    alloc: Global,
    book: &Book,
    wanted: &Wanted,
    lines: &[u8],
) -> Result<(), Fail> {
    let objects = history_json(alloc, Vec::new(alloc), book, wanted);
    same_bytes("the objects", &told(objects, lines)?, lines)
}

/// The summary of a book must be this JSON object.
pub(crate) fn expect_summary_object(alloc: Global, book: &Book, object: &[u8]) -> Result<(), Fail> {
    let text = whole(summary_json(alloc, Vec::new(alloc), book))?;
    same_bytes("the summary as JSON", &text, object)
}

/// A table must be a header and these lines.
fn expect_lines(alloc: Global, text: &[u8], header: &[u8], lines: &[u8]) -> Result<(), Fail> {
    let mut all = header.to_vec(alloc)?;
    all.extend_from_slice(lines)?;
    same_bytes("the table", text, &all)
}
