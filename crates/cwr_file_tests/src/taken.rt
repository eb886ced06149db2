//! Submission files that are taken.

use crate::lines::{GRH, HDR, NINE_RECORDS, NWR, ONE_WORK, SWR, expect_counts, text_of};
use cwr_file::{Header, RawTransaction, Submission, WorkKind, parse_file};
use std::alloc::Global;
use std::test::Fail;
use test_comparisons::{same, same_bytes};

/// The file of one work is taken.
fn expect_one_work(alloc: Global, text: &[u8]) -> Result<(), Fail> {
    let file = parse_file(alloc, text)?;
    expect_header(&file.header)?;
    expect_counts(&file, 1, 6, 1)
}

/// The header of that file.
fn expect_header(header: &Header) -> Result<(), Fail> {
    same("the sender", &header.sender, b"PB000000123")?;
    same("the day", &header.creation_date.number(), &20240501)?;
    same("the time", &header.creation_time.number(), &120000)
}

#[test]
fn takes_one_work(rt: HostRuntime) -> Result<(), Fail> {
    let alloc = rt.alloc();
    expect_one_work(alloc, &text_of(alloc, &ONE_WORK, b"\r\n")?)?;
    let text = text_of(alloc, &ONE_WORK, b"\n")?;
    expect_one_work(alloc, &text)?;
    let unended = text.get(..text.len().saturating_sub(1)).ok_or("text")?;
    expect_one_work(alloc, unended)
}

/// A file of two lines without a transaction.
fn expect_no_transaction(file: &Submission) -> Result<(), Fail> {
    expect_counts(file, 0, 2, 0)?;
    let transactions = &file.transactions;
    same("there is none", &transactions.is_empty(), &true)?;
    same("a first one", &transactions.get(0).is_some(), &false)?;
    same("a next one", &transactions.iter().next().is_some(), &false)
}

#[test]
fn takes_a_file_without_groups(rt: HostRuntime) -> Result<(), Fail> {
    let lines = [HDR, b"TRL000000000000000000002"];
    let text = text_of(rt.alloc(), &lines, b"\r\n")?;
    let file = parse_file(rt.alloc(), &text)?;
    expect_no_transaction(&file)
}

/// A transaction has the nine lines of the file of nine records.
fn expect_nine(transaction: &RawTransaction) -> Result<(), Fail> {
    same("lines", &transaction.lines().count(), &9)?;
    for (line, wanted) in transaction.lines().zip(NINE_RECORDS.iter().skip(2)) {
        same_bytes("a line", line, wanted)?;
    }
    Ok(())
}

/// The file of nine records has one transaction, of these lines.
fn expect_nine_records(file: &Submission) -> Result<(), Fail> {
    expect_counts(file, 1, 13, 1)?;
    let transaction = file.transactions.get(0).ok_or("transaction")?;
    expect_nine(&transaction)
}

#[test]
fn gives_the_lines_of_a_transaction(rt: HostRuntime) -> Result<(), Fail> {
    let text = text_of(rt.alloc(), &NINE_RECORDS, b"\r\n")?;
    let file = parse_file(rt.alloc(), &text)?;
    expect_nine_records(&file)
}

/// A header of a revision.
pub(crate) const REV: &[u8] =
    b"REV0000000000000000SONG ONE                                                      W1";

/// A file of two groups, with two transactions and one.
pub(crate) const THREE_WORKS: [&[u8]; 10] = [
    HDR,
    GRH,
    NWR,
    SWR,
    b"NWR0000000100000000SONG ONE                                                      W2",
    b"GRT000010000000200000005",
    b"GRHREV0000202.20",
    REV,
    b"GRT000020000000100000003",
    b"TRL000020000000300000010",
];

/// What a transaction must be: its group, its sequence, its kind, and its number of lines.
struct ExpectedTransaction {
    group: u32,
    sequence: u32,
    kind: WorkKind,
    lines: usize,
}

/// The transactions of that file.
const THREE_TOLD: [ExpectedTransaction; 3] = [
    ExpectedTransaction {
        group: 1,
        sequence: 0,
        kind: WorkKind::Nwr,
        lines: 2,
    },
    ExpectedTransaction {
        group: 1,
        sequence: 1,
        kind: WorkKind::Nwr,
        lines: 1,
    },
    ExpectedTransaction {
        group: 2,
        sequence: 0,
        kind: WorkKind::Rev,
        lines: 1,
    },
];

fn expect_transaction(
    transaction: &RawTransaction,
    wanted: &ExpectedTransaction,
) -> Result<(), Fail> {
    same("a group", &transaction.group(), &wanted.group)?;
    same("a sequence", &transaction.sequence(), &wanted.sequence)?;
    same("a kind", &transaction.kind(), &wanted.kind)?;
    same("lines", &transaction.lines().count(), &wanted.lines)
}

/// The transactions of that file, and the line of the last.
fn expect_three(file: &Submission) -> Result<(), Fail> {
    expect_counts(file, 2, 10, 3)?;
    same("transactions", &file.transactions.iter().count(), &3)?;
    for (transaction, wanted) in file.transactions.iter().zip(&THREE_TOLD) {
        expect_transaction(&transaction, wanted)?;
    }
    let last = file.transactions.get(2).ok_or("the last")?;
    let line = last.lines().next().ok_or("a line")?;
    same_bytes("its line", line, REV)
}

#[test]
fn gives_the_transactions_in_order(rt: HostRuntime) -> Result<(), Fail> {
    let text = text_of(rt.alloc(), &THREE_WORKS, b"\n")?;
    let file = parse_file(rt.alloc(), &text)?;
    expect_three(&file)
}
