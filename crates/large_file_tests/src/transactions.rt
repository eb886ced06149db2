//! Many transactions in a file, and many records in a transaction, read and judged.

use byte_streams::Feed;
use cwr_check::{Checked, check_source, check_text};
use cwr_desk::MAX_BYTES;
use cwr_grammar::{RawTransaction, Submission, WorkKind, parse_file};
use cwr_rules::{Call, judge};
use cwr_source::WINDOW;
use std::alloc::Global;
use std::test::Fail;
use test_comparisons::{same, same_bytes};
use test_files::{FaultMessage, SENDER, crowded_faults, crowded_work, many_checked, many_works};

/// The transaction at a place of a file of many works.
fn expect_transaction(transaction: &RawTransaction, place: u32) -> Result<(), Fail> {
    let found = (
        transaction.group(),
        transaction.sequence(),
        transaction.kind(),
        transaction.lines().count(),
    );
    same("a transaction", &found, &(1, place, WorkKind::Nwr, 2))
}

fn expect_70_000(file: &Submission) -> Result<(), Fail> {
    let counts = (file.groups, file.records, file.transactions.len());
    same("counts", &counts, &(1, 140_004, 70_000))?;
    for (transaction, place) in file.transactions.iter().zip(0..70_000) {
        expect_transaction(&transaction, place)?;
    }
    same("transactions", &file.transactions.iter().count(), &70_000)
}

#[test]
fn reads_70_000_transactions(rt: HostRuntime) -> Result<(), Fail> {
    let text = many_works(rt.alloc(), SENDER, 70_000)?;
    expect_70_000(&parse_file(rt.alloc(), &text)?)
}

/// What a check must print of a file.
fn expect_checked(checked: &Checked, wanted: &[u8]) -> Result<(), Fail> {
    same("whether it is clean", &checked.clean, &false)?;
    same_bytes("what was told", &checked.text, wanted)
}

#[test]
fn checks_70_000_transactions(rt: HostRuntime) -> Result<(), Fail> {
    let text = many_works(rt.alloc(), SENDER, 70_000)?;
    let wanted = many_checked(rt.alloc(), 70_000)?;
    expect_checked(&check_text(rt.alloc(), &text)?, &wanted)
}

#[test]
fn checks_70_000_transactions_through_a_window(rt: HostRuntime) -> Result<(), Fail> {
    let text = many_works(rt.alloc(), SENDER, 70_000)?;
    let wanted = many_checked(rt.alloc(), 70_000)?;
    for chunk in [1000, 1_000_000] {
        let mut reader = Feed::new(&text, chunk, None);
        let checked = check_source(rt.alloc(), &mut reader, MAX_BYTES, WINDOW)?;
        expect_checked(&checked, &wanted)?;
    }
    Ok(())
}

/// A call has these faults.
fn expect_faults(call: &Call, wanted: &[FaultMessage]) -> Result<(), Fail> {
    for (fault, (sequence, rtype, number, _)) in call.faults().iter().zip(wanted) {
        let found = (fault.sequence, fault.rtype.as_slice(), fault.number as u32);
        same("a fault", &found, &(*sequence, rtype.as_bytes(), *number))?;
    }
    same("faults", &call.faults().len(), &wanted.len())
}

/// The one transaction of a file has `lines` lines and these faults.
fn expect_crowded(
    alloc: Global,
    file: &Submission,
    lines: usize,
    wanted: &[FaultMessage],
) -> Result<(), Fail> {
    same("transactions", &file.transactions.len(), &1)?;
    let transaction = file.transactions.get(0).ok_or("a transaction")?;
    same("lines", &transaction.lines().count(), &lines)?;
    let call = judge(alloc, &transaction, *b"PB000000123")?;
    expect_faults(&call, wanted)
}

#[test]
fn judges_30_000_records(rt: HostRuntime) -> Result<(), Fail> {
    let alloc = rt.alloc();
    let text = crowded_work(alloc, SENDER, 30_000)?;
    let faults = crowded_faults(alloc, 30_000)?;
    same("faults of the records 1 to 29,999", &faults.len(), &19_999)?;
    expect_crowded(alloc, &parse_file(alloc, &text)?, 30_000, &faults)
}

/// What a check prints of one transaction with these faults.
fn told(alloc: Global, faults: &[FaultMessage]) -> Result<String, Fail> {
    let mut text = String::from_str(alloc, "00001 00000000 NWR rejected")?;
    for (sequence, _, number, _) in faults {
        text.push_str(&format!(in alloc; " {sequence}:J{number}")?)?;
    }
    text.push_str("\n1 transactions, 1 with faults\n")?;
    Ok(text)
}

#[test]
fn checks_30_000_records(rt: HostRuntime) -> Result<(), Fail> {
    let alloc = rt.alloc();
    let text = crowded_work(alloc, SENDER, 30_000)?;
    let wanted = told(alloc, &crowded_faults(alloc, 30_000)?)?;
    expect_checked(&check_text(alloc, &text)?, wanted.as_bytes())
}
