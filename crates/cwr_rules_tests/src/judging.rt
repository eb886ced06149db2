//! A transaction in a file of its own, judged.

use cwr_grammar::{RawTransaction, parse_file};
use cwr_record::type_of;
use cwr_rules::{Call, Fault, TransactionJudge, WorkKind, judge};
use std::alloc::Global;
use std::process::Abort;
use std::test::Fail;
use test_comparisons::same;

/// The header of the file.
const HEADER: &str =
    "HDRPB000000123PUBLISHER A                                  01.102024050112000020240501";

/// The call of a judge that took the lines of a transaction one by one.
fn taken(alloc: Global, transaction: &RawTransaction) -> Result<Call, Fail> {
    let mut lines = transaction.lines();
    let Some(head) = lines.next() else {
        return Err(Fail::new("no line"));
    };
    let mut read = TransactionJudge::begin(alloc, transaction.kind(), head);
    for line in lines {
        read.take(line, type_of(line))?;
    }
    Ok(read.end(*b"PB000000123")?)
}

/// Two calls must be the same.
fn same_calls(found: &Call, wanted: &Call) -> Result<(), Fail> {
    same(
        "submitter, kind and number",
        &(found.submitter(), found.kind(), found.number()),
        &(wanted.submitter(), wanted.kind(), wanted.number()),
    )?;
    same("title", &found.title(), &wanted.title())?;
    same(
        "work code and control",
        &(found.iswc(), found.control()),
        &(wanted.iswc(), wanted.control()),
    )?;
    same("faults", &found.faults(), &wanted.faults())
}

/// The call of the transaction of these lines, as the one transaction of a file. A judge that takes the lines one by
/// one must give the same.
pub(crate) fn judged(alloc: Global, lines: &[&str], kind: WorkKind) -> Result<Call, Fail> {
    let file = file_of(alloc, lines, kind)?;
    judged_in(alloc, &file)
}

/// A file whose one transaction has these lines.
fn file_of(alloc: Global, lines: &[&str], kind: WorkKind) -> Result<String, Fail> {
    let name = match kind {
        WorkKind::Nwr => "NWR",
        WorkKind::Rev => "REV",
    };
    let group_records = lines.len().saturating_add(2);
    let file_records = lines.len().saturating_add(4);
    let text = lines.join(alloc, "\n")?;
    Ok(format!(in alloc;
        "{HEADER}\nGRH{name}00001\n{text}\nGRT0000100000001{group_records:08}\nTRL0000100000001{file_records:08}\n"
    )?)
}

/// The call of the one transaction of a file.
fn judged_in(alloc: Global, file: &str) -> Result<Call, Fail> {
    let submission = parse_file(alloc, file.as_bytes())?;
    let transaction = submission.transactions.get(0).ok_or("no transaction")?;
    judged_twice(alloc, &transaction)
}

/// The call of a transaction, from its lines at once and from a judge that takes them one by one.
fn judged_twice(alloc: Global, transaction: &RawTransaction) -> Result<Call, Fail> {
    let call = judge(alloc, transaction, *b"PB000000123")?;
    expect_taken(alloc, transaction, &call)?;
    Ok(call)
}

/// A judge that takes the lines of a transaction one by one gives this call.
fn expect_taken(alloc: Global, transaction: &RawTransaction, call: &Call) -> Result<(), Fail> {
    same_calls(&taken(alloc, transaction)?, call)
}

/// Whether a fault has the type of the record with its sequence: the first three bytes of that line.
fn is_typed(lines: &[&str], fault: &Fault) -> bool {
    match lines.get(fault.sequence as usize) {
        Some(line) => line.as_bytes().starts_with(&fault.rtype),
        None => false,
    }
}

/// Judges the transaction of these lines, whose faults must be these pairs of a sequence and a number.
pub(crate) fn expect(
    rt: &impl Abort,
    alloc: Global,
    lines: &[&str],
    wanted: &[(u32, u8)],
) -> Result<(), Fail> {
    let call = judged(alloc, lines, WorkKind::Nwr)?;
    assert_eq!(rt; call.faults().len(), wanted.len(), "{lines:?}");
    for (fault, (sequence, number)) in call.faults().iter().zip(wanted) {
        let found = (fault.sequence, fault.number, is_typed(lines, fault));
        assert_eq!(rt; found, (*sequence, *number, true), "{lines:?}");
    }
    Ok(())
}
