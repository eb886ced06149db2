ghost use Rattle.std.specs.Prelude.{◌≡◌, ◌+◌, ◌≤◌, ◌<◌, ◌^◌, ◌++◌, ℕ, List, length, map, IsTrue, IfOk, OnOk};
ghost use Rattle.std.specs.List.{AllByRecursion};
ghost use Rattle.cwr_check.specs.CheckText.{faulty_count, has_faults};
ghost use Rattle.cwr_field.specs.Number.{max_count};
ghost use Rattle.cwr_grammar.specs.RawParts.{IsPlaced, lines_in};
ghost use Rattle.cwr_report.specs.Findings.{findings_after, findings_in, first_line, finding_of};
ghost use Rattle.cwr_report.specs.Walks.{IsWalk, line_at};
ghost use Rattle.cwr_rules.specs.Added.{added_in};
ghost use Rattle.cwr_rules.specs.Judging.{IsJudging};

use crate::expected::expected_of;
use crate::fields::fields_of;
use crate::finding::Finding;
use crate::walk::Walk;
use cwr_call::Fault;
use cwr_field::Memory;
use cwr_grammar::{RawTransaction, Transactions};
use cwr_rules::{AddedShares, TransactionJudge, judged};
use std::alloc::Allocator;

/// Appends the findings of the transactions of a file, in order. Returns the number of transactions with faults.
///
/// The submitter is named for contracts: the findings are those of its calls, and no fault of them depends on it.
pub(crate) fn push_findings<A: Allocator + Copy>(
    alloc: A,
    findings: &mut Vec<Finding, A>,
    submitter: [u8; 11],
    transactions: &Transactions<A>,
) -> Result<u64, Memory>
    requires placed { AllByRecursion IsPlaced transactions.now }
    requires few { lines_in transactions.now < 2 ^ 62 }
    ensures findings { OnOk result (findings.new.items ≡ findings.old.items ++ findings_after submitter 0 transactions.now) }
    ensures faulty { IfOk result (λ faulty. faulty ≡ faulty_count submitter transactions.now) }
{
    let mut faulty = 0;
    let mut lines = 0;
    for transaction in transactions {
        let read = judged(alloc, &transaction)?;
        if push_findings_in(findings, &read, &transaction, lines)? {
            faulty += 1;
        }
        lines += read.lines();
    }
    Ok(faulty)
}

/// Appends the findings of a transaction, in order, and returns whether it has any. `read` has read its lines, and
/// `lines` is the number of lines of transactions before it.
fn push_findings_in<A: Allocator + Copy>(
    findings: &mut Vec<Finding, A>,
    read: &TransactionJudge<A>,
    transaction: &RawTransaction,
    lines: u64,
) -> Result<bool, Memory>
    requires placed { IsPlaced transaction.now }
    requires few { lines < 2 ^ 62 }
    requires read { IsJudging read.now transaction.now.kind transaction.now.lines }
    requires bounded { length transaction.now.lines ≤ max_count + 1 }
    ensures findings { OnOk result ((submitter : List ℕ) → findings.new.items ≡ findings.old.items ++ findings_in submitter (first_line lines transaction.now) transaction.now) }
    ensures faulty { IfOk result (λ faulty. (submitter : List ℕ) → faulty ≡ has_faults submitter transaction.now) }
{
    let found = read.faults()?;
    let faults = found.as_slice();
    if faults.is_empty() {
        return Ok(false);
    }
    let first = 2 * transaction.group() as u64 + lines + 1;
    let added = read.added(transaction);
    push_findings_of(findings, faults, transaction, first, &added)?;
    Ok(true)
}

/// Appends the findings for the faults of a transaction. `findings` is the list so far, and `faults` are those of
/// `transaction`. `first` is the line of its header in the file, and `added` has the sums of its shares.
fn push_findings_of<A: Allocator>(
    findings: &mut Vec<Finding, A>,
    faults: &[Fault],
    transaction: &RawTransaction,
    first: u64,
    added: &AddedShares,
) -> Result<(), Memory>
    requires few { first < 2 ^ 63 }
    requires added { added.now ≡ added_in transaction.now }
    ensures { OnOk result (findings.new.items ≡ findings.old.items ++ map (finding_of first transaction.now) faults.now) }
{
    let mut walk = Walk::new(transaction.lines(), true);
    for fault in faults {
        let line = walk.go_to(transaction.lines(), fault.sequence as u64);
        findings.push(finding_at(transaction, first, fault, line, &walk, added))?;
    }
    Ok(())
}

/// The finding for a fault. `fault` is one of `transaction`, whose header is line `first` of the file. `line` is the
/// faulty line, where `walk` is, and `added` has the sums of the transaction's shares.
fn finding_at(
    transaction: &RawTransaction,
    first: u64,
    fault: &Fault,
    line: &[u8],
    walk: &Walk,
    added: &AddedShares,
) -> Finding
    requires walk { IsWalk walk.now transaction.now.lines fault.now.sequence }
    requires keeps { IsTrue walk.now.keeps }
    requires line { line.now ≡ line_at transaction.now.lines fault.now.sequence }
    requires few { first < 2 ^ 63 }
    requires added { added.now ≡ added_in transaction.now }
    ensures { result ≡ finding_of first transaction.now fault.now }
{
    Finding {
        group: transaction.group(),
        transaction: transaction.sequence(),
        fault: *fault,
        line: first + fault.sequence as u64,
        fields: fields_of(fault.number, line),
        expected: expected_of(fault.number, line, &walk.latest, added),
    }
}
