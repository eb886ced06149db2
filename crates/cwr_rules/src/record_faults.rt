ghost use Rattle.std.specs.Prelude.{◌≡◌, ◌+◌, ◌++◌, ℕ, List, length, OnOk};
ghost use Rattle.cwr_rules.specs.declared.record.Record.{Record};
ghost use Rattle.cwr_rules.specs.Rules.{has_unknown_publisher, publishers, name_of};
ghost use Rattle.cwr_rules.specs.TransactionState.{link_publisher, all_findings, rules_so_far, some_holds};
ghost use Rattle.cwr_rules.specs.Position.{position_of};
ghost use Rattle.cwr_rules.specs.Parties.{HoldsParties, kept_in};

use crate::finding::{Finding, push_finding};
use crate::parties::Parties;
use crate::position::Position;
use crate::record::Record;
use cwr_field::Memory;
use std::alloc::Allocator;

/// Whether a PWR behind an SWR names a publisher that is not among the known ones (J9).
#[inline(always)]
fn has_unknown_publisher<A: Allocator + Copy>(
    known: &Parties<A>,
    position: &Position,
    detail: &Record,
) -> bool
    ensures { (parties : List (List ℕ)) (before : List Record) → HoldsParties (kept_in known.now.first known.now.set) parties → position.now ≡ position_of before
        → result ≡ has_unknown_publisher parties before detail.now }
{
    match *detail {
        Record::Pwr(publisher) => position.follows_swr && known.is_unknown(publisher),
        _ => false,
    }
}

/// The publisher that a PWR names; `None` where it is blank, and for any other record.
fn link_publisher(detail: &Record) -> Option<[u8; 9]>
    ensures { result ≡ link_publisher detail.now }
{
    match *detail {
        Record::Pwr(publisher) => publisher,
        _ => None,
    }
}

/// Whether a record has a finding. `is_unknown` is whether rule J9 holds so far.
#[inline(always)]
fn has_finding(position: &Position, detail: &Record, is_unknown: bool) -> bool
    ensures { (before : List Record) → position.now ≡ position_of before → is_unknown ≡ has_unknown_publisher (publishers before) before detail.now
        → result ≡ some_holds (rules_so_far before detail.now) }
{
    position.is_out_of_order(detail)
        || detail.has_wrong_share()
        || detail.is_nameless()
        || position.is_of_another_party(detail)
        || is_unknown
        || detail.has_wrong_territory()
}

/// Appends the findings of a record. Most records have none, and do not come here.
///
/// - `findings` gets the findings.
/// - `sequence` is the record's sequence in its transaction, from 1 for the first record behind the header.
/// - `position` is what the record is judged by, of the records before it.
/// - `detail` is the record. It is passed by value, so that a record without findings need not be stored in memory.
/// - `is_unknown` is whether rule J9 holds so far.
#[cold]
#[inline(never)]
fn push_record_findings<A: Allocator>(
    findings: &mut Vec<Finding, A>,
    sequence: u32,
    position: Position,
    detail: Record,
    is_unknown: bool,
) -> Result<(), Memory>
    ensures { OnOk result ((before : List Record) → position ≡ position_of before → sequence ≡ length before + 1
        → is_unknown ≡ has_unknown_publisher (publishers before) before detail
        → findings.new.items ≡ findings.old.items ++ all_findings sequence (name_of detail) (rules_so_far before detail)) }
{
    let rtype = detail.name();
    let is_misplaced = position.is_out_of_order(&detail);
    let is_other = position.is_of_another_party(&detail);
    let publisher = link_publisher(&detail);
    push_finding(findings, sequence, rtype, 1, is_misplaced, None)?;
    push_finding(findings, sequence, rtype, 6, detail.has_wrong_share(), None)?;
    push_finding(findings, sequence, rtype, 7, detail.is_nameless(), None)?;
    push_finding(findings, sequence, rtype, 8, is_other, None)?;
    push_finding(findings, sequence, rtype, 9, is_unknown, publisher)?;
    push_finding(
        findings,
        sequence,
        rtype,
        14,
        detail.has_wrong_territory(),
        None,
    )?;
    Ok(())
}

/// Appends the findings of a record.
///
/// - `findings` gets the findings.
/// - `known` are the parties of the publishers before the record.
/// - `sequence` is the record's sequence in its transaction, from 1 for the first record behind the header.
/// - `position` is what the record is judged by, of the records before it.
/// - `detail` is the record.
#[inline(always)]
pub(crate) fn add_findings<A: Allocator + Copy>(
    findings: &mut Vec<Finding, A>,
    known: &Parties<A>,
    sequence: u32,
    position: &Position,
    detail: &Record,
) -> Result<(), Memory>
    ensures { OnOk result ((before : List Record) → HoldsParties (kept_in known.now.first known.now.set) (publishers before) → position.now ≡ position_of before → sequence ≡ length before + 1
        → findings.new.items ≡ findings.old.items ++ all_findings sequence (name_of detail.now) (rules_so_far before detail.now)) }
{
    let is_unknown = has_unknown_publisher(known, position, detail);
    if has_finding(position, detail, is_unknown) {
        push_record_findings(findings, sequence, *position, *detail, is_unknown)?;
    }
    Ok(())
}
