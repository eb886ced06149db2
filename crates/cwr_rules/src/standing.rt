ghost use Rattle.std.specs.Prelude.{◌≡◌, ◌++◌, ℕ, List, OnOk};
ghost use Rattle.cwr_rules.specs.Faults.{found};
ghost use Rattle.cwr_rules.specs.Parties.{HoldsParties, kept_by};
ghost use Rattle.cwr_rules.specs.TransactionState.{stands, standing};

use crate::finding::Finding;
use crate::parties::Parties;
use cwr_call::Fault;
use cwr_field::Memory;
use std::alloc::Allocator;

/// Appends a fault, where its rule holds.
///
/// - `faults` gets the fault.
/// - `sequence` is the faulty record's sequence in its transaction, 0 for the header.
/// - `rtype` is that record's type, the first three bytes of its line.
/// - `number` is that of the rule, from 1 to 15.
/// - `holds` is whether the rule holds.
pub(crate) fn push_found<A: Allocator>(
    faults: &mut Vec<Fault, A>,
    sequence: u32,
    rtype: [u8; 3],
    number: u8,
    holds: bool,
) -> Result<(), Memory>
    ensures { OnOk result (faults.new.items ≡ faults.old.items ++ found sequence rtype number holds) }
{
    if holds {
        faults.push(Fault {
            sequence,
            number,
            rtype,
        })?;
    }
    Ok(())
}

/// Whether the fault of a finding stands. `known` are the parties of all publishers of the transaction.
fn stands<A: Allocator + Copy>(known: &Parties<A>, unless: Option<[u8; 9]>) -> bool
    ensures { (parties : List (List ℕ)) → HoldsParties (kept_by known.now) parties → result ≡ stands parties unless }
{
    match unless {
        None => true,
        Some(party) => known.is_unknown(Some(party)),
    }
}

/// Appends the faults of those findings that stand. `known` are the parties of all publishers of the transaction.
pub(crate) fn push_standing<A: Allocator + Copy>(
    faults: &mut Vec<Fault, A>,
    known: &Parties<A>,
    findings: &[Finding],
) -> Result<(), Memory>
    ensures { OnOk result ((parties : List (List ℕ)) → HoldsParties (kept_by known.now) parties → faults.new.items ≡ faults.old.items ++ standing parties findings.now) }
{
    for finding in findings {
        let fault = finding.fault;
        let stands = stands(known, finding.unless);
        push_found(faults, fault.sequence, fault.rtype, fault.number, stands)?;
    }
    Ok(())
}
