ghost use Rattle.std.specs.Prelude.{◌≡◌, ◌++◌, OnOk};
ghost use Rattle.cwr_rules.specs.TransactionState.{finding};

use cwr_call::Fault;
use cwr_field::Memory;
use std::alloc::Allocator;

/// A fault of a record, judged by the records before it.
#[derive(Clone, Copy)]
pub(crate) struct Finding {
    pub(crate) fault: Fault,
    /// A later publisher with this party removes the fault (J9); `None` where nothing does.
    pub(crate) unless: Option<[u8; 9]>,
}

/// Appends a finding, where its rule holds so far.
///
/// - `findings` gets the finding.
/// - `sequence` is the record's sequence in its transaction, from 1 for the first record behind the header.
/// - `rtype` is the record's type, the first three bytes of its line.
/// - `number` is that of the rule, from 1 to 15.
/// - `holds` is whether the rule holds so far.
/// - `unless` is the party of a publisher that removes the fault, or `None`.
#[inline(always)]
pub(crate) fn push_finding<A: Allocator>(
    findings: &mut Vec<Finding, A>,
    sequence: u32,
    rtype: [u8; 3],
    number: u8,
    holds: bool,
    unless: Option<[u8; 9]>,
) -> Result<(), Memory>
    ensures { OnOk result (findings.new.items ≡ findings.old.items ++ finding sequence rtype number holds unless) }
{
    if holds {
        findings.push(Finding {
            fault: Fault {
                sequence,
                number,
                rtype,
            },
            unless,
        })?;
    }
    Ok(())
}
