//! The faults that a transaction has as a whole.

ghost use Rattle.std.specs.Prelude.{◌≡◌, ◌++◌, List, OnOk};
ghost use Rattle.cwr_record.specs.Kinds.{work_kind_code};
ghost use Rattle.cwr_rules.specs.declared.record.Record.{Record};
ghost use Rattle.cwr_rules.specs.Head.{is_off};
ghost use Rattle.cwr_rules.specs.HeaderFields.{whole_rules};
ghost use Rattle.cwr_rules.specs.Faults.{all_found};
ghost use Rattle.cwr_rules.specs.Summary.{IsKeptSummary};

use crate::header::HeaderFields;
use crate::standing::push_found;
use crate::summary::Summary;
use cwr_call::Fault;
use cwr_field::{MAX_WHOLE, MIN_WHOLE, Memory};
use std::alloc::Allocator;

/// Whether an ownership total, in hundredths of one per cent, is neither 0 nor from 99.94 to 100.06 per cent (J11, J12,
/// J13).
fn is_off(total: u64) -> bool
    ensures { result ≡ is_off total }
{
    total != 0 && !(MIN_WHOLE <= total && total <= MAX_WHOLE)
}

/// Appends the faults that the transaction has as a whole: J2 to J5, J10 to J13, and J15. Each has sequence 0, which is
/// that of the header.
pub(crate) fn push_transaction_faults<A: Allocator + Copy>(
    faults: &mut Vec<Fault, A>,
    header: &HeaderFields,
    summary: &Summary<A>,
) -> Result<(), Memory>
    ensures { OnOk result ((records : List Record) → IsKeptSummary summary.now records → faults.new.items ≡ faults.old.items ++ all_found 0 (work_kind_code header.now.kind) (whole_rules header.now records)) }
{
    let rtype = *header.kind.code();
    let ownership = summary.sums.ownership;
    push_found(faults, 0, rtype, 2, header.has_no_title)?;
    push_found(faults, 0, rtype, 3, header.has_no_number)?;
    push_found(faults, 0, rtype, 4, header.has_wrong_iswc)?;
    push_found(faults, 0, rtype, 5, header.has_wrong_date)?;
    push_found(faults, 0, rtype, 10, !summary.sums.has_writer)?;
    push_found(faults, 0, rtype, 11, is_off(ownership.performing))?;
    push_found(faults, 0, rtype, 12, is_off(ownership.mechanical))?;
    push_found(faults, 0, rtype, 13, is_off(ownership.synchronization))?;
    push_found(faults, 0, rtype, 15, summary.collected.is_over)?;
    Ok(())
}
