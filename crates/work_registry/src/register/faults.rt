//! The faults in the line of an entry.

ghost use Rattle.std.specs.Prelude.{◌≡◌, List, Some, length, IfSome, IfNone, IfOk};
ghost use Rattle.std.specs.List.{flat_map, AllByRecursion};
ghost use Rattle.cwr_record.specs.Layout.{StandsFor};
ghost use Rattle.cwr_record.specs.Lines.{IsWhole, line_of};
ghost use Rattle.work_registry.specs.RegisterLine.{fault, IsTyped};
ghost use Rattle.cwr_call.specs.declared.transaction_fault.Fault.{Fault};

use super::columns::{self, FAULT_WIDTH};
use cwr_call::{Fault, Faults};
use cwr_field::Memory;
use cwr_record::{digits_at, field_at};
use std::alloc::Allocator;

/// The fault in 13 bytes; `None` where they are not of its form.
fn read_fault(bytes: &[u8]) -> Option<Fault>
    ensures some { IfSome result (StandsFor fault bytes.now) }
    ensures typed { IfSome result IsTyped }
    ensures none { IfNone result ((x : Fault) → StandsFor fault bytes.now x → ⊥) }
{
    Some(Fault {
        sequence: digits_at(bytes, columns::FAULT_SEQUENCE)? as u32,
        number: digits_at(bytes, columns::FAULT_NUMBER)? as u8,
        rtype: field_at(bytes, columns::FAULT_RECORD_TYPE).bytes(),
    })
}

/// The faults in these bytes, 13 bytes for each; `None` where they are not of that form.
pub(super) fn read_faults<A: Allocator>(alloc: A, bytes: &[u8]) -> Result<Option<Faults<A>>, Memory>
    ensures text { IfOk result (λ o. IfSome o (λ fs. flat_map (line_of fault) fs ≡ bytes.now)) }
    ensures typed { IfOk result (λ o. IfSome o (AllByRecursion IsTyped)) }
    ensures only { IfOk result (λ o. (fs : List Fault) → AllByRecursion (IsWhole fault) fs → flat_map (line_of fault) fs ≡ bytes.now → o ≡ Some fs) }
{
    let mut faults = Vec::with_capacity(alloc, bytes.len() / FAULT_WIDTH)?;
    let mut rest = bytes;
    while !rest.is_empty() {
        if rest.len() < FAULT_WIDTH {
            return Ok(None);
        }
        let (front, back) = rest.split_at(FAULT_WIDTH);
        let Some(fault) = read_fault(front) else {
            return Ok(None);
        };
        faults.push(fault)?;
        rest = back;
    }
    Ok(Some(Faults::new(faults)))
}
