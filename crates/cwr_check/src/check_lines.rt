ghost use Rattle.std.specs.Prelude.{◌≡◌, ◌<◌, ◌≤◌, ◌^◌, ◌∷◌, ◌++◌, [], length, OnOk};
ghost use Rattle.std.specs.List.{flat_map};
ghost use Rattle.cwr_grammar.specs.RawParts.{RawParts};
ghost use Rattle.cwr_check.specs.CheckText.{fault_text, verdict_text, place_text, total_line};
ghost use Rattle.cwr_check.specs.ShortReport.{IsPlaceOf};

use cwr_call::Fault;
use cwr_field::{Memory, put_decimal, put_number};
use cwr_record::{Column, FieldValue, LineRoom, WorkKind};
use std::alloc::Allocator;

/// The group id in the line of a transaction.
const GROUP: Column = Column { start: 1, width: 5 };
/// The blank behind the group id.
const AFTER_GROUP: Column = Column { start: 6, width: 1 };
/// The transaction sequence.
const SEQUENCE: Column = Column { start: 7, width: 8 };
/// The blank behind the sequence.
const AFTER_SEQUENCE: Column = Column {
    start: 15,
    width: 1,
};
/// The kind, with the blank behind it.
const KIND: Column = Column {
    start: 16,
    width: 4,
};
/// How many bytes these fields take.
const PLACE_WIDTH: usize = KIND.start + KIND.width - 1;
/// How many bytes they take with the longest text behind them, `rejected`.
const LINE_WIDTH: usize = PLACE_WIDTH + 8;

/// Where a transaction stands in its file, and its kind.
#[derive(Clone, Copy)]
pub(crate) struct TransactionPlace {
    /// The group id, from 1.
    pub(crate) group: u32,
    /// The transaction sequence, from 0.
    pub(crate) sequence: u32,
    pub(crate) kind: WorkKind,
}

/// Appends the line of a transaction with these faults. The line of one without faults, as most are, is appended in one
/// step.
pub(crate) fn put_transaction<A: Allocator>(
    out: &mut Vec<u8, A>,
    place: TransactionPlace,
    faults: &[Fault],
) -> Result<(), Memory>
    requires group { place.group < 10 ^ 5 }
    requires sequence { place.sequence < 10 ^ 8 }
    ensures { OnOk result ((t : RawParts) → IsPlaceOf place t → out.new.items ≡ out.old.items ++ place_text t ++ verdict_text faults.now ++ 10 ∷ []) }
{
    if faults.is_empty() {
        put_place(out, place, b"ok\n")?;
        return Ok(());
    }
    put_place(out, place, b"rejected")?;
    put_faults(out, faults)?;
    out.push(b'\n')?;
    Ok(())
}

/// Appends where a transaction stands in its file, its kind, and a text behind that.
#[inline(always)]
fn put_place<A: Allocator, const N: usize>(
    out: &mut Vec<u8, A>,
    place: TransactionPlace,
    behind: &[u8; N],
) -> Result<(), Memory>
    requires group { place.group < 10 ^ 5 }
    requires sequence { place.sequence < 10 ^ 8 }
    requires short { N ≤ 8 }
    ensures { OnOk result ((t : RawParts) → IsPlaceOf place t → out.new.items ≡ out.old.items ++ place_text t ++ behind.now) }
{
    let text: &[u8] = behind;
    let after = Column {
        start: PLACE_WIDTH + 1,
        width: text.len(),
    };
    let mut line = LineRoom::<LINE_WIDTH>::new();
    line.put(&FieldValue::Digits(place.group as u64, GROUP));
    line.put(&FieldValue::Text(b" ", AFTER_GROUP));
    line.put(&FieldValue::Digits(place.sequence as u64, SEQUENCE));
    line.put(&FieldValue::Text(b" ", AFTER_SEQUENCE));
    line.put(&FieldValue::Text(place.kind.code(), KIND));
    line.put(&FieldValue::Text(text, after));
    out.extend_from_slice(line.bytes())?;
    Ok(())
}

fn put_faults<A: Allocator>(out: &mut Vec<u8, A>, faults: &[Fault]) -> Result<(), Memory>
    ensures { OnOk result (out.new.items ≡ out.old.items ++ flat_map fault_text faults.now) }
{
    for fault in faults {
        put_fault(out, fault)?;
    }
    Ok(())
}

/// Appends a fault, as ` 1:J6` for a record sequence and the number of a rule.
fn put_fault<A: Allocator>(out: &mut Vec<u8, A>, fault: &Fault) -> Result<(), Memory>
    ensures { OnOk result (out.new.items ≡ out.old.items ++ fault_text fault.now) }
{
    out.push(b' ')?;
    put_decimal(out, fault.sequence as u64)?;
    out.push(b':')?;
    out.push(b'J')?;
    put_number(out, fault.number as u64)
}

/// Appends the last line of a check: how many transactions a file has, and how many of them have faults.
///
/// A refusal may leave a part of the line.
pub fn put_total<A: Allocator>(
    out: &mut Vec<u8, A>,
    transactions: u64,
    faulty: u64,
) -> Result<(), Memory>
    ensures { OnOk result (out.new.items ≡ out.old.items ++ total_line transactions faulty) }
{
    put_decimal(out, transactions)?;
    out.extend_from_slice(b" transactions, ")?;
    put_decimal(out, faulty)?;
    out.extend_from_slice(b" with faults\n")?;
    Ok(())
}
