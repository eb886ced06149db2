ghost use Rattle.std.specs.Prelude.{◌≡◌, ◌∷◌, ℕ, List, IsTrue, IfOk, false};
ghost use Rattle.cwr_record.specs.RecordTypes.{type_of};
ghost use Rattle.cwr_record.specs.Parties.{has_collection};
ghost use Rattle.cwr_remarks.specs.Territories.{has_territories, is_territory_of, is_outside, is_end, is_exclusion, are_excluded, only_excluded};
ghost use Rattle.cwr_remarks.specs.TerritoryScan.{scanned_with};
ghost use Rattle.cwr_remarks.specs.Typed.{left, IsTyped};

use crate::remark::Remarked;
use crate::typed::Typed;
use cwr_field::Memory;
use cwr_grammar::Lines;
use cwr_record::{RecordType, indicator_of, type_of};

/// That all territories of a record of this type are exclusions. `next` is the line after the record, if there is one,
/// and `after` has the lines behind that. Mostly `next` alone decides.
pub(crate) fn only_excluded(
    leading: RecordType,
    next: Option<Typed>,
    after: &Lines,
) -> Result<Option<Remarked>, Memory>
    requires { IsTyped next }
    ensures { IfOk result (λ what. what ≡ only_excluded leading (left next.entry after.now)) }
{
    if has_territories(leading) && are_excluded_after(leading, next, after)? {
        return Ok(Some(Remarked::OnlyExcluded));
    }
    Ok(None)
}

/// What is known of the territories of a record at one of the lines after it.
#[derive(Clone, Copy)]
pub(crate) enum TerritoryScan {
    /// Whether all of them are exclusions, and there are some.
    All(bool),
    /// All so far are exclusions; whether there are some.
    SoFar(bool),
}

pub(crate) fn has_territories(leading: RecordType) -> bool
    ensures { result ≡ has_territories leading }
{
    matches!(leading, RecordType::Spu | RecordType::Swr)
}

/// Whether the territories of a record are seen to their end, and all of them are exclusions. `next` is the line after
/// the record, if there is one, and `after` has the lines behind that.
fn are_excluded_after(
    leading: RecordType,
    next: Option<Typed>,
    after: &Lines,
) -> Result<bool, Memory>
    requires { IsTyped next }
    ensures { IfOk result (λ excluded. excluded ≡ are_excluded leading false (left next.entry after.now)) }
{
    let Some(next) = next else {
        return Ok(false);
    };
    match scan_line(leading, false, next.line, next.record_type) {
        TerritoryScan::All(excluded) => Ok(excluded),
        TerritoryScan::SoFar(some) => Ok(are_excluded(leading, some, after.clone()?)),
    }
}

/// The same among these lines. `some` says whether there are territories before them.
fn are_excluded(leading: RecordType, some: bool, after: Lines) -> bool
    ensures { result ≡ are_excluded leading some after.entry }
{
    let mut so_far = some;
    for line in after {
        match scan_line(leading, so_far, line, type_of(line)) {
            TerritoryScan::All(excluded) => return excluded,
            TerritoryScan::SoFar(some) => so_far = some,
        }
    }
    false
}

/// What a line of this type says of the territories of an earlier record. `some` says whether there are territories
/// before it.
#[inline(always)]
fn scan_line(leading: RecordType, some: bool, line: &[u8], record_type: RecordType) -> TerritoryScan
    requires { record_type ≡ type_of line.now }
    ensures { (after : List (List ℕ)) → are_excluded leading some (line.now ∷ after) ≡ scanned_with leading after result }
{
    if is_territory_of(leading, record_type) {
        if is_exclusion(record_type, line) {
            TerritoryScan::SoFar(true)
        } else {
            TerritoryScan::All(false)
        }
    } else if is_end(leading, record_type) {
        TerritoryScan::All(some)
    } else if record_type == RecordType::Bad {
        TerritoryScan::All(false)
    } else {
        TerritoryScan::SoFar(some)
    }
}

/// Whether a record of a type is a territory of an earlier one.
fn is_territory_of(leading: RecordType, record_type: RecordType) -> bool
    ensures value { result ≡ is_territory_of leading record_type }
    ensures collection { IsTrue (is_territory_of leading record_type) → IsTrue (has_collection record_type) }
{
    match leading {
        RecordType::Spu => record_type == RecordType::Spt,
        RecordType::Swr => record_type == RecordType::Swt,
        _ => false,
    }
}

/// Whether no territory of the earlier record stands after this one.
fn is_end(leading: RecordType, record_type: RecordType) -> bool
    ensures { result ≡ is_end leading record_type }
{
    match leading {
        RecordType::Spu => record_type == RecordType::Spu || is_outside(record_type),
        RecordType::Swr => record_type == RecordType::Swr || is_outside(record_type),
        _ => is_outside(record_type),
    }
}

/// Whether a record belongs to no transaction, or begins one.
fn is_outside(record_type: RecordType) -> bool
    ensures { result ≡ is_outside record_type }
{
    matches!(
        record_type,
        RecordType::Hdr
            | RecordType::Grh
            | RecordType::Grt
            | RecordType::Trl
            | RecordType::Nwr
            | RecordType::Rev
            | RecordType::Ack
            | RecordType::Other
    )
}

fn is_exclusion(record_type: RecordType, line: &[u8]) -> bool
    requires { IsTrue (has_collection record_type) }
    ensures { result ≡ is_exclusion record_type line.now }
{
    indicator_of(line, record_type) == b'E'
}
