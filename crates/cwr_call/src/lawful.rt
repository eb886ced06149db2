ghost use Rattle.std.specs.Prelude.{◌≡◌};
ghost use Rattle.std.specs.List.{list_all};
ghost use Rattle.std.specs.Char.{is_ascii_uppercase};
ghost use Rattle.cwr_call.specs.Lawful.{is_fault, is_before, rises, are_faults, are_at_most, is_whole, is_iswc};

use crate::transaction_fault::Fault;
use cwr_field::{MAX_CODE, MAX_COUNT, MAX_WHOLE, WHOLE};

/// The greatest number of faults of a call.
const MAX_FAULTS: usize = 999999999;

/// The greatest control of a right that a call can have: the whole right in each of its records.
pub(crate) const MAX_SUM: u64 = MAX_COUNT as u64 * WHOLE;

/// Whether each byte is a capital, from A to Z.
fn are_capitals(name: &[u8]) -> bool
    ensures { result ≡ list_all is_ascii_uppercase name.now }
{
    name.iter().all(|byte| byte.is_ascii_uppercase())
}

/// Whether a fault has a sequence of at most eight digits, the number of a rule, and three capitals.
fn is_fault(fault: &Fault) -> bool
    ensures { result ≡ is_fault fault.now }
{
    fault.sequence <= MAX_COUNT
        && (1 <= fault.number && fault.number <= 15)
        && are_capitals(&fault.rtype)
}

/// Whether one fault comes before another.
fn is_before(one: &Fault, other: &Fault) -> bool
    ensures { result ≡ is_before one.now other.now }
{
    one.sequence < other.sequence || (one.sequence == other.sequence && one.number < other.number)
}

/// Whether the faults rise strictly by sequence and number.
fn rises(faults: &[Fault]) -> bool
    ensures { result ≡ rises faults.now }
{
    if faults.is_empty() {
        return true;
    }
    let mut last = faults[0];
    for fault in &faults[1..] {
        if !is_before(&last, fault) {
            return false;
        }
        last = *fault;
    }
    true
}

/// Whether each is a fault that a record can have.
fn are_each_faults(faults: &[Fault]) -> bool
    ensures { result ≡ list_all is_fault faults.now }
{
    faults.iter().all(is_fault)
}

/// Whether these can be the faults of a call.
pub(crate) fn are_faults(faults: &[Fault]) -> bool
    ensures { result ≡ are_faults faults.now }
{
    faults.len() <= MAX_FAULTS && are_each_faults(faults) && rises(faults)
}

/// Whether no control is above the limit.
#[inline(always)]
pub fn are_at_most(limit: u64, control: &[u64]) -> bool
    ensures { result ≡ are_at_most limit control.now }
{
    control.iter().all(|right| *right <= limit)
}

/// Whether there are faults, or no control is above the whole right by more than the tolerance.
pub(crate) fn is_whole(faults: &[Fault], control: &[u64]) -> bool
    ensures { result ≡ is_whole faults.now control.now }
{
    !faults.is_empty() || are_at_most(MAX_WHOLE, control)
}

/// Whether the number has no more digits than an ISWC.
#[inline(always)]
pub fn is_iswc(iswc: Option<u64>) -> bool
    ensures { result ≡ is_iswc iswc }
{
    match iswc {
        None => true,
        Some(number) => number <= MAX_CODE,
    }
}
