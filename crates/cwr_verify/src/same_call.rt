ghost use Rattle.std.specs.Prelude.{◌≡◌, ◌↔◌, Some, slice_get, IsTrue};
ghost use Rattle.cwr_verify.specs.Reading.{asked_in};

use cwr_engine::Judged;
use cwr_record::WorkKind;
use std::alloc::Allocator;
use work_registry::{Call, Entry, Fault};

/// Whether the transaction at this place, from 0, has the call of an entry.
pub(crate) fn has_call<A: Allocator>(
    transactions: &[Judged<A>],
    place: usize,
    entry: &Entry<A>,
) -> bool
    ensures { IsTrue result ↔ (slice_get (asked_in transactions.now) place ≡ Some entry.now.call) }
{
    match transactions.get(place) {
        Some(transaction) => is_same_call(&transaction.call, entry.call()),
        None => false,
    }
}

/// Whether two calls are the same.
fn is_same_call<A: Allocator>(one: &Call<A>, other: &Call<A>) -> bool
    ensures { IsTrue result ↔ (one.now ≡ other.now) }
{
    are_same_texts(one.number(), other.number())
        && are_same_texts(one.submitter(), other.submitter())
        && are_same_texts(one.title(), other.title())
        && is_same_kind(one.kind(), other.kind())
        && is_same_code(one.iswc(), other.iswc())
        && are_same_shares(&one.control(), &other.control())
        && are_same_faults(one.faults(), other.faults())
}

/// Whether two texts of the same length are the same. Since the length is known, no call is needed.
#[inline(always)]
fn are_same_texts<const N: usize>(one: [u8; N], other: [u8; N]) -> bool
    ensures { IsTrue result ↔ (one ≡ other) }
{
    one == other
}

fn is_same_kind(one: WorkKind, other: WorkKind) -> bool
    ensures { IsTrue result ↔ (one ≡ other) }
{
    one == other
}

fn is_same_code(one: Option<u64>, other: Option<u64>) -> bool
    ensures { IsTrue result ↔ (one ≡ other) }
{
    one == other
}

fn are_same_shares(one: &[u64], other: &[u64]) -> bool
    ensures { IsTrue result ↔ (one.now ≡ other.now) }
{
    one == other
}

fn are_same_faults(one: &[Fault], other: &[Fault]) -> bool
    ensures { IsTrue result ↔ (one.now ≡ other.now) }
{
    if one.len() != other.len() {
        return false;
    }
    for place in 0..one.len() {
        if !is_same_fault(&one[place], &other[place]) {
            return false;
        }
    }
    true
}

fn is_same_fault(one: &Fault, other: &Fault) -> bool
    ensures { IsTrue result ↔ (one.now ≡ other.now) }
{
    one.sequence == other.sequence
        && one.number == other.number
        && are_same_texts(one.rtype, other.rtype)
}
