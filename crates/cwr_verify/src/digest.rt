//! A digest of a transaction and of what its acknowledgement says, by which they are looked up.
ghost use Rattle.std.specs.Prelude.{◌≡◌, ◌+◌, ◌≤◌, length};
ghost use Rattle.cwr_verify.specs.Digest.{all_mixed, digest_of, fault_mixed, faults_mixed, kind_number, mixed, parts_of, status_number, word_at};

use crate::ack_status::AckStatus;
use cwr_record::WorkKind;
use std::alloc::Allocator;
use work_registry::{Call, Fault, Status};

/// A digest of a call and of what an acknowledgement says of it, except the last six bytes of the call's number, which
/// are in the key.
///
/// Two that differ have different digests, except by chance or by intent. Then a lookup finds a wrong one, which is
/// compared in vain. No result rests on the digest, only time.
#[tactic(auto, unfolding(crate::specs::Digest::digest_of))]
pub(crate) fn digest_of<A: Allocator>(told: AckStatus, call: &Call<A>) -> u64
    ensures { result ≡ digest_of told call.now }
{
    let parts = all_mixed(0, &parts_of(told, call));
    faults_mixed(all_mixed(parts, &call.control()), call.faults())
}

/// What an acknowledgement says of a call, and the call without its control and its faults, as numbers.
#[inline(always)]
#[tactic(auto, unfolding(crate::specs::Digest::parts_of))]
fn parts_of<A: Allocator>(told: AckStatus, call: &Call<A>) -> [u64; 15]
    ensures { result ≡ parts_of told call.now }
{
    let number = call.number();
    let submitter = call.submitter();
    let title = call.title();
    [
        status_number(told.status),
        told.work.unwrap_or(0) as u64,
        word_at(&number, 0),
        word_at(&submitter, 0),
        word_at(&submitter, 3),
        kind_number(call.kind()),
        call.iswc().unwrap_or(0),
        word_at(&title, 0),
        word_at(&title, 8),
        word_at(&title, 16),
        word_at(&title, 24),
        word_at(&title, 32),
        word_at(&title, 40),
        word_at(&title, 48),
        word_at(&title, 52),
    ]
}

fn status_number(status: Status) -> u64
    ensures { result ≡ status_number status }
{
    match status {
        Status::Accepted => 0,
        Status::Duplicate => 1,
        Status::Conflict => 2,
        Status::Rejected => 3,
    }
}

fn kind_number(kind: WorkKind) -> u64
    ensures { result ≡ kind_number kind }
{
    match kind {
        WorkKind::Nwr => 0,
        WorkKind::Rev => 1,
    }
}

/// The eight bytes of a text from an index on, as one number, the first byte the most significant.
#[inline(always)]
#[tactic(auto, unfolding(crate::specs::Digest::word_at))]
pub(crate) fn word_at(text: &[u8], at: usize) -> u64
    requires { at + 8 ≤ length text.now }
    ensures { result ≡ word_at text.now at }
{
    let Ok(bytes) = <[u8; 8]>::try_from(&text[at..at + 8]) else {
        return 0;
    };
    u64::from_be_bytes(bytes)
}

/// Mixes a number into those before it.
#[inline(always)]
#[tactic(auto, unfolding(crate::specs::Digest::mixed))]
fn mixed(so_far: u64, next: u64) -> u64
    ensures { result ≡ mixed so_far next }
{
    so_far
        .wrapping_mul(0x9e37_79b9_7f4a_7c15)
        .wrapping_add(next)
}

/// Mixes numbers into those before them.
#[inline(always)]
#[tactic(auto, unfolding(crate::specs::Digest::all_mixed))]
fn all_mixed(so_far: u64, numbers: &[u64]) -> u64
    ensures { result ≡ all_mixed so_far numbers.now }
{
    let mut all = so_far;
    for number in numbers {
        all = mixed(all, *number);
    }
    all
}

/// Mixes a fault into what comes before it.
#[tactic(auto, unfolding(crate::specs::Digest::fault_mixed))]
fn fault_mixed(so_far: u64, fault: &Fault) -> u64
    ensures { result ≡ fault_mixed so_far fault.now }
{
    let [a, b, c] = fault.rtype;
    let rule = u64::from_be_bytes([0, 0, 0, 0, fault.number, a, b, c]);
    mixed(mixed(so_far, fault.sequence as u64), rule)
}

/// Mixes faults into what comes before them.
#[tactic(auto, unfolding(crate::specs::Digest::faults_mixed))]
fn faults_mixed(so_far: u64, faults: &[Fault]) -> u64
    ensures { result ≡ faults_mixed so_far faults.now }
{
    let mut all = so_far;
    for fault in faults {
        all = fault_mixed(all, fault);
    }
    all
}
