//! Searches that test many bytes at once.

ghost use Rattle.std.specs.Prelude.{◌≡◌, ◌+◌, ◌≤◌, ◌<◌, ◌==◌, ℕ, true, false, length, slice_index, IfSome};
ghost use Rattle.std.specs.List.{position};
ghost use Rattle.cwr_field.specs.Scan.{is_sought};

use crate::text::MIN_PRINTABLE;
use std::simd::prelude::*;

/// How many bytes are tested together.
pub const BLOCK: usize = 64;

/// How many bytes are tested together where there are fewer than a block.
const HALF: usize = 32;

/// How many bytes are tested together where each is put to several tests.
pub const RUN: usize = 16;

/// Which bytes are looked for.
#[derive(Clone, Copy, Debug, PartialEq, Eq, Hash)]
pub enum Sought {
    /// Those below this one.
    Below(u8),
    /// Those above this one.
    Above(u8),
}

/// Control bytes, as those of line ends are.
pub const CONTROLS: Sought = Sought::Below(MIN_PRINTABLE);

/// Whether any of the 64 bytes from an index on is looked for.
///
/// It tests the lesser, or the greater, of each pair of bytes (k and k + 32), which is faster than a mask of all 64.
#[inline(always)]
pub fn has_in_block(bytes: &[u8], at: usize, sought: Sought) -> bool
    requires { at + 64 ≤ length bytes.now }
    ensures none { result ≡ false → (k : ℕ) → at ≤ k → k < at + 64 → is_sought sought (slice_index bytes.now k) ≡ false }
    ensures only_then { ((k : ℕ) → at ≤ k → k < at + 64 → is_sought sought (slice_index bytes.now k) ≡ false) → result ≡ false }
{
    let front = u8x32::from_slice(&bytes[at..]);
    let back = u8x32::from_slice(&bytes[at + HALF..]);
    match sought {
        Sought::Below(limit) => front.simd_min(back).simd_lt(u8x32::splat(limit)).any(),
        Sought::Above(limit) => front.simd_max(back).simd_gt(u8x32::splat(limit)).any(),
    }
}

/// Whether any of the 32 bytes from an index on is looked for.
#[inline(always)]
fn has_in_half(bytes: &[u8], at: usize, sought: Sought) -> bool
    requires { at + 32 ≤ length bytes.now }
    ensures none { result ≡ false → (k : ℕ) → at ≤ k → k < at + 32 → is_sought sought (slice_index bytes.now k) ≡ false }
    ensures only_then { ((k : ℕ) → at ≤ k → k < at + 32 → is_sought sought (slice_index bytes.now k) ≡ false) → result ≡ false }
{
    let half = u8x32::from_slice(&bytes[at..]);
    match sought {
        Sought::Below(limit) => half.simd_lt(u8x32::splat(limit)).any(),
        Sought::Above(limit) => half.simd_gt(u8x32::splat(limit)).any(),
    }
}

/// Whether any of the 16 bytes from an index on is looked for.
#[inline(always)]
pub fn has_in_run(bytes: &[u8], at: usize, sought: Sought) -> bool
    requires { at + 16 ≤ length bytes.now }
    ensures none { result ≡ false → (k : ℕ) → at ≤ k → k < at + 16 → is_sought sought (slice_index bytes.now k) ≡ false }
    ensures only_then { ((k : ℕ) → at ≤ k → k < at + 16 → is_sought sought (slice_index bytes.now k) ≡ false) → result ≡ false }
{
    let run = u8x16::from_slice(&bytes[at..]);
    match sought {
        Sought::Below(limit) => run.simd_lt(u8x16::splat(limit)).any(),
        Sought::Above(limit) => run.simd_gt(u8x16::splat(limit)).any(),
    }
}

/// Whether any of the 16 bytes from an index on is this one.
#[inline(always)]
pub fn has_byte_in_run(bytes: &[u8], at: usize, byte: u8) -> bool
    requires { at + 16 ≤ length bytes.now }
    ensures none { result ≡ false → (k : ℕ) → at ≤ k → k < at + 16 → (slice_index bytes.now k == byte) ≡ false }
    ensures only_then { ((k : ℕ) → at ≤ k → k < at + 16 → (slice_index bytes.now k == byte) ≡ false) → result ≡ false }
{
    u8x16::from_slice(&bytes[at..])
        .simd_eq(u8x16::splat(byte))
        .any()
}

/// Whether none of the bytes before an index is looked for.
#[inline(always)]
pub fn is_free_before(bytes: &[u8], end: usize, sought: Sought) -> bool
    requires { end ≤ length bytes.now }
    ensures none { result ≡ true → (k : ℕ) → k < end → is_sought sought (slice_index bytes.now k) ≡ false }
    ensures only_then { ((k : ℕ) → k < end → is_sought sought (slice_index bytes.now k) ≡ false) → result ≡ true }
{
    if end < BLOCK {
        return is_half_free_before(bytes, end, sought);
    }
    let mut at = 0;
    while end - at > BLOCK {
        if has_in_block(bytes, at, sought) {
            return false;
        }
        at += BLOCK;
    }
    !has_in_block(bytes, end - BLOCK, sought)
}

/// Whether none of the bytes before an index, which is at most 64, is looked for.
#[inline(always)]
fn is_half_free_before(bytes: &[u8], end: usize, sought: Sought) -> bool
    requires { (end ≤ length bytes.now) × (end ≤ 64) }
    ensures none { result ≡ true → (k : ℕ) → k < end → is_sought sought (slice_index bytes.now k) ≡ false }
    ensures only_then { ((k : ℕ) → k < end → is_sought sought (slice_index bytes.now k) ≡ false) → result ≡ true }
{
    if end < HALF {
        return is_run_free_before(bytes, end, sought);
    }
    !has_in_half(bytes, 0, sought) && !has_in_half(bytes, end - HALF, sought)
}

/// Whether none of the bytes before an index, which is at most 32, is looked for.
#[inline(always)]
fn is_run_free_before(bytes: &[u8], end: usize, sought: Sought) -> bool
    requires { (end ≤ length bytes.now) × (end ≤ 32) }
    ensures none { result ≡ true → (k : ℕ) → k < end → is_sought sought (slice_index bytes.now k) ≡ false }
    ensures only_then { ((k : ℕ) → k < end → is_sought sought (slice_index bytes.now k) ≡ false) → result ≡ true }
{
    if end < RUN {
        return are_few_free(bytes, end, sought);
    }
    !has_in_run(bytes, 0, sought) && !has_in_run(bytes, end - RUN, sought)
}

/// Whether none of the bytes before an index is looked for, byte by byte.
fn are_few_free(bytes: &[u8], end: usize, sought: Sought) -> bool
    requires { end ≤ length bytes.now }
    ensures none { result ≡ true → (k : ℕ) → k < end → is_sought sought (slice_index bytes.now k) ≡ false }
    ensures only_then { ((k : ℕ) → k < end → is_sought sought (slice_index bytes.now k) ≡ false) → result ≡ true }
{
    let mut at = 0;
    while at < end {
        if is_sought(sought, bytes[at]) {
            return false;
        }
        at += 1;
    }
    true
}

/// Whether a byte is looked for.
#[inline(always)]
fn is_sought(sought: Sought, byte: u8) -> bool
    ensures { result ≡ is_sought sought byte }
{
    match sought {
        Sought::Below(limit) => byte < limit,
        Sought::Above(limit) => byte > limit,
    }
}

/// The index of the first LF.
pub fn line_end(bytes: &[u8]) -> Option<usize>
    ensures value { result ≡ position (λ b. b == 10) bytes.now }
    ensures inside { IfSome result (λ end. end < length bytes.now) }
{
    bytes.iter().position(|byte| *byte == b'\n')
}
