ghost use Rattle.std.specs.Prelude.{◌≡◌, ◌+◌, ◌≤◌, ◌<◌, ℕ, false, length, take, drop, slice_index};
ghost use Rattle.std.specs.List.{position_or_len};
ghost use Rattle.cwr_field.specs.Layout.{is_control};

use cwr_field::{BLOCK, CONTROLS, MIN_PRINTABLE, has_in_block, is_free_before};
use std::simd::prelude::*;

/// How many bytes of a block come before the first control byte.
fn before_control(text: &[u8], at: usize) -> u32
    requires { at + 64 ≤ length text.now }
    ensures { result ≡ position_or_len is_control (take 64 (drop at text.now)) }
{
    if !has_in_block(text, at, CONTROLS) {
        return BLOCK as u32;
    }
    u8x64::from_slice(&text[at..])
        .simd_lt(u8x64::splat(MIN_PRINTABLE))
        .to_bitmask()
        .trailing_zeros()
}

/// The index of the first control byte, or the length where there is none. The index `guess` is tried first.
#[inline(always)]
pub(crate) fn first_control_near(text: &[u8], guess: usize) -> usize
    ensures { result ≡ position_or_len is_control text.now }
{
    if guess < text.len() && text[guess] < MIN_PRINTABLE && is_free_before(text, guess, CONTROLS) {
        return guess;
    }
    first_control(text)
}

/// The index of the first control byte, or the length where there is none.
fn first_control(text: &[u8]) -> usize
    ensures { result ≡ position_or_len is_control text.now }
{
    let mut at = 0;
    while text.len() - at >= BLOCK {
        let before = before_control(text, at);
        if before < BLOCK as u32 {
            return at + before as usize;
        }
        at += BLOCK;
    }
    if text.len() >= BLOCK {
        last_control(text)
    } else {
        control_of_few(text)
    }
}

/// The index of the first control byte, or the length where there is none. The text has at least the size of a block,
/// and no control byte before its last block.
fn last_control(text: &[u8]) -> usize
    requires long { 64 ≤ length text.now }
    requires before { (k : ℕ) → k + 64 < length text.now → is_control (slice_index text.now k) ≡ false }
    ensures { result ≡ position_or_len is_control text.now }
{
    let start = text.len() - BLOCK;
    start + before_control(text, start) as usize
}

/// The index of the first control byte of a short text, or the length where there is none, byte by byte.
fn control_of_few(text: &[u8]) -> usize
    ensures { result ≡ position_or_len is_control text.now }
{
    let mut at = 0;
    while at < text.len() && text[at] >= MIN_PRINTABLE {
        at += 1;
    }
    at
}
