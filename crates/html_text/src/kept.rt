//! Bytes that are shown as themselves.

ghost use Rattle.std.specs.Prelude.{◌≡◌, ◌+◌, ◌≤◌, ◌<◌, ◌==◌, ℕ, false, length, slice_index, IsTrue};
ghost use Rattle.html_text.specs.Pieces.{is_changed, IsSeen};

use cwr_field::{CONTROLS, MIN_PRINTABLE, RUN, Sought, has_byte_in_run, has_in_run};

/// The last printable byte of ASCII.
pub(crate) const MAX_PRINTABLE: u8 = 126;

/// True only if each byte is shown as itself; false costs no more than time.
pub(crate) fn are_kept(bytes: &[u8]) -> bool
    ensures { IsTrue result → (k : ℕ) → k < length bytes.now → is_changed (slice_index bytes.now k) ≡ false }
{
    if bytes.len() < RUN {
        return are_few_kept(bytes);
    }
    let mut at = 0;
    while bytes.len() - at > RUN {
        if !is_run_kept(bytes, at) {
            return false;
        }
        at += RUN;
    }
    is_run_kept(bytes, bytes.len() - RUN)
}

/// The same of few bytes, one by one.
fn are_few_kept(bytes: &[u8]) -> bool
    ensures { IsTrue result → (k : ℕ) → k < length bytes.now → is_changed (slice_index bytes.now k) ≡ false }
{
    for byte in bytes {
        if !is_kept(*byte) {
            return false;
        }
    }
    true
}

/// True only if each byte of a marked field is shown as itself, as blanks are not.
pub(crate) fn are_seen(bytes: &[u8]) -> bool
    ensures { IsTrue result → (k : ℕ) → k < length bytes.now → IsSeen (slice_index bytes.now k) }
{
    for byte in bytes {
        if *byte == b' ' || !is_kept(*byte) {
            return false;
        }
    }
    true
}

/// True only if a byte is shown as itself.
#[inline(always)]
#[tactic(auto, using(crate::proofs::KeptBytes::kept))]
fn is_kept(byte: u8) -> bool
    ensures { IsTrue result → is_changed byte ≡ false }
{
    byte >= MIN_PRINTABLE
        && byte <= MAX_PRINTABLE
        && byte != b'"'
        && byte != b'&'
        && byte != b'\''
        && byte != b'<'
        && byte != b'>'
}

/// True only if each byte of a run is shown as itself.
#[inline(always)]
#[tactic(auto, using(crate::proofs::KeptBytes::kept))]
fn is_run_kept(bytes: &[u8], at: usize) -> bool
    requires { at + 16 ≤ length bytes.now }
    ensures { IsTrue result → (k : ℕ) → at ≤ k → k < at + 16 → is_changed (slice_index bytes.now k) ≡ false }
{
    !has_in_run(bytes, at, CONTROLS)
        && !has_in_run(bytes, at, Sought::Above(MAX_PRINTABLE))
        && !has_delimiter(bytes, at)
}

/// False only if a run has no byte of the markup.
#[inline(always)]
fn has_delimiter(bytes: &[u8], at: usize) -> bool
    requires { at + 16 ≤ length bytes.now }
    ensures quote { result ≡ false → (k : ℕ) → at ≤ k → k < at + 16 → (slice_index bytes.now k == 34) ≡ false }
    ensures reference { result ≡ false → (k : ℕ) → at ≤ k → k < at + 16 → (slice_index bytes.now k == 38) ≡ false }
    ensures apostrophe { result ≡ false → (k : ℕ) → at ≤ k → k < at + 16 → (slice_index bytes.now k == 39) ≡ false }
    ensures begin { result ≡ false → (k : ℕ) → at ≤ k → k < at + 16 → (slice_index bytes.now k == 60) ≡ false }
    ensures end { result ≡ false → (k : ℕ) → at ≤ k → k < at + 16 → (slice_index bytes.now k == 62) ≡ false }
{
    has_byte_in_run(bytes, at, b'"')
        || has_byte_in_run(bytes, at, b'&')
        || has_byte_in_run(bytes, at, b'\'')
        || has_byte_in_run(bytes, at, b'<')
        || has_byte_in_run(bytes, at, b'>')
}
