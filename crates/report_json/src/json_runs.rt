ghost use Rattle.std.specs.Prelude.{◌≡◌, ◌+◌, ◌≤◌, ◌<◌, ℕ, false, length, slice_index, IsTrue};
ghost use Rattle.report_json.specs.JsonText.{is_changed};

use cwr_field::{CONTROLS, RUN, Sought, has_byte_in_run, has_in_run};

/// Whether each byte stands for itself in a text. May be false although each byte does, as for few bytes.
pub(crate) fn are_kept(bytes: &[u8]) -> bool
    ensures { IsTrue result → (k : ℕ) → k < length bytes.now → is_changed (slice_index bytes.now k) ≡ false }
{
    if bytes.len() < RUN {
        return false;
    }
    let mut at = 0;
    while bytes.len() - at > RUN {
        if !is_run_kept(bytes, at) {
            return false;
        }
        at += RUN;
    }
    is_run_kept(bytes, bytes.len() - RUN)
}

/// Whether each byte of a run stands for itself in a text.
#[inline(always)]
fn is_run_kept(bytes: &[u8], at: usize) -> bool
    requires { at + 16 ≤ length bytes.now }
    ensures { IsTrue result → (k : ℕ) → at ≤ k → k < at + 16 → is_changed (slice_index bytes.now k) ≡ false }
{
    !has_in_run(bytes, at, CONTROLS)
        && !has_byte_in_run(bytes, at, b'"')
        && !has_byte_in_run(bytes, at, b'\\')
        && !has_in_run(bytes, at, Sought::Above(127))
}
