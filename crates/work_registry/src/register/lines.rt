//! The lines of a register: LF alone ends them.

ghost use Rattle.std.specs.Prelude.{◌≡◌, ◌<◌, ◌^◌, ◌==◌, ◌⊎◌, ℕ, [], ◌∷◌, ◌++◌, Some, false, IsTrue, IfSome, IfNone};
ghost use Rattle.std.specs.List.{position};
ghost use Rattle.memchr.specs.Find.{IsFirstByte, is_byte};
ghost use Rattle.work_registry.specs.Register.{count_line};
ghost use Rattle.work_registry.specs.RegisterColumns.{head_width};
ghost use Rattle.work_registry.specs.RegisterFaults.{lines, has_end};

use super::columns::{self, COUNT_WIDTH, HEAD_WIDTH};
use cwr_field::{CONTROLS, has_in_block};
use cwr_record::{digits_at, field_at};
use memchr::memchr;

/// Whether the first LF stands directly behind the fields of fixed place, as in the line of an entry without faults,
/// and none of these fields has a control byte.
#[inline(always)]
fn ends_after_head(text: &[u8]) -> bool
    ensures { IsTrue result → IsFirstByte (is_byte 10) text.now (Some head_width) }
{
    if text.len() <= HEAD_WIDTH {
        return false;
    }
    if text[HEAD_WIDTH] != b'\n' {
        return false;
    }
    if has_in_block(text, 0, CONTROLS) {
        return false;
    }
    !has_in_block(text, 64, CONTROLS) && !has_in_block(text, 109, CONTROLS)
}

/// The index of the first LF.
#[inline(always)]
fn first_end(text: &[u8]) -> Option<usize>
    ensures { result ≡ position (λ b. b == 10) text.now }
{
    if ends_after_head(text) {
        return Some(HEAD_WIDTH);
    }
    memchr(b'\n', text)
}

/// The first line of a text, without its LF, and what follows that; `None` where no LF ends a line.
pub(super) fn cut_line(text: &[u8]) -> Option<(&[u8], &[u8])>
    ensures text { IfSome result (λ cut. text.now ≡ cut.0.now ++ 10 ∷ cut.1.now) }
    ensures lines { IfSome result (λ cut. lines text.now ≡ (cut.0.now ++ 10 ∷ []) ∷ lines cut.1.now) }
    ensures one { IfSome result (λ cut. has_end cut.0.now ≡ false) }
    ensures none { IfNone result ((text.now ≡ []) ⊎ (lines text.now ≡ text.now ∷ [])) }
    ensures unended { IfNone result (has_end text.now ≡ false) }
{
    let end = first_end(text)?;
    Some((&text[..end], &text[end + 1..]))
}

/// The number of entries that a first line states, given without its LF; `None` where the line is not of its form.
pub(super) fn count_in(line: &[u8]) -> Option<u32>
    ensures some { IfSome result (λ count. line.now ++ 10 ∷ [] ≡ count_line count) }
    ensures fits { IfSome result (λ count. count < 10 ^ 8) }
    ensures none { IfNone result ((count : ℕ) → count < 10 ^ 8 → line.now ++ 10 ∷ [] ≡ count_line count → ⊥) }
{
    if line.len() != COUNT_WIDTH {
        return None;
    }
    if field_at(line, columns::MARK).bytes() != *b"REG" {
        return None;
    }
    Some(digits_at(line, columns::COUNT)? as u32)
}
