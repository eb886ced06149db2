//! Signs for what is not seen: blanks of marked fields, and places behind the end of a line.

ghost use Rattle.std.specs.Prelude.{◌≡◌, ◌++◌, length, replicate, take, OnOk};
ghost use Rattle.html_text.specs.Pieces.{page_text, signs, Fixed};

use crate::fragment::Fragment;
use cwr_field::Memory;
use std::alloc::Allocator;

/// The most signs that are appended at once.
const MANY: usize = 20;

/// So many blanks of a marked field.
const BLANKS: &[u8] =
    b"\xC2\xB7\xC2\xB7\xC2\xB7\xC2\xB7\xC2\xB7\xC2\xB7\xC2\xB7\xC2\xB7\xC2\xB7\xC2\xB7\xC2\xB7\xC2\xB7\xC2\xB7\xC2\xB7\xC2\xB7\xC2\xB7\xC2\xB7\xC2\xB7\xC2\xB7\xC2\xB7";

/// So many places behind the end of a line.
const BEYONDS: &[u8] =
    b"\xC2\xAC\xC2\xAC\xC2\xAC\xC2\xAC\xC2\xAC\xC2\xAC\xC2\xAC\xC2\xAC\xC2\xAC\xC2\xAC\xC2\xAC\xC2\xAC\xC2\xAC\xC2\xAC\xC2\xAC\xC2\xAC\xC2\xAC\xC2\xAC\xC2\xAC\xC2\xAC";

/// Appends blanks of a marked field.
#[tactic(auto, using(crate::proofs::ManySigns::fragments), unfolding(crate::specs::Fragments::fragment_text))]
pub(crate) fn put_blanks<A: Allocator>(out: &mut Vec<u8, A>, count: usize) -> Result<(), Memory>
    ensures { OnOk result (out.new.items ≡ out.old.items ++ page_text (replicate count (Fixed Fragment.Blank))) }
{
    put_signs(out, BLANKS, count)
}

/// Appends places behind the end of a line.
#[tactic(auto, using(crate::proofs::ManySigns::fragments), unfolding(crate::specs::Fragments::fragment_text))]
pub fn put_beyond<A: Allocator>(out: &mut Vec<u8, A>, count: usize) -> Result<(), Memory>
    ensures { OnOk result (out.new.items ≡ out.old.items ++ page_text (replicate count (Fixed Fragment.Beyond))) }
{
    put_signs(out, BEYONDS, count)
}

/// Appends a sign of two bytes, `count` times. `many` is the sign twenty times.
fn put_signs<A: Allocator>(out: &mut Vec<u8, A>, many: &[u8], count: usize) -> Result<(), Memory>
    requires size { length many.now ≡ 40 }
    requires many { many.now ≡ signs 20 (take 2 many.now) }
    ensures { OnOk result (out.new.items ≡ out.old.items ++ signs count (take 2 many.now)) }
{
    let mut left = count;
    while left > MANY {
        out.extend_from_slice(many)?;
        left -= MANY;
    }
    out.extend_from_slice(&many[..left * 2])?;
    Ok(())
}
