ghost use Rattle.std.specs.Prelude.{◌≡◌, length};
ghost use Rattle.c_values.specs.Answers.{IsGiven};

use crate::status::{DONE, NO_ROOM};

/// Hands a text out: it goes to the front of `out`, if it fits.
pub fn hand_out(text: &[u8], out: &mut [u8], length: &mut usize) -> u32
    ensures { IsGiven text.now out.old out.new length.new result }
{
    *length = text.len();
    if text.len() > out.len() {
        return NO_ROOM;
    }
    out[..text.len()].copy_from_slice(text);
    DONE
}
