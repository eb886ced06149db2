//! What the library is, and what its statuses mean.

ghost use Rattle.std.specs.Prelude.{◌≡◌};
ghost use Rattle.c_values.specs.Answers.{IsGiven};
ghost use Rattle.c_values.specs.StatusTexts.{status_text};
ghost use Rattle.purvilgo_c.specs.About.{version_text};

use c_values::hand_out;
use c_values::status::text_of;

/// The version of the library, which is that of the program. `CHANGELOG.md` lists what each version changed.
const VERSION: &[u8] = b"0.2.0";

/// The version of the library, at the front of `out`, as `0.2.0`.
///
/// `NO_ROOM` if it does not fit: then `length` is set, and `out` stays as it was.
#[unsafe(no_mangle)]
pub extern "C" fn purvilgo_version(out: &mut [u8], length: &mut usize) -> u32
    ensures { IsGiven version_text out.old out.new length.new result }
{
    hand_out(VERSION, out, length)
}

/// What a status means, in a few words, at the front of `out`. For a number that no call returns the text says so.
///
/// `NO_ROOM` if it does not fit: then `length` is set, and `out` stays as it was.
#[unsafe(no_mangle)]
pub extern "C" fn purvilgo_status_text(status: u32, out: &mut [u8], length: &mut usize) -> u32
    ensures { IsGiven (status_text status) out.old out.new length.new result }
{
    hand_out(text_of(status), out, length)
}
