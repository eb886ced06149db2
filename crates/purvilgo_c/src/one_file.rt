ghost use Rattle.std.specs.Prelude.{◌≡◌, ◌≢◌, length, None};
ghost use Rattle.c_values.specs.Answers.{bad_stamp, IsTold};
ghost use Rattle.c_values.specs.Files.{IsAnsweredFirst};
ghost use Rattle.c_values.specs.Stamps.{stamp_in};

use byte_streams::Spool;
use c_values::status::BAD_STAMP;
use c_values::{FileBytes, Outcome, StampBytes, hand_out, numbers_of, stamp_of};
use cwr_engine::acknowledge;
use std::alloc::Global;

/// Acknowledges one file into an empty registry: `outcome` says how that ended, and the acknowledgement goes to the
/// front of `out`.
///
/// `alloc` allocates, `file` is acknowledged, and `stamp` is that of the acknowledgement. `length` is set to the length
/// of the acknowledgement, in bytes. An allocation failure of the work is an outcome, as it is of `acknowledge`.
/// `NO_ROOM` if the acknowledgement does not fit: then `length` and `outcome` are set, and `out` stays as it was.
/// `BAD_STAMP` leaves all three as they were.
#[unsafe(no_mangle)]
pub extern "C" fn purvilgo_acknowledge(
    alloc: Global,
    file: &[u8],
    stamp: &StampBytes,
    out: &mut [u8],
    length: &mut usize,
    outcome: &mut Outcome,
) -> u32
    ensures answered { result ≢ bad_stamp → IsTold (IsAnsweredFirst (stamp_in stamp.now) file.now outcome.new) out.old out.new length.new result }
    ensures no_stamp { result ≡ bad_stamp → stamp_in stamp.now ≡ None }
    ensures same { result ≡ bad_stamp → (out.new ≡ out.old) × (length.new ≡ length.old) × (outcome.new ≡ outcome.old) }
{
    let Some(stamp) = stamp_of(stamp) else {
        return BAD_STAMP;
    };
    let mut reader = FileBytes::new(file);
    let mut writer = Spool::new(alloc);
    let told = acknowledge(alloc, &mut reader, &mut writer, &stamp);
    *outcome = numbers_of(&told);
    hand_out(writer.bytes(), out, length)
}
