ghost use Rattle.std.specs.Prelude.{◌≡◌, ◌≢◌, length};
ghost use Rattle.std.specs.Str.Lines.{lines};
ghost use Rattle.cwr_check.specs.CheckText.{IsCheck};
ghost use Rattle.cwr_remarks.specs.Checks.{IsRemarkedLong, IsRemarkedJson};
ghost use Rattle.c_values.specs.Answers.{no_memory, IsTold};

use c_values::status::NO_MEMORY;
use c_values::write_checked;
use cwr_check::check_text;
use cwr_remarks::{remarked_json, remarked_long};
use std::alloc::Global;

/// Checks a file: the text of the check goes to the front of `out`, and `clean` says whether the file has no fault.
///
/// `alloc` allocates, and `file` is checked. `length` is set to the length of the text, in bytes. `NO_ROOM` if the text
/// does not fit: then `length` and `clean` are set, and `out` stays as it was. `NO_MEMORY` leaves all three as they
/// were.
#[unsafe(no_mangle)]
pub extern "C" fn purvilgo_check(
    alloc: Global,
    file: &[u8],
    out: &mut [u8],
    length: &mut usize,
    clean: &mut bool,
) -> u32
    ensures told { result ≢ no_memory → IsTold (λ text. IsCheck (lines file.now) text clean.new) out.old out.new length.new result }
    ensures same { result ≡ no_memory → (out.new ≡ out.old) × (length.new ≡ length.old) × (clean.new ≡ clean.old) }
{
    match check_text(alloc, file) {
        Ok(checked) => write_checked(&checked, out, length, clean),
        Err(_) => NO_MEMORY,
    }
}

/// Checks a file for a person: what is wrong, where, and what was expected, and then its remarks, go to the front of
/// `out`; `clean` says whether the file has no fault.
///
/// `alloc` allocates, and `file` is checked. `length` is set to the length of the text, in bytes. `NO_ROOM` if the text
/// does not fit: then `length` and `clean` are set, and `out` stays as it was. `NO_MEMORY` leaves all three as they
/// were.
#[unsafe(no_mangle)]
pub extern "C" fn purvilgo_check_long(
    alloc: Global,
    file: &[u8],
    out: &mut [u8],
    length: &mut usize,
    clean: &mut bool,
) -> u32
    ensures told { result ≢ no_memory → IsTold (λ text. IsRemarkedLong file.now text clean.new) out.old out.new length.new result }
    ensures same { result ≡ no_memory → (out.new ≡ out.old) × (length.new ≡ length.old) × (clean.new ≡ clean.old) }
{
    match remarked_long(alloc, file) {
        Ok(checked) => write_checked(&checked, out, length, clean),
        Err(_) => NO_MEMORY,
    }
}

/// Checks a file for a program: its faults and remarks go to the front of `out`, as one JSON object on a line; `clean`
/// says whether the file has no fault.
///
/// `alloc` allocates, and `file` is checked. `length` is set to the length of the text, in bytes. `NO_ROOM` if the text
/// does not fit: then `length` and `clean` are set, and `out` stays as it was. `NO_MEMORY` leaves all three as they
/// were.
#[unsafe(no_mangle)]
pub extern "C" fn purvilgo_check_json(
    alloc: Global,
    file: &[u8],
    out: &mut [u8],
    length: &mut usize,
    clean: &mut bool,
) -> u32
    ensures told { result ≢ no_memory → IsTold (λ text. IsRemarkedJson file.now text clean.new) out.old out.new length.new result }
    ensures same { result ≡ no_memory → (out.new ≡ out.old) × (length.new ≡ length.old) × (clean.new ≡ clean.old) }
{
    match remarked_json(alloc, file) {
        Ok(checked) => write_checked(&checked, out, length, clean),
        Err(_) => NO_MEMORY,
    }
}
