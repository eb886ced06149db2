ghost use Rattle.std.specs.Prelude.{◌≡◌, ◌≢◌, MatchOption, IsSomeAnd};
ghost use Rattle.c_values.specs.Answers.{done, bad_stamp, shut, IsGiven};
ghost use Rattle.c_values.specs.Registries.{IsRun};
ghost use Rattle.c_values.specs.Stamps.{stamp_in};

use crate::handle::Handle;
use c_values::status::{BAD_STAMP, DONE, SHUT};
use c_values::{Outcome, StampBytes, hand_out, stamp_of};
use std::alloc::Global;

/// Runs a file: decides its transactions in file order, after all that was decided before. The file's acknowledgement
/// is kept behind the handle, in place of the one before.
///
/// `alloc` allocates, `handle` holds the registry, and `file` is run. `stamp` is that of the acknowledgement. `outcome`
/// is set to how the file ended, also if an allocation of the work failed. `SHUT` and `BAD_STAMP` leave `outcome` as it
/// was, and what the handle holds.
#[unsafe(no_mangle)]
pub extern "C" fn purvilgo_registry_run(
    alloc: Global,
    handle: &mut Handle,
    file: &[u8],
    stamp: &StampBytes,
    outcome: &mut Outcome,
) -> u32
    ensures ran { MatchOption handle.old.held (result ≡ shut) (λ before. MatchOption (stamp_in stamp.now) (result ≡ bad_stamp) (λ parts.
        (result ≡ done) × IsSomeAnd handle.new.held (IsRun parts file.now outcome.new before))) }
    ensures same { result ≢ done → (handle.new.held ≡ handle.old.held) × (outcome.new ≡ outcome.old) }
{
    let Some(mut registry) = handle.take(alloc) else {
        return SHUT;
    };
    let Some(stamp) = stamp_of(stamp) else {
        handle.put(registry);
        return BAD_STAMP;
    };
    *outcome = registry.run(alloc, file, &stamp);
    handle.put(registry);
    DONE
}

/// The acknowledgement of the file that was run last, at the front of `out`. It is empty if that file was refused or
/// stopped, and before the first.
///
/// `NO_ROOM` if it does not fit: then `length` is set, and `out` stays as it was. `SHUT` leaves both. What the handle
/// holds stays.
#[unsafe(no_mangle)]
pub extern "C" fn purvilgo_registry_acknowledgement(
    alloc: Global,
    handle: &mut Handle,
    out: &mut [u8],
    length: &mut usize,
) -> u32
    ensures told { MatchOption handle.old.held ((result ≡ shut) × (out.new ≡ out.old) × (length.new ≡ length.old)) (λ registry.
        IsGiven registry.acknowledgement out.old out.new length.new result) }
    ensures same { handle.new.held ≡ handle.old.held }
{
    let Some(registry) = handle.take(alloc) else {
        return SHUT;
    };
    let status = hand_out(registry.acknowledgement(), out, length);
    handle.put(registry);
    status
}
