ghost use Rattle.std.specs.Prelude.{◌≡◌, ◌≢◌, length, MatchOption};
ghost use Rattle.work_registry.specs.Register.{register_text};
ghost use Rattle.c_values.specs.Answers.{done, no_memory, shut, IsGiven};
ghost use Rattle.c_values.specs.Registries.{IsReadable};

use crate::handle::Handle;
use c_values::hand_out;
use c_values::status::{DONE, NO_MEMORY, SHUT};
use std::alloc::Global;

/// Sets `entries` to the number of entries of a registry.
///
/// `SHUT` leaves `entries` as it was. What the handle holds stays.
#[unsafe(no_mangle)]
pub extern "C" fn purvilgo_registry_entries(
    alloc: Global,
    handle: &mut Handle,
    entries: &mut u64,
) -> u32
    ensures told { MatchOption handle.old.held ((result ≡ shut) × (entries.new ≡ entries.old)) (λ registry.
        (result ≡ done) × (entries.new ≡ length registry.history)) }
    ensures same { handle.new.held ≡ handle.old.held }
{
    let Some(registry) = handle.take(alloc) else {
        return SHUT;
    };
    *entries = registry.entries();
    handle.put(registry);
    DONE
}

/// The register of a registry, at the front of `out`.
///
/// `NO_ROOM` if it does not fit: then `length` is set, and `out` stays as it was. `NO_MEMORY` and `SHUT` leave both.
/// What the handle holds stays.
#[unsafe(no_mangle)]
pub extern "C" fn purvilgo_registry_register(
    alloc: Global,
    handle: &mut Handle,
    out: &mut [u8],
    length: &mut usize,
) -> u32
    ensures told { MatchOption handle.old.held (result ≡ shut) (λ registry. result ≢ no_memory
        → IsReadable registry.history × IsGiven (register_text registry.history) out.old out.new length.new result) }
    ensures same { handle.new.held ≡ handle.old.held }
    ensures no_memory { result ≡ no_memory → (out.new ≡ out.old) × (length.new ≡ length.old) }
    ensures shut { result ≡ shut → (out.new ≡ out.old) × (length.new ≡ length.old) }
{
    let Some(registry) = handle.take(alloc) else {
        return SHUT;
    };
    let status = match registry.register(alloc) {
        Ok(text) => hand_out(&text, out, length),
        Err(_) => NO_MEMORY,
    };
    handle.put(registry);
    status
}
