ghost use Rattle.std.specs.Prelude.{◌≡◌, ◌≢◌, None, MatchOption, IsSomeAnd};
ghost use Rattle.work_registry.specs.Numbers.{max_entries};
ghost use Rattle.c_values.specs.Answers.{done, no_memory, faulty, already_open};
ghost use Rattle.c_values.specs.Registers.{IsAuditStatus as IsReadStatus, IsFirstFault};
ghost use Rattle.c_values.specs.Registries.{empty, IsOpened, IsOf, IsAgain};

use crate::handle::Handle;
use c_values::status::{ALREADY_OPEN, DONE, NO_MEMORY};
use c_values::{RegisterFault, Registry, fill_register_fault};
use cwr_engine::MAX_ENTRIES;
use std::alloc::Global;
use work_registry::{Book, read_register};

/// Opens an empty registry, for the greatest number of entries that a book may have, behind a handle that is closed.
///
/// `NO_MEMORY` leaves the handle closed, and `ALREADY_OPEN` leaves what it holds.
#[unsafe(no_mangle)]
pub extern "C" fn purvilgo_registry_open(alloc: Global, handle: &mut Handle) -> u32
    ensures opened { MatchOption handle.old.held (IsOpened (λ registry. registry ≡ empty) handle.new.held result) (λ _. result ≡ already_open) }
    ensures same { result ≢ done → handle.new.held ≡ handle.old.held }
{
    if handle.is_open(alloc) {
        return ALREADY_OPEN;
    }
    let book = Book::new(alloc, MAX_ENTRIES);
    keep(alloc, handle, Registry::of(alloc, book))
}

/// Puts a registry into a closed handle, if there is memory for it.
fn keep(alloc: Global, handle: &mut Handle, registry: Registry) -> u32
    requires { handle.old.held ≡ None }
    ensures { IsOpened (λ kept. kept ≡ registry) handle.new.held result }
{
    match Box::new(alloc, registry) {
        Ok(boxed) => {
            handle.put(boxed);
            DONE
        }
        Err(_) => NO_MEMORY,
    }
}

/// Opens the registry of a register, behind a handle that is closed.
///
/// `FAULTY` sets `fault` to the first fault of a text that is no register of one registry. `NO_MEMORY` and
/// `ALREADY_OPEN` leave `fault` as it was, and all three what the handle holds.
#[unsafe(no_mangle)]
pub extern "C" fn purvilgo_registry_read(
    alloc: Global,
    handle: &mut Handle,
    register: &[u8],
    fault: &mut RegisterFault,
) -> u32
    ensures opened { result ≡ done → IsSomeAnd handle.new.held (λ registry. IsOf register.now registry × IsAgain register.now registry) }
    ensures faulty { result ≡ faulty → IsFirstFault max_entries register.now fault.new }
    ensures status { MatchOption handle.old.held (IsReadStatus result) (λ _. result ≡ already_open) }
    ensures same { result ≢ done → handle.new.held ≡ handle.old.held }
    ensures untold { result ≢ faulty → fault.new ≡ fault.old }
{
    if handle.is_open(alloc) {
        return ALREADY_OPEN;
    }
    match read_register(alloc, register, MAX_ENTRIES) {
        Ok(book) => keep(alloc, handle, Registry::of(alloc, book)),
        Err(refusal) => fill_register_fault(refusal, fault),
    }
}

/// Closes a registry: frees what is behind the handle, which is closed then. A closed handle stays so.
#[unsafe(no_mangle)]
pub extern "C" fn purvilgo_registry_close(alloc: Global, handle: &mut Handle)
    ensures { handle.new.held ≡ None }
{
    drop(handle.take(alloc));
}
