ghost use Rattle.std.specs.Prelude.{◌≡◌};
ghost use Rattle.work_registry.specs.Numbers.{max_entries};
ghost use Rattle.work_registry.specs.Register.{IsAudited};
ghost use Rattle.c_values.specs.Answers.{done, no_memory, faulty};
ghost use Rattle.c_values.specs.Registers.{IsFirstFault, IsAuditStatus};

use c_values::status::DONE;
use c_values::{RegisterFault, fill_register_fault};
use std::alloc::Global;
use work_registry::audit;

/// Audits a register: hands each call in again, and compares each reply.
///
/// `DONE` sets `entries` to the number of its entries, and leaves `fault` as it was. `FAULTY` sets `fault` to the first
/// fault of a text that is no register of one registry, and leaves `entries` as it was. `NO_MEMORY` leaves both.
#[unsafe(no_mangle)]
pub extern "C" fn purvilgo_audit(
    alloc: Global,
    register: &[u8],
    entries: &mut u64,
    fault: &mut RegisterFault,
) -> u32
    ensures entries { result ≡ done → IsAudited register.now entries.new × (fault.new ≡ fault.old) }
    ensures fault { result ≡ faulty → IsFirstFault max_entries register.now fault.new × (entries.new ≡ entries.old) }
    ensures same { result ≡ no_memory → (entries.new ≡ entries.old) × (fault.new ≡ fault.old) }
    ensures status { IsAuditStatus result }
{
    match audit(alloc, register) {
        Ok(count) => {
            *entries = count;
            DONE
        }
        Err(refusal) => fill_register_fault(refusal, fault),
    }
}
