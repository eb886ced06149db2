ghost use Rattle.std.specs.Prelude.{◌≡◌, ◌≢◌, ◌⊎◌, ℕ, List};
ghost use Rattle.work_registry.specs.Numbers.{max_entries};
ghost use Rattle.work_registry.specs.RegisterFaults.{IsRefusal};
ghost use Rattle.c_values.specs.Answers.{no_memory, faulty};
ghost use Rattle.c_values.specs.Registers.{refusal_status, IsFirstFault};

use crate::status::{FAULTY, NO_MEMORY};
use work_registry::RegisterRefusal;

/// Where a register is at fault.
#[repr(C)]
#[derive(Clone, Copy, PartialEq, Eq)]
pub struct RegisterFault {
    /// The number of the fault, 1 to 4 for G1 to G4.
    pub number: u32,
    /// The line that has it, from 1.
    pub line: u64,
}

/// Returns the status for a text that has no book, and sets `fault` to its fault, if it has one.
pub fn fill_register_fault(refusal: RegisterRefusal, fault: &mut RegisterFault) -> u32
    ensures fault { (text : List ℕ) → IsRefusal max_entries text refusal → result ≡ faulty → IsFirstFault max_entries text fault.new }
    ensures same { result ≢ faulty → fault.new ≡ fault.old }
    ensures status { (result ≡ faulty) ⊎ (result ≡ no_memory) }
    ensures by_refusal { result ≡ refusal_status refusal }
{
    match refusal {
        RegisterRefusal::Fault { number, line } => {
            *fault = RegisterFault {
                number: number as u32,
                line,
            };
            FAULTY
        }
        RegisterRefusal::Memory => NO_MEMORY,
    }
}
