ghost use Rattle.std.specs.Prelude.{◌≡◌};
ghost use Rattle.work_registry.specs.declared.register.refusal.RegisterRefusal.TheVariants.{Memory as refused};

use cwr_field::Memory;
use thiserror::Error;

/// Why a text was not taken as a register.
#[derive(Clone, Copy, Debug, PartialEq, Eq, Error)]
pub enum RegisterRefusal {
    /// The system refused memory.
    #[error("memory")]
    Memory,
    /// The text has this fault, and none before it.
    #[error("refused G{number} at line {line}")]
    Fault {
        /// The number of the fault: the least of the line's faults. 1 is a line that is not of its form. 2 is an entry
        /// that is missing, superfluous or has another index. 3 is another reply than the registry gives. 4 is a number
        /// of entries above the limit.
        number: u8,
        /// The line, counted from 1: the first of the faulty lines. The line after the last one stands for the end.
        line: u64,
    },
}

impl From<Memory> for RegisterRefusal {
    ghost from_gives = { λ _ e. e ≡ refused };

    fn from(_error: Memory) -> RegisterRefusal {
        RegisterRefusal::Memory
    }
}
