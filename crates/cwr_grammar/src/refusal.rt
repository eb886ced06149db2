ghost use Rattle.std.specs.Prelude.{◌≡◌};
ghost use Rattle.cwr_grammar.specs.declared.refusal.FileRefusal.TheVariants.{Memory as refused};

use cwr_field::Memory;
use thiserror::Error;

/// Why a file was not taken.
#[derive(Clone, Copy, Debug, PartialEq, Eq, Error)]
pub enum FileRefusal {
    /// The system refused memory.
    #[error("memory")]
    Memory,
    /// The file has this fault, and none before it.
    #[error("refused F{number} at line {line}")]
    Fault {
        /// The number of the fault, from 1 to 12: the least of the line's faults.
        number: u8,
        /// The line, counted from 1: the first of the faulty lines. The line after the last one stands for the file's
        /// end.
        line: u64,
    },
}

impl From<Memory> for FileRefusal {
    ghost from_gives = { λ _ e. e ≡ refused };

    fn from(_error: Memory) -> FileRefusal {
        FileRefusal::Memory
    }
}
