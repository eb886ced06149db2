use cwr_field::Memory;
use thiserror::Error;

/// The first fault of a list of names. `line` is the number of the name in the list, from 1.
#[derive(Clone, Copy, Debug, PartialEq, Eq, Error)]
pub enum ListFault {
    /// It has no name.
    #[error("no names")]
    NoNames,
    /// This name is empty.
    #[error("line {line}: an empty name")]
    EmptyName {
        /// The number of the name.
        line: usize,
    },
    /// This name is no text: its bytes are not UTF-8.
    #[error("line {line}: a name that is not text")]
    NoText {
        /// The number of the name.
        line: usize,
    },
}

/// Why a list of names was not taken.
#[derive(Clone, Copy, Debug, PartialEq, Eq, Error)]
pub enum ListRefused {
    /// Memory was refused.
    #[error("memory")]
    Memory,
    /// The list has a fault.
    #[error("{0}")]
    Fault(ListFault),
}

impl From<Memory> for ListRefused {
    fn from(_refused: Memory) -> ListRefused {
        ListRefused::Memory
    }
}
