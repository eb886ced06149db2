use thiserror::Error;

/// Why a file from a source was not read.
#[derive(Clone, Copy, Debug, PartialEq, Eq, Error)]
pub enum SourceRefused {
    /// Memory was refused.
    #[error("memory")]
    Memory,
    /// A read failed.
    #[error("read")]
    Read,
    /// The file has more bytes than the limit: a byte past it was read.
    #[error("too long")]
    TooLong,
    /// The file has this fault at this line, and none before it. It was read to its end.
    #[error("F{number} at line {line}")]
    Fault {
        /// The fault's number, from 1 to 12.
        number: u8,
        /// The line's number, from 1.
        line: u64,
    },
}
