use thiserror::Error;

/// An acknowledgement that did not go out completely.
#[derive(Clone, Copy, Debug, PartialEq, Eq, Error)]
pub enum AckError {
    /// Memory was refused before the first write.
    #[error("memory")]
    Memory,
    /// A write failed or took nothing after the first `sent` bytes, which are fewer than all.
    #[error("write after {sent} bytes")]
    Write {
        /// How many bytes the sink took.
        sent: u64,
    },
}
