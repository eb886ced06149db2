use thiserror::Error;

/// A call of the system that did not succeed.
#[derive(Clone, Copy, Debug, PartialEq, Eq, Error)]
#[error("failed")]
pub struct CallFailed;

/// A text that was not kept: a call of the storage failed after the first `sent` bytes of the text had gone into the
/// draft.
///
/// `sent` counts all of them where a sync or the change of the name failed.
#[derive(Clone, Copy, Debug, PartialEq, Eq, Error)]
#[error("write after {sent} bytes")]
pub struct KeepError {
    /// How many bytes went into the draft.
    pub sent: u64,
}
