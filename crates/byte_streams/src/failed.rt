use thiserror::Error;

/// A read or a write that did not succeed. It moved no byte, and the source or the sink has failed from then on.
#[derive(Clone, Copy, Debug, PartialEq, Eq, Error)]
#[error("failed")]
pub struct Failed;
