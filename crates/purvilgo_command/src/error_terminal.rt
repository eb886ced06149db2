//! Standard error, which may be a terminal.

use std::io::IsTerminal;
use std::time::Clock;

/// A runtime that knows whether its standard error is a terminal. What is told there of long work needs a clock too.
pub trait ErrorTerminal: Eprint + Clock {
    /// Whether standard error is a terminal.
    fn is_error_terminal(&self) -> bool;
}

impl ErrorTerminal for HostRuntime {
    fn is_error_terminal(&self) -> bool {
        self.stderr().is_terminal()
    }
}
