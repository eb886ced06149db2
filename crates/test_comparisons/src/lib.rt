//! Comparisons for tests: a failure prints what differs.
#![tactic(auto)]

mod compared;

pub use compared::{same, same_bytes, same_lists, same_text};
