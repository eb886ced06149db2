//! Submission files that come from a source, a few bytes at a time.
//!
//! [`visit_source`] reads a source through a window, and gives the file's header and its transactions to a
//! [`Visitor`](cwr_grammar::Visitor), line by line. No more of the file than the window is in memory. The window grows
//! only for a line that is longer.
#![tactic(auto)]

mod refused;
mod visiting;

pub use refused::SourceRefused;
pub use visiting::{WINDOW, visit_source};
