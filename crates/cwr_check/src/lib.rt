//! What the rules say of a submission file, before it is sent.
//!
//! [`check_text`] checks a file in memory, and [`check_source`] one that comes from a source, through a window of
//! bytes. Each judges the transactions while it reads the file.
#![tactic(auto)]

mod check_lines;
mod checking;
mod short_report;

pub use byte_streams::ReadRefused;
pub use check_lines::put_total;
pub use checking::{Checked, check_source, check_text};
pub use cwr_field::Memory;
