//! What a call from C gives and gets, as values. `purvilgo_c` has the calls.
//!
//! A call returns one of the [`status`] numbers. [`hand_out`] puts a text into a buffer of the caller. The functions
//! over it hand out the text of a check, of pages, or of a [`Table`] of a register. [`StampBytes`] and [`SentBytes`]
//! are what a call is given, and [`FileBytes`] gives the bytes of a file to a job. An [`Outcome`], a [`RegisterFault`]
//! and a [`Misfit`] say in numbers how it ended. A [`Registry`] is what C holds between two calls.
#![tactic(auto)]

mod checking;
mod explaining;
mod file_bytes;
mod handing;
mod outcome;
mod registers;
mod registry;
mod stamp;
pub mod status;
mod tables;
mod verifying;

pub use checking::write_checked;
pub use explaining::write_pages;
pub use file_bytes::FileBytes;
pub use handing::hand_out;
pub use outcome::{Outcome, numbers_of, outcome_of};
pub use registers::{RegisterFault, fill_register_fault};
pub use registry::Registry;
pub use stamp::{StampBytes, stamp_of};
pub use tables::{Table, write_table};
pub use verifying::{Misfit, SentBytes, fill_misfit, owned_count, sent_files};
