//! A register that is kept in a file.
//!
//! It is read as the book that a run begins with, or audited. Its file is replaced as one, and only then the
//! acknowledgements of its entries take their names.
#![tactic(auto)]

mod auditing;
mod keeping;
mod reading;
mod taking;

pub use auditing::{REGISTER_WINDOW, audit_source};
pub use cwr_field::Memory;
pub use keeping::{KeepRegisterError, keep_register};
pub use reading::{MAX_REGISTER_BYTES, ReadBookError, new_book, read_book};
