//! The grammar of CWR submission files.
//!
//! [`parse_file`] reads a submission file: its header and its transactions, or its first fault. Nothing is copied: a
//! [`RawTransaction`] borrows the file's bytes, and [`Lines`] goes over lines.
//!
//! [`visit_file`] gives the same header and transactions to a [`Visitor`], line by line, as it comes to them. A
//! [`FileReader`] does so for a file that comes a chunk at a time. [`FileCounts`] are what the lines before one of them
//! say.
#![tactic(auto)]

mod awaited;
mod control_bytes;
mod envelope;
mod fault;
mod file_counts;
mod file_reader;
pub mod laws;
mod line_lengths;
mod lines;
mod refusal;
mod role;
mod span;
mod submission;
mod transactions;
mod visitor;

pub use cwr_field::Memory;
pub use cwr_record::{Header, WorkKind};
pub use envelope::Envelope;
pub use file_counts::FileCounts;
pub use file_reader::FileReader;
pub use lines::Lines;
pub use refusal::FileRefusal;
pub use submission::{Submission, parse_file};
pub use transactions::{RawTransaction, TransactionIter, Transactions};
pub use visitor::{Visitor, visit_file};
