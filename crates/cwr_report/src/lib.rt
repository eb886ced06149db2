//! What a report on a submission file is: where each fault stands, the fields that are wrong there, and what was
//! expected. The layers above print it, for a person and as JSON.
#![tactic(auto)]

mod before;
mod bytes_before;
mod expected;
mod fields;
mod file_expected;
mod file_finding;
mod finding;
mod findings;
mod latest;
pub mod laws;
mod reporting;
mod walk;

pub use cwr_call::Fault;
pub use cwr_field::Memory;
pub use cwr_record::{Column, WorkKind};
pub use cwr_rules::{Over, Totals};
pub use file_finding::{FileExpected, FileFinding, RecordPlace, WrongByte};
pub use finding::{Expected, FieldName, Finding, Spot};
pub use reporting::{Report, report_on};
pub use walk::{Walk, line_of};
