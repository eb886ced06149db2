//! What a check of a submission file remarks: what is no fault, and is seldom meant.
//!
//! [`remarks`] lists those on lines: bytes above 126, lines longer than the layout of their record, record types that
//! CWR 2.2 does not have, and publishers and writers all of whose territories are exclusions. The remarks on the file
//! itself come first in a check: that it is no plain text of CWR, that a second file follows it, and values in its HDR
//! that the profile does not know. Remarks change no status and no decision.
#![tactic(auto)]

mod checks;
mod front;
mod high_bytes;
mod json_list;
mod layouts;
mod remark;
mod remarking;
mod territories;
mod texts;
mod typed;
mod types;

pub use checks::{remarked_json, remarked_json_of_file, remarked_long, remarks_on_file};
pub use cwr_field::Memory;
pub use remark::{Remark, Remarked};
pub use remarking::{remarks, remarks_before};
pub use report_texts::{Checked, check_faults, put_fault_lines, put_named_lines, put_shown};
pub use texts::{put_remarks, put_what};
