//! Reports on submission files, for a person: where each fault stands, what stands there, and what was expected.
#![tactic(auto)]

mod check_lines;
mod file_lines;
mod file_words;
mod long_lines;
mod long_report;
mod shown;
mod words;

pub use check_lines::{put_fault_lines, put_named_lines};
pub use cwr_check::Checked;
pub use cwr_field::Memory;
pub use file_lines::{put_counted, put_detail, put_file_wanted, put_place};
pub use file_words::file_rule_text;
pub use long_lines::{message_of, put_text, put_wanted, stands_at};
pub use long_report::{check_faults, check_long, long_text};
pub use shown::{hex_digit, put_bytes, put_shown};
pub use words::name_text;
