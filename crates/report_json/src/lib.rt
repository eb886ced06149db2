//! Reports on submission files as JSON, for a program: what `report_texts` tells a person, as one object.
#![tactic(auto)]

mod json_faults;
mod json_members;
mod json_report;
mod json_runs;
mod json_strings;
mod json_values;

pub use cwr_check::Checked;
pub use cwr_field::Memory;
pub use json_report::{
    check_json, json_text, json_text_of_file, json_text_with, json_text_with_text,
};
pub use json_strings::put_json_text;
pub use json_values::{put_comma, put_option, put_type, text_value};
