//! Pages of HTML, for a browser: the check of a file.
#![tactic(auto)]

mod boxes;
mod check;
mod facts;
mod faults;
mod header;
pub mod laws;
mod refused;
mod remark_sections;
mod rooms;
mod rule_counts;
mod rule_index;
mod ruler;
mod sections;

pub use check::{WrittenPage, check_page};
pub use html_text::{Memory, PageError};
