//! Pages of HTML, for a browser: the summary of a register.
#![tactic(auto)]

mod bars;
mod summary;
pub mod summary_laws;
mod summary_tables;

pub use html_text::{Memory, PageError};
pub use summary::summary_page;
