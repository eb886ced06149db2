//! The values of a run's options: the society that acknowledges, its name, date and time, the files, and the registers.
//! [`run_fault`] says which of the others is wrong; [`words_fault`] also whether a file would be used twice.
#![tactic(auto)]

mod laws;
mod lists;
mod words;

pub use cwr_field::Memory;
pub use laws::list_is_as_words;
pub use lists::files_fault;
pub use words::{RunFault, WordsFault, run_fault, words_fault};
