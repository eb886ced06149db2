//! A list of file names, as bytes: [`names_in`] gives its names in order, or its first fault.
#![tactic(auto)]

mod fault;
mod names;

pub use cwr_field::Memory;
pub use fault::{ListFault, ListRefused};
pub use names::{NameEnd, names_in};
