//! The line that says how far long work is: what is done of all, and the time that is left.
#![tactic(auto)]

mod progress;

pub use cwr_field::Memory;
pub use progress::{Counted, HowFar, put_progress};
