//! Runs of any number of jobs at one book, in groups of at most 63, each as a run of its own.
//!
//! [`serve_all_in_turn`] works them on one thread, and tells a [`RunListener`] of each group as it ends. A run that was
//! refused memory is a [`RunCutShort`]. Who works groups in another way takes them one after another from a [`Between`],
//! and puts back into a [`Taken`] what working one left.
#![tactic(auto)]

mod groups;
mod in_turn;
mod laws;
mod run_listener;

pub use groups::{Between, Group, RunCutShort, Taken};
pub use in_turn::serve_all_in_turn;
pub use laws::{chains_are_long_runs, long_runs_follow_one_another};
pub use run_listener::{NoListener, RunListener};
