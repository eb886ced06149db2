//! Files in memory that are worked into books, in turn, in order, in groups, in chains of runs and at the desk, and
//! their required outcomes: for tests.
#![tactic(auto)]

mod chain;
mod ends;
mod jobs;
mod runs;

pub use chain::{Chain, GROUP, run_chain};
pub use ends::{ACKED, accepted, expect_ends, expect_history, expect_run, expect_written};
pub use jobs::{Input, MemoryRun, all_with_room, unread, whole, with_room};
pub use runs::{run_all, run_all_in_turn, run_at_desk, run_in_order, run_in_turn, run_whole_files};
