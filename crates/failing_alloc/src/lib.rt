//! Allocation failures, for tests: an allocator that refuses one request, and sweeps in which each request of a call is
//! refused in turn.
#![tactic(auto)]

mod allocator;
mod sweep;

pub use allocator::FailingAlloc;
pub use sweep::{Ended, Sweep, answered, check_refusal, refuse_each, refused};
