//! Two locks as pure state machines, proved to let at most one place in.
//!
//! A lock has a number of places. Each place goes through its phases by events, and a lock answers an event with its
//! outcome. A thread that runs one of these locks over atomic words does one such event at each atomic step.
//!
//! Here nothing runs at once: an event is a method call, and a run is a list of events of any places in any order. So
//! what holds after every list of events holds under every schedule.
//!
//! - [`Lock`] is the ticket lock of Mellor-Crummey and Scott (1991): all waiting places read one
//!   number, the ticket that is served.
//! - [`ArrayLock`] is the array-based queueing lock of Anderson (1990): each waiting place reads a
//!   flag of its own.
//! - [`laws`] has what holds of both after every list of events, each law as the contract of a
//!   function that does nothing.
#![tactic(auto)]

mod array_lock;
pub mod laws;
mod ticket_lock;

pub use array_lock::{ArrayEvent, ArrayLock, ArrayOutcome, ArrayPhase};
pub use cwr_field::Memory;
pub use ticket_lock::{Event, Lock, Outcome, Phase};
