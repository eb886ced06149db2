//! A register against the files that were sent, and against their acknowledgements.
//!
//! An audit of a register takes its calls as given. [`verify`] judges the transactions of each [`SentFile`] again. For
//! each of them it finds the entry of the register that has its call, with the reply that the acknowledgement contains.
//!
//! [`answer`] is the other half: it makes the acknowledgement of a file again, from the register alone.
#![tactic(auto)]

mod ack_status;
mod answering;
mod compared;
mod digest;
mod file_check;
mod no_answer;
mod proposal;
mod reading;
mod replied;
mod run;
mod same_call;
mod sent;
mod verify_error;
mod verifying;
mod waiting;
mod wanted;

pub use answering::answer;
pub use no_answer::NoAnswer;
pub use reading::{ReadText, read_text};
pub use sent::{ReadFile, SentFile};
pub use verify_error::VerifyError;
pub use verifying::{verify, verify_read};
