//! What a transaction of a submission requests of the registry: its [`Call`], and the [`Fault`]s that forbid it.
#![tactic(auto)]

mod call;
mod kept_control;
mod lawful;
mod transaction_fault;

pub use call::Call;
pub use cwr_field::Memory;
pub use cwr_record::WorkKind;
pub use lawful::{are_at_most, is_iswc};
pub use transaction_fault::{Fault, Faults};
