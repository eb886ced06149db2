//! The registry of works: who claims which work, and every decision that led there.
//!
//! A [`Book`] answers each [`Call`] by a [`Reply`] and keeps both as an [`Entry`] of its history. The reply depends
//! only on the call and the entries before it. [`laws`] says what holds in every history.
#![tactic(auto)]

mod book;
mod claim;
mod deciding;
mod entry;
mod history_index;
mod indexes;
mod key;
pub mod laws;
mod past;
mod refused;
mod register;
mod reply;

pub use book::Book;
pub use claim::Claim;
pub use cwr_call::{Call, Fault, Faults, Memory, WorkKind};
pub use cwr_record::Status;
pub use entry::Entry;
pub use refused::{HandInError, Refused};
pub use register::{
    Auditor, RegisterChunks, RegisterReader, RegisterRefusal, audit, read_register,
};
pub use reply::Reply;
