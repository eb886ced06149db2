//! Submission files worked into one book of works: read, checked, decided and acknowledged.
//!
//! A [`Job`] is a reader and a writer. [`serve`] works up to 63 jobs on threads, and [`serve_in_turn`] on one thread.
//! [`serve_in_order`] has the contract of the latter, and uses threads. [`serve_all`] and [`serve_all_in_turn`] work any
//! number of jobs, in groups of 63. [`work`] works one job at a seat,
//! [`work_alone`] one at a book that nobody else has, and [`acknowledge`] one into an empty book. Each job ends in a
//! [`FileOutcome`]. [`check_text`] reports the faults of a file without a book.
#![tactic(auto)]

mod at_desk;
mod in_order;
mod many_jobs;
mod serving;
mod working;

pub use byte_streams::{Failed, Feed, ReadRefused, Room, Sink, Source, Spool, Through, read_file};
pub use cwr_check::{Checked, check_text};
pub use cwr_engine::{
    FileOutcome, Gate, Job, MAX_BYTES, MAX_ENTRIES, OpenGate, Run, ServeRefused, Shut, Why,
    acknowledge, outcome_line, serve_in_turn, work_alone,
};
pub use cwr_field::{Clock, Day, Memory, cut, date, time};
pub use cwr_record::Stamp;
pub use group_runs::{NoListener, RunCutShort, RunListener, serve_all_in_turn};
pub use in_order::serve_in_order;
pub use many_jobs::serve_all;
pub use registry_desk::{Desk, Seat};
pub use run_options::{RunFault, WordsFault, run_fault, words_fault};
pub use serving::serve;
pub use work_registry::{
    Book, Call, Claim, Entry, Fault, Faults, HandInError, Refused, RegisterRefusal, Reply,
    WorkKind, audit, read_register,
};
pub use working::work;
