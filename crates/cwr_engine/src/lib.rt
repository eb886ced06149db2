//! One job: a submission file is read, its transactions are judged and handed in, and it is acknowledged.
//!
//! [`judge_source`] reads a file through a window of bytes and judges it while it reads, and [`judge_file`] one in
//! memory. A [`Job`] is a reader and a writer, and ends in a [`FileOutcome`]. Calls are handed in at a [`Submit`]: a
//! book of one's own, or a seat at a book that others use too.
//!
//! - [`work_file`] works one file, and [`work_judged`] one that was judged before.
//! - [`acknowledge`] works one file into an empty book.
//! - [`work_alone`] works one job at a book of one's own, and [`serve_in_turn`] many jobs, one after the other.
//! - [`read_job`], [`decide_job`] and [`answer_job`] are the steps of [`work_alone`], for callers that run some of them
//!   on threads.
//! - [`Answered`] gives transactions and their replies to an acknowledgement.
#![tactic(auto)]

mod answered;
mod call_collector;
mod decision;
mod engine;
mod gates;
mod in_turn;
mod jobs;
mod judged;
mod limits;
mod lines;
mod one_file;
mod outcome;
mod steps;
mod submit;

pub use answered::{Answered, AnsweredFile};
pub use engine::{work_file, work_judged};
pub use gates::{Gate, OpenGate, Shut};
pub use in_turn::{serve_in_turn, work_alone};
pub use jobs::{Job, Run, ServeRefused};
pub use judged::{Judged, JudgedFile, judge_file, judge_source};
pub use limits::{MAX_BYTES, MAX_ENTRIES};
pub use lines::outcome_line;
pub use one_file::acknowledge;
pub use outcome::{FileOutcome, Why};
pub use steps::{DecidedJob, ReadJob, answer_job, decide_job, read_job};
pub use submit::{Asks, Submit};
