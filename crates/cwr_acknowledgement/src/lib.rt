//! The acknowledgement file that answers a submission, for the registry's decision on each transaction, an [`AckItem`].
//!
//! [`ack_file`] is its text, and [`send_ack`] writes it out chunk after chunk. [`send_answers`] does so for [`Answers`]
//! that are not kept as items. Of the faults of a transaction the acknowledgement reports those that
//! [`reported_faults`] gives. [`message_text`] is its text for one of them.
#![tactic(auto)]

mod ack_error;
mod ack_item;
mod ack_line_writer;
mod ack_records;
mod acknowledgement;
mod answers;
pub mod laws;
mod messages;
mod nowhere;
mod numeral;
mod outgoing;
mod places;

pub use ack_error::AckError;
pub use ack_item::AckItem;
pub use acknowledgement::{ack_file, send_ack, send_answers};
pub use answers::{Answers, reported_faults};
pub use cwr_call::{Fault, Faults};
pub use cwr_field::Memory;
pub use cwr_record::{Header, Stamp, Status, WorkKind};
pub use messages::message_text;
