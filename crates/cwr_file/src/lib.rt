//! CWR files: where their bytes come from and go, how they are read, and how they are acknowledged.
//!
//! A [`Source`] gives bytes and a [`Sink`] takes them, a few at a time. [`Through`] is both, over a reader or a writer
//! of std. [`Feed`] and [`Room`] lie in memory, and contracts see their bytes. [`write_out`] sends a complete text into
//! a sink.
//!
//! [`parse_file`] reads a submission file: its header and its transactions, or its first fault. Nothing is copied: a
//! [`RawTransaction`] borrows the file's bytes, and [`Lines`] goes over lines. [`visit_file`] gives a [`Visitor`] the
//! same header and transactions, line by line, as it comes to them. A [`FileReader`] does so for a file that comes a
//! chunk at a time.
//!
//! [`ack_file`] is the text of the acknowledgement of a file, and [`send_ack`] sends it into a sink.
#![tactic(auto)]

pub mod laws;

pub use byte_streams::{
    Failed, Feed, ReadCount, Room, Sink, Source, Through, WriteStopped, write_out,
};
pub use cwr_acknowledgement::{AckError, AckItem, ack_file, send_ack};
pub use cwr_call::{Fault, Faults};
pub use cwr_field::Memory;
pub use cwr_grammar::{
    Envelope, FileReader, FileRefusal, Lines, RawTransaction, Submission, TransactionIter,
    Transactions, Visitor, parse_file, visit_file,
};
pub use cwr_record::{Header, Stamp, Status, WorkKind};
