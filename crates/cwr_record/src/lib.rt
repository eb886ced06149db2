//! The records of CWR 2.2 (Common Works Registration, CISAC): what each line of a file says, read and written.
//!
//! A line here is a record without its line end. [`type_of`] gives its [`RecordType`]. Each type with a layout has a
//! struct with the layout's fields, a reader and a writer:
//!
//! - control records: [`Header`] (HDR), [`GroupHead`] (GRH), [`GroupTrailer`] (GRT), [`FileTrailer`] (TRL);
//! - a work: [`WorkHead`] (NWR, REV), [`AltTitle`] (ALT), [`CrossRef`] (XRF);
//! - its publishers: [`Publisher`] (SPU, OPU), [`PublisherTerritory`] (SPT);
//! - its writers: [`Writer`] (SWR, OWR), [`WriterTerritory`] (SWT), [`Link`] (PWR);
//! - an acknowledgement: [`Ack`] (ACK), [`Message`] (MSG), and the [`Stamp`] of who acknowledges.
//!
//! A reader gives the value that the line stands for, or the least [`FieldFault`]: of the fields that cannot be read,
//! the one that starts first. What a layout does not name is not read. A line that is too short reads as if blanks
//! followed it. A writer appends the line, or leaves the vector as it was where memory is refused. A line that was
//! written is read as the value that was written.
//!
//! Where a field stands is a [`Column`]: each struct has one for each of its fields, such as [`WorkHead::TITLE`].
//! [`field_at`] gives what a line has in a column, and [`digits_at`] the number there, whatever the other fields hold.
//! [`party_of`], [`publisher_of`], [`ownership_of`], [`collection_of`], [`indicator_of`] and [`territory_of`] read
//! single fields whose columns differ between record types. None of these takes memory.
//!
//! Positions are bytes counted from 1, and a blank is byte 32. A text is an array of its field's width, blanks
//! included. A share is in hundredths of one per cent, so that 10000 is the whole.
//!
//! The layouts stand in `specs/`, one table for each struct, which names the columns of `specs/Columns.antt`. There
//! `StandsFor table line x` says that each field of the line is that part of `x`, `IsLeastFault` which fault is
//! returned, and `line_of table x` is the line written.
//!
//! Any other layout can be described in the same way, by a table of its own: [`field_at`] reads its fields, and
//! [`put_line`] writes a line of [`FieldValue`]s. [`laws`] says that the tables and the readers of single fields agree.
#![tactic(auto)]

mod acknowledgement;
mod columns;
mod control;
mod field_values;
pub mod laws;
mod line_room;
mod parties;
mod prefix;
mod publishers;
mod record_type;
mod slot;
mod stamp;
mod status;
mod values;
mod works;
mod writers;

pub use acknowledgement::{
    Ack, Message, ack_line, message_line, read_ack, read_message, write_ack, write_message,
};
pub use columns::{Column, digits_at, field_at};
pub use control::{
    FileTrailer, GroupHead, GroupTrailer, Header, file_trailer_line, group_head_line,
    group_trailer_line, header_line, read_file_trailer, read_group_head, read_group_trailer,
    read_header, write_file_trailer, write_group_head, write_group_trailer, write_header,
};
pub use cwr_field::{Clock, Day, Field, Memory};
pub use field_values::{FieldValue, put_line};
pub use line_room::LineRoom;
pub use parties::{
    collection_of, indicator_of, ownership_of, party_of, publisher_of, territory_of,
};
pub use prefix::Prefix;
pub use publishers::{
    Publisher, PublisherKind, PublisherTerritory, read_publisher, read_publisher_territory,
    write_publisher, write_publisher_territory,
};
pub use record_type::{RecordType, type_of};
pub use slot::{FieldFault, is_no_day};
pub use stamp::Stamp;
pub use status::Status;
pub use works::{
    AltTitle, CrossRef, WorkHead, WorkKind, read_alt_title, read_cross_ref, read_work_head,
    write_alt_title, write_cross_ref, write_work_head,
};
pub use writers::{
    Link, Writer, WriterKind, WriterTerritory, read_link, read_writer, read_writer_territory,
    write_link, write_writer, write_writer_territory,
};
