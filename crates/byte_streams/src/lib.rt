//! Where the bytes of a file come from and go.
//!
//! A [`Source`] gives bytes and a [`Sink`] takes them, a few at a time. [`Through`] is both, over a reader or a writer
//! of std. [`Feed`], [`Room`] and [`Spool`] lie in memory, and contracts see their bytes.
//!
//! [`read_file`] reads a source to its end, up to a limit, and [`write_out`] sends a complete text into a sink. A
//! [`Window`] holds what was read of a source and not passed yet. [`consume`] gives a [`Consumer`] the lines of a
//! source as they come.
#![tactic(auto)]

mod consuming;
mod failed;
mod feed;
mod reading;
mod reads;
mod room;
mod sink;
mod source;
mod spool;
mod through;
mod window;

pub use consuming::{ConsumeError, Consumer, consume};
pub use cwr_field::Memory;
pub use failed::Failed;
pub use feed::Feed;
pub use reading::{ReadRefused, read_file};
pub use reads::ReadCount;
pub use room::Room;
pub use sink::{Sink, WriteStopped, write_out};
pub use source::Source;
pub use spool::Spool;
pub use through::{MAX_REPEATS, Through};
pub use window::Window;
