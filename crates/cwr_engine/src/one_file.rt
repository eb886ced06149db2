ghost use Rattle.std.specs.Prelude.{◌≡◌, false};
ghost use Rattle.cwr_engine.specs.Account.{JobAccount};
ghost use Rattle.cwr_engine.specs.WholeRun.{IsWorkedFirst};

use crate::engine::work_file;
use crate::gates::OpenGate;
use crate::limits::MAX_ENTRIES;
use crate::outcome::FileOutcome;
use crate::submit::Lent;
use byte_streams::{Sink, Source};
use cwr_record::Stamp;
use std::alloc::Allocator;
use work_registry::Book;

/// Acknowledges one file into an empty registry.
///
/// Reads the file to its end, decides its transactions in file order and writes their acknowledgement. At most
/// 16,777,216 bytes are taken. For a file that is not well-formed the outcome is its first fault, and nothing is
/// written.
///
/// A job that is stopped by a write leaves the first bytes of the acknowledgement in the writer. One that is stopped by
/// anything else leaves nothing there. The book is dropped.
pub fn acknowledge<R: Source, W: Sink, A: Allocator + Copy + Drop>(
    alloc: A,
    reader: &mut R,
    writer: &mut W,
    stamp: &Stamp,
) -> FileOutcome
    requires reads { R.has_failed reader.old ≡ false }
    requires writes { W.has_failed writer.old ≡ false }
    ensures { IsWorkedFirst (JobAccount R.Source W.Sink stamp.now false)
        (record { reader = reader.old; writer = writer.old }) (record { reader = reader.new; writer = writer.new }) result }
{
    let mut book = Book::new(alloc, MAX_ENTRIES);
    let registry = Lent {
        book: &mut book,
        session: 1,
    };
    let (_window, outcome) = work_file(alloc, registry, &OpenGate, 1, reader, writer, stamp);
    outcome
}
