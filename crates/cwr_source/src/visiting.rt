//! The file of a source, given to a visitor line by line.

ghost use Rattle.std.specs.Prelude.{◌≡◌, ◌+◌, ◌≤◌, ◌<◌, [], ℕ, List, None, false, IfOk, IfErr};
ghost use Rattle.std.specs.Str.Lines.{lines};
ghost use Rattle.byte_streams.specs.GivenBytes.{HasGiven};
ghost use Rattle.cwr_grammar.specs.Submitted.{IsRefusal};
ghost use Rattle.cwr_grammar.specs.Visiting.{WasGiven};
ghost use Rattle.cwr_source.specs.Input.{IsInput, IsUnjudged};
ghost use Rattle.cwr_source.specs.Source.{HasLeft, answer_for, is_memory};

use crate::refused::SourceRefused;
use byte_streams::{ConsumeError, Consumer, ReadRefused, Source, consume};
use cwr_grammar::{Envelope, FileReader, FileRefusal, Visitor};
use std::alloc::Allocator;

/// How many bytes of a submission file the program holds while it reads it, unless a line is longer.
pub const WINDOW: usize = 65_536;

/// Reads the file of a source, and gives its header and its transactions to a visitor, line by line.
///
/// - `alloc` is where the window gets its memory.
/// - `reader` is the source, and has not failed.
/// - `limit` is the greatest number of bytes of the file.
/// - `capacity` is the size of the window in bytes. The window grows beyond it only for a line that is longer.
/// - `visitor` is given the header and the transactions.
///
/// Of a well-formed file the visitor is given the header and all transactions, in order, and is returned with the
/// file's envelope. A fault is returned once the file was read to its end.
pub fn visit_source<R: Source, V: Visitor + Drop, A: Allocator>(
    alloc: A,
    reader: &mut R,
    limit: usize,
    capacity: usize,
    visitor: V,
) -> Result<(Envelope, V), SourceRefused>
    requires going { R.has_failed reader.old ≡ false }
    requires limit { limit < 4611686018427387904 }
    requires kept { V.keeps visitor visitor None [] None }
    ensures given { IfOk result (λ made. (input : List ℕ) × IsInput limit (R.left reader.old) input × WasGiven (V.keeps visitor made.1) input made.0.header made.0.groups made.0.records) }
    ensures refused { IfErr result (IsUnjudged limit (R.left reader.old) (R.has_failed reader.new)) }
    ensures read_on { HasGiven (R.left reader.old) (R.left reader.new) }
    ensures few_reads { R.reads reader.new ≤ R.reads reader.old + limit + 1 }
{
    let visit = Visit {
        file: FileReader::new(),
        visitor,
    };
    match consume(alloc, reader, limit, capacity, visit) {
        Ok(made) => Ok(made),
        Err(why) => Err(refused(why)),
    }
}

/// A file that is read, and its visitor.
#[derive(Drop)]
struct Visit<V> {
    file: FileReader,
    visitor: V,
}

impl<V: Visitor + Drop> Consumer for Visit<V> {
    type Made = (Envelope, V);

    type Refusal = FileRefusal;

    ghost has_left = { λ first visit text left. HasLeft (V.keeps first.visitor visit.visitor) visit.file text left };

    ghost allows = { λ limit. limit < 4611686018427387904 };

    ghost is_made = { λ first made text. WasGiven (V.keeps first.visitor made.1) text made.0.header made.0.groups made.0.records };

    ghost is_refusal = { λ refusal text. IsRefusal (lines text) refusal };

    ghost is_memory = { is_memory };

    fn is_memory(refusal: &FileRefusal) -> bool {
        *refusal == FileRefusal::Memory
    }

    fn take(&mut self, chunk: &[u8]) -> Result<usize, FileRefusal> {
        self.file.take_lines(&mut self.visitor, chunk)
    }

    fn end(self, rest: &[u8]) -> Result<(Envelope, V), FileRefusal> {
        let Visit { file, mut visitor } = self;
        let envelope = file.finish(&mut visitor, rest)?;
        Ok((envelope, visitor))
    }
}

/// The error for a file that was not consumed.
fn refused(why: ConsumeError<FileRefusal>) -> SourceRefused
    ensures { result ≡ answer_for why }
{
    match why {
        ConsumeError::Unread(ReadRefused::Read) => SourceRefused::Read,
        ConsumeError::Unread(ReadRefused::TooLong) => SourceRefused::TooLong,
        ConsumeError::Refused(FileRefusal::Fault { number, line }) => {
            SourceRefused::Fault { number, line }
        }
        ConsumeError::Unread(ReadRefused::Memory) | ConsumeError::Refused(FileRefusal::Memory) => {
            SourceRefused::Memory
        }
    }
}
