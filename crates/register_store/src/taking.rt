//! A register that is consumed as it comes from its source, by its audit or by its reading.

ghost use Rattle.std.specs.Prelude.{◌≡◌, IsTrue};
ghost use Rattle.work_registry.specs.History.{IsHistory};
ghost use Rattle.work_registry.specs.Numbers.{max_entries};
ghost use Rattle.work_registry.specs.Register.{IsAudited, register_text};
ghost use Rattle.work_registry.specs.RegisterFaults.{IsRefusal};
ghost use Rattle.work_registry.specs.RegisterReader.{IsRest};
ghost use Rattle.work_registry.specs.Replay.{is_opening};
ghost use Rattle.register_store.specs.Auditing.{answer_for, is_memory};

use crate::reading::ReadBookError;
use byte_streams::{ConsumeError, Consumer, ReadRefused};
use std::alloc::Allocator;
use work_registry::{Auditor, Book, RegisterReader, RegisterRefusal};

/// A register that is audited.
#[derive(Drop)]
pub(crate) struct Audit<A: Allocator + Copy> {
    pub(crate) auditor: Auditor<A>,
}

/// A register that is read.
#[derive(Drop)]
pub(crate) struct Read<A: Allocator + Copy> {
    pub(crate) reader: RegisterReader<A>,
}

impl<A: Allocator + Copy + Drop> Consumer for Audit<A> {
    type Made = u64;

    type Refusal = RegisterRefusal;

    ghost has_left = { λ first audit text left. IsRest audit.auditor text left × (audit.auditor.limit ≡ max_entries) };

    ghost allows = { λ limit. Unit {0} };

    ghost is_made = { λ first count text. IsAudited text count };

    ghost is_refusal = { λ refusal text. IsRefusal max_entries text refusal };

    ghost is_memory = { is_memory };

    fn is_memory(refusal: &RegisterRefusal) -> bool {
        is_memory(refusal)
    }

    fn take(&mut self, chunk: &[u8]) -> Result<usize, RegisterRefusal> {
        self.auditor.take_lines(chunk)
    }

    fn end(self, rest: &[u8]) -> Result<u64, RegisterRefusal> {
        self.auditor.finish(rest)
    }
}

impl<A: Allocator + Copy + Drop> Consumer for Read<A> {
    type Made = Book<A>;

    type Refusal = RegisterRefusal;

    ghost has_left = { λ first read text left. IsRest read.reader text left × (read.reader.limit ≡ max_entries) };

    ghost allows = { λ limit. Unit {0} };

    ghost is_made = { λ first book text. (text ≡ register_text book.history) × IsHistory book.history × IsTrue (is_opening book.history) × (book.limit ≡ max_entries) };

    ghost is_refusal = { λ refusal text. IsRefusal max_entries text refusal };

    ghost is_memory = { is_memory };

    fn is_memory(refusal: &RegisterRefusal) -> bool {
        is_memory(refusal)
    }

    fn take(&mut self, chunk: &[u8]) -> Result<usize, RegisterRefusal> {
        self.reader.take_lines(chunk)
    }

    fn end(self, rest: &[u8]) -> Result<Book<A>, RegisterRefusal> {
        self.reader.finish(rest)
    }
}

fn is_memory(refusal: &RegisterRefusal) -> bool
    ensures { result ≡ is_memory refusal.now }
{
    *refusal == RegisterRefusal::Memory
}

/// The error for a register that was not consumed.
pub(crate) fn no_book(why: ConsumeError<RegisterRefusal>) -> ReadBookError
    ensures { result ≡ answer_for why }
{
    match why {
        ConsumeError::Unread(ReadRefused::Memory) => ReadBookError::Memory,
        ConsumeError::Unread(ReadRefused::Read) => ReadBookError::Read,
        ConsumeError::Unread(ReadRefused::TooLong) => ReadBookError::TooLong,
        ConsumeError::Refused(refusal) => ReadBookError::Refused(refusal),
    }
}
