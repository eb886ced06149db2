//! Registers that are written, read and audited.

use crate::at_book::{AtBook, BookFirst, Made};
use failing_alloc::{Ended, FailingAlloc, Sweep, answered, refuse_each, refused};
use std::alloc::Global;
use std::test::Fail;
use test_books::{book_of, holds};
use test_comparisons::{same, same_bytes};
use work_registry::{Book, RegisterRefusal, audit, read_register};

/// The number of calls in the register.
const TOLD: u16 = 12;

#[derive(Drop)]
struct WriteRegister<'a>(&'a [u8]);

impl AtBook for WriteRegister<'_> {
    fn made<'m>(&self, memory: &'m FailingAlloc) -> Made<'m> {
        book_of(memory, TOLD)
    }

    fn ends_at<'m>(&self, memory: &'m FailingAlloc, book: &mut Book<&'m FailingAlloc>) -> Ended {
        written(memory, book, self.0)
    }
}

/// The book must hold those calls, all of the opening.
fn expect_told(book: &Book<&FailingAlloc>) -> Result<(), Fail> {
    holds(book, TOLD, TOLD)
}

/// The book must be written as this text, or, if that is refused, be as it was.
fn written<'m>(memory: &'m FailingAlloc, book: &Book<&'m FailingAlloc>, text: &[u8]) -> Ended {
    match book.write_register(memory) {
        Ok(found) => answered(same_bytes("register", &found, text)),
        Err(_) => refused(expect_told(book)),
    }
}

#[derive(Drop)]
struct WriteChunks<'a>(&'a [u8]);

impl AtBook for WriteChunks<'_> {
    fn made<'m>(&self, memory: &'m FailingAlloc) -> Made<'m> {
        book_of(memory, TOLD)
    }

    fn ends_at<'m>(&self, memory: &'m FailingAlloc, book: &mut Book<&'m FailingAlloc>) -> Ended {
        written_in_chunks(memory, book, self.0)
    }
}

/// The same for the first piece, which has room for all.
fn written_in_chunks<'m>(
    memory: &'m FailingAlloc,
    book: &Book<&'m FailingAlloc>,
    text: &[u8],
) -> Ended {
    match book.register_chunks(memory, 65_536) {
        Ok(mut chunks) => {
            chunks.advance();
            answered(same_bytes("register", chunks.chunk(), text))
        }
        Err(_) => refused(expect_told(book)),
    }
}

#[derive(Drop)]
struct ReadRegister<'a>(&'a [u8]);

impl AtBook for ReadRegister<'_> {
    fn made<'m>(&self, memory: &'m FailingAlloc) -> Made<'m> {
        match read_register(memory, self.0, 100) {
            Ok(book) => Ok(Some(book)),
            Err(RegisterRefusal::Memory) => Ok(None),
            Err(RegisterRefusal::Fault { .. }) => Err(Fail::new("a fault")),
        }
    }

    fn ends_at<'m>(&self, _memory: &'m FailingAlloc, book: &mut Book<&'m FailingAlloc>) -> Ended {
        answered(expect_told(book))
    }
}

#[derive(Drop)]
struct Audit<'a>(&'a [u8]);

impl Sweep for Audit<'_> {
    fn ends(&self, memory: &FailingAlloc) -> Ended {
        match audit(memory, self.0) {
            Ok(entries) => answered(same("entries", &entries, &(TOLD as u64))),
            Err(RegisterRefusal::Memory) => Ok(true),
            Err(RegisterRefusal::Fault { .. }) => Err(Fail::new("a fault")),
        }
    }
}

/// The register of a book of those calls.
fn register_of(alloc: Global) -> Result<Vec<u8>, Fail> {
    let book = book_of(alloc, TOLD)?.ok_or("no memory")?;
    Ok(book.write_register(alloc)?)
}

/// Refuses each request of what writes, reads and audits this register.
fn refuse_registers(alloc: Global, text: &[u8]) -> Result<(), Fail> {
    same_bytes("line 1", text.get(..12).unwrap_or(&[]), b"REG00000012\n")?;
    refuse_each(alloc, &BookFirst(WriteRegister(text)))?;
    refuse_each(alloc, &BookFirst(WriteChunks(text)))?;
    refuse_each(alloc, &BookFirst(ReadRegister(text)))?;
    refuse_each(alloc, &Audit(text))
}

#[test]
fn registers(rt: HostRuntime) -> Result<(), Fail> {
    let text = register_of(rt.alloc())?;
    refuse_registers(rt.alloc(), &text)
}
