//! Allocations that fail, each in turn.

use byte_streams::{Feed, Room};
use cwr_engine::{FileOutcome, Job, work_alone};
use cwr_verify::{NoAnswer, answer};
use failing_alloc::{Ended, FailingAlloc, Sweep, answered, refuse_each, refused};
use std::alloc::Global;
use std::test::Fail;
use test_comparisons::same_bytes;
use test_files::{SENDER, acknowledgement, decision, stamp, work_twice};
use work_registry::Book;

/// Makes the acknowledgement of a file again, of a book in which the file was worked.
#[derive(Drop)]
struct Again<'a> {
    alloc: Global,
    file: &'a [u8],
    wanted: &'a [u8],
}

/// The book in which a file was worked; `None` if an allocation failed.
fn worked<'m>(
    memory: &'m FailingAlloc,
    alloc: Global,
    file: &[u8],
) -> Result<Option<Book<&'m FailingAlloc>>, Fail> {
    let stamp = stamp()?;
    let job = Job {
        reader: Feed::new(file, 1000, None),
        writer: Room::new(alloc, 1000, true)?,
    };
    let (book, _job, outcome) = work_alone(memory, Book::new(memory, 10), 1, job, &stamp);
    match outcome {
        FileOutcome::Acked { transactions: _ } => Ok(Some(book)),
        _ => Ok(None),
    }
}

impl Again<'_> {
    /// How the acknowledgement ends at the book in which the file was worked.
    fn ends_at<'m>(&self, memory: &'m FailingAlloc, book: &Book<&'m FailingAlloc>) -> Ended {
        let mut room = Room::new(self.alloc, self.wanted.len(), true)?;
        match answer(memory, book, self.file, &stamp()?, None, &mut room) {
            Ok(()) => answered(same_bytes("the acknowledgement", room.bytes(), self.wanted)),
            Err(NoAnswer::Memory) => refused(same_bytes("what was written", room.bytes(), b"")),
            Err(_) => Err(Fail::new("another end")),
        }
    }
}

impl Sweep for Again<'_> {
    fn ends(&self, memory: &FailingAlloc) -> Ended {
        match worked(memory, self.alloc, self.file)? {
            Some(book) => self.ends_at(memory, &book),
            None => Ok(true),
        }
    }
}

#[test]
fn tells_refused_memory(rt: HostRuntime) -> Result<(), Fail> {
    let alloc = rt.alloc();
    let file = work_twice(alloc, SENDER)?;
    let wanted = acknowledgement(
        alloc,
        &[
            decision(0, "NWR", "W1", "00000001", "AS", &[]),
            decision(1, "NWR", "W1", "00000001", "DU", &[]),
        ],
    )?;
    let again = Again {
        alloc,
        file: &file,
        wanted: &wanted,
    };
    refuse_each(alloc, &again)
}
