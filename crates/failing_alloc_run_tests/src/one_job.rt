//! One job: into an empty book, and at a seat.

use crate::ends::{Decided, end_of, holds_of, knows};
use byte_streams::{Feed, Room};
use cwr_desk::{Book, Desk, FileOutcome, OpenGate, Reply, Stamp, acknowledge, work};
use failing_alloc::{Ended, FailingAlloc, Sweep, refuse_each};
use std::alloc::Global;
use std::sync::Wait;
use std::test::Fail;
use test_files::{SENDER, stamp, work_twice};

/// What must be decided on a file that has a new work twice.
pub(crate) const TWICE: [Decided; 2] = [
    (
        "W1",
        Reply::Accepted {
            work: 1,
            version: 1,
        },
    ),
    ("W1", Reply::Duplicate { work: 1 }),
];

#[derive(Drop)]
struct Acknowledge<'a> {
    alloc: Global,
    stamp: Stamp,
    file: &'a [u8],
}

impl Sweep for Acknowledge<'_> {
    fn ends(&self, memory: &FailingAlloc) -> Ended {
        let mut writer = Room::new(self.alloc, 1000, true)?;
        let mut reader = Feed::new(self.file, 4096, None);
        let outcome = acknowledge(memory, &mut reader, &mut writer, &self.stamp);
        let (_, is_stopped) = end_of(self.alloc, &outcome, writer.bytes(), &TWICE)?;
        Ok(is_stopped)
    }
}

/// What a worker at its seat leaves: the book, how the file ended, and the writer of its acknowledgement.
type Worked<'m> = (Book<&'m FailingAlloc>, FileOutcome, Room);

/// Works a file at the one seat of a desk with an empty book; `None` if the desk could not be allocated. `rt` waits.
/// `memory` allocates, but for the writer, for which `alloc` does. `file` is worked, and `stamp` is that of the
/// acknowledgement.
fn worked<'m, T: Wait>(
    rt: &T,
    memory: &'m FailingAlloc,
    alloc: Global,
    file: &[u8],
    stamp: &Stamp,
) -> Result<Option<Worked<'m>>, Fail> {
    let mut writer = Room::new(alloc, 1000, true)?;
    let mut reader = Feed::new(file, 4096, None);
    let Ok((desk, mut opening)) = Desk::open(memory, Book::new(memory, 100), 2) else {
        return Ok(None);
    };
    let seat = desk.split(&mut opening);
    let (seat, outcome) = work(
        rt,
        memory,
        &desk,
        seat,
        &mut reader,
        &mut writer,
        stamp,
        &OpenGate,
        1,
    );
    desk.meet(&mut opening, seat);
    Ok(Some((desk.close(opening), outcome, writer)))
}

/// The end of the one job that worked the file into an empty book: the book must hold and know what was decided.
/// Returns whether the job was stopped.
pub(crate) fn end_of_one(
    alloc: Global,
    book: &Book<&FailingAlloc>,
    outcome: &FileOutcome,
    written: &[u8],
) -> Ended {
    let (count, is_stopped) = end_of(alloc, outcome, written, &TWICE)?;
    holds_of(book, 0, 1, &TWICE, count)?;
    knows(book, count, count.min(1))?;
    Ok(is_stopped)
}

/// A worker at its seat.
#[derive(Drop)]
struct Work<'a, T: Wait> {
    rt: &'a T,
    alloc: Global,
    stamp: Stamp,
    file: &'a [u8],
}

impl<T: Wait> Sweep for Work<'_, T> {
    fn ends(&self, memory: &FailingAlloc) -> Ended {
        match worked(self.rt, memory, self.alloc, self.file, &self.stamp)? {
            Some((book, outcome, writer)) => {
                end_of_one(self.alloc, &book, &outcome, writer.bytes())
            }
            None => Ok(true),
        }
    }
}

#[test]
fn acknowledges(rt: HostRuntime) -> Result<(), Fail> {
    let alloc = rt.alloc();
    let stamp = stamp()?;
    let file = work_twice(alloc, SENDER)?;
    let sweep = Acknowledge {
        alloc,
        stamp,
        file: &file,
    };
    refuse_each(alloc, &sweep)
}

#[test]
fn works_at_a_seat(rt: HostRuntime) -> Result<(), Fail> {
    let alloc = rt.alloc();
    let stamp = stamp()?;
    let file = work_twice(alloc, SENDER)?;
    let sweep = Work {
        rt: &rt,
        alloc,
        stamp,
        file: &file,
    };
    refuse_each(alloc, &sweep)
}
