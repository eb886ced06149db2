//! Jobs one after the other.
ghost use Rattle.std.specs.Prelude.{◌≡◌, ◌<◌, All, false, length, true, vec_len};
ghost use Rattle.work_registry.specs.Replay.{is_opening};

use crate::ends::{Decided, end_of, holds_of, knows};
use crate::jobs::{MemoryJob, jobs_of};
use crate::one_job::end_of_one;
use byte_streams::{Feed, Room};
use cwr_desk::{Book, FileOutcome, Reply, Run, ServeRefused, Stamp, serve_in_turn};
use failing_alloc::{Ended, FailingAlloc, Sweep, refuse_each};
use std::alloc::Global;
use std::test::Fail;
use test_comparisons::{same, same_bytes};
use test_files::{SENDER, stamp, three_works, work_twice};

/// What a run with a failing allocator leaves.
pub(crate) type FailingAllocRun<'a, 'm> = Run<Feed<'a>, Room, &'m FailingAlloc>;

/// The book and the jobs that come back must be as they were handed in: an empty book, and `count` jobs, with nothing
/// written. The next run shows that none was read.
pub(crate) fn is_unbegun<'m>(
    book: &Book<&'m FailingAlloc>,
    jobs: &[MemoryJob],
    count: usize,
) -> Result<(), Fail> {
    knows(book, 0, 0)?;
    same("jobs", &jobs.len(), &count)?;
    for job in jobs {
        same_bytes("an unbegun job's bytes", job.writer.bytes(), b"")?;
    }
    Ok(())
}

/// How a job of a run ended, and what it wrote.
pub(crate) fn ended<'r>(
    run: &'r FailingAllocRun,
    index: usize,
) -> Result<(FileOutcome, &'r [u8]), Fail> {
    let outcome = run.outcomes.get(index).ok_or("an outcome is missing")?;
    let job = run.jobs.get(index).ok_or("a job is missing")?;
    Ok((*outcome, job.writer.bytes()))
}

/// A run, and whether it was refused at first.
pub(crate) type Ran<'a, 'm> = (FailingAllocRun<'a, 'm>, bool);

/// How a run ended. It may have been refused at first, or a job may have been stopped, as `end` says. A refused run has
/// memory when it is run again, so that no job is stopped.
pub(crate) fn end_at_last(is_refused: bool, end: Ended) -> Ended {
    let is_stopped = end?;
    same("stopped, with memory", &(is_refused && is_stopped), &false)?;
    Ok(is_refused || is_stopped)
}

/// Runs jobs with this book once more, which must not be refused again.
fn run_again<'a, 'm>(
    memory: &'m FailingAlloc,
    jobs: Vec<MemoryJob<'a>, &'m FailingAlloc>,
    book: Book<&'m FailingAlloc>,
    stamp: &Stamp,
) -> Result<FailingAllocRun<'a, 'm>, Fail>
    requires few { vec_len jobs < 64 }
    requires opening { is_opening book.history ≡ true }
    requires works { All (λ j. (j.reader.has_failed ≡ false) × (j.writer.has_failed ≡ false)) jobs.items }
{
    match serve_in_turn(memory, jobs, book, stamp) {
        Ok(run) => Ok(run),
        Err(_) => Err(Fail::new("refused again")),
    }
}

/// Runs a job for each of these files in turn, with an empty book; `None` if the list of jobs could not be allocated.
///
/// If the run is refused, the book and the jobs must come back as they were, and are run again.
fn run_at_last<'a, 'm>(
    memory: &'m FailingAlloc,
    alloc: Global,
    files: &[&'a [u8]],
    stamp: &Stamp,
) -> Result<Option<Ran<'a, 'm>>, Fail>
    requires few { length files.now < 64 }
{
    let Ok(jobs) = jobs_of(memory, alloc, files) else {
        return Ok(None);
    };
    match serve_in_turn(memory, jobs, Book::new(memory, 100), stamp) {
        Ok(run) => Ok(Some((run, false))),
        Err(ServeRefused { book, jobs }) => {
            is_unbegun(&book, &jobs, files.len())?;
            Ok(Some((run_again(memory, jobs, book, stamp)?, true)))
        }
    }
}

/// The end of a run whose file holds a work twice.
fn run_of_one(alloc: Global, run: &FailingAllocRun) -> Ended {
    same("outcomes", &(run.outcomes.len(), run.jobs.len()), &(1, 1))?;
    let (outcome, written) = ended(run, 0)?;
    end_of_one(alloc, &run.book, &outcome, written)
}

/// What is decided on a file of three new works.
const THREE: [Decided; 3] = [
    (
        "W1",
        Reply::Accepted {
            work: 1,
            version: 1,
        },
    ),
    (
        "W2",
        Reply::Accepted {
            work: 2,
            version: 1,
        },
    ),
    (
        "W3",
        Reply::Accepted {
            work: 3,
            version: 1,
        },
    ),
];

/// What is decided on the same file once its first `known` works are registered.
pub(crate) fn again(known: usize) -> [Decided<'static>; 3] {
    let mut decided = THREE;
    let mut work: u32 = 0;
    for one in decided.iter_mut().take(known) {
        work = work.saturating_add(1);
        one.1 = Reply::Duplicate { work };
    }
    decided
}

/// The book must hold what was decided for both jobs, the second one after the first, and know those works.
fn holds_both(
    book: &Book<&FailingAlloc>,
    first: usize,
    second: usize,
    decided: &[Decided],
) -> Result<(), Fail> {
    let index = holds_of(book, 0, 1, &THREE, first)?;
    holds_of(book, index, 2, decided, second)?;
    knows(book, first.saturating_add(second), first.max(second))
}

/// The end of a run of one file twice: what is decided for the first job is known to the second. At most one was
/// stopped.
fn run_of_two(alloc: Global, run: &FailingAllocRun) -> Ended {
    same("outcomes", &(run.outcomes.len(), run.jobs.len()), &(2, 2))?;
    let (outcome, written) = ended(run, 0)?;
    let (first, is_first) = end_of(alloc, &outcome, written, &THREE)?;
    let decided = again(first);
    let (outcome, written) = ended(run, 1)?;
    let (second, is_second) = end_of(alloc, &outcome, written, &decided)?;
    holds_both(&run.book, first, second, &decided)?;
    same("both stopped", &(is_first && is_second), &false)?;
    Ok(is_first || is_second)
}

/// Files that are run in turn: one that holds a work twice, or one file twice.
#[derive(Drop)]
struct InTurn<'a> {
    alloc: Global,
    stamp: Stamp,
    files: &'a [&'a [u8]],
    ghost few: { length files.now < 64 },
}

impl InTurn<'_> {
    /// The end of their run.
    fn end_of_run(&self, run: &FailingAllocRun) -> Ended {
        if self.files.len() == 1 {
            run_of_one(self.alloc, run)
        } else {
            run_of_two(self.alloc, run)
        }
    }
}

impl Sweep for InTurn<'_> {
    fn ends(&self, memory: &FailingAlloc) -> Ended {
        match run_at_last(memory, self.alloc, self.files, &self.stamp)? {
            Some((run, is_refused)) => end_at_last(is_refused, self.end_of_run(&run)),
            None => Ok(true),
        }
    }
}

#[test]
fn a_work_twice(rt: HostRuntime) -> Result<(), Fail> {
    let alloc = rt.alloc();
    let stamp = stamp()?;
    let file = work_twice(alloc, SENDER)?;
    let sweep = InTurn {
        alloc,
        stamp,
        files: &[&file],
    };
    refuse_each(alloc, &sweep)
}

#[test]
fn a_file_twice(rt: HostRuntime) -> Result<(), Fail> {
    let alloc = rt.alloc();
    let stamp = stamp()?;
    let file = three_works(alloc)?;
    let sweep = InTurn {
        alloc,
        stamp,
        files: &[&file, &file],
    };
    refuse_each(alloc, &sweep)
}
