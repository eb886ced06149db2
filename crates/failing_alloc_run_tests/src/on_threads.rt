//! Jobs on threads of their own.
ghost use Rattle.std.specs.Prelude.{◌≡◌, ◌<◌, All, false, length, true, vec_len};
ghost use Rattle.work_registry.specs.Replay.{is_opening};

use crate::ends::{Decided, end_of, knows};
use crate::in_turn::{FailingAllocRun, Ran, end_at_last, ended, is_unbegun};
use crate::jobs::{MemoryJob, jobs_of};
use cwr_desk::{Book, OpenGate, Reply, ServeRefused, Stamp, serve};
use failing_alloc::{Ended, FailingAlloc, check_refusal};
use std::alloc::Global;
use std::sync::Wait;
use std::test::Fail;
use std::thread::Threads;
use test_comparisons::same;
use test_files::{stamp, three_works};

/// The works of the file, in order.
const NUMBERS: [&str; 3] = ["W1", "W2", "W3"];

/// Appends what the book says was decided on the transactions of a session's file, in order.
fn put_decided(
    decided: &mut Vec<Decided<'static>>,
    book: &Book<&FailingAlloc>,
    session: u32,
) -> Result<(), Fail> {
    for entry in book.history() {
        if entry.session() == session {
            let number = NUMBERS.get(decided.len()).ok_or("an entry too much")?;
            decided.push((*number, entry.reply()))?;
        }
    }
    Ok(())
}

/// A job must have been acknowledged with all decisions that the book has, or stopped for memory after these with
/// nothing written. Returns their number, and whether it was stopped.
fn job_of(alloc: Global, run: &FailingAllocRun, session: u32) -> Result<(usize, bool), Fail> {
    let mut decided = Vec::new(alloc);
    put_decided(&mut decided, &run.book, session)?;
    job_with(alloc, run, session, &decided)
}

/// The same with the decisions that the book has.
fn job_with(
    alloc: Global,
    run: &FailingAllocRun,
    session: u32,
    decided: &[Decided],
) -> Result<(usize, bool), Fail> {
    let (outcome, written) = ended(run, session.saturating_sub(1) as usize)?;
    let (count, is_stopped) = end_of(alloc, &outcome, written, decided)?;
    same("handed in", &count, &decided.len())?;
    same("the whole file", &(is_stopped || count == 3), &true)?;
    Ok((count, is_stopped))
}

/// The number of works that were accepted, by the book.
fn works_of(book: &Book<&FailingAlloc>) -> usize {
    let mut count: usize = 0;
    for entry in book.history() {
        if matches!(entry.reply(), Reply::Accepted { .. }) {
            count = count.saturating_add(1);
        }
    }
    count
}

/// The end of a run of one file twice, at once.
fn run_at_once(alloc: Global, run: &FailingAllocRun) -> Ended {
    same("outcomes", &(run.outcomes.len(), run.jobs.len()), &(2, 2))?;
    let (first, is_first) = job_of(alloc, run, 1)?;
    let (second, is_second) = job_of(alloc, run, 2)?;
    let works = first.max(second);
    same("works", &works_of(&run.book), &works)?;
    knows(&run.book, first.saturating_add(second), works)?;
    Ok(is_first || is_second)
}

/// Serves jobs once more, which must not be refused again. `rt` starts threads and waits, and `memory` allocates.
/// `jobs` are worked into `book`, and `stamp` is that of the acknowledgements.
fn serve_again<'a, 'm, T: Threads + Wait + Sync>(
    rt: &T,
    memory: &'m FailingAlloc,
    jobs: Vec<MemoryJob<'a>, &'m FailingAlloc>,
    book: Book<&'m FailingAlloc>,
    stamp: &Stamp,
) -> Result<FailingAllocRun<'a, 'm>, Fail>
    requires few { vec_len jobs < 64 }
    requires opening { is_opening book.history ≡ true }
    requires works { All (λ j. (j.reader.has_failed ≡ false) × (j.writer.has_failed ≡ false)) jobs.items }
{
    match serve(rt, memory, jobs, book, stamp, &OpenGate) {
        Ok(run) => Ok(run),
        Err(_) => Err(Fail::new("refused again")),
    }
}

/// Serves a job for each of these files at once, with an empty book; `None` if the list of jobs could not be allocated.
/// If that is refused, the book and the jobs must come back as they were, and are served again.
///
/// `rt` starts threads and waits. `memory` allocates, but for the writers, for which `alloc` does. `files` are worked,
/// and `stamp` is that of the acknowledgements.
fn serve_at_last<'a, 'm, T: Threads + Wait + Sync>(
    rt: &T,
    memory: &'m FailingAlloc,
    alloc: Global,
    files: &[&'a [u8]],
    stamp: &Stamp,
) -> Result<Option<Ran<'a, 'm>>, Fail>
    requires few { length files.now < 64 }
{
    let Ok(jobs) = jobs_of(memory, alloc, files) else {
        return Ok(None);
    };
    match serve(rt, memory, jobs, Book::new(memory, 100), stamp, &OpenGate) {
        Ok(run) => Ok(Some((run, false))),
        Err(ServeRefused { book, jobs }) => {
            is_unbegun(&book, &jobs, files.len())?;
            Ok(Some((serve_again(rt, memory, jobs, book, stamp)?, true)))
        }
    }
}

/// Serves one file twice, at once.
///
/// `rt` starts threads and waits. `memory` allocates, but for the writers and what is expected, for which `alloc` does.
/// `stamp` is that of the acknowledgements, and `file` is worked.
///
/// It is no `Sweep`, since a trait's method does not know of a type that threads may share it.
fn served<T: Threads + Wait + Sync>(
    rt: &T,
    memory: &FailingAlloc,
    alloc: Global,
    stamp: &Stamp,
    file: &[u8],
) -> Ended {
    match serve_at_last(rt, memory, alloc, &[file, file], stamp)? {
        Some((run, is_refused)) => end_at_last(is_refused, run_at_once(alloc, &run)),
        None => Ok(true),
    }
}

/// Serves a file with one request refused, which must be reported. `rt` starts threads and waits, and `alloc` is the
/// allocator within. `stamp` is that of the acknowledgements, and `file` is worked. `n` is the request, from 1.
fn serve_refused<T: Threads + Wait + Sync>(
    rt: &T,
    alloc: Global,
    stamp: &Stamp,
    file: &[u8],
    n: u64,
) -> Ended {
    let memory = FailingAlloc::nth(alloc, n);
    let is_refused = served(rt, &memory, alloc, stamp, file)?;
    check_refusal(&memory, n, is_refused)
}

#[test]
fn one_file_twice_at_once(rt: HostRuntime) -> Result<(), Fail> {
    let alloc = rt.alloc();
    let stamp = stamp()?;
    let file = three_works(alloc)?;
    for n in 1..201 {
        serve_refused(&rt, alloc, &stamp, &file, n)?;
    }
    Ok(())
}
