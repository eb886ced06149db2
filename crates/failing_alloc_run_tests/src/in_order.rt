//! Jobs decided in their order, whose files are read on threads.
ghost use Rattle.std.specs.Prelude.{◌≡◌, ◌<◌, All, false, length, true, vec_len};
ghost use Rattle.work_registry.specs.Replay.{is_opening};

use crate::ends::{Decided, end_of, holds_of, knows};
use crate::in_turn::{FailingAllocRun, Ran, again, ended, is_unbegun};
use crate::jobs::{MemoryJob, jobs_of};
use cwr_desk::{Book, ServeRefused, Stamp, serve_in_order};
use failing_alloc::{FailingAlloc, check_refusal};
use std::alloc::Global;
use std::test::Fail;
use std::thread::Threads;
use test_comparisons::same;
use test_files::{plain_file, stamp, three_works};

/// Files of new works, and the number of works of each: W1 alone, or W1, W2 and W3.
#[derive(Clone, Copy)]
struct Files<'a> {
    bytes: &'a [&'a [u8]],
    works: &'a [usize],
}

/// What the jobs of a run left, as far as they were looked at.
#[derive(Drop)]
struct JobsSeen {
    /// The number of entries of the book that are theirs: its first ones.
    entries: usize,
    /// The number of works that are registered.
    known: usize,
    /// The place of the job that was stopped for memory, if one was.
    stopped: Option<usize>,
}

impl JobsSeen {
    /// Looks at the next job, in this place: it was acknowledged, or stopped as the only one. The next entries of the
    /// book are the first of these decisions, or all.
    fn look_at(
        &mut self,
        alloc: Global,
        run: &FailingAllocRun,
        place: usize,
        decided: &[Decided],
    ) -> Result<(), Fail> {
        let (outcome, written) = ended(run, place)?;
        let (count, is_stopped) = end_of(alloc, &outcome, written, decided)?;
        let session = u32::try_from(place)?.saturating_add(1);
        self.entries = holds_of(&run.book, self.entries, session, decided, count)?;
        self.known = self.known.max(count);
        if is_stopped {
            same("stopped before", &self.stopped, &None)?;
            self.stopped = Some(place);
        }
        Ok(())
    }
}

/// The end of a run of files with these numbers of works: what is decided for one job is known to those behind it.
/// Returns which was stopped for memory, if one was.
fn stopped_of(
    alloc: Global,
    run: &FailingAllocRun,
    works: &[usize],
) -> Result<Option<usize>, Fail> {
    let counts = (run.outcomes.len(), run.jobs.len());
    same("outcomes", &counts, &(works.len(), works.len()))?;
    let mut so_far = JobsSeen {
        entries: 0,
        known: 0,
        stopped: None,
    };
    for (place, works) in works.iter().enumerate() {
        let decided = again(so_far.known);
        let decided = decided.get(..*works).ok_or("more works than three")?;
        so_far.look_at(alloc, run, place, decided)?;
    }
    knows(&run.book, so_far.entries, so_far.known)?;
    Ok(so_far.stopped)
}

/// What allocates: what makes the list of the jobs, the run, and each of its jobs.
#[derive(Clone, Copy)]
enum Asks {
    List,
    Run,
    Job(usize),
}

/// Whose allocation failed, if the run ended as it must: one that was refused at first has memory when it is run again,
/// so that no job is stopped. `stopped` says which job was, or what was wrong.
fn refused_of(
    is_refused: bool,
    stopped: Result<Option<usize>, Fail>,
) -> Result<Option<Asks>, Fail> {
    match stopped? {
        Some(_) if is_refused => Err(Fail::new("stopped, with memory")),
        Some(place) => Ok(Some(Asks::Job(place))),
        None => Ok(is_refused.then_some(Asks::Run)),
    }
}

/// Runs jobs once more, which must not be refused again. `rt` starts threads, and `memory` allocates. `jobs` are worked
/// into `book`, and `stamp` is that of the acknowledgements.
fn run_again<'a, 'm, T: Threads + Sync>(
    rt: &T,
    memory: &'m FailingAlloc,
    jobs: Vec<MemoryJob<'a>, &'m FailingAlloc>,
    book: Book<&'m FailingAlloc>,
    stamp: &Stamp,
) -> Result<FailingAllocRun<'a, 'm>, Fail>
    requires few { vec_len jobs < 64 }
    requires opening { is_opening book.history ≡ true }
    requires works { All (λ j. (j.reader.has_failed ≡ false) × (j.writer.has_failed ≡ false)) jobs.items }
{
    match serve_in_order(rt, memory, jobs, book, stamp) {
        Ok(run) => Ok(run),
        Err(_) => Err(Fail::new("refused again")),
    }
}

/// Runs a job for each of these files in their order, with an empty book; `None` if the list of jobs could not be
/// allocated. If the run is refused, the book and the jobs must come back as they were, and are run again.
///
/// `rt` starts threads. `memory` allocates, but for the writers, for which `alloc` does. `files` are worked, and
/// `stamp` is that of the acknowledgements.
fn run_at_last<'a, 'm, T: Threads + Sync>(
    rt: &T,
    memory: &'m FailingAlloc,
    alloc: Global,
    files: &[&'a [u8]],
    stamp: &Stamp,
) -> Result<Option<Ran<'a, 'm>>, Fail>
    requires few { length files.now < 64 }
{
    let Ok(jobs) = jobs_of(memory, alloc, files) else {
        return Ok(None);
    };
    match serve_in_order(rt, memory, jobs, Book::new(memory, 100), stamp) {
        Ok(run) => Ok(Some((run, false))),
        Err(ServeRefused { book, jobs }) => {
            is_unbegun(&book, &jobs, files.len())?;
            Ok(Some((run_again(rt, memory, jobs, book, stamp)?, true)))
        }
    }
}

/// Runs files with this allocator, and returns whose allocation failed. `rt` starts threads. `memory` allocates, but
/// for the writers and what is expected, for which `alloc` does. `stamp` is that of the acknowledgements, and `files`
/// are worked.
fn run_in<T: Threads + Sync>(
    rt: &T,
    memory: &FailingAlloc,
    alloc: Global,
    stamp: &Stamp,
    files: Files,
) -> Result<Option<Asks>, Fail>
    requires few { length files.bytes.now < 64 }
{
    match run_at_last(rt, memory, alloc, files.bytes, stamp)? {
        Some((run, is_refused)) => refused_of(is_refused, stopped_of(alloc, &run, files.works)),
        None => Ok(Some(Asks::List)),
    }
}

/// Runs files with one request refused, which must be reported. `rt` starts threads, and `alloc` is the allocator
/// within. `stamp` is that of the acknowledgements, and `files` are worked. `n` is the request, from 1.
fn run_refused<T: Threads + Sync>(
    rt: &T,
    alloc: Global,
    stamp: &Stamp,
    files: Files,
    n: u64,
) -> Result<Option<Asks>, Fail>
    requires few { length files.bytes.now < 64 }
{
    let memory = FailingAlloc::nth(alloc, n);
    let refused = run_in(rt, &memory, alloc, stamp, files)?;
    check_refusal(&memory, n, refused.is_some())?;
    Ok(refused)
}

/// Whose allocation failed in any run.
#[derive(Drop)]
struct WereRefused {
    list: bool,
    run: bool,
    jobs: Vec<bool>,
}

impl WereRefused {
    fn add(&mut self, who: Asks) -> Result<(), Fail> {
        match who {
            Asks::List => self.list = true,
            Asks::Run => self.run = true,
            Asks::Job(place) => *self.jobs.get_mut(place).ok_or("a job")? = true,
        }
        Ok(())
    }

    /// Each must have failed at least once.
    fn expect_all(&self) -> Result<(), Fail> {
        same("the list was refused", &self.list, &true)?;
        same("the run was refused", &self.run, &true)?;
        same("each job was stopped", &self.jobs.contains(&false), &false)
    }
}

/// More requests than a run makes.
const MANY: u64 = 1000;

/// Runs files once for each request that they make, with that one refused, and once more with none refused.
fn refuse_each<T: Threads + Sync>(rt: &T, alloc: Global, files: Files) -> Result<(), Fail>
    requires few { length files.bytes.now < 64 }
{
    let stamp = stamp()?;
    let mut were_refused = WereRefused {
        list: false,
        run: false,
        jobs: vec![in alloc; false; files.works.len()]?,
    };
    for n in 1..MANY {
        match run_refused(rt, alloc, &stamp, files, n)? {
            Some(who) => were_refused.add(who)?,
            None => return were_refused.expect_all(),
        }
    }
    Err(Fail::new("no end of requests"))
}

#[test]
fn three_files_of_which_two_are_the_same(rt: HostRuntime) -> Result<(), Fail> {
    let alloc = rt.alloc();
    let one = plain_file(alloc)?;
    let three = three_works(alloc)?;
    let files = Files {
        bytes: &[&one, &three, &three],
        works: &[1, 3, 3],
    };
    refuse_each(&rt, alloc, files)
}

/// The files of the second group are read while those of the first one are decided.
#[test]
fn files_of_two_groups(rt: HostRuntime) -> Result<(), Fail> {
    let alloc = rt.alloc();
    let one = plain_file(alloc)?;
    let three = three_works(alloc)?;
    let files = Files {
        bytes: &[
            &one, &one, &three, &one, &one, &one, &one, &one, &three, &one,
        ],
        works: &[1, 1, 3, 1, 1, 1, 1, 1, 3, 1],
    };
    refuse_each(&rt, alloc, files)
}
