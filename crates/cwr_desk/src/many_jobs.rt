//! Any number of jobs, decided in their order in groups, each group on threads.
ghost use Rattle.std.specs.Prelude.{IfOk, IfErr, ◌≡◌, ◌<◌, false, true, vec_len};
ghost use Rattle.work_registry.specs.Replay.{is_opening};
ghost use Rattle.cwr_engine.specs.Account.{JobAccount};
ghost use Rattle.cwr_engine.specs.WholeRun.{InTurn, IsRun};
ghost use Rattle.group_runs.specs.LongRun.{IsCutShort, IsLongRun};
ghost use Rattle.group_runs.specs.Standing.{AreWorking};

use crate::in_order::serve_in_order;
use byte_streams::{Sink, Source};
use cwr_engine::{Job, Run, ServeRefused, serve_in_turn};
use cwr_record::Stamp;
use group_runs::{Between, Group, RunCutShort, RunListener};
use std::alloc::Allocator;
use std::thread::Threads;
use work_registry::Book;

/// The number of transactions that a file of a group has on the average, below which the files of the next group are
/// taken to be short: to start a thread would take longer than to read one.
const SHORT: usize = 100;

/// Works any number of jobs in their order at one book, with threads: in groups of at most 63, each as
/// [`serve_in_order`](crate::serve_in_order) works a run, from the book that the group before left, with its entries
/// made those of the opening.
///
/// So all entries of the book that comes back are of the opening, and job after job has its piece of the history.
/// `listener` is told of each group as it ends. Behind a group whose files have fewer than 100 transactions each, on the
/// average, the next one is worked in turn, without a thread.
///
/// A job that is refused or stopped does not stop the next one. All entries of `book` must be of the opening. Where
/// memory for a group is refused, the run ends before it: the book has what the groups before decided, and the other
/// jobs come back as they were. Memory for the lists of the whole run is asked for before the first job.
///
/// `rt` starts threads, `alloc` allocates, and `jobs` are worked into `book`. `stamp` is that of all acknowledgements.
pub fn serve_all<
    T: Threads + Sync,
    R: Source + Send + Drop,
    W: Sink + Send + Drop,
    A: Allocator + Copy + Drop + Send + Sync,
    L: RunListener,
>(
    rt: &T,
    alloc: A,
    jobs: Vec<Job<R, W>, A>,
    book: Book<A>,
    stamp: &Stamp,
    listener: &L,
) -> Result<Run<R, W, A>, RunCutShort<R, W, A>>
    requires opening { is_opening book.history ≡ true }
    requires works { AreWorking R.Source W.Sink jobs.items }
    ensures run { IfOk result (λ run. IsLongRun (JobAccount R.Source W.Sink stamp.now false)
        book run.book jobs.items run.jobs.items run.outcomes.items) }
    ensures opened { IfOk result (λ run. is_opening run.book.history ≡ true) }
    ensures cut_short { IfErr result (λ cut. IsCutShort (JobAccount R.Source W.Sink stamp.now false)
        book cut.book jobs.items cut.jobs.items cut.outcomes.items) }
{
    let mut between = Between::begin(alloc, jobs, book)?;
    let mut are_short = false;
    while !between.left.is_empty() {
        let entries = between.run.book.len();
        let (taken, group) = between.take_group()?;
        let files = group.jobs.len();
        let served = serve_group(rt, alloc, group, stamp, are_short);
        between = taken.put_group(served, listener)?;
        let added = between.run.book.len().saturating_sub(entries);
        are_short = added < files.saturating_mul(SHORT);
    }
    Ok(between.run)
}

/// Works a group, on threads, or on this one if its files are taken to be short.
///
/// `rt` starts threads, and `alloc` allocates. `group` has at most 63 jobs and the book where they are decided, and
/// `stamp` is that of all acknowledgements. `are_short` says whether the files of the group before were short.
fn serve_group<
    T: Threads + Sync,
    R: Source + Send + Drop,
    W: Sink + Send + Drop,
    A: Allocator + Copy + Drop + Send + Sync,
>(
    rt: &T,
    alloc: A,
    group: Group<R, W, A>,
    stamp: &Stamp,
    are_short: bool,
) -> Result<Run<R, W, A>, ServeRefused<R, W, A>>
    requires few { vec_len group.jobs < 64 }
    requires opening { is_opening group.book.history ≡ true }
    requires works { AreWorking R.Source W.Sink group.jobs.items }
    ensures run { IfOk result (λ run. IsRun (JobAccount R.Source W.Sink stamp.now false)
        group.book run.book group.jobs.items run.jobs.items run.outcomes.items) }
    ensures in_turn { IfOk result (λ run. InTurn group.book.limit run.book.history 1 group.book.history run.outcomes.items) }
    ensures back { IfErr result (λ back. (back.book ≡ group.book) × (back.jobs.items ≡ group.jobs.items)) }
{
    let Group { book, jobs } = group;
    if are_short {
        serve_in_turn(alloc, jobs, book, stamp)
    } else {
        serve_in_order(rt, alloc, jobs, book, stamp)
    }
}
