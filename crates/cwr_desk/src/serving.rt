//! Jobs at one desk, each on a thread of its own.
ghost use Rattle.std.specs.Prelude.{All, IfOk, IfErr, ◌≡◌, ◌<◌, false, true, vec_len};
ghost use Rattle.std.specs.Thread.{IsSync};
ghost use Rattle.work_registry.specs.Replay.{is_opening};
ghost use Rattle.cwr_engine.specs.Account.{JobAccount};
ghost use Rattle.cwr_engine.specs.WholeRun.{IsRun};
ghost use Rattle.cwr_desk.specs.Ran.{MayWork, HasWorked, MayRun, HaveRun};

use crate::working::work_job;
use byte_streams::{Sink, Source};
use cwr_engine::{FileOutcome, Gate, Job, Run, ServeRefused};
use cwr_record::Stamp;
use registry_desk::{Desk, Seat};
use std::alloc::Allocator;
use std::sync::Wait;
use std::thread::{Threads, join};
use work_registry::Book;

/// Works each job on a thread of its own, all at one book. Job i, counted from 1, is worker i and session i.
///
/// If the runtime refuses a thread, that job is worked on the thread that would have started it. A job that is refused
/// or stopped does not stop the others. There may be at most 63 jobs, and all entries of the book must be of the
/// opening. The run's own memory is allocated first. If that fails no worker is started, and the book and the jobs come
/// back as they were.
///
/// `rt` starts threads and waits, `alloc` allocates, and `jobs` are worked into `book`. `stamp` is that of all
/// acknowledgements, and each worker passes `gate` before and after each transaction.
///
/// # Examples
///
/// Two jobs over bytes in memory, which `both_jobs` makes, into an empty book. The crate `embedding` is the whole
/// program.
///
/// ```rust
/// fn work_both<R: Threads + Wait + Sync>(rt: &R, alloc: Global) -> Option<MemoryRun> {
///     let jobs = both_jobs(alloc).ok()?;
///     let book = Book::new(alloc, 1000);
///     serve(rt, alloc, jobs, book, &stamp()?, &OpenGate).ok()
/// }
/// ```
pub fn serve<
    T: Threads + Wait + Sync,
    R: Source + Send + Drop,
    W: Sink + Send + Drop,
    G: Gate + Sync,
    A: Allocator + Copy + Drop + Send + Sync,
>(
    rt: &T,
    alloc: A,
    mut jobs: Vec<Job<R, W>, A>,
    book: Book<A>,
    stamp: &Stamp,
    gate: &G,
) -> Result<Run<R, W, A>, ServeRefused<R, W, A>>
    requires few { vec_len jobs < 64 }
    requires opening { is_opening book.history ≡ true }
    requires works { All (λ j. (R.has_failed j.reader ≡ false) × (W.has_failed j.writer ≡ false)) jobs.items }
    ensures run { IfOk result (λ run. IsRun (JobAccount R.Source W.Sink stamp.now (G.may_shut gate.now))
        book run.book jobs.items run.jobs.items run.outcomes.items) }
    ensures back { IfErr result (λ back. (back.book ≡ book) × (back.jobs.items ≡ jobs.items)) }
{
    let Ok(outcomes) = Vec::with_capacity(alloc, jobs.len()) else {
        return Err(ServeRefused { book, jobs });
    };
    let (desk, opening) = match Desk::open(alloc, book, jobs.len() as u32 + 1) {
        Ok(opened) => opened,
        Err(refused) => {
            let book = refused.book;
            return Err(ServeRefused { book, jobs });
        }
    };
    jobs.reverse();
    let (opening, mut jobs, mut outcomes) = serve_from(
        rt, alloc, &desk, opening, jobs, outcomes, stamp, gate,
    );
    jobs.reverse();
    outcomes.reverse();
    let book = desk.close(opening);
    Ok(Run {
        book,
        outcomes,
        jobs,
    })
}

/// Works the jobs, the last of the list first, each at a new seat on a thread of its own.
///
/// `rt` starts threads and waits, and `alloc` allocates. `opening` is the opening seat of `desk`, which gives the seats
/// and meets them again. `jobs` are worked. `outcomes` is empty at first, and the outcomes and the jobs come back in
/// the order of the list. `stamp` is that of all acknowledgements, and `gate` is passed before and after each
/// transaction.
fn serve_from<
    T: Threads + Wait + Sync,
    R: Source + Send + Drop,
    W: Sink + Send + Drop,
    G: Gate + Sync,
    A: Allocator + Copy + Drop + Send + Sync,
>(
    rt: &T,
    alloc: A,
    desk: &Desk<A>,
    mut opening: Seat<A>,
    mut jobs: Vec<Job<R, W>, A>,
    outcomes: Vec<FileOutcome, A>,
    stamp: &Stamp,
    gate: &G,
) -> (Seat<A>, Vec<Job<R, W>, A>, Vec<FileOutcome, A>)
    requires ready { MayRun R.Source W.Sink desk.now opening jobs outcomes }
    ensures ran { HaveRun (JobAccount R.Source W.Sink stamp.now (G.may_shut gate.now))
        desk.now opening result.0 jobs result.1 outcomes result.2 }
{
    match jobs.pop() {
        None => (opening, jobs, outcomes),
        Some(job) => {
            let seat = desk.split(&mut opening);
            let ((seat, job, outcome), (mut opening, mut jobs, mut outcomes)) = join(
                rt,
                move || -> (Seat<A>, Job<R, W>, FileOutcome)
                    requires { MayWork R.Source W.Sink desk.now seat job }
                    ensures { HasWorked (JobAccount R.Source W.Sink stamp.entry.now (G.may_shut gate.entry.now))
                        desk.entry.now seat result.0 job result.1 result.2 }
                { work_job(rt, alloc, desk, seat, job, stamp, gate) },
                move || -> (Seat<A>, Vec<Job<R, W>, A>, Vec<FileOutcome, A>)
                    requires { IsSync T.row × IsSync G.row × MayRun R.Source W.Sink desk.now opening jobs outcomes }
                    ensures { HaveRun (JobAccount R.Source W.Sink stamp.entry.now (G.may_shut gate.entry.now))
                        desk.entry.now opening result.0 jobs result.1 outcomes result.2 }
                { serve_from(rt, alloc, desk, opening, jobs, outcomes, stamp, gate) },
            );
            desk.meet(&mut opening, seat);
            let Ok(()) = jobs.push(job) else {
                unreachable!()
            };
            let Ok(()) = outcomes.push(outcome) else {
                unreachable!()
            };
            (opening, jobs, outcomes)
        }
    }
}
