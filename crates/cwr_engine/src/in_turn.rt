//! Jobs one after the other, at one book.
ghost use Rattle.std.specs.Prelude.{All, IfOk, IfErr, reverse, ◌≡◌, ◌+◌, ◌<◌, ◌≤◌, [], true, false, vec_len, vec_capacity};
ghost use Rattle.work_registry.specs.Replay.{is_opening};
ghost use Rattle.cwr_engine.specs.Account.{JobAccount};
ghost use Rattle.cwr_engine.specs.WholeRun.{InTurn, IsRun, IsWorkedAlone, TookTurns};

use crate::engine::work_file;
use crate::gates::OpenGate;
use crate::jobs::{Job, Run, ServeRefused};
use crate::outcome::FileOutcome;
use crate::submit::Lent;
use byte_streams::{Sink, Source};
use cwr_record::Stamp;
use std::alloc::Allocator;
use std::mem::replace;
use work_registry::Book;

/// Works jobs one after the other on one thread: job i, counted from 1, is session i of the book.
///
/// A job that is refused or stopped does not stop the next one. There are at most 63 jobs, and the entries of the book
/// are all of its opening. The run's own memory is asked for first. Where it is refused no job is begun, and the book
/// and the jobs come back as they were.
///
/// # Examples
///
/// One job into an empty book.
///
/// ```rust
/// let mut jobs = Vec::new(alloc);
/// jobs.push(job)?;
/// match serve_in_turn(alloc, jobs, Book::new(alloc, 100), &stamp) {
///     Ok(run) => Ok(run),
///     Err(_) => Err(Fail::new("memory")),
/// }
/// ```
pub fn serve_in_turn<R: Source + Drop, W: Sink + Drop, A: Allocator + Copy + Drop>(
    alloc: A,
    mut jobs: Vec<Job<R, W>, A>,
    book: Book<A>,
    stamp: &Stamp,
) -> Result<Run<R, W, A>, ServeRefused<R, W, A>>
    requires few { vec_len jobs < 64 }
    requires opening { is_opening book.history ≡ true }
    requires works { All (λ j. (R.has_failed j.reader ≡ false) × (W.has_failed j.writer ≡ false)) jobs.items }
    ensures run { IfOk result (λ run. IsRun (JobAccount R.Source W.Sink stamp.now false)
        book run.book jobs.items run.jobs.items run.outcomes.items) }
    ensures in_turn { IfOk result (λ run. InTurn book.limit run.book.history 1 book.history run.outcomes.items) }
    ensures back { IfErr result (λ back. (back.book ≡ book) × (back.jobs.items ≡ jobs.items)) }
{
    let Ok(outcomes) = Vec::with_capacity(alloc, jobs.len()) else {
        return Err(ServeRefused { book, jobs });
    };
    jobs.reverse();
    let (book, mut jobs, mut outcomes) = turn_from(alloc, book, 1, jobs, outcomes, stamp);
    jobs.reverse();
    outcomes.reverse();
    book.recall();
    Ok(Run {
        book,
        outcomes,
        jobs,
    })
}

/// Works the jobs of a list, the last one first. Returns the book, the jobs and their outcomes, both in the order of
/// the list.
///
/// - `alloc` is where memory comes from.
/// - `book` is where the calls are handed in.
/// - `session` is that of the last job, from 1. Each job before it has the next session.
/// - `jobs` are the jobs.
/// - `outcomes` is empty, and has room for the outcome of each job.
/// - `stamp` is who acknowledges, and when.
fn turn_from<R: Source + Drop, W: Sink + Drop, A: Allocator + Copy + Drop>(
    alloc: A,
    book: Book<A>,
    session: u32,
    mut jobs: Vec<Job<R, W>, A>,
    outcomes: Vec<FileOutcome, A>,
    stamp: &Stamp,
) -> (Book<A>, Vec<Job<R, W>, A>, Vec<FileOutcome, A>)
    requires few { session + vec_len jobs ≤ 64 }
    requires works { All (λ j. (R.has_failed j.reader ≡ false) × (W.has_failed j.writer ≡ false)) jobs.items }
    requires none { outcomes.items ≡ [] }
    requires room { vec_len jobs ≤ vec_capacity outcomes }
    ensures took { TookTurns (JobAccount R.Source W.Sink stamp.now false)
        session (reverse jobs.items) (reverse result.1.items) (reverse result.2.items) book result.0 }
    ensures jobs { (vec_len result.1 ≡ vec_len jobs) × (vec_capacity jobs ≤ vec_capacity result.1) }
    ensures outcomes { (vec_len result.2 ≡ vec_len jobs) × (vec_capacity outcomes ≤ vec_capacity result.2) }
{
    match jobs.pop() {
        None => (book, jobs, outcomes),
        Some(job) => {
            let (book, job, outcome) = work_alone(alloc, book, session, job, stamp);
            let (book, mut jobs, mut outcomes) = turn_from(
                alloc,
                book,
                session + 1,
                jobs,
                outcomes,
                stamp,
            );
            let Ok(()) = jobs.push(job) else {
                unreachable!()
            };
            let Ok(()) = outcomes.push(outcome) else {
                unreachable!()
            };
            (book, jobs, outcomes)
        }
    }
}

/// Works one job at a book that nobody else writes. Returns the book, the job and its outcome.
///
/// - `alloc` is where memory comes from.
/// - `book` is where the calls are handed in.
/// - `session` is the session that they get in the book, from 0 to 63.
/// - `job` is the job. Neither its reader nor its writer has failed.
/// - `stamp` is who acknowledges, and when.
///
/// It takes no memory for a run, and one session may work job after job. So a book serves as many files as its limit
/// allows, each decided after all that came before.
pub fn work_alone<R: Source + Drop, W: Sink + Drop, A: Allocator + Copy + Drop>(
    alloc: A,
    mut book: Book<A>,
    session: u32,
    mut job: Job<R, W>,
    stamp: &Stamp,
) -> (Book<A>, Job<R, W>, FileOutcome)
    requires few { session ≤ 63 }
    requires works { (R.has_failed job.reader ≡ false) × (W.has_failed job.writer ≡ false) }
    ensures { IsWorkedAlone (JobAccount R.Source W.Sink stamp.now false)
        session book result.0 job result.1 result.2 }
{
    let registry = Lent {
        book: &mut book,
        session,
    };
    let (registry, outcome) = work_file(
        alloc,
        registry,
        &OpenGate,
        session,
        &mut job.reader,
        &mut job.writer,
        stamp,
    );
    // The book is taken out of `registry`, whose contract says what has become of it.
    let worked = replace(registry.book, Book::new(alloc, 1));
    (worked, job, outcome)
}
