//! A job in three steps, which can run on threads beside those of other jobs. Only the second has the book.
ghost use Rattle.std.specs.Prelude.{◌≡◌, ◌≤◌, List, false, IfOk, IfErr, IsErrAnd};
ghost use Rattle.cwr_grammar.specs.RawParts.{RawParts};
ghost use Rattle.cwr_engine.specs.Account.{max_file_bytes};
ghost use Rattle.cwr_engine.specs.Causes.{outcome_of};
ghost use Rattle.cwr_engine.specs.Judged.{AreJudged};
ghost use Rattle.cwr_engine.specs.JobSteps.{HasAnswered, IsAnsweredWhole, WasDecided, WasRead, entries_at};
ghost use Rattle.cwr_engine.specs.WholeRun.{is_full};
ghost use Rattle.cwr_engine.specs.declared.jobs.Job.{Job};

use crate::answered::AnsweredFile;
use crate::engine::{answer_file, hand_in_file, unjudged};
use crate::gates::OpenGate;
use crate::jobs::Job;
use crate::judged::{JudgedFile, judge_source};
use crate::limits::MAX_BYTES;
use crate::outcome::FileOutcome;
use crate::submit::Lent;
use byte_streams::{Sink, Source};
use cwr_record::Stamp;
use cwr_source::{SourceRefused, WINDOW};
use std::alloc::{Allocator, Global};
use std::mem::replace;
use work_registry::Book;

/// A job whose file was read to its end, or as far as it could be.
#[derive(Drop)]
pub struct ReadJob<R, W, A: Allocator = Global> {
    /// The job, with what is left in its reader.
    pub job: Job<R, W>,
    /// The file, judged, or why it is not.
    pub file: Result<JudgedFile<A>, SourceRefused>,
}

/// A job whose transactions were decided, up to the first that got no reply.
#[derive(Drop)]
pub struct DecidedJob<R, W, A: Allocator = Global> {
    /// The job, to whose writer nothing was written.
    pub job: Job<R, W>,
    /// The file, with a reply to each of its transactions, or how the job has ended.
    pub file: Result<AnsweredFile<A>, FileOutcome>,
}

/// Reads the file of a job to its end and judges it, as [`work_alone`](crate::work_alone) does before it decides.
pub fn read_job<R: Source + Drop, W: Drop, A: Allocator + Copy>(
    alloc: A,
    mut job: Job<R, W>,
) -> ReadJob<R, W, A>
    requires reads { R.has_failed job.reader ≡ false }
    ensures { WasRead R.Source job result }
{
    let file = judge_source(alloc, &mut job.reader, MAX_BYTES, WINDOW);
    ReadJob { job, file }
}

/// Hands in the transactions of a job's file, in file order, at a book that nobody else writes, as a session from 0 to
/// 63.
///
/// The book comes back with the job. A transaction that gets no reply ends the job, and the entries made before it
/// stay.
pub fn decide_job<R: Source + Drop, W: Sink + Drop, A: Allocator + Copy + Drop>(
    alloc: A,
    mut book: Book<A>,
    session: u32,
    read: ReadJob<R, W, A>,
) -> (Book<A>, DecidedJob<R, W, A>)
    requires few { session ≤ 63 }
    requires read { (job : Job R W) × WasRead R.Source job read }
    ensures limit { result.0.limit ≡ book.limit }
    ensures job { result.1.job ≡ read.job }
    ensures unjudged { IfErr read.file (λ why. (result.0 ≡ book) × IsErrAnd result.1.file (λ outcome. outcome ≡ outcome_of why)) }
    ensures answered { IfOk read.file (λ file. IfOk result.1.file (λ all. (ts : List RawParts) → AreJudged max_file_bytes file.header ts file.transactions.items
        → IsAnsweredWhole session file.header ts all (entries_at session book) (entries_at session result.0))) }
    ensures decided { (job : Job R W) → WasRead R.Source job read
        → WasDecided R.Source W.Sink session job result.1 (is_full result.0) (entries_at session book) (entries_at session result.0) }
{
    let ReadJob { job, file } = read;
    match file {
        Ok(file) => {
            let registry = Lent {
                book: &mut book,
                session,
            };
            let (registry, file) = hand_in_file(alloc, registry, &OpenGate, session, file);
            // The book is taken out of `registry`, whose contract says what has become of it.
            let book = replace(registry.book, Book::new(alloc, 1));
            (book, DecidedJob { job, file })
        }
        Err(refused) => {
            let file = Err(unjudged(refused));
            (book, DecidedJob { job, file })
        }
    }
}

/// Writes the acknowledgement of a job whose transactions all got replies, and returns how the job ended.
///
/// For a job that has ended already nothing is written.
pub fn answer_job<R: Source + Drop, W: Sink + Drop, A: Allocator + Copy + Drop>(
    alloc: A,
    decided: DecidedJob<R, W, A>,
    stamp: &Stamp,
) -> (Job<R, W>, FileOutcome)
    requires writes { W.has_failed decided.job.writer ≡ false }
    ensures answered { HasAnswered R.Source W.Sink stamp.now decided result.0 result.1 }
    ensures ended { IfErr decided.file (λ outcome. (result.0 ≡ decided.job) × (result.1 ≡ outcome)) }
{
    let DecidedJob { mut job, file } = decided;
    match file {
        Ok(file) => {
            let outcome = answer_file(alloc, &mut job.writer, stamp, &file);
            (job, outcome)
        }
        Err(outcome) => (job, outcome),
    }
}
