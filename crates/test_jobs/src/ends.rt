//! The required outcomes of files.

use crate::jobs::MemoryRun;
use cwr_desk::{Book, FileOutcome, Reply};
use std::test::Fail;
use test_comparisons::{same, same_bytes, same_lists};

/// A file of one transaction was acknowledged.
pub const ACKED: FileOutcome = FileOutcome::Acked { transactions: 1 };

/// A work was accepted, in this version.
pub fn accepted(work: u32, version: u32) -> Reply {
    Reply::Accepted { work, version }
}

/// The book must hold these replies of these sessions, in order.
pub fn expect_history(book: &Book, wanted: &[(u32, Reply)]) -> Result<(), Fail> {
    for (entry, pair) in book.history().iter().zip(wanted) {
        same(
            "a session and its reply",
            &(entry.session(), entry.reply()),
            pair,
        )?;
    }
    same("entries", &book.history().len(), &wanted.len())
}

/// The jobs of a run must have ended like this, in order.
pub fn expect_ends(run: &MemoryRun, wanted: &[FileOutcome]) -> Result<(), Fail> {
    same_lists("how the jobs ended", &run.outcomes, wanted)
}

/// The writers of a run's jobs must have taken these bytes, in order.
pub fn expect_written(run: &MemoryRun, wanted: &[&[u8]]) -> Result<(), Fail> {
    for (job, bytes) in run.jobs.iter().zip(wanted) {
        same_bytes("what a job wrote", job.writer.bytes(), bytes)?;
    }
    same("jobs", &run.jobs.len(), &wanted.len())
}

/// How the one job of a run must have ended, what must have been written, and the replies, all of session 1.
pub fn expect_run(
    run: &MemoryRun,
    end: FileOutcome,
    written: &[u8],
    replies: &[Reply],
) -> Result<(), Fail> {
    expect_ends(run, &[end])?;
    expect_written(run, &[written])?;
    for (entry, reply) in run.book.history().iter().zip(replies) {
        same(
            "a session and its reply",
            &(entry.session(), entry.reply()),
            &(1, *reply),
        )?;
    }
    same("entries", &run.book.history().len(), &replies.len())
}
