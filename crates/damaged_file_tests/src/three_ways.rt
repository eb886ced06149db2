//! One file, from a reader to a writer, alone, in turn and at the desk.
ghost use Rattle.std.specs.Prelude.{◌≡◌, ◌<◌, All, IfOk, false, vec_len};

use byte_streams::{Feed, Room};
use cwr_desk::{
    Book, FileOutcome, Job, OpenGate, Reply, ServeRefused, acknowledge, serve, serve_in_turn,
};
use std::alloc::Global;
use std::sync::Wait;
use std::test::Fail;
use std::thread::Threads;
use test_comparisons::{same, same_bytes};
use test_files::stamp;
use test_jobs::{MemoryRun, expect_run};

type MemoryJob<'a> = Job<Feed<'a>, Room>;

/// From where and to where a file is worked.
#[derive(Clone, Copy)]
pub(crate) struct Ends<'a> {
    /// The bytes of the file.
    pub(crate) bytes: &'a [u8],
    /// The number of bytes that a read gives at most. A read gives at least one.
    pub(crate) chunk: usize,
    /// The read that fails, counted from 1, if one does.
    pub(crate) fail: Option<u64>,
    /// The number of bytes that the writer takes.
    pub(crate) room: usize,
    /// Whether it fails when it is full, or takes nothing more.
    pub(crate) fails: bool,
}

/// A file whose reader does not fail, with room for an acknowledgement.
pub(crate) fn whole(bytes: &[u8]) -> Ends<'_> {
    Ends {
        bytes,
        chunk: 4096,
        fail: None,
        room: 425,
        fails: true,
    }
}

/// The required outcome of a file: how it ends, what is written, and the replies that its book holds.
#[derive(Clone, Copy)]
pub(crate) struct Wanted<'a> {
    pub(crate) end: FileOutcome,
    pub(crate) written: &'a [u8],
    pub(crate) replies: &'a [Reply],
}

/// The reply to the plain file.
pub(crate) const NEW: [Reply; 1] = [Reply::Accepted {
    work: 1,
    version: 1,
}];

/// A file that ends like this before anything is handed in.
pub(crate) fn nothing<'a>(end: FileOutcome) -> Wanted<'a> {
    Wanted {
        end,
        written: b"",
        replies: &[],
    }
}

fn reader<'a>(ends: Ends<'a>) -> Feed<'a>
    ensures { result.has_failed ≡ false }
{
    Feed::new(ends.bytes, ends.chunk.max(1), ends.fail)
}

fn job<'a>(alloc: Global, ends: Ends<'a>) -> Result<MemoryJob<'a>, Fail>
    ensures { IfOk result (λ j. (j.reader.has_failed ≡ false) × (j.writer.has_failed ≡ false)) }
{
    Ok(Job {
        reader: reader(ends),
        writer: Room::new(alloc, ends.room, ends.fails)?,
    })
}

/// The one job of a run.
fn jobs<'a>(alloc: Global, ends: Ends<'a>) -> Result<Vec<MemoryJob<'a>>, Fail>
    ensures few { IfOk result (λ jobs. vec_len jobs < 64) }
    ensures works { IfOk result (λ jobs. All (λ j. (j.reader.has_failed ≡ false) × (j.writer.has_failed ≡ false)) jobs.items) }
{
    let job = job(alloc, ends)?;
    let mut jobs = Vec::new(alloc);
    jobs.push(job)?;
    Ok(jobs)
}

/// Works a file alone.
pub(crate) fn expect_alone(alloc: Global, ends: Ends, wanted: Wanted) -> Result<(), Fail> {
    let stamp = stamp()?;
    let mut reader = reader(ends);
    let mut writer = Room::new(alloc, ends.room, ends.fails)?;
    let outcome = acknowledge(alloc, &mut reader, &mut writer, &stamp);
    same("how the file ended", &outcome, &wanted.end)?;
    same_bytes("what was written", writer.bytes(), wanted.written)
}

/// How the run of one job must have ended.
fn expect_served(
    ended: Result<MemoryRun, ServeRefused<Feed, Room>>,
    wanted: Wanted,
) -> Result<(), Fail> {
    match ended {
        Ok(run) => expect_run(&run, wanted.end, wanted.written, wanted.replies),
        Err(_) => Err(Fail::new("memory")),
    }
}

/// Works a file in turn, into an empty book.
fn expect_in_turn(alloc: Global, ends: Ends, wanted: Wanted) -> Result<(), Fail> {
    let stamp = stamp()?;
    let jobs = jobs(alloc, ends)?;
    let ended = serve_in_turn(alloc, jobs, Book::new(alloc, 100), &stamp);
    expect_served(ended, wanted)
}

/// Works a file at the desk, into an empty book.
fn expect_at_desk<T: Threads + Wait + Sync>(
    rt: &T,
    alloc: Global,
    ends: Ends,
    wanted: Wanted,
) -> Result<(), Fail> {
    let stamp = stamp()?;
    let jobs = jobs(alloc, ends)?;
    let ended = serve(rt, alloc, jobs, Book::new(alloc, 100), &stamp, &OpenGate);
    expect_served(ended, wanted)
}

/// Works a file alone, in turn and at the desk.
pub(crate) fn expect_three_ways<T: Threads + Wait + Sync>(
    rt: &T,
    ends: Ends,
    wanted: Wanted,
) -> Result<(), Fail>
where
    T: AllocGlobal,
{
    expect_alone(rt.alloc(), ends, wanted)?;
    expect_in_turn(rt.alloc(), ends, wanted)?;
    expect_at_desk(rt, rt.alloc(), ends, wanted)
}
