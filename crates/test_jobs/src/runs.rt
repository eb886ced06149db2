//! Files worked into a book.
ghost use Rattle.std.specs.Prelude.{◌≡◌, ◌<◌, true, false, All, IfOk, vec_len};
ghost use Rattle.work_registry.specs.Replay.{is_opening};

use crate::chain::GROUP;
use crate::jobs::{Input, MemoryJob, MemoryRun, all_with_room, jobs_of};
use byte_streams::{Feed, Room};
use cwr_desk::{
    Book, Gate, RunCutShort, RunListener, ServeRefused, Stamp, serve, serve_all, serve_all_in_turn,
    serve_in_order, serve_in_turn,
};
use std::alloc::Global;
use std::sync::Wait;
use std::test::Fail;
use std::thread::Threads;
use test_files::stamp;

/// The jobs of a run of these files, and the stamp of their acknowledgements.
fn prepared<'a>(alloc: Global, inputs: &[Input<'a>]) -> Result<(Vec<MemoryJob<'a>>, Stamp), Fail>
    ensures few { IfOk result (λ it. vec_len it.0 < 64) }
    ensures works { IfOk result (λ it. All (λ j. (j.reader.has_failed ≡ false) × (j.writer.has_failed ≡ false)) it.0.items) }
{
    if inputs.len() > GROUP {
        return Err(Fail::new("too many files"));
    }
    let stamp = stamp()?;
    Ok((jobs_of(alloc, inputs)?, stamp))
}

/// The run, which must not have been refused for an allocation failure.
fn whole_run<'a>(
    ended: Result<MemoryRun<'a>, ServeRefused<Feed<'a>, Room>>,
) -> Result<MemoryRun<'a>, Fail> {
    match ended {
        Ok(run) => Ok(run),
        Err(_) => Err(Fail::new("memory")),
    }
}

/// Works files in turn.
pub fn run_in_turn<'a>(
    alloc: Global,
    book: Book,
    inputs: &[Input<'a>],
) -> Result<MemoryRun<'a>, Fail>
    requires opening { is_opening book.history ≡ true }
{
    let (jobs, stamp) = prepared(alloc, inputs)?;
    whole_run(serve_in_turn(alloc, jobs, book, &stamp))
}

/// Works files in their order, and reads them on threads.
pub fn run_in_order<'a, T: Threads + Sync>(
    rt: &T,
    alloc: Global,
    book: Book,
    inputs: &[Input<'a>],
) -> Result<MemoryRun<'a>, Fail>
    requires opening { is_opening book.history ≡ true }
{
    let (jobs, stamp) = prepared(alloc, inputs)?;
    whole_run(serve_in_order(rt, alloc, jobs, book, &stamp))
}

/// The run, which must not have been cut short by an allocation failure.
fn uncut_run<'a>(
    ended: Result<MemoryRun<'a>, RunCutShort<Feed<'a>, Room>>,
) -> Result<MemoryRun<'a>, Fail> {
    match ended {
        Ok(run) => Ok(run),
        Err(_) => Err(Fail::new("memory")),
    }
}

/// Works any number of files in turn. `listener` is told of each group.
pub fn run_all_in_turn<'a, L: RunListener>(
    alloc: Global,
    book: Book,
    inputs: &[Input<'a>],
    listener: &L,
) -> Result<MemoryRun<'a>, Fail>
    requires opening { is_opening book.history ≡ true }
{
    let stamp = stamp()?;
    let jobs = jobs_of(alloc, inputs)?;
    uncut_run(serve_all_in_turn(alloc, jobs, book, &stamp, listener))
}

/// Works any number of files in their order, and reads them on threads. `rt` starts threads, `alloc` allocates, and
/// `inputs` are worked into `book`. `listener` is told of each group.
pub fn run_all<'a, T: Threads + Sync, L: RunListener>(
    rt: &T,
    alloc: Global,
    book: Book,
    inputs: &[Input<'a>],
    listener: &L,
) -> Result<MemoryRun<'a>, Fail>
    requires opening { is_opening book.history ≡ true }
{
    let stamp = stamp()?;
    let jobs = jobs_of(alloc, inputs)?;
    uncut_run(serve_all(rt, alloc, jobs, book, &stamp, listener))
}

/// Works files at the desk, each on a thread of its own. `rt` starts threads and waits, `alloc` allocates, and `inputs`
/// are worked into `book`. `gate` is passed before and after each transaction.
pub fn run_at_desk<'a, T: Threads + Wait + Sync, G: Gate + Sync>(
    rt: &T,
    alloc: Global,
    book: Book,
    inputs: &[Input<'a>],
    gate: &G,
) -> Result<MemoryRun<'a>, Fail>
    requires opening { is_opening book.history ≡ true }
{
    let (jobs, stamp) = prepared(alloc, inputs)?;
    whole_run(serve(rt, alloc, jobs, book, &stamp, gate))
}

/// Works files whose readers do not fail at the desk, each on a thread of its own. `rt` starts threads and waits,
/// `alloc` allocates, and `files` are worked into `book`. `capacity` is the room for each acknowledgement, in bytes.
/// `gate` is passed before and after each transaction.
pub fn run_whole_files<'a, T: Threads + Wait + Sync, G: Gate + Sync>(
    rt: &T,
    alloc: Global,
    book: Book,
    files: &'a [Vec<u8>],
    capacity: usize,
    gate: &G,
) -> Result<MemoryRun<'a>, Fail>
    requires opening { is_opening book.history ≡ true }
{
    let inputs = all_with_room(alloc, files, capacity)?;
    run_at_desk(rt, alloc, book, &inputs, gate)
}
