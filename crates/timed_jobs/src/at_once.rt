//! Runs of many files at once, each on a thread of its own.

ghost use Rattle.std.specs.Prelude.{◌≡◌, ◌<◌, All, IfOk, false, true, vec_len};
ghost use Rattle.work_registry.specs.Replay.{is_opening};

use crate::answers::AckDigest;
use crate::catalogue::{Style, file, new_works};
use crate::chance::Chance;
use crate::digest::Digest;
use crate::nights::{CHUNK, MAX_FILES, stamp, take_outcome};
use byte_streams::Feed;
use cwr_desk::{Book, Entry, Fault, Job, OpenGate, Run, serve};
use cwr_field::Memory;
use register_store::new_book;
use std::alloc::Global;
use std::sync::Wait;
use std::thread::Threads;

/// Some runs of sixty-three files, each at an empty book: of `size` works in each run, and of four times as many in one
/// run of eight. Each file has works of its own, so that its outcome is the same in every order.
pub(crate) fn at_once<R: Threads + Wait + Sync>(
    rt: &R,
    alloc: Global,
    size: u32,
    chance: &mut Chance,
) -> Result<Digest, Memory> {
    let mut digest = Digest::new();
    for round in 0..24u32 {
        let works = if round % 8 == 7 {
            size.saturating_mul(4)
        } else {
            size
        };
        let files = files_of(alloc, works, chance)?;
        run(rt, alloc, new_book(alloc), &files, &mut digest)?;
    }
    Ok(digest)
}

/// Sixty-three files of works of their own.
fn files_of(alloc: Global, works: u32, chance: &mut Chance) -> Result<Vec<Vec<u8>>, Memory> {
    let mut files = Vec::new(alloc);
    for number in 0..63u32 {
        let style = if number % 8 == 7 {
            Style::Mixed
        } else {
            Style::Thin
        };
        let order = new_works(style, number, number.saturating_mul(1_000_000), works);
        files.push(file(alloc, chance, &order)?)?;
    }
    Ok(files)
}

/// Works files at once, and takes what holds in every order. `rt` starts threads and waits, `alloc` allocates, and
/// `files` are worked into `book`. `digest` takes the result.
fn run<R: Threads + Wait + Sync>(
    rt: &R,
    alloc: Global,
    book: Book,
    files: &[Vec<u8>],
    digest: &mut Digest,
) -> Result<(), Memory>
    requires { is_opening book.history ≡ true }
{
    let stamp = stamp()?;
    let jobs = jobs_of(alloc, files)?;
    let Ok(run) = serve(rt, alloc, jobs, book, &stamp, &OpenGate) else {
        return Err(Memory);
    };
    take_run(alloc, &run, digest)
}

/// Takes what holds in every order of what a run left.
fn take_run(
    alloc: Global,
    run: &Run<Feed<'_>, AckDigest>,
    digest: &mut Digest,
) -> Result<(), Memory> {
    for (job, outcome) in run.jobs.iter().zip(&run.outcomes) {
        digest.number(job.writer.sum());
        take_outcome(outcome, digest);
    }
    take_entries(alloc, run.book.history(), digest)
}

/// A job for each of these files, at most the number that a run takes.
fn jobs_of<'a>(alloc: Global, files: &'a [Vec<u8>]) -> Result<Vec<Job<Feed<'a>, AckDigest>>, Memory>
    ensures few { IfOk result (λ jobs. vec_len jobs < 64) }
    ensures works { IfOk result (λ jobs. All (λ j. (j.reader.has_failed ≡ false) × (j.writer.digest.failed ≡ false)) jobs.items) }
{
    let files = &files[..files.len().min(MAX_FILES)];
    let mut jobs = Vec::new(alloc);
    for file in files {
        jobs.push(job_of(file))?;
    }
    Ok(jobs)
}

/// The job of a file, whose acknowledgement goes into a digest.
fn job_of<'a>(text: &'a [u8]) -> Job<Feed<'a>, AckDigest>
    ensures { (result.reader.has_failed ≡ false) × (result.writer.digest.failed ≡ false) }
{
    Job {
        reader: Feed::new(text, CHUNK, None),
        writer: AckDigest::new(),
    }
}

/// Takes the entries of each file in the order of the file. What is taken of an entry holds in every order of the
/// files.
fn take_entries(alloc: Global, entries: &[Entry], digest: &mut Digest) -> Result<(), Memory> {
    let mut files = vec![in alloc; Digest::new(); MAX_FILES + 1]?;
    for entry in entries {
        if let Some(file) = files.get_mut(entry.session() as usize) {
            take_entry(entry, file);
        }
    }
    for file in &files {
        digest.number(file.sum());
    }
    digest.number(entries.len() as u64);
    Ok(())
}

/// Takes an entry without the registry's number of its work.
fn take_entry(entry: &Entry, digest: &mut Digest) {
    let call = entry.call();
    digest.text(&call.submitter());
    digest.text(call.kind().code());
    digest.text(&call.title());
    digest.text(&call.number());
    digest.number(match call.iswc() {
        Some(iswc) => iswc,
        None => u64::MAX,
    });
    for share in call.control() {
        digest.number(share);
    }
    for fault in call.faults() {
        take_fault(fault, digest);
    }
    digest.text(entry.reply().status().code());
    digest.number(entry.reply().version().unwrap_or(0) as u64);
}

fn take_fault(fault: &Fault, digest: &mut Digest) {
    digest.number(fault.sequence as u64);
    digest.number(fault.number as u64);
    digest.text(&fault.rtype);
}
