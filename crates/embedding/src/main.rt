//! The registry inside a program: two submissions in memory become acknowledgements and a register.
#![tactic(auto)]

ghost use Rattle.std.specs.Prelude.{◌≡◌, ◌<◌, All, false, IfOk, vec_len};

use cwr_desk::{
    Book, Feed, FileOutcome, Job, Memory, OpenGate, Room, Run, Stamp, outcome_line, read_register,
    serve,
};
use cwr_field::{cut, date, time};
use std::alloc::Global;
use std::process::ExitCode;
use std::sync::Wait;
use std::thread::Threads;

type MemoryJob = Job<Feed<'static>, Room>;

type MemoryRun = Run<Feed<'static>, Room>;

const GOOD: &[u8] = b"\
HDRPB000000123PUBLISHER A                                  01.102024050112000020240501\n\
GRHNWR0000102.200000000001\n\
NWR0000000000000000SONG ONE                                                      A-1\n\
SWR0000000000000001000000001DOE                                                                         \
CA                       10000   10000   10000\n\
GRT000010000000100000004\n\
TRL000010000000100000006\n";

/// A file without groups whose trailer counts one record too many.
const BAD: &[u8] = b"\
HDRPB000000456PUBLISHER B                                  01.102024050112000020240501\n\
TRL000000000000000000003\n";

/// A job over bytes in memory, with room for an acknowledgement of `size` bytes.
fn job(alloc: Global, bytes: &'static [u8], size: usize) -> Result<MemoryJob, Memory>
    ensures { IfOk result (λ j. (j.reader.has_failed ≡ false) × (j.writer.has_failed ≡ false)) }
{
    Ok(Job {
        reader: Feed::new(bytes, 4096, None),
        writer: Room::new(alloc, size, true)?,
    })
}

/// Both jobs, the good one first.
fn both_jobs(alloc: Global) -> Result<Vec<MemoryJob>, Memory>
    ensures few { IfOk result (λ jobs. vec_len jobs < 64) }
    ensures works { IfOk result (λ jobs. All (λ j. (j.reader.has_failed ≡ false) × (j.writer.has_failed ≡ false)) jobs.items) }
{
    let good = job(alloc, GOOD, 1000)?;
    let bad = job(alloc, BAD, 1000)?;
    Ok(vec![in alloc; good, bad]?)
}

/// Society 7, on 1 June 2024 at nine.
fn stamp() -> Option<Stamp> {
    let day = date(cut(b"20240601", 1, 8))?;
    let clock = time(cut(b"090000", 1, 6))?;
    Stamp::new(7, b"MY SOCIETY", day, clock)
}

/// Works both jobs at once, each on a thread of its own. `None` if an allocation failed.
fn work_both<R: Threads + Wait + Sync>(rt: &R, alloc: Global) -> Option<MemoryRun> {
    let jobs = both_jobs(alloc).ok()?;
    let book = Book::new(alloc, 1000);
    serve(rt, alloc, jobs, book, &stamp()?, &OpenGate).ok()
}

/// Prints how a job ended. `rt` prints, `alloc` allocates, `name` is that of the file, and `outcome` how `job` ended.
fn print_outcome<R: Print>(
    rt: &R,
    alloc: Global,
    name: &str,
    outcome: &FileOutcome,
    job: &MemoryJob,
) {
    if let Ok(line) = outcome_line(alloc, name.as_bytes(), outcome) {
        let _ = rt.write_all(&line);
    }
    let _ = println!(rt; "{} bytes of acknowledgement", job.writer.bytes().len());
}

/// Prints the claim that the book has under the number of the first work.
fn print_claim<R: Print>(rt: &R, book: &Book) {
    if let Some(claim) = book.claim(b"PB000000123", b"A-1           ") {
        let _ = println!(rt; "work {}, version {}", claim.work, claim.version);
    }
}

/// Writes the register of the book and reads it again, as the next run would.
fn read_again(alloc: Global, book: &Book) -> Option<Book> {
    let register = book.write_register(alloc).ok()?;
    read_register(alloc, &register, 1000).ok()
}

fn main(rt: HostRuntime) -> ExitCode {
    let Some(run) = work_both(&rt, rt.alloc()) else {
        return ExitCode::FAILURE;
    };
    for (outcome, job) in run.outcomes.iter().zip(&run.jobs) {
        print_outcome(&rt, rt.alloc(), "job", outcome, job);
    }
    print_claim(&rt, &run.book);
    let Some(book) = read_again(rt.alloc(), &run.book) else {
        return ExitCode::FAILURE;
    };
    let _ = println!(rt; "{} entries in the register", book.len());
    ExitCode::SUCCESS
}
