//! Runs of many files at one book.

ghost use Rattle.std.specs.Prelude.{◌≡◌, ◌≤◌, ◌<◌, All, IfOk, false, true, length, vec_len};
ghost use Rattle.work_registry.specs.Replay.{is_opening};

use crate::catalogue::{Order, Style, file, new_works};
use crate::chance::Chance;
use crate::digest::Digest;
use byte_streams::Feed;
use cwr_desk::{
    Book, FileOutcome, Job, Run, Stamp, Why, cut, date, serve_in_turn, time, work_alone,
};
use cwr_field::Memory;
use register_store::{new_book, read_book};
use std::alloc::Global;

/// The number of bytes that a read of a file or a register gives.
pub(crate) const CHUNK: usize = 65_536;

/// The greatest number of files of a run.
pub(crate) const MAX_FILES: usize = 63;

type DigestJob<'a> = Job<Feed<'a>, Digest>;

type DigestRun<'a> = Run<Feed<'a>, Digest>;

/// Society 7, on 1 June 2024 at nine.
pub(crate) fn stamp() -> Result<Stamp, Memory> {
    let (Some(day), Some(clock)) = (date(cut(b"20240601", 1, 8)), time(cut(b"090000", 1, 6))) else {
        return Err(Memory);
    };
    Stamp::new(7, b"MY SOCIETY", day, clock).ok_or(Memory)
}

/// Two nights, one after the other, each from the register of the night before, and then small files one at a time.
///
/// The first night has eighteen large files of new works. The second has sixty-three smaller ones: new works,
/// revisions, and works that other submitters have claimed.
pub(crate) fn nights(alloc: Global, size: u32, chance: &mut Chance) -> Result<Digest, Memory> {
    let mut digest = Digest::new();
    let register = first_night(alloc, size, chance, &mut digest)?;
    let _ = second_night(alloc, size, chance, &register, &mut digest)?;
    Ok(digest)
}

/// Works the large files, and returns the register that they leave.
fn first_night(
    alloc: Global,
    size: u32,
    chance: &mut Chance,
    digest: &mut Digest,
) -> Result<Vec<u8>, Memory> {
    let files = large_files(alloc, size, chance)?;
    let book = run(alloc, new_book(alloc), &files, digest)?;
    register_of(alloc, &book, digest)
}

/// Works the smaller files, then those that come one at a time, and returns the register that they leave. `alloc`
/// allocates, `size` sets the number of works, and `chance` gives the numbers. `register` is that of the night before,
/// and `digest` takes the results.
fn second_night(
    alloc: Global,
    size: u32,
    chance: &mut Chance,
    register: &[u8],
    digest: &mut Digest,
) -> Result<Vec<u8>, Memory> {
    let files = small_files(alloc, size, chance)?;
    let book = run(alloc, book_of(alloc, register)?, &files, digest)?;
    let book = one_at_a_time(alloc, size, chance, book, digest)?;
    register_of(alloc, &book, digest)
}

/// The book of a register.
pub(crate) fn book_of(alloc: Global, register: &[u8]) -> Result<Book, Memory>
    ensures { IfOk result (λ book. is_opening book.history ≡ true) }
{
    read_book(alloc, &mut Feed::new(register, CHUNK, None)).map_err(|_| Memory)
}

/// The new works of sixteen submitters, a file each. The works of two submitters have many records each, and come in
/// two files of half the works: one file would be longer than the limit.
fn large_files(alloc: Global, size: u32, chance: &mut Chance) -> Result<Vec<Vec<u8>>, Memory> {
    let mut files = Vec::new(alloc);
    for number in 0..16u32 {
        let first = number.saturating_mul(size);
        if number % 8 == 7 {
            let half = size / 2;
            let order = new_works(Style::Mixed, number, first, half);
            files.push(file(alloc, chance, &order)?)?;
            let order = new_works(Style::Mixed, number, first.saturating_add(half), half);
            files.push(file(alloc, chance, &order)?)?;
        } else {
            let style = if number % 8 == 3 {
                Style::Shared
            } else {
                Style::Thin
            };
            let order = new_works(style, number, first, size);
            files.push(file(alloc, chance, &order)?)?;
        }
    }
    Ok(files)
}

/// Sixty-three files of a tenth of the size, or a fortieth for works of many records. They have revisions of works of
/// the night before, works of these that another submitter claims, and new works.
fn small_files(alloc: Global, size: u32, chance: &mut Chance) -> Result<Vec<Vec<u8>>, Memory> {
    let mut files = Vec::new(alloc);
    for number in 0..63u32 {
        files.push(file(alloc, chance, &small_order(size, number))?)?;
    }
    Ok(files)
}

fn small_order(size: u32, number: u32) -> Order {
    let claimed = number % 16;
    let first = claimed.saturating_mul(size);
    let works = size / 10;
    match number % 4 {
        0 => Order {
            kind: b"REV",
            ..new_works(Style::Thin, claimed, first, works)
        },
        1 => new_works(Style::Shared, 100u32.saturating_add(number), first, works),
        2 => Order {
            kind: b"REV",
            ..new_works(Style::Mixed, claimed, first, works / 4)
        },
        _ => new_works(
            Style::Thin,
            100u32.saturating_add(number),
            number.saturating_add(20).saturating_mul(size),
            works,
        ),
    }
}

/// Files of twenty works, each worked alone at the book, after all that came before. `alloc` allocates, `size` sets the
/// number of files, and `chance` gives the numbers. `book` is the one that they are worked into, and `digest` takes the
/// results.
fn one_at_a_time(
    alloc: Global,
    size: u32,
    chance: &mut Chance,
    mut book: Book,
    digest: &mut Digest,
) -> Result<Book, Memory> {
    let stamp = stamp()?;
    for number in 0..size / 50 {
        let first = 90_000_000u32.saturating_add(chance.below(100_000));
        let order = new_works(Style::Shared, 200u32.saturating_add(number), first, 20);
        let text = file(alloc, chance, &order)?;
        book = work_one(alloc, book, &text, &stamp, digest);
    }
    Ok(book)
}

/// The book after a file that is worked alone at it. `alloc` allocates, `text` is worked into `book`, `stamp` is that
/// of the acknowledgement, and `digest` takes the results.
fn work_one(alloc: Global, book: Book, text: &[u8], stamp: &Stamp, digest: &mut Digest) -> Book {
    let (worked, job, outcome) = work_alone(alloc, book, 1, job_of(text), stamp);
    take_job(&job, &outcome, digest);
    worked
}

/// Works files in turn at a book, and returns it as one whose entries are all of its opening.
fn run(alloc: Global, book: Book, files: &[Vec<u8>], digest: &mut Digest) -> Result<Book, Memory>
    requires { is_opening book.history ≡ true }
{
    let stamp = stamp()?;
    let jobs = jobs_of(alloc, files)?;
    match serve_in_turn(alloc, jobs, book, &stamp) {
        Ok(run) => {
            take_run(&run, digest);
            Ok(run.book.reopened())
        }
        Err(_) => Err(Memory),
    }
}

/// A job for each of these files, at most the number that a run takes.
fn jobs_of<'a>(alloc: Global, files: &'a [Vec<u8>]) -> Result<Vec<DigestJob<'a>>, Memory>
    ensures few { IfOk result (λ jobs. vec_len jobs < 64) }
    ensures works { IfOk result (λ jobs. All (λ j. (j.reader.has_failed ≡ false) × (j.writer.failed ≡ false)) jobs.items) }
{
    let files = &files[..files.len().min(MAX_FILES)];
    let mut jobs = Vec::new(alloc);
    for file in files {
        jobs.push(job_of(file))?;
    }
    Ok(jobs)
}

/// The job of a file, whose acknowledgement goes into a digest.
pub(crate) fn job_of<'a>(text: &'a [u8]) -> DigestJob<'a>
    ensures { (result.reader.has_failed ≡ false) × (result.writer.failed ≡ false) }
{
    Job {
        reader: Feed::new(text, CHUNK, None),
        writer: Digest::new(),
    }
}

/// Takes what a run left of its jobs.
fn take_run(run: &DigestRun<'_>, digest: &mut Digest) {
    for (job, outcome) in run.jobs.iter().zip(&run.outcomes) {
        take_job(job, outcome, digest);
    }
}

/// Takes a job's acknowledgement, and how it ended.
fn take_job(job: &DigestJob<'_>, outcome: &FileOutcome, digest: &mut Digest) {
    digest.number(job.writer.sum());
    take_outcome(outcome, digest);
}

/// Takes how a job ended.
pub(crate) fn take_outcome(outcome: &FileOutcome, digest: &mut Digest) {
    match outcome {
        FileOutcome::Acked { transactions } => digest.number(*transactions as u64),
        FileOutcome::Refused { number, line } => {
            digest.text(b"refused");
            digest.number(*number as u64);
            digest.number(*line);
        }
        FileOutcome::Stopped { handed, why } => {
            digest.text(b"stopped");
            digest.number(*handed as u64);
            take_why(why, digest);
        }
    }
}

/// Takes why a job was stopped.
fn take_why(why: &Why, digest: &mut Digest) {
    match why {
        Why::Memory => digest.text(b"memory"),
        Why::Full => digest.text(b"full"),
        Why::Read => digest.text(b"read"),
        Why::TooLong => digest.text(b"too long"),
        Why::Gate => digest.text(b"gate"),
        Why::Write { sent } => {
            digest.text(b"write");
            digest.number(*sent);
        }
    }
}

/// The register of a book, made in pieces as a run keeps it.
pub(crate) fn register_of(
    alloc: Global,
    book: &Book,
    digest: &mut Digest,
) -> Result<Vec<u8>, Memory> {
    let mut register = Vec::new(alloc);
    let mut chunks = book.register_chunks(alloc, CHUNK)?;
    for _ in 0..=u32::MAX {
        chunks.advance();
        if chunks.chunk().is_empty() {
            break;
        }
        register.extend_from_slice(chunks.chunk())?;
    }
    digest.text(&register);
    Ok(register)
}
