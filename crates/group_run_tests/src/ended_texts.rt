//! Each reader and each writer is told once that its text has ended, and few are open at any time.
ghost use Rattle.std.specs.Prelude.{◌≡◌, All, IfOk, false};

use crate::files::files;
use crate::open_texts::{OpenReader, OpenTexts, OpenWriter, Text};
use byte_streams::ReadCount;
use cwr_desk::{Book, FileOutcome, Job, NoListener, Run, Why, serve_all, serve_all_in_turn};
use std::alloc::Global;
use std::test::Fail;
use std::thread::Threads;
use test_comparisons::same;
use test_files::stamp;
use test_jobs::ACKED;

/// The number of files.
const FILES: usize = 200;

/// The limit of the book: it is full for the last files.
const LIMIT: u32 = 150;

/// The most files that may be open at any time: those of two groups of eight.
const FEW: u64 = 16;

type OpenJob<'a> = Job<OpenReader<'a>, OpenWriter<'a>>;

type OpenRun<'a> = Run<OpenReader<'a>, OpenWriter<'a>>;

/// A job over a file. Of each ten, one reader and one writer fail.
fn job<'a>(
    file: &'a [u8],
    place: usize,
    readers: &'a OpenTexts,
    writers: &'a OpenTexts,
) -> OpenJob<'a>
    ensures { (result.reader.failed ≡ false) × (result.writer.failed ≡ false) }
{
    Job {
        reader: OpenReader {
            left: file,
            text: Text::closed(readers),
            fails: place % 10 == 8,
            failed: false,
            reads: ReadCount::zero(),
        },
        writer: OpenWriter {
            text: Text::closed(writers),
            fails: place % 10 == 1,
            failed: false,
        },
    }
}

/// A job for each of these files.
fn jobs<'a>(
    alloc: Global,
    files: &'a [Vec<u8>],
    readers: &'a OpenTexts,
    writers: &'a OpenTexts,
) -> Result<Vec<OpenJob<'a>>, Fail>
    ensures { IfOk result (λ jobs. All (λ j. (j.reader.failed ≡ false) × (j.writer.failed ≡ false)) jobs.items) }
{
    let mut jobs = Vec::new(alloc);
    for file in files {
        let place = jobs.len();
        jobs.push(job(file, place, readers, writers))?;
    }
    Ok(jobs)
}

/// How often a writer must be told that its text has ended: once if there is one.
fn wanted_ends(outcome: &FileOutcome) -> u32 {
    match outcome {
        FileOutcome::Acked { .. }
        | FileOutcome::Stopped {
            why: Why::Write { .. },
            ..
        } => 1,
        FileOutcome::Refused { .. } | FileOutcome::Stopped { .. } => 0,
    }
}

/// Each reader must have been told once that its text has ended, and each writer that has one.
fn expect_told(run: &OpenRun) -> Result<(), Fail> {
    for (job, outcome) in run.jobs.iter().zip(&run.outcomes) {
        let ends = (job.reader.text.ends(), job.writer.text.ends());
        let wanted = (1, wanted_ends(outcome));
        same(
            "an outcome, and who was told",
            &(*outcome, ends),
            &(*outcome, wanted),
        )?;
    }
    same("jobs", &run.jobs.len(), &FILES)?;
    expect_ways(&run.outcomes)
}

/// None may be open, and at no time more than a few, but some.
fn expect_few_open(texts: &OpenTexts, few: u64) -> Result<(), Fail> {
    let most = texts.most();
    same(
        "those that are open, the most that were, and whether these were few",
        &(texts.open(), most, most > 0 && most <= few),
        &(0, most, true),
    )
}

/// `handed` transactions of a file were decided, and then the job was stopped.
fn stopped(handed: u32, why: Why) -> FileOutcome {
    FileOutcome::Stopped { handed, why }
}

/// Places of jobs, and how these end: in each of the ways, those that fail and a full book among them.
fn ends() -> [(usize, FileOutcome); 5] {
    [
        (0, ACKED),
        (1, stopped(1, Why::Write { sent: 0 })),
        (6, FileOutcome::Refused { number: 9, line: 5 }),
        (8, stopped(0, Why::Read)),
        (199, stopped(0, Why::Full)),
    ]
}

/// The jobs must have ended in each of the ways.
fn expect_ways(outcomes: &[FileOutcome]) -> Result<(), Fail> {
    for (place, wanted) in ends() {
        same(
            "a place, and how its job ended",
            &(place, outcomes.get(place)),
            &(place, Some(&wanted)),
        )?;
    }
    same("outcomes", &outcomes.len(), &FILES)
}

/// Works the files on threads.
fn run_open<'a, T: Threads + Sync>(
    rt: &T,
    alloc: Global,
    files: &'a [Vec<u8>],
    readers: &'a OpenTexts,
    writers: &'a OpenTexts,
) -> Result<OpenRun<'a>, Fail> {
    let stamp = stamp()?;
    let jobs = jobs(alloc, files, readers, writers)?;
    match serve_all(
        rt,
        alloc,
        jobs,
        Book::new(alloc, LIMIT),
        &stamp,
        &NoListener,
    ) {
        Ok(run) => Ok(run),
        Err(_) => Err(Fail::new("memory")),
    }
}

/// Works the files on one thread.
fn run_open_in_turn<'a>(
    alloc: Global,
    files: &'a [Vec<u8>],
    readers: &'a OpenTexts,
    writers: &'a OpenTexts,
) -> Result<OpenRun<'a>, Fail> {
    let stamp = stamp()?;
    let jobs = jobs(alloc, files, readers, writers)?;
    match serve_all_in_turn(alloc, jobs, Book::new(alloc, LIMIT), &stamp, &NoListener) {
        Ok(run) => Ok(run),
        Err(_) => Err(Fail::new("memory")),
    }
}

#[test]
fn each_text_ends_once_in_turn(rt: HostRuntime) -> Result<(), Fail> {
    let alloc = rt.alloc();
    let files = files(alloc, FILES)?;
    let (readers, writers) = (OpenTexts::none(), OpenTexts::none());
    let run = run_open_in_turn(alloc, &files, &readers, &writers)?;
    expect_told(&run)?;
    expect_few_open(&readers, 1)?;
    expect_few_open(&writers, 1)
}

#[test]
fn each_text_ends_once_on_threads(rt: HostRuntime) -> Result<(), Fail> {
    let alloc = rt.alloc();
    let files = files(alloc, FILES)?;
    let (readers, writers) = (OpenTexts::none(), OpenTexts::none());
    let run = run_open(&rt, alloc, &files, &readers, &writers)?;
    expect_told(&run)?;
    expect_few_open(&readers, FEW)?;
    expect_few_open(&writers, FEW)
}
