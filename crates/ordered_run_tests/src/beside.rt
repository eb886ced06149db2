//! Readers and writers that wait for those of other files, which shows what is done beside one another.
ghost use Rattle.std.specs.Prelude.{◌≡◌, ◌<◌, ◌≤◌, All, IfOk, None, false, length, vec_len};

use crate::same_runs::expect_same_books;
use crate::stock::{stock, ten_files};
use byte_streams::{Failed, ReadCount, Sink, Source};
use cwr_desk::{Book, Job, Run, serve_in_order};
use std::alloc::Global;
use std::sync::atomic::{AtomicU64, Ordering};
use std::test::Fail;
use std::thread::{Threads, available_parallelism, yield_now};
use test_comparisons::{same, same_bytes, same_lists};
use test_files::{OTHER_SENDER, SENDER, many_works, plain_file, stamp};
use test_jobs::{MemoryRun, all_with_room, run_in_turn};

/// The number of times that a reader or a writer looks for the others before it gives up.
const LOOKS: u64 = 10_000_000;

/// What a reader or a writer has to do with those of other files.
#[derive(Clone, Copy)]
enum Turn<'a> {
    /// Nothing.
    Free,
    /// It is counted: a reader when it has found its end, and a writer when it has taken bytes.
    Counted(&'a AtomicU64),
    /// It begins once this number of others were counted.
    After(&'a AtomicU64, u64),
}

impl Turn<'_> {
    /// Waits until it may begin, and returns whether it may: it gives up after some time.
    fn may_begin(self) -> bool {
        match self {
            Turn::Free | Turn::Counted(_) => true,
            Turn::After(counted, wanted) => were_counted(counted, wanted),
        }
    }

    /// Counts it, if it is to be counted.
    fn count(self) {
        if let Turn::Counted(counted) = self {
            counted.fetch_add(1, Ordering::SeqCst);
        }
    }
}

/// Waits until `wanted` were counted, and returns whether they were: it gives up after some time.
fn were_counted(counted: &AtomicU64, wanted: u64) -> bool {
    for _ in 0..LOOKS {
        if counted.load(Ordering::SeqCst) >= wanted {
            return true;
        }
        yield_now();
    }
    false
}

/// A source over bytes in memory, which may wait before it gives the first of them. It fails if it waited in vain.
#[derive(Drop)]
struct WaitingReader<'a> {
    left: &'a [u8],
    turn: Turn<'a>,
    failed: bool,
    reads: ReadCount,
}

impl Source for WaitingReader<'_> {
    ghost left = { λ _. None };

    ghost reads = { λ s. s.reads };

    ghost has_failed = { λ s. s.failed };

    fn failed(&self) -> bool {
        self.failed
    }

    fn read_some(&mut self, room: &mut [u8]) -> Result<usize, Failed> {
        self.reads.count();
        if !self.turn.may_begin() {
            self.failed = true;
            return Err(Failed);
        }
        if self.left.is_empty() {
            self.turn.count();
            self.turn = Turn::Free;
        }
        let n = self.left.len().min(room.len());
        let (given, left) = self.left.split_at(n);
        room[..n].copy_from_slice(given);
        self.left = left;
        Ok(n)
    }
}

/// A sink that keeps what it takes in memory, and may wait before it takes the first. It fails if it waited in vain.
#[derive(Drop)]
struct WaitingWriter<'a> {
    bytes: Vec<u8>,
    turn: Turn<'a>,
    failed: bool,
}

impl Sink for WaitingWriter<'_> {
    ghost taken = { λ _. None };

    ghost has_failed = { λ s. s.failed };

    fn failed(&self) -> bool {
        self.failed
    }

    fn write_some(&mut self, bytes: &[u8]) -> Result<usize, Failed> {
        if !self.turn.may_begin() || self.bytes.extend_from_slice(bytes).is_err() {
            self.failed = true;
            return Err(Failed);
        }
        self.turn.count();
        self.turn = Turn::Free;
        Ok(bytes.len())
    }
}

type WaitingJob<'a> = Job<WaitingReader<'a>, WaitingWriter<'a>>;

/// What a run of jobs leaves that wait for one another.
type WaitingRun<'a> = Run<WaitingReader<'a>, WaitingWriter<'a>>;

/// Who waits for whom.
#[derive(Clone, Copy)]
enum Waits {
    /// The reader in this place for the seven others of the first group.
    ReaderForReaders(usize),
    /// The first writer for the eight readers of the second group.
    WriterForReaders,
    /// The first reader of the second group for the eight writers of the first one.
    ReaderForWriters,
    /// The first writer for the two others.
    WriterForWriters,
}

impl Waits {
    /// What the reader in this place has to do with the others.
    fn of_reader<'a>(self, counted: &'a AtomicU64, place: usize) -> Turn<'a> {
        match (self, place) {
            (Waits::ReaderForReaders(slow), _) if place == slow => Turn::After(counted, 7),
            (Waits::ReaderForReaders(_), _) => Turn::Counted(counted),
            (Waits::WriterForReaders, 8..=15) => Turn::Counted(counted),
            (Waits::ReaderForWriters, 8) => Turn::After(counted, 8),
            _ => Turn::Free,
        }
    }

    /// What the writer in this place has to do with the others.
    fn of_writer<'a>(self, counted: &'a AtomicU64, place: usize) -> Turn<'a> {
        match (self, place) {
            (Waits::WriterForReaders, 0) => Turn::After(counted, 8),
            (Waits::ReaderForWriters, 0..=7) => Turn::Counted(counted),
            (Waits::WriterForWriters, 0) => Turn::After(counted, 2),
            (Waits::WriterForWriters, _) => Turn::Counted(counted),
            _ => Turn::Free,
        }
    }
}

/// A job over a file.
fn job<'a>(alloc: Global, file: &'a [u8], reader: Turn<'a>, writer: Turn<'a>) -> WaitingJob<'a>
    ensures { (result.reader.failed ≡ false) × (result.writer.failed ≡ false) }
{
    Job {
        reader: WaitingReader {
            left: file,
            turn: reader,
            failed: false,
            reads: ReadCount::zero(),
        },
        writer: WaitingWriter {
            bytes: Vec::new(alloc),
            turn: writer,
            failed: false,
        },
    }
}

/// A job for each of these files.
fn jobs<'a>(
    alloc: Global,
    files: &'a [Vec<u8>],
    waits: Waits,
    counted: &'a AtomicU64,
) -> Result<Vec<WaitingJob<'a>>, Fail>
    ensures few { IfOk result (λ jobs. vec_len jobs ≤ length files.now) }
    ensures works { IfOk result (λ jobs. All (λ j. (j.reader.failed ≡ false) × (j.writer.failed ≡ false)) jobs.items) }
{
    let mut jobs = Vec::new(alloc);
    for file in files {
        let place = jobs.len();
        let reader = waits.of_reader(counted, place);
        jobs.push(job(alloc, file, reader, waits.of_writer(counted, place)))?;
    }
    Ok(jobs)
}

/// Works files in their order, with an empty book of 4,000 entries. `rt` starts threads, and `alloc` allocates. `waits`
/// says which readers or writers of `files` wait for which others, and `counted` counts those that others wait for.
fn run_waiting<'a, T: Threads + Sync>(
    rt: &T,
    alloc: Global,
    files: &'a [Vec<u8>],
    waits: Waits,
    counted: &'a AtomicU64,
) -> Result<WaitingRun<'a>, Fail>
    requires { length files.now < 64 }
{
    let stamp = stamp()?;
    let jobs = jobs(alloc, files, waits, counted)?;
    match serve_in_order(rt, alloc, jobs, Book::new(alloc, 4000), &stamp) {
        Ok(run) => Ok(run),
        Err(_) => Err(Fail::new("memory")),
    }
}

/// The writers must have taken the same bytes.
fn expect_same_bytes(run: &WaitingRun, wanted: &MemoryRun) -> Result<(), Fail> {
    for (one, other) in run.jobs.iter().zip(&wanted.jobs) {
        same_bytes("what a job wrote", &one.writer.bytes, other.writer.bytes())?;
    }
    same("jobs", &run.jobs.len(), &wanted.jobs.len())
}

/// The same files worked in turn, where none waits.
fn run_freely<'a>(alloc: Global, files: &'a [Vec<u8>]) -> Result<MemoryRun<'a>, Fail> {
    let inputs = all_with_room(alloc, files, 200_000)?;
    run_in_turn(alloc, Book::new(alloc, 4000), &inputs)
}

/// A run must have left what the same files leave in turn.
fn expect_as_freely(alloc: Global, files: &[Vec<u8>], run: &WaitingRun) -> Result<(), Fail> {
    let wanted = run_freely(alloc, files)?;
    expect_same_runs(alloc, run, &wanted)
}

/// Two runs must have left the same.
fn expect_same_runs(alloc: Global, run: &WaitingRun, wanted: &MemoryRun) -> Result<(), Fail> {
    same_lists("how the jobs ended", &run.outcomes, &wanted.outcomes)?;
    expect_same_bytes(run, wanted)?;
    expect_same_books(alloc, "the book", &run.book, &wanted.book)
}

/// Whether the process has one processor, on which files in order are worked in turn. Then that is said on standard
/// output, since a test that wants more of them is skipped.
fn has_one_processor<T: Print + Threads>(rt: &T) -> bool {
    let is_one = matches!(available_parallelism(rt), Ok(count) if count.get() == 1);
    if is_one {
        let _ = println!(rt; "skipped: on one processor nothing is done beside anything else");
    }
    is_one
}

/// Files worked in their order must leave what they leave in turn, whoever waits for whom. With one processor this is
/// skipped.
fn expect_beside<T: Print + Threads + Sync>(
    rt: &T,
    alloc: Global,
    files: &[Vec<u8>],
    waits: Waits,
) -> Result<(), Fail>
    requires { length files.now < 64 }
{
    if has_one_processor(rt) {
        return Ok(());
    }
    let counted = AtomicU64::new(0);
    let run = run_waiting(rt, alloc, files, waits, &counted)?;
    expect_as_freely(alloc, files, &run)
}

#[test]
fn the_files_of_a_group_are_read_beside_one_another(rt: HostRuntime) -> Result<(), Fail> {
    let alloc = rt.alloc();
    let files = ten_files(alloc)?;
    let eight = files.get(..8).ok_or("eight files")?;
    for slow in [0, 4, 7] {
        expect_beside(&rt, alloc, eight, Waits::ReaderForReaders(slow))?;
    }
    Ok(())
}

#[test]
fn the_next_files_are_read_beside_the_answers(rt: HostRuntime) -> Result<(), Fail> {
    let alloc = rt.alloc();
    let files = stock(alloc)?;
    let sixteen = files.get(..16).ok_or("sixteen files")?;
    for waits in [Waits::WriterForReaders, Waits::ReaderForWriters] {
        expect_beside(&rt, alloc, sixteen, waits)?;
    }
    Ok(())
}

/// Two long files of different submitters, and a short one.
fn long_and_short(alloc: Global) -> Result<[Vec<u8>; 3], Fail> {
    Ok([
        many_works(alloc, SENDER, 1000)?,
        many_works(alloc, OTHER_SENDER, 1000)?,
        plain_file(alloc)?,
    ])
}

#[test]
fn long_acknowledgements_are_written_beside_others(rt: HostRuntime) -> Result<(), Fail> {
    let alloc = rt.alloc();
    let files = long_and_short(alloc)?;
    expect_beside(&rt, alloc, &files, Waits::WriterForWriters)
}
