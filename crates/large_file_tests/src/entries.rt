//! Books of 100,000 entries and their registers.
ghost use Rattle.std.specs.Prelude.{◌≡◌, true};
ghost use Rattle.work_registry.specs.Replay.{is_opening};

use cwr_desk::{Book, FileOutcome, OpenGate, Why, audit, read_register};
use std::alloc::Global;
use std::sync::Wait;
use std::test::Fail;
use std::thread::Threads;
use test_comparisons::{same, same_bytes};
use test_files::{OTHER_SENDER, SENDER, many_answers, many_entries, many_works};
use test_jobs::{MemoryRun, expect_ends, expect_written, run_at_desk, run_in_turn, with_room};

/// A bound on the bytes of an acknowledgement here.
const ROOM: usize = 10_000_000;

/// Half of the entries, which is the number of works of each of two files.
const HALF: u32 = 50_000;

const WHOLE: FileOutcome = FileOutcome::Acked { transactions: HALF };

/// Files of 50,000 works of two submitters.
fn two_files(alloc: Global) -> Result<[Vec<u8>; 2], Fail> {
    Ok([
        many_works(alloc, SENDER, HALF)?,
        many_works(alloc, OTHER_SENDER, HALF)?,
    ])
}

/// Works two files in turn, with a book.
fn run_two<'a>(alloc: Global, book: Book, files: &'a [Vec<u8>; 2]) -> Result<MemoryRun<'a>, Fail>
    requires opening { is_opening book.history ≡ true }
{
    let [first, second] = files;
    let inputs = [with_room(first, ROOM), with_room(second, ROOM)];
    run_in_turn(alloc, book, &inputs)
}

/// The register of both files.
fn register(alloc: Global) -> Result<Vec<u8>, Fail> {
    many_entries(alloc, &[SENDER, OTHER_SENDER], HALF)
}

/// Both files were acknowledged, and this is the register of the book.
fn expect_100_000(alloc: Global, run: &MemoryRun, register: &[u8]) -> Result<(), Fail> {
    expect_ends(run, &[WHOLE; 2])?;
    let first = many_answers(alloc, HALF, 0)?;
    let second = many_answers(alloc, HALF, HALF / 2)?;
    expect_written(run, &[&first, &second])?;
    same("entries", &run.book.len(), &100_000)?;
    same_bytes("the register", &run.book.write_register(alloc)?, register)
}

#[test]
fn works_100_000_transactions(rt: HostRuntime) -> Result<(), Fail> {
    let alloc = rt.alloc();
    let files = two_files(alloc)?;
    let register = register(alloc)?;
    let run = run_two(alloc, Book::new(alloc, 100_000), &files)?;
    expect_100_000(alloc, &run, &register)
}

/// The first file was acknowledged, and the last transaction of the second was refused, since the book was full.
fn expect_99_999(run: &MemoryRun) -> Result<(), Fail> {
    let full = FileOutcome::Stopped {
        handed: 49_999,
        why: Why::Full,
    };
    expect_ends(run, &[WHOLE, full])?;
    same("entries", &run.book.len(), &99_999)
}

/// The last transaction of both is one too many.
#[test]
fn stops_at_the_last_of_100_000(rt: HostRuntime) -> Result<(), Fail> {
    let alloc = rt.alloc();
    let files = two_files(alloc)?;
    let run = run_two(alloc, Book::new(alloc, 99_999), &files)?;
    expect_99_999(&run)
}

/// A book has `entries` entries and this register.
fn expect_book(alloc: Global, book: &Book, entries: usize, register: &[u8]) -> Result<(), Fail> {
    same("entries", &book.len(), &entries)?;
    same_bytes("its register", &book.write_register(alloc)?, register)
}

#[test]
fn reads_and_audits_100_000_entries(rt: HostRuntime) -> Result<(), Fail> {
    let alloc = rt.alloc();
    let register = register(alloc)?;
    same("its length", &register.len(), &17_530_012)?;
    same(
        "what an audit tells",
        &audit(alloc, &register).ok(),
        &Some(100_000),
    )?;
    expect_book(
        alloc,
        &read_register(alloc, &register, 100_000)?,
        100_000,
        &register,
    )
}

/// The files of four submitters, of 25,000 works each.
fn four_files(alloc: Global) -> Result<[Vec<u8>; 4], Fail> {
    Ok([
        many_works(alloc, SENDER, 25_000)?,
        many_works(alloc, OTHER_SENDER, 25_000)?,
        many_works(alloc, "000000789", 25_000)?,
        many_works(alloc, "000000790", 25_000)?,
    ])
}

/// Works four files at once, at an empty book of 100,000 entries.
fn run_four<'a, T: Threads + Wait + Sync>(
    rt: &T,
    alloc: Global,
    files: &'a [Vec<u8>; 4],
) -> Result<MemoryRun<'a>, Fail> {
    let [first, second, third, fourth] = files;
    let inputs = [
        with_room(first, ROOM),
        with_room(second, ROOM),
        with_room(third, ROOM),
        with_room(fourth, ROOM),
    ];
    run_at_desk(rt, alloc, Book::new(alloc, 100_000), &inputs, &OpenGate)
}

/// The number of entries of a book that are of a session.
fn entries_of(book: &Book, session: u32) -> usize {
    let mut count: usize = 0;
    for entry in book.history() {
        if entry.session() == session {
            count = count.saturating_add(1);
        }
    }
    count
}

/// All four files were acknowledged, and an audit finds the register of the book right.
fn expect_four(alloc: Global, run: &MemoryRun) -> Result<(), Fail> {
    let whole = FileOutcome::Acked {
        transactions: 25_000,
    };
    expect_ends(run, &[whole; 4])?;
    for session in 1..5 {
        same(
            "entries of a session",
            &entries_of(&run.book, session),
            &25_000,
        )?;
    }
    let register = run.book.write_register(alloc)?;
    same(
        "what an audit tells",
        &audit(alloc, &register).ok(),
        &Some(100_000),
    )
}

#[test]
fn works_100_000_transactions_at_once(rt: HostRuntime) -> Result<(), Fail> {
    let files = four_files(rt.alloc())?;
    let run = run_four(&rt, rt.alloc(), &files)?;
    expect_four(rt.alloc(), &run)
}
