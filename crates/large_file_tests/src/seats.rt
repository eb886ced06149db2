//! All seats of a desk at work at once.
ghost use Rattle.std.specs.Prelude.{true};

use cwr_desk::{Book, FileOutcome, Gate, Shut, audit};
use std::alloc::Global;
use std::sync::atomic::{AtomicU64, Ordering};
use std::test::Fail;
use std::thread::yield_now;
use test_comparisons::same;
use test_files::many_works;
use test_jobs::{MemoryRun, expect_ends, run_whole_files};

/// The number of works of each file.
const WORKS: u32 = 40;

/// Holds each worker at its first transaction until all 63 have come, so that all are at the desk at once. It gives up
/// after some time.
#[derive(Drop)]
struct AllCome {
    come: AtomicU64,
}

impl Gate for AllCome {
    ghost may_shut = { λ _. true };

    fn before(&self, _worker: u32, index: u32) -> Result<(), Shut> {
        if index == 0 {
            self.come.fetch_add(1, Ordering::SeqCst);
        }
        for _ in 0..1_000_000 {
            if self.come.load(Ordering::SeqCst) == 63 {
                return Ok(());
            }
            yield_now();
        }
        Err(Shut)
    }

    fn after(&self, _worker: u32, _index: u32) {}
}

/// A file of 40 works of a submitter.
fn file_of(alloc: Global, submitter: u32) -> Result<Vec<u8>, Fail> {
    let sender = format!(in alloc; "{submitter:09}")?;
    many_works(alloc, &sender, WORKS)
}

/// The files of the submitters 1 to 63.
fn files(alloc: Global) -> Result<Vec<Vec<u8>>, Fail> {
    let mut files = Vec::new(alloc);
    for submitter in 1..64u32 {
        files.push(file_of(alloc, submitter)?)?;
    }
    Ok(files)
}

/// All works of each file have their entries, half of which are works, and an audit finds the register right.
fn expect_all(alloc: Global, run: &MemoryRun) -> Result<(), Fail> {
    let whole = FileOutcome::Acked {
        transactions: WORKS,
    };
    expect_ends(run, &[whole; 63])?;
    let mut turns = [0u32; 64];
    for entry in run.book.history() {
        let turn = turns.get_mut(entry.session() as usize).ok_or("a session")?;
        *turn = turn.saturating_add(1);
    }
    let mut wanted = [WORKS; 64];
    wanted[0] = 0;
    same("entries of each session", &turns, &wanted)?;
    let register = run.book.write_register(alloc)?;
    same(
        "what an audit tells",
        &audit(alloc, &register).ok(),
        &Some(2520),
    )
}

#[test]
fn sixty_three_workers_at_once(rt: HostRuntime) -> Result<(), Fail> {
    let alloc = rt.alloc();
    let files = files(alloc)?;
    let gate = AllCome {
        come: AtomicU64::new(0),
    };
    let run = run_whole_files(&rt, alloc, Book::new(alloc, 2520), &files, 100_000, &gate)?;
    expect_all(alloc, &run)
}
