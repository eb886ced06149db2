//! Jobs on threads of their own at one desk.
ghost use Rattle.std.specs.Prelude.{true};

use crate::turns::expect_no_jobs;
use cwr_desk::{Book, FileOutcome, Gate, OpenGate, Reply, Shut, Why};
use std::alloc::Global;
use std::sync::Wait;
use std::sync::atomic::{AtomicU64, Ordering};
use std::test::Fail;
use std::thread::{Threads, yield_now};
use test_comparisons::same;
use test_files::{one_answer, plain_file, rival_claims};
use test_jobs::{
    ACKED, MemoryRun, accepted, expect_ends, expect_history, expect_written, run_at_desk, whole,
};

/// Holds each worker until two have come, and then worker 1 until worker 2 has its reply. It gives up after some time.
#[derive(Drop)]
pub(crate) struct SecondFirst {
    come: AtomicU64,
    answered: AtomicU64,
}

impl SecondFirst {
    pub(crate) fn new() -> SecondFirst {
        SecondFirst {
            come: AtomicU64::new(0),
            answered: AtomicU64::new(0),
        }
    }
}

impl Gate for SecondFirst {
    ghost may_shut = { λ _. true };

    fn before(&self, worker: u32, _index: u32) -> Result<(), Shut> {
        self.come.fetch_add(1, Ordering::SeqCst);
        for _ in 0..1_000_000 {
            let both = self.come.load(Ordering::SeqCst) >= 2;
            if both && (worker == 2 || self.answered.load(Ordering::SeqCst) == 1) {
                return Ok(());
            }
            yield_now();
        }
        Err(Shut)
    }

    fn after(&self, worker: u32, _index: u32) {
        if worker == 2 {
            self.answered.store(1, Ordering::SeqCst);
        }
    }
}

/// Works two files at once, at an empty book of 100 entries. `rt` starts threads and waits, and `alloc` allocates.
/// `first` and `second` are the files, and `gate` is passed before and after each transaction.
pub(crate) fn serve_two<'a, T: Threads + Wait + Sync, G: Gate + Sync>(
    rt: &T,
    alloc: Global,
    first: &'a [u8],
    second: &'a [u8],
    gate: &G,
) -> Result<MemoryRun<'a>, Fail> {
    let inputs = [whole(first), whole(second)];
    run_at_desk(rt, alloc, Book::new(alloc, 100), &inputs, gate)
}

/// The second job registered the work, and the first one's claim to it is in conflict.
fn expect_second_first(alloc: Global, run: &MemoryRun) -> Result<(), Fail> {
    expect_ends(run, &[ACKED, ACKED])?;
    let history = [(2, accepted(1, 1)), (1, Reply::Conflict { work: 1 })];
    expect_history(&run.book, &history)?;
    let conflict = one_answer(alloc, "CO")?;
    let registered = one_answer(alloc, "AS")?;
    expect_written(run, &[&conflict, &registered])
}

#[test]
fn two_workers_meet_at_the_gate(rt: HostRuntime) -> Result<(), Fail> {
    let alloc = rt.alloc();
    let claims = rival_claims(alloc)?;
    let [one, other] = &claims;
    let run = serve_two(&rt, alloc, one, other, &SecondFirst::new())?;
    expect_second_first(alloc, &run)
}

/// The gate stopped the one job before it handed anything in.
fn expect_stopped(run: &MemoryRun) -> Result<(), Fail> {
    let stopped = FileOutcome::Stopped {
        handed: 0,
        why: Why::Gate,
    };
    expect_ends(run, &[stopped])?;
    same("entries", &run.book.len(), &0)
}

#[test]
fn one_worker_waits_in_vain(rt: HostRuntime) -> Result<(), Fail> {
    let alloc = rt.alloc();
    let input = plain_file(alloc)?;
    let book = Book::new(alloc, 100);
    let run = run_at_desk(&rt, alloc, book, &[whole(&input)], &SecondFirst::new())?;
    expect_stopped(&run)
}

/// What was written of the two acknowledgements of the plain file: the first accepts a new work if it came first.
fn expect_both_written(alloc: Global, run: &MemoryRun, first_came: bool) -> Result<(), Fail> {
    let registered = one_answer(alloc, "AS")?;
    let duplicate = one_answer(alloc, "DU")?;
    if first_came {
        expect_written(run, &[&registered, &duplicate])
    } else {
        expect_written(run, &[&duplicate, &registered])
    }
}

/// Both jobs acknowledged the plain file, first the one of this session and then the other one.
fn expect_twice(alloc: Global, run: &MemoryRun, sessions: [u32; 2]) -> Result<(), Fail> {
    expect_ends(run, &[ACKED, ACKED])?;
    let [earlier, later] = sessions;
    let history = [
        (earlier, accepted(1, 1)),
        (later, Reply::Duplicate { work: 1 }),
    ];
    expect_history(&run.book, &history)?;
    expect_both_written(alloc, run, earlier == 1)
}

/// The same, in whichever order they came.
fn expect_twice_somehow(alloc: Global, run: &MemoryRun) -> Result<(), Fail> {
    let first = run.book.history().first().ok_or("an entry")?;
    let sessions = if first.session() == 1 { [1, 2] } else { [2, 1] };
    expect_twice(alloc, run, sessions)
}

#[test]
fn one_file_twice_at_once(rt: HostRuntime) -> Result<(), Fail> {
    let alloc = rt.alloc();
    let input = plain_file(alloc)?;
    let run = serve_two(&rt, alloc, &input, &input, &OpenGate)?;
    expect_twice_somehow(alloc, &run)
}

#[test]
fn one_file_twice_and_the_second_job_first(rt: HostRuntime) -> Result<(), Fail> {
    let alloc = rt.alloc();
    let input = plain_file(alloc)?;
    let run = serve_two(&rt, alloc, &input, &input, &SecondFirst::new())?;
    expect_twice(alloc, &run, [2, 1])
}

#[test]
fn no_jobs_at_the_desk(rt: HostRuntime) -> Result<(), Fail> {
    let alloc = rt.alloc();
    let run = run_at_desk(&rt, alloc, Book::new(alloc, 100), &[], &OpenGate)?;
    expect_no_jobs(&run)
}
