//! Gates that close, and one that records who passed it.
ghost use Rattle.std.specs.Prelude.{false, true};

use crate::threads::serve_two;
use cwr_desk::{Book, FileOutcome, Gate, Reply, Shut, Why};
use std::alloc::Global;
use std::sync::Mutex;
use std::test::Fail;
use test_comparisons::{same, same_lists};
use test_files::{OTHER_SENDER, SENDER, acknowledgement, decision, three_works, work_twice};
use test_jobs::{MemoryRun, accepted, expect_ends, expect_run, expect_written, run_at_desk, whole};

/// A gate that is closed for one transaction of one worker.
#[derive(Drop)]
struct ShutFor {
    worker: u32,
    index: u32,
}

impl Gate for ShutFor {
    ghost may_shut = { λ _. true };

    fn before(&self, worker: u32, index: u32) -> Result<(), Shut> {
        if worker == self.worker && index == self.index {
            Err(Shut)
        } else {
            Ok(())
        }
    }

    fn after(&self, _worker: u32, _index: u32) {}
}

const SHUT: ShutFor = ShutFor {
    worker: 1,
    index: 1,
};

#[test]
fn a_gate_that_shuts(rt: HostRuntime) -> Result<(), Fail> {
    let alloc = rt.alloc();
    let input = work_twice(alloc, SENDER)?;
    let run = run_at_desk(&rt, alloc, Book::new(alloc, 100), &[whole(&input)], &SHUT)?;
    let end = FileOutcome::Stopped {
        handed: 1,
        why: Why::Gate,
    };
    expect_run(&run, end, b"", &[accepted(1, 1)])
}

/// The replies of a session, in order.
fn replies_of(alloc: Global, book: &Book, session: u32) -> Result<Vec<Reply>, Fail> {
    let mut replies = Vec::new(alloc);
    for entry in book.history() {
        if entry.session() == session {
            replies.push(entry.reply())?;
        }
    }
    Ok(replies)
}

/// A job's session has these replies. `alloc` allocates, and `book` has the entries of session `session`. `what` names
/// the test, and `wanted` has the replies.
fn expect_replies(
    alloc: Global,
    book: &Book,
    session: u32,
    what: &str,
    wanted: &[Reply],
) -> Result<(), Fail> {
    let replies = replies_of(alloc, book, session)?;
    same_lists(what, &replies, wanted)
}

/// Three entries: the first job's work, and the second job's twice. The works are numbered as they came.
fn expect_both(alloc: Global, book: &Book) -> Result<u32, Fail> {
    same("entries", &book.len(), &3)?;
    let first = book.history().first().ok_or("an entry")?;
    let (stopped, whole) = if first.session() == 1 { (1, 2) } else { (2, 1) };
    let wanted = [accepted(stopped, 1)];
    expect_replies(alloc, book, 1, "the first job's replies", &wanted)?;
    let wanted = [accepted(whole, 1), Reply::Duplicate { work: whole }];
    expect_replies(alloc, book, 2, "the second job's replies", &wanted)?;
    Ok(whole)
}

/// The acknowledgement of a file that has a work twice. The work has this number.
fn told_twice(alloc: Global, work: u32) -> Result<Vec<u8>, Fail> {
    let number = format!(in alloc; "{work:08}")?;
    let answers = [
        decision(0, "NWR", "W1", &number, "AS", &[]),
        decision(1, "NWR", "W1", &number, "DU", &[]),
    ];
    acknowledgement(alloc, &answers)
}

/// How the two ended, of which the first was stopped.
const TWO_ENDS: [FileOutcome; 2] = [
    FileOutcome::Stopped {
        handed: 1,
        why: Why::Gate,
    },
    FileOutcome::Acked { transactions: 2 },
];

fn expect_one_shut(alloc: Global, run: &MemoryRun) -> Result<(), Fail> {
    expect_ends(run, &TWO_ENDS)?;
    let whole = expect_both(alloc, &run.book)?;
    let wanted = told_twice(alloc, whole)?;
    expect_written(run, &[b"", &wanted])
}

#[test]
fn a_gate_that_shuts_for_one_of_two(rt: HostRuntime) -> Result<(), Fail> {
    let alloc = rt.alloc();
    let one = work_twice(alloc, SENDER)?;
    let other = work_twice(alloc, OTHER_SENDER)?;
    let run = serve_two(&rt, alloc, &one, &other, &SHUT)?;
    expect_one_shut(alloc, &run)
}

/// That a worker passed a gate, at one of its transactions.
#[derive(Clone, Copy, Debug, PartialEq, Eq)]
enum Passed {
    Before { worker: u32, index: u32 },
    After { worker: u32, index: u32 },
}

const fn before(index: u32) -> Passed {
    Passed::Before { worker: 1, index }
}

const fn after(index: u32) -> Passed {
    Passed::After { worker: 1, index }
}

/// Lets everyone pass, and records who did, in order.
#[derive(Drop)]
struct Recording {
    passed: Mutex<Vec<Passed>>,
}

impl Recording {
    fn new(alloc: Global) -> Recording {
        Recording {
            passed: Mutex::new(Vec::new(alloc)),
        }
    }

    /// Who passed it, in order.
    fn into_passed(self) -> Vec<Passed> {
        self.passed.into_inner()
    }

    fn keep(&self, passed: Passed) {
        if let Some(mut kept) = self.passed.try_lock() {
            let _kept = kept.push(passed).is_ok();
        }
    }
}

impl Gate for Recording {
    ghost may_shut = { λ _. false };

    fn before(&self, worker: u32, index: u32) -> Result<(), Shut> {
        self.keep(Passed::Before { worker, index });
        Ok(())
    }

    fn after(&self, worker: u32, index: u32) {
        self.keep(Passed::After { worker, index });
    }
}

/// Both transactions passed the gate, one after the other.
fn expect_two_passed(run: &MemoryRun, passed: &[Passed]) -> Result<(), Fail> {
    expect_ends(run, &[FileOutcome::Acked { transactions: 2 }])?;
    let wanted = [before(0), after(0), before(1), after(1)];
    same_lists("who passed the gate", passed, &wanted)
}

#[test]
fn each_transaction_passes_the_gate(rt: HostRuntime) -> Result<(), Fail> {
    let alloc = rt.alloc();
    let input = work_twice(alloc, SENDER)?;
    let gate = Recording::new(alloc);
    let run = run_at_desk(&rt, alloc, Book::new(alloc, 100), &[whole(&input)], &gate)?;
    expect_two_passed(&run, &gate.into_passed())
}

/// The first transaction passed the gate. The second one, for which the book had no room, did not pass it.
fn expect_one_passed(run: &MemoryRun, passed: &[Passed]) -> Result<(), Fail> {
    let end = FileOutcome::Stopped {
        handed: 1,
        why: Why::Full,
    };
    expect_run(run, end, b"", &[accepted(1, 1)])?;
    let wanted = [before(0), after(0), before(1)];
    same_lists("who passed the gate", passed, &wanted)
}

#[test]
fn a_refused_transaction_does_not_pass(rt: HostRuntime) -> Result<(), Fail> {
    let alloc = rt.alloc();
    let input = three_works(alloc)?;
    let gate = Recording::new(alloc);
    let run = run_at_desk(&rt, alloc, Book::new(alloc, 1), &[whole(&input)], &gate)?;
    expect_one_passed(&run, &gate.into_passed())
}
