//! A book that was full, and its register read again with room for more.
ghost use Rattle.std.specs.Prelude.{◌≡◌, true};
ghost use Rattle.work_registry.specs.Replay.{is_opening};

use cwr_desk::{Book, FileOutcome, OpenGate, RegisterRefusal, Reply, Why, audit, read_register};
use std::alloc::Global;
use std::sync::Wait;
use std::test::Fail;
use std::thread::Threads;
use test_comparisons::same;
use test_files::{acknowledgement, decision, three_works};
use test_jobs::{
    MemoryRun, accepted, expect_ends, expect_history, expect_run, expect_written, run_at_desk,
    run_in_turn, whole,
};

/// How a file is worked: in turn, or at the desk.
#[derive(Clone, Copy)]
enum Call {
    InTurn,
    AtTheDesk,
}

/// Works one file. `rt` starts threads and waits, and `alloc` allocates. `call` says whether it is worked in turn or at
/// the desk. `input` is worked into `book`.
fn run_by<'a, T: Threads + Wait + Sync>(
    rt: &T,
    alloc: Global,
    call: Call,
    book: Book,
    input: &'a [u8],
) -> Result<MemoryRun<'a>, Fail>
    requires opening { is_opening book.history ≡ true }
{
    let inputs = [whole(input)];
    match call {
        Call::InTurn => run_in_turn(alloc, book, &inputs),
        Call::AtTheDesk => run_at_desk(rt, alloc, book, &inputs, &OpenGate),
    }
}

/// The register of a book that was full after two of three works.
fn register_of_full(alloc: Global, run: &MemoryRun) -> Result<Vec<u8>, Fail> {
    let end = FileOutcome::Stopped {
        handed: 2,
        why: Why::Full,
    };
    expect_run(run, end, b"", &[accepted(1, 1), accepted(2, 1)])?;
    Ok(run.book.write_register(alloc)?)
}

/// The register of a book of two entries, which is full before the file's third work.
fn full_register<T: Threads + Wait + Sync>(
    rt: &T,
    alloc: Global,
    call: Call,
    input: &[u8],
) -> Result<Vec<u8>, Fail> {
    let run = run_by(rt, alloc, call, Book::new(alloc, 2), input)?;
    register_of_full(alloc, &run)
}

/// The acknowledgement of the second run: the third work alone is new.
fn expect_third_new(alloc: Global, run: &MemoryRun) -> Result<(), Fail> {
    let answers = [
        decision(0, "NWR", "W1", "00000001", "DU", &[]),
        decision(1, "NWR", "W2", "00000002", "DU", &[]),
        decision(2, "NWR", "W3", "00000003", "AS", &[]),
    ];
    let wanted = acknowledgement(alloc, &answers)?;
    expect_written(run, &[&wanted])
}

/// The book that the second run leaves: two entries of the opening, and three of its job.
fn expect_five(alloc: Global, book: &Book) -> Result<(), Fail> {
    let history = [
        (0, accepted(1, 1)),
        (0, accepted(2, 1)),
        (1, Reply::Duplicate { work: 1 }),
        (1, Reply::Duplicate { work: 2 }),
        (1, accepted(3, 1)),
    ];
    expect_history(book, &history)?;
    same("the limit", &book.limit(), &10)?;
    let entries = audit(alloc, &book.write_register(alloc)?).ok();
    same("the entries that are audited", &entries, &Some(5))
}

/// What the second run leaves.
fn expect_continued(alloc: Global, run: &MemoryRun) -> Result<(), Fail> {
    expect_ends(run, &[FileOutcome::Acked { transactions: 3 }])?;
    expect_third_new(alloc, run)?;
    expect_five(alloc, &run.book)
}

/// Works the file once more, with a limit of ten entries. `rt` starts threads and waits, and `alloc` allocates. `call`
/// says whether it is worked in turn or at the desk, `input` is the file, and `register` that of the book.
fn run_again<'a, T: Threads + Wait + Sync>(
    rt: &T,
    alloc: Global,
    call: Call,
    input: &'a [u8],
    register: &[u8],
) -> Result<MemoryRun<'a>, Fail> {
    let Ok(book) = read_register(alloc, register, 10) else {
        return Err(Fail::from("no register"));
    };
    run_by(rt, alloc, call, book, input)
}

/// The register has more entries than a book of one may hold.
fn expect_too_small(alloc: Global, register: &[u8]) -> Result<(), Fail> {
    let refused = read_register(alloc, register, 1).err();
    let too_many = RegisterRefusal::Fault { number: 4, line: 1 };
    same("why it is refused", &refused, &Some(too_many))
}

/// Reads the register of the book that was full, and works the file once more with it. `rt` starts threads and waits,
/// and `alloc` allocates. `call` says whether the file is worked in turn or at the desk, `input` is the file, and
/// `register` that of the book.
fn expect_register<T: Threads + Wait + Sync>(
    rt: &T,
    alloc: Global,
    call: Call,
    input: &[u8],
    register: &[u8],
) -> Result<(), Fail> {
    expect_too_small(alloc, register)?;
    let run = run_again(rt, alloc, call, input, register)?;
    expect_continued(alloc, &run)
}

/// Works a file with a book that is full before its end, and then with the book of that one's register.
fn expect_all<T: Threads + Wait + Sync>(rt: &T, alloc: Global, call: Call) -> Result<(), Fail> {
    let input = three_works(alloc)?;
    let register = full_register(rt, alloc, call, &input)?;
    expect_register(rt, alloc, call, &input, &register)
}

#[test]
fn continues_in_turn(rt: HostRuntime) -> Result<(), Fail> {
    expect_all(&rt, rt.alloc(), Call::InTurn)
}

#[test]
fn continues_at_the_desk(rt: HostRuntime) -> Result<(), Fail> {
    expect_all(&rt, rt.alloc(), Call::AtTheDesk)
}
