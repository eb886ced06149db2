//! Many jobs at one desk, and jobs that end in different ways beside one another.

use cwr_desk::{Book, Entry, FileOutcome, OpenGate, Why};
use std::alloc::Global;
use std::sync::Wait;
use std::test::Fail;
use std::thread::Threads;
use test_comparisons::same;
use test_files::{ALL, file, miscounted, one_answer, plain_file, work, writer};
use test_jobs::{
    ACKED, MemoryRun, accepted, expect_ends, expect_history, expect_written, run_at_desk,
    run_whole_files, unread, with_room,
};

/// The file of one new work of this sender.
fn file_from(alloc: Global, sender: &str) -> Result<Vec<u8>, Fail> {
    let lines = [
        work(alloc, "NWR", 0, "W1", "")?,
        writer(alloc, "SWR", 0, 1, ALL)?,
    ];
    file(alloc, sender, "NWR", 1, &lines)
}

/// The file of one new work of this submitter.
fn file_of(alloc: Global, submitter: u32) -> Result<Vec<u8>, Fail> {
    let sender = format!(in alloc; "{submitter:09}")?;
    file_from(alloc, &sender)
}

/// The files of one new work each, of the submitters 1 to 63.
fn files(alloc: Global) -> Result<Vec<Vec<u8>>, Fail> {
    let mut files = Vec::new(alloc);
    for submitter in 1..64u32 {
        files.push(file_of(alloc, submitter)?)?;
    }
    Ok(files)
}

/// The number of entries of this session and this submitter.
fn entries_of(entries: &[Entry], session: u32, submitter: &[u8]) -> usize {
    let mut count: usize = 0;
    for entry in entries {
        if entry.session() == session && entry.call().submitter().as_slice() == submitter {
            count = count.saturating_add(1);
        }
    }
    count
}

/// One entry of a session, with its job's submitter.
fn expect_one_of(alloc: Global, entries: &[Entry], session: u32) -> Result<(), Fail> {
    let submitter = format!(in alloc; "PB{session:09}")?;
    let count = entries_of(entries, session, submitter.as_bytes());
    same(&submitter, &count, &1)
}

/// Works 1 to 63 in the order of the entries, and one entry of each session, with its job's submitter.
fn expect_63(alloc: Global, entries: &[Entry]) -> Result<(), Fail> {
    same("entries", &entries.len(), &63)?;
    for (entry, work) in entries.iter().zip(1..64u32) {
        same("a reply", &entry.reply(), &accepted(work, 1))?;
    }
    for session in 1..64u32 {
        expect_one_of(alloc, entries, session)?;
    }
    Ok(())
}

fn expect_all_63(alloc: Global, run: &MemoryRun) -> Result<(), Fail> {
    expect_ends(run, &[ACKED; 63])?;
    expect_63(alloc, run.book.history())
}

#[test]
fn jobs_of_63_submitters(rt: HostRuntime) -> Result<(), Fail> {
    let alloc = rt.alloc();
    let files = files(alloc)?;
    let run = run_whole_files(&rt, alloc, Book::new(alloc, 100), &files, 425, &OpenGate)?;
    expect_all_63(alloc, &run)
}

/// Works a file that is refused, one whose read fails, and a good one at once, at an empty book of 100 entries.
fn serve_three<'a, T: Threads + Wait + Sync>(
    rt: &T,
    alloc: Global,
    bad: &'a [u8],
    good: &'a [u8],
) -> Result<MemoryRun<'a>, Fail> {
    let inputs = [with_room(bad, 425), unread(good), with_room(good, 425)];
    run_at_desk(rt, alloc, Book::new(alloc, 100), &inputs, &OpenGate)
}

/// How the three ended.
const THREE_ENDS: [FileOutcome; 3] = [
    FileOutcome::Refused { number: 9, line: 5 },
    FileOutcome::Stopped {
        handed: 0,
        why: Why::Read,
    },
    ACKED,
];

fn expect_third_alone(alloc: Global, run: &MemoryRun) -> Result<(), Fail> {
    expect_ends(run, &THREE_ENDS)?;
    expect_history(&run.book, &[(3, accepted(1, 1))])?;
    let wanted = one_answer(alloc, "AS")?;
    expect_written(run, &[b"", b"", &wanted])
}

#[test]
fn a_refused_file_and_a_failed_read_beside_a_good_one(rt: HostRuntime) -> Result<(), Fail> {
    let alloc = rt.alloc();
    let bad = miscounted(alloc)?;
    let good = plain_file(alloc)?;
    let run = serve_three(&rt, alloc, &bad, &good)?;
    expect_third_alone(alloc, &run)
}
