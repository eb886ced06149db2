//! Jobs in turn at one book.

use cwr_desk::{Book, Claim, FileOutcome, Reply, Why};
use std::alloc::Global;
use std::test::Fail;
use test_comparisons::{same, same_bytes};
use test_files::{
    FaultMessage, OTHER_SENDER, SENDER, acknowledgement, decision, miscounted, one_answer,
    one_work, plain_file, three_works,
};
use test_jobs::{
    ACKED, MemoryRun, accepted, all_with_room, expect_ends, expect_history, expect_run,
    expect_written, run_in_turn, unread, whole, with_room,
};

/// A run without files leaves no outcome and no job, and the book as it was: empty, with room for 100 entries.
pub(crate) fn expect_no_jobs(run: &MemoryRun) -> Result<(), Fail> {
    same("outcomes", &run.outcomes.len(), &0)?;
    same("jobs", &run.jobs.len(), &0)?;
    same("entries", &run.book.len(), &0)?;
    same("the limit", &run.book.limit(), &100)
}

#[test]
fn no_jobs(rt: HostRuntime) -> Result<(), Fail> {
    let run = run_in_turn(rt.alloc(), Book::new(rt.alloc(), 100), &[])?;
    expect_no_jobs(&run)
}

/// Works two files in turn, into an empty book of 100 entries.
fn run_two<'a>(alloc: Global, first: &'a [u8], second: &'a [u8]) -> Result<MemoryRun<'a>, Fail> {
    run_in_turn(alloc, Book::new(alloc, 100), &[whole(first), whole(second)])
}

/// The first file was refused, and the second one acknowledged.
fn expect_second_alone(alloc: Global, run: &MemoryRun) -> Result<(), Fail> {
    let refused = FileOutcome::Refused { number: 9, line: 5 };
    expect_ends(run, &[refused, ACKED])?;
    expect_history(&run.book, &[(2, accepted(1, 1))])?;
    let wanted = one_answer(alloc, "AS")?;
    expect_written(run, &[b"", &wanted])
}

#[test]
fn a_refused_file_and_another_one(rt: HostRuntime) -> Result<(), Fail> {
    let alloc = rt.alloc();
    let bad = miscounted(alloc)?;
    let good = plain_file(alloc)?;
    let run = run_two(alloc, &bad, &good)?;
    expect_second_alone(alloc, &run)
}

/// Works one file three times in turn: with a read that fails, with room for 100 bytes, and with room for all.
fn run_three(alloc: Global, input: &[u8]) -> Result<MemoryRun<'_>, Fail> {
    let inputs = [unread(input), with_room(input, 100), with_room(input, 425)];
    run_in_turn(alloc, Book::new(alloc, 100), &inputs)
}

/// How the three ended.
const THREE_ENDS: [FileOutcome; 3] = [
    FileOutcome::Stopped {
        handed: 0,
        why: Why::Read,
    },
    FileOutcome::Stopped {
        handed: 1,
        why: Why::Write { sent: 100 },
    },
    ACKED,
];

/// What was written of the three acknowledgements: nothing, 100 bytes, and all.
fn expect_three_written(alloc: Global, run: &MemoryRun) -> Result<(), Fail> {
    let registered = one_answer(alloc, "AS")?;
    let sent = registered.get(..100).ok_or("100 bytes")?;
    let again = one_answer(alloc, "DU")?;
    expect_written(run, &[b"", sent, &again])
}

fn expect_three(alloc: Global, run: &MemoryRun) -> Result<(), Fail> {
    expect_ends(run, &THREE_ENDS)?;
    let history = [(2, accepted(1, 1)), (3, Reply::Duplicate { work: 1 })];
    expect_history(&run.book, &history)?;
    expect_three_written(alloc, run)
}

#[test]
fn a_failed_read_and_a_failed_write(rt: HostRuntime) -> Result<(), Fail> {
    let input = plain_file(rt.alloc())?;
    let run = run_three(rt.alloc(), &input)?;
    expect_three(rt.alloc(), &run)
}

#[test]
fn a_full_book(rt: HostRuntime) -> Result<(), Fail> {
    let alloc = rt.alloc();
    let input = three_works(alloc)?;
    let run = run_in_turn(alloc, Book::new(alloc, 2), &[whole(&input)])?;
    let end = FileOutcome::Stopped {
        handed: 2,
        why: Why::Full,
    };
    expect_run(&run, end, b"", &[accepted(1, 1), accepted(2, 1)])
}

/// Both files were acknowledged, and the second one's work got this reply.
fn expect_second_reply(run: &MemoryRun, second: Reply) -> Result<(), Fail> {
    expect_ends(run, &[ACKED, ACKED])?;
    expect_history(&run.book, &[(1, accepted(1, 1)), (2, second)])
}

/// The outcome for a work of another submitter with the same number.
fn two_submitters(alloc: Global, iswc: &str, shares: [&str; 2], second: Reply) -> Result<(), Fail> {
    let one = one_work(alloc, SENDER, "NWR", "W1", iswc, ["05000", "05000"])?;
    let other = one_work(alloc, OTHER_SENDER, "NWR", "W1", iswc, shares)?;
    let run = run_two(alloc, &one, &other)?;
    expect_second_reply(&run, second)
}

#[test]
fn one_number_of_two_submitters(rt: HostRuntime) -> Result<(), Fail> {
    let alloc = rt.alloc();
    two_submitters(alloc, ISWC, ["05006", "05000"], accepted(1, 1))?;
    two_submitters(alloc, ISWC, ["05007", "04993"], Reply::Conflict { work: 1 })?;
    two_submitters(alloc, "", ["05006", "05000"], accepted(2, 1))
}

/// The work that two submitters claim.
const ISWC: &str = "T0345246801";

/// A file of one work: its sender, its kind, the submitter's number, the ISWC, and the shares of the submitter's writer
/// and the other one.
#[derive(Clone, Copy)]
struct Filed<'a> {
    sender: &'a str,
    kind: &'a str,
    number: &'a str,
    iswc: &'a str,
    own: &'a str,
    other: &'a str,
}

/// A submitter's claim to a work.
const CLAIM: Filed<'static> = Filed {
    sender: SENDER,
    kind: "REV",
    number: "W1",
    iswc: ISWC,
    own: "06000",
    other: "04000",
};

/// Another one's claim to it.
const OTHER_CLAIM: Filed<'static> = Filed {
    sender: OTHER_SENDER,
    kind: "NWR",
    number: "W7",
    iswc: ISWC,
    own: "05000",
    other: "05000",
};

/// A new version of the first claim, with this ISWC.
const fn version(iswc: &str) -> Filed<'_> {
    Filed {
        sender: SENDER,
        kind: "REV",
        number: "W1",
        iswc,
        own: "05000",
        other: "05000",
    }
}

fn file_of(alloc: Global, filed: Filed) -> Result<Vec<u8>, Fail> {
    let Filed {
        sender,
        kind,
        number,
        iswc,
        own,
        other,
    } = filed;
    one_work(alloc, sender, kind, number, iswc, [own, other])
}

/// These files.
fn files_of(alloc: Global, all: &[Filed]) -> Result<Vec<Vec<u8>>, Fail> {
    let mut files = Vec::new(alloc);
    for filed in all {
        files.push(file_of(alloc, *filed)?)?;
    }
    Ok(files)
}

/// Works these files in turn, into an empty book of 100 entries.
fn run_all(alloc: Global, files: &[Vec<u8>]) -> Result<MemoryRun<'_>, Fail> {
    let inputs = all_with_room(alloc, files, 1000)?;
    run_in_turn(alloc, Book::new(alloc, 100), &inputs)
}

/// A run of `files` files, each of which was acknowledged.
fn expect_all_acknowledged(run: &MemoryRun, files: usize) -> Result<(), Fail> {
    for outcome in &run.outcomes {
        same("how a file ended", outcome, &ACKED)?;
    }
    same("outcomes", &run.outcomes.len(), &files)
}

/// The claim to the work that two submitters share: its version, and half of each right.
fn expect_claim(book: &Book, version: u32) -> Result<(), Fail> {
    let wanted = Claim {
        work: 1,
        version,
        control: [5000; 3],
    };
    let claim = book.claim(b"PB000000123", b"W1            ");
    same("a claim", &claim, &Some(wanted))?;
    same("what all control", &book.control_of(1), &[10000; 3])?;
    same(
        "the work of the ISWC",
        &book.work_of_iswc(34524680),
        &Some(1),
    )
}

/// The replies to the first claim, the other one, the new version, and the other one again.
fn expect_four(run: &MemoryRun) -> Result<(), Fail> {
    expect_all_acknowledged(run, 4)?;
    let history = [
        (1, accepted(1, 1)),
        (2, Reply::Conflict { work: 1 }),
        (3, accepted(1, 2)),
        (4, accepted(1, 1)),
    ];
    expect_history(&run.book, &history)?;
    expect_claim(&run.book, 2)
}

#[test]
fn a_claim_and_its_new_version(rt: HostRuntime) -> Result<(), Fail> {
    let claims = [CLAIM, OTHER_CLAIM, version(ISWC), OTHER_CLAIM];
    let files = files_of(rt.alloc(), &claims)?;
    let run = run_all(rt.alloc(), &files)?;
    expect_four(&run)
}

/// The replies to the six, the last of which is this one.
fn expect_six_replies(book: &Book, last: Reply) -> Result<(), Fail> {
    let history = [
        (1, accepted(1, 1)),
        (2, Reply::Conflict { work: 1 }),
        (3, accepted(1, 2)),
        (4, accepted(1, 1)),
        (5, accepted(1, 3)),
        (6, last),
    ];
    expect_history(book, &history)
}

fn expect_six(run: &MemoryRun, last: Reply, written: &[u8]) -> Result<(), Fail> {
    expect_all_acknowledged(run, 6)?;
    expect_six_replies(&run.book, last)?;
    let job = run.jobs.last().ok_or("a job")?;
    same_bytes("the last acknowledgement", job.writer.bytes(), written)?;
    expect_claim(&run.book, 3)
}

/// Six files on one work: the claims, the first's new version, the second again, and two more versions of the first,
/// without an ISWC and with this one. The reply to the last, and its acknowledgement.
fn expect_last(alloc: Global, iswc: &str, reply: Reply, written: &[u8]) -> Result<(), Fail> {
    let claims = [
        CLAIM,
        OTHER_CLAIM,
        version(ISWC),
        OTHER_CLAIM,
        version(""),
        version(iswc),
    ];
    let files = files_of(alloc, &claims)?;
    let run = run_all(alloc, &files)?;
    expect_six(&run, reply, written)
}

#[test]
fn a_new_version_with_another_iswc(rt: HostRuntime) -> Result<(), Fail> {
    let alloc = rt.alloc();
    let answers = [decision(0, "REV", "W1", "00000001", "CO", &[])];
    let written = acknowledgement(alloc, &answers)?;
    let reply = Reply::Conflict { work: 1 };
    expect_last(alloc, "T0000000010", reply, &written)
}

#[test]
fn a_new_version_with_a_wrong_iswc(rt: HostRuntime) -> Result<(), Fail> {
    let alloc = rt.alloc();
    let faults: &[FaultMessage] = &[(0, "REV", 4, "ISWC IS NOT VALID")];
    let answers = [decision(0, "REV", "W1", "", "RJ", faults)];
    let written = acknowledgement(alloc, &answers)?;
    expect_last(alloc, "T0000000019", Reply::Rejected, &written)
}
