//! Files and their acknowledgements, byte for byte.
use crate::lines::{Line, file_of_works, file_with};
use crate::three_ways::expect_three_ways;
use cwr_desk::{Book, FileOutcome, OpenGate, Reply};
use std::alloc::Global;
use std::sync::Wait;
use std::test::Fail;
use std::thread::Threads;
use test_comparisons::same;
use test_files::{
    Answer, FaultMessage, SENDER, acknowledgement, decision, one_work, plain_file, with_newlines,
    work_twice,
};
use test_jobs::{accepted, run_at_desk, run_in_turn, whole};

/// Acknowledges a file into an empty book, alone, as a job in turn, and at the desk. `rt` starts threads and waits,
/// `alloc` allocates, and `input` is the file. `answers` are the decisions that the acknowledgement must have, and
/// `replies` those that the two books must hold.
fn expect<T: Threads + Wait + Sync>(
    rt: &T,
    alloc: Global,
    input: &[u8],
    answers: &[Answer],
    replies: &[Reply],
) -> Result<(), Fail> {
    let transactions = u32::try_from(answers.len())?;
    let wanted = acknowledgement(alloc, answers)?;
    let end = FileOutcome::Acked { transactions };
    expect_three_ways(rt, alloc, input, wanted.len(), end, &wanted, replies)
}

/// A file of one new work W1, which must be accepted as work 1, or rejected for these faults.
fn expect_one<T: Threads + Wait + Sync>(
    rt: &T,
    alloc: Global,
    input: &[u8],
    faults: &[FaultMessage],
) -> Result<(), Fail> {
    let (work, status, reply) = if faults.is_empty() {
        ("00000001", "AS", accepted(1, 1))
    } else {
        ("", "RJ", Reply::Rejected)
    };
    let answers = [decision(0, "NWR", "W1", work, status, faults)];
    expect(rt, alloc, input, &answers, &[reply])
}

/// The same of the file that has these lines for its one work.
fn expect_lines<T: Threads + Wait + Sync>(
    rt: &T,
    alloc: Global,
    lines: &[Line],
    faults: &[FaultMessage],
) -> Result<(), Fail> {
    let input = file_of_works(alloc, 1, lines)?;
    expect_one(rt, alloc, &input, faults)
}

#[test]
fn one_work_of_one_writer(rt: HostRuntime) -> Result<(), Fail> {
    let alloc = rt.alloc();
    let answers = [decision(0, "NWR", "W1", "00000001", "AS", &[])];
    same("its length", &acknowledgement(alloc, &answers)?.len(), &425)?;
    expect(&rt, alloc, &plain_file(alloc)?, &answers, &[accepted(1, 1)])
}

#[test]
fn a_file_without_groups(rt: HostRuntime) -> Result<(), Fail> {
    let alloc = rt.alloc();
    let input = file_with(alloc, &[Line::Text("TRL000000000000000000002")])?;
    expect(&rt, alloc, &input, &[], &[])
}

/// A work of two writers with half of the other rights each. `rt` starts threads and waits, and `alloc` allocates.
/// `own` and `other` are the writers' shares of the performing right, and `faults` what the work must be rejected for,
/// if for any.
fn expect_shares<'a, T: Threads + Wait + Sync>(
    rt: &T,
    alloc: Global,
    own: &'a str,
    other: &'a str,
    faults: &[FaultMessage],
) -> Result<(), Fail> {
    let lines = [
        Line::Work("NWR", 0, "W1", ""),
        Line::Writer("SWR", 0, 1, own, "05000"),
        Line::Writer("OWR", 0, 2, other, "05000"),
    ];
    expect_lines(rt, alloc, &lines, faults)
}

#[test]
fn ownership_totals(rt: HostRuntime) -> Result<(), Fail> {
    let alloc = rt.alloc();
    expect_shares(&rt, alloc, "04994", "05000", &[])?;
    expect_shares(&rt, alloc, "05006", "05000", &[])?;
    expect_shares(&rt, alloc, "00000", "00000", &[])?;
    let off: &[FaultMessage] = &[(0, "NWR", 11, "PR OWNERSHIP TOTAL IS NOT VALID")];
    expect_shares(&rt, alloc, "04993", "05000", off)?;
    expect_shares(&rt, alloc, "05007", "05000", off)
}

/// A work with this ISWC.
fn expect_iswc<T: Threads + Wait + Sync>(
    rt: &T,
    alloc: Global,
    iswc: &str,
    faults: &[FaultMessage],
) -> Result<(), Fail> {
    let lines = [
        Line::Work("NWR", 0, "W1", iswc),
        Line::Writer("SWR", 0, 1, "05000", "05000"),
        Line::Writer("OWR", 0, 2, "05000", "05000"),
    ];
    expect_lines(rt, alloc, &lines, faults)
}

#[test]
fn check_digits(rt: HostRuntime) -> Result<(), Fail> {
    let alloc = rt.alloc();
    let wrong: &[FaultMessage] = &[(0, "NWR", 4, "ISWC IS NOT VALID")];
    expect_iswc(&rt, alloc, "T0345246801", &[])?;
    expect_iswc(&rt, alloc, "T0345246802", wrong)?;
    expect_iswc(&rt, alloc, "", &[])
}

/// A work with this copyright date.
fn expect_date<T: Threads + Wait + Sync>(
    rt: &T,
    alloc: Global,
    date: &str,
    faults: &[FaultMessage],
) -> Result<(), Fail> {
    let after = format!(in alloc; "{:11}{date}", "")?;
    let lines = [
        Line::Work("NWR", 0, "W1", &after),
        Line::Writer("SWR", 0, 1, "10000", "10000"),
    ];
    expect_lines(rt, alloc, &lines, faults)
}

#[test]
fn copyright_dates(rt: HostRuntime) -> Result<(), Fail> {
    let alloc = rt.alloc();
    let no_day: &[FaultMessage] = &[(0, "NWR", 5, "DATE OR DURATION IS NOT VALID")];
    expect_date(&rt, alloc, "20230229", no_day)?;
    expect_date(&rt, alloc, "20240229", &[])?;
    expect_date(&rt, alloc, "00000000", &[])?;
    expect_date(&rt, alloc, "", &[])
}

/// The file of a work with records that are carried, one of which, the sixth, is this one.
pub(crate) fn carried_file(alloc: Global, sixth: &str) -> Result<Vec<u8>, Fail> {
    let lines = [
        Line::Work("NWR", 0, "W1", ""),
        Line::Writer("SWR", 0, 1, "10000", "10000"),
        Line::Text("NWN0000000000000002"),
        Line::Text("SWT0000000000000003000000001050000500005000I2136"),
        Line::Text("ALT0000000000000004OTHER NAME"),
        Line::Text(sixth),
        Line::Text("REC0000000000000006"),
        Line::Text("ORN0000000000000007LIB"),
        Line::Text("XRF0000000000000008"),
    ];
    file_of_works(alloc, 1, &lines)
}

/// The work is accepted with `blanks` blanks at the end of that record.
fn expect_carried<T: Threads + Wait + Sync>(
    rt: &T,
    alloc: Global,
    blanks: usize,
) -> Result<(), Fail> {
    let sixth = format!(in alloc; "PER0000000000000005X{:blanks$}", "")?;
    let input = carried_file(alloc, &sixth)?;
    expect_one(rt, alloc, &input, &[])
}

#[test]
fn records_that_are_carried(rt: HostRuntime) -> Result<(), Fail> {
    expect_carried(&rt, rt.alloc(), 0)?;
    expect_carried(&rt, rt.alloc(), 4076)
}

#[test]
fn a_rejected_work_and_an_accepted_one(rt: HostRuntime) -> Result<(), Fail> {
    let alloc = rt.alloc();
    let lines = [
        Line::Work("NWR", 0, "W1", ""),
        Line::Text("SWT0000000000000001000000001050000500005000I2136"),
        Line::Writer("SWR", 0, 2, "10000", "10000"),
        Line::Work("NWR", 1, "W2", ""),
        Line::Writer("SWR", 1, 1, "10000", "10000"),
    ];
    let input = file_of_works(alloc, 2, &lines)?;
    let told: &[FaultMessage] = &[(1, "SWT", 1, "RECORD OUT OF ORDER")];
    let answers = [
        decision(0, "NWR", "W1", "", "RJ", told),
        decision(1, "NWR", "W2", "00000001", "AS", &[]),
    ];
    let replies = [Reply::Rejected, accepted(1, 1)];
    expect(&rt, alloc, &input, &answers, &replies)
}

#[test]
fn a_work_twice(rt: HostRuntime) -> Result<(), Fail> {
    let alloc = rt.alloc();
    let input = work_twice(alloc, SENDER)?;
    let answers = [
        decision(0, "NWR", "W1", "00000001", "AS", &[]),
        decision(1, "NWR", "W1", "00000001", "DU", &[]),
    ];
    let replies = [accepted(1, 1), Reply::Duplicate { work: 1 }];
    expect(&rt, alloc, &input, &answers, &replies)
}

#[test]
fn a_share_above_the_whole(rt: HostRuntime) -> Result<(), Fail> {
    let alloc = rt.alloc();
    let lines = [
        Line::Work("NWR", 0, "W1", ""),
        Line::Writer("SWR", 0, 1, "10001", "10000"),
    ];
    expect_lines(&rt, alloc, &lines, &[(1, "SWR", 6, "SHARE IS NOT VALID")])
}

#[test]
fn a_header_alone(rt: HostRuntime) -> Result<(), Fail> {
    let alloc = rt.alloc();
    let input = file_of_works(alloc, 1, &[Line::Text("NWR0000000000000000")])?;
    let told: &[FaultMessage] = &[
        (0, "NWR", 2, "TITLE IS BLANK"),
        (0, "NWR", 3, "SUBMITTER WORK NUMBER IS BLANK"),
        (0, "NWR", 10, "NO WRITER"),
    ];
    let answers = [Answer {
        sequence: 0,
        kind: "NWR",
        title: "",
        number: "",
        work: "",
        status: "RJ",
        faults: told,
    }];
    expect(&rt, alloc, &input, &answers, &[Reply::Rejected])
}

/// The file of a new work of a publisher and a writer, with the record of the one and the link of the other to it.
fn linked<'a>(alloc: Global, publisher: &'a str, link: &'a str) -> Result<Vec<u8>, Fail> {
    let lines = [
        Line::Work("NWR", 0, "W1", ""),
        Line::Text(publisher),
        Line::Writer("SWR", 0, 2, "05000", "00000"),
        Line::Text(link),
    ];
    file_of_works(alloc, 1, &lines)
}

/// The file of a new work of a publisher and a writer whose publisher is named by this number.
fn published(alloc: Global, publisher: &str) -> Result<Vec<u8>, Fail> {
    let own = format!(in alloc;
        "SPU000000000000000101000000002PUBLISHER A{:35}E{:38}05000   10000   10000",
        "", ""
    )?;
    let link = format!(in alloc;
        "PWR0000000000000003{publisher}PUBLISHER A{:62}000000001",
        ""
    )?;
    linked(alloc, &own, &link)
}

/// That file's work must be accepted as work 1, or rejected for these faults.
fn expect_published<T: Threads + Wait + Sync>(
    rt: &T,
    alloc: Global,
    publisher: &str,
    faults: &[FaultMessage],
) -> Result<(), Fail> {
    let input = published(alloc, publisher)?;
    expect_one(rt, alloc, &input, faults)
}

#[test]
fn a_publisher_of_the_writer(rt: HostRuntime) -> Result<(), Fail> {
    let alloc = rt.alloc();
    expect_published(&rt, alloc, "000000002", &[])?;
    let told: &[FaultMessage] = &[(3, "PWR", 9, "PUBLISHER OF WRITER IS NOT IN THE TRANSACTION")];
    expect_published(&rt, alloc, "000000009", told)
}

#[test]
fn what_a_publisher_and_a_writer_control_in_turn(rt: HostRuntime) -> Result<(), Fail> {
    let alloc = rt.alloc();
    let input = published(alloc, "000000002")?;
    let run = run_in_turn(alloc, Book::new(alloc, 100), &[whole(&input)])?;
    same("what all control", &run.book.control_of(1), &[10000; 3])
}

#[test]
fn what_a_publisher_and_a_writer_control_at_the_desk(rt: HostRuntime) -> Result<(), Fail> {
    let alloc = rt.alloc();
    let input = published(alloc, "000000002")?;
    let run = run_at_desk(
        &rt,
        alloc,
        Book::new(alloc, 100),
        &[whole(&input)],
        &OpenGate,
    )?;
    same("what all control", &run.book.control_of(1), &[10000; 3])
}

/// The plain file with LF alone at the end of each line, but for the last one, which has none.
fn expect_unended<T: Threads + Wait + Sync>(rt: &T, alloc: Global) -> Result<(), Fail> {
    let newlines = with_newlines(alloc, &plain_file(alloc)?)?;
    let cut = newlines.len().saturating_sub(1);
    let unended = newlines.get(..cut).ok_or("a line")?;
    expect_one(rt, alloc, unended, &[])
}

/// The plain file with the old end of file mark.
fn expect_marked<T: Threads + Wait + Sync>(rt: &T, alloc: Global) -> Result<(), Fail> {
    let mut marked = plain_file(alloc)?;
    marked.extend_from_slice(b"\r\n\x1a\r\n")?;
    expect_one(rt, alloc, &marked, &[])
}

#[test]
fn other_line_ends(rt: HostRuntime) -> Result<(), Fail> {
    expect_unended(&rt, rt.alloc())?;
    expect_marked(&rt, rt.alloc())
}

#[test]
fn a_conflict_is_not_made_alone(rt: HostRuntime) -> Result<(), Fail> {
    let alloc = rt.alloc();
    let input = one_work(
        alloc,
        SENDER,
        "REV",
        "W1",
        "T0345246801",
        ["05000", "05000"],
    )?;
    let answers = [decision(0, "REV", "W1", "00000001", "AS", &[])];
    expect(&rt, alloc, &input, &answers, &[accepted(1, 1)])
}
