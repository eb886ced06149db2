//! The required outcomes of jobs that may have been stopped for memory.

use cwr_desk::{Book, Claim, FileOutcome, Reply, Why};
use failing_alloc::FailingAlloc;
use std::alloc::Global;
use std::test::Fail;
use test_comparisons::{same, same_bytes};
use test_files::{Answer, acknowledgement, decision};

/// What must have been decided on a transaction: the submitter's number of its work, and the reply.
pub(crate) type Decided<'a> = (&'a str, Reply);

/// How a job ended: the number of its transactions that were decided, and whether it was stopped for memory.
pub(crate) type End = (usize, bool);

/// A work's number as an acknowledgement has it.
fn told(work: u32) -> &'static str {
    match work {
        1 => "00000001",
        2 => "00000002",
        _ => "00000003",
    }
}

/// The answer for a decision.
fn answer<'a>(sequence: u32, decided: Decided<'a>) -> Answer<'a> {
    let (number, reply) = decided;
    let (work, status) = match reply {
        Reply::Accepted { work, .. } => (told(work), "AS"),
        Reply::Duplicate { work } => (told(work), "DU"),
        Reply::Conflict { work } => (told(work), "CO"),
        Reply::Rejected => ("", "RJ"),
    };
    decision(sequence, "NWR", number, work, status, &[])
}

/// Appends the answers for these decisions.
fn put_answers<'a>(answers: &mut Vec<Answer<'a>>, decided: &[Decided<'a>]) -> Result<(), Fail> {
    let mut sequence: u32 = 0;
    for one in decided {
        answers.push(answer(sequence, *one))?;
        sequence = sequence.saturating_add(1);
    }
    Ok(())
}

/// The acknowledgement of these decisions.
fn text_of(alloc: Global, decided: &[Decided]) -> Result<Vec<u8>, Fail> {
    let mut answers = Vec::new(alloc);
    put_answers(&mut answers, decided)?;
    acknowledgement(alloc, &answers)
}

/// What was written must be the acknowledgement of these decisions.
fn is_acknowledged(alloc: Global, written: &[u8], decided: &[Decided]) -> Result<(), Fail> {
    let wanted = text_of(alloc, decided)?;
    same_bytes("acknowledgement", written, &wanted)
}

/// A job must have been acknowledged with these decisions, or stopped for memory with nothing written.
pub(crate) fn end_of(
    alloc: Global,
    outcome: &FileOutcome,
    written: &[u8],
    decided: &[Decided],
) -> Result<End, Fail> {
    match *outcome {
        FileOutcome::Acked { transactions } => {
            same("transactions", &(transactions as usize), &decided.len())?;
            is_acknowledged(alloc, written, decided)?;
            Ok((decided.len(), false))
        }
        FileOutcome::Stopped {
            handed,
            why: Why::Memory,
        } => {
            same_bytes("a stopped job's bytes", written, b"")?;
            same(
                "handed in, at most all",
                &(handed as usize > decided.len()),
                &false,
            )?;
            Ok((handed as usize, true))
        }
        _ => Err(Fail::new(format_args!("ended with {outcome}"))),
    }
}

/// The submitter's number of a work as the book keeps it.
fn key(number: &str) -> [u8; 14] {
    let mut key = [b' '; 14];
    for (place, byte) in key.iter_mut().zip(number.as_bytes()) {
        *place = *byte;
    }
    key
}

/// The next entry of the book must be of this session, with this decision.
fn is_entry(
    book: &Book<&FailingAlloc>,
    index: usize,
    session: u32,
    decided: Decided,
) -> Result<(), Fail> {
    let entry = book.history().get(index).ok_or("an entry is missing")?;
    let (number, reply) = decided;
    same("session", &entry.session(), &session)?;
    same("reply", &entry.reply(), &reply)?;
    same("submitter", &entry.call().submitter(), b"PB000000123")?;
    same("number", &entry.call().number(), &key(number))
}

/// The book must hold decisions of a session. `book` has the entries, of which those from index `from` on, from 0, are
/// looked at. They must be of `session`, and the first `count` of `decided`. Returns the index after them.
pub(crate) fn holds_of(
    book: &Book<&FailingAlloc>,
    from: usize,
    session: u32,
    decided: &[Decided],
    count: usize,
) -> Result<usize, Fail> {
    let mut index = from;
    for one in decided.iter().take(count) {
        is_entry(book, index, session, *one)?;
        index = index.saturating_add(1);
    }
    Ok(index)
}

/// The book, whose limit is 100, must hold `entries` entries. It must know the first `works` of the works W1, W2 and
/// W3, and no others.
pub(crate) fn knows(book: &Book<&FailingAlloc>, entries: usize, works: usize) -> Result<(), Fail> {
    same("limit", &book.limit(), &100)?;
    same("length", &book.len(), &entries)?;
    same("opening", &book.is_opening(), &(entries == 0))?;
    let mut work: u32 = 0;
    for number in ["W1", "W2", "W3"] {
        work = work.saturating_add(1);
        let claim = (work as usize <= works).then_some(Claim {
            work,
            version: 1,
            control: [10000; 3],
        });
        let control = if claim.is_some() { [10000; 3] } else { [0; 3] };
        same("claim", &book.claim(b"PB000000123", &key(number)), &claim)?;
        same("control", &book.control_of(work), &control)?;
    }
    Ok(())
}
