//! Acknowledgements that are made again.

use crate::runs::{answered_again, expect_again, expect_none, two_groups, work};
use cwr_verify::NoAnswer;
use std::alloc::Global;
use std::test::Fail;
use test_comparisons::{same, same_bytes};
use test_files::{
    ALL, SENDER, acknowledgement, decision, file, file_of_lines, miscounted, plain_file,
    rival_claims, three_works, work as work_head, writer,
};
use work_registry::Book;

/// The file of one of the three works alone.
fn one_of_three(alloc: Global, number: &str) -> Result<Vec<u8>, Fail> {
    let lines = [
        work_head(alloc, "NWR", 0, number, "")?,
        writer(alloc, "SWR", 0, 1, ALL)?,
    ];
    file(alloc, SENDER, "NWR", 1, &lines)
}

/// The transaction of this sequence has no entry.
fn missing(sequence: u32) -> NoAnswer {
    NoAnswer::Transaction { group: 1, sequence }
}

/// A file of three works that was sent on two nights, another file before, between and after them: entries 2 to 4 and 6
/// to 8. The acknowledgement is that of the second night, or of the night whose first entry is named.
fn expect_two_nights(alloc: Global) -> Result<(), Fail> {
    let works = three_works(alloc)?;
    let rivals = rival_claims(alloc)?;
    expect_nights_of(alloc, &works, &rivals[1])
}

/// The same of these two files.
fn expect_nights_of(alloc: Global, works: &[u8], other: &[u8]) -> Result<(), Fail> {
    let mut answers = Vec::new(alloc);
    let book = Book::new(alloc, 20);
    let book = work(alloc, book, other, &mut answers)?;
    let book = work(alloc, book, works, &mut answers)?;
    let book = work(alloc, book, other, &mut answers)?;
    let book = work(alloc, book, works, &mut answers)?;
    let book = work(alloc, book, other, &mut answers)?.reopened();
    expect_nights(alloc, &book, works, &answers)
}

/// The same at their book, with their acknowledgements.
fn expect_nights(
    alloc: Global,
    book: &Book,
    works: &[u8],
    answers: &[Vec<u8>],
) -> Result<(), Fail> {
    if answers.len() != 5 {
        return Err(Fail::from("five answers"));
    }
    same("two texts", &(answers[1] == answers[3]), &false)?;
    for (entry, night) in [(None, 3), (Some(2), 1), (Some(6), 3)] {
        expect_again(alloc, book, works, entry, &answers[night])?;
    }
    for entry in [0, 1, 3, 5, 9, 10, 99_999_999] {
        expect_none(alloc, book, works, Some(entry), NoAnswer::OtherEntry)?;
    }
    Ok(())
}

/// Entries that lie between those of another file: W1, a rival's work, W2, W1 again, W3.
fn expect_between(alloc: Global) -> Result<(), Fail> {
    let rivals = rival_claims(alloc)?;
    let book = between(alloc, &rivals[1])?;
    expect_three_between(alloc, &book)
}

/// What the three works get from the book of these entries.
fn expect_three_between(alloc: Global, book: &Book) -> Result<(), Fail> {
    let works = three_works(alloc)?;
    let wanted = acknowledgement(
        alloc,
        &[
            decision(0, "NWR", "W1", "00000001", "AS", &[]),
            decision(1, "NWR", "W2", "00000003", "AS", &[]),
            decision(2, "NWR", "W3", "00000004", "AS", &[]),
        ],
    )?;
    expect_again(alloc, book, &works, None, &wanted)?;
    expect_again(alloc, book, &works, Some(1), &wanted)?;
    expect_none(alloc, book, &works, Some(4), missing(1))
}

/// The book of these entries.
fn between(alloc: Global, other: &[u8]) -> Result<Book, Fail> {
    let book = work_one(alloc, Book::new(alloc, 20), "W1")?;
    let book = work(alloc, book, other, &mut Vec::new(alloc))?;
    let book = work_one(alloc, book, "W2")?;
    let book = work_one(alloc, book, "W1")?;
    Ok(work_one(alloc, book, "W3")?.reopened())
}

/// The book after one of the three works alone.
fn work_one(alloc: Global, book: Book, number: &str) -> Result<Book, Fail> {
    let one = one_of_three(alloc, number)?;
    work(alloc, book, &one, &mut Vec::new(alloc))
}

/// A complete night, and one of which the last entry is missing: the complete one is acknowledged, from its last place
/// on.
fn expect_cut_night(alloc: Global) -> Result<(), Fail> {
    let works = three_works(alloc)?;
    let mut answers = Vec::new(alloc);
    let book = cut_night(alloc, &works, &mut answers)?;
    expect_whole_night(alloc, &book, &works, &answers)
}

/// The book of these nights, of which `answers` gets the acknowledgement of the complete one.
fn cut_night(alloc: Global, works: &[u8], answers: &mut Vec<Vec<u8>>) -> Result<Book, Fail> {
    let book = work_one(alloc, Book::new(alloc, 20), "W1")?;
    let book = work(alloc, book, works, answers)?;
    let book = work_one(alloc, book, "W1")?;
    Ok(work_one(alloc, book, "W2")?.reopened())
}

/// What the three works get from it.
fn expect_whole_night(
    alloc: Global,
    book: &Book,
    works: &[u8],
    answers: &[Vec<u8>],
) -> Result<(), Fail> {
    let Some(whole) = answers.first() else {
        return Err(Fail::from("an answer"));
    };
    expect_again(alloc, book, works, None, whole)?;
    expect_none(alloc, book, works, Some(5), missing(2))
}

#[test]
fn tells_the_last_run_or_the_one_that_is_named(rt: HostRuntime) -> Result<(), Fail> {
    expect_two_nights(rt.alloc())
}

#[test]
fn finds_entries_between_others(rt: HostRuntime) -> Result<(), Fail> {
    expect_between(rt.alloc())
}

#[test]
fn takes_no_run_that_is_not_whole(rt: HostRuntime) -> Result<(), Fail> {
    expect_cut_night(rt.alloc())
}

/// Why three works are not acknowledged again at the book of some of them, each worked alone: the transaction of this
/// sequence has no entry.
fn expect_missing(alloc: Global, numbers: &[&str], sequence: u32) -> Result<(), Fail> {
    let works = three_works(alloc)?;
    expect_missing_of(alloc, numbers, &works, missing(sequence))
}

/// Why a file is not acknowledged again at the book of some works, each worked alone.
fn expect_missing_of(
    alloc: Global,
    numbers: &[&str],
    file: &[u8],
    why: NoAnswer,
) -> Result<(), Fail> {
    let mut book = Book::new(alloc, 20);
    for number in numbers {
        book = work_one(alloc, book, number)?;
    }
    expect_none(alloc, &book.reopened(), file, None, why)
}

#[test]
fn tells_the_first_transaction_without_an_entry(rt: HostRuntime) -> Result<(), Fail> {
    let alloc = rt.alloc();
    expect_missing(alloc, &[], 0)?;
    expect_missing(alloc, &["W2", "W3"], 0)?;
    expect_missing(alloc, &["W1", "W3"], 1)?;
    expect_missing(alloc, &["W3", "W2", "W1"], 1)?;
    let why = NoAnswer::Transaction {
        group: 2,
        sequence: 1,
    };
    expect_missing_of(alloc, &["W1", "W2"], &two_groups(alloc)?, why)
}

/// A file without transactions is acknowledged from any book, and no entry is of its first one.
fn expect_empty(alloc: Global) -> Result<(), Fail> {
    let empty = file_of_lines(alloc, &["TRL000000000000000000002"])?;
    let wanted = acknowledgement(alloc, &[])?;
    expect_empty_at(alloc, &Book::new(alloc, 10), &empty, &wanted)?;
    let book = work_one(alloc, Book::new(alloc, 10), "W1")?;
    expect_empty_at(alloc, &book, &empty, &wanted)
}

/// The same at a book.
fn expect_empty_at(alloc: Global, book: &Book, empty: &[u8], wanted: &[u8]) -> Result<(), Fail> {
    expect_again(alloc, book, empty, None, wanted)?;
    expect_none(alloc, book, empty, Some(1), NoAnswer::OtherEntry)
}

#[test]
fn acknowledges_no_transactions(rt: HostRuntime) -> Result<(), Fail> {
    expect_empty(rt.alloc())
}

/// Why a file with a fault is not acknowledged again, with blanks behind it up to `size` bytes, whichever entry is
/// named.
fn expect_refused(alloc: Global, size: usize, why: NoAnswer) -> Result<(), Fail> {
    let mut refused = miscounted(alloc)?;
    if refused.len() < size {
        refused.resize(size, b' ')?;
    }
    for entry in [None, Some(1)] {
        expect_none(alloc, &Book::new(alloc, 10), &refused, entry, why)?;
    }
    Ok(())
}

#[test]
fn tells_the_fault_of_a_file(rt: HostRuntime) -> Result<(), Fail> {
    let why = NoAnswer::Refused { number: 9, line: 5 };
    expect_refused(rt.alloc(), 0, why)?;
    expect_refused(rt.alloc(), 16_777_216, why)
}

#[test]
fn tells_a_file_that_is_too_long(rt: HostRuntime) -> Result<(), Fail> {
    expect_refused(rt.alloc(), 16_777_217, NoAnswer::TooLong)
}

/// A writer that takes a number of bytes has the first bytes of an acknowledgement.
fn expect_cut(alloc: Global) -> Result<(), Fail> {
    let file = plain_file(alloc)?;
    let mut answers = Vec::new(alloc);
    let book = work(alloc, Book::new(alloc, 10), &file, &mut answers)?;
    expect_each_cut(alloc, &book, &file, &answers)
}

/// The same of each of some numbers.
fn expect_each_cut(
    alloc: Global,
    book: &Book,
    file: &[u8],
    answers: &[Vec<u8>],
) -> Result<(), Fail> {
    let Some(whole) = answers.first() else {
        return Err(Fail::from("an answer"));
    };
    for size in [0, 1, 168, 169, whole.len().saturating_sub(1)] {
        expect_front(alloc, book, file, whole, size)?;
    }
    let (told, written) = answered_again(alloc, book, file, None, whole.len())?;
    same("with room", &told, &Ok(()))?;
    same_bytes("with room", &written, whole)
}

/// A writer that takes `size` bytes, fewer than `whole` has, gets the first of them. `alloc` allocates, `book` has the
/// entries, and `whole` is the acknowledgement of `file`.
fn expect_front(
    alloc: Global,
    book: &Book,
    file: &[u8],
    whole: &[u8],
    size: usize,
) -> Result<(), Fail> {
    let (told, written) = answered_again(alloc, book, file, None, size)?;
    same("why", &told, &Err(NoAnswer::Write { sent: size as u64 }))?;
    same("within", &(size < whole.len()), &true)?;
    if size < whole.len() {
        same_bytes("what was written", &written, &whole[..size])?;
    }
    Ok(())
}

#[test]
fn tells_a_write_that_failed(rt: HostRuntime) -> Result<(), Fail> {
    expect_cut(rt.alloc())
}
