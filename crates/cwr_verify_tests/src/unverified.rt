//! Files that a register does not answer.

use crate::runs::{two_groups, verified, work, work_three};
use cwr_verify::VerifyError;
use std::alloc::Global;
use std::test::Fail;
use test_comparisons::same;
use test_files::{miscounted, rival_claims, three_works};
use work_registry::Book;

/// Where the line of the first transaction ends: HDR has 167 bytes, GRH 28 and ACK 159, each with CR LF.
const FIRST_ANSWER_END: usize = 167 + 28 + 159 + 2 * 3;

/// Where the line of the third one ends, which is line 5.
const THIRD_ANSWER_END: usize = FIRST_ANSWER_END + 2 * (159 + 2);

/// A text with one byte put in another's place, counted from its end.
fn damaged(alloc: Global, text: &[u8], from_end: usize) -> Result<Vec<u8>, Fail> {
    let mut other = text.to_vec(alloc)?;
    if from_end > other.len() {
        return Err(Fail::from("a short text"));
    }
    let at = other.len() - from_end;
    if at < other.len() {
        other[at] = b'9';
    }
    Ok(other)
}

/// What is reported of files that do not fit a register of two rival claims and three works.
fn expect_told(alloc: Global) -> Result<(), Fail> {
    let rivals = rival_claims(alloc)?;
    let works = three_works(alloc)?;
    let files = [rivals[0].as_slice(), rivals[1].as_slice(), &works];
    let mut answers = Vec::new(alloc);
    let book = work_three(alloc, files, &mut answers)?.reopened();
    expect_unfit(alloc, &book, files, &answers)
}

/// The same, with the acknowledgements of these files.
fn expect_unfit<'a>(
    alloc: Global,
    book: &Book,
    files: [&'a [u8]; 3],
    answers: &'a [Vec<u8>],
) -> Result<(), Fail> {
    if answers.len() != 3 {
        return Err(Fail::from("three answers"));
    }
    let trailer = damaged(alloc, &answers[2], 3)?;
    let refused = miscounted(alloc)?;
    let groups = two_groups(alloc)?;
    let files = [
        files[0],
        files[1],
        files[2],
        refused.as_slice(),
        groups.as_slice(),
    ];
    let told = [
        answers[0].as_slice(),
        answers[2].as_slice(),
        trailer.as_slice(),
    ];
    expect_each(alloc, book, files, told)?;
    expect_first(alloc, book, files, told)
}

/// Of two files that do not fit, the first is reported.
fn expect_first<'a>(
    alloc: Global,
    book: &Book,
    files: [&'a [u8]; 5],
    answers: [&'a [u8]; 3],
) -> Result<(), Fail> {
    let [_, _, works, refused, _] = files;
    let [answer, _, trailer] = answers;
    let told = verified(alloc, book, [works, refused], [trailer, answer]).err();
    let why = VerifyError::Acknowledgement { file: 0, line: 7 };
    same("which file", &told, &Some(why))
}

/// The first `size` bytes of a text; none where it is shorter.
fn front(text: &[u8], size: usize) -> &[u8] {
    text.get(..size).unwrap_or(&[])
}

/// The first file fits, and another does not.
fn expect_each<'a>(
    alloc: Global,
    book: &Book,
    files: [&'a [u8]; 5],
    answers: [&'a [u8]; 3],
) -> Result<(), Fail> {
    let [first, second, works, refused, groups] = files;
    let [answer, whole, trailer] = answers;
    let given = [
        (first, answer, missing(1, 0)),
        (second, answer, missing(1, 0)),
        (works, front(whole, FIRST_ANSWER_END), missing(1, 1)),
        (groups, whole, missing(2, 1)),
        (works, front(whole, THIRD_ANSWER_END), other_line(6)),
        (works, trailer, other_line(7)),
        (works, b"", other_line(1)),
        (
            refused,
            answer,
            VerifyError::Refused {
                file: 1,
                number: 9,
                line: 5,
            },
        ),
    ];
    for (text, acknowledgement, why) in given {
        let acknowledgements = [answer, acknowledgement];
        let told = verified(alloc, book, [first, text], acknowledgements).err();
        same("why", &told, &Some(why))?;
    }
    Ok(())
}

/// This line of the second file's acknowledgement is another.
fn other_line(line: usize) -> VerifyError {
    VerifyError::Acknowledgement { file: 1, line }
}

/// The transaction of this group and sequence of the second file has no entry.
fn missing(group: u32, sequence: u32) -> VerifyError {
    VerifyError::Transaction {
        file: 1,
        group,
        sequence,
    }
}

#[test]
fn tells_what_does_not_fit(rt: HostRuntime) -> Result<(), Fail> {
    expect_told(rt.alloc())
}

/// What is reported of a file with a fault, and blanks behind it up to `size` bytes.
fn expect_padded(alloc: Global, size: usize, why: VerifyError) -> Result<(), Fail> {
    let rivals = rival_claims(alloc)?;
    let mut answers = Vec::new(alloc);
    let book = work(alloc, Book::new(alloc, 10), &rivals[0], &mut answers)?.reopened();
    expect_padded_at(alloc, &book, &rivals[0], &answers, size, why)
}

/// The same at the `book` of the `first` file. `alloc` allocates, and `answers` has the acknowledgement of that file.
/// `size` is the number of bytes, and `why` is what is reported.
fn expect_padded_at(
    alloc: Global,
    book: &Book,
    first: &[u8],
    answers: &[Vec<u8>],
    size: usize,
    why: VerifyError,
) -> Result<(), Fail> {
    let Some(answer) = answers.first() else {
        return Err(Fail::from("an answer"));
    };
    let mut refused = miscounted(alloc)?;
    refused.resize(size, b' ')?;
    let told = verified(alloc, book, [first, &refused], [answer, answer]).err();
    same("why", &told, &Some(why))
}

#[test]
fn tells_a_fault_of_a_file_as_long_as_may_be(rt: HostRuntime) -> Result<(), Fail> {
    let why = VerifyError::Refused {
        file: 1,
        number: 9,
        line: 5,
    };
    expect_padded(rt.alloc(), 16_777_216, why)
}

#[test]
fn tells_a_file_that_is_too_long_before_its_fault(rt: HostRuntime) -> Result<(), Fail> {
    expect_padded(rt.alloc(), 16_777_217, VerifyError::TooLong { file: 1 })
}
