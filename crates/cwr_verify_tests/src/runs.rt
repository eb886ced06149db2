//! Runs whose files and acknowledgements are known.

use byte_streams::{Feed, Room};
use cwr_engine::{Job, work_alone};
use cwr_record::Stamp;
use cwr_verify::{NoAnswer, SentFile, VerifyError, answer, verify};
use std::alloc::Global;
use std::test::Fail;
use test_comparisons::{same, same_bytes};
use test_files::{ALL, file_of_lines, stamp, work as work_head, writer};
use work_registry::Book;

/// Works a file at a book, and appends its acknowledgement.
pub(crate) fn work(
    alloc: Global,
    book: Book,
    file: &[u8],
    answers: &mut Vec<Vec<u8>>,
) -> Result<Book, Fail> {
    work_by(alloc, book, file, &stamp()?, answers)
}

/// The same, acknowledged with this stamp.
fn work_by(
    alloc: Global,
    book: Book,
    file: &[u8],
    stamp: &Stamp,
    answers: &mut Vec<Vec<u8>>,
) -> Result<Book, Fail> {
    let job = Job {
        reader: Feed::new(file, 1000, None),
        writer: Room::new(alloc, 10000, true)?,
    };
    let (book, job, _outcome) = work_alone(alloc, book, 1, job, stamp);
    keep_answer(alloc, job.writer.bytes(), answers)?;
    Ok(book)
}

/// Appends an acknowledgement to those before.
fn keep_answer(alloc: Global, written: &[u8], answers: &mut Vec<Vec<u8>>) -> Result<(), Fail> {
    answers.push(written.to_vec(alloc)?)?;
    Ok(())
}

/// Works two rival claims and three works after them at an empty book, and appends their acknowledgements. That of the
/// three works is another society's, 720.
pub(crate) fn work_three(
    alloc: Global,
    files: [&[u8]; 3],
    answers: &mut Vec<Vec<u8>>,
) -> Result<Book, Fail> {
    let [first, second, works] = files;
    let book = work(alloc, Book::new(alloc, 10), first, answers)?;
    let book = work(alloc, book, second, answers)?;
    let stamp = stamp()?;
    let Some(other) = Stamp::new(720, &stamp.name(), stamp.date(), stamp.time()) else {
        return Err(Fail::from("a stamp"));
    };
    work_by(alloc, book, works, &other, answers)
}

/// The result of verifying two files at a book, each with its acknowledgement.
pub(crate) fn verified(
    alloc: Global,
    book: &Book,
    texts: [&[u8]; 2],
    acknowledgements: [&[u8]; 2],
) -> Result<Vec<usize>, VerifyError> {
    let files = [
        SentFile {
            text: texts[0],
            acknowledgement: acknowledgements[0],
        },
        SentFile {
            text: texts[1],
            acknowledgement: acknowledgements[1],
        },
    ];
    verify(alloc, book, &files)
}

/// Makes the acknowledgement of a file again, and returns how that ended and what was written. `alloc` allocates, and
/// `book` has the entries. `file` is the file that was sent, and `entry` that of its first transaction, from 1, if it
/// is named. The writer takes `size` bytes.
pub(crate) fn answered_again(
    alloc: Global,
    book: &Book,
    file: &[u8],
    entry: Option<u32>,
    size: usize,
) -> Result<(Result<(), NoAnswer>, Vec<u8>), Fail> {
    let mut writer = Room::new(alloc, size, true)?;
    let told = answer(alloc, book, file, &stamp()?, entry, &mut writer);
    Ok((told, writer.bytes().to_vec(alloc)?))
}

/// The acknowledgement of a file, made again, is this one. `alloc` allocates, and `book` has the entries. `file` is the
/// file that was sent, and `entry` that of its first transaction, from 1, if it is named. `wanted` is the
/// acknowledgement.
pub(crate) fn expect_again(
    alloc: Global,
    book: &Book,
    file: &[u8],
    entry: Option<u32>,
    wanted: &[u8],
) -> Result<(), Fail> {
    let (told, written) = answered_again(alloc, book, file, entry, 10000)?;
    same("how it ended", &told, &Ok(()))?;
    same_bytes("the acknowledgement", &written, wanted)
}

/// The acknowledgement of a file is not made again, and nothing is written. `alloc` allocates, and `book` has the
/// entries. `file` is the file that was sent, and `entry` that of its first transaction, from 1, if it is named. `why`
/// is the reason.
pub(crate) fn expect_none(
    alloc: Global,
    book: &Book,
    file: &[u8],
    entry: Option<u32>,
    why: NoAnswer,
) -> Result<(), Fail> {
    let (told, written) = answered_again(alloc, book, file, entry, 10000)?;
    same("how it ended", &told, &Err(why))?;
    same_bytes("what was written", &written, b"")
}

/// A file of two groups: W1 alone, and then W2 and W4.
pub(crate) fn two_groups(alloc: Global) -> Result<Vec<u8>, Fail> {
    let works = [
        work_head(alloc, "NWR", 0, "W1", "")?,
        work_head(alloc, "NWR", 0, "W2", "")?,
        work_head(alloc, "NWR", 1, "W4", "")?,
    ];
    let writers = [
        writer(alloc, "SWR", 0, 1, ALL)?,
        writer(alloc, "SWR", 1, 1, ALL)?,
    ];
    file_of_lines(
        alloc,
        &[
            "GRHNWR0000102.200000000001",
            &works[0],
            &writers[0],
            "GRT000010000000100000004",
            "GRHNWR0000202.200000000001",
            &works[1],
            &writers[0],
            &works[2],
            &writers[1],
            "GRT000020000000200000006",
            "TRL000020000000300000012",
        ],
    )
}
