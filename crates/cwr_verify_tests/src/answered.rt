//! Files that a register answers.

use crate::runs::{verified, work, work_three};
use std::alloc::Global;
use std::test::Fail;
use test_comparisons::same_lists;
use test_files::{rival_claims, three_works};
use work_registry::Book;

/// Two rival claims are taken, three works after them, and the first claim once more.
fn expect_owners(alloc: Global) -> Result<(), Fail> {
    let rivals = rival_claims(alloc)?;
    let works = three_works(alloc)?;
    expect_owners_of(alloc, [rivals[0].as_slice(), rivals[1].as_slice(), &works])
}

/// The same of these files.
fn expect_owners_of(alloc: Global, files: [&[u8]; 3]) -> Result<(), Fail> {
    let mut answers = Vec::new(alloc);
    let book = worked(alloc, files, &mut answers)?;
    expect_each(alloc, &book, files, &answers)
}

/// The book after these four, with their acknowledgements.
fn worked(alloc: Global, files: [&[u8]; 3], answers: &mut Vec<Vec<u8>>) -> Result<Book, Fail> {
    let book = work_three(alloc, files, answers)?;
    let book = work(alloc, book, files[0], answers)?;
    Ok(book.reopened())
}

/// Two of the files at a time, with two of the acknowledgements.
fn expect_each(
    alloc: Global,
    book: &Book,
    files: [&[u8]; 3],
    answers: &[Vec<u8>],
) -> Result<(), Fail> {
    if answers.len() != 4 {
        return Err(Fail::from("four answers"));
    }
    let given = [
        (0, 0, 1, 1, [0, 1, 2, 2, 2, 2]),
        (1, 1, 0, 0, [1, 0, 2, 2, 2, 2]),
        (0, 3, 2, 2, [2, 2, 1, 1, 1, 0]),
        (0, 3, 0, 0, [1, 2, 2, 2, 2, 0]),
    ];
    for (one, one_answer, other, other_answer, owners) in given {
        let texts = [files[one], files[other]];
        let acknowledgements = [
            answers[one_answer].as_slice(),
            answers[other_answer].as_slice(),
        ];
        expect_verified(alloc, book, texts, acknowledgements, &owners)?;
    }
    Ok(())
}

/// Two files that are verified at a book. `alloc` allocates, and `book` has the entries. `texts` are the files, and
/// `acknowledgements` their acknowledgements. `owners` says for each entry which of the files it must answer, from 0.
fn expect_verified(
    alloc: Global,
    book: &Book,
    texts: [&[u8]; 2],
    acknowledgements: [&[u8]; 2],
    owners: &[usize],
) -> Result<(), Fail> {
    let Ok(found) = verified(alloc, book, texts, acknowledgements) else {
        return Err(Fail::from("the files are not verified"));
    };
    same_lists("the owners", &found, owners)
}

#[test]
fn tells_which_file_each_entry_answers(rt: HostRuntime) -> Result<(), Fail> {
    expect_owners(rt.alloc())
}
