//! The submitters of more works than are told.

use crate::books::{TITLE, Transaction, W1, hand_in};
use register_tables::{SubmitterEntries, most_entries};
use std::alloc::Global;
use std::test::Fail;
use test_comparisons::same_lists;
use work_registry::{Book, WorkKind};

/// A submitter that ends with this letter.
fn submitter(letter: u8) -> [u8; 11] {
    [
        b'P', b'B', b'0', b'0', b'0', b'0', b'0', b'0', b'1', b'0', letter,
    ]
}

/// Hands in a work of that submitter.
fn hand_in_of(alloc: Global, book: &mut Book, letter: u8) -> Result<(), Fail> {
    let told: Transaction = (submitter(letter), WorkKind::Nwr, TITLE, W1, None, [0; 3]);
    hand_in(alloc, book, told, &[])
}

/// Ten of eleven submitters, first the one with two entries. The book is empty before.
fn expect_ten(alloc: Global, book: &mut Book) -> Result<(), Fail> {
    for letter in *b"FKABHCDJEGIK" {
        hand_in_of(alloc, book, letter)?;
    }
    let wanted = [
        (b'K', 2),
        (b'A', 1),
        (b'B', 1),
        (b'C', 1),
        (b'D', 1),
        (b'E', 1),
        (b'F', 1),
        (b'G', 1),
        (b'H', 1),
        (b'I', 1),
    ];
    let wanted = wanted.map(|(letter, entries)| SubmitterEntries {
        submitter: submitter(letter),
        entries,
    });
    let found = most_entries(alloc, book)?;
    same_lists("the submitters", &found, &wanted)
}

/// Eleven submitters have an entry, and the last one two. Those with one stand by their bytes, and the eleventh is not
/// told.
#[test]
fn tells_ten_submitters(rt: HostRuntime) -> Result<(), Fail> {
    let alloc = rt.alloc();
    expect_ten(alloc, &mut Book::new(alloc, 100))
}
