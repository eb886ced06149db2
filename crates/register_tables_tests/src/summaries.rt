//! Summaries of the example of the profile's decisions, of works in each band, and of more works with conflicts than
//! are printed.

use crate::books::{
    ONE, OTHER, TITLE, Transaction, W1, W7, decisions, expect_summary, hand_in, hand_in_all,
};
use std::alloc::Global;
use std::test::Fail;
use work_registry::{Book, WorkKind};

/// Four transactions of the seven were accepted, of two submitters, whose current claims leave nothing of the work.
#[test]
fn sums_up_decisions(rt: HostRuntime) -> Result<(), Fail> {
    let alloc = rt.alloc();
    let book = decisions(alloc)?;
    expect_summary(
        alloc,
        &book,
        b"entries: 7\naccepted (AS): 4\nduplicates (DU): 0\nconflicts (CO): 2\nrejected (RJ): 1\n\
works: 1\ncurrent claims: 2\nsubmitters: 2\n\
works by what is left of the performing right:\n  none: 1\n  up to a quarter: 0\n  up to a half: 0\n  more than a half: 0\n  all: 0\n\
works by what is left of the mechanical right:\n  none: 1\n  up to a quarter: 0\n  up to a half: 0\n  more than a half: 0\n  all: 0\n\
works by what is left of the synchronization right:\n  none: 1\n  up to a quarter: 0\n  up to a half: 0\n  more than a half: 0\n  all: 0\n\
largest conflicts:\n  work 1: 2\n",
    )
}

/// The summary of three transactions on two works, in an empty book.
fn expect_left(alloc: Global, book: &mut Book) -> Result<(), Fail> {
    let transactions: [Transaction; 3] = [
        (ONE, WorkKind::Nwr, TITLE, W1, None, [10000, 7500, 5000]),
        (ONE, WorkKind::Nwr, TITLE, W7, None, [4999, 0, 7499]),
        (ONE, WorkKind::Nwr, TITLE, W1, None, [10000, 7500, 5000]),
    ];
    hand_in_all(alloc, book, &transactions)?;
    expect_summary(
        alloc,
        book,
        b"entries: 3\naccepted (AS): 2\nduplicates (DU): 1\nconflicts (CO): 0\nrejected (RJ): 0\n\
works: 2\ncurrent claims: 2\nsubmitters: 1\n\
works by what is left of the performing right:\n  none: 1\n  up to a quarter: 0\n  up to a half: 0\n  more than a half: 1\n  all: 0\n\
works by what is left of the mechanical right:\n  none: 0\n  up to a quarter: 1\n  up to a half: 0\n  more than a half: 0\n  all: 1\n\
works by what is left of the synchronization right:\n  none: 0\n  up to a quarter: 0\n  up to a half: 2\n  more than a half: 0\n  all: 0\n\
largest conflicts:\n",
    )
}

/// Of the rights nothing and 50.01 per cent are left, 25 per cent and all, and 50 and 25.01 per cent.
#[test]
fn tells_what_is_left(rt: HostRuntime) -> Result<(), Fail> {
    let alloc = rt.alloc();
    expect_left(alloc, &mut Book::new(alloc, 100))
}

/// The summary of eleven works in an empty book, of which each has a conflict, and the last one two.
fn expect_conflicts(alloc: Global, book: &mut Book) -> Result<(), Fail> {
    for work in 1..12 {
        let number = [64 + work as u8; 14];
        let iswc = Some(work);
        let told = (ONE, WorkKind::Nwr, TITLE, number, iswc, [10000; 3]);
        hand_in(alloc, book, told, &[])?;
        let told = (OTHER, WorkKind::Nwr, TITLE, number, iswc, [7; 3]);
        hand_in(alloc, book, told, &[])?;
    }
    let told = (OTHER, WorkKind::Nwr, TITLE, W1, Some(11), [7; 3]);
    hand_in(alloc, book, told, &[])?;
    expect_summary(
        alloc,
        book,
        b"entries: 23\naccepted (AS): 11\nduplicates (DU): 0\nconflicts (CO): 12\nrejected (RJ): 0\n\
works: 11\ncurrent claims: 11\nsubmitters: 2\n\
works by what is left of the performing right:\n  none: 11\n  up to a quarter: 0\n  up to a half: 0\n  more than a half: 0\n  all: 0\n\
works by what is left of the mechanical right:\n  none: 11\n  up to a quarter: 0\n  up to a half: 0\n  more than a half: 0\n  all: 0\n\
works by what is left of the synchronization right:\n  none: 11\n  up to a quarter: 0\n  up to a half: 0\n  more than a half: 0\n  all: 0\n\
largest conflicts:\n  work 11: 2\n  work 1: 1\n  work 2: 1\n  work 3: 1\n  work 4: 1\n  work 5: 1\n  work 6: 1\n  work 7: 1\n  work 8: 1\n  work 9: 1\n",
    )
}

/// Eleven works have a conflict, and the last one two. Those with one stand by number, and the eleventh is not printed.
#[test]
fn tells_ten_conflicts(rt: HostRuntime) -> Result<(), Fail> {
    let alloc = rt.alloc();
    expect_conflicts(alloc, &mut Book::new(alloc, 100))
}
