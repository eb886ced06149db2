//! The kinds of reply that a run gave, so that no test passes by making nothing.

use cwr_desk::{Book, FileOutcome, Reply, read_register};
use std::alloc::Global;
use std::test::Fail;
use test_comparisons::same;
use test_jobs::Chain;

/// Which kinds came.
#[derive(Clone, Copy, Debug, Default, PartialEq, Eq)]
struct Kinds {
    new: bool,
    revised: bool,
    duplicate: bool,
    conflict: bool,
}

impl Kinds {
    /// Each of them.
    const ALL: Kinds = Kinds {
        new: true,
        revised: true,
        duplicate: true,
        conflict: true,
    };

    /// Those in a book.
    fn of(book: &Book) -> Kinds {
        let mut kinds = Kinds::default();
        for entry in book.history() {
            match entry.reply() {
                Reply::Accepted { version: 1, .. } => kinds.new = true,
                Reply::Accepted { .. } => kinds.revised = true,
                Reply::Duplicate { .. } => kinds.duplicate = true,
                Reply::Conflict { .. } => kinds.conflict = true,
                Reply::Rejected => {}
            }
        }
        kinds
    }
}

/// New works, revisions, duplicates and conflicts must have come in a register.
fn expect_replies(alloc: Global, register: &[u8]) -> Result<(), Fail> {
    let book = read_register(alloc, register, 10000)?;
    same("the kinds of reply", &Kinds::of(&book), &Kinds::ALL)
}

/// What a chain of runs left must have replies of each kind, and so many refused files.
pub(crate) fn expect_kinds(alloc: Global, chain: &Chain, refused: usize) -> Result<(), Fail> {
    let mut found: usize = 0;
    for outcome in &chain.outcomes {
        if let FileOutcome::Refused { .. } = outcome {
            found = found.saturating_add(1);
        }
    }
    same("refused files", &found, &refused)?;
    expect_replies(alloc, &chain.register)
}
