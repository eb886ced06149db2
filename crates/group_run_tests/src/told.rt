//! What a listener is told of a run.

use cwr_desk::{FileOutcome, RunListener};
use std::cell::Cell;
use std::test::Fail;
use test_comparisons::same;
use test_jobs::GROUP;

/// A listener that compares what it is told with the outcomes that are wanted.
#[derive(Drop)]
pub(crate) struct Told<'a> {
    /// How all jobs of the run must end.
    wanted: &'a [FileOutcome],
    /// The number of groups that it was told of.
    groups: Cell<usize>,
    /// Whether each was the next one, with these outcomes.
    is_right: Cell<bool>,
}

impl<'a> Told<'a> {
    /// A listener that was told nothing.
    pub(crate) fn nothing(wanted: &'a [FileOutcome]) -> Told<'a> {
        Told {
            wanted,
            groups: Cell::new(0),
            is_right: Cell::new(true),
        }
    }

    /// It must have been told of each group once, in order.
    pub(crate) fn expect_all(&self) -> Result<(), Fail> {
        let groups = self.wanted.len().div_ceil(GROUP);
        same(
            "the groups, and whether each was told of as it should",
            &(self.groups.get(), self.is_right.get()),
            &(groups, true),
        )
    }

    /// How the jobs of the next group must end.
    fn next_group(&self) -> &[FileOutcome] {
        let first = self.groups.get().saturating_mul(GROUP);
        let rest = self.wanted.get(first..).unwrap_or(&[]);
        rest.get(..GROUP).unwrap_or(rest)
    }
}

impl RunListener for Told<'_> {
    fn ended(&self, first: usize, outcomes: &[FileOutcome]) {
        let before = self.groups.get();
        let is_next = first == before.saturating_mul(GROUP) && outcomes == self.next_group();
        self.is_right.set(self.is_right.get() && is_next);
        self.groups.set(before.saturating_add(1));
    }
}
