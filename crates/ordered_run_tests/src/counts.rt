//! The number of times that each kind of end, of reply and of set came, so that no test passes by making nothing.

use cwr_desk::{FileOutcome, Reply, Why};
use std::test::Fail;
use test_comparisons::same;

/// The number of times that each kind must have come, at least.
const OFTEN: u32 = 40;

/// Something must have come often.
fn expect_often(what: &str, count: u32) -> Result<(), Fail> {
    same(what, &(count, count >= OFTEN), &(count, true))
}

/// The number of jobs that ended in each way.
#[derive(Default, Drop)]
pub(crate) struct Ends {
    acknowledged: u32,
    refused: u32,
    unread: u32,
    unwritten: u32,
    full: u32,
}

impl Ends {
    /// Counts how a job ended.
    pub(crate) fn count(&mut self, outcome: &FileOutcome) {
        match outcome {
            FileOutcome::Acked { .. } => one_more(&mut self.acknowledged),
            FileOutcome::Refused { .. } => one_more(&mut self.refused),
            FileOutcome::Stopped { why, .. } => self.count_stop(why),
        }
    }

    /// Counts a job that was stopped.
    fn count_stop(&mut self, why: &Why) {
        match why {
            Why::Read => one_more(&mut self.unread),
            Why::Write { .. } => one_more(&mut self.unwritten),
            Why::Full => one_more(&mut self.full),
            Why::Memory | Why::TooLong | Why::Gate => {}
        }
    }

    /// Each way must have come often.
    pub(crate) fn expect_all(&self) -> Result<(), Fail> {
        expect_often("files acknowledged", self.acknowledged)?;
        expect_often("files refused", self.refused)?;
        expect_often("files stopped for a read", self.unread)?;
        expect_often("files stopped for a write", self.unwritten)?;
        expect_often("files stopped for a full book", self.full)
    }
}

/// The number of times that each reply came.
#[derive(Default, Drop)]
pub(crate) struct Replies {
    new: u32,
    revised: u32,
    duplicate: u32,
    conflict: u32,
    rejected: u32,
}

impl Replies {
    /// Counts a reply.
    pub(crate) fn count(&mut self, reply: Reply) {
        match reply {
            Reply::Accepted { version: 1, .. } => one_more(&mut self.new),
            Reply::Accepted { .. } => one_more(&mut self.revised),
            Reply::Duplicate { .. } => one_more(&mut self.duplicate),
            Reply::Conflict { .. } => one_more(&mut self.conflict),
            Reply::Rejected => one_more(&mut self.rejected),
        }
    }

    /// Each reply must have come often.
    pub(crate) fn expect_all(&self) -> Result<(), Fail> {
        expect_often("new works", self.new)?;
        expect_often("new versions", self.revised)?;
        expect_often("duplicates", self.duplicate)?;
        expect_often("conflicts", self.conflict)?;
        expect_often("rejections", self.rejected)
    }
}

/// The number of sets of each size, and of those that went on from a register.
#[derive(Default, Drop)]
pub(crate) struct Sizes {
    empty: u32,
    one_group: u32,
    several_groups: u32,
    all: u32,
    continued: u32,
}

impl Sizes {
    /// Counts a set of `files` files, and whether there were entries before it.
    pub(crate) fn count(&mut self, files: usize, is_continued: bool) {
        match files {
            0 => one_more(&mut self.empty),
            1..=8 => one_more(&mut self.one_group),
            63 => one_more(&mut self.all),
            _ => one_more(&mut self.several_groups),
        }
        if is_continued {
            one_more(&mut self.continued);
        }
    }

    /// Each size must have come, and going on from a register often.
    pub(crate) fn expect_all(&self) -> Result<(), Fail> {
        expect_some("sets of no file", self.empty)?;
        expect_often("sets of one group", self.one_group)?;
        expect_often("sets of several groups", self.several_groups)?;
        expect_some("sets of 63 files", self.all)?;
        expect_often("sets that went on from a register", self.continued)
    }
}

/// Something must have come.
fn expect_some(what: &str, count: u32) -> Result<(), Fail> {
    same(what, &(count > 0), &true)
}

fn one_more(count: &mut u32) {
    *count = count.saturating_add(1);
}
