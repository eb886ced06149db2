//! Runs of various numbers of jobs.

use crate::files::{files, first};
use crate::kinds::expect_kinds;
use crate::same_runs::expect_as_chained;
use std::test::Fail;
use test_files::{SENDER, many_works};
use test_jobs::with_room;

#[test]
fn numbers_of_jobs_about_those_of_whole_groups(rt: HostRuntime) -> Result<(), Fail> {
    let alloc = rt.alloc();
    let files = files(alloc, 127)?;
    for count in [0, 1, 62, 63, 64, 126, 127] {
        let inputs = first(alloc, &files, count)?;
        let _ = expect_as_chained(&rt, alloc, 1000, &inputs)?;
    }
    Ok(())
}

/// Of each sixteen files two are refused: 1,000 files are 62 times sixteen and eight more.
#[test]
fn a_thousand_jobs(rt: HostRuntime) -> Result<(), Fail> {
    let alloc = rt.alloc();
    let files = files(alloc, 1000)?;
    let inputs = first(alloc, &files, 1000)?;
    let chain = expect_as_chained(&rt, alloc, 10_000, &inputs)?;
    expect_kinds(alloc, &chain, 126)
}

/// The files of the first group have more than 100 works each, so those of the next one are read on threads too.
#[test]
fn a_group_behind_long_files(rt: HostRuntime) -> Result<(), Fail> {
    let alloc = rt.alloc();
    let file = many_works(alloc, SENDER, 101)?;
    let mut inputs = Vec::new(alloc);
    for _ in 0..70 {
        inputs.push(with_room(&file, 40_000))?;
    }
    let _ = expect_as_chained(&rt, alloc, 10_000, &inputs)?;
    Ok(())
}
