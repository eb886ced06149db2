//! The files of runs of many jobs.

use std::alloc::Global;
use std::test::Fail;
use test_files::{ALL, OTHER_SENDER, SENDER, file, miscounted, rival_claims, work, writer};
use test_jobs::{GROUP, Input, with_room};

/// Room for each acknowledgement.
const AMPLE: usize = 1000;

/// A file of one work, new or revised, whose number follows from this place.
fn work_of(alloc: Global, kind: &str, place: usize) -> Result<Vec<u8>, Fail> {
    let number = format!(in alloc; "N{place}")?;
    let lines = [
        work(alloc, kind, 0, &number, "")?,
        writer(alloc, "SWR", 0, 1, ALL)?,
    ];
    file(alloc, SENDER, kind, 1, &lines)
}

/// The claim to a work that the first group has, or that of another submitter, which is a conflict.
fn claim(alloc: Global, place: usize) -> Result<Vec<u8>, Fail> {
    let [first, rival] = rival_claims(alloc)?;
    if place < GROUP { Ok(first) } else { Ok(rival) }
}

/// The file in a place: mostly a new work. Of each sixteen files, one is empty, one refused for its count, one a new
/// version of a work of the group before, one a work of the group before that one once more, and one a claim.
fn file_at(alloc: Global, place: usize) -> Result<Vec<u8>, Fail> {
    match place % 16 {
        3 => Ok(Vec::new(alloc)),
        6 => miscounted(alloc),
        9 => work_of(alloc, "NWR", place.saturating_sub(2 * GROUP)),
        12 => work_of(alloc, "REV", place.saturating_sub(GROUP)),
        14 => claim(alloc, place),
        _ => work_of(alloc, "NWR", place),
    }
}

/// So many files.
pub(crate) fn files(alloc: Global, count: usize) -> Result<Vec<Vec<u8>>, Fail> {
    let mut files = Vec::new(alloc);
    for place in 0..count {
        files.push(file_at(alloc, place)?)?;
    }
    Ok(files)
}

/// The first `count` of these files, with room for their acknowledgements.
pub(crate) fn first<'a>(
    alloc: Global,
    files: &'a [Vec<u8>],
    count: usize,
) -> Result<Vec<Input<'a>>, Fail> {
    let mut inputs = Vec::new(alloc);
    for file in files.iter().take(count) {
        inputs.push(with_room(file, AMPLE))?;
    }
    Ok(inputs)
}
