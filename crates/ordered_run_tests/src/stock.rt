//! The files that sets are made of.

use std::alloc::Global;
use std::test::Fail;
use test_files::{
    OTHER_SENDER, SENDER, many_works, miscounted, one_work, plain_file, three_works, work_twice,
};

/// The work that two submitters claim.
const ISWC: &str = "T0345246801";

/// The ISWC of another work: a new version of a claim to the first one with it is a conflict.
const OTHER_ISWC: &str = "T0000000010";

/// One with a wrong check digit, for which a work is rejected.
const WRONG_ISWC: &str = "T0000000019";

/// Half of each right for the submitter's writer.
const HALF: [&str; 2] = ["05000", "05000"];

/// More than half: two such claims to one work are a conflict.
const MORE: [&str; 2] = ["06000", "04000"];

/// Puts a file, if it could be made, behind other files.
pub(crate) fn put(files: &mut Vec<Vec<u8>>, file: Result<Vec<u8>, Fail>) -> Result<(), Fail> {
    files.push(file?)?;
    Ok(())
}

/// Puts works of one submitter behind other files: each is new once and then a duplicate, or a new version if it is
/// revised.
fn push_works(files: &mut Vec<Vec<u8>>, alloc: Global) -> Result<(), Fail> {
    for number in ["W1", "W2", "W3", "W4", "W5", "W6"] {
        put(files, one_work(alloc, SENDER, "NWR", number, "", HALF))?;
    }
    for number in ["W1", "W2", "W6"] {
        put(files, one_work(alloc, SENDER, "REV", number, "", HALF))?;
    }
    Ok(())
}

/// Puts a submitter's claims to the work of the ISWC behind other files, new ones and revised ones, and a revised one
/// that has another ISWC.
fn push_claims(files: &mut Vec<Vec<u8>>, alloc: Global, sender: &str) -> Result<(), Fail> {
    for shares in [HALF, MORE] {
        put(files, one_work(alloc, sender, "NWR", "W7", ISWC, shares))?;
        put(files, one_work(alloc, sender, "REV", "W7", ISWC, shares))?;
    }
    put(
        files,
        one_work(alloc, sender, "REV", "W7", OTHER_ISWC, HALF),
    )
}

/// Puts files of several works behind other files: three new ones, one twice, and twelve, of which one is rejected.
fn push_several(files: &mut Vec<Vec<u8>>, alloc: Global) -> Result<(), Fail> {
    put(files, three_works(alloc))?;
    put(files, work_twice(alloc, OTHER_SENDER))?;
    put(files, many_works(alloc, OTHER_SENDER, 12))
}

/// Puts files of which nothing is registered behind other files: a rejected work, a file that is refused for its count,
/// and an empty one.
fn push_faulty(files: &mut Vec<Vec<u8>>, alloc: Global) -> Result<(), Fail> {
    put(
        files,
        one_work(alloc, SENDER, "NWR", "W8", WRONG_ISWC, HALF),
    )?;
    put(files, miscounted(alloc))?;
    put(files, Ok(Vec::new(alloc)))
}

/// All of them.
pub(crate) fn stock(alloc: Global) -> Result<Vec<Vec<u8>>, Fail> {
    let mut files = Vec::new(alloc);
    push_works(&mut files, alloc)?;
    push_claims(&mut files, alloc, SENDER)?;
    push_claims(&mut files, alloc, OTHER_SENDER)?;
    push_several(&mut files, alloc)?;
    push_faulty(&mut files, alloc)?;
    Ok(files)
}

/// Puts four files behind other files: a claim to a work, the same number without an ISWC, three works of which it is
/// one, and a refused file.
fn push_claim(files: &mut Vec<Vec<u8>>, alloc: Global) -> Result<(), Fail> {
    put(files, one_work(alloc, SENDER, "NWR", "W1", ISWC, MORE))?;
    put(files, plain_file(alloc))?;
    put(files, three_works(alloc))?;
    put(files, miscounted(alloc))
}

/// Puts four files behind other files: another submitter's claim to that work, a rejected work, that submitter's number
/// twice without an ISWC, and twelve other works.
fn push_rival(files: &mut Vec<Vec<u8>>, alloc: Global) -> Result<(), Fail> {
    put(
        files,
        one_work(alloc, OTHER_SENDER, "NWR", "W1", ISWC, HALF),
    )?;
    put(
        files,
        one_work(alloc, SENDER, "NWR", "W8", WRONG_ISWC, HALF),
    )?;
    put(files, work_twice(alloc, OTHER_SENDER))?;
    put(files, many_works(alloc, SENDER, 12))
}

/// Puts both claims behind other files once more: a new version of the first one, and the other one again.
fn push_again(files: &mut Vec<Vec<u8>>, alloc: Global) -> Result<(), Fail> {
    put(files, one_work(alloc, SENDER, "REV", "W1", ISWC, HALF))?;
    put(
        files,
        one_work(alloc, OTHER_SENDER, "NWR", "W1", ISWC, HALF),
    )
}

/// Ten files. The decisions on most of them depend on those on the first one and on the fifth.
pub(crate) fn ten_files(alloc: Global) -> Result<Vec<Vec<u8>>, Fail> {
    let mut files = Vec::new(alloc);
    push_claim(&mut files, alloc)?;
    push_rival(&mut files, alloc)?;
    push_again(&mut files, alloc)?;
    Ok(files)
}
