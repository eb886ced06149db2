//! Files that the runs of the tests find and leave.

use std::alloc::Global;
use std::test::Fail;
use test_program::{KeptFile, keeping};

/// The names `1.v22`, `2.v22` and so on, before this number.
pub(crate) fn numbered(alloc: Global, end: u32) -> Result<Vec<String>, Fail> {
    let mut names = Vec::new(alloc);
    for number in 1..end {
        names.push(format!(in alloc; "{number}.v22")?)?;
    }
    Ok(names)
}

/// Files that can be written: the name of each, what it holds so far, and the greatest number of bytes that it takes.
pub(crate) fn kept_files<'a>(
    alloc: Global,
    files: &[(&'a str, &[u8], usize)],
) -> Result<Vec<KeptFile<'a>>, Fail> {
    let mut kept = Vec::new(alloc);
    for (name, text, room) in files {
        kept.push(keeping(alloc, name, text, *room)?)?;
    }
    Ok(kept)
}

/// The file of this name.
pub(crate) fn file_named<'k, 'a>(
    kept: &'k [KeptFile<'a>],
    name: &str,
) -> Result<&'k KeptFile<'a>, Fail> {
    for file in kept {
        if file.name == name {
            return Ok(file);
        }
    }
    Err("a file of this name".into())
}
