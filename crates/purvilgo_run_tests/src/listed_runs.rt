//! Runs of more files than the words of a command line may name.

use crate::files::numbered;
use std::alloc::Global;
use std::process::ExitCode;
use std::sync::Wait;
use std::test::Fail;
use std::thread::Threads;
use test_files::miscounted;
use test_program::{Fake, FakeFile, expect_program, run_with};

/// The greatest number of files of a group, and more than two groups.
const COUNTS: [u32; 4] = [63, 64, 126, 127];

/// Texts of each of these names: the list of them, and what is printed of files that are all refused.
fn listed(alloc: Global, names: &[String]) -> Result<(String, String), Fail> {
    let (mut list, mut told) = (String::new(alloc), String::new(alloc));
    for name in names {
        list.push_str(name.as_str())?;
        list.push_str("\n")?;
        told.push_str(name.as_str())?;
        told.push_str(": refused F9 at line 5\n")?;
    }
    Ok((list, told))
}

/// Files of these names, each with this text.
fn all_holding<'f>(
    alloc: Global,
    names: &'f [String],
    text: &'f [u8],
) -> Result<Vec<(&'f str, FakeFile<'f>)>, Fail> {
    let mut files = Vec::new(alloc);
    for name in names {
        files.push((name.as_str(), FakeFile::Holds(text)))?;
    }
    Ok(files)
}

/// Runs files of these names from a list, each with this text, in the way that a word says. Each must be refused, and
/// the outcomes printed in the order of the list.
fn expect_refused<T: AllocGlobal + Threads + Wait + Sync>(
    rt: &T,
    way: &str,
    names: &[String],
    text: &[u8],
) -> Result<(), Fail> {
    let alloc = rt.alloc();
    let (list, told) = listed(alloc, names)?;
    let files = all_holding(alloc, names, text)?;
    let words = run_with(alloc, &[way, "--files-from", "-"])?;
    let fake = Fake::new(rt, &words, list.as_bytes()).with_files(&files, &[]);
    expect_program(fake, ExitCode::FAILURE, told.as_bytes(), "")
}

#[test]
fn tells_each_file_of_a_list_in_its_order(rt: HostRuntime) -> Result<(), Fail> {
    let text = miscounted(rt.alloc())?;
    for count in COUNTS {
        let names = numbered(rt.alloc(), count.saturating_add(1))?;
        expect_refused(&rt, "--in-order", &names, &text)?;
        expect_refused(&rt, "--in-turn", &names, &text)?;
    }
    Ok(())
}
