//! Files that are worked at once, each on a thread of its own.

use crate::files::numbered;
use purvilgo_command::run_program;
use std::alloc::Global;
use std::process::ExitCode;
use std::sync::Wait;
use std::test::Fail;
use std::thread::{Threads, available_parallelism};
use test_comparisons::{same, same_text};
use test_files::miscounted;
use test_program::{Fake, FakeFile, Meeting, run_with};

/// Runs files, of which each must be refused. `rt` starts threads and waits, `words` is the command line, and `files`
/// are read. `all` is the number of workers that wait for one another, and `met` the number of those that must meet all
/// others.
fn expect_met<T: AllocGlobal + Threads + Wait + Sync>(
    rt: &T,
    words: &[&str],
    files: &[(&str, FakeFile)],
    all: u64,
    met: u64,
) -> Result<(), Fail> {
    let wanted = all_refused(rt.alloc(), files)?;
    let fake = Fake::new(rt, words, b"").with_files(files, &[]);
    let meeting = Meeting::new(fake, all);
    let status = run_program(&meeting);
    let (found, fake) = meeting.into_fake();
    let (printed, complained) = fake.into_texts();
    expect_ended((found, status), met, &complained, &printed, &wanted)
}

/// What is printed of files, of which each is refused.
fn all_refused(alloc: Global, files: &[(&str, FakeFile)]) -> Result<Vec<u8>, Fail> {
    let mut told = Vec::new(alloc);
    for (name, _) in files {
        tell_refused(&mut told, name)?;
    }
    Ok(told)
}

fn tell_refused(told: &mut Vec<u8>, name: &str) -> Result<(), Fail> {
    told.extend_from_slice(name.as_bytes())?;
    told.extend_from_slice(b": refused F9 at line 5\n")?;
    Ok(())
}

/// A run must have failed, with nothing on standard error. `ended` is the number of workers that met all others, and
/// the status; `met` is the number that must have. `complained` is standard error, `printed` standard output, and
/// `wanted` what must be on it.
fn expect_ended(
    ended: (u64, ExitCode),
    met: u64,
    complained: &str,
    printed: &[u8],
    wanted: &[u8],
) -> Result<(), Fail> {
    same(
        "workers that met, and the status",
        &ended,
        &(met, ExitCode::FAILURE),
    )?;
    same_text("what was complained of", complained, "")?;
    same("what was printed", &printed, &wanted)
}

#[test]
fn works_three_files_at_once(rt: HostRuntime) -> Result<(), Fail> {
    let input = miscounted(rt.alloc())?;
    let words = run_with(rt.alloc(), &["a", "b", "c"])?;
    let held = FakeFile::Holds(&input);
    let files = [("a", held), ("b", held), ("c", held)];
    expect_met(&rt, &words, &files, 3, 3)
}

/// The first worker waits for the second in vain.
#[test]
fn works_two_files_in_turn(rt: HostRuntime) -> Result<(), Fail> {
    let input = miscounted(rt.alloc())?;
    let words = run_with(rt.alloc(), &["--in-turn", "a", "b"])?;
    let held = FakeFile::Holds(&input);
    let files = [("a", held), ("b", held)];
    expect_met(&rt, &words, &files, 2, 1)
}

/// Whether the system has one processor alone.
fn has_one_processor<T: Threads>(rt: &T) -> bool {
    match available_parallelism(rt) {
        Ok(count) => count.get() == 1,
        Err(_) => false,
    }
}

/// Eight files in order are read at once. On one processor they are read in turn, which is not looked at here.
#[test]
fn reads_eight_files_at_once_in_order(rt: HostRuntime) -> Result<(), Fail> {
    if has_one_processor(&rt) {
        println!(rt; "skipped, as there is one processor: files in order are read in turn")?;
        return Ok(());
    }
    let input = miscounted(rt.alloc())?;
    let words = run_with(
        rt.alloc(),
        &["--in-order", "a", "b", "c", "d", "e", "f", "g", "h"],
    )?;
    let held = FakeFile::Holds(&input);
    let files = [
        ("a", held),
        ("b", held),
        ("c", held),
        ("d", held),
        ("e", held),
        ("f", held),
        ("g", held),
        ("h", held),
    ];
    expect_met(&rt, &words, &files, 8, 8)
}

/// Files of these names, each with this text.
fn all_holding<'a>(
    alloc: Global,
    names: &'a [String],
    text: &'a [u8],
) -> Result<Vec<(&'a str, FakeFile<'a>)>, Fail> {
    let mut files = Vec::new(alloc);
    for name in names {
        files.push((name.as_str(), FakeFile::Holds(text)))?;
    }
    Ok(files)
}

/// The words of a run of these files.
fn run_of<'a>(alloc: Global, names: &'a [String]) -> Result<Vec<&'a str>, Fail> {
    let mut more = Vec::new(alloc);
    for name in names {
        more.push(name.as_str())?;
    }
    run_with(alloc, &more)
}

/// Runs 63 files of these names and this text: all of their workers must meet.
fn expect_63_met<T: AllocGlobal + Threads + Wait + Sync>(
    rt: &T,
    names: &[String],
    input: &[u8],
) -> Result<(), Fail> {
    let words = run_of(rt.alloc(), names)?;
    let files = all_holding(rt.alloc(), names, input)?;
    expect_met(rt, &words, &files, 63, 63)
}

#[test]
fn works_63_files_at_once(rt: HostRuntime) -> Result<(), Fail> {
    let input = miscounted(rt.alloc())?;
    let names = numbered(rt.alloc(), 64)?;
    expect_63_met(&rt, &names, &input)
}
