//! Files and registers of several megabytes.

use crate::files::{file_named, kept_files};
use std::alloc::Global;
use std::process::ExitCode;
use std::sync::Wait;
use std::test::Fail;
use std::thread::Threads;
use test_comparisons::same;
use test_files::{
    OTHER_SENDER, SENDER, acknowledgement, crowded_faults, crowded_work, decision, many_answers,
    many_checked, many_entries, many_works,
};
use test_program::{
    Fake, FakeFile, KeptFile, expect, expect_held, expect_program, keeping, run_with,
};

/// The number of works of a file, of 225 bytes each.
const MANY: u32 = 20_000;

/// A bound on the bytes of any file that is written here.
const ROOM: usize = 10_000_000;

#[test]
fn checks_a_large_file(rt: HostRuntime) -> Result<(), Fail> {
    let alloc = rt.alloc();
    let input = many_works(alloc, SENDER, MANY)?;
    let files = [("a", FakeFile::Holds(&input))];
    let wanted = many_checked(alloc, MANY)?;
    let fake = Fake::new(&rt, &["purvilgo", "check", "a"], b"").with_files(&files, &[]);
    expect_program(fake, ExitCode::FAILURE, &wanted, "")
}

/// Runs files, which must succeed. `rt` starts threads and waits, and `more` are the words behind the stamp's. `files`
/// can only be read, and `kept` can be written. `told` is what must be on standard output.
fn expect_run<T: AllocGlobal + Threads + Wait + Sync>(
    rt: &T,
    more: &[&str],
    files: &[(&str, FakeFile)],
    kept: &[KeptFile],
    told: &str,
) -> Result<(), Fail> {
    let words = run_with(rt.alloc(), more)?;
    expect(rt, &words, files, kept, ExitCode::SUCCESS, told, "")
}

/// A file must hold the acknowledgement of many works, which come after `before` others.
fn expect_answers(alloc: Global, file: &KeptFile, before: u32) -> Result<(), Fail> {
    let wanted = many_answers(alloc, MANY, before)?;
    expect_held(file, &wanted)
}

/// A file must hold the register of the first file.
fn expect_first_register(alloc: Global, file: &KeptFile) -> Result<(), Fail> {
    let wanted = many_entries(alloc, &[SENDER], MANY)?;
    same("its bytes", &wanted.len(), &3_506_012)?;
    expect_held(file, &wanted)
}

/// A file must hold the register of both files.
fn expect_second_register(alloc: Global, file: &KeptFile) -> Result<(), Fail> {
    let wanted = many_entries(alloc, &[SENDER, OTHER_SENDER], MANY)?;
    expect_held(file, &wanted)
}

/// Runs a file of many works from an empty history: the acknowledgement and the register that must be kept.
fn expect_first<T: AllocGlobal + Threads + Wait + Sync>(
    rt: &T,
    files: &[(&str, FakeFile)],
    kept: &[KeptFile],
) -> Result<(), Fail> {
    let words = ["--to", "book", "a"];
    expect_run(rt, &words, files, kept, "a: acknowledged 20000\n")?;
    expect_answers(rt.alloc(), file_named(kept, "a.ack")?, 0)?;
    expect_first_register(rt.alloc(), file_named(kept, "book")?)
}

/// Runs another submitter's file from the register of the first.
fn expect_second<T: AllocGlobal + Threads + Wait + Sync>(
    rt: &T,
    files: &[(&str, FakeFile)],
    kept: &[KeptFile],
) -> Result<(), Fail> {
    let words = ["--from", "book", "--to", "book", "b"];
    expect_run(rt, &words, files, kept, "b: acknowledged 20000\n")?;
    expect_answers(rt.alloc(), file_named(kept, "b.ack")?, MANY / 2)?;
    expect_second_register(rt.alloc(), file_named(kept, "book")?)
}

/// Runs one file after the other, and audits the register after each.
fn expect_audited<T: AllocGlobal + Threads + Wait + Sync>(
    rt: &T,
    files: &[(&str, FakeFile)],
    kept: &[KeptFile],
) -> Result<(), Fail> {
    let audit = ["purvilgo", "audit", "book"];
    let done = ExitCode::SUCCESS;
    expect_first(rt, files, kept)?;
    expect(rt, &audit, files, kept, done, "20000 entries\n", "")?;
    expect_second(rt, files, kept)?;
    expect(rt, &audit, files, kept, done, "40000 entries\n", "")
}

/// The same of the files `a` and `b`.
fn expect_both<'a, T: AllocGlobal + Threads + Wait + Sync>(
    rt: &T,
    a: &'a [u8],
    b: &'a [u8],
    kept: &[KeptFile],
) -> Result<(), Fail> {
    let files = [("a", FakeFile::Holds(a)), ("b", FakeFile::Holds(b))];
    expect_audited(rt, &files, kept)
}

#[test]
fn runs_large_files_and_registers(rt: HostRuntime) -> Result<(), Fail> {
    let alloc = rt.alloc();
    let one = many_works(alloc, SENDER, MANY)?;
    let other = many_works(alloc, OTHER_SENDER, MANY)?;
    let empty = [
        ("a.ack", b"".as_slice(), ROOM),
        ("b.ack", b"", ROOM),
        ("book", b"", ROOM),
    ];
    let kept = kept_files(alloc, &empty)?;
    expect_both(&rt, &one, &other, &kept)
}

/// A file must hold the acknowledgement of the crowded work.
fn expect_crowded_answer(alloc: Global, file: &KeptFile) -> Result<(), Fail> {
    let faults = crowded_faults(alloc, 30_000)?;
    let answers = [decision(0, "NWR", "W1", "", "RJ", &faults)];
    let wanted = acknowledgement(alloc, &answers)?;
    expect_held(file, &wanted)
}

#[test]
fn runs_a_crowded_work(rt: HostRuntime) -> Result<(), Fail> {
    let alloc = rt.alloc();
    let input = crowded_work(alloc, SENDER, 30_000)?;
    let kept = [keeping(alloc, "a.ack", b"", ROOM)?];
    let files = [("a", FakeFile::Holds(&input))];
    expect_run(&rt, &["a"], &files, &kept, "a: acknowledged 1\n")?;
    expect_crowded_answer(alloc, &kept[0])
}
