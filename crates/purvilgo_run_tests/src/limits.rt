//! The limits of each command: the greatest file that it takes, and one more byte.

use crate::files::{file_named, kept_files};
use cwr_desk::{MAX_BYTES, MAX_ENTRIES};
use purvilgo_command::MAX_REGISTER_BYTES;
use std::alloc::Global;
use std::process::ExitCode;
use std::sync::Wait;
use std::test::Fail;
use std::thread::Threads;
use test_comparisons::same;
use test_files::{SENDER, many_answers, many_checked, many_works};
use test_program::{Fake, FakeFile, KeptFile, expect, expect_held, expect_program, run_with};

/// The greatest number of bytes of a file that is acknowledged or checked.
const LIMIT: usize = 16_777_216;

const MANY: u32 = 70_000;

/// A file of 70,000 works, filled with blanks behind its last record up to this number of bytes.
fn filled(alloc: Global, size: usize) -> Result<Vec<u8>, Fail> {
    let mut text = many_works(alloc, SENDER, MANY)?;
    text.resize(size, b' ')?;
    Ok(text)
}

#[test]
fn has_limits() -> Result<(), Fail> {
    same("bytes of a file", &MAX_BYTES, &LIMIT)?;
    same("bytes of a register", &MAX_REGISTER_BYTES, &68_719_476_736)?;
    same("entries of a history", &MAX_ENTRIES, &99_999_999)
}

/// Checks a file, which must fail. `rt` starts threads and waits, `files` are there, and `name` is that of the file.
/// `printed` and `complained` are the standard output and standard error that it must have.
fn expect_check<T: AllocGlobal + Threads + Wait + Sync>(
    rt: &T,
    files: &[(&str, FakeFile)],
    name: &str,
    printed: &[u8],
    complained: &str,
) -> Result<(), Fail> {
    let words = ["purvilgo", "check", name];
    let fake = Fake::new(rt, &words, b"").with_files(files, &[]);
    expect_program(fake, ExitCode::FAILURE, printed, complained)
}

/// Checks both files: of the greatest this is printed, and the other is too long.
fn expect_checks<'a, T: AllocGlobal + Threads + Wait + Sync>(
    rt: &T,
    most: &'a [u8],
    more: &'a [u8],
    wanted: &[u8],
) -> Result<(), Fail> {
    let files = [
        ("most", FakeFile::Holds(most)),
        ("more", FakeFile::Holds(more)),
    ];
    expect_check(rt, &files, "most", wanted, "")?;
    expect_check(rt, &files, "more", b"", "stopped: too long\n")
}

#[test]
fn checks_16_777_216_bytes(rt: HostRuntime) -> Result<(), Fail> {
    let alloc = rt.alloc();
    let most = filled(alloc, LIMIT)?;
    let more = filled(alloc, LIMIT + 1)?;
    // Some of the works have no title.
    let wanted = many_checked(alloc, MANY)?;
    expect_checks(&rt, &most, &more, &wanted)
}

/// Acknowledges the greatest file of standard input.
fn acknowledge_most<T: AllocGlobal + Threads + Wait + Sync>(rt: &T) -> Result<(), Fail> {
    let most = filled(rt.alloc(), LIMIT)?;
    let wanted = many_answers(rt.alloc(), MANY, 0)?;
    let fake = Fake::new(rt, &["purvilgo"], &most);
    expect_program(fake, ExitCode::SUCCESS, &wanted, "")
}

/// Stops at a file of one more byte.
fn acknowledge_more<T: AllocGlobal + Threads + Wait + Sync>(rt: &T) -> Result<(), Fail> {
    let more = filled(rt.alloc(), LIMIT + 1)?;
    let fake = Fake::new(rt, &["purvilgo"], &more);
    expect_program(
        fake,
        ExitCode::FAILURE,
        b"",
        "-: stopped after 0: too long\n",
    )
}

#[test]
fn acknowledges_16_777_216_bytes_of_standard_input(rt: HostRuntime) -> Result<(), Fail> {
    acknowledge_most(&rt)?;
    acknowledge_more(&rt)
}

/// Runs both files: the greatest is acknowledged, and the other is not.
fn run_both<T: AllocGlobal + Threads + Wait + Sync>(
    rt: &T,
    files: &[(&str, FakeFile)],
    kept: &[KeptFile],
) -> Result<(), Fail> {
    let words = run_with(rt.alloc(), &["more", "most"])?;
    let told = "more: stopped after 0: too long\nmost: acknowledged 70000\n";
    expect(rt, &words, files, kept, ExitCode::FAILURE, told, "")
}

/// The acknowledgement of the greatest file must be there, and none of the other.
fn expect_most_alone(alloc: Global, kept: &[KeptFile]) -> Result<(), Fail> {
    let wanted = many_answers(alloc, MANY, 0)?;
    expect_held(file_named(kept, "most.ack")?, &wanted)?;
    expect_held(file_named(kept, "more.ack")?, b"")
}

/// Runs these two files into empty ones.
fn expect_limit<'a, T: AllocGlobal + Threads + Wait + Sync>(
    rt: &T,
    most: &'a [u8],
    more: &'a [u8],
) -> Result<(), Fail> {
    let empty = [
        ("most.ack", b"".as_slice(), LIMIT),
        ("more.ack", b"", LIMIT),
    ];
    let kept = kept_files(rt.alloc(), &empty)?;
    let files = [
        ("most", FakeFile::Holds(most)),
        ("more", FakeFile::Holds(more)),
    ];
    run_both(rt, &files, &kept)?;
    expect_most_alone(rt.alloc(), &kept)
}

#[test]
fn runs_16_777_216_bytes(rt: HostRuntime) -> Result<(), Fail> {
    let most = filled(rt.alloc(), LIMIT)?;
    let more = filled(rt.alloc(), LIMIT + 1)?;
    expect_limit(&rt, &most, &more)
}
