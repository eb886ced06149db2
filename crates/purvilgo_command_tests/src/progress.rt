//! How far long work is, on a terminal: the line that is written over, and its clearing.

use std::process::ExitCode;
use std::test::Fail;
use test_files::plain_file;
use test_program::{Fake, FakeFile, expect_program, keeping, register, run_with};

/// A register of 700 entries is read in three pieces, each in 6 seconds. Its first line has 12 bytes, and an entry 174. The
/// first piece has 8,192 bytes, so it ends within entry 48, and the second 65,534, so it ends within entry 424. Nothing is
/// told of it where it takes less than half a second, or steps are printed.
#[test]
fn tells_how_far_a_register_is_read(rt: HostRuntime) -> Result<(), Fail> {
    let text = register(rt.alloc(), 700)?;
    let files = [("register", FakeFile::Holds(text.as_bytes()))];
    let told =
        "\r47 of 700 entries, 84 seconds left\x1b[K\r423 of 700 entries, 8 seconds left\x1b[K\r700 of 700 entries\x1b[K\r\x1b[K";
    let steps = "register: read, 121812 bytes\n";
    for (words, pace, told) in [
        (&["purvilgo", "audit", "register"][..], 6000, told),
        (&["purvilgo", "audit", "-"][..], 6000, told),
        (&["purvilgo", "audit", "register"][..], 166, ""),
        (
            &["purvilgo", "audit", "--verbose", "register"][..],
            6000,
            steps,
        ),
    ] {
        let fake = Fake::new(&rt, words, text.as_bytes())
            .with_files(&files, &[])
            .at_terminal(pace);
        expect_program(fake, ExitCode::SUCCESS, b"700 entries\n", told)?;
    }
    Ok(())
}

/// Three files are checked, each for 300 milliseconds. The first one ends too soon to be told of, and the line gives way
/// to what is printed of the third. Nothing is told of a single file.
#[test]
fn tells_how_many_files_are_checked(rt: HostRuntime) -> Result<(), Fail> {
    let plain = plain_file(rt.alloc())?;
    let files = [
        ("a", FakeFile::Holds(&plain)),
        ("b", FakeFile::Holds(&plain)),
        ("c", FakeFile::Broken),
    ];
    let line =
        "\r2 of 3 files, 1 second left\x1b[K\r\x1b[Kc: stopped: read\n\r3 of 3 files\x1b[K\r\x1b[K";
    for (words, pace, told) in [
        (
            &["purvilgo", "check", "--quiet", "a", "b", "c"][..],
            300,
            line,
        ),
        (&["purvilgo", "check", "c"][..], 6000, "stopped: read\n"),
    ] {
        let fake = Fake::new(&rt, words, b"")
            .with_files(&files, &[])
            .at_terminal(pace);
        expect_program(fake, ExitCode::FAILURE, b"", told)?;
    }
    Ok(())
}

/// Two files are worked, each for a minute and a half.
#[test]
fn tells_how_many_files_of_a_run_are_read(rt: HostRuntime) -> Result<(), Fail> {
    let alloc = rt.alloc();
    let plain = plain_file(alloc)?;
    let files = [
        ("a", FakeFile::Holds(&plain)),
        ("b", FakeFile::Holds(&plain)),
    ];
    let kept = [
        keeping(alloc, "a.ack", b"", 1000)?,
        keeping(alloc, "b.ack", b"", 1000)?,
    ];
    let words = run_with(alloc, &["--in-turn", "a", "b"])?;
    let fake = Fake::new(&rt, &words, b"")
        .with_files(&files, &kept)
        .at_terminal(90_000);
    let told = "\r1 of 2 files, 91 seconds left\x1b[K\r2 of 2 files\x1b[K\r\x1b[K";
    expect_program(
        fake,
        ExitCode::SUCCESS,
        b"a: acknowledged 1\nb: acknowledged 1\n",
        told,
    )
}
