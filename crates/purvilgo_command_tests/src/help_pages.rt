//! Help, short and long.

use purvilgo_command::run_program;
use std::process::ExitCode;
use std::sync::Wait;
use std::test::Fail;
use std::thread::Threads;
use test_comparisons::{same, same_bytes};
use test_program::Fake;

/// The page for these words must name all of these, and be on standard error, with status 2.
fn expect_page<T: AllocGlobal + Threads + Wait + Sync>(
    rt: &T,
    words: &[&str],
    names: &[&str],
) -> Result<(), Fail> {
    let fake = Fake::new(rt, words, b"");
    let ended = run_program(&fake);
    let (printed, page) = fake.into_texts();
    expect_told(ended, &printed, &page, names)
}

/// The page must name all of these, nothing must be on standard output, and the status must be 2.
fn expect_told(ended: ExitCode, printed: &[u8], page: &str, names: &[&str]) -> Result<(), Fail> {
    same_bytes("its standard output", printed, b"")?;
    for name in names {
        same(name, &page.contains(*name), &true)?;
    }
    same("its status", &ended, &ExitCode::from(2))
}

/// Each command, and each option that it takes.
const OPTIONS: [(&str, &[&str]); 11] = [
    (
        "run",
        &[
            "--society <NNN>",
            "--name <TEXT>",
            "--date <YYYYMMDD>",
            "--time <HHMMSS>",
            "--from <REGISTER>",
            "--to <REGISTER>",
            "--in-order",
            "--in-turn",
            "--no-clobber",
            "--files-from <LIST>",
            "-0, --null",
            "-v, --verbose",
            "[FILE]...",
        ],
    ),
    (
        "check",
        &[
            "--long",
            "--json",
            "--quiet",
            "--files-from <LIST>",
            "-0, --null",
            "-v, --verbose",
            "[FILE]...",
        ],
    ),
    ("explain", &["[RULE]..."]),
    ("audit", &["--json", "-v, --verbose", "<REGISTER>"]),
    (
        "claims",
        &[
            "--work <N>",
            "--submitter <S>",
            "--number <W>",
            "--plain",
            "-v, --verbose",
            "<REGISTER>",
        ],
    ),
    (
        "works",
        &["--work <N>", "--plain", "-v, --verbose", "<REGISTER>"],
    ),
    (
        "history",
        &[
            "--work <N>",
            "--submitter <S>",
            "--number <W>",
            "--status <AS|DU|CO|RJ>",
            "--plain",
            "--json",
            "-v, --verbose",
            "<REGISTER>",
        ],
    ),
    ("summary", &["--json", "-v, --verbose", "<REGISTER>"]),
    (
        "verify",
        &[
            "--ack <ACK>",
            "--files-from <LIST>",
            "-0, --null",
            "-v, --verbose",
            "<REGISTER>",
            "[FILE]...",
        ],
    ),
    (
        "answer",
        &[
            "--society <NNN>",
            "--name <TEXT>",
            "--date <YYYYMMDD>",
            "--time <HHMMSS>",
            "--entry <N>",
            "-v, --verbose",
            "<REGISTER>",
            "<FILE>",
        ],
    ),
    ("version", &[]),
];

/// Short and long help of each command name all of its options; the long one is that of `help COMMAND`.
#[test]
fn tells_each_option(rt: HostRuntime) -> Result<(), Fail> {
    for (command, options) in OPTIONS {
        for words in [
            ["purvilgo", command, "-h"],
            ["purvilgo", command, "--help"],
            ["purvilgo", "help", command],
        ] {
            expect_page(&rt, &words, options)?;
            expect_page(&rt, &words, &["Usage: purvilgo ", "-h, --help"])?;
        }
    }
    Ok(())
}

/// The program's help names each command.
#[test]
fn tells_each_command(rt: HostRuntime) -> Result<(), Fail> {
    for word in ["-h", "--help", "help"] {
        let words = ["purvilgo", word];
        for (command, _) in OPTIONS {
            expect_page(&rt, &words, &[command])?;
        }
        expect_page(&rt, &words, &["-h, --help", "-V, --version"])?;
    }
    Ok(())
}

/// Long help says what a command reads and writes, and has its statuses and an example.
#[test]
fn tells_more_in_long_help(rt: HostRuntime) -> Result<(), Fail> {
    let parts = ["Writes: ", "Status: 0 ", "Example:\n"];
    for command in [
        "run", "check", "explain", "audit", "claims", "works", "history", "summary", "verify",
        "answer",
    ] {
        expect_page(&rt, &["purvilgo", "help", command], &parts)?;
        expect_page(&rt, &["purvilgo", command, "--help"], &parts)?;
    }
    expect_page(&rt, &["purvilgo", "help"], &parts)
}

/// Long help says what a command reads, and where that may be standard input.
#[test]
fn tells_what_is_read(rt: HostRuntime) -> Result<(), Fail> {
    let names = ["Reads: ", "standard input where REGISTER is -"];
    for command in [
        "audit", "claims", "works", "history", "summary", "verify", "answer",
    ] {
        expect_page(&rt, &["purvilgo", "help", command], &names)?;
    }
    let names = ["Reads: ", "standard input where FILE is -"];
    expect_page(&rt, &["purvilgo", "help", "check"], &names)?;
    expect_page(&rt, &["purvilgo", "help", "run"], &["Reads: "])?;
    expect_page(&rt, &["purvilgo", "help"], &["Reads: standard input."])
}
