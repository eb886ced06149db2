//! Steps and reasons, which `--verbose` prints before the fixed texts.

use std::alloc::Global;
use std::fs::Metadata;
use std::process::ExitCode;
use std::sync::Wait;
use std::test::Fail;
use std::thread::Threads;
use test_comparisons::{same, same_text};
use test_files::{file_of_lines, miscounted, one_answer, plain_file};
use test_program::{
    Calls, Disk, Fake, Given, Kept, Step, Text, expect_play, expect_program, run_with,
};

const NO_TRANSACTION: [&str; 1] = ["TRL000000000000000000002"];

/// What is printed of a name that does not exist, before `stopped: read`.
const ABSENT: &str = "absent: No such file or directory\nstopped: read\n";

#[test]
fn tells_what_check_and_audit_do(rt: HostRuntime) -> Result<(), Fail> {
    let alloc = rt.alloc();
    let length = file_of_lines(alloc, &NO_TRANSACTION)?.len();
    let read = format!(in alloc; "empty: read, {length} bytes\n")?;
    expect_play(
        &rt,
        &[
            ("empty", Given::Holds(Text::Lines(&NO_TRANSACTION))),
            ("book", Given::Holds(Text::Bytes(b"REG00000000\n"))),
            ("broken", Given::Broken),
        ],
        &[],
        &[
            Step::of(&["check", "-v", "empty"])
                .prints("0 transactions, 0 with faults\n")
                .complains(&read),
            Step::of(&["check", "absent", "--verbose"])
                .ends(1)
                .complains(ABSENT),
            Step::of(&["check", "--verbose", "broken"])
                .ends(1)
                .complains("broken: unsupported\nstopped: read\n"),
            Step::of(&["audit", "-v", "book"])
                .prints("0 entries\n")
                .complains("book: read, 12 bytes\n"),
            Step::of(&["audit", "--verbose", "absent"])
                .ends(1)
                .complains(ABSENT),
            Step::of(&["audit", "absent"])
                .ends(1)
                .complains("stopped: read\n"),
        ],
    )
}

/// One file after another, so that the steps come in a certain order.
#[test]
fn tells_the_steps_of_a_run(rt: HostRuntime) -> Result<(), Fail> {
    let alloc = rt.alloc();
    let length = plain_file(alloc)?.len();
    let answer = one_answer(alloc, "AS")?.len();
    same("the acknowledgement's length", &answer, &425)?;
    let steps = format!(in alloc;
        "before: read, 12 bytes\nbefore: register read, 0 entries\na: read, {length} bytes\na.ack: written, 425 bytes\nabsent: No such file or directory\nb: read, {length} bytes\nb.ack: No such file or directory\nabsent: ended: stopped after 0: read\nb: ended: stopped after 1: write after 0 bytes\nafter: written, 360 bytes\nafter: register kept, 2 entries\n"
    )?;
    expect_play(
        &rt,
        &[
            ("a", Given::Holds(Text::Plain)),
            ("b", Given::Holds(Text::Plain)),
            ("before", Given::Holds(Text::Bytes(b"REG00000000\n"))),
        ],
        &[
            Kept::new("a.ack", Text::Bytes(b"")),
            Kept::new("after", Text::Bytes(b"")),
        ],
        &[
            Step::run(&[
                "-v",
                "--in-turn",
                "--from",
                "before",
                "--to",
                "after",
                "a",
                "absent",
                "b",
            ])
            .ends(1)
            .prints(
                "a: acknowledged 1\nabsent: stopped after 0: read\nb: stopped after 1: write after 0 bytes\n",
            )
            .complains(&steps)
            .leaves(&[("a.ack", Text::Answer("AS"))]),
        ],
    )
}

#[test]
fn tells_why_a_register_is_not_read_or_kept(rt: HostRuntime) -> Result<(), Fail> {
    expect_play(
        &rt,
        &[],
        &[],
        &[
            Step::run(&["-v", "--from", "absent", "a"])
                .ends(1)
                .complains("absent: No such file or directory\nregister: stopped: read\n"),
            Step::run(&["-v", "--to", "nowhere", "a"])
                .ends(1)
                .prints("a: stopped after 0: read\n")
                .complains(
                    "a: No such file or directory\na: ended: stopped after 0: read\nnowhere: No such file or directory\nregister: stopped: write after 0 bytes\n",
                ),
        ],
    )
}

#[test]
fn tells_how_a_refused_file_ends(rt: HostRuntime) -> Result<(), Fail> {
    let alloc = rt.alloc();
    let length = miscounted(alloc)?.len();
    let steps = format!(in alloc; "a: read, {length} bytes\na: ended: refused F9 at line 5\n")?;
    let told = "a: refused F9 at line 5\n";
    expect_play(
        &rt,
        &[("a", Given::Holds(Text::Miscounted))],
        &[],
        &[
            Step::run(&["-v", "a"])
                .ends(1)
                .prints(told)
                .complains(&steps),
            Step::run(&["a"]).ends(1).prints(told),
        ],
    )
}

/// A disk without a file. `calls` counts the calls that change files.
fn empty_disk(alloc: Global, calls: Calls) -> Disk<'static> {
    Disk {
        files: Vec::new(alloc),
        calls,
        nodes: Vec::new(alloc),
        links: &[],
        locked: &[],
    }
}

/// `folder` is a directory.
fn add_folder<'a>(nodes: &mut Vec<(&'a str, Metadata)>) -> Result<(), Fail> {
    nodes.push(("folder", Metadata::of_dir()))?;
    Ok(())
}

/// Runs to a register that is not locked: some calls do not open its lock, or it is the directory `folder`. `rt` starts
/// threads and waits, `more` are the words behind the stamp's, and `calls` counts the calls that change files and
/// refuses some. `complained` is what must be on standard error, and `made` the calls that must be made.
fn expect_unlocked<T: AllocGlobal + Threads + Wait + Sync>(
    rt: &T,
    more: &[&str],
    calls: Calls,
    complained: &str,
    made: &str,
) -> Result<(), Fail> {
    let alloc = rt.alloc();
    let mut disk = empty_disk(alloc, calls);
    add_folder(&mut disk.nodes)?;
    let words = run_with(alloc, more)?;
    expect_failed(rt, &words, &disk, complained)?;
    same_text("the calls", &disk.calls.made()?, made)
}

/// Runs the program over a disk. It must end with status 1 and print nothing on standard output, and this on standard
/// error.
fn expect_failed<T: AllocGlobal + Threads + Wait + Sync>(
    rt: &T,
    words: &[&str],
    disk: &Disk,
    complained: &str,
) -> Result<(), Fail> {
    let fake = Fake::new(rt, words, b"").with_disk(&[], disk);
    expect_program(fake, ExitCode::FAILURE, b"", complained)
}

/// The system is asked once more for the reason, and only if it is to be printed.
#[test]
fn tells_why_a_register_is_not_locked(rt: HostRuntime) -> Result<(), Fail> {
    let alloc = rt.alloc();
    let stopped = "register: stopped: write after 0 bytes\n";
    let told = "book.lock: other error\nregister: stopped: write after 0 bytes\n";
    let once = "lock book.lock\n";
    let twice = "lock book.lock\nlock book.lock\n";
    let to = ["--to", "book", "a"];
    let told_to = ["--verbose", "--to", "book", "a"];
    expect_unlocked(&rt, &to, Calls::refusing(alloc, 0, "lock"), stopped, once)?;
    expect_unlocked(
        &rt,
        &told_to,
        Calls::refusing(alloc, 0, "lock"),
        told,
        twice,
    )?;
    expect_unlocked(&rt, &told_to, Calls::refusing(alloc, 1, ""), stopped, twice)?;
    // Where no file can lie, no lock is made.
    for (to, reason) in [
        ("folder", "folder: Is a directory\n"),
        ("", ": No such file or directory\n"),
    ] {
        let words = ["--verbose", "--to", to, "a"];
        let told = format!(in alloc; "{reason}{stopped}")?;
        expect_unlocked(&rt, &words, Calls::refusing(alloc, 0, ""), &told, "")?;
    }
    Ok(())
}
