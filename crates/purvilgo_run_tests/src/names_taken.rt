//! How registers and acknowledgements take their names: by which calls, over what, and if another file is there.

use crate::disks::{
    ACKNOWLEDGED, OLDER, disk, expect_calls, expect_draft, expect_on, expect_text, older, run_over,
};
use std::alloc::Global;
use std::fs;
use std::fs::Metadata;
use std::process::ExitCode;
use std::rt::Files;
use std::sync::Wait;
use std::test::Fail;
use std::thread::Threads;
use test_comparisons::same;
use test_files::plain_file;
use test_program::{Disk, FakeFile, Text, register, run_with};

/// The register of `--from` does not exist, and nothing is printed of it.
#[test]
fn leaves_a_register_that_is_in_use(rt: HostRuntime) -> Result<(), Fail> {
    let disk = older(rt.alloc(), 0, "")?;
    let words = ["--from", "absent", "--to", "taken", "a"];
    let used = (ExitCode::FAILURE, "", "register: in use\n");
    let held = ("a.ack", Text::Bytes(OLDER));
    expect_calls(&rt, &words, &disk, used, "lock taken.lock\n", held)
}

/// Nothing is locked if no register is written, and the acknowledgement takes its name once the worker has ended.
#[test]
fn puts_an_acknowledgement_in_place_without_a_register(rt: HostRuntime) -> Result<(), Fail> {
    let disk = older(rt.alloc(), 0, "")?;
    let done = (ExitCode::SUCCESS, ACKNOWLEDGED, "");
    let made =
        "create a.ack\nwrite a.ack\nwrite a.ack\nwrite a.ack\nsync a.ack\nrename a.ack\nsync .\n";
    let held = ("a.ack", Text::Answer("AS"));
    expect_calls(&rt, &["a"], &disk, done, made, held)
}

#[test]
fn tells_an_acknowledgement_that_is_not_in_place(rt: HostRuntime) -> Result<(), Fail> {
    let disk = older(rt.alloc(), 6, "")?;
    let refused = (ExitCode::FAILURE, ACKNOWLEDGED, "a.ack: not in place\n");
    let made = "create a.ack\nwrite a.ack\nwrite a.ack\nwrite a.ack\nsync a.ack\nrename a.ack\n";
    let held = ("a.ack", Text::Bytes(OLDER));
    expect_calls(&rt, &["a"], &disk, refused, made, held)
}

/// With `--no-clobber` an acknowledgement takes its name by a link, which replaces nothing.
#[test]
fn links_an_acknowledgement_that_replaces_none(rt: HostRuntime) -> Result<(), Fail> {
    let disk = disk(rt.alloc(), &[("a.ack", b"")], 0, "")?;
    let done = (ExitCode::SUCCESS, ACKNOWLEDGED, "");
    let made =
        "create a.ack\nwrite a.ack\nwrite a.ack\nwrite a.ack\nsync a.ack\nlink a.ack\nremove a.ack\nsync .\n";
    let held = ("a.ack", Text::Answer("AS"));
    expect_calls(&rt, &["--no-clobber", "a"], &disk, done, made, held)?;
    expect_draft(&disk, "a.ack", "a draft", false)
}

#[test]
fn keeps_the_draft_of_what_it_cannot_link(rt: HostRuntime) -> Result<(), Fail> {
    let disk = disk(rt.alloc(), &[("a.ack", b"")], 6, "")?;
    let refused = (ExitCode::FAILURE, ACKNOWLEDGED, "a.ack: not in place\n");
    let made = "create a.ack\nwrite a.ack\nwrite a.ack\nwrite a.ack\nsync a.ack\nlink a.ack\n";
    let held = ("a.ack", Text::Bytes(b""));
    expect_calls(&rt, &["--no-clobber", "a"], &disk, refused, made, held)?;
    expect_draft(&disk, "a.ack", "a draft", true)
}

/// With `--no-clobber` the register replaces no file either, except the one that the run begins with.
#[test]
fn leaves_a_register_that_is_there(rt: HostRuntime) -> Result<(), Fail> {
    let mut disk = disk(rt.alloc(), &[("a.ack", b""), ("book", OLDER)], 0, "")?;
    disk.nodes.push(("book", Metadata::of_file(24)))?;
    let refused = (ExitCode::FAILURE, "", "book: is there already\n");
    let held = ("book", Text::Bytes(OLDER));
    let words = ["--no-clobber", "--to", "book", "a"];
    expect_calls(&rt, &words, &disk, refused, "", held)
}

/// By the same word, and by a link that leads to it.
#[test]
fn replaces_the_register_that_it_begins_with(rt: HostRuntime) -> Result<(), Fail> {
    let device = fs::metadata(&rt, "/dev/null")?;
    for (from, found) in [("book", Metadata::of_file(186)), ("linked", device)] {
        let disk = disk_of_register(rt.alloc(), from, &found)?;
        expect_second_entry(&rt, from, &disk)?;
    }
    Ok(())
}

/// A disk with a register of one entry under two names, this one and `book`, of which the system says the same.
fn disk_of_register<'a>(alloc: Global, other: &'a str, found: &Metadata) -> Result<Disk<'a>, Fail> {
    let book = register(alloc, 1)?;
    let text = book.as_bytes();
    let files = [("a.ack", b"".as_slice()), ("book", text), ("linked", text)];
    let mut disk = disk(alloc, &files, 0, "")?;
    disk.nodes.push(("book", found.clone()?))?;
    disk.nodes.push((other, found.clone()?))?;
    Ok(disk)
}

/// Runs from this register to `book`, which is the same and is replaced.
fn expect_second_entry<T: AllocGlobal + Threads + Wait + Sync>(
    rt: &T,
    from: &str,
    disk: &Disk,
) -> Result<(), Fail> {
    let words = ["--no-clobber", "--from", from, "--to", "book", "a"];
    run_over(rt, &words, disk, (ExitCode::SUCCESS, ACKNOWLEDGED, ""))?;
    expect_text(rt.alloc(), disk, "book", Text::Register(2))?;
    expect_text(rt.alloc(), disk, "a.ack", Text::Answer("DU"))
}

#[test]
fn links_a_register_that_replaces_none(rt: HostRuntime) -> Result<(), Fail> {
    let disk = disk(rt.alloc(), &[("a.ack", b""), ("book", b"")], 0, "")?;
    let done = (ExitCode::SUCCESS, ACKNOWLEDGED, "");
    let made =
        "lock book.lock\ncreate a.ack\nwrite a.ack\nwrite a.ack\nwrite a.ack\nsync a.ack\ncreate book\nwrite book\nsync book\nlink book\nremove book\nsync .\nlink a.ack\nremove a.ack\nsync .\n";
    let held = ("book", Text::Register(1));
    let words = ["--no-clobber", "--to", "book", "a"];
    expect_calls(&rt, &words, &disk, done, made, held)
}

/// A register that another program makes meanwhile stays, and the acknowledgement is withheld.
#[test]
fn leaves_a_register_that_comes_in_between(rt: HostRuntime) -> Result<(), Fail> {
    let disk = disk(rt.alloc(), &[("a.ack", b""), ("book", OLDER)], 0, "")?;
    expect_withheld(&rt, &disk)
}

/// Runs into the register of a disk, which stays as it is, and so does the acknowledgement.
fn expect_withheld<T: AllocGlobal + Threads + Wait + Sync>(
    rt: &T,
    disk: &Disk,
) -> Result<(), Fail> {
    let stopped = "register: stopped: write after 186 bytes\n";
    let words = ["--no-clobber", "--to", "book", "a"];
    run_over(rt, &words, disk, (ExitCode::FAILURE, ACKNOWLEDGED, stopped))?;
    expect_text(rt.alloc(), disk, "book", Text::Bytes(OLDER))?;
    expect_text(rt.alloc(), disk, "a.ack", Text::Bytes(b""))?;
    expect_draft(disk, "a.ack", "a draft", false)?;
    expect_draft(disk, "book", "another", false)
}

/// It has no draft and no lock.
#[test]
fn writes_a_register_that_is_a_device_itself(rt: HostRuntime) -> Result<(), Fail> {
    let device = fs::metadata(&rt, "/dev/null")?;
    let mut disk = disk(rt.alloc(), &[("a.ack", OLDER), ("device", b"")], 0, "")?;
    disk.nodes.push(("device", device))?;
    let done = (ExitCode::SUCCESS, ACKNOWLEDGED, "");
    let made =
        "create a.ack\nwrite a.ack\nwrite a.ack\nwrite a.ack\nsync a.ack\nopen device\nsync device\nrename a.ack\nsync .\n";
    let held = ("device", Text::Register(1));
    expect_calls(&rt, &["--to", "device", "a"], &disk, done, made, held)
}

/// A directory is a file that cannot be opened. The register is kept all the same, and nothing lies beside the
/// directory.
#[test]
fn writes_no_acknowledgement_over_a_directory(rt: HostRuntime) -> Result<(), Fail> {
    let mut disk = disk(rt.alloc(), &[("a.ack", b""), ("book", b"older")], 0, "")?;
    disk.nodes.push(("a.ack", Metadata::of_dir()))?;
    let told = "a: stopped after 1: write after 0 bytes\n";
    let stopped = (ExitCode::FAILURE, told, "");
    let made = "lock book.lock\ncreate book\nwrite book\nsync book\nrename book\nsync .\n";
    let held = ("book", Text::Register(1));
    expect_calls(&rt, &["--to", "book", "a"], &disk, stopped, made, held)
}

/// What is replaced is the register that the link leads to, and its lock and its draft lie beside that.
#[test]
fn follows_a_link_to_a_register(rt: HostRuntime) -> Result<(), Fail> {
    let disk = disk(rt.alloc(), &[("a.ack", OLDER), ("book", b"older")], 0, "")?;
    let done = (ExitCode::SUCCESS, ACKNOWLEDGED, "");
    let made =
        "lock book.lock\ncreate a.ack\nwrite a.ack\nwrite a.ack\nwrite a.ack\nsync a.ack\ncreate book\nwrite book\nsync book\nrename book\nsync .\nrename a.ack\nsync .\n";
    let held = ("book", Text::Register(1));
    expect_calls(&rt, &["--to", "linked", "a"], &disk, done, made, held)
}

/// Runs the file `a` and another over a disk that refuses one call. By a link both are one file of the system. There
/// are eight calls that write the drafts, and two that put them on disk, on threads. `rt` starts threads and waits.
/// `other` has the names of the other file and of its acknowledgement, and `refused` is the number of the refused call,
/// from 1. `complained` is what must be on standard error, and `end` the calls that must follow the first ten.
fn expect_two<T: AllocGlobal + Files + Threads + Wait + Sync>(
    rt: &T,
    other: (&str, &str),
    refused: usize,
    complained: &str,
    end: &str,
) -> Result<(), Fail> {
    let status = if refused == 0 {
        ExitCode::SUCCESS
    } else {
        ExitCode::FAILURE
    };
    let files = [("a.ack", OLDER), (other.1, OLDER)];
    let mut disk = disk(rt.alloc(), &files, refused, "")?;
    let device = fs::metadata(rt, "/dev/null")?;
    disk.nodes.push((other.0, device.clone()?))?;
    disk.nodes.push(("a", device))?;
    expect_two_on(rt, other, &disk, (status, complained), end)
}

/// The same on this disk. `rt` starts threads and waits, and `other` has the names of the other file and of its
/// acknowledgement. `disk` has the acknowledgements, `ended` is the status and standard error that the run must have,
/// and `end` has the calls that must follow the first ten.
fn expect_two_on<T: AllocGlobal + Threads + Wait + Sync>(
    rt: &T,
    other: (&str, &str),
    disk: &Disk,
    ended: (ExitCode, &str),
    end: &str,
) -> Result<(), Fail> {
    let (file, answer) = other;
    run_in_turn(rt, file, disk, ended)?;
    expect_both(rt.alloc(), disk, answer)?;
    expect_end(disk, end)
}

/// Runs the file `a` and this other one over a disk. Both must be acknowledged, and the status and standard error must
/// be these.
fn run_in_turn<T: AllocGlobal + Threads + Wait + Sync>(
    rt: &T,
    file: &str,
    disk: &Disk,
    ended: (ExitCode, &str),
) -> Result<(), Fail> {
    let alloc = rt.alloc();
    let input = plain_file(alloc)?;
    let held = FakeFile::Holds(&input);
    let words = run_with(alloc, &["--in-turn", "a", file])?;
    let printed = format!(in alloc; "a: acknowledged 1\n{file}: acknowledged 1\n")?;
    let (status, complained) = ended;
    let ended = (status, printed.as_str(), complained);
    expect_on(rt, &words, &[("a", held), (file, held)], disk, ended)
}

/// Both acknowledgements must have their names, and no draft.
fn expect_both(alloc: Global, disk: &Disk, other: &str) -> Result<(), Fail> {
    expect_text(alloc, disk, "a.ack", Text::Answer("AS"))?;
    expect_text(alloc, disk, other, Text::Answer("DU"))?;
    expect_draft(disk, "a.ack", "a draft", false)?;
    expect_draft(disk, other, "another", false)
}

/// These must be the calls behind the first ten.
fn expect_end(disk: &Disk, end: &str) -> Result<(), Fail> {
    let made = disk.calls.made()?;
    let calls = 10usize.saturating_add(end.lines().count());
    same("the number of calls", &made.lines().count(), &calls)?;
    same("the last calls", &made.ends_with(end), &true)
}

/// The names of one folder are put on disk together.
#[test]
fn puts_a_folder_on_the_disk_once(rt: HostRuntime) -> Result<(), Fail> {
    let other = ("b", "b.ack");
    let end = "rename a.ack\nrename b.ack\nsync .\n";
    expect_two(&rt, other, 0, "", end)?;
    let refused = "a.ack: not in place\nb.ack: not in place\n";
    expect_two(&rt, other, 13, refused, end)
}

/// If one of two folders cannot be put on disk, that is reported of the names in it alone.
#[test]
fn puts_each_folder_on_the_disk(rt: HostRuntime) -> Result<(), Fail> {
    let other = ("in/b", "in/b.ack");
    let end = "rename a.ack\nrename in/b.ack\nsync .\nsync .\n";
    expect_two(&rt, other, 0, "", end)?;
    expect_two(&rt, other, 13, "a.ack: not in place\n", end)?;
    expect_two(&rt, other, 14, "in/b.ack: not in place\n", end)
}
