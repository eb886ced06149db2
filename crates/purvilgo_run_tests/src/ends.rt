//! Which of several files fails, and the outcome of the others.

use crate::files::kept_files;
use std::alloc::Global;
use std::process::ExitCode;
use std::sync::Wait;
use std::test::Fail;
use std::thread::Threads;
use test_comparisons::same;
use test_files::{OTHER_SENDER, SENDER, acknowledgement, decision, miscounted, one_work};
use test_program::{
    FakeFile, Given, Kept, KeptFile, Step, Text, expect, expect_held, expect_play, run_with,
};

/// Files of three directories.
const NAMES: [&str; 3] = ["first.v22", "in/middle", "out/last"];

/// The acknowledgements of the files of these names, which are empty so far.
const EMPTY: [(&str, &[u8], usize); 3] = [
    ("first.v22.ack", b"", 1000),
    ("in/middle.ack", b"", 1000),
    ("out/last.ack", b"", 1000),
];

/// Files of one work each, of three submitters.
fn three_files(alloc: Global) -> Result<Vec<Vec<u8>>, Fail> {
    let shares = ["05000", "05000"];
    let mut files = Vec::new(alloc);
    for sender in [SENDER, OTHER_SENDER, "000000789"] {
        files.push(one_work(alloc, sender, "NWR", "W1", "", shares)?)?;
    }
    Ok(files)
}

/// The three files, in which the one at this place, if any, is another.
fn all_but<'a>(
    alloc: Global,
    files: &'a [Vec<u8>],
    wrong: &'a [u8],
    place: usize,
) -> Result<Vec<(&'a str, FakeFile<'a>)>, Fail> {
    let mut held = Vec::new(alloc);
    for (index, (name, file)) in NAMES.iter().zip(files).enumerate() {
        let bytes: &[u8] = if index == place { wrong } else { file };
        held.push((*name, FakeFile::Holds(bytes)))?;
    }
    Ok(held)
}

/// What is printed of the three files, of which the one at this place, if any, is refused.
fn told_of_all_but(alloc: Global, place: usize) -> Result<String, Fail> {
    let mut told = String::new(alloc);
    for (index, name) in NAMES.iter().enumerate() {
        tell(&mut told, name, index == place)?;
    }
    Ok(told)
}

fn tell(told: &mut String, name: &str, is_wrong: bool) -> Result<(), Fail> {
    told.push_str(name)?;
    told.push_str(if is_wrong {
        ": refused F9 at line 5\n"
    } else {
        ": acknowledged 1\n"
    })?;
    Ok(())
}

/// Runs these files in turn, of which the one at this place, if any, must be refused.
fn run_all_but<T: AllocGlobal + Threads + Wait + Sync>(
    rt: &T,
    held: &[(&str, FakeFile)],
    kept: &[KeptFile],
    place: usize,
) -> Result<(), Fail> {
    let status = if place < 3 {
        ExitCode::FAILURE
    } else {
        ExitCode::SUCCESS
    };
    let told = told_of_all_but(rt.alloc(), place)?;
    let words = run_with(
        rt.alloc(),
        &["--in-turn", "first.v22", "in/middle", "out/last"],
    )?;
    expect(rt, &words, held, kept, status, &told, "")
}

/// A file must hold the acknowledgement of one new work, which has this number.
fn expect_answer(alloc: Global, file: &KeptFile, work: u32) -> Result<(), Fail> {
    let work = format!(in alloc; "{work:08}")?;
    let wanted = acknowledgement(alloc, &[decision(0, "NWR", "W1", &work, "AS", &[])])?;
    expect_held(file, &wanted)
}

/// The file at this place, if any, must be empty, and each other must hold the acknowledgement of the next work.
fn expect_answers(alloc: Global, kept: &[KeptFile], place: usize) -> Result<(), Fail> {
    let mut works: u32 = 0;
    for (index, file) in kept.iter().enumerate() {
        if index == place {
            expect_held(file, b"")?;
        } else {
            works = works.saturating_add(1);
            expect_answer(alloc, file, works)?;
        }
    }
    same("works", &works, &(if place < 3 { 2 } else { 3 }))
}

/// Runs the three files in turn. The one at this place, if any, is not well-formed. It must be reported, and each other
/// file must be acknowledged in the file of its name and `.ack`.
fn expect_all_but<T: AllocGlobal + Threads + Wait + Sync>(
    rt: &T,
    files: &[Vec<u8>],
    wrong: &[u8],
    place: usize,
) -> Result<(), Fail> {
    let held = all_but(rt.alloc(), files, wrong, place)?;
    let kept = kept_files(rt.alloc(), &EMPTY)?;
    run_all_but(rt, &held, &kept, place)?;
    expect_answers(rt.alloc(), &kept, place)
}

#[test]
fn tells_which_of_three_files_fails(rt: HostRuntime) -> Result<(), Fail> {
    let files = three_files(rt.alloc())?;
    let wrong = miscounted(rt.alloc())?;
    for place in 0..4 {
        expect_all_but(&rt, &files, &wrong, place)?;
    }
    Ok(())
}

/// A second read would find the rest of the file.
#[test]
fn reads_no_more_of_a_file_that_fails(rt: HostRuntime) -> Result<(), Fail> {
    let empty = Text::Bytes(b"");
    expect_play(
        &rt,
        &[("a", Given::Breaks(Text::Plain))],
        &[Kept::new("a.ack", empty)],
        &[
            Step::of(&["check", "a"])
                .ends(1)
                .complains("stopped: read\n"),
            Step::run(&["a"])
                .ends(1)
                .prints("a: stopped after 0: read\n")
                .leaves(&[("a.ack", empty)]),
        ],
    )
}
