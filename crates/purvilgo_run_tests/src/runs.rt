//! The program's runs, over a runtime of the tests' own.

use crate::files::{file_named, kept_files, numbered};
use std::alloc::Global;
use std::process::ExitCode;
use std::sync::Wait;
use std::test::Fail;
use std::thread::Threads;
use test_comparisons::{same, same_bytes};
use test_files::{miscounted, one_answer, plain_file, rival_claims};
use test_program::{
    FakeFile, Given, Kept, KeptFile, Step, Text, expect, expect_held, expect_play, run_with,
};

/// Whether a file holds this text.
fn holds(file: &KeptFile, text: &[u8]) -> Result<bool, Fail> {
    let held = file.bytes.try_lock().ok_or("a file that nobody holds")?;
    Ok(held.as_slice() == text)
}

/// The acknowledgement has 425 bytes, and all of them go out.
#[test]
fn acknowledges_a_file_beside_it(rt: HostRuntime) -> Result<(), Fail> {
    let beside = Kept {
        name: "a.v22.ack",
        held: Text::Bytes(b"an older acknowledgement"),
        room: 425,
    };
    expect_play(
        &rt,
        &[("a.v22", Given::Holds(Text::Plain))],
        &[beside],
        &[
            Step::run(&["a.v22"])
                .prints("a.v22: acknowledged 1\n")
                .leaves(&[("a.v22.ack", Text::Answer("AS"))]),
        ],
    )
}

/// Runs the files `b` and `a` at once: both must be acknowledged.
fn run_two<'a, T: AllocGlobal + Threads + Wait + Sync>(
    rt: &T,
    a: &'a [u8],
    b: &'a [u8],
    kept: &[KeptFile],
) -> Result<(), Fail> {
    let words = run_with(rt.alloc(), &["b", "a"])?;
    let files = [("a", FakeFile::Holds(a)), ("b", FakeFile::Holds(b))];
    let told = "b: acknowledged 1\na: acknowledged 1\n";
    expect(rt, &words, &files, kept, ExitCode::SUCCESS, told, "")
}

/// One of these files must hold the one text, and the other the other.
fn expect_either(kept: &[KeptFile], accepted: &[u8], conflict: &[u8]) -> Result<(), Fail> {
    let one = file_named(kept, "a.ack")?;
    let other = file_named(kept, "b.ack")?;
    let (wanted_one, wanted_other) = if holds(one, accepted)? {
        (accepted, conflict)
    } else {
        (conflict, accepted)
    };
    expect_held(one, wanted_one)?;
    expect_held(other, wanted_other)
}

/// One of these acknowledgements must accept, and the other report a conflict.
fn expect_one_conflict(alloc: Global, kept: &[KeptFile]) -> Result<(), Fail> {
    let accepted = one_answer(alloc, "AS")?;
    let conflict = one_answer(alloc, "CO")?;
    expect_either(kept, &accepted, &conflict)
}

#[test]
fn one_of_two_claims_conflicts(rt: HostRuntime) -> Result<(), Fail> {
    let alloc = rt.alloc();
    let claims = rival_claims(alloc)?;
    let [first, second] = &claims;
    let empty = [("a.ack", b"".as_slice(), 1000), ("b.ack", b"", 1000)];
    let kept = kept_files(alloc, &empty)?;
    run_two(&rt, first, second, &kept)?;
    expect_one_conflict(alloc, &kept)
}

/// Runs files of which all but the last fail, each in another way.
fn run_failing<'a, T: AllocGlobal + Threads + Wait + Sync>(
    rt: &T,
    input: &'a [u8],
    wrong: &'a [u8],
    kept: &[KeptFile],
) -> Result<(), Fail> {
    let words = run_with(
        rt.alloc(),
        &["absent", "refused", "closed", "cut", "endless", "whole"],
    )?;
    let files = [
        ("refused", FakeFile::Holds(wrong)),
        ("closed", FakeFile::Holds(input)),
        ("cut", FakeFile::Holds(input)),
        ("endless", FakeFile::Endless),
        ("whole", FakeFile::Holds(input)),
    ];
    let told =
        "absent: stopped after 0: read\nrefused: refused F9 at line 5\nclosed: stopped after 1: write after 0 bytes\ncut: stopped after 1: write after 100 bytes\nendless: stopped after 0: too long\nwhole: acknowledged 1\n";
    expect(rt, &words, &files, kept, ExitCode::FAILURE, told, "")
}

/// A file must hold nothing, and its draft the first 100 bytes of its acknowledgement.
fn expect_cut(file: &KeptFile, wanted: &[u8]) -> Result<(), Fail> {
    expect_held(file, b"")?;
    same("a draft", &file.has_draft(), &true)?;
    let draft = file.draft.try_lock().ok_or("a file that nobody holds")?;
    same_bytes(
        "the draft",
        draft.as_slice(),
        wanted.get(..100).ok_or("100 bytes")?,
    )
}

/// What files that failed and the last one must hold. `wanted` is the acknowledgement of the last one if it came first.
fn expect_failed(alloc: Global, kept: &[KeptFile], wanted: &[u8]) -> Result<(), Fail> {
    expect_held(file_named(kept, "refused.ack")?, b"older")?;
    expect_cut(file_named(kept, "cut.ack")?, wanted)?;
    let whole = file_named(kept, "whole.ack")?;
    let status = if holds(whole, wanted)? { "AS" } else { "DU" };
    expect_held(whole, &one_answer(alloc, status)?)
}

/// Runs files into these, which some of them cannot fill.
fn expect_going_on<T: AllocGlobal + Threads + Wait + Sync>(
    rt: &T,
    kept: &[KeptFile],
) -> Result<(), Fail> {
    let input = plain_file(rt.alloc())?;
    let wrong = miscounted(rt.alloc())?;
    run_failing(rt, &input, &wrong, kept)
}

#[test]
fn goes_on_after_files_that_fail(rt: HostRuntime) -> Result<(), Fail> {
    let alloc = rt.alloc();
    let wanted = one_answer(alloc, "AS")?;
    let before = [
        ("refused.ack", b"older".as_slice(), 1000),
        ("cut.ack", b"", 100),
        ("whole.ack", b"", 1000),
    ];
    let kept = kept_files(alloc, &before)?;
    expect_going_on(&rt, &kept)?;
    expect_failed(alloc, &kept, &wanted)
}

/// Runs files that do not exist. `rt` starts threads and waits, and `names` are those of the files. `status`, `printed`
/// and `complained` are the status, standard output and standard error that it must have.
fn run_absent<T: AllocGlobal + Threads + Wait + Sync>(
    rt: &T,
    names: &[String],
    status: ExitCode,
    printed: &str,
    complained: &str,
) -> Result<(), Fail> {
    let mut files = Vec::new(rt.alloc());
    for name in names {
        files.push(name.as_str())?;
    }
    let words = run_with(rt.alloc(), &files)?;
    expect(rt, &words, &[], &[], status, printed, complained)
}

/// What is printed of files of these names, none of which exists.
fn all_absent(alloc: Global, names: &[String]) -> Result<String, Fail> {
    let mut told = String::new(alloc);
    for name in names {
        told.push_str(name)?;
        told.push_str(": stopped after 0: read\n")?;
    }
    Ok(told)
}

fn takes_63<T: AllocGlobal + Threads + Wait + Sync>(rt: &T) -> Result<(), Fail> {
    let names = numbered(rt.alloc(), 64)?;
    let told = all_absent(rt.alloc(), &names)?;
    run_absent(rt, &names, ExitCode::FAILURE, &told, "")
}

fn refuses_64<T: AllocGlobal + Threads + Wait + Sync>(rt: &T) -> Result<(), Fail> {
    let names = numbered(rt.alloc(), 65)?;
    run_absent(rt, &names, ExitCode::from(2), "", "too many files\n")
}

#[test]
fn takes_63_files_and_no_more(rt: HostRuntime) -> Result<(), Fail> {
    takes_63(&rt)?;
    refuses_64(&rt)
}

/// Runs the files `a` and `b`, with another word at this place.
fn expect_wrong_word<T: AllocGlobal + Threads + Wait + Sync>(
    rt: &T,
    place: usize,
    word: &'static str,
    complained: &str,
) -> Result<(), Fail> {
    let mut words = run_with(rt.alloc(), &["a", "b"])?;
    let Some(wrong) = words.get_mut(place) else {
        return Err("twelve words".into());
    };
    *wrong = word;
    expect(rt, &words, &[], &[], ExitCode::from(2), "", complained)
}

/// One word of a run is another, and nothing is read.
#[test]
fn refuses_wrong_words(rt: HostRuntime) -> Result<(), Fail> {
    for (place, word, complained) in [
        (3, "7", "bad --society\n"),
        (5, "", "bad --name\n"),
        (7, "20240230", "bad --date\n"),
        (9, "240000", "bad --time\n"),
        (11, "a", "file named twice\n"),
        (11, "a.ack", "file named twice\n"),
    ] {
        expect_wrong_word(&rt, place, word, complained)?;
    }
    Ok(())
}

const NO_WORDS: &str =
    "error: the following required arguments were not provided:\n  --society <NNN>\n  --name <TEXT>\n  --date <YYYYMMDD>\n  --time <HHMMSS>\n  <FILE>...\n\nUsage: purvilgo run --society <NNN> --name <TEXT> --date <YYYYMMDD> --time <HHMMSS> <FILE>...\n\nFor more information, try '--help'.\n";

const NO_FILE: &str =
    "error: the following required arguments were not provided:\n  <FILE>...\n\nUsage: purvilgo run --society <NNN> --name <TEXT> --date <YYYYMMDD> --time <HHMMSS> <FILE>...\n\nFor more information, try '--help'.\n";

const FROM_TWICE: &str =
    "error: the argument '--from <REGISTER>' cannot be used multiple times\n\nUsage: purvilgo run [OPTIONS] --society <NNN> --name <TEXT> --date <YYYYMMDD> --time <HHMMSS> [FILE]...\n\nFor more information, try '--help'.\n";

const TO_TWICE: &str =
    "error: the argument '--to <REGISTER>' cannot be used multiple times\n\nUsage: purvilgo run [OPTIONS] --society <NNN> --name <TEXT> --date <YYYYMMDD> --time <HHMMSS> [FILE]...\n\nFor more information, try '--help'.\n";

#[test]
fn tells_how_a_run_is_called(rt: HostRuntime) -> Result<(), Fail> {
    expect_play(
        &rt,
        &[],
        &[],
        &[
            Step::of(&["run"]).ends(2).complains(NO_WORDS),
            Step::run(&[]).ends(2).complains(NO_FILE),
            Step::run(&["--from", "x", "--from", "y", "a"])
                .ends(2)
                .complains(FROM_TWICE),
            Step::run(&["--to", "x", "--to", "y", "a"])
                .ends(2)
                .complains(TO_TWICE),
        ],
    )
}
