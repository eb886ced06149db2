//! Runs that replace no acknowledgement, and runs in turn and in order.

use purvilgo_command::run_program;
use std::alloc::Global;
use std::fs;
use std::fs::Metadata;
use std::process::ExitCode;
use std::rt::Files;
use std::sync::Wait;
use std::test::Fail;
use std::thread::Threads;
use test_comparisons::same;
use test_files::plain_file;
use test_program::{
    Fake, FakeFile, Given, Kept, KeptFile, Step, Text, expect_held, expect_play, expect_program,
    keeping, run_with,
};

/// The acknowledgements and the register of a run, and what they hold so far.
const BEFORE: [(&str, &[u8]); 3] = [("a.ack", b"older"), ("b.ack", b""), ("book", b"older")];

/// These files.
fn kept_before<'a>(alloc: Global) -> Result<Vec<KeptFile<'a>>, Fail> {
    let mut kept = Vec::new(alloc);
    for (name, text) in BEFORE {
        kept.push(keeping(alloc, name, text, 1000)?)?;
    }
    Ok(kept)
}

/// The files must hold what they held.
fn expect_as_before(kept: &[KeptFile]) -> Result<(), Fail> {
    for (file, (_, text)) in kept.iter().zip(&BEFORE) {
        expect_held(file, text)?;
    }
    Ok(())
}

/// Runs the program, which must fail. `rt` starts threads and waits, and `words` is the command line. `files` can only
/// be read, and `kept` can be written. `nodes` and `links` are what the system says of names. `complained` is what must
/// be on standard error.
fn expect_over<T: AllocGlobal + Threads + Wait + Sync>(
    rt: &T,
    words: &[&str],
    files: &[(&str, FakeFile)],
    kept: &[KeptFile],
    nodes: &[(&str, Metadata)],
    links: &[(&str, &str)],
    complained: &str,
) -> Result<(), Fail> {
    let fake = Fake::new(rt, words, b"")
        .with_files(files, kept)
        .with_names(nodes, links);
    expect_program(fake, ExitCode::FAILURE, b"", complained)
}

/// Runs the files `a` and `b`, which must fail. `rt` starts threads and waits, and `kept` has the files that can be
/// written. `nodes` and `links` are what the system says of names. `complained` is what must be on standard error.
fn expect_there<T: AllocGlobal + Threads + Wait + Sync>(
    rt: &T,
    kept: &[KeptFile],
    nodes: &[(&str, Metadata)],
    links: &[(&str, &str)],
    complained: &str,
) -> Result<(), Fail> {
    let words = run_with(
        rt.alloc(),
        &["--no-clobber", "--from", "absent", "--to", "book", "a", "b"],
    )?;
    let input = plain_file(rt.alloc())?;
    let files = [
        ("a", FakeFile::Holds(&input)),
        ("b", FakeFile::Holds(&input)),
    ];
    expect_over(rt, &words, &files, kept, nodes, links, complained)
}

/// One of the two acknowledgements exists.
fn expect_one_there<T: AllocGlobal + Files + Threads + Wait + Sync>(
    rt: &T,
    kept: &[KeptFile],
) -> Result<(), Fail> {
    let one = [("a.ack", fs::metadata(rt, "/")?)];
    expect_there(rt, kept, &one, &[], "a.ack: is there already\n")
}

/// Both acknowledgements exist.
fn expect_both_there<T: AllocGlobal + Files + Threads + Wait + Sync>(
    rt: &T,
    kept: &[KeptFile],
) -> Result<(), Fail> {
    let there = fs::metadata(rt, "/")?;
    let other = fs::metadata(rt, "/dev/null")?;
    let both = [("b.ack", other), ("a.ack", there)];
    let complained = "a.ack: is there already\nb.ack: is there already\n";
    expect_there(rt, kept, &both, &[], complained)
}

/// Runs with one acknowledgement, with a link in the place of the other, and with both.
fn expect_all_there<T: AllocGlobal + Files + Threads + Wait + Sync>(
    rt: &T,
    kept: &[KeptFile],
) -> Result<(), Fail> {
    let links = [("b.ack", "nowhere")];
    expect_one_there(rt, kept)?;
    expect_there(rt, kept, &[], &links, "b.ack: is there already\n")?;
    expect_both_there(rt, kept)
}

/// The register is not read either: it does not exist, and nothing is printed of it.
#[test]
fn leaves_acknowledgements_that_are_there(rt: HostRuntime) -> Result<(), Fail> {
    let kept = kept_before(rt.alloc())?;
    expect_all_there(&rt, &kept)?;
    expect_as_before(&kept)
}

const ACKNOWLEDGED: &str = "a: acknowledged 1\n";

#[test]
fn makes_acknowledgements_that_are_not_there(rt: HostRuntime) -> Result<(), Fail> {
    expect_play(
        &rt,
        &[("a", Given::Holds(Text::Plain))],
        &[Kept::new("a.ack", Text::Bytes(b""))],
        &[
            Step::run(&["--no-clobber", "a"])
                .prints(ACKNOWLEDGED)
                .leaves(&[("a.ack", Text::Answer("AS"))]),
        ],
    )
}

/// The acknowledgement did not exist when the run began, and does when it is to be written.
#[test]
fn leaves_an_acknowledgement_that_came_in_between(rt: HostRuntime) -> Result<(), Fail> {
    let older = Text::Bytes(b"older");
    expect_play(
        &rt,
        &[("a", Given::Holds(Text::Plain))],
        &[Kept::new("a.ack", older)],
        &[
            Step::run(&["--no-clobber", "a"])
                .ends(1)
                .prints("a: stopped after 1: write after 0 bytes\n")
                .leaves(&[("a.ack", older)]),
        ],
    )
}

/// Of two claims to one work that of the file named first is accepted, each time.
#[test]
fn runs_files_in_turn(rt: HostRuntime) -> Result<(), Fail> {
    let older = Text::Bytes(b"older");
    let accepted = Text::Answer("AS");
    let conflict = Text::Answer("CO");
    expect_play(
        &rt,
        &[
            ("a", Given::Holds(Text::FirstClaim)),
            ("b", Given::Holds(Text::SecondClaim)),
        ],
        &[Kept::new("a.ack", older), Kept::new("b.ack", older)],
        &[
            Step::run(&["--in-turn", "a", "b"])
                .prints("a: acknowledged 1\nb: acknowledged 1\n")
                .leaves(&[("a.ack", accepted), ("b.ack", conflict)]),
            Step::run(&["--in-turn", "b", "a"])
                .prints("b: acknowledged 1\na: acknowledged 1\n")
                .leaves(&[("a.ack", conflict), ("b.ack", accepted)]),
            Step::run(&["b", "--in-turn", "absent", "a"])
                .ends(1)
                .prints("b: acknowledged 1\nabsent: stopped after 0: read\na: acknowledged 1\n")
                .leaves(&[("a.ack", conflict), ("b.ack", accepted)]),
        ],
    )
}

/// The same in order.
#[test]
fn runs_files_in_order(rt: HostRuntime) -> Result<(), Fail> {
    let older = Text::Bytes(b"older");
    let accepted = Text::Answer("AS");
    let conflict = Text::Answer("CO");
    expect_play(
        &rt,
        &[
            ("a", Given::Holds(Text::FirstClaim)),
            ("b", Given::Holds(Text::SecondClaim)),
        ],
        &[Kept::new("a.ack", older), Kept::new("b.ack", older)],
        &[
            Step::run(&["--in-order", "a", "b"])
                .prints("a: acknowledged 1\nb: acknowledged 1\n")
                .leaves(&[("a.ack", accepted), ("b.ack", conflict)]),
            Step::run(&["b", "--in-order", "absent", "a"])
                .ends(1)
                .prints("b: acknowledged 1\nabsent: stopped after 0: read\na: acknowledged 1\n")
                .leaves(&[("a.ack", conflict), ("b.ack", accepted)]),
        ],
    )
}

/// Nothing is printed on standard output, and standard error names one of the options.
#[test]
fn is_not_run_in_turn_and_in_order(rt: HostRuntime) -> Result<(), Fail> {
    let words = run_with(rt.alloc(), &["--in-turn", "--in-order", "a"])?;
    let fake = Fake::new(&rt, &words, b"");
    let ended = run_program(&fake);
    let (printed, told) = fake.into_texts();
    same("--in-order", &told.contains("--in-order"), &true)?;
    same("bytes printed", &printed.len(), &0)?;
    same("its status", &ended, &ExitCode::from(2))
}
