//! The options of a run, as a command line gives them.

use std::alloc::Global;
use std::process::ExitCode;
use std::sync::Wait;
use std::test::Fail;
use std::thread::Threads;
use test_files::{acknowledgement, file_of_lines, one_answer, plain_file};
use test_program::{Fake, FakeFile, KeptFile, expect, expect_held, expect_program, keeping};

/// An acknowledgement of society 000 as society 007 gives it.
fn of_society_7(alloc: Global, text: &[u8]) -> Result<Vec<u8>, Fail> {
    let rest = text.get(14..).ok_or("a header")?;
    let mut bytes = Vec::from_slice(alloc, b"HDRSO000000007")?;
    bytes.extend_from_slice(rest)?;
    Ok(bytes)
}

/// Acknowledges two files as society 007: one of one work, and one without a transaction.
fn run_as_society_7<'a, T: AllocGlobal + Threads + Wait + Sync>(
    rt: &T,
    one_work: &'a [u8],
    no_work: &'a [u8],
    kept: &[KeptFile],
) -> Result<(), Fail> {
    let words = [
        "purvilgo",
        "run",
        "--society",
        "007",
        "--name",
        "CWR REGISTRY",
        "--date",
        "20240601",
        "--time",
        "090000",
        "a.v22",
        "b.v22",
    ];
    let files = [
        ("a.v22", FakeFile::Holds(one_work)),
        ("b.v22", FakeFile::Holds(no_work)),
    ];
    let told = "a.v22: acknowledged 1\nb.v22: acknowledged 0\n";
    expect(rt, &words, &files, kept, ExitCode::SUCCESS, told, "")
}

/// Makes these two files and acknowledges them.
fn run_two<T: AllocGlobal + Threads + Wait + Sync>(rt: &T, kept: &[KeptFile]) -> Result<(), Fail> {
    let one_work = plain_file(rt.alloc())?;
    let no_work = file_of_lines(rt.alloc(), &["TRL000000000000000000002"])?;
    run_as_society_7(rt, &one_work, &no_work, kept)
}

/// A file must hold this acknowledgement as society 007 gives it.
fn expect_of_society_7(alloc: Global, file: &KeptFile, text: &[u8]) -> Result<(), Fail> {
    let wanted = of_society_7(alloc, text)?;
    expect_held(file, &wanted)
}

/// The files must hold the acknowledgements of one work and of none.
fn expect_answers(alloc: Global, kept: &[KeptFile; 2]) -> Result<(), Fail> {
    let one = one_answer(alloc, "AS")?;
    let none = acknowledgement(alloc, &[])?;
    expect_of_society_7(alloc, &kept[0], &one)?;
    expect_of_society_7(alloc, &kept[1], &none)
}

/// The acknowledgements have the value of each option of the stamp in its place, beside `CWR REGISTRY`, 1 June 2024 and
/// 09:00:00.
#[test]
fn reads_the_words_of_a_run(rt: HostRuntime) -> Result<(), Fail> {
    let alloc = rt.alloc();
    let one = keeping(alloc, "a.v22.ack", b"", 1000)?;
    let none = keeping(alloc, "b.v22.ack", b"", 1000)?;
    let kept = [one, none];
    run_two(&rt, &kept)?;
    expect_answers(alloc, &kept)
}

#[test]
fn tells_what_is_wrong_with_a_run(rt: HostRuntime) -> Result<(), Fail> {
    for (society, file, wanted) in [
        ("7", "b", "bad --society\n"),
        ("007", "a.ack", "file named twice\n"),
    ] {
        let words = [
            "purvilgo",
            "run",
            "--society",
            society,
            "--name",
            "X",
            "--date",
            "20240601",
            "--time",
            "090000",
            "a",
            file,
        ];
        let fake = Fake::new(&rt, &words, b"");
        expect_program(fake, ExitCode::from(2), b"", wanted)?;
    }
    Ok(())
}
