//! What is wrong with the options of a run.

use run_options::{RunFault, WordsFault, run_fault, words_fault};
use std::test::Fail;
use test_comparisons::{same, same_text};

#[test]
fn tells_the_first_wrong_word() -> Result<(), Fail> {
    for (society, name, date, time, wanted) in [
        ("7", "", "20240230", "", Some(RunFault::Society)),
        ("0007", "X", "20240229", "090000", Some(RunFault::Society)),
        ("00A", "X", "20240229", "090000", Some(RunFault::Society)),
        ("007", "", "20240230", "090000", Some(RunFault::Name)),
        ("007", "A\tB", "20240229", "090000", Some(RunFault::Name)),
        (
            "007",
            "0123456789012345678901234567890123456789012345",
            "20240229",
            "090000",
            Some(RunFault::Name),
        ),
        ("007", "X", "20240230", "090000", Some(RunFault::Date)),
        ("007", "X", "2024022", "090000", Some(RunFault::Date)),
        ("007", "X", "202402290", "090000", Some(RunFault::Date)),
        ("007", "X", "20240229", "240000", Some(RunFault::Time)),
        ("007", "X", "20240229", "0900000", Some(RunFault::Time)),
        ("007", "X", "20240229", "090000", None),
        (
            "999",
            "012345678901234567890123456789012345678901234",
            "00010101",
            "235959",
            None,
        ),
    ] {
        let found = run_fault(society, name, date, time, &["a"]);
        same(name, &(society, found), &(society, wanted))?;
    }
    Ok(())
}

#[test]
fn tells_wrong_files() -> Result<(), Fail> {
    let fault = |files: &[&str]| run_fault("007", "X", "20240229", "090000", files);
    for (files, wanted) in [
        (["a"; 64].as_slice(), Some(RunFault::TooMany)),
        (["a"; 63].as_slice(), Some(RunFault::Twice)),
        (["a", "a"].as_slice(), Some(RunFault::Twice)),
        (["a", "a.ack"].as_slice(), Some(RunFault::Twice)),
        (["b", "a.ack", "c", "a"].as_slice(), Some(RunFault::Twice)),
        (["a", "b", "c", "b"].as_slice(), Some(RunFault::Twice)),
        (["a"].as_slice(), None),
        ([].as_slice(), None),
        (["a", "b.ack", "aa", "a.ac", ".ack"].as_slice(), None),
        (
            ["a", "a.ack.new", "a.new", "a.lock", "a.ack.lock"].as_slice(),
            None,
        ),
    ] {
        same(
            "files",
            &(files.len(), fault(files)),
            &(files.len(), wanted),
        )?;
    }
    Ok(())
}

#[test]
fn tells_registers_that_would_be_lost() -> Result<(), Fail> {
    let twice = Some(WordsFault::UsedTwice);
    for (from, to, wanted) in [
        (None, None, None),
        (Some("before"), Some("after"), None),
        (Some("book"), Some("book"), None),
        (Some("a"), None, None),
        (None, Some("a"), twice),
        (None, Some("b"), twice),
        (Some("a"), Some("a"), twice),
        (None, Some("a.ack"), twice),
        (None, Some("b.ack"), twice),
        (Some("b.ack"), None, twice),
        (Some("b.ack"), Some("after"), twice),
        (None, Some("a.ac"), None),
        (None, Some("a.ack.ack"), None),
        (Some("a.ack.new"), None, twice),
        (Some("b.ack.new"), Some("after"), twice),
        (None, Some("b.ack.new"), twice),
        (Some("book.new"), Some("book"), twice),
        (Some("book.lock"), Some("book"), twice),
        (Some("book"), Some("book.new"), None),
        (Some("book"), Some("book.lock"), None),
        (Some("book.new"), None, None),
        (Some("a.new"), Some("a.lock"), None),
    ] {
        let found = words_fault("007", "X", "20240229", "090000", &["a", "b"], from, to);
        same("registers", &(from, to, found), &(from, to, wanted))?;
    }
    for file in ["book.new", "book.lock"] {
        let run = |to| words_fault("007", "X", "20240229", "090000", &["a", file], None, to);
        same(file, &run(Some("book")), &twice)?;
        same(file, &run(Some("other")), &None)?;
    }
    for files in [["a", "a.ack.new"], ["a.ack.new", "a"]] {
        let found = words_fault("007", "X", "20240229", "090000", &files, None, None);
        same("a draft", &found, &twice)?;
    }
    let found = words_fault("007", "X", "20240229", "", &["a"], None, Some("a"));
    let wanted = Some(WordsFault::Run(RunFault::Time));
    same("a time before it", &found, &wanted)?;
    let found = words_fault(
        "007",
        "X",
        "20240229",
        "090000",
        &["a"; 64],
        None,
        Some("a"),
    );
    let wanted = Some(WordsFault::Run(RunFault::TooMany));
    same("too many before it", &found, &wanted)
}

#[test]
fn takes_63_files(rt: HostRuntime) -> Result<(), Fail> {
    let letters = "abcdefghijklmnopqrstuvwxyzABCDEFGHIJKLMNOPQRSTUVWXYZ0123456789-+";
    let mut files = Vec::new(rt.alloc());
    for index in 0..63usize {
        files.push(letters.get(index..index.wrapping_add(1)).ok_or("a letter")?)?;
    }
    same(
        "63 files",
        &run_fault("007", "X", "20240229", "090000", &files),
        &None,
    )
}

#[test]
fn names_what_is_wrong() -> Result<(), Fail> {
    for (fault, wanted) in [
        (RunFault::Society, "bad --society"),
        (RunFault::Name, "bad --name"),
        (RunFault::Date, "bad --date"),
        (RunFault::Time, "bad --time"),
        (RunFault::TooMany, "too many files"),
        (RunFault::Twice, "file named twice"),
    ] {
        same_text("a fault's text", fault.text(), wanted)?;
        same_text("the same", WordsFault::Run(fault).text(), wanted)?;
    }
    let used = WordsFault::UsedTwice.text();
    same_text("another fault's text", used, "file used twice")
}
