//! Runs whose words would use one file twice, by its name, by another path or by a link.

use std::alloc::Global;
use std::fs;
use std::fs::Metadata;
use std::process::ExitCode;
use std::rt::Files;
use std::sync::Wait;
use std::test::Fail;
use std::thread::Threads;
use test_files::plain_file;
use test_program::{Fake, FakeFile, KeptFile, expect_held, expect_program, keeping, run_with};

const USED_TWICE: &str = "file used twice\n";

/// Files of these names that hold this text so far.
fn all_keeping<'a>(
    alloc: Global,
    names: &[&'a str],
    text: &[u8],
) -> Result<Vec<KeptFile<'a>>, Fail> {
    let mut kept = Vec::new(alloc);
    for name in names {
        kept.push(keeping(alloc, name, text, 1000)?)?;
    }
    Ok(kept)
}

/// Files that hold a text which a run would write over.
const OLDER: [&str; 4] = ["a", "a.ack", "b.ack", "book"];

/// The files must hold what they held.
fn expect_untouched(kept: &[KeptFile]) -> Result<(), Fail> {
    for file in kept {
        expect_held(file, b"older")?;
    }
    Ok(())
}

/// Runs with names of which two are one file. `rt` starts threads and waits, and `more` are the words behind the
/// stamp's. `kept` has the files that can be written. `nodes` and `links` are what the system says of names.
fn expect_twice<T: AllocGlobal + Threads + Wait + Sync>(
    rt: &T,
    more: &[&str],
    kept: &[KeptFile],
    nodes: &[(&str, Metadata)],
    links: &[(&str, &str)],
) -> Result<(), Fail> {
    let words = run_with(rt.alloc(), more)?;
    let fake = Fake::new(rt, &words, b"")
        .with_files(&[], kept)
        .with_names(nodes, links);
    expect_program(fake, ExitCode::from(2), b"", USED_TWICE)
}

#[test]
fn writes_no_register_over_a_file(rt: HostRuntime) -> Result<(), Fail> {
    let kept = all_keeping(rt.alloc(), &OLDER, b"older")?;
    let cases: [&[&str]; 10] = [
        &["--to", "a", "a", "b"],
        &["--to", "b", "a", "b"],
        &["--to", "a.ack", "a", "b"],
        &["--to", "b.ack", "a", "b"],
        &["--from", "b.ack", "a", "b"],
        &["--from", "b.ack", "--to", "book", "a", "b"],
        &["--to", "book", "a", "book.new"],
        &["--to", "book", "a", "book.lock"],
        &["--from", "book.lock", "--to", "book", "a", "b"],
        &["a", "b", "a.ack.new"],
    ];
    for more in cases {
        expect_twice(&rt, more, &kept, &[], &[])?;
    }
    expect_untouched(&kept)
}

/// Two files of the system that are not one.
fn two_nodes<T: Files>(rt: &T) -> Result<(Metadata, Metadata), Fail> {
    Ok((fs::metadata(rt, "/")?, fs::metadata(rt, "/dev/null")?))
}

/// These names, each with what the system says of it.
fn nodes_of<'a>(
    alloc: Global,
    names: &[(&'a str, &Metadata)],
) -> Result<Vec<(&'a str, Metadata)>, Fail> {
    let mut nodes = Vec::new(alloc);
    for &(name, node) in names {
        nodes.push((name, node.clone()?))?;
    }
    Ok(nodes)
}

/// Runs where the system says that two names are one file, and another name is not. `rt` starts threads and waits, and
/// `more` are the words behind the stamp's. `kept` has the files that can be written. `one` is the node of both
/// `names`, and `other` another. `links` are the names that are links.
fn expect_one_file<T: AllocGlobal + Threads + Wait + Sync>(
    rt: &T,
    more: &[&str],
    kept: &[KeptFile],
    (one, other): (&Metadata, &Metadata),
    names: [&str; 2],
    links: &[(&str, &str)],
) -> Result<(), Fail> {
    let [name, same] = names;
    let names = [("unrelated", other), (name, one), (same, one)];
    let nodes = nodes_of(rt.alloc(), &names)?;
    expect_twice(rt, more, kept, &nodes, links)
}

/// Each run names an existing file twice, by what the system says.
#[test]
fn knows_a_file_by_another_name(rt: HostRuntime) -> Result<(), Fail> {
    let kept = all_keeping(rt.alloc(), &OLDER, b"older")?;
    let (one, other) = two_nodes(&rt)?;
    let cases: [(&[&str], [&str; 2]); 7] = [
        (&["a", "in/b"], ["a", "in/b.ack"]),
        (&["a", "in/b"], ["in/b", "a.ack"]),
        (&["a", "in/b"], ["a.ack", "in/b.ack"]),
        (&["a"], ["a", "a.ack"]),
        (&["--to", "book", "a"], ["a", "book"]),
        (&["--to", "book", "a"], ["a.ack", "book"]),
        (&["--from", "book", "a"], ["a.ack", "book"]),
    ];
    for (more, names) in cases {
        expect_one_file(&rt, more, &kept, (&one, &other), names, &[])?;
    }
    expect_untouched(&kept)
}

/// A directory by two names.
fn here_twice<'a, T: AllocGlobal + Files>(rt: &T) -> Result<Vec<(&'a str, Metadata)>, Fail> {
    let (here, _) = two_nodes(rt)?;
    nodes_of(rt.alloc(), &[(".", &here), ("../here", &here)])
}

/// Each run would make one file twice, by what the system says of its directory.
#[test]
fn knows_a_file_that_is_not_there_yet(rt: HostRuntime) -> Result<(), Fail> {
    let kept = all_keeping(rt.alloc(), &OLDER, b"older")?;
    let nodes = here_twice(&rt)?;
    let links = [("book", "next"), ("next", "a.ack")];
    let cases: [&[&str]; 4] = [
        &["--to", "./a.ack", "a"],
        &["--to", "../here/a.ack", "a"],
        &["a", "../here/a"],
        &["--to", "book", "a"],
    ];
    for more in cases {
        expect_twice(&rt, more, &kept, &nodes, &links)?;
    }
    expect_untouched(&kept)
}

/// Each run would write a draft or a lock over what it reads or writes, by what the system says of names and of links.
#[test]
fn knows_the_place_of_a_draft_and_of_a_lock(rt: HostRuntime) -> Result<(), Fail> {
    let kept = all_keeping(rt.alloc(), &OLDER, b"older")?;
    let (here, other) = two_nodes(&rt)?;
    let links = [("linked", "book")];
    let cases: [(&[&str], &str); 9] = [
        (&["--to", "book", "a", "./book.new"], "."),
        (&["--to", "book", "a", "./book.lock"], "."),
        (&["--from", "./book.new", "--to", "book", "a"], "."),
        (&["--from", "./book.lock", "--to", "linked", "a"], "."),
        (&["a", "./a.ack.new"], "."),
        (&["--from", "./a.ack.new", "a"], "."),
        (&["--to", "./a.ack.new", "a"], "."),
        (&["--to", "book", "a"], "book.new"),
        (&["--to", "book", "a"], "book.lock"),
    ];
    for (more, name) in cases {
        expect_one_file(&rt, more, &kept, (&here, &other), ["a", name], &links)?;
    }
    expect_untouched(&kept)
}

/// Runs that acknowledge the file `a`. `rt` starts threads and waits, and `more` are the words behind the stamp's.
/// `files` can only be read, and `kept` can be written. `nodes` are what the system says of names.
fn expect_acknowledged<T: AllocGlobal + Threads + Wait + Sync>(
    rt: &T,
    more: &[&str],
    files: &[(&str, FakeFile)],
    kept: &[KeptFile],
    nodes: &[(&str, Metadata)],
) -> Result<(), Fail> {
    let words = run_with(rt.alloc(), more)?;
    let fake = Fake::new(rt, &words, b"")
        .with_files(files, kept)
        .with_names(nodes, &[]);
    expect_program(fake, ExitCode::SUCCESS, b"a: acknowledged 1\n", "")
}

/// An acknowledgement that is one with its draft.
fn own_draft<'a, T: AllocGlobal + Files>(rt: &T) -> Result<Vec<(&'a str, Metadata)>, Fail> {
    let (_, node) = two_nodes(rt)?;
    nodes_of(rt.alloc(), &[("a.ack", &node), ("a.ack.new", &node)])
}

/// A draft may be one with the file that it replaces: it is made again.
#[test]
fn lets_a_draft_be_its_own_file(rt: HostRuntime) -> Result<(), Fail> {
    let input = plain_file(rt.alloc())?;
    let kept = all_keeping(rt.alloc(), &["a.ack"], b"older")?;
    let nodes = own_draft(&rt)?;
    let files = [("a", FakeFile::Holds(&input))];
    expect_acknowledged(&rt, &["a"], &files, &kept, &nodes)
}

/// Two directories, and files of which none is another that is written.
fn other_files<'a, T: AllocGlobal + Files>(rt: &T) -> Result<Vec<(&'a str, Metadata)>, Fail> {
    let (one, other) = two_nodes(rt)?;
    let names = [
        (".", &one),
        ("out", &other),
        ("a", &one),
        ("before", &other),
        ("out/a.ack", &other),
    ];
    nodes_of(rt.alloc(), &names)
}

/// Files of other names, other directories and other numbers are not one, and `--from` and `--to` may be.
#[test]
fn lets_other_files_be(rt: HostRuntime) -> Result<(), Fail> {
    let input = plain_file(rt.alloc())?;
    let kept = all_keeping(rt.alloc(), &["a.ack", "out/a.ack"], b"")?;
    let nodes = other_files(&rt)?;
    let files = [
        ("a", FakeFile::Holds(&input)),
        ("before", FakeFile::Holds(b"REG00000000\n")),
    ];
    let words = ["--from", "before", "--to", "out/a.ack", "a"];
    expect_acknowledged(&rt, &words, &files, &kept, &nodes)
}
