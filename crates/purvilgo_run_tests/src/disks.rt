//! Disks with an acknowledgement and a register, runs over them, and what is there after these.

use crate::files::file_named;
use std::alloc::Global;
use std::fs::Metadata;
use std::process::ExitCode;
use std::sync::Wait;
use std::test::Fail;
use std::thread::Threads;
use test_comparisons::{same, same_text};
use test_files::plain_file;
use test_program::{
    Calls, Disk, Fake, FakeFile, KeptFile, Text, expect_held, expect_program, keeping, register,
    run_with,
};

/// An acknowledgement of an earlier run.
pub(crate) const OLDER: &[u8] = b"an older acknowledgement";

/// What a run prints of the file `a`.
pub(crate) const ACKNOWLEDGED: &str = "a: acknowledged 1\n";

/// A file of this name that holds this text so far, and takes at most 1,000 bytes and 200 in one write.
pub(crate) fn in_chunks<'a>(
    alloc: Global,
    name: &'a str,
    text: &[u8],
) -> Result<KeptFile<'a>, Fail> {
    let mut file = keeping(alloc, name, text, 1000)?;
    file.chunk = 200;
    Ok(file)
}

/// The files of a disk.
pub(crate) fn all_in_chunks<'a>(
    alloc: Global,
    files: &[(&'a str, &[u8])],
) -> Result<Vec<KeptFile<'a>>, Fail> {
    let mut kept = Vec::new(alloc);
    for (name, text) in files {
        kept.push(in_chunks(alloc, name, text)?)?;
    }
    Ok(kept)
}

/// A disk with these files. The call with number `refused` is refused, and each call that does `always`.
pub(crate) fn disk<'a>(
    alloc: Global,
    files: &[(&'a str, &[u8])],
    refused: usize,
    always: &'static str,
) -> Result<Disk<'a>, Fail> {
    let files = all_in_chunks(alloc, files)?;
    Ok(Disk {
        files,
        calls: Calls::refusing(alloc, refused, always),
        nodes: Vec::new(alloc),
        links: &[("linked", "book")],
        locked: &["taken.lock"],
    })
}

/// A disk with an older acknowledgement and a register of one entry.
pub(crate) fn older<'a>(
    alloc: Global,
    refused: usize,
    always: &'static str,
) -> Result<Disk<'a>, Fail> {
    let book = register(alloc, 1)?;
    let files = [("a.ack", OLDER), ("book", book.as_bytes())];
    disk(alloc, &files, refused, always)
}

/// The same, where the system says that both are regular files.
pub(crate) fn told<'a>(
    alloc: Global,
    refused: usize,
    always: &'static str,
) -> Result<Disk<'a>, Fail> {
    let mut disk = older(alloc, refused, always)?;
    tell_of_files(&mut disk.nodes)?;
    Ok(disk)
}

/// Adds that the acknowledgement and the register are regular files.
pub(crate) fn tell_of_files<'a>(nodes: &mut Vec<(&'a str, Metadata)>) -> Result<(), Fail> {
    nodes.push(("a.ack", Metadata::of_file(24)))?;
    nodes.push(("book", Metadata::of_file(186)))?;
    Ok(())
}

/// Runs the program over a disk. `rt` starts threads and waits, and `words` is the command line. `files` can only be
/// read, and `disk` has the others. `ended` has the status, standard output and standard error that it must have.
pub(crate) fn expect_on<T: AllocGlobal + Threads + Wait + Sync>(
    rt: &T,
    words: &[&str],
    files: &[(&str, FakeFile)],
    disk: &Disk,
    ended: (ExitCode, &str, &str),
) -> Result<(), Fail> {
    let (status, printed, complained) = ended;
    let fake = Fake::new(rt, words, b"").with_disk(files, disk);
    expect_program(fake, status, printed.as_bytes(), complained)
}

/// Runs the file `a` with these words over a disk: its status, standard output and standard error must be these.
pub(crate) fn run_over<T: AllocGlobal + Threads + Wait + Sync>(
    rt: &T,
    more: &[&str],
    disk: &Disk,
    ended: (ExitCode, &str, &str),
) -> Result<(), Fail> {
    let words = run_with(rt.alloc(), more)?;
    let input = plain_file(rt.alloc())?;
    let files = [("a", FakeFile::Holds(&input))];
    expect_on(rt, &words, &files, disk, ended)
}

/// Runs the file `a` from `book` to `book` over a disk. `rt` starts threads and waits, and `disk` has the
/// acknowledgement and the register. `status`, `printed` and `complained` are the status, standard output and standard
/// error that it must have.
pub(crate) fn run_into_itself<T: AllocGlobal + Threads + Wait + Sync>(
    rt: &T,
    disk: &Disk,
    status: ExitCode,
    printed: &str,
    complained: &str,
) -> Result<(), Fail> {
    let words = ["--from", "book", "--to", "book", "a"];
    run_over(rt, &words, disk, (status, printed, complained))
}

/// The calls that change files must have been these, a line each, in their order.
pub(crate) fn expect_made(disk: &Disk, wanted: &str) -> Result<(), Fail> {
    let made = disk.calls.made()?;
    same_text("the calls", &made, wanted)
}

/// A file of a disk must hold this text.
pub(crate) fn expect_text(alloc: Global, disk: &Disk, name: &str, text: Text) -> Result<(), Fail> {
    let file = file_named(&disk.files, name)?;
    let wanted = text.bytes(alloc)?;
    expect_held(file, &wanted)
}

/// A file of a disk must have a draft or none.
pub(crate) fn expect_draft(disk: &Disk, name: &str, what: &str, waits: bool) -> Result<(), Fail> {
    let file = file_named(&disk.files, name)?;
    same(what, &file.has_draft(), &waits)
}

/// The acknowledgement and the register must be the old ones.
pub(crate) fn expect_older(alloc: Global, disk: &Disk) -> Result<(), Fail> {
    expect_text(alloc, disk, "a.ack", Text::Bytes(OLDER))?;
    expect_text(alloc, disk, "book", Text::Register(1))
}

/// Runs the file `a` over a disk. `rt` starts threads and waits, and `more` are the words behind the stamp's. `ended`
/// has the status, standard output and standard error that it must have. `made` has the calls that must change files on
/// `disk`, in their order, and `held` the name of a file and what it must hold then.
pub(crate) fn expect_calls<T: AllocGlobal + Threads + Wait + Sync>(
    rt: &T,
    more: &[&str],
    disk: &Disk,
    ended: (ExitCode, &str, &str),
    made: &str,
    held: (&str, Text),
) -> Result<(), Fail> {
    run_over(rt, more, disk, ended)?;
    expect_made(disk, made)?;
    let (name, text) = held;
    expect_text(rt.alloc(), disk, name, text)
}
