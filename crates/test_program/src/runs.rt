//! Runs of the program: their words, their files, and their required outcomes.

use crate::fake::{Fake, expect_program};
use crate::fake_files::{FakeFile, KeptFile};
use std::alloc::Global;
use std::process::ExitCode;
use std::sync::{Mutex, Wait};
use std::test::Fail;
use std::thread::Threads;
use test_comparisons::same_bytes;

/// The words of the stamp of all acknowledgements.
const STAMP: [&str; 8] = [
    "--society",
    "000",
    "--name",
    "CWR REGISTRY",
    "--date",
    "20240601",
    "--time",
    "090000",
];

/// A run with these words behind the stamp's.
pub fn run_with<'a>(alloc: Global, more: &[&'a str]) -> Result<Vec<&'a str>, Fail> {
    stamped_words(alloc, "run", more)
}

/// A command with these words behind the stamp's.
pub(crate) fn stamped_words<'a>(
    alloc: Global,
    command: &'a str,
    more: &[&'a str],
) -> Result<Vec<&'a str>, Fail> {
    let mut words = Vec::new(alloc);
    words.push("purvilgo")?;
    words.push(command)?;
    for word in STAMP {
        words.push(word)?;
    }
    words.extend_from_slice(more)?;
    Ok(words)
}

/// Runs the program over these files. `rt` starts threads and waits, and `words` is the command line. `files` can only
/// be read, and `kept` can be written. `status`, `printed` and `complained` are the status, standard output and
/// standard error that it must have.
pub fn expect<T: AllocGlobal + Threads + Wait + Sync>(
    rt: &T,
    words: &[&str],
    files: &[(&str, FakeFile)],
    kept: &[KeptFile],
    status: ExitCode,
    printed: &str,
    complained: &str,
) -> Result<(), Fail> {
    let fake = Fake::new(rt, words, b"").with_files(files, kept);
    expect_program(fake, status, printed.as_bytes(), complained)
}

/// The same with a standard input, and a limit of standard output. `rt` starts threads and waits, and `words` is the
/// command line. `input` is standard input. `files` can only be read, and `kept` can be written. `takes` is the number
/// of bytes that standard output takes. `status`, `printed` and `complained` are the status, standard output and
/// standard error that it must have.
pub(crate) fn expect_fed<T: AllocGlobal + Threads + Wait + Sync>(
    rt: &T,
    words: &[&str],
    input: &[u8],
    files: &[(&str, FakeFile)],
    kept: &[KeptFile],
    takes: usize,
    status: ExitCode,
    printed: &[u8],
    complained: &str,
) -> Result<(), Fail> {
    let fake = Fake::new(rt, words, input)
        .with_files(files, kept)
        .taking(takes);
    expect_program(fake, status, printed, complained)
}

/// A file of this name that holds this text, and takes at most `room` bytes.
pub fn keeping<'a>(
    alloc: Global,
    name: &'a str,
    text: &[u8],
    room: usize,
) -> Result<KeptFile<'a>, Fail> {
    Ok(KeptFile {
        name,
        bytes: Mutex::new(Vec::from_slice(alloc, text)?),
        room,
        chunk: room,
        draft: Mutex::new(Vec::new(alloc)),
        drafted: Mutex::new(false),
    })
}

/// A file must hold this text.
pub fn expect_held(file: &KeptFile, wanted: &[u8]) -> Result<(), Fail> {
    let held = file.bytes.try_lock().ok_or("a file that nobody holds")?;
    same_bytes(file.name, held.as_slice(), wanted)
}
