//! A runtime of the tests' own: words, standard input, files, and what was printed. Threads are those of another one.

ghost use Rattle.std.specs.Prelude.{◌≤◌, length, IfOk};

use crate::calls::{Calls, Disk};
use crate::fake_files::{FakeFile, KeptFile, NO_SUCH_FILE};
use purvilgo_command::run_program;
use std::alloc::Global;
use std::fmt::Display;
use std::fs::Metadata;
use std::io;
use std::process::ExitCode;
use std::sync::atomic::AtomicU64;
use std::sync::{Mutex, Wait};
use std::test::Fail;
use std::thread::Threads;
use test_comparisons::{same, same_bytes, same_text};

/// The number of the system's error that there is no space left.
const NO_SPACE: i32 = 28;

/// What the program finds when it is run, and what it leaves.
pub struct Fake<'a, T> {
    /// The runtime that starts threads and waits.
    pub(crate) rt: &'a T,
    pub(crate) words: &'a [&'a str],
    /// The word that is not text: its number, behind the program's name, and its bytes.
    pub(crate) strange: Option<(usize, &'a [u8])>,
    pub(crate) input: &'a [u8],
    /// The files that can only be read, by name.
    pub(crate) files: &'a [(&'a str, FakeFile<'a>)],
    /// The files that can be written.
    pub(crate) kept: &'a [KeptFile<'a>],
    /// What the system says of files and directories that exist, by name.
    pub(crate) nodes: &'a [(&'a str, Metadata)],
    /// The names that are links, and to what.
    pub(crate) links: &'a [(&'a str, &'a str)],
    /// The locks that another run has.
    pub(crate) locked: &'a [&'a str],
    /// Where the calls that change files are counted, if anywhere.
    pub(crate) calls: Option<&'a Calls>,
    /// Whether a file was opened that can only be read.
    pub(crate) has_read: Mutex<bool>,
    /// The number of bytes that standard output takes before a write fails.
    pub(crate) takes: usize,
    /// The milliseconds that pass from one look at the clock to the next, if standard error is a terminal.
    pub(crate) terminal: Option<u64>,
    /// How often the clock was looked at.
    pub(crate) looks: AtomicU64,
    pub(crate) alloc: Global,
    pub(crate) printed: Mutex<Vec<u8>>,
    pub(crate) complained: Mutex<String>,
}

impl<'a, T: AllocGlobal> Fake<'a, T> {
    /// A runtime with these words and this standard input, without files.
    pub fn new(rt: &'a T, words: &'a [&'a str], input: &'a [u8]) -> Fake<'a, T> {
        let alloc = rt.alloc();
        Fake {
            rt,
            words,
            strange: None,
            input,
            files: &[],
            kept: &[],
            nodes: &[],
            links: &[],
            locked: &[],
            calls: None,
            has_read: Mutex::new(false),
            takes: usize::MAX,
            terminal: None,
            looks: AtomicU64::new(0),
            alloc,
            printed: Mutex::new(Vec::new(alloc)),
            complained: Mutex::new(String::new(alloc)),
        }
    }

    /// The same runtime with these files.
    pub fn with_files(
        self,
        files: &'a [(&'a str, FakeFile<'a>)],
        kept: &'a [KeptFile<'a>],
    ) -> Fake<'a, T> {
        let Fake {
            rt,
            words,
            strange,
            input,
            files: _,
            kept: _,
            nodes,
            links,
            locked,
            calls,
            has_read,
            takes,
            terminal,
            looks,
            alloc,
            printed,
            complained,
        } = self;
        Fake {
            rt,
            words,
            strange,
            input,
            files,
            kept,
            nodes,
            links,
            locked,
            calls,
            has_read,
            takes,
            terminal,
            looks,
            alloc,
            printed,
            complained,
        }
    }

    /// The same runtime, in which the system says this of names.
    pub fn with_names(
        self,
        nodes: &'a [(&'a str, Metadata)],
        links: &'a [(&'a str, &'a str)],
    ) -> Fake<'a, T> {
        let Fake {
            rt,
            words,
            strange,
            input,
            files,
            kept,
            nodes: _,
            links: _,
            locked,
            calls,
            has_read,
            takes,
            terminal,
            looks,
            alloc,
            printed,
            complained,
        } = self;
        Fake {
            rt,
            words,
            strange,
            input,
            files,
            kept,
            nodes,
            links,
            locked,
            calls,
            has_read,
            takes,
            terminal,
            looks,
            alloc,
            printed,
            complained,
        }
    }

    /// The same runtime with these files that can only be read, and with the others on this disk.
    pub fn with_disk(
        self,
        files: &'a [(&'a str, FakeFile<'a>)],
        disk: &'a Disk<'a>,
    ) -> Fake<'a, T> {
        let Fake {
            rt,
            words,
            strange,
            input,
            files: _,
            kept: _,
            nodes: _,
            links: _,
            locked: _,
            calls: _,
            has_read,
            takes,
            terminal,
            looks,
            alloc,
            printed,
            complained,
        } = self;
        Fake {
            rt,
            words,
            strange,
            input,
            files,
            kept: &disk.files,
            nodes: &disk.nodes,
            links: disk.links,
            locked: disk.locked,
            calls: Some(&disk.calls),
            has_read,
            takes,
            terminal,
            looks,
            alloc,
            printed,
            complained,
        }
    }

    /// The same runtime, whose standard output takes at most `most` bytes.
    pub fn taking(self, most: usize) -> Fake<'a, T> {
        let mut fake = self;
        fake.takes = most;
        fake
    }

    /// The same runtime, whose standard error is a terminal. From one look at the clock to the next so many milliseconds
    /// pass.
    pub fn at_terminal(self, pace: u64) -> Fake<'a, T> {
        let mut fake = self;
        fake.terminal = Some(pace);
        fake
    }

    /// The same runtime, in which the word with this number has these bytes.
    pub fn with_word(self, number: usize, bytes: &'a [u8]) -> Fake<'a, T> {
        let mut fake = self;
        fake.strange = Some((number, bytes));
        fake
    }

    /// What went to standard output and to standard error.
    pub fn into_texts(self) -> (Vec<u8>, String) {
        let Fake {
            rt: _,
            words: _,
            strange: _,
            input: _,
            files: _,
            kept: _,
            nodes: _,
            links: _,
            locked: _,
            calls: _,
            has_read: _,
            takes: _,
            terminal: _,
            looks: _,
            alloc: _,
            printed,
            complained,
        } = self;
        (printed.into_inner(), complained.into_inner())
    }
}

/// Runs the program: its status, standard output and standard error must be these. A failure names the last word of the
/// command line.
pub fn expect_program<T: AllocGlobal + Threads + Wait + Sync>(
    fake: Fake<T>,
    status: ExitCode,
    printed: &[u8],
    complained: &str,
) -> Result<(), Fail> {
    let ended = run_program(&fake);
    let what = fake.words.last().copied().unwrap_or("no words");
    let (out, err) = fake.into_texts();
    same_text(what, err.as_str(), complained)?;
    same_bytes(what, out.as_slice(), printed)?;
    same(what, &ended, &status)
}

impl<T> Fake<'_, T> {
    /// Prints bytes, up to what standard output takes.
    pub(crate) fn put(&self, bytes: &[u8]) -> io::Result<()> {
        let n = self.put_some(bytes)?;
        if n < bytes.len() {
            self.put_some(&bytes[n..])?;
        }
        Ok(())
    }

    /// Prints the first bytes, up to what standard output takes.
    pub(crate) fn put_some(&self, bytes: &[u8]) -> io::Result<usize>
        ensures bound { IfOk result (λ n. n ≤ length bytes.now) }
    {
        let Some(mut printed) = self.printed.try_lock() else {
            return Ok(bytes.len());
        };
        let left = self.takes.saturating_sub(printed.len());
        if left == 0 && !bytes.is_empty() {
            return Err(io::Error::from_raw_os_error(NO_SPACE));
        }
        let n = bytes.len().min(left);
        printed.extend_from_slice(&bytes[..n])?;
        Ok(n)
    }

    /// Writes a value to standard error.
    pub(crate) fn complain<D: Display + Drop>(&self, value: D, end: &str) -> io::Result<()> {
        let text = value.to_string(self.alloc)?;
        if let Some(mut complained) = self.complained.try_lock() {
            complained.push_str(text.as_str())?;
            complained.push_str(end)?;
        }
        Ok(())
    }
}

impl<'a, T> Fake<'a, T> {
    /// Counts a call that changes files, if they are counted.
    pub(crate) fn count(&self, what: &'static str, name: &str) -> io::Result<()> {
        match self.calls {
            Some(calls) => calls.make(what, name),
            None => Ok(()),
        }
    }

    /// The word with this number, behind the program's name.
    pub(crate) fn word(&self, number: usize) -> Option<&'a [u8]> {
        match self.strange {
            Some((strange, bytes)) if strange == number => Some(bytes),
            Some(_) | None => Some(self.words.get(number)?.as_bytes()),
        }
    }

    /// Whether a file was read.
    pub(crate) fn has_begun(&self) -> bool {
        match self.has_read.try_lock() {
            Some(has_read) => *has_read,
            None => false,
        }
    }

    /// The file whose draft has this name and exists.
    pub(crate) fn drafted_by(&self, path: &str) -> io::Result<&'a KeptFile<'a>> {
        for file in self.kept {
            if file.is_drafted_by(path) && file.has_draft() {
                return Ok(file);
            }
        }
        Err(io::Error::from_raw_os_error(NO_SUCH_FILE))
    }
}
