//! A runtime whose files are opened only after several workers have come to read one.
//!
//! No call of a runtime starts a thread, so threads cannot be counted there. What can be counted is the number of
//! workers at work at once.

use crate::fake::Fake;
use crate::fake_files::FakeFile;
use purvilgo_command::ErrorTerminal;
use std::alloc::{Allocator, Global};
use std::env::FillError;
use std::fmt::Display;
use std::fs::{Metadata, OpenOptions};
use std::io;
use std::path::PathBuf;
use std::rt::{Env, Files};
use std::sync::Wait;
use std::sync::atomic::{AtomicU64, Ordering};
use std::thread::{Threads, yield_now};
use std::time::{Clock, Duration};

/// The runtime, the workers that must come, and those that came.
pub struct Meeting<'a, T> {
    fake: Fake<'a, T>,
    /// The number of workers that must come.
    all: u64,
    /// The number of workers that came.
    come: AtomicU64,
    /// The number of workers that met all others. The rest gave up after some time.
    met: AtomicU64,
}

impl<'a, T> Meeting<'a, T> {
    /// A runtime in which `all` workers must come.
    pub fn new(fake: Fake<'a, T>, all: u64) -> Meeting<'a, T> {
        Meeting {
            fake,
            all,
            come: AtomicU64::new(0),
            met: AtomicU64::new(0),
        }
    }

    /// The number of workers that met all others, and the runtime within.
    pub fn into_fake(self) -> (u64, Fake<'a, T>) {
        let Meeting {
            fake,
            all: _,
            come: _,
            met,
        } = self;
        (met.into_inner(), fake)
    }

    /// Waits for all others, or gives up after some time.
    fn meet(&self) {
        self.come.fetch_add(1, Ordering::SeqCst);
        for _ in 0..1_000_000 {
            if self.come.load(Ordering::SeqCst) >= self.all {
                self.met.fetch_add(1, Ordering::SeqCst);
                return;
            }
            yield_now();
        }
    }

    /// Whether this is a file that can only be read.
    fn is_input(&self, path: &str) -> bool {
        for (name, _) in self.fake.files {
            if *name == path {
                return true;
            }
        }
        false
    }
}

impl<T: Threads> Threads for Meeting<'_, T> {}

impl<T: Wait> Wait for Meeting<'_, T> {}

impl<T> Env for Meeting<'_, T> {
    fn arg(&self, i: usize, buf: &mut [u8]) -> Result<usize, FillError> {
        self.fake.arg(i, buf)
    }

    fn var(&self, name: &str, buf: &mut [u8]) -> Result<usize, FillError> {
        self.fake.var(name, buf)
    }

    fn var_at(&self, i: usize, buf: &mut [u8]) -> Result<usize, FillError> {
        self.fake.var_at(i, buf)
    }
}

impl<T> Alloc for Meeting<'_, T> {
    type A = Global;

    fn alloc(&self) -> Global {
        self.fake.alloc()
    }
}

impl<'a, T> Input for Meeting<'a, T> {
    type Reader = &'a [u8];

    fn read_line<A: Allocator + Clone>(&self, buf: &mut String<A>) -> io::Result<usize> {
        self.fake.read_line(buf)
    }

    fn lines<A: Allocator>(&self, alloc: A) -> io::Lines<&'a [u8], A> {
        self.fake.lines(alloc)
    }

    fn reader(&self) -> &'a [u8] {
        self.fake.reader()
    }
}

impl<T> Print for Meeting<'_, T> {
    fn print<D: Display + Drop>(&self, value: D) -> io::Result<()> {
        self.fake.print(value)
    }

    fn println<D: Display + Drop>(&self, value: D) -> io::Result<()> {
        self.fake.println(value)
    }

    fn write_all(&self, bytes: &[u8]) -> io::Result<()> {
        self.fake.write_all(bytes)
    }
}

impl<T> Eprint for Meeting<'_, T> {
    fn eprint<D: Display + Drop>(&self, value: D) -> io::Result<()> {
        self.fake.eprint(value)
    }

    fn eprintln<D: Display + Drop>(&self, value: D) -> io::Result<()> {
        self.fake.eprintln(value)
    }
}

impl<T> Clock for Meeting<'_, T> {
    fn monotonic(&self) -> io::Result<Duration> {
        self.fake.monotonic()
    }

    fn since_1970(&self) -> io::Result<Duration> {
        self.fake.since_1970()
    }
}

impl<T> ErrorTerminal for Meeting<'_, T> {
    fn is_error_terminal(&self) -> bool {
        self.fake.is_error_terminal()
    }
}

impl<'a, T> Files for Meeting<'a, T> {
    type File = FakeFile<'a>;

    type Dir = FakeFile<'a>;

    fn open_file(&self, how: &OpenOptions, path: &str) -> io::Result<FakeFile<'a>> {
        if self.is_input(path) && !how.asks_write() {
            self.meet();
        }
        self.fake.open_file(how, path)
    }

    fn open_dir(&self, path: &str) -> io::Result<FakeFile<'a>> {
        self.fake.open_dir(path)
    }

    fn metadata(&self, path: &str) -> io::Result<Metadata> {
        self.fake.metadata(path)
    }

    fn symlink_metadata(&self, path: &str) -> io::Result<Metadata> {
        self.fake.symlink_metadata(path)
    }

    fn read_link<B: Allocator>(&self, alloc: B, path: &str) -> io::Result<PathBuf<B>> {
        self.fake.read_link(alloc, path)
    }

    fn canonicalize<B: Allocator>(&self, alloc: B, path: &str) -> io::Result<PathBuf<B>> {
        self.fake.canonicalize(alloc, path)
    }

    fn hard_link(&self, original: &str, link: &str) -> io::Result<()> {
        self.fake.hard_link(original, link)
    }

    fn copy(&self, from: &str, to: &str) -> io::Result<u64> {
        self.fake.copy(from, to)
    }

    fn rename(&self, from: &str, to: &str) -> io::Result<()> {
        self.fake.rename(from, to)
    }

    fn remove_file(&self, path: &str) -> io::Result<()> {
        self.fake.remove_file(path)
    }

    fn create_dir(&self, path: &str) -> io::Result<()> {
        self.fake.create_dir(path)
    }

    fn remove_dir(&self, path: &str) -> io::Result<()> {
        self.fake.remove_dir(path)
    }

    fn remove_dir_all<B: Allocator>(&self, alloc: B, path: &str) -> io::Result<()> {
        self.fake.remove_dir_all(alloc, path)
    }
}
