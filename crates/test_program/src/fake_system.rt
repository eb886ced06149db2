//! What the system does in the tests' own runtime: words, standard input and output, files.

use crate::fake::Fake;
use crate::fake_files::{FakeFile, NO_SUCH_FILE, unsupported};
use purvilgo_command::ErrorTerminal;
use std::alloc::{Allocator, Global};
use std::env::FillError;
use std::fmt::Display;
use std::fs::{Metadata, OpenOptions};
use std::io::{self, BufRead, ErrorKind};
use std::path::PathBuf;
use std::rt::{Env, Files};
use std::sync::Wait;
use std::sync::atomic::Ordering;
use std::thread::Threads;
use std::time::{Clock, Duration};

/// What stands behind the name of a register in that of its lock.
const LOCK: &str = ".lock";

/// The directories of all files that can be written.
const FOLDERS: [&str; 3] = [".", "in", "out"];

impl<T: Threads> Threads for Fake<'_, T> {}

impl<T: Wait> Wait for Fake<'_, T> {}

impl<T> Env for Fake<'_, T> {
    fn arg(&self, i: usize, buf: &mut [u8]) -> Result<usize, FillError> {
        let Some(word) = self.word(i) else {
            return Err(FillError::NotPresent);
        };
        if word.len() > buf.len() {
            return Err(FillError::TooLong);
        }
        buf[..word.len()].copy_from_slice(word);
        Ok(word.len())
    }

    fn var(&self, _name: &str, _buf: &mut [u8]) -> Result<usize, FillError> {
        Err(FillError::NotPresent)
    }

    fn var_at(&self, _i: usize, _buf: &mut [u8]) -> Result<usize, FillError> {
        Err(FillError::NotPresent)
    }
}

impl<T> Alloc for Fake<'_, T> {
    type A = Global;

    fn alloc(&self) -> Global {
        self.alloc
    }
}

impl<'a, T> Input for Fake<'a, T> {
    type Reader = &'a [u8];

    fn read_line<A: Allocator + Clone>(&self, buf: &mut String<A>) -> io::Result<usize> {
        self.reader().read_line(buf)
    }

    fn lines<A: Allocator>(&self, alloc: A) -> io::Lines<&'a [u8], A> {
        self.reader().lines(alloc)
    }

    fn reader(&self) -> &'a [u8] {
        self.input
    }
}

impl<T> Print for Fake<'_, T> {
    fn print<D: Display + Drop>(&self, value: D) -> io::Result<()> {
        let text = value.to_string(self.alloc)?;
        self.put(text.as_bytes())
    }

    fn println<D: Display + Drop>(&self, value: D) -> io::Result<()> {
        let text = value.to_string(self.alloc)?;
        self.put(text.as_bytes())?;
        self.put(b"\n")
    }

    fn write_all(&self, bytes: &[u8]) -> io::Result<()> {
        self.put(bytes)
    }

    fn write_some(&self, bytes: &[u8]) -> io::Result<usize> {
        self.put_some(bytes)
    }
}

impl<T> Eprint for Fake<'_, T> {
    fn eprint<D: Display + Drop>(&self, value: D) -> io::Result<()> {
        self.complain(value, "")
    }

    fn eprintln<D: Display + Drop>(&self, value: D) -> io::Result<()> {
        self.complain(value, "\n")
    }
}

impl<T> Clock for Fake<'_, T> {
    /// Time passes with each look alone.
    fn monotonic(&self) -> io::Result<Duration> {
        let Some(pace) = self.terminal else {
            return Err(io::Error::from(ErrorKind::Unsupported));
        };
        let looks = self.looks.fetch_add(1, Ordering::SeqCst);
        Ok(Duration::from_millis(looks.saturating_mul(pace)))
    }

    fn since_1970(&self) -> io::Result<Duration> {
        unsupported()
    }
}

impl<T> ErrorTerminal for Fake<'_, T> {
    fn is_error_terminal(&self) -> bool {
        self.terminal.is_some()
    }
}

impl<'a, T> Files for Fake<'a, T> {
    type File = FakeFile<'a>;

    type Dir = FakeFile<'a>;

    fn open_file(&self, how: &OpenOptions, path: &str) -> io::Result<FakeFile<'a>> {
        for (name, file) in self.files {
            if *name == path && !how.asks_write() {
                if let Some(mut has_read) = self.has_read.try_lock() {
                    *has_read = true;
                }
                return Ok(*file);
            }
        }
        for file in self.kept {
            if file.name == path {
                if how.asks_write() {
                    self.count("open", file.name)?;
                }
                return file.opened(how, self.calls);
            }
            if file.is_drafted_by(path) {
                if how.asks_create_new() {
                    self.count("create", file.name)?;
                }
                return file.opened_draft(how, self.calls);
            }
        }
        if FOLDERS.contains(&path) {
            return Ok(FakeFile::Folder(self.calls));
        }
        if path.ends_with(LOCK) && how.asks_create() {
            self.count("lock", path)?;
            let taken = self.locked.contains(&path);
            return Ok(FakeFile::Lock { taken });
        }
        Err(io::Error::from_raw_os_error(NO_SUCH_FILE))
    }

    fn open_dir(&self, _path: &str) -> io::Result<FakeFile<'a>> {
        unsupported()
    }

    fn metadata(&self, path: &str) -> io::Result<Metadata> {
        for (name, node) in self.nodes {
            if *name == path {
                return Ok(node.clone()?);
            }
        }
        Err(io::Error::from(ErrorKind::NotFound))
    }

    /// A file that can be written exists for the system only after another was read: as if it was made meanwhile.
    fn symlink_metadata(&self, path: &str) -> io::Result<Metadata> {
        for (name, _) in self.links {
            if *name == path {
                return Ok(Metadata::of_symlink(0));
            }
        }
        for file in self.kept {
            if file.name == path && file.has_bytes() && self.has_begun() {
                return Ok(Metadata::of_file(1));
            }
        }
        self.metadata(path)
    }

    fn read_link<B: Allocator>(&self, alloc: B, path: &str) -> io::Result<PathBuf<B>> {
        for (name, target) in self.links {
            if *name == path {
                return Ok(PathBuf::from_str(alloc, target)?);
            }
        }
        Err(io::Error::from(ErrorKind::InvalidInput))
    }

    /// The directories lie where their names say.
    fn canonicalize<B: Allocator>(&self, alloc: B, path: &str) -> io::Result<PathBuf<B>> {
        if FOLDERS.contains(&path) {
            return Ok(PathBuf::from_str(alloc, path)?);
        }
        Err(io::Error::from_raw_os_error(NO_SUCH_FILE))
    }

    fn copy(&self, _from: &str, _to: &str) -> io::Result<u64> {
        unsupported()
    }

    fn rename(&self, from: &str, to: &str) -> io::Result<()> {
        let file = self.drafted_by(from)?;
        if file.name != to {
            return unsupported();
        }
        self.count("rename", file.name)?;
        file.take_draft(true)
    }

    fn hard_link(&self, original: &str, link: &str) -> io::Result<()> {
        let file = self.drafted_by(original)?;
        if file.name != link {
            return unsupported();
        }
        self.count("link", file.name)?;
        if file.has_bytes() {
            return Err(io::Error::from(ErrorKind::AlreadyExists));
        }
        file.take_draft(false)
    }

    fn remove_file(&self, path: &str) -> io::Result<()> {
        let file = self.drafted_by(path)?;
        self.count("remove", file.name)?;
        file.drop_draft()
    }

    fn create_dir(&self, _path: &str) -> io::Result<()> {
        unsupported()
    }

    fn remove_dir(&self, _path: &str) -> io::Result<()> {
        unsupported()
    }

    fn remove_dir_all<B: Allocator>(&self, _alloc: B, _path: &str) -> io::Result<()> {
        unsupported()
    }
}
