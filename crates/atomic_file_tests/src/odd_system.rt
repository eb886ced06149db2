//! The system of the tests, but for what another one refuses.

use std::alloc::{Allocator, Global};
use std::fs::{Metadata, OpenFile, OpenOptions, Permissions};
use std::io::{self, ErrorKind, Read, Seek, SeekFrom, Write};
use std::rt::Files;
use std::sync::atomic::{AtomicU64, Ordering};
use std::thread::Threads;

/// What a system refuses, and how often it was asked to sync something.
#[derive(Drop)]
pub(crate) struct Refusals {
    /// The kind of error by which it refuses each hard link, if it does.
    links: Option<ErrorKind>,
    /// The kind of error by which it refuses each sync, if it does.
    syncs: Option<ErrorKind>,
    asked: AtomicU64,
}

impl Refusals {
    /// Links and syncs are refused by errors of these kinds, where one is given.
    pub(crate) fn new(links: Option<ErrorKind>, syncs: Option<ErrorKind>) -> Refusals {
        Refusals {
            links,
            syncs,
            asked: AtomicU64::new(0),
        }
    }

    /// How often a sync was asked for.
    pub(crate) fn syncs(&self) -> u64 {
        self.asked.load(Ordering::SeqCst)
    }
}

/// Refuses a call by an error of this kind, if one is given.
fn refuse(kind: Option<ErrorKind>) -> io::Result<()> {
    match kind {
        Some(kind) => Err(io::Error::from(kind)),
        None => Ok(()),
    }
}

/// A system that refuses some calls. Of each word it answers that it leads to no other file.
#[derive(Drop)]
pub(crate) struct OddSystem<'a, R> {
    pub(crate) system: &'a R,
    pub(crate) refusals: &'a Refusals,
}

impl<R: Threads> Threads for OddSystem<'_, R> {}

impl<R: AllocGlobal> Alloc for OddSystem<'_, R> {
    type A = Global;

    fn alloc(&self) -> Global {
        self.system.alloc()
    }
}

impl<'a, R: Files> Files for OddSystem<'a, R> {
    type File = OddFile<'a, R::File>;

    type Dir = R::Dir;

    fn open_file(&self, how: &OpenOptions, path: &str) -> io::Result<OddFile<'a, R::File>> {
        Ok(OddFile {
            file: self.system.open_file(how, path)?,
            refusals: self.refusals,
        })
    }

    fn open_dir(&self, path: &str) -> io::Result<R::Dir> {
        self.system.open_dir(path)
    }

    fn metadata(&self, path: &str) -> io::Result<Metadata> {
        self.system.metadata(path)
    }

    fn symlink_metadata(&self, path: &str) -> io::Result<Metadata> {
        self.system.symlink_metadata(path)
    }

    fn copy(&self, from: &str, to: &str) -> io::Result<u64> {
        self.system.copy(from, to)
    }

    fn rename(&self, from: &str, to: &str) -> io::Result<()> {
        self.system.rename(from, to)
    }

    fn remove_file(&self, path: &str) -> io::Result<()> {
        self.system.remove_file(path)
    }

    fn create_dir(&self, path: &str) -> io::Result<()> {
        self.system.create_dir(path)
    }

    fn remove_dir(&self, path: &str) -> io::Result<()> {
        self.system.remove_dir(path)
    }

    fn remove_dir_all<B: Allocator>(&self, alloc: B, path: &str) -> io::Result<()> {
        self.system.remove_dir_all(alloc, path)
    }

    fn hard_link(&self, original: &str, link: &str) -> io::Result<()> {
        refuse(self.refusals.links)?;
        self.system.hard_link(original, link)
    }
}

/// An open file of such a system.
#[derive(Drop)]
pub(crate) struct OddFile<'a, F: Drop> {
    file: F,
    refusals: &'a Refusals,
}

impl<F: Read + Drop> Read for OddFile<'_, F> {
    fn read(&mut self, buf: &mut [u8]) -> io::Result<usize> {
        self.file.read(buf)
    }
}

impl<F: Write + Drop> Write for OddFile<'_, F> {
    fn write(&mut self, buf: &[u8]) -> io::Result<usize> {
        self.file.write(buf)
    }

    fn flush(&mut self) -> io::Result<()> {
        self.file.flush()
    }
}

impl<F: Seek + Drop> Seek for OddFile<'_, F> {
    fn seek(&mut self, to: SeekFrom) -> io::Result<u64> {
        self.file.seek(to)
    }
}

impl<F: OpenFile + Drop> OpenFile for OddFile<'_, F> {
    fn metadata(&self) -> io::Result<Metadata> {
        self.file.metadata()
    }

    fn set_len(&self, size: u64) -> io::Result<()> {
        self.file.set_len(size)
    }

    fn sync_all(&self) -> io::Result<()> {
        self.refusals.asked.fetch_add(1, Ordering::SeqCst);
        refuse(self.refusals.syncs)?;
        self.file.sync_all()
    }

    fn sync_data(&self) -> io::Result<()> {
        self.file.sync_data()
    }

    fn set_permissions(&self, permissions: Permissions) -> io::Result<()> {
        self.file.set_permissions(permissions)
    }
}
