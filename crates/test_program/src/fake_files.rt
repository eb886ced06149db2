//! Files of the tests' own.
ghost use Rattle.std.specs.Prelude.{◌≡◌, ◌≤◌, true, length, is_err, IfOk};

use crate::calls::Calls;
use atomic_file::{CallFailed, Exclusive};
use std::fs::{Metadata, OpenFile, OpenOptions, Permissions};
use std::io::{self, ErrorKind, Read, Seek, SeekFrom, Write};
use std::sync::Mutex;

/// The number of the system's error that there is no such file.
pub(crate) const NO_SUCH_FILE: i32 = 2;

/// What stands behind the name of a file in that of its draft.
const DRAFT: &str = ".new";

/// An existing file: what its reads give and its writes do.
#[derive(Clone, Copy, Drop)]
pub enum FakeFile<'a> {
    /// The bytes that are left of it.
    Holds(&'a [u8]),
    /// Bytes, then an error once, and then other bytes.
    Breaks {
        first: &'a [u8],
        rest: &'a [u8],
        broken: bool,
    },
    /// The byte `A` for ever.
    Endless,
    /// An error.
    Broken,
    /// A file that can be written, or its draft.
    Kept(Opened<'a>),
    /// A directory.
    Folder(Option<&'a Calls>),
    /// A file to be locked, which another run has locked already or not.
    Lock {
        taken: bool,
    },
}

/// A file that can be written, or its draft, as it was opened.
#[derive(Clone, Copy, Drop)]
pub struct Opened<'a> {
    file: &'a KeptFile<'a>,
    /// Whether it is the draft.
    drafted: bool,
    /// The number of its bytes that were read.
    read: usize,
    /// Where the calls that change it are counted, if anywhere.
    calls: Option<&'a Calls>,
}

impl Opened<'_> {
    /// Counts a call that changes it, if calls are counted.
    fn count(&self, what: &'static str) -> io::Result<()> {
        match self.calls {
            Some(calls) => calls.make(what, self.file.name),
            None => Ok(()),
        }
    }

    /// Reads on.
    fn read(&mut self, room: &mut [u8]) -> io::Result<usize>
        ensures { IfOk result (λ n. n ≤ length room.new) }
    {
        let file = self.file;
        let bytes = if self.drafted {
            &file.draft
        } else {
            &file.bytes
        };
        match bytes.try_lock() {
            Some(held) => {
                let mut left = held.get(self.read..).unwrap_or(&[]);
                let n = left.read(room)?;
                self.read = held.len().saturating_sub(left.len());
                Ok(n)
            }
            None => unsupported(),
        }
    }

    /// Writes a few bytes at its end.
    fn write(&self, bytes: &[u8]) -> io::Result<usize>
        ensures { IfOk result (λ n. n ≤ length bytes.now) }
    {
        if self.drafted {
            self.count("write")?;
        }
        let file = self.file;
        let held = if self.drafted {
            &file.draft
        } else {
            &file.bytes
        };
        match held.try_lock() {
            Some(mut held) => {
                let left = self.file.room.saturating_sub(held.len());
                let n = left.min(self.file.chunk).min(bytes.len());
                held.extend_from_slice(&bytes[..n])?;
                Ok(n)
            }
            None => unsupported(),
        }
    }
}

/// A file that can be written, by itself or by its draft.
#[derive(Drop)]
pub struct KeptFile<'a> {
    pub name: &'a str,
    /// What it holds.
    pub bytes: Mutex<Vec<u8>>,
    /// The number of bytes that it takes at most. Its draft takes as many.
    pub room: usize,
    /// The number of bytes that it takes at most in one write.
    pub chunk: usize,
    /// What its draft holds.
    pub draft: Mutex<Vec<u8>>,
    /// Whether its draft exists.
    pub drafted: Mutex<bool>,
}

impl<'a> KeptFile<'a> {
    /// Whether this is the name of its draft.
    pub(crate) fn is_drafted_by(&self, path: &str) -> bool {
        path.strip_suffix(DRAFT) == Some(self.name)
    }

    /// Whether its draft exists.
    pub fn has_draft(&self) -> bool {
        match self.drafted.try_lock() {
            Some(drafted) => *drafted,
            None => false,
        }
    }

    /// Whether it holds something.
    pub(crate) fn has_bytes(&self) -> bool {
        match self.bytes.try_lock() {
            Some(bytes) => !bytes.is_empty(),
            None => false,
        }
    }

    /// The file, opened in this way. If it is opened for writing and to be created, it is emptied. It cannot be opened
    /// as a new one if it holds something.
    pub(crate) fn opened(
        &'a self,
        how: &OpenOptions,
        calls: Option<&'a Calls>,
    ) -> io::Result<FakeFile<'a>> {
        if how.asks_create_new() && self.has_bytes() {
            return Err(io::Error::from(ErrorKind::AlreadyExists));
        }
        if how.asks_create_new() || how.asks_truncate() {
            match self.bytes.try_lock() {
                Some(mut bytes) => bytes.clear(),
                None => return unsupported(),
            }
        }
        Ok(FakeFile::Kept(Opened {
            file: self,
            drafted: false,
            read: 0,
            calls,
        }))
    }

    /// Its draft, opened in this way: it exists already or is created as a new one.
    pub(crate) fn opened_draft(
        &'a self,
        how: &OpenOptions,
        calls: Option<&'a Calls>,
    ) -> io::Result<FakeFile<'a>> {
        let Some(mut drafted) = self.drafted.try_lock() else {
            return unsupported();
        };
        match (how.asks_create_new(), *drafted) {
            (true, true) => Err(io::Error::from(ErrorKind::AlreadyExists)),
            (false, false) => Err(io::Error::from_raw_os_error(NO_SUCH_FILE)),
            (made, _) => {
                *drafted = true;
                if let Some(mut draft) = self.draft.try_lock() {
                    if made {
                        draft.clear();
                    }
                }
                Ok(FakeFile::Kept(Opened {
                    file: self,
                    drafted: true,
                    read: 0,
                    calls,
                }))
            }
        }
    }

    /// Gives the draft its name, and removes the draft's own name if it `moves`.
    pub(crate) fn take_draft(&self, moves: bool) -> io::Result<()> {
        let (Some(mut bytes), Some(draft)) = (self.bytes.try_lock(), self.draft.try_lock()) else {
            return unsupported();
        };
        if !self.has_draft() {
            return Err(io::Error::from_raw_os_error(NO_SUCH_FILE));
        }
        bytes.clear();
        bytes.extend_from_slice(draft.as_slice())?;
        if moves { self.drop_draft() } else { Ok(()) }
    }

    /// Removes the draft.
    pub(crate) fn drop_draft(&self) -> io::Result<()> {
        match self.drafted.try_lock() {
            Some(mut drafted) if *drafted => {
                *drafted = false;
                Ok(())
            }
            _ => Err(io::Error::from_raw_os_error(NO_SUCH_FILE)),
        }
    }
}

/// What no file of the tests does.
pub(crate) fn unsupported<T>() -> io::Result<T>
    ensures { is_err result ≡ true }
{
    Err(io::Error::from(ErrorKind::Unsupported))
}

impl Read for FakeFile<'_> {
    fn read(&mut self, buf: &mut [u8]) -> io::Result<usize> {
        match self {
            FakeFile::Holds(bytes) => bytes.read(buf),
            FakeFile::Breaks {
                first,
                rest,
                broken,
            } => {
                if !first.is_empty() {
                    return first.read(buf);
                }
                if *broken {
                    return rest.read(buf);
                }
                *broken = true;
                unsupported()
            }
            FakeFile::Endless => {
                buf.fill(b'A');
                Ok(buf.len())
            }
            FakeFile::Broken | FakeFile::Folder(_) | FakeFile::Lock { .. } => unsupported(),
            FakeFile::Kept(opened) => opened.read(buf),
        }
    }
}

impl Write for FakeFile<'_> {
    fn write(&mut self, buf: &[u8]) -> io::Result<usize> {
        match self {
            FakeFile::Kept(opened) => opened.write(buf),
            _ => unsupported(),
        }
    }

    fn flush(&mut self) -> io::Result<()> {
        Ok(())
    }
}

impl Seek for FakeFile<'_> {
    fn seek(&mut self, _to: SeekFrom) -> io::Result<u64> {
        unsupported()
    }
}

impl OpenFile for FakeFile<'_> {
    fn metadata(&self) -> io::Result<Metadata> {
        unsupported()
    }

    fn set_len(&self, _size: u64) -> io::Result<()> {
        unsupported()
    }

    fn sync_all(&self) -> io::Result<()> {
        match self {
            FakeFile::Kept(opened) => opened.count("sync"),
            FakeFile::Folder(Some(calls)) => calls.make("sync", "."),
            FakeFile::Folder(None) => Ok(()),
            _ => unsupported(),
        }
    }

    fn sync_data(&self) -> io::Result<()> {
        unsupported()
    }

    fn set_permissions(&self, _permissions: Permissions) -> io::Result<()> {
        match self {
            FakeFile::Kept(opened) => opened.count("permissions"),
            _ => unsupported(),
        }
    }
}

impl Exclusive for FakeFile<'_> {
    fn try_exclusive(&self) -> Result<bool, CallFailed> {
        match self {
            FakeFile::Lock { taken } => Ok(!*taken),
            _ => Err(CallFailed),
        }
    }
}
