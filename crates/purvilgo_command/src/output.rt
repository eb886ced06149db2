//! Acknowledgements, which lie beside their names until the register of a run is kept.

ghost use Rattle.std.specs.Prelude.{◌≡◌, ◌≤◌, false, None, length, IfOk};

use crate::file_names::has_draft;
use crate::messages::print_reason;
use atomic_file::{FileNames, open_draft, remove_draft};
use byte_streams::{Failed, Sink};
use std::fs::File;
use std::io::Write;
use std::rt::Files;
use std::{fs, io};

/// The number of the system's error that a file exists.
const FILE_EXISTS: i32 = 17;

/// The draft that a job leaves.
#[derive(Clone, Copy)]
pub(crate) enum LeftDraft<'a> {
    /// No byte was written, or what was written was no draft.
    None,
    /// The first bytes of an acknowledgement, of which a write failed. It must not get its name.
    Cut(&'a FileNames),
    /// An acknowledgement, which waits for its name.
    Whole(&'a FileNames),
}

/// The draft of a file, which is opened at its first write, and then begins empty. A contract does not see its bytes.
///
/// It is closed once its text has ended, or a write failed: a run keeps its drafts until all of its files are worked, and
/// no more than a few are to be open at a time. For a later write it is opened again at its end.
///
/// What is neither a regular file nor a directory, as a device or a pipe, has no draft: it is written itself. A
/// directory, and a file or a draft that cannot be opened, count as a failed write.
#[derive(Drop)]
pub(crate) struct OutputFile<'a, R: Files> {
    rt: &'a R,
    names: &'a FileNames,
    /// Whether the draft may be that of an existing file.
    replaces: bool,
    /// Whether each write, or why it failed, is printed on standard error.
    verbose: bool,
    file: Option<R::File>,
    /// Whether a draft was made, and not the file itself opened.
    drafted: bool,
    /// Whether it took some bytes.
    began: bool,
    /// Whether it was closed.
    closed: bool,
    failed: bool,
}

impl<'a, R: AllocGlobal + Eprint + Files> OutputFile<'a, R> {
    /// A writer to the draft of the file with these names. Nothing is opened yet.
    ///
    /// Without `replaces`, its first write fails if the file exists by then. With `verbose`, each write, or why it
    /// failed, is printed on standard error.
    pub(crate) fn new(
        rt: &'a R,
        names: &'a FileNames,
        replaces: bool,
        verbose: bool,
    ) -> OutputFile<'a, R>
        ensures { result.failed ≡ false }
    {
        OutputFile {
            rt,
            names,
            replaces,
            verbose,
            file: None,
            drafted: false,
            began: false,
            closed: false,
            failed: false,
        }
    }

    /// What the job left of the draft, if there is one. A draft without a byte is removed.
    pub(crate) fn into_draft(self) -> LeftDraft<'a> {
        let OutputFile {
            rt,
            names,
            drafted,
            began,
            failed,
            ..
        } = self;
        match (drafted, began, failed) {
            (true, true, false) => LeftDraft::Whole(names),
            (true, true, true) => LeftDraft::Cut(names),
            (true, false, _) => {
                remove_draft(rt, names);
                LeftDraft::None
            }
            (false, _, _) => LeftDraft::None,
        }
    }

    /// Opens the draft, unless it is open.
    fn ensure_open(&mut self) -> Result<(), Failed>
        ensures { self.new.failed ≡ self.old.failed }
    {
        if self.file.is_none() {
            match self.open_file() {
                Ok(file) => self.file = Some(file),
                Err(error) => return Err(self.fail(&error)),
            }
        }
        Ok(())
    }

    /// The draft: made again as an empty one, or opened at its end if it was closed.
    fn open_file(&mut self) -> io::Result<R::File>
        ensures { self.new.failed ≡ self.old.failed }
    {
        let names = self.names;
        if self.closed {
            let name = if self.drafted {
                names.draft()
            } else {
                names.name()
            };
            return File::options().append(true).open(self.rt, name);
        }
        if !self.replaces && fs::symlink_metadata(self.rt, names.name()).is_ok() {
            return Err(io::Error::from_raw_os_error(FILE_EXISTS));
        }
        self.drafted = has_draft(self.rt, names)?;
        open_draft(self.rt, names)
    }

    /// Writes once to the draft, and opens it first if it is not open.
    fn write(&mut self, bytes: &[u8]) -> Result<usize, Failed>
        ensures bound { IfOk result (λ n. n ≤ length bytes.now) }
        ensures failed { self.new.failed ≡ self.old.failed }
    {
        self.ensure_open()?;
        let written = match &mut self.file {
            Some(file) => file.write(bytes),
            None => return Err(Failed),
        };
        match written {
            Ok(n) => {
                self.took(n);
                Ok(n)
            }
            Err(error) => Err(self.fail(&error)),
        }
    }

    /// Reports the number of bytes that it took.
    fn took(&mut self, n: usize)
        ensures { self.new.failed ≡ self.old.failed }
    {
        self.began = self.began || n > 0;
        if self.verbose {
            let _ = eprintln!(self.rt; "{}: written, {n} bytes", self.names.word());
        }
    }

    /// Closes what is open, if anything is.
    fn close(&mut self)
        ensures { self.new.failed ≡ self.old.failed }
    {
        self.closed = self.closed || self.file.is_some();
        self.file = None;
    }

    /// Prints why the opening or a write failed, if it is verbose.
    fn fail(&self, error: &io::Error) -> Failed {
        if self.verbose {
            print_reason(self.rt, self.names.word(), error);
        }
        Failed
    }
}

impl<R: AllocGlobal + Eprint + Files> Sink for OutputFile<'_, R> {
    ghost taken = { λ _. None };

    ghost has_failed = { λ s. s.failed };

    fn failed(&self) -> bool {
        self.failed
    }

    fn write_some(&mut self, bytes: &[u8]) -> Result<usize, Failed> {
        let written = self.write(bytes);
        self.failed = match written {
            Ok(n) => n == 0 && !bytes.is_empty(),
            Err(_) => true,
        };
        if self.failed {
            self.close();
        }
        written
    }

    fn end_text(&mut self) {
        self.close();
    }
}
