//! Files of the system as sources.

ghost use Rattle.std.specs.Prelude.{◌≡◌, ◌<◌, ◌≤◌, ◌↔◌, true, false, None, length, vec_len, IfOk, IfSome, IsErrOf};
ghost use Rattle.cwr_engine.specs.Account.{max_file_bytes};

use crate::error_terminal::ErrorTerminal;
use crate::messages::print_reason;
use crate::progress::Progress;
use byte_streams::{Failed, ReadCount, ReadRefused, Source, Through, read_file};
use cwr_desk::MAX_BYTES;
use std::alloc::Global;
use std::io::Read;
use std::rt::Files;
use std::{fs, io};

/// The name of standard input.
pub(crate) const STANDARD_INPUT: &str = "-";

/// What is done with a file, or with standard input, as it is read.
pub(crate) trait Reading {
    /// The result, or why there is none.
    type Made;

    /// Reads the file from its source.
    fn read<S: Source>(self, reader: &mut S) -> Self::Made
        requires { S.has_failed reader.old ≡ false };
}

/// Reads a file, or standard input where the name is `-`.
pub(crate) fn read_named<R: AllocGlobal + Input + ErrorTerminal + Files, T: Reading>(
    rt: &R,
    name: &str,
    verbose: bool,
    reading: T,
) -> T::Made {
    if name == STANDARD_INPUT {
        reading.read(&mut standard_input(rt, verbose))
    } else {
        reading.read(&mut InputFile::new(rt, name, verbose))
    }
}

/// Standard input as a source.
pub(crate) fn standard_input<R: Input>(rt: &R, verbose: bool) -> Through<StandardInput<'_, R>>
    ensures { result.has_failed ≡ false }
{
    Through::new(StandardInput {
        rt,
        reader: rt.reader(),
        verbose,
    })
}

/// The bytes of a CWR file, or of standard input where the name is `-`: at most 16,777,216.
pub(crate) fn bytes_of<R: AllocGlobal + Input + ErrorTerminal + Files>(
    rt: &R,
    name: &str,
    verbose: bool,
) -> Result<Vec<u8>, ReadRefused> {
    read_named(rt, name, verbose, Whole { alloc: rt.alloc() })
}

/// The bytes of a CWR file that a reader gives: at most 16,777,216.
pub(crate) fn whole_file<S: Source>(alloc: Global, reader: &mut S) -> Result<Vec<u8>, ReadRefused>
    requires { S.has_failed reader.old ≡ false }
    ensures whole { IfOk result (λ text. IfSome (S.left reader.old) (λ bytes. text.items ≡ bytes)) }
    ensures fits { IfOk result (λ text. vec_len text ≤ max_file_bytes) }
    ensures too_long { IsErrOf result ReadRefused.TooLong → IfSome (S.left reader.old) (λ bytes. max_file_bytes < length bytes) }
    ensures failed { IsErrOf result ReadRefused.Read ↔ (S.has_failed reader.new ≡ true) }
{
    read_file(alloc, reader, MAX_BYTES)
}

/// All bytes of a file are kept.
#[derive(Clone, Copy)]
struct Whole {
    alloc: Global,
}

impl Reading for Whole {
    type Made = Result<Vec<u8>, ReadRefused>;

    fn read<S: Source>(self, reader: &mut S) -> Result<Vec<u8>, ReadRefused> {
        whole_file(self.alloc, reader)
    }
}

/// Standard input. If it cannot be read, the reason is printed on standard error, if that is asked for.
#[derive(Drop)]
pub(crate) struct StandardInput<'a, R: Input> {
    rt: &'a R,
    reader: R::Reader,
    verbose: bool,
}

impl<R: AllocGlobal + Input + Eprint> Read for StandardInput<'_, R> {
    fn read(&mut self, buffer: &mut [u8]) -> io::Result<usize> {
        let read = self.reader.read(buffer);
        if let Err(error) = &read {
            if self.verbose {
                print_reason(self.rt, STANDARD_INPUT, error);
            }
        }
        read
    }
}

/// A file that is opened at its first read, and closed once it was read to its end, or its reader wants no more of it. A
/// contract does not see its bytes.
///
/// A file that cannot be opened counts as a failed read.
#[derive(Drop)]
pub(crate) struct InputFile<'a, R: Files> {
    rt: &'a R,
    path: &'a str,
    /// Whether its end, or why it failed, is printed on standard error.
    verbose: bool,
    /// The number of bytes that were read.
    bytes: usize,
    file: Option<R::File>,
    /// Whether it was closed, and has no more bytes.
    ended: bool,
    failed: bool,
    reads: ReadCount,
    /// Where it is told that it is done, until it is.
    progress: Option<&'a Progress<'a, R>>,
}

impl<'a, R: AllocGlobal + ErrorTerminal + Files> InputFile<'a, R> {
    /// The file of this name, which is not opened yet.
    pub(crate) fn new(rt: &'a R, path: &'a str, verbose: bool) -> InputFile<'a, R>
        ensures { result.failed ≡ false }
    {
        InputFile {
            rt,
            path,
            verbose,
            bytes: 0,
            file: None,
            ended: false,
            failed: false,
            reads: ReadCount::zero(),
            progress: None,
        }
    }

    /// The same file, which is a step of this work once it was read to its end, or failed.
    pub(crate) fn step_of(self, progress: &'a Progress<'a, R>) -> InputFile<'a, R>
        ensures { result.failed ≡ self.entry.failed }
    {
        let mut file = self;
        file.progress = Some(progress);
        file
    }

    /// Tells that it is done, unless that was told.
    fn tell_done(&mut self)
        ensures reads { self.new.reads ≡ self.old.reads }
        ensures failed { self.new.failed ≡ self.old.failed }
    {
        if let Some(progress) = self.progress.take() {
            progress.add(1);
        }
    }

    /// Opens the file, unless it is open.
    fn ensure_open(&mut self) -> Result<(), Failed>
        ensures reads { self.new.reads ≡ self.old.reads }
        ensures failed { self.new.failed ≡ self.old.failed }
    {
        if self.file.is_none() {
            match fs::open(self.rt, self.path) {
                Ok(file) => self.file = Some(file),
                Err(error) => return Err(self.fail(&error)),
            }
        }
        Ok(())
    }

    /// Reads once from the file, and opens it first if it is not open. Behind the end there are no bytes.
    fn read(&mut self, buffer: &mut [u8]) -> Result<usize, Failed>
        ensures bound { IfOk result (λ n. n ≤ length buffer.new) }
        ensures reads { self.new.reads ≡ self.old.reads }
        ensures failed { self.new.failed ≡ self.old.failed }
    {
        if self.ended {
            return Ok(0);
        }
        self.ensure_open()?;
        let read = match &mut self.file {
            Some(file) => file.read(buffer),
            None => return Err(Failed),
        };
        match read {
            Ok(n) => {
                self.count(n);
                if n == 0 && !buffer.is_empty() {
                    self.close();
                }
                Ok(n)
            }
            Err(error) => Err(self.fail(&error)),
        }
    }

    /// Counts the bytes that were read, and reports the end of the file, which is where there are none.
    fn count(&mut self, n: usize)
        ensures reads { self.new.reads ≡ self.old.reads }
        ensures failed { self.new.failed ≡ self.old.failed }
    {
        self.bytes = self.bytes.saturating_add(n);
        if n == 0 && self.verbose {
            let _ = eprintln!(self.rt; "{}: read, {} bytes", self.path, self.bytes);
        }
    }

    /// Closes the file. A run keeps its files until all of them are worked, and no more than a few may be open at a time.
    fn close(&mut self)
        ensures reads { self.new.reads ≡ self.old.reads }
        ensures failed { self.new.failed ≡ self.old.failed }
    {
        self.file = None;
        self.ended = true;
        self.tell_done();
    }

    /// Reports why it failed.
    fn fail(&mut self, error: &io::Error) -> Failed
        ensures reads { self.new.reads ≡ self.old.reads }
        ensures failed { self.new.failed ≡ self.old.failed }
    {
        if self.verbose {
            print_reason(self.rt, self.path, error);
        }
        self.tell_done();
        Failed
    }
}

impl<R: AllocGlobal + ErrorTerminal + Files> Source for InputFile<'_, R> {
    ghost left = { λ _. None };

    ghost reads = { λ s. s.reads };

    ghost has_failed = { λ s. s.failed };

    fn failed(&self) -> bool {
        self.failed
    }

    fn read_some(&mut self, buffer: &mut [u8]) -> Result<usize, Failed> {
        self.reads.count();
        let read = self.read(buffer);
        self.failed = read.is_err();
        read
    }

    fn end_text(&mut self) {
        self.close();
    }
}
