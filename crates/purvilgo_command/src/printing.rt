//! Standard output, which reports its failure.

use std::io::{self, ErrorKind, Write};

/// Standard output. The first write that fails, or takes nothing, is reported on standard error, with the number of
/// bytes that were written before it. Nothing more is written after it.
#[derive(Drop)]
pub(crate) struct StandardOutput<'a, R> {
    rt: &'a R,
    /// The number of bytes that were written.
    sent: u64,
    failed: bool,
}

impl<'a, R: Print + Eprint> StandardOutput<'a, R> {
    /// Standard output, of which nothing is written yet.
    pub(crate) fn of(rt: &'a R) -> StandardOutput<'a, R> {
        StandardOutput {
            rt,
            sent: 0,
            failed: false,
        }
    }

    /// Standard output of which `sent` bytes were written, or which has `failed`.
    pub(crate) fn behind(rt: &'a R, sent: u64, failed: bool) -> StandardOutput<'a, R> {
        StandardOutput { rt, sent, failed }
    }

    /// The number of bytes that were written.
    pub(crate) fn sent(&self) -> u64 {
        self.sent
    }

    /// Whether a write failed.
    pub(crate) fn has_failed(&self) -> bool {
        self.failed
    }

    /// Writes all the bytes, and returns whether they went out.
    pub(crate) fn put(&mut self, bytes: &[u8]) -> bool {
        self.write_all(bytes).is_ok()
    }

    /// Reports that a write failed.
    fn fail(&mut self) {
        self.failed = true;
        let _ = eprintln!(self.rt; "standard output: stopped: write after {} bytes", self.sent);
    }
}

impl<R: Print + Eprint> Write for StandardOutput<'_, R> {
    fn write(&mut self, bytes: &[u8]) -> io::Result<usize> {
        if self.failed {
            return Err(io::Error::from(ErrorKind::BrokenPipe));
        }
        let written = self.rt.write_some(bytes);
        match &written {
            Ok(0) if !bytes.is_empty() => self.fail(),
            Ok(n) => self.sent = self.sent.saturating_add(*n as u64),
            Err(error) if error.kind() == ErrorKind::Interrupted => {}
            Err(_) => self.fail(),
        }
        written
    }

    fn flush(&mut self) -> io::Result<()> {
        Ok(())
    }
}

/// Writes bytes to standard output, and returns whether they went out.
pub(crate) fn is_printed<R: Print + Eprint>(rt: &R, bytes: &[u8]) -> bool {
    StandardOutput::of(rt).put(bytes)
}
