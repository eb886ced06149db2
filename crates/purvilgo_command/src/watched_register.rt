//! Registers, of which is told how far they are read.

ghost use Rattle.std.specs.Prelude.{◌≡◌};

use crate::error_terminal::ErrorTerminal;
use crate::files::{InputFile, Reading, STANDARD_INPUT, standard_input};
use crate::progress::Progress;
use byte_streams::{Failed, Source};
use cwr_field::{cut, digits};
use std::rt::Files;

/// Reads a register, or standard input where the name is `-`, and tells how far it is read.
pub(crate) fn read_register<R: AllocGlobal + Input + ErrorTerminal + Files, T: Reading>(
    rt: &R,
    name: &str,
    verbose: bool,
    reading: T,
) -> T::Made {
    let progress = Progress::of_register(rt, verbose);
    let made = if name == STANDARD_INPUT {
        reading.read(&mut WatchedRegister::new(standard_input(rt, verbose), &progress))
    } else {
        reading.read(&mut WatchedRegister::new(InputFile::new(rt, name, verbose), &progress))
    };
    progress.clear();
    made
}

/// A source of a register that tells how many of its entries were read, if that is told at all. Its first line says how
/// many there are.
#[derive(Drop)]
pub(crate) struct WatchedRegister<'p, 'a, S, R> {
    source: S,
    progress: &'p Progress<'a, R>,
    /// Whether some of it was read.
    begun: bool,
}

impl<'p, 'a, S: Source, R: AllocGlobal + ErrorTerminal> WatchedRegister<'p, 'a, S, R> {
    /// The register of a source of which nothing was read.
    pub(crate) fn new(source: S, progress: &'p Progress<'a, R>) -> WatchedRegister<'p, 'a, S, R>
        ensures { result.source ≡ source }
    {
        WatchedRegister {
            source,
            progress,
            begun: false,
        }
    }

    /// Tells of the next bytes of the register.
    fn tell(&mut self, bytes: &[u8])
        ensures { self.new.source ≡ self.old.source }
    {
        let lines = lines_in(bytes);
        if self.begun {
            self.progress.add(lines);
        } else {
            self.begun = true;
            self.progress.expect(entries_in(bytes));
            self.progress.add(lines.saturating_sub(1));
        }
    }
}

impl<S: Source, R: AllocGlobal + ErrorTerminal> Source for WatchedRegister<'_, '_, S, R> {
    ghost left = { λ w. S.left w.source };

    ghost reads = { λ w. S.reads w.source };

    ghost has_failed = { λ w. S.has_failed w.source };

    fn failed(&self) -> bool {
        self.source.failed()
    }

    fn read_some(&mut self, buffer: &mut [u8]) -> Result<usize, Failed> {
        let n = self.source.read_some(buffer)?;
        if n > 0 && self.progress.is_told() {
            self.tell(&buffer[..n]);
        }
        Ok(n)
    }

    fn end_text(&mut self) {
        self.source.end_text();
    }
}

/// The number of entries that the first line of a register tells, if it is among its first bytes; else 0.
fn entries_in(first: &[u8]) -> usize {
    if !first.starts_with(b"REG") {
        return 0;
    }
    match digits(cut(first, 4, 8)) {
        Some(entries) => entries as usize,
        None => 0,
    }
}

/// The number of lines that end among these bytes.
fn lines_in(bytes: &[u8]) -> usize {
    let mut lines: usize = 0;
    for byte in bytes {
        lines = lines.wrapping_add((*byte == b'\n') as usize);
    }
    lines
}
