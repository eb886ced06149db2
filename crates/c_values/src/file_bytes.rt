ghost use Rattle.std.specs.Prelude.{◌≡◌, ◌+◌, ◌≤◌, false, Some, IfOk, is_err, length};
ghost use Rattle.std.specs.Io.KnownBytes.{ReadConsumes};

use byte_streams::{Failed, ReadCount, Source};
use std::marker::Model;

/// A source over the bytes of a file that a caller holds in memory. No read of it fails.
#[derive(Drop)]
pub struct FileBytes<'a> {
    left: &'a [u8],
    reads: ReadCount,
}

impl<'a> Model for FileBytes<'a> {
    ghost use Rattle.c_values.specs.FileBytesValue.{FileBytesValue};

    ghost Value = { FileBytesValue };

    ghost view = { λ f. record { left = f.left.now; reads = f.reads } };
}

impl<'a> FileBytes<'a> {
    /// A source over these bytes.
    pub fn new(bytes: &'a [u8]) -> FileBytes<'a>
        ensures { result ≡ record { left = bytes.now; reads = 0 } }
    {
        FileBytes {
            left: bytes,
            reads: ReadCount::zero(),
        }
    }
}

impl Source for FileBytes<'_> {
    ghost left = { λ f. Some f.left };

    ghost reads = { λ f. f.reads };

    ghost has_failed = { λ _. false };

    fn failed(&self) -> bool {
        false
    }

    /// Gives as many bytes as are left, at most as many as the buffer holds.
    fn read_some(&mut self, buffer: &mut [u8]) -> Result<usize, Failed>
        ensures bound { IfOk result (λ n. n ≤ length buffer.new) }
        ensures bytes { ReadConsumes (Some self.old.left) (Some self.new.left) result buffer.new }
        ensures counted { self.new.reads ≡ self.old.reads + 1 }
        ensures fails { false ≡ is_err result }
    {
        self.reads.count();
        let n = self.left.len().min(buffer.len());
        let (given, left) = self.left.split_at(n);
        buffer[..n].copy_from_slice(given);
        self.left = left;
        Ok(n)
    }
}
