ghost use Rattle.std.specs.Prelude.{◌≡◌, ◌<◌, ◌+◌, ◌≤◌, ◌↔◌, min, false, Some, None, IfOk, IsErr, IsTrue, is_err, length};
ghost use Rattle.std.specs.Io.KnownBytes.{ReadConsumes};

use crate::{Failed, ReadCount, Source};
use std::marker::Model;

/// A source over bytes in memory, which gives them a chunk at a time.
#[derive(Debug, Drop)]
pub struct Feed<'a> {
    left: &'a [u8],
    chunk: usize,
    fail: Option<u64>,
    /// The number of reads so far. It stops counting at the greatest `u64`.
    begun: u64,
    failed: bool,
    reads: ReadCount,
}

impl<'a> Model for Feed<'a> {
    ghost use Rattle.std.specs.Prelude.{◌≡◌, ◌<◌, ◌-◌, ◌^◌, min};
    ghost use Rattle.byte_streams.specs.Feed.{FeedState};

    ghost Value = { FeedState };

    ghost view = { λ f. record {
      left = f.left.now;
      chunk = f.chunk;
      fail = f.fail;
      reads = f.reads;
      has_failed = f.failed;
    } };

    ghost invariant = { λ f. (0 < f.chunk) × (f.begun ≡ min f.reads (2 ^ 64 - 1)) };
}

impl<'a> Feed<'a> {
    /// A source over these bytes.
    ///
    /// A read gives at most `chunk` bytes; `chunk` is not 0. The read with the number `fail`, counted from 1, fails.
    /// For `None` and for 0 none fails.
    pub fn new(bytes: &'a [u8], chunk: usize, fail: Option<u64>) -> Feed<'a>
        requires { 0 < chunk }
        ensures left { result.left ≡ bytes.now }
        ensures chunk { result.chunk ≡ chunk }
        ensures fail { result.fail ≡ fail }
        ensures unread { result.reads ≡ 0 }
        ensures works { result.has_failed ≡ false }
    {
        Feed {
            left: bytes,
            chunk,
            fail,
            begun: 0,
            failed: false,
            reads: ReadCount::zero(),
        }
    }

    /// Counts a read that begins, and returns whether it is the one that fails.
    fn begin(&mut self) -> bool
        ensures counted { self.new ≡ record self.old { reads = self.old.reads + 1 } }
        ensures fails { IsTrue result ↔ (self.old.fail ≡ Some (self.old.reads + 1)) }
    {
        self.reads.count();
        match self.begun.checked_add(1) {
            None => false,
            Some(number) => {
                self.begun = number;
                self.fail == Some(number)
            }
        }
    }
}

impl Source for Feed<'_> {
    ghost left = { λ f. Some f.left };

    ghost reads = { λ f. f.reads };

    ghost has_failed = { λ f. f.has_failed };

    fn failed(&self) -> bool {
        self.failed
    }

    /// Gives as many bytes as are left, at most `chunk` and at most as many as the buffer holds.
    fn read_some(&mut self, buffer: &mut [u8]) -> Result<usize, Failed>
        requires { self.old.has_failed ≡ false }
        ensures bound { IfOk result (λ n. n ≤ length buffer.new) }
        ensures bytes { ReadConsumes (Some self.old.left) (Some self.new.left) result buffer.new }
        ensures counted { self.new.reads ≡ self.old.reads + 1 }
        ensures fails { self.new.has_failed ≡ is_err result }

        // How many bytes it gives, at which read it fails, and that both rules stay.
        ensures amount { IfOk result (λ n.
            n ≡ min (min (length self.old.left) self.old.chunk) (length buffer.old)) }
        ensures fails_at { IsErr result ↔ (self.old.fail ≡ Some (self.old.reads + 1)) }
        ensures same { (self.new.chunk ≡ self.old.chunk) × (self.new.fail ≡ self.old.fail) }
    {
        if self.begin() {
            self.failed = true;
            return Err(Failed);
        }
        let n = self.left.len().min(self.chunk).min(buffer.len());
        let (given, left) = self.left.split_at(n);
        buffer[..n].copy_from_slice(given);
        self.left = left;
        Ok(n)
    }
}
