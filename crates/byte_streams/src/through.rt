ghost use Rattle.std.specs.Prelude.{◌≡◌, ◌+◌, ◌≤◌, false, None, length, IfOk, is_err};
ghost use Rattle.std.specs.Io.KnownBytes.{ReadConsumes, WriteAppends};
ghost use Rattle.byte_streams.specs.Bytes.{stalls};

use crate::{Failed, ReadCount, Sink, Source};
use std::io::{self, ErrorKind, Read, Write};
use std::marker::Model;

/// How many times [`Through`] repeats a call of a reader or a writer that was interrupted.
pub const MAX_REPEATS: u32 = 8;

/// A source over a reader of std, and a sink over a writer of std.
///
/// Contracts do not see its bytes. Each of its calls makes one call of the reader or the writer. Where that call is
/// interrupted ([`ErrorKind::Interrupted`]), it is made again, at most [`MAX_REPEATS`] times. An interruption after the
/// last repeat, and any other error, is a failure: the reader or the writer is not called again.
#[derive(Debug, Drop)]
pub struct Through<T> {
    inner: T,
    failed: bool,
    reads: ReadCount,
}

impl<T> Model for Through<T> {
    ghost use Rattle.byte_streams.specs.Through.{ThroughState};

    ghost Value = { ThroughState T };

    ghost view = { λ s. record { inner = s.inner; reads = s.reads; has_failed = s.failed } };
}

impl<T> Through<T> {
    /// The source or the sink over a reader or a writer.
    pub fn new(inner: T) -> Through<T>
        ensures inner { result.inner ≡ inner }
        ensures unread { result.reads ≡ 0 }
        ensures works { result.has_failed ≡ false }
    {
        Through {
            inner,
            failed: false,
            reads: ReadCount::zero(),
        }
    }

    /// The reader or the writer, also after a failure.
    pub fn into_inner(self) -> T
        ensures { result ≡ self.inner }
    {
        let Through {
            inner,
            failed: _,
            reads: _,
        } = self;
        inner
    }
}

impl<T: Read> Source for Through<T> {
    ghost left = { λ _. None };

    ghost reads = { λ s. s.reads };

    ghost has_failed = { λ s. s.has_failed };

    fn failed(&self) -> bool {
        self.failed
    }

    /// Reads once from the reader, and again where that is interrupted.
    fn read_some(&mut self, buffer: &mut [u8]) -> Result<usize, Failed>
        requires { self.old.has_failed ≡ false }
        ensures bound { IfOk result (λ n. n ≤ length buffer.new) }
        ensures counted { self.new.reads ≡ self.old.reads + 1 }
        ensures fails { self.new.has_failed ≡ is_err result }

        // What is known of the reader's own bytes stays known.
        ensures inner { ReadConsumes
            (T.remaining self.old.inner) (T.remaining self.new.inner) result buffer.new }
    {
        self.reads.count();
        match read_repeatedly(&mut self.inner, buffer) {
            Ok(n) => Ok(n),
            Err(_) => {
                self.failed = true;
                Err(Failed)
            }
        }
    }
}

impl<T: Write> Sink for Through<T> {
    ghost taken = { λ _. None };

    ghost has_failed = { λ s. s.has_failed };

    fn failed(&self) -> bool {
        self.failed
    }

    /// Writes once to the writer, and again where that is interrupted.
    fn write_some(&mut self, bytes: &[u8]) -> Result<usize, Failed>
        requires { self.old.has_failed ≡ false }
        ensures bound { IfOk result (λ n. n ≤ length bytes.now) }
        ensures fails { self.new.has_failed ≡ stalls result bytes.now }

        // What is known of the writer's own bytes stays known.
        ensures inner { WriteAppends
            (T.contents self.old.inner) (T.contents self.new.inner) result bytes.now }
    {
        match write_repeatedly(&mut self.inner, bytes) {
            Ok(n) => {
                self.failed = n == 0 && !bytes.is_empty();
                Ok(n)
            }
            Err(_) => {
                self.failed = true;
                Err(Failed)
            }
        }
    }
}

/// Reads once from a reader, and again as long as that is interrupted, up to the last repeat.
fn read_repeatedly<T: Read>(reader: &mut T, buffer: &mut [u8]) -> io::Result<usize>
    ensures bound { IfOk result (λ n. n ≤ length buffer.new) }
    ensures bytes { ReadConsumes (T.remaining reader.old) (T.remaining reader.new) result buffer.new }
{
    for _ in 0..MAX_REPEATS {
        match reader.read(buffer) {
            Err(error) if error.kind() == ErrorKind::Interrupted => {}
            answer => return answer,
        }
    }
    reader.read(buffer)
}

/// Writes once to a writer, and again as long as that is interrupted, up to the last repeat.
fn write_repeatedly<T: Write>(writer: &mut T, bytes: &[u8]) -> io::Result<usize>
    ensures bound { IfOk result (λ n. n ≤ length bytes.now) }
    ensures bytes { WriteAppends (T.contents writer.old) (T.contents writer.new) result bytes.now }
{
    for _ in 0..MAX_REPEATS {
        match writer.write(bytes) {
            Err(error) if error.kind() == ErrorKind::Interrupted => {}
            answer => return answer,
        }
    }
    writer.write(bytes)
}
