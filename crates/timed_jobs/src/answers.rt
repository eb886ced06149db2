//! A digest of acknowledgements that is the same in every order of the files.

ghost use Rattle.std.specs.Prelude.{◌≡◌, false};

use crate::digest::Digest;
use byte_streams::{Failed, Sink};
use memchr::memchr;

/// The record type of an acknowledged transaction, its three bytes as one number.
const ACK: u32 = 0x41_43_4b;

/// The number of bytes of an ACK record before the registry's number of the work.
const BEFORE_WORK: usize = 129;

/// As many, with the eight digits of that number.
const WITH_WORK: usize = 137;

/// A digest of the lines of an acknowledgement, without the registry's number of the work in each ACK record, which
/// depends on which file was decided first. The same lines give the same digest, however they are cut into pieces.
#[derive(Clone, Copy)]
pub(crate) struct AckDigest {
    digest: Digest,
    /// The first three bytes of the line, or as many as there were, as one number.
    kind: u32,
    /// The number of bytes of the line so far.
    column: usize,
}

impl AckDigest {
    pub(crate) fn new() -> AckDigest
        ensures { result.digest.failed ≡ false }
    {
        AckDigest {
            digest: Digest::new(),
            kind: 0,
            column: 0,
        }
    }

    /// The digest of all that was taken.
    pub(crate) fn sum(&self) -> u64 {
        self.digest.sum()
    }

    /// Takes bytes, behind those before.
    fn text(&mut self, text: &[u8])
        ensures { self.new.digest.failed ≡ self.old.digest.failed }
    {
        let mut rest = text;
        while let Some(end) = memchr(b'\n', rest) {
            let (line, more) = rest.split_at(end);
            self.part(line);
            let Some((last, more)) = more.split_first() else {
                break;
            };
            self.digest.text(&[*last]);
            self.kind = 0;
            self.column = 0;
            rest = more;
        }
        self.part(rest);
    }

    /// Takes bytes of one line, behind those before of it.
    fn part(&mut self, part: &[u8])
        ensures { self.new.digest.failed ≡ self.old.digest.failed }
    {
        let rest = self.typed(part);
        if self.kind == ACK {
            let rest = self.front(rest, BEFORE_WORK, true);
            let rest = self.front(rest, WITH_WORK, false);
            self.digest.text(rest);
        } else {
            self.digest.text(rest);
        }
    }

    /// Takes the bytes that are missing from the record type, and returns what is behind them.
    fn typed<'a>(&mut self, part: &'a [u8]) -> &'a [u8]
        ensures { self.new.digest.failed ≡ self.old.digest.failed }
    {
        let mut rest = part;
        while let Some((first, more)) = rest.split_first() {
            if self.column >= 3 {
                break;
            }
            self.kind = self.kind.wrapping_mul(256).wrapping_add(*first as u32);
            self.digest.text(&[*first]);
            self.column = self.column.saturating_add(1);
            rest = more;
        }
        rest
    }

    /// Skips the bytes before this column, and returns what is behind them. `counts` says whether they go into the
    /// digest.
    fn front<'a>(&mut self, part: &'a [u8], column: usize, counts: bool) -> &'a [u8]
        ensures { self.new.digest.failed ≡ self.old.digest.failed }
    {
        let lacking = column.saturating_sub(self.column);
        let (front, rest) = part.split_at(lacking.min(part.len()));
        if counts {
            self.digest.text(front);
        }
        self.column = self.column.saturating_add(front.len());
        rest
    }
}

impl Sink for AckDigest {
    ghost use Rattle.std.specs.Prelude.{None};

    ghost taken = { λ _. None };

    ghost has_failed = { λ d. d.digest.failed };

    fn failed(&self) -> bool {
        self.digest.failed()
    }

    fn write_some(&mut self, bytes: &[u8]) -> Result<usize, Failed> {
        self.text(bytes);
        Ok(bytes.len())
    }
}
