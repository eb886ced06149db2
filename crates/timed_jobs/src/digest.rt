//! A digest of what the jobs leave.

ghost use Rattle.std.specs.Prelude.{◌≡◌, false};

use byte_streams::{Failed, Sink};

const PRIME: u64 = 0x0000_0100_0000_01b3;

/// A digest of bytes and numbers: the same ones in the same order give the same digest, however they are cut into
/// pieces.
#[derive(Clone, Copy)]
pub(crate) struct Digest {
    sum: u64,
    /// The bytes that are no complete word yet.
    held: u64,
    /// The number of these bytes.
    count: u8,
    failed: bool,
}

impl Digest {
    pub(crate) fn new() -> Digest
        ensures { result.failed ≡ false }
    {
        Digest {
            sum: 0xcbf2_9ce4_8422_2325,
            held: 0,
            count: 0,
            failed: false,
        }
    }

    /// Takes a number.
    pub(crate) fn number(&mut self, number: u64) {
        self.word(number);
    }

    /// Takes a text, behind those before.
    pub(crate) fn text(&mut self, text: &[u8])
        ensures { self.new.failed ≡ self.old.failed }
    {
        let rest = self.filled_up(text);
        let rest = self.words(rest);
        for byte in rest {
            self.byte(*byte);
        }
    }

    /// The digest of all that was taken.
    pub(crate) fn sum(&self) -> u64 {
        let mut whole = *self;
        whole.word(self.held);
        whole.word(self.count as u64);
        whole.sum
    }

    /// Takes the bytes that are missing from the held ones for a word, and returns what is behind them.
    fn filled_up<'a>(&mut self, text: &'a [u8]) -> &'a [u8]
        ensures { self.new.failed ≡ self.old.failed }
    {
        let mut rest = text;
        while let Some((first, more)) = rest.split_first() {
            if self.count == 0 {
                break;
            }
            self.byte(*first);
            rest = more;
        }
        rest
    }

    /// Takes the complete words, and returns what is behind them.
    fn words<'a>(&mut self, text: &'a [u8]) -> &'a [u8]
        ensures { self.new.failed ≡ self.old.failed }
    {
        let mut rest = text;
        while let Some((word, more)) = rest.split_first_chunk::<8>() {
            self.word(u64::from_be_bytes(*word));
            rest = more;
        }
        rest
    }

    fn byte(&mut self, byte: u8)
        ensures { self.new.failed ≡ self.old.failed }
    {
        self.held = self.held.wrapping_mul(256).wrapping_add(byte as u64);
        self.count = self.count.wrapping_add(1);
        if self.count == 8 {
            self.word(self.held);
            self.held = 0;
            self.count = 0;
        }
    }

    fn word(&mut self, word: u64)
        ensures { self.new.failed ≡ self.old.failed }
    {
        self.sum = (self.sum ^ word).wrapping_mul(PRIME).rotate_left(23);
    }
}

impl Sink for Digest {
    ghost use Rattle.std.specs.Prelude.{None};

    ghost taken = { λ _. None };

    ghost has_failed = { λ d. d.failed };

    fn failed(&self) -> bool {
        self.failed
    }

    fn write_some(&mut self, bytes: &[u8]) -> Result<usize, Failed> {
        self.text(bytes);
        self.failed = false;
        Ok(bytes.len())
    }
}
