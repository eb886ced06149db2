//! A text that is compared with another while it is written.
ghost use Rattle.std.specs.Prelude.{◌≡◌, ◌≢◌, ◌↔◌, ◌≤◌, ◌<◌, ℕ, List, Some, None, false, length, slice_get, take, IsTrue};
ghost use Rattle.cwr_verify.specs.Compared.{DiffersAt, IsUnlike, taken_of, written_in};

use byte_streams::{Failed, Sink};
use std::marker::Model;

/// A sink that takes the bytes of one text, in order, and then one byte that is another. It fails at any byte behind
/// that one.
#[derive(Drop)]
pub(crate) struct Compared<'a> {
    expected: &'a [u8],
    same: usize,
    other: Option<u8>,
    failed: bool,
}

impl<'a> Model for Compared<'a> {
    ghost use Rattle.cwr_verify.specs.Compared.{Compared, IsComparing};

    ghost Value = { Compared };

    ghost view = { λ c. record { expected = c.expected.now; same = c.same; other = c.other; failed = c.failed } };

    ghost invariant = { λ c. IsComparing (record { expected = c.expected.now; same = c.same; other = c.other; failed = c.failed }) };
}

impl<'a> Compared<'a> {
    /// A sink that takes this text.
    pub(crate) fn with(expected: &'a [u8]) -> Compared<'a>
        ensures { result ≡ record { expected = expected.now; same = 0; other = None; failed = false } }
    {
        Compared {
            expected,
            same: 0,
            other: None,
            failed: false,
        }
    }

    /// Whether the text was written completely, and nothing else.
    pub(crate) fn is_whole(&self) -> bool
        ensures { IsTrue result ↔ (written_in self.now ≡ self.now.expected) }
    {
        self.other.is_none() && self.same == self.expected.len()
    }

    /// The line of the text, from 1, at which what was written differs from it or ends.
    pub(crate) fn line(&self) -> usize
        ensures { (text : List ℕ) → IsUnlike self.now text → DiffersAt self.now.expected text result }
    {
        let ends = self.expected[..self.same]
            .iter()
            .filter(|byte| **byte == b'\n')
            .count();
        ends.saturating_add(1)
    }
}

impl<'a> Sink for Compared<'a> {
    ghost taken = { λ c. Some (taken_of c) };

    ghost has_failed = { λ c. c.failed };

    fn failed(&self) -> bool {
        self.failed
    }

    /// Takes the bytes up to the first that is not the next one of the text, or that one alone.
    fn write_some(&mut self, bytes: &[u8]) -> Result<usize, Failed> {
        let Some(first) = bytes.first() else {
            return Ok(0);
        };
        if self.other.is_some() {
            self.failed = true;
            return Err(Failed);
        }
        let same = same_front(bytes, &self.expected[self.same..]);
        if same == 0 {
            self.other = Some(*first);
            return Ok(1);
        }
        self.same += same;
        Ok(same)
    }
}

/// How many bytes at the front of two texts are the same.
fn same_front(one: &[u8], other: &[u8]) -> usize
    ensures within { result ≤ length one.now }
    ensures other { result ≤ length other.now }
    ensures same { take result one.now ≡ take result other.now }
    ensures no_more { result < length one.now → slice_get other.now result ≢ slice_get one.now result }
{
    let least = one.len().min(other.len());
    if one[..least] == other[..least] {
        return least;
    }
    for same in 0..least {
        if one[same] != other[same] {
            return same;
        }
    }
    least
}
