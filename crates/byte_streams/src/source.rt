ghost use Rattle.std.specs.Prelude.{◌≡◌, ◌+◌, ◌≤◌, ℕ, List, Option, Bool, false, length, IfOk, is_err};
ghost use Rattle.std.specs.Io.KnownBytes.{ReadConsumes};

use crate::Failed;

/// Something that gives bytes, a few at a time.
///
/// Once a read failed the source has failed, and no call may read it again.
pub trait Source {
    // The bytes that reads will give from here on; `None` for a type whose bytes contracts do not see.
    ghost left: { Self → Option (List ℕ) };

    // The number of reads so far, the failed one included.
    ghost reads: { Self → ℕ };

    // A read failed.
    ghost has_failed: { Self → Bool };

    /// Whether a read failed.
    fn failed(&self) -> bool
        ensures { result ≡ has_failed self.now };

    /// Reads the next bytes into the front of the buffer, and returns how many: at most as many as the buffer holds.
    ///
    /// It returns 0 for a buffer that is not empty only at the end of the source. What the buffer holds behind the
    /// bytes that were read is left open. A read that returns [`Failed`] gave no byte.
    fn read_some(&mut self, buffer: &mut [u8]) -> Result<usize, Failed>
        requires { has_failed self.old ≡ false }
        ensures bound { IfOk result (λ n. n ≤ length buffer.new) }
        ensures bytes { ReadConsumes (left self.old) (left self.new) result buffer.new }
        ensures counted { reads self.new ≡ reads self.old + 1 }
        ensures fails { has_failed self.new ≡ is_err result };

    /// Tells the source that no more of its text is read. It may give back what it holds for its reads, as an open
    /// file.
    ///
    /// That is no read.
    fn end_text(&mut self)
        ensures bytes { left self.new ≡ left self.old }
        ensures counted { reads self.new ≡ reads self.old }
        ensures fails { has_failed self.new ≡ has_failed self.old }
    {}
}
