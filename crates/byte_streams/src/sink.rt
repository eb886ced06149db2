ghost use Rattle.std.specs.Prelude.{◌≡◌, ◌<◌, ◌≤◌, ℕ, List, Option, Bool, true, false, length, take, IfOk, IfErr, OnOk};
ghost use Rattle.std.specs.Io.KnownBytes.{Appends, WriteAppends};
ghost use Rattle.byte_streams.specs.Bytes.{stalls};

use crate::Failed;
use thiserror::Error;

/// Something that takes bytes, a few at a time.
///
/// Once a write failed, or took none of some bytes, the sink has failed, and no call may write to it again.
pub trait Sink {
    // The bytes that it took so far; `None` for a type whose bytes contracts do not see.
    ghost taken: { Self → Option (List ℕ) };

    // A write failed, or took none of some bytes.
    ghost has_failed: { Self → Bool };

    /// Whether a write failed, or took none of some bytes.
    fn failed(&self) -> bool
        ensures { result ≡ has_failed self.now };

    /// Takes the first of the bytes, and returns how many.
    ///
    /// A write that returns [`Failed`] took no byte.
    fn write_some(&mut self, bytes: &[u8]) -> Result<usize, Failed>
        requires { has_failed self.old ≡ false }
        ensures bound { IfOk result (λ n. n ≤ length bytes.now) }
        ensures bytes { WriteAppends (taken self.old) (taken self.new) result bytes.now }
        ensures fails { has_failed self.new ≡ stalls result bytes.now };

    /// Tells the sink that its text has ended. It may give back what it holds for its writes, as an open file.
    ///
    /// It took no more bytes by that, and a later write goes behind those that it took.
    fn end_text(&mut self)
        ensures bytes { taken self.new ≡ taken self.old }
        ensures fails { has_failed self.new ≡ has_failed self.old }
    {}
}

/// A text that did not go out completely: a write failed or took nothing after the first `sent` bytes of the text.
///
/// The sink took these bytes, which are fewer than all, and no others of the text.
#[derive(Clone, Copy, Debug, PartialEq, Eq, Error)]
#[error("write after {sent} bytes")]
pub struct WriteStopped {
    /// How many bytes the sink took.
    pub sent: u64,
}

/// Writes all the bytes into the sink, or the first of them up to a write that fails or takes none.
pub fn write_out<W: Sink>(writer: &mut W, bytes: &[u8]) -> Result<(), WriteStopped>
    requires { W.has_failed writer.old ≡ false }
    ensures all { OnOk result (Appends (W.taken writer.old) (W.taken writer.new) bytes.now) }
    ensures went_on { OnOk result (W.has_failed writer.new ≡ false) }

    // A stopped write left the first `sent` bytes, and a write of this call failed or took none of some bytes.
    ensures first { IfErr result (λ e.
        Appends (W.taken writer.old) (W.taken writer.new) (take e.sent bytes.now)) }
    ensures fewer { IfErr result (λ e. e.sent < length bytes.now) }
    ensures failed { IfErr result (λ _. W.has_failed writer.new ≡ true) }
{
    let mut sent = 0;
    while sent < bytes.len() {
        match writer.write_some(&bytes[sent..]) {
            Ok(0) | Err(_) => return Err(WriteStopped { sent: sent as u64 }),
            Ok(n) => sent += n,
        }
    }
    Ok(())
}
