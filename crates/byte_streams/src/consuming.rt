//! A text that is consumed as it comes from its source, through a window.

ghost use Rattle.std.specs.Prelude.{◌≡◌, ◌+◌, ◌≤◌, ◌++◌, ℕ, List, Bool, true, false, length, drop, IfOk, IfErr, IfSome, OnOk};
ghost use Rattle.std.specs.Io.KnownBytes.{IsAtEnd};
ghost use Rattle.byte_streams.specs.Consuming.{IsAnswerTo, IsUnconsumed};
ghost use Rattle.byte_streams.specs.GivenBytes.{HasGiven};

use crate::{ReadRefused, Source, Window};
use std::alloc::Allocator;

/// Consumes a text that comes a chunk at a time, and makes a value from it.
pub trait Consumer: Drop {
    /// The value that is made from the complete text.
    type Made;

    /// Why no value is made from the text.
    type Refusal: Drop;

    // The second consumer is what the first has become since: of this text, these last bytes are left.
    ghost has_left: { Self → Self → List ℕ → List ℕ → Type 0 };

    // A text may be this many bytes long.
    ghost allows: { ℕ → Type 0 };

    // The consumer makes this value from this text.
    ghost is_made: { Self → Self.Made → List ℕ → Type 0 };

    // The text is refused with this refusal.
    ghost is_refusal: { Self.Refusal → List ℕ → Type 0 };

    // The refusal is for out of memory, whatever the text is.
    ghost is_memory: { Self.Refusal → Bool };

    /// Whether a refusal is for out of memory.
    fn is_memory(refusal: &Self::Refusal) -> bool
        ensures { result ≡ is_memory refusal.now };

    /// Consumes the complete lines at the front of a chunk, and returns how many bytes they are.
    fn take(&mut self, chunk: &[u8]) -> Result<usize, Self::Refusal>
        requires { (first : Self) × (text later : List ℕ) × (limit : ℕ) × allows limit × (length text ≤ limit + length later) × has_left first self.old text (chunk.now ++ later) }
        ensures within { IfOk result (λ count. count ≤ length chunk.now) }
        ensures left { IfOk result (λ count. (first : Self) (text later : List ℕ) → has_left first self.old text (chunk.now ++ later) → has_left first self.new text (drop count chunk.now ++ later)) }
        ensures fault { IfErr result (λ refusal. (first : Self) (text later : List ℕ) → has_left first self.old text (chunk.now ++ later) → is_refusal refusal text) };

    /// Consumes the rest of the text.
    fn end(self, rest: &[u8]) -> Result<Self::Made, Self::Refusal>
        requires { (first : Self) × (text : List ℕ) × (limit : ℕ) × allows limit × (length text ≤ limit) × has_left first self text rest.now }
        ensures made { IfOk result (λ made. (first : Self) (text : List ℕ) → has_left first self text rest.now → is_made first made text) }
        ensures fault { IfErr result (λ refusal. (first : Self) (text : List ℕ) → has_left first self text rest.now → is_refusal refusal text) };
}

/// Why the text of a source was not consumed.
#[derive(Clone, Copy, Debug, PartialEq, Eq)]
pub enum ConsumeError<R> {
    /// It was not read to its end, or memory was refused.
    Unread(ReadRefused),
    /// Its consumer refused it.
    Refused(R),
}

/// What a consumer makes of the text that a source gives.
///
/// - `alloc` is where the window gets its memory.
/// - `reader` is the source, and has not failed.
/// - `limit` is the greatest number of bytes of the text.
/// - `capacity` is the size of the window in bytes. The window grows beyond it only for a line that is longer.
/// - `consumer` is given the text as it comes.
///
/// Where the consumer refuses the text, the source is read to its end before the refusal is returned. A refusal for out
/// of memory is returned at once.
pub fn consume<S: Source, C: Consumer, A: Allocator>(
    alloc: A,
    reader: &mut S,
    limit: usize,
    capacity: usize,
    mut consumer: C,
) -> Result<C::Made, ConsumeError<C::Refusal>>
    requires going { S.has_failed reader.old ≡ false }
    requires allowed { C.allows limit }
    requires first { (text : List ℕ) → C.has_left consumer consumer text text }
    ensures made { IfOk result (λ made. (text : List ℕ) × IfSome (S.left reader.old) (λ bytes. text ≡ bytes) × (length text ≤ limit) × C.is_made consumer made text) }
    ensures going { OnOk result (S.has_failed reader.new ≡ false) }
    ensures unconsumed { IfErr result (IsUnconsumed C.is_refusal C.is_memory limit (S.left reader.old) (S.has_failed reader.new)) }
    ensures read_on { HasGiven (S.left reader.old) (S.left reader.new) }
    ensures few_reads { S.reads reader.new ≤ S.reads reader.old + limit + 1 }
{
    let Ok(mut window) = Window::new(alloc, limit, capacity) else {
        return Err(ConsumeError::Unread(ReadRefused::Memory));
    };
    while !window.is_ended() {
        match consumer.take(window.held()) {
            Ok(count) => window.pass(count),
            Err(refusal) => return Err(refused::<S, C, A>(&mut window, reader, refusal)),
        }
        match window.fill_line(reader) {
            Ok(()) => {}
            Err(stopped) => return Err(ConsumeError::Unread(stopped)),
        }
    }
    match consumer.end(window.held()) {
        Ok(made) => Ok(made),
        Err(refusal) => Err(refused::<S, C, A>(&mut window, reader, refusal)),
    }
}

/// The error for a text that its consumer refused. A refusal for out of memory is returned at once; any other one once
/// the source was read to its end.
fn refused<S: Source, C: Consumer, A: Allocator>(
    window: &mut Window<A>,
    reader: &mut S,
    refusal: C::Refusal,
) -> ConsumeError<C::Refusal>
    requires going { S.has_failed reader.old ≡ false }
    requires at_end { window.old.is_ended ≡ true → IsAtEnd (S.left reader.old) }
    requires within { window.old.read ≤ window.old.limit }
    ensures answer { IsAnswerTo C.is_memory window.old (S.left reader.old) (S.left reader.new) (S.has_failed reader.new) refusal result }
    ensures read_on { HasGiven (S.left reader.old) (S.left reader.new) }
    ensures few_reads { S.reads reader.new + window.old.read ≤ S.reads reader.old + window.old.limit + 1 }
    ensures none { window.old.is_ended ≡ true → S.reads reader.new ≡ S.reads reader.old }
{
    if C::is_memory(&refusal) {
        return ConsumeError::Unread(ReadRefused::Memory);
    }
    match window.drain(reader) {
        Ok(()) => ConsumeError::Refused(refusal),
        Err(stopped) => ConsumeError::Unread(stopped),
    }
}
