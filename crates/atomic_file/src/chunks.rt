//! A text that comes chunk after chunk.

ghost use Rattle.std.specs.Prelude.{◌≡◌, ◌++◌, ℕ, List, []};

/// A text that comes in chunks, so that it is never in memory as one.
///
/// Each call of [`Chunks::advance`] makes the next chunk. No call asks for memory, and none fails.
pub trait Chunks {
    // The current chunk.
    ghost held: { Self → List ℕ };

    // The bytes that come after the current chunk.
    ghost left: { Self → List ℕ };

    /// Goes on to the next chunk. It is empty only where no bytes are left.
    fn advance(&mut self)
        ensures text { left self.old ≡ held self.new ++ left self.new }
        ensures none { held self.new ≡ [] → left self.old ≡ [] };

    /// The current chunk.
    fn chunk(&self) -> &[u8]
        ensures { result.now ≡ held self.now };
}

/// A text in one chunk.
#[derive(Drop)]
pub(crate) struct OneChunk<'a> {
    chunk: &'a [u8],
    left: &'a [u8],
}

impl<'a> OneChunk<'a> {
    /// This text, before the first call of `advance`.
    pub(crate) fn new(text: &'a [u8]) -> OneChunk<'a>
        ensures { result.left.now ≡ text.now }
    {
        OneChunk {
            chunk: b"",
            left: text,
        }
    }
}

impl Chunks for OneChunk<'_> {
    ghost held = { λ text. text.chunk.now };

    ghost left = { λ text. text.left.now };

    fn advance(&mut self) {
        self.chunk = self.left;
        self.left = b"";
    }

    fn chunk(&self) -> &[u8] {
        self.chunk
    }
}
