//! A register that is read as it comes.

ghost use Rattle.std.specs.Prelude.{◌≡◌, ◌≤◌, ◌++◌, ◌∷◌, [], ℕ, List, None, IsTrue, true, false, length, drop, OnOk, OnErr, IfOk, IfErr};
ghost use Rattle.std.specs.List.{AllByRecursion};
ghost use Rattle.work_registry.specs.History.{IsHistory};
ghost use Rattle.work_registry.specs.Numbers.{max_entries};
ghost use Rattle.work_registry.specs.Register.{register_text, IsWholeEntry};
ghost use Rattle.work_registry.specs.RegisterFaults.{has_end, IsRefusal};
ghost use Rattle.work_registry.specs.RegisterReader.{IsRest};
ghost use Rattle.work_registry.specs.Replay.{is_opening};

use super::line_reader::LineReader;
use super::refusal::RegisterRefusal;
use crate::book::Book;
use std::alloc::{Allocator, Global};
use std::marker::Model;

/// Reads the book of a register that comes a chunk at a time.
///
/// A contract sees the limit of entries, how many the first line states, once it was read, and the entries so far.
#[derive(Drop)]
pub struct RegisterReader<A: Allocator + Copy + Drop = Global> {
    lines: LineReader<A>,
}

impl<A: Allocator + Copy + Drop> Model for RegisterReader<A> {
    ghost use Rattle.std.specs.Prelude.{◌≡◌, true};
    ghost use Rattle.work_registry.specs.RegisterReader.{ReaderState};

    ghost Value = { ReaderState };

    ghost view = { λ r. r.lines.read };

    ghost invariant = { λ r. r.lines.keeps ≡ true };
}

impl<A: Allocator + Copy + Drop> RegisterReader<A> {
    /// Begins before the first line, for a book with this limit. No memory is asked for.
    pub fn new(alloc: A, limit: u32) -> RegisterReader<A>
        requires least { 1 ≤ limit }
        requires most { limit ≤ max_entries }
        ensures { result ≡ record { limit = limit; count = None; history = [] } }
    {
        RegisterReader {
            lines: LineReader::new(alloc, limit, true),
        }
    }

    /// Reads the complete lines of a chunk, and returns how many bytes they are. What stands behind them must come
    /// again, with what follows it.
    ///
    /// A refusal is that of the complete register, whatever follows the chunk.
    pub fn take_lines(&mut self, chunk: &[u8]) -> Result<usize, RegisterRefusal>
        ensures within { IfOk result (λ count. count ≤ length chunk.now) }
        ensures whole { IfOk result (λ count. has_end (drop count chunk.now) ≡ false) }
        ensures read { IfOk result (λ count. (text later : List ℕ) → IsRest self.old text (chunk.now ++ later) → IsRest self.new text (drop count chunk.now ++ later)) }
        ensures limit { self.new.limit ≡ self.old.limit }
        ensures fault { IfErr result (λ refusal. (text later : List ℕ) → IsRest self.old text (chunk.now ++ later) → IsRefusal self.old.limit text refusal) }
    {
        self.lines.take_lines(chunk)
    }

    /// Reads the rest of the register, and returns its book. All its entries are of the opening, session 0.
    pub fn finish(self, rest: &[u8]) -> Result<Book<A>, RegisterRefusal>
        ensures text { IfOk result (λ book. (text : List ℕ) → IsRest self text rest.now → text ≡ register_text book.history) }
        ensures whole { IfOk result (λ book. (text : List ℕ) → IsRest self text rest.now → AllByRecursion IsWholeEntry book.history) }
        ensures lawful { IfOk result (λ book. IsHistory book.history) }
        ensures opening { IfOk result (λ book. IsTrue (is_opening book.history)) }
        ensures limit { IfOk result (λ book. book.limit ≡ self.limit) }
        ensures fault { IfErr result (λ refusal. (text : List ℕ) → IsRest self text rest.now → IsRefusal self.limit text refusal) }
    {
        let lines = self.lines.finish(rest)?;
        Ok(lines.into_book())
    }
}
