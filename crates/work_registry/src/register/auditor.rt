//! A register that is audited as it comes.

ghost use Rattle.std.specs.Prelude.{◌≡◌, ◌≤◌, ◌++◌, ◌∷◌, [], ℕ, List, None, false, length, drop, OnOk, IfOk, IfErr};
ghost use Rattle.work_registry.specs.Numbers.{max_entries};
ghost use Rattle.work_registry.specs.Register.{IsAudited};
ghost use Rattle.work_registry.specs.RegisterFaults.{has_end, IsRefusal};
ghost use Rattle.work_registry.specs.RegisterReader.{IsRest};

use super::line_reader::LineReader;
use super::refusal::RegisterRefusal;
use cwr_field::MAX_COUNT;
use std::alloc::{Allocator, Global};
use std::marker::Model;

/// Audits a register that comes a chunk at a time. No entry is kept, only what is needed to decide on the next one.
///
/// A contract sees the limit of entries, how many the first line states, once it was read, and the entries so far.
#[derive(Drop)]
pub struct Auditor<A: Allocator + Copy + Drop = Global> {
    lines: LineReader<A>,
}

impl<A: Allocator + Copy + Drop> Model for Auditor<A> {
    ghost use Rattle.std.specs.Prelude.{◌≡◌};
    ghost use Rattle.work_registry.specs.Numbers.{max_entries};
    ghost use Rattle.work_registry.specs.RegisterReader.{ReaderState};

    ghost Value = { ReaderState };

    ghost view = { λ a. a.lines.read };

    ghost invariant = { λ a. a.lines.read.limit ≡ max_entries };
}

impl<A: Allocator + Copy + Drop> Auditor<A> {
    /// Begins before the first line. No memory is asked for.
    pub fn new(alloc: A) -> Auditor<A>
        ensures { result ≡ record { limit = max_entries; count = None; history = [] } }
    {
        Auditor {
            lines: LineReader::new(alloc, MAX_COUNT, false),
        }
    }

    /// Reads the complete lines of a chunk, and returns how many bytes they are. What stands behind them must come
    /// again, with what follows it.
    ///
    /// A refusal is that of the complete register, whatever follows the chunk.
    pub fn take_lines(&mut self, chunk: &[u8]) -> Result<usize, RegisterRefusal>
        ensures within { IfOk result (λ count. count ≤ length chunk.now) }
        ensures whole { IfOk result (λ count. has_end (drop count chunk.now) ≡ false) }
        ensures read { IfOk result (λ count. (text later : List ℕ) → IsRest self.old text (chunk.now ++ later) → IsRest self.new text (drop count chunk.now ++ later)) }
        ensures limit { self.new.limit ≡ self.old.limit }
        ensures fault { IfErr result (λ refusal. (text later : List ℕ) → IsRest self.old text (chunk.now ++ later) → IsRefusal max_entries text refusal) }
    {
        self.lines.take_lines(chunk)
    }

    /// Reads the rest of the register, and returns how many entries the register has.
    pub fn finish(self, rest: &[u8]) -> Result<u64, RegisterRefusal>
        ensures entries { IfOk result (λ count. (text : List ℕ) → IsRest self text rest.now → IsAudited text count) }
        ensures fault { IfErr result (λ refusal. (text : List ℕ) → IsRest self text rest.now → IsRefusal max_entries text refusal) }
    {
        let lines = self.lines.finish(rest)?;
        Ok(lines.history_index.len() as u64)
    }
}
