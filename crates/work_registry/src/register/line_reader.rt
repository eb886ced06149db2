//! The lines of a register, one after another. Audit and reading differ only in whether entries are kept.

ghost use Rattle.std.specs.Prelude.{◌≡◌, ◌≤◌, ◌<◌, ◌++◌, ◌∷◌, [], ℕ, List, None, Some, true, false, drop, length, IfSome, OnOk, OnErr, IfOk, IfErr};
ghost use Rattle.std.specs.List.{AllByRecursion};
ghost use Rattle.work_registry.specs.History.{IsHistory};
ghost use Rattle.work_registry.specs.Numbers.{max_entries};
ghost use Rattle.work_registry.specs.Register.{register_text, IsWholeEntry};
ghost use Rattle.work_registry.specs.RegisterFaults.{has_end, IsRefusal};
ghost use Rattle.work_registry.specs.RegisterReader.{IsRest};
ghost use Rattle.work_registry.specs.Replay.{is_opening};

use super::lines::cut_line;
use super::reading::{fault, first_count, next_number, no_line, read_line};
use super::refusal::RegisterRefusal;
use crate::book::Book;
use crate::entry::Entry;
use crate::history_index::HistoryIndex;
use std::alloc::Allocator;
use std::marker::Model;

/// Reads a register that comes a chunk at a time, and decides on each call again.
///
/// A contract sees the limit of entries, how many the first line states, once it was read, and the entries so far.
#[derive(Drop)]
pub(super) struct LineReader<A: Allocator + Copy + Drop> {
    alloc: A,
    pub(super) history_index: HistoryIndex<A>,
    /// How many entries the first line states, once it was read.
    count: Option<u32>,
    /// The greatest number of entries that there may be.
    limit: u32,
    /// Whether entries are kept.
    keeps: bool,
    /// The entries so far, where they are kept.
    history: Vec<Entry<A>, A>,
}

impl<A: Allocator + Copy + Drop> Model for LineReader<A> {
    ghost use Rattle.std.specs.Prelude.{◌≡◌, true};
    ghost use Rattle.work_registry.specs.RegisterReader.{IsReader, LinesState};

    ghost Value = { LinesState };

    ghost view = { λ r. record { keeps = r.keeps; read = record { limit = r.limit; count = r.count; history = r.history_index } } };

    ghost invariant = { λ r. IsReader r.limit r.count r.history_index × (r.keeps ≡ true → r.history.items ≡ r.history_index) };
}

impl<A: Allocator + Copy + Drop> LineReader<A> {
    /// Begins before the first line. No memory is asked for.
    pub(super) fn new(alloc: A, limit: u32, keeps: bool) -> LineReader<A>
        requires least { 1 ≤ limit }
        requires most { limit ≤ max_entries }
        ensures { result ≡ record { keeps = keeps; read = record { limit = limit; count = None; history = [] } } }
    {
        LineReader {
            alloc,
            history_index: HistoryIndex::new(alloc),
            count: None,
            limit,
            keeps,
            history: Vec::new(alloc),
        }
    }

    /// Reads the complete lines of a chunk, and returns how many bytes they are.
    pub(super) fn take_lines(&mut self, chunk: &[u8]) -> Result<usize, RegisterRefusal>
        ensures within { IfOk result (λ count. count ≤ length chunk.now) }
        ensures whole { IfOk result (λ count. has_end (drop count chunk.now) ≡ false) }
        ensures read { IfOk result (λ count. (text later : List ℕ) → IsRest self.old.read text (chunk.now ++ later) → IsRest self.new.read text (drop count chunk.now ++ later)) }
        ensures limit { self.new.read.limit ≡ self.old.read.limit }
        ensures keeps { self.new.keeps ≡ self.old.keeps }
        ensures fault { IfErr result (λ refusal. (text later : List ℕ) → IsRest self.old.read text (chunk.now ++ later) → IsRefusal self.old.read.limit text refusal) }
    {
        let mut rest = chunk;
        while let Some((line, more)) = cut_line(rest) {
            self.take_line(line)?;
            rest = more;
        }
        Ok(chunk.len() - rest.len())
    }

    /// Reads the rest of a register, to its end.
    pub(super) fn finish(mut self, rest: &[u8]) -> Result<LineReader<A>, RegisterRefusal>
        ensures text { IfOk result (λ lines. (text : List ℕ) → IsRest self.read text rest.now → text ≡ register_text lines.read.history) }
        ensures whole { IfOk result (λ lines. (text : List ℕ) → IsRest self.read text rest.now → AllByRecursion IsWholeEntry lines.read.history) }
        ensures lawful { IfOk result (λ lines. IsHistory lines.read.history) }
        ensures opening { IfOk result (λ lines. is_opening lines.read.history ≡ true) }
        ensures limit { IfOk result (λ lines. lines.read.limit ≡ self.read.limit) }
        ensures keeps { IfOk result (λ lines. lines.keeps ≡ self.keeps) }
        ensures fault { IfErr result (λ refusal. (text : List ℕ) → IsRest self.read text rest.now → IsRefusal self.read.limit text refusal) }
    {
        let taken = self.take_lines(rest)?;
        let left = &rest[taken..];
        let Some(count) = self.count else {
            return Err(no_line(left, 1));
        };
        let number = next_number(&self.history_index);
        if self.history_index.len() != count {
            return Err(no_line(left, number));
        }
        if !left.is_empty() {
            return Err(fault(2, number));
        }
        Ok(self)
    }

    /// Reads a line, given without its LF. With a refusal nothing is changed.
    fn take_line(&mut self, line: &[u8]) -> Result<(), RegisterRefusal>
        requires { has_end line.now ≡ false }
        ensures read { OnOk result ((text more : List ℕ) → IsRest self.old.read text (line.now ++ 10 ∷ more) → IsRest self.new.read text more) }
        ensures limit { self.new.read.limit ≡ self.old.read.limit }
        ensures keeps { self.new.keeps ≡ self.old.keeps }
        ensures unchanged { OnErr result (self.new ≡ self.old) }
        ensures fault { IfErr result (λ refusal. (text more : List ℕ) → IsRest self.old.read text (line.now ++ 10 ∷ more) → IsRefusal self.old.read.limit text refusal) }
    {
        let Some(count) = self.count else {
            self.count = Some(first_count(line, self.limit)?);
            return Ok(());
        };
        if self.history_index.len() == count {
            return Err(fault(2, next_number(&self.history_index)));
        }
        read_line(
            self.alloc,
            &mut self.history_index,
            line,
            self.keeps,
            &mut self.history,
        )?;
        Ok(())
    }

    /// The book of the entries so far. They were kept.
    pub(super) fn into_book(self) -> Book<A>
        requires { self.keeps ≡ true }
        ensures value { result ≡ record { history = self.read.history; limit = self.read.limit } }
        ensures opening { is_opening self.read.history ≡ true }
    {
        Book::opening_of(self.history, self.history_index, self.limit)
    }
}
