//! The text of a history, chunk after chunk.

ghost use Rattle.std.specs.Prelude.{◌≡◌, ◌++◌, ◌∷◌, ℕ, List, [], ◌+◌, ◌<◌, ◌≤◌, ◌^◌, true, false, length, vec_len, vec_capacity, OnOk, IfOk};
ghost use Rattle.std.specs.List.{flat_map, AllByRecursion};
ghost use Rattle.cwr_record.specs.Lines.{Fits, line_of};
ghost use Rattle.work_registry.specs.EntryValue.{EntryValue};
ghost use Rattle.work_registry.specs.RegisterColumns.{head_width};
ghost use Rattle.work_registry.specs.RegisterLine.{fault, IsTyped};
ghost use Rattle.work_registry.specs.Register.{entry_line, entry_lines, count_line, register_text, FitsEntry, IsWholeEntry};
ghost use Rattle.work_registry.specs.RegisterInChunks.{text_from, FitsNext};

use super::columns::HEAD_WIDTH;
use super::writing::{fault_line, first_line, head_for, head_line, room_for};
use crate::book::Book;
use crate::entry::Entry;
use cwr_call::Fault;
use cwr_field::Memory;
use std::alloc::{Allocator, Global};
use std::marker::Model;

/// The register of a book as a text that comes in chunks.
///
/// A contract sees the current chunk, and the bytes that come after it.
#[derive(Drop)]
pub struct RegisterChunks<'a, A: Allocator + Copy + Drop = Global> {
    held: Vec<u8, A>,
    rest: Rest<'a, A>,
}

impl<'a, A: Allocator + Copy + Drop> Model for RegisterChunks<'a, A> {
    ghost use Rattle.std.specs.Prelude.{◌≤◌, vec_capacity};
    ghost use Rattle.work_registry.specs.RegisterColumns.{head_width};
    ghost use Rattle.work_registry.specs.RegisterInChunks.{ChunksState};

    ghost Value = { ChunksState };

    ghost view = { λ p. record { held = p.held.items; left = p.rest } };

    ghost invariant = { λ p. head_width ≤ vec_capacity p.held };
}

impl<A: Allocator + Copy + Drop> Book<A> {
    /// The register of this book, as [`Book::write_register`] writes it, in chunks of up to `capacity` bytes.
    ///
    /// All its memory, `capacity` bytes, is asked for here. No later call asks for any. `capacity` is at least 173, the
    /// width of the fields of fixed place in the line of an entry.
    pub fn register_chunks(
        &self,
        alloc: A,
        capacity: usize,
    ) -> Result<RegisterChunks<'_, A>, Memory>
        requires room { head_width ≤ capacity }
        ensures text { IfOk result (λ chunks. chunks.left ≡ register_text self.now.history) }
        // This is what [`crate::read_register`] requires of a history that it reads back.
        ensures whole { OnOk result (AllByRecursion IsWholeEntry self.now.history) }
        ensures short { IfOk result (λ chunks. length chunks.left < 2 ^ 63) }
    {
        let entries = self.history();
        see_entries(entries);
        Ok(RegisterChunks {
            held: Vec::with_capacity(alloc, capacity)?,
            rest: Rest {
                next: Next::Count,
                entries,
                index: 1,
            },
        })
    }
}

impl<A: Allocator + Copy + Drop> RegisterChunks<'_, A> {
    /// Goes on to the next chunk. It is empty only where no bytes are left.
    pub fn advance(&mut self)
        ensures text { self.old.left ≡ self.new.held ++ self.new.left }
        ensures none { self.new.held ≡ [] → self.old.left ≡ [] }
    {
        self.held.clear();
        self.rest.fill(&mut self.held);
    }

    /// The current chunk. It is empty before the first call of [`RegisterChunks::advance`].
    pub fn chunk(&self) -> &[u8]
        ensures { result.now ≡ self.now.held }
    {
        self.held.as_slice()
    }
}

/// What comes next of a register.
#[derive(Clone, Copy)]
enum Next<'a> {
    /// The first line.
    Count,
    /// The line of an entry.
    Entry,
    /// These faults of a line that was begun, and its end.
    Faults(&'a [Fault]),
}

/// What is left of a register. A contract sees its bytes.
#[derive(Drop)]
struct Rest<'a, A: Allocator> {
    next: Next<'a>,
    /// The entries whose lines were not begun.
    entries: &'a [Entry<A>],
    /// The position of the first of them in the register, from 1.
    index: u32,
}

impl<'a, A: Allocator> Model for Rest<'a, A> {
    ghost use Rattle.std.specs.Prelude.{ℕ, List};
    ghost use Rattle.work_registry.specs.RegisterInChunks.{text_from, FitsFrom};

    ghost Value = { List ℕ };

    ghost view = { λ r. text_from r.next r.index r.entries.now };

    ghost invariant = { λ r. FitsFrom r.next r.index r.entries.now };
}

impl<A: Allocator> Rest<'_, A> {
    /// Puts what is left, as long as there is room for the fields of fixed place in a line.
    fn fill(&mut self, held: &mut Vec<u8, A>)
        requires empty { held.old.items ≡ [] }
        requires room { head_width ≤ vec_capacity held.old }
        ensures text { self.old ≡ held.new.items ++ self.new }
        ensures none { held.new.items ≡ [] → self.old ≡ [] }
        ensures all { vec_len held.new + head_width ≤ vec_capacity held.new → self.new ≡ [] }
        ensures room { vec_capacity held.old ≤ vec_capacity held.new }
    {
        while held.capacity() - held.len() >= HEAD_WIDTH {
            if !self.put_next(held) {
                return;
            }
        }
    }

    /// Puts what comes next, for which there is room. Returns whether anything was left.
    fn put_next(&mut self, held: &mut Vec<u8, A>) -> bool
        requires room { vec_len held.old + head_width ≤ vec_capacity held.old }
        ensures text { held.old.items ++ self.old ≡ held.new.items ++ self.new }
        ensures none { result ≡ false → self.new ≡ [] }
        ensures some { result ≡ true → length held.old.items < length held.new.items }
        ensures room { vec_capacity held.old ≤ vec_capacity held.new }
    {
        match self.next {
            Next::Count => self.next = put_count(held, self.entries.len()),
            Next::Entry => {
                let Some((entry, rest)) = self.entries.split_first() else {
                    return false;
                };
                self.next = put_head(held, self.index, entry);
                self.entries = rest;
                self.index += 1;
            }
            Next::Faults(faults) => self.next = put_fault(held, faults),
        }
        true
    }
}

/// Puts the first line, and returns what comes next.
fn put_count<'a, A: Allocator>(held: &mut Vec<u8, A>, count: usize) -> Next<'a>
    requires few { count < 10 ^ 8 }
    requires room { vec_len held.old + head_width ≤ vec_capacity held.old }
    ensures text { (index : ℕ) → (entries : List EntryValue) → held.old.items ++ (count_line count ++ entry_lines index entries) ≡ held.new.items ++ text_from result index entries }
    ensures fits { FitsNext result }
    ensures grows { length held.old.items < length held.new.items }
    ensures room { vec_capacity held.old ≤ vec_capacity held.new }
{
    append(held, first_line(count).bytes());
    append(held, b"\n");
    Next::Entry
}

/// Puts the fields of fixed place in the line of an entry, and returns what comes next.
fn put_head<'a, A: Allocator>(held: &mut Vec<u8, A>, index: u32, entry: &'a Entry<A>) -> Next<'a>
    requires index { index < 10 ^ 8 }
    requires fits { FitsEntry entry.now }
    requires room { vec_len held.old + head_width ≤ vec_capacity held.old }
    ensures text { (entries : List EntryValue) → held.old.items ++ (entry_line index entry.now.call entry.now.reply ++ entry_lines (index + 1) entries) ≡ held.new.items ++ text_from result (index + 1) entries }
    ensures fits { FitsNext result }
    ensures grows { length held.old.items < length held.new.items }
    ensures room { vec_capacity held.old ≤ vec_capacity held.new }
{
    append(held, head_line(&head_for(index, entry)).bytes());
    Next::Faults(entry.call().faults())
}

/// Puts the first of these faults or, where there is none, the end of the line. Returns what comes next.
fn put_fault<'a, A: Allocator>(held: &mut Vec<u8, A>, faults: &'a [Fault]) -> Next<'a>
    requires fit { AllByRecursion (Fits fault) faults.now }
    requires room { vec_len held.old + head_width ≤ vec_capacity held.old }
    ensures text { (index : ℕ) → (entries : List EntryValue) → held.old.items ++ (flat_map (line_of fault) faults.now ++ 10 ∷ entry_lines index entries) ≡ held.new.items ++ text_from result index entries }
    ensures fits { FitsNext result }
    ensures grows { length held.old.items < length held.new.items }
    ensures room { vec_capacity held.old ≤ vec_capacity held.new }
{
    match faults.split_first() {
        None => {
            append(held, b"\n");
            Next::Entry
        }
        Some((fault, rest)) => {
            append(held, fault_line(fault).bytes());
            Next::Faults(rest)
        }
    }
}

/// Appends bytes, for which there is room. No memory is asked for.
fn append<A: Allocator>(held: &mut Vec<u8, A>, bytes: &[u8])
    requires { vec_len held.old + length bytes.now ≤ vec_capacity held.old }
    ensures text { held.new.items ≡ held.old.items ++ bytes.now }
    ensures room { vec_capacity held.old ≤ vec_capacity held.new }
{
    let Ok(()) = held.extend_from_slice(bytes) else {
        unreachable!()
    };
}

/// The register of these entries. All memory is asked for at once.
pub(super) fn register_of<A: Allocator>(
    alloc: A,
    entries: &[Entry<A>],
) -> Result<Vec<u8, A>, Memory>
    requires few { length entries.now < 10 ^ 8 }
    requires fit { AllByRecursion FitsEntry entries.now }
    ensures text { IfOk result (λ text. text.items ≡ register_text entries.now) }
    ensures whole { OnOk result (AllByRecursion IsWholeEntry entries.now) }
{
    see_entries(entries);
    let mut held = Vec::with_capacity(alloc, room_for(entries))?;
    let mut rest = Rest {
        next: Next::Count,
        entries,
        index: 1,
    };
    rest.fill(&mut held);
    Ok(held)
}

/// Reads each entry, which makes known to the check what holds of all.
fn see_entries<A: Allocator>(entries: &[Entry<A>])
    requires { AllByRecursion FitsEntry entries.now }
    ensures { AllByRecursion IsWholeEntry entries.now }
{
    for entry in entries {
        see_entry(entry);
    }
}

fn see_entry<A: Allocator>(entry: &Entry<A>)
    requires { FitsEntry entry.now }
    ensures { IsWholeEntry entry.now }
{
    let _ = head_for(1, entry);
    see_faults(entry.call().faults());
}

fn see_faults(faults: &[Fault])
    ensures { AllByRecursion IsTyped faults.now }
{
    for fault in faults {
        let _ = see_fault(fault);
    }
}

fn see_fault(fault: &Fault) -> [u8; 3]
    ensures { IsTyped fault.now }
{
    fault.rtype
}
