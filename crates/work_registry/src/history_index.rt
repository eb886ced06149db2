//! A registry that keeps no entry.

ghost use Rattle.std.specs.Prelude.{◌≡◌, ◌<◌, ◌≤◌, ◌++◌, ◌∷◌, [], length, OnOk, OnErr};
ghost use Rattle.work_registry.specs.EntryValue.{entry_of};
ghost use Rattle.work_registry.specs.Rows.{rows_of};
ghost use Rattle.work_registry.specs.Numbers.{max_entries};
ghost use Rattle.work_registry.specs.History.{IsHistory};
ghost use Rattle.work_registry.specs.Indexes.{decision_on};

use crate::deciding::{self, DecisionIndex};
use crate::indexes::{Decision, Indexes};
use crate::past::Past;
use cwr_call::Call;
use cwr_field::Memory;
use std::alloc::Allocator;
use std::marker::Model;
use std::snapshot::Snapshot;

/// The indexes of a history that is not kept itself. It answers each call as a book with that history does.
///
/// A contract sees the history.
#[derive(Drop)]
pub(crate) struct HistoryIndex<A: Allocator + Copy + Drop> {
    past: Past<A>,
    pub(crate) kept: Indexes<A>,
    /// How many entries there are.
    len: u32,
}

impl<A: Allocator + Copy + Drop> Model for HistoryIndex<A> {
    ghost use Rattle.std.specs.Prelude.{◌≡◌, ◌≤◌, List, length, nat_eq};
    ghost use Rattle.indexmap.specs.IndexMap.{get};
    ghost use Rattle.work_registry.specs.EntryValue.{EntryValue};
    ghost use Rattle.work_registry.specs.History.{IsHistory};
    ghost use Rattle.work_registry.specs.Indexes.{AreIndexes};
    ghost use Rattle.work_registry.specs.Numbers.{max_entries};
    ghost use Rattle.work_registry.specs.Rows.{rows_of, same_key};

    ghost Value = { List EntryValue };

    ghost view = { λ l. l.past };

    ghost invariant = { λ l. IsHistory l.past × (length l.past ≤ max_entries)
        × AreIndexes (rows_of l.past) (get same_key l.kept.claims) (get nat_eq l.kept.iswcs) l.kept.works.items
        × (l.len ≡ length l.past) };
}

impl<A: Allocator + Copy + Drop> HistoryIndex<A> {
    /// The indexes of no entry. No memory is asked for.
    pub(crate) fn new(alloc: A) -> HistoryIndex<A>
        ensures { result ≡ [] }
    {
        HistoryIndex {
            past: Past::of(&Vec::new(alloc)),
            kept: Indexes::new(alloc),
            len: 0,
        }
    }

    /// How many entries there are.
    pub(crate) fn len(&self) -> u32
        ensures value { result ≡ length self.now }
        ensures lawful { IsHistory self.now }
        ensures few { result ≤ max_entries }
    {
        self.len
    }

    /// Its indexes, by which it decides on the next call.
    fn known(&self) -> DecisionIndex<'_, A>
        ensures { result ≡ self.now }
    {
        DecisionIndex {
            past: Snapshot::of(&self.past),
            kept: &self.kept,
        }
    }

    /// What is decided on a call.
    pub(crate) fn decide(&self, call: &Call<A>) -> Decision
        ensures { result ≡ decision_on (rows_of self.now) call.now }
    {
        self.known().decide(call)
    }

    /// Adds a call with what is decided on it, as an entry of the opening. All memory is asked for before anything is
    /// written.
    pub(crate) fn enter(&mut self, call: &Call<A>, decision: Decision) -> Result<(), Memory>
        requires room { length self.old < max_entries }
        requires decided { decision ≡ decision_on (rows_of self.old) call.now }
        ensures entry { OnOk result (self.new ≡ self.old ++ entry_of 0 call.now decision.reply ∷ []) }
        ensures unchanged { OnErr result (self.new ≡ self.old) }
    {
        self.kept.make_room()?;
        self.kept
            .store(deciding::key(call), deciding::iswc(call), decision.change);
        self.past.push(call, decision.reply);
        self.len += 1;
        Ok(())
    }
}
