ghost use Rattle.std.specs.Prelude.{◌≡◌, ◌==◌, ◌&&◌, ◌+◌, ◌^◌, if◌then◌else◌, ◌≤◌, ◌<◌, ◌↔◌, ◌∷◌, [], ◌++◌, true, length, map, take, drop, vec_len, vec_capacity, IfOk, IfErr, OnOk, OnErr};
ghost use Rattle.std.specs.List.{AllByRecursion};
ghost use Rattle.work_registry.specs.EntryValue.{entry_of};
ghost use Rattle.work_registry.specs.Rows.{rows_of};
ghost use Rattle.work_registry.specs.Works.{work_of_iswc, control_of};
ghost use Rattle.work_registry.specs.Claims.{claim_of};
ghost use Rattle.work_registry.specs.Reply.{reply_to};
ghost use Rattle.work_registry.specs.Numbers.{max_entries, IsNumbered};
ghost use Rattle.work_registry.specs.History.{IsHistory, IsShared, IsNamedOnce};
ghost use Rattle.work_registry.specs.Replay.{is_opening};
ghost use Rattle.work_registry.specs.Register.{opened};
ghost use Rattle.work_registry.specs.Refusals.{is_full};
ghost use Rattle.work_registry.specs.Indexes.{decision_on};
ghost use Rattle.work_registry.specs.declared.refused.HandInError.TheVariants.{Memory};

use crate::claim::Claim;
use crate::deciding::{self, DecisionIndex};
use crate::entry::Entry;
use crate::history_index::HistoryIndex;
use crate::indexes::{Decision, Indexes};
use crate::key::Key;
use crate::past::Past;
use crate::refused::{HandInError, Refused};
use crate::reply::Reply;
use cwr_call::Call;
use std::alloc::{Allocator, Global};
use std::marker::Model;
use std::snapshot::Snapshot;

/// A registry of works: every call that it answered, in order, with its reply.
///
/// It holds at most as many entries as its limit, which is from 1 to 99,999,999. A contract sees the record of its
/// history and its limit.
#[derive(Drop)]
pub struct Book<A: Allocator + Copy + Drop = Global> {
    history: Vec<Entry<A>, A>,
    kept: Indexes<A>,
    limit: u32,
    /// The number of entries at the front that are of the opening (session 0), up to the first that is not.
    opening: usize,
}

impl<A: Allocator + Copy + Drop> Model for Book<A> {
    ghost use Rattle.std.specs.Prelude.{◌≡◌, nat_eq};
    ghost use Rattle.indexmap.specs.IndexMap.{get};
    ghost use Rattle.work_registry.specs.BookValue.{BookValue};
    ghost use Rattle.work_registry.specs.Rows.{rows_of, same_key};
    ghost use Rattle.work_registry.specs.Indexes.{AreIndexes, IsBook};
    ghost use Rattle.work_registry.specs.Replay.{opening_count};

    ghost Value = { BookValue };

    ghost view = { λ b. record { history = b.history.items; limit = b.limit } };

    ghost invariant = { λ b. IsBook b.history.items b.limit
        × AreIndexes (rows_of b.history.items) (get same_key b.kept.claims) (get nat_eq b.kept.iswcs) b.kept.works.items
        × (b.opening ≡ opening_count b.history.items) };
}

impl<A: Allocator + Copy + Drop> Book<A> {
    /// A book without entries. No memory is asked for.
    ///
    /// # Examples
    ///
    /// ```rust
    /// let book = Book::new(alloc, 1000);
    /// ```
    pub fn new(alloc: A, limit: u32) -> Book<A>
        requires least { 1 ≤ limit }
        requires most { limit ≤ max_entries }
        ensures { result ≡ record { history = []; limit = limit } }
    {
        Book::opening_of(Vec::new(alloc), HistoryIndex::new(alloc), limit)
    }

    /// The book of these entries, all of the opening, with their indexes and this limit. No memory is asked for.
    pub(crate) fn opening_of(
        history: Vec<Entry<A>, A>,
        history_index: HistoryIndex<A>,
        limit: u32,
    ) -> Book<A>
        requires same { history.items ≡ history_index }
        requires opening { is_opening history_index ≡ true }
        requires fits { length history_index ≤ limit }
        requires least { 1 ≤ limit }
        requires most { limit ≤ max_entries }
        ensures { result ≡ record { history = history_index; limit = limit } }
    {
        let opening = history.len();
        Book {
            history,
            kept: history_index.kept,
            limit,
            opening,
        }
    }

    /// Its indexes, by which it decides on the next call.
    #[inline(always)]
    fn known(&self) -> DecisionIndex<'_, A>
        ensures { result ≡ self.now.history }
    {
        DecisionIndex {
            past: Snapshot::of(&Past::of(&self.history)),
            kept: &self.kept,
        }
    }

    /// Answers a call that a session hands in, and keeps it with its reply as the last entry. Sessions are numbered
    /// from 0, the opening, to 63.
    ///
    /// A refusal returns the call and changes nothing. It is `Full` exactly where the history holds as many entries as
    /// the limit, which is tested first. It is `Memory` where the system refused memory for the entry.
    pub fn apply(&mut self, session: u32, call: Call<A>) -> Result<Reply, Refused<A>>
        requires { session ≤ 63 }
        ensures reply { IfOk result (λ r. r ≡ reply_to (rows_of self.old.history) call) }
        ensures entry { IfOk result (λ r. self.new.history ≡ self.old.history ++ entry_of session call r ∷ []) }
        ensures limit { self.new.limit ≡ self.old.limit }
        ensures unchanged { OnErr result (self.new ≡ self.old) }
        ensures given_back { IfErr result (λ e. e.call ≡ call) }
        ensures full { (length self.old.history ≡ self.old.limit) ↔ (is_full result ≡ true) }
        ensures within { IfOk result IsNumbered }
    {
        if self.history.len() >= self.limit as usize {
            return Err(Refused {
                call,
                why: HandInError::Full,
            });
        }
        let decision = self.known().decide(&call);
        self.append(session, call, decision)?;
        Ok(decision.reply)
    }

    /// Adds an entry: a call with what is decided on it. All memory is asked for before anything is written.
    #[inline(always)]
    fn append(&mut self, session: u32, call: Call<A>, decision: Decision) -> Result<(), Refused<A>>
        requires decided { decision ≡ decision_on (rows_of self.old.history) call }
        requires not_full { length self.old.history < self.old.limit }
        ensures entry { OnOk result (self.new.history ≡ self.old.history ++ entry_of session call decision.reply ∷ []) }
        ensures limit { self.new.limit ≡ self.old.limit }
        ensures unchanged { OnErr result (self.new ≡ self.old) }
        ensures given_back { IfErr result (λ e. e ≡ record { call = call; why = Memory }) }
    {
        let Ok(()) = self.history.reserve(1) else {
            return Err(Refused {
                call,
                why: HandInError::Memory,
            });
        };
        let Ok(()) = self.kept.make_room() else {
            return Err(Refused {
                call,
                why: HandInError::Memory,
            });
        };
        self.kept.store(deciding::key(&call), deciding::iswc(&call), decision.change);
        self.opening = opening_with(self.opening, self.history.len(), session);
        store_entry(
            &mut self.history,
            Entry {
                session,
                call,
                reply: decision.reply,
            },
        );
        Ok(())
    }

    /// All entries, the first one first.
    pub fn history(&self) -> &[Entry<A>]
        ensures entries { result.now ≡ self.now.history }
        ensures lawful { IsHistory self.now.history }
        ensures numbered { AllByRecursion (λ e. IsNumbered e.reply) self.now.history }
        ensures shared { IsShared (rows_of self.now.history) }
        ensures named_once { IsNamedOnce (rows_of self.now.history) }
        ensures fits { length self.now.history ≤ self.now.limit }
        ensures least { 1 ≤ self.now.limit }
        ensures most { self.now.limit ≤ max_entries }
    {
        &self.history
    }

    /// Does nothing. Its contract gives a proof what holds in every book.
    #[inline(always)]
    pub fn recall(&self)
        ensures lawful { IsHistory self.now.history }
        ensures fits { length self.now.history ≤ self.now.limit }
    {
        let _ = &self.history;
    }

    /// How many entries there are.
    pub fn len(&self) -> usize
        ensures value { result ≡ length self.now.history }
        ensures fits { length self.now.history ≤ self.now.limit }
    {
        self.history.len()
    }

    /// The greatest number of entries that there can be.
    pub fn limit(&self) -> u32
        ensures value { result ≡ self.now.limit }
        ensures least { 1 ≤ result }
        ensures most { result ≤ max_entries }
    {
        self.limit
    }

    /// Whether every entry is of the opening, session 0.
    pub fn is_opening(&self) -> bool
        ensures { result ≡ is_opening self.now.history }
    {
        self.opening == self.history.len()
    }

    /// The same book with every entry of the opening, session 0, so that it serves one more run.
    ///
    /// Nothing is copied, and no memory is asked for. Entries at the front that are of the opening already are not
    /// visited, so this takes as long as the entries are many that a run has added.
    pub fn reopened(mut self) -> Book<A>
        ensures { result ≡ record { history = map opened self.history; limit = self.limit } }
    {
        open_behind(&mut self.history, self.opening);
        self.opening = self.history.len();
        self
    }

    /// What is registered under a submitter's number of a work; `None` where no call under it was accepted.
    ///
    /// `submitter` is sender type and sender id of HDR, and `number` is the submitter work number of NWR or REV, each
    /// byte for byte.
    ///
    /// # Examples
    ///
    /// ```rust
    /// /// Prints the claim that the book has under the number of the first work.
    /// fn print_claim<R: Print>(rt: &R, book: &Book) {
    ///     if let Some(claim) = book.claim(b"PB000000123", b"A-1           ") {
    ///         let _ = println!(rt; "work {}, version {}", claim.work, claim.version);
    ///     }
    /// }
    /// ```
    pub fn claim(&self, submitter: &[u8; 11], number: &[u8; 14]) -> Option<Claim>
        ensures { result ≡ claim_of (record { submitter = submitter.now; number = number.now }) (rows_of self.now.history) }
    {
        let kept = self.known().claim_under(&Key {
            submitter: *submitter,
            number: *number,
        })?;
        Some(kept.to_claim())
    }

    /// The work that has an ISWC, given as the number of its nine digits.
    pub fn work_of_iswc(&self, iswc: u64) -> Option<u32>
        ensures { result ≡ work_of_iswc iswc (rows_of self.now.history) }
    {
        self.known().work_of_iswc(iswc)
    }

    /// The control of a work: what all submitters' claims on it own together of the performing, the mechanical and the
    /// synchronization right, in hundredths of one per cent. For a work that does not exist it is 0 of each.
    pub fn control_of(&self, work: u32) -> [u64; 3]
        ensures { result ≡ control_of work (rows_of self.now.history) }
    {
        self.known().work(work).control()
    }
}

/// How many entries at the front are of the opening once an entry of a session was added behind `len`, of which the
/// first `opening` are.
fn opening_with(opening: usize, len: usize, session: u32) -> usize
    requires few { len < 2 ^ 63 }
    requires inside { opening ≤ len }
    ensures { result ≡ (if (opening == len) && (session == 0) then opening + 1 else opening) }
{
    if opening == len && session == 0 {
        opening + 1
    } else {
        opening
    }
}

/// Makes every entry behind the first ones, of which there are `from`, one of the opening.
fn open_behind<A: Allocator>(history: &mut [Entry<A>], from: usize)
    requires { from ≤ length history.old }
    ensures { history.new ≡ take from history.old ++ map opened (drop from history.old) }
{
    open_entries(&mut history[from..]);
}

/// Makes every entry one of the opening.
fn open_entries<A: Allocator>(history: &mut [Entry<A>])
    ensures { history.new ≡ map opened history.old }
{
    for entry in history.iter_mut() {
        entry.session = 0;
    }
}

/// Appends an entry, for which there is room. No memory is asked for.
#[inline(always)]
pub(crate) fn store_entry<A: Allocator>(history: &mut Vec<Entry<A>, A>, entry: Entry<A>)
    requires { vec_len history.old < vec_capacity history.old }
    ensures { history.new.items ≡ history.old.items ++ entry ∷ [] }
{
    let Ok(_) = history.push(entry) else {
        unreachable!()
    };
}
