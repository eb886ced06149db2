//! The entries of a history that answer a file again: its run.
ghost use Rattle.std.specs.Prelude.{◌≡◌, ◌<◌, ◌≤◌, ◌+◌, ℕ, List, Some, None, length, drop, take, map, IfNone, IfOk, IfSome, MatchOption};
ghost use Rattle.std.specs.List.{AllByRecursion};
ghost use Rattle.work_registry.specs.EntryValue.{EntryValue};
ghost use Rattle.work_registry.specs.Numbers.{IsNumbered};
ghost use Rattle.cwr_verify.specs.Reading.{asked_in};
ghost use Rattle.cwr_verify.specs.Replied.{AreOfFile};
ghost use Rattle.cwr_verify.specs.Run.{HasRun, IsFront, IsNamed, IsPlace, IsRun};

use crate::replied::Replied;
use crate::same_call::has_call;
use cwr_engine::Judged;
use std::alloc::{AllocError, Allocator};
use work_registry::Entry;

/// The last place from which entries have the calls of the transactions; 0 where there is none.
///
/// The entries are gone through once, backwards, and the calls are found from the last one on.
fn last_place<A: Allocator>(history: &[Entry<A>], transactions: &[Judged<A>]) -> usize
    ensures within { result ≤ length history.now }
    ensures later { (other : ℕ) → result < other → other ≤ length history.now → HasRun (asked_in transactions.now) (drop other history.now) → ⊥ }
    ensures some { 0 < result → HasRun (asked_in transactions.now) (drop result history.now) }
{
    let mut at = history.len();
    let mut left = transactions.len();
    while at > 0 && left > 0 {
        at -= 1;
        if has_call(transactions, left - 1, &history[at]) {
            left -= 1;
        }
    }
    at
}

/// The place, from 0, of the entry with this number, from 1; `None` where it does not have the call of the first
/// transaction.
fn named_place<A: Allocator>(
    history: &[Entry<A>],
    transactions: &[Judged<A>],
    number: u32,
) -> Option<usize>
    ensures { MatchOption result ((place : ℕ) → IsNamed number (asked_in transactions.now) history.now place → ⊥) (IsNamed number (asked_in transactions.now) history.now) }
{
    let place = (number as usize).checked_sub(1)?;
    let entry = history.get(place)?;
    if has_call(transactions, 0, entry) {
        Some(place)
    } else {
        None
    }
}

/// The place, from 0, where the run of these transactions begins; `None` where an entry is named that does not have the
/// call of the first of them.
pub(crate) fn place_of<A: Allocator>(
    history: &[Entry<A>],
    transactions: &[Judged<A>],
    entry: Option<u32>,
) -> Option<usize>
    ensures within { IfSome result (λ place. place ≤ length history.now) }
    ensures begins { IfSome result (IsPlace entry (asked_in transactions.now) history.now) }
    ensures front { IfSome result (λ place. (HasRun (asked_in transactions.now) (drop place history.now) → ⊥) → IsFront entry (asked_in transactions.now) history.now place) }
    ensures other { IfNone result ((number : ℕ) × (entry ≡ Some number) × ((place : ℕ) → IsNamed number (asked_in transactions.now) history.now place → ⊥)) }
{
    match entry {
        Some(number) => named_place(history, transactions, number),
        None => Some(last_place(history, transactions)),
    }
}

/// The replies of the entries of the run of these transactions, where the run begins at the front of `history`. Where
/// the run is not complete, they are the replies of its first entries.
pub(crate) fn replies_of<'t, A: Allocator + Copy>(
    alloc: A,
    history: &[Entry<A>],
    transactions: &'t [Judged<A>],
) -> Result<Replied<'t, A>, AllocError>
    requires of_file { AreOfFile transactions.now }
    requires numbered { AllByRecursion (λ e. IsNumbered e.reply) history.now }
    ensures its { IfOk result (λ replied. replied.transactions ≡ transactions.now) }
    ensures run { IfOk result (λ replied. length replied.replies ≡ length transactions.now → (run : List EntryValue) × IsRun (asked_in transactions.now) history.now run × (replied.replies ≡ map (λ e. e.reply) run)) }
    ensures some { IfOk result (λ replied. HasRun (take (length replied.replies) (asked_in transactions.now)) history.now) }
    ensures no_more { IfOk result (λ replied. length replied.replies < length transactions.now → HasRun (take (length replied.replies + 1) (asked_in transactions.now)) history.now → ⊥) }
{
    let mut replied = Replied::of(alloc, transactions)?;
    for entry in history {
        if replied.is_next(entry) {
            replied.push(entry)?;
        }
    }
    Ok(replied)
}
