//! What files look for in a history.
ghost use Rattle.std.specs.Prelude.{◌≡◌, ◌↔◌, ◌<◌, ◌≤◌, [], IsTrue, IfNone, IfOk, IfSome, OnOk, Some, length, MatchOption};
ghost use Rattle.work_registry.specs.Numbers.{IsNumbered};
ghost use Rattle.cwr_verify.specs.Replied.{AreOfFile, next_call};
ghost use Rattle.cwr_verify.specs.Wanting.{CanHaveMade, IsFirst, HasMovedOn, AreWaiting, NoneWaits, found_by, key_of_entry, next_key};

use crate::ack_status::AckStatus;
use crate::replied::Replied;
use crate::waiting::{Key, Waiting};
use cwr_engine::Judged;
use std::alloc::{AllocError, Allocator};
use std::collections::BTreeSet;
use std::marker::Model;
use work_registry::Entry;

/// The transactions of a file whose calls are to be found, with what its acknowledgement says of them. Those that are
/// found have the replies of their entries.
#[derive(Drop)]
pub(crate) struct Wanted<'r, A: Allocator> {
    replied: Replied<'r, A>,
    told: Vec<AckStatus, A>,
}

impl<'r, A: Allocator> Model for Wanted<'r, A> {
    ghost use Rattle.cwr_verify.specs.Wanting.{Wanting};

    ghost Value = { Wanting };

    ghost view = { λ w. record { replied = w.replied; told = w.told.items } };
}

impl<'r, A: Allocator> Wanted<'r, A> {
    /// These transactions, none of which is found, with what the acknowledgement says of them.
    pub(crate) fn of(
        alloc: A,
        transactions: &'r [Judged<A>],
        told: Vec<AckStatus, A>,
    ) -> Result<Wanted<'r, A>, AllocError>
        requires { AreOfFile transactions.now }
        ensures { IfOk result (λ wanted. wanted ≡ record { replied = record { transactions = transactions.now; replies = [] }; told = told.items }) }
    {
        let replied = Replied::of(alloc, transactions)?;
        Ok(Wanted { replied, told })
    }

    /// The transactions, and the replies to those that are found.
    pub(crate) fn replied(&self) -> &Replied<'r, A>
        ensures { result.now ≡ self.now.replied }
    {
        &self.replied
    }

    /// Whether the next transaction can have made an entry: the entry has its call, and the reply that the
    /// acknowledgement contains.
    fn can_have_made(&self, entry: &Entry<A>) -> bool
        ensures { IsTrue result ↔ CanHaveMade self.now entry.now }
    {
        match self.told.get(self.replied.len()) {
            Some(told) => *told == AckStatus::of(entry.reply()) && self.replied.is_next(entry),
            None => false,
        }
    }

    /// What the next transaction is looked up by. `None` where there is no next one, or the acknowledgement says
    /// nothing of it: then it can have made no entry.
    #[tactic(auto, unfolding(crate::specs::Wanting::next_key))]
    fn next_key(&self) -> Option<Key>
        ensures { result ≡ next_key self.now }
    {
        let (Some(next), Some(told)) = (self.replied.next(), self.told.get(self.replied.len()))
        else {
            return None;
        };
        Some(Key::of(*told, &next.call))
    }

    /// Marks the next transaction as found: this entry has its call.
    fn pass(&mut self, entry: &Entry<A>) -> Result<(), AllocError>
        requires call { next_call self.old.replied ≡ Some entry.now.call }
        requires numbered { IsNumbered entry.now.reply }
        ensures { OnOk result (self.new ≡ found_by entry.now self.old) }
    {
        self.replied.push(entry)
    }
}

/// The files that wait for entries of their next transactions.
pub(crate) fn waiting_of<A: Allocator + Copy>(
    alloc: A,
    wanted: &[Wanted<A>],
) -> Result<Waiting<A>, AllocError>
    ensures { IfOk result (AreWaiting wanted.now) }
{
    let mut waiting = BTreeSet::new(alloc);
    for (file, wanted) in wanted.iter().enumerate() {
        if let Some(key) = wanted.next_key() {
            waiting.insert((key, file))?;
        }
    }
    Ok(waiting)
}

/// The first file whose next transaction can have made an entry; `None` where there is none. `key` is that of the
/// entry.
fn first_of<A: Allocator>(
    wanted: &[Wanted<A>],
    waiting: &Waiting<A>,
    key: Key,
    entry: &Entry<A>,
) -> Option<usize>
    requires waiting { AreWaiting wanted.now waiting.now }
    requires key { key ≡ key_of_entry entry.now }
    ensures { MatchOption result (IsFirst wanted.now entry.now (length wanted.now)) (λ file. IsFirst wanted.now entry.now file × (file < length wanted.now)) }
{
    let mut from = 0;
    while let Some(file) = first_from(waiting, key, from, wanted.len()) {
        if wanted[file].can_have_made(entry) {
            return Some(file);
        }
        from = file + 1;
    }
    None
}

/// The first file that waits under this key, of those from `from` on and before `end`.
fn first_from<A: Allocator>(
    waiting: &Waiting<A>,
    key: Key,
    from: usize,
    end: usize,
) -> Option<usize>
    requires { from ≤ end }
    ensures none { IfNone result (NoneWaits key from end waiting.now) }
    ensures first { IfSome result (λ file. (from ≤ file) × (file < end) × NoneWaits key from file waiting.now) }
{
    match waiting.range((key, from)..(key, end)).next() {
        Some(turn) => Some(turn.1),
        None => None,
    }
}

/// The first file whose next transaction can have made an entry; the number of files where there is none.
///
/// The transaction is then found, and its file waits for the one after it.
pub(crate) fn owner_of<A: Allocator + Copy>(
    wanted: &mut [Wanted<A>],
    waiting: &mut Waiting<A>,
    entry: &Entry<A>,
) -> Result<usize, AllocError>
    requires waiting { AreWaiting wanted.old waiting.old }
    requires numbered { IsNumbered entry.now.reply }
    ensures first { IfOk result (IsFirst wanted.old entry.now) }
    ensures moved { IfOk result (HasMovedOn entry.now wanted.old wanted.new) }
    ensures waiting { OnOk result (AreWaiting wanted.new waiting.new) }
{
    let key = Key::of(AckStatus::of(entry.reply()), entry.call());
    let Some(file) = first_of(wanted, waiting, key, entry) else {
        return Ok(wanted.len());
    };
    let _ = waiting.remove(&(key, file));
    wanted[file].pass(entry)?;
    if let Some(key) = wanted[file].next_key() {
        waiting.insert((key, file))?;
    }
    Ok(file)
}
