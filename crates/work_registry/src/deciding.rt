ghost use Rattle.std.specs.Prelude.{◌≡◌, ◌≤◌, ◌||◌, ◌+◌, length, slice_index, nat_lt, IsTrue};
ghost use Rattle.cwr_call.specs.Lawful.{is_iswc};
ghost use Rattle.work_registry.specs.History.{IsHistory};
ghost use Rattle.work_registry.specs.Rows.{rows_of, key_of};
ghost use Rattle.work_registry.specs.Works.{others_of, work_count, work_of_iswc};
ghost use Rattle.work_registry.specs.Reply.{reply_to, reply_for_work, is_over, work_for, clashes, differs, max_control};
ghost use Rattle.work_registry.specs.Numbers.{max_entries};
ghost use Rattle.work_registry.specs.Indexes.{indexed_claim, indexed_work, change_of, decision_on, newer};

use crate::indexes::{Change, Decision, IndexedClaim, IndexedWork, Indexes, narrow};
use crate::key::Key;
use crate::past::Past;
use crate::reply::Reply;
use cwr_call::{Call, WorkKind};
use cwr_field::MAX_WHOLE;
use std::alloc::Allocator;
use std::marker::Model;
use std::snapshot::Snapshot;

/// The indexes of a history. They suffice to decide on a call as a book with that history does.
///
/// A contract sees the history.
#[derive(Drop)]
pub(crate) struct DecisionIndex<'a, A: Allocator + Copy + Drop> {
    pub(crate) past: Snapshot<Past<A>>,
    pub(crate) kept: &'a Indexes<A>,
}

impl<'a, A: Allocator + Copy + Drop> Model for DecisionIndex<'a, A> {
    ghost use Rattle.std.specs.Prelude.{◌≤◌, List, length, nat_eq};
    ghost use Rattle.indexmap.specs.IndexMap.{get};
    ghost use Rattle.work_registry.specs.EntryValue.{EntryValue};
    ghost use Rattle.work_registry.specs.History.{IsHistory};
    ghost use Rattle.work_registry.specs.Indexes.{AreIndexes};
    ghost use Rattle.work_registry.specs.Numbers.{max_entries};
    ghost use Rattle.work_registry.specs.Rows.{rows_of, same_key};

    ghost Value = { List EntryValue };

    ghost view = { λ k. k.past.value };

    ghost invariant = { λ k. IsHistory k.past.value × (length k.past.value ≤ max_entries)
        × AreIndexes (rows_of k.past.value) (get same_key k.kept.now.claims) (get nat_eq k.kept.now.iswcs) k.kept.now.works.items };
}

impl<'a, A: Allocator + Copy + Drop> DecisionIndex<'a, A> {
    /// Does nothing. Its contract gives a proof what holds of the history.
    #[inline(always)]
    fn recall(&self)
        ensures lawful { IsHistory self.now }
        ensures few { length self.now ≤ max_entries }
    {
        let _ = &self.past;
    }

    /// What is decided on a call.
    pub(crate) fn decide(&self, call: &Call<A>) -> Decision
        ensures { result ≡ decision_on (rows_of self.now) call.now }
    {
        let key = key(call);
        let claim = self.claim_under(&key);
        let reply = self.reply(call, &key, claim);
        let change = self.change(call, &key, claim, reply);
        Decision { reply, change }
    }

    /// What is kept of the claim under a key; `None` where there is no claim.
    #[inline(always)]
    pub(crate) fn claim_under(&self, key: &Key) -> Option<IndexedClaim>
        ensures { result ≡ indexed_claim key.now (rows_of self.now) }
    {
        self.kept.claims.get(key).copied()
    }

    /// The work that has an ISWC, given as the number of its nine digits.
    #[inline(always)]
    pub(crate) fn work_of_iswc(&self, iswc: u64) -> Option<u32>
        ensures { result ≡ work_of_iswc iswc (rows_of self.now) }
    {
        let iswcs = &self.kept.iswcs;
        let iswc = u32::try_from(iswc).ok()?;
        iswcs.get(&iswc).copied()
    }

    /// The reply to a call. `key` is the call's, and `claim` is the claim under it, or `None`.
    #[inline(always)]
    fn reply(&self, call: &Call<A>, key: &Key, claim: Option<IndexedClaim>) -> Reply
        requires own { key.now ≡ key_of call.now }
        requires known { claim ≡ indexed_claim (key_of call.now) (rows_of self.now) }
        ensures { result ≡ reply_to (rows_of self.now) call.now }
    {
        if !call.faults().is_empty() {
            return Reply::Rejected;
        }
        match claim {
            None => self.reply_for_work(call, key, claim, self.work_for(call.iswc())),
            Some(kept) => match call.kind() {
                WorkKind::Nwr => Reply::Duplicate { work: kept.work },
                WorkKind::Rev => {
                    if self.clashes(call.iswc(), kept.work) {
                        Reply::Conflict { work: kept.work }
                    } else {
                        self.reply_for_work(call, key, claim, kept.work)
                    }
                }
            },
        }
    }

    /// The reply to a call for a work: it is accepted, unless more than the whole of a right would be claimed.
    ///
    /// `key` is the call's, and `claim` is the claim under it, or `None`.
    #[inline(always)]
    fn reply_for_work(
        &self,
        call: &Call<A>,
        key: &Key,
        claim: Option<IndexedClaim>,
        work: u32,
    ) -> Reply
        requires own { key.now ≡ key_of call.now }
        requires known { claim ≡ indexed_claim (key_of call.now) (rows_of self.now) }
        ensures { result ≡ reply_for_work (rows_of self.now) call.now work }
    {
        self.recall();
        if self.is_over(key, claim, work, call.control()) {
            return Reply::Conflict { work };
        }
        match claim {
            Some(kept) => Reply::Accepted {
                work,
                version: kept.version + 1,
            },
            None => Reply::Accepted { work, version: 1 },
        }
    }

    /// Whether more than the whole of some right of a work would be claimed, where a call with this control is accepted
    /// under a key.
    ///
    /// `claim` is the claim under the key, or `None`.
    #[inline(always)]
    fn is_over(&self, key: &Key, claim: Option<IndexedClaim>, work: u32, control: [u64; 3]) -> bool
        requires { claim ≡ indexed_claim key.now (rows_of self.now) }
        ensures { result ≡ is_over work key.now control (rows_of self.now) }
    {
        self.recall();
        are_over_whole(self.others(key, claim, work), control)
    }

    /// The control of a work under all keys but this one. `claim` is the claim under this key, or `None`.
    #[inline(always)]
    fn others(&self, key: &Key, claim: Option<IndexedClaim>, work: u32) -> [u16; 3]
        requires { claim ≡ indexed_claim key.now (rows_of self.now) }
        ensures { result ≡ others_of work key.now (rows_of self.now) }
    {
        let all = self.work(work).control;
        match claim {
            Some(kept) => {
                if kept.work == work {
                    [
                        all[0] - kept.control[0],
                        all[1] - kept.control[1],
                        all[2] - kept.control[2],
                    ]
                } else {
                    all
                }
            }
            None => all,
        }
    }

    /// The number of works.
    fn works(&self) -> u32
        ensures count { result ≡ work_count (rows_of self.now) }
        ensures few { result ≤ max_entries }
    {
        self.kept.works.len() as u32
    }

    /// What is kept of a work. A work that does not exist has no ISWC and no control.
    #[inline(always)]
    pub(crate) fn work(&self, work: u32) -> IndexedWork
        ensures { result ≡ indexed_work work (rows_of self.now) }
    {
        self.recall();
        if work == 0 {
            return IndexedWork {
                iswc: None,
                control: [0; 3],
            };
        }
        match self.kept.works.get(work as usize - 1) {
            Some(kept) => *kept,
            None => IndexedWork {
                iswc: None,
                control: [0; 3],
            },
        }
    }

    /// The work of a call whose key has no claim: the one that has its ISWC, else a new one.
    #[inline(always)]
    fn work_for(&self, iswc: Option<u64>) -> u32
        ensures { result ≡ work_for iswc (rows_of self.now) }
    {
        match iswc {
            None => self.works() + 1,
            Some(iswc) => match self.work_of_iswc(iswc) {
                Some(work) => work,
                None => self.works() + 1,
            },
        }
    }

    /// Whether the ISWC is that of another work, or the work has another one.
    #[inline(always)]
    fn clashes(&self, iswc: Option<u64>, work: u32) -> bool
        ensures { result ≡ clashes iswc work (rows_of self.now) }
    {
        match iswc {
            None => false,
            Some(iswc) => {
                is_other_work(work, self.work_of_iswc(iswc))
                    || is_other_iswc(iswc, self.work(work).iswc)
            }
        }
    }

    /// What a call with this reply changes in the indexes; `None` where it is not accepted.
    ///
    /// `key` is the call's, and `claim` is the claim under it, or `None`.
    #[inline(always)]
    fn change(
        &self,
        call: &Call<A>,
        key: &Key,
        claim: Option<IndexedClaim>,
        reply: Reply,
    ) -> Option<Change>
        requires own { key.now ≡ key_of call.now }
        requires known { claim ≡ indexed_claim (key_of call.now) (rows_of self.now) }
        requires decided { reply ≡ reply_to (rows_of self.now) call.now }
        ensures { result ≡ change_of (rows_of self.now) call.now reply }
    {
        self.recall();
        let Reply::Accepted { work, version } = reply else {
            return None;
        };
        let control = narrow(call.control());
        let others = self.others(key, claim, work);
        let iswc = newer(iswc(call), self.work(work).iswc);
        Some(Change {
            claim: IndexedClaim {
                work,
                version,
                control,
            },
            work: IndexedWork {
                iswc,
                control: [
                    others[0] + control[0],
                    others[1] + control[1],
                    others[2] + control[2],
                ],
            },
        })
    }
}

/// The key of a call.
#[inline(always)]
pub(crate) fn key<A: Allocator>(call: &Call<A>) -> Key
    ensures { result ≡ key_of call.now }
{
    Key {
        submitter: call.submitter(),
        number: call.number(),
    }
}

/// The ISWC of a call, in the type in which it is kept.
#[inline(always)]
pub(crate) fn iswc<A: Allocator>(call: &Call<A>) -> Option<u32>
    ensures value { result ≡ call.now.iswc }
    ensures nine_digits { IsTrue (is_iswc result) }
{
    match call.iswc() {
        None => None,
        Some(iswc) => Some(iswc as u32),
    }
}

/// Whether the controls of some right together are more than the whole.
#[inline(always)]
fn are_over_whole(others: [u16; 3], control: [u64; 3]) -> bool
    requires performing { slice_index others 0 ≤ max_control }
    requires mechanical { slice_index others 1 ≤ max_control }
    requires synchronization { slice_index others 2 ≤ max_control }
    ensures { result ≡ (nat_lt max_control (slice_index others 0 + slice_index control 0) || (nat_lt max_control (slice_index others 1 + slice_index control 1) || nat_lt max_control (slice_index others 2 + slice_index control 2))) }
{
    control[0] > MAX_WHOLE - others[0] as u64
        || control[1] > MAX_WHOLE - others[1] as u64
        || control[2] > MAX_WHOLE - others[2] as u64
}

/// The ISWC of a call, or where it has none, the one that its work had.
#[inline(always)]
fn newer(iswc: Option<u32>, kept: Option<u32>) -> Option<u32>
    ensures { result ≡ newer iswc kept }
{
    match iswc {
        None => kept,
        Some(iswc) => Some(iswc),
    }
}

/// Whether a work was found that is another one.
#[inline(always)]
fn is_other_work(work: u32, found: Option<u32>) -> bool
    ensures { result ≡ differs work found }
{
    match found {
        None => false,
        Some(found) => found != work,
    }
}

/// Whether an ISWC was found that is another one.
#[inline(always)]
fn is_other_iswc(iswc: u64, found: Option<u32>) -> bool
    ensures { result ≡ differs iswc found }
{
    match found {
        None => false,
        Some(found) => found as u64 != iswc,
    }
}
