ghost use Rattle.std.specs.Prelude.{◌≡◌, ◌≤◌, ◌<◌, ◌+◌, ◌-◌, [], OnOk, vec_len, vec_capacity, nat_eq, slice_index, Some, MatchOption, IfSome};
ghost use Rattle.indexmap.specs.IndexMap.{get, IsUnchanged, Updates, spare};
ghost use Rattle.work_registry.specs.Rows.{same_key};
ghost use Rattle.work_registry.specs.Reply.{max_control};
ghost use Rattle.work_registry.specs.Indexes.{written};

use crate::claim::Claim;
use crate::key::Key;
use crate::reply::Reply;
use indexmap::IndexMap;
use std::alloc::{AllocError, Allocator};
use std::hash::{BuildHasherDefault, FoldHasher};

/// What a book keeps of a claim. None of its controls is above 10,006.
#[derive(Clone, Copy)]
pub(crate) struct IndexedClaim {
    pub(crate) work: u32,
    pub(crate) version: u32,
    pub(crate) control: [u16; 3],
}

/// What a book keeps of a work: the nine digits of its ISWC as a number, and its control of each right, at most 10,006.
#[derive(Clone, Copy)]
pub(crate) struct IndexedWork {
    pub(crate) iswc: Option<u32>,
    pub(crate) control: [u16; 3],
}

/// What an accepted call changes: the claim of its key, and what is kept of its work.
#[derive(Clone, Copy)]
pub(crate) struct Change {
    pub(crate) claim: IndexedClaim,
    pub(crate) work: IndexedWork,
}

/// What is decided on a call: the reply, and what the call changes where it is accepted.
#[derive(Clone, Copy)]
pub(crate) struct Decision {
    pub(crate) reply: Reply,
    pub(crate) change: Option<Change>,
}

/// What a book keeps besides its history, to answer without going through it. The hasher's seed is fixed.
#[derive(Drop)]
pub(crate) struct Indexes<A: Allocator + Copy + Drop> {
    /// The claim in force under each key.
    pub(crate) claims: IndexMap<Key, IndexedClaim, BuildHasherDefault<FoldHasher>, A>,
    /// The work that has each ISWC.
    pub(crate) iswcs: IndexMap<u32, u32, BuildHasherDefault<FoldHasher>, A>,
    /// The works, in the order of their numbers, work 1 first.
    pub(crate) works: Vec<IndexedWork, A>,
}

impl IndexedClaim {
    /// The claim, in the type in which a book returns it.
    pub(crate) fn to_claim(self) -> Claim
        ensures { result ≡ record { work = self.work; version = self.version; control = self.control } }
    {
        Claim {
            work: self.work,
            version: self.version,
            control: wide(self.control),
        }
    }
}

impl IndexedWork {
    /// Its control of each right, in the type in which a book returns it.
    pub(crate) fn control(self) -> [u64; 3]
        ensures { result ≡ self.control }
    {
        wide(self.control)
    }
}

/// The same controls, in the type in which a book returns them.
fn wide(control: [u16; 3]) -> [u64; 3]
    ensures { result ≡ control }
{
    let [performing, mechanical, synchronization] = control;
    [performing as u64, mechanical as u64, synchronization as u64]
}

/// The same controls, in the type in which they are kept.
#[inline(always)]
pub(crate) fn narrow(control: [u64; 3]) -> [u16; 3]
    requires performing { slice_index control 0 ≤ max_control }
    requires mechanical { slice_index control 1 ≤ max_control }
    requires synchronization { slice_index control 2 ≤ max_control }
    ensures { result ≡ control }
{
    let [performing, mechanical, synchronization] = control;
    [performing as u16, mechanical as u16, synchronization as u16]
}

impl<A: Allocator + Copy + Drop> Indexes<A> {
    /// The indexes of no history. No memory is asked for.
    pub(crate) fn new(alloc: A) -> Indexes<A>
        ensures claims { result.claims.entries ≡ [] }
        ensures iswcs { result.iswcs.entries ≡ [] }
        ensures works { result.works.items ≡ [] }
    {
        Indexes {
            claims: IndexMap::new(alloc),
            iswcs: IndexMap::new(alloc),
            works: Vec::new(alloc),
        }
    }

    /// Makes room for one more of each. What is kept does not change, even where memory is refused.
    #[inline(always)]
    pub(crate) fn make_room(&mut self) -> Result<(), AllocError>
        ensures claims { IsUnchanged self.old.claims self.new.claims }
        ensures iswcs { IsUnchanged self.old.iswcs self.new.iswcs }
        ensures works { self.new.works.items ≡ self.old.works.items }
        ensures claims_room { OnOk result (0 < spare self.new.claims) }
        ensures iswcs_room { OnOk result (0 < spare self.new.iswcs) }
        ensures works_room { OnOk result (vec_len self.new.works < vec_capacity self.new.works) }
    {
        self.claims.reserve(1)?;
        self.iswcs.reserve(1)?;
        self.works.reserve(1)?;
        Ok(())
    }

    /// Stores what a call changes, if it changes anything. No memory is asked for.
    pub(crate) fn store(&mut self, key: Key, iswc: Option<u32>, change: Option<Change>)
        requires claims_room { 0 < spare self.old.claims }
        requires iswcs_room { 0 < spare self.old.iswcs }
        requires works_room { vec_len self.old.works < vec_capacity self.old.works }
        requires place { IfSome change (λ c. 1 ≤ c.claim.work) }
        ensures claims { MatchOption change (IsUnchanged self.old.claims self.new.claims)
            (λ c. Updates same_key self.old.claims self.new.claims key (Some c.claim)) }
        ensures iswcs { MatchOption change (IsUnchanged self.old.iswcs self.new.iswcs)
            (λ c. MatchOption iswc (IsUnchanged self.old.iswcs self.new.iswcs)
            (λ i. Updates nat_eq self.old.iswcs self.new.iswcs i (Some c.claim.work))) }
        ensures works { MatchOption change (self.new.works.items ≡ self.old.works.items)
            (λ c. self.new.works.items ≡ written c.claim.work c.work self.old.works.items) }
    {
        if let Some(change) = change {
            self.store_change(key, iswc, change);
        }
    }

    #[inline(always)]
    fn store_change(&mut self, key: Key, iswc: Option<u32>, change: Change)
        requires claims_room { 0 < spare self.old.claims }
        requires iswcs_room { 0 < spare self.old.iswcs }
        requires works_room { vec_len self.old.works < vec_capacity self.old.works }
        requires place { 1 ≤ change.claim.work }
        ensures claims { Updates same_key self.old.claims self.new.claims key (Some change.claim) }
        ensures iswcs { MatchOption iswc (IsUnchanged self.old.iswcs self.new.iswcs)
            (λ i. Updates nat_eq self.old.iswcs self.new.iswcs i (Some change.claim.work)) }
        ensures works { self.new.works.items ≡ written change.claim.work change.work self.old.works.items }
    {
        let Ok(_) = self.claims.insert(key, change.claim) else {
            unreachable!()
        };
        store_iswc(&mut self.iswcs, iswc, change.claim.work);
        store_work(&mut self.works, change.claim.work, change.work);
    }
}

/// Stores that a work has this ISWC, if there is one.
#[inline(always)]
fn store_iswc<A: Allocator + Copy + Drop>(
    iswcs: &mut IndexMap<u32, u32, BuildHasherDefault<FoldHasher>, A>,
    iswc: Option<u32>,
    work: u32,
)
    requires { 0 < spare iswcs.old }
    ensures { MatchOption iswc (IsUnchanged iswcs.old iswcs.new) (λ i. Updates nat_eq iswcs.old iswcs.new i (Some work)) }
{
    if let Some(iswc) = iswc {
        let Ok(_) = iswcs.insert(iswc, work) else {
            unreachable!()
        };
    }
}

/// Stores what is kept of a work: replaces what was kept of it, or adds it as a new one.
#[inline(always)]
fn store_work<A: Allocator + Copy + Drop>(
    works: &mut Vec<IndexedWork, A>,
    work: u32,
    kept: IndexedWork,
)
    requires room { vec_len works.old < vec_capacity works.old }
    requires place { 1 ≤ work }
    ensures { works.new.items ≡ written work kept works.old.items }
{
    let place = work as usize - 1;
    if place < works.len() {
        works[place] = kept;
    } else {
        let Ok(_) = works.push(kept) else {
            unreachable!()
        };
    }
}
