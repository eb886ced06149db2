ghost use Rattle.std.specs.Prelude.{◌≡◌, ◌==◌, if◌then◌else◌, ℕ, [], ◌∷◌, List, Some, None, IfSome, IfNone, IfOk, OnOk, nat_eq};
ghost use Rattle.std.specs.HashMap.{get};
ghost use Rattle.cwr_rules.specs.Totals.{included_in, included, shares_of};
ghost use Rattle.cwr_rules.specs.declared.record.Record.{Record};
ghost use Rattle.cwr_rules.specs.Collected.{AreSmall, IsCollectedBy, found_by, kept_at, value_at, with_shares};

use crate::record::{Record, Shares, Territory};
use crate::totals::Totals;
use cwr_field::Memory;
use std::alloc::Allocator;
use std::collections::HashMap;
use std::hash::{BuildHasherDefault, FoldHasher};

type CodeMap<A> = HashMap<u16, Totals, BuildHasherDefault<FoldHasher>, A>;

/// The greatest capacity, in codes, of a map that is kept for the next transaction.
const MAX_KEPT: usize = 64;

/// The collection shares by TIS code, and whether they are above the whole for some code.
///
/// The seed of the map's hash is fixed. A code is at most 9999, so no choice of codes makes the map slow.
#[derive(Drop)]
pub(crate) struct Collected<A: Allocator> {
    /// The code that came first, and what is collected there. Most transactions have no other.
    pub(crate) first: Option<(u16, Totals)>,
    /// The other codes, where there are any.
    pub(crate) others: Option<CodeMap<A>>,
    pub(crate) is_over: bool,
    alloc: A,
}

impl<A: Allocator + Copy> Collected<A> {
    /// The shares of no records.
    pub(crate) fn new(alloc: A) -> Collected<A>
        ensures { IsCollectedBy result [] }
    {
        Collected {
            first: None,
            others: None,
            is_over: false,
            alloc,
        }
    }

    /// Removes all shares. A small map is kept, since emptying it takes no longer than making it again.
    #[inline(always)]
    pub(crate) fn clear(&mut self)
        ensures { IsCollectedBy self.new [] }
    {
        self.first = None;
        self.is_over = false;
        if self.others.is_some() {
            self.clear_others();
        }
    }

    #[inline(never)]
    fn clear_others(&mut self)
        ensures none { (q : ℕ) → kept_at self.new.others q ≡ None }
        ensures first { self.new.first ≡ self.old.first }
        ensures same { self.new.is_over ≡ self.old.is_over }
    {
        if let Some(map) = &mut self.others {
            if map.capacity() <= MAX_KEPT {
                map.clear();
                return;
            }
        }
        self.others = None;
    }

    /// What is collected in the territory of a code.
    pub(crate) fn at(&self, code: u16) -> Totals
        ensures { result ≡ value_at (found_by self.now) code }
    {
        match self.first {
            None => self.at_other(code),
            Some((first, totals)) => {
                if first == code {
                    totals
                } else {
                    self.at_other(code)
                }
            }
        }
    }

    /// What is collected for a code that did not come first.
    fn at_other(&self, code: u16) -> Totals
        ensures { result ≡ value_at (kept_at self.now.others) code }
    {
        match &self.others {
            None => Totals::NONE,
            Some(map) => match map.get(&code) {
                Some(totals) => *totals,
                None => Totals::NONE,
            },
        }
    }

    /// Replaces what is collected for a code that did not come first. Few transactions have such a code.
    #[inline(never)]
    fn put_other(&mut self, code: u16, totals: Totals) -> Result<(), Memory>
        ensures found { OnOk result ((q : ℕ) → kept_at self.new.others q ≡ (if code == q then Some totals else kept_at self.old.others q)) }
        ensures first { OnOk result (self.new.first ≡ self.old.first) }
        ensures same { OnOk result (self.new.is_over ≡ self.old.is_over) }
    {
        match &mut self.others {
            None => {
                let mut map = HashMap::new(self.alloc);
                map.insert(code, totals)?;
                self.others = Some(map);
            }
            Some(map) => {
                map.insert(code, totals)?;
            }
        }
        Ok(())
    }

    /// Adds shares for a code that did not come first and has shares already. Returns what is collected there then;
    /// `None` for a code without shares.
    fn add_to_other(&mut self, code: u16, shares: Shares) -> Option<Totals>
        requires { AreSmall (value_at (kept_at self.old.others) code) }
        ensures totals { IfSome result (λ totals. totals ≡ with_shares (value_at (kept_at self.old.others) code) shares) }
        ensures found { IfSome result (λ totals. (q : ℕ) → kept_at self.new.others q ≡ (if code == q then Some totals else kept_at self.old.others q)) }
        ensures none { IfNone result (kept_at self.old.others code ≡ None) }
        ensures stays { IfNone result ((q : ℕ) → kept_at self.new.others q ≡ kept_at self.old.others q) }
        ensures first { self.new.first ≡ self.old.first }
        ensures same { self.new.is_over ≡ self.old.is_over }
    {
        match &mut self.others {
            None => None,
            Some(map) => add_in(map, code, shares),
        }
    }

    /// Adds shares for a code that did not come first, and returns what is collected there then.
    fn add_other(&mut self, code: u16, shares: Shares) -> Result<Totals, Memory>
        requires { AreSmall (value_at (kept_at self.old.others) code) }
        ensures totals { IfOk result (λ totals. totals ≡ with_shares (value_at (kept_at self.old.others) code) shares) }
        ensures found { IfOk result (λ totals. (q : ℕ) → kept_at self.new.others q ≡ (if code == q then Some totals else kept_at self.old.others q)) }
        ensures first { OnOk result (self.new.first ≡ self.old.first) }
        ensures same { OnOk result (self.new.is_over ≡ self.old.is_over) }
    {
        if let Some(totals) = self.add_to_other(code, shares) {
            return Ok(totals);
        }
        let totals = Totals::NONE.with(shares);
        self.put_other(code, totals)?;
        Ok(totals)
    }

    /// Adds shares for a code, and returns what is collected there then.
    fn add_at(&mut self, code: u16, shares: Shares) -> Result<Totals, Memory>
        requires { AreSmall (value_at (found_by self.old) code) }
        ensures totals { IfOk result (λ totals. totals ≡ with_shares (value_at (found_by self.old) code) shares) }
        ensures found { IfOk result (λ totals. (q : ℕ) → found_by self.new q ≡ (if code == q then Some totals else found_by self.old q)) }
        ensures same { OnOk result (self.new.is_over ≡ self.old.is_over) }
    {
        let before = match self.first {
            None => self.at_other(code),
            Some((first, totals)) => {
                if first != code {
                    return self.add_other(code, shares);
                }
                totals
            }
        };
        let totals = before.with(shares);
        self.first = Some((code, totals));
        Ok(totals)
    }

    fn include(&mut self, code: u16, shares: Shares) -> Result<(), Memory>
        requires { (q : ℕ) → AreSmall (value_at (found_by self.old) q) }
        ensures { OnOk result ((rest : List Record) (r : Record) → included r ≡ Some code → shares_of r ≡ shares → IsCollectedBy self.old rest → IsCollectedBy self.new (r ∷ rest)) }
    {
        let totals = self.add_at(code, shares)?;
        self.is_over = totals.is_over_or(self.is_over);
        Ok(())
    }

    #[inline(always)]
    fn include_in(&mut self, territory: &Territory, shares: Shares) -> Result<(), Memory>
        requires { (q : ℕ) → AreSmall (value_at (found_by self.old) q) }
        ensures { OnOk result ((rest : List Record) (r : Record) → included r ≡ included_in territory.now → shares_of r ≡ shares → IsCollectedBy self.old rest → IsCollectedBy self.new (r ∷ rest)) }
    {
        match territory.included() {
            Some(code) => self.include(code, shares)?,
            None => {}
        }
        Ok(())
    }

    /// Adds the collection shares of a record, where it is an SPT or SWT that includes its territory.
    #[inline(always)]
    pub(crate) fn add(&mut self, detail: &Record) -> Result<(), Memory>
        requires { (q : ℕ) → AreSmall (value_at (found_by self.old) q) }
        ensures { OnOk result ((rest : List Record) → IsCollectedBy self.old rest → IsCollectedBy self.new (detail.now ∷ rest)) }
    {
        match *detail {
            Record::Spt(_, shares, territory) => self.include_in(&territory, shares)?,
            Record::Swt(_, shares, territory) => self.include_in(&territory, shares)?,
            _ => {}
        }
        Ok(())
    }
}

/// Adds shares for a code in a map, and returns what is collected there then; `None` where the map does not have the
/// code.
fn add_in<A: Allocator>(map: &mut CodeMap<A>, code: u16, shares: Shares) -> Option<Totals>
    requires { AreSmall (value_at (get nat_eq map.old) code) }
    ensures totals { IfSome result (λ totals. totals ≡ with_shares (value_at (get nat_eq map.old) code) shares) }
    ensures found { IfSome result (λ totals. (q : ℕ) → get nat_eq map.new q ≡ (if code == q then Some totals else get nat_eq map.old q)) }
    ensures none { IfNone result (get nat_eq map.old code ≡ None) }
    ensures stays { IfNone result ((q : ℕ) → get nat_eq map.new q ≡ get nat_eq map.old q) }
{
    match map.get_mut(&code) {
        None => None,
        Some(totals) => {
            *totals = totals.with(shares);
            Some(*totals)
        }
    }
}
