ghost use Rattle.std.specs.Prelude.{◌≡◌, ◌||◌, ◌∷◌, ℕ, [], List, OnOk};
ghost use Rattle.cwr_rules.specs.Rules.{is_unknown, publishers};
ghost use Rattle.cwr_rules.specs.declared.record.Record.{Record};
ghost use Rattle.cwr_rules.specs.Parties.{HoldsParties, IsNumber, kept_by, key_cmp, key_of};
ghost use Rattle.std.specs.Ordering.{is_eq};
ghost use Rattle.std.specs.Str.{bytes_eq};

use crate::record::Record;
use cwr_field::Memory;
use std::alloc::Allocator;
use std::collections::BTreeSet;

/// A set of interested party numbers. Each is kept as a number, made of its first eight bytes, and its last byte.
#[derive(Drop)]
pub(crate) struct Parties<A: Allocator> {
    /// The one that came first. Many transactions have no other.
    pub(crate) first: Option<(u64, u8)>,
    /// The others.
    pub(crate) set: BTreeSet<(u64, u8), A>,
}

fn key_of(party: [u8; 9]) -> (u64, u8)
    ensures value { result ≡ key_of party }
    ensures number { IsNumber party }
{
    let [a, b, c, d, e, f, g, h, last] = party;
    (u64::from_be_bytes([a, b, c, d, e, f, g, h]), last)
}

/// Whether two keys are the same.
fn is_same(one: (u64, u8), other: (u64, u8)) -> bool
    ensures { result ≡ is_eq (key_cmp one other) }
{
    one.0 == other.0 && one.1 == other.1
}

/// Whether two interested party numbers are the same. Two numbers compare faster than nine bytes.
pub(crate) fn is_same_party(one: [u8; 9], other: [u8; 9]) -> bool
    ensures { result ≡ bytes_eq one other }
{
    let key = key_of(one);
    is_same(key, key_of(other))
}

impl<A: Allocator + Copy> Parties<A> {
    /// The empty set.
    pub(crate) fn new(alloc: A) -> Parties<A>
        ensures { HoldsParties (kept_by result) [] }
    {
        Parties {
            first: None,
            set: BTreeSet::new(alloc),
        }
    }

    /// Empties the set.
    #[inline(always)]
    pub(crate) fn clear(&mut self, alloc: A)
        ensures { HoldsParties (kept_by self.new) [] }
    {
        self.first = None;
        if !self.set.is_empty() {
            self.set = BTreeSet::new(alloc);
        }
    }

    /// Whether a party is named that is not in the set.
    pub(crate) fn is_unknown(&self, party: Option<[u8; 9]>) -> bool
        ensures { (parties : List (List ℕ)) → HoldsParties (kept_by self.now) parties → result ≡ is_unknown parties party }
    {
        match party {
            None => false,
            Some(party) => !self.has(key_of(party)),
        }
    }

    fn has(&self, key: (u64, u8)) -> bool
        ensures { result ≡ kept_by self.now key }
    {
        match self.first {
            None => self.set.contains(&key),
            Some(first) => is_same(first, key) || self.set.contains(&key),
        }
    }

    /// Adds a key.
    fn keep(&mut self, key: (u64, u8)) -> Result<(), Memory>
        ensures { OnOk result ((q : ℕ × ℕ) → kept_by self.new q ≡ (is_eq (key_cmp key q) || kept_by self.old q)) }
    {
        match self.first {
            None => self.first = Some(key),
            Some(_) => {
                self.set.insert(key)?;
            }
        }
        Ok(())
    }

    fn add(&mut self, party: [u8; 9]) -> Result<(), Memory>
        ensures { OnOk result ((parties : List (List ℕ)) → HoldsParties (kept_by self.old) parties → HoldsParties (kept_by self.new) (party ∷ parties)) }
    {
        self.keep(key_of(party))?;
        Ok(())
    }

    /// Adds the party of a publisher's record, where it names one.
    #[inline(always)]
    pub(crate) fn add_publisher(&mut self, detail: &Record) -> Result<(), Memory>
        ensures { OnOk result ((rest : List Record) → HoldsParties (kept_by self.old) (publishers rest) → HoldsParties (kept_by self.new) (publishers (detail.now ∷ rest))) }
    {
        match *detail {
            Record::Spu(Some(party), _) => self.add(party)?,
            Record::Opu(Some(party), _) => self.add(party)?,
            _ => {}
        }
        Ok(())
    }
}
