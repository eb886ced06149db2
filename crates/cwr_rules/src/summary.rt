ghost use Rattle.std.specs.Prelude.{◌∷◌, ℕ, [], List, OnOk};
ghost use Rattle.cwr_rules.specs.declared.record.Record.{Record};
ghost use Rattle.cwr_rules.specs.Collected.{AreSmall, AreSmallSums, found_by, value_at};
ghost use Rattle.cwr_rules.specs.Summary.{IsKeptSummary};

use crate::collected::Collected;
use crate::parties::Parties;
use crate::record::Record;
use crate::sums::Sums;
use cwr_field::Memory;
use std::alloc::Allocator;

/// What the records of a transaction add up to.
#[derive(Drop)]
pub(crate) struct Summary<A: Allocator> {
    pub(crate) sums: Sums,
    /// The parties of the publishers.
    pub(crate) parties: Parties<A>,
    pub(crate) collected: Collected<A>,
}

impl<A: Allocator + Copy> Summary<A> {
    /// The summary of no records.
    pub(crate) fn new(alloc: A) -> Summary<A>
        ensures { IsKeptSummary result [] }
    {
        Summary {
            sums: Sums::new(),
            parties: Parties::new(alloc),
            collected: Collected::new(alloc),
        }
    }

    /// Resets it to the summary of no records.
    #[inline(always)]
    pub(crate) fn clear(&mut self, alloc: A)
        ensures { IsKeptSummary self.new [] }
    {
        self.sums = Sums::new();
        self.parties.clear(alloc);
        self.collected.clear();
    }

    /// Adds a record.
    #[inline(always)]
    pub(crate) fn add(&mut self, detail: &Record) -> Result<(), Memory>
        requires sums { AreSmallSums self.old.sums }
        requires collected { (q : ℕ) → AreSmall (value_at (found_by self.old.collected) q) }
        ensures { OnOk result ((before : List Record) → IsKeptSummary self.old before → IsKeptSummary self.new (detail.now ∷ before)) }
    {
        self.sums.add(detail);
        self.parties.add_publisher(detail)?;
        self.collected.add(detail)?;
        Ok(())
    }
}
