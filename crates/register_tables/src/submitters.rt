//! The submitters of a book with the most entries.

ghost use Rattle.std.specs.Prelude.{◌≡◌, ◌<◌, ◌-◌, ◌^◌, length, map, reverse, IfOk, OnOk};
ghost use Rattle.register_tables.specs.Counting.{submitter_noted};
ghost use Rattle.register_tables.specs.Summary.{different, entries_ahead, entries_of, most_entries, submitters};

use crate::ranking::{Ranked, place};
use crate::tally::counted;
use indexmap::IndexSet;
use std::alloc::{AllocError, Allocator};
use std::hash::{BuildHasherDefault, FoldHasher};
use work_registry::{Book, Entry};

/// A submitter, and the number of its entries.
#[derive(Clone, Copy, Debug, PartialEq, Eq)]
pub struct SubmitterEntries {
    /// The submitter, as in a call.
    pub submitter: [u8; 11],
    /// The number of entries with that submitter.
    pub entries: u64,
}

impl Ranked for SubmitterEntries {
    ghost ahead = { entries_ahead };

    /// Whether it has more entries than the other, or equally many and the lesser bytes.
    fn is_ahead(self, other: SubmitterEntries) -> bool {
        if self.entries == other.entries {
            self.submitter.cmp(&other.submitter).is_lt()
        } else {
            other.entries < self.entries
        }
    }
}

/// The ten submitters with the most entries in a book. Those with the most come first; of submitters with equally many,
/// the one whose bytes are less. There are fewer than ten where the book has fewer submitters.
///
/// It reads the history once. It ends with an error only out of memory.
pub fn most_entries<A: Allocator + Copy + Drop>(
    alloc: A,
    book: &Book<A>,
) -> Result<Vec<SubmitterEntries, A>, AllocError>
    ensures { IfOk result (λ top. top.items ≡ most_entries book.now.history) }
{
    let counts = entries_by_submitter(alloc, book.history())?;
    let mut top = Vec::new(alloc);
    for one in &counts {
        place(&mut top, *one)?;
    }
    Ok(top)
}

/// The number of entries of each submitter, in the order in which the entries name them from the end.
fn entries_by_submitter<A: Allocator + Copy + Drop>(
    alloc: A,
    entries: &[Entry<A>],
) -> Result<Vec<SubmitterEntries, A>, AllocError>
    requires { length entries.now < 2 ^ 64 - 1 }
    ensures { IfOk result (λ counts. counts.items ≡ map (entries_of entries.now) (reverse (different (submitters entries.now)))) }
{
    let mut known = IndexSet::new(alloc);
    let mut counts = Vec::new(alloc);
    for index in (0..entries.len()).rev() {
        note(&mut known, &mut counts, entries[index].call().submitter())?;
    }
    Ok(counts)
}

/// Notes an entry at its submitter. `known` has the submitters of `counts`, in their order.
fn note<A: Allocator + Copy + Drop>(
    known: &mut IndexSet<[u8; 11], BuildHasherDefault<FoldHasher>, A>,
    counts: &mut Vec<SubmitterEntries, A>,
    submitter: [u8; 11],
) -> Result<(), AllocError>
    requires { known.old.keys ≡ map (λ one. one.submitter) counts.old.items }
    ensures known { OnOk result (known.new.keys ≡ map (λ one. one.submitter) counts.new.items) }
    ensures noted { OnOk result (counts.new.items ≡ submitter_noted counts.old.items submitter) }
{
    let Ok((place, is_new)) = known.insert_full(submitter) else {
        return Err(AllocError);
    };
    if is_new {
        counts.push(SubmitterEntries {
            submitter,
            entries: 1,
        })?;
    } else {
        counts[place].entries = counted(counts[place].entries, true);
    }
    Ok(())
}
