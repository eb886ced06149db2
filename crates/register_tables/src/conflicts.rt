//! The works of a book with the most conflicts.

ghost use Rattle.std.specs.Prelude.{◌≡◌, ◌<◌, ◌-◌, ◌^◌, [], if◌then◌else◌, length, take, IfOk, OnOk};
ghost use Rattle.work_registry.specs.Rows.{rows_of};
ghost use Rattle.register_tables.specs.Counting.{conflict_noted, AreCounted};
ghost use Rattle.register_tables.specs.Summary.{conflicts_ahead, has_conflicts, largest, placed};
ghost use Rattle.register_tables.specs.WorksTable.{last_work};

use crate::ranking::{Ranked, place};
use crate::tally::counted;
use std::alloc::{AllocError, Allocator};
use work_registry::{Book, Entry, Reply};

/// A work, and the number of conflicts on it.
#[derive(Clone, Copy, Debug, PartialEq, Eq)]
pub struct Conflicted {
    /// The number of the work, from 1.
    pub work: u32,
    /// The number of entries that are conflicts on it.
    pub conflicts: u64,
}

impl Ranked for Conflicted {
    ghost ahead = { conflicts_ahead };

    /// Whether it has more conflicts than the other, or equally many and the lower number.
    fn is_ahead(self, other: Conflicted) -> bool {
        if self.conflicts == other.conflicts {
            self.work < other.work
        } else {
            other.conflicts < self.conflicts
        }
    }
}

/// The ten works with the most conflicts. Those with the most come first; of works with equally many, the lower number
/// comes first. A work without a conflict is not among them.
///
/// `last` is what [`last_work`](crate::last_work) says of the history of `book`. It ends with an error only out of
/// memory.
pub fn largest<A: Allocator + Copy + Drop>(
    alloc: A,
    book: &Book<A>,
    last: u32,
) -> Result<Vec<Conflicted, A>, AllocError>
    requires { last ≡ last_work (rows_of book.now.history) }
    ensures { IfOk result (λ top. top.items ≡ largest book.now.history) }
{
    let counts = conflicts_by_work(alloc, book.history(), last)?;
    let mut top = Vec::new(alloc);
    for before in (0..last).rev() {
        let one = Conflicted {
            work: before + 1,
            conflicts: counts[before as usize],
        };
        place_any(&mut top, one)?;
    }
    Ok(top)
}

/// The number of conflicts on each work up to the last.
fn conflicts_by_work<A: Allocator + Copy + Drop>(
    alloc: A,
    entries: &[Entry<A>],
    last: u32,
) -> Result<Vec<u64, A>, AllocError>
    requires { length entries.now < 2 ^ 64 - 1 }
    ensures { IfOk result (λ counts. AreCounted last entries.now counts.items) }
{
    let mut counts = no_conflicts(alloc, last)?;
    for index in (0..entries.len()).rev() {
        note(&mut counts, entries[index].reply());
    }
    Ok(counts)
}

/// A count of zero for each work up to `last`.
fn no_conflicts<A: Allocator + Copy + Drop>(alloc: A, last: u32) -> Result<Vec<u64, A>, AllocError>
    ensures { IfOk result (λ counts. AreCounted last [] counts.items) }
{
    Vec::from_elem(alloc, 0, last as usize)
}

/// Notes a reply at its work, if it is a conflict.
fn note<A: Allocator + Copy + Drop>(counts: &mut Vec<u64, A>, reply: Reply)
    ensures { counts.new.items ≡ conflict_noted counts.old.items reply }
{
    if let Reply::Conflict { work } = reply {
        if 0 < work && work as usize <= counts.len() {
            let place = work as usize - 1;
            counts[place] = counted(counts[place], true);
        }
    }
}

/// Places a work that has conflicts among the ten with the most of them.
fn place_any<A: Allocator + Copy + Drop>(
    top: &mut Vec<Conflicted, A>,
    one: Conflicted,
) -> Result<(), AllocError>
    ensures { OnOk result (top.new.items ≡ (if has_conflicts one then take 10 (placed conflicts_ahead one top.old.items) else top.old.items)) }
{
    if 0 < one.conflicts {
        place(top, one)?;
    }
    Ok(())
}
