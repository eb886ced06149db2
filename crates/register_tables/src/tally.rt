//! The entries of a book, counted.

ghost use Rattle.std.specs.Prelude.{◌≡◌, ◌+◌, ◌-◌, ◌^◌, if◌then◌else◌, length, min, IfOk};
ghost use Rattle.work_registry.specs.Rows.{rows_of};
ghost use Rattle.register_tables.specs.Counting.{counted, is_first, tallied};
ghost use Rattle.register_tables.specs.Summary.{different, submitters, tally_of};

use crate::wanted::fits_status;
use indexmap::IndexSet;
use std::alloc::{AllocError, Allocator};
use std::hash::{BuildHasherDefault, FoldHasher};
use work_registry::{Book, Entry, Reply, Status};

/// The number of entries with each status, and of entries that made the claim in force under their key.
#[derive(Clone, Copy, Debug, PartialEq, Eq)]
pub struct Tally {
    /// The entries that were accepted (AS).
    pub accepted: u64,
    /// The duplicates (DU).
    pub duplicates: u64,
    /// The conflicts (CO).
    pub conflicts: u64,
    /// The entries that were rejected (RJ).
    pub rejected: u64,
    /// The entries that made the claim in force under their key.
    pub current: u64,
}

/// Counts the entries of a book. Under a key there is one claim in force, and one entry made its first version. So
/// first versions are counted, and no claim is looked up.
pub fn tally_of<A: Allocator + Copy + Drop>(book: &Book<A>) -> Tally
    ensures { result ≡ tally_of (rows_of book.now.history) book.now.history }
{
    let entries = book.history();
    let mut tally = Tally {
        accepted: 0,
        duplicates: 0,
        conflicts: 0,
        rejected: 0,
        current: 0,
    };
    for index in (0..entries.len()).rev() {
        let reply = entries[index].reply();
        tally = tallied(tally, reply.status(), is_first(reply));
    }
    tally
}

/// Whether a call was accepted as the first under its key.
fn is_first(reply: Reply) -> bool
    ensures { result ≡ is_first reply }
{
    match reply {
        Reply::Accepted { work: _, version } => version == 1,
        Reply::Duplicate { work: _ } | Reply::Conflict { work: _ } | Reply::Rejected => false,
    }
}

/// Adds an entry with this status. `first` says whether it was accepted as the first under its key.
fn tallied(tally: Tally, status: Status, first: bool) -> Tally
    ensures { result ≡ tallied tally status first }
{
    Tally {
        accepted: counted(tally.accepted, fits_status(Some(Status::Accepted), status)),
        duplicates: counted(
            tally.duplicates,
            fits_status(Some(Status::Duplicate), status),
        ),
        conflicts: counted(tally.conflicts, fits_status(Some(Status::Conflict), status)),
        rejected: counted(tally.rejected, fits_status(Some(Status::Rejected), status)),
        current: counted(tally.current, first),
    }
}

/// The count, and one more if `more` is true.
pub(crate) fn counted(count: u64, more: bool) -> u64
    ensures { result ≡ counted count more }
{
    if more { count.saturating_add(1) } else { count }
}

/// The number of different submitters of the entries of a book. It ends with an error only out of memory.
pub fn submitter_count<A: Allocator + Copy + Drop>(
    alloc: A,
    entries: &[Entry<A>],
) -> Result<u64, AllocError>
    ensures { IfOk result (λ n. n ≡ length (different (submitters entries.now))) }
{
    let mut known: IndexSet<[u8; 11], BuildHasherDefault<FoldHasher>, A> = IndexSet::new(alloc);
    for index in (0..entries.len()).rev() {
        match known.insert(entries[index].call().submitter()) {
            Ok(_) => {}
            Err(_) => return Err(AllocError),
        }
    }
    Ok(known.len() as u64)
}
