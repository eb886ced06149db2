//! The works of a book by what is left of a right.

ghost use Rattle.std.specs.Prelude.{◌≡◌, ◌<◌, map};
ghost use Rattle.work_registry.specs.Rows.{rows_of};
ghost use Rattle.register_tables.specs.Counting.{banded};
ghost use Rattle.register_tables.specs.Summary.{bands_of, left_of, works};
ghost use Rattle.register_tables.specs.WorksTable.{last_work};

use crate::tally::counted;
use std::alloc::Allocator;
use work_registry::Book;

/// The number of works in each band of what is left.
#[derive(Clone, Copy, Debug, PartialEq, Eq)]
pub struct Bands {
    /// Nothing.
    pub none: u64,
    /// Up to 2,500 hundredths of one per cent.
    pub quarter: u64,
    /// Above that, up to 5,000.
    pub half: u64,
    /// Above that, and not all.
    pub more: u64,
    /// 10,000.
    pub all: u64,
}

/// The works up to the last by what is left of a right: 0 performing, 1 mechanical, 2 synchronization.
///
/// `last` is what [`last_work`](crate::last_work) says of the history of `book`.
pub fn bands_of<A: Allocator + Copy + Drop>(book: &Book<A>, last: u32, right: usize) -> Bands
    requires last { last ≡ last_work (rows_of book.now.history) }
    requires right { right < 3 }
    ensures { result ≡ bands_of (map (left_of right (rows_of book.now.history)) (works (rows_of book.now.history))) }
{
    let mut bands = Bands {
        none: 0,
        quarter: 0,
        half: 0,
        more: 0,
        all: 0,
    };
    for before in (0..last).rev() {
        let control = book.control_of(before + 1);
        bands = banded(bands, 10_000u64.saturating_sub(control[right]));
    }
    bands
}

/// Adds a work of which `left` hundredths of one per cent are left.
fn banded(bands: Bands, left: u64) -> Bands
    ensures { result ≡ banded bands left }
{
    Bands {
        none: counted(bands.none, left == 0),
        quarter: counted(bands.quarter, 0 < left && left <= 2_500),
        half: counted(bands.half, 2_500 < left && left <= 5_000),
        more: counted(bands.more, 5_000 < left && left < 10_000),
        all: counted(bands.all, left == 10_000),
    }
}
