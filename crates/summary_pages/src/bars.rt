//! Rows of tables, each with a number and a bar.

ghost use Rattle.std.specs.Prelude.{◌≡◌, ◌++◌, map, OnOk};
ghost use Rattle.html_text.specs.Pieces.{page_text};
ghost use Rattle.summary_pages.specs.SummaryPage.{bar_pieces, bar_width, conflict_pieces, counted_pieces, row_pieces, rows_pieces, submitter_pieces};

use cwr_field::Memory;
use html_text::{Fragment, put, put_number, put_shown, put_text};
use register_tables::{Conflicted, SubmitterEntries};
use std::alloc::Allocator;

/// The width of the bar of the whole.
const WHOLE: u128 = 320;

/// Appends rows, each a name and a number. `whole` is what their bars are parts of.
#[tactic(auto, using(html_text::proofs::lemmas::Pages::page_append), unfolding(crate::specs::SummaryPage::rows_pieces))]
pub(crate) fn put_rows<A: Allocator>(
    out: &mut Vec<u8, A>,
    whole: u64,
    rows: &[(&[u8], u64)],
) -> Result<(), Memory>
    ensures { OnOk result (out.new.items ≡ out.old.items ++ page_text (rows_pieces whole (map (λ row. (row.0.now, row.1)) rows.now))) }
{
    for row in rows {
        put_row(out, whole, row.0, row.1)?;
    }
    Ok(())
}

/// Appends a row: a name and a number.
#[tactic(auto, using(html_text::proofs::lemmas::Pages::page_append), unfolding(crate::specs::SummaryPage::row_pieces))]
fn put_row<A: Allocator>(
    out: &mut Vec<u8, A>,
    whole: u64,
    name: &[u8],
    number: u64,
) -> Result<(), Memory>
    ensures { OnOk result (out.new.items ≡ out.old.items ++ page_text (row_pieces whole (name.now, number))) }
{
    put(out, Fragment::Row)?;
    put_text(out, name)?;
    put_counted(out, number, whole)
}

/// Appends the row of a submitter.
#[tactic(auto, using(html_text::proofs::lemmas::Pages::page_append), unfolding(crate::specs::SummaryPage::submitter_pieces))]
pub(crate) fn put_submitter<A: Allocator>(
    out: &mut Vec<u8, A>,
    whole: u64,
    one: SubmitterEntries,
) -> Result<(), Memory>
    ensures { OnOk result (out.new.items ≡ out.old.items ++ page_text (submitter_pieces whole one)) }
{
    let submitter = one.submitter;
    put(out, Fragment::Row)?;
    put(out, Fragment::Code)?;
    put_shown(out, &submitter)?;
    put(out, Fragment::CodeEnd)?;
    put_counted(out, one.entries, whole)
}

/// Appends the row of a work with conflicts.
#[tactic(auto, using(html_text::proofs::lemmas::Pages::page_append), unfolding(crate::specs::SummaryPage::conflict_pieces))]
pub(crate) fn put_conflict<A: Allocator>(
    out: &mut Vec<u8, A>,
    whole: u64,
    one: Conflicted,
) -> Result<(), Memory>
    ensures { OnOk result (out.new.items ≡ out.old.items ++ page_text (conflict_pieces whole one)) }
{
    put(out, Fragment::Row)?;
    put_number(out, one.work as u64)?;
    put_counted(out, one.conflicts, whole)
}

/// Appends the number of a row, and its bar.
#[tactic(auto, unfolding(crate::specs::SummaryPage::counted_pieces))]
fn put_counted<A: Allocator>(out: &mut Vec<u8, A>, number: u64, whole: u64) -> Result<(), Memory>
    ensures { OnOk result (out.new.items ≡ out.old.items ++ page_text (counted_pieces number whole)) }
{
    put(out, Fragment::RowNumber)?;
    put_number(out, number)?;
    put_bar(out, number, whole)
}

/// Appends the bar of a number.
#[tactic(auto, unfolding(crate::specs::SummaryPage::bar_pieces))]
fn put_bar<A: Allocator>(out: &mut Vec<u8, A>, number: u64, whole: u64) -> Result<(), Memory>
    ensures { OnOk result (out.new.items ≡ out.old.items ++ page_text (bar_pieces number whole)) }
{
    let width = bar_width(number, whole);
    put(out, Fragment::RowBar)?;
    put_number(out, number)?;
    put(out, Fragment::RowBarOf)?;
    put_number(out, whole)?;
    put(out, Fragment::RowRect)?;
    put_number(out, width)?;
    put(out, Fragment::RowEnd)
}

/// The width of the bar of a number: its part of that of the whole, rounded up.
#[tactic(auto, unfolding(crate::specs::SummaryPage::bar_width))]
fn bar_width(number: u64, whole: u64) -> u64
    ensures { result ≡ bar_width number whole }
{
    if whole == 0 {
        return 0;
    }
    let width = (WHOLE * number as u128 + whole as u128 - 1) / whole as u128;
    if width < WHOLE {
        width as u64
    } else {
        WHOLE as u64
    }
}
