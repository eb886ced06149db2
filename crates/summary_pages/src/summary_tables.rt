//! The tables of a summary.

ghost use Rattle.std.specs.Prelude.{◌≡◌, ◌++◌, OnOk};
ghost use Rattle.std.specs.List.{flat_map};
ghost use Rattle.html_text.specs.Pieces.{page_text};
ghost use Rattle.summary_pages.specs.SummaryPage.{bands_pieces, conflict_pieces, conflicts_pieces, heading_pieces, some_conflicts_pieces, some_submitters_pieces, statuses_pieces, submitter_pieces, submitters_pieces, table_pieces, whole_pieces};

use crate::bars::{put_conflict, put_rows, put_submitter};
use cwr_field::Memory;
use html_text::{Fragment, put, put_number, put_text};
use register_tables::{Bands, Conflicted, SubmitterEntries, Tally};
use std::alloc::Allocator;

/// Appends the entries by status.
#[tactic(auto, using(html_text::proofs::lemmas::Pages::page_append), unfolding(crate::specs::SummaryPage::statuses_pieces))]
pub(crate) fn put_statuses<A: Allocator>(
    out: &mut Vec<u8, A>,
    entries: u64,
    tally: Tally,
) -> Result<(), Memory>
    ensures { OnOk result (out.new.items ≡ out.old.items ++ page_text (statuses_pieces entries tally)) }
{
    put_table(out, b"Entries by status", b"status", b"entries", entries)?;
    put_rows(
        out,
        entries,
        &[
            (b"accepted (AS)", tally.accepted),
            (b"duplicates (DU)", tally.duplicates),
            (b"conflicts (CO)", tally.conflicts),
            (b"rejected (RJ)", tally.rejected),
        ],
    )?;
    put(out, Fragment::TableEnd)
}

/// Appends the works by what is left of a right. `works` is their number.
#[tactic(auto, using(html_text::proofs::lemmas::Pages::page_append), unfolding(crate::specs::SummaryPage::bands_pieces))]
pub(crate) fn put_bands<A: Allocator>(
    out: &mut Vec<u8, A>,
    heading: &[u8],
    works: u64,
    bands: Bands,
) -> Result<(), Memory>
    ensures { OnOk result (out.new.items ≡ out.old.items ++ page_text (bands_pieces heading.now works bands)) }
{
    put_table(out, heading, b"left", b"works", works)?;
    put_rows(
        out,
        works,
        &[
            (b"none", bands.none),
            (b"up to a quarter", bands.quarter),
            (b"up to a half", bands.half),
            (b"more than a half", bands.more),
            (b"all", bands.all),
        ],
    )?;
    put(out, Fragment::TableEnd)
}

/// Appends the submitters with the most entries, if there are any.
#[tactic(auto, unfolding(crate::specs::SummaryPage::some_submitters_pieces))]
pub(crate) fn put_some_submitters<A: Allocator>(
    out: &mut Vec<u8, A>,
    most: &[SubmitterEntries],
) -> Result<(), Memory>
    ensures { OnOk result (out.new.items ≡ out.old.items ++ page_text (some_submitters_pieces most.now)) }
{
    match most.first() {
        None => Ok(()),
        Some(first) => put_submitters(out, first.entries, most),
    }
}

/// Appends submitters with their entries. `whole` is the greatest number.
#[tactic(auto, using(html_text::proofs::lemmas::Pages::page_append), unfolding(crate::specs::SummaryPage::submitters_pieces))]
fn put_submitters<A: Allocator>(
    out: &mut Vec<u8, A>,
    whole: u64,
    most: &[SubmitterEntries],
) -> Result<(), Memory>
    ensures { OnOk result (out.new.items ≡ out.old.items ++ page_text (submitters_pieces whole most.now)) }
{
    put_table(
        out,
        b"Submitters with the most entries, ten at most",
        b"submitter",
        b"entries",
        whole,
    )?;
    put_submitter_rows(out, whole, most)?;
    put(out, Fragment::TableEnd)
}

/// Appends the rows of submitters.
#[tactic(auto, using(html_text::proofs::lemmas::Pages::page_append))]
fn put_submitter_rows<A: Allocator>(
    out: &mut Vec<u8, A>,
    whole: u64,
    most: &[SubmitterEntries],
) -> Result<(), Memory>
    ensures { OnOk result (out.new.items ≡ out.old.items ++ page_text (flat_map (submitter_pieces whole) most.now)) }
{
    for one in most {
        put_submitter(out, whole, *one)?;
    }
    Ok(())
}

/// Appends the works with the most conflicts, if there are any.
#[tactic(auto, unfolding(crate::specs::SummaryPage::some_conflicts_pieces))]
pub(crate) fn put_some_conflicts<A: Allocator>(
    out: &mut Vec<u8, A>,
    top: &[Conflicted],
) -> Result<(), Memory>
    ensures { OnOk result (out.new.items ≡ out.old.items ++ page_text (some_conflicts_pieces top.now)) }
{
    match top.first() {
        None => Ok(()),
        Some(first) => put_conflicts(out, first.conflicts, top),
    }
}

/// Appends works with their conflicts. `whole` is the greatest number.
#[tactic(auto, using(html_text::proofs::lemmas::Pages::page_append), unfolding(crate::specs::SummaryPage::conflicts_pieces))]
fn put_conflicts<A: Allocator>(
    out: &mut Vec<u8, A>,
    whole: u64,
    top: &[Conflicted],
) -> Result<(), Memory>
    ensures { OnOk result (out.new.items ≡ out.old.items ++ page_text (conflicts_pieces whole top.now)) }
{
    put_table(
        out,
        b"Works with the most conflicts, ten at most",
        b"work",
        b"conflicts",
        whole,
    )?;
    put_conflict_rows(out, whole, top)?;
    put(out, Fragment::TableEnd)
}

/// Appends the rows of works with conflicts.
#[tactic(auto, using(html_text::proofs::lemmas::Pages::page_append))]
fn put_conflict_rows<A: Allocator>(
    out: &mut Vec<u8, A>,
    whole: u64,
    top: &[Conflicted],
) -> Result<(), Memory>
    ensures { OnOk result (out.new.items ≡ out.old.items ++ page_text (flat_map (conflict_pieces whole) top.now)) }
{
    for one in top {
        put_conflict(out, whole, *one)?;
    }
    Ok(())
}

/// Appends the beginning of a table: its heading, what its rows are, what is counted, and how much the whole is.
#[tactic(auto, using(html_text::proofs::lemmas::Pages::page_append), unfolding(crate::specs::SummaryPage::table_pieces))]
fn put_table<A: Allocator>(
    out: &mut Vec<u8, A>,
    heading: &[u8],
    first: &[u8],
    counted: &[u8],
    whole: u64,
) -> Result<(), Memory>
    ensures { OnOk result (out.new.items ≡ out.old.items ++ page_text (table_pieces heading.now first.now counted.now whole)) }
{
    put_heading(out, heading, first)?;
    put_whole(out, counted, whole)
}

/// Appends the heading of a table, and what its rows are.
#[tactic(auto, using(html_text::proofs::lemmas::Pages::page_append), unfolding(crate::specs::SummaryPage::heading_pieces))]
fn put_heading<A: Allocator>(
    out: &mut Vec<u8, A>,
    heading: &[u8],
    first: &[u8],
) -> Result<(), Memory>
    ensures { OnOk result (out.new.items ≡ out.old.items ++ page_text (heading_pieces heading.now first.now)) }
{
    put(out, Fragment::Table)?;
    put_text(out, heading)?;
    put(out, Fragment::TableHead)?;
    put_text(out, first)
}

/// Appends what is counted, and how much the whole is.
#[tactic(auto, using(html_text::proofs::lemmas::Pages::page_append), unfolding(crate::specs::SummaryPage::whole_pieces))]
fn put_whole<A: Allocator>(out: &mut Vec<u8, A>, counted: &[u8], whole: u64) -> Result<(), Memory>
    ensures { OnOk result (out.new.items ≡ out.old.items ++ page_text (whole_pieces counted.now whole)) }
{
    put(out, Fragment::TableNumber)?;
    put_text(out, counted)?;
    put(out, Fragment::TableBar)?;
    put_number(out, whole)?;
    put(out, Fragment::TableBody)
}
