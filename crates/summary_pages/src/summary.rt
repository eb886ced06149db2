//! The page of the summary of a register.

ghost use Rattle.std.specs.Prelude.{◌≡◌, ◌++◌, ◌<◌, map, IfOk, OnOk};
ghost use Rattle.std.specs.Io.KnownBytes.{Appends};
ghost use Rattle.work_registry.specs.Rows.{rows_of};
ghost use Rattle.register_tables.specs.WorksTable.{last_work};
ghost use Rattle.html_text.specs.Pieces.{page_text};
ghost use Rattle.summary_pages.specs.SummaryPage.{counts_pieces, fact_pieces, facts_pieces, numbers_pieces, right_pieces, rights_pieces, summary_page, summary_style_pieces, summary_title_pieces, tops_pieces};

use crate::summary_tables::{put_bands, put_some_conflicts, put_some_submitters, put_statuses};
use cwr_field::Memory;
use html_text::{Fragment, PageError, put, put_name, put_number, put_text, write_block};
use register_tables::{
    Conflicted, SubmitterEntries, Tally, bands_of, largest, last_work, most_entries,
    submitter_count, tally_of,
};
use std::alloc::Allocator;
use std::io::Write;
use work_registry::Book;

/// Writes a summary of a book as a page of HTML, for a browser, and returns what it wrote to. `name` is the name of the
/// register.
///
/// The page has the numbers of `register_tables::summary_text`, and at most ten submitters, those with the most entries.
/// The numbers of entries, works, current claims and submitters stand in a list, the others in tables whose rows have
/// bars. The page needs no other file, and runs no script. On an error `to` is dropped.
pub fn summary_page<W: Write + Drop, A: Allocator + Copy + Drop>(
    alloc: A,
    mut to: W,
    name: &str,
    book: &Book<A>,
) -> Result<W, PageError>
    ensures { IfOk result (λ told. Appends (W.contents to) (W.contents told) (page_text (summary_page name.now book.now.history))) }
{
    let page = page_of(alloc, name.as_bytes(), book)?;
    write_block(&mut to, &page)?;
    Ok(to)
}

/// The page.
fn page_of<A: Allocator + Copy + Drop>(
    alloc: A,
    name: &[u8],
    book: &Book<A>,
) -> Result<Vec<u8, A>, Memory>
    ensures { IfOk result (λ page. page.items ≡ page_text (summary_page name.now book.now.history)) }
{
    let last = last_work(book.history());
    let submitters = submitter_count(alloc, book.history())?;
    let most = most_entries(alloc, book)?;
    let top = largest(alloc, book, last)?;
    let mut page = Vec::new(alloc);
    put_title(&mut page, name)?;
    put_counts(
        &mut page,
        book.len() as u64,
        last as u64,
        submitters,
        tally_of(book),
    )?;
    put_rights(&mut page, book, last)?;
    put_tops(&mut page, &most, &top)?;
    put(&mut page, Fragment::End)?;
    Ok(page)
}

/// Appends the beginning of the page, up to its heading.
#[tactic(auto, using(html_text::proofs::lemmas::Pages::page_append), unfolding(crate::specs::SummaryPage::summary_title_pieces))]
fn put_title<A: Allocator>(out: &mut Vec<u8, A>, name: &[u8]) -> Result<(), Memory>
    ensures { OnOk result (out.new.items ≡ out.old.items ++ page_text (summary_title_pieces name.now)) }
{
    put(out, Fragment::Head)?;
    put_name(out, name)?;
    put(out, Fragment::SummaryTitle)?;
    put_style(out)?;
    put(out, Fragment::SummaryOf)?;
    put_name(out, name)?;
    put(out, Fragment::H1End)
}

/// Appends the style of the page.
#[tactic(auto, unfolding(crate::specs::SummaryPage::summary_style_pieces))]
fn put_style<A: Allocator>(out: &mut Vec<u8, A>) -> Result<(), Memory>
    ensures { OnOk result (out.new.items ≡ out.old.items ++ page_text summary_style_pieces) }
{
    put(out, Fragment::Style)?;
    put(out, Fragment::StyleText)?;
    put(out, Fragment::StyleTables)?;
    put(out, Fragment::StyleSummary)?;
    put(out, Fragment::StyleEnd)
}

/// Appends the numbers of entries, works, current claims and submitters, and the entries by status.
#[tactic(auto, using(html_text::proofs::lemmas::Pages::page_append), unfolding(crate::specs::SummaryPage::counts_pieces))]
fn put_counts<A: Allocator>(
    out: &mut Vec<u8, A>,
    entries: u64,
    works: u64,
    submitters: u64,
    tally: Tally,
) -> Result<(), Memory>
    ensures { OnOk result (out.new.items ≡ out.old.items ++ page_text (counts_pieces entries works submitters tally)) }
{
    put_numbers(out, entries, works, tally.current, submitters)?;
    put_statuses(out, entries, tally)
}

/// Appends the numbers of entries, works, current claims and submitters.
#[tactic(auto, using(html_text::proofs::lemmas::Pages::page_append), unfolding(crate::specs::SummaryPage::numbers_pieces))]
fn put_numbers<A: Allocator>(
    out: &mut Vec<u8, A>,
    entries: u64,
    works: u64,
    claims: u64,
    submitters: u64,
) -> Result<(), Memory>
    ensures { OnOk result (out.new.items ≡ out.old.items ++ page_text (numbers_pieces entries works claims submitters)) }
{
    put(out, Fragment::Facts)?;
    put_facts(
        out,
        &[
            (b"entries", entries),
            (b"works", works),
            (b"current claims", claims),
            (b"submitters", submitters),
        ],
    )?;
    put(out, Fragment::FactsEnd)
}

/// Appends numbers, each with its name.
#[tactic(auto, using(html_text::proofs::lemmas::Pages::page_append), unfolding(crate::specs::SummaryPage::facts_pieces))]
fn put_facts<A: Allocator>(out: &mut Vec<u8, A>, facts: &[(&[u8], u64)]) -> Result<(), Memory>
    ensures { OnOk result (out.new.items ≡ out.old.items ++ page_text (facts_pieces (map (λ fact. (fact.0.now, fact.1)) facts.now))) }
{
    for fact in facts {
        put_fact(out, fact.0, fact.1)?;
    }
    Ok(())
}

/// Appends a number, with its name.
#[tactic(auto, using(html_text::proofs::lemmas::Pages::page_append), unfolding(crate::specs::SummaryPage::fact_pieces))]
fn put_fact<A: Allocator>(out: &mut Vec<u8, A>, name: &[u8], number: u64) -> Result<(), Memory>
    ensures { OnOk result (out.new.items ≡ out.old.items ++ page_text (fact_pieces (name.now, number))) }
{
    put(out, Fragment::Label)?;
    put_text(out, name)?;
    put(out, Fragment::LabelEnd)?;
    put_number(out, number)?;
    put(out, Fragment::Dd)
}

/// Appends the works by what is left of each right.
#[tactic(auto, using(html_text::proofs::lemmas::Pages::page_append), unfolding(crate::specs::SummaryPage::rights_pieces))]
fn put_rights<A: Allocator + Copy + Drop>(
    out: &mut Vec<u8, A>,
    book: &Book<A>,
    last: u32,
) -> Result<(), Memory>
    requires { last ≡ last_work (rows_of book.now.history) }
    ensures { OnOk result (out.new.items ≡ out.old.items ++ page_text (rights_pieces (rows_of book.now.history))) }
{
    put_right(
        out,
        b"Works by what is left of the performing right",
        book,
        last,
        0,
    )?;
    put_right(
        out,
        b"Works by what is left of the mechanical right",
        book,
        last,
        1,
    )?;
    put_right(
        out,
        b"Works by what is left of the synchronization right",
        book,
        last,
        2,
    )
}

/// Appends the works by what is left of a right.
fn put_right<A: Allocator + Copy + Drop>(
    out: &mut Vec<u8, A>,
    heading: &[u8],
    book: &Book<A>,
    last: u32,
    right: usize,
) -> Result<(), Memory>
    requires last { last ≡ last_work (rows_of book.now.history) }
    requires right { right < 3 }
    ensures { OnOk result (out.new.items ≡ out.old.items ++ page_text (right_pieces heading.now right (rows_of book.now.history))) }
{
    put_bands(out, heading, last as u64, bands_of(book, last, right))
}

/// Appends the submitters with the most entries, and the works with the most conflicts.
#[tactic(auto, using(html_text::proofs::lemmas::Pages::page_append), unfolding(crate::specs::SummaryPage::tops_pieces))]
fn put_tops<A: Allocator>(
    out: &mut Vec<u8, A>,
    most: &[SubmitterEntries],
    top: &[Conflicted],
) -> Result<(), Memory>
    ensures { OnOk result (out.new.items ≡ out.old.items ++ page_text (tops_pieces most.now top.now)) }
{
    put_some_submitters(out, most)?;
    put_some_conflicts(out, top)
}
