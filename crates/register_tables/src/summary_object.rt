//! A summary of a register as a JSON object.

ghost use Rattle.std.specs.Prelude.{◌≡◌, ◌∷◌, [], ◌<◌, codes, length, IfOk, OnOk};
ghost use Rattle.std.specs.Io.KnownBytes.{Appends};
ghost use Rattle.std.specs.List.{flat_map};
ghost use Rattle.work_registry.specs.Rows.{rows_of};
ghost use Rattle.register_tables.specs.JsonValues.{value_tokens, Adds};
ghost use Rattle.register_tables.specs.Summary.{different, largest, most_entries, submitters, tally_of};
ghost use Rattle.register_tables.specs.SummaryJson.{bands_data, conflict_data, conflicts_data, right_data, shares_data, submitter_data, submitters_data, summary_data, summary_json, object_of_numbers};
ghost use Rattle.register_tables.specs.WorksTable.{last_work};

use crate::conflicts::{Conflicted, largest};
use crate::json_values::{Shown, line_of, put_members, put_object};
use crate::rows::TableError;
use crate::shares::{Bands, bands_of};
use crate::submitters::{SubmitterEntries, most_entries};
use crate::tally::{Tally, submitter_count, tally_of};
use crate::works::last_work;
use cwr_field::Memory;
use json::Writer;
use std::alloc::Allocator;
use std::io::Write;
use work_registry::Book;

/// Writes a summary of a book as a JSON object, and LF, and returns what it wrote to.
///
/// Its members are numbers but for three, and stand in the order of their names: `accepted`, `conflicts`, `duplicates`
/// and `rejected`, the entries with each status; `current_claims`; `entries`; `submitters`, those of the entries;
/// `works`; `largest_conflicts`, a list of objects with `conflicts` and `work`, as the page has them; `left`, an object
/// with a member for each right, `mechanical`, `performing` and `synchronization`; and `most_entries`, a list of objects
/// with `entries` and `submitter`, the ten submitters with the most entries. Each member of `left` is an object with the
/// number of works by what is left of the right: `all`, `more_than_half`, `none`, `up_to_half` and `up_to_quarter`.
///
/// In `most_entries` the submitter with the most entries comes first, and of submitters with equally many the one whose
/// bytes are less. A submitter is a text, in which each byte is the character with its number.
pub fn summary_json<W: Write + Drop, A: Allocator + Copy + Drop>(
    alloc: A,
    mut to: W,
    book: &Book<A>,
) -> Result<W, TableError>
    ensures { IfOk result (λ told. Appends (W.contents to) (W.contents told) (summary_json book.now.history)) }
{
    let text = text_of(alloc, book)?;
    match to.write_all(&text) {
        Ok(()) => Ok(to),
        Err(_) => Err(TableError::Write),
    }
}

/// The object, and LF.
fn text_of<A: Allocator + Copy + Drop>(alloc: A, book: &Book<A>) -> Result<Vec<u8, A>, Memory>
    ensures { IfOk result (λ text. text.items ≡ summary_json book.now.history) }
{
    let mut out = Writer::new(Vec::new(alloc));
    put_summary(&mut out, alloc, book)?;
    line_of(out)
}

/// Writes the object.
fn put_summary<A: Allocator + Copy + Drop>(
    out: &mut Writer<A>,
    alloc: A,
    book: &Book<A>,
) -> Result<(), Memory>
    ensures { OnOk result (Adds out.old out.new (value_tokens (summary_data book.now.history))) }
{
    let last = last_work(book.history());
    let top = largest(alloc, book, last)?;
    let most = most_entries(alloc, book)?;
    let numbers = Numbers {
        entries: book.len() as u64,
        works: last as u64,
        submitters: submitter_count(alloc, book.history())?,
        tally: tally_of(book),
    };
    let mut buffer = String::new(alloc);
    put_summary_members(out, &mut buffer, book, last, numbers, &top, &most)
}

/// The numbers of a summary.
#[derive(Clone, Copy)]
struct Numbers {
    entries: u64,
    works: u64,
    submitters: u64,
    tally: Tally,
}

/// Writes the members of the object. `out` is written to, and `buffer` is a scratch buffer for texts. `book` has `last`
/// works, `numbers` has the counts, `top` the works with the most conflicts, and `most` the submitters with the most
/// entries.
fn put_summary_members<A: Allocator + Copy + Drop>(
    out: &mut Writer<A>,
    buffer: &mut String<A>,
    book: &Book<A>,
    last: u32,
    numbers: Numbers,
    top: &[Conflicted],
    most: &[SubmitterEntries],
) -> Result<(), Memory>
    requires { last ≡ last_work (rows_of book.now.history) }
    ensures { OnOk result (Adds out.old out.new (value_tokens (object_of_numbers numbers.entries numbers.works numbers.submitters numbers.tally (shares_data (rows_of book.now.history)) (conflicts_data top.now) (submitters_data most.now)))) }
{
    let tally = numbers.tally;
    out.begin_object()?;
    put_members(
        out,
        buffer,
        &[
            ("accepted", Shown::Number(tally.accepted)),
            ("conflicts", Shown::Number(tally.conflicts)),
            ("current_claims", Shown::Number(tally.current)),
            ("duplicates", Shown::Number(tally.duplicates)),
            ("entries", Shown::Number(numbers.entries)),
        ],
    )?;
    out.key("largest_conflicts")?;
    put_conflicts(out, buffer, top)?;
    out.key("left")?;
    put_shares(out, buffer, book, last)?;
    out.key("most_entries")?;
    put_submitters(out, buffer, most)?;
    put_members(
        out,
        buffer,
        &[
            ("rejected", Shown::Number(tally.rejected)),
            ("submitters", Shown::Number(numbers.submitters)),
            ("works", Shown::Number(numbers.works)),
        ],
    )?;
    out.end_object()?;
    Ok(())
}

/// Writes works with conflicts, as a list of objects.
fn put_conflicts<A: Allocator + Copy + Drop>(
    out: &mut Writer<A>,
    buffer: &mut String<A>,
    top: &[Conflicted],
) -> Result<(), Memory>
    ensures { OnOk result (Adds out.old out.new (value_tokens (conflicts_data top.now))) }
{
    out.begin_array()?;
    for one in top {
        put_conflict(out, buffer, *one)?;
    }
    out.end_array()?;
    Ok(())
}

fn put_conflict<A: Allocator + Copy + Drop>(
    out: &mut Writer<A>,
    buffer: &mut String<A>,
    one: Conflicted,
) -> Result<(), Memory>
    ensures { OnOk result (Adds out.old out.new (value_tokens (conflict_data one))) }
{
    put_object(
        out,
        buffer,
        &[
            ("conflicts", Shown::Number(one.conflicts)),
            ("work", Shown::Number(one.work as u64)),
        ],
    )
}

/// Writes submitters with their entries, as a list of objects.
fn put_submitters<A: Allocator + Copy + Drop>(
    out: &mut Writer<A>,
    buffer: &mut String<A>,
    most: &[SubmitterEntries],
) -> Result<(), Memory>
    ensures { OnOk result (Adds out.old out.new (value_tokens (submitters_data most.now))) }
{
    out.begin_array()?;
    for one in most {
        put_submitter(out, buffer, *one)?;
    }
    out.end_array()?;
    Ok(())
}

fn put_submitter<A: Allocator + Copy + Drop>(
    out: &mut Writer<A>,
    buffer: &mut String<A>,
    one: SubmitterEntries,
) -> Result<(), Memory>
    ensures { OnOk result (Adds out.old out.new (value_tokens (submitter_data one))) }
{
    let submitter = one.submitter;
    put_object(
        out,
        buffer,
        &[
            ("entries", Shown::Number(one.entries)),
            ("submitter", Shown::Text(&submitter)),
        ],
    )
}

/// Writes the works by what is left of each right.
fn put_shares<A: Allocator + Copy + Drop>(
    out: &mut Writer<A>,
    buffer: &mut String<A>,
    book: &Book<A>,
    last: u32,
) -> Result<(), Memory>
    requires { last ≡ last_work (rows_of book.now.history) }
    ensures { OnOk result (Adds out.old out.new (value_tokens (shares_data (rows_of book.now.history)))) }
{
    out.begin_object()?;
    out.key("mechanical")?;
    put_bands(out, buffer, bands_of(book, last, 1))?;
    out.key("performing")?;
    put_bands(out, buffer, bands_of(book, last, 0))?;
    out.key("synchronization")?;
    put_bands(out, buffer, bands_of(book, last, 2))?;
    out.end_object()?;
    Ok(())
}

/// Writes the number of works in each band.
fn put_bands<A: Allocator + Copy + Drop>(
    out: &mut Writer<A>,
    buffer: &mut String<A>,
    bands: Bands,
) -> Result<(), Memory>
    ensures { OnOk result (Adds out.old out.new (value_tokens (bands_data bands))) }
{
    put_object(
        out,
        buffer,
        &[
            ("all", Shown::Number(bands.all)),
            ("more_than_half", Shown::Number(bands.more)),
            ("none", Shown::Number(bands.none)),
            ("up_to_half", Shown::Number(bands.half)),
            ("up_to_quarter", Shown::Number(bands.quarter)),
        ],
    )
}
