//! A line with its faults: its place in the file, the line in its box, and the faults.

ghost use Rattle.std.specs.Prelude.{◌≡◌, ◌++◌, OnOk};
ghost use Rattle.html_text.specs.Pieces.{page_text};
ghost use Rattle.check_pages.specs.Sections.{begin_of, box_pieces, closed_pieces, columns_from, column_of, columns_of, columns_on, cut_pieces, finding_pieces, heading_pieces, line_of_first, opened_pieces, opening_pieces, place_pieces};

use crate::boxes::{MOST_PLACES, places, put_line};
use crate::faults::put_fault;
use crate::rooms::Rooms;
use cwr_field::Memory;
use cwr_record::Column;
use cwr_report::{Finding, Spot};
use html_text::{Fragment, put, put_number, put_text};
use report_texts::put_detail;
use std::alloc::Allocator;

/// The most places of a line that has the ruler of three rows.
const FEW_PLACES: usize = 240;

/// Appends a finding, in a section that begins if the finding before it is on another line, and ends if the one behind
/// it is. `line` has the bytes of its line, and `before` is the number of the line of the finding before it, 0 if there
/// is none. The finding is the `k`-th of `total` of its rule, and `later` are those behind it.
#[tactic(auto, using(html_text::proofs::lemmas::Pages::page_append), unfolding(crate::specs::Sections::finding_pieces))]
pub(crate) fn put_finding<A: Allocator>(
    rooms: &mut Rooms<A>,
    line: &[u8],
    before: u64,
    k: u64,
    total: u64,
    finding: &Finding,
    later: &[Finding],
) -> Result<(), Memory>
    ensures { OnOk result (rooms.new.out.items ≡ rooms.old.out.items ++ page_text (finding_pieces line.now before k total finding.now later.now)) }
{
    put_opened(rooms, line, before, finding, later)?;
    put_fault(&mut rooms.out, &mut rooms.text, line, finding, k, total)?;
    put_closed(&mut rooms.out, finding.line, later)
}

/// Appends the beginning of a section, if the finding before it is on another line.
#[tactic(auto, unfolding(crate::specs::Sections::opened_pieces))]
fn put_opened<A: Allocator>(
    rooms: &mut Rooms<A>,
    line: &[u8],
    before: u64,
    finding: &Finding,
    later: &[Finding],
) -> Result<(), Memory>
    ensures { OnOk result (rooms.new.out.items ≡ rooms.old.out.items ++ page_text (opened_pieces line.now before finding.now later.now)) }
{
    if finding.line == before {
        return Ok(());
    }
    put_opening(rooms, line, finding, later)
}

/// Appends the beginning of the section of a finding, and of those behind it on its line.
#[tactic(auto, using(html_text::proofs::lemmas::Pages::page_append), unfolding(crate::specs::Sections::opening_pieces))]
fn put_opening<A: Allocator>(
    rooms: &mut Rooms<A>,
    line: &[u8],
    finding: &Finding,
    later: &[Finding],
) -> Result<(), Memory>
    ensures { OnOk result (rooms.new.out.items ≡ rooms.old.out.items ++ page_text (opening_pieces line.now finding.now later.now)) }
{
    put_heading(&mut rooms.out, &mut rooms.text, finding)?;
    set_columns(&mut rooms.spots, finding, later)?;
    put_box(&mut rooms.out, line, &rooms.spots, Fragment::Mark)
}

/// Appends the place of a finding, by which its section begins. `text` is a buffer.
#[tactic(auto, unfolding(crate::specs::Sections::heading_pieces))]
fn put_heading<A: Allocator>(
    out: &mut Vec<u8, A>,
    text: &mut Vec<u8, A>,
    finding: &Finding,
) -> Result<(), Memory>
    ensures { OnOk result (out.new.items ≡ out.old.items ++ page_text (heading_pieces finding.now)) }
{
    text.clear();
    put_detail(
        text,
        &finding.fault.rtype,
        finding.group as u64,
        finding.transaction as u64,
        finding.fault.sequence as u64,
    )?;
    put_place(out, finding.line, text)
}

/// Appends the heading of a section: the number of its line, and its place in the file.
#[tactic(auto, using(html_text::proofs::lemmas::Pages::page_append), unfolding(crate::specs::Sections::place_pieces))]
pub(crate) fn put_place<A: Allocator>(
    out: &mut Vec<u8, A>,
    number: u64,
    place: &[u8],
) -> Result<(), Memory>
    ensures { OnOk result (out.new.items ≡ out.old.items ++ page_text (place_pieces number place.now)) }
{
    put(out, Fragment::Section)?;
    put_number(out, number)?;
    put(out, Fragment::Colon)?;
    put_text(out, place)?;
    put(out, Fragment::H3End)
}

/// Appends the end of the section of a line, if the finding behind it is on another line.
#[tactic(auto, unfolding(crate::specs::Sections::closed_pieces))]
fn put_closed<A: Allocator>(
    out: &mut Vec<u8, A>,
    number: u64,
    later: &[Finding],
) -> Result<(), Memory>
    ensures { OnOk result (out.new.items ≡ out.old.items ++ page_text (closed_pieces number later.now)) }
{
    if number == line_of_first(later) {
        return Ok(());
    }
    put(out, Fragment::SectionEnd)
}

/// The line of the first of these findings; 0 if there is none.
fn line_of_first(findings: &[Finding]) -> u64
    ensures { result ≡ line_of_first findings.now }
{
    match findings.first() {
        Some(finding) => finding.line,
        None => 0,
    }
}

/// Sets the columns to those of a finding's fields, and of those of the findings behind it on its line.
fn set_columns<A: Allocator>(
    spots: &mut Vec<Column, A>,
    finding: &Finding,
    later: &[Finding],
) -> Result<(), Memory>
    ensures { OnOk result (spots.new.items ≡ columns_from finding.now later.now) }
{
    spots.clear();
    push_columns(spots, &finding.fields)?;
    push_columns_on(spots, finding.line, later)
}

/// Appends the columns of the fields of these findings, up to the first that is not on this line.
fn push_columns_on<A: Allocator>(
    spots: &mut Vec<Column, A>,
    number: u64,
    findings: &[Finding],
) -> Result<(), Memory>
    ensures { OnOk result (spots.new.items ≡ spots.old.items ++ columns_on number findings.now) }
{
    for finding in findings {
        if finding.line != number {
            return Ok(());
        }
        push_columns(spots, &finding.fields)?;
    }
    Ok(())
}

/// Appends the columns of fields.
pub(crate) fn push_columns<A: Allocator>(
    spots: &mut Vec<Column, A>,
    fields: &[Option<Spot>],
) -> Result<(), Memory>
    ensures { OnOk result (spots.new.items ≡ spots.old.items ++ columns_of fields.now) }
{
    for field in fields {
        push_column(spots, field)?;
    }
    Ok(())
}

/// Appends the column of a field, if there is one.
fn push_column<A: Allocator>(spots: &mut Vec<Column, A>, field: &Option<Spot>) -> Result<(), Memory>
    ensures { OnOk result (spots.new.items ≡ spots.old.items ++ column_of field.now) }
{
    if let Some(spot) = field {
        spots.push(spot.column)?;
    }
    Ok(())
}

/// Appends a line in its box, with its fields between marks of this kind.
#[tactic(auto, using(html_text::proofs::lemmas::Pages::page_append), unfolding(crate::specs::Sections::box_pieces))]
pub(crate) fn put_box<A: Allocator>(
    out: &mut Vec<u8, A>,
    line: &[u8],
    spots: &[Column],
    mark: Fragment,
) -> Result<(), Memory>
    ensures { OnOk result (out.new.items ≡ out.old.items ++ page_text (box_pieces line.now spots.now mark)) }
{
    put(out, begin_of(places(line.len(), spots)))?;
    put_line(out, line, spots, mark)?;
    put(out, Fragment::PreEnd)?;
    put_cut(out, line.len())
}

/// The beginning of a box in which so many places are shown.
fn begin_of(shown: usize) -> Fragment
    ensures { result ≡ begin_of shown }
{
    if shown > FEW_PLACES {
        Fragment::PreLong
    } else {
        Fragment::Pre
    }
}

/// Appends how long a line is, if it is not shown as a whole.
#[tactic(auto, unfolding(crate::specs::Sections::cut_pieces))]
fn put_cut<A: Allocator>(out: &mut Vec<u8, A>, size: usize) -> Result<(), Memory>
    ensures { OnOk result (out.new.items ≡ out.old.items ++ page_text (cut_pieces size)) }
{
    if size <= MOST_PLACES {
        return Ok(());
    }
    put(out, Fragment::Cut)?;
    put_number(out, size as u64)?;
    put(out, Fragment::PEnd)
}
