//! A line with its remarks.

ghost use Rattle.std.specs.Prelude.{◌≡◌, ◌++◌, OnOk};
ghost use Rattle.html_text.specs.Pieces.{page_text};
ghost use Rattle.check_pages.specs.RemarkSections.{first_bytes, line_of_first, remark_closed_pieces, remark_columns, remark_columns_from, remark_columns_on, remark_heading_pieces, remark_opened_pieces, remark_opening_pieces, remark_pieces, remarked_pieces, type_pieces};

use crate::rooms::Rooms;
use crate::sections::put_box;
use cwr_field::Memory;
use cwr_record::Column;
use cwr_remarks::{Remark, Remarked, put_what};
use html_text::{Fragment, put, put_number, put_shown};
use std::alloc::Allocator;

/// Appends a remark, in a section that begins if the remark before it is on another line, and ends if the one behind it
/// is. `line` has the bytes of its line, `before` is the number of the line of the remark before it, 0 if there is
/// none, and `later` are those behind it.
#[tactic(auto, using(html_text::proofs::lemmas::Pages::page_append), unfolding(crate::specs::RemarkSections::remark_pieces))]
pub(crate) fn put_remark<A: Allocator>(
    rooms: &mut Rooms<A>,
    line: &[u8],
    before: u64,
    remark: &Remark,
    later: &[Remark],
) -> Result<(), Memory>
    ensures { OnOk result (rooms.new.out.items ≡ rooms.old.out.items ++ page_text (remark_pieces line.now before remark.now later.now)) }
{
    put_opened(rooms, line, before, remark, later)?;
    put_remarked(&mut rooms.out, &mut rooms.text, remark.what)?;
    put_closed(&mut rooms.out, remark.line, later)
}

/// Appends the beginning of a section, if the remark before it is on another line.
#[tactic(auto, unfolding(crate::specs::RemarkSections::remark_opened_pieces))]
fn put_opened<A: Allocator>(
    rooms: &mut Rooms<A>,
    line: &[u8],
    before: u64,
    remark: &Remark,
    later: &[Remark],
) -> Result<(), Memory>
    ensures { OnOk result (rooms.new.out.items ≡ rooms.old.out.items ++ page_text (remark_opened_pieces line.now before remark.now later.now)) }
{
    if remark.line == before {
        return Ok(());
    }
    put_opening(rooms, line, remark, later)
}

/// Appends the beginning of the section of a remark, and of those behind it on its line.
#[tactic(auto, using(html_text::proofs::lemmas::Pages::page_append), unfolding(crate::specs::RemarkSections::remark_opening_pieces))]
fn put_opening<A: Allocator>(
    rooms: &mut Rooms<A>,
    line: &[u8],
    remark: &Remark,
    later: &[Remark],
) -> Result<(), Memory>
    ensures { OnOk result (rooms.new.out.items ≡ rooms.old.out.items ++ page_text (remark_opening_pieces line.now remark.now later.now)) }
{
    put_heading(&mut rooms.out, remark)?;
    set_columns(&mut rooms.spots, remark, later)?;
    put_box(&mut rooms.out, line, &rooms.spots, Fragment::Mark)
}

/// Appends the heading of a section.
#[tactic(auto, using(html_text::proofs::lemmas::Pages::page_append), unfolding(crate::specs::RemarkSections::remark_heading_pieces))]
fn put_heading<A: Allocator>(out: &mut Vec<u8, A>, remark: &Remark) -> Result<(), Memory>
    ensures { OnOk result (out.new.items ≡ out.old.items ++ page_text (remark_heading_pieces remark.now)) }
{
    put(out, Fragment::Section)?;
    put_number(out, remark.line)?;
    put_type(out, remark.rtype)?;
    put(out, Fragment::H3End)
}

/// Appends a record type, if there is one.
#[tactic(auto, unfolding(crate::specs::RemarkSections::type_pieces))]
fn put_type<A: Allocator>(out: &mut Vec<u8, A>, rtype: Option<[u8; 3]>) -> Result<(), Memory>
    ensures { OnOk result (out.new.items ≡ out.old.items ++ page_text (type_pieces rtype)) }
{
    let Some(rtype) = rtype else {
        return Ok(());
    };
    put(out, Fragment::Colon)?;
    put_shown(out, &rtype)
}

/// Appends the text of a remark. `text` is a buffer.
#[tactic(auto, using(html_text::proofs::lemmas::Pages::page_append), unfolding(crate::specs::RemarkSections::remarked_pieces))]
fn put_remarked<A: Allocator>(
    out: &mut Vec<u8, A>,
    text: &mut Vec<u8, A>,
    what: Remarked,
) -> Result<(), Memory>
    ensures { OnOk result (out.new.items ≡ out.old.items ++ page_text (remarked_pieces what)) }
{
    text.clear();
    put_what(text, what, false)?;
    put(out, Fragment::Remark)?;
    put_shown(out, text)?;
    put(out, Fragment::PEnd)
}

/// Appends the end of the section of a line, if the remark behind it is on another line.
#[tactic(auto, unfolding(crate::specs::RemarkSections::remark_closed_pieces))]
fn put_closed<A: Allocator>(
    out: &mut Vec<u8, A>,
    number: u64,
    later: &[Remark],
) -> Result<(), Memory>
    ensures { OnOk result (out.new.items ≡ out.old.items ++ page_text (remark_closed_pieces number later.now)) }
{
    if number == line_of_first(later) {
        return Ok(());
    }
    put(out, Fragment::SectionEnd)
}

/// The line of the first of these remarks; 0 if there is none.
fn line_of_first(remarks: &[Remark]) -> u64
    ensures { result ≡ line_of_first remarks.now }
{
    match remarks.first() {
        Some(remark) => remark.line,
        None => 0,
    }
}

/// Sets the columns to what is marked for a remark, and for those behind it on its line.
fn set_columns<A: Allocator>(
    spots: &mut Vec<Column, A>,
    remark: &Remark,
    later: &[Remark],
) -> Result<(), Memory>
    ensures { OnOk result (spots.new.items ≡ remark_columns_from remark.now later.now) }
{
    spots.clear();
    push_column(spots, remark.what)?;
    push_columns_on(spots, remark.line, later)
}

/// Appends what is marked for these remarks, up to the first that is not on this line.
fn push_columns_on<A: Allocator>(
    spots: &mut Vec<Column, A>,
    number: u64,
    remarks: &[Remark],
) -> Result<(), Memory>
    ensures { OnOk result (spots.new.items ≡ spots.old.items ++ remark_columns_on number remarks.now) }
{
    for remark in remarks {
        if remark.line != number {
            return Ok(());
        }
        push_column(spots, remark.what)?;
    }
    Ok(())
}

/// Appends what is marked of a line for a remark.
fn push_column<A: Allocator>(spots: &mut Vec<Column, A>, what: Remarked) -> Result<(), Memory>
    ensures { OnOk result (spots.new.items ≡ spots.old.items ++ remark_columns what) }
{
    match what {
        Remarked::ByteOrderMark | Remarked::SecondFile | Remarked::UnknownType => {
            push_bytes(spots, 1, 3)
        }
        Remarked::Utf16 | Remarked::Gzip => push_bytes(spots, 1, 2),
        Remarked::CwrVersion(_) => push_bytes(spots, 102, 3),
        Remarked::SenderType(_) => push_bytes(spots, 4, 2),
        Remarked::HighBytes { first, .. } => push_bytes(spots, first, 1),
        Remarked::PastLayout { length, layout } if layout < length => {
            push_bytes(spots, layout + 1, length - layout)
        }
        Remarked::PastLayout { .. } | Remarked::OnlyExcluded => Ok(()),
    }
}

/// Appends the column of so many bytes from a position on.
fn push_bytes<A: Allocator>(
    spots: &mut Vec<Column, A>,
    start: u64,
    width: u64,
) -> Result<(), Memory>
    ensures { OnOk result (spots.new.items ≡ spots.old.items ++ first_bytes start width) }
{
    spots.push(Column {
        start: start as usize,
        width: width as usize,
    })?;
    Ok(())
}
