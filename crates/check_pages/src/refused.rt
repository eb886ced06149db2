//! The fault for which a file is refused.

ghost use Rattle.std.specs.Prelude.{◌≡◌, ◌++◌, OnOk};
ghost use Rattle.html_text.specs.Pieces.{page_text};
ghost use Rattle.check_pages.specs.Sections.{box_pieces};
ghost use Rattle.check_pages.specs.RefusedFiles.{begin_of_mark, byte_column, file_box_pieces, file_columns, file_heading_pieces, refused_pieces};

use crate::faults::put_file_fault;
use crate::rooms::Rooms;
use crate::sections::{push_columns, put_box, put_place};
use cwr_field::Memory;
use cwr_record::Column;
use cwr_report::{FileFinding, RecordPlace, WrongByte};
use html_text::{Fragment, put};
use std::alloc::Allocator;

/// Appends the section of the fault. `line` has the bytes of the faulty line.
#[tactic(auto, using(html_text::proofs::lemmas::Pages::page_append), unfolding(crate::specs::RefusedFiles::refused_pieces))]
pub(crate) fn put_refused<A: Allocator>(
    rooms: &mut Rooms<A>,
    line: &[u8],
    refused: &FileFinding,
) -> Result<(), Memory>
    ensures { OnOk result (rooms.new.out.items ≡ rooms.old.out.items ++ page_text (refused_pieces line.now refused.now)) }
{
    put_file_heading(&mut rooms.out, &mut rooms.text, refused)?;
    put_file_box(rooms, line, refused)?;
    put_file_fault(&mut rooms.out, &mut rooms.text, line, refused)?;
    put(&mut rooms.out, Fragment::SectionEnd)
}

/// Appends the place of the fault, by which its section begins. `text` is a buffer.
#[tactic(auto, unfolding(crate::specs::RefusedFiles::file_heading_pieces))]
fn put_file_heading<A: Allocator>(
    out: &mut Vec<u8, A>,
    text: &mut Vec<u8, A>,
    refused: &FileFinding,
) -> Result<(), Memory>
    ensures { OnOk result (out.new.items ≡ out.old.items ++ page_text (file_heading_pieces refused.now)) }
{
    text.clear();
    report_texts::put_place(text, &refused.rtype, &refused.place)?;
    put_place(out, refused.line, text)
}

/// Appends the faulty line in its box, if there is such a line.
#[tactic(auto, unfolding(crate::specs::RefusedFiles::file_box_pieces))]
fn put_file_box<A: Allocator>(
    rooms: &mut Rooms<A>,
    line: &[u8],
    refused: &FileFinding,
) -> Result<(), Memory>
    ensures { OnOk result (rooms.new.out.items ≡ rooms.old.out.items ++ page_text (file_box_pieces refused.now.place line.now refused.now)) }
{
    match refused.place {
        RecordPlace::End => Ok(()),
        _ => put_marked(rooms, line, refused),
    }
}

/// Appends the faulty line in its box.
fn put_marked<A: Allocator>(
    rooms: &mut Rooms<A>,
    line: &[u8],
    refused: &FileFinding,
) -> Result<(), Memory>
    ensures { OnOk result (rooms.new.out.items ≡ rooms.old.out.items ++ page_text (box_pieces line.now (file_columns refused.now) (begin_of_mark refused.now.byte))) }
{
    set_columns(&mut rooms.spots, refused)?;
    put_box(
        &mut rooms.out,
        line,
        &rooms.spots,
        begin_of_mark(&refused.byte),
    )
}

/// The beginning of a mark.
fn begin_of_mark(wrong: &Option<WrongByte>) -> Fragment
    ensures { result ≡ begin_of_mark wrong.now }
{
    match wrong {
        None => Fragment::Mark,
        Some(_) => Fragment::MarkByte,
    }
}

/// Sets the columns to those that are marked of the faulty line.
fn set_columns<A: Allocator>(
    spots: &mut Vec<Column, A>,
    refused: &FileFinding,
) -> Result<(), Memory>
    ensures { OnOk result (spots.new.items ≡ file_columns refused.now) }
{
    spots.clear();
    push_columns(spots, &refused.fields)?;
    push_byte(spots, &refused.byte)
}

/// Appends the column of the wrong byte, if there is one.
fn push_byte<A: Allocator>(
    spots: &mut Vec<Column, A>,
    wrong: &Option<WrongByte>,
) -> Result<(), Memory>
    ensures { OnOk result (spots.new.items ≡ spots.old.items ++ byte_column wrong.now) }
{
    if let Some(wrong) = *wrong {
        spots.push(Column {
            start: wrong.in_line,
            width: 1,
        })?;
    }
    Ok(())
}
