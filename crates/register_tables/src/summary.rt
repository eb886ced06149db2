//! A register as a page to read.

ghost use Rattle.std.specs.Prelude.{◌≡◌, ◌++◌, ◌∷◌, [], ◌<◌, codes, length, map, IfOk, OnOk};
ghost use Rattle.std.specs.Fmt.{decimal};
ghost use Rattle.std.specs.Io.KnownBytes.{Appends};
ghost use Rattle.std.specs.List.{flat_map};
ghost use Rattle.work_registry.specs.Rows.{rows_of};
ghost use Rattle.register_tables.specs.Summary.{conflict_line, conflicts_text, entries_text, largest, lines_text, right_text, shares_text, summary_text};
ghost use Rattle.register_tables.specs.WorksTable.{last_work};

use crate::conflicts::{Conflicted, largest};
use crate::rows::TableError;
use crate::shares::bands_of;
use crate::tally::{submitter_count, tally_of};
use crate::works::last_work;
use cwr_field::{Memory, put_decimal};
use std::alloc::Allocator;
use std::io::Write;
use work_registry::Book;

/// Writes a summary of a book, and returns what it wrote to.
///
/// It is a page of lines, each a name, a colon, a blank and a number. They are the number of entries, and of those with
/// each status; of works, of claims in force, and of submitters of entries; for each right the number of works by what
/// is left of it; and the ten works with the most conflicts. The work with the most comes first; of works with equally
/// many, the lower number. What is left is 10,000 hundredths of one per cent without the control of the work: none, up
/// to 2,500, up to 5,000, more than that, and all. A line ends with LF.
pub fn summary_text<W: Write + Drop, A: Allocator + Copy + Drop>(
    alloc: A,
    mut to: W,
    book: &Book<A>,
) -> Result<W, TableError>
    ensures { IfOk result (λ told. Appends (W.contents to) (W.contents told) (summary_text book.now.history)) }
{
    let page = page_of(alloc, book)?;
    match to.write_all(&page) {
        Ok(()) => Ok(to),
        Err(_) => Err(TableError::Write),
    }
}

/// The page.
fn page_of<A: Allocator + Copy + Drop>(alloc: A, book: &Book<A>) -> Result<Vec<u8, A>, Memory>
    ensures { IfOk result (λ page. page.items ≡ summary_text book.now.history) }
{
    let last = last_work(book.history());
    let mut page = Vec::new(alloc);
    put_entries(&mut page, alloc, book, last)?;
    put_shares(&mut page, book, last)?;
    let top = largest(alloc, book, last)?;
    put_conflicts(&mut page, &top)?;
    Ok(page)
}

fn put_entries<A: Allocator + Copy + Drop>(
    page: &mut Vec<u8, A>,
    alloc: A,
    book: &Book<A>,
    last: u32,
) -> Result<(), Memory>
    requires { last ≡ last_work (rows_of book.now.history) }
    ensures { OnOk result (page.new.items ≡ page.old.items ++ entries_text book.now.history) }
{
    let tally = tally_of(book);
    put_lines(
        page,
        &[
            (b"entries: ", book.len() as u64),
            (b"accepted (AS): ", tally.accepted),
            (b"duplicates (DU): ", tally.duplicates),
            (b"conflicts (CO): ", tally.conflicts),
            (b"rejected (RJ): ", tally.rejected),
            (b"works: ", last as u64),
            (b"current claims: ", tally.current),
        ],
    )?;
    let submitters = submitter_count(alloc, book.history())?;
    put_number(page, b"submitters: ", submitters)
}

fn put_shares<A: Allocator + Copy + Drop>(
    page: &mut Vec<u8, A>,
    book: &Book<A>,
    last: u32,
) -> Result<(), Memory>
    requires { last ≡ last_work (rows_of book.now.history) }
    ensures { OnOk result (page.new.items ≡ page.old.items ++ shares_text (rows_of book.now.history)) }
{
    page.extend_from_slice(b"works by what is left of the performing right:\n")?;
    put_right(page, book, last, 0)?;
    page.extend_from_slice(b"works by what is left of the mechanical right:\n")?;
    put_right(page, book, last, 1)?;
    page.extend_from_slice(b"works by what is left of the synchronization right:\n")?;
    put_right(page, book, last, 2)
}

/// The works by what is left of a right.
fn put_right<A: Allocator + Copy + Drop>(
    page: &mut Vec<u8, A>,
    book: &Book<A>,
    last: u32,
    right: usize,
) -> Result<(), Memory>
    requires last { last ≡ last_work (rows_of book.now.history) }
    requires right { right < 3 }
    ensures { OnOk result (page.new.items ≡ page.old.items ++ right_text right (rows_of book.now.history)) }
{
    let bands = bands_of(book, last, right);
    put_lines(
        page,
        &[
            (b"  none: ", bands.none),
            (b"  up to a quarter: ", bands.quarter),
            (b"  up to a half: ", bands.half),
            (b"  more than a half: ", bands.more),
            (b"  all: ", bands.all),
        ],
    )
}

fn put_conflicts<A: Allocator + Copy + Drop>(
    page: &mut Vec<u8, A>,
    top: &[Conflicted],
) -> Result<(), Memory>
    ensures { OnOk result (page.new.items ≡ page.old.items ++ conflicts_text top.now) }
{
    page.extend_from_slice(b"largest conflicts:\n")?;
    put_conflict_lines(page, top)
}

fn put_conflict_lines<A: Allocator + Copy + Drop>(
    page: &mut Vec<u8, A>,
    top: &[Conflicted],
) -> Result<(), Memory>
    ensures { OnOk result (page.new.items ≡ page.old.items ++ flat_map conflict_line top.now) }
{
    for one in top {
        put_conflict(page, *one)?;
    }
    Ok(())
}

fn put_conflict<A: Allocator + Copy + Drop>(
    page: &mut Vec<u8, A>,
    one: Conflicted,
) -> Result<(), Memory>
    ensures { OnOk result (page.new.items ≡ page.old.items ++ conflict_line one) }
{
    page.extend_from_slice(b"  work ")?;
    put_decimal(page, one.work as u64)?;
    put_number(page, b": ", one.conflicts)
}

/// Appends lines, each a name and a number.
fn put_lines<A: Allocator + Copy + Drop>(
    page: &mut Vec<u8, A>,
    lines: &[(&[u8], u64)],
) -> Result<(), Memory>
    ensures { OnOk result (page.new.items ≡ page.old.items ++ lines_text (map (λ line. (line.0.now, line.1)) lines.now)) }
{
    for line in lines {
        put_number(page, line.0, line.1)?;
    }
    Ok(())
}

/// Appends a name, a number and a line end.
fn put_number<A: Allocator + Copy + Drop>(
    page: &mut Vec<u8, A>,
    name: &[u8],
    number: u64,
) -> Result<(), Memory>
    ensures { OnOk result (page.new.items ≡ page.old.items ++ (name.now ++ decimal number ++ 10 ∷ [])) }
{
    page.extend_from_slice(name)?;
    put_decimal(page, number)?;
    page.extend_from_slice(b"\n")?;
    Ok(())
}
