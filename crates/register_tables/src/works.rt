//! The table of the works.

ghost use Rattle.std.specs.Prelude.{◌≡◌, ◌<◌, ◌≤◌, ◌^◌, [], if◌then◌else◌, length, IfOk, IsTrue, OnOk};
ghost use Rattle.std.specs.Io.KnownBytes.{Appends};
ghost use Rattle.csv.specs.Writing.{text_written};
ghost use Rattle.cwr_call.specs.Lawful.{is_iswc};
ghost use Rattle.work_registry.specs.Rows.{rows_of};
ghost use Rattle.work_registry.specs.Works.{control_of};
ghost use Rattle.register_tables.specs.CsvRows.{csv_line, iswc_field, IsAtRow};
ghost use Rattle.register_tables.specs.declared.form.Form.TheVariants.{Exact};
ghost use Rattle.register_tables.specs.RowTexts.{HasControl};
ghost use Rattle.register_tables.specs.WorksTable.{is_wanted_work, last_work, wanted_line, work_fields, work_lines, works_text};
ghost use Rattle.register_tables.specs.Summary.{count, works as numbers};
ghost use Rattle.register_tables.specs.WorkTotals.{AreTotals, AreKept, blank_work, grown, noted};

use crate::form::{Form, mechanical_name, performing_name, synchronization_name};
use crate::rows::{TableError, WrittenTable, ended, put_row, rows_to, set_iswc};
use crate::texts::Texts;
use crate::wanted::{Wanted, fits_number};
use csv::Writer;
use itoa::Buffer;
use std::alloc::{AllocError, Allocator};
use std::io::Write;
use work_registry::{Book, Entry, Reply};

/// What the entries of a book say of a work.
#[derive(Clone, Copy)]
struct WorkTotals {
    /// The ISWC of its last accepted entry that has one.
    iswc: Option<u64>,
    /// The number of current claims on it.
    claims: u64,
}

/// Writes the works of a book that are wanted, in the order of their numbers, and returns `to` and the number of rows.
///
/// A header line comes first. A work is a line with its number, its ISWC or nothing, its control of the performing, the
/// mechanical and the synchronization right, and the number of current claims on it. A line ends with LF.
///
/// `alloc` allocates, and `to` is written to. `book` has the works. Of `wanted` the number of the work alone counts,
/// and `form` says how shares stand in a row.
pub fn works_table<W: Write + Drop, A: Allocator + Copy + Drop>(
    alloc: A,
    to: W,
    book: &Book<A>,
    wanted: &Wanted,
    form: Form,
) -> Result<WrittenTable<W>, TableError>
    ensures text { IfOk result (λ told. Appends (W.contents to) (W.contents told.to) (works_text form wanted.now book.now.history)) }
    ensures rows { IfOk result (λ told. told.rows ≡ count (is_wanted_work wanted.now) (numbers (rows_of book.now.history))) }
{
    let Ok(works) = totals_of_works(alloc, book) else {
        return Err(TableError::Memory);
    };
    let mut out = rows_to(
        to,
        &[
            b"work",
            b"iswc",
            performing_name(form),
            mechanical_name(form),
            synchronization_name(form),
            b"claims",
        ],
    )?;
    let rows = put_works(alloc, &mut out, book, &works, wanted, form)?;
    ended(out, rows)
}

/// Writes the works of a book that are wanted: [`works_table`] in the form [`Form::Exact`].
pub fn works_text<W: Write + Drop, A: Allocator + Copy + Drop>(
    alloc: A,
    to: W,
    book: &Book<A>,
    wanted: &Wanted,
) -> Result<W, TableError>
    ensures { IfOk result (λ told. Appends (W.contents to) (W.contents told) (works_text Exact wanted.now book.now.history)) }
{
    let WrittenTable { to, rows: _ } = works_table(alloc, to, book, wanted, Form::Exact)?;
    Ok(to)
}

/// What the entries of a book say of each work, in the order of their numbers.
///
/// Under a key there is one claim in force, and one entry made its first version, on the same work. So the number of
/// first versions on a work is that of the claims in force on it, and no claim is looked up.
fn totals_of_works<A: Allocator + Copy + Drop>(
    alloc: A,
    book: &Book<A>,
) -> Result<Vec<WorkTotals, A>, AllocError>
    ensures kept { IfOk result (λ works. AreKept (rows_of book.now.history) (last_work (rows_of book.now.history)) book.now.history works.items) }
    ensures few { IfOk result (λ works. length works.items < 2 ^ 32) }
{
    let entries = book.history();
    let mut works = blank_works(alloc, last_work(entries))?;
    for entry in entries {
        note(&mut works, entry);
    }
    Ok(works)
}

/// Blank totals for `count` works.
fn blank_works<A: Allocator + Copy + Drop>(
    alloc: A,
    count: u32,
) -> Result<Vec<WorkTotals, A>, AllocError>
    ensures { IfOk result (λ works. AreTotals count [] works.items) }
{
    Vec::from_elem(
        alloc,
        WorkTotals {
            iswc: None,
            claims: 0,
        },
        count as usize,
    )
}

/// The greatest number that these entries gave to a work, or 0. Works are numbered from 1, with none left out, so the
/// history of a book has as many.
pub fn last_work<A: Allocator>(entries: &[Entry<A>]) -> u32
    ensures { result ≡ last_work (rows_of entries.now) }
{
    let mut last = 0;
    for entry in entries {
        if let Reply::Accepted { work, version: _ } = entry.reply() {
            last = last.max(work);
        }
    }
    last
}

/// Notes an entry at its work, if it was accepted.
fn note<A: Allocator + Copy + Drop>(works: &mut Vec<WorkTotals, A>, entry: &Entry<A>)
    ensures noted { works.new.items ≡ noted works.old.items entry.now.call.iswc entry.now.reply }
    ensures code { IsTrue (is_iswc entry.now.call.iswc) }
{
    let iswc = entry.call().iswc();
    if let Reply::Accepted { work, version } = entry.reply() {
        if 0 < work && work as usize <= works.len() {
            let place = work as usize - 1;
            works[place] = grown(works[place], iswc, version);
        }
    }
}

/// The totals of a work with one more entry on it, of this version.
fn grown(kept: WorkTotals, iswc: Option<u64>, version: u32) -> WorkTotals
    ensures { result ≡ grown kept iswc version }
{
    WorkTotals {
        iswc: match iswc {
            Some(_) => iswc,
            None => kept.iswc,
        },
        claims: if version == 1 {
            kept.claims.saturating_add(1)
        } else {
            kept.claims
        },
    }
}

/// Writes the works that are wanted, and returns their number. `alloc` allocates, and `out` is written to. `book` has
/// the works, `works` their totals, `wanted` selects among them, and `form` is that of the fields.
fn put_works<W: Write + Drop, A: Allocator + Copy + Drop>(
    alloc: A,
    out: &mut Writer<W>,
    book: &Book<A>,
    works: &[WorkTotals],
    wanted: &Wanted,
    form: Form,
) -> Result<u64, TableError>
    requires ready { IsAtRow out.old }
    requires kept { AreKept (rows_of book.now.history) (last_work (rows_of book.now.history)) book.now.history works.now }
    requires few { length works.now < 2 ^ 32 }
    ensures ready { OnOk result (IsAtRow out.new) }
    ensures text { OnOk result (Appends (text_written W.contents out.old) (text_written W.contents out.new) (work_lines form wanted.now book.now.history)) }
    ensures rows { IfOk result (λ rows. rows ≡ count (is_wanted_work wanted.now) (numbers (rows_of book.now.history))) }
{
    let mut texts = Texts::new(alloc);
    let mut rows = 0;
    for before in 0..works.len() {
        let work = before as u32 + 1;
        rows += put_wanted(out, book, work, works[before], wanted, form, &mut texts)?;
    }
    Ok(rows)
}

/// Writes a work, if it is wanted, and returns the number of rows written, 0 or 1. `out` is written to, and `work` is
/// the number of a work of `book`, from 1. `kept` has its totals. `wanted` selects works, `form` is that of the fields,
/// and `texts` has buffers for them.
#[tactic(auto, using(crate::proofs::Steps::nothing))]
fn put_wanted<W: Write + Drop, A: Allocator + Copy + Drop>(
    out: &mut Writer<W>,
    book: &Book<A>,
    work: u32,
    kept: WorkTotals,
    wanted: &Wanted,
    form: Form,
    texts: &mut Texts<A>,
) -> Result<u64, TableError>
    requires ready { IsAtRow out.old }
    requires iswc { IsTrue (is_iswc kept.iswc) }
    ensures ready { OnOk result (IsAtRow out.new) }
    ensures text { OnOk result (Appends (text_written W.contents out.old) (text_written W.contents out.new) (wanted_line form wanted.now work kept (control_of work (rows_of book.now.history)))) }
    ensures rows { IfOk result (λ rows. rows ≡ (if is_wanted_work wanted.now work then 1 else 0)) }
{
    if fits_number(wanted.work, Some(work)) {
        let control = book.control_of(work);
        set_iswc(&mut texts.iswc, kept.iswc)?;
        texts.set_control(form, control)?;
        put_work(out, work, kept, control, form, texts)?;
        return Ok(1);
    }
    Ok(0)
}

/// Writes a work to `out`. `work` is its number, from 1, `kept` has its totals, and `control` is what it has of each
/// right, in hundredths of one per cent. `texts` has the fields that were put together in this `form`.
fn put_work<W: Write + Drop, A: Allocator + Copy + Drop>(
    out: &mut Writer<W>,
    work: u32,
    kept: WorkTotals,
    control: [u64; 3],
    form: Form,
    texts: &Texts<A>,
) -> Result<(), TableError>
    requires ready { IsAtRow out.old }
    requires iswc { texts.now.iswc.items ≡ iswc_field kept.iswc }
    requires control { HasControl form control texts.now }
    ensures ready { OnOk result (IsAtRow out.new) }
    ensures text { OnOk result (Appends (text_written W.contents out.old) (text_written W.contents out.new) (csv_line (work_fields form work kept control))) }
{
    let (mut number, mut claims) = (Buffer::new(), Buffer::new());
    put_row(
        out,
        &[
            number.format(work as u64).as_bytes(),
            &texts.iswc,
            &texts.performing,
            &texts.mechanical,
            &texts.synchronization,
            claims.format(kept.claims).as_bytes(),
        ],
    )
}
