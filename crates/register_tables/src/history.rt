//! The table of every entry.

ghost use Rattle.std.specs.Prelude.{◌≡◌, ◌++◌, if◌then◌else◌, IfOk, OnOk};
ghost use Rattle.std.specs.Io.KnownBytes.{Appends};
ghost use Rattle.csv.specs.Writing.{text_written};
ghost use Rattle.register_tables.specs.CsvRows.{IsAtRow};
ghost use Rattle.register_tables.specs.declared.form.Form.TheVariants.{Exact};
ghost use Rattle.register_tables.specs.RowTexts.{HasCall};
ghost use Rattle.register_tables.specs.HistoryTable.{fault_text, more_fault_text, faults_field, entry_line, entry_row, entry_rows, history_text};
ghost use Rattle.register_tables.specs.Summary.{count};
ghost use Rattle.register_tables.specs.Wanted.{is_wanted};
ghost use Rattle.std.specs.List.{flat_map};

use crate::form::{Form, mechanical_name, performing_name, synchronization_name};
use crate::rows::{TableError, WrittenTable, ended, number_field, put_row, rows_to};
use crate::texts::Texts;
use crate::wanted::{Wanted, is_wanted};
use csv::Writer;
use cwr_field::{Memory, put_decimal};
use itoa::Buffer;
use std::alloc::Allocator;
use std::io::Write;
use work_registry::{Book, Entry, Fault};

/// Writes the entries of a book that are wanted, in order, and returns `to` and the number of rows.
///
/// A header line comes first. An entry is a line with: its index from 1, its submitter (sender type and sender id of
/// HDR), `NWR` or `REV`, the submitter work number, the work title, the ISWC or nothing, the control of the performing,
/// the mechanical and the synchronization right, the status `AS`, `DU`, `CO` or `RJ`, the registry's number of the work
/// (nothing with `RJ`), the version (with `AS` alone), and the faults. A fault is a record sequence, a colon, `J` and a
/// number; there is a blank between two. A line ends with LF.
///
/// `alloc` allocates, and `to` is written to. `book` has the entries, `wanted` selects among them, and `form` says how
/// texts and shares stand in a row.
pub fn history_table<W: Write + Drop, A: Allocator + Copy + Drop>(
    alloc: A,
    to: W,
    book: &Book<A>,
    wanted: &Wanted,
    form: Form,
) -> Result<WrittenTable<W>, TableError>
    ensures text { IfOk result (λ told. Appends (W.contents to) (W.contents told.to) (history_text form wanted.now book.now.history)) }
    ensures rows { IfOk result (λ told. told.rows ≡ count (is_wanted wanted.now) book.now.history) }
{
    let mut out = rows_to(
        to,
        &[
            b"entry",
            b"submitter",
            b"kind",
            b"number",
            b"title",
            b"iswc",
            performing_name(form),
            mechanical_name(form),
            synchronization_name(form),
            b"status",
            b"work",
            b"version",
            b"faults",
        ],
    )?;
    let rows = put_entries(alloc, &mut out, book.history(), wanted, form)?;
    ended(out, rows)
}

/// Writes the entries of a book that are wanted, as the register has them: [`history_table`] in the form
/// [`Form::Exact`].
pub fn history_text<W: Write + Drop, A: Allocator + Copy + Drop>(
    alloc: A,
    to: W,
    book: &Book<A>,
    wanted: &Wanted,
) -> Result<W, TableError>
    ensures { IfOk result (λ told. Appends (W.contents to) (W.contents told) (history_text Exact wanted.now book.now.history)) }
{
    let WrittenTable { to, rows: _ } = history_table(alloc, to, book, wanted, Form::Exact)?;
    Ok(to)
}

/// Writes the entries that are wanted, and returns their number. `alloc` allocates, and `out` is written to. `wanted`
/// selects among `entries`, and `form` is that of their fields.
fn put_entries<W: Write + Drop, A: Allocator + Copy + Drop>(
    alloc: A,
    out: &mut Writer<W>,
    entries: &[Entry<A>],
    wanted: &Wanted,
    form: Form,
) -> Result<u64, TableError>
    requires { IsAtRow out.old }
    ensures ready { OnOk result (IsAtRow out.new) }
    ensures text { OnOk result (Appends (text_written W.contents out.old) (text_written W.contents out.new) (entry_rows (entry_line form) wanted.now 1 entries.now)) }
    ensures rows { IfOk result (λ rows. rows ≡ count (is_wanted wanted.now) entries.now) }
{
    let mut texts = Texts::new(alloc);
    let mut rows = 0;
    for (before, entry) in entries.iter().enumerate() {
        rows += put_wanted(out, before as u64 + 1, entry, wanted, form, &mut texts)?;
    }
    Ok(rows)
}

/// Writes an entry, if it is wanted, and returns the number of rows written, 0 or 1. `out` is written to, and `index`
/// is that of `entry`, from 1. `wanted` selects entries, `form` is that of the fields, and `texts` has buffers for
/// them.
#[tactic(auto, using(crate::proofs::Steps::nothing))]
fn put_wanted<W: Write + Drop, A: Allocator + Copy + Drop>(
    out: &mut Writer<W>,
    index: u64,
    entry: &Entry<A>,
    wanted: &Wanted,
    form: Form,
    texts: &mut Texts<A>,
) -> Result<u64, TableError>
    requires { IsAtRow out.old }
    ensures ready { OnOk result (IsAtRow out.new) }
    ensures text { OnOk result (Appends (text_written W.contents out.old) (text_written W.contents out.new) (entry_row (entry_line form) wanted.now index entry.now)) }
    ensures rows { IfOk result (λ rows. rows ≡ (if is_wanted wanted.now entry.now then 1 else 0)) }
{
    if is_wanted(wanted, entry) {
        set_faults(&mut texts.faults, entry.call().faults())?;
        texts.set_call(form, entry.call())?;
        put_entry(out, index, entry, form, texts)?;
        return Ok(1);
    }
    Ok(0)
}

/// Writes an entry to `out`. `index` is that of `entry`, from 1, and `texts` has the fields that were put together in
/// this `form`.
fn put_entry<W: Write + Drop, A: Allocator + Copy + Drop>(
    out: &mut Writer<W>,
    index: u64,
    entry: &Entry<A>,
    form: Form,
    texts: &Texts<A>,
) -> Result<(), TableError>
    requires ready { IsAtRow out.old }
    requires call { HasCall form entry.now.call texts.now }
    requires faults { texts.now.faults.items ≡ faults_field entry.now.call.faults }
    ensures ready { OnOk result (IsAtRow out.new) }
    ensures text { OnOk result (Appends (text_written W.contents out.old) (text_written W.contents out.new) (entry_line form index entry.now)) }
{
    let (mut place, mut work, mut version) = (Buffer::new(), Buffer::new(), Buffer::new());
    let reply = entry.reply();
    let (kind, status) = (*entry.call().kind().code(), *reply.status().code());
    put_row(
        out,
        &[
            place.format(index).as_bytes(),
            &texts.submitter,
            &kind,
            &texts.number,
            &texts.title,
            &texts.iswc,
            &texts.performing,
            &texts.mechanical,
            &texts.synchronization,
            &status,
            number_field(&mut work, reply.work()),
            number_field(&mut version, reply.version()),
            &texts.faults,
        ],
    )
}

/// Makes a text the faults of a call, with a blank between two.
fn set_faults<A: Allocator + Copy + Drop>(
    text: &mut Vec<u8, A>,
    faults: &[Fault],
) -> Result<(), Memory>
    ensures { OnOk result (text.new.items ≡ faults_field faults.now) }
{
    text.clear();
    let Some((first, others)) = faults.split_first() else {
        return Ok(());
    };
    put_fault(text, first)?;
    put_more_faults(text, others)
}

fn put_more_faults<A: Allocator + Copy + Drop>(
    out: &mut Vec<u8, A>,
    faults: &[Fault],
) -> Result<(), Memory>
    ensures { OnOk result (out.new.items ≡ out.old.items ++ flat_map more_fault_text faults.now) }
{
    for fault in faults {
        out.extend_from_slice(b" ")?;
        put_fault(out, fault)?;
    }
    Ok(())
}

fn put_fault<A: Allocator + Copy + Drop>(out: &mut Vec<u8, A>, fault: &Fault) -> Result<(), Memory>
    ensures { OnOk result (out.new.items ≡ out.old.items ++ fault_text fault.now) }
{
    put_decimal(out, fault.sequence as u64)?;
    out.extend_from_slice(b":J")?;
    put_decimal(out, fault.number as u64)
}
