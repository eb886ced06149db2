//! The table of the current claims.

ghost use Rattle.std.specs.Prelude.{◌≡◌, [], if◌then◌else◌, filter, IfOk, OnOk, Some};
ghost use Rattle.std.specs.List.{flat_map};
ghost use Rattle.std.specs.Io.KnownBytes.{Appends};
ghost use Rattle.csv.specs.Writing.{text_written};
ghost use Rattle.work_registry.specs.Claims.{claim_of};
ghost use Rattle.work_registry.specs.Rows.{key_of, rows_of};
ghost use Rattle.register_tables.specs.CsvRows.{IsAtRow};
ghost use Rattle.register_tables.specs.declared.form.Form.TheVariants.{Exact};
ghost use Rattle.register_tables.specs.RowTexts.{HasCall};
ghost use Rattle.register_tables.specs.ClaimsTable.{is_current, is_version_of, claim_line, is_listed, claims_text};
ghost use Rattle.register_tables.specs.Summary.{count};

use crate::form::{Form, mechanical_name, performing_name, synchronization_name};
use crate::rows::{TableError, WrittenTable, ended, number_field, put_row, rows_to};
use crate::texts::Texts;
use crate::wanted::{Wanted, is_wanted};
use csv::Writer;
use itoa::Buffer;
use std::alloc::Allocator;
use std::io::Write;
use work_registry::{Book, Call, Entry};

/// Writes the current claims of a book that are wanted, in the order of their entries, and returns `to` and the number
/// of rows.
///
/// A header line comes first. A claim is a line with: its submitter (sender type and sender id of HDR), the submitter
/// work number, the registry's number of the work, the version, the work title, the ISWC of the transaction or nothing,
/// and the control of the performing, the mechanical and the synchronization right. A line ends with LF.
///
/// `alloc` allocates, and `to` is written to. `book` has the claims, `wanted` selects among them, and `form` says how
/// texts and shares stand in a row.
pub fn claims_table<W: Write + Drop, A: Allocator + Copy + Drop>(
    alloc: A,
    to: W,
    book: &Book<A>,
    wanted: &Wanted,
    form: Form,
) -> Result<WrittenTable<W>, TableError>
    ensures text { IfOk result (λ told. Appends (W.contents to) (W.contents told.to) (claims_text form wanted.now book.now.history)) }
    ensures rows { IfOk result (λ told. told.rows ≡ count (is_listed wanted.now (rows_of book.now.history)) book.now.history) }
{
    let mut out = rows_to(
        to,
        &[
            b"submitter",
            b"number",
            b"work",
            b"version",
            b"title",
            b"iswc",
            performing_name(form),
            mechanical_name(form),
            synchronization_name(form),
        ],
    )?;
    let rows = put_claims(alloc, &mut out, book, wanted, form)?;
    ended(out, rows)
}

/// Writes the current claims of a book that are wanted, as the register has them: [`claims_table`] in the form
/// [`Form::Exact`].
pub fn claims_text<W: Write + Drop, A: Allocator + Copy + Drop>(
    alloc: A,
    to: W,
    book: &Book<A>,
    wanted: &Wanted,
) -> Result<W, TableError>
    ensures { IfOk result (λ told. Appends (W.contents to) (W.contents told) (claims_text Exact wanted.now book.now.history)) }
{
    let WrittenTable { to, rows: _ } = claims_table(alloc, to, book, wanted, Form::Exact)?;
    Ok(to)
}

/// Writes the claims that are wanted, and returns their number. `alloc` allocates, and `out` is written to. `book` has
/// the claims, `wanted` selects among them, and `form` is that of their fields.
fn put_claims<W: Write + Drop, A: Allocator + Copy + Drop>(
    alloc: A,
    out: &mut Writer<W>,
    book: &Book<A>,
    wanted: &Wanted,
    form: Form,
) -> Result<u64, TableError>
    requires { IsAtRow out.old }
    ensures ready { OnOk result (IsAtRow out.new) }
    ensures text { OnOk result (Appends (text_written W.contents out.old) (text_written W.contents out.new) (flat_map (claim_line form) (filter (is_listed wanted.now (rows_of book.now.history)) book.now.history))) }
    ensures rows { IfOk result (λ rows. rows ≡ count (is_listed wanted.now (rows_of book.now.history)) book.now.history) }
{
    let mut texts = Texts::new(alloc);
    let mut rows = 0;
    let entries = book.history();
    for entry in entries {
        rows += put_listed(out, book, entry, wanted, form, &mut texts)?;
    }
    Ok(rows)
}

/// Writes the claim that an entry made, if it is in force and wanted, and returns the number of rows written, 0 or 1.
/// `out` is written to, and `entry` is one of `book`. `wanted` selects claims, `form` is that of the fields, and
/// `texts` has buffers for them.
#[tactic(auto, using(crate::proofs::Steps::nothing))]
fn put_listed<W: Write + Drop, A: Allocator + Copy + Drop>(
    out: &mut Writer<W>,
    book: &Book<A>,
    entry: &Entry<A>,
    wanted: &Wanted,
    form: Form,
    texts: &mut Texts<A>,
) -> Result<u64, TableError>
    requires { IsAtRow out.old }
    ensures ready { OnOk result (IsAtRow out.new) }
    ensures text { OnOk result (Appends (text_written W.contents out.old) (text_written W.contents out.new) (if is_listed wanted.now (rows_of book.now.history) entry.now then claim_line form entry.now else [])) }
    ensures rows { IfOk result (λ rows. rows ≡ (if is_listed wanted.now (rows_of book.now.history) entry.now then 1 else 0)) }
{
    if is_wanted(wanted, entry) && is_current(book, entry) {
        texts.set_call(form, entry.call())?;
        put_claim(out, entry, form, texts)?;
        return Ok(1);
    }
    Ok(0)
}

/// Whether an entry made the claim in force under its key. The claim is looked up only where the entry made one.
fn is_current<A: Allocator + Copy + Drop>(book: &Book<A>, entry: &Entry<A>) -> bool
    ensures { result ≡ is_current (rows_of book.now.history) entry.now }
{
    match entry.reply().version() {
        Some(version) => is_in_force(book, entry.call(), version),
        None => false,
    }
}

/// Whether the claim in force under the key of a call has this version.
fn is_in_force<A: Allocator + Copy + Drop>(book: &Book<A>, call: &Call<A>, version: u32) -> bool
    ensures { result ≡ is_version_of (claim_of (key_of call.now) (rows_of book.now.history)) (Some version) }
{
    match book.claim(&call.submitter(), &call.number()) {
        Some(claim) => claim.version == version,
        None => false,
    }
}

/// Writes the claim that an entry made. `texts` has the fields that were put together in this form.
fn put_claim<W: Write + Drop, A: Allocator + Copy + Drop>(
    out: &mut Writer<W>,
    entry: &Entry<A>,
    form: Form,
    texts: &Texts<A>,
) -> Result<(), TableError>
    requires ready { IsAtRow out.old }
    requires call { HasCall form entry.now.call texts.now }
    ensures ready { OnOk result (IsAtRow out.new) }
    ensures text { OnOk result (Appends (text_written W.contents out.old) (text_written W.contents out.new) (claim_line form entry.now)) }
{
    let (mut work, mut version) = (Buffer::new(), Buffer::new());
    let reply = entry.reply();
    put_row(
        out,
        &[
            &texts.submitter,
            &texts.number,
            number_field(&mut work, reply.work()),
            number_field(&mut version, reply.version()),
            &texts.title,
            &texts.iswc,
            &texts.performing,
            &texts.mechanical,
            &texts.synchronization,
        ],
    )
}
