//! Rows, which the kit's writer of CSV writes.

ghost use Rattle.std.specs.Prelude.{◌≡◌, IfOk, OnOk, map, IsTrue};
ghost use Rattle.std.specs.Io.KnownBytes.{Appends, Keeps};
ghost use Rattle.csv.specs.Writing.{text_written, writer_pending};
ghost use Rattle.cwr_call.specs.Lawful.{is_iswc};
ghost use Rattle.register_tables.specs.CsvRows.{csv_line, number_field, iswc_field, IsAtRow};
ghost use Rattle.register_tables.specs.declared.rows.TableError.TheVariants.{Memory as refused};

use csv::{Writer, WriterBuilder};
use cwr_field::Memory;
use cwr_record::{FieldValue, put_line};
use itoa::Buffer;
use std::alloc::Allocator;
use std::io::Write;

/// Why a table was not written completely.
#[derive(Clone, Copy, Debug, PartialEq, Eq)]
pub enum TableError {
    /// An allocation failed.
    Memory,
    /// A write failed or took nothing. What was written before it stays.
    Write,
}

impl From<Memory> for TableError {
    ghost from_gives = { λ _ e. e ≡ refused };

    fn from(_error: Memory) -> TableError {
        TableError::Memory
    }
}

/// A complete table: what it was written to, and its number of rows.
#[derive(Debug, Drop)]
pub struct WrittenTable<W: Drop> {
    /// What it was written to.
    pub to: W,
    /// The number of rows: lines behind the header, or objects.
    pub rows: u64,
}

/// A writer of rows, behind their header.
pub(crate) fn rows_to<W: Write + Drop>(to: W, header: &[&[u8]]) -> Result<Writer<W>, TableError>
    ensures ready { IfOk result (λ out. IsAtRow out) }
    ensures text { IfOk result (λ out. Appends (W.contents to) (text_written W.contents out) (csv_line (map (λ f. f.now) header.now))) }
{
    let mut out = WriterBuilder::new().from_writer(to);
    put_row(&mut out, header)?;
    Ok(out)
}

/// Writes a row.
pub(crate) fn put_row<W: Write + Drop>(
    out: &mut Writer<W>,
    fields: &[&[u8]],
) -> Result<(), TableError>
    requires { IsAtRow out.old }
    ensures ready { OnOk result (IsAtRow out.new) }
    ensures text { OnOk result (Appends (text_written W.contents out.old) (text_written W.contents out.new) (csv_line (map (λ f. f.now) fields.now))) }
{
    match out.write_fields(fields) {
        Ok(()) => Ok(()),
        Err(_) => Err(TableError::Write),
    }
}

/// Ends a table of `rows` rows, and returns what it was written to.
pub(crate) fn ended<W: Write + Drop>(
    out: Writer<W>,
    rows: u64,
) -> Result<WrittenTable<W>, TableError>
    ensures kept { IfOk result (λ told. Keeps (text_written W.contents out) (W.contents told.to)) }
    ensures rows { IfOk result (λ told. told.rows ≡ rows) }
{
    match out.into_inner() {
        Ok(to) => Ok(WrittenTable { to, rows }),
        Err(_) => Err(TableError::Write),
    }
}

/// A number without leading zeros, or an empty field.
pub(crate) fn number_field(digits: &mut Buffer, number: Option<u32>) -> &[u8]
    ensures { result.now ≡ number_field number }
{
    match number {
        Some(number) => digits.format(number as u64).as_bytes(),
        None => b"",
    }
}

/// Makes a text the eleven bytes of an ISWC, or an empty field.
pub(crate) fn set_iswc<A: Allocator + Copy + Drop>(
    text: &mut Vec<u8, A>,
    iswc: Option<u64>,
) -> Result<(), Memory>
    requires { IsTrue (is_iswc iswc) }
    ensures { OnOk result (text.new.items ≡ iswc_field iswc) }
{
    text.clear();
    if iswc.is_some() {
        put_line(text, &[FieldValue::Code(iswc)])?;
    }
    Ok(())
}
