//! How the fields of a table stand in it.

ghost use Rattle.std.specs.Prelude.{◌≡◌, ◌++◌, OnOk};
ghost use Rattle.register_tables.specs.declared.form.Form.TheVariants.{Plain};
ghost use Rattle.register_tables.specs.Fields.{guarded, is_formula, mechanical_name, performing_name, share_field, synchronization_name, text_field, unpadded};

use cwr_field::{Memory, put_decimal, put_digits};
use std::alloc::Allocator;

/// How the fields of a table stand in it.
#[derive(Clone, Copy, Debug, PartialEq, Eq)]
pub enum Form {
    /// As the register has them: texts with the blanks behind them, shares in hundredths of one per cent.
    Exact,
    /// For spreadsheets. Texts have no blanks behind them, and an apostrophe before them if they would be taken for a
    /// formula (they begin with `=`, `+`, `-`, `@`, TAB or CR). Shares are in per cent, with two places, and the
    /// columns of control are named so.
    Plain,
}

/// The name of the column of the performing right.
pub(crate) fn performing_name(form: Form) -> &'static [u8]
    ensures { result.now ≡ performing_name form }
{
    match form {
        Form::Exact => b"performing",
        Form::Plain => b"performing_control",
    }
}

/// The name of the column of the mechanical right.
pub(crate) fn mechanical_name(form: Form) -> &'static [u8]
    ensures { result.now ≡ mechanical_name form }
{
    match form {
        Form::Exact => b"mechanical",
        Form::Plain => b"mechanical_control",
    }
}

/// The name of the column of the synchronization right.
pub(crate) fn synchronization_name(form: Form) -> &'static [u8]
    ensures { result.now ≡ synchronization_name form }
{
    match form {
        Form::Exact => b"synchronization",
        Form::Plain => b"synchronization_control",
    }
}

/// Makes a field a text as it stands in a table of this form.
pub(crate) fn set_text<A: Allocator + Copy + Drop>(
    field: &mut Vec<u8, A>,
    form: Form,
    text: &[u8],
) -> Result<(), Memory>
    ensures { OnOk result (field.new.items ≡ text_field form text.now) }
{
    field.clear();
    match form {
        Form::Exact => field.extend_from_slice(text)?,
        Form::Plain => put_guarded(field, unpadded(text))?,
    }
    Ok(())
}

/// Appends a text, with an apostrophe before it if it would be taken for a formula.
fn put_guarded<A: Allocator + Copy + Drop>(
    field: &mut Vec<u8, A>,
    text: &[u8],
) -> Result<(), Memory>
    ensures { OnOk result (field.new.items ≡ field.old.items ++ guarded text.now) }
{
    if is_formula(text) {
        field.push(b'\'')?;
    }
    field.extend_from_slice(text)?;
    Ok(())
}

/// A text without the blanks behind it.
fn unpadded(text: &[u8]) -> &[u8]
    ensures { result.now ≡ unpadded text.now }
{
    let mut rest = text;
    while let [front @ .., b' '] = rest {
        rest = front;
    }
    rest
}

/// Whether a spreadsheet takes a text for a formula.
fn is_formula(text: &[u8]) -> bool
    ensures { result ≡ is_formula text.now }
{
    match text.first() {
        Some(byte) => matches!(*byte, b'=' | b'+' | b'-' | b'@' | b'\t' | b'\r'),
        None => false,
    }
}

/// Makes a field a share as it stands in a table of this form.
pub(crate) fn set_share<A: Allocator + Copy + Drop>(
    field: &mut Vec<u8, A>,
    form: Form,
    share: u64,
) -> Result<(), Memory>
    ensures { OnOk result (field.new.items ≡ share_field form share) }
{
    field.clear();
    match form {
        Form::Exact => put_decimal(field, share),
        Form::Plain => put_percent(field, share),
    }
}

/// Appends a share in per cent, with two places.
fn put_percent<A: Allocator + Copy + Drop>(field: &mut Vec<u8, A>, share: u64) -> Result<(), Memory>
    ensures { OnOk result (field.new.items ≡ field.old.items ++ share_field Plain share) }
{
    put_decimal(field, share / 100)?;
    field.extend_from_slice(b".")?;
    put_digits(field, share % 100, 2)
}
