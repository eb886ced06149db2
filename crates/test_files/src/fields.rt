//! The fields of a line.

use std::alloc::Global;
use std::test::Fail;

/// A text, and the width of a field that it fills together with blanks behind it.
pub(crate) type Field<'a> = (&'a str, usize);

/// Puts blanks behind a text.
fn push_blanks(text: &mut String, count: usize) -> Result<(), Fail> {
    for _ in 0..count {
        text.push(' ')?;
    }
    Ok(())
}

/// Puts fields behind a text, one after the other.
pub(crate) fn push_fields(text: &mut String, fields: &[Field]) -> Result<(), Fail> {
    for (word, width) in fields {
        text.push_str(word)?;
        push_blanks(text, width.saturating_sub(word.len()))?;
    }
    Ok(())
}

/// A number in eight digits.
pub(crate) fn eight(alloc: Global, number: usize) -> Result<String, Fail> {
    Ok(format!(in alloc; "{number:08}")?)
}

/// What a record begins with: its type, and the sequences of its transaction and of itself.
pub(crate) fn prefix(
    alloc: Global,
    kind: &str,
    transaction: usize,
    record: usize,
) -> Result<String, Fail> {
    let mut text = String::from_str(alloc, kind)?;
    text.push_str(&eight(alloc, transaction)?)?;
    text.push_str(&eight(alloc, record)?)?;
    Ok(text)
}

/// Appends the trailers of a group, the only one of its file, and of the file. `text` is the file so far, and `alloc`
/// allocates. `transactions` and `records` are the counts, the latter with the trailers included. `blanks` is the
/// number of blanks behind the group's counts.
pub(crate) fn push_trailers(
    text: &mut String,
    alloc: Global,
    transactions: usize,
    records: usize,
    blanks: usize,
) -> Result<(), Fail> {
    let count = eight(alloc, transactions)?;
    let group = eight(alloc, records.saturating_add(2))?;
    let all = eight(alloc, records.saturating_add(4))?;
    push_fields(
        text,
        &[
            ("GRT00001", 8),
            (&count, 8),
            (&group, 8),
            ("", blanks),
            ("\r\nTRL00001", 10),
            (&count, 8),
            (&all, 8),
            ("\r\n", 2),
        ],
    )
}
