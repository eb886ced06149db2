//! Lines of files, named before they are made.

use std::alloc::Global;
use std::test::Fail;
use test_files::{SENDER, file, header, work, writer};

/// A line of a file.
#[derive(Clone, Copy)]
pub(crate) enum Line<'a> {
    /// A line with this text.
    Text(&'a str),
    /// A transaction's header: NWR or REV, its sequence, the submitter's number of the work, and what follows that.
    Work(&'a str, u32, &'a str, &'a str),
    /// A writer's record: SWR or OWR, its transaction's sequence, its own, its share of the performing right, and that
    /// of each other right.
    Writer(&'a str, u32, u32, &'a str, &'a str),
}

/// The text of a line.
fn text_of(alloc: Global, line: Line) -> Result<String, Fail> {
    match line {
        Line::Text(text) => Ok(String::from_str(alloc, text)?),
        Line::Work(kind, sequence, number, after) => work(alloc, kind, sequence, number, after),
        Line::Writer(kind, transaction, record, share, other) => {
            writer(alloc, kind, transaction, record, [share, other, other])
        }
    }
}

/// The texts of these lines.
pub(crate) fn texts_of(alloc: Global, lines: &[Line]) -> Result<Vec<String>, Fail> {
    let mut texts = Vec::new(alloc);
    for line in lines {
        texts.push(text_of(alloc, *line)?)?;
    }
    Ok(texts)
}

/// A file of one group of `works` new works, with these lines between its header and trailer lines.
pub(crate) fn file_of_works(alloc: Global, works: u32, lines: &[Line]) -> Result<Vec<u8>, Fail> {
    let texts = texts_of(alloc, lines)?;
    file(alloc, SENDER, "NWR", works, &texts)
}

/// Puts a line behind a text, with CR LF.
fn push_line(text: &mut String, alloc: Global, line: Line) -> Result<(), Fail> {
    text.push_str(&text_of(alloc, line)?)?;
    text.push_str("\r\n")?;
    Ok(())
}

/// A file of this date with these lines after its HDR, each with CR LF.
pub(crate) fn file_dated(alloc: Global, date: &str, lines: &[Line]) -> Result<Vec<u8>, Fail> {
    let mut text = header(alloc, SENDER, date)?;
    for line in lines {
        push_line(&mut text, alloc, *line)?;
    }
    Ok(text.into_bytes())
}

/// A file with these lines after its HDR, each with CR LF.
pub(crate) fn file_with(alloc: Global, lines: &[Line]) -> Result<Vec<u8>, Fail> {
    file_dated(alloc, "20240501", lines)
}
