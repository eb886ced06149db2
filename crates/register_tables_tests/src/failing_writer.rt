//! A writer that fails.

use crate::books::decisions;
use register_tables::{
    Form, TableError, Wanted, WrittenTable, claims_table, history_json, history_table,
    summary_json, summary_text, works_table,
};
use std::alloc::Global;
use std::io;
use std::io::Write;
use std::test::Fail;
use test_comparisons::same;
use work_registry::Book;

/// A writer that takes nothing.
#[derive(Drop)]
struct Full;

impl Write for Full {
    fn write(&mut self, _bytes: &[u8]) -> io::Result<usize> {
        Err(io::Error::from(io::ErrorKind::StorageFull))
    }

    fn flush(&mut self) -> io::Result<()> {
        Ok(())
    }
}

/// A table must fail at the writer.
fn expect_unwritten(table: Result<WrittenTable<Full>, TableError>) -> Result<(), Fail> {
    same("its end", &table.err(), &Some(TableError::Write))
}

/// So must each table of a book.
fn expect_no_table(alloc: Global, book: &Book, form: Form) -> Result<(), Fail> {
    let wanted = Wanted::all();
    expect_unwritten(claims_table(alloc, Full, book, &wanted, form))?;
    expect_unwritten(works_table(alloc, Full, book, &wanted, form))?;
    expect_unwritten(history_table(alloc, Full, book, &wanted, form))
}

/// A summary must fail at the writer.
fn expect_no_summary(summary: Result<Full, TableError>) -> Result<(), Fail> {
    same("its end", &summary.err(), &Some(TableError::Write))
}

/// So must each table of a book, in both forms and as JSON, and its summary.
fn expect_all_unwritten(alloc: Global, book: &Book) -> Result<(), Fail> {
    expect_no_table(alloc, book, Form::Exact)?;
    expect_no_table(alloc, book, Form::Plain)?;
    expect_unwritten(history_json(alloc, Full, book, &Wanted::all()))?;
    expect_no_summary(summary_text(alloc, Full, book))?;
    expect_no_summary(summary_json(alloc, Full, book))
}

#[test]
fn tells_a_failed_write(rt: HostRuntime) -> Result<(), Fail> {
    let alloc = rt.alloc();
    let book = decisions(alloc)?;
    expect_all_unwritten(alloc, &book)
}
