//! A register as tables, and its summary.

use crate::arguments::{Argument, CommandWords};
use crate::error_terminal::ErrorTerminal;
use crate::help::{CLAIMS_HELP, HISTORY_HELP, SUMMARY_HELP, WORKS_HELP};
use crate::page_of_check::name_shown;
use crate::printing::StandardOutput;
use crate::registers::{REGISTER, audited_book};
use crate::status::{bad_words, no_memory};
use crate::wanted_rows::wanted_in;
use clap::ArgMatches;
use register_tables::{
    Form, TableError, Wanted, WrittenTable, claims_table, history_json, history_table,
    summary_json, summary_text, works_table,
};
use std::process::ExitCode;
use std::rt::Files;
use summary_pages::{PageError, summary_page};
use work_registry::Book;

/// A table of a register.
#[derive(Clone, Copy)]
pub(crate) enum Table {
    /// The current claims, in the order of their entries.
    Claims,
    /// The works, by number.
    Works,
    /// Every entry, in order.
    History,
}

/// `claims [--work N] [--submitter S] [--number W] [--plain] [--verbose] REGISTER`.
pub(crate) const CLAIMS: CommandWords = CommandWords {
    name: "claims",
    about: "Prints the current claims of a register, in CSV",
    arguments: &[REGISTER, WORK, SUBMITTER, NUMBER, PLAIN, Argument::Verbose],
    more: CLAIMS_HELP,
};

/// `works [--work N] [--plain] [--verbose] REGISTER`.
pub(crate) const WORKS: CommandWords = CommandWords {
    name: "works",
    about: "Prints the works of a register, in CSV",
    arguments: &[REGISTER, WORK, PLAIN, Argument::Verbose],
    more: WORKS_HELP,
};

/// `history [--work N] [--submitter S] [--number W] [--status AS|DU|CO|RJ] [--plain | --json] [--verbose] REGISTER`.
pub(crate) const HISTORY: CommandWords = CommandWords {
    name: "history",
    about: "Prints every entry of a register, in CSV",
    arguments: &[
        REGISTER,
        WORK,
        SUBMITTER,
        NUMBER,
        Argument::Value("status", "AS|DU|CO|RJ", "those with this status alone"),
        PLAIN,
        Argument::FlagAgainst(
            "json",
            &["plain"],
            "print each entry as a JSON object, on a line of its own",
        ),
        Argument::Verbose,
    ],
    more: HISTORY_HELP,
};

/// `summary [--json | --html] [--verbose] REGISTER`.
pub(crate) const SUMMARY: CommandWords = CommandWords {
    name: "summary",
    about: "Prints how much of what is in a register, as a page to read",
    arguments: &[
        REGISTER,
        Argument::Flag("json", "print the same as one JSON object, on one line"),
        Argument::FlagAgainst(
            "html",
            &["json"],
            "print one page for a browser, with bars in its tables",
        ),
        Argument::Verbose,
    ],
    more: SUMMARY_HELP,
};

const WORK: Argument = Argument::Value(
    "work",
    "N",
    "those of this work alone: its number in the registry, as 1",
);

const SUBMITTER: Argument = Argument::Value(
    "submitter",
    "S",
    "those of this submitter alone: its type and ID, as PB000000123",
);

const NUMBER: Argument = Argument::Value(
    "number",
    "W",
    "those of this submitter work number alone, as W1",
);

const PLAIN: Argument = Argument::Flag(
    "plain",
    "for spreadsheets: no blanks behind texts, shares in per cent, no formulas",
);

/// What a command prints of a register.
#[derive(Clone, Copy)]
enum Wish {
    /// The rows of a table that are wanted, in this form.
    Rows(Table, Form, Wanted),
    /// The entries that are wanted, as JSON objects.
    Objects(Wanted),
    /// A summary.
    Summary,
    /// A summary as a JSON object.
    SummaryObject,
}

impl Wish {
    /// Whether it is printed as JSON.
    fn is_json(&self) -> bool {
        matches!(self, Wish::Objects(_) | Wish::SummaryObject)
    }
}

/// Prints a table of a register on standard output, or the register's first fault. The register `-` is standard input.
pub(crate) fn print_table<R: AllocGlobal + Input + Print + ErrorTerminal + Files>(
    rt: &R,
    table: Table,
    path: &str,
    given: &ArgMatches,
) -> ExitCode {
    match wanted_in(given) {
        Ok(wanted) => {
            let wish = wish_of(table, wanted, given);
            print_register(rt, path, given.get_flag("verbose"), wish)
        }
        Err(text) => bad_words(rt, text),
    }
}

/// What a command prints for the rows of a table that are wanted. Only the history is printed as JSON.
fn wish_of(table: Table, wanted: Wanted, given: &ArgMatches) -> Wish {
    match table {
        Table::History if given.get_flag("json") => Wish::Objects(wanted),
        _ if given.get_flag("plain") => Wish::Rows(table, Form::Plain, wanted),
        _ => Wish::Rows(table, Form::Exact, wanted),
    }
}

/// Prints a summary of a register on standard output, or the register's first fault. The register `-` is standard
/// input.
pub(crate) fn print_summary<R: AllocGlobal + Input + Print + ErrorTerminal + Files>(
    rt: &R,
    path: &str,
    given: &ArgMatches,
) -> ExitCode {
    let verbose = given.get_flag("verbose");
    if given.get_flag("html") {
        return print_summary_page(rt, path, verbose);
    }
    let wish = if given.get_flag("json") {
        Wish::SummaryObject
    } else {
        Wish::Summary
    };
    print_register(rt, path, verbose, wish)
}

/// Reads a register, and prints the page of its summary.
fn print_summary_page<R: AllocGlobal + Input + Print + ErrorTerminal + Files>(
    rt: &R,
    path: &str,
    verbose: bool,
) -> ExitCode {
    let book = match audited_book(rt, path, verbose, false) {
        Ok(book) => book,
        Err(status) => return status,
    };
    match summary_page(rt.alloc(), StandardOutput::of(rt), name_shown(path), &book) {
        Ok(_) => ExitCode::SUCCESS,
        Err(PageError::Memory) => no_memory(rt),
        Err(PageError::Write) => ExitCode::FAILURE,
    }
}

/// Reads a register, and prints what `wish` names of it.
fn print_register<R: AllocGlobal + Input + Print + ErrorTerminal + Files>(
    rt: &R,
    path: &str,
    verbose: bool,
    wish: Wish,
) -> ExitCode {
    match audited_book(rt, path, verbose, wish.is_json()) {
        Ok(book) => print_book(rt, &book, wish),
        Err(status) => status,
    }
}

/// Prints what `wish` names of a book.
fn print_book<R: AllocGlobal + Print + Eprint>(rt: &R, book: &Book, wish: Wish) -> ExitCode {
    let (alloc, to) = (rt.alloc(), StandardOutput::of(rt));
    match wish {
        Wish::Rows(table, form, wanted) => print_rows(rt, book, table, form, &wanted),
        Wish::Objects(wanted) => {
            let told = history_json(alloc, to, book, &wanted);
            print_rows_end(rt, Table::History, &wanted, told)
        }
        Wish::Summary => print_end(rt, summary_text(alloc, to, book)),
        Wish::SummaryObject => print_end(rt, summary_json(alloc, to, book)),
    }
}

/// Prints the rows of a table that are wanted. `rt` is the runtime, and `book` has the entries. `table` names the
/// table, `form` is that of its fields, and `wanted` selects among its rows.
fn print_rows<R: AllocGlobal + Print + Eprint>(
    rt: &R,
    book: &Book,
    table: Table,
    form: Form,
    wanted: &Wanted,
) -> ExitCode {
    let (alloc, to) = (rt.alloc(), StandardOutput::of(rt));
    let told = match table {
        Table::Claims => claims_table(alloc, to, book, wanted, form),
        Table::Works => works_table(alloc, to, book, wanted, form),
        Table::History => history_table(alloc, to, book, wanted, form),
    };
    print_rows_end(rt, table, wanted, told)
}

/// Prints on standard error that no row of a table matched, or why the table was not written completely.
fn print_rows_end<R: Eprint, W: Drop>(
    rt: &R,
    table: Table,
    wanted: &Wanted,
    told: Result<WrittenTable<W>, TableError>,
) -> ExitCode {
    if let Ok(told) = &told {
        if told.rows == 0 && *wanted != Wanted::all() {
            let _ = eprintln!(rt; "{}", unmatched_text(table));
        }
    }
    print_end(rt, told)
}

/// The text that no row of a table is as wanted.
fn unmatched_text(table: Table) -> &'static str {
    match table {
        Table::Claims => "no claim matches",
        Table::Works => "no work matches",
        Table::History => "no entry matches",
    }
}

/// Prints why something was not written completely, if it was not and that can be printed.
fn print_end<R: Eprint, T: Drop>(rt: &R, written: Result<T, TableError>) -> ExitCode {
    match written {
        Ok(_) => ExitCode::SUCCESS,
        Err(TableError::Memory) => no_memory(rt),
        Err(TableError::Write) => ExitCode::FAILURE,
    }
}
