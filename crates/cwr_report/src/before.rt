ghost use Rattle.std.specs.Prelude.{◌≡◌, ◌+◌, ◌<◌, ◌^◌, ℕ, List, option_map};
ghost use Rattle.std.specs.Str.Lines.{lines};
ghost use Rattle.cwr_grammar.specs.Counted.{AreSmall};
ghost use Rattle.cwr_report.specs.Before.{before_of, IsPassed, here, place_in, trailer_place, header_place, detail_place};
ghost use Rattle.cwr_report.specs.Walks.{lines_before};

use crate::file_finding::RecordPlace;
use cwr_grammar::{FileCounts, Lines};
use cwr_record::RecordType;

/// Where a line with a record of this type stands.
pub(crate) fn place_in(before: &FileCounts, record_type: RecordType) -> RecordPlace
    requires { AreSmall before.now }
    ensures { result ≡ place_in before.now record_type }
{
    match record_type {
        RecordType::Bad => RecordPlace::Nameless,
        RecordType::Hdr | RecordType::Trl => RecordPlace::File,
        RecordType::Grh => RecordPlace::Group(before.groups + 1),
        RecordType::Grt => trailer_place(before),
        RecordType::Nwr | RecordType::Rev | RecordType::Ack | RecordType::Other => {
            header_place(before)
        }
        _ => detail_place(before),
    }
}

/// GRT closes the group that is open.
fn trailer_place(before: &FileCounts) -> RecordPlace
    ensures { result ≡ trailer_place before.now }
{
    if before.in_group {
        RecordPlace::Group(before.groups)
    } else {
        RecordPlace::File
    }
}

/// A header begins the next transaction of the group.
fn header_place(before: &FileCounts) -> RecordPlace
    ensures { result ≡ header_place before.now }
{
    if before.in_group {
        RecordPlace::Transaction {
            group: before.groups,
            transaction: before.transactions,
            detail: 0,
        }
    } else {
        RecordPlace::File
    }
}

/// A detail goes on with the last transaction of the group.
fn detail_place(before: &FileCounts) -> RecordPlace
    requires { AreSmall before.now }
    ensures { result ≡ detail_place before.now }
{
    if before.in_group && before.in_transaction {
        RecordPlace::Transaction {
            group: before.groups,
            transaction: before.transactions.saturating_sub(1),
            detail: before.details + 1,
        }
    } else {
        RecordPlace::File
    }
}

/// A line of a file, and what the lines before it say.
#[derive(Clone, Copy)]
pub(crate) struct AtLine<'a> {
    pub(crate) before: FileCounts,
    /// The line; none after the last one.
    pub(crate) line: Option<&'a [u8]>,
}

/// The line of a file at an index, counted from 0.
pub(crate) fn at_line(bytes: &[u8], index: u64) -> AtLine<'_>
    requires { index < 2 ^ 63 }
    ensures before { result.before ≡ before_of (lines_before (lines bytes.now) index) }
    ensures small { AreSmall result.before }
    ensures line { option_map (λ l. l.now) result.line ≡ here (lines bytes.now) index }
{
    let mut before = FileCounts::new();
    let mut lines = Lines::of(bytes);
    for _ in 0..index {
        pass_line(&mut before, &mut lines);
    }
    AtLine {
        before,
        line: lines.next(),
    }
}

/// Consumes the next line, if there is one.
fn pass_line(before: &mut FileCounts, lines: &mut Lines)
    requires { AreSmall before.old }
    ensures { (all : List (List ℕ)) (index : ℕ) → IsPassed before.old lines.old all index → IsPassed before.new lines.new all (index + 1) }
{
    match lines.next() {
        None => {}
        Some(line) => before.add_record(line),
    }
}
