ghost use Rattle.std.specs.Prelude.{◌≡◌, ◌≤◌, IsTrue, option_map};
ghost use Rattle.cwr_record.specs.Ranges.{is_in_line};
ghost use Rattle.cwr_grammar.specs.Counted.{AreSmall};
ghost use Rattle.cwr_report.specs.FileExpected.{malformed_expected, record_expected, group_expected, sequences_expected, expected_in_line, expected_at_end, file_expected, wrong_number, wrong_day, wrong_time, wrong_header_dates, group_column, wrong_sequences, wrong_group_counts, wrong_file_counts, fields_in_line, fields_of_file};

use crate::fields::{one_field, spot_where};
use crate::file_finding::FileExpected;
use crate::finding::{FieldName, Spot};
use cwr_field::{date, time};
use cwr_grammar::FileCounts;
use cwr_record::{
    Column, FileTrailer, GroupHead, GroupTrailer, Header, Prefix, RecordType, digits_at, field_at,
    type_of,
};

/// What the rule with this number requires of this line, after the lines before it. `line` is `None` at the end of the
/// file.
pub(crate) fn file_expected(number: u8, before: &FileCounts, line: Option<&[u8]>) -> FileExpected
    requires { AreSmall before.now }
    ensures { result ≡ file_expected number before.now (option_map (λ l. l.now) line.entry) }
{
    match line {
        None => expected_at_end(number),
        Some(line) => expected_in_line(number, before, line),
    }
}

fn expected_at_end(number: u8) -> FileExpected
    ensures { result ≡ expected_at_end number }
{
    match number {
        1 => FileExpected::Header,
        _ => FileExpected::Trailer,
    }
}

fn expected_in_line(number: u8, before: &FileCounts, line: &[u8]) -> FileExpected
    requires { AreSmall before.now }
    ensures { result ≡ expected_in_line number before.now line.now }
{
    match number {
        1 => FileExpected::Header,
        2 => FileExpected::NoControl,
        3 => malformed_expected(type_of(line)),
        4 => record_expected(before),
        5 => FileExpected::Kinds,
        6 => FileExpected::Kind(before.kind),
        7 => FileExpected::Group(group_expected(before, type_of(line))),
        8 => sequences_expected(before, type_of(line)),
        9 => FileExpected::GroupCounts {
            transactions: before.transactions,
            records: before.group_lines + 2,
        },
        10 => FileExpected::FileCounts {
            groups: before.groups,
            transactions: before.all_transactions,
            records: before.lines + 1,
        },
        11 => FileExpected::Tail,
        _ => FileExpected::Length(line.len()),
    }
}

/// A record type, or in HDR dates and a time.
fn malformed_expected(record_type: RecordType) -> FileExpected
    ensures { result ≡ malformed_expected record_type }
{
    match record_type {
        RecordType::Bad => FileExpected::RecordType,
        _ => FileExpected::Dates,
    }
}

/// The records that may stand after the lines before.
fn record_expected(before: &FileCounts) -> FileExpected
    ensures { result ≡ record_expected before.now }
{
    if !before.in_group {
        FileExpected::OutsideGroups
    } else if before.in_transaction {
        FileExpected::InTransaction(before.kind)
    } else {
        FileExpected::InGroup(before.kind)
    }
}

/// The id of the group that GRT closes, or the next one.
fn group_expected(before: &FileCounts, record_type: RecordType) -> u64
    requires { AreSmall before.now }
    ensures { result ≡ group_expected before.now record_type }
{
    match record_type {
        RecordType::Grt => before.groups,
        _ => before.groups + 1,
    }
}

/// The sequences of a header, or of a detail.
fn sequences_expected(before: &FileCounts, record_type: RecordType) -> FileExpected
    requires { AreSmall before.now }
    ensures { result ≡ sequences_expected before.now record_type }
{
    match record_type {
        RecordType::Nwr | RecordType::Rev | RecordType::Ack | RecordType::Other => {
            FileExpected::Sequences {
                transaction: before.transactions,
                detail: 0,
            }
        }
        _ => FileExpected::Sequences {
            transaction: before.transactions.saturating_sub(1),
            detail: before.details + 1,
        },
    }
}

/// The fields of the line, if there is one, that differ from what is expected.
pub(crate) fn fields_of_file(line: Option<&[u8]>, expected: &FileExpected) -> [Option<Spot>; 3]
    ensures { result ≡ fields_of_file (option_map (λ l. l.now) line.entry) expected.now }
{
    match line {
        None => [None, None, None],
        Some(line) => fields_in_line(line, expected),
    }
}

fn fields_in_line(line: &[u8], expected: &FileExpected) -> [Option<Spot>; 3]
    ensures { result ≡ fields_in_line line.now expected.now }
{
    match *expected {
        FileExpected::Header
        | FileExpected::RecordType
        | FileExpected::OutsideGroups
        | FileExpected::InGroup(_)
        | FileExpected::InTransaction(_)
        | FileExpected::Kind(_) => one_field(FieldName::RecordType, RecordType::COLUMN),
        FileExpected::Dates => wrong_header_dates(line),
        FileExpected::Kinds => one_field(FieldName::TransactionType, GroupHead::TRANSACTION_TYPE),
        FileExpected::Group(_) => one_field(FieldName::GroupId, group_column(type_of(line))),
        FileExpected::Sequences {
            transaction,
            detail,
        } => wrong_sequences(line, transaction, detail),
        FileExpected::GroupCounts {
            transactions,
            records,
        } => wrong_group_counts(line, transactions, records),
        FileExpected::FileCounts {
            groups,
            transactions,
            records,
        } => wrong_file_counts(line, groups, transactions, records),
        FileExpected::NoControl
        | FileExpected::Trailer
        | FileExpected::Tail
        | FileExpected::Length(_) => [None, None, None],
    }
}

/// Which of the dates and the time of HDR is wrong.
fn wrong_header_dates(line: &[u8]) -> [Option<Spot>; 3]
    ensures { result ≡ wrong_header_dates line.now }
{
    [
        wrong_day(line, FieldName::CreationDate, Header::CREATION_DATE),
        wrong_time(line, FieldName::CreationTime, Header::CREATION_TIME),
        wrong_day(line, FieldName::TransmissionDate, Header::TRANSMISSION_DATE),
    ]
}

/// A date, if it is not valid.
fn wrong_day(line: &[u8], name: FieldName, column: Column) -> Option<Spot>
    requires { IsTrue (is_in_line column) × (column.width ≡ 8) }
    ensures { result ≡ wrong_day line.now name column }
{
    spot_where(date(field_at(line, column)).is_none(), name, column)
}

/// A time, if it is not valid.
fn wrong_time(line: &[u8], name: FieldName, column: Column) -> Option<Spot>
    requires { IsTrue (is_in_line column) × (column.width ≡ 6) }
    ensures { result ≡ wrong_time line.now name column }
{
    spot_where(time(field_at(line, column)).is_none(), name, column)
}

/// Where the group id of GRT stands, or that of GRH.
fn group_column(record_type: RecordType) -> Column
    ensures { result ≡ group_column record_type }
{
    match record_type {
        RecordType::Grt => GroupTrailer::GROUP,
        _ => GroupHead::GROUP,
    }
}

/// A number, if it is not this one.
fn wrong_number(line: &[u8], number: u64, name: FieldName, column: Column) -> Option<Spot>
    requires { IsTrue (is_in_line column) × (column.width ≤ 18) }
    ensures { result ≡ wrong_number line.now number name column }
{
    spot_where(digits_at(line, column) != Some(number), name, column)
}

fn wrong_sequences(line: &[u8], transaction: u64, detail: u64) -> [Option<Spot>; 3]
    ensures { result ≡ wrong_sequences line.now transaction detail }
{
    [
        wrong_number(
            line,
            transaction,
            FieldName::TransactionSequence,
            Prefix::TRANSACTION,
        ),
        wrong_number(line, detail, FieldName::RecordSequence, Prefix::DETAIL),
        None,
    ]
}

fn wrong_group_counts(line: &[u8], transactions: u64, records: u64) -> [Option<Spot>; 3]
    ensures { result ≡ wrong_group_counts line.now transactions records }
{
    [
        wrong_number(
            line,
            transactions,
            FieldName::TransactionCount,
            GroupTrailer::TRANSACTIONS,
        ),
        wrong_number(line, records, FieldName::RecordCount, GroupTrailer::RECORDS),
        None,
    ]
}

fn wrong_file_counts(line: &[u8], groups: u64, transactions: u64, records: u64) -> [Option<Spot>; 3]
    ensures { result ≡ wrong_file_counts line.now groups transactions records }
{
    [
        wrong_number(line, groups, FieldName::GroupCount, FileTrailer::GROUPS),
        wrong_number(
            line,
            transactions,
            FieldName::TransactionCount,
            FileTrailer::TRANSACTIONS,
        ),
        wrong_number(line, records, FieldName::RecordCount, FileTrailer::RECORDS),
    ]
}
