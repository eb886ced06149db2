ghost use Rattle.std.specs.Prelude.{◌≡◌, ◌<◌, ◌==◌, ◌||◌, not, nat_lt, length, option_map, IfSome};
ghost use Rattle.std.specs.List.{position};
ghost use Rattle.std.specs.Str.Lines.{lines};
ghost use Rattle.cwr_grammar.specs.Counted.{AreSmall};
ghost use Rattle.cwr_grammar.specs.Faults.{IsLeastFault};
ghost use Rattle.cwr_report.specs.FileFindings.{file_finding, place_of, type_at, wrong_byte};

use crate::before::{at_line, place_in};
use crate::bytes_before::bytes_before;
use crate::file_expected::{fields_of_file, file_expected};
use crate::finding::Spot;
use cwr_grammar::FileCounts;
use cwr_record::{RecordType, WorkKind, field_at, type_of};

/// The first fault of a file that is not well-formed, with what is wrong there.
#[derive(Clone, Copy, Debug, PartialEq, Eq)]
pub struct FileFinding {
    /// The number of the fault, from 1 to 12.
    pub number: u8,
    /// The line of the file, from 1; the line after the last one is the end.
    pub line: u64,
    /// The first three bytes of that line, which name its record type; blanks if the file has ended before.
    pub rtype: [u8; 3],
    /// Where that line stands in the file.
    pub place: RecordPlace,
    /// The byte that is wrong: F2, and F11 after TRL.
    pub byte: Option<WrongByte>,
    /// The fields of that line that are not as they are expected, in the order of the line.
    pub fields: [Option<Spot>; 3],
    /// What the rule requires there, after the lines before.
    pub expected: FileExpected,
}

/// Where a line stands in a file, by the lines before it and its record type.
#[derive(Clone, Copy, Debug, PartialEq, Eq)]
pub enum RecordPlace {
    /// After the last line.
    End,
    /// A line after TRL.
    AfterTrailer,
    /// A line that names no record type.
    Nameless,
    /// A record that is in no group.
    File,
    /// GRH or GRT of the group with this id, counted from 1.
    Group(u64),
    /// A record of a transaction.
    Transaction {
        /// The id of its group, counted from 1.
        group: u64,
        /// The transaction's sequence in the group, counted from 0.
        transaction: u64,
        /// The record's sequence in the transaction, counted from 0, which is the header's.
        detail: u64,
    },
}

/// A byte that may not stand where it does.
#[derive(Clone, Copy, Debug, PartialEq, Eq)]
pub struct WrongByte {
    /// The byte.
    pub byte: u8,
    /// Its position in the line, from 1.
    pub in_line: usize,
    /// Its position in the file, from 1.
    pub in_file: usize,
}

/// What a rule of files requires of a line, after the lines before it.
#[derive(Clone, Copy, Debug, PartialEq, Eq)]
pub enum FileExpected {
    /// F1: HDR.
    Header,
    /// F2: no byte below 32.
    NoControl,
    /// F3: a record type.
    RecordType,
    /// F3: valid dates and a valid time, in HDR.
    Dates,
    /// F4, outside of groups: GRH or TRL.
    OutsideGroups,
    /// F4, directly after GRH: a header of the group's type, or GRT.
    InGroup(Option<WorkKind>),
    /// F4, in a transaction: a detail, a header of the group's type, or GRT.
    InTransaction(Option<WorkKind>),
    /// F5: NWR or REV.
    Kinds,
    /// F6: the transaction type of the group.
    Kind(Option<WorkKind>),
    /// F7: this group id.
    Group(u64),
    /// F8: these sequences.
    Sequences {
        /// Transaction sequence.
        transaction: u64,
        /// Record sequence.
        detail: u64,
    },
    /// F9: the counts of the group.
    GroupCounts {
        /// Transaction count.
        transactions: u64,
        /// Record count, GRH and GRT included.
        records: u64,
    },
    /// F10: the counts of the file.
    FileCounts {
        /// Group count.
        groups: u64,
        /// Transaction count.
        transactions: u64,
        /// Record count, HDR and TRL included.
        records: u64,
    },
    /// F11 at the end of the file: TRL.
    Trailer,
    /// F11 after TRL: blanks and bytes 26 alone.
    Tail,
    /// F12: at most 4096 bytes. The value is the length of the line.
    Length(usize),
}

/// The finding for the first fault of a file: its number and its line, from 1.
pub(crate) fn file_finding(bytes: &[u8], number: u8, line: u64) -> FileFinding
    requires { IsLeastFault (lines bytes.now) line number }
    ensures { result ≡ file_finding bytes.now number line }
{
    let at = at_line(bytes, line.saturating_sub(1));
    let expected = file_expected(number, &at.before, at.line);
    FileFinding {
        number,
        line,
        rtype: type_at(at.line),
        place: place_of(number, &at.before, at.line),
        byte: wrong_byte(bytes, number, line, at.line),
        fields: fields_of_file(at.line, &expected),
        expected,
    }
}

/// The bytes that name the record type of a line.
fn type_at(line: Option<&[u8]>) -> [u8; 3]
    ensures { result ≡ type_at (option_map (λ l. l.now) line.entry) }
{
    match line {
        None => *b"   ",
        Some(line) => field_at(line, RecordType::COLUMN).bytes(),
    }
}

/// Where a line with this fault stands, after the lines before it.
fn place_of(number: u8, before: &FileCounts, line: Option<&[u8]>) -> RecordPlace
    requires { AreSmall before.now }
    ensures { result ≡ place_of number before.now (option_map (λ l. l.now) line.entry) }
{
    match line {
        None => RecordPlace::End,
        Some(line) if number != 11 => place_in(before, type_of(line)),
        Some(_) => RecordPlace::AfterTrailer,
    }
}

/// The byte of the line with this number that breaks F2, or F11 after TRL.
fn wrong_byte(bytes: &[u8], number: u8, line: u64, here: Option<&[u8]>) -> Option<WrongByte>
    ensures { result ≡ wrong_byte bytes.now number line (option_map (λ l. l.now) here.entry) }
{
    let here = here?;
    let place = match number {
        2 => first_control(here)?,
        11 => first_stray(here)?,
        _ => return None,
    };
    let start = bytes_before(bytes, line.saturating_sub(1));
    Some(WrongByte {
        byte: here[place],
        in_line: place + 1,
        in_file: start + place + 1,
    })
}

/// The index of the first byte below 32.
fn first_control(line: &[u8]) -> Option<usize>
    ensures value { result ≡ position (λ b. nat_lt b 32) line.now }
    ensures inside { IfSome result (λ place. place < length line.now) }
{
    line.iter().position(|byte| *byte < 32)
}

/// The index of the first byte that is no blank and no byte 26.
fn first_stray(line: &[u8]) -> Option<usize>
    ensures value { result ≡ position (λ b. not (b == 32 || b == 26)) line.now }
    ensures inside { IfSome result (λ place. place < length line.now) }
{
    line.iter().position(|byte| !(*byte == b' ' || *byte == 26))
}
