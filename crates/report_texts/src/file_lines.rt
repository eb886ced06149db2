ghost use Rattle.std.specs.Prelude.{◌≡◌, ◌++◌, codes, OnOk};
ghost use Rattle.report_texts.specs.FileText.{counted, place_text, detail_text, byte_text, kind_text, sequences_text, counts_text, file_counts_text, file_wanted_text, file_place_text, refused_line, file_fault_report};

use crate::file_words::{file_rule_text, kind_text};
use crate::long_lines::{put_spots, put_text};
use crate::shown::put_shown;
use cwr_field::{Memory, put_decimal, put_number};
use cwr_record::WorkKind;
use cwr_report::{FileExpected, FileFinding, RecordPlace, WrongByte};
use std::alloc::Allocator;

/// Appends the report on the fault of a file. `line` has the bytes of the faulty line.
pub(crate) fn put_file_finding<A: Allocator>(
    out: &mut Vec<u8, A>,
    line: &[u8],
    finding: &FileFinding,
) -> Result<(), Memory>
    ensures { OnOk result (out.new.items ≡ out.old.items ++ file_fault_report line.now finding.now) }
{
    put_file_place(out, finding)?;
    put_byte(out, &finding.byte)?;
    put_spots(out, line, &finding.fields)?;
    out.extend_from_slice(b"  expected: ")?;
    put_file_wanted(out, &finding.expected)?;
    out.extend_from_slice(b"\n")?;
    put_refused_line(out, finding)?;
    Ok(())
}

/// Appends the line, the record and the rule.
fn put_file_place<A: Allocator>(out: &mut Vec<u8, A>, finding: &FileFinding) -> Result<(), Memory>
    ensures { OnOk result (out.new.items ≡ out.old.items ++ file_place_text finding.now) }
{
    put_counted(out, b"line ", finding.line)?;
    out.extend_from_slice(b": ")?;
    put_place(out, &finding.rtype, &finding.place)?;
    put_counted(out, b": F", finding.number as u64)?;
    out.extend_from_slice(b" ")?;
    out.extend_from_slice(file_rule_text(finding.number))?;
    out.extend_from_slice(b"\n")?;
    Ok(())
}

/// Appends where a line stands in its file. `rtype` names its record type; bytes that are not printable are escaped.
pub fn put_place<A: Allocator>(
    out: &mut Vec<u8, A>,
    rtype: &[u8],
    place: &RecordPlace,
) -> Result<(), Memory>
    ensures { OnOk result (out.new.items ≡ out.old.items ++ place_text rtype.now place.now) }
{
    match *place {
        RecordPlace::End => put_text(out, b"end of the file"),
        RecordPlace::AfterTrailer => put_text(out, b"after TRL"),
        RecordPlace::Nameless => put_text(out, b"no record type"),
        RecordPlace::File => put_shown(out, rtype),
        RecordPlace::Group(group) => put_group(out, rtype, group),
        RecordPlace::Transaction {
            group,
            transaction,
            detail,
        } => put_detail(out, rtype, group, transaction, detail),
    }
}

fn put_group<A: Allocator>(out: &mut Vec<u8, A>, rtype: &[u8], group: u64) -> Result<(), Memory>
    ensures { OnOk result (out.new.items ≡ out.old.items ++ place_text rtype.now (RecordPlace.Group group)) }
{
    put_shown(out, rtype)?;
    put_counted(out, b" of group ", group)?;
    Ok(())
}

/// Appends a record of a transaction. `out` is the text so far and `rtype` the record type. `group` is the group id,
/// from 1; `transaction` and `detail` are the transaction and record sequences, from 0.
pub fn put_detail<A: Allocator>(
    out: &mut Vec<u8, A>,
    rtype: &[u8],
    group: u64,
    transaction: u64,
    detail: u64,
) -> Result<(), Memory>
    ensures { OnOk result (out.new.items ≡ out.old.items ++ detail_text rtype.now group transaction detail) }
{
    put_shown(out, rtype)?;
    put_counted(out, b" ", detail)?;
    put_counted(out, b" of transaction ", transaction)?;
    put_counted(out, b" in group ", group)?;
    Ok(())
}

/// Appends the byte that is wrong, if there is one.
fn put_byte<A: Allocator>(out: &mut Vec<u8, A>, wrong: &Option<WrongByte>) -> Result<(), Memory>
    ensures { OnOk result (out.new.items ≡ out.old.items ++ byte_text wrong.now) }
{
    let Some(wrong) = *wrong else {
        return Ok(());
    };
    out.extend_from_slice(b"  byte ")?;
    put_decimal(out, wrong.byte as u64)?;
    out.extend_from_slice(b", position ")?;
    put_decimal(out, wrong.in_line as u64)?;
    out.extend_from_slice(b" of the line, ")?;
    put_decimal(out, wrong.in_file as u64)?;
    out.extend_from_slice(b" of the file\n")?;
    Ok(())
}

/// Appends what a rule of files required.
pub fn put_file_wanted<A: Allocator>(
    out: &mut Vec<u8, A>,
    expected: &FileExpected,
) -> Result<(), Memory>
    ensures { OnOk result (out.new.items ≡ out.old.items ++ file_wanted_text expected.now) }
{
    match *expected {
        FileExpected::Header => put_text(out, b"HDR"),
        FileExpected::NoControl => put_text(out, b"no byte below 32"),
        FileExpected::RecordType => put_text(out, b"a record type, three capitals from A to Z"),
        FileExpected::Dates => put_text(out, b"a date as YYYYMMDD, a time as HHMMSS"),
        FileExpected::OutsideGroups => put_text(out, b"GRH or TRL"),
        FileExpected::InGroup(kind) => put_in_group(out, b"", kind),
        FileExpected::InTransaction(kind) => put_in_group(out, b"a detail, ", kind),
        FileExpected::Kinds => put_text(out, b"NWR or REV"),
        FileExpected::Kind(kind) => put_text(out, kind_text(kind)),
        FileExpected::Group(group) => put_counted(out, b"group ID ", group),
        FileExpected::Sequences {
            transaction,
            detail,
        } => put_sequences(out, transaction, detail),
        FileExpected::GroupCounts {
            transactions,
            records,
        } => put_counts(out, transactions, records),
        FileExpected::FileCounts {
            groups,
            transactions,
            records,
        } => put_file_counts(out, groups, transactions, records),
        FileExpected::Trailer => put_text(out, b"TRL"),
        FileExpected::Tail => put_text(out, b"blanks and bytes 26 alone"),
        FileExpected::Length(size) => {
            put_counted(out, b"at most 4096 bytes; the line has ", size as u64)
        }
    }
}

/// Appends words, the kinds of header that may stand there, and GRT.
fn put_in_group<A: Allocator>(
    out: &mut Vec<u8, A>,
    words: &[u8],
    kind: Option<WorkKind>,
) -> Result<(), Memory>
    ensures { OnOk result (out.new.items ≡ out.old.items ++ (words.now ++ kind_text kind ++ codes " or GRT")) }
{
    out.extend_from_slice(words)?;
    out.extend_from_slice(kind_text(kind))?;
    out.extend_from_slice(b" or GRT")?;
    Ok(())
}

/// Appends words and a number.
pub fn put_counted<A: Allocator>(
    out: &mut Vec<u8, A>,
    words: &[u8],
    number: u64,
) -> Result<(), Memory>
    ensures { OnOk result (out.new.items ≡ out.old.items ++ counted words.now number) }
{
    out.extend_from_slice(words)?;
    put_number(out, number)?;
    Ok(())
}

fn put_sequences<A: Allocator>(
    out: &mut Vec<u8, A>,
    transaction: u64,
    detail: u64,
) -> Result<(), Memory>
    ensures { OnOk result (out.new.items ≡ out.old.items ++ sequences_text transaction detail) }
{
    put_counted(out, b"transaction sequence ", transaction)?;
    put_counted(out, b", record sequence ", detail)?;
    Ok(())
}

fn put_counts<A: Allocator>(
    out: &mut Vec<u8, A>,
    transactions: u64,
    records: u64,
) -> Result<(), Memory>
    ensures { OnOk result (out.new.items ≡ out.old.items ++ counts_text transactions records) }
{
    put_counted(out, b"transaction count ", transactions)?;
    put_counted(out, b", record count ", records)?;
    Ok(())
}

fn put_file_counts<A: Allocator>(
    out: &mut Vec<u8, A>,
    groups: u64,
    transactions: u64,
    records: u64,
) -> Result<(), Memory>
    ensures { OnOk result (out.new.items ≡ out.old.items ++ file_counts_text groups transactions records) }
{
    put_counted(out, b"group count ", groups)?;
    out.extend_from_slice(b", ")?;
    put_counts(out, transactions, records)?;
    Ok(())
}

/// Appends the line that a short check prints.
fn put_refused_line<A: Allocator>(out: &mut Vec<u8, A>, finding: &FileFinding) -> Result<(), Memory>
    ensures { OnOk result (out.new.items ≡ out.old.items ++ refused_line finding.now) }
{
    put_counted(out, b"refused F", finding.number as u64)?;
    put_counted(out, b" at line ", finding.line)?;
    out.extend_from_slice(b"\n")?;
    Ok(())
}
