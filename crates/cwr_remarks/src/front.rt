ghost use Rattle.std.specs.Prelude.{◌≡◌, ◌++◌, length, OnOk};
ghost use Rattle.std.specs.Str.Lines.{lines};
ghost use Rattle.cwr_record.specs.declared.record_type.RecordType.TheVariants as of_type;
ghost use Rattle.cwr_remarks.specs.Beginnings.{begins_with_mark, is_utf16, is_gzip, beginning, on_beginning};
ghost use Rattle.cwr_remarks.specs.Checks.{front_remarks};
ghost use Rattle.cwr_remarks.specs.Headers.{header_remarks, remarks_on_header, other_version, other_sender, is_known_sender};
ghost use Rattle.cwr_remarks.specs.SecondFile.{second_file};

use crate::remark::{Remark, Remarked};
use crate::remarking::push_remark;
use crate::typed::{Typed, next_typed};
use cwr_field::{Field, Memory, cut, digits};
use cwr_grammar::Lines;
use cwr_record::{Header, RecordType, field_at};
use cwr_report::FileFinding;
use std::alloc::Allocator;

/// Appends the remarks on the file itself, at line 1: what it begins with, and what its HDR names. No line behind the
/// first is looked at.
pub(crate) fn push_front<A: Allocator>(
    found: &mut Vec<Remark, A>,
    bytes: &[u8],
) -> Result<(), Memory>
    ensures { OnOk result (found.new.items ≡ found.old.items ++ front_remarks bytes.now) }
{
    push_beginning(found, beginning(bytes))?;
    push_header_remarks(found, bytes)?;
    Ok(())
}

/// Appends what is remarked of what the file begins with.
fn push_beginning<A: Allocator>(
    found: &mut Vec<Remark, A>,
    what: Option<Remarked>,
) -> Result<(), Memory>
    ensures { OnOk result (found.new.items ≡ found.old.items ++ on_beginning what) }
{
    if let Some(what) = what {
        found.push(Remark {
            line: 1,
            rtype: None,
            what,
        })?;
    }
    Ok(())
}

/// What a file begins with that is no text of CWR.
fn beginning(bytes: &[u8]) -> Option<Remarked>
    ensures { result ≡ beginning bytes.now }
{
    if begins_with_mark(bytes) {
        Some(Remarked::ByteOrderMark)
    } else if is_utf16(bytes) {
        Some(Remarked::Utf16)
    } else if is_gzip(bytes) {
        Some(Remarked::Gzip)
    } else {
        None
    }
}

fn begins_with_mark(bytes: &[u8]) -> bool
    ensures { result ≡ begins_with_mark bytes.now }
{
    let first: [u8; 3] = cut(bytes, 1, 3).bytes();
    first == *b"\xef\xbb\xbf"
}

fn is_utf16(bytes: &[u8]) -> bool
    ensures { result ≡ is_utf16 bytes.now }
{
    let first: [u8; 2] = cut(bytes, 1, 2).bytes();
    first == *b"\xff\xfe" || first == *b"\xfe\xff"
}

fn is_gzip(bytes: &[u8]) -> bool
    ensures { result ≡ is_gzip bytes.now }
{
    let first: [u8; 2] = cut(bytes, 1, 2).bytes();
    first == *b"\x1f\x8b"
}

/// Appends the remarks on the HDR that the file begins with, if it does.
fn push_header_remarks<A: Allocator>(found: &mut Vec<Remark, A>, bytes: &[u8]) -> Result<(), Memory>
    ensures { OnOk result (found.new.items ≡ found.old.items ++ header_remarks (lines bytes.now)) }
{
    let mut rest = Lines::of(bytes);
    match next_typed(&mut rest) {
        None => Ok(()),
        Some(Typed { line, record_type }) => push_on_header(found, record_type, line),
    }
}

/// Appends the remarks on a first line of this type.
fn push_on_header<A: Allocator>(
    found: &mut Vec<Remark, A>,
    record_type: RecordType,
    line: &[u8],
) -> Result<(), Memory>
    ensures { OnOk result (found.new.items ≡ found.old.items ++ remarks_on_header record_type line.now) }
{
    match record_type {
        RecordType::Hdr => push_in_header(found, line),
        _ => Ok(()),
    }
}

/// Appends the remarks on an HDR.
fn push_in_header<A: Allocator>(found: &mut Vec<Remark, A>, line: &[u8]) -> Result<(), Memory>
    ensures { OnOk result (found.new.items ≡ found.old.items ++ remarks_on_header of_type.Hdr line.now) }
{
    let version = field_at(line, Header::VERSION);
    push_remark(found, 1, line, other_version(version))?;
    let kind = cut(line, Header::SENDER.start, 2);
    push_remark(found, 1, line, other_sender(kind))?;
    Ok(())
}

/// The version that HDR names, if it is neither blank nor 2.2.
fn other_version(named: Field) -> Option<Remarked>
    requires { length named ≡ 3 }
    ensures { result ≡ other_version named.entry }
{
    let bytes: [u8; 3] = named.bytes();
    if named.is_blank() || bytes == *b"2.2" {
        return None;
    }
    Some(Remarked::CwrVersion(bytes))
}

/// The sender type of HDR, if the standard has no such.
fn other_sender(kind: Field) -> Option<Remarked>
    requires { length kind ≡ 2 }
    ensures { result ≡ other_sender kind.entry }
{
    let bytes: [u8; 2] = kind.bytes();
    if is_known_sender(bytes) || digits(kind).is_some() {
        return None;
    }
    Some(Remarked::SenderType(bytes))
}

/// A publisher, an administrative agency, a society or a writer.
fn is_known_sender(kind: [u8; 2]) -> bool
    ensures { result ≡ is_known_sender kind }
{
    kind == *b"PB" || kind == *b"AA" || kind == *b"SO" || kind == *b"WR"
}

/// Appends that a second file begins at the faulty line of a file, if one does.
pub(crate) fn push_second<A: Allocator>(
    found: &mut Vec<Remark, A>,
    refused: &FileFinding,
) -> Result<(), Memory>
    ensures { OnOk result (found.new.items ≡ found.old.items ++ second_file refused.now) }
{
    if refused.number == 11 && refused.rtype == *b"HDR" {
        found.push(Remark {
            line: refused.line,
            rtype: Some(refused.rtype),
            what: Remarked::SecondFile,
        })?;
    }
    Ok(())
}
