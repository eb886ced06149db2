//! Remarks as a JSON array.

ghost use Rattle.std.specs.Prelude.{◌≡◌, ◌++◌, OnOk};
ghost use Rattle.serde_json.specs.Written.{comma_if, compact_text};
ghost use Rattle.report_json.specs.JsonText.{string_text};
ghost use Rattle.cwr_remarks.specs.Json.{kind_text, first_in, count_in, length_in, layout_in, remark_data, remarks_data};
ghost use Rattle.cwr_remarks.specs.JsonText.{amounts_text, remark_text};
ghost use Rattle.cwr_remarks.specs.Texts.{what_text};

use crate::remark::{Remark, Remarked};
use crate::texts::put_what;
use cwr_field::{Memory, put_decimal};
use report_json::{put_comma, put_json_text, put_option, put_type};
use std::alloc::Global;

/// Appends remarks as a JSON array, with an object for each.
pub(crate) fn put_json_list(
    alloc: Global,
    out: &mut Vec<u8>,
    remarks: &[Remark],
) -> Result<(), Memory>
    ensures { OnOk result (out.new.items ≡ out.old.items ++ compact_text (remarks_data remarks.now)) }
{
    let mut buffer = Vec::new(alloc);
    out.push(b'[')?;
    let mut later = false;
    for remark in remarks {
        put_item(out, &mut buffer, later, remark)?;
        later = true;
    }
    out.push(b']')?;
    Ok(())
}

/// Appends the next remark. `later` says whether a comma is needed before it.
fn put_item(
    out: &mut Vec<u8>,
    buffer: &mut Vec<u8>,
    later: bool,
    remark: &Remark,
) -> Result<(), Memory>
    ensures { OnOk result (out.new.items ≡ out.old.items ++ (comma_if later ++ compact_text (remark_data remark.now))) }
{
    put_comma(out, later)?;
    put_json_remark(out, buffer, remark)?;
    Ok(())
}

/// Appends a remark: its numbers, what it is, and where.
fn put_json_remark(out: &mut Vec<u8>, buffer: &mut Vec<u8>, remark: &Remark) -> Result<(), Memory>
    ensures { OnOk result (out.new.items ≡ out.old.items ++ remark_text remark.now) }
{
    put_amounts(out, remark.what)?;
    out.extend_from_slice(b",\"line\":")?;
    put_decimal(out, remark.line)?;
    out.extend_from_slice(b",\"record\":")?;
    put_type(out, remark.rtype)?;
    out.extend_from_slice(b",\"text\":")?;
    put_remark_text(out, buffer, remark.what)?;
    out.extend_from_slice(b"}")?;
    Ok(())
}

/// Appends the numbers of a remark, with null for each that it does not have, and between them what it is, in a word or
/// a few.
fn put_amounts(out: &mut Vec<u8>, what: Remarked) -> Result<(), Memory>
    ensures { OnOk result (out.new.items ≡ out.old.items ++ amounts_text what) }
{
    let (count, first, layout, length) = amounts_in(what);
    out.extend_from_slice(b"{\"count\":")?;
    put_option(out, count)?;
    out.extend_from_slice(b",\"first\":")?;
    put_option(out, first)?;
    out.extend_from_slice(b",\"kind\":")?;
    put_json_text(out, kind_text(what))?;
    out.extend_from_slice(b",\"layout\":")?;
    put_option(out, layout)?;
    out.extend_from_slice(b",\"length\":")?;
    put_option(out, length)?;
    Ok(())
}

/// Appends the words of a remark. `buffer` is a scratch buffer for texts. Bytes of the file stand as they are.
fn put_remark_text(out: &mut Vec<u8>, buffer: &mut Vec<u8>, what: Remarked) -> Result<(), Memory>
    ensures { OnOk result (out.new.items ≡ out.old.items ++ string_text (what_text what)) }
{
    buffer.clear();
    put_what(buffer, what, false)?;
    put_json_text(out, buffer)?;
    Ok(())
}

/// What is remarked, in a word or a few.
fn kind_text(what: Remarked) -> &'static [u8]
    ensures { result.now ≡ kind_text what }
{
    match what {
        Remarked::ByteOrderMark => b"byte order mark",
        Remarked::Utf16 => b"UTF-16",
        Remarked::Gzip => b"gzip",
        Remarked::SecondFile => b"second file",
        Remarked::CwrVersion(_) => b"CWR version",
        Remarked::SenderType(_) => b"sender type",
        Remarked::HighBytes { .. } => b"high bytes",
        Remarked::PastLayout { .. } => b"past layout",
        Remarked::UnknownType => b"unknown type",
        Remarked::OnlyExcluded => b"only exclusions",
    }
}

/// The numbers of a remark, in this order: the number of bytes, the position of the first of them, where the layout
/// ends, and the length of the line.
fn amounts_in(what: Remarked) -> (Option<u64>, Option<u64>, Option<u64>, Option<u64>)
    ensures count { result.0 ≡ count_in what }
    ensures first { result.1 ≡ first_in what }
    ensures layout { result.2 ≡ layout_in what }
    ensures length { result.3 ≡ length_in what }
{
    match what {
        Remarked::HighBytes { first, count } => (Some(count), Some(first), None, None),
        Remarked::PastLayout { length, layout } => (None, None, Some(layout), Some(length)),
        _ => (None, None, None, None),
    }
}
