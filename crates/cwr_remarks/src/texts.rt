ghost use Rattle.std.specs.Prelude.{◌≡◌, ◌++◌, OnOk};
ghost use Rattle.report_texts.specs.Shown.{bytes_as_printed};
ghost use Rattle.cwr_remarks.specs.Texts.{high_text, past_text, version_text, sender_text, what_as, line_text, type_text, remark_text, remarks_text};

use crate::remark::{Remark, Remarked};
use cwr_field::{Memory, put_decimal};
use report_texts::{put_bytes, put_shown, put_text};
use std::alloc::Allocator;

/// Appends a line for each remark, with LF at its end: the number of the file's line, the record type if there is one,
/// and the remark.
///
/// A byte of the file below 32 or above 126 is shown as `\xEF`, as by [`put_shown`]. An allocation failure may leave
/// some of the lines, and a part of the next.
pub fn put_remarks<A: Allocator>(out: &mut Vec<u8, A>, remarks: &[Remark]) -> Result<(), Memory>
    ensures { OnOk result (out.new.items ≡ out.old.items ++ remarks_text remarks.now) }
{
    for remark in remarks {
        put_remark(out, remark)?;
    }
    Ok(())
}

/// Appends the line of a remark.
fn put_remark<A: Allocator>(out: &mut Vec<u8, A>, remark: &Remark) -> Result<(), Memory>
    ensures { OnOk result (out.new.items ≡ out.old.items ++ remark_text remark.now) }
{
    put_line(out, remark.line)?;
    put_type(out, remark.rtype)?;
    put_what(out, remark.what, true)?;
    out.extend_from_slice(b"\n")?;
    Ok(())
}

/// Appends the number of the line that the remark is on.
fn put_line<A: Allocator>(out: &mut Vec<u8, A>, number: u64) -> Result<(), Memory>
    ensures { OnOk result (out.new.items ≡ out.old.items ++ line_text number) }
{
    out.extend_from_slice(b"remark, line ")?;
    put_decimal(out, number)?;
    out.extend_from_slice(b": ")?;
    Ok(())
}

/// Appends a record type, if there is one.
fn put_type<A: Allocator>(out: &mut Vec<u8, A>, rtype: Option<[u8; 3]>) -> Result<(), Memory>
    ensures { OnOk result (out.new.items ≡ out.old.items ++ type_text rtype) }
{
    let Some(rtype) = rtype else {
        return Ok(());
    };
    put_shown(out, &rtype)?;
    out.extend_from_slice(b": ")?;
    Ok(())
}

/// Appends the words of a remark. Bytes of the file are escaped if `shows` is true, else they stand as they are.
pub fn put_what<A: Allocator>(
    out: &mut Vec<u8, A>,
    what: Remarked,
    shows: bool,
) -> Result<(), Memory>
    ensures { OnOk result (out.new.items ≡ out.old.items ++ what_as shows what) }
{
    match what {
        Remarked::ByteOrderMark => put_text(
            out,
            b"the file begins with a byte order mark of UTF-8, which is no part of CWR; write it without one",
        ),
        Remarked::Utf16 => put_text(
            out,
            b"the file is UTF-16, which has two bytes for a letter; write it in ASCII, with one byte for a letter",
        ),
        Remarked::Gzip => put_text(
            out,
            b"the file is compressed by gzip; unpack it, and send what is in it",
        ),
        Remarked::SecondFile => put_text(
            out,
            b"a second file begins here; send each file by itself",
        ),
        Remarked::CwrVersion(version) => put_version(out, version, shows),
        Remarked::SenderType(kind) => put_sender(out, kind, shows),
        Remarked::HighBytes { first, count } => put_high(out, first, count),
        Remarked::PastLayout { length, layout } => put_past(out, length, layout),
        Remarked::UnknownType => put_text(
            out,
            b"CWR 2.2 has no record of this type; it is carried, and nothing more of it is read",
        ),
        Remarked::OnlyExcluded => put_text(
            out,
            b"all its territories are exclusions, and none is an inclusion: it collects nowhere",
        ),
    }
}

fn put_version<A: Allocator>(
    out: &mut Vec<u8, A>,
    version: [u8; 3],
    shows: bool,
) -> Result<(), Memory>
    ensures { OnOk result (out.new.items ≡ out.old.items ++ version_text (bytes_as_printed shows version)) }
{
    out.extend_from_slice(b"CWR version \"")?;
    put_bytes(out, &version, shows)?;
    out.extend_from_slice(b"\"; the file is read as CWR 2.2")?;
    Ok(())
}

fn put_sender<A: Allocator>(out: &mut Vec<u8, A>, kind: [u8; 2], shows: bool) -> Result<(), Memory>
    ensures { OnOk result (out.new.items ≡ out.old.items ++ sender_text (bytes_as_printed shows kind)) }
{
    out.extend_from_slice(b"sender type \"")?;
    put_bytes(out, &kind, shows)?;
    out.extend_from_slice(
        b"\"; CWR has PB, AA, SO or WR there, or the first two digits of a number of more than nine",
    )?;
    Ok(())
}

fn put_high<A: Allocator>(out: &mut Vec<u8, A>, first: u64, count: u64) -> Result<(), Memory>
    ensures { OnOk result (out.new.items ≡ out.old.items ++ high_text first count) }
{
    out.extend_from_slice(b"bytes above 126: ")?;
    put_decimal(out, count)?;
    out.extend_from_slice(b", the first at position ")?;
    put_decimal(out, first)?;
    out.extend_from_slice(
        b"; an accented letter has two bytes in UTF-8, and shifts the rest of its line by one where its field is filled up in letters",
    )?;
    Ok(())
}

fn put_past<A: Allocator>(out: &mut Vec<u8, A>, length: u64, layout: u64) -> Result<(), Memory>
    ensures { OnOk result (out.new.items ≡ out.old.items ++ past_text length layout) }
{
    out.extend_from_slice(b"length ")?;
    put_decimal(out, length)?;
    out.extend_from_slice(b", and the layout ends at ")?;
    put_decimal(out, layout)?;
    out.extend_from_slice(b"; what stands after that is not read")?;
    Ok(())
}
