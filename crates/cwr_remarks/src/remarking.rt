ghost use Rattle.std.specs.Prelude.{◌≡◌, ◌≤◌, ◌++◌, ℕ, IfOk, OnOk, Some};
ghost use Rattle.std.specs.Str.Lines.{lines};
ghost use Rattle.cwr_record.specs.RecordTypes.{type_of};
ghost use Rattle.cwr_remarks.specs.OnLine.{remark_on};
ghost use Rattle.cwr_remarks.specs.Remarks.{remarks_on, remarks_from, remarks_to};
ghost use Rattle.cwr_remarks.specs.Typed.{left, looked_at, IsTyped};

use crate::high_bytes::high_bytes;
use crate::layouts::past_layout;
use crate::remark::{Remark, Remarked};
use crate::territories::{has_territories, only_excluded};
use crate::typed::{Typed, next_typed};
use crate::types::unknown_type;
use cwr_field::Memory;
use cwr_grammar::Lines;
use cwr_record::{RecordType, field_at};
use std::alloc::Allocator;

/// The remarks on the lines of a text, in the order of the lines, each once.
///
/// Those on one line come in this order: bytes above 126 (the position of the first, and their number), a length beyond
/// the layout of its record, a record type that CWR 2.2 does not have, and that all territories of an SPU or SWR are
/// exclusions. The SPT of an SPU are those after it, up to the next SPU or the end of the transaction, as for rule J8;
/// the SWT of an SWR likewise. Remarks on the file itself are not among them. If an allocation fails, the result is
/// `Memory` alone.
pub fn remarks<A: Allocator>(alloc: A, text: &[u8]) -> Result<Vec<Remark, A>, Memory>
    ensures { IfOk result (λ found. found.items ≡ remarks_from 1 (lines text.now)) }
{
    let mut found = Vec::new(alloc);
    push_remarks(&mut found, text)?;
    Ok(found)
}

/// The remarks on the lines of a text before the one with this number, counted from 1.
///
/// If a file is refused, these are the remarks on the lines before the faulty one. If an allocation fails, the result
/// is `Memory` alone.
pub fn remarks_before<A: Allocator>(
    alloc: A,
    text: &[u8],
    end: u64,
) -> Result<Vec<Remark, A>, Memory>
    ensures { IfOk result (λ found. found.items ≡ remarks_to end 1 (lines text.now)) }
{
    let mut found = Vec::new(alloc);
    push_remarks_before(&mut found, text, end)?;
    Ok(found)
}

/// Appends the remarks on the lines of a text.
pub(crate) fn push_remarks<A: Allocator>(
    found: &mut Vec<Remark, A>,
    text: &[u8],
) -> Result<(), Memory>
    ensures { OnOk result (found.new.items ≡ found.old.items ++ remarks_from 1 (lines text.now)) }
{
    push_remarks_before(found, text, u64::MAX)
}

/// Appends those on the lines before the one with this number.
pub(crate) fn push_remarks_before<A: Allocator>(
    found: &mut Vec<Remark, A>,
    text: &[u8],
    end: u64,
) -> Result<(), Memory>
    ensures { OnOk result (found.new.items ≡ found.old.items ++ remarks_to end 1 (lines text.now)) }
{
    if end <= 1 {
        return Ok(());
    }
    let mut rest = Lines::of(text);
    let first = next_typed(&mut rest);
    let (last, rest) = push_remarks_to(found, 1, end - 1, first, rest)?;
    // What is behind the last line that is asked for may be long, and is seldom needed.
    let rest = looked_at(last, rest);
    push_remarks_to(found, end - 1, end, last, rest)?;
    Ok(())
}

/// Appends the remarks on the lines from number `first` up to `last`, without that one. `found` is the list so far.
/// `taken` is line `first`, if there is one, and `behind` has the lines after it. Returns line `last`, if there is one,
/// and the lines behind it.
fn push_remarks_to<'a, A: Allocator>(
    found: &mut Vec<Remark, A>,
    first: u64,
    last: u64,
    taken: Option<Typed<'a>>,
    behind: Lines<'a>,
) -> Result<(Option<Typed<'a>>, Lines<'a>), Memory>
    requires inside { first ≤ last }
    requires taken { IsTyped taken }
    ensures found { (end : ℕ) → last ≤ end → IfOk result (λ now. found.new.items ++ remarks_to end last (left now.0 now.1) ≡ found.old.items ++ remarks_to end first (left taken.entry behind.entry)) }
    ensures typed { IfOk result (λ now. IsTyped now.0) }
{
    let mut rest = behind;
    let mut next = taken;
    let mut number = first;
    while number < last {
        let Some(line) = next else {
            return Ok((None, rest));
        };
        next = next_typed(&mut rest);
        push_remarks_on(found, number, line, next, &rest)?;
        number += 1;
    }
    Ok((next, rest))
}

/// The lines behind the last one, if a remark on it depends on them. Else they are not looked at.
fn looked_at<'a>(last: Option<Typed>, behind: Lines<'a>) -> Lines<'a>
    ensures { result ≡ looked_at last.entry behind.entry }
{
    match last {
        Some(last) if has_territories(last.record_type) => behind,
        _ => Lines::of(b""),
    }
}

/// Appends the remarks on a line. `found` is the list so far, `number` the line's number, from 1, and `taken` the line.
/// `next` is the line after it, if there is one, and `after` has the lines behind that.
fn push_remarks_on<A: Allocator>(
    found: &mut Vec<Remark, A>,
    number: u64,
    taken: Typed,
    next: Option<Typed>,
    after: &Lines,
) -> Result<(), Memory>
    requires taken { taken.record_type ≡ type_of taken.line.now }
    requires next { IsTyped next }
    ensures { OnOk result (found.new.items ≡ found.old.items ++ remarks_on number taken.entry.line.now (left next.entry after.now)) }
{
    let Typed { line, record_type } = taken;
    push_remark(found, number, line, high_bytes(line))?;
    push_remark(found, number, line, past_layout(line.len(), record_type))?;
    push_remark(found, number, line, unknown_type(record_type, line))?;
    push_remark(
        found,
        number,
        line,
        only_excluded(record_type, next, after)?,
    )?;
    Ok(())
}

/// Appends a remark on a line with this number, if there is something to remark.
#[inline(always)]
pub(crate) fn push_remark<A: Allocator>(
    found: &mut Vec<Remark, A>,
    number: u64,
    line: &[u8],
    what: Option<Remarked>,
) -> Result<(), Memory>
    ensures { OnOk result (found.new.items ≡ found.old.items ++ remark_on number line.now what) }
{
    match what {
        None => Ok(()),
        Some(what) => push_remarked(found, number, line, what),
    }
}

/// Appends what is remarked of a line with this number.
fn push_remarked<A: Allocator>(
    found: &mut Vec<Remark, A>,
    number: u64,
    line: &[u8],
    what: Remarked,
) -> Result<(), Memory>
    ensures { OnOk result (found.new.items ≡ found.old.items ++ remark_on number line.now (Some what)) }
{
    found.push(Remark {
        line: number,
        rtype: Some(field_at(line, RecordType::COLUMN).bytes()),
        what,
    })?;
    Ok(())
}
