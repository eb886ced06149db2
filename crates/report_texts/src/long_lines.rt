ghost use Rattle.std.specs.Prelude.{◌≡◌, ◌++◌, OnOk};
ghost use Rattle.report_texts.specs.LongText.{stands_at, spot_text, spots_text, percent_text, followers_text, after_text, digit_text, party_text, ownership_text, collection_text, collected_text, wanted_as, record_text, transaction_text, message_of, broken_text, fault_report};
ghost use Rattle.report_texts.specs.Shown.{bytes_as_printed};

use crate::file_lines::{put_counted, put_detail};
use crate::shown::{put_bytes, put_shown};
use crate::words::{followers_text, name_text, rule_text};
use cwr_acknowledgement::message_text;
use cwr_field::{Memory, put_decimal, put_digits, put_number};
use cwr_record::Column;
use cwr_report::{Expected, Finding, Spot};
use cwr_rules::{Over, Totals};
use std::alloc::Allocator;

/// Appends the report on a fault in a line.
pub(crate) fn put_finding<A: Allocator>(
    out: &mut Vec<u8, A>,
    line: &[u8],
    finding: &Finding,
) -> Result<(), Memory>
    ensures { OnOk result (out.new.items ≡ out.old.items ++ fault_report line.now finding.now) }
{
    put_record(out, finding)?;
    put_broken(out, finding.fault.number)?;
    put_spots(out, line, &finding.fields)?;
    out.extend_from_slice(b"  expected: ")?;
    put_wanted(out, finding.fault.number, &finding.expected, true)?;
    out.extend_from_slice(b"\n")?;
    Ok(())
}

/// Appends the line, the record and the transaction in which the fault is.
fn put_record<A: Allocator>(out: &mut Vec<u8, A>, finding: &Finding) -> Result<(), Memory>
    ensures { OnOk result (out.new.items ≡ out.old.items ++ (record_text finding.now ++ transaction_text finding.now)) }
{
    put_counted(out, b"line ", finding.line)?;
    out.extend_from_slice(b": ")?;
    put_detail(
        out,
        &finding.fault.rtype,
        finding.group as u64,
        finding.transaction as u64,
        finding.fault.sequence as u64,
    )?;
    Ok(())
}

/// Appends the rule's number and text.
fn put_broken<A: Allocator>(out: &mut Vec<u8, A>, number: u8) -> Result<(), Memory>
    ensures { OnOk result (out.new.items ≡ out.old.items ++ broken_text number) }
{
    put_counted(out, b": J", number as u64)?;
    out.extend_from_slice(b" ")?;
    out.extend_from_slice(message_of(number))?;
    out.extend_from_slice(b"\n")?;
    Ok(())
}

/// The text of the rule J with this number, as in a MSG record; no text if there is no such rule.
pub fn message_of(number: u8) -> &'static [u8]
    ensures { result.now ≡ message_of number }
{
    if 1 <= number && number <= 15 {
        message_text(number)
    } else {
        b""
    }
}

pub(crate) fn put_spots<A: Allocator>(
    out: &mut Vec<u8, A>,
    line: &[u8],
    spots: &[Option<Spot>],
) -> Result<(), Memory>
    ensures { OnOk result (out.new.items ≡ out.old.items ++ spots_text line.now spots.now) }
{
    for spot in spots {
        put_spot(out, line, spot)?;
    }
    Ok(())
}

/// Appends a field: its name, where it stands, and what stands there.
fn put_spot<A: Allocator>(
    out: &mut Vec<u8, A>,
    line: &[u8],
    spot: &Option<Spot>,
) -> Result<(), Memory>
    ensures { OnOk result (out.new.items ≡ out.old.items ++ spot_text line.now spot.now) }
{
    let Some(spot) = *spot else {
        return Ok(());
    };
    out.extend_from_slice(b"  ")?;
    out.extend_from_slice(name_text(spot.name))?;
    out.extend_from_slice(b", start ")?;
    put_decimal(out, spot.column.start as u64)?;
    out.extend_from_slice(b", length ")?;
    put_number(out, spot.column.width as u64)?;
    out.extend_from_slice(b": \"")?;
    put_shown(out, stands_at(line, spot.column))?;
    out.extend_from_slice(b"\"\n")?;
    Ok(())
}

/// The bytes that a line has in a column; fewer if the line ends before the column does.
pub fn stands_at(line: &[u8], column: Column) -> &[u8]
    ensures { result.now ≡ stands_at line.now column }
{
    let rest = line.get(column.start.saturating_sub(1)..).unwrap_or(&[]);
    rest.get(..column.width).unwrap_or(rest)
}

/// Appends what the rule with this number required. `shows` says whether bytes of the file are escaped or stand as they
/// are.
pub fn put_wanted<A: Allocator>(
    out: &mut Vec<u8, A>,
    number: u8,
    expected: &Expected,
    shows: bool,
) -> Result<(), Memory>
    ensures { OnOk result (out.new.items ≡ out.old.items ++ wanted_as shows number expected.now) }
{
    match *expected {
        Expected::Rule => put_text(out, rule_text(number)),
        Expected::FollowerOf(leading) => put_followers(out, leading, shows),
        Expected::CheckDigit(digit) => put_digit(out, digit),
        Expected::Party(party) => put_party(out, party, shows),
        Expected::Ownership(total) => put_ownership(out, total),
        Expected::Collection(over) => put_collection(out, over),
    }
}

/// Appends a text as it stands.
pub fn put_text<A: Allocator>(out: &mut Vec<u8, A>, text: &[u8]) -> Result<(), Memory>
    ensures { OnOk result (out.new.items ≡ out.old.items ++ text.now) }
{
    out.extend_from_slice(text)?;
    Ok(())
}

fn put_followers<A: Allocator>(
    out: &mut Vec<u8, A>,
    leading: [u8; 3],
    shows: bool,
) -> Result<(), Memory>
    ensures { OnOk result (out.new.items ≡ out.old.items ++ after_text (bytes_as_printed shows leading) (followers_text leading)) }
{
    out.extend_from_slice(b"after ")?;
    put_bytes(out, &leading, shows)?;
    out.extend_from_slice(b": ")?;
    out.extend_from_slice(followers_text(leading))?;
    Ok(())
}

fn put_digit<A: Allocator>(out: &mut Vec<u8, A>, digit: u8) -> Result<(), Memory>
    ensures { OnOk result (out.new.items ≡ out.old.items ++ digit_text digit) }
{
    out.extend_from_slice(b"T, these nine digits and their check digit ")?;
    put_decimal(out, digit as u64)?;
    Ok(())
}

fn put_party<A: Allocator>(out: &mut Vec<u8, A>, party: [u8; 9], shows: bool) -> Result<(), Memory>
    ensures { OnOk result (out.new.items ≡ out.old.items ++ party_text (bytes_as_printed shows party)) }
{
    out.extend_from_slice(b"\"")?;
    put_bytes(out, &party, shows)?;
    out.extend_from_slice(b"\"")?;
    Ok(())
}

fn put_ownership<A: Allocator>(out: &mut Vec<u8, A>, total: u64) -> Result<(), Memory>
    ensures { OnOk result (out.new.items ≡ out.old.items ++ ownership_text total) }
{
    out.extend_from_slice(b"0, or from 99.94 to 100.06 per cent; the shares add up to ")?;
    put_percent(out, total)?;
    Ok(())
}

fn put_collection<A: Allocator>(out: &mut Vec<u8, A>, over: Over) -> Result<(), Memory>
    ensures { OnOk result (out.new.items ≡ out.old.items ++ collection_text over) }
{
    out.extend_from_slice(b"at most 100.06 per cent; in territory ")?;
    put_decimal(out, over.territory as u64)?;
    out.extend_from_slice(b" the shares add up to ")?;
    put_collected(out, over.totals)?;
    Ok(())
}

fn put_collected<A: Allocator>(out: &mut Vec<u8, A>, totals: Totals) -> Result<(), Memory>
    ensures { OnOk result (out.new.items ≡ out.old.items ++ collected_text totals) }
{
    out.extend_from_slice(b"PR ")?;
    put_percent(out, totals.performing)?;
    out.extend_from_slice(b", MR ")?;
    put_percent(out, totals.mechanical)?;
    out.extend_from_slice(b", SR ")?;
    put_percent(out, totals.synchronization)?;
    Ok(())
}

/// Appends hundredths of one per cent in per cent, with two places.
fn put_percent<A: Allocator>(out: &mut Vec<u8, A>, hundredths: u64) -> Result<(), Memory>
    ensures { OnOk result (out.new.items ≡ out.old.items ++ percent_text hundredths) }
{
    put_decimal(out, hundredths / 100)?;
    out.extend_from_slice(b".")?;
    put_digits(out, hundredths % 100, 2)?;
    Ok(())
}
