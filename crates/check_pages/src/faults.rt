//! Faults: their rules, their fields, and what was expected.

ghost use Rattle.std.specs.Prelude.{◌≡◌, ◌++◌, OnOk};
ghost use Rattle.html_text.specs.Pieces.{byte_text, page_text};
ghost use Rattle.check_pages.specs.Faults.{byte_pieces, byte_place_pieces, count_pieces, expected_pieces, fault_pieces, field_pieces, fields_pieces, file_fault_pieces, head_pieces, next_pieces, id_pieces, link_pieces, name_pieces, rule_pieces, spot_pieces, standing_pieces};

use crate::boxes::MOST_PLACES;
use cwr_field::Memory;
use cwr_record::Column;
use cwr_report::{FileFinding, Finding, Spot, WrongByte};
use html_text::{
    Fragment, put, put_beyond, put_byte, put_field_shown, put_number, put_shown, put_text,
};
use report_texts::{file_rule_text, message_of, name_text, put_file_wanted, put_wanted, stands_at};
use std::alloc::Allocator;

/// The letter of the rules of transactions.
pub(crate) const OF_TRANSACTIONS: u8 = b'J';

/// The letter of the rules of files.
pub(crate) const OF_FILES: u8 = b'F';

/// Which of the faults of a rule a fault is.
#[derive(Clone, Copy)]
pub(crate) struct Nth {
    /// The letter of the rule.
    pub(crate) letter: u8,
    /// The number of the rule.
    pub(crate) number: u8,
    /// Which one it is, from 1.
    pub(crate) k: u64,
    /// How many there are.
    pub(crate) total: u64,
}

/// Appends a fault of a transaction. `text` is a buffer, and `line` has the bytes of the faulty line. The fault is the
/// `k`-th of `total` faults of its rule.
#[tactic(auto, using(html_text::proofs::lemmas::Pages::page_append), unfolding(crate::specs::Faults::fault_pieces))]
pub(crate) fn put_fault<A: Allocator>(
    out: &mut Vec<u8, A>,
    text: &mut Vec<u8, A>,
    line: &[u8],
    finding: &Finding,
    k: u64,
    total: u64,
) -> Result<(), Memory>
    ensures { OnOk result (out.new.items ≡ out.old.items ++ page_text (fault_pieces line.now finding.now k total)) }
{
    let number = finding.fault.number;
    let nth = Nth {
        letter: OF_TRANSACTIONS,
        number,
        k,
        total,
    };
    put_head(out, nth, message_of(number))?;
    put_fields(out, line, &finding.fields)?;
    text.clear();
    put_wanted(text, number, &finding.expected, false)?;
    put_expected(out, text)
}

/// Appends the fault for which a file is refused. `text` is a buffer, and `line` has the bytes of the faulty line.
#[tactic(auto, using(html_text::proofs::lemmas::Pages::page_append), unfolding(crate::specs::Faults::file_fault_pieces))]
pub(crate) fn put_file_fault<A: Allocator>(
    out: &mut Vec<u8, A>,
    text: &mut Vec<u8, A>,
    line: &[u8],
    finding: &FileFinding,
) -> Result<(), Memory>
    ensures { OnOk result (out.new.items ≡ out.old.items ++ page_text (file_fault_pieces line.now finding.now)) }
{
    let nth = Nth {
        letter: OF_FILES,
        number: finding.number,
        k: 1,
        total: 1,
    };
    put_head(out, nth, file_rule_text(finding.number))?;
    put_wrong_byte(out, &finding.byte)?;
    put_fields(out, line, &finding.fields)?;
    text.clear();
    put_file_wanted(text, &finding.expected)?;
    put_expected(out, text)
}

/// Appends the heading of a fault.
#[tactic(auto, using(html_text::proofs::lemmas::Pages::page_append), unfolding(crate::specs::Faults::head_pieces))]
fn put_head<A: Allocator>(out: &mut Vec<u8, A>, nth: Nth, text: &[u8]) -> Result<(), Memory>
    ensures { OnOk result (out.new.items ≡ out.old.items ++ page_text (head_pieces nth.letter nth.number nth.k nth.total text.now)) }
{
    put_id(out, nth)?;
    put_link(out, nth)?;
    put_text(out, text)?;
    put_count(out, nth)?;
    put(out, Fragment::H4End)
}

/// Appends the beginning of a heading, by which links find it.
#[tactic(auto, using(html_text::proofs::lemmas::Pages::page_append), unfolding(crate::specs::Faults::id_pieces))]
fn put_id<A: Allocator>(out: &mut Vec<u8, A>, nth: Nth) -> Result<(), Memory>
    ensures { OnOk result (out.new.items ≡ out.old.items ++ page_text (id_pieces nth.letter nth.number nth.k)) }
{
    put(out, Fragment::Fault)?;
    put_rule(out, nth.letter, nth.number)?;
    put(out, Fragment::Dot)?;
    put_number(out, nth.k)
}

/// Appends a link to the rule in the index by rule.
#[tactic(auto, using(html_text::proofs::lemmas::Pages::page_append), unfolding(crate::specs::Faults::link_pieces))]
fn put_link<A: Allocator>(out: &mut Vec<u8, A>, nth: Nth) -> Result<(), Memory>
    ensures { OnOk result (out.new.items ≡ out.old.items ++ page_text (link_pieces nth.letter nth.number)) }
{
    put(out, Fragment::FaultRule)?;
    put_rule(out, nth.letter, nth.number)?;
    put(out, Fragment::To)?;
    put_rule(out, nth.letter, nth.number)?;
    put(out, Fragment::FaultText)
}

/// Appends the name of a rule.
#[tactic(auto, using(html_text::proofs::lemmas::Pages::page_append), unfolding(crate::specs::Faults::rule_pieces))]
pub(crate) fn put_rule<A: Allocator>(
    out: &mut Vec<u8, A>,
    letter: u8,
    number: u8,
) -> Result<(), Memory>
    ensures { OnOk result (out.new.items ≡ out.old.items ++ page_text (rule_pieces letter number)) }
{
    put_letter(out, letter)?;
    put_number(out, number as u64)
}

/// Appends the letter of a rule. That of transactions, which most have, is pushed without a look at what it is.
#[inline(always)]
fn put_letter<A: Allocator>(out: &mut Vec<u8, A>, letter: u8) -> Result<(), Memory>
    ensures { OnOk result (out.new.items ≡ out.old.items ++ byte_text letter) }
{
    if letter == OF_TRANSACTIONS {
        out.push(OF_TRANSACTIONS)?;
        return Ok(());
    }
    put_byte(out, letter)
}

/// Appends which of the faults of its rule it is, if there are several.
#[tactic(auto, using(html_text::proofs::lemmas::Pages::page_append), unfolding(crate::specs::Faults::count_pieces))]
fn put_count<A: Allocator>(out: &mut Vec<u8, A>, nth: Nth) -> Result<(), Memory>
    ensures { OnOk result (out.new.items ≡ out.old.items ++ page_text (count_pieces nth.letter nth.number nth.k nth.total)) }
{
    if nth.total <= 1 {
        return Ok(());
    }
    put(out, Fragment::FaultOf)?;
    put_number(out, nth.k)?;
    put(out, Fragment::Of)?;
    put_number(out, nth.total)?;
    put_next(out, nth)
}

/// Appends a link to the next fault of the rule, if there is one.
#[tactic(auto, using(html_text::proofs::lemmas::Pages::page_append), unfolding(crate::specs::Faults::next_pieces))]
fn put_next<A: Allocator>(out: &mut Vec<u8, A>, nth: Nth) -> Result<(), Memory>
    ensures { OnOk result (out.new.items ≡ out.old.items ++ page_text (next_pieces nth.letter nth.number nth.k nth.total)) }
{
    if nth.k >= nth.total {
        return put(out, Fragment::FaultSmallEnd);
    }
    put(out, Fragment::FaultNext)?;
    put_rule(out, nth.letter, nth.number)?;
    put(out, Fragment::Dot)?;
    put_number(out, nth.k + 1)?;
    put(out, Fragment::FaultNextEnd)?;
    put_rule(out, nth.letter, nth.number)?;
    put(out, Fragment::FaultNextClose)
}

/// Appends the fields that break a rule.
#[tactic(auto, using(html_text::proofs::lemmas::Pages::page_append))]
fn put_fields<A: Allocator>(
    out: &mut Vec<u8, A>,
    line: &[u8],
    spots: &[Option<Spot>],
) -> Result<(), Memory>
    ensures { OnOk result (out.new.items ≡ out.old.items ++ page_text (fields_pieces line.now spots.now)) }
{
    for spot in spots {
        put_field(out, line, spot)?;
    }
    Ok(())
}

/// Appends a field, if there is one.
fn put_field<A: Allocator>(
    out: &mut Vec<u8, A>,
    line: &[u8],
    spot: &Option<Spot>,
) -> Result<(), Memory>
    ensures { OnOk result (out.new.items ≡ out.old.items ++ page_text (field_pieces line.now spot.now)) }
{
    match spot {
        None => Ok(()),
        Some(spot) => put_spot(out, line, *spot),
    }
}

/// Appends a field.
#[tactic(auto, using(html_text::proofs::lemmas::Pages::page_append), unfolding(crate::specs::Faults::spot_pieces))]
fn put_spot<A: Allocator>(out: &mut Vec<u8, A>, line: &[u8], spot: Spot) -> Result<(), Memory>
    ensures { OnOk result (out.new.items ≡ out.old.items ++ page_text (spot_pieces line.now spot)) }
{
    put_name(out, spot)?;
    put(out, Fragment::FieldBytes)?;
    put_standing(out, line, spot.column)?;
    put(out, Fragment::FieldEnd)
}

/// Appends what a field is called, and where it stands.
#[tactic(auto, using(html_text::proofs::lemmas::Pages::page_append), unfolding(crate::specs::Faults::name_pieces))]
fn put_name<A: Allocator>(out: &mut Vec<u8, A>, spot: Spot) -> Result<(), Memory>
    ensures { OnOk result (out.new.items ≡ out.old.items ++ page_text (name_pieces spot)) }
{
    put(out, Fragment::Field)?;
    put_text(out, name_text(spot.name))?;
    put(out, Fragment::FieldStart)?;
    put_number(out, spot.column.start as u64)?;
    put(out, Fragment::FieldLength)?;
    put_number(out, spot.column.width as u64)
}

/// Appends what stands in a column, with a sign for each place that the line has not.
#[tactic(auto, using(html_text::proofs::lemmas::Pages::page_append), unfolding(crate::specs::Faults::standing_pieces))]
fn put_standing<A: Allocator>(
    out: &mut Vec<u8, A>,
    line: &[u8],
    column: Column,
) -> Result<(), Memory>
    ensures { OnOk result (out.new.items ≡ out.old.items ++ page_text (standing_pieces line.now column)) }
{
    let standing = stands_at(line, column);
    put_field_shown(out, standing)?;
    put_beyond(out, column.width.saturating_sub(standing.len()))
}

/// Appends the wrong byte, if there is one.
#[tactic(auto, using(html_text::proofs::lemmas::Pages::page_append), unfolding(crate::specs::Faults::byte_pieces))]
fn put_wrong_byte<A: Allocator>(
    out: &mut Vec<u8, A>,
    wrong: &Option<WrongByte>,
) -> Result<(), Memory>
    ensures { OnOk result (out.new.items ≡ out.old.items ++ page_text (byte_pieces wrong.now)) }
{
    let Some(wrong) = *wrong else {
        return Ok(());
    };
    put(out, Fragment::Byte)?;
    put_number(out, wrong.byte as u64)?;
    put_byte_place(out, wrong.in_line)?;
    put_number(out, wrong.in_file as u64)?;
    put(out, Fragment::ByteEnd)
}

/// Appends where the wrong byte stands in its line, with a link to it if its box shows that place.
#[tactic(auto, using(html_text::proofs::lemmas::Pages::page_append), unfolding(crate::specs::Faults::byte_place_pieces))]
fn put_byte_place<A: Allocator>(out: &mut Vec<u8, A>, place: usize) -> Result<(), Memory>
    ensures { OnOk result (out.new.items ≡ out.old.items ++ page_text (byte_place_pieces place)) }
{
    if place > MOST_PLACES {
        put(out, Fragment::ByteBehind)?;
        put_number(out, place as u64)?;
        return put(out, Fragment::ByteBehindEnd);
    }
    put(out, Fragment::ByteLine)?;
    put_number(out, place as u64)?;
    put(out, Fragment::ByteLineEnd)
}

/// Appends what was expected.
#[tactic(auto, using(html_text::proofs::lemmas::Pages::page_append), unfolding(crate::specs::Faults::expected_pieces))]
fn put_expected<A: Allocator>(out: &mut Vec<u8, A>, text: &[u8]) -> Result<(), Memory>
    ensures { OnOk result (out.new.items ≡ out.old.items ++ page_text (expected_pieces text.now)) }
{
    put(out, Fragment::Expected)?;
    put_shown(out, text)?;
    put(out, Fragment::PEnd)
}
