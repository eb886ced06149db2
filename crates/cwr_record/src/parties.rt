ghost use Rattle.std.specs.Prelude.{◌≡◌, ◌≤◌, ◌||◌, length, slice_index, IsTrue};
ghost use Rattle.cwr_field.specs.Layout.{party_of};
ghost use Rattle.cwr_record.specs.Columns.{field_at, link_publisher_party};
ghost use Rattle.cwr_record.specs.Parties.{has_ownership, has_collection, party_column, ownership_columns, collection_columns, indicator_column, territory_column, shares_at};
ghost use Rattle.cwr_record.specs.Ranges.{is_in_line};
ghost use Rattle.cwr_record.specs.Territory.{territory_of, without_leading, without_trailing, some_number};

use crate::columns::{Column, field_at};
use crate::publishers::{Publisher, PublisherTerritory};
use crate::record_type::RecordType;
use crate::writers::{Link, Writer, WriterTerritory};
use cwr_field::{cut, digits, number_of_four, party, share};

/// The shares of a line in these columns.
#[inline(always)]
fn shares_at(
    line: &[u8],
    performing: Column,
    mechanical: Column,
    synchronization: Column,
) -> [Option<u16>; 3]
    requires performing { IsTrue (is_in_line performing) × (performing.width ≡ 5) }
    requires mechanical { IsTrue (is_in_line mechanical) × (mechanical.width ≡ 5) }
    requires synchronization { IsTrue (is_in_line synchronization) × (synchronization.width ≡ 5) }
    ensures { result ≡ shares_at line.now (record { performing = performing; mechanical = mechanical; synchronization = synchronization }) }
{
    [
        share(field_at(line, performing)),
        share(field_at(line, mechanical)),
        share(field_at(line, synchronization)),
    ]
}

/// The interested party number of an SPU, OPU, SPT, SWR, OWR or SWT line of that type: its nine bytes, or `None`
/// where they are blank.
pub fn party_of(line: &[u8], record_type: RecordType) -> Option<[u8; 9]>
    requires { IsTrue (has_ownership record_type || has_collection record_type) }
    ensures { result ≡ party_of (field_at line.now (party_column record_type)) }
{
    let column = match record_type {
        RecordType::Spu | RecordType::Opu => Publisher::PARTY,
        RecordType::Spt => PublisherTerritory::PARTY,
        RecordType::Swt => WriterTerritory::PARTY,
        _ => Writer::PARTY,
    };
    party(field_at(line, column))
}

/// The ownership shares of an SPU, OPU, SWR or OWR line of that type: performing, mechanical and synchronization
/// right, in hundredths of one per cent. A field that holds no share is `None`; blanks are 0.
#[inline(always)]
pub fn ownership_of(line: &[u8], record_type: RecordType) -> [Option<u16>; 3]
    requires { IsTrue (has_ownership record_type) }
    ensures { result ≡ shares_at line.now (ownership_columns record_type) }
{
    match record_type {
        RecordType::Spu | RecordType::Opu => shares_at(
            line,
            Publisher::PERFORMING_OWNERSHIP,
            Publisher::MECHANICAL_OWNERSHIP,
            Publisher::SYNCHRONIZATION_OWNERSHIP,
        ),
        _ => shares_at(
            line,
            Writer::PERFORMING_OWNERSHIP,
            Writer::MECHANICAL_OWNERSHIP,
            Writer::SYNCHRONIZATION_OWNERSHIP,
        ),
    }
}

/// The interested party number of the publisher that a PWR line names, or `None` where it is blank.
pub fn publisher_of(line: &[u8]) -> Option<[u8; 9]>
    ensures { result ≡ party_of (field_at line.now link_publisher_party) }
{
    party(field_at(line, Link::PUBLISHER_PARTY))
}

/// The collection shares of an SPT or SWT line of that type: performing, mechanical and synchronization right, in
/// hundredths of one per cent. A field that holds no share is `None`; blanks are 0.
#[inline(always)]
pub fn collection_of(line: &[u8], record_type: RecordType) -> [Option<u16>; 3]
    requires { IsTrue (has_collection record_type) }
    ensures { result ≡ shares_at line.now (collection_columns record_type) }
{
    match record_type {
        RecordType::Spt => shares_at(
            line,
            PublisherTerritory::PERFORMING_COLLECTION,
            PublisherTerritory::MECHANICAL_COLLECTION,
            PublisherTerritory::SYNCHRONIZATION_COLLECTION,
        ),
        _ => shares_at(
            line,
            WriterTerritory::PERFORMING_COLLECTION,
            WriterTerritory::MECHANICAL_COLLECTION,
            WriterTerritory::SYNCHRONIZATION_COLLECTION,
        ),
    }
}

/// The inclusion or exclusion indicator of an SPT or SWT line of that type, one byte.
pub fn indicator_of(line: &[u8], record_type: RecordType) -> u8
    requires { IsTrue (has_collection record_type) }
    ensures { result ≡ slice_index (field_at line.now (indicator_column record_type)) 0 }
{
    let column = match record_type {
        RecordType::Spt => PublisherTerritory::INDICATOR,
        _ => WriterTerritory::INDICATOR,
    };
    field_at(line, column).byte(0)
}

/// The territory (TIS) of an SPT or SWT line of that type, as a number.
///
/// It is the number of the one to four digits that remain of its field once blanks before and after are removed. `None`
/// where anything else remains.
#[inline(always)]
pub fn territory_of(line: &[u8], record_type: RecordType) -> Option<u16>
    requires { IsTrue (has_collection record_type) }
    ensures { result ≡ territory_of (field_at line.now (territory_column record_type)) }
{
    match record_type {
        RecordType::Spt => territory_at(line, PublisherTerritory::TERRITORY),
        _ => territory_at(line, WriterTerritory::TERRITORY),
    }
}

/// The territory in a column. Four digits, which most have, are read at once.
#[inline(always)]
fn territory_at(line: &[u8], column: Column) -> Option<u16>
    requires line { IsTrue (is_in_line column) }
    requires width { column.width ≡ 4 }
    ensures { result ≡ territory_of (field_at line.now column) }
{
    let code = field_at(line, column).bytes::<4>();
    match number_of_four(code) {
        Some(number) => Some(number as u16),
        None => spaced_code(code),
    }
}

/// The territory that four bytes name, with blanks before and after it.
#[inline(never)]
fn spaced_code(code: [u8; 4]) -> Option<u16>
    ensures { result ≡ territory_of code }
{
    some_number(without_trailing(without_leading(&code)))
}

/// The bytes from the first one that is not a blank.
fn without_leading(mut text: &[u8]) -> &[u8]
    ensures value { result.now ≡ without_leading text.entry.now }
    ensures shorter { length result.now ≤ length text.entry.now }
{
    while let [b' ', rest @ ..] = text {
        text = rest;
    }
    text
}

/// The bytes up to the last one that is not a blank.
fn without_trailing(mut text: &[u8]) -> &[u8]
    ensures value { result.now ≡ without_trailing text.entry.now }
    ensures shorter { length result.now ≤ length text.entry.now }
{
    while let [rest @ .., b' '] = text {
        text = rest;
    }
    text
}

/// The number that one or more digits spell; `None` for no bytes, and where a byte is not a digit.
fn some_number(text: &[u8]) -> Option<u16>
    requires { length text.now ≤ 4 }
    ensures { result ≡ some_number text.now }
{
    if text.is_empty() {
        return None;
    }
    let number = digits(cut(text, 1, text.len()))?;
    Some(number as u16)
}
