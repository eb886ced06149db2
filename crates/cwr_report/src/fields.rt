ghost use Rattle.std.specs.Prelude.{◌≡◌, IsTrue};
ghost use Rattle.cwr_record.specs.Parties.{party_column};
ghost use Rattle.cwr_record.specs.Ranges.{is_in_line};
ghost use Rattle.cwr_report.specs.Fields.{spot_where, one_field, wrong_dates, wrong_share, wrong_shares, wrong_ownership, wrong_collection, is_no_indicator, wrong_territory, fields_of};

use crate::finding::{FieldName, Spot};
use cwr_field::share;
use cwr_record::{
    Column, Link, Publisher, PublisherTerritory, RecordType, WorkHead, Writer, WriterTerritory,
    field_at, indicator_of, territory_of, type_of,
};
use cwr_rules::{is_copyright_date, is_duration};

/// The fields of a line that break the transaction rule with this number.
pub(crate) fn fields_of(number: u8, line: &[u8]) -> [Option<Spot>; 3]
    ensures { result ≡ fields_of number line.now }
{
    match number {
        1 => one_field(FieldName::RecordType, RecordType::COLUMN),
        2 => one_field(FieldName::WorkTitle, WorkHead::TITLE),
        3 => one_field(FieldName::SubmitterWorkNumber, WorkHead::SUBMITTER_NUMBER),
        4 => one_field(FieldName::Iswc, WorkHead::ISWC),
        5 => wrong_dates(line),
        6 => wrong_shares(line, type_of(line)),
        7 => one_field(FieldName::PartyNumber, party_column(type_of(line))),
        8 => one_field(FieldName::PartyNumber, party_column(type_of(line))),
        9 => one_field(FieldName::PublisherPartyNumber, Link::PUBLISHER_PARTY),
        14 => wrong_territory(line, type_of(line)),
        _ => [None, None, None],
    }
}

pub(crate) fn one_field(name: FieldName, column: Column) -> [Option<Spot>; 3]
    ensures { result ≡ one_field name column }
{
    [Some(Spot { name, column }), None, None]
}

/// The field, if it breaks the rule.
pub(crate) fn spot_where(broken: bool, name: FieldName, column: Column) -> Option<Spot>
    ensures { result ≡ spot_where broken name column }
{
    broken.then_some(Spot { name, column })
}

/// Where the interested party number of a record stands.
fn party_column(record_type: RecordType) -> Column
    ensures { result ≡ party_column record_type }
{
    match record_type {
        RecordType::Spu | RecordType::Opu => Publisher::PARTY,
        RecordType::Spt => PublisherTerritory::PARTY,
        RecordType::Swt => WriterTerritory::PARTY,
        _ => Writer::PARTY,
    }
}

/// Which of a header's copyright date and duration is wrong (J5).
fn wrong_dates(line: &[u8]) -> [Option<Spot>; 3]
    ensures { result ≡ wrong_dates line.now }
{
    [
        spot_where(
            !is_copyright_date(line),
            FieldName::CopyrightDate,
            WorkHead::COPYRIGHT_DATE,
        ),
        spot_where(!is_duration(line), FieldName::Duration, WorkHead::DURATION),
        None,
    ]
}

/// A share, if it is not valid.
fn wrong_share(line: &[u8], name: FieldName, column: Column) -> Option<Spot>
    requires { IsTrue (is_in_line column) × (column.width ≡ 5) }
    ensures { result ≡ wrong_share line.now name column }
{
    spot_where(share(field_at(line, column)).is_none(), name, column)
}

/// The shares of a record that are not valid (J6). Records of types that have no shares are read as SWR.
fn wrong_shares(line: &[u8], record_type: RecordType) -> [Option<Spot>; 3]
    ensures { result ≡ wrong_shares record_type line.now }
{
    match record_type {
        RecordType::Spu | RecordType::Opu => wrong_ownership(
            line,
            Publisher::PERFORMING_OWNERSHIP,
            Publisher::MECHANICAL_OWNERSHIP,
            Publisher::SYNCHRONIZATION_OWNERSHIP,
        ),
        RecordType::Spt => wrong_collection(
            line,
            PublisherTerritory::PERFORMING_COLLECTION,
            PublisherTerritory::MECHANICAL_COLLECTION,
            PublisherTerritory::SYNCHRONIZATION_COLLECTION,
        ),
        RecordType::Swt => wrong_collection(
            line,
            WriterTerritory::PERFORMING_COLLECTION,
            WriterTerritory::MECHANICAL_COLLECTION,
            WriterTerritory::SYNCHRONIZATION_COLLECTION,
        ),
        _ => wrong_ownership(
            line,
            Writer::PERFORMING_OWNERSHIP,
            Writer::MECHANICAL_OWNERSHIP,
            Writer::SYNCHRONIZATION_OWNERSHIP,
        ),
    }
}

fn wrong_ownership(
    line: &[u8],
    performing: Column,
    mechanical: Column,
    synchronization: Column,
) -> [Option<Spot>; 3]
    requires performing { IsTrue (is_in_line performing) × (performing.width ≡ 5) }
    requires mechanical { IsTrue (is_in_line mechanical) × (mechanical.width ≡ 5) }
    requires synchronization { IsTrue (is_in_line synchronization) × (synchronization.width ≡ 5) }
    ensures { result ≡ wrong_ownership line.now (record { performing = performing; mechanical = mechanical; synchronization = synchronization }) }
{
    [
        wrong_share(line, FieldName::PerformingOwnership, performing),
        wrong_share(line, FieldName::MechanicalOwnership, mechanical),
        wrong_share(line, FieldName::SynchronizationOwnership, synchronization),
    ]
}

fn wrong_collection(
    line: &[u8],
    performing: Column,
    mechanical: Column,
    synchronization: Column,
) -> [Option<Spot>; 3]
    requires performing { IsTrue (is_in_line performing) × (performing.width ≡ 5) }
    requires mechanical { IsTrue (is_in_line mechanical) × (mechanical.width ≡ 5) }
    requires synchronization { IsTrue (is_in_line synchronization) × (synchronization.width ≡ 5) }
    ensures { result ≡ wrong_collection line.now (record { performing = performing; mechanical = mechanical; synchronization = synchronization }) }
{
    [
        wrong_share(line, FieldName::PerformingCollection, performing),
        wrong_share(line, FieldName::MechanicalCollection, mechanical),
        wrong_share(line, FieldName::SynchronizationCollection, synchronization),
    ]
}

/// Which of the indicator and the TIS code of a territory is wrong (J14). Records of other types than SPT are read as
/// SWT.
fn wrong_territory(line: &[u8], record_type: RecordType) -> [Option<Spot>; 3]
    ensures { result ≡ wrong_territory record_type line.now }
{
    match record_type {
        RecordType::Spt => [
            spot_where(
                is_no_indicator(indicator_of(line, RecordType::Spt)),
                FieldName::Indicator,
                PublisherTerritory::INDICATOR,
            ),
            spot_where(
                territory_of(line, RecordType::Spt).is_none(),
                FieldName::Territory,
                PublisherTerritory::TERRITORY,
            ),
            None,
        ],
        _ => [
            spot_where(
                is_no_indicator(indicator_of(line, RecordType::Swt)),
                FieldName::Indicator,
                WriterTerritory::INDICATOR,
            ),
            spot_where(
                territory_of(line, RecordType::Swt).is_none(),
                FieldName::Territory,
                WriterTerritory::TERRITORY,
            ),
            None,
        ],
    }
}

/// Whether an indicator is neither `I` nor `E`.
fn is_no_indicator(indicator: u8) -> bool
    ensures { result ≡ is_no_indicator indicator }
{
    indicator != b'I' && indicator != b'E'
}
