ghost use Rattle.std.specs.Prelude.{◌≡◌};
ghost use Rattle.cwr_field.specs.Number.{number_of};
ghost use Rattle.cwr_record.specs.Columns.{field_at};
ghost use Rattle.cwr_report.specs.Findings.{expected_of, digit_expected, party_expected, collection_expected, iswc_digits};

use crate::finding::Expected;
use crate::latest::Latest;
use cwr_field::{check_digit, digits};
use cwr_record::{Column, RecordType, WorkHead, field_at, type_of};
use cwr_rules::{AddedShares, Over};

/// What the rule with this number requires of a line.
pub(crate) fn expected_of(number: u8, line: &[u8], latest: &Latest, added: &AddedShares) -> Expected
    ensures { result ≡ expected_of number line.now latest.now added.now }
{
    match number {
        1 => Expected::FollowerOf(latest.leading),
        4 => digit_expected(line),
        8 => party_expected(type_of(line), latest),
        11 => Expected::Ownership(added.ownership.performing),
        12 => Expected::Ownership(added.ownership.mechanical),
        13 => Expected::Ownership(added.ownership.synchronization),
        15 => collection_expected(added.over),
        _ => Expected::Rule,
    }
}

/// The check digit of a header's ISWC, if nine digits stand behind its `T`.
fn digit_expected(line: &[u8]) -> Expected
    ensures { result ≡ digit_expected (number_of (field_at line.now iswc_digits)) }
{
    let column = Column {
        start: WorkHead::ISWC.start + 1,
        width: 9,
    };
    match digits(field_at(line, column)) {
        None => Expected::Rule,
        Some(number) => Expected::CheckDigit(check_digit(number)),
    }
}

/// The party of the last SPU for an SPT, and that of the last SWR for an SWT.
fn party_expected(record_type: RecordType, latest: &Latest) -> Expected
    ensures { result ≡ party_expected record_type latest.now }
{
    match record_type {
        RecordType::Spt => Expected::Party(latest.publisher),
        _ => Expected::Party(latest.writer),
    }
}

/// The territory in which more than the whole is collected.
fn collection_expected(over: Option<Over>) -> Expected
    ensures { result ≡ collection_expected over }
{
    match over {
        None => Expected::Rule,
        Some(over) => Expected::Collection(over),
    }
}
