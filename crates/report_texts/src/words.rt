ghost use Rattle.std.specs.Prelude.{◌≡◌};
ghost use Rattle.report_texts.specs.LongText.{name_text, followers_text, rule_text};

use cwr_report::FieldName;

/// What a field is called.
pub fn name_text(name: FieldName) -> &'static [u8]
    ensures { result.now ≡ name_text name }
{
    match name {
        FieldName::RecordType => b"record type",
        FieldName::WorkTitle => b"work title",
        FieldName::SubmitterWorkNumber => b"submitter work number",
        FieldName::Iswc => b"ISWC",
        FieldName::CopyrightDate => b"copyright date",
        FieldName::Duration => b"duration",
        FieldName::PartyNumber => b"interested party number",
        FieldName::PublisherPartyNumber => b"publisher interested party number",
        FieldName::PerformingOwnership => b"PR ownership share",
        FieldName::MechanicalOwnership => b"MR ownership share",
        FieldName::SynchronizationOwnership => b"SR ownership share",
        FieldName::PerformingCollection => b"PR collection share",
        FieldName::MechanicalCollection => b"MR collection share",
        FieldName::SynchronizationCollection => b"SR collection share",
        FieldName::Indicator => b"inclusion/exclusion indicator",
        FieldName::Territory => b"TIS numeric code",
        FieldName::CreationDate => b"creation date",
        FieldName::CreationTime => b"creation time",
        FieldName::TransmissionDate => b"transmission date",
        FieldName::TransactionType => b"transaction type",
        FieldName::GroupId => b"group ID",
        FieldName::TransactionSequence => b"transaction sequence",
        FieldName::RecordSequence => b"record sequence",
        FieldName::GroupCount => b"group count",
        FieldName::TransactionCount => b"transaction count",
        FieldName::RecordCount => b"record count",
    }
}

/// The records that may stand after a record of this type and what belongs to it.
pub(crate) fn followers_text(leading: [u8; 3]) -> &'static [u8]
    ensures { result.now ≡ followers_text leading }
{
    if leading == *b"SPU" {
        b"SPT, SPU, OPU, SWR, OWR, ALT or XRF"
    } else if leading == *b"SWR" {
        b"SWT, PWR, SPU, OPU, SWR, OWR, ALT or XRF"
    } else if leading == *b"OWR" {
        b"PWR, SPU, OPU, SWR, OWR, ALT or XRF"
    } else if leading == *b"ALT" {
        b"ALT or XRF"
    } else if leading == *b"XRF" {
        b"ALT or XRF"
    } else {
        b"SPU, OPU, SWR, OWR, ALT or XRF"
    }
}

/// What the rule with this number requires, if that depends on nothing else.
pub(crate) fn rule_text(number: u8) -> &'static [u8]
    ensures { result.now ≡ rule_text number }
{
    match number {
        2 => b"a title that is not blank",
        3 => b"a number that is not blank",
        4 => b"T, nine digits and their check digit, or blanks",
        5 => b"a date as YYYYMMDD, a time as HHMMSS, or blanks",
        6 => b"five digits from 00000 to 10000, or blanks",
        7 => b"a number that is not blank",
        9 => b"the number of an SPU or OPU of the transaction, or blanks",
        10 => b"an SWR or OWR",
        14 => b"the indicator I or E, and a code of one to four digits",
        _ => b"what the rule says",
    }
}
