//! Records that are read from lines which have each field that the rules read, or from a copy with blanks behind the
//! line's end. So a line's length is tested once, and not for each field.

ghost use Rattle.std.specs.Prelude.{◌≡◌, IfSome};
ghost use Rattle.cwr_record.specs.declared.record_type.RecordType.{RecordType};
ghost use Rattle.cwr_record.specs.declared.record_type.RecordType.TheVariants as of_type;
ghost use Rattle.cwr_rules.specs.Records.{record_as};

use crate::record::{Record, Shares, Territory};
use cwr_record::{Column, Publisher, RecordType, Writer, field_at, party_of, publisher_of};

/// An SPU; `None` where the line ends before the last field that the rules read.
#[inline(always)]
pub(crate) fn whole_spu(line: &[u8]) -> Option<Record>
    ensures { IfSome result (λ detail. detail ≡ record_as of_type.Spu line.now) }
{
    match line.first_chunk::<136>() {
        Some(front) => Some(Record::Spu(
            party_of(front, RecordType::Spu),
            Shares::owned(front, RecordType::Spu),
        )),
        None => None,
    }
}

/// An OPU; `None` where the line ends before the last field that the rules read.
#[inline(always)]
pub(crate) fn whole_opu(line: &[u8]) -> Option<Record>
    ensures { IfSome result (λ detail. detail ≡ record_as of_type.Opu line.now) }
{
    match line.first_chunk::<136>() {
        Some(front) => Some(Record::Opu(
            party_of(front, RecordType::Opu),
            Shares::owned(front, RecordType::Opu),
        )),
        None => None,
    }
}

/// An SPT; `None` where the line ends before the last field that the rules read.
#[inline(always)]
pub(crate) fn whole_spt(line: &[u8]) -> Option<Record>
    ensures { IfSome result (λ detail. detail ≡ record_as of_type.Spt line.now) }
{
    match line.first_chunk::<54>() {
        Some(front) => Some(Record::Spt(
            party_of(front, RecordType::Spt),
            Shares::collected(front, RecordType::Spt),
            Territory::of(front, RecordType::Spt),
        )),
        None => None,
    }
}

/// An SWR; `None` where the line ends before the last field that the rules read.
#[inline(always)]
pub(crate) fn whole_swr(line: &[u8]) -> Option<Record>
    ensures { IfSome result (λ detail. detail ≡ record_as of_type.Swr line.now) }
{
    match line.first_chunk::<150>() {
        Some(front) => Some(Record::Swr(
            party_of(front, RecordType::Swr),
            Shares::owned(front, RecordType::Swr),
        )),
        None => None,
    }
}

/// An OWR; `None` where the line ends before the last field that the rules read.
#[inline(always)]
pub(crate) fn whole_owr(line: &[u8]) -> Option<Record>
    ensures { IfSome result (λ detail. detail ≡ record_as of_type.Owr line.now) }
{
    match line.first_chunk::<150>() {
        Some(front) => Some(Record::Owr(Shares::owned(front, RecordType::Owr))),
        None => None,
    }
}

/// An SWT; `None` where the line ends before the last field that the rules read.
#[inline(always)]
pub(crate) fn whole_swt(line: &[u8]) -> Option<Record>
    ensures { IfSome result (λ detail. detail ≡ record_as of_type.Swt line.now) }
{
    match line.first_chunk::<48>() {
        Some(front) => Some(Record::Swt(
            party_of(front, RecordType::Swt),
            Shares::collected(front, RecordType::Swt),
            Territory::of(front, RecordType::Swt),
        )),
        None => None,
    }
}

/// A PWR; `None` where the line ends before the last field that the rules read.
#[inline(always)]
pub(crate) fn whole_pwr(line: &[u8]) -> Option<Record>
    ensures { IfSome result (λ detail. detail ≡ record_as of_type.Pwr line.now) }
{
    match line.first_chunk::<28>() {
        Some(front) => Some(Record::Pwr(publisher_of(front))),
        None => None,
    }
}

/// A record whose line ends before its shares, so that these are blank. `None` where the line has some of them, or is
/// of a type with a territory.
#[inline(always)]
pub(crate) fn bare_record(line: &[u8], record_type: RecordType) -> Option<Record>
    ensures { IfSome result (λ detail. detail ≡ record_as record_type line.now) }
{
    match record_type {
        RecordType::Spu if line.len() < Publisher::PERFORMING_OWNERSHIP.start => {
            Some(Record::Spu(party_of(line, RecordType::Spu), Shares::BLANK))
        }
        RecordType::Opu if line.len() < Publisher::PERFORMING_OWNERSHIP.start => {
            Some(Record::Opu(party_of(line, RecordType::Opu), Shares::BLANK))
        }
        RecordType::Swr if line.len() < Writer::PERFORMING_OWNERSHIP.start => {
            Some(Record::Swr(party_of(line, RecordType::Swr), Shares::BLANK))
        }
        RecordType::Owr if line.len() < Writer::PERFORMING_OWNERSHIP.start => {
            Some(Record::Owr(Shares::BLANK))
        }
        RecordType::Pwr => Some(Record::Pwr(publisher_of(line))),
        _ => None,
    }
}

/// The part of a line that has each field that the rules read.
const FRONT: Column = Column {
    start: 1,
    width: 150,
};

/// The front of a line, with each field that the rules read, and with blanks behind the line's end.
#[inline(always)]
pub(crate) fn padded_front(line: &[u8]) -> [u8; 150]
    ensures { (record_type : RecordType) → record_as record_type result ≡ record_as record_type line.now }
{
    field_at(line, FRONT).bytes::<150>()
}
