ghost use Rattle.std.specs.Prelude.{◌≡◌, ◌<◌, ◌∷◌, IsTrue, None, length, get_or};
ghost use Rattle.cwr_record.specs.Parties.{has_ownership, has_collection};
ghost use Rattle.cwr_field.specs.Number.{max_count};
ghost use Rattle.cwr_rules.specs.Records.{record_of, record_as, owned_at, collected_at, territory_at};
ghost use Rattle.cwr_call.specs.Lawful.{is_clean};

use crate::record::{Record, Shares, Territory};
use cwr_grammar::{Lines, RawTransaction};
use cwr_record::{
    RecordType, collection_of, field_at, indicator_of, ownership_of, party_of, publisher_of,
    territory_of, type_of,
};

/// The header's line of a transaction, and the lines of its details.
pub(crate) fn parts<'a>(transaction: &RawTransaction<'a>) -> (&'a [u8], Lines<'a>)
    ensures lines { transaction.now.lines ≡ result.0.now ∷ result.1 }
    ensures clean { IsTrue (is_clean result.0.now) }
    ensures few { length result.1 < max_count }
{
    let mut lines = transaction.lines();
    match lines.next() {
        Some(head) => (head, lines),
        None => unreachable!(),
    }
}

/// What the rules read of a line.
pub(crate) fn record_of(line: &[u8]) -> Record
    ensures { result ≡ record_of line.now }
{
    record_as(line, type_of(line))
}

/// What the rules read of a line of this record type.
#[inline(always)]
pub(crate) fn record_as(line: &[u8], record_type: RecordType) -> Record
    ensures { result ≡ record_as record_type line.now }
{
    match record_type {
        RecordType::Spu => Record::Spu(
            party_of(line, RecordType::Spu),
            Shares::owned(line, RecordType::Spu),
        ),
        RecordType::Opu => Record::Opu(
            party_of(line, RecordType::Opu),
            Shares::owned(line, RecordType::Opu),
        ),
        RecordType::Spt => Record::Spt(
            party_of(line, RecordType::Spt),
            Shares::collected(line, RecordType::Spt),
            Territory::of(line, RecordType::Spt),
        ),
        RecordType::Swr => Record::Swr(
            party_of(line, RecordType::Swr),
            Shares::owned(line, RecordType::Swr),
        ),
        RecordType::Owr => Record::Owr(Shares::owned(line, RecordType::Owr)),
        RecordType::Swt => Record::Swt(
            party_of(line, RecordType::Swt),
            Shares::collected(line, RecordType::Swt),
            Territory::of(line, RecordType::Swt),
        ),
        RecordType::Pwr => Record::Pwr(publisher_of(line)),
        RecordType::Alt => Record::Alt,
        RecordType::Xrf => Record::Xrf,
        _ => Record::Carried(field_at(line, RecordType::COLUMN).bytes()),
    }
}

impl Shares {
    /// The shares of the performing, the mechanical and the synchronization right.
    #[inline(always)]
    fn of(rights: [Option<u16>; 3]) -> Shares
        ensures { result ≡ record { performing = get_or rights 0 None; mechanical = get_or rights 1 None; synchronization = get_or rights 2 None } }
    {
        let [performing, mechanical, synchronization] = rights;
        Shares {
            performing,
            mechanical,
            synchronization,
        }
    }

    /// The ownership shares of a line of this record type.
    #[inline(always)]
    pub(crate) fn owned(line: &[u8], record_type: RecordType) -> Shares
        requires { IsTrue (has_ownership record_type) }
        ensures { result ≡ owned_at record_type line.now }
    {
        Shares::of(ownership_of(line, record_type))
    }

    /// The collection shares of a line of this record type.
    #[inline(always)]
    pub(crate) fn collected(line: &[u8], record_type: RecordType) -> Shares
        requires { IsTrue (has_collection record_type) }
        ensures { result ≡ collected_at record_type line.now }
    {
        Shares::of(collection_of(line, record_type))
    }
}

impl Territory {
    /// The territory of a line of this record type.
    #[inline(always)]
    pub(crate) fn of(line: &[u8], record_type: RecordType) -> Territory
        requires { IsTrue (has_collection record_type) }
        ensures { result ≡ territory_at record_type line.now }
    {
        Territory {
            indicator: indicator_of(line, record_type),
            code: territory_of(line, record_type),
        }
    }
}
