ghost use Rattle.std.specs.Prelude.{◌≡◌, ◌++◌, IfOk, IfErr, OnOk, OnErr, vec_len, vec_capacity, ◌<◌, ◌+◌, codes, IsSome, Some};
ghost use Rattle.std.specs.List.{AllByRecursion};
ghost use Rattle.cwr_record.specs.Columns.{field_at, every_record_type};
ghost use Rattle.cwr_record.specs.Kinds.{publisher_kind_code};
ghost use Rattle.cwr_record.specs.declared.slot.Content.TheVariants as content;
ghost use Rattle.cwr_record.specs.Layout.{StandsFor, value_of, Bytes};
ghost use Rattle.cwr_record.specs.Readable.{IsReadable};
ghost use Rattle.cwr_record.specs.Faults.{IsLeastFault, checked};
ghost use Rattle.cwr_record.specs.Lines.{Fits, IsWhole, line_of};
ghost use Rattle.cwr_record.specs.Publishers as table;
ghost use Rattle.cwr_record.specs.declared.publishers.Publisher.{Publisher};
ghost use Rattle.cwr_record.specs.declared.publishers.PublisherTerritory.{PublisherTerritory};

use crate::field_values::{FieldValue, put_line};
use crate::prefix::Prefix;
use crate::record_type::RecordType;
use crate::slot::{Content, FieldFault, Slot, check, slots};
use crate::values::{is_first, number_at, share_at, text_at};
use cwr_field::Memory;
use std::alloc::Allocator;

/// Who controls a publisher's share.
#[derive(Clone, Copy, Debug, PartialEq, Eq, Hash)]
pub enum PublisherKind {
    /// SPU, Publisher Controlled by Submitter.
    Spu,
    /// OPU, Other Publisher.
    Opu,
}

impl PublisherKind {
    /// The record type that names it.
    fn code(self) -> &'static [u8; 3]
        ensures { result.now ≡ publisher_kind_code self }
    {
        match self {
            PublisherKind::Spu => b"SPU",
            PublisherKind::Opu => b"OPU",
        }
    }
}

/// The kind of a publisher whose record type was checked.
fn publisher_kind_at(line: &[u8]) -> PublisherKind
    requires { IsSome (value_of (content.OneOf (codes "SPU") (codes "OPU")) (field_at line.now every_record_type)) }
    ensures { value_of (content.OneOf (codes "SPU") (codes "OPU")) (field_at line.now every_record_type) ≡ Some (Bytes (publisher_kind_code result)) }
{
    if is_first(line, *b"SPU", *b"OPU") {
        PublisherKind::Spu
    } else {
        PublisherKind::Opu
    }
}

/// A publisher of a work: SPU, Publisher Controlled by Submitter, or OPU, Other Publisher.
#[derive(Clone, Copy, Debug, PartialEq, Eq)]
pub struct Publisher {
    /// Which record of which transaction it is.
    pub prefix: Prefix,
    /// The record type, at [`RecordType::COLUMN`].
    pub kind: PublisherKind,
    /// Publisher sequence, at [`Publisher::SEQUENCE`].
    pub sequence: [u8; 2],
    /// Interested party number, at [`Publisher::PARTY`].
    pub party: [u8; 9],
    /// Publisher name, at [`Publisher::NAME`].
    pub name: [u8; 45],
    /// Unknown indicator, at [`Publisher::UNKNOWN_INDICATOR`].
    pub unknown_indicator: [u8; 1],
    /// Publisher type, at [`Publisher::PUBLISHER_TYPE`].
    pub publisher_type: [u8; 2],
    /// Tax id, at [`Publisher::TAX_ID`].
    pub tax_id: [u8; 9],
    /// IPI name number, at [`Publisher::IPI_NAME_NUMBER`].
    pub ipi_name_number: [u8; 11],
    /// Submitter agreement number, at [`Publisher::SUBMITTER_AGREEMENT`].
    pub submitter_agreement: [u8; 14],
    /// Society of the performing right, at [`Publisher::PERFORMING_SOCIETY`].
    pub performing_society: [u8; 3],
    /// Ownership share of the performing right, at [`Publisher::PERFORMING_OWNERSHIP`], in hundredths of one per cent.
    pub performing_ownership: u16,
    /// Society of the mechanical right, at [`Publisher::MECHANICAL_SOCIETY`].
    pub mechanical_society: [u8; 3],
    /// Ownership share of the mechanical right, at [`Publisher::MECHANICAL_OWNERSHIP`], in hundredths of one per cent.
    pub mechanical_ownership: u16,
    /// Society of the synchronization right, at [`Publisher::SYNCHRONIZATION_SOCIETY`].
    pub synchronization_society: [u8; 3],
    /// Ownership share of the synchronization right, at [`Publisher::SYNCHRONIZATION_OWNERSHIP`], in hundredths of one
    /// per cent.
    pub synchronization_ownership: u16,
}

const PUBLISHER: [Slot; 6] = slots! {
    RecordType::COLUMN: Content::OneOf(*b"SPU", *b"OPU");
    Prefix::TRANSACTION: Content::Digits;
    Prefix::DETAIL: Content::Digits;
    Publisher::PERFORMING_OWNERSHIP: Content::Share;
    Publisher::MECHANICAL_OWNERSHIP: Content::Share;
    Publisher::SYNCHRONIZATION_OWNERSHIP: Content::Share;
};

/// Reads a publisher (SPU or OPU) from a line.
///
/// An error is the first field of the line that cannot be read.
pub fn read_publisher(line: &[u8]) -> Result<Publisher, FieldFault>
    ensures ok { IfOk result (StandsFor table.publisher line.now) }
    ensures fault { IfErr result (IsLeastFault line.now (checked table.publisher)) }
    // What was written is read back.
    ensures again { (x : Publisher) → IsWhole table.publisher x → line.now ≡ line_of table.publisher x → result ≡ Ok x }
{
    check(line, &PUBLISHER)?;
    Ok(publisher_at(line))
}

/// The publisher of a line whose fields were checked.
fn publisher_at(line: &[u8]) -> Publisher
    requires { AllByRecursion (IsReadable line.now) (checked table.publisher) }
    ensures { StandsFor table.publisher line.now result }
{
    Publisher {
        prefix: Prefix {
            transaction: number_at(line, Prefix::TRANSACTION),
            detail: number_at(line, Prefix::DETAIL),
        },
        kind: publisher_kind_at(line),
        sequence: text_at(line, Publisher::SEQUENCE),
        party: text_at(line, Publisher::PARTY),
        name: text_at(line, Publisher::NAME),
        unknown_indicator: text_at(line, Publisher::UNKNOWN_INDICATOR),
        publisher_type: text_at(line, Publisher::PUBLISHER_TYPE),
        tax_id: text_at(line, Publisher::TAX_ID),
        ipi_name_number: text_at(line, Publisher::IPI_NAME_NUMBER),
        submitter_agreement: text_at(line, Publisher::SUBMITTER_AGREEMENT),
        performing_society: text_at(line, Publisher::PERFORMING_SOCIETY),
        performing_ownership: share_at(line, Publisher::PERFORMING_OWNERSHIP),
        mechanical_society: text_at(line, Publisher::MECHANICAL_SOCIETY),
        mechanical_ownership: share_at(line, Publisher::MECHANICAL_OWNERSHIP),
        synchronization_society: text_at(line, Publisher::SYNCHRONIZATION_SOCIETY),
        synchronization_ownership: share_at(line, Publisher::SYNCHRONIZATION_OWNERSHIP),
    }
}

/// Appends the line of a publisher, 136 bytes without a line end.
///
/// Each sequence has at most eight digits, and a share is at most 10000. A refusal leaves the vector as it was.
pub fn write_publisher<A: Allocator>(
    out: &mut Vec<u8, A>,
    publisher: &Publisher,
) -> Result<(), Memory>
    requires { Fits table.publisher publisher.now }
    ensures ok { OnOk result (out.new.items ≡ out.old.items ++ line_of table.publisher publisher.now) }
    // This is what the reader requires of a value that it reads back.
    ensures whole { OnOk result (IsWhole table.publisher publisher.now) }
    ensures err { OnErr result (out.new.items ≡ out.old.items) }
    // `Memory` is returned only where there was no room for the line.
    ensures full { OnErr result (vec_capacity out.old < vec_len out.old + 136) }
{
    put_line(
        out,
        &[
            FieldValue::Text(publisher.kind.code(), RecordType::COLUMN),
            FieldValue::Digits(publisher.prefix.transaction as u64, Prefix::TRANSACTION),
            FieldValue::Digits(publisher.prefix.detail as u64, Prefix::DETAIL),
            FieldValue::Text(&publisher.sequence, Publisher::SEQUENCE),
            FieldValue::Text(&publisher.party, Publisher::PARTY),
            FieldValue::Text(&publisher.name, Publisher::NAME),
            FieldValue::Text(&publisher.unknown_indicator, Publisher::UNKNOWN_INDICATOR),
            FieldValue::Text(&publisher.publisher_type, Publisher::PUBLISHER_TYPE),
            FieldValue::Text(&publisher.tax_id, Publisher::TAX_ID),
            FieldValue::Text(&publisher.ipi_name_number, Publisher::IPI_NAME_NUMBER),
            FieldValue::Text(
                &publisher.submitter_agreement,
                Publisher::SUBMITTER_AGREEMENT,
            ),
            FieldValue::Text(&publisher.performing_society, Publisher::PERFORMING_SOCIETY),
            FieldValue::Share(publisher.performing_ownership),
            FieldValue::Text(&publisher.mechanical_society, Publisher::MECHANICAL_SOCIETY),
            FieldValue::Share(publisher.mechanical_ownership),
            FieldValue::Text(
                &publisher.synchronization_society,
                Publisher::SYNCHRONIZATION_SOCIETY,
            ),
            FieldValue::Share(publisher.synchronization_ownership),
        ],
    )
}

/// Where a publisher collects shares: SPT, Publisher Territory of Control.
#[derive(Clone, Copy, Debug, PartialEq, Eq)]
pub struct PublisherTerritory {
    /// Which record of which transaction it is.
    pub prefix: Prefix,
    /// Interested party number, at [`PublisherTerritory::PARTY`].
    pub party: [u8; 9],
    /// Collection share of the performing right, at [`PublisherTerritory::PERFORMING_COLLECTION`], in hundredths of one
    /// per cent.
    pub performing_collection: u16,
    /// Collection share of the mechanical right, at [`PublisherTerritory::MECHANICAL_COLLECTION`], in hundredths of one
    /// per cent.
    pub mechanical_collection: u16,
    /// Collection share of the synchronization right, at [`PublisherTerritory::SYNCHRONIZATION_COLLECTION`], in
    /// hundredths of one per cent.
    pub synchronization_collection: u16,
    /// Inclusion or exclusion indicator, at [`PublisherTerritory::INDICATOR`].
    pub indicator: [u8; 1],
    /// Territory code (TIS), at [`PublisherTerritory::TERRITORY`].
    pub territory: [u8; 4],
    /// Shares change, at [`PublisherTerritory::SHARES_CHANGE`].
    pub shares_change: [u8; 1],
    /// Sequence, at [`PublisherTerritory::SEQUENCE`].
    pub sequence: [u8; 3],
}

const PUBLISHER_TERRITORY: [Slot; 6] = slots! {
    RecordType::COLUMN: Content::Kind(*b"SPT");
    Prefix::TRANSACTION: Content::Digits;
    Prefix::DETAIL: Content::Digits;
    PublisherTerritory::PERFORMING_COLLECTION: Content::Share;
    PublisherTerritory::MECHANICAL_COLLECTION: Content::Share;
    PublisherTerritory::SYNCHRONIZATION_COLLECTION: Content::Share;
};

/// Reads a publisher's territory (SPT) from a line.
///
/// What stands between the party and the shares is not read. An error is the first field of the line that cannot be
/// read.
pub fn read_publisher_territory(line: &[u8]) -> Result<PublisherTerritory, FieldFault>
    ensures ok { IfOk result (StandsFor table.publisher_territory line.now) }
    ensures fault { IfErr result (IsLeastFault line.now (checked table.publisher_territory)) }
    // What was written is read back.
    ensures again { (x : PublisherTerritory) → IsWhole table.publisher_territory x → line.now ≡ line_of table.publisher_territory x → result ≡ Ok x }
{
    check(line, &PUBLISHER_TERRITORY)?;
    Ok(publisher_territory_at(line))
}

/// The publisher's territory of a line whose fields were checked.
fn publisher_territory_at(line: &[u8]) -> PublisherTerritory
    requires { AllByRecursion (IsReadable line.now) (checked table.publisher_territory) }
    ensures { StandsFor table.publisher_territory line.now result }
{
    PublisherTerritory {
        prefix: Prefix {
            transaction: number_at(line, Prefix::TRANSACTION),
            detail: number_at(line, Prefix::DETAIL),
        },
        party: text_at(line, PublisherTerritory::PARTY),
        performing_collection: share_at(line, PublisherTerritory::PERFORMING_COLLECTION),
        mechanical_collection: share_at(line, PublisherTerritory::MECHANICAL_COLLECTION),
        synchronization_collection: share_at(line, PublisherTerritory::SYNCHRONIZATION_COLLECTION),
        indicator: text_at(line, PublisherTerritory::INDICATOR),
        territory: text_at(line, PublisherTerritory::TERRITORY),
        shares_change: text_at(line, PublisherTerritory::SHARES_CHANGE),
        sequence: text_at(line, PublisherTerritory::SEQUENCE),
    }
}

/// Appends the line of a publisher's territory, 58 bytes without a line end.
///
/// Each sequence has at most eight digits, and a share is at most 10000. A refusal leaves the vector as it was.
pub fn write_publisher_territory<A: Allocator>(
    out: &mut Vec<u8, A>,
    territory: &PublisherTerritory,
) -> Result<(), Memory>
    requires { Fits table.publisher_territory territory.now }
    ensures ok { OnOk result (out.new.items ≡ out.old.items ++ line_of table.publisher_territory territory.now) }
    // This is what the reader requires of a value that it reads back.
    ensures whole { OnOk result (IsWhole table.publisher_territory territory.now) }
    ensures err { OnErr result (out.new.items ≡ out.old.items) }
    // `Memory` is returned only where there was no room for the line.
    ensures full { OnErr result (vec_capacity out.old < vec_len out.old + 58) }
{
    put_line(
        out,
        &[
            FieldValue::Text(b"SPT", RecordType::COLUMN),
            FieldValue::Digits(territory.prefix.transaction as u64, Prefix::TRANSACTION),
            FieldValue::Digits(territory.prefix.detail as u64, Prefix::DETAIL),
            FieldValue::Text(&territory.party, PublisherTerritory::PARTY),
            FieldValue::Text(b"", PublisherTerritory::CONSTANT),
            FieldValue::Share(territory.performing_collection),
            FieldValue::Share(territory.mechanical_collection),
            FieldValue::Share(territory.synchronization_collection),
            FieldValue::Text(&territory.indicator, PublisherTerritory::INDICATOR),
            FieldValue::Text(&territory.territory, PublisherTerritory::TERRITORY),
            FieldValue::Text(&territory.shares_change, PublisherTerritory::SHARES_CHANGE),
            FieldValue::Text(&territory.sequence, PublisherTerritory::SEQUENCE),
        ],
    )
}
