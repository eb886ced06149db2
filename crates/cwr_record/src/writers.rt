ghost use Rattle.std.specs.Prelude.{◌≡◌, ◌++◌, IfOk, IfErr, OnOk, OnErr, vec_len, vec_capacity, ◌<◌, ◌+◌, codes, IsSome, Some};
ghost use Rattle.std.specs.List.{AllByRecursion};
ghost use Rattle.cwr_record.specs.Columns.{field_at, every_record_type};
ghost use Rattle.cwr_record.specs.Kinds.{writer_kind_code};
ghost use Rattle.cwr_record.specs.declared.slot.Content.TheVariants as content;
ghost use Rattle.cwr_record.specs.Layout.{StandsFor, value_of, Bytes};
ghost use Rattle.cwr_record.specs.Readable.{IsReadable};
ghost use Rattle.cwr_record.specs.Faults.{IsLeastFault, checked};
ghost use Rattle.cwr_record.specs.Lines.{Fits, IsWhole, line_of};
ghost use Rattle.cwr_record.specs.Writers as table;
ghost use Rattle.cwr_record.specs.declared.writers.Writer.{Writer};
ghost use Rattle.cwr_record.specs.declared.writers.WriterTerritory.{WriterTerritory};
ghost use Rattle.cwr_record.specs.declared.writers.Link.{Link};

use crate::field_values::{FieldValue, put_line};
use crate::prefix::Prefix;
use crate::record_type::RecordType;
use crate::slot::{Content, FieldFault, Slot, check, slots};
use crate::values::{is_first, number_at, share_at, text_at};
use cwr_field::Memory;
use std::alloc::Allocator;

/// Who controls a writer's share.
#[derive(Clone, Copy, Debug, PartialEq, Eq, Hash)]
pub enum WriterKind {
    /// SWR, Writer Controlled by Submitter.
    Swr,
    /// OWR, Other Writer.
    Owr,
}

impl WriterKind {
    /// The record type that names it.
    fn code(self) -> &'static [u8; 3]
        ensures { result.now ≡ writer_kind_code self }
    {
        match self {
            WriterKind::Swr => b"SWR",
            WriterKind::Owr => b"OWR",
        }
    }
}

/// The kind of a writer whose record type was checked.
fn writer_kind_at(line: &[u8]) -> WriterKind
    requires { IsSome (value_of (content.OneOf (codes "SWR") (codes "OWR")) (field_at line.now every_record_type)) }
    ensures { value_of (content.OneOf (codes "SWR") (codes "OWR")) (field_at line.now every_record_type) ≡ Some (Bytes (writer_kind_code result)) }
{
    if is_first(line, *b"SWR", *b"OWR") {
        WriterKind::Swr
    } else {
        WriterKind::Owr
    }
}

/// A writer of a work: SWR, Writer Controlled by Submitter, or OWR, Other Writer.
#[derive(Clone, Copy, Debug, PartialEq, Eq)]
pub struct Writer {
    /// Which record of which transaction it is.
    pub prefix: Prefix,
    /// The record type, at [`RecordType::COLUMN`].
    pub kind: WriterKind,
    /// Interested party number, at [`Writer::PARTY`].
    pub party: [u8; 9],
    /// Last name, at [`Writer::LAST_NAME`].
    pub last_name: [u8; 45],
    /// First name, at [`Writer::FIRST_NAME`].
    pub first_name: [u8; 30],
    /// Unknown indicator, at [`Writer::UNKNOWN_INDICATOR`].
    pub unknown_indicator: [u8; 1],
    /// Designation, at [`Writer::DESIGNATION`].
    pub designation: [u8; 2],
    /// Tax id, at [`Writer::TAX_ID`].
    pub tax_id: [u8; 9],
    /// IPI name number, at [`Writer::IPI_NAME_NUMBER`].
    pub ipi_name_number: [u8; 11],
    /// Society of the performing right, at [`Writer::PERFORMING_SOCIETY`].
    pub performing_society: [u8; 3],
    /// Ownership share of the performing right, at [`Writer::PERFORMING_OWNERSHIP`], in hundredths of one per cent.
    pub performing_ownership: u16,
    /// Society of the mechanical right, at [`Writer::MECHANICAL_SOCIETY`].
    pub mechanical_society: [u8; 3],
    /// Ownership share of the mechanical right, at [`Writer::MECHANICAL_OWNERSHIP`], in hundredths of one per cent.
    pub mechanical_ownership: u16,
    /// Society of the synchronization right, at [`Writer::SYNCHRONIZATION_SOCIETY`].
    pub synchronization_society: [u8; 3],
    /// Ownership share of the synchronization right, at [`Writer::SYNCHRONIZATION_OWNERSHIP`], in hundredths of one per
    /// cent.
    pub synchronization_ownership: u16,
}

const WRITER: [Slot; 6] = slots! {
    RecordType::COLUMN: Content::OneOf(*b"SWR", *b"OWR");
    Prefix::TRANSACTION: Content::Digits;
    Prefix::DETAIL: Content::Digits;
    Writer::PERFORMING_OWNERSHIP: Content::Share;
    Writer::MECHANICAL_OWNERSHIP: Content::Share;
    Writer::SYNCHRONIZATION_OWNERSHIP: Content::Share;
};

/// Reads a writer (SWR or OWR) from a line.
///
/// An error is the first field of the line that cannot be read.
pub fn read_writer(line: &[u8]) -> Result<Writer, FieldFault>
    ensures ok { IfOk result (StandsFor table.writer line.now) }
    ensures fault { IfErr result (IsLeastFault line.now (checked table.writer)) }
    // What was written is read back.
    ensures again { (x : Writer) → IsWhole table.writer x → line.now ≡ line_of table.writer x → result ≡ Ok x }
{
    check(line, &WRITER)?;
    Ok(writer_at(line))
}

/// The writer of a line whose fields were checked.
fn writer_at(line: &[u8]) -> Writer
    requires { AllByRecursion (IsReadable line.now) (checked table.writer) }
    ensures { StandsFor table.writer line.now result }
{
    Writer {
        prefix: Prefix {
            transaction: number_at(line, Prefix::TRANSACTION),
            detail: number_at(line, Prefix::DETAIL),
        },
        kind: writer_kind_at(line),
        party: text_at(line, Writer::PARTY),
        last_name: text_at(line, Writer::LAST_NAME),
        first_name: text_at(line, Writer::FIRST_NAME),
        unknown_indicator: text_at(line, Writer::UNKNOWN_INDICATOR),
        designation: text_at(line, Writer::DESIGNATION),
        tax_id: text_at(line, Writer::TAX_ID),
        ipi_name_number: text_at(line, Writer::IPI_NAME_NUMBER),
        performing_society: text_at(line, Writer::PERFORMING_SOCIETY),
        performing_ownership: share_at(line, Writer::PERFORMING_OWNERSHIP),
        mechanical_society: text_at(line, Writer::MECHANICAL_SOCIETY),
        mechanical_ownership: share_at(line, Writer::MECHANICAL_OWNERSHIP),
        synchronization_society: text_at(line, Writer::SYNCHRONIZATION_SOCIETY),
        synchronization_ownership: share_at(line, Writer::SYNCHRONIZATION_OWNERSHIP),
    }
}

/// Appends the line of a writer, 150 bytes without a line end.
///
/// Each sequence has at most eight digits, and a share is at most 10000. A refusal leaves the vector as it was.
pub fn write_writer<A: Allocator>(out: &mut Vec<u8, A>, writer: &Writer) -> Result<(), Memory>
    requires { Fits table.writer writer.now }
    ensures ok { OnOk result (out.new.items ≡ out.old.items ++ line_of table.writer writer.now) }
    // This is what the reader requires of a value that it reads back.
    ensures whole { OnOk result (IsWhole table.writer writer.now) }
    ensures err { OnErr result (out.new.items ≡ out.old.items) }
    // `Memory` is returned only where there was no room for the line.
    ensures full { OnErr result (vec_capacity out.old < vec_len out.old + 150) }
{
    put_line(
        out,
        &[
            FieldValue::Text(writer.kind.code(), RecordType::COLUMN),
            FieldValue::Digits(writer.prefix.transaction as u64, Prefix::TRANSACTION),
            FieldValue::Digits(writer.prefix.detail as u64, Prefix::DETAIL),
            FieldValue::Text(&writer.party, Writer::PARTY),
            FieldValue::Text(&writer.last_name, Writer::LAST_NAME),
            FieldValue::Text(&writer.first_name, Writer::FIRST_NAME),
            FieldValue::Text(&writer.unknown_indicator, Writer::UNKNOWN_INDICATOR),
            FieldValue::Text(&writer.designation, Writer::DESIGNATION),
            FieldValue::Text(&writer.tax_id, Writer::TAX_ID),
            FieldValue::Text(&writer.ipi_name_number, Writer::IPI_NAME_NUMBER),
            FieldValue::Text(&writer.performing_society, Writer::PERFORMING_SOCIETY),
            FieldValue::Share(writer.performing_ownership),
            FieldValue::Text(&writer.mechanical_society, Writer::MECHANICAL_SOCIETY),
            FieldValue::Share(writer.mechanical_ownership),
            FieldValue::Text(
                &writer.synchronization_society,
                Writer::SYNCHRONIZATION_SOCIETY,
            ),
            FieldValue::Share(writer.synchronization_ownership),
        ],
    )
}

/// Where a writer collects shares: SWT, Writer Territory of Control.
#[derive(Clone, Copy, Debug, PartialEq, Eq)]
pub struct WriterTerritory {
    /// Which record of which transaction it is.
    pub prefix: Prefix,
    /// Interested party number, at [`WriterTerritory::PARTY`].
    pub party: [u8; 9],
    /// Collection share of the performing right, at [`WriterTerritory::PERFORMING_COLLECTION`], in hundredths of one
    /// per cent.
    pub performing_collection: u16,
    /// Collection share of the mechanical right, at [`WriterTerritory::MECHANICAL_COLLECTION`], in hundredths of one
    /// per cent.
    pub mechanical_collection: u16,
    /// Collection share of the synchronization right, at [`WriterTerritory::SYNCHRONIZATION_COLLECTION`], in hundredths
    /// of one per cent.
    pub synchronization_collection: u16,
    /// Inclusion or exclusion indicator, at [`WriterTerritory::INDICATOR`].
    pub indicator: [u8; 1],
    /// Territory code (TIS), at [`WriterTerritory::TERRITORY`].
    pub territory: [u8; 4],
    /// Shares change, at [`WriterTerritory::SHARES_CHANGE`].
    pub shares_change: [u8; 1],
    /// Sequence, at [`WriterTerritory::SEQUENCE`].
    pub sequence: [u8; 3],
}

const WRITER_TERRITORY: [Slot; 6] = slots! {
    RecordType::COLUMN: Content::Kind(*b"SWT");
    Prefix::TRANSACTION: Content::Digits;
    Prefix::DETAIL: Content::Digits;
    WriterTerritory::PERFORMING_COLLECTION: Content::Share;
    WriterTerritory::MECHANICAL_COLLECTION: Content::Share;
    WriterTerritory::SYNCHRONIZATION_COLLECTION: Content::Share;
};

/// Reads a writer's territory (SWT) from a line.
///
/// An error is the first field of the line that cannot be read.
pub fn read_writer_territory(line: &[u8]) -> Result<WriterTerritory, FieldFault>
    ensures ok { IfOk result (StandsFor table.writer_territory line.now) }
    ensures fault { IfErr result (IsLeastFault line.now (checked table.writer_territory)) }
    // What was written is read back.
    ensures again { (x : WriterTerritory) → IsWhole table.writer_territory x → line.now ≡ line_of table.writer_territory x → result ≡ Ok x }
{
    check(line, &WRITER_TERRITORY)?;
    Ok(writer_territory_at(line))
}

/// The writer's territory of a line whose fields were checked.
fn writer_territory_at(line: &[u8]) -> WriterTerritory
    requires { AllByRecursion (IsReadable line.now) (checked table.writer_territory) }
    ensures { StandsFor table.writer_territory line.now result }
{
    WriterTerritory {
        prefix: Prefix {
            transaction: number_at(line, Prefix::TRANSACTION),
            detail: number_at(line, Prefix::DETAIL),
        },
        party: text_at(line, WriterTerritory::PARTY),
        performing_collection: share_at(line, WriterTerritory::PERFORMING_COLLECTION),
        mechanical_collection: share_at(line, WriterTerritory::MECHANICAL_COLLECTION),
        synchronization_collection: share_at(line, WriterTerritory::SYNCHRONIZATION_COLLECTION),
        indicator: text_at(line, WriterTerritory::INDICATOR),
        territory: text_at(line, WriterTerritory::TERRITORY),
        shares_change: text_at(line, WriterTerritory::SHARES_CHANGE),
        sequence: text_at(line, WriterTerritory::SEQUENCE),
    }
}

/// Appends the line of a writer's territory, 52 bytes without a line end.
///
/// Each sequence has at most eight digits, and a share is at most 10000. A refusal leaves the vector as it was.
pub fn write_writer_territory<A: Allocator>(
    out: &mut Vec<u8, A>,
    territory: &WriterTerritory,
) -> Result<(), Memory>
    requires { Fits table.writer_territory territory.now }
    ensures ok { OnOk result (out.new.items ≡ out.old.items ++ line_of table.writer_territory territory.now) }
    // This is what the reader requires of a value that it reads back.
    ensures whole { OnOk result (IsWhole table.writer_territory territory.now) }
    ensures err { OnErr result (out.new.items ≡ out.old.items) }
    // `Memory` is returned only where there was no room for the line.
    ensures full { OnErr result (vec_capacity out.old < vec_len out.old + 52) }
{
    put_line(
        out,
        &[
            FieldValue::Text(b"SWT", RecordType::COLUMN),
            FieldValue::Digits(territory.prefix.transaction as u64, Prefix::TRANSACTION),
            FieldValue::Digits(territory.prefix.detail as u64, Prefix::DETAIL),
            FieldValue::Text(&territory.party, WriterTerritory::PARTY),
            FieldValue::Share(territory.performing_collection),
            FieldValue::Share(territory.mechanical_collection),
            FieldValue::Share(territory.synchronization_collection),
            FieldValue::Text(&territory.indicator, WriterTerritory::INDICATOR),
            FieldValue::Text(&territory.territory, WriterTerritory::TERRITORY),
            FieldValue::Text(&territory.shares_change, WriterTerritory::SHARES_CHANGE),
            FieldValue::Text(&territory.sequence, WriterTerritory::SEQUENCE),
        ],
    )
}

/// The publisher of a writer: PWR, Publisher for Writer.
#[derive(Clone, Copy, Debug, PartialEq, Eq)]
pub struct Link {
    /// Which record of which transaction it is.
    pub prefix: Prefix,
    /// Interested party number of the publisher, at [`Link::PUBLISHER_PARTY`].
    pub publisher_party: [u8; 9],
    /// Publisher name, at [`Link::PUBLISHER_NAME`].
    pub publisher_name: [u8; 45],
    /// Submitter agreement number, at [`Link::SUBMITTER_AGREEMENT`].
    pub submitter_agreement: [u8; 14],
    /// Society agreement number, at [`Link::SOCIETY_AGREEMENT`].
    pub society_agreement: [u8; 14],
    /// Interested party number of the writer, at [`Link::WRITER_PARTY`].
    pub writer_party: [u8; 9],
}

const LINK: [Slot; 3] = slots! {
    RecordType::COLUMN: Content::Kind(*b"PWR");
    Prefix::TRANSACTION: Content::Digits;
    Prefix::DETAIL: Content::Digits;
};

/// Reads the publisher of a writer (PWR) from a line.
///
/// An error is the first field of the line that cannot be read.
pub fn read_link(line: &[u8]) -> Result<Link, FieldFault>
    ensures ok { IfOk result (StandsFor table.link line.now) }
    ensures fault { IfErr result (IsLeastFault line.now (checked table.link)) }
    // What was written is read back.
    ensures again { (x : Link) → IsWhole table.link x → line.now ≡ line_of table.link x → result ≡ Ok x }
{
    check(line, &LINK)?;
    Ok(link_at(line))
}

/// The writer's publisher of a line whose fields were checked.
fn link_at(line: &[u8]) -> Link
    requires { AllByRecursion (IsReadable line.now) (checked table.link) }
    ensures { StandsFor table.link line.now result }
{
    Link {
        prefix: Prefix {
            transaction: number_at(line, Prefix::TRANSACTION),
            detail: number_at(line, Prefix::DETAIL),
        },
        publisher_party: text_at(line, Link::PUBLISHER_PARTY),
        publisher_name: text_at(line, Link::PUBLISHER_NAME),
        submitter_agreement: text_at(line, Link::SUBMITTER_AGREEMENT),
        society_agreement: text_at(line, Link::SOCIETY_AGREEMENT),
        writer_party: text_at(line, Link::WRITER_PARTY),
    }
}

/// Appends the line of a writer's publisher, 110 bytes without a line end.
///
/// Each sequence has at most eight digits. A refusal leaves the vector as it was.
pub fn write_link<A: Allocator>(out: &mut Vec<u8, A>, link: &Link) -> Result<(), Memory>
    requires { Fits table.link link.now }
    ensures ok { OnOk result (out.new.items ≡ out.old.items ++ line_of table.link link.now) }
    // This is what the reader requires of a value that it reads back.
    ensures whole { OnOk result (IsWhole table.link link.now) }
    ensures err { OnErr result (out.new.items ≡ out.old.items) }
    // `Memory` is returned only where there was no room for the line.
    ensures full { OnErr result (vec_capacity out.old < vec_len out.old + 110) }
{
    put_line(
        out,
        &[
            FieldValue::Text(b"PWR", RecordType::COLUMN),
            FieldValue::Digits(link.prefix.transaction as u64, Prefix::TRANSACTION),
            FieldValue::Digits(link.prefix.detail as u64, Prefix::DETAIL),
            FieldValue::Text(&link.publisher_party, Link::PUBLISHER_PARTY),
            FieldValue::Text(&link.publisher_name, Link::PUBLISHER_NAME),
            FieldValue::Text(&link.submitter_agreement, Link::SUBMITTER_AGREEMENT),
            FieldValue::Text(&link.society_agreement, Link::SOCIETY_AGREEMENT),
            FieldValue::Text(&link.writer_party, Link::WRITER_PARTY),
        ],
    )
}
