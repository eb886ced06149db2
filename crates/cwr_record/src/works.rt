ghost use Rattle.std.specs.Prelude.{◌≡◌, ◌++◌, IfOk, IfErr, OnOk, OnErr, vec_len, vec_capacity, ◌<◌, ◌+◌, codes, IsSome, Some};
ghost use Rattle.std.specs.List.{AllByRecursion};
ghost use Rattle.cwr_record.specs.Columns.{field_at, every_record_type};
ghost use Rattle.cwr_record.specs.Kinds.{work_kind_code, work_kind_named};
ghost use Rattle.cwr_record.specs.declared.slot.Content.TheVariants as content;
ghost use Rattle.cwr_record.specs.Layout.{StandsFor, value_of, Bytes};
ghost use Rattle.cwr_record.specs.Readable.{IsReadable};
ghost use Rattle.cwr_record.specs.Faults.{IsLeastFault, checked};
ghost use Rattle.cwr_record.specs.Lines.{Fits, IsWhole, line_of};
ghost use Rattle.cwr_record.specs.Works as table;
ghost use Rattle.cwr_record.specs.declared.works.WorkHead.{WorkHead};
ghost use Rattle.cwr_record.specs.declared.works.AltTitle.{AltTitle};
ghost use Rattle.cwr_record.specs.declared.works.CrossRef.{CrossRef};

use crate::columns::field_at;
use crate::field_values::{FieldValue, put_line};
use crate::prefix::Prefix;
use crate::record_type::RecordType;
use crate::slot::{Content, FieldFault, Slot, check, slots};
use crate::values::{code_at, number_at, optional_day_at, optional_time_at, text_at};
use cwr_field::{Clock, Day, Memory};
use std::alloc::Allocator;

/// What a registration does: it is new, or it revises an earlier one.
#[derive(Clone, Copy, Debug, PartialEq, Eq, Hash)]
pub enum WorkKind {
    /// NWR, New Work Registration.
    Nwr,
    /// REV, Revised Registration.
    Rev,
}

impl WorkKind {
    /// The kind that a record type names.
    pub fn named(code: &[u8; 3]) -> Option<WorkKind>
        ensures { result ≡ work_kind_named code.now }
    {
        if *code == *b"NWR" {
            Some(WorkKind::Nwr)
        } else if *code == *b"REV" {
            Some(WorkKind::Rev)
        } else {
            None
        }
    }

    /// The record type that names it: `NWR` or `REV`.
    pub fn code(self) -> &'static [u8; 3]
        ensures { result.now ≡ work_kind_code self }
    {
        match self {
            WorkKind::Nwr => b"NWR",
            WorkKind::Rev => b"REV",
        }
    }
}

/// The kind of a registration whose record type was checked.
fn work_kind_at(line: &[u8]) -> WorkKind
    requires { IsSome (value_of (content.OneOf (codes "NWR") (codes "REV")) (field_at line.now every_record_type)) }
    ensures { value_of (content.OneOf (codes "NWR") (codes "REV")) (field_at line.now every_record_type) ≡ Some (Bytes (work_kind_code result)) }
{
    WorkKind::named(&field_at(line, RecordType::COLUMN).bytes()).unwrap()
}

/// The head of a work's registration: NWR, New Work Registration, or REV, Revised Registration.
#[derive(Clone, Copy, Debug, PartialEq, Eq)]
pub struct WorkHead {
    /// Which record of which transaction it is.
    pub prefix: Prefix,
    /// The record type, at [`RecordType::COLUMN`].
    pub kind: WorkKind,
    /// Work title, at [`WorkHead::TITLE`].
    pub title: [u8; 60],
    /// Language code, at [`WorkHead::LANGUAGE`].
    pub language: [u8; 2],
    /// Submitter work number, at [`WorkHead::SUBMITTER_NUMBER`].
    pub submitter_number: [u8; 14],
    /// Work code (ISWC), at [`WorkHead::ISWC`]: the number of its nine digits, `None` for blanks.
    pub iswc: Option<u64>,
    /// Copyright date, at [`WorkHead::COPYRIGHT_DATE`], `None` for blanks and for 00000000.
    pub copyright_date: Option<Day>,
    /// Copyright number, at [`WorkHead::COPYRIGHT_NUMBER`].
    pub copyright_number: [u8; 12],
    /// Musical work distribution category, at [`WorkHead::DISTRIBUTION_CATEGORY`].
    pub distribution_category: [u8; 3],
    /// Duration in hours, minutes and seconds, at [`WorkHead::DURATION`], `None` for blanks.
    pub duration: Option<Clock>,
    /// Recorded indicator, at [`WorkHead::RECORDED_INDICATOR`].
    pub recorded_indicator: [u8; 1],
    /// Text music relationship, at [`WorkHead::TEXT_MUSIC_RELATIONSHIP`].
    pub text_music_relationship: [u8; 3],
    /// Composite type, at [`WorkHead::COMPOSITE_TYPE`].
    pub composite_type: [u8; 3],
    /// Version type, at [`WorkHead::VERSION_TYPE`].
    pub version_type: [u8; 3],
    /// Excerpt type, at [`WorkHead::EXCERPT_TYPE`].
    pub excerpt_type: [u8; 3],
    /// Music arrangement, at [`WorkHead::ARRANGEMENT`].
    pub arrangement: [u8; 3],
    /// Lyric adaptation, at [`WorkHead::LYRIC_ADAPTATION`].
    pub lyric_adaptation: [u8; 3],
    /// Contact name, at [`WorkHead::CONTACT_NAME`].
    pub contact_name: [u8; 30],
    /// Contact id, at [`WorkHead::CONTACT_ID`].
    pub contact_id: [u8; 10],
}

const WORK_HEAD: [Slot; 6] = slots! {
    RecordType::COLUMN: Content::OneOf(*b"NWR", *b"REV");
    Prefix::TRANSACTION: Content::Digits;
    Prefix::DETAIL: Content::Digits;
    WorkHead::ISWC: Content::Code;
    WorkHead::COPYRIGHT_DATE: Content::OptionalDay;
    WorkHead::DURATION: Content::OptionalTime;
};

/// Reads the head of a registration (NWR or REV) from a line.
///
/// An error is the first field of the line that cannot be read.
pub fn read_work_head(line: &[u8]) -> Result<WorkHead, FieldFault>
    ensures ok { IfOk result (StandsFor table.work_head line.now) }
    ensures fault { IfErr result (IsLeastFault line.now (checked table.work_head)) }
    // What was written is read back.
    ensures again { (x : WorkHead) → IsWhole table.work_head x → line.now ≡ line_of table.work_head x → result ≡ Ok x }
{
    check(line, &WORK_HEAD)?;
    Ok(work_head_at(line))
}

/// The registration's head of a line whose fields were checked.
fn work_head_at(line: &[u8]) -> WorkHead
    requires { AllByRecursion (IsReadable line.now) (checked table.work_head) }
    ensures { StandsFor table.work_head line.now result }
{
    WorkHead {
        prefix: Prefix {
            transaction: number_at(line, Prefix::TRANSACTION),
            detail: number_at(line, Prefix::DETAIL),
        },
        kind: work_kind_at(line),
        title: text_at(line, WorkHead::TITLE),
        language: text_at(line, WorkHead::LANGUAGE),
        submitter_number: text_at(line, WorkHead::SUBMITTER_NUMBER),
        iswc: code_at(line, WorkHead::ISWC),
        copyright_date: optional_day_at(line, WorkHead::COPYRIGHT_DATE),
        copyright_number: text_at(line, WorkHead::COPYRIGHT_NUMBER),
        distribution_category: text_at(line, WorkHead::DISTRIBUTION_CATEGORY),
        duration: optional_time_at(line, WorkHead::DURATION),
        recorded_indicator: text_at(line, WorkHead::RECORDED_INDICATOR),
        text_music_relationship: text_at(line, WorkHead::TEXT_MUSIC_RELATIONSHIP),
        composite_type: text_at(line, WorkHead::COMPOSITE_TYPE),
        version_type: text_at(line, WorkHead::VERSION_TYPE),
        excerpt_type: text_at(line, WorkHead::EXCERPT_TYPE),
        arrangement: text_at(line, WorkHead::ARRANGEMENT),
        lyric_adaptation: text_at(line, WorkHead::LYRIC_ADAPTATION),
        contact_name: text_at(line, WorkHead::CONTACT_NAME),
        contact_id: text_at(line, WorkHead::CONTACT_ID),
    }
}

/// Appends the line of a registration's head, 194 bytes without a line end.
///
/// Each sequence has at most eight digits, and the work's code nine digits. A refusal leaves the vector as it was.
pub fn write_work_head<A: Allocator>(out: &mut Vec<u8, A>, head: &WorkHead) -> Result<(), Memory>
    requires { Fits table.work_head head.now }
    ensures ok { OnOk result (out.new.items ≡ out.old.items ++ line_of table.work_head head.now) }
    // This is what the reader requires of a value that it reads back.
    ensures whole { OnOk result (IsWhole table.work_head head.now) }
    ensures err { OnErr result (out.new.items ≡ out.old.items) }
    // `Memory` is returned only where there was no room for the line.
    ensures full { OnErr result (vec_capacity out.old < vec_len out.old + 194) }
{
    put_line(
        out,
        &[
            FieldValue::Text(head.kind.code(), RecordType::COLUMN),
            FieldValue::Digits(head.prefix.transaction as u64, Prefix::TRANSACTION),
            FieldValue::Digits(head.prefix.detail as u64, Prefix::DETAIL),
            FieldValue::Text(&head.title, WorkHead::TITLE),
            FieldValue::Text(&head.language, WorkHead::LANGUAGE),
            FieldValue::Text(&head.submitter_number, WorkHead::SUBMITTER_NUMBER),
            FieldValue::Code(head.iswc),
            FieldValue::OptionalDay(head.copyright_date),
            FieldValue::Text(&head.copyright_number, WorkHead::COPYRIGHT_NUMBER),
            FieldValue::Text(&head.distribution_category, WorkHead::DISTRIBUTION_CATEGORY),
            FieldValue::OptionalTime(head.duration),
            FieldValue::Text(&head.recorded_indicator, WorkHead::RECORDED_INDICATOR),
            FieldValue::Text(
                &head.text_music_relationship,
                WorkHead::TEXT_MUSIC_RELATIONSHIP,
            ),
            FieldValue::Text(&head.composite_type, WorkHead::COMPOSITE_TYPE),
            FieldValue::Text(&head.version_type, WorkHead::VERSION_TYPE),
            FieldValue::Text(&head.excerpt_type, WorkHead::EXCERPT_TYPE),
            FieldValue::Text(&head.arrangement, WorkHead::ARRANGEMENT),
            FieldValue::Text(&head.lyric_adaptation, WorkHead::LYRIC_ADAPTATION),
            FieldValue::Text(&head.contact_name, WorkHead::CONTACT_NAME),
            FieldValue::Text(&head.contact_id, WorkHead::CONTACT_ID),
        ],
    )
}

/// An alternate title of a work: ALT, Alternate Title.
#[derive(Clone, Copy, Debug, PartialEq, Eq)]
pub struct AltTitle {
    /// Which record of which transaction it is.
    pub prefix: Prefix,
    /// Alternate title, at [`AltTitle::TITLE`].
    pub title: [u8; 60],
    /// Title type, at [`AltTitle::TITLE_TYPE`].
    pub title_type: [u8; 2],
    /// Language code, at [`AltTitle::LANGUAGE`].
    pub language: [u8; 2],
}

const ALT_TITLE: [Slot; 3] = slots! {
    RecordType::COLUMN: Content::Kind(*b"ALT");
    Prefix::TRANSACTION: Content::Digits;
    Prefix::DETAIL: Content::Digits;
};

/// Reads an alternate title (ALT) from a line.
///
/// An error is the first field of the line that cannot be read.
pub fn read_alt_title(line: &[u8]) -> Result<AltTitle, FieldFault>
    ensures ok { IfOk result (StandsFor table.alt_title line.now) }
    ensures fault { IfErr result (IsLeastFault line.now (checked table.alt_title)) }
    // What was written is read back.
    ensures again { (x : AltTitle) → IsWhole table.alt_title x → line.now ≡ line_of table.alt_title x → result ≡ Ok x }
{
    check(line, &ALT_TITLE)?;
    Ok(alt_title_at(line))
}

/// The alternate title of a line whose fields were checked.
fn alt_title_at(line: &[u8]) -> AltTitle
    requires { AllByRecursion (IsReadable line.now) (checked table.alt_title) }
    ensures { StandsFor table.alt_title line.now result }
{
    AltTitle {
        prefix: Prefix {
            transaction: number_at(line, Prefix::TRANSACTION),
            detail: number_at(line, Prefix::DETAIL),
        },
        title: text_at(line, AltTitle::TITLE),
        title_type: text_at(line, AltTitle::TITLE_TYPE),
        language: text_at(line, AltTitle::LANGUAGE),
    }
}

/// Appends the line of an alternate title, 83 bytes without a line end.
///
/// Each sequence has at most eight digits. A refusal leaves the vector as it was.
pub fn write_alt_title<A: Allocator>(
    out: &mut Vec<u8, A>,
    alternate: &AltTitle,
) -> Result<(), Memory>
    requires { Fits table.alt_title alternate.now }
    ensures ok { OnOk result (out.new.items ≡ out.old.items ++ line_of table.alt_title alternate.now) }
    // This is what the reader requires of a value that it reads back.
    ensures whole { OnOk result (IsWhole table.alt_title alternate.now) }
    ensures err { OnErr result (out.new.items ≡ out.old.items) }
    // `Memory` is returned only where there was no room for the line.
    ensures full { OnErr result (vec_capacity out.old < vec_len out.old + 83) }
{
    put_line(
        out,
        &[
            FieldValue::Text(b"ALT", RecordType::COLUMN),
            FieldValue::Digits(alternate.prefix.transaction as u64, Prefix::TRANSACTION),
            FieldValue::Digits(alternate.prefix.detail as u64, Prefix::DETAIL),
            FieldValue::Text(&alternate.title, AltTitle::TITLE),
            FieldValue::Text(&alternate.title_type, AltTitle::TITLE_TYPE),
            FieldValue::Text(&alternate.language, AltTitle::LANGUAGE),
        ],
    )
}

/// Another organisation's number of a work: XRF, Work ID Cross Reference, in the layout of this registry.
#[derive(Clone, Copy, Debug, PartialEq, Eq)]
pub struct CrossRef {
    /// Which record of which transaction it is.
    pub prefix: Prefix,
    /// Organisation code, at [`CrossRef::ORGANISATION`].
    pub organisation: [u8; 3],
    /// Identifier, at [`CrossRef::IDENTIFIER`].
    pub identifier: [u8; 14],
    /// Identifier type, at [`CrossRef::IDENTIFIER_TYPE`].
    pub identifier_type: [u8; 1],
    /// Validity, at [`CrossRef::VALIDITY`].
    pub validity: [u8; 1],
}

const CROSS_REF: [Slot; 3] = slots! {
    RecordType::COLUMN: Content::Kind(*b"XRF");
    Prefix::TRANSACTION: Content::Digits;
    Prefix::DETAIL: Content::Digits;
};

/// Reads a cross reference (XRF) from a line.
///
/// An error is the first field of the line that cannot be read.
pub fn read_cross_ref(line: &[u8]) -> Result<CrossRef, FieldFault>
    ensures ok { IfOk result (StandsFor table.cross_ref line.now) }
    ensures fault { IfErr result (IsLeastFault line.now (checked table.cross_ref)) }
    // What was written is read back.
    ensures again { (x : CrossRef) → IsWhole table.cross_ref x → line.now ≡ line_of table.cross_ref x → result ≡ Ok x }
{
    check(line, &CROSS_REF)?;
    Ok(cross_ref_at(line))
}

/// The cross reference of a line whose fields were checked.
fn cross_ref_at(line: &[u8]) -> CrossRef
    requires { AllByRecursion (IsReadable line.now) (checked table.cross_ref) }
    ensures { StandsFor table.cross_ref line.now result }
{
    CrossRef {
        prefix: Prefix {
            transaction: number_at(line, Prefix::TRANSACTION),
            detail: number_at(line, Prefix::DETAIL),
        },
        organisation: text_at(line, CrossRef::ORGANISATION),
        identifier: text_at(line, CrossRef::IDENTIFIER),
        identifier_type: text_at(line, CrossRef::IDENTIFIER_TYPE),
        validity: text_at(line, CrossRef::VALIDITY),
    }
}

/// Appends the line of a cross reference, 38 bytes without a line end.
///
/// Each sequence has at most eight digits. A refusal leaves the vector as it was.
pub fn write_cross_ref<A: Allocator>(
    out: &mut Vec<u8, A>,
    reference: &CrossRef,
) -> Result<(), Memory>
    requires { Fits table.cross_ref reference.now }
    ensures ok { OnOk result (out.new.items ≡ out.old.items ++ line_of table.cross_ref reference.now) }
    // This is what the reader requires of a value that it reads back.
    ensures whole { OnOk result (IsWhole table.cross_ref reference.now) }
    ensures err { OnErr result (out.new.items ≡ out.old.items) }
    // `Memory` is returned only where there was no room for the line.
    ensures full { OnErr result (vec_capacity out.old < vec_len out.old + 38) }
{
    put_line(
        out,
        &[
            FieldValue::Text(b"XRF", RecordType::COLUMN),
            FieldValue::Digits(reference.prefix.transaction as u64, Prefix::TRANSACTION),
            FieldValue::Digits(reference.prefix.detail as u64, Prefix::DETAIL),
            FieldValue::Text(&reference.organisation, CrossRef::ORGANISATION),
            FieldValue::Text(&reference.identifier, CrossRef::IDENTIFIER),
            FieldValue::Text(&reference.identifier_type, CrossRef::IDENTIFIER_TYPE),
            FieldValue::Text(&reference.validity, CrossRef::VALIDITY),
        ],
    )
}
