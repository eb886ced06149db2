//! Where each field of each record stands. No other code has the positions of a line.
//!
//! The definitions have them as well, in `specs/Columns.antt`. Each function that reads a field has a contract in terms
//! of the definitions, so the check refuses it where the two differ.

ghost use Rattle.std.specs.Prelude.{◌≡◌, ◌≤◌, ◌<◌, ◌^◌, length, IfSome, IsTrue};
ghost use Rattle.cwr_field.specs.Number.{number_of};
ghost use Rattle.cwr_record.specs.Columns.{field_at};
ghost use Rattle.cwr_record.specs.Ranges.{is_in_line};

use crate::acknowledgement::{Ack, Message};
use crate::control::{FileTrailer, GroupHead, GroupTrailer, Header};
use crate::prefix::Prefix;
use crate::publishers::{Publisher, PublisherTerritory};
use crate::record_type::RecordType;
use crate::works::{AltTitle, CrossRef, WorkHead};
use crate::writers::{Link, Writer, WriterTerritory};
use cwr_field::{Field, cut, digits};

/// Where a field of a line stands: its start and its width.
///
/// Each field of a record has a constant of its own, such as [`WorkHead::TITLE`].
#[derive(Clone, Copy, Debug, PartialEq, Eq, Hash)]
pub struct Column {
    /// The position of the field's first byte, counted from 1.
    pub start: usize,
    /// How many bytes the field has.
    pub width: usize,
}

/// The field of a line in a column.
///
/// The column begins at one of the positions 1 to 4096 and has 1 to 150 bytes, as each constant does. A line that is
/// too short for the field reads as if it went on in blanks without end.
#[inline(always)]
pub fn field_at(line: &[u8], column: Column) -> Field<'_>
    requires { IsTrue (is_in_line column) }
    ensures value { result ≡ field_at line.now column }
    ensures width { length result ≡ column.width }
{
    cut(line, column.start, column.width)
}

/// The number that a column of at most 18 bytes holds, where each of its bytes is a digit.
#[inline(always)]
pub fn digits_at(line: &[u8], column: Column) -> Option<u64>
    requires column { IsTrue (is_in_line column) }
    requires width { column.width ≤ 18 }
    ensures value { result ≡ number_of (field_at line.now column) }
    ensures bound { IfSome result (λ n. n < 10 ^ column.width) }
{
    digits(field_at(line, column))
}

/// A column by its start and its width.
macro_rules! column {
    ($start:literal, $width:literal) => {
        Column { start: $start, width: $width }
    };
}

/// The column of every record.
impl RecordType {
    /// Record Type.
    pub const COLUMN: Column = column!(1, 3);
}

/// The columns of every record of a transaction.
impl Prefix {
    /// Transaction Sequence #.
    pub const TRANSACTION: Column = column!(4, 8);
    /// Record Sequence #.
    pub const DETAIL: Column = column!(12, 8);
}

/// The columns of HDR, Transmission Header.
impl Header {
    /// Sender Type, Sender ID.
    pub const SENDER: Column = column!(4, 11);
    /// Sender Name.
    pub const NAME: Column = column!(15, 45);
    /// EDI Standard Version Number.
    pub const STANDARD_VERSION: Column = column!(60, 5);
    /// Creation Date.
    pub const CREATION_DATE: Column = column!(65, 8);
    /// Creation Time.
    pub const CREATION_TIME: Column = column!(73, 6);
    /// Transmission Date.
    pub const TRANSMISSION_DATE: Column = column!(79, 8);
    /// Character Set.
    pub const CHARACTER_SET: Column = column!(87, 15);
    /// Version.
    pub const VERSION: Column = column!(102, 3);
    /// Revision.
    pub const REVISION: Column = column!(105, 3);
    /// Software Package.
    pub const SOFTWARE_PACKAGE: Column = column!(108, 30);
    /// Software Package Version.
    pub const SOFTWARE_VERSION: Column = column!(138, 30);
}

/// The columns of GRH, Group Header.
impl GroupHead {
    /// Transaction Type.
    pub const TRANSACTION_TYPE: Column = column!(4, 3);
    /// Group ID.
    pub const GROUP: Column = column!(7, 5);
    /// Version Number for this Transaction Type.
    pub const VERSION: Column = column!(12, 5);
    /// Batch Request.
    pub const BATCH_REQUEST: Column = column!(17, 10);
    /// Submission/Distribution Type.
    pub const SUBMISSION_TYPE: Column = column!(27, 2);
}

/// The columns of GRT, Group Trailer.
impl GroupTrailer {
    /// Group ID.
    pub const GROUP: Column = column!(4, 5);
    /// Transaction Count.
    pub const TRANSACTIONS: Column = column!(9, 8);
    /// Record Count.
    pub const RECORDS: Column = column!(17, 8);
    /// Currency Indicator, Total Monetary Value.
    pub const MONETARY_VALUE: Column = column!(25, 13);
}

/// The columns of TRL, Transmission Trailer.
impl FileTrailer {
    /// Group Count.
    pub const GROUPS: Column = column!(4, 5);
    /// Transaction Count.
    pub const TRANSACTIONS: Column = column!(9, 8);
    /// Record Count.
    pub const RECORDS: Column = column!(17, 8);
}

/// The columns of NWR, New Work Registration, and REV, Revised Registration.
impl WorkHead {
    /// Work Title.
    pub const TITLE: Column = column!(20, 60);
    /// Language Code.
    pub const LANGUAGE: Column = column!(80, 2);
    /// Submitter Work #.
    pub const SUBMITTER_NUMBER: Column = column!(82, 14);
    /// ISWC.
    pub const ISWC: Column = column!(96, 11);
    /// Copyright Date.
    pub const COPYRIGHT_DATE: Column = column!(107, 8);
    /// Copyright Number.
    pub const COPYRIGHT_NUMBER: Column = column!(115, 12);
    /// Musical Work Distribution Category.
    pub const DISTRIBUTION_CATEGORY: Column = column!(127, 3);
    /// Duration.
    pub const DURATION: Column = column!(130, 6);
    /// Recorded Indicator.
    pub const RECORDED_INDICATOR: Column = column!(136, 1);
    /// Text Music Relationship.
    pub const TEXT_MUSIC_RELATIONSHIP: Column = column!(137, 3);
    /// Composite Type.
    pub const COMPOSITE_TYPE: Column = column!(140, 3);
    /// Version Type.
    pub const VERSION_TYPE: Column = column!(143, 3);
    /// Excerpt Type.
    pub const EXCERPT_TYPE: Column = column!(146, 3);
    /// Music Arrangement.
    pub const ARRANGEMENT: Column = column!(149, 3);
    /// Lyric Adaptation.
    pub const LYRIC_ADAPTATION: Column = column!(152, 3);
    /// Contact Name.
    pub const CONTACT_NAME: Column = column!(155, 30);
    /// Contact ID.
    pub const CONTACT_ID: Column = column!(185, 10);
}

/// The columns of ALT, Alternate Title.
impl AltTitle {
    /// Alternate Title.
    pub const TITLE: Column = column!(20, 60);
    /// Title Type.
    pub const TITLE_TYPE: Column = column!(80, 2);
    /// Language Code.
    pub const LANGUAGE: Column = column!(82, 2);
}

/// The columns of XRF, Work ID Cross Reference.
impl CrossRef {
    /// Organisation Code.
    pub const ORGANISATION: Column = column!(20, 3);
    /// Identifier.
    pub const IDENTIFIER: Column = column!(23, 14);
    /// Identifier Type.
    pub const IDENTIFIER_TYPE: Column = column!(37, 1);
    /// Validity.
    pub const VALIDITY: Column = column!(38, 1);
}

/// The columns of SPU, Publisher Controlled by Submitter, and OPU, Other Publisher.
impl Publisher {
    /// Publisher Sequence #.
    pub const SEQUENCE: Column = column!(20, 2);
    /// Interested Party #.
    pub const PARTY: Column = column!(22, 9);
    /// Publisher Name.
    pub const NAME: Column = column!(31, 45);
    /// Publisher Unknown Indicator.
    pub const UNKNOWN_INDICATOR: Column = column!(76, 1);
    /// Publisher Type.
    pub const PUBLISHER_TYPE: Column = column!(77, 2);
    /// Tax ID #.
    pub const TAX_ID: Column = column!(79, 9);
    /// Publisher IPI Name #.
    pub const IPI_NAME_NUMBER: Column = column!(88, 11);
    /// Submitter Agreement Number.
    pub const SUBMITTER_AGREEMENT: Column = column!(99, 14);
    /// PR Affiliation Society #.
    pub const PERFORMING_SOCIETY: Column = column!(113, 3);
    /// PR Ownership Share.
    pub const PERFORMING_OWNERSHIP: Column = column!(116, 5);
    /// MR Affiliation Society #.
    pub const MECHANICAL_SOCIETY: Column = column!(121, 3);
    /// MR Ownership Share.
    pub const MECHANICAL_OWNERSHIP: Column = column!(124, 5);
    /// SR Affiliation Society #.
    pub const SYNCHRONIZATION_SOCIETY: Column = column!(129, 3);
    /// SR Ownership Share.
    pub const SYNCHRONIZATION_OWNERSHIP: Column = column!(132, 5);
}

/// The columns of SPT, Publisher Territory of Control.
impl PublisherTerritory {
    /// Interested Party #.
    pub const PARTY: Column = column!(20, 9);
    /// Constant.
    pub const CONSTANT: Column = column!(29, 6);
    /// PR Collection Share.
    pub const PERFORMING_COLLECTION: Column = column!(35, 5);
    /// MR Collection Share.
    pub const MECHANICAL_COLLECTION: Column = column!(40, 5);
    /// SR Collection Share.
    pub const SYNCHRONIZATION_COLLECTION: Column = column!(45, 5);
    /// Inclusion/Exclusion Indicator.
    pub const INDICATOR: Column = column!(50, 1);
    /// TIS Numeric Code.
    pub const TERRITORY: Column = column!(51, 4);
    /// Shares Change.
    pub const SHARES_CHANGE: Column = column!(55, 1);
    /// Sequence #.
    pub const SEQUENCE: Column = column!(56, 3);
}

/// The columns of SWR, Writer Controlled by Submitter, and OWR, Other Writer.
impl Writer {
    /// Interested Party #.
    pub const PARTY: Column = column!(20, 9);
    /// Writer Last Name.
    pub const LAST_NAME: Column = column!(29, 45);
    /// Writer First Name.
    pub const FIRST_NAME: Column = column!(74, 30);
    /// Writer Unknown Indicator.
    pub const UNKNOWN_INDICATOR: Column = column!(104, 1);
    /// Writer Designation Code.
    pub const DESIGNATION: Column = column!(105, 2);
    /// Tax ID #.
    pub const TAX_ID: Column = column!(107, 9);
    /// Writer IPI Name #.
    pub const IPI_NAME_NUMBER: Column = column!(116, 11);
    /// PR Affiliation Society #.
    pub const PERFORMING_SOCIETY: Column = column!(127, 3);
    /// PR Ownership Share.
    pub const PERFORMING_OWNERSHIP: Column = column!(130, 5);
    /// MR Affiliation Society #.
    pub const MECHANICAL_SOCIETY: Column = column!(135, 3);
    /// MR Ownership Share.
    pub const MECHANICAL_OWNERSHIP: Column = column!(138, 5);
    /// SR Affiliation Society #.
    pub const SYNCHRONIZATION_SOCIETY: Column = column!(143, 3);
    /// SR Ownership Share.
    pub const SYNCHRONIZATION_OWNERSHIP: Column = column!(146, 5);
}

/// The columns of SWT, Writer Territory of Control.
impl WriterTerritory {
    /// Interested Party #.
    pub const PARTY: Column = column!(20, 9);
    /// PR Collection Share.
    pub const PERFORMING_COLLECTION: Column = column!(29, 5);
    /// MR Collection Share.
    pub const MECHANICAL_COLLECTION: Column = column!(34, 5);
    /// SR Collection Share.
    pub const SYNCHRONIZATION_COLLECTION: Column = column!(39, 5);
    /// Inclusion/Exclusion Indicator.
    pub const INDICATOR: Column = column!(44, 1);
    /// TIS Numeric Code.
    pub const TERRITORY: Column = column!(45, 4);
    /// Shares Change.
    pub const SHARES_CHANGE: Column = column!(49, 1);
    /// Sequence #.
    pub const SEQUENCE: Column = column!(50, 3);
}

/// The columns of PWR, Publisher for Writer.
impl Link {
    /// Publisher IP #.
    pub const PUBLISHER_PARTY: Column = column!(20, 9);
    /// Publisher Name.
    pub const PUBLISHER_NAME: Column = column!(29, 45);
    /// Submitter Agreement Number.
    pub const SUBMITTER_AGREEMENT: Column = column!(74, 14);
    /// Society-Assigned Agreement Number.
    pub const SOCIETY_AGREEMENT: Column = column!(88, 14);
    /// Writer IP #.
    pub const WRITER_PARTY: Column = column!(102, 9);
}

/// The columns of ACK, Acknowledgement of Transaction.
impl Ack {
    /// Creation Date.
    pub const CREATION_DATE: Column = column!(20, 8);
    /// Creation Time.
    pub const CREATION_TIME: Column = column!(28, 6);
    /// Original Group ID.
    pub const ORIGINAL_GROUP: Column = column!(34, 5);
    /// Original Transaction Sequence #.
    pub const ORIGINAL_TRANSACTION: Column = column!(39, 8);
    /// Original Transaction Type.
    pub const ORIGINAL_TYPE: Column = column!(47, 3);
    /// Creation Title.
    pub const TITLE: Column = column!(50, 60);
    /// Submitter Creation #.
    pub const SUBMITTER_NUMBER: Column = column!(110, 20);
    /// Recipient Creation #.
    pub const RECIPIENT_NUMBER: Column = column!(130, 20);
    /// Processing Date.
    pub const PROCESSING_DATE: Column = column!(150, 8);
    /// Transaction Status.
    pub const STATUS: Column = column!(158, 2);
}

/// The columns of MSG, Message.
impl Message {
    /// Message Type.
    pub const MESSAGE_TYPE: Column = column!(20, 1);
    /// Original Record Sequence #.
    pub const ORIGINAL_RECORD: Column = column!(21, 8);
    /// Record Type.
    pub const RECORD_TYPE: Column = column!(29, 3);
    /// Message Level.
    pub const MESSAGE_LEVEL: Column = column!(32, 1);
    /// Validation Number.
    pub const VALIDATION_NUMBER: Column = column!(33, 3);
    /// Message Text.
    pub const TEXT: Column = column!(36, 150);
}
