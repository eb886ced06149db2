ghost use Rattle.std.specs.Prelude.{◌≡◌, ◌++◌, IfOk, IfErr, OnOk, OnErr, vec_len, vec_capacity, ◌<◌, ◌+◌};
ghost use Rattle.std.specs.List.{AllByRecursion};
ghost use Rattle.cwr_record.specs.Layout.{StandsFor};
ghost use Rattle.cwr_record.specs.Readable.{IsReadable};
ghost use Rattle.cwr_record.specs.Faults.{IsLeastFault, checked};
ghost use Rattle.cwr_record.specs.Lines.{Fits, IsWhole, line_of};
ghost use Rattle.cwr_record.specs.Control as table;
ghost use Rattle.cwr_record.specs.declared.control.Header.{Header};
ghost use Rattle.cwr_record.specs.declared.control.GroupHead.{GroupHead};
ghost use Rattle.cwr_record.specs.declared.control.GroupTrailer.{GroupTrailer};
ghost use Rattle.cwr_record.specs.declared.control.FileTrailer.{FileTrailer};

use crate::field_values::FieldValue;
use crate::line_room::LineRoom;
use crate::record_type::RecordType;
use crate::slot::{Content, FieldFault, Slot, check, slots};
use crate::values::{day_at, number_at, text_at, time_at};
use cwr_field::{Clock, Day, Memory};
use std::alloc::Allocator;

/// The head of a file: HDR, Transmission Header.
#[derive(Clone, Copy, Debug, PartialEq, Eq)]
pub struct Header {
    /// Sender type and sender id, at [`Header::SENDER`].
    pub sender: [u8; 11],
    /// Sender name, at [`Header::NAME`].
    pub name: [u8; 45],
    /// Creation date, at [`Header::CREATION_DATE`].
    pub creation_date: Day,
    /// Creation time, at [`Header::CREATION_TIME`].
    pub creation_time: Clock,
    /// Transmission date, at [`Header::TRANSMISSION_DATE`].
    pub transmission_date: Day,
    /// Character set, at [`Header::CHARACTER_SET`].
    pub character_set: [u8; 15],
}

const HEADER: [Slot; 4] = slots! {
    RecordType::COLUMN: Content::Kind(*b"HDR");
    Header::CREATION_DATE: Content::Day;
    Header::CREATION_TIME: Content::Time;
    Header::TRANSMISSION_DATE: Content::Day;
};

/// Reads a file header (HDR) from a line.
///
/// The EDI version and what stands past the character set are not read. An error is the first field of the line that
/// cannot be read.
pub fn read_header(line: &[u8]) -> Result<Header, FieldFault>
    ensures ok { IfOk result (StandsFor table.header line.now) }
    ensures fault { IfErr result (IsLeastFault line.now (checked table.header)) }
    // What was written is read back.
    ensures again { (x : Header) → IsWhole table.header x → line.now ≡ line_of table.header x → result ≡ Ok x }
{
    check(line, &HEADER)?;
    Ok(header_at(line))
}

/// The header of a line whose fields were checked.
fn header_at(line: &[u8]) -> Header
    requires { AllByRecursion (IsReadable line.now) (checked table.header) }
    ensures { StandsFor table.header line.now result }
{
    Header {
        sender: text_at(line, Header::SENDER),
        name: text_at(line, Header::NAME),
        creation_date: day_at(line, Header::CREATION_DATE),
        creation_time: time_at(line, Header::CREATION_TIME),
        transmission_date: day_at(line, Header::TRANSMISSION_DATE),
        character_set: text_at(line, Header::CHARACTER_SET),
    }
}

/// The line of a file header, 167 bytes without a line end.
pub fn header_line(header: &Header) -> LineRoom<167>
    ensures line { result ≡ line_of table.header header.now }
    // This is what the reader requires of a value that it reads back.
    ensures whole { IsWhole table.header header.now }
{
    let mut line = LineRoom::<167>::new();
    line.put(&FieldValue::Text(b"HDR", RecordType::COLUMN));
    line.put(&FieldValue::Text(&header.sender, Header::SENDER));
    line.put(&FieldValue::Text(&header.name, Header::NAME));
    line.put(&FieldValue::Text(b"01.10", Header::STANDARD_VERSION));
    line.put(&FieldValue::Day(header.creation_date));
    line.put(&FieldValue::Time(header.creation_time));
    line.put(&FieldValue::Day(header.transmission_date));
    line.put(&FieldValue::Text(&header.character_set, Header::CHARACTER_SET));
    line.put(&FieldValue::Text(b"2.2", Header::VERSION));
    line.put(&FieldValue::Text(b"001", Header::REVISION));
    line.put(&FieldValue::Text(b"CWR REGISTRY", Header::SOFTWARE_PACKAGE));
    line.put(&FieldValue::Text(b"1.0", Header::SOFTWARE_VERSION));
    line
}

/// Appends the line of a file header, 167 bytes without a line end.
///
/// A refusal leaves the vector as it was.
pub fn write_header<A: Allocator>(out: &mut Vec<u8, A>, header: &Header) -> Result<(), Memory>
    ensures ok { OnOk result (out.new.items ≡ out.old.items ++ line_of table.header header.now) }
    // This is what the reader requires of a value that it reads back.
    ensures whole { OnOk result (IsWhole table.header header.now) }
    ensures err { OnErr result (out.new.items ≡ out.old.items) }
    // `Memory` is returned only where there was no room for the line.
    ensures full { OnErr result (vec_capacity out.old < vec_len out.old + 167) }
{
    out.extend_from_slice(header_line(header).bytes())?;
    Ok(())
}

/// The head of a group: GRH, Group Header.
#[derive(Clone, Copy, Debug, PartialEq, Eq)]
pub struct GroupHead {
    /// Transaction type of the group, at [`GroupHead::TRANSACTION_TYPE`].
    pub transaction_type: [u8; 3],
    /// Group id, at [`GroupHead::GROUP`]: 1 for the first group of a file, and one more for each next one.
    pub group: u32,
    /// Version number of the transaction type, at [`GroupHead::VERSION`].
    pub version: [u8; 5],
    /// Batch request, at [`GroupHead::BATCH_REQUEST`].
    pub batch_request: [u8; 10],
    /// Submission or distribution type, at [`GroupHead::SUBMISSION_TYPE`].
    pub submission_type: [u8; 2],
}

const GROUP_HEAD: [Slot; 2] = slots! {
    RecordType::COLUMN: Content::Kind(*b"GRH");
    GroupHead::GROUP: Content::Digits;
};

/// Reads a group header (GRH) from a line.
///
/// An error is the first field of the line that cannot be read.
pub fn read_group_head(line: &[u8]) -> Result<GroupHead, FieldFault>
    ensures ok { IfOk result (StandsFor table.group_head line.now) }
    ensures fault { IfErr result (IsLeastFault line.now (checked table.group_head)) }
    // What was written is read back.
    ensures again { (x : GroupHead) → IsWhole table.group_head x → line.now ≡ line_of table.group_head x → result ≡ Ok x }
{
    check(line, &GROUP_HEAD)?;
    Ok(group_head_at(line))
}

/// The group header of a line whose fields were checked.
fn group_head_at(line: &[u8]) -> GroupHead
    requires { AllByRecursion (IsReadable line.now) (checked table.group_head) }
    ensures { StandsFor table.group_head line.now result }
{
    GroupHead {
        transaction_type: text_at(line, GroupHead::TRANSACTION_TYPE),
        group: number_at(line, GroupHead::GROUP),
        version: text_at(line, GroupHead::VERSION),
        batch_request: text_at(line, GroupHead::BATCH_REQUEST),
        submission_type: text_at(line, GroupHead::SUBMISSION_TYPE),
    }
}

/// The line of a group header, 28 bytes without a line end.
///
/// The group id has at most five digits.
pub fn group_head_line(head: &GroupHead) -> LineRoom<28>
    requires { Fits table.group_head head.now }
    ensures line { result ≡ line_of table.group_head head.now }
    // This is what the reader requires of a value that it reads back.
    ensures whole { IsWhole table.group_head head.now }
{
    let mut line = LineRoom::<28>::new();
    line.put(&FieldValue::Text(b"GRH", RecordType::COLUMN));
    line.put(&FieldValue::Text(&head.transaction_type, GroupHead::TRANSACTION_TYPE));
    line.put(&FieldValue::Digits(head.group as u64, GroupHead::GROUP));
    line.put(&FieldValue::Text(&head.version, GroupHead::VERSION));
    line.put(&FieldValue::Text(&head.batch_request, GroupHead::BATCH_REQUEST));
    line.put(&FieldValue::Text(&head.submission_type, GroupHead::SUBMISSION_TYPE));
    line
}

/// Appends the line of a group header, 28 bytes without a line end.
///
/// The group id has at most five digits. A refusal leaves the vector as it was.
pub fn write_group_head<A: Allocator>(out: &mut Vec<u8, A>, head: &GroupHead) -> Result<(), Memory>
    requires { Fits table.group_head head.now }
    ensures ok { OnOk result (out.new.items ≡ out.old.items ++ line_of table.group_head head.now) }
    // This is what the reader requires of a value that it reads back.
    ensures whole { OnOk result (IsWhole table.group_head head.now) }
    ensures err { OnErr result (out.new.items ≡ out.old.items) }
    // `Memory` is returned only where there was no room for the line.
    ensures full { OnErr result (vec_capacity out.old < vec_len out.old + 28) }
{
    out.extend_from_slice(group_head_line(head).bytes())?;
    Ok(())
}

/// The end of a group: GRT, Group Trailer.
#[derive(Clone, Copy, Debug, PartialEq, Eq, Hash)]
pub struct GroupTrailer {
    /// Group id, at [`GroupTrailer::GROUP`]: that of the group's head.
    pub group: u32,
    /// Transaction count, at [`GroupTrailer::TRANSACTIONS`]: how many transactions the group has.
    pub transactions: u32,
    /// Record count, at [`GroupTrailer::RECORDS`]: how many records the group has, its head and its trailer included.
    pub records: u32,
}

const GROUP_TRAILER: [Slot; 4] = slots! {
    RecordType::COLUMN: Content::Kind(*b"GRT");
    GroupTrailer::GROUP: Content::Digits;
    GroupTrailer::TRANSACTIONS: Content::Digits;
    GroupTrailer::RECORDS: Content::Digits;
};

/// Reads a group trailer (GRT) from a line.
///
/// What stands past the record count is not read. An error is the first field of the line that cannot be read.
pub fn read_group_trailer(line: &[u8]) -> Result<GroupTrailer, FieldFault>
    ensures ok { IfOk result (StandsFor table.group_trailer line.now) }
    ensures fault { IfErr result (IsLeastFault line.now (checked table.group_trailer)) }
    // What was written is read back.
    ensures again { (x : GroupTrailer) → IsWhole table.group_trailer x → line.now ≡ line_of table.group_trailer x → result ≡ Ok x }
{
    check(line, &GROUP_TRAILER)?;
    Ok(group_trailer_at(line))
}

/// The group trailer of a line whose fields were checked.
fn group_trailer_at(line: &[u8]) -> GroupTrailer
    requires { AllByRecursion (IsReadable line.now) (checked table.group_trailer) }
    ensures { StandsFor table.group_trailer line.now result }
{
    GroupTrailer {
        group: number_at(line, GroupTrailer::GROUP),
        transactions: number_at(line, GroupTrailer::TRANSACTIONS),
        records: number_at(line, GroupTrailer::RECORDS),
    }
}

/// The line of a group trailer, 37 bytes without a line end.
///
/// The group id has at most five digits, the counts at most eight.
pub fn group_trailer_line(trailer: &GroupTrailer) -> LineRoom<37>
    requires { Fits table.group_trailer trailer.now }
    ensures line { result ≡ line_of table.group_trailer trailer.now }
    // This is what the reader requires of a value that it reads back.
    ensures whole { IsWhole table.group_trailer trailer.now }
{
    let mut line = LineRoom::<37>::new();
    line.put(&FieldValue::Text(b"GRT", RecordType::COLUMN));
    line.put(&FieldValue::Digits(trailer.group as u64, GroupTrailer::GROUP));
    line.put(&FieldValue::Digits(trailer.transactions as u64, GroupTrailer::TRANSACTIONS));
    line.put(&FieldValue::Digits(trailer.records as u64, GroupTrailer::RECORDS));
    line.put(&FieldValue::Text(b"", GroupTrailer::MONETARY_VALUE));
    line
}

/// Appends the line of a group trailer, 37 bytes without a line end.
///
/// The group id has at most five digits, each count at most eight. A refusal leaves the vector as it was.
pub fn write_group_trailer<A: Allocator>(
    out: &mut Vec<u8, A>,
    trailer: &GroupTrailer,
) -> Result<(), Memory>
    requires { Fits table.group_trailer trailer.now }
    ensures ok { OnOk result (out.new.items ≡ out.old.items ++ line_of table.group_trailer trailer.now) }
    // This is what the reader requires of a value that it reads back.
    ensures whole { OnOk result (IsWhole table.group_trailer trailer.now) }
    ensures err { OnErr result (out.new.items ≡ out.old.items) }
    // `Memory` is returned only where there was no room for the line.
    ensures full { OnErr result (vec_capacity out.old < vec_len out.old + 37) }
{
    out.extend_from_slice(group_trailer_line(trailer).bytes())?;
    Ok(())
}

/// The end of a file: TRL, Transmission Trailer.
#[derive(Clone, Copy, Debug, PartialEq, Eq, Hash)]
pub struct FileTrailer {
    /// Group count, at [`FileTrailer::GROUPS`]: how many groups the file has.
    pub groups: u32,
    /// Transaction count, at [`FileTrailer::TRANSACTIONS`]: how many transactions the file has.
    pub transactions: u32,
    /// Record count, at [`FileTrailer::RECORDS`]: how many records the file has, its header and its trailer included.
    pub records: u32,
}

const FILE_TRAILER: [Slot; 4] = slots! {
    RecordType::COLUMN: Content::Kind(*b"TRL");
    FileTrailer::GROUPS: Content::Digits;
    FileTrailer::TRANSACTIONS: Content::Digits;
    FileTrailer::RECORDS: Content::Digits;
};

/// Reads a file trailer (TRL) from a line.
///
/// An error is the first field of the line that cannot be read.
pub fn read_file_trailer(line: &[u8]) -> Result<FileTrailer, FieldFault>
    ensures ok { IfOk result (StandsFor table.file_trailer line.now) }
    ensures fault { IfErr result (IsLeastFault line.now (checked table.file_trailer)) }
    // What was written is read back.
    ensures again { (x : FileTrailer) → IsWhole table.file_trailer x → line.now ≡ line_of table.file_trailer x → result ≡ Ok x }
{
    check(line, &FILE_TRAILER)?;
    Ok(file_trailer_at(line))
}

/// The file trailer of a line whose fields were checked.
fn file_trailer_at(line: &[u8]) -> FileTrailer
    requires { AllByRecursion (IsReadable line.now) (checked table.file_trailer) }
    ensures { StandsFor table.file_trailer line.now result }
{
    FileTrailer {
        groups: number_at(line, FileTrailer::GROUPS),
        transactions: number_at(line, FileTrailer::TRANSACTIONS),
        records: number_at(line, FileTrailer::RECORDS),
    }
}

/// The line of a file trailer, 24 bytes without a line end.
///
/// The group count has at most five digits, the other counts at most eight.
pub fn file_trailer_line(trailer: &FileTrailer) -> LineRoom<24>
    requires { Fits table.file_trailer trailer.now }
    ensures line { result ≡ line_of table.file_trailer trailer.now }
    // This is what the reader requires of a value that it reads back.
    ensures whole { IsWhole table.file_trailer trailer.now }
{
    let mut line = LineRoom::<24>::new();
    line.put(&FieldValue::Text(b"TRL", RecordType::COLUMN));
    line.put(&FieldValue::Digits(trailer.groups as u64, FileTrailer::GROUPS));
    line.put(&FieldValue::Digits(trailer.transactions as u64, FileTrailer::TRANSACTIONS));
    line.put(&FieldValue::Digits(trailer.records as u64, FileTrailer::RECORDS));
    line
}

/// Appends the line of a file trailer, 24 bytes without a line end.
///
/// The group count has at most five digits, the other counts at most eight. A refusal leaves the vector as it was.
pub fn write_file_trailer<A: Allocator>(
    out: &mut Vec<u8, A>,
    trailer: &FileTrailer,
) -> Result<(), Memory>
    requires { Fits table.file_trailer trailer.now }
    ensures ok { OnOk result (out.new.items ≡ out.old.items ++ line_of table.file_trailer trailer.now) }
    // This is what the reader requires of a value that it reads back.
    ensures whole { OnOk result (IsWhole table.file_trailer trailer.now) }
    ensures err { OnErr result (out.new.items ≡ out.old.items) }
    // `Memory` is returned only where there was no room for the line.
    ensures full { OnErr result (vec_capacity out.old < vec_len out.old + 24) }
{
    out.extend_from_slice(file_trailer_line(trailer).bytes())?;
    Ok(())
}
