ghost use Rattle.std.specs.Prelude.{◌≡◌, ◌+◌, ◌≤◌, ◌<◌, ◌^◌, ◌∷◌, ◌++◌, [], ℕ, List, Option, Some, None, length, is_some, IsTrue, IfOk, IfErr, OnOk};
ghost use Rattle.std.specs.Str.Lines.{lines};
ghost use Rattle.cwr_field.specs.Layout.{is_printable};
ghost use Rattle.cwr_field.specs.Number.{max_count};
ghost use Rattle.cwr_record.specs.RecordTypes.{type_of};
ghost use Rattle.cwr_record.specs.declared.control.Header.{Header};
ghost use Rattle.cwr_grammar.specs.Counted.{FitsHeader};
ghost use Rattle.cwr_grammar.specs.RawParts.{RawParts};
ghost use Rattle.cwr_grammar.specs.Submitted.{IsRefusal};
ghost use Rattle.cwr_grammar.specs.Visiting.{MayBeGiven, WasGiven, open_after, whole_after, with_line};

use crate::envelope::Envelope;
use crate::file_counts::FileCounts;
use crate::file_reader::FileReader;
use crate::refusal::FileRefusal;
use crate::role::Role;
use cwr_field::Memory;
use cwr_record::{Header, RecordType, WorkKind};

/// Receives the header of a file, and then its transactions line by line, as [`visit_file`] comes to them.
///
/// No line that it is given has a byte below 32. Once it was refused memory, it is given nothing more.
pub trait Visitor {
    // What the second visitor keeps of what it was given since it was as the first: of the header, of the complete
    // transactions, and of the lines of an open one.
    ghost keeps: { Self → Self → Option Header → List RawParts → Option RawParts → Type 0 };

    /// The file begins, with this header. No byte of its sender is below 32.
    fn header(&mut self, header: &Header)
        requires nothing { (first : Self) × keeps first self.old None [] None }
        requires printable { IsTrue (is_printable header.now.sender) }
        ensures { (first : Self) → keeps first self.old None [] None → keeps first self.new (Some header.now) [] None };

    /// A transaction begins: its group id, its transaction sequence, its kind and its header's line.
    fn begin(
        &mut self,
        group: u32,
        sequence: u32,
        kind: WorkKind,
        head: &[u8],
    ) -> Result<(), Memory>
        requires between { (first : Self) × (header : Header) × (whole : List RawParts) × keeps first self.old (Some header) whole None }
        requires group { group < 10 ^ 5 }
        requires sequence { sequence < 10 ^ 8 }
        requires printable { IsTrue (is_printable head.now) }
        ensures { OnOk result ((first : Self) (header : Header) (whole : List RawParts) → keeps first self.old (Some header) whole None
            → keeps first self.new (Some header) whole (Some (record { group = group; sequence = sequence; kind = kind; lines = head.now ∷ [] }))) };

    /// The open transaction goes on with a detail's line, of this record type.
    fn detail(&mut self, line: &[u8], record_type: RecordType) -> Result<(), Memory>
        requires begun { (first : Self) × (header : Header) × (whole : List RawParts) × (t : RawParts) × keeps first self.old (Some header) whole (Some t) × (length t.lines ≤ max_count) }
        requires read { record_type ≡ type_of line.now }
        requires printable { IsTrue (is_printable line.now) }
        ensures { OnOk result ((first : Self) (header : Header) (whole : List RawParts) (t : RawParts) → keeps first self.old (Some header) whole (Some t)
            → keeps first self.new (Some header) whole (Some (with_line line.now t))) };

    /// The open transaction is complete.
    fn end(&mut self) -> Result<(), Memory>
        requires begun { (first : Self) × (header : Header) × (whole : List RawParts) × (t : RawParts) × keeps first self.old (Some header) whole (Some t) × (length t.lines ≤ max_count + 1) × (length whole < 2 ^ 63) }
        ensures { OnOk result ((first : Self) (header : Header) (whole : List RawParts) (t : RawParts) → keeps first self.old (Some header) whole (Some t)
            → keeps first self.new (Some header) (whole ++ t ∷ []) None) };
}

/// Reads a file as [`parse_file`](crate::parse_file) does, and gives its header and its transactions to a visitor as it
/// comes to them. A file that comes a chunk at a time is read by a [`FileReader`].
///
/// Of a well-formed file the visitor is given the header, and then all transactions, in order, and the file's envelope
/// is returned. Of any other file the first fault is returned, and what the visitor was given belongs to no file. No
/// memory is asked for but by the visitor.
pub fn visit_file<V: Visitor>(bytes: &[u8], visitor: &mut V) -> Result<Envelope, FileRefusal>
    requires { V.keeps visitor.old visitor.old None [] None }
    ensures given { IfOk result (λ envelope. WasGiven (V.keeps visitor.old visitor.new) bytes.now envelope.header envelope.groups envelope.records) }
    ensures fault { IfErr result (IsRefusal (lines bytes.now)) }
{
    FileReader::new().finish(visitor, bytes)
}

/// Gives a line behind the file's header to a visitor. A line that is no detail ends the open transaction, and the
/// header of a transaction opens the next one.
///
/// - `visitor` receives the line.
/// - `is_open` is whether a transaction is open.
/// - `line` is the line, without its end.
/// - `record_type` is its record type.
/// - `role` is its role.
/// - `counts` are those of the lines before it.
#[inline(always)]
pub(crate) fn give<V: Visitor>(
    visitor: &mut V,
    is_open: bool,
    line: &[u8],
    record_type: RecordType,
    role: &Role,
    counts: &FileCounts,
) -> Result<(), Memory>
    requires fits { FitsHeader role.now counts.now }
    requires read { record_type ≡ type_of line.now }
    requires printable { IsTrue (is_printable line.now) }
    requires kept { (first : V) × (header : Header) × (whole : List RawParts) × (current : Option RawParts) × V.keeps first visitor.old (Some header) whole current × MayBeGiven role.now is_open current × (length whole < 2 ^ 63) }
    ensures { OnOk result ((first : V) (header : Header) (whole : List RawParts) (current : Option RawParts) → is_some current ≡ is_open → V.keeps first visitor.old (Some header) whole current
        → V.keeps first visitor.new (Some header) (whole_after role.now whole current) (open_after role.now line.now counts.now.groups counts.now.transactions current)) }
{
    if let Role::Detail(_, _) = *role {
        visitor.detail(line, record_type)?;
        return Ok(());
    }
    if is_open {
        visitor.end()?;
    }
    if let Role::TransactionHeader(Some(kind), _, _) = *role {
        visitor.begin(counts.groups as u32, counts.transactions as u32, kind, line)?;
    }
    Ok(())
}
