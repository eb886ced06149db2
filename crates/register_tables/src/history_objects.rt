//! Every entry as a JSON object.

ghost use Rattle.std.specs.Prelude.{◌≡◌, if◌then◌else◌, codes, IfOk, OnOk};
ghost use Rattle.std.specs.List.{flat_map};
ghost use Rattle.std.specs.Io.KnownBytes.{Appends};
ghost use Rattle.register_tables.specs.CsvRows.{iswc_field};
ghost use Rattle.register_tables.specs.HistoryJson.{entry_data, entry_json, fault_data, faults_data, history_json, iswc_data, named_data, other_members, reply_members, middle_members};
ghost use Rattle.register_tables.specs.HistoryTable.{entry_row, entry_rows};
ghost use Rattle.register_tables.specs.JsonValues.{member_tokens, shown_data, value_tokens, Adds};
ghost use Rattle.register_tables.specs.Summary.{count};
ghost use Rattle.register_tables.specs.Wanted.{is_wanted};

use crate::json_values::{Shown, line_of, number_or_null, put_members, put_object, set_rule};
use crate::rows::{TableError, WrittenTable, set_iswc};
use crate::wanted::{Wanted, is_wanted};
use cwr_field::Memory;
use json::Writer;
use std::alloc::Allocator;
use std::io::{BufWriter, Write};
use work_registry::{Book, Entry, Fault, Reply};

/// Buffers for the texts of an object.
#[derive(Drop)]
struct Rooms<A: Allocator + Drop> {
    text: String<A>,
    bytes: Vec<u8, A>,
}

/// Writes the entries of a book that are wanted, in order, each as a JSON object on a line of its own, and returns
/// `to` and the number of objects.
///
/// The members of an object stand in the order of their names: `entry`, the index from 1; `faults`, a list of objects
/// with `record`, the type of the faulty record, `rule`, as `J4`, and `sequence`, the record sequence; `iswc`, or null;
/// `kind`, `NWR` or `REV`; `mechanical_control`, in hundredths of one per cent; `number`, the submitter work number;
/// `performing_control`; `status`, `AS`, `DU`, `CO` or `RJ`; `submitter`, sender type and sender id of HDR;
/// `synchronization_control`; `title`; `version`, null but with `AS`; and `work`, null with `RJ`. In a text each byte
/// of the register is the character with its number, blanks included. A line ends with LF.
pub fn history_json<W: Write + Drop, A: Allocator + Copy + Drop>(
    alloc: A,
    to: W,
    book: &Book<A>,
    wanted: &Wanted,
) -> Result<WrittenTable<W>, TableError>
    ensures text { IfOk result (λ told. Appends (W.contents to) (W.contents told.to) (history_json wanted.now book.now.history)) }
    ensures rows { IfOk result (λ told. told.rows ≡ count (is_wanted wanted.now) book.now.history) }
{
    let Ok(mut out) = BufWriter::with_capacity(alloc, MAX_PENDING, to) else {
        return Err(TableError::Memory);
    };
    let rows = put_entries(alloc, &mut out, book.history(), wanted)?;
    match out.into_inner() {
        Ok(to) => Ok(WrittenTable { to, rows }),
        Err(_) => Err(TableError::Write),
    }
}

/// The number of bytes that are gathered before they are written.
const MAX_PENDING: usize = 65_536;

/// Writes the entries that are wanted, and returns their number.
fn put_entries<W: Write, A: Allocator + Copy + Drop>(
    alloc: A,
    out: &mut W,
    entries: &[Entry<A>],
    wanted: &Wanted,
) -> Result<u64, TableError>
    ensures text { OnOk result (Appends (W.contents out.old) (W.contents out.new) (entry_rows entry_json wanted.now 1 entries.now)) }
    ensures rows { IfOk result (λ rows. rows ≡ count (is_wanted wanted.now) entries.now) }
{
    let mut rooms = Rooms {
        text: String::new(alloc),
        bytes: Vec::new(alloc),
    };
    let mut rows = 0;
    for (before, entry) in entries.iter().enumerate() {
        rows += put_wanted(alloc, out, &mut rooms, before as u64 + 1, entry, wanted)?;
    }
    Ok(rows)
}

/// Writes an entry, if it is wanted, and returns the number of rows written, 0 or 1. `alloc` allocates, `out` is
/// written to, and `rooms` has buffers for texts. `index` is that of `entry`, from 1, and `wanted` selects entries.
#[tactic(auto, using(crate::proofs::Steps::nothing))]
fn put_wanted<W: Write, A: Allocator + Copy + Drop>(
    alloc: A,
    out: &mut W,
    rooms: &mut Rooms<A>,
    index: u64,
    entry: &Entry<A>,
    wanted: &Wanted,
) -> Result<u64, TableError>
    ensures text { OnOk result (Appends (W.contents out.old) (W.contents out.new) (entry_row entry_json wanted.now index entry.now)) }
    ensures rows { IfOk result (λ rows. rows ≡ (if is_wanted wanted.now entry.now then 1 else 0)) }
{
    if is_wanted(wanted, entry) {
        let line = entry_line(alloc, rooms, index, entry)?;
        return match out.write_all(&line) {
            Ok(()) => Ok(1),
            Err(_) => Err(TableError::Write),
        };
    }
    Ok(0)
}

/// The line of an entry.
fn entry_line<A: Allocator + Copy + Drop>(
    alloc: A,
    rooms: &mut Rooms<A>,
    index: u64,
    entry: &Entry<A>,
) -> Result<Vec<u8, A>, Memory>
    ensures { IfOk result (λ line. line.items ≡ entry_json index entry.now) }
{
    let mut out = Writer::new(Vec::with_capacity(alloc, FEW_PENDING)?);
    put_entry(&mut out, rooms, index, entry)?;
    line_of(out)
}

/// A bound on the bytes of most lines.
const FEW_PENDING: usize = 512;

/// Writes an entry.
fn put_entry<A: Allocator + Copy + Drop>(
    out: &mut Writer<A>,
    rooms: &mut Rooms<A>,
    index: u64,
    entry: &Entry<A>,
) -> Result<(), Memory>
    ensures { OnOk result (Adds out.old out.new (value_tokens (entry_data index entry.now))) }
{
    out.begin_object()?;
    put_members(out, &mut rooms.text, &[("entry", Shown::Number(index))])?;
    out.key("faults")?;
    put_faults(out, rooms, entry.call().faults())?;
    put_others(out, rooms, entry)?;
    out.end_object()?;
    Ok(())
}

/// Writes the faults of a call, as a list of objects.
fn put_faults<A: Allocator + Copy + Drop>(
    out: &mut Writer<A>,
    rooms: &mut Rooms<A>,
    faults: &[Fault],
) -> Result<(), Memory>
    ensures { OnOk result (Adds out.old out.new (value_tokens (faults_data faults.now))) }
{
    out.begin_array()?;
    for fault in faults {
        put_fault(out, rooms, *fault)?;
    }
    out.end_array()?;
    Ok(())
}

/// Writes a fault.
fn put_fault<A: Allocator + Copy + Drop>(
    out: &mut Writer<A>,
    rooms: &mut Rooms<A>,
    fault: Fault,
) -> Result<(), Memory>
    ensures { OnOk result (Adds out.old out.new (value_tokens (fault_data fault))) }
{
    set_rule(&mut rooms.bytes, b'J', fault.number)?;
    put_named(
        out,
        &mut rooms.text,
        &fault.rtype,
        &rooms.bytes,
        fault.sequence,
    )
}

/// Writes a fault to `out`. `buffer` is a scratch buffer for texts. `rtype` is the type of the faulty record, `rule`
/// the name of the rule, and `sequence` the record sequence, from 0.
fn put_named<'t, A: Allocator + Copy + Drop>(
    out: &mut Writer<A>,
    buffer: &mut String<A>,
    rtype: &'t [u8],
    rule: &'t [u8],
    sequence: u32,
) -> Result<(), Memory>
    ensures { OnOk result (Adds out.old out.new (value_tokens (named_data rtype.now rule.now sequence))) }
{
    put_object(
        out,
        buffer,
        &[
            ("record", Shown::Text(rtype)),
            ("rule", Shown::Text(rule)),
            ("sequence", Shown::Number(sequence as u64)),
        ],
    )
}

/// Writes what is behind the faults of an entry.
fn put_others<A: Allocator + Copy + Drop>(
    out: &mut Writer<A>,
    rooms: &mut Rooms<A>,
    entry: &Entry<A>,
) -> Result<(), Memory>
    ensures { OnOk result (Adds out.old out.new (flat_map member_tokens (other_members entry.now))) }
{
    set_iswc(&mut rooms.bytes, entry.call().iswc())?;
    put_iswc(out, &mut rooms.text, entry.call().iswc(), &rooms.bytes)?;
    put_middle_members(out, &mut rooms.text, entry)?;
    put_reply(out, &mut rooms.text, entry.reply())
}

/// Writes an ISWC, or null. `field` has the ISWC as a text.
fn put_iswc<A: Allocator + Copy + Drop>(
    out: &mut Writer<A>,
    buffer: &mut String<A>,
    iswc: Option<u64>,
    field: &[u8],
) -> Result<(), Memory>
    requires { field.now ≡ iswc_field iswc }
    ensures { OnOk result (Adds out.old out.new (member_tokens (codes "iswc", iswc_data iswc))) }
{
    let code = code_or_null(iswc, field);
    put_members(out, buffer, &[("iswc", code)])
}

/// Writes the work that a reply names, and the version.
fn put_reply<A: Allocator + Copy + Drop>(
    out: &mut Writer<A>,
    buffer: &mut String<A>,
    reply: Reply,
) -> Result<(), Memory>
    ensures { OnOk result (Adds out.old out.new (flat_map member_tokens (reply_members reply))) }
{
    let (version, work) = (
        number_or_null(reply.version()),
        number_or_null(reply.work()),
    );
    put_members(out, buffer, &[("version", version), ("work", work)])
}

/// Writes the members of an entry between its ISWC and its version.
fn put_middle_members<A: Allocator + Copy + Drop>(
    out: &mut Writer<A>,
    buffer: &mut String<A>,
    entry: &Entry<A>,
) -> Result<(), Memory>
    ensures { OnOk result (Adds out.old out.new (flat_map member_tokens (middle_members entry.now))) }
{
    let call = entry.call();
    let (submitter, number, title) = (call.submitter(), call.number(), call.title());
    let (kind, status) = (*call.kind().code(), *entry.reply().status().code());
    let control = call.control();
    put_members(
        out,
        buffer,
        &[
            ("kind", Shown::Text(&kind)),
            ("mechanical_control", Shown::Number(control[1])),
            ("number", Shown::Text(&number)),
            ("performing_control", Shown::Number(control[0])),
            ("status", Shown::Text(&status)),
            ("submitter", Shown::Text(&submitter)),
            ("synchronization_control", Shown::Number(control[2])),
            ("title", Shown::Text(&title)),
        ],
    )
}

/// An ISWC, or null. `field` has the ISWC as a text.
fn code_or_null(iswc: Option<u64>, field: &[u8]) -> Shown<'_>
    requires { field.now ≡ iswc_field iswc }
    ensures { shown_data result ≡ iswc_data iswc }
{
    match iswc {
        Some(_) => Shown::Text(field),
        None => Shown::Null,
    }
}
