//! The text of a history.

ghost use Rattle.std.specs.Prelude.{◌≡◌, ◌++◌, ℕ, List, ◌<◌, ◌≤◌, ◌^◌, ◌*◌, ◌+◌, ◌-◌, IsTrue, length, sum_by};
ghost use Rattle.cwr_call.specs.Lawful.{is_lawful};
ghost use Rattle.cwr_field.specs.Number.{number_text};
ghost use Rattle.cwr_record.specs.Lines.{Fits, line_of};
ghost use Rattle.work_registry.specs.RegisterColumns.{count_width, head_width, fault_width};
ghost use Rattle.work_registry.specs.RegisterLine.{entry_count, head, fault, head_of, IsTyped};
ghost use Rattle.work_registry.specs.Register.{line_for};

use super::columns::{self, COUNT_WIDTH, FAULT_WIDTH, HEAD_WIDTH};
use super::head::Head;
use crate::entry::Entry;
use cwr_call::Fault;
use cwr_record::{Column, FieldValue, LineRoom};
use std::alloc::Allocator;

/// The fields of fixed place in the line of an entry.
pub(super) fn head_for<A: Allocator>(index: u32, entry: &Entry<A>) -> Head
    ensures value { result ≡ head_of (line_for index entry.now.call entry.now.reply) }
    ensures lawful { IsTrue (is_lawful entry.now.call) }
    ensures submitter { length entry.now.call.submitter ≡ 11 }
    ensures title { length entry.now.call.title ≡ 60 }
    ensures number { length entry.now.call.number ≡ 14 }
    ensures control { length entry.now.call.control ≡ 3 }
{
    let reply = entry.reply();
    Head {
        index,
        submitter: entry.call().submitter(),
        kind: entry.call().kind(),
        title: entry.call().title(),
        number: entry.call().number(),
        iswc: entry.call().iswc(),
        control: entry.call().control(),
        status: reply.status(),
        work: reply.work().unwrap_or(0),
        version: reply.version().unwrap_or(0),
        faults: entry.call().faults().len() as u32,
    }
}

/// Appends a number in as many digits as a column has, with leading zeros.
///
/// - `line` gets the digits.
/// - `value` is the number, which fits the column.
/// - `column` is the column, at most 18 bytes wide.
/// - `zeros` are leading digits of the column that are 0 for a small number.
/// - `limit` is the least number that needs one of these digits. A number below it is written as `zeros` and the rest.
#[inline(always)]
fn put_number(line: &mut LineRoom<HEAD_WIDTH>, value: u64, column: Column, zeros: &[u8], limit: u64)
    requires fits { value < 10 ^ column.width }
    requires start { column.start ≤ 4096 }
    requires width { column.width ≤ 18 }
    requires few { length zeros.now ≤ column.width }
    requires zeros { zeros.now ≡ number_text (length zeros.now) 0 }
    requires limit { limit ≡ 10 ^ (column.width - length zeros.now) }
    requires room { length line.old + column.width ≤ head_width }
    ensures text { line.new ≡ line.old ++ number_text column.width value }
    // The same, with any bytes behind it.
    ensures before { (behind : List ℕ) → line.new ++ behind ≡ line.old ++ (number_text column.width value ++ behind) }
{
    if value >= limit {
        line.put(&FieldValue::Digits(value, column));
        return;
    }
    let front = Column {
        start: column.start,
        width: zeros.len(),
    };
    let back = Column {
        start: column.start + zeros.len(),
        width: column.width - zeros.len(),
    };
    line.put(&FieldValue::Text(zeros, front));
    line.put(&FieldValue::Digits(value, back));
}

/// The fields of fixed place, as text.
pub(super) fn head_line(x: &Head) -> LineRoom<HEAD_WIDTH>
    requires { Fits head x.now }
    ensures { result ≡ line_of head x.now }
{
    let mut line = LineRoom::<HEAD_WIDTH>::new();
    line.put(&FieldValue::Text(b"ENT", columns::MARK));
    line.put(&FieldValue::Digits(x.index as u64, columns::INDEX));
    line.put(&FieldValue::Text(&x.submitter, columns::SUBMITTER));
    line.put(&FieldValue::Text(x.kind.code(), columns::KIND));
    line.put(&FieldValue::Text(&x.title, columns::TITLE));
    line.put(&FieldValue::Text(&x.number, columns::NUMBER));
    line.put(&FieldValue::Code(x.iswc));
    put_number(
        &mut line,
        x.control[0],
        columns::PERFORMING_CONTROL,
        b"000000",
        1000000,
    );
    put_number(
        &mut line,
        x.control[1],
        columns::MECHANICAL_CONTROL,
        b"000000",
        1000000,
    );
    put_number(
        &mut line,
        x.control[2],
        columns::SYNCHRONIZATION_CONTROL,
        b"000000",
        1000000,
    );
    line.put(&FieldValue::Text(x.status.code(), columns::STATUS));
    line.put(&FieldValue::Digits(x.work as u64, columns::WORK));
    put_number(
        &mut line,
        x.version as u64,
        columns::VERSION,
        b"000000",
        100,
    );
    put_number(&mut line, x.faults as u64, columns::FAULTS, b"00000000", 10);
    line
}

/// A fault, as text.
pub(super) fn fault_line(x: &Fault) -> LineRoom<FAULT_WIDTH>
    requires { Fits fault x.now }
    ensures text { result ≡ line_of fault x.now }
    ensures typed { IsTyped x.now }
{
    let mut line = LineRoom::<FAULT_WIDTH>::new();
    line.put(&FieldValue::Digits(x.sequence as u64, columns::FAULT_SEQUENCE));
    line.put(&FieldValue::Digits(x.number as u64, columns::FAULT_NUMBER));
    line.put(&FieldValue::Text(&x.rtype, columns::FAULT_RECORD_TYPE));
    line
}

/// The first line, without its end: the number of entries.
pub(super) fn first_line(count: usize) -> LineRoom<COUNT_WIDTH>
    requires { count < 10 ^ 8 }
    ensures { result ≡ line_of entry_count count }
{
    let mut line = LineRoom::<COUNT_WIDTH>::new();
    line.put(&FieldValue::Text(b"REG", columns::MARK));
    line.put(&FieldValue::Digits(count as u64, columns::COUNT));
    line
}

/// The capacity in bytes for the complete text: its length, and behind that the width of the fields of fixed place.
/// That much must be free even at the end of the text.
///
/// A line is its fields of fixed place, its faults and LF.
pub(super) fn room_for<A: Allocator>(entries: &[Entry<A>]) -> usize
    requires { length entries.now < 10 ^ 8 }
    ensures { result ≡ count_width + 1 + (head_width + 1) * length entries.now + fault_width * sum_by (λ e. length e.call.faults) entries.now + head_width }
{
    let mut faults = 0;
    for entry in entries {
        faults += entry.call().faults().len();
    }
    COUNT_WIDTH + 1 + (HEAD_WIDTH + 1) * entries.len() + FAULT_WIDTH * faults + HEAD_WIDTH
}
