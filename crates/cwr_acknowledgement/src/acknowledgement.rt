ghost use Rattle.std.specs.Prelude.{◌≡◌, ◌≤◌, ◌<◌, ◌^◌, ◌+◌, ◌*◌, ℕ, [], true, false, length, take, IfOk, OnOk, Err};
ghost use Rattle.std.specs.Result.{is_err};
ghost use Rattle.std.specs.Io.KnownBytes.{Appends};
ghost use Rattle.std.specs.List.{flat_map, AllByRecursion};
ghost use Rattle.cwr_record.specs.Lines.{line_of};
ghost use Rattle.cwr_record.specs.Control as control;
ghost use Rattle.cwr_record.specs.Acknowledgement as table;
ghost use Rattle.cwr_acknowledgement.specs.AckItem.{reported_faults};
ghost use Rattle.cwr_acknowledgement.specs.Acknowledgement.{file_header, group_header, group_trailer, file_trailer, ack_record, message_record};
ghost use Rattle.cwr_acknowledgement.specs.Acknowledgement.{message_lines, item_lines, all_item_lines, reported_fault_count, max_ack_records, ended, ack_text, FitsItem, FitsFault};
ghost use Rattle.cwr_acknowledgement.specs.Outgoing.{IsPut, size_of};

use crate::ack_error::AckError;
use crate::ack_item::{AckItem, Listed};
use crate::ack_line_writer::AckLineWriter;
use crate::ack_records::{file_header, file_trailer, group_header, group_trailer};
use crate::answers::Answers;
use crate::nowhere::Nowhere;
use crate::outgoing::Outgoing;
use byte_streams::{Sink, WriteStopped};
use cwr_call::Fault;
use cwr_field::Memory;
use cwr_record::{
    Header, Stamp, file_trailer_line, group_head_line, group_trailer_line, header_line,
};
use std::alloc::Allocator;

/// How many bytes of an acknowledgement are held while it is written.
const CHUNK: usize = 65_536;

/// The acknowledgement of the transactions of a file, in the order of the file, whose header is `header`.
///
/// Its lines, each with CR LF at its end, are HDR, GRH, an ACK for each transaction, GRT and TRL. Behind the ACK of a
/// rejected transaction is a MSG for each of its faults. Titles and numbers of submitters are written as they stand.
///
/// Transactions and reported faults are at most 99,999,995 together, so that the counts fit. All memory is asked for
/// before the first line. Where it is refused nothing is left.
pub fn ack_file<A: Allocator + Copy>(
    alloc: A,
    stamp: &Stamp,
    header: &Header,
    items: &[AckItem],
) -> Result<Vec<u8, A>, Memory>
    requires few { length items.now + reported_fault_count items.now ≤ max_ack_records }
    requires fit { AllByRecursion FitsItem items.now }
    ensures { IfOk result (λ text. text.items ≡ ack_text stamp.now header.now items.now) }
{
    let listed = Listed { items };
    let mut out = Outgoing::new(
        alloc,
        text_len(items.len() as u32, reported_fault_count(&listed)),
    )?;
    let mut nowhere = Nowhere { failed: false };
    match put_all(&mut out, &mut nowhere, stamp, header, &listed) {
        Ok(()) => Ok(out.into_held()),
        Err(_) => Err(Memory),
    }
}

/// Writes the acknowledgement that [`ack_file`] makes, in chunks of up to 65,536 bytes.
///
/// - `alloc` is where the memory for a chunk comes from.
/// - `writer` is the sink, and has not failed.
/// - `stamp` is who acknowledges, and when.
/// - `header` is the header of the acknowledged file.
/// - `items` are its transactions and the decisions on them, in the order of the file.
///
/// No more than a chunk is in memory. All memory is asked for before the first write.
pub fn send_ack<W: Sink, A: Allocator + Copy>(
    alloc: A,
    writer: &mut W,
    stamp: &Stamp,
    header: &Header,
    items: &[AckItem],
) -> Result<(), AckError>
    requires works { W.has_failed writer.old ≡ false }
    requires few { length items.now + reported_fault_count items.now ≤ max_ack_records }
    requires fit { AllByRecursion FitsItem items.now }
    ensures all { OnOk result (Appends (W.taken writer.old) (W.taken writer.new) (ack_text stamp.now header.now items.now)) }
    ensures went_on { OnOk result (W.has_failed writer.new ≡ false) }

    // A stopped write left the first `sent` bytes, and a write of this call failed or took none of some bytes.
    ensures first { (sent : ℕ) → result ≡ Err (AckError.Write sent)
        → Appends (W.taken writer.old) (W.taken writer.new) (take sent (ack_text stamp.now header.now items.now)) }
    ensures fewer { (sent : ℕ) → result ≡ Err (AckError.Write sent)
        → sent < length (ack_text stamp.now header.now items.now) }
    ensures failed { (sent : ℕ) → result ≡ Err (AckError.Write sent) → W.has_failed writer.new ≡ true }

    // Where memory was refused, nothing was written.
    ensures unwritten { result ≡ Err AckError.Memory → writer.new ≡ writer.old }
{
    send_answers(alloc, writer, stamp, header, &Listed { items })
}

/// Writes the acknowledgement of transactions that are kept in any form, as [`send_ack`] does for items.
///
/// The arguments are those of [`send_ack`], with `answers` instead of `items`:
///
/// - `alloc` is where memory comes from.
/// - `writer` is the sink, and has not failed.
/// - `stamp` is who acknowledges, and when.
/// - `header` is the header of the acknowledged file.
/// - `answers` has its transactions and the decisions on them, in the order of the file.
pub fn send_answers<W: Sink, L: Answers, A: Allocator + Copy>(
    alloc: A,
    writer: &mut W,
    stamp: &Stamp,
    header: &Header,
    answers: &L,
) -> Result<(), AckError>
    requires works { W.has_failed writer.old ≡ false }
    requires few { length (L.items answers.now) + reported_fault_count (L.items answers.now) ≤ max_ack_records }
    requires fit { AllByRecursion FitsItem (L.items answers.now) }
    ensures all { OnOk result (Appends (W.taken writer.old) (W.taken writer.new) (ack_text stamp.now header.now (L.items answers.now))) }
    ensures went_on { OnOk result (W.has_failed writer.new ≡ false) }

    // A stopped write left the first `sent` bytes, and a write of this call failed or took none of some bytes.
    ensures first { (sent : ℕ) → result ≡ Err (AckError.Write sent)
        → Appends (W.taken writer.old) (W.taken writer.new) (take sent (ack_text stamp.now header.now (L.items answers.now))) }
    ensures fewer { (sent : ℕ) → result ≡ Err (AckError.Write sent)
        → sent < length (ack_text stamp.now header.now (L.items answers.now)) }
    ensures failed { (sent : ℕ) → result ≡ Err (AckError.Write sent) → W.has_failed writer.new ≡ true }

    // Where memory was refused, nothing was written.
    ensures unwritten { result ≡ Err AckError.Memory → writer.new ≡ writer.old }
{
    let Ok(mut out) = Outgoing::new(alloc, CHUNK) else {
        return Err(AckError::Memory);
    };
    match send_all(&mut out, writer, stamp, header, answers) {
        Ok(()) => Ok(()),
        Err(cut) => Err(AckError::Write { sent: cut.sent }),
    }
}

/// Puts all lines into `out`, which writes them to `writer`, and then writes out what `out` still holds.
///
/// `stamp` is who acknowledges, `header` is that of the acknowledged file, and `answers` are its transactions.
fn send_all<W: Sink, L: Answers, A: Allocator>(
    out: &mut Outgoing<A>,
    writer: &mut W,
    stamp: &Stamp,
    header: &Header,
    answers: &L,
) -> Result<(), WriteStopped>
    requires works { W.has_failed writer.old ≡ false }
    requires size { size_of out.old ≤ 187 }
    requires few { length (L.items answers.now) + reported_fault_count (L.items answers.now) ≤ max_ack_records }
    requires fit { AllByRecursion FitsItem (L.items answers.now) }
    ensures put { IsPut result (W.taken writer.old) (W.taken writer.new) out.old out.new (4 + (length (L.items answers.now) + reported_fault_count (L.items answers.now))) (ack_text stamp.now header.now (L.items answers.now)) }
    ensures none_left { OnOk result (out.new.held ≡ []) }
    ensures fails { W.has_failed writer.new ≡ is_err result }
{
    put_all(out, writer, stamp, header, answers)?;
    out.write_held(writer)
}

/// Puts all lines into `out`, which writes them to `writer` whenever it is full.
///
/// `stamp` is who acknowledges, `header` is that of the acknowledged file, and `answers` are its transactions.
fn put_all<W: Sink, L: Answers, A: Allocator>(
    out: &mut Outgoing<A>,
    writer: &mut W,
    stamp: &Stamp,
    header: &Header,
    answers: &L,
) -> Result<(), WriteStopped>
    requires works { W.has_failed writer.old ≡ false }
    requires size { size_of out.old ≤ 187 }
    requires few { length (L.items answers.now) + reported_fault_count (L.items answers.now) ≤ max_ack_records }
    requires fit { AllByRecursion FitsItem (L.items answers.now) }
    ensures put { IsPut result (W.taken writer.old) (W.taken writer.new) out.old out.new (4 + (length (L.items answers.now) + reported_fault_count (L.items answers.now))) (ack_text stamp.now header.now (L.items answers.now)) }
    ensures fails { W.has_failed writer.new ≡ is_err result }
{
    let transactions = answers.len() as u32;
    let told = reported_fault_count(answers);
    out.put_line(writer, header_line(&file_header(stamp)).bytes())?;
    out.put_line(writer, group_head_line(&group_header()).bytes())?;
    put_items(out, writer, &mut AckLineWriter::new(stamp, header), answers)?;
    let group = group_trailer(transactions, told);
    out.put_line(writer, group_trailer_line(&group).bytes())?;
    let file = file_trailer(transactions, told);
    out.put_line(writer, file_trailer_line(&file).bytes())
}

/// How many faults are reported in all.
fn reported_fault_count<L: Answers>(answers: &L) -> u32
    requires { reported_fault_count (L.items answers.now) ≤ max_ack_records }
    ensures { result ≡ reported_fault_count (L.items answers.now) }
{
    let mut count: u32 = 0;
    for index in 0..answers.len() {
        count += answers.fault_count(index) as u32;
    }
    count
}

/// The length in bytes of the text, with `told` reported faults. Without its end an ACK line has 159 bytes, and a MSG
/// line 185.
fn text_len(transactions: u32, told: u32) -> usize
    ensures { 187 ≤ result }
{
    const STARTS_AND_ENDS: usize = 167 + 28 + 37 + 24 + 4 * 2;
    STARTS_AND_ENDS + transactions as usize * (159 + 2) + told as usize * (185 + 2)
}

fn put_items<W: Sink, L: Answers, A: Allocator>(
    out: &mut Outgoing<A>,
    writer: &mut W,
    form: &mut AckLineWriter,
    answers: &L,
) -> Result<(), WriteStopped>
    requires works { W.has_failed writer.old ≡ false }
    requires size { size_of out.old + 187 * (length (L.items answers.now) + reported_fault_count (L.items answers.now)) < 2 ^ 63 }
    requires few { length (L.items answers.now) + reported_fault_count (L.items answers.now) ≤ max_ack_records }
    requires fit { AllByRecursion FitsItem (L.items answers.now) }
    ensures put { IsPut result (W.taken writer.old) (W.taken writer.new) out.old out.new (length (L.items answers.now) + reported_fault_count (L.items answers.now))
        (flat_map ended (all_item_lines form.old.stamp form.old.header 0 (L.items answers.now))) }
    ensures fails { W.has_failed writer.new ≡ is_err result }
{
    for index in 0..answers.len() {
        put_item(out, writer, form, index as u32, &answers.item(index))?;
    }
    Ok(())
}

/// Puts the lines of an item into `out`: its ACK line, and a MSG line for each fault that is reported.
///
/// `writer` is where `out` writes when it is full, `form` makes the lines, and `index` is the place of the item in its
/// file, from 0.
fn put_item<W: Sink, A: Allocator>(
    out: &mut Outgoing<A>,
    writer: &mut W,
    form: &mut AckLineWriter,
    index: u32,
    item: &AckItem,
) -> Result<(), WriteStopped>
    requires works { W.has_failed writer.old ≡ false }
    requires size { size_of out.old + 187 * (1 + length (reported_faults item.now)) < 2 ^ 63 }
    requires few { length (reported_faults item.now) ≤ max_ack_records }
    requires fits { FitsItem item.now }
    ensures put { IsPut result (W.taken writer.old) (W.taken writer.new) out.old out.new (1 + length (reported_faults item.now))
        (flat_map ended (item_lines form.old.stamp form.old.header index item.now)) }
    ensures fails { W.has_failed writer.new ≡ is_err result }
    ensures same { form.new ≡ form.old }
{
    out.put_ack(writer, form, index, item)?;
    put_messages(out, writer, form, index, item.reported_faults())
}

/// Puts the MSG lines of a transaction into `out`, which writes to `writer` when it is full.
///
/// `form` makes the lines, `index` is the place of the transaction in its file, from 0, and `faults` are those that are
/// reported.
fn put_messages<W: Sink, A: Allocator>(
    out: &mut Outgoing<A>,
    writer: &mut W,
    form: &mut AckLineWriter,
    index: u32,
    faults: &[Fault],
) -> Result<(), WriteStopped>
    requires works { W.has_failed writer.old ≡ false }
    requires size { size_of out.old + 187 * length faults.now < 2 ^ 63 }
    requires few { length faults.now ≤ max_ack_records }
    requires fit { AllByRecursion FitsFault faults.now }
    ensures put { IsPut result (W.taken writer.old) (W.taken writer.new) out.old out.new (length faults.now)
        (flat_map ended (message_lines index 1 faults.now)) }
    ensures fails { W.has_failed writer.new ≡ is_err result }
    ensures same { form.new ≡ form.old }
{
    for (before, fault) in faults.iter().enumerate() {
        out.put_message(writer, form, index, before as u32 + 1, fault)?;
    }
    Ok(())
}
