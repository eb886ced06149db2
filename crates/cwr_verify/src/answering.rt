ghost use Rattle.std.specs.Prelude.{◌≡◌, ◌≤◌, ◌+◌, ℕ, List, Option, false, length, map, IfOk, IfErr, OnOk};
ghost use Rattle.std.specs.Io.KnownBytes.{Appends};
ghost use Rattle.std.specs.List.{AllByRecursion};
ghost use Rattle.work_registry.specs.EntryValue.{EntryValue};
ghost use Rattle.work_registry.specs.Numbers.{IsNumbered};
ghost use Rattle.cwr_acknowledgement.specs.Acknowledgement.{ack_text, max_ack_records, reported_fault_count};
ghost use Rattle.cwr_engine.specs.Account.{WriteEnds, max_file_bytes, write_ends};
ghost use Rattle.cwr_engine.specs.Judged.{WasJudged};
ghost use Rattle.cwr_engine.specs.AckItems.{items_with_replies};
ghost use Rattle.cwr_record.specs.Stamp.{StampParts};
ghost use Rattle.cwr_verify.specs.Again.{IsAnsweredAgain, IsJudgedFile, IsSentInPart, IsWhyNot, is_cut};
ghost use Rattle.cwr_verify.specs.Reading.{asked_in};
ghost use Rattle.cwr_verify.specs.Replied.{AreOfFile};
ghost use Rattle.cwr_verify.specs.Run.{IsRunFrom};

use crate::no_answer::NoAnswer;
use crate::reading::{Reading, reading_of};
use crate::replied::Replied;
use crate::run::{place_of, replies_of};
use byte_streams::Sink;
use cwr_acknowledgement::{AckError, send_answers};
use cwr_engine::{Judged, JudgedFile};
use cwr_field::Memory;
use cwr_record::{Header, Stamp};
use std::alloc::Allocator;
use work_registry::{Book, Entry};

/// Writes the acknowledgement of a file again, from a book in which its transactions have entries.
///
/// - `alloc` is where memory comes from.
/// - `book` is the book.
/// - `text` are the bytes of the file.
/// - `stamp` is who acknowledged the file, and when.
/// - `entry` is the number of the entry at which the run begins, from 1. With `None` the run begins at the last place
///   of the book from which there is one: of a file that was taken twice, that is the second time.
/// - `writer` gets the acknowledgement, and has not failed.
///
/// The transactions are judged again. Their run is an entry with the call of the first of them, the first entry behind
/// it with the call of the second, and so on.
///
/// What is written is the acknowledgement, byte for byte, that the file got when it was taken with this stamp and these
/// replies. Nothing is written before each transaction has its entry. For any other file the error says why.
pub fn answer<W: Sink, A: Allocator + Copy + Drop>(
    alloc: A,
    book: &Book<A>,
    text: &[u8],
    stamp: &Stamp,
    entry: Option<u32>,
    writer: &mut W,
) -> Result<(), NoAnswer>
    requires works { W.has_failed writer.old ≡ false }
    ensures answered { OnOk result (IsAnsweredAgain stamp.now text.now entry book.now.history (write_ends W.Sink writer.old writer.new)) }
    ensures why_not { IfErr result (IsWhyNot stamp.now text.now entry book.now.history (write_ends W.Sink writer.old writer.new)) }
    ensures unwritten { IfErr result (λ why. is_cut why ≡ false → writer.new ≡ writer.old) }
{
    let file = judged(alloc, text)?;
    let replied = run_of(alloc, book.history(), &file.transactions, entry)?;
    send(alloc, &file.header, &replied, stamp, writer)
}

/// The file of a text, judged.
fn judged<A: Allocator + Copy>(alloc: A, text: &[u8]) -> Result<JudgedFile<A>, NoAnswer>
    ensures fits { OnOk result (length text.now ≤ max_file_bytes) }
    ensures judged { IfOk result (λ file. WasJudged text.now file.header file.transactions.items) }
    ensures why_not { IfErr result (λ why. (stamp : StampParts) (entry : Option ℕ) (history : List EntryValue) (ends : WriteEnds)
        → IsWhyNot stamp text.now entry history ends why) }
{
    match reading_of(alloc, text) {
        Ok(Reading::File(file)) => Ok(file),
        Ok(Reading::TooLong) => Err(NoAnswer::TooLong),
        Ok(Reading::Refused { number, line }) => Err(NoAnswer::Refused { number, line }),
        Err(Memory) => Err(NoAnswer::Memory),
    }
}

/// These transactions with the replies of the entries of their run. `entry` is the number of the entry at which it
/// begins, or `None`, as for [`answer`].
fn run_of<'t, A: Allocator + Copy>(
    alloc: A,
    history: &[Entry<A>],
    transactions: &'t [Judged<A>],
    entry: Option<u32>,
) -> Result<Replied<'t, A>, NoAnswer>
    requires of_file { AreOfFile transactions.now }
    requires numbered { AllByRecursion (λ e. IsNumbered e.reply) history.now }
    ensures its { IfOk result (λ replied. replied.transactions ≡ transactions.now) }
    ensures run { IfOk result (λ replied. (run : List EntryValue) × IsRunFrom entry (asked_in transactions.now) history.now run × (replied.replies ≡ map (λ e. e.reply) run)) }
    ensures why_not { IfErr result (λ why. (stamp : StampParts) (input : List ℕ) (ends : WriteEnds) → IsJudgedFile input transactions.now
        → IsWhyNot stamp input entry history.now ends why) }
{
    let Some(place) = place_of(history, transactions, entry) else {
        return Err(NoAnswer::OtherEntry);
    };
    let Ok(replied) = replies_of(alloc, &history[place..], transactions) else {
        return Err(NoAnswer::Memory);
    };
    if let Some(first) = replied.next() {
        return Err(NoAnswer::Transaction {
            group: first.group,
            sequence: first.sequence,
        });
    }
    Ok(replied)
}

/// Writes the acknowledgement of a file whose transactions got these replies.
///
/// - `alloc` is where memory comes from.
/// - `header` is the header of the file.
/// - `replied` are its transactions and their replies.
/// - `stamp` is who acknowledges, and when.
/// - `writer` gets the acknowledgement, and has not failed.
fn send<W: Sink, A: Allocator + Copy>(
    alloc: A,
    header: &Header,
    replied: &Replied<A>,
    stamp: &Stamp,
    writer: &mut W,
) -> Result<(), NoAnswer>
    requires works { W.has_failed writer.old ≡ false }
    requires few { length (items_with_replies replied.now.transactions replied.now.replies) + reported_fault_count (items_with_replies replied.now.transactions replied.now.replies) ≤ max_ack_records }
    ensures all { OnOk result (Appends (W.taken writer.old) (W.taken writer.new) (ack_text stamp.now header.now (items_with_replies replied.now.transactions replied.now.replies))) }
    ensures part { IfErr result (IsSentInPart (write_ends W.Sink writer.old writer.new) (ack_text stamp.now header.now (items_with_replies replied.now.transactions replied.now.replies))) }
    ensures unwritten { IfErr result (λ why. is_cut why ≡ false → writer.new ≡ writer.old) }
{
    match send_answers(alloc, writer, stamp, header, &replied.answered()) {
        Ok(()) => Ok(()),
        Err(AckError::Memory) => Err(NoAnswer::Memory),
        Err(AckError::Write { sent }) => Err(NoAnswer::Write { sent }),
    }
}
