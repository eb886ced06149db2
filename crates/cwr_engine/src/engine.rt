//! One job, at a registry.
ghost use Rattle.std.specs.Prelude.{◌≡◌, ◌+◌, ◌<◌, ◌≤◌, ◌^◌, ℕ, List, [], false, length, map, vec_capacity, IfSome, IfOk, OnOk, OnErr, IfErr};
ghost use Rattle.std.specs.List.{AllByRecursion};
ghost use Rattle.byte_streams.specs.GivenBytes.{HasGiven};
ghost use Rattle.std.specs.Io.KnownBytes.{Appends};
ghost use Rattle.cwr_acknowledgement.specs.Acknowledgement.{FitsItem, ack_text, max_ack_records, reported_fault_count};
ghost use Rattle.cwr_grammar.specs.RawParts.{RawParts, IsPlaced};
ghost use Rattle.cwr_record.specs.Stamp.{StampParts};
ghost use Rattle.cwr_engine.specs.Account.{max_file_bytes, Ends, ReadEnds, WriteEnds, IsRead, ends_of, read_ends, write_ends};
ghost use Rattle.cwr_engine.specs.Causes.{ends_full, is_for_full, marked_by, outcome_of, IsCause};
ghost use Rattle.cwr_engine.specs.Handing.{AreAnswered, IsSent, IsWorked, max_handed};
ghost use Rattle.cwr_engine.specs.AckItems.{items_with_replies};
ghost use Rattle.cwr_engine.specs.Judged.{AreJudged, judged_of};
ghost use Rattle.cwr_engine.specs.JobSteps.{IsAnsweredWhole, IsReadBy, answers_in};

use crate::answered::{Answered, AnsweredFile};
use crate::decision::{InHand, decide};
use crate::gates::Gate;
use crate::judged::{Judged, JudgedFile, judge_source};
use crate::limits::MAX_BYTES;
use crate::outcome::{FileOutcome, Why};
use crate::submit::Submit;
use byte_streams::{Sink, Source};
use cwr_acknowledgement::{AckError, Answers, send_answers};
use cwr_record::{Header, Stamp};
use cwr_source::{SourceRefused, WINDOW};
use std::alloc::Allocator;
use work_registry::{Call, Reply};

/// Hands in the transactions of a file in order, and keeps each reply.
///
/// - `alloc` is where copies of the calls get their memory.
/// - `registry` is where the calls are handed in. It comes back with the result.
/// - `gate` is passed before and after each transaction.
/// - `worker` is the worker's number, from 1, for the gate only.
/// - `transactions` are those of the file, judged.
/// - `replies` gets a reply for each transaction, up to the first one that gets none. It is empty, and has room for
///   all.
// Inlined, the loop would keep in registers, or reload each time, what its caller needs only afterwards.
#[inline(never)]
fn hand_in_all<H: Submit<Call<A>>, G: Gate, A: Allocator + Copy + Drop>(
    alloc: A,
    mut registry: H,
    gate: &G,
    worker: u32,
    transactions: &[Judged<A>],
    replies: &mut Vec<Reply, A>,
) -> (H, Result<(), Why>)
    requires none { replies.old.items ≡ [] }
    requires room { length transactions.now ≤ vec_capacity replies.old }
    requires few { length transactions.now < 2 ^ 32 }
    requires turns { length transactions.now ≤ H.turns_left registry }
    requires placed { (submitter : List ℕ) × (ts : List RawParts) × (transactions.now ≡ map (judged_of submitter) ts) × AllByRecursion IsPlaced ts }
    ensures session { H.session result.0 ≡ H.session registry }
    ensures limit { H.limit result.0 ≡ H.limit registry }
    ensures home { H.home result.0 ≡ H.home registry }
    ensures answered { (submitter : List ℕ) (ts : List RawParts) → transactions.now ≡ map (judged_of submitter) ts → AllByRecursion IsPlaced ts
        → AreAnswered (H.session registry) submitter ts (items_with_replies transactions.now replies.new.items) (H.entries registry) (H.entries result.0) }
    ensures fit { AllByRecursion FitsItem (items_with_replies transactions.now replies.new.items) }
    ensures all { OnOk result.1 (length replies.new.items ≡ length transactions.now) }
    ensures some { OnErr result.1 (length replies.new.items < length transactions.now) }
    ensures why { IfErr result.1 (IsCause (H.full result.0) (G.may_shut gate.now)) }
    ensures unmarked { OnOk result.1 (H.mark result.0 ≡ H.mark registry) }
    ensures marked { IfErr result.1 (λ why. H.mark result.0 ≡ marked_by (is_for_full why) (H.mark registry)) }
{
    for (index, transaction) in transactions.iter().enumerate() {
        let in_hand = InHand {
            worker,
            index: index as u32,
        };
        let (next, reply) = decide(alloc, registry, gate, in_hand, transaction);
        registry = next;
        match reply {
            Ok(reply) => {
                let Ok(()) = replies.push(reply) else {
                    unreachable!()
                };
            }
            Err(why) => return (registry, Err(why)),
        }
    }
    (registry, Ok(()))
}

/// Hands in the transactions of a well-formed file in order. Returns what its acknowledgement contains, where all got
/// replies, and else how its job ends.
///
/// - `alloc` is where the replies and the copies of the calls get their memory.
/// - `registry` is where the calls are handed in. It comes back with the result.
/// - `gate` is passed before and after each transaction.
/// - `worker` is the worker's number, from 1, for the gate only.
/// - `file` is the file, judged.
///
/// Memory for the replies is asked for before the first transaction is handed in.
pub(crate) fn hand_in_file<H: Submit<Call<A>>, G: Gate, A: Allocator + Copy + Drop>(
    alloc: A,
    registry: H,
    gate: &G,
    worker: u32,
    file: JudgedFile<A>,
) -> (H, Result<AnsweredFile<A>, FileOutcome>)
    requires turns { max_handed ≤ H.turns_left registry }
    requires judged { (ts : List RawParts) × AreJudged max_file_bytes file.header ts file.transactions.items }
    ensures session { H.session result.0 ≡ H.session registry }
    ensures limit { H.limit result.0 ≡ H.limit registry }
    ensures home { H.home result.0 ≡ H.home registry }
    ensures answered { IfOk result.1 (λ all. (ts : List RawParts) → AreJudged max_file_bytes file.header ts file.transactions.items
        → IsAnsweredWhole (H.session registry) file.header ts all (H.entries registry) (H.entries result.0)) }
    ensures stopped { IfErr result.1 (λ outcome. (ts : List RawParts) (reader : ReadEnds) (writer : WriteEnds) (stamp : StampParts) (input : List ℕ)
        → AreJudged max_file_bytes file.header ts file.transactions.items → IsReadBy reader input file.header ts → Appends writer.taken_before writer.taken_after []
        → IsWorked (H.session registry) (ends_of reader writer (H.full result.0) (G.may_shut gate.now)) stamp outcome (H.entries registry) (H.entries result.0)) }
    ensures unmarked { OnOk result.1 (H.mark result.0 ≡ H.mark registry) }
    ensures marked { IfErr result.1 (λ outcome. H.mark result.0 ≡ marked_by (ends_full outcome) (H.mark registry)) }
{
    let JudgedFile {
        header,
        transactions,
    } = file;
    let Ok(mut replies) = Vec::with_capacity(alloc, transactions.len()) else {
        return (registry, Err(stopped(0, Why::Memory)));
    };
    let (registry, done) = hand_in_all(alloc, registry, gate, worker, &transactions, &mut replies);
    match done {
        Ok(()) => {
            let answered = AnsweredFile {
                header,
                transactions,
                replies,
            };
            (registry, Ok(answered))
        }
        Err(why) => (registry, Err(stopped(replies.len() as u32, why))),
    }
}

/// Hands in the transactions of a well-formed file, in file order, and writes their acknowledgement. [`work_file`] does
/// the same, and judges the file before.
///
/// - `alloc` is where memory comes from.
/// - `registry` is where the calls are handed in.
/// - `gate` is passed before and after each transaction.
/// - `worker` is the worker's number, from 1, for the gate only.
/// - `file` is what [`judge_file`](crate::judge_file) or [`judge_source`] returns for a file of at most 16,777,216
///   bytes.
/// - `writer` gets the acknowledgement, and has not failed.
/// - `stamp` is who acknowledges, and when.
///
/// A transaction that gets no reply ends the job: the entries made before it stay, and nothing is written. Memory for
/// the replies is asked for before the first transaction is handed in.
///
/// The registry comes back with the outcome. It is marked where its book was full for the job, and else is as it was.
pub fn work_judged<H: Submit<Call<A>>, G: Gate, W: Sink, A: Allocator + Copy + Drop>(
    alloc: A,
    registry: H,
    gate: &G,
    worker: u32,
    file: JudgedFile<A>,
    writer: &mut W,
    stamp: &Stamp,
) -> (H, FileOutcome)
    requires writes { W.has_failed writer.old ≡ false }
    requires turns { max_handed ≤ H.turns_left registry }
    requires judged { (ts : List RawParts) × AreJudged max_file_bytes file.header ts file.transactions.items }
    ensures session { H.session result.0 ≡ H.session registry }
    ensures limit { H.limit result.0 ≡ H.limit registry }
    ensures home { H.home result.0 ≡ H.home registry }
    ensures marked { H.mark result.0 ≡ marked_by (ends_full result.1) (H.mark registry) }
    ensures worked { (ts : List RawParts) (ends : Ends) (input : List ℕ) → AreJudged max_file_bytes file.header ts file.transactions.items
        → IfSome ends.left_before (λ bytes. input ≡ bytes) → HasGiven ends.left_before ends.left_after
        → ends.reads_after ≤ ends.reads_before + max_file_bytes + 2 → IsRead input file.header ts
        → IsWorked (H.session registry) (record ends {
          taken_before = W.taken writer.old;
          taken_after = W.taken writer.new;
          write_failed = W.has_failed writer.new;
          full = H.full result.0;
          may_shut = G.may_shut gate.now;
        }) stamp.now result.1 (H.entries registry) (H.entries result.0) }
{
    let (registry, handed) = hand_in_file(alloc, registry, gate, worker, file);
    match handed {
        Ok(answered) => (registry, answer_file(alloc, writer, stamp, &answered)),
        Err(outcome) => (registry, outcome),
    }
}

/// Writes the acknowledgement of a file whose transactions all got replies, and returns how its job ends.
pub(crate) fn answer_file<W: Sink, A: Allocator + Copy>(
    alloc: A,
    writer: &mut W,
    stamp: &Stamp,
    file: &AnsweredFile<A>,
) -> FileOutcome
    requires writes { W.has_failed writer.old ≡ false }
    ensures { IsSent (W.taken writer.old) (W.taken writer.new) (W.has_failed writer.new)
        (ack_text stamp.now file.now.header (answers_in file.now)) (length (answers_in file.now)) result }
{
    let answered = Answered {
        transactions: &file.transactions,
        replies: &file.replies,
    };
    answer(alloc, writer, stamp, &file.header, &answered)
}

/// Writes an acknowledgement, and returns how the job ends whose transactions all got replies.
///
/// - `alloc` is where memory comes from.
/// - `writer` gets the acknowledgement, and has not failed.
/// - `stamp` is who acknowledges, and when.
/// - `header` is that of the acknowledged file.
/// - `answers` are its transactions and their replies.
fn answer<W: Sink, L: Answers, A: Allocator + Copy>(
    alloc: A,
    writer: &mut W,
    stamp: &Stamp,
    header: &Header,
    answers: &L,
) -> FileOutcome
    requires writes { W.has_failed writer.old ≡ false }
    requires few { length (L.items answers.now) + reported_fault_count (L.items answers.now) ≤ max_ack_records }
    requires fit { AllByRecursion FitsItem (L.items answers.now) }
    ensures { IsSent (W.taken writer.old) (W.taken writer.new) (W.has_failed writer.new)
        (ack_text stamp.now header.now (L.items answers.now)) (length (L.items answers.now)) result }
{
    let handed = answers.len() as u32;
    let sent = send_answers(alloc, writer, stamp, header, answers);
    writer.end_text();
    match sent {
        Ok(()) => acked(handed),
        Err(AckError::Memory) => stopped(handed, Why::Memory),
        Err(AckError::Write { sent }) => stopped(handed, Why::Write { sent }),
    }
}

/// Reads a file, hands in its transactions, in file order, and writes their acknowledgement.
///
/// - `alloc` is where memory comes from.
/// - `registry` is where the calls are handed in. It can take 99,999,995 calls, one for each transaction that a file
///   may have.
/// - `gate` is passed before and after each transaction.
/// - `worker` is the worker's number, from 1, for the gate only.
/// - `reader` is the source of the file, and has not failed.
/// - `writer` gets the acknowledgement, and has not failed.
/// - `stamp` is who acknowledges, and when.
///
/// Nothing is handed in before the complete file is read and each of its transactions is judged. At most 16,777,216
/// bytes are taken, with at most 16,777,218 reads. Where contracts see the reader's bytes, it gave the first of them
/// and holds the others.
///
/// A transaction that gets no reply ends the job, and the entries made before it stay. The registry comes back with the
/// outcome. It is marked where its book was full for the job, and else is as it was.
pub fn work_file<H: Submit<Call<A>>, G: Gate, R: Source, W: Sink, A: Allocator + Copy + Drop>(
    alloc: A,
    registry: H,
    gate: &G,
    worker: u32,
    reader: &mut R,
    writer: &mut W,
    stamp: &Stamp,
) -> (H, FileOutcome)
    requires reads { R.has_failed reader.old ≡ false }
    requires writes { W.has_failed writer.old ≡ false }
    requires turns { max_handed ≤ H.turns_left registry }
    ensures session { H.session result.0 ≡ H.session registry }
    ensures limit { H.limit result.0 ≡ H.limit registry }
    ensures home { H.home result.0 ≡ H.home registry }
    ensures marked { H.mark result.0 ≡ marked_by (ends_full result.1) (H.mark registry) }
    ensures worked { IsWorked (H.session registry) (ends_of (read_ends R.Source reader.old reader.new) (write_ends W.Sink writer.old writer.new)
        (H.full result.0) (G.may_shut gate.now)) stamp.now result.1 (H.entries registry) (H.entries result.0) }
{
    match judge_source(alloc, reader, MAX_BYTES, WINDOW) {
        Ok(file) => work_judged(alloc, registry, gate, worker, file, writer, stamp),
        Err(refused) => (registry, unjudged(refused)),
    }
}

fn acked(transactions: u32) -> FileOutcome
    ensures { result ≡ FileOutcome.Acked transactions }
{
    FileOutcome::Acked { transactions }
}

fn stopped(handed: u32, why: Why) -> FileOutcome
    ensures { result ≡ FileOutcome.Stopped handed why }
{
    FileOutcome::Stopped { handed, why }
}

/// How a job ends whose file was not judged.
pub(crate) fn unjudged(refused: SourceRefused) -> FileOutcome
    ensures { result ≡ outcome_of refused }
{
    match refused {
        SourceRefused::Memory => stopped(0, Why::Memory),
        SourceRefused::Read => stopped(0, Why::Read),
        SourceRefused::TooLong => stopped(0, Why::TooLong),
        SourceRefused::Fault { number, line } => FileOutcome::Refused { number, line },
    }
}
