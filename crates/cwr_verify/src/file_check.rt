//! One file against the entries that it owns.
ghost use Rattle.std.specs.Prelude.{◌≡◌, ◌≤◌, ◌+◌, ℕ, List, length, IfErr, OnOk};
ghost use Rattle.cwr_acknowledgement.specs.Acknowledgement.{ack_text, max_ack_records, reported_fault_count};
ghost use Rattle.cwr_engine.specs.AckItems.{items_with_replies};
ghost use Rattle.work_registry.specs.EntryValue.{EntryValue};
ghost use Rattle.cwr_verify.specs.Compared.{IsDifference, IsUnlike};
ghost use Rattle.cwr_verify.specs.Read.{IsReadFrom};
ghost use Rattle.cwr_verify.specs.Reading.{transactions_in};
ghost use Rattle.cwr_verify.specs.Replied.{AreBegunBy, AreRepliedBy};
ghost use Rattle.cwr_verify.specs.Sent.{Sent};
ghost use Rattle.cwr_verify.specs.VerifyErrors.{IsToldOf};
ghost use Rattle.cwr_verify.specs.Verified.{IsAnsweredBy};

use crate::ack_status::stamp_in;
use crate::compared::Compared;
use crate::reading::Reading;
use crate::replied::Replied;
use crate::sent::ReadFile;
use crate::verify_error::VerifyError;
use cwr_acknowledgement::{AckError, send_answers};
use cwr_record::{Header, Stamp};
use std::alloc::Allocator;

/// Checks a file whose first transactions got these replies from the entries that it owns.
///
/// Each of its transactions must have a reply, and the acknowledgement that they make must be that of the file.
/// `number` is the file's place in the list, from 0, for the error.
pub(crate) fn check_file<A: Allocator + Copy>(
    alloc: A,
    number: usize,
    file: &ReadFile<A>,
    replied: &Replied<A>,
) -> Result<(), VerifyError>
    requires its { replied.now.transactions ≡ transactions_in file.now.text }
    requires made { length replied.now.replies ≡ length replied.now.transactions → (entries : List EntryValue) × AreRepliedBy replied.now entries }
    ensures answered { OnOk result (length replied.now.replies ≡ length replied.now.transactions) }
    ensures by_each { OnOk result ((sent : Sent) (entries : List EntryValue) → IsReadFrom sent file.now → AreRepliedBy replied.now entries → IsAnsweredBy sent entries) }
    ensures told { IfErr result (λ told. (sent : Sent) (entries : List EntryValue) → IsReadFrom sent file.now → AreBegunBy replied.now entries → IsToldOf number sent entries told) }
{
    let Some(stamp) = stamp_in(file.acknowledgement) else {
        return Err(VerifyError::Acknowledgement {
            file: number,
            line: 1,
        });
    };
    match file.text.reading() {
        Reading::File(judged) => {
            if let Some(first) = replied.next() {
                return Err(VerifyError::Transaction {
                    file: number,
                    group: first.group,
                    sequence: first.sequence,
                });
            }
            compare_acknowledgement(alloc, number, file, &judged.header, replied, &stamp)
        }
        Reading::TooLong => Err(VerifyError::TooLong { file: number }),
        Reading::Refused {
            number: fault,
            line,
        } => Err(VerifyError::Refused {
            file: number,
            number: *fault,
            line: *line,
        }),
    }
}

/// Compares the acknowledgement that came with a file with the text that these replies give. An error is memory that
/// was refused, or the first line at which the two differ. The records of transactions and of faults must fit one
/// acknowledgement together.
///
/// - `alloc` is where memory comes from.
/// - `number` is the file's place in the list, from 0, for the error.
/// - `file` is the file, with the acknowledgement that came with it.
/// - `header` is the header of the file.
/// - `replied` has its transactions and their replies.
/// - `stamp` is who acknowledged, and when, from the first line of the acknowledgement.
fn compare_acknowledgement<A: Allocator + Copy>(
    alloc: A,
    number: usize,
    file: &ReadFile<A>,
    header: &Header,
    replied: &Replied<A>,
    stamp: &Stamp,
) -> Result<(), VerifyError>
    requires few { length (items_with_replies replied.now.transactions replied.now.replies) + reported_fault_count (items_with_replies replied.now.transactions replied.now.replies) ≤ max_ack_records }
    ensures same { OnOk result (file.now.acknowledgement.now ≡ ack_text stamp.now header.now (items_with_replies replied.now.transactions replied.now.replies)) }
    ensures told { IfErr result (IsDifference number file.now.acknowledgement.now (ack_text stamp.now header.now (items_with_replies replied.now.transactions replied.now.replies))) }
{
    let mut compared = Compared::with(file.acknowledgement);
    match send_answers(alloc, &mut compared, stamp, header, &replied.answered()) {
        Ok(()) => {
            if compared.is_whole() {
                return Ok(());
            }
            Err(other_line(number, &compared))
        }
        Err(AckError::Write { sent: _ }) => Err(other_line(number, &compared)),
        Err(AckError::Memory) => Err(VerifyError::Memory),
    }
}

/// The error for a file whose acknowledgement is not the text that it was compared with.
fn other_line(number: usize, compared: &Compared) -> VerifyError
    ensures { (text : List ℕ) → IsUnlike compared.now text → IsDifference number compared.now.expected text result }
{
    VerifyError::Acknowledgement {
        file: number,
        line: compared.line(),
    }
}
