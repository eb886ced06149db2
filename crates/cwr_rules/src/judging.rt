ghost use Rattle.std.specs.Prelude.{◌≡◌, ◌≤◌, ◌+◌, length, IsTrue, IfOk};
ghost use Rattle.cwr_call.specs.Lawful.{is_clean};
ghost use Rattle.cwr_field.specs.Number.{max_count};
ghost use Rattle.cwr_rules.specs.Calls.{call_of};
ghost use Rattle.cwr_rules.specs.Judging.{IsJudging};

use crate::reading::parts;
use crate::transaction_judge::TransactionJudge;
use cwr_call::Call;
use cwr_field::Memory;
use cwr_grammar::RawTransaction;
use cwr_record::type_of;
use std::alloc::Allocator;

/// The call of a transaction: its parts, its control, and every fault by the rules.
///
/// A transaction with faults gets a call too. Its lines are gone over once. No byte of the submitter is below 32.
///
/// Memory is asked for the parties of its publishers and the totals of its territories, of each for all but the first,
/// and for its faults. Where it is refused nothing is left.
pub fn judge<A: Allocator + Copy>(
    alloc: A,
    transaction: &RawTransaction,
    submitter: [u8; 11],
) -> Result<Call<A>, Memory>
    requires clean { IsTrue (is_clean submitter) }
    ensures { IfOk result (λ call. call ≡ call_of submitter transaction.now) }
{
    let read = judged(alloc, transaction)?;
    let call = read.end(submitter)?;
    Ok(call)
}

/// The judge of a transaction, once it was given all lines. Memory is asked for as in [`judge`].
#[inline]
pub fn judged<A: Allocator + Copy>(
    alloc: A,
    transaction: &RawTransaction,
) -> Result<TransactionJudge<A>, Memory>
    ensures read { IfOk result (λ read. IsJudging read transaction.now.kind transaction.now.lines) }
    ensures few { length transaction.now.lines ≤ max_count + 1 }
{
    let (head, details) = parts(transaction);
    let mut read = TransactionJudge::begin(alloc, transaction.kind(), head);
    for line in details {
        read.take(line, type_of(line))?;
    }
    Ok(read)
}
