//! Reads the line of an entry.
//!
//! Most calls have no faults. Their lines are read by `read_faultless`, and none of their texts is copied before the
//! call is made. Any line is read by `read_entry`.

ghost use Rattle.std.specs.Prelude.{◌≡◌, [], ◌∷◌, ◌++◌, Some, is_some, IfSome, IfOk};
ghost use Rattle.cwr_call.specs.Lawful.{is_lawful};
ghost use Rattle.work_registry.specs.RegisterLine.{EntryLine, IsEntryLine, line_from};

use super::calls::{are_texts_clean, call_from, is_lawful_faultless};
use super::columns::{FAULT_WIDTH, HEAD_WIDTH};
use super::faults::read_faults;
use super::head::{HeadInLine, read_head};
use cwr_call::{Call, Faults};
use cwr_field::Memory;
use cwr_record::Status;
use std::alloc::Allocator;
use std::marker::Model;

/// What a line records of an entry besides its call.
#[derive(Clone, Copy)]
pub(super) struct RecordedDecision {
    /// The position of the entry in the register, from 1.
    pub(super) index: u32,
    pub(super) status: Status,
    /// The work that the reply names, or 0.
    pub(super) work: u32,
    /// The version that the reply names, or 0.
    pub(super) version: u32,
}

/// The entry that a line records.
#[derive(Drop)]
pub(super) struct ReadEntry<A: Allocator> {
    pub(super) told: RecordedDecision,
    pub(super) call: Call<A>,
}

impl<A: Allocator> Model for ReadEntry<A> {
    ghost use Rattle.work_registry.specs.RegisterLine.{EntryLine};
    ghost use Rattle.work_registry.specs.RecordedDecision.{line_of_decision};

    ghost Value = { EntryLine };

    ghost view = { λ e. line_of_decision e.told e.call };
}

/// The entry of a line, given without its LF, whose call has no faults; `None` for any other line. No memory is asked
/// for.
#[inline(always)]
pub(super) fn read_faultless(line: &[u8]) -> Option<HeadInLine<'_>>
    ensures says { IfSome result (λ h. IsEntryLine (line.now ++ 10 ∷ []) (line_from h [])) }
    ensures only { IfSome result (λ h. (x : EntryLine) → IsEntryLine (line.now ++ 10 ∷ []) x → x ≡ line_from h []) }
{
    if line.len() != HEAD_WIDTH {
        return None;
    }
    if !are_texts_clean(line) {
        return None;
    }
    let head = read_head(line)?;
    if head.faults != 0 {
        return None;
    }
    if !is_lawful_faultless(&head) {
        return None;
    }
    Some(head)
}

/// The entry of these fields and faults; `None` where they can be those of no call.
fn entry_from<A: Allocator>(head: &HeadInLine, faults: Faults<A>) -> Option<ReadEntry<A>>
    ensures when { is_some result ≡ is_lawful (line_from head.now faults).call }
    ensures value { IfSome result (λ x. x ≡ line_from head.now faults) }
{
    Some(ReadEntry {
        told: head.told,
        call: call_from(head, faults)?,
    })
}

/// The entry that a line, given without its LF, records; `None` where it is not the line of an entry. Whether the
/// recorded decision is the right one is not tested here.
///
/// The time is linear in the line's length, whatever number of faults it states. Memory is asked for only for the list
/// of faults.
pub(super) fn read_entry<A: Allocator>(
    alloc: A,
    line: &[u8],
) -> Result<Option<ReadEntry<A>>, Memory>
    ensures says { IfOk result (λ o. IfSome o (IsEntryLine (line.now ++ 10 ∷ []))) }
    ensures only { IfOk result (λ o. (x : EntryLine) → IsEntryLine (line.now ++ 10 ∷ []) x → o ≡ Some x) }
{
    if line.len() < HEAD_WIDTH {
        return Ok(None);
    }
    let (front, rest) = line.split_at(HEAD_WIDTH);
    let Some(head) = read_head(front) else {
        return Ok(None);
    };
    if rest.len() != FAULT_WIDTH * head.faults as usize {
        return Ok(None);
    }
    let Some(faults) = read_faults(alloc, rest)? else {
        return Ok(None);
    };
    Ok(entry_from(&head, faults))
}
