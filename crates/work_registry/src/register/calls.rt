//! The call in the line of an entry. A call without faults is tested for being lawful by a few comparisons.

ghost use Rattle.std.specs.Prelude.{◌≡◌, ◌≤◌, [], length, is_some, IfSome, IsTrue};
ghost use Rattle.cwr_call.specs.Lawful.{is_clean, is_lawful};
ghost use Rattle.cwr_record.specs.Columns.{field_at};
ghost use Rattle.work_registry.specs.RegisterColumns as column;
ghost use Rattle.work_registry.specs.RegisterLine.{line_from};

use super::head::HeadInLine;
use cwr_call::{Call, Faults, are_at_most, is_iswc};
use cwr_field::{CONTROLS, MAX_WHOLE, has_in_block};
use std::alloc::Allocator;

/// Whether the texts in the line of an entry have no control byte. They stand in its first hundred bytes.
#[inline(always)]
pub(super) fn are_texts_clean(line: &[u8]) -> bool
    requires { 100 ≤ length line.now }
    ensures { IsTrue result → IsTrue (is_clean (field_at line.now column.submitter)) × IsTrue (is_clean (field_at line.now column.title)) × IsTrue (is_clean (field_at line.now column.number)) }
{
    !has_in_block(line, 0, CONTROLS) && !has_in_block(line, 36, CONTROLS)
}

/// Whether these fields, whose texts are clean, can be those of a call without faults.
#[inline(always)]
pub(super) fn is_lawful_faultless(head: &HeadInLine) -> bool
    requires submitter { IsTrue (is_clean head.now.submitter) }
    requires title { IsTrue (is_clean head.now.title) }
    requires number { IsTrue (is_clean head.now.number) }
    ensures { IsTrue result → IsTrue (is_lawful (line_from head.now []).call) }
{
    is_iswc(head.iswc) && are_at_most(MAX_WHOLE, &head.control)
}

/// The call of these fields, which are those of one without faults. No memory is asked for.
#[inline(always)]
pub(super) fn faultless_call<A: Allocator>(alloc: A, head: &HeadInLine) -> Call<A>
    requires { IsTrue (is_lawful (line_from head.now []).call) }
    ensures { result ≡ (line_from head.now []).call }
{
    Call::of_lawful(
        head.submitter(),
        head.kind,
        head.title(),
        head.number(),
        head.iswc,
        head.control,
        Faults::new(Vec::new(alloc)),
    )
}

/// The call of these fields and faults; `None` where they can be those of no call.
pub(super) fn call_from<A: Allocator>(head: &HeadInLine, faults: Faults<A>) -> Option<Call<A>>
    ensures when { is_some result ≡ is_lawful (line_from head.now faults).call }
    ensures value { IfSome result (λ c. c ≡ (line_from head.now faults).call) }
{
    Call::of(
        head.submitter(),
        head.kind,
        head.title(),
        head.number(),
        head.iswc,
        head.control,
        faults,
    )
}
