ghost use Rattle.std.specs.Prelude.{◌≡◌, ◌++◌, IfOk};
ghost use Rattle.cwr_grammar.specs.Counted.{FitsHeader};
ghost use Rattle.cwr_grammar.specs.Spans.{closed_by, opened_by};

use crate::file_counts::FileCounts;
use crate::role::Role;
use cwr_field::Memory;
use cwr_record::WorkKind;
use std::alloc::Allocator;

/// Where a transaction stands in the bytes of a file, from its header to the end of its last detail.
#[derive(Clone, Copy, Debug)]
pub(crate) struct Span {
    pub(crate) start: usize,
    pub(crate) end: usize,
    pub(crate) group: u32,
    pub(crate) sequence: u32,
    pub(crate) kind: WorkKind,
}

/// A transaction whose end was not read yet.
#[derive(Clone, Copy)]
pub(crate) struct Open {
    pub(crate) start: usize,
    pub(crate) group: u32,
    pub(crate) sequence: u32,
    pub(crate) kind: WorkKind,
}

/// Consumes a line: one that is no detail ends the open transaction, and a transaction's header opens the next one.
/// Returns the transaction that is open then.
///
/// - `spans` gets the span of the transaction that ends.
/// - `current` is the open transaction, or `None`.
/// - `at` is the index of the line's first byte in the file, counted from 0.
/// - `role` is the role of the line.
/// - `counts` are those of the lines before it.
pub(crate) fn take_line<A: Allocator>(
    spans: &mut Vec<Span, A>,
    current: Option<Open>,
    at: usize,
    role: &Role,
    counts: &FileCounts,
) -> Result<Option<Open>, Memory>
    requires { FitsHeader role.now counts.now }
    ensures taken { IfOk result (λ _. spans.new.items ≡ spans.old.items ++ closed_by role.now at current) }
    ensures next { IfOk result (λ next. next ≡ opened_by role.now at counts.now.groups counts.now.transactions current) }
{
    if let Role::Detail(_, _) = *role {
        return Ok(current);
    }
    if let Some(ended) = current {
        spans.push(Span {
            start: ended.start,
            end: at,
            group: ended.group,
            sequence: ended.sequence,
            kind: ended.kind,
        })?;
    }
    if let Role::TransactionHeader(Some(kind), _, _) = *role {
        Ok(Some(Open {
            start: at,
            group: counts.groups as u32,
            sequence: counts.transactions as u32,
            kind,
        }))
    } else {
        Ok(None)
    }
}
