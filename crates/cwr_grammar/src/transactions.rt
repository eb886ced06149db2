ghost use Rattle.std.specs.Prelude.{◌≡◌, ◌↔◌, [], length, slice_get, IsTrue};
ghost use Rattle.std.specs.Iterator.{YieldsFirst, item_count};
ghost use Rattle.cwr_grammar.specs.RawParts.{IsTransactionText};
ghost use Rattle.cwr_grammar.specs.Spans.{IsSpan, raw_at};

use crate::Lines;
use crate::span::Span;
use cwr_record::WorkKind;
use std::alloc::{Allocator, Global};
use std::iter::FusedIterator;
use std::marker::Model;

/// A transaction as it stands in a well-formed file, whose bytes it borrows.
///
/// It has a header line and then its details, at most 99,999,999 lines in all. No line has a byte below 32.
#[derive(Debug, Drop)]
pub struct RawTransaction<'a> {
    bytes: &'a [u8],
    group: u32,
    sequence: u32,
    kind: WorkKind,
}

impl<'a> Model for RawTransaction<'a> {
    ghost use Rattle.std.specs.Str.Lines.{lines};
    ghost use Rattle.cwr_grammar.specs.RawParts.{RawParts, IsTransactionText};

    ghost Value = { RawParts };

    ghost view = { λ r. record { group = r.group; sequence = r.sequence; kind = r.kind; lines = lines r.bytes.now } };

    ghost invariant = { λ r. IsTransactionText (lines r.bytes.now) };
}

impl<'a> RawTransaction<'a> {
    /// Group id of its group, from 1.
    pub fn group(&self) -> u32
        ensures { result ≡ self.now.group }
    {
        self.group
    }

    /// Transaction sequence: its number in its group, from 0.
    pub fn sequence(&self) -> u32
        ensures { result ≡ self.now.sequence }
    {
        self.sequence
    }

    /// What its header names: NWR or REV.
    pub fn kind(&self) -> WorkKind
        ensures { result ≡ self.now.kind }
    {
        self.kind
    }

    /// Its lines, the header first. They are searched for in the bytes again, which takes no memory.
    pub fn lines(&self) -> Lines<'a>
        ensures value { result ≡ self.now.lines }
        ensures text { IsTransactionText self.now.lines }
    {
        Lines::of(self.bytes)
    }
}

/// The transactions of a well-formed file, in order. They borrow its bytes.
///
/// A contract sees them as a list.
#[derive_where(Debug)]
#[derive(Drop)]
pub struct Transactions<'a, A: Allocator = Global> {
    pub(crate) bytes: &'a [u8],
    pub(crate) spans: Vec<Span, A>,
}

impl<'a, A: Allocator> Model for Transactions<'a, A> {
    ghost use Rattle.std.specs.Prelude.{List};
    ghost use Rattle.std.specs.List.{AllByRecursion};
    ghost use Rattle.cwr_grammar.specs.RawParts.{RawParts};
    ghost use Rattle.cwr_grammar.specs.Spans.{IsSpan, raws_at};

    ghost Value = { List RawParts };

    ghost view = { λ t. raws_at t.bytes.now t.spans.items };

    ghost invariant = { λ t. AllByRecursion (IsSpan t.bytes.now) t.spans.items };
}

impl<'a, A: Allocator> Transactions<'a, A> {
    /// How many there are.
    pub fn len(&self) -> usize
        ensures { result ≡ length self.now }
    {
        self.spans.len()
    }

    /// Whether there are none.
    pub fn is_empty(&self) -> bool
        ensures { IsTrue result ↔ (self.now ≡ []) }
    {
        self.spans.is_empty()
    }

    /// The transaction at an index, counted from 0.
    pub fn get(&self, index: usize) -> Option<RawTransaction<'a>>
        ensures { result ≡ slice_get self.now index }
    {
        let span = self.spans.get(index)?;
        Some(transaction_at(self.bytes, span))
    }

    /// Goes over the transactions in order.
    pub fn iter(&self) -> TransactionIter<'a, '_>
        ensures { result ≡ self.now }
    {
        TransactionIter {
            bytes: self.bytes,
            spans: self.spans.as_slice(),
        }
    }
}

impl<'a, 's, A: Allocator> IntoIterator for &'s Transactions<'a, A> {
    type Item = RawTransaction<'a>;

    type IntoIter = TransactionIter<'a, 's>;

    fn into_iter(self) -> TransactionIter<'a, 's>
        ensures { result ≡ self.now }
    {
        self.iter()
    }
}

/// The transactions of a file that are still to come, in order.
///
/// A contract sees this iterator as the list of the transactions.
#[derive(Debug, Drop)]
pub struct TransactionIter<'a, 's> {
    bytes: &'a [u8],
    spans: &'s [Span],
}

impl<'a, 's> Model for TransactionIter<'a, 's> {
    ghost use Rattle.std.specs.Prelude.{List};
    ghost use Rattle.std.specs.List.{AllByRecursion};
    ghost use Rattle.cwr_grammar.specs.RawParts.{RawParts};
    ghost use Rattle.cwr_grammar.specs.Spans.{IsSpan, raws_at};

    ghost Value = { List RawParts };

    ghost view = { λ t. raws_at t.bytes.now t.spans.now };

    ghost invariant = { λ t. AllByRecursion (IsSpan t.bytes.now) t.spans.now };
}

impl<'a> Iterator for TransactionIter<'a, '_> {
    type Item = RawTransaction<'a>;

    ghost next_gives = { YieldsFirst (λ t. t) };

    ghost remaining = { item_count (λ t. t) };

    fn next(&mut self) -> Option<RawTransaction<'a>> {
        let (span, spans) = self.spans.split_first()?;
        self.spans = spans;
        Some(transaction_at(self.bytes, span))
    }
}

impl FusedIterator for TransactionIter<'_, '_> {}

/// The transaction that a span describes.
fn transaction_at<'a>(bytes: &'a [u8], span: &Span) -> RawTransaction<'a>
    requires { IsSpan bytes.now span.now }
    ensures { result ≡ raw_at bytes.now span.now }
{
    RawTransaction {
        bytes: &bytes[span.start..span.end],
        group: span.group,
        sequence: span.sequence,
        kind: span.kind,
    }
}
