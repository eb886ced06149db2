//! Submission files that are given to a visitor.

ghost use Rattle.std.specs.Prelude.{⊤};

use crate::lines::{HDR, NWR, SWR, text_of};
use crate::taken::{REV, THREE_WORKS};
use cwr_field::put_digits;
use cwr_file::{Envelope, FileRefusal, Header, Memory, Visitor, WorkKind, visit_file};
use cwr_record::RecordType;
use std::alloc::Global;
use std::test::Fail;
use test_comparisons::{same, same_bytes};

/// A visitor that notes what it is given. It reports an allocation failure after a number of calls.
#[derive(Drop)]
pub(crate) struct VisitLog {
    pub(crate) text: Vec<u8>,
    /// The sender of its header, if that came once and first.
    sender: Option<[u8; 11]>,
    calls: u32,
}

impl VisitLog {
    /// Ends what it notes of one call.
    fn end_note(&mut self, line: &[u8]) -> Result<(), Memory> {
        if self.calls == 0 {
            return Err(Memory);
        }
        self.calls -= 1;
        self.text.extend_from_slice(line)?;
        self.text.push(b'\n')?;
        Ok(())
    }
}

impl Visitor for VisitLog {
    ghost keeps = { λ _ _ _ _ _. ⊤ };

    fn header(&mut self, header: &Header) {
        let is_first = self.sender.is_none() && self.text.is_empty();
        self.sender = if is_first { Some(header.sender) } else { None };
    }

    fn begin(
        &mut self,
        group: u32,
        sequence: u32,
        kind: WorkKind,
        head: &[u8],
    ) -> Result<(), Memory> {
        put_digits(&mut self.text, group as u64, 5)?;
        put_digits(&mut self.text, sequence as u64, 8)?;
        self.text.extend_from_slice(kind.code())?;
        self.end_note(head)
    }

    fn detail(&mut self, line: &[u8], record_type: RecordType) -> Result<(), Memory> {
        let is_writer = record_type == RecordType::Swr;
        self.text
            .extend_from_slice(if is_writer { b"writer" } else { b"other" })?;
        self.end_note(line)
    }

    fn end(&mut self) -> Result<(), Memory> {
        self.end_note(b"end")
    }
}

/// A visitor that takes at most `calls` calls.
pub(crate) fn visitor_called(alloc: Global, calls: u32) -> VisitLog {
    VisitLog {
        text: Vec::new(alloc),
        sender: None,
        calls,
    }
}

/// The sender of the header of every file here.
const SENDER: &[u8; 11] = b"PB000000123";

/// What a visitor is given of the file of three works, a line for each call.
const THREE_NOTED: [&[&[u8]]; 7] = [
    &[b"0000100000000NWR", NWR],
    &[b"writer", SWR],
    &[b"end"],
    &[
        b"0000100000001NWR",
        b"NWR0000000100000000SONG ONE                                                      W2",
    ],
    &[b"end"],
    &[b"0000200000000REV", REV],
    &[b"end"],
];

/// A visitor noted the transactions of the file of three works, in order.
fn expect_three(text: &[u8]) -> Result<(), Fail> {
    let mut rest = text;
    for chunks in THREE_NOTED {
        for chunk in chunks {
            same_bytes("a piece", rest.get(..chunk.len()).ok_or("bytes")?, chunk)?;
            rest = rest.get(chunk.len()..).ok_or("bytes")?;
        }
        same_bytes("a line's end", rest.get(..1).ok_or("an end")?, b"\n")?;
        rest = rest.get(1..).ok_or("an end")?;
    }
    same("bytes left", &rest.len(), &0)
}

/// The file of three works was visited: its sender, its number of records, and what a visitor noted.
pub(crate) fn expect_three_works(envelope: &Envelope, visitor: &VisitLog) -> Result<(), Fail> {
    same("the sender", &envelope.header.sender, SENDER)?;
    same("the header", &visitor.sender, &Some(*SENDER))?;
    same("records", &envelope.records, &10)?;
    expect_three(&visitor.text)
}

#[test]
fn gives_each_transaction_in_order(rt: HostRuntime) -> Result<(), Fail> {
    let text = text_of(rt.alloc(), &THREE_WORKS, b"\r\n")?;
    let mut visitor = visitor_called(rt.alloc(), 7);
    let envelope = visit_file(&text, &mut visitor)?;
    same("groups", &envelope.groups, &2)?;
    expect_three_works(&envelope, &visitor)
}

/// A visitor that is refused memory at one of its seven calls ends the visit.
#[test]
fn ends_where_the_visitor_wants_memory(rt: HostRuntime) -> Result<(), Fail> {
    let text = text_of(rt.alloc(), &THREE_WORKS, b"\n")?;
    for calls in 0..7 {
        let visited = visit_file(&text, &mut visitor_called(rt.alloc(), calls));
        let is_refused = matches!(visited, Err(FileRefusal::Memory));
        same("refused", &is_refused, &true)?;
    }
    Ok(())
}

/// A file without its trailer has its fault, whatever the visitor was given by then.
#[test]
fn answers_the_first_fault(rt: HostRuntime) -> Result<(), Fail> {
    let lines = THREE_WORKS.get(..9).ok_or("lines")?;
    let text = text_of(rt.alloc(), lines, b"\n")?;
    let mut visitor = visitor_called(rt.alloc(), 7);
    let visited = visit_file(&text, &mut visitor);
    let is_unended = matches!(
        visited,
        Err(FileRefusal::Fault {
            number: 11,
            line: 10
        })
    );
    same("without a trailer", &is_unended, &true)?;
    expect_three(&visitor.text)
}

/// The sender of the header that a visitor is given of a text.
fn sender_of(alloc: Global, text: &[u8]) -> Option<[u8; 11]> {
    let mut visitor = visitor_called(alloc, 0);
    let _ = visit_file(text, &mut visitor);
    visitor.sender
}

/// A header is given whatever follows it, and in a text of one line too.
#[test]
fn gives_the_header_of_its_line(rt: HostRuntime) -> Result<(), Fail> {
    let with_lines = text_of(rt.alloc(), &[HDR, NWR], b"\n")?;
    for text in [with_lines.as_slice(), HDR] {
        same("the header", &sender_of(rt.alloc(), text), &Some(*SENDER))?;
    }
    Ok(())
}

#[test]
fn gives_no_header_of_other_texts(rt: HostRuntime) -> Result<(), Fail> {
    let with_control = text_of(rt.alloc(), &[b"\x01", HDR], b"")?;
    for text in [b"".as_slice(), b"\n", NWR, &with_control] {
        same("the header", &sender_of(rt.alloc(), text), &None)?;
    }
    Ok(())
}
