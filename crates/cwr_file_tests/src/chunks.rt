//! Submission files that come as two pieces.

ghost use Rattle.std.specs.Prelude.{◌≤◌, length};

use crate::lines::{GRH, HDR, NWR, fault, text_of};
use crate::taken::THREE_WORKS;
use crate::visited::{VisitLog, expect_three_works, visitor_called};
use cwr_file::{Envelope, FileReader, FileRefusal};
use std::alloc::Global;
use std::test::Fail;
use test_comparisons::same;

/// The number of bytes of a file's first piece that a reader consumes.
fn taken_of(first: &[u8], visitor: &mut VisitLog) -> Result<usize, FileRefusal> {
    FileReader::new().take_lines(visitor, first)
}

/// Visits a file whose first piece has `cut` bytes.
fn visit_cut(text: &[u8], cut: usize, visitor: &mut VisitLog) -> Result<Envelope, FileRefusal>
    requires { cut ≤ length text.now }
{
    let mut reader = FileReader::new();
    let taken = reader.take_lines(visitor, &text[..cut])?;
    reader.finish(visitor, &text[taken..])
}

/// The file of three works gives a visitor all of them after this cut.
fn expect_three_cut(alloc: Global, text: &[u8], cut: usize) -> Result<(), Fail>
    requires { cut ≤ length text.now }
{
    let mut visitor = visitor_called(alloc, 7);
    let envelope = visit_cut(text, cut, &mut visitor)?;
    let counts = (cut, envelope.groups, envelope.records);
    same("a cut, groups and records", &counts, &(cut, 2, 10))?;
    expect_three_works(&envelope, &visitor)
}

/// The same after each cut.
fn expect_three_cuts(alloc: Global, text: &[u8]) -> Result<(), Fail> {
    for cut in 0..=text.len() {
        expect_three_cut(alloc, text, cut)?;
    }
    Ok(())
}

/// A file has this fault after each cut.
fn expect_fault_cut(alloc: Global, text: &[u8], wanted: Option<FileRefusal>) -> Result<(), Fail> {
    for cut in 0..=text.len() {
        let refusal = visit_cut(text, cut, &mut visitor_called(alloc, 7)).err();
        same("a cut, and the refusal", &(cut, refusal), &(cut, wanted))?;
    }
    Ok(())
}

#[test]
fn gives_the_same_after_each_cut(rt: HostRuntime) -> Result<(), Fail> {
    for end in [b"\n".as_slice(), b"\r\n"] {
        let text = text_of(rt.alloc(), &THREE_WORKS, end)?;
        expect_three_cuts(rt.alloc(), &text)?;
    }
    Ok(())
}

#[test]
fn answers_a_missing_trailer_after_each_cut(rt: HostRuntime) -> Result<(), Fail> {
    let lines = THREE_WORKS.get(..9).ok_or("lines")?;
    for end in [b"\n".as_slice(), b"\r\n"] {
        let text = text_of(rt.alloc(), lines, end)?;
        expect_fault_cut(rt.alloc(), &text, fault(11, 10))?;
    }
    Ok(())
}

/// Blanks and bytes 26 may follow the trailer, and nothing else.
#[test]
fn answers_a_line_after_the_trailer_after_each_cut(rt: HostRuntime) -> Result<(), Fail> {
    let mut text = text_of(rt.alloc(), &THREE_WORKS, b"\n")?;
    expect_tails(rt.alloc(), &mut text)
}

/// The file of three works may have such a tail, and has a fault with a line after that.
fn expect_tails(alloc: Global, text: &mut Vec<u8>) -> Result<(), Fail> {
    text.extend_from_slice(b"  \n\x1A\n")?;
    expect_three_cuts(alloc, text)?;
    text.extend_from_slice(NWR)?;
    expect_fault_cut(alloc, text, fault(11, 13))
}

/// A line is consumed only after its LF has come.
#[test]
fn goes_past_whole_lines_alone(rt: HostRuntime) -> Result<(), Fail> {
    let text = text_of(rt.alloc(), &[HDR, GRH], b"\n")?;
    let mut visitor = visitor_called(rt.alloc(), 0);
    expect_whole_lines(&text, &mut visitor)
}

/// Of less than a line no byte is consumed. Of this text's two lines, the second of them cut, the first line is
/// consumed.
fn expect_whole_lines(text: &[u8], visitor: &mut VisitLog) -> Result<(), Fail> {
    for part in [b"".as_slice(), b"H", b"X\r", HDR] {
        same("bytes", &taken_of(part, visitor)?, &0)?;
    }
    let part = text.get(..HDR.len() + 5).ok_or("a part")?;
    same("bytes", &taken_of(part, visitor)?, &(HDR.len() + 1))
}
