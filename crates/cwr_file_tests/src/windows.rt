//! Submission files that come from a source, through windows of many sizes.

ghost use Rattle.std.specs.Prelude.{◌≡◌, ◌<◌};

use crate::lines::{GRH, HDR, NWR, text_of};
use crate::taken::THREE_WORKS;
use crate::visited::{VisitLog, expect_three_works, visitor_called};
use cwr_file::{Envelope, Feed};
use cwr_source::{SourceRefused, visit_source};
use std::alloc::Global;
use std::test::Fail;
use test_comparisons::same;

/// How a source gives its bytes, and how they are read.
#[derive(Clone, Copy)]
pub(crate) struct Ways {
    /// The number of bytes that it gives at a time.
    chunk: usize,
    /// The read that fails, counted from 1; none for 0.
    failing: u64,
    /// The greatest number of bytes that a file may have.
    limit: usize,
    /// The number of bytes of the window.
    room: usize,
}

/// A bound on the bytes of the files here.
const MAX: usize = 4096;

/// Visits a file that comes from a source.
pub(crate) fn visit(
    alloc: Global,
    text: &[u8],
    ways: Ways,
    visitor: VisitLog,
) -> Result<(Envelope, VisitLog), SourceRefused>
    requires chunk { 0 < ways.chunk }
    requires limit { ways.limit < 4611686018427387904 }
{
    let mut reader = Feed::new(text, ways.chunk, Some(ways.failing));
    visit_source(alloc, &mut reader, ways.limit, ways.room, visitor)
}

/// The file of three works gives a visitor all of them.
fn expect_three_by(alloc: Global, text: &[u8], ways: Ways) -> Result<(), Fail>
    requires chunk { 0 < ways.chunk }
    requires limit { ways.limit < 4611686018427387904 }
{
    let (envelope, visitor) = visit(alloc, text, ways, visitor_called(alloc, 7))?;
    expect_three_works(&envelope, &visitor)
}

/// A file is refused with this error.
fn expect_refused_by(
    alloc: Global,
    text: &[u8],
    ways: Ways,
    wanted: SourceRefused,
) -> Result<(), Fail>
    requires chunk { 0 < ways.chunk }
    requires limit { ways.limit < 4611686018427387904 }
{
    let refusal = visit(alloc, text, ways, visitor_called(alloc, 7)).err();
    same("the refusal", &refusal, &Some(wanted))
}

/// A file is refused with this error through each window.
fn expect_refused_by_each(alloc: Global, text: &[u8], wanted: SourceRefused) -> Result<(), Fail> {
    for room in 0..300 {
        expect_refused_by(alloc, text, by(7, room), wanted)?;
    }
    Ok(())
}

/// A source that does not fail, which gives a piece at a time.
pub(crate) fn by(chunk: usize, room: usize) -> Ways
    ensures chunk { result.chunk ≡ chunk }
    ensures limit { result.limit ≡ 4096 }
{
    Ways {
        chunk,
        failing: 0,
        limit: MAX,
        room,
    }
}

#[test]
fn gives_the_same_through_each_window(rt: HostRuntime) -> Result<(), Fail> {
    let text = text_of(rt.alloc(), &THREE_WORKS, b"\r\n")?;
    for room in 0..300 {
        for chunk in [1, 2, 7, 1000] {
            expect_three_by(rt.alloc(), &text, by(chunk, room))?;
        }
    }
    Ok(())
}

#[test]
fn answers_a_missing_trailer_through_each_window(rt: HostRuntime) -> Result<(), Fail> {
    let lines = THREE_WORKS.get(..9).ok_or("lines")?;
    let text = text_of(rt.alloc(), lines, b"\n")?;
    let wanted = SourceRefused::Fault {
        number: 11,
        line: 10,
    };
    expect_refused_by_each(rt.alloc(), &text, wanted)
}

/// Blanks and bytes 26 may follow the trailer, and nothing else.
#[test]
fn answers_a_line_after_the_trailer_through_each_window(rt: HostRuntime) -> Result<(), Fail> {
    let mut text = text_of(rt.alloc(), &THREE_WORKS, b"\n")?;
    text.extend_from_slice(b"  \n\x1A\n")?;
    text.extend_from_slice(NWR)?;
    let wanted = SourceRefused::Fault {
        number: 11,
        line: 13,
    };
    expect_refused_by_each(rt.alloc(), &text, wanted)
}

/// A file may have as many bytes as the limit says, and not one more.
#[test]
fn takes_no_byte_past_the_limit(rt: HostRuntime) -> Result<(), Fail> {
    let text = text_of(rt.alloc(), &THREE_WORKS, b"\n")?;
    let size = text.len().min(MAX);
    let ways = Ways {
        limit: size,
        ..by(7, 64)
    };
    expect_three_by(rt.alloc(), &text, ways)?;
    let less = Ways {
        limit: size.saturating_sub(1),
        ..by(7, 64)
    };
    expect_refused_by(rt.alloc(), &text, less, SourceRefused::TooLong)
}

/// A fault is reported only of a file that can be read to its end.
#[test]
fn tells_a_failed_read_behind_a_fault(rt: HostRuntime) -> Result<(), Fail> {
    let text = text_of(rt.alloc(), &[HDR, HDR, GRH, NWR], b"\n")?;
    let wanted = SourceRefused::Fault { number: 4, line: 2 };
    expect_refused_by(rt.alloc(), &text, by(7, 64), wanted)?;
    for failing in 1..=(text.len() as u64) / 7 {
        let ways = Ways {
            failing,
            ..by(7, 64)
        };
        expect_refused_by(rt.alloc(), &text, ways, SourceRefused::Read)?;
    }
    Ok(())
}
