//! Lines of each width, and bytes below 32 at each place of a line. The end of a line is looked for in blocks of 64
//! bytes. The search begins where the earlier line of the same record name ended.

use crate::lines::{GRH, HDR, NWR, fault, text_of};
use crate::visited::visitor_called;
use crate::windows::{by, visit};
use cwr_file::{FileRefusal, visit_file};
use std::alloc::{AllocError, Global};
use std::test::Fail;
use test_comparisons::{same, same_bytes};

/// The bytes of the shortest line of a detail: its record type and its sequence numbers.
const MIN: usize = 19;

/// The bytes of the widest line here: two blocks, and some.
const MAX: usize = 131;

/// The line of a performer with this digit as its record sequence, which asterisks fill to a width.
fn performer(alloc: Global, digit: u8, width: usize) -> Result<Vec<u8>, AllocError> {
    let mut line = Vec::new(alloc);
    line.extend_from_slice(b"PER000000000000000")?;
    line.push(digit)?;
    line.resize(width, b'*')?;
    Ok(line)
}

/// A file of one transaction with these details, and with this end at each line.
fn file_of(alloc: Global, details: [&[u8]; 3], end: &[u8]) -> Result<Vec<u8>, AllocError> {
    let [first, second, third] = details;
    let lines = [
        HDR,
        GRH,
        NWR,
        first,
        second,
        third,
        b"GRT000010000000100000006",
        b"TRL000010000000100000008",
    ];
    text_of(alloc, &lines, end)
}

/// What a visitor notes of that file.
fn noted_of(alloc: Global, details: [&[u8]; 3]) -> Result<Vec<u8>, AllocError> {
    let mut noted = Vec::new(alloc);
    noted.extend_from_slice(b"0000100000000NWR")?;
    noted.extend_from_slice(NWR)?;
    for line in details {
        noted.extend_from_slice(b"\nother")?;
        noted.extend_from_slice(line)?;
    }
    noted.extend_from_slice(b"\nend\n")?;
    Ok(noted)
}

/// A visitor is given these details, whether the file is in one piece or comes through a window.
fn expect_given(alloc: Global, details: [&[u8]; 3], end: &[u8]) -> Result<(), Fail> {
    let text = file_of(alloc, details, end)?;
    let noted = noted_of(alloc, details)?;
    let mut whole = visitor_called(alloc, 5);
    visit_file(&text, &mut whole)?;
    same_bytes("in one piece", &whole.text, &noted)?;
    for room in [0, 64, 200] {
        let (_, cut) = visit(alloc, &text, by(1000, room), visitor_called(alloc, 5))?;
        same_bytes("through a window", &cut.text, &noted)?;
    }
    Ok(())
}

/// Details of two widths. The second follows a shorter one of its name, and the third a longer one.
fn expect_widths(alloc: Global, width: usize, other: usize) -> Result<(), Fail> {
    let first = performer(alloc, b'1', width)?;
    let second = performer(alloc, b'2', other)?;
    let third = performer(alloc, b'3', width)?;
    expect_given(alloc, [&first, &second, &third], b"\r\n")?;
    expect_given(alloc, [&first, &second, &third], b"\n")
}

#[test]
fn gives_details_of_each_width(rt: HostRuntime) -> Result<(), Fail> {
    for width in MIN..=MAX {
        expect_widths(rt.alloc(), width, width)?;
        expect_widths(rt.alloc(), width, width.saturating_add(1))?;
        expect_widths(rt.alloc(), width, width.saturating_add(64))?;
    }
    Ok(())
}

/// The second of three details has this byte at a place, counted from 0.
fn expect_byte(
    alloc: Global,
    byte: u8,
    place: usize,
    wanted: Option<FileRefusal>,
) -> Result<(), Fail> {
    let first = performer(alloc, b'1', MAX)?;
    let mut second = performer(alloc, b'2', MAX)?;
    let third = performer(alloc, b'3', MAX)?;
    *second.get_mut(place).ok_or("a place")? = byte;
    let text = file_of(alloc, [&first, &second, &third], b"\r\n")?;
    let refusal = visit_file(&text, &mut visitor_called(alloc, 5)).err();
    same(
        "a place, and the refusal",
        &(place, refusal),
        &(place, wanted),
    )
}

/// A CR is not part of a line only if an LF follows it.
#[test]
fn refuses_a_control_byte_at_each_place(rt: HostRuntime) -> Result<(), Fail> {
    for place in 0..MAX {
        for byte in [0, 9, b'\r', 31] {
            expect_byte(rt.alloc(), byte, place, fault(2, 5))?;
        }
        expect_byte(
            rt.alloc(),
            0x80,
            place,
            if place < MIN { broken(place) } else { None },
        )?;
    }
    Ok(())
}

/// The fault of a line whose byte at this place is not of its record type or of its sequence numbers.
fn broken(place: usize) -> Option<FileRefusal> {
    if place < 3 { fault(3, 5) } else { fault(8, 5) }
}

/// What follows an LF is a line of its own, which has no record type here.
#[test]
fn ends_a_line_at_each_newline(rt: HostRuntime) -> Result<(), Fail> {
    for place in 0..MAX {
        let wanted = if place < MIN {
            broken(place)
        } else {
            fault(3, 6)
        };
        expect_byte(rt.alloc(), b'\n', place, wanted)?;
    }
    Ok(())
}
