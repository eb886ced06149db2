//! Submission files that were cut or damaged, and the largest ones.

ghost use Rattle.std.specs.Prelude.{◌<◌, ◌^◌};

use crate::lines::{
    GRH, GRT, HDR, NINE_RECORDS, NWR, ONE_WORK, SWR, expect_counts, expect_refusal,
    expect_refusal_at, fault, text_of,
};
use cwr_field::put_digits;
use cwr_file::{FileRefusal, parse_file};
use std::alloc::{AllocError, Global};
use std::test::Fail;
use test_comparisons::same;

/// The file of one work with a tail after its last line.
fn expect_tail(alloc: Global, tail: &str, wanted: Option<FileRefusal>) -> Result<(), Fail> {
    let mut text = text_of(alloc, &ONE_WORK, b"\r\n")?;
    text.extend_from_slice(tail.as_bytes())?;
    expect_refusal(alloc, tail, &text, wanted)
}

#[test]
fn takes_a_tail_of_blanks_and_file_ends(rt: HostRuntime) -> Result<(), Fail> {
    let alloc = rt.alloc();
    expect_tail(alloc, "\r\n\x1A", None)?;
    expect_tail(alloc, "\r\n\x1A\r\n", None)?;
    expect_tail(alloc, "X", fault(11, 7))?;
    expect_tail(alloc, "  \n\x1A X", fault(11, 8))?;
    expect_tail(alloc, "\r", fault(11, 7))
}

/// The file of nine records with a PER that begins with these bytes and is filled with blanks to this width.
fn expect_wide(
    alloc: Global,
    start: &[u8],
    width: usize,
    wanted: Option<FileRefusal>,
) -> Result<(), Fail> {
    let mut line = start.to_vec(alloc)?;
    line.resize(width, b' ')?;
    let mut lines = NINE_RECORDS;
    lines[7] = &line;
    let text = text_of(alloc, &lines, b"\r\n")?;
    expect_refusal_at(alloc, width, &text, wanted)
}

#[test]
fn takes_lines_of_4096_bytes(rt: HostRuntime) -> Result<(), Fail> {
    let alloc = rt.alloc();
    expect_wide(alloc, b"PER0000000000000005X", 4096, None)?;
    expect_wide(alloc, b"PER0000000000000005X", 4097, fault(12, 8))?;
    expect_wide(alloc, b"PER0000000000000005X\t", 4096, fault(2, 8))
}

/// The fault of the file of one work after a cut. It has one if the cut leaves no complete type of its first record, or
/// removes a part of the end of its fifth line or of its last. `left` is the number of bytes that are left, `five` that
/// of the first five lines, and `all` that of the file.
fn fault_of_cut(left: usize, five: usize, all: usize) -> Option<FileRefusal> {
    if left < 3 {
        fault(1, 1)
    } else if left == 3 {
        fault(3, 1)
    } else if left == five.saturating_sub(2) || left == five {
        fault(11, 6)
    } else if left == five.saturating_sub(1) {
        fault(2, 5)
    } else if left == all.saturating_sub(3) {
        fault(10, 6)
    } else if left == all.saturating_sub(1) {
        fault(2, 6)
    } else {
        None
    }
}

/// What a cut leaves is taken only if the last line's end alone is missing. Else it has the fault of [`fault_of_cut`],
/// or if that is none, some other.
fn expect_cut(alloc: Global, text: &[u8], five: usize, left: usize) -> Result<(), Fail> {
    let refusal = parse_file(alloc, text.get(..left).ok_or("a cut")?).err();
    let wanted = fault_of_cut(left, five, text.len());
    if wanted.is_some() || left == text.len().saturating_sub(2) {
        return same("a cut, and the refusal", &(left, refusal), &(left, wanted));
    }
    let is_fault = matches!(refusal, Some(FileRefusal::Fault { .. }));
    same("a cut, and a fault", &(left, is_fault), &(left, true))
}

/// What remains of the file of one work after a cut.
#[test]
fn refuses_a_file_that_was_cut(rt: HostRuntime) -> Result<(), Fail> {
    let alloc = rt.alloc();
    let text = text_of(alloc, &ONE_WORK, b"\r\n")?;
    let five = text_of(alloc, &[HDR, GRH, NWR, SWR, GRT], b"\r\n")?.len();
    for left in 0..text.len() {
        expect_cut(alloc, &text, five, left)?;
    }
    Ok(())
}

/// The file of one work with 0 in place of the byte with this index, which is in this line.
fn expect_byte_0(alloc: Global, text: &[u8], index: usize, line: u64) -> Result<(), Fail> {
    let mut bytes = text.to_vec(alloc)?;
    *bytes.get_mut(index).ok_or("a byte")? = 0;
    let wanted = if index < 3 {
        fault(1, 1)
    } else {
        fault(2, line)
    };
    expect_refusal_at(alloc, index, &bytes, wanted)
}

/// Each byte of the file of one work, its line ends too, in turn replaced by 0.
#[test]
fn refuses_a_byte_0(rt: HostRuntime) -> Result<(), Fail> {
    let text = text_of(rt.alloc(), &ONE_WORK, b"\r\n")?;
    let mut line: u64 = 1;
    for (index, byte) in text.iter().enumerate() {
        expect_byte_0(rt.alloc(), &text, index, line)?;
        if *byte == b'\n' {
            line = line.saturating_add(1);
        }
    }
    Ok(())
}

/// A header, 99,999 groups without transactions, and these lines.
fn full_of_groups(alloc: Global, last: &[&[u8]]) -> Result<Vec<u8>, Fail> {
    let mut text = Vec::new(alloc);
    put_groups(&mut text, last)?;
    Ok(text)
}

fn put_groups(text: &mut Vec<u8>, last: &[&[u8]]) -> Result<(), Fail> {
    put_line(text, HDR)?;
    for group in 1..100_000 {
        put_group(text, group)?;
    }
    for line in last {
        put_line(text, line)?;
    }
    Ok(())
}

fn put_line(text: &mut Vec<u8>, line: &[u8]) -> Result<(), AllocError> {
    text.extend_from_slice(line)?;
    text.push(b'\n')?;
    Ok(())
}

/// The two lines of a group without transactions.
fn put_group(text: &mut Vec<u8>, group: u64) -> Result<(), Fail>
    requires { group < 10 ^ 5 }
{
    text.extend_from_slice(b"GRHNWR")?;
    put_digits(text, group, 5)?;
    text.extend_from_slice(b"\nGRT")?;
    put_digits(text, group, 5)?;
    text.extend_from_slice(b"0000000000000002\n")?;
    Ok(())
}

#[test]
fn takes_99_999_groups(rt: HostRuntime) -> Result<(), Fail> {
    let text = full_of_groups(rt.alloc(), &[b"TRL999990000000000200000"])?;
    let file = parse_file(rt.alloc(), &text)?;
    expect_counts(&file, 99_999, 200_000, 0)?;
    same("there is none", &file.transactions.is_empty(), &true)
}

#[test]
fn refuses_one_group_more(rt: HostRuntime) -> Result<(), Fail> {
    let last: [&[u8]; 2] = [b"GRHNWR00000", b"TRL999990000000000200000"];
    let text = full_of_groups(rt.alloc(), &last)?;
    expect_refusal(rt.alloc(), "100,000 groups", &text, fault(7, 200_000))
}

#[test]
fn refuses_line_ends_alone(rt: HostRuntime) -> Result<(), Fail> {
    let text = vec![in rt.alloc(); b'\n'; 16_777_216]?;
    expect_refusal(rt.alloc(), "line ends alone", &text, fault(1, 1))
}
