//! A register of ten entries, with each kind of reply, and its faults if it is damaged.

ghost use Rattle.std.specs.Prelude.{◌<◌};

use crate::books::{ISWC, ONE, W1, accepted, call, call_with_fault, expect_reply};
use crate::registers::{expect_fault, expect_fault_at, whole_call};
use crate::revisions::revise;
use std::alloc::{AllocError, Global};
use std::test::Fail;
use test_comparisons::{same, same_bytes};
use work_registry::{Book, RegisterRefusal, Reply, WorkKind, read_register};

/// Registers a work under a number, which must be new.
fn add_work(book: &mut Book, alloc: Global, number: [u8; 14], work: u32) -> Result<(), Fail> {
    expect_reply(book, whole_call(alloc, number)?, accepted(work, 1))
}

/// Registers four works.
fn add_four(book: &mut Book, alloc: Global) -> Result<(), Fail> {
    add_work(book, alloc, *b"W2            ", 2)?;
    add_work(book, alloc, *b"W3            ", 3)?;
    add_work(book, alloc, *b"W4            ", 4)?;
    add_work(book, alloc, *b"W5            ", 5)
}

/// Two submitters share a work, after four calls. Then one registers its part again, its call with a fault is rejected,
/// and it registers four more works.
fn add_ten(book: &mut Book, alloc: Global) -> Result<(), Fail> {
    revise(book, alloc)?;
    let again = call(alloc, ONE, WorkKind::Nwr, W1, ISWC, 5000)?;
    expect_reply(book, again, Reply::Duplicate { work: 1 })?;
    expect_reply(book, call_with_fault(alloc)?, Reply::Rejected)?;
    add_four(book, alloc)
}

/// Line 1 has 12 bytes, and that of an entry 174 and 13 for its fault.
fn expect_ten(alloc: Global, text: &[u8]) -> Result<(), Fail> {
    same("its length", &text.len(), &(12 + 10 * 174 + 13))?;
    expect_fault(alloc, "ten entries", text, None)
}

/// The register of a book after these ten calls.
fn register_of_ten(book: &mut Book, alloc: Global) -> Result<Vec<u8>, Fail> {
    add_ten(book, alloc)?;
    let text = book.write_register(alloc)?;
    expect_ten(alloc, &text)?;
    Ok(text)
}

/// The register of ten entries.
fn text_of_ten(alloc: Global) -> Result<Vec<u8>, Fail> {
    let mut book = Book::new(alloc, 100);
    register_of_ten(&mut book, alloc)
}

/// The text with other bytes in place of some. `alloc` allocates, and `text` is changed from index `at` on, from 0:
/// `taken` bytes are removed, and `added` put there.
fn changed(
    alloc: Global,
    text: &[u8],
    at: usize,
    taken: usize,
    added: &[u8],
) -> Result<Vec<u8>, Fail> {
    let front = text.get(..at).ok_or("a front")?;
    let rest = text.get(at.saturating_add(taken)..).ok_or("a rest")?;
    let mut bytes = front.to_vec(alloc)?;
    put_both(&mut bytes, added, rest)?;
    Ok(bytes)
}

/// Appends both.
fn put_both(bytes: &mut Vec<u8>, added: &[u8], rest: &[u8]) -> Result<(), AllocError> {
    bytes.extend_from_slice(added)?;
    bytes.extend_from_slice(rest)
}

/// The line and the column of the byte with this index, both from 1.
fn place(text: &[u8], at: usize) -> (u64, usize) {
    let mut line: u64 = 1;
    let mut column: usize = 1;
    for byte in text.iter().take(at) {
        if *byte == b'\n' {
            line = line.saturating_add(1);
            column = 1;
        } else {
            column = column.saturating_add(1);
        }
    }
    (line, column)
}

/// A book that was read is written again as this text.
fn expect_written(alloc: Global, book: &Book, text: &[u8]) -> Result<(), Fail> {
    same_bytes("what is written again", &book.write_register(alloc)?, text)
}

/// The fault of a text. If it has none, and so is a register, it is written again as it was read.
fn fault_or_same(alloc: Global, text: &[u8]) -> Result<Option<(u8, u64)>, Fail> {
    match read_register(alloc, text, 99999999) {
        Ok(book) => expect_written(alloc, &book, text).map(|()| None),
        Err(RegisterRefusal::Fault { number, line }) => Ok(Some((number, line))),
        Err(RegisterRefusal::Memory) => Err("no memory")?,
    }
}

/// A fault is one of G1 to G3, in this line or a later one.
fn expect_later(number: u8, line: u64, first: u64) -> Result<(), Fail> {
    same(
        "a fault's number",
        &(number, (1..=3).contains(&number)),
        &(number, true),
    )?;
    same(
        "a fault's line",
        &(line, (first..=12).contains(&line)),
        &(line, true),
    )
}

/// The text is another register, or it has a fault in this line or a later one.
fn expect_register_or_fault(alloc: Global, text: &[u8], first: u64) -> Result<(), Fail> {
    match fault_or_same(alloc, text)? {
        Some((number, line)) => expect_later(number, line, first),
        None => Ok(()),
    }
}

/// The text with other bytes in place of some is the text itself, or has a fault in that line, which shows that the
/// line is not of its form. `alloc` allocates, and `text` is changed from index `at` on, from 0: `taken` bytes are
/// removed, and `added` put there.
fn expect_no_form(
    alloc: Global,
    text: &[u8],
    at: usize,
    taken: usize,
    added: &str,
) -> Result<(), Fail> {
    let bytes = changed(alloc, text, at, taken, added.as_bytes())?;
    let (line, _) = place(text, at);
    let wanted = if bytes.as_slice() == text {
        None
    } else {
        Some((1, line))
    };
    expect_fault_at(alloc, at, &bytes, wanted)
}

/// The text with the byte with this index spoilt in each way.
fn expect_spoilt(alloc: Global, text: &[u8], at: usize) -> Result<(), Fail> {
    expect_no_form(alloc, text, at, 1, "\x1f")?;
    expect_no_form(alloc, text, at, 1, "\n")?;
    expect_no_form(alloc, text, at, 1, "")?;
    expect_no_form(alloc, text, at, 0, "\x1f")
}

/// A control character or an end of line in place of a byte, a byte left out, and a control character before it: the
/// line is not of its form.
#[test]
fn each_byte_spoilt(rt: HostRuntime) -> Result<(), Fail> {
    let alloc = rt.alloc();
    let text = text_of_ten(alloc)?;
    for at in 0..text.len() {
        expect_spoilt(alloc, &text, at)?;
    }
    Ok(())
}

/// Whether a byte is one of an entry's type, index, kind, title, reply or number of faults. What another byte makes of
/// the line in place of one of the rest depends on the call.
fn is_certain(line: u64, column: usize) -> bool {
    line > 1 && matches!(column, 1..=11 | 23..=85 | 147..=173)
}

/// The bytes that are put in place of others: digits, a blank and a letter.
const REPLACING: [u8; 4] = *b"09 A";

/// The text with other bytes in place of one in this line.
fn expect_replaced(alloc: Global, text: &[u8], at: usize, line: u64) -> Result<(), Fail> {
    for byte in REPLACING {
        let bytes = changed(alloc, text, at, 1, &[byte])?;
        expect_register_or_fault(alloc, &bytes, line)?;
    }
    Ok(())
}

/// A digit, a blank or a letter in place of one of the rest.
#[test]
fn each_other_byte_replaced(rt: HostRuntime) -> Result<(), Fail> {
    let alloc = rt.alloc();
    let text = text_of_ten(alloc)?;
    for at in 0..text.len() {
        let (line, column) = place(&text, at);
        if !is_certain(line, column) {
            expect_replaced(alloc, &text, at, line)?;
        }
    }
    Ok(())
}

/// The number of the fault of an entry's line with another byte in such a column. Of the title each byte may be
/// another.
fn fault_in(column: usize, byte: u8) -> Option<u8> {
    match column {
        26..=85 => None,
        4..=11 if byte.is_ascii_digit() => Some(2),
        149..=164 if byte.is_ascii_digit() => Some(3),
        _ => Some(1),
    }
}

/// The text with other bytes in place of such a byte. `alloc` allocates, and `text` is changed at index `at`, from 0.
/// `line` and `column` are those of the byte, from 1.
fn expect_certain(
    alloc: Global,
    text: &[u8],
    at: usize,
    line: u64,
    column: usize,
) -> Result<(), Fail> {
    for byte in REPLACING {
        let bytes = changed(alloc, text, at, 1, &[byte])?;
        let number = fault_in(column, byte).filter(|_| bytes.as_slice() != text);
        let wanted = number.map(|number| (number, line));
        let found = fault_or_same(alloc, &bytes)?;
        same(
            "a place, and the fault of the text",
            &(at, found),
            &(at, wanted),
        )?;
    }
    Ok(())
}

/// A digit, a blank or a letter in place of such a byte.
#[test]
fn each_certain_byte_replaced(rt: HostRuntime) -> Result<(), Fail> {
    let alloc = rt.alloc();
    let text = text_of_ten(alloc)?;
    for at in 0..text.len() {
        let (line, column) = place(&text, at);
        if is_certain(line, column) {
            expect_certain(alloc, &text, at, line, column)?;
        }
    }
    Ok(())
}

/// The text with another number of entries in line 1 has this fault.
fn expect_count(alloc: Global, text: &[u8], count: &str, line: u64) -> Result<(), Fail> {
    let bytes = changed(alloc, text, 3, 8, count.as_bytes())?;
    expect_fault(alloc, count, &bytes, Some((2, line)))
}

fn expect_counts(alloc: Global, text: &[u8]) -> Result<(), Fail> {
    expect_count(alloc, text, "00000009", 11)?;
    expect_count(alloc, text, "00000011", 12)?;
    expect_count(alloc, text, "00000000", 2)?;
    expect_count(alloc, text, "99999999", 12)
}

/// Another number of entries than follow. A missing entry has the fault at the line after the last, and one that is not
/// counted at its own line.
#[test]
fn other_counts(rt: HostRuntime) -> Result<(), Fail> {
    let text = text_of_ten(rt.alloc())?;
    expect_counts(rt.alloc(), &text)
}

/// Ten entries, and a limit of nine.
#[test]
fn ten_above_the_limit(rt: HostRuntime) -> Result<(), Fail> {
    let text = text_of_ten(rt.alloc())?;
    let refusal = read_register(rt.alloc(), &text, 9).err();
    let too_many = RegisterRefusal::Fault { number: 4, line: 1 };
    same("why it is refused", &refusal, &Some(too_many))
}

/// The index of the first byte of a line, and the number of its bytes. That of the rejected call is line 7.
fn extent(line: u64) -> (usize, usize) {
    match line {
        2..=6 => (174 * (line as usize - 2) + 12, 174),
        7 => (882, 187),
        8..=11 => (174 * (line as usize - 8) + 1069, 174),
        _ => (0, 12),
    }
}

/// The text without this line has its fault there.
fn expect_left_out(alloc: Global, text: &[u8], line: u64) -> Result<(), Fail> {
    let (at, len) = extent(line);
    let without = changed(alloc, text, at, len, &[])?;
    expect_fault_at(alloc, at, &without, Some((2, line)))
}

/// The text with this line twice has its fault in the next one.
fn expect_doubled(alloc: Global, text: &[u8], line: u64) -> Result<(), Fail>
    requires { line < 100 }
{
    let (at, len) = extent(line);
    let own = text.get(at..at.saturating_add(len)).ok_or("a line")?;
    let doubled = changed(alloc, text, at, 0, own)?;
    expect_fault_at(alloc, at, &doubled, Some((2, line + 1)))
}

/// The line of an entry left out: the one after it has another index, or there is none. The line of an entry twice: the
/// second has another index, or is not counted.
#[test]
fn each_line_left_out_or_doubled(rt: HostRuntime) -> Result<(), Fail> {
    let alloc = rt.alloc();
    let text = text_of_ten(alloc)?;
    for line in 2..12 {
        expect_left_out(alloc, &text, line)?;
        expect_doubled(alloc, &text, line)?;
    }
    Ok(())
}

/// A text that ends early: within a line, or before one.
#[test]
fn each_front_of_ten_entries(rt: HostRuntime) -> Result<(), Fail> {
    let alloc = rt.alloc();
    let text = text_of_ten(alloc)?;
    for len in 0..text.len() {
        let (line, column) = place(&text, len);
        let number = if column == 1 { 2 } else { 1 };
        let front = text.get(..len).unwrap_or(&[]);
        expect_fault_at(alloc, len, front, Some((number, line)))?;
    }
    Ok(())
}
