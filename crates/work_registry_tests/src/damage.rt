//! A register of one entry that is damaged.

use crate::registers::{ONE_ENTRY, expect_fault, expect_fault_at};
use std::alloc::Global;
use std::test::Fail;
use test_comparisons::same;
use work_registry::{RegisterRefusal, read_register};

/// The register of one entry, with a text in place of the bytes of line 2 from this position, counted from 1.
fn changed(alloc: Global, place: usize, text: &str) -> Result<Vec<u8>, Fail> {
    let mut bytes = ONE_ENTRY.as_bytes().to_vec(alloc)?;
    for (offset, byte) in text.as_bytes().iter().enumerate() {
        let at = place.wrapping_add(11).wrapping_add(offset);
        *bytes.get_mut(at).ok_or("a byte of the line")? = *byte;
    }
    Ok(bytes)
}

/// Each of these texts at its place makes a text with this fault, or another register.
fn expect_changes(
    alloc: Global,
    changes: &[(usize, &str)],
    wanted: Option<(u8, u64)>,
) -> Result<(), Fail> {
    for (place, text) in changes {
        let bytes = changed(alloc, *place, text)?;
        expect_fault_at(alloc, *place, &bytes, wanted)?;
    }
    Ok(())
}

/// Another type, kind, code or status, or a number that is none: no line of an entry.
#[test]
fn malformed_lines(rt: HostRuntime) -> Result<(), Fail> {
    let changes = [
        (1, "ent"),
        (4, "        "),
        (23, "NEW"),
        (100, "T0345246802"),
        (111, "00000001000X"),
        (111, "000000010007"),
        (147, "as"),
        (149, "0000000A"),
        (157, "       1"),
        (165, "000000001"),
        (165, "999999999"),
    ];
    expect_changes(rt.alloc(), &changes, Some((1, 2)))
}

/// An index that is not that of the line.
#[test]
fn misplaced_lines(rt: HostRuntime) -> Result<(), Fail> {
    let changes = [(4, "00000002"), (4, "00000000"), (4, "10000001")];
    expect_changes(rt.alloc(), &changes, Some((2, 2)))
}

/// Another reply than the registry gives.
#[test]
fn unlawful_lines(rt: HostRuntime) -> Result<(), Fail> {
    let changes = [
        (147, "DU0000000100000000000000000"),
        (147, "CO"),
        (147, "RJ"),
        (147, "RJ0000000000000000"),
        (149, "00000002"),
        (149, "00000000"),
        (157, "00000002"),
        (157, "00000000"),
    ];
    expect_changes(rt.alloc(), &changes, Some((3, 2)))
}

/// Another call to which the reply is the same.
#[test]
fn lines_of_other_calls(rt: HostRuntime) -> Result<(), Fail> {
    let changes = [
        (12, "SO000000001"),
        (23, "REV"),
        (26, "X"),
        (86, "W2"),
        (100, "T0345246801"),
        (111, "000000010006"),
        (135, "000000000000"),
    ];
    expect_changes(rt.alloc(), &changes, None)
}

/// The register with a control character in place of the byte with this index.
fn spoilt(alloc: Global, at: usize) -> Result<Vec<u8>, Fail> {
    let mut bytes = ONE_ENTRY.as_bytes().to_vec(alloc)?;
    *bytes.get_mut(at).ok_or("a byte")? = 31;
    Ok(bytes)
}

/// A control character in place of any byte leaves no line of its form.
#[test]
fn each_byte(rt: HostRuntime) -> Result<(), Fail> {
    let alloc = rt.alloc();
    for at in 0..ONE_ENTRY.len() {
        let line = if at < 12 { 1 } else { 2 };
        expect_fault_at(alloc, at, &spoilt(alloc, at)?, Some((1, line)))?;
    }
    Ok(())
}

/// The fault of the first `len` of the register's 186 bytes.
fn fault_of_front(len: usize) -> (u8, u64) {
    match len {
        0 => (2, 1),
        1..=11 => (1, 1),
        12 => (2, 2),
        _ => (1, 2),
    }
}

/// A text that ends early: within a line, or before it.
#[test]
fn each_front(rt: HostRuntime) -> Result<(), Fail> {
    let alloc = rt.alloc();
    for len in 0..ONE_ENTRY.len() {
        let front = ONE_ENTRY.as_bytes().get(..len).unwrap_or(&[]);
        expect_fault_at(alloc, len, front, Some(fault_of_front(len)))?;
    }
    Ok(())
}

/// The register with this first line has this fault.
fn expect_count(alloc: Global, first: &str, wanted: (u8, u64)) -> Result<(), Fail> {
    let mut text = first.as_bytes().to_vec(alloc)?;
    text.extend_from_slice(ONE_ENTRY.as_bytes().get(12..).unwrap_or(&[]))?;
    expect_fault(alloc, first, &text, Some(wanted))
}

/// Line 1 counts more entries than follow, and fewer.
#[test]
fn wrong_counts(rt: HostRuntime) -> Result<(), Fail> {
    let alloc = rt.alloc();
    expect_count(alloc, "REG00000002\n", (2, 3))?;
    expect_count(alloc, "REG00000000\n", (2, 2))?;
    expect_count(alloc, "REG99999999\n", (2, 3))?;
    expect_count(alloc, "REG0000001\n", (1, 1))?;
    expect_count(alloc, "reg00000001\n", (1, 1))
}

/// Line 1 counts more entries than the limit.
#[test]
fn count_above_the_limit(rt: HostRuntime) -> Result<(), Fail> {
    let refusal = read_register(rt.alloc(), b"REG00000003\n", 2).err();
    let too_many = RegisterRefusal::Fault { number: 4, line: 1 };
    same("why it is refused", &refusal, &Some(too_many))
}
