//! Faults of publishers and writers, and of their territories.

use crate::judging::expect;
use crate::records::{
    HALF_WRITER, LATER_WRITER, OWNER, PUBLISHER, WORK, WRITER, link, publisher, writer,
};
use std::test::Fail;

/// Shares that are not valid, blank ones, and none.
#[test]
fn shares(rt: HostRuntime) -> Result<(), Fail> {
    let cases: [(&str, &[(u32, u8)]); 5] = [
        (
            writer!("SWR0000000000000001000000001", "10001   10000   10000"),
            &[(1, 6)],
        ),
        (
            writer!("SWR0000000000000001000000001", "10000           10000"),
            &[],
        ),
        (
            writer!("SWR0000000000000001000000001", "10000   10000    5000"),
            &[(1, 6)],
        ),
        ("OPU0000000000000001", &[(0, 10)]),
        (
            writer!("OWR0000000000000001000000001", "00000   00000   00000"),
            &[],
        ),
    ];
    for (line, wanted) in cases {
        expect(&rt, rt.alloc(), &[WORK, line], wanted)?;
    }
    Ok(())
}

/// Publishers and writers of the submitter have a number, others need none.
#[test]
fn numbers_of_parties(rt: HostRuntime) -> Result<(), Fail> {
    let writers: [(&str, &[(u32, u8)]); 3] = [
        (
            writer!("SWR0000000000000001         ", "10000   10000   10000"),
            &[(1, 7)],
        ),
        (
            writer!("SWR0000000000000001        1", "10000   10000   10000"),
            &[],
        ),
        (
            writer!("OWR0000000000000001         ", "10000   10000   10000"),
            &[],
        ),
    ];
    for (line, wanted) in writers {
        expect(&rt, rt.alloc(), &[WORK, line], wanted)?;
    }
    let submitted = publisher!("SPU000000000000000101         ", "00000   00000   00000");
    expect(&rt, rt.alloc(), &[WORK, submitted, LATER_WRITER], &[(1, 7)])?;
    let other = publisher!("OPU000000000000000101         ", "00000   00000   00000");
    expect(&rt, rt.alloc(), &[WORK, other, LATER_WRITER], &[])
}

/// Territories of a writer, of another party, and of none.
#[test]
fn territories_of_writers(rt: HostRuntime) -> Result<(), Fail> {
    let unnumbered = writer!("SWR0000000000000001         ", "10000   10000   10000");
    let cases: [(&str, &str, &[(u32, u8)]); 4] = [
        (
            WRITER,
            "SWT0000000000000002000000009050000500005000I2136",
            &[(2, 8)],
        ),
        (
            WRITER,
            "SWT0000000000000002000000001050000500005000I2136",
            &[],
        ),
        (
            unnumbered,
            "SWT0000000000000002         050000500005000I2136",
            &[(1, 7)],
        ),
        (
            WRITER,
            "SWT0000000000000002         050000500005000I2136",
            &[(2, 8)],
        ),
    ];
    for (writer, territory, wanted) in cases {
        expect(&rt, rt.alloc(), &[WORK, writer, territory], wanted)?;
    }
    Ok(())
}

/// A territory of a publisher is of the one right before it.
#[test]
fn territories_of_publishers(rt: HostRuntime) -> Result<(), Fail> {
    let of_another = "SPT0000000000000002000000009      050000500005000I2136";
    let second = publisher!("SPU000000000000000201000000003", "00000   00000   00000");
    let of_the_first = "SPT0000000000000003000000002      050000500005000I2136";
    let writer = writer!("SWR0000000000000004000000001", "10000   10000   10000");
    for (between, wanted) in [(of_another, (2, 8)), (second, (3, 8))] {
        let lines = [WORK, PUBLISHER, between, of_the_first, writer];
        expect(&rt, rt.alloc(), &lines, &[wanted])?;
    }
    Ok(())
}

/// Territories without an indicator or a code.
#[test]
fn indicators_and_codes(rt: HostRuntime) -> Result<(), Fail> {
    let cases: [(&str, &[(u32, u8)]); 5] = [
        (
            "SWT0000000000000002000000001050000500005000X2136",
            &[(2, 14)],
        ),
        ("SWT0000000000000002000000001050000500005000E2136", &[]),
        (
            "SWT0000000000000002000000001050000500005000I21A6",
            &[(2, 14)],
        ),
        (
            "SWT0000000000000002000000001050000500005000I    ",
            &[(2, 14)],
        ),
        ("SWT0000000000000002000000001050000500005000I 84 ", &[]),
    ];
    for (territory, wanted) in cases {
        expect(&rt, rt.alloc(), &[WORK, WRITER, territory], wanted)?;
    }
    Ok(())
}

/// The publisher that a writer names is one of the transaction.
#[test]
fn publishers_of_writers(rt: HostRuntime) -> Result<(), Fail> {
    let other = publisher!("OPU000000000000000101000000002", "05000   10000   10000");
    let named = link!("PWR0000000000000003000000002");
    let missing = link!("PWR0000000000000003000000009");
    let blank = link!("PWR0000000000000003         ");
    let cases: [(&str, &str, &[(u32, u8)]); 4] = [
        (OWNER, named, &[]),
        (OWNER, missing, &[(3, 9)]),
        (OWNER, blank, &[]),
        (other, named, &[]),
    ];
    for (publisher, link, wanted) in cases {
        let lines = [WORK, publisher, HALF_WRITER, link];
        expect(&rt, rt.alloc(), &lines, wanted)?;
    }
    let lines = [
        WORK,
        OWNER,
        HALF_WRITER,
        link!("PWR0000000000000003000000003"),
        publisher!("SPU000000000000000401000000003", "00000   00000   00000"),
    ];
    expect(&rt, rt.alloc(), &lines, &[])?;
    let lines = [
        WORK,
        OWNER,
        HALF_WRITER,
        missing,
        link!("PWR0000000000000004000000003"),
        publisher!("SPU000000000000000501000000003", "00000   00000   00000"),
        link!("PWR0000000000000006000000008"),
    ];
    expect(&rt, rt.alloc(), &lines, &[(3, 9), (6, 1), (6, 9)])
}

/// The publisher of a writer who is not the submitter's may be missing.
#[test]
fn publishers_of_other_writers(rt: HostRuntime) -> Result<(), Fail> {
    let lines = [
        WORK,
        OWNER,
        writer!("OWR0000000000000002000000001", "05000   00000   00000"),
        link!("PWR0000000000000003000000009"),
    ];
    expect(&rt, rt.alloc(), &lines, &[])?;
    let lines = [
        WORK,
        OWNER,
        HALF_WRITER,
        writer!("OWR0000000000000003000000001", "00000   00000   00000"),
        link!("PWR0000000000000004000000009"),
    ];
    expect(&rt, rt.alloc(), &lines, &[])
}
