//! Shares and territories byte by byte: digits, blanks, and bytes beside them.

use crate::judging::{expect, judged};
use crate::records::{WORK, WRITER, writer};
use cwr_rules::WorkKind;
use std::alloc::Global;
use std::process::Abort;
use std::test::Fail;
use test_comparisons::same;

/// A writer's line up to its shares.
const START: &str = writer!("SWR0000000000000001000000001", "");

/// A writer's territory up to its shares.
const COLLECTION: &str = "SWT0000000000000002000000001";

/// A share that is not valid is a fault of its record, and adds nothing to the total.
#[test]
fn shares_that_are_not_valid(rt: HostRuntime) -> Result<(), Fail> {
    for share in [
        "10001", "99999", "20000", "1000 ", " 1000", "10 00", "1    ", "    1", "1000:", ":0000",
        "/0000", "0000/", "00:00", "00/00", "é000", "0é00", "000é", "ÿÿ0", "0000A", "-0001",
    ] {
        expect_each(&rt, rt.alloc(), share, true)?;
    }
    Ok(())
}

/// Digits up to 10000 are their number, and blanks none.
#[test]
fn shares_that_are_valid(rt: HostRuntime) -> Result<(), Fail> {
    for share in ["10000", "09994", "09999", "00000", "     "] {
        expect_each(&rt, rt.alloc(), share, false)?;
    }
    Ok(())
}

/// A share in each column of a writer, and of a writer's territory: a fault of its record, or none.
fn expect_each(rt: &impl Abort, alloc: Global, share: &str, is_wrong: bool) -> Result<(), Fail> {
    for shares in shares_with(alloc, share, "   ")? {
        let line = format!(in alloc; "{START}{shares}")?;
        let wanted: &[(u32, u8)] = if is_wrong { &[(1, 6)] } else { &[] };
        expect(rt, alloc, &[WORK, &line], wanted)?;
    }
    for shares in shares_with(alloc, share, "")? {
        let line = format!(in alloc; "{COLLECTION}{shares}I0840")?;
        let wanted: &[(u32, u8)] = if is_wrong { &[(2, 6)] } else { &[] };
        expect(rt, alloc, &[WORK, WRITER, &line], wanted)?;
    }
    Ok(())
}

/// The share in each of three columns, 10000 in the two others, with this between them.
fn shares_with(alloc: Global, share: &str, between: &str) -> Result<[String; 3], Fail> {
    Ok([
        format!(in alloc; "{share}{between}10000{between}10000")?,
        format!(in alloc; "10000{between}{share}{between}10000")?,
        format!(in alloc; "10000{between}10000{between}{share}")?,
    ])
}

/// What the digits of a share count.
#[test]
fn numbers_of_shares(rt: HostRuntime) -> Result<(), Fail> {
    for (share, number) in [
        ("00001", 1),
        ("00010", 10),
        ("00100", 100),
        ("01000", 1000),
        ("10000", 10000),
        ("01234", 1234),
        ("09876", 9876),
        ("09090", 9090),
        ("00909", 909),
        ("09999", 9999),
        ("     ", 0),
    ] {
        expect_control(rt.alloc(), share, number)?;
    }
    Ok(())
}

/// A writer of the submitter with this share of each right in turn controls `number` hundredths of one per cent of it.
fn expect_control(alloc: Global, share: &str, number: u64) -> Result<(), Fail> {
    let wanted = [
        [number, 10000, 10000],
        [10000, number, 10000],
        [10000, 10000, number],
    ];
    for (shares, control) in shares_with(alloc, share, "   ")?.iter().zip(wanted) {
        let line = format!(in alloc; "{START}{shares}")?;
        let call = judged(alloc, &[WORK, &line], WorkKind::Nwr)?;
        same("the control", &call.control(), &control)?;
    }
    Ok(())
}

/// A line that ends early reads as if blanks followed it.
#[test]
fn shares_of_short_lines(rt: HostRuntime) -> Result<(), Fail> {
    let cases: [(&str, &[(u32, u8)]); 6] = [
        ("10000   10000   1000", &[(1, 6)]),
        ("10000   10000   ", &[]),
        ("10000   10000", &[]),
        ("10000   1000", &[(1, 6)]),
        ("10000", &[]),
        ("", &[]),
    ];
    for (shares, wanted) in cases {
        let line = format!(in rt.alloc(); "{START}{shares}")?;
        expect(&rt, rt.alloc(), &[WORK, &line], wanted)?;
    }
    expect(
        &rt,
        rt.alloc(),
        &[WORK, "SWR0000000000000001000000001"],
        &[],
    )
}

/// The TIS code is one to four digits, with blanks before or after.
#[test]
fn codes_of_territories(rt: HostRuntime) -> Result<(), Fail> {
    let cases: [(&str, &[(u32, u8)]); 14] = [
        ("I0840", &[]),
        ("I840 ", &[]),
        ("I 840", &[]),
        ("I1   ", &[]),
        ("I1", &[]),
        ("E9999", &[]),
        ("I0000", &[]),
        ("I", &[(2, 14)]),
        ("I    ", &[(2, 14)]),
        ("I8 40", &[(2, 14)]),
        ("I084:", &[(2, 14)]),
        ("I/840", &[(2, 14)]),
        ("Ié40", &[(2, 14)]),
        (" 0840", &[(2, 14)]),
    ];
    for (territory, wanted) in cases {
        let line = format!(in rt.alloc(); "{COLLECTION}100001000010000{territory}")?;
        expect(&rt, rt.alloc(), &[WORK, WRITER, &line], wanted)?;
    }
    Ok(())
}
