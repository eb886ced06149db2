//! Faults of the header of a transaction.

use crate::judging::expect;
use crate::records::{WRITER, link, publisher, work, writer};
use std::test::Fail;

/// A header alone, and headers without a title or a number.
#[test]
fn titles_and_numbers(rt: HostRuntime) -> Result<(), Fail> {
    let header = "NWR0000000000000000";
    expect(&rt, rt.alloc(), &[header], &[(0, 2), (0, 3), (0, 10)])?;
    let cases: [(&str, &[(u32, u8)]); 4] = [
        (
            "NWR0000000000000000                                                              W1",
            &[(0, 2)],
        ),
        (
            "NWR0000000000000000                                                           X  W1",
            &[],
        ),
        ("NWR0000000000000000SONG ONE", &[(0, 3)]),
        (
            "NWR0000000000000000SONG ONE                                                                   1",
            &[],
        ),
    ];
    for (header, wanted) in cases {
        expect(&rt, rt.alloc(), &[header, WRITER], wanted)?;
    }
    Ok(())
}

#[test]
fn iswcs(rt: HostRuntime) -> Result<(), Fail> {
    let cases: [(&str, &[(u32, u8)]); 3] = [
        (work!("            T0345246801"), &[]),
        (work!("            T0345246802"), &[(0, 4)]),
        (work!("            T0000000019"), &[(0, 4)]),
    ];
    for (header, wanted) in cases {
        expect(&rt, rt.alloc(), &[header, WRITER], wanted)?;
    }
    Ok(())
}

/// The copyright date, the duration, and both wrong, which is one fault.
#[test]
fn dates_and_durations(rt: HostRuntime) -> Result<(), Fail> {
    let cases: [(&str, &[(u32, u8)]); 6] = [
        (work!("                       20230229"), &[(0, 5)]),
        (work!("                       20240229"), &[]),
        (work!("                       00000000"), &[]),
        (
            work!("                                              006100"),
            &[(0, 5)],
        ),
        (
            work!("                                              235959"),
            &[],
        ),
        (
            work!("                       20230229               006100"),
            &[(0, 5)],
        ),
    ];
    for (header, wanted) in cases {
        expect(&rt, rt.alloc(), &[header, WRITER], wanted)?;
    }
    Ok(())
}

/// All rules at once but J10, which no transaction breaks together with J9.
#[test]
fn every_fault_at_once(rt: HostRuntime) -> Result<(), Fail> {
    let lines = [
        "NWR0000000000000000                                                                            T034524680220230229",
        publisher!("SPU000000000000000101         ", "99999   09000   09000"),
        writer!("SWR0000000000000002000000001", "05000   00500   00500"),
        "SWT0000000000000003000000009100001000010000I2136",
        link!("PWR0000000000000004000000007"),
        "SWT0000000000000005000000001000070000700007I2136",
        "SWT0000000000000006000000001000000000000000X2136",
        "ALT0000000000000007X",
        publisher!("OPU000000000000000801000000002", "00000   00000   00000"),
    ];
    let wanted = [
        (0, 2),
        (0, 3),
        (0, 4),
        (0, 5),
        (0, 11),
        (0, 12),
        (0, 13),
        (0, 15),
        (1, 6),
        (1, 7),
        (3, 8),
        (4, 9),
        (6, 14),
        (8, 1),
    ];
    expect(&rt, rt.alloc(), &lines, &wanted)
}
