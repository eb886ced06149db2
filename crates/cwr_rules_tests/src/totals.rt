//! Totals of ownership and of collection.

use crate::judging::expect;
use crate::records::{PUBLISHER, WORK, WRITER, publisher, writer};
use std::test::Fail;

/// Ownership of a right has a tolerance of 0.06 per cent.
#[test]
fn ownership_within_the_tolerance(rt: HostRuntime) -> Result<(), Fail> {
    let half = writer!("OWR0000000000000002000000001", "05000   05000   05000");
    let cases: [(&str, &[(u32, u8)]); 4] = [
        (
            writer!("SWR0000000000000001000000001", "04994   05000   05000"),
            &[],
        ),
        (
            writer!("SWR0000000000000001000000001", "05006   05000   05000"),
            &[],
        ),
        (
            writer!("SWR0000000000000001000000001", "04993   05000   05000"),
            &[(0, 11)],
        ),
        (
            writer!("SWR0000000000000001000000001", "05007   05000   05000"),
            &[(0, 11)],
        ),
    ];
    for (writer, wanted) in cases {
        expect(&rt, rt.alloc(), &[WORK, writer, half], wanted)?;
    }
    Ok(())
}

/// Ownership of each right: none, or all of it.
#[test]
fn ownership_of_each_right(rt: HostRuntime) -> Result<(), Fail> {
    let cases: [(&[&str], &[(u32, u8)]); 3] = [
        (
            &[
                WORK,
                writer!("SWR0000000000000001000000001", "10000   09993   10000"),
                writer!("OWR0000000000000002000000001", "00000   00000   00007"),
            ],
            &[(0, 12), (0, 13)],
        ),
        (
            &[
                WORK,
                writer!("SWR0000000000000001000000001", "10000   09993   10007"),
            ],
            &[(0, 12), (1, 6)],
        ),
        (
            &[
                WORK,
                writer!("SWR0000000000000001000000001", "00000   05000   05000"),
                writer!("OWR0000000000000002000000001", "00000   05000   05000"),
            ],
            &[],
        ),
    ];
    for (lines, wanted) in cases {
        expect(&rt, rt.alloc(), lines, wanted)?;
    }
    Ok(())
}

/// Ownership is added up over all writers and publishers.
#[test]
fn ownership_of_all_parties(rt: HostRuntime) -> Result<(), Fail> {
    let writers = [
        WORK,
        writer!("SWR0000000000000001000000001", "05000   09994   10000"),
        writer!("OWR0000000000000002000000001", "05000   00000   00006"),
    ];
    expect(&rt, rt.alloc(), &writers, &[])?;
    let three = [
        WORK,
        publisher!("SPU000000000000000101000000002", "05000   05000   05000"),
        publisher!("OPU000000000000000201000000002", "02500   02500   02500"),
        writer!("SWR0000000000000003000000001", "02500   02500   02500"),
    ];
    expect(&rt, rt.alloc(), &three, &[])
}

/// The collection in each territory that is included, added up by its number.
#[test]
fn collection_totals(rt: HostRuntime) -> Result<(), Fail> {
    let first = "SWT0000000000000002000000001050030500305003I0840";
    let whole = "SWT0000000000000002000000001100001000010000I0840";
    let cases: [(&str, &str, &[(u32, u8)]); 4] = [
        (
            first,
            "SWT0000000000000003000000001050030500305003I840 ",
            &[],
        ),
        (
            first,
            "SWT0000000000000003000000001050040500405004I840 ",
            &[(0, 15)],
        ),
        (
            first,
            "SWT0000000000000003000000001050040500405004E840 ",
            &[],
        ),
        (
            whole,
            "SWT0000000000000003000000001100001000010000I0036",
            &[],
        ),
    ];
    for (one, other, wanted) in cases {
        expect(&rt, rt.alloc(), &[WORK, WRITER, one, other], wanted)?;
    }
    Ok(())
}

/// The collection of a publisher and a writer is one total.
#[test]
fn collection_of_publishers_and_writers(rt: HostRuntime) -> Result<(), Fail> {
    let lines = [
        WORK,
        PUBLISHER,
        "SPT0000000000000002000000002      050030500305003I0840",
        writer!("SWR0000000000000003000000001", "10000   10000   10000"),
        "SWT0000000000000004000000001050040500405004I0840",
    ];
    expect(&rt, rt.alloc(), &lines, &[(0, 15)])
}
