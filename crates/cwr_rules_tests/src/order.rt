//! The order of the records.

use crate::judging::expect;
use crate::records::{LATER_WRITER, WORK, WRITER, publisher, writer};
use std::test::Fail;

/// The records stand in blocks, then the titles.
#[test]
fn records_in_order(rt: HostRuntime) -> Result<(), Fail> {
    let orders: [&[&str]; 4] = [
        &[WORK, WRITER],
        &[
            WORK,
            WRITER,
            "ALT0000000000000002X",
            "XRF0000000000000003",
            "ALT0000000000000004Y",
        ],
        &[
            WORK,
            WRITER,
            publisher!("SPU000000000000000201000000002", "00000   00000   00000"),
            "SPT0000000000000003000000002      050000500005000I2136",
        ],
        &[
            WORK,
            WRITER,
            "NWN0000000000000002",
            "SWT0000000000000003000000001050000500005000I2136",
            "ALT0000000000000004OTHER NAME",
            "PER0000000000000005X",
            "REC0000000000000006",
            "ORN0000000000000007LIB",
            "XRF0000000000000008",
        ],
    ];
    for lines in orders {
        expect(&rt, rt.alloc(), lines, &[])?;
    }
    Ok(())
}

/// The order breaks once.
#[test]
fn records_out_of_order(rt: HostRuntime) -> Result<(), Fail> {
    let orders: [(&[&str], u32); 4] = [
        (&[WORK, "ALT0000000000000001X", LATER_WRITER], 2),
        (
            &[
                WORK,
                "SWT0000000000000001000000001050000500005000I2136",
                LATER_WRITER,
            ],
            1,
        ),
        (
            &[
                WORK,
                WRITER,
                "XRF0000000000000002",
                publisher!("SPU000000000000000301000000002", "00000   00000   00000"),
                publisher!("SPU000000000000000401000000002", "00000   00000   00000"),
            ],
            3,
        ),
        (
            &[
                WORK,
                publisher!("OPU000000000000000101000000002", "00000   00000   00000"),
                "SPT0000000000000002000000002      050000500005000I2136",
                writer!("SWR0000000000000003000000001", "10000   10000   10000"),
            ],
            2,
        ),
    ];
    for (lines, sequence) in orders {
        expect(&rt, rt.alloc(), lines, &[(sequence, 1)])?;
    }
    Ok(())
}
