//! The first faults of submission files.

use crate::lines::{
    GRH, GRT, HDR, NWR, ONE_WORK, SWR, TRL, expect_lines, expect_refusal, expect_refusal_at, fault,
    text_of,
};
use cwr_file::{FileRefusal, Memory};
use std::alloc::Global;
use std::test::Fail;
use test_comparisons::same_text;

/// A line in the place of one of the file of one work: that one's index, the line, and the number and the line of the
/// fault.
struct Replaced {
    index: usize,
    line: &'static [u8],
    number: u8,
    at: u64,
}

const REPLACED: [Replaced; 10] = [
    Replaced {
        index: 1,
        line: b"GRHNWR0000202.200000000001",
        number: 7,
        at: 2,
    },
    Replaced {
        index: 4,
        line: b"GRT000020000000100000004",
        number: 7,
        at: 5,
    },
    Replaced {
        index: 5,
        line: b"TRL000010000000100000007",
        number: 10,
        at: 6,
    },
    Replaced {
        index: 2,
        line: SWR,
        number: 4,
        at: 3,
    },
    Replaced {
        index: 3,
        line: b"swr0000000000000001000000001DOE                                                                         CA                       10000   10000   10000",
        number: 3,
        at: 4,
    },
    Replaced {
        index: 3,
        line: b"SWR0000000000000002000000001DOE                                                                         CA                       10000   10000   10000",
        number: 8,
        at: 4,
    },
    Replaced {
        index: 4,
        line: b"GRT000010000000100000002",
        number: 9,
        at: 5,
    },
    Replaced {
        index: 1,
        line: b"GRHAGR0000102.20",
        number: 5,
        at: 2,
    },
    Replaced {
        index: 2,
        line: b"AGR0000000000000000SONG ONE                                                      W1",
        number: 6,
        at: 3,
    },
    Replaced {
        index: 0,
        line: b"HDRPB000000123PUBLISHER A                                  01.102024023012000020240501",
        number: 3,
        at: 1,
    },
];

/// The file of one work with such a line has its fault.
fn expect_replaced(alloc: Global, replaced: &Replaced) -> Result<(), Fail> {
    let mut lines = ONE_WORK;
    let place = lines.get_mut(replaced.index).ok_or("a line")?;
    *place = replaced.line;
    let text = text_of(alloc, &lines, b"\r\n")?;
    expect_refusal_at(
        alloc,
        replaced.index,
        &text,
        fault(replaced.number, replaced.at),
    )
}

#[test]
fn answers_the_fault_of_a_line(rt: HostRuntime) -> Result<(), Fail> {
    for replaced in &REPLACED {
        expect_replaced(rt.alloc(), replaced)?;
    }
    Ok(())
}

#[test]
fn answers_the_first_fault(rt: HostRuntime) -> Result<(), Fail> {
    let alloc = rt.alloc();
    expect_lines(alloc, "no line", &[], fault(1, 1))?;
    let without_end = [HDR, GRH, NWR, SWR, GRT];
    expect_lines(alloc, "no TRL", &without_end, fault(11, 6))?;
    let without_group = [HDR, NWR, SWR, GRT, TRL];
    expect_lines(alloc, "no GRH", &without_group, fault(4, 2))?;
    let detail_first = [HDR, GRH, SWR, NWR, GRT, TRL];
    expect_lines(
        alloc,
        "a detail before its header",
        &detail_first,
        fault(4, 3),
    )
}

/// The second transaction of a group has the number of the first.
#[test]
fn answers_a_number_twice(rt: HostRuntime) -> Result<(), Fail> {
    let lines = [
        HDR,
        GRH,
        NWR,
        SWR,
        b"NWR0000000000000000SONG ONE                                                      W2",
        b"GRT000010000000900000009",
        TRL,
    ];
    expect_lines(rt.alloc(), "a number twice", &lines, fault(8, 5))
}

#[test]
fn answers_a_byte_order_mark(rt: HostRuntime) -> Result<(), Fail> {
    let alloc = rt.alloc();
    let mut text = b"\xEF\xBB\xBF".to_vec(alloc)?;
    text.extend_from_slice(&text_of(alloc, &ONE_WORK, b"\r\n")?)?;
    expect_refusal(alloc, "a byte order mark", &text, fault(1, 1))
}

#[test]
fn refusals_have_texts(rt: HostRuntime) -> Result<(), Fail> {
    let fault = FileRefusal::Fault { number: 9, line: 5 };
    let told = format!(in rt.alloc(); "{fault}")?;
    same_text("a fault", &told, "refused F9 at line 5")?;
    let memory = FileRefusal::from(Memory);
    let told = format!(in rt.alloc(); "{memory}")?;
    same_text("no memory", &told, "memory")
}
