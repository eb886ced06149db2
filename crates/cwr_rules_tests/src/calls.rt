//! What a call contains, and what it can be made of.

use crate::judging::judged;
use crate::records::{HALF_WRITER, OWNER, link};
use cwr_rules::{Call, Fault, Faults, WorkKind};
use std::test::Fail;
use test_comparisons::same;

/// The parts of a call, with the ISWC, and with the control of a publisher and a writer.
#[test]
fn parts_of_a_call(rt: HostRuntime) -> Result<(), Fail> {
    let lines = [
        "REV0000000000000000SONG ONE                                                      W1            T0345246801",
        OWNER,
        HALF_WRITER,
        link!("PWR0000000000000003000000002"),
    ];
    let call = judged(rt.alloc(), &lines, WorkKind::Rev)?;
    expect_parts(&call)
}

/// The parts of that call.
fn expect_parts(call: &Call) -> Result<(), Fail> {
    same(
        "the submitter and the kind",
        &(call.submitter(), call.kind()),
        &(*b"PB000000123", WorkKind::Rev),
    )?;
    same(
        "title",
        &call.title(),
        b"SONG ONE                                                    ",
    )?;
    same(
        "the number and the work code",
        &(call.number(), call.iswc()),
        &(*b"W1            ", Some(34524680)),
    )?;
    same(
        "the control, and how many faults",
        &(call.control(), call.faults().len()),
        &([10000, 10000, 10000], 0),
    )
}

/// A fault of the transaction itself has the type of the header.
#[test]
fn faults_of_a_revision(rt: HostRuntime) -> Result<(), Fail> {
    let call = judged(rt.alloc(), &["REV0000000000000000"], WorkKind::Rev)?;
    same(
        "the work code, and how many faults",
        &(call.iswc(), call.faults().len()),
        &(None, 3),
    )?;
    for fault in call.faults() {
        same("whose fault", &(fault.sequence, fault.rtype), &(0, *b"REV"))?;
    }
    Ok(())
}

/// Whether there is a call of a number, an ISWC, controls and faults.
fn is_call(number: [u8; 14], iswc: Option<u64>, control: [u64; 3], faults: Vec<Fault>) -> bool {
    let faults = Faults::new(faults);
    Call::of(
        *b"PB000000123",
        WorkKind::Nwr,
        [b' '; 60],
        number,
        iswc,
        control,
        faults,
    )
    .is_some()
}

fn fault(sequence: u32, number: u8, rtype: [u8; 3]) -> Fault {
    Fault {
        sequence,
        number,
        rtype,
    }
}

#[test]
fn calls_of_parts(rt: HostRuntime) -> Result<(), Fail> {
    let number = *b"W1            ";
    for (number, iswc, control, is_right) in [
        (number, None, [10006, 0, 10006], true),
        (number, None, [10006, 0, 10007], false),
        (number, Some(999999999), [0, 0, 0], true),
        (number, Some(1000000000), [0, 0, 0], false),
        (*b"W1           \x1f", None, [0, 0, 0], false),
    ] {
        let faults = Vec::new(rt.alloc());
        same(
            "is call",
            &is_call(number, iswc, control, faults),
            &is_right,
        )?;
    }
    Ok(())
}

#[test]
fn calls_with_faults(rt: HostRuntime) -> Result<(), Fail> {
    let number = *b"W1            ";
    for (control, is_right) in [(10007, true), (999999990000, true), (999999990001, false)] {
        let faults = [fault(1, 6, *b"SWR")].to_vec(rt.alloc())?;
        same(
            "is call",
            &is_call(number, None, [0, control, 0], faults),
            &is_right,
        )?;
    }
    for (first, second, is_right) in [
        (fault(0, 2, *b"NWR"), fault(0, 3, *b"NWR"), true),
        (fault(0, 15, *b"NWR"), fault(99999999, 1, *b"SWR"), true),
        (fault(0, 2, *b"NWR"), fault(0, 2, *b"NWR"), false),
        (fault(2, 1, *b"SWR"), fault(1, 6, *b"SWR"), false),
        (fault(0, 2, *b"NWR"), fault(100000000, 1, *b"SWR"), false),
        (fault(0, 0, *b"NWR"), fault(0, 1, *b"NWR"), false),
        (fault(0, 15, *b"NWR"), fault(0, 16, *b"NWR"), false),
        (fault(0, 2, *b"NWR"), fault(1, 6, *b"SwR"), false),
    ] {
        let faults = [first, second].to_vec(rt.alloc())?;
        same(
            "is call",
            &is_call(number, None, [0, 0, 0], faults),
            &is_right,
        )?;
    }
    Ok(())
}

#[test]
fn texts_of_calls(rt: HostRuntime) -> Result<(), Fail> {
    for (submitter, first, is_right) in [
        (*b"PB000000123", b' ', true),
        (*b"PB00000012\n", b' ', false),
        (*b"PB000000123", 31, false),
    ] {
        let mut title = [b' '; 60];
        title[0] = first;
        let faults = Faults::new(Vec::new(rt.alloc()));
        let call = Call::of(
            submitter,
            WorkKind::Nwr,
            title,
            [b' '; 14],
            None,
            [0, 0, 0],
            faults,
        );
        same("whether that is a call", &call.is_some(), &is_right)?;
    }
    Ok(())
}
