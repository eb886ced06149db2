//! Lines that cannot be read, and the fault that each has.

use crate::lines::{day, line};
use cwr_field::Day;
use cwr_record::{
    FieldFault, PublisherKind, WorkHead, WorkKind, WriterKind, read_group_trailer, read_header,
    read_publisher, read_work_head, read_writer,
};
use std::alloc::{AllocError, Global};
use std::test::Fail;
use test_comparisons::same;

/// The NWR line with this work code and what follows it.
fn registration<'a>(alloc: Global, code: &'a [u8], rest: &'a [u8]) -> Result<Vec<u8>, AllocError> {
    line(
        alloc,
        &[
            (b"NWR0000000000000000SONG ONE", 54),
            (b"W1", 12),
            (code, 0),
            (rest, 0),
        ],
    )
}

/// What the NWR line with this date and what follows it stands for, its work code blank.
fn dated(alloc: Global, rest: &[u8]) -> Result<Result<WorkHead, FieldFault>, AllocError> {
    Ok(read_work_head(&registration(alloc, b"           ", rest)?))
}

/// A fault of the field that starts at this byte.
fn fault(start: usize, number: u8) -> FieldFault {
    FieldFault { start, number }
}

#[test]
fn fault_of_a_work_code(rt: HostRuntime) -> Result<(), Fail> {
    let wrong = registration(
        rt.alloc(),
        b"T0345246802",
        b"20010203               000330U",
    )?;
    same(
        "the work head that is read",
        &read_work_head(&wrong),
        &Err(fault(96, 5)),
    )
}

#[test]
fn optional_fields(rt: HostRuntime) -> Result<(), Fail> {
    let blank = read_work_head(&registration(rt.alloc(), b"", b"")?)
        .ok()
        .ok_or("a fault")?;
    same(
        "blank fields",
        &(blank.iswc, blank.copyright_date, blank.duration),
        &(None, None, None),
    )?;
    let cases: [(&[u8], Result<Option<Day>, FieldFault>); 4] = [
        (b"00000000", Ok(None)),
        (b"20240229", Ok(Some(day(b"20240229")?))),
        (b"20230229", Err(fault(107, 3))),
        (b"20240229               240000", Err(fault(130, 4))),
    ];
    for (rest, wanted) in cases {
        let found = dated(rt.alloc(), rest)?.map(|head| head.copyright_date);
        same("the date of copyright", &found, &wanted)?;
    }
    Ok(())
}

#[test]
fn faults_of_the_type() -> Result<(), Fail> {
    same(
        "the writer that is read",
        &read_writer(b"ALT0000000000000004OTHER NAME"),
        &Err(fault(1, 6)),
    )?;
    same(
        "the header that is read",
        &read_header(b""),
        &Err(fault(1, 6)),
    )?;
    same(
        "the work head that is read",
        &read_work_head(b"ACK0000000000000000"),
        &Err(fault(1, 6)),
    )
}

#[test]
fn least_fault_of_a_trailer() -> Result<(), Fail> {
    let later = read_group_trailer(b"GRT000010000000100x00004");
    same("a fault of a later field", &later, &Err(fault(17, 1)))?;
    let both = read_group_trailer(b"GRT00x010000000100x00004");
    same("the first of two faults", &both, &Err(fault(4, 1)))
}

#[test]
fn least_fault_of_a_header(rt: HostRuntime) -> Result<(), Fail> {
    let header = line(
        rt.alloc(),
        &[
            (b"HDRPB000000123PUBLISHER A", 34),
            (b"01.102024023024000020240501", 15),
        ],
    )?;
    same(
        "the header that is read",
        &read_header(&header),
        &Err(fault(65, 3)),
    )
}

#[test]
fn least_fault_of_shares(rt: HostRuntime) -> Result<(), Fail> {
    let share = line(
        rt.alloc(),
        &[
            (b"SWR0000000000000001000000001DOE", 73),
            (b"CA", 23),
            (b"10000", 3),
            (b"10001", 3),
            (b"1000x", 0),
        ],
    )?;
    same(
        "the writer that is read",
        &read_writer(&share),
        &Err(fault(138, 2)),
    )
}

#[test]
fn other_kinds() -> Result<(), Fail> {
    let revised = read_work_head(b"REV0000000000000000SONG ONE")
        .ok()
        .ok_or("a fault")?;
    same("the kind", &revised.kind, &WorkKind::Rev)?;
    let publisher = read_publisher(b"OPU0000000000000001")
        .ok()
        .ok_or("a fault")?;
    same("the kind", &publisher.kind, &PublisherKind::Opu)?;
    let writer = read_writer(b"OWR0000000000000002").ok().ok_or("a fault")?;
    same("the kind", &writer.kind, &WriterKind::Owr)
}
