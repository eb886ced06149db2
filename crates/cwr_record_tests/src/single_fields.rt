//! One field of a line, whatever its other fields hold.

use crate::lines::line;
use cwr_record::{
    Column, GroupHead, RecordType, collection_of, field_at, indicator_of, is_no_day, ownership_of,
    party_of, publisher_of, territory_of,
};
use std::test::Fail;
use test_comparisons::same;

#[test]
fn columns() -> Result<(), Fail> {
    let head = b"GRHNWR0000102.200000000001";
    same(
        "the group",
        &field_at(head, GroupHead::GROUP).bytes::<5>(),
        b"00001",
    )?;
    same(
        "the version",
        &field_at(head, GroupHead::VERSION).bytes::<5>(),
        b"02.20",
    )?;
    same(
        "the submission type",
        &field_at(head, GroupHead::SUBMISSION_TYPE).bytes::<2>(),
        b"  ",
    )
}

#[test]
fn no_days() -> Result<(), Fail> {
    let column = Column { start: 2, width: 8 };
    same(
        "whether that is no day",
        &is_no_day(&field_at(b"D00000000", column)),
        &true,
    )?;
    same(
        "whether that is no day",
        &is_no_day(&field_at(b"D", column)),
        &true,
    )?;
    same(
        "whether that is no day",
        &is_no_day(&field_at(b"D20240601", column)),
        &false,
    )
}

#[test]
fn parties() -> Result<(), Fail> {
    let cases: [(&[u8], RecordType, Option<[u8; 9]>); 5] = [
        (
            b"SPU000000000000000101000000002PUBLISHER A",
            RecordType::Spu,
            Some(*b"000000002"),
        ),
        (
            b"SPT0000000000000002000000002      050001000010000I2136 001",
            RecordType::Spt,
            Some(*b"000000002"),
        ),
        (
            b"SWR0000000000000001000000001DOE",
            RecordType::Swr,
            Some(*b"000000001"),
        ),
        (b"SWR0000000000000001         DOE", RecordType::Swr, None),
        (b"OPU0000000000000001", RecordType::Opu, None),
    ];
    for (line, record_type, wanted) in cases {
        same("the party", &party_of(line, record_type), &wanted)?;
    }
    let link = b"PWR0000000000000004000000002PUBLISHER A";
    same("the publisher", &publisher_of(link), &Some(*b"000000002"))?;
    same(
        "the publisher",
        &publisher_of(b"PWR0000000000000004"),
        &None,
    )
}

#[test]
fn ownership(rt: HostRuntime) -> Result<(), Fail> {
    let publisher = line(
        rt.alloc(),
        &[
            (b"SPU000000000000000101000000002PUBLISHER A", 35),
            (b"E", 38),
            (b"05000", 3),
            (b"10000", 3),
            (b"10000", 0),
        ],
    )?;
    same(
        "the ownership",
        &ownership_of(&publisher, RecordType::Spu),
        &[Some(5000), Some(10000), Some(10000)],
    )?;
    let writer = line(
        rt.alloc(),
        &[
            (b"OWR0000000000000002000000001DOE", 73),
            (b"CA", 23),
            (b"10001", 3),
            (b" 5000", 3),
        ],
    )?;
    same(
        "the ownership",
        &ownership_of(&writer, RecordType::Owr),
        &[None, None, Some(0)],
    )
}

#[test]
fn collection() -> Result<(), Fail> {
    let cases: [(&[u8], RecordType, [Option<u16>; 3]); 2] = [
        (
            b"SPT0000000000000002000000002      050001000010000I2136 001",
            RecordType::Spt,
            [Some(5000), Some(10000), Some(10000)],
        ),
        (
            b"SWT0000000000000003000000001050000500005000I2136 001",
            RecordType::Swt,
            [Some(5000), Some(5000), Some(5000)],
        ),
    ];
    for (line, record_type, collection) in cases {
        same(
            "the collection",
            &collection_of(line, record_type),
            &collection,
        )?;
        same("the indicator", &indicator_of(line, record_type), &b'I')?;
        same(
            "the territory",
            &territory_of(line, record_type),
            &Some(2136),
        )?;
    }
    Ok(())
}

#[test]
fn territories() -> Result<(), Fail> {
    let cases: [(&[u8], Option<u16>); 6] = [
        (
            b"SWT0000000000000003000000001050000500005000I840 ",
            Some(840),
        ),
        (
            b"SWT0000000000000003000000001050000500005000I0840",
            Some(840),
        ),
        (b"SWT0000000000000003000000001050000500005000I    ", None),
        (b"SWT0000000000000003000000001050000500005000I", None),
        (b"SWT0000000000000003000000001050000500005000I8 40", None),
        (b"SWT0000000000000003000000001050000500005000I21A6", None),
    ];
    for (line, wanted) in &cases {
        same(
            "the territory",
            &territory_of(line, RecordType::Swt),
            wanted,
        )?;
    }
    Ok(())
}
