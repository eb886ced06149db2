//! The records of a work, written and read.

use crate::lines::{clock, day, expect_record, line, text};
use cwr_record::{
    AltTitle, CrossRef, Link, Prefix, Publisher, PublisherKind, PublisherTerritory, WorkHead,
    WorkKind, Writer, WriterKind, WriterTerritory, read_alt_title, read_cross_ref, read_link,
    read_publisher, read_publisher_territory, read_work_head, read_writer, read_writer_territory,
    write_alt_title, write_cross_ref, write_link, write_publisher, write_publisher_territory,
    write_work_head, write_writer, write_writer_territory,
};
use std::test::Fail;

#[test]
fn registration_head(rt: HostRuntime) -> Result<(), Fail> {
    let head = WorkHead {
        prefix: Prefix {
            transaction: 0,
            detail: 0,
        },
        kind: WorkKind::Nwr,
        title: text(b"SONG ONE"),
        language: text(b""),
        submitter_number: text(b"W1"),
        iswc: Some(34524680),
        copyright_date: Some(day(b"20010203")?),
        copyright_number: text(b""),
        distribution_category: text(b""),
        duration: Some(clock(b"000330")?),
        recorded_indicator: *b"U",
        text_music_relationship: text(b""),
        composite_type: text(b""),
        version_type: text(b""),
        excerpt_type: text(b""),
        arrangement: text(b""),
        lyric_adaptation: text(b""),
        contact_name: text(b""),
        contact_id: text(b""),
    };
    let vector = line(
        rt.alloc(),
        &[
            (b"NWR0000000000000000SONG ONE", 54),
            (b"W1", 12),
            (b"T034524680120010203", 15),
            (b"000330U", 58),
        ],
    )?;
    let mut out = Vec::new(rt.alloc());
    write_work_head(&mut out, &head)?;
    expect_record(
        &out,
        &vector,
        "the work head that is read",
        &read_work_head(&vector),
        &Ok(head),
    )
}

#[test]
fn publisher(rt: HostRuntime) -> Result<(), Fail> {
    let vector = line(
        rt.alloc(),
        &[
            (b"SPU000000000000000101000000002PUBLISHER A", 35),
            (b"E", 38),
            (b"05000", 3),
            (b"10000", 3),
            (b"10000", 0),
        ],
    )?;
    let publisher = Publisher {
        prefix: Prefix {
            transaction: 0,
            detail: 1,
        },
        kind: PublisherKind::Spu,
        sequence: *b"01",
        party: *b"000000002",
        name: text(b"PUBLISHER A"),
        unknown_indicator: text(b""),
        publisher_type: *b"E ",
        tax_id: text(b""),
        ipi_name_number: text(b""),
        submitter_agreement: text(b""),
        performing_society: text(b""),
        performing_ownership: 5000,
        mechanical_society: text(b""),
        mechanical_ownership: 10000,
        synchronization_society: text(b""),
        synchronization_ownership: 10000,
    };
    let mut out = Vec::new(rt.alloc());
    write_publisher(&mut out, &publisher)?;
    expect_record(
        &out,
        &vector,
        "the publisher that is read",
        &read_publisher(&vector),
        &Ok(publisher),
    )
}

#[test]
fn publisher_territory(rt: HostRuntime) -> Result<(), Fail> {
    let vector = b"SPT0000000000000002000000002      050001000010000I2136 001";
    let territory = PublisherTerritory {
        prefix: Prefix {
            transaction: 0,
            detail: 2,
        },
        party: *b"000000002",
        performing_collection: 5000,
        mechanical_collection: 10000,
        synchronization_collection: 10000,
        indicator: *b"I",
        territory: *b"2136",
        shares_change: *b" ",
        sequence: *b"001",
    };
    let mut out = Vec::new(rt.alloc());
    write_publisher_territory(&mut out, &territory)?;
    expect_record(
        &out,
        vector,
        "the publisher territory that is read",
        &read_publisher_territory(vector),
        &Ok(territory),
    )
}

#[test]
fn writer(rt: HostRuntime) -> Result<(), Fail> {
    let vector = line(
        rt.alloc(),
        &[
            (b"SWR0000000000000001000000001DOE", 73),
            (b"CA", 23),
            (b"10000", 3),
            (b"10000", 3),
            (b"10000", 0),
        ],
    )?;
    let writer = Writer {
        prefix: Prefix {
            transaction: 0,
            detail: 1,
        },
        kind: WriterKind::Swr,
        party: *b"000000001",
        last_name: text(b"DOE"),
        first_name: text(b""),
        unknown_indicator: text(b""),
        designation: *b"CA",
        tax_id: text(b""),
        ipi_name_number: text(b""),
        performing_society: text(b""),
        performing_ownership: 10000,
        mechanical_society: text(b""),
        mechanical_ownership: 10000,
        synchronization_society: text(b""),
        synchronization_ownership: 10000,
    };
    let mut out = Vec::new(rt.alloc());
    write_writer(&mut out, &writer)?;
    expect_record(
        &out,
        &vector,
        "the writer that is read",
        &read_writer(&vector),
        &Ok(writer),
    )
}

#[test]
fn writer_territory(rt: HostRuntime) -> Result<(), Fail> {
    let vector = b"SWT0000000000000003000000001050000500005000I2136 001";
    let territory = WriterTerritory {
        prefix: Prefix {
            transaction: 0,
            detail: 3,
        },
        party: *b"000000001",
        performing_collection: 5000,
        mechanical_collection: 5000,
        synchronization_collection: 5000,
        indicator: *b"I",
        territory: *b"2136",
        shares_change: *b" ",
        sequence: *b"001",
    };
    let mut out = Vec::new(rt.alloc());
    write_writer_territory(&mut out, &territory)?;
    expect_record(
        &out,
        vector,
        "the writer territory that is read",
        &read_writer_territory(vector),
        &Ok(territory),
    )
}

#[test]
fn writers_publisher(rt: HostRuntime) -> Result<(), Fail> {
    let vector = line(
        rt.alloc(),
        &[
            (b"PWR0000000000000004000000002PUBLISHER A", 62),
            (b"000000001", 0),
        ],
    )?;
    let link = Link {
        prefix: Prefix {
            transaction: 0,
            detail: 4,
        },
        publisher_party: *b"000000002",
        publisher_name: text(b"PUBLISHER A"),
        submitter_agreement: text(b""),
        society_agreement: text(b""),
        writer_party: *b"000000001",
    };
    let mut out = Vec::new(rt.alloc());
    write_link(&mut out, &link)?;
    expect_record(
        &out,
        &vector,
        "the link that is read",
        &read_link(&vector),
        &Ok(link),
    )
}

#[test]
fn alternate_title(rt: HostRuntime) -> Result<(), Fail> {
    let vector = line(
        rt.alloc(),
        &[(b"ALT0000000000000004OTHER NAME", 50), (b"AT", 2)],
    )?;
    let alternate = AltTitle {
        prefix: Prefix {
            transaction: 0,
            detail: 4,
        },
        title: text(b"OTHER NAME"),
        title_type: *b"AT",
        language: *b"  ",
    };
    let mut out = Vec::new(rt.alloc());
    write_alt_title(&mut out, &alternate)?;
    expect_record(
        &out,
        &vector,
        "the alt title that is read",
        &read_alt_title(&vector),
        &Ok(alternate),
    )
}

#[test]
fn cross_reference(rt: HostRuntime) -> Result<(), Fail> {
    let vector = b"XRF0000000000000008052ID12345       WY";
    let reference = CrossRef {
        prefix: Prefix {
            transaction: 0,
            detail: 8,
        },
        organisation: *b"052",
        identifier: text(b"ID12345"),
        identifier_type: *b"W",
        validity: *b"Y",
    };
    let mut out = Vec::new(rt.alloc());
    write_cross_ref(&mut out, &reference)?;
    expect_record(
        &out,
        vector,
        "the cross ref that is read",
        &read_cross_ref(vector),
        &Ok(reference),
    )
}
