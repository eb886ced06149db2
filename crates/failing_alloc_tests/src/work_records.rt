//! The records of a transaction, each written once.

use crate::control_records::{clock, day, text};
use crate::texts::Put;
use cwr_field::Memory;
use cwr_record::{
    AltTitle, CrossRef, Link, Prefix, Publisher, PublisherKind, PublisherTerritory, WorkHead,
    WorkKind, Writer, WriterKind, WriterTerritory, write_alt_title, write_cross_ref, write_link,
    write_publisher, write_publisher_territory, write_work_head, write_writer,
    write_writer_territory,
};
use std::alloc::Allocator;

pub(crate) fn put_work_head<A: Allocator>(out: &mut Vec<u8, A>) -> Put {
    let head = WorkHead {
        prefix: Prefix {
            transaction: 0,
            detail: 0,
        },
        kind: WorkKind::Nwr,
        title: text(b"SONG ONE"),
        language: text(b""),
        submitter_number: text(b"W1"),
        iswc: Some(34524680),
        copyright_date: Some(day(b"20010203")?),
        copyright_number: text(b""),
        distribution_category: text(b""),
        duration: Some(clock(b"000330")?),
        recorded_indicator: *b"U",
        text_music_relationship: text(b""),
        composite_type: text(b""),
        version_type: text(b""),
        excerpt_type: text(b""),
        arrangement: text(b""),
        lyric_adaptation: text(b""),
        contact_name: text(b""),
        contact_id: text(b""),
    };
    Ok(write_work_head(out, &head))
}

pub(crate) fn put_alternate_title<A: Allocator>(out: &mut Vec<u8, A>) -> Result<(), Memory> {
    let alternate = AltTitle {
        prefix: Prefix {
            transaction: 0,
            detail: 4,
        },
        title: text(b"OTHER NAME"),
        title_type: *b"AT",
        language: *b"  ",
    };
    write_alt_title(out, &alternate)
}

pub(crate) fn put_cross_reference<A: Allocator>(out: &mut Vec<u8, A>) -> Result<(), Memory> {
    let reference = CrossRef {
        prefix: Prefix {
            transaction: 0,
            detail: 8,
        },
        organisation: *b"052",
        identifier: text(b"ID12345"),
        identifier_type: *b"W",
        validity: *b"Y",
    };
    write_cross_ref(out, &reference)
}

pub(crate) fn put_publisher<A: Allocator>(out: &mut Vec<u8, A>) -> Result<(), Memory> {
    let publisher = Publisher {
        prefix: Prefix {
            transaction: 0,
            detail: 1,
        },
        kind: PublisherKind::Spu,
        sequence: *b"01",
        party: *b"000000002",
        name: text(b"PUBLISHER A"),
        unknown_indicator: text(b""),
        publisher_type: *b"E ",
        tax_id: text(b""),
        ipi_name_number: text(b""),
        submitter_agreement: text(b""),
        performing_society: text(b""),
        performing_ownership: 5000,
        mechanical_society: text(b""),
        mechanical_ownership: 10000,
        synchronization_society: text(b""),
        synchronization_ownership: 10000,
    };
    write_publisher(out, &publisher)
}

pub(crate) fn put_publisher_territory<A: Allocator>(out: &mut Vec<u8, A>) -> Result<(), Memory> {
    let territory = PublisherTerritory {
        prefix: Prefix {
            transaction: 0,
            detail: 2,
        },
        party: *b"000000002",
        performing_collection: 5000,
        mechanical_collection: 10000,
        synchronization_collection: 10000,
        indicator: *b"I",
        territory: *b"2136",
        shares_change: *b" ",
        sequence: *b"001",
    };
    write_publisher_territory(out, &territory)
}

pub(crate) fn put_writer<A: Allocator>(out: &mut Vec<u8, A>) -> Result<(), Memory> {
    let writer = Writer {
        prefix: Prefix {
            transaction: 0,
            detail: 1,
        },
        kind: WriterKind::Swr,
        party: *b"000000001",
        last_name: text(b"DOE"),
        first_name: text(b""),
        unknown_indicator: text(b""),
        designation: *b"CA",
        tax_id: text(b""),
        ipi_name_number: text(b""),
        performing_society: text(b""),
        performing_ownership: 10000,
        mechanical_society: text(b""),
        mechanical_ownership: 10000,
        synchronization_society: text(b""),
        synchronization_ownership: 10000,
    };
    write_writer(out, &writer)
}

pub(crate) fn put_writer_territory<A: Allocator>(out: &mut Vec<u8, A>) -> Result<(), Memory> {
    let territory = WriterTerritory {
        prefix: Prefix {
            transaction: 0,
            detail: 3,
        },
        party: *b"000000001",
        performing_collection: 5000,
        mechanical_collection: 5000,
        synchronization_collection: 5000,
        indicator: *b"I",
        territory: *b"2136",
        shares_change: *b" ",
        sequence: *b"001",
    };
    write_writer_territory(out, &territory)
}

pub(crate) fn put_writers_publisher<A: Allocator>(out: &mut Vec<u8, A>) -> Result<(), Memory> {
    let link = Link {
        prefix: Prefix {
            transaction: 0,
            detail: 4,
        },
        publisher_party: *b"000000002",
        publisher_name: text(b"PUBLISHER A"),
        submitter_agreement: text(b""),
        society_agreement: text(b""),
        writer_party: *b"000000001",
    };
    write_link(out, &link)
}
