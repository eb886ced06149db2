//! Headers and trailers, written and read.

use crate::lines::{clock, day, expect_record, line, text};
use cwr_record::{
    FileTrailer, GroupHead, GroupTrailer, Header, read_file_trailer, read_group_head,
    read_group_trailer, read_header, write_file_trailer, write_group_head, write_group_trailer,
    write_header,
};
use std::test::Fail;

#[test]
fn file_header(rt: HostRuntime) -> Result<(), Fail> {
    let header = Header {
        sender: *b"PB000000123",
        name: text(b"PUBLISHER A"),
        creation_date: day(b"20240501")?,
        creation_time: clock(b"120000")?,
        transmission_date: day(b"20240501")?,
        character_set: text(b""),
    };
    let vector = line(
        rt.alloc(),
        &[
            (b"HDRPB000000123PUBLISHER A", 34),
            (b"01.102024050112000020240501", 15),
            (b"2.2001CWR REGISTRY", 18),
            (b"1.0", 27),
        ],
    )?;
    let mut out = Vec::new(rt.alloc());
    write_header(&mut out, &header)?;
    expect_record(
        &out,
        &vector,
        "the header that is read",
        &read_header(&vector),
        &Ok(header),
    )
}

#[test]
fn group_header(rt: HostRuntime) -> Result<(), Fail> {
    let vector = line(rt.alloc(), &[(b"GRHNWR0000102.200000000001", 2)])?;
    let head = GroupHead {
        transaction_type: *b"NWR",
        group: 1,
        version: *b"02.20",
        batch_request: *b"0000000001",
        submission_type: *b"  ",
    };
    let mut out = Vec::new(rt.alloc());
    write_group_head(&mut out, &head)?;
    expect_record(
        &out,
        &vector,
        "the group head that is read",
        &read_group_head(&vector),
        &Ok(head),
    )
}

#[test]
fn group_end(rt: HostRuntime) -> Result<(), Fail> {
    let vector = line(rt.alloc(), &[(b"GRT000010000000100000004", 13)])?;
    let trailer = GroupTrailer {
        group: 1,
        transactions: 1,
        records: 4,
    };
    let mut out = Vec::new(rt.alloc());
    write_group_trailer(&mut out, &trailer)?;
    expect_record(
        &out,
        &vector,
        "the group trailer that is read",
        &read_group_trailer(&vector),
        &Ok(trailer),
    )
}

#[test]
fn file_end(rt: HostRuntime) -> Result<(), Fail> {
    let vector = b"TRL000010000000100000006";
    let trailer = FileTrailer {
        groups: 1,
        transactions: 1,
        records: 6,
    };
    let mut out = Vec::new(rt.alloc());
    write_file_trailer(&mut out, &trailer)?;
    expect_record(
        &out,
        vector,
        "the file trailer that is read",
        &read_file_trailer(vector),
        &Ok(trailer),
    )
}
