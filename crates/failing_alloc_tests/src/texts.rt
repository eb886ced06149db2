//! Texts that are put behind what is there: fields, and the lines of all records.

use crate::control_records::{
    put_ack, put_file_header, put_file_trailer, put_group_header, put_group_trailer, put_message,
};
use crate::work_records::{
    put_alternate_title, put_cross_reference, put_publisher, put_publisher_territory,
    put_work_head, put_writer, put_writer_territory, put_writers_publisher,
};
use cwr_field::{Memory, put_digits, put_text};
use failing_alloc::{Ended, FailingAlloc, Sweep, answered, refuse_each, refused};
use std::alloc::{Allocator, Global};
use std::test::Fail;
use test_comparisons::same_bytes;

/// Whether there was memory for a text.
pub(crate) type Put = Result<Result<(), Memory>, Fail>;

/// What is put behind what is there.
#[derive(Clone, Copy)]
enum Text {
    Field,
    Digits,
    FileHeader,
    GroupHeader,
    GroupTrailer,
    FileTrailer,
    Ack,
    Message,
    WorkHead,
    AlternateTitle,
    CrossReference,
    Publisher,
    PublisherTerritory,
    Writer,
    WriterTerritory,
    WritersPublisher,
}

fn put<A: Allocator>(out: &mut Vec<u8, A>, text: Text) -> Put {
    match text {
        Text::Field => Ok(put_text(out, b"AB", 40)),
        Text::Digits => Ok(put_digits(out, 42, 18)),
        Text::FileHeader => put_file_header(out),
        Text::GroupHeader => Ok(put_group_header(out)),
        Text::GroupTrailer => Ok(put_group_trailer(out)),
        Text::FileTrailer => Ok(put_file_trailer(out)),
        Text::Ack => put_ack(out),
        Text::Message => Ok(put_message(out)),
        Text::WorkHead => put_work_head(out),
        Text::AlternateTitle => Ok(put_alternate_title(out)),
        Text::CrossReference => Ok(put_cross_reference(out)),
        Text::Publisher => Ok(put_publisher(out)),
        Text::PublisherTerritory => Ok(put_publisher_territory(out)),
        Text::Writer => Ok(put_writer(out)),
        Text::WriterTerritory => Ok(put_writer_territory(out)),
        Text::WritersPublisher => Ok(put_writers_publisher(out)),
    }
}

/// A text that is put behind two bytes, and what must stand there then.
#[derive(Drop)]
struct Behind<'a> {
    text: Text,
    wanted: &'a [u8],
}

impl Sweep for Behind<'_> {
    fn ends(&self, memory: &FailingAlloc) -> Ended {
        let mut out = Vec::new(memory);
        if out.extend_from_slice(b"12").is_err() {
            return Ok(true);
        }
        match put(&mut out, self.text)? {
            Ok(()) => answered(same_bytes("with the text", &out, self.wanted)),
            Err(Memory) => refused(same_bytes("without the text", &out, b"12")),
        }
    }
}

/// Refuses each request of a text that is put behind two bytes, after which these words must stand there, each in its
/// width.
fn refuse_text(alloc: Global, text: Text, words: &[(&str, usize)]) -> Result<(), Fail> {
    let mut wanted = b"12".to_vec(alloc)?;
    for (word, width) in words {
        wanted.extend_from_slice(word.as_bytes())?;
        for _ in word.len()..*width {
            wanted.push(b' ')?;
        }
    }
    let wanted = wanted.as_slice();
    refuse_each(alloc, &Behind { text, wanted })
}

#[test]
fn fields(rt: HostRuntime) -> Result<(), Fail> {
    let alloc = rt.alloc();
    refuse_text(alloc, Text::Field, &[("AB", 40)])?;
    refuse_text(alloc, Text::Digits, &[("000000000000000042", 18)])
}

#[test]
fn headers(rt: HostRuntime) -> Result<(), Fail> {
    let alloc = rt.alloc();
    refuse_text(
        alloc,
        Text::FileHeader,
        &[
            ("HDRPB000000123PUBLISHER A", 59),
            ("01.102024050112000020240501", 42),
            ("2.2001CWR REGISTRY", 36),
            ("1.0", 30),
        ],
    )?;
    refuse_text(
        alloc,
        Text::GroupHeader,
        &[("GRHNWR0000102.200000000001", 28)],
    )
}

#[test]
fn trailers(rt: HostRuntime) -> Result<(), Fail> {
    let alloc = rt.alloc();
    refuse_text(
        alloc,
        Text::GroupTrailer,
        &[("GRT000010000000100000004", 37)],
    )?;
    refuse_text(
        alloc,
        Text::FileTrailer,
        &[("TRL000010000000100000006", 24)],
    )
}

#[test]
fn decisions(rt: HostRuntime) -> Result<(), Fail> {
    let alloc = rt.alloc();
    refuse_text(
        alloc,
        Text::Ack,
        &[
            ("ACK00000000000000002024050112000000001", 38),
            ("00000000NWRSONG ONE", 71),
            ("W1", 20),
            ("00000001", 20),
            ("20240601AS", 10),
        ],
    )?;
    refuse_text(
        alloc,
        Text::Message,
        &[("MSG0000000000000001T00000001SWRT006SHARE IS NOT VALID", 185)],
    )
}

#[test]
fn works(rt: HostRuntime) -> Result<(), Fail> {
    let alloc = rt.alloc();
    refuse_text(
        alloc,
        Text::WorkHead,
        &[
            ("NWR0000000000000000SONG ONE", 81),
            ("W1", 14),
            ("T034524680120010203", 34),
            ("000330U", 65),
        ],
    )?;
    refuse_text(
        alloc,
        Text::AlternateTitle,
        &[("ALT0000000000000004OTHER NAME", 79), ("AT", 4)],
    )?;
    refuse_text(
        alloc,
        Text::CrossReference,
        &[("XRF0000000000000008052ID12345", 36), ("WY", 2)],
    )
}

#[test]
fn publishers(rt: HostRuntime) -> Result<(), Fail> {
    let alloc = rt.alloc();
    refuse_text(
        alloc,
        Text::Publisher,
        &[
            ("SPU000000000000000101000000002PUBLISHER A", 76),
            ("E", 39),
            ("05000", 8),
            ("10000", 8),
            ("10000", 5),
        ],
    )?;
    refuse_text(
        alloc,
        Text::PublisherTerritory,
        &[
            ("SPT0000000000000002000000002", 34),
            ("050001000010000I2136", 21),
            ("001", 3),
        ],
    )
}

#[test]
fn writers(rt: HostRuntime) -> Result<(), Fail> {
    let alloc = rt.alloc();
    refuse_text(
        alloc,
        Text::Writer,
        &[
            ("SWR0000000000000001000000001DOE", 104),
            ("CA", 25),
            ("10000", 8),
            ("10000", 8),
            ("10000", 5),
        ],
    )?;
    refuse_text(
        alloc,
        Text::WriterTerritory,
        &[
            ("SWT0000000000000003000000001050000500005000I2136", 49),
            ("001", 3),
        ],
    )?;
    refuse_text(
        alloc,
        Text::WritersPublisher,
        &[
            ("PWR0000000000000004000000002PUBLISHER A", 101),
            ("000000001", 9),
        ],
    )
}
