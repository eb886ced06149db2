//! Lines of submission files, and the required outcomes of the files that they make.

use cwr_file::{FileRefusal, Submission, parse_file};
use std::alloc::{AllocError, Global};
use std::test::Fail;
use test_comparisons::same;

pub(crate) const HDR: &[u8] =
    b"HDRPB000000123PUBLISHER A                                  01.102024050112000020240501";

pub(crate) const GRH: &[u8] = b"GRHNWR0000102.200000000001";

pub(crate) const NWR: &[u8] =
    b"NWR0000000000000000SONG ONE                                                      W1";

pub(crate) const SWR: &[u8] =
    b"SWR0000000000000001000000001DOE                                                                         CA                       10000   10000   10000";

pub(crate) const GRT: &[u8] = b"GRT000010000000100000004";

pub(crate) const TRL: &[u8] = b"TRL000010000000100000006";

/// A file of one group with one transaction of two records.
pub(crate) const ONE_WORK: [&[u8]; 6] = [HDR, GRH, NWR, SWR, GRT, TRL];

/// A transaction with carried records and one of each kind of detail that has no shares.
pub(crate) const NINE_RECORDS: [&[u8]; 13] = [
    HDR,
    GRH,
    NWR,
    SWR,
    b"NWN0000000000000002",
    b"SWT0000000000000003000000001050000500005000I2136",
    b"ALT0000000000000004OTHER NAME",
    b"PER0000000000000005X",
    b"REC0000000000000006",
    b"ORN0000000000000007LIB",
    b"XRF0000000000000008",
    b"GRT000010000000100000011",
    b"TRL000010000000100000013",
];

/// The lines, each with this end.
pub(crate) fn text_of(alloc: Global, lines: &[&[u8]], end: &[u8]) -> Result<Vec<u8>, AllocError> {
    let mut text = Vec::new(alloc);
    for line in lines {
        text.extend_from_slice(line)?;
        text.extend_from_slice(end)?;
    }
    Ok(text)
}

pub(crate) fn fault(number: u8, line: u64) -> Option<FileRefusal> {
    Some(FileRefusal::Fault { number, line })
}

/// Why the file of these bytes, which `what` names, must not be taken, or `None` if it must be.
pub(crate) fn expect_refusal(
    alloc: Global,
    what: &str,
    text: &[u8],
    wanted: Option<FileRefusal>,
) -> Result<(), Fail> {
    same(what, &parse_file(alloc, text).err(), &wanted)
}

/// The same for one of many files, which this place tells apart.
pub(crate) fn expect_refusal_at(
    alloc: Global,
    place: usize,
    text: &[u8],
    wanted: Option<FileRefusal>,
) -> Result<(), Fail> {
    let refusal = parse_file(alloc, text).err();
    same(
        "a place, and the refusal",
        &(place, refusal),
        &(place, wanted),
    )
}

/// The same for lines that each end with CR LF.
pub(crate) fn expect_lines(
    alloc: Global,
    what: &str,
    lines: &[&[u8]],
    wanted: Option<FileRefusal>,
) -> Result<(), Fail> {
    expect_refusal(alloc, what, &text_of(alloc, lines, b"\r\n")?, wanted)
}

/// The number of groups, records and transactions of a file.
pub(crate) fn expect_counts(
    file: &Submission,
    groups: u32,
    records: u32,
    transactions: usize,
) -> Result<(), Fail> {
    let counts = (file.groups, file.records, file.transactions.len());
    same("counts", &counts, &(groups, records, transactions))
}
