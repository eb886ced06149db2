//! Submission files.

use crate::fields::{prefix, push_fields, push_trailers};
use cwr_field::{cut, date, time};
use cwr_record::Stamp;
use std::alloc::Global;
use std::test::Fail;

/// The sender of most files.
pub const SENDER: &str = "000000123";

/// Another one.
pub const OTHER_SENDER: &str = "000000456";

/// All of a right.
pub const ALL: [&str; 3] = ["10000"; 3];

/// The stamp of all acknowledgements.
pub fn stamp() -> Result<Stamp, Fail> {
    let day = date(cut(b"20240601", 1, 8)).ok_or("a day")?;
    let clock = time(cut(b"090000", 1, 6)).ok_or("a time")?;
    Ok(Stamp::new(0, b"CWR REGISTRY", day, clock).ok_or("a stamp")?)
}

/// The line of a file's header, of this sender and this date.
pub fn header<'a>(alloc: Global, sender: &'a str, date: &'a str) -> Result<String, Fail> {
    let mut text = String::new(alloc);
    push_fields(
        &mut text,
        &[
            ("HDRPB", 5),
            (sender, 9),
            ("PUBLISHER A", 45),
            ("01.10", 5),
            (date, 8),
            ("12000020240501\r\n", 16),
        ],
    )?;
    Ok(text)
}

/// A transaction's header. `alloc` allocates, `kind` is NWR or REV, and `sequence` the transaction sequence, from 0.
/// `number` is the submitter's number of the work, and `iswc` what follows it, the ISWC first.
pub fn work<'a>(
    alloc: Global,
    kind: &str,
    sequence: u32,
    number: &'a str,
    iswc: &'a str,
) -> Result<String, Fail> {
    let mut text = prefix(alloc, kind, sequence as usize, 0)?;
    push_fields(&mut text, &[("SONG ONE", 62), (number, 14), (iswc, 0)])?;
    Ok(text)
}

/// A writer's record. `alloc` allocates, and `kind` is SWR or OWR. `transaction` and `record` are the sequences, from
/// 0, and `shares` those of the three rights.
pub fn writer(
    alloc: Global,
    kind: &str,
    transaction: u32,
    record: u32,
    shares: [&str; 3],
) -> Result<String, Fail> {
    let [performing, mechanical, synchronization] = shares;
    let mut text = prefix(alloc, kind, transaction as usize, record as usize)?;
    push_fields(
        &mut text,
        &[
            ("000000001", 9),
            ("DOE", 76),
            ("CA", 25),
            (performing, 8),
            (mechanical, 8),
            (synchronization, 5),
        ],
    )?;
    Ok(text)
}

/// Puts lines behind a text, each with CR LF.
fn push_lines(text: &mut String, lines: &[&str]) -> Result<(), Fail> {
    for line in lines {
        text.push_str(line)?;
        text.push_str("\r\n")?;
    }
    Ok(())
}

/// A file of one group. `alloc` allocates, `sender` is that of HDR, and `kind` the group's transaction type.
/// `transactions` is the number of transactions, and `lines` has their lines, which come between the header and trailer
/// lines.
pub fn file(
    alloc: Global,
    sender: &str,
    kind: &str,
    transactions: u32,
    lines: &[String],
) -> Result<Vec<u8>, Fail> {
    let mut text = header(alloc, sender, "20240501")?;
    push_fields(
        &mut text,
        &[("GRH", 3), (kind, 3), ("0000102.200000000001\r\n", 22)],
    )?;
    for line in lines {
        push_lines(&mut text, &[line])?;
    }
    push_trailers(&mut text, alloc, transactions as usize, lines.len(), 0)?;
    Ok(text.into_bytes())
}

/// A file with these lines after its HDR, each with CR LF.
pub fn file_of_lines(alloc: Global, lines: &[&str]) -> Result<Vec<u8>, Fail> {
    let mut text = header(alloc, SENDER, "20240501")?;
    push_lines(&mut text, lines)?;
    Ok(text.into_bytes())
}

/// The same text with LF alone at the end of each line.
pub fn with_newlines(alloc: Global, text: &[u8]) -> Result<Vec<u8>, Fail> {
    let mut newlines = Vec::new(alloc);
    for byte in text {
        if *byte != b'\r' {
            newlines.push(*byte)?;
        }
    }
    Ok(newlines)
}

/// A file of one work of two writers, one of them the submitter's. `alloc` allocates, `sender` is that of HDR, and
/// `kind` is NWR or REV. `number` is the submitter's number of the work, and `iswc` the ISWC. `shares` has the share of
/// each right, first of the submitter's writer, then of the other one.
pub fn one_work(
    alloc: Global,
    sender: &str,
    kind: &str,
    number: &str,
    iswc: &str,
    shares: [&str; 2],
) -> Result<Vec<u8>, Fail> {
    let [own, other] = shares;
    file(
        alloc,
        sender,
        kind,
        1,
        &[
            work(alloc, kind, 0, number, iswc)?,
            writer(alloc, "SWR", 0, 1, [own; 3])?,
            writer(alloc, "OWR", 0, 2, [other; 3])?,
        ],
    )
}

/// The files of two submitters who each claim 60 per cent of one work.
pub fn rival_claims(alloc: Global) -> Result<[Vec<u8>; 2], Fail> {
    let iswc = "T0345246801";
    let shares = ["06000", "04000"];
    Ok([
        one_work(alloc, SENDER, "NWR", "W1", iswc, shares)?,
        one_work(alloc, OTHER_SENDER, "NWR", "W1", iswc, shares)?,
    ])
}

/// A file with one work and its writer, who has these shares.
pub fn one_writer(alloc: Global, shares: [&str; 3]) -> Result<Vec<u8>, Fail> {
    let lines = [
        work(alloc, "NWR", 0, "W1", "")?,
        writer(alloc, "SWR", 0, 1, shares)?,
    ];
    file(alloc, SENDER, "NWR", 1, &lines)
}

/// The file of one new work, W1, all of which is its one writer's.
pub fn plain_file(alloc: Global) -> Result<Vec<u8>, Fail> {
    one_writer(alloc, ALL)
}

/// The plain file, with a group trailer that counts two records.
pub fn miscounted(alloc: Global) -> Result<Vec<u8>, Fail> {
    let head = work(alloc, "NWR", 0, "W1", "")?;
    let detail = writer(alloc, "SWR", 0, 1, ALL)?;
    file_of_lines(
        alloc,
        &[
            "GRHNWR0000102.200000000001",
            &head,
            &detail,
            "GRT000010000000100000002",
            "TRL000010000000100000006",
        ],
    )
}

/// Puts a new work of one writer behind other lines.
fn push_work(
    lines: &mut Vec<String>,
    alloc: Global,
    sequence: u32,
    number: &str,
) -> Result<(), Fail> {
    lines.push(work(alloc, "NWR", sequence, number, "")?)?;
    lines.push(writer(alloc, "SWR", sequence, 1, ALL)?)?;
    Ok(())
}

/// The file of a new work, W1, that is in it twice.
pub fn work_twice(alloc: Global, sender: &str) -> Result<Vec<u8>, Fail> {
    let mut lines = Vec::new(alloc);
    push_work(&mut lines, alloc, 0, "W1")?;
    push_work(&mut lines, alloc, 1, "W1")?;
    file(alloc, sender, "NWR", 2, &lines)
}

/// The file of three new works, W1 to W3.
pub fn three_works(alloc: Global) -> Result<Vec<u8>, Fail> {
    let mut lines = Vec::new(alloc);
    push_work(&mut lines, alloc, 0, "W1")?;
    push_work(&mut lines, alloc, 1, "W2")?;
    push_work(&mut lines, alloc, 2, "W3")?;
    file(alloc, SENDER, "NWR", 3, &lines)
}
