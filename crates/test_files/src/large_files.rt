//! Files of real size, made by rules, and their required outcomes.
//!
//! The works of [`many_works`] come in pairs of one number. The first of a pair is new and the second its duplicate.
//! But of each ten works the fifth has no title, so that it is rejected and the one behind it is new. So each pair
//! makes one work of the registry.

use crate::answers::FaultMessage;
use crate::files::header;
use std::alloc::{AllocError, Global};
use std::test::Fail;

const TITLE: &[u8] = b"SONG ONE                                                    ";

/// A blank for each byte of a title.
const BLANKS: &[u8] = b"                                                            ";

const TWELVE_BLANKS: &[u8] = b"            ";

/// What a work without a title is rejected for, as its acknowledgement has it behind the sequence of its message.
const UNTITLED: &[u8] = b"T00000000NWRT002TITLE IS BLANK";

/// A number in eight digits.
fn eight(number: u32) -> [u8; 8] {
    let mut digits = [b'0'; 8];
    let mut left = number;
    for digit in digits.iter_mut().rev() {
        *digit = b'0' + (left % 10) as u8;
        left /= 10;
    }
    digits
}

/// Puts these parts behind a text.
fn push_parts(text: &mut Vec<u8>, parts: &[&[u8]]) -> Result<(), AllocError> {
    for part in parts {
        text.extend_from_slice(part)?;
    }
    Ok(())
}

/// Whether the work at a place of its file has no title.
fn is_untitled(place: u32) -> bool {
    place % 10 == 4
}

fn title_of(place: u32) -> &'static [u8] {
    if is_untitled(place) { BLANKS } else { TITLE }
}

/// The status of the work at a place of its file.
fn status_of(place: u32) -> &'static [u8] {
    if is_untitled(place) {
        b"RJ"
    } else if place % 2 == 0 || place % 10 == 5 {
        b"AS"
    } else {
        b"DU"
    }
}

/// The submitter's number of the work at a place of its file: `W` and seven digits.
fn number_of(place: u32) -> [u8; 8] {
    let mut number = eight(place / 2);
    number[0] = b'W';
    number
}

/// The registry's number of the work at a place of its file. `before` is the number of works that it had before that
/// file.
fn work_of(place: u32, before: u32) -> [u8; 8] {
    eight(before.saturating_add(place / 2).saturating_add(1))
}

/// Puts the records of the work at a place behind a text, each with LF: its header, and a writer who has all of the
/// performing right.
fn push_work(text: &mut Vec<u8>, place: u32) -> Result<(), AllocError> {
    let sequence = eight(place);
    push_parts(
        text,
        &[
            b"NWR",
            &sequence,
            b"00000000",
            title_of(place),
            b"  ",
            &number_of(place),
            b"\nSWR",
            &sequence,
            b"00000001000000001",
            BLANKS,
            b"                                         10000\n",
        ],
    )
}

/// The headers of a file of this sender and of its one group.
fn head(alloc: Global, sender: &str) -> Result<Vec<u8>, Fail> {
    let mut text = header(alloc, sender, "20240501")?.into_bytes();
    text.extend_from_slice(b"GRHNWR00001\n")?;
    Ok(text)
}

/// Puts the trailers of a file of one group behind it, with these counts of transactions and records.
fn push_trailers(text: &mut Vec<u8>, transactions: u32, records: u32) -> Result<(), AllocError> {
    let count = eight(transactions);
    let group = eight(records.saturating_add(2));
    let all = eight(records.saturating_add(4));
    push_parts(
        text,
        &[
            b"GRT00001",
            &count,
            &group,
            b"\nTRL00001",
            &count,
            &all,
            b"\n",
        ],
    )
}

/// A file of `count` works, of 225 bytes each.
pub fn many_works(alloc: Global, sender: &str, count: u32) -> Result<Vec<u8>, Fail> {
    let mut text = head(alloc, sender)?;
    for place in 0..count {
        push_work(&mut text, place)?;
    }
    push_trailers(&mut text, count, count.saturating_mul(2))?;
    Ok(text)
}

/// Puts the decision on the work at a place behind an acknowledgement, and the message of a rejection, if it is one.
fn push_answer(text: &mut Vec<u8>, place: u32, before: u32) -> Result<(), AllocError> {
    let sequence = eight(place);
    let work = work_of(place, before);
    let told: &[u8] = if is_untitled(place) {
        b"        "
    } else {
        &work
    };
    push_parts(
        text,
        &[
            b"ACK",
            &sequence,
            b"000000002024050112000000001",
            &sequence,
            b"NWR",
            title_of(place),
            &number_of(place),
            TWELVE_BLANKS,
            told,
            TWELVE_BLANKS,
            b"20240601",
            status_of(place),
            b"\r\n",
        ],
    )?;
    if is_untitled(place) {
        push_parts(text, &[b"MSG", &sequence, b"00000001", UNTITLED])?;
        push_parts(text, &[BLANKS, BLANKS, b"                \r\n"])?;
    }
    Ok(())
}

/// The number of works without a title among the first `count` of a file.
fn untitled_of(count: u32) -> u32 {
    count.saturating_add(5) / 10
}

/// Puts the headers of an acknowledgement at its start.
fn push_answer_head(text: &mut Vec<u8>) -> Result<(), AllocError> {
    push_parts(
        text,
        &[
            b"HDRSO000000000CWR REGISTRY                                 01.102024060109000020240601",
            b"               2.2001CWR REGISTRY                  1.0                           \r\n",
            b"GRHACK0000102.200000000000  \r\n",
        ],
    )
}

/// The acknowledgement of a file of `count` works, by a registry that had `before` works before it.
pub fn many_answers(alloc: Global, count: u32, before: u32) -> Result<Vec<u8>, Fail> {
    let mut text = Vec::new(alloc);
    push_answer_head(&mut text)?;
    for place in 0..count {
        push_answer(&mut text, place, before)?;
    }
    let told = count.saturating_add(untitled_of(count));
    let number = eight(count);
    let group = eight(told.saturating_add(2));
    let all = eight(told.saturating_add(4));
    push_parts(
        &mut text,
        &[b"GRT00001", &number, &group, TWELVE_BLANKS, b" \r\n"],
    )?;
    push_parts(&mut text, &[b"TRL00001", &number, &all, b"\r\n"])?;
    Ok(text)
}

/// What a check prints of the work at a place, behind its sequence.
fn checked_of(place: u32) -> &'static [u8] {
    if is_untitled(place) {
        b" NWR rejected 0:J2\n"
    } else {
        b" NWR ok\n"
    }
}

/// What a check prints of a file of `count` works.
pub fn many_checked(alloc: Global, count: u32) -> Result<Vec<u8>, Fail> {
    let mut text = Vec::new(alloc);
    for place in 0..count {
        push_parts(&mut text, &[b"00001 ", &eight(place), checked_of(place)])?;
    }
    let faulty = untitled_of(count);
    let end = format!(in alloc; "{count} transactions, {faulty} with faults\n")?;
    text.extend_from_slice(end.as_bytes())?;
    Ok(text)
}

/// Puts the reply to the work at a place behind a register: the status, the work, the version and the faults.
fn push_reply(text: &mut Vec<u8>, place: u32, before: u32) -> Result<(), AllocError> {
    if is_untitled(place) {
        return text.extend_from_slice(b"RJ00000000000000000000000010000000002NWR\n");
    }
    let status = status_of(place);
    let version: &[u8] = if status == b"AS".as_slice() {
        b"00000001"
    } else {
        b"00000000"
    };
    push_parts(
        text,
        &[status, &work_of(place, before), version, b"000000000\n"],
    )
}

/// Puts the entry of a work behind a register. `text` is the register so far, and `index` the entry's index in it, from
/// 1. `sender` is that of the file, and `place` the work's place in the file, from 0. `before` is the number of works
/// that the registry had before the file.
fn push_entry(
    text: &mut Vec<u8>,
    index: u32,
    sender: &str,
    place: u32,
    before: u32,
) -> Result<(), AllocError> {
    push_parts(text, &[b"ENT", &eight(index), b"PB"])?;
    text.extend_from_slice(sender.as_bytes())?;
    let number = number_of(place);
    push_parts(text, &[b"NWR", title_of(place), &number, TWELVE_BLANKS])?;
    text.extend_from_slice(b"     000000010000000000000000000000000000")?;
    push_reply(text, place, before)
}

/// The register after files of these senders in this order. Each file has `count` works, an even number.
pub fn many_entries(alloc: Global, senders: &[&str], count: u32) -> Result<Vec<u8>, Fail> {
    let entries = count.saturating_mul(u32::try_from(senders.len())?);
    let mut text = Vec::new(alloc);
    push_parts(&mut text, &[b"REG", &eight(entries), b"\n"])?;
    let mut index: u32 = 0;
    let mut before: u32 = 0;
    for sender in senders {
        for place in 0..count {
            index = index.saturating_add(1);
            push_entry(&mut text, index, sender, place, before)?;
        }
        before = before.saturating_add(count / 2);
    }
    Ok(text)
}

/// A file of 99,999 groups without transactions, and these lines behind them, each with LF.
pub fn many_groups(alloc: Global, last: &[&str]) -> Result<Vec<u8>, Fail> {
    let mut text = header(alloc, "000000123", "20240501")?.into_bytes();
    for group in 1..100_000u32 {
        let digits = eight(group);
        let number = &digits[3..];
        push_parts(
            &mut text,
            &[b"GRHNWR", number, b"\nGRT", number, b"0000000000000002\n"],
        )?;
    }
    for line in last {
        push_parts(&mut text, &[line.as_bytes(), b"\n"])?;
    }
    Ok(text)
}

/// The fault of a record of a crowded transaction: of three records in turn, the first has no party, the second a share
/// that is not valid, and the third no fault.
fn crowded_fault(record: u32) -> Option<FaultMessage<'static>> {
    match record % 3 {
        0 => Some((record, "SWR", 7, "INTERESTED PARTY NUMBER IS BLANK")),
        1 => Some((record, "OWR", 6, "SHARE IS NOT VALID")),
        _ => None,
    }
}

/// The faults of a transaction of `records` records, its header included.
pub fn crowded_faults(alloc: Global, records: u32) -> Result<Vec<FaultMessage<'static>>, Fail> {
    let mut faults = Vec::new(alloc);
    for record in 1..records {
        if let Some(fault) = crowded_fault(record) {
            faults.push(fault)?;
        }
    }
    Ok(faults)
}

/// Puts a writer of a crowded transaction behind a text.
fn push_writer(text: &mut Vec<u8>, record: u32) -> Result<(), AllocError> {
    let sequence = eight(record);
    match record % 3 {
        0 => push_parts(text, &[b"SWR00000000", &sequence, b"\n"]),
        1 => push_parts(
            text,
            &[
                b"OWR00000000",
                &sequence,
                BLANKS,
                b"                                                  10001\n",
            ],
        ),
        _ => push_parts(text, &[b"SWR00000000", &sequence, b"000000001\n"]),
    }
}

/// A file of one transaction, W1, of `records` records, its header included: two thirds of them have a fault.
pub fn crowded_work(alloc: Global, sender: &str, records: u32) -> Result<Vec<u8>, Fail> {
    let mut text = head(alloc, sender)?;
    push_parts(&mut text, &[b"NWR0000000000000000", TITLE, b"  W1\n"])?;
    for record in 1..records {
        push_writer(&mut text, record)?;
    }
    push_trailers(&mut text, 1, records)?;
    Ok(text)
}
