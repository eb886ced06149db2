//! The acknowledgements of files.

use crate::fields::{eight, prefix, push_fields, push_trailers};
use std::alloc::Global;
use std::test::Fail;

/// A fault as an acknowledgement has it: record sequence, record type, number, text.
pub type FaultMessage<'a> = (u32, &'a str, u32, &'a str);

/// A decision as an acknowledgement has it: transaction sequence, the kind and the title, the submitter's number of the
/// work, the registry's, the status, and the faults.
#[derive(Clone, Copy)]
pub struct Answer<'a> {
    pub sequence: u32,
    pub kind: &'a str,
    pub title: &'a str,
    pub number: &'a str,
    pub work: &'a str,
    pub status: &'a str,
    pub faults: &'a [FaultMessage<'a>],
}

/// The decision on a work `SONG ONE`. `sequence` is the transaction sequence, from 0, and `kind` is NWR or REV.
/// `number` is the submitter's number of the work, and `work` the registry's. `status` is the decision, and `faults`
/// has the faults.
pub fn decision<'a>(
    sequence: u32,
    kind: &'a str,
    number: &'a str,
    work: &'a str,
    status: &'a str,
    faults: &'a [FaultMessage<'a>],
) -> Answer<'a> {
    Answer {
        sequence,
        kind,
        title: "SONG ONE",
        number,
        work,
        status,
        faults,
    }
}

/// The acknowledgement file with these decisions.
pub fn acknowledgement(alloc: Global, answers: &[Answer]) -> Result<Vec<u8>, Fail> {
    let mut text = String::new(alloc);
    push_head(&mut text)?;
    let mut messages: usize = 0;
    for (index, answer) in answers.iter().enumerate() {
        push_decision(&mut text, alloc, index, answer)?;
        push_faults(&mut text, alloc, index, answer.faults)?;
        messages = messages.saturating_add(answer.faults.len());
    }
    let records = answers.len().saturating_add(messages);
    push_trailers(&mut text, alloc, answers.len(), records, 13)?;
    Ok(text.into_bytes())
}

/// The acknowledgement of one new work, W1, which is work 1 of the registry, with this status.
pub fn one_answer(alloc: Global, status: &str) -> Result<Vec<u8>, Fail> {
    acknowledgement(alloc, &[decision(0, "NWR", "W1", "00000001", status, &[])])
}

/// The headers of the file and of its group.
fn push_head(text: &mut String) -> Result<(), Fail> {
    push_fields(
        text,
        &[
            ("HDRSO000000000", 14),
            ("CWR REGISTRY", 45),
            ("01.102024060109000020240601", 42),
            ("2.2001CWR REGISTRY", 36),
            ("1.0", 30),
            ("\r\n", 2),
            ("GRHACK0000102.200000000000", 28),
            ("\r\n", 2),
        ],
    )
}

/// The ACK line of a transaction.
fn push_decision(
    text: &mut String,
    alloc: Global,
    index: usize,
    answer: &Answer,
) -> Result<(), Fail> {
    text.push_str(&prefix(alloc, "ACK", index, 0)?)?;
    text.push_str("2024050112000000001")?;
    text.push_str(&eight(alloc, answer.sequence as usize)?)?;
    let Answer {
        kind,
        title,
        number,
        work,
        status,
        ..
    } = *answer;
    push_fields(
        text,
        &[
            (kind, 3),
            (title, 60),
            (number, 20),
            (work, 20),
            ("20240601", 8),
            (status, 2),
            ("\r\n", 2),
        ],
    )
}

/// The MSG lines of a transaction.
fn push_faults(
    text: &mut String,
    alloc: Global,
    index: usize,
    faults: &[FaultMessage],
) -> Result<(), Fail> {
    let mut record: usize = 0;
    for fault in faults {
        record = record.saturating_add(1);
        push_fault(text, alloc, index, record, fault)?;
    }
    Ok(())
}

/// Appends a MSG line. `text` is the acknowledgement so far, and `alloc` allocates. `index` is the transaction's
/// sequence, and `record` that of the line itself, both from 0. `fault` is what it reports.
fn push_fault(
    text: &mut String,
    alloc: Global,
    index: usize,
    record: usize,
    fault: &FaultMessage,
) -> Result<(), Fail> {
    let (sequence, kind, number, why) = *fault;
    let front = prefix(alloc, "MSG", index, record)?;
    let sequence = eight(alloc, sequence as usize)?;
    let number = format!(in alloc; "T{number:03}")?;
    push_fields(text, &[(&front, 19), ("T", 1), (&sequence, 8)])?;
    text.push_str(kind)?;
    text.push_str(&number)?;
    push_fields(text, &[(why, 150), ("\r\n", 2)])
}
