//! Submission files that are made work by work, and files of groups without a transaction.

use crate::digits::{eight, five, nine, put};
use crate::form::{CRLF, Form, LineEnd};
use cwr_field::Memory;
use std::alloc::Global;

/// The bytes of a file's header before and behind the digits of its submitter.
const HEADER_FRONT: &[u8] = b"HDRPB";

const HEADER_BACK: &[u8] =
    b"MUSIC HOUSE                                  01.102024050112000020240501";

/// The greatest number of groups of a file, whose IDs have five digits.
const MAX_GROUPS: u32 = 99_999;

/// What is filled in of a work.
#[derive(Clone, Copy)]
pub(crate) struct Work {
    pub(crate) title: [u8; 60],
    pub(crate) number: [u8; 14],
    pub(crate) iswc: [u8; 11],
}

/// A file of one group that is being made.
#[derive(Drop)]
pub(crate) struct Sheet {
    text: Vec<u8>,
    line_end: LineEnd,
    transactions: u32,
    /// The records from the group's header on.
    records: u32,
}

impl Sheet {
    /// The headers of a file of this submitter, and of its one group of this transaction type.
    pub(crate) fn begin(
        alloc: Global,
        submitter: u32,
        kind: &[u8],
        line_end: LineEnd,
    ) -> Result<Sheet, Memory> {
        let mut text = Vec::new(alloc);
        push_header(&mut text, submitter, line_end)?;
        push_parts(&mut text, &[b"GRH", kind, b"0000102.200000000001"])?;
        text.extend_from_slice(line_end)?;
        Ok(Sheet {
            text,
            line_end,
            transactions: 0,
            records: 1,
        })
    }

    /// Appends a work, and returns the position, from 0, where its header begins.
    pub(crate) fn push(&mut self, form: &Form, work: &Work) -> Result<usize, Memory> {
        let start = self.text.len();
        self.text.extend_from_slice(form.text())?;
        let sequence = eight(self.transactions);
        let text = self.text.as_mut_slice();
        for at in form.starts() {
            put(text, start.saturating_add(*at).saturating_add(3), &sequence);
        }
        fill(text, start, work);
        self.transactions = self.transactions.saturating_add(1);
        self.records = self.records.saturating_add(form.records());
        Ok(start)
    }

    /// The file, with its trailers.
    pub(crate) fn end(self) -> Result<Vec<u8>, Memory> {
        let Sheet {
            mut text,
            line_end,
            transactions,
            records,
        } = self;
        let count = eight(transactions);
        let group = eight(records.saturating_add(1));
        let all = eight(records.saturating_add(3));
        push_parts(&mut text, &[b"GRT00001", &count, &group])?;
        text.extend_from_slice(line_end)?;
        push_parts(&mut text, &[b"TRL00001", &count, &all])?;
        text.extend_from_slice(line_end)?;
        Ok(text)
    }
}

/// A file of `groups` groups without a transaction, of new works and of revisions in turn; or of as many as a file may
/// have, if these are fewer.
pub(crate) fn empty_groups(alloc: Global, groups: u32) -> Result<Vec<u8>, Memory> {
    let groups = groups.min(MAX_GROUPS);
    let mut text = Vec::new(alloc);
    push_header(&mut text, 9, CRLF)?;
    for group in 0..groups {
        push_empty_group(&mut text, group)?;
    }
    let records = eight(groups.saturating_mul(2).saturating_add(2));
    push_parts(
        &mut text,
        &[b"TRL", &five(groups), b"00000000", &records, CRLF],
    )?;
    Ok(text)
}

/// Puts a group without a transaction behind those before it, so many in number.
fn push_empty_group(text: &mut Vec<u8>, before: u32) -> Result<(), Memory> {
    let kind = if before % 2 == 0 { *b"NWR" } else { *b"REV" };
    let group = five(before.saturating_add(1));
    push_parts(text, &[b"GRH", &kind, &group, b"02.200000000001", CRLF])?;
    push_parts(text, &[b"GRT", &group, b"0000000000000002", CRLF])
}

/// Puts the header of a file of this submitter behind a text.
fn push_header(text: &mut Vec<u8>, submitter: u32, line_end: LineEnd) -> Result<(), Memory> {
    push_parts(
        text,
        &[HEADER_FRONT, &nine(submitter), HEADER_BACK, line_end],
    )
}

/// Puts these parts behind a text.
fn push_parts(text: &mut Vec<u8>, parts: &[&[u8]]) -> Result<(), Memory> {
    for part in parts {
        text.extend_from_slice(part)?;
    }
    Ok(())
}

/// Fills in a work whose header begins at `start`.
pub(crate) fn fill(text: &mut [u8], start: usize, work: &Work) {
    put(text, start.saturating_add(19), &work.title);
    put(text, start.saturating_add(81), &work.number);
    put(text, start.saturating_add(95), &work.iswc);
}
