//! Calls of two submitters, and the book that they are handed in to.

use std::alloc::Global;
use std::test::Fail;
use test_comparisons::same;
use work_registry::{Book, Call, Entry, Fault, Faults, Reply, WorkKind};

/// The submitters of the sample files.
pub(crate) const ONE: [u8; 11] = *b"PB000000123";

pub(crate) const OTHER: [u8; 11] = *b"PB000000456";

pub(crate) const W1: [u8; 14] = *b"W1            ";

pub(crate) const TITLE: [u8; 60] = *b"SONG ONE                                                    ";

/// The nine digits of ISWC T0345246801.
pub(crate) const ISWC: Option<u64> = Some(34524680);

/// A call for a submitter's number of a work, with the same control of each right. `alloc` allocates, `submitter` has
/// sender type and sender id, and `kind` is NWR or REV. `number` is the submitter's number of the work, and `iswc` the
/// nine digits of its ISWC, if it has one. `control` is in hundredths of one per cent.
pub(crate) fn call(
    alloc: Global,
    submitter: [u8; 11],
    kind: WorkKind,
    number: [u8; 14],
    iswc: Option<u64>,
    control: u64,
) -> Result<Call, Fail> {
    controlled(alloc, submitter, kind, number, iswc, [control; 3])
}

/// A call with a different control of each right. `alloc` allocates, `submitter` has sender type and sender id, and
/// `kind` is NWR or REV. `number` is the submitter's number of the work, and `iswc` the nine digits of its ISWC, if it
/// has one. `control` has the three rights, in hundredths of one per cent.
pub(crate) fn controlled(
    alloc: Global,
    submitter: [u8; 11],
    kind: WorkKind,
    number: [u8; 14],
    iswc: Option<u64>,
    control: [u64; 3],
) -> Result<Call, Fail> {
    let faults = Faults::new(Vec::new(alloc));
    Ok(Call::of(submitter, kind, TITLE, number, iswc, control, faults).ok_or("no call")?)
}

/// A revision whose ISWC has a wrong check digit.
pub(crate) fn call_with_fault(alloc: Global) -> Result<Call, Fail> {
    let faults = [Fault {
        sequence: 0,
        number: 4,
        rtype: *b"REV",
    }]
    .to_vec(alloc)?;
    let faults = Faults::new(faults);
    Ok(Call::of(ONE, WorkKind::Rev, TITLE, W1, None, [5000; 3], faults).ok_or("no call")?)
}

/// Hands a call in, which must be taken.
pub(crate) fn reply(book: &mut Book, call: Call) -> Result<Reply, Fail> {
    Ok(book.apply(1, call).ok().ok_or("the call was refused")?)
}

/// The reply to a claim that is accepted for a work, in this version.
pub(crate) const fn accepted(work: u32, version: u32) -> Reply {
    Reply::Accepted { work, version }
}

/// Hands a call in, which must get this reply.
pub(crate) fn expect_reply(book: &mut Book, call: Call, wanted: Reply) -> Result<(), Fail> {
    same("a reply", &reply(book, call)?, &wanted)
}

/// What an entry must say: its session, the submitter's number of the work, the faults of the call, and the reply.
#[derive(Drop)]
pub(crate) struct Said<'a> {
    pub(crate) session: u32,
    pub(crate) number: [u8; 14],
    pub(crate) faults: &'a [Fault],
    pub(crate) reply: Reply,
}

pub(crate) fn expect_entry(entry: &Entry, wanted: &Said) -> Result<(), Fail> {
    same("a session", &entry.session(), &wanted.session)?;
    same("a number", &entry.call().number(), &wanted.number)?;
    same("the faults", &entry.call().faults(), &wanted.faults)?;
    same("a reply", &entry.reply(), &wanted.reply)
}
