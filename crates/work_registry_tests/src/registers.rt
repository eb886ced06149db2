//! The register of one entry, and the faults of texts.

use crate::books::{ONE, TITLE, W1, call};
use std::alloc::Global;
use std::test::Fail;
use test_comparisons::same;
use work_registry::{Call, Fault, Faults, RegisterRefusal, WorkKind, audit};

/// The register of one entry: a work that the submitter calls W1 is registered.
pub(crate) const ONE_ENTRY: &str = concat!(
    "REG00000001\nENT00000001PB000000123NWR",
    "SONG ONE                                                    ",
    "W1                       ",
    "000000010000000000010000000000010000AS0000000100000001000000000\n"
);

/// The call of that entry, or one with another number of the work.
pub(crate) fn whole_call(alloc: Global, number: [u8; 14]) -> Result<Call, Fail> {
    call(alloc, ONE, WorkKind::Nwr, number, None, 10000)
}

/// The call of a transaction whose writer has no share of the performing right: 10001 is none.
pub(crate) fn faulty_call(alloc: Global) -> Result<Call, Fail> {
    let faults = [Fault {
        sequence: 1,
        number: 6,
        rtype: *b"SWR",
    }]
    .to_vec(alloc)?;
    Ok(Call::of(
        ONE,
        WorkKind::Nwr,
        TITLE,
        W1,
        None,
        [0, 10000, 10000],
        Faults::new(faults),
    )
    .ok_or("no call")?)
}

/// The number and the line of the fault of a text, or `None` if it is a register.
pub(crate) fn fault_of(alloc: Global, text: &[u8]) -> Result<Option<(u8, u64)>, Fail> {
    match audit(alloc, text) {
        Ok(_entries) => Ok(None),
        Err(RegisterRefusal::Fault { number, line }) => Ok(Some((number, line))),
        Err(RegisterRefusal::Memory) => Err("no memory")?,
    }
}

/// A text, which `what` names, must have this fault, or be a register if there is none.
pub(crate) fn expect_fault(
    alloc: Global,
    what: &str,
    text: &[u8],
    wanted: Option<(u8, u64)>,
) -> Result<(), Fail> {
    same(what, &fault_of(alloc, text)?, &wanted)
}

/// The same for a text that was changed at this place.
pub(crate) fn expect_fault_at(
    alloc: Global,
    place: usize,
    text: &[u8],
    wanted: Option<(u8, u64)>,
) -> Result<(), Fail> {
    let found = fault_of(alloc, text)?;
    same(
        "a place, and the fault of the text",
        &(place, found),
        &(place, wanted),
    )
}
