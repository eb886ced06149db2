//! Files that a registry runs.

use c_values::{Outcome, Registry};
use cwr_engine::MAX_ENTRIES;
use std::alloc::Global;
use std::test::Fail;
use test_comparisons::{same, same_bytes};
use test_files::{miscounted, one_answer, rival_claims, stamp};
use work_registry::{Book, read_register};

/// The register of the first of the rival claims.
const FIRST: &[u8] = b"REG00000001\n\
ENT00000001PB000000123NWRSONG ONE                                                    W1            T0345246801000000006000000000006000000000006000AS0000000100000001000000000\n";

/// The register of both.
const BOTH: &[u8] = b"REG00000002\n\
ENT00000001PB000000123NWRSONG ONE                                                    W1            T0345246801000000006000000000006000000000006000AS0000000100000001000000000\n\
ENT00000002PB000000456NWRSONG ONE                                                    W1            T0345246801000000006000000000006000000000006000CO0000000100000000000000000\n";

/// The numbers of an outcome that has none but its kind.
const NONE: Outcome = Outcome {
    kind: 0,
    fault: 0,
    line: 0,
    transactions: 0,
    cause: 0,
    sent: 0,
};

/// One transaction was acknowledged.
const ACKNOWLEDGED: Outcome = Outcome {
    transactions: 1,
    ..NONE
};

/// Fault F9 is at line 5.
const REFUSED: Outcome = Outcome {
    kind: 1,
    fault: 9,
    line: 5,
    ..NONE
};

/// Nothing was decided of a file that is too long.
const STOPPED: Outcome = Outcome {
    kind: 2,
    cause: 4,
    ..NONE
};

/// A file that is run must have this outcome and this acknowledgement.
fn expect_run(
    alloc: Global,
    registry: &mut Registry,
    file: &[u8],
    outcome: &Outcome,
    answer: &[u8],
) -> Result<(), Fail> {
    if registry.run(alloc, file, &stamp()?) != *outcome {
        return Err(Fail::from("another outcome"));
    }
    same_bytes("the acknowledgement", registry.acknowledgement(), answer)
}

/// The register must be this text, of so many entries.
fn expect_register(
    alloc: Global,
    registry: &Registry,
    entries: u64,
    wanted: &[u8],
) -> Result<(), Fail> {
    same("the entries", &registry.entries(), &entries)?;
    same_bytes("the register", &registry.register(alloc)?, wanted)
}

/// The first claim is accepted, and a file that is refused and one that is too long leave nothing.
fn expect_first(alloc: Global, registry: &mut Registry) -> Result<(), Fail> {
    let [first, _] = rival_claims(alloc)?;
    expect_run(
        alloc,
        registry,
        &first,
        &ACKNOWLEDGED,
        &one_answer(alloc, "AS")?,
    )?;
    let mut refused = miscounted(alloc)?;
    expect_run(alloc, registry, &refused, &REFUSED, b"")?;
    refused.resize(16_777_217, b' ')?;
    expect_run(alloc, registry, &refused, &STOPPED, b"")?;
    expect_register(alloc, registry, 1, FIRST)
}

#[test]
fn runs_files_into_an_empty_registry(rt: HostRuntime) -> Result<(), Fail> {
    let alloc = rt.alloc();
    let mut registry = Registry::of(alloc, Book::new(alloc, MAX_ENTRIES));
    expect_first(alloc, &mut registry)
}

/// The second claim is a conflict with the first.
fn expect_second(alloc: Global, registry: &mut Registry) -> Result<(), Fail> {
    let [_, second] = rival_claims(alloc)?;
    expect_run(
        alloc,
        registry,
        &second,
        &ACKNOWLEDGED,
        &one_answer(alloc, "CO")?,
    )?;
    expect_register(alloc, registry, 2, BOTH)
}

#[test]
fn runs_a_file_against_a_register_that_is_read_again(rt: HostRuntime) -> Result<(), Fail> {
    let alloc = rt.alloc();
    let Ok(book) = read_register(alloc, FIRST, MAX_ENTRIES) else {
        return Err(Fail::from("no register"));
    };
    let mut registry = Registry::of(alloc, book);
    expect_second(alloc, &mut registry)
}
