//! Tests of the calls that take a file or a register, in ample memory: texts of more than a thousand bytes, and files
//! that do not fit a register.

use crate::checking::{purvilgo_check, purvilgo_check_json, purvilgo_check_long};
use crate::explaining::purvilgo_explain;
use crate::one_file::purvilgo_acknowledge;
use crate::outcome::purvilgo_outcome_line;
use crate::registers::purvilgo_audit;
use crate::tables::{purvilgo_claims, purvilgo_history, purvilgo_summary, purvilgo_works};
use crate::verifying::purvilgo_verify;
use c_values::status::{DONE, FAULTY, UNVERIFIED};
use c_values::{Misfit, Outcome, RegisterFault, SentBytes, StampBytes};
use std::alloc::Global;
use std::test::Fail;
use test_comparisons::{same, same_bytes, same_lists};
use test_files::{SENDER, many_answers, many_entries, many_works, miscounted};

/// The number of works of a file.
pub(crate) const WORKS: u32 = 200;

/// The number of lines of its acknowledgement: four of headers and trailers, one for each work, and one more for each
/// tenth, which has no title.
const LINES: u64 = 224;

/// The stamp of an acknowledgement.
pub(crate) const STAMP: StampBytes = StampBytes {
    society: 0,
    name: *b"CWR REGISTRY                                 ",
    date: *b"20240601",
    time: *b"090000",
};

/// The numbers of an outcome: the works of the file were acknowledged.
pub(crate) const ACKNOWLEDGED: Outcome = Outcome {
    kind: 0,
    fault: 0,
    line: 0,
    transactions: WORKS,
    cause: 0,
    sent: 0,
};

/// The numbers of an outcome that is none.
pub(crate) const NO_OUTCOME: Outcome = Outcome {
    kind: 7,
    ..ACKNOWLEDGED
};

/// Nothing does not fit.
const FITS: Misfit = Misfit {
    kind: 0,
    fault: 0,
    file: 0,
    line: 0,
    group: 0,
    transaction: 0,
};

/// A register without a fault.
pub(crate) const FAULTLESS: RegisterFault = RegisterFault { number: 0, line: 0 };

/// The file of these works.
pub(crate) fn works(alloc: Global) -> Result<Vec<u8>, Fail> {
    many_works(alloc, SENDER, WORKS)
}

/// The register after it.
pub(crate) fn register(alloc: Global) -> Result<Vec<u8>, Fail> {
    many_entries(alloc, &[SENDER], WORKS)
}

/// A room for a text.
pub(crate) fn room(alloc: Global) -> Result<Vec<u8>, Fail> {
    let mut room = Vec::new(alloc);
    room.resize(100_000, b'.')?;
    Ok(room)
}

/// The text at the front of a room must be this.
pub(crate) fn expect_text(room: &[u8], length: usize, wanted: &[u8]) -> Result<(), Fail> {
    same_bytes("the text", room.get(..length).unwrap_or(&[]), wanted)
}

/// Each form of the check of a file is given, and the file is not clean.
fn expect_checks(alloc: Global, file: &[u8], room: &mut [u8]) -> Result<(), Fail> {
    let mut length = 0;
    let (mut short, mut long, mut json) = (true, true, true);
    let told = [
        purvilgo_check(alloc, file, room, &mut length, &mut short),
        purvilgo_check_long(alloc, file, room, &mut length, &mut long),
        purvilgo_check_json(alloc, file, room, &mut length, &mut json),
    ];
    same_lists("the statuses", &told, &[DONE; 3])?;
    same_lists("whether it is clean", &[short, long, json], &[false; 3])
}

#[test]
fn checks_a_file(rt: HostRuntime) -> Result<(), Fail> {
    let alloc = rt.alloc();
    expect_checks(alloc, &works(alloc)?, &mut room(alloc)?)
}

/// A file is acknowledged, and its outcome has a line.
fn expect_acknowledged(
    alloc: Global,
    file: &[u8],
    room: &mut [u8],
    answer: &[u8],
) -> Result<(), Fail> {
    let mut length = 0;
    let mut outcome = NO_OUTCOME;
    let status = purvilgo_acknowledge(alloc, file, &STAMP, room, &mut length, &mut outcome);
    same("the status", &status, &DONE)?;
    expect_text(room, length, answer)?;
    let status = purvilgo_outcome_line(alloc, b"a.v22", &outcome, room, &mut length);
    same("the status of the line", &status, &DONE)?;
    expect_text(room, length, b"a.v22: acknowledged 200\n")
}

#[test]
fn acknowledges_a_file(rt: HostRuntime) -> Result<(), Fail> {
    let alloc = rt.alloc();
    let answer = many_answers(alloc, WORKS, 0)?;
    expect_acknowledged(alloc, &works(alloc)?, &mut room(alloc)?, &answer)
}

/// Each table of a register is given, and its entries are counted. All pages are given.
fn expect_tables(alloc: Global, register: &[u8], room: &mut [u8]) -> Result<(), Fail> {
    let mut length = 0;
    let mut fault = FAULTLESS;
    let mut entries = 0;
    let told = [
        purvilgo_claims(alloc, register, room, &mut length, &mut fault),
        purvilgo_works(alloc, register, room, &mut length, &mut fault),
        purvilgo_history(alloc, register, room, &mut length, &mut fault),
        purvilgo_summary(alloc, register, room, &mut length, &mut fault),
        purvilgo_audit(alloc, register, &mut entries, &mut fault),
        purvilgo_explain(alloc, b"", room, &mut length),
    ];
    same_lists("the statuses", &told, &[DONE; 6])?;
    same("how many entries", &entries, &u64::from(WORKS))
}

#[test]
fn tells_of_a_register(rt: HostRuntime) -> Result<(), Fail> {
    let alloc = rt.alloc();
    expect_tables(alloc, &register(alloc)?, &mut room(alloc)?)
}

/// Files are not verified, for a reason with these numbers.
fn expect_misfit(
    alloc: Global,
    register: &[u8],
    files: &[SentBytes],
    wanted: &Misfit,
) -> Result<(), Fail> {
    let (mut transactions, mut fault, mut misfit) = (0, FAULTLESS, FITS);
    let status = purvilgo_verify(
        alloc,
        register,
        files,
        &mut transactions,
        &mut fault,
        &mut misfit,
    );
    same("the status", &status, &UNVERIFIED)?;
    if misfit != *wanted {
        return Err(Fail::from("another misfit"));
    }
    Ok(())
}

/// Verifying files at a text ends with this status, and tells so many transactions.
fn expect_verified(
    alloc: Global,
    register: &[u8],
    files: &[SentBytes],
    status: u32,
    count: u64,
) -> Result<(), Fail> {
    let (mut transactions, mut fault, mut misfit) = (0, FAULTLESS, FITS);
    let told = purvilgo_verify(
        alloc,
        register,
        files,
        &mut transactions,
        &mut fault,
        &mut misfit,
    );
    same("the status", &told, &status)?;
    same("the transactions", &transactions, &count)
}

/// What is told of a file with its acknowledgement, of the two once more, of a file that is refused, and of an
/// acknowledgement that is cut in its last line.
fn expect_each(
    alloc: Global,
    register: &[u8],
    file: &[u8],
    refused: &[u8],
    answer: &[u8],
) -> Result<(), Fail> {
    let cut = answer.get(..answer.len().saturating_sub(3)).unwrap_or(&[]);
    let pair = |file, acknowledgement| SentBytes {
        file,
        acknowledgement,
    };
    let whole = [pair(file, answer)];
    expect_verified(alloc, register, &whole, DONE, u64::from(WORKS))?;
    expect_verified(alloc, b"", &whole, FAULTY, 0)?;
    let twice = [pair(file, answer), pair(file, answer)];
    let missing = Misfit {
        kind: 3,
        file: 1,
        group: 1,
        ..FITS
    };
    expect_misfit(alloc, register, &twice, &missing)?;
    let wrong = Misfit {
        kind: 2,
        fault: 9,
        line: 5,
        ..FITS
    };
    expect_misfit(alloc, register, &[pair(refused, answer)], &wrong)?;
    let other = Misfit {
        kind: 4,
        line: LINES,
        ..FITS
    };
    expect_misfit(alloc, register, &[pair(file, cut)], &other)
}

#[test]
fn verifies_files(rt: HostRuntime) -> Result<(), Fail> {
    let alloc = rt.alloc();
    let (file, refused) = (works(alloc)?, miscounted(alloc)?);
    let answer = many_answers(alloc, WORKS, 0)?;
    expect_each(alloc, &register(alloc)?, &file, &refused, &answer)
}
