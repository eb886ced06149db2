//! Files that are read, judged and checked.

use byte_streams::{Feed, ReadRefused, read_file};
use cwr_call::{Call, Fault, Faults};
use cwr_check::{Checked, check_source, check_text};
use cwr_grammar::{FileRefusal, Submission, parse_file};
use cwr_record::WorkKind;
use cwr_rules::judge;
use failing_alloc::{Ended, FailingAlloc, Sweep, answered, refuse_each};
use std::alloc::Global;
use std::test::Fail;
use test_comparisons::{same, same_bytes, same_lists};
use test_files::{file_of_lines, three_works};

/// The submitter of the files.
const SUBMITTER: [u8; 11] = *b"PB000000123";

/// A file of one work without a title, a number and a writer, whose publisher has no party and a territory of another
/// party, with the indicator X. Two further territories and two other publishers have no faults.
fn faulty_file(alloc: Global) -> Result<Vec<u8>, Fail> {
    file_of_lines(
        alloc,
        &[
            "GRHNWR0000102.200000000001",
            "NWR0000000000000000",
            "SPU0000000000000001",
            "SPT0000000000000002000000009      000000000000000X2136",
            "SPT0000000000000003               000000000000000I2136",
            "SPT0000000000000004               000000000000000I0840",
            "OPU000000000000000502000000005",
            "OPU000000000000000603000000006",
            "GRT000010000000100000009",
            "TRL000010000000100000011",
        ],
    )
}

/// What a check must print of it.
const FAULTY_TEXT: &[u8] =
    b"00001 00000000 NWR rejected 0:J2 0:J3 0:J10 1:J7 2:J8 2:J14\n1 transactions, 1 with faults\n";

fn fault(sequence: u32, number: u8, rtype: [u8; 3]) -> Fault {
    Fault {
        sequence,
        number,
        rtype,
    }
}

/// Its faults.
fn faulty_faults() -> [Fault; 6] {
    [
        fault(0, 2, *b"NWR"),
        fault(0, 3, *b"NWR"),
        fault(0, 10, *b"NWR"),
        fault(1, 7, *b"SPU"),
        fault(2, 8, *b"SPT"),
        fault(2, 14, *b"SPT"),
    ]
}

#[derive(Drop)]
struct ParseFile<'a>(&'a [u8]);

impl Sweep for ParseFile<'_> {
    fn ends(&self, memory: &FailingAlloc) -> Ended {
        match parse_file(memory, self.0) {
            Ok(file) => answered(has_three_works(&file)),
            Err(FileRefusal::Memory) => Ok(true),
            Err(FileRefusal::Fault { .. }) => Err(Fail::new("a fault")),
        }
    }
}

/// The file must be that of three works, W1 to W3.
fn has_three_works(file: &Submission<&FailingAlloc>) -> Result<(), Fail> {
    same("sender", &file.header.sender, &SUBMITTER)?;
    same("counts", &(file.groups, file.records), &(1, 10))?;
    let mut sequence: u32 = 0;
    for transaction in file.transactions.iter() {
        let found = (
            transaction.group(),
            transaction.sequence(),
            transaction.kind(),
        );
        same("a transaction", &found, &(1, sequence, WorkKind::Nwr))?;
        sequence = sequence.saturating_add(1);
    }
    same("transactions", &sequence, &3)
}

#[derive(Drop)]
struct Judge<'a>(&'a [u8]);

impl Sweep for Judge<'_> {
    fn ends(&self, memory: &FailingAlloc) -> Ended {
        let Ok(file) = parse_file(memory, self.0) else {
            return Ok(true);
        };
        let transaction = file.transactions.get(0).ok_or("no transaction")?;
        match judge(memory, &transaction, SUBMITTER) {
            Ok(call) => answered(is_faulty_call(&call)),
            Err(_) => Ok(true),
        }
    }
}

/// The call must be that of the faulty file.
fn is_faulty_call(call: &Call<&FailingAlloc>) -> Result<(), Fail> {
    same(
        "whose and what",
        &(call.submitter(), call.kind()),
        &(SUBMITTER, WorkKind::Nwr),
    )?;
    same("title", &call.title(), &[b' '; 60])?;
    same(
        "number and ISWC",
        &(call.number(), call.iswc()),
        &([b' '; 14], None),
    )?;
    same("control", &call.control(), &[0; 3])?;
    same_lists("faults", call.faults(), &faulty_faults())
}

/// A call of parts, which allocates nothing but its faults.
struct CallOf;

impl Sweep for CallOf {
    fn ends(&self, memory: &FailingAlloc) -> Ended {
        let mut faults = Vec::new(memory);
        if faults.extend_from_slice(&faulty_faults()).is_err() {
            return Ok(true);
        }
        let requests = memory.requests();
        let call = Call::of(
            SUBMITTER,
            WorkKind::Nwr,
            [b' '; 60],
            [b' '; 14],
            None,
            [0; 3],
            Faults::new(faults),
        );
        same("requests", &memory.requests(), &requests)?;
        answered(is_faulty_call(&call.ok_or("no call")?))
    }
}

#[derive(Drop)]
struct CheckText<'a>(&'a [u8]);

impl Sweep for CheckText<'_> {
    fn ends(&self, memory: &FailingAlloc) -> Ended {
        match check_text(memory, self.0) {
            Ok(checked) => answered(is_faulty_check(&checked)),
            Err(_) => Ok(true),
        }
    }
}

/// A check must report what the faulty file has.
fn is_faulty_check(checked: &Checked<&FailingAlloc>) -> Result<(), Fail> {
    same("clean", &checked.clean, &false)?;
    same_bytes("text", &checked.text, FAULTY_TEXT)
}

/// A check through a window that is shorter than a line.
#[derive(Drop)]
struct CheckSource<'a>(&'a [u8]);

impl Sweep for CheckSource<'_> {
    fn ends(&self, memory: &FailingAlloc) -> Ended {
        match check_source(memory, &mut Feed::new(self.0, 7, None), 4096, 16) {
            Ok(checked) => answered(is_faulty_check(&checked)),
            Err(ReadRefused::Memory) => Ok(true),
            Err(_) => Err(Fail::new("not read")),
        }
    }
}

#[derive(Drop)]
struct ReadFile<'a>(&'a [u8]);

impl Sweep for ReadFile<'_> {
    fn ends(&self, memory: &FailingAlloc) -> Ended {
        match read_file(memory, &mut Feed::new(self.0, 7, None), 1000) {
            Ok(text) => answered(same_bytes("text", &text, self.0)),
            Err(ReadRefused::Memory) => Ok(true),
            Err(_) => Err(Fail::new("not read")),
        }
    }
}

#[test]
fn parses(rt: HostRuntime) -> Result<(), Fail> {
    let alloc = rt.alloc();
    let three = three_works(alloc)?;
    refuse_each(alloc, &ReadFile(&three))?;
    refuse_each(alloc, &ParseFile(&three))
}

#[test]
fn judges(rt: HostRuntime) -> Result<(), Fail> {
    let alloc = rt.alloc();
    let faulty = faulty_file(alloc)?;
    refuse_each(alloc, &CallOf)?;
    refuse_each(alloc, &Judge(&faulty))?;
    refuse_each(alloc, &CheckText(&faulty))?;
    refuse_each(alloc, &CheckSource(&faulty))
}
