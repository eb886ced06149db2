//! Tables of a register, and pages.

use c_values::status::{DONE, NO_ROOM};
use c_values::{RegisterFault, Table, write_pages, write_table};
use rule_pages::every_page;
use std::alloc::Global;
use std::test::Fail;
use test_comparisons::{same, same_bytes};

/// The register of the example in the profile's section on decisions, seven transactions of two submitters on one work,
/// and of one of them handed in again: its history has more than a thousand bytes.
const REGISTER: &[u8] = b"REG00000008\n\
ENT00000001PB000000123REVSONG ONE                                                    W1            T0345246801000000006000000000006000000000006000AS0000000100000001000000000\n\
ENT00000002PB000000456NWRSONG ONE                                                    W7            T0345246801000000005000000000005000000000005000CO0000000100000000000000000\n\
ENT00000003PB000000123REVSONG ONE                                                    W1            T0345246801000000005000000000005000000000005000AS0000000100000002000000000\n\
ENT00000004PB000000456NWRSONG ONE                                                    W7            T0345246801000000005000000000005000000000005000AS0000000100000001000000000\n\
ENT00000005PB000000123REVSONG ONE                                                    W1                       000000005000000000005000000000005000AS0000000100000003000000000\n\
ENT00000006PB000000123REVSONG ONE                                                    W1            T0000000010000000005000000000005000000000005000CO0000000100000000000000000\n\
ENT00000007PB000000123REVSONG ONE                                                    W1                       000000005000000000005000000000005000RJ00000000000000000000000010000000004REV\n\
ENT00000008PB000000456NWRSONG ONE                                                    W7            T0345246801000000005000000000005000000000005000DU0000000100000000000000000\n";

const CLAIMS: &[u8] =
    b"submitter,number,work,version,title,iswc,performing,mechanical,synchronization\n\
PB000000456,W7            ,1,1,SONG ONE                                                    ,T0345246801,5000,5000,5000\n\
PB000000123,W1            ,1,3,SONG ONE                                                    ,,5000,5000,5000\n";

const WORKS: &[u8] = b"work,iswc,performing,mechanical,synchronization,claims\n\
1,T0345246801,10000,10000,10000,2\n";

const HISTORY: &[u8] =
    b"entry,submitter,kind,number,title,iswc,performing,mechanical,synchronization,status,work,version,faults\n\
1,PB000000123,REV,W1            ,SONG ONE                                                    ,T0345246801,6000,6000,6000,AS,1,1,\n\
2,PB000000456,NWR,W7            ,SONG ONE                                                    ,T0345246801,5000,5000,5000,CO,1,,\n\
3,PB000000123,REV,W1            ,SONG ONE                                                    ,T0345246801,5000,5000,5000,AS,1,2,\n\
4,PB000000456,NWR,W7            ,SONG ONE                                                    ,T0345246801,5000,5000,5000,AS,1,1,\n\
5,PB000000123,REV,W1            ,SONG ONE                                                    ,,5000,5000,5000,AS,1,3,\n\
6,PB000000123,REV,W1            ,SONG ONE                                                    ,T0000000010,5000,5000,5000,CO,1,,\n\
7,PB000000123,REV,W1            ,SONG ONE                                                    ,,5000,5000,5000,RJ,,,0:J4\n\
8,PB000000456,NWR,W7            ,SONG ONE                                                    ,T0345246801,5000,5000,5000,DU,1,,\n";

const SUMMARY: &[u8] =
    b"entries: 8\naccepted (AS): 4\nduplicates (DU): 1\nconflicts (CO): 2\nrejected (RJ): 1\n\
works: 1\ncurrent claims: 2\nsubmitters: 2\n\
works by what is left of the performing right:\n  none: 1\n  up to a quarter: 0\n  up to a half: 0\n  more than a half: 0\n  all: 0\n\
works by what is left of the mechanical right:\n  none: 1\n  up to a quarter: 0\n  up to a half: 0\n  more than a half: 0\n  all: 0\n\
works by what is left of the synchronization right:\n  none: 1\n  up to a quarter: 0\n  up to a half: 0\n  more than a half: 0\n  all: 0\n\
largest conflicts:\n  work 1: 2\n";

/// A table of the register must be this text, at the front of `room`.
fn expect_table(alloc: Global, table: Table, room: &mut [u8], wanted: &[u8]) -> Result<(), Fail> {
    let mut length = 0;
    let mut fault = RegisterFault { number: 0, line: 0 };
    let status = write_table(alloc, REGISTER, table, room, &mut length, &mut fault);
    same("the status", &status, &DONE)?;
    same_bytes("the table", room.get(..length).unwrap_or(&[]), wanted)
}

#[test]
fn tells_the_tables_of_a_register(rt: HostRuntime) -> Result<(), Fail> {
    let alloc = rt.alloc();
    let mut room = [b'.'; 2000];
    expect_table(alloc, Table::Claims, &mut room, CLAIMS)?;
    expect_table(alloc, Table::Works, &mut room, WORKS)?;
    expect_table(alloc, Table::History, &mut room, HISTORY)?;
    expect_table(alloc, Table::Summary, &mut room, SUMMARY)
}

/// All pages are more than a thousand bytes: they are longer than a room of as many, and fit one that is large enough.
fn expect_pages(alloc: Global) -> Result<(), Fail> {
    let mut room = Vec::new(alloc);
    room.resize(1000, b'.')?;
    let mut length = 0;
    let status = write_pages(alloc, every_page(), &mut room, &mut length);
    same("the status of a small room", &status, &NO_ROOM)?;
    room.resize(length, b'.')?;
    let status = write_pages(alloc, every_page(), &mut room, &mut length);
    same("the status", &status, &DONE)?;
    let begin = b"F1 ";
    same_bytes(
        "what they begin with",
        room.get(..begin.len()).unwrap_or(&[]),
        begin,
    )
}

#[test]
fn tells_every_page(rt: HostRuntime) -> Result<(), Fail> {
    expect_pages(rt.alloc())
}
