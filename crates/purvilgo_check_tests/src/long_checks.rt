//! What `check --long` prints: of a file with twenty mistakes, which `examples/mistakes.v22` is too, and of files
//! without.

use std::alloc::Global;
use std::process::ExitCode;
use std::test::Fail;
use test_files::plain_file;
use test_program::{Fake, FakeFile, expect_program};

/// A file with each of the rules J1 to J15 broken once, and five of them once more.
const MISTAKES: [&str; 21] = [
    "HDRPB000000123PUBLISHER A                                  01.102024050112000020240501",
    "GRHNWR0000102.200000000001",
    "NWR0000000000000000                                                                            T034524680220230229               006100",
    "OPU000000000000000101000000002PUBLISHER A                                   E                                      05000   00000   09993",
    "NWR0000000100000000EVENING SONG                                                  W101                                            ",
    "SPU000000010000000101         PUBLISHER A                                   E                                      05000   06000   00000",
    "SPT0000000100000002000000002      050001000010000X21A6 001",
    "SWR0000000100000003000000001DOE                                          JANE                           CA                       05000   05000   10001",
    "PWR0000000100000004000000009PUBLISHER A",
    "ALT0000000100000005ABENDLIED                                                   AT",
    "OWR0000000100000006000000003ROE                                          JANE                           CA                       00000   00000   00000",
    "NWR0000000200000000NIGHT SONG                                                    W102          T03452468O1                       240000",
    "SWR0000000200000001000000001DOE                                          JANE                           CA                       10000   10000   10000",
    "SWT0000000200000002000000009050030000000000I0840 001",
    "SWT0000000200000003000000001050041000 1O000I 840 001",
    "NWR0000000300000000MORNING SONG                                                  W103          T0345246801                       ",
    "SWR0000000300000001000000001DOE                                          JANE                           CA                       10000   10000   10000",
    "NWR0000000400000000NOON SONG                                                     W104                                            ",
    "SWR0000000400000001         DOE                                          JANE                           CA                       10000   10000   10000",
    "GRT000010000000500000019",
    "TRL000010000000500000021",
];

/// What is wrong in it, as `examples/mistakes.long` has it.
const TOLD: [&str; 59] = [
    "line 3: NWR 0 of transaction 0 in group 1: J2 TITLE IS BLANK",
    "  work title, start 20, length 60: \"                                                            \"",
    "  expected: a title that is not blank",
    "line 3: NWR 0 of transaction 0 in group 1: J3 SUBMITTER WORK NUMBER IS BLANK",
    "  submitter work number, start 82, length 14: \"              \"",
    "  expected: a number that is not blank",
    "line 3: NWR 0 of transaction 0 in group 1: J4 ISWC IS NOT VALID",
    "  ISWC, start 96, length 11: \"T0345246802\"",
    "  expected: T, these nine digits and their check digit 1",
    "line 3: NWR 0 of transaction 0 in group 1: J5 DATE OR DURATION IS NOT VALID",
    "  copyright date, start 107, length 8: \"20230229\"",
    "  duration, start 130, length 6: \"006100\"",
    "  expected: a date as YYYYMMDD, a time as HHMMSS, or blanks",
    "line 3: NWR 0 of transaction 0 in group 1: J10 NO WRITER",
    "  expected: an SWR or OWR",
    "line 3: NWR 0 of transaction 0 in group 1: J11 PR OWNERSHIP TOTAL IS NOT VALID",
    "  expected: 0, or from 99.94 to 100.06 per cent; the shares add up to 50.00",
    "line 3: NWR 0 of transaction 0 in group 1: J13 SR OWNERSHIP TOTAL IS NOT VALID",
    "  expected: 0, or from 99.94 to 100.06 per cent; the shares add up to 99.93",
    "line 5: NWR 0 of transaction 1 in group 1: J12 MR OWNERSHIP TOTAL IS NOT VALID",
    "  expected: 0, or from 99.94 to 100.06 per cent; the shares add up to 110.00",
    "line 6: SPU 1 of transaction 1 in group 1: J7 INTERESTED PARTY NUMBER IS BLANK",
    "  interested party number, start 22, length 9: \"         \"",
    "  expected: a number that is not blank",
    "line 7: SPT 2 of transaction 1 in group 1: J8 TERRITORY RECORD OF ANOTHER PARTY",
    "  interested party number, start 20, length 9: \"000000002\"",
    "  expected: \"         \"",
    "line 7: SPT 2 of transaction 1 in group 1: J14 INDICATOR OR TERRITORY IS NOT VALID",
    "  inclusion/exclusion indicator, start 50, length 1: \"X\"",
    "  TIS numeric code, start 51, length 4: \"21A6\"",
    "  expected: the indicator I or E, and a code of one to four digits",
    "line 8: SWR 3 of transaction 1 in group 1: J6 SHARE IS NOT VALID",
    "  SR ownership share, start 146, length 5: \"10001\"",
    "  expected: five digits from 00000 to 10000, or blanks",
    "line 9: PWR 4 of transaction 1 in group 1: J9 PUBLISHER OF WRITER IS NOT IN THE TRANSACTION",
    "  publisher interested party number, start 20, length 9: \"000000009\"",
    "  expected: the number of an SPU or OPU of the transaction, or blanks",
    "line 11: OWR 6 of transaction 1 in group 1: J1 RECORD OUT OF ORDER",
    "  record type, start 1, length 3: \"OWR\"",
    "  expected: after ALT: ALT or XRF",
    "line 12: NWR 0 of transaction 2 in group 1: J4 ISWC IS NOT VALID",
    "  ISWC, start 96, length 11: \"T03452468O1\"",
    "  expected: T, nine digits and their check digit, or blanks",
    "line 12: NWR 0 of transaction 2 in group 1: J5 DATE OR DURATION IS NOT VALID",
    "  duration, start 130, length 6: \"240000\"",
    "  expected: a date as YYYYMMDD, a time as HHMMSS, or blanks",
    "line 12: NWR 0 of transaction 2 in group 1: J15 COLLECTION TOTAL IS ABOVE 100.06",
    "  expected: at most 100.06 per cent; in territory 840 the shares add up to PR 100.07, MR 0.00, SR 0.00",
    "line 14: SWT 2 of transaction 2 in group 1: J8 TERRITORY RECORD OF ANOTHER PARTY",
    "  interested party number, start 20, length 9: \"000000009\"",
    "  expected: \"000000001\"",
    "line 15: SWT 3 of transaction 2 in group 1: J6 SHARE IS NOT VALID",
    "  MR collection share, start 34, length 5: \"1000 \"",
    "  SR collection share, start 39, length 5: \"1O000\"",
    "  expected: five digits from 00000 to 10000, or blanks",
    "line 19: SWR 1 of transaction 4 in group 1: J7 INTERESTED PARTY NUMBER IS BLANK",
    "  interested party number, start 20, length 9: \"         \"",
    "  expected: a number that is not blank",
    "5 transactions, 4 with faults",
];

/// These lines, each with LF at its end.
fn with_ends(alloc: Global, lines: &[&str]) -> Result<Vec<u8>, Fail> {
    let mut text = Vec::new(alloc);
    for line in lines {
        text.extend_from_slice(line.as_bytes())?;
        text.push(b'\n')?;
    }
    Ok(text)
}

#[test]
fn tells_each_mistake(rt: HostRuntime) -> Result<(), Fail> {
    let alloc = rt.alloc();
    let file = with_ends(alloc, &MISTAKES)?;
    let wanted = with_ends(alloc, &TOLD)?;
    let files = [("mistakes.v22", FakeFile::Holds(&file))];
    let words = ["purvilgo", "check", "--long", "mistakes.v22"];
    let fake = Fake::new(&rt, &words, b"").with_files(&files, &[]);
    expect_program(fake, ExitCode::FAILURE, &wanted, "")
}

#[test]
fn tells_that_nothing_is_wrong(rt: HostRuntime) -> Result<(), Fail> {
    let alloc = rt.alloc();
    let input = plain_file(alloc)?;
    let fake = Fake::new(&rt, &["purvilgo", "check", "--long", "-"], &input);
    expect_program(
        fake,
        ExitCode::SUCCESS,
        b"1 transactions, 0 with faults\n",
        "",
    )
}

#[test]
fn tells_the_fault_of_a_file(rt: HostRuntime) -> Result<(), Fail> {
    let cases: [(&[u8], &[u8]); 2] = [
        (
            b"",
            b"line 1: end of the file: F1 the file does not begin with HDR\n  expected: HDR\nrefused F1 at line 1\n",
        ),
        (
            b"HDRPB000000123PUBLISHER A                                  01.102024050112000020240501\nTRL000000000000000000003\n",
            b"line 2: TRL: F10 the counts of TRL are not those of the file\n  record count, start 17, length 8: \"00000003\"\n  expected: group count 0, transaction count 0, record count 2\nrefused F10 at line 2\n",
        ),
    ];
    for (input, wanted) in cases {
        let fake = Fake::new(&rt, &["purvilgo", "check", "--long", "-"], input);
        expect_program(fake, ExitCode::FAILURE, wanted, "")?;
    }
    Ok(())
}

#[test]
fn stops_as_the_short_check_does(rt: HostRuntime) -> Result<(), Fail> {
    let files = [("endless", FakeFile::Endless), ("broken", FakeFile::Broken)];
    let cases: [(&str, &str); 3] = [
        ("endless", "stopped: too long\n"),
        ("broken", "stopped: read\n"),
        ("absent", "stopped: read\n"),
    ];
    for (name, complained) in cases {
        let words = ["purvilgo", "check", "--long", name];
        let fake = Fake::new(&rt, &words, b"").with_files(&files, &[]);
        expect_program(fake, ExitCode::FAILURE, b"", complained)?;
    }
    Ok(())
}
