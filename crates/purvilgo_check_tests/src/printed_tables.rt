//! What `claims`, `works`, `history` and `summary` print of a register.

use std::alloc::Global;
use std::process::ExitCode;
use std::sync::Wait;
use std::test::Fail;
use std::thread::Threads;
use test_program::{Fake, FakeFile, expect, expect_program};

/// Three transactions of two submitters on one work: an accepted one, a conflict, and a rejected one.
pub(crate) const REGISTER: &[u8] = b"REG00000003\n\
ENT00000001PB000000123NWRSONG ONE                                                    W1            T0345246801000000006000000000006000000000006000AS0000000100000001000000000\n\
ENT00000002PB000000456NWRSONG ONE                                                    W7            T0345246801000000005000000000005000000000005000CO0000000100000000000000000\n\
ENT00000003PB000000456REVSONG ONE                                                    W7                       000000005000000000005000000000005000RJ00000000000000000000000010000000004REV\n";

const CLAIMS: &str =
    "submitter,number,work,version,title,iswc,performing,mechanical,synchronization\n";

const WORKS: &str = "work,iswc,performing,mechanical,synchronization,claims\n";

const HISTORY: &str =
    "entry,submitter,kind,number,title,iswc,performing,mechanical,synchronization,status,work,version,faults\n";

const CLAIM: &str =
    "PB000000123,W1            ,1,1,SONG ONE                                                    ,T0345246801,6000,6000,6000\n";

const WORK: &str = "1,T0345246801,6000,6000,6000,1\n";

const ACCEPTED: &str =
    "1,PB000000123,NWR,W1            ,SONG ONE                                                    ,T0345246801,6000,6000,6000,AS,1,1,\n";

const CONFLICT: &str =
    "2,PB000000456,NWR,W7            ,SONG ONE                                                    ,T0345246801,5000,5000,5000,CO,1,,\n";

const REJECTED: &str =
    "3,PB000000456,REV,W7            ,SONG ONE                                                    ,,5000,5000,5000,RJ,,,0:J4\n";

const SUMMARY: &str =
    "entries: 3\naccepted (AS): 1\nduplicates (DU): 0\nconflicts (CO): 1\nrejected (RJ): 1\n\
works: 1\ncurrent claims: 1\nsubmitters: 2\n\
works by what is left of the performing right:\n  none: 0\n  up to a quarter: 0\n  up to a half: 1\n  more than a half: 0\n  all: 0\n\
works by what is left of the mechanical right:\n  none: 0\n  up to a quarter: 0\n  up to a half: 1\n  more than a half: 0\n  all: 0\n\
works by what is left of the synchronization right:\n  none: 0\n  up to a quarter: 0\n  up to a half: 1\n  more than a half: 0\n  all: 0\n\
largest conflicts:\n  work 1: 1\n";

/// These lines, one behind the other.
fn joined(alloc: Global, lines: &[&str]) -> Result<String, Fail> {
    let mut text = String::new(alloc);
    for line in lines {
        text.push_str(line)?;
    }
    Ok(text)
}

/// What is printed of the register with these words: these lines, and this on standard error.
fn expect_table<T: AllocGlobal + Threads + Wait + Sync>(
    rt: &T,
    words: &[&str],
    lines: &[&str],
    complained: &str,
) -> Result<(), Fail> {
    let wanted = joined(rt.alloc(), lines)?;
    let files = [("register", FakeFile::Holds(REGISTER))];
    expect(
        rt,
        words,
        &files,
        &[],
        ExitCode::SUCCESS,
        &wanted,
        complained,
    )
}

#[test]
fn tells_tables(rt: HostRuntime) -> Result<(), Fail> {
    let cases: [(&[&str], &[&str], &str); 15] = [
        (&["purvilgo", "claims", "register"], &[CLAIMS, CLAIM], ""),
        (&["purvilgo", "works", "register"], &[WORKS, WORK], ""),
        (
            &["purvilgo", "history", "register"],
            &[HISTORY, ACCEPTED, CONFLICT, REJECTED],
            "",
        ),
        (
            &["purvilgo", "claims", "--work", "1", "register"],
            &[CLAIMS, CLAIM],
            "",
        ),
        (
            &["purvilgo", "claims", "--work", "00000002", "register"],
            &[CLAIMS],
            "no claim matches\n",
        ),
        (
            &[
                "purvilgo",
                "claims",
                "--submitter",
                "PB000000123",
                "--number",
                "W1",
                "register",
            ],
            &[CLAIMS, CLAIM],
            "",
        ),
        (
            &["purvilgo", "claims", "--number", "W7", "register"],
            &[CLAIMS],
            "no claim matches\n",
        ),
        (
            &["purvilgo", "works", "--work", "1", "register"],
            &[WORKS, WORK],
            "",
        ),
        (
            &["purvilgo", "works", "--work", "2", "register"],
            &[WORKS],
            "no work matches\n",
        ),
        (
            &["purvilgo", "history", "--status", "RJ", "register"],
            &[HISTORY, REJECTED],
            "",
        ),
        (
            &[
                "purvilgo",
                "history",
                "--submitter",
                "PB000000456",
                "register",
            ],
            &[HISTORY, CONFLICT, REJECTED],
            "",
        ),
        (
            &["purvilgo", "history", "--work", "1", "register"],
            &[HISTORY, ACCEPTED, CONFLICT],
            "",
        ),
        (
            &[
                "purvilgo", "history", "--number", "W7", "--status", "CO", "register",
            ],
            &[HISTORY, CONFLICT],
            "",
        ),
        (
            &["purvilgo", "history", "--status", "DU", "register"],
            &[HISTORY],
            "no entry matches\n",
        ),
        (&["purvilgo", "summary", "register"], &[SUMMARY], ""),
    ];
    for (words, lines, complained) in cases {
        expect_table(&rt, words, lines, complained)?;
    }
    Ok(())
}

/// The register on standard input, and one that another run left with no entry.
#[test]
fn tells_tables_of_standard_input(rt: HostRuntime) -> Result<(), Fail> {
    for (command, header) in [("claims", CLAIMS), ("works", WORKS), ("history", HISTORY)] {
        let words = ["purvilgo", command, "-"];
        let fake = Fake::new(&rt, &words, b"REG00000000\n");
        expect_program(fake, ExitCode::SUCCESS, header.as_bytes(), "")?;
    }
    Ok(())
}

/// A register that is refused, or cannot be read, is reported as by `audit`.
#[test]
fn tells_no_table_of_a_refused_register(rt: HostRuntime) -> Result<(), Fail> {
    let files = [
        ("misplaced", FakeFile::Holds(b"REG00000001\n")),
        ("broken", FakeFile::Broken),
    ];
    for command in ["audit", "claims", "works", "history", "summary"] {
        for (name, printed, complained) in [
            ("misplaced", "refused G2 at line 2\n", ""),
            ("broken", "", "stopped: read\n"),
            ("absent", "", "stopped: read\n"),
        ] {
            let words = ["purvilgo", command, name];
            let fake = Fake::new(&rt, &words, b"").with_files(&files, &[]);
            expect_program(fake, ExitCode::FAILURE, printed.as_bytes(), complained)?;
        }
    }
    Ok(())
}

/// An option whose value is not valid is reported before the register is read.
#[test]
fn tells_what_is_wrong_with_the_words(rt: HostRuntime) -> Result<(), Fail> {
    let cases = [
        ("--work", "", "bad --work\n"),
        ("--work", "0", "bad --work\n"),
        ("--work", "1a", "bad --work\n"),
        ("--work", "000000001", "bad --work\n"),
        ("--submitter", "", "bad --submitter\n"),
        ("--submitter", "PB0000001234", "bad --submitter\n"),
        ("--number", "", "bad --number\n"),
        ("--number", "W12345678901234", "bad --number\n"),
        ("--status", "A", "bad --status\n"),
        ("--status", "as", "bad --status\n"),
        ("--status", "ASX", "bad --status\n"),
    ];
    for (option, value, complained) in cases {
        let words = ["purvilgo", "history", option, value, "absent"];
        let fake = Fake::new(&rt, &words, b"");
        expect_program(fake, ExitCode::from(2), b"", complained)?;
    }
    Ok(())
}
