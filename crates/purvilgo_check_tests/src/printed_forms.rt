//! What `claims`, `works` and `history` print with `--plain`, what `history`, `summary` and `audit` print with
//! `--json`, and what is printed of a table without a row that matches.

use crate::printed_tables::REGISTER;
use purvilgo_command::run_program;
use std::process::ExitCode;
use std::test::Fail;
use test_comparisons::same;
use test_program::{Fake, Given, Step, Text, expect_play};

/// The header of plain claims, and the claim.
const CLAIMS: &str =
    "submitter,number,work,version,title,iswc,performing_control,mechanical_control,synchronization_control\n\
PB000000123,W1,1,1,SONG ONE,T0345246801,60.00,60.00,60.00\n";

const WORKS: &str =
    "work,iswc,performing_control,mechanical_control,synchronization_control,claims\n\
1,T0345246801,60.00,60.00,60.00,1\n";

/// The header of a plain history, and its last entry.
const REJECTED: &str =
    "entry,submitter,kind,number,title,iswc,performing_control,mechanical_control,synchronization_control,status,work,version,faults\n\
3,PB000000456,REV,W7,SONG ONE,,50.00,50.00,50.00,RJ,,,0:J4\n";

#[test]
fn tells_plain_tables(rt: HostRuntime) -> Result<(), Fail> {
    let given = [("register", Given::Holds(Text::Bytes(REGISTER)))];
    expect_play(
        &rt,
        &given,
        &[],
        &[
            Step::of(&["claims", "--plain", "register"]).prints(CLAIMS),
            Step::of(&["works", "--plain", "register"]).prints(WORKS),
            Step::of(&["history", "--plain", "--status", "RJ", "register"]).prints(REJECTED),
        ],
    )
}

/// The entries of W7.
const OBJECTS: &str =
    "{\"entry\":2,\"faults\":[],\"iswc\":\"T0345246801\",\"kind\":\"NWR\",\"mechanical_control\":5000,\"number\":\"W7            \",\
\"performing_control\":5000,\"status\":\"CO\",\"submitter\":\"PB000000456\",\"synchronization_control\":5000,\
\"title\":\"SONG ONE                                                    \",\"version\":null,\"work\":1}\n\
{\"entry\":3,\"faults\":[{\"record\":\"REV\",\"rule\":\"J4\",\"sequence\":0}],\"iswc\":null,\"kind\":\"REV\",\"mechanical_control\":5000,\"number\":\"W7            \",\
\"performing_control\":5000,\"status\":\"RJ\",\"submitter\":\"PB000000456\",\"synchronization_control\":5000,\
\"title\":\"SONG ONE                                                    \",\"version\":null,\"work\":null}\n";

const SUMMARY: &str =
    "{\"accepted\":1,\"conflicts\":1,\"current_claims\":1,\"duplicates\":0,\"entries\":3,\"largest_conflicts\":[{\"conflicts\":1,\"work\":1}],\
\"left\":{\"mechanical\":{\"all\":0,\"more_than_half\":0,\"none\":0,\"up_to_half\":1,\"up_to_quarter\":0},\
\"performing\":{\"all\":0,\"more_than_half\":0,\"none\":0,\"up_to_half\":1,\"up_to_quarter\":0},\
\"synchronization\":{\"all\":0,\"more_than_half\":0,\"none\":0,\"up_to_half\":1,\"up_to_quarter\":0}},\
\"most_entries\":[{\"entries\":2,\"submitter\":\"PB000000456\"},{\"entries\":1,\"submitter\":\"PB000000123\"}],\
\"rejected\":1,\"submitters\":2,\"works\":1}\n";

#[test]
fn tells_objects(rt: HostRuntime) -> Result<(), Fail> {
    let given = [("register", Given::Holds(Text::Bytes(REGISTER)))];
    expect_play(
        &rt,
        &given,
        &[],
        &[
            Step::of(&["history", "--json", "--number", "W7", "register"]).prints(OBJECTS),
            Step::of(&["summary", "--json", "register"]).prints(SUMMARY),
            Step::of(&["audit", "--json", "register"]).prints("{\"entries\":3,\"fault\":null}\n"),
            Step::of(&["audit", "--json", "register"])
                .taking(9)
                .ends(1)
                .prints("{\"entries")
                .complains("standard output: stopped: write after 9 bytes\n"),
        ],
    )
}

/// A register that is refused is one object for each command. A missing one is reported as without the option.
#[test]
fn tells_a_refused_register_as_an_object(rt: HostRuntime) -> Result<(), Fail> {
    let given = [("misplaced", Given::Holds(Text::Bytes(b"REG00000001\n")))];
    for command in ["audit", "history", "summary"] {
        expect_play(
            &rt,
            &given,
            &[],
            &[
                Step::of(&[command, "--json", "misplaced"]).ends(1).prints(
                    "{\"entries\":null,\"fault\":{\"line\":2,\"rule\":\"G2\"}}\n",
                ),
                Step::of(&[command, "--json", "absent"])
                    .ends(1)
                    .complains("stopped: read\n"),
            ],
        )?;
    }
    Ok(())
}

/// Standard error says so, and the status is as before. For a register without entries nothing is said, unless rows are
/// selected.
#[test]
fn tells_that_nothing_matches(rt: HostRuntime) -> Result<(), Fail> {
    let given = [
        ("register", Given::Holds(Text::Bytes(REGISTER))),
        ("empty", Given::Holds(Text::Bytes(b"REG00000000\n"))),
    ];
    expect_play(
        &rt,
        &given,
        &[],
        &[
            Step::of(&["claims", "--plain", "--submitter", "NOBODY", "register"])
                .prints(
                    "submitter,number,work,version,title,iswc,performing_control,mechanical_control,synchronization_control\n",
                )
                .complains("no claim matches\n"),
            Step::of(&["works", "--work", "2", "register"])
                .prints("work,iswc,performing,mechanical,synchronization,claims\n")
                .complains("no work matches\n"),
            Step::of(&["history", "--json", "--status", "DU", "register"]).complains(
                "no entry matches\n",
            ),
            Step::of(&["works", "--plain", "--work", "1", "empty"])
                .prints(
                    "work,iswc,performing_control,mechanical_control,synchronization_control,claims\n",
                )
                .complains("no work matches\n"),
            Step::of(&["history", "--json", "empty"]),
        ],
    )
}

/// Nothing is printed on standard output, and standard error names one of the options.
#[test]
fn is_not_told_plain_and_as_json(rt: HostRuntime) -> Result<(), Fail> {
    let words = ["purvilgo", "history", "--plain", "--json", "register"];
    let fake = Fake::new(&rt, &words, b"");
    let ended = run_program(&fake);
    let (printed, told) = fake.into_texts();
    same("--json", &told.contains("--json"), &true)?;
    same("bytes printed", &printed.len(), &0)?;
    same("its status", &ended, &ExitCode::from(2))
}
