//! The program's commands, over a runtime of the tests' own.

use std::process::ExitCode;
use std::test::Fail;
use test_program::{Fake, Given, Step, Text, expect_play, expect_program};

#[test]
fn runs_on_standard_input(rt: HostRuntime) -> Result<(), Fail> {
    expect_play(
        &rt,
        &[],
        &[],
        &[
            Step::of(&[]).reads(Text::Plain).gives(Text::Answer("AS")),
            Step::of(&[]).ends(1).complains("-: refused F1 at line 1\n"),
            Step::of(&["a.v22"]).reads(Text::Plain).ends(2).complains(
                "error: unrecognized subcommand 'a.v22'\n\nUsage: purvilgo [COMMAND]\n\nFor more information, try '--help'.\n",
            ),
        ],
    )
}

#[test]
fn checks_a_file(rt: HostRuntime) -> Result<(), Fail> {
    let faulty = Text::Writer("10001", "10000", "10000");
    let refused = Text::Lines(&["TRL000000000000000000003"]);
    expect_play(
        &rt,
        &[
            ("clean", Given::Holds(Text::Plain)),
            ("faulty", Given::Holds(faulty)),
            ("refused", Given::Holds(refused)),
            ("endless", Given::Endless),
            ("broken", Given::Broken),
        ],
        &[],
        &[
            Step::of(&["check", "clean"]).prints(
                "00001 00000000 NWR ok\n1 transactions, 0 with faults\n",
            ),
            Step::of(&["check", "faulty"]).ends(1).prints(
                "00001 00000000 NWR rejected 1:J6\n1 transactions, 1 with faults\n",
            ),
            Step::of(&["check", "refused"])
                .ends(1)
                .prints("refused F10 at line 2\n"),
            Step::of(&["check", "endless"])
                .ends(1)
                .complains("stopped: too long\n"),
            Step::of(&["check", "broken"])
                .ends(1)
                .complains("stopped: read\n"),
            Step::of(&["check", "absent"])
                .ends(1)
                .complains("stopped: read\n"),
        ],
    )
}

#[test]
fn refuses_other_words(rt: HostRuntime) -> Result<(), Fail> {
    let cases: [(&[&str], &str); 3] = [
        (
            &["purvilgo", "check"],
            "error: the following required arguments were not provided:\n  <FILE>...\n\nUsage: purvilgo check <FILE>...\n\nFor more information, try '--help'.\n",
        ),
        (
            &["purvilgo", "audit", "a", "b"],
            "error: unexpected argument 'b' found\n\nUsage: purvilgo audit [OPTIONS] <REGISTER>\n\nFor more information, try '--help'.\n",
        ),
        (
            &["purvilgo", "--verbose"],
            "error: unexpected argument '--verbose' found\n\n  tip: a similar argument exists: '--version'\n\nUsage: purvilgo --version\n\nFor more information, try '--help'.\n",
        ),
    ];
    for (words, complained) in cases {
        let fake = Fake::new(&rt, words, b"");
        expect_program(fake, ExitCode::from(2), b"", complained)?;
    }
    Ok(())
}
