//! The version, and standard input by its name.

use std::process::ExitCode;
use std::test::Fail;
use test_program::{Fake, Given, Step, Text, expect_play, expect_program};

#[test]
fn tells_its_version(rt: HostRuntime) -> Result<(), Fail> {
    for word in ["--version", "-V", "version"] {
        let words = ["purvilgo", word];
        let fake = Fake::new(&rt, &words, b"");
        expect_program(fake, ExitCode::SUCCESS, b"purvilgo 0.2.0\n", "")?;
    }
    Ok(())
}

/// A file of the name `-` exists, and is not read.
#[test]
fn reads_standard_input_by_its_name(rt: HostRuntime) -> Result<(), Fail> {
    let faulty = Text::Writer("10001", "10000", "10000");
    let ok = "00001 00000000 NWR ok\n1 transactions, 0 with faults\n";
    expect_play(
        &rt,
        &[("-", Given::Broken), ("./-", Given::Holds(Text::Plain))],
        &[],
        &[
            Step::of(&["check", "-"]).reads(Text::Plain).prints(ok),
            Step::of(&["check", "-"]).reads(faulty).ends(1).prints(
                "00001 00000000 NWR rejected 1:J6\n1 transactions, 1 with faults\n",
            ),
            Step::of(&["check", "-"])
                .ends(1)
                .prints("refused F1 at line 1\n"),
            Step::of(&["check", "./-"]).prints(ok),
            Step::of(&["audit", "-"])
                .reads(Text::Bytes(b"REG00000000\n"))
                .prints("0 entries\n"),
            Step::of(&["audit", "-"])
                .ends(1)
                .prints("refused G2 at line 1\n"),
        ],
    )
}
