//! Standard output that fails: it is reported on standard error, with the number of bytes before, and the status is 1.

use std::test::Fail;
use test_program::{Given, Kept, Step, Text, expect_play};

/// A register without entries.
const EMPTY: Text = Text::Bytes(b"REG00000000\n");

/// A register whose first line is not valid.
const BROKEN: Text = Text::Bytes(b"REG\n");

#[test]
fn tells_that_a_check_is_cut(rt: HostRuntime) -> Result<(), Fail> {
    let given = [
        ("clean", Given::Holds(Text::Plain)),
        ("refused", Given::Holds(Text::Bytes(b"TRL"))),
    ];
    let at_once = "standard output: stopped: write after 0 bytes\n";
    expect_play(
        &rt,
        &given,
        &[],
        &[
            Step::of(&["check", "clean"])
                .taking(25)
                .ends(1)
                .prints("00001 00000000 NWR ok\n1 t")
                .complains("standard output: stopped: write after 25 bytes\n"),
            Step::of(&["check", "--long", "clean"])
                .taking(0)
                .ends(1)
                .complains(at_once),
            Step::of(&["check", "--json", "refused"])
                .taking(1)
                .ends(1)
                .prints("{")
                .complains("standard output: stopped: write after 1 bytes\n"),
            Step::of(&["explain", "F1"])
                .taking(2)
                .ends(1)
                .prints("F1")
                .complains("standard output: stopped: write after 2 bytes\n"),
            Step::of(&["version"]).taking(0).ends(1).complains(at_once),
        ],
    )
}

#[test]
fn tells_that_a_register_is_cut(rt: HostRuntime) -> Result<(), Fail> {
    let given = [
        ("empty", Given::Holds(EMPTY)),
        ("broken", Given::Holds(BROKEN)),
    ];
    let at_once = "standard output: stopped: write after 0 bytes\n";
    expect_play(
        &rt,
        &given,
        &[],
        &[
            Step::of(&["audit", "empty"])
                .taking(3)
                .ends(1)
                .prints("0 e")
                .complains("standard output: stopped: write after 3 bytes\n"),
            Step::of(&["audit", "broken"])
                .taking(7)
                .ends(1)
                .prints("refused")
                .complains("standard output: stopped: write after 7 bytes\n"),
            Step::of(&["claims", "empty"])
                .taking(0)
                .ends(1)
                .complains(at_once),
            Step::of(&["history", "broken"])
                .taking(0)
                .ends(1)
                .complains(at_once),
            Step::of(&["summary", "empty"])
                .taking(9)
                .ends(1)
                .prints("entries: ")
                .complains("standard output: stopped: write after 9 bytes\n"),
        ],
    )
}

/// The files of a run are acknowledged all the same; the second line is reported as cut, and none after it.
#[test]
fn tells_that_a_run_is_cut(rt: HostRuntime) -> Result<(), Fail> {
    let writable = [
        Kept::new("a.ack", Text::Bytes(b"")),
        Kept::new("b.ack", Text::Bytes(b"")),
    ];
    let given = [
        ("a", Given::Holds(Text::Plain)),
        ("b", Given::Holds(Text::Bytes(b"TRL"))),
    ];
    let step = Step::run(&["--in-turn", "a", "b"])
        .taking(20)
        .ends(1)
        .prints("a: acknowledged 1\nb:")
        .complains("standard output: stopped: write after 20 bytes\n");
    expect_play(
        &rt,
        &given,
        &writable,
        &[step.leaves(&[("a.ack", Text::Answer("AS"))])],
    )
}
