//! Registers that runs begin with and leave, and their audits.

use std::test::Fail;
use test_program::{Given, Kept, Step, Text, expect_play};

/// The register of one run, with a reply that the registry does not give.
const DAMAGED: &[u8] = b"REG00000001\n\
ENT00000001PB000000123NWRSONG ONE                                                    W1                       000000010000000000010000000000010000DU0000000100000000000000000\n";

const ACKNOWLEDGED: &str = "a: acknowledged 1\n";

#[test]
fn runs_follow_one_another(rt: HostRuntime) -> Result<(), Fail> {
    expect_play(
        &rt,
        &[("a", Given::Holds(Text::Plain))],
        &[
            Kept::new("a.ack", Text::Bytes(b"")),
            Kept::new("book", Text::Bytes(b"what lay there before")),
        ],
        &[
            Step::run(&["--to", "book", "a"])
                .prints(ACKNOWLEDGED)
                .leaves(&[("a.ack", Text::Answer("AS")), ("book", Text::Register(1))]),
            Step::of(&["audit", "book"]).prints("1 entries\n"),
            Step::run(&["--from", "book", "--to", "book", "a"])
                .prints(ACKNOWLEDGED)
                .leaves(&[("a.ack", Text::Answer("DU")), ("book", Text::Register(2))]),
            Step::of(&["audit", "book"]).prints("2 entries\n"),
        ],
    )
}

#[test]
fn leaves_the_register_that_it_begins_with(rt: HostRuntime) -> Result<(), Fail> {
    expect_play(
        &rt,
        &[("a", Given::Holds(Text::Plain))],
        &[
            Kept::new("a.ack", Text::Bytes(b"")),
            Kept::new("book", Text::Register(1)),
        ],
        &[
            Step::run(&["--from", "book", "a"])
                .prints(ACKNOWLEDGED)
                .leaves(&[("a.ack", Text::Answer("DU")), ("book", Text::Register(1))]),
        ],
    )
}

#[test]
fn keeps_a_register_beside_a_file_that_fails(rt: HostRuntime) -> Result<(), Fail> {
    expect_play(
        &rt,
        &[("a", Given::Holds(Text::Plain))],
        &[
            Kept::new("a.ack", Text::Bytes(b"")),
            Kept::new("book", Text::Bytes(b"what lay there before")),
        ],
        &[
            Step::run(&["--to", "book", "absent", "a"])
                .ends(1)
                .prints("absent: stopped after 0: read\na: acknowledged 1\n")
                .leaves(&[("a.ack", Text::Answer("AS")), ("book", Text::Register(1))]),
        ],
    )
}

/// Nothing is written.
#[test]
fn begins_with_no_damaged_register(rt: HostRuntime) -> Result<(), Fail> {
    let older = Text::Bytes(b"older");
    for (name, complained) in [
        ("wrong", "register: refused G3 at line 2\n"),
        ("short", "register: refused G2 at line 2\n"),
        ("broken", "register: stopped: read\n"),
        ("absent", "register: stopped: read\n"),
    ] {
        expect_play(
            &rt,
            &[
                ("a", Given::Holds(Text::Plain)),
                ("wrong", Given::Holds(Text::Bytes(DAMAGED))),
                ("short", Given::Holds(Text::Bytes(b"REG00000001\n"))),
                ("broken", Given::Broken),
            ],
            &[Kept::new("a.ack", older), Kept::new("book", older)],
            &[
                Step::run(&["--from", name, "--to", "book", "a"])
                    .ends(1)
                    .complains(complained)
                    .leaves(&[("a.ack", older), ("book", older)]),
            ],
        )?;
    }
    Ok(())
}

/// The acknowledgement is withheld, and both files are as they were.
#[test]
fn tells_a_register_that_is_not_kept(rt: HostRuntime) -> Result<(), Fail> {
    let empty = Text::Bytes(b"");
    let short = Kept {
        name: "short",
        held: empty,
        room: 100,
    };
    expect_play(
        &rt,
        &[("a", Given::Holds(Text::Plain))],
        &[Kept::new("a.ack", empty), short],
        &[
            Step::run(&["--to", "short", "a"])
                .ends(1)
                .prints(ACKNOWLEDGED)
                .complains("register: stopped: write after 100 bytes\n")
                .leaves(&[("a.ack", empty), ("short", empty)]),
            Step::run(&["--to", "absent", "a"])
                .ends(1)
                .prints(ACKNOWLEDGED)
                .complains("register: stopped: write after 0 bytes\n")
                .leaves(&[("a.ack", empty), ("short", empty)]),
        ],
    )
}

#[test]
fn audits_a_register(rt: HostRuntime) -> Result<(), Fail> {
    expect_play(
        &rt,
        &[
            ("whole", Given::Holds(Text::Register(1))),
            ("wrong", Given::Holds(Text::Bytes(DAMAGED))),
            ("none", Given::Holds(Text::Bytes(b"REG00000000\n"))),
            ("empty", Given::Holds(Text::Bytes(b""))),
            ("broken", Given::Broken),
        ],
        &[],
        &[
            Step::of(&["audit", "whole"]).prints("1 entries\n"),
            Step::of(&["audit", "none"]).prints("0 entries\n"),
            Step::of(&["audit", "wrong"])
                .ends(1)
                .prints("refused G3 at line 2\n"),
            Step::of(&["audit", "empty"])
                .ends(1)
                .prints("refused G2 at line 1\n"),
            Step::of(&["audit", "broken"])
                .ends(1)
                .complains("stopped: read\n"),
            Step::of(&["audit", "absent"])
                .ends(1)
                .complains("stopped: read\n"),
        ],
    )
}
