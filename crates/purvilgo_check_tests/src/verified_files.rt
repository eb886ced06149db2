//! What `verify` prints of a register, files and their acknowledgements.

use std::test::Fail;
use test_program::{Given, Step, Text, expect_play};

/// The register after the plain file alone.
const REGISTER: &[u8] = b"REG00000001\n\
ENT00000001PB000000123NWRSONG ONE                                                    W1                       000000010000000000010000000000010000AS0000000100000001000000000\n";

/// A register of one entry that has none.
const MISPLACED: &[u8] = b"REG00000001\n";

/// An entry answers one file alone, so a file that is named twice needs two.
#[test]
fn tells_which_file_does_not_fit(rt: HostRuntime) -> Result<(), Fail> {
    expect_play(
        &rt,
        &[
            ("register", Given::Holds(Text::Bytes(REGISTER))),
            ("misplaced", Given::Holds(Text::Bytes(MISPLACED))),
            ("a", Given::Holds(Text::Plain)),
            ("a.ack", Given::Holds(Text::Answer("AS"))),
            ("b", Given::Holds(Text::Plain)),
            ("b.ack", Given::Holds(Text::Answer("CO"))),
            ("c", Given::Holds(Text::Miscounted)),
            ("c.ack", Given::Holds(Text::Answer("AS"))),
            ("d", Given::Holds(Text::Plain)),
            ("e", Given::Holds(Text::Plain)),
            ("e.ack", Given::Holds(Text::Bytes(b""))),
        ],
        &[],
        &[
            Step::of(&["verify", "register", "a"]).prints("1 transactions of 1 files\n"),
            Step::of(&["verify", "register", "b"]).ends(1).prints(
                "b: group 1, transaction 0: not in the register as b.ack has it\n",
            ),
            Step::of(&["verify", "register", "c"])
                .ends(1)
                .prints("c: refused F9 at line 5\n"),
            Step::of(&["verify", "register", "d"])
                .ends(1)
                .complains("d.ack: stopped: read\n"),
            Step::of(&["verify", "register", "e"])
                .ends(1)
                .prints("e.ack: line 1 is another in the register\n"),
            Step::of(&["verify", "register", "f"])
                .ends(1)
                .complains("f: stopped: read\n"),
            Step::of(&["verify", "misplaced", "a"])
                .ends(1)
                .prints("refused G2 at line 2\n"),
            Step::of(&["verify", "absent", "a"])
                .ends(1)
                .complains("stopped: read\n"),
            Step::of(&["verify", "register", "a", "a"]).ends(1).prints(
                "a: group 1, transaction 0: not in the register as a.ack has it\n",
            ),
        ],
    )
}

/// A draft is verified in place of the acknowledgement, and is reported by its own name.
#[test]
fn takes_another_acknowledgement(rt: HostRuntime) -> Result<(), Fail> {
    expect_play(
        &rt,
        &[
            ("register", Given::Holds(Text::Bytes(REGISTER))),
            ("a", Given::Holds(Text::Plain)),
            ("a.ack", Given::Holds(Text::Answer("CO"))),
            ("a.ack.new", Given::Holds(Text::Answer("AS"))),
            ("cut", Given::Holds(Text::Front("AS", 200))),
            ("empty", Given::Holds(Text::Bytes(b""))),
        ],
        &[],
        &[
            Step::of(&["verify", "--ack", "a.ack.new", "register", "a"]).prints(
                "1 transactions of 1 files\n",
            ),
            Step::of(&["verify", "register", "a", "--ack", "cut"])
                .ends(1)
                .prints("a: group 1, transaction 0: not in the register as cut has it\n"),
            Step::of(&["verify", "--ack", "empty", "register", "a"])
                .ends(1)
                .prints("empty: line 1 is another in the register\n"),
            Step::of(&["verify", "--ack", "absent", "register", "a"])
                .ends(1)
                .complains("absent: stopped: read\n"),
            Step::of(&["verify", "--ack", "a.ack.new", "register", "a", "a"])
                .ends(2)
                .complains("--ack goes with one FILE alone\n"),
        ],
    )
}

#[test]
fn verifies_the_files_of_a_list(rt: HostRuntime) -> Result<(), Fail> {
    expect_play(
        &rt,
        &[
            ("register", Given::Holds(Text::Bytes(REGISTER))),
            ("a", Given::Holds(Text::Plain)),
            ("a.ack", Given::Holds(Text::Answer("AS"))),
            ("list", Given::Holds(Text::Bytes(b"a\n"))),
        ],
        &[],
        &[
            Step::of(&["verify", "register", "--files-from", "list"]).prints(
                "1 transactions of 1 files\n",
            ),
            Step::of(&["verify", "--files-from", "-", "register"])
                .reads(Text::Bytes(b"a\na"))
                .ends(1)
                .prints("a: group 1, transaction 0: not in the register as a.ack has it\n"),
            Step::of(&["verify", "--files-from", "-", "-"])
                .ends(2)
                .complains("standard input is named twice\n"),
        ],
    )
}
