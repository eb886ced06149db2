//! Words that are not text, and empty ones, for the name of a file.

use std::process::ExitCode;
use std::test::Fail;
use test_program::{Fake, Given, Kept, Step, Text, expect_play, expect_program};

/// The first such word is printed by its number and its bytes.
#[test]
fn tells_which_word_is_not_text(rt: HostRuntime) -> Result<(), Fail> {
    let words = ["purvilgo", "check", "a", "b"];
    for (number, bytes, told) in [
        (0, b"\xC3".as_slice(), "word 0: \\xC3\n"),
        (
            2,
            b"in/caf\xE9 ~.v22".as_slice(),
            "word 2: in/caf\\xE9 ~.v22\n",
        ),
        (
            3,
            b"\x1B[2J\x7F\xFF\\".as_slice(),
            "word 3: \\x1B[2J\\x7F\\xFF\\\n",
        ),
    ] {
        let complained = format!(in rt.alloc(); "a word of the command line is not text\n{told}")?;
        let fake = Fake::new(&rt, &words, b"").with_word(number, bytes);
        expect_program(fake, ExitCode::from(2), b"", &complained)?;
    }
    Ok(())
}

/// An empty word is the name of a file that cannot be opened.
#[test]
fn opens_no_empty_name_for_a_run(rt: HostRuntime) -> Result<(), Fail> {
    let unwritten = "register: stopped: write after 0 bytes\n";
    expect_play(
        &rt,
        &[("a", Given::Holds(Text::Plain))],
        &[Kept::new("a.ack", Text::Bytes(b""))],
        &[
            Step::run(&["--to", "", "a"]).ends(1).complains(unwritten),
            Step::run(&["--to=", "--from=", "a"])
                .ends(1)
                .complains(unwritten),
            Step::run(&["--from", "", "a", ""])
                .ends(1)
                .complains("register: stopped: read\n")
                .leaves(&[("a.ack", Text::Bytes(b""))]),
            Step::run(&["", "a"])
                .ends(1)
                .prints(": stopped after 0: read\na: acknowledged 1\n")
                .leaves(&[("a.ack", Text::Answer("AS"))]),
            Step::run(&["", "a", "a"])
                .ends(2)
                .complains("file named twice\n"),
        ],
    )
}

#[test]
fn opens_no_empty_name_for_what_is_told(rt: HostRuntime) -> Result<(), Fail> {
    let book = Given::Holds(Text::Bytes(b"REG00000000\n"));
    let none = "stopped: read\n";
    expect_play(
        &rt,
        &[("a", Given::Holds(Text::Plain)), ("book", book)],
        &[],
        &[
            Step::of(&["check", ""]).ends(1).complains(none),
            Step::of(&["audit", ""]).ends(1).complains(none),
            Step::of(&["claims", ""]).ends(1).complains(none),
            Step::of(&["works", ""]).ends(1).complains(none),
            Step::of(&["history", ""]).ends(1).complains(none),
            Step::of(&["summary", ""]).ends(1).complains(none),
            Step::of(&["verify", "", "a"]).ends(1).complains(none),
            Step::of(&["verify", "book", "", "a"])
                .ends(1)
                .complains(": stopped: read\n"),
            Step::of(&["verify", "--ack", "", "book", "a"])
                .ends(1)
                .complains(": stopped: read\n"),
            Step::stamped("answer", &["book", ""])
                .ends(1)
                .complains(": stopped: read\n"),
        ],
    )
}
