//! Files that come from a list of their names.

use purvilgo_command::run_program;
use std::process::ExitCode;
use std::sync::Wait;
use std::test::Fail;
use std::thread::Threads;
use test_comparisons::same;
use test_program::{Fake, Given, Kept, Step, Text, expect_play, run_with};

/// Lists with a fault, each by its name.
const BAD_LISTS: [(&str, Given); 9] = [
    ("none", Given::Holds(Text::Bytes(b""))),
    ("gap", Given::Holds(Text::Bytes(b"a\n\nb\n"))),
    ("bytes", Given::Holds(Text::Bytes(b"a\nb\n\xff\n"))),
    ("nuls", Given::Holds(Text::Bytes(b"a\0\0b"))),
    ("twice", Given::Holds(Text::Bytes(b"a\nb\na\n"))),
    ("answered", Given::Holds(Text::Bytes(b"a.ack\nb\na\n"))),
    ("drafted", Given::Holds(Text::Bytes(b"a.ack.new\nb\na\n"))),
    ("right", Given::Holds(Text::Bytes(b"a\nb"))),
    ("a", Given::Broken),
];

/// Nothing is printed of the files: none is read.
#[test]
fn refuses_a_bad_list(rt: HostRuntime) -> Result<(), Fail> {
    let cases: [(&[&str], u8, &str); 10] = [
        (&["--files-from", "none"], 2, "none: no names\n"),
        (&["--files-from", "gap"], 2, "gap: line 2: an empty name\n"),
        (
            &["--files-from", "bytes"],
            2,
            "bytes: line 3: a name that is not text\n",
        ),
        (
            &["--files-from", "nuls", "--null"],
            2,
            "nuls: line 2: an empty name\n",
        ),
        (&["--files-from", "twice"], 2, "file named twice\n"),
        (&["--files-from", "answered"], 2, "file named twice\n"),
        (&["--files-from", "drafted"], 2, "file used twice\n"),
        (
            &["--files-from", "right", "--to", "b"],
            2,
            "file used twice\n",
        ),
        (&["--files-from", "absent"], 1, "absent: stopped: read\n"),
        (&["--files-from", "-"], 2, "-: no names\n"),
    ];
    for (words, status, complaint) in cases {
        let step = Step::run(words).ends(status).complains(complaint);
        expect_play(&rt, &BAD_LISTS, &[], &[step])?;
    }
    Ok(())
}

/// Words that are not taken: nothing is printed on standard output, and standard error names this option.
fn expect_not_taken<T: AllocGlobal + Threads + Wait + Sync>(
    rt: &T,
    more: &[&str],
    option: &str,
) -> Result<(), Fail> {
    let words = run_with(rt.alloc(), more)?;
    let fake = Fake::new(rt, &words, b"");
    let ended = run_program(&fake);
    let (printed, told) = fake.into_texts();
    same(option, &told.contains(option), &true)?;
    same("bytes printed", &printed.len(), &0)?;
    same("its status", &ended, &ExitCode::from(2))
}

#[test]
fn takes_a_list_or_files(rt: HostRuntime) -> Result<(), Fail> {
    expect_not_taken(&rt, &["--files-from", "list", "a"], "--files-from")?;
    expect_not_taken(&rt, &["--null", "a"], "--null")?;
    expect_not_taken(&rt, &["--in-order"], "<FILE>")
}

/// Names are as free as words: one of them begins with a dash, one is a dash, and one has a blank at its end. Of two
/// claims to one work that of the file named first is accepted.
#[test]
fn runs_the_files_of_a_list_in_order(rt: HostRuntime) -> Result<(), Fail> {
    let accepted = Text::Answer("AS");
    let conflict = Text::Answer("CO");
    let empty = Text::Bytes(b"");
    expect_play(
        &rt,
        &[
            ("--to", Given::Holds(Text::FirstClaim)),
            ("-", Given::Holds(Text::SecondClaim)),
            ("absent ", Given::Broken),
            ("list", Given::Holds(Text::Bytes(b"--to\n-\n"))),
        ],
        &[Kept::new("--to.ack", empty), Kept::new("-.ack", empty)],
        &[
            Step::run(&["--files-from", "list"])
                .prints("--to: acknowledged 1\n-: acknowledged 1\n")
                .leaves(&[("--to.ack", accepted), ("-.ack", conflict)]),
            Step::run(&["--files-from", "-", "-0", "--in-turn"])
                .reads(Text::Bytes(b"-\0absent \0--to"))
                .ends(1)
                .prints("-: acknowledged 1\nabsent : stopped after 0: read\n--to: acknowledged 1\n")
                .leaves(&[("--to.ack", conflict), ("-.ack", accepted)]),
        ],
    )
}
