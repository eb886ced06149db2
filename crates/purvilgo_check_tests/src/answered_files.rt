//! What `answer` makes again from a register and a file, and what it prints if it makes nothing.

use std::sync::Wait;
use std::test::Fail;
use std::thread::Threads;
use test_files::{SENDER, work_twice};
use test_program::{Given, Step, Text, expect_play};

/// A register of one entry that has none.
const MISPLACED: &[u8] = b"REG00000001\n";

/// Words behind those of the stamp, the status, and what is printed on standard output and on standard error.
type Case<'a> = (&'a [&'a str], u8, Text<'a>, &'a str);

/// No text.
const NOTHING: Text = Text::Bytes(b"");

/// Each of these must end as it says.
fn expect_cases<T: AllocGlobal + Threads + Wait + Sync>(
    rt: &T,
    given: &[(&str, Given)],
    cases: &[Case],
) -> Result<(), Fail> {
    for case in cases {
        expect_case(rt, given, *case)?;
    }
    Ok(())
}

/// This must end as it says.
fn expect_case<T: AllocGlobal + Threads + Wait + Sync>(
    rt: &T,
    given: &[(&str, Given)],
    case: Case,
) -> Result<(), Fail> {
    let (more, status, printed, complained) = case;
    let step = Step::stamped("answer", more)
        .reads(Text::Register(1))
        .ends(status)
        .gives(printed)
        .complains(complained);
    expect_play(rt, given, &[], &[step])
}

/// The file was taken on two nights, and `register` is that of the second one.
#[test]
fn makes_an_acknowledgement_again(rt: HostRuntime) -> Result<(), Fail> {
    let given = [
        ("register", Given::Holds(Text::Register(2))),
        ("a", Given::Holds(Text::Plain)),
    ];
    expect_cases(
        &rt,
        &given,
        &[
            (&["register", "a"], 0, Text::Answer("DU"), ""),
            (
                &["--entry", "1", "register", "a"],
                0,
                Text::Answer("AS"),
                "",
            ),
            (
                &["register", "a", "--entry", "00000002"],
                0,
                Text::Answer("DU"),
                "",
            ),
            (&["-", "a"], 0, Text::Answer("AS"), ""),
        ],
    )
}

#[test]
fn tells_what_no_entry_answers(rt: HostRuntime) -> Result<(), Fail> {
    let twice = work_twice(rt.alloc(), SENDER)?;
    let given = [
        ("register", Given::Holds(Text::Register(3))),
        ("first", Given::Holds(Text::Register(1))),
        ("a", Given::Holds(Text::Plain)),
        ("b", Given::Holds(Text::FirstClaim)),
        ("twice", Given::Holds(Text::Bytes(&twice))),
    ];
    expect_cases(
        &rt,
        &given,
        &[
            (
                &["register", "b"],
                1,
                NOTHING,
                "b: group 1, transaction 0: no entry of the register answers it\n",
            ),
            (
                &["first", "twice"],
                1,
                NOTHING,
                "twice: group 1, transaction 1: no entry of the register answers it\n",
            ),
            (
                &["--entry", "3", "register", "twice"],
                1,
                NOTHING,
                "twice: group 1, transaction 1: no entry from 3 on answers it\n",
            ),
            (
                &["--entry", "1", "register", "b"],
                1,
                NOTHING,
                "b: entry 1 is not of its first transaction\n",
            ),
            (
                &["--entry", "4", "register", "a"],
                1,
                NOTHING,
                "a: entry 4 is not of its first transaction\n",
            ),
        ],
    )
}

#[test]
fn tells_what_cannot_be_read(rt: HostRuntime) -> Result<(), Fail> {
    let given = [
        ("register", Given::Holds(Text::Register(1))),
        ("misplaced", Given::Holds(Text::Bytes(MISPLACED))),
        ("a", Given::Holds(Text::Plain)),
        ("c", Given::Holds(Text::Miscounted)),
        ("endless", Given::Endless),
    ];
    expect_cases(
        &rt,
        &given,
        &[
            (&["register", "c"], 1, NOTHING, "c: refused F9 at line 5\n"),
            (&["register", "endless"], 1, NOTHING, "endless: too long\n"),
            (
                &["register", "absent"],
                1,
                NOTHING,
                "absent: stopped: read\n",
            ),
            (
                &["misplaced", "a"],
                1,
                NOTHING,
                "register: refused G2 at line 2\n",
            ),
            (&["absent", "a"], 1, NOTHING, "register: stopped: read\n"),
            (
                &["--entry", "0", "absent", "a"],
                2,
                NOTHING,
                "bad --entry\n",
            ),
            (
                &["--entry", "000000001", "absent", "a"],
                2,
                NOTHING,
                "bad --entry\n",
            ),
            (
                &["--entry", "1x", "absent", "a"],
                2,
                NOTHING,
                "bad --entry\n",
            ),
        ],
    )
}

/// The options of the stamp are those of a run, and their fault is printed first.
#[test]
fn takes_the_stamp_of_a_run(rt: HostRuntime) -> Result<(), Fail> {
    let words = [
        ["07", "N", "20240601", "090000", "bad --society\n"],
        ["007", "", "20240601", "090000", "bad --name\n"],
        ["007", "N", "20240230", "090000", "bad --date\n"],
        ["007", "N", "20240601", "240000", "bad --time\n"],
    ];
    for [society, name, date, time, complained] in words {
        let line = [
            "answer",
            "--society",
            society,
            "--name",
            name,
            "--date",
            date,
            "--time",
            time,
            "--entry",
            "0",
            "absent",
            "a",
        ];
        let step = Step::of(&line).ends(2).complains(complained);
        expect_play(&rt, &[], &[], &[step])?;
    }
    Ok(())
}

#[test]
fn tells_that_it_is_cut(rt: HostRuntime) -> Result<(), Fail> {
    let given = [
        ("register", Given::Holds(Text::Register(1))),
        ("a", Given::Holds(Text::Plain)),
    ];
    let step = Step::stamped("answer", &["register", "a"])
        .taking(100)
        .ends(1)
        .gives(Text::Front("AS", 100))
        .complains("standard output: stopped: write after 100 bytes\n");
    expect_play(&rt, &given, &[], &[step])
}
