//! What `check` prints of several files, and what of faults alone.

use std::test::Fail;
use test_program::{Given, Step, Text, expect_play};

/// A file of two works, of which the first has no title.
const FAULTY: [&str; 7] = [
    "GRHNWR0000102.200000000001",
    "NWR0000000000000000                                                              W1",
    "OWR0000000000000001",
    "NWR0000000100000000SONG TWO                                                      W2",
    "OWR0000000100000001",
    "GRT000010000000200000006",
    "TRL000010000000200000008",
];

/// A file without faults, and with remarks.
const REMARKED: [&str; 6] = [
    "GRHNWR0000102.200000000001",
    "NWR0000000000000000SONG ONE                                                      W1",
    "OWR0000000000000001",
    "SWX0000000000000002",
    "GRT000010000000100000005",
    "TRL000010000000100000007",
];

/// The files: one without faults, one with, one that is refused, one with a remark, and one that cannot be read. Any
/// other name is that of no file.
const FILES: [(&str, Given); 5] = [
    ("clean", Given::Holds(Text::Plain)),
    ("faulty", Given::Holds(Text::Lines(&FAULTY))),
    ("refused", Given::Holds(Text::Miscounted)),
    ("remarked", Given::Holds(Text::Lines(&REMARKED))),
    ("broken", Given::Broken),
];

/// Each line has the name of its file. A file that cannot be read is reported with its name too, and stops no other.
#[test]
fn tells_several_files(rt: HostRuntime) -> Result<(), Fail> {
    expect_play(
        &rt,
        &FILES,
        &[],
        &[
            Step::of(&[
                "check", "clean", "faulty", "absent", "refused", "broken", "-",
            ])
            .reads(Text::Plain)
            .ends(1)
            .prints(
                "clean: 00001 00000000 NWR ok\n\
clean: 1 transactions, 0 with faults\n\
faulty: 00001 00000000 NWR rejected 0:J2\n\
faulty: 00001 00000001 NWR ok\n\
faulty: 2 transactions, 1 with faults\n\
refused: refused F9 at line 5\n\
-: 00001 00000000 NWR ok\n\
-: 1 transactions, 0 with faults\n",
            )
            .complains("absent: stopped: read\nbroken: stopped: read\n"),
            Step::of(&["check", "remarked", "clean"]).prints(
                "remarked: 00001 00000000 NWR ok\n\
remarked: 1 transactions, 0 with faults\n\
clean: 00001 00000000 NWR ok\n\
clean: 1 transactions, 0 with faults\n",
            ),
            Step::of(&["check", "absent", "clean"])
                .ends(1)
                .prints(
                    "clean: 00001 00000000 NWR ok\n\
clean: 1 transactions, 0 with faults\n",
                )
                .complains("absent: stopped: read\n"),
        ],
    )
}

#[test]
fn tells_several_files_to_a_person(rt: HostRuntime) -> Result<(), Fail> {
    expect_play(
        &rt,
        &FILES,
        &[],
        &[
            Step::of(&["check", "--long", "faulty", "remarked"])
                .ends(1)
                .prints(
                    "faulty: line 3: NWR 0 of transaction 0 in group 1: J2 TITLE IS BLANK\n\
faulty:   work title, start 20, length 60: \"                                                            \"\n\
faulty:   expected: a title that is not blank\n\
faulty: 2 transactions, 1 with faults\n\
remarked: 1 transactions, 0 with faults\n\
remarked: remark, line 5: SWX: CWR 2.2 has no record of this type; it is carried, and nothing more of it is read\n",
                ),
        ],
    )
}

/// An object a file, each on its line.
#[test]
fn tells_several_files_as_json(rt: HostRuntime) -> Result<(), Fail> {
    expect_play(
        &rt,
        &FILES,
        &[],
        &[
            Step::of(&["check", "--json", "clean", "absent", "remarked"])
                .ends(1)
                .prints(
                    "{\"faults\":[],\"faulty\":0,\"file\":\"clean\",\"refused\":false,\"remarks\":[],\"transactions\":1}\n\
{\"faults\":[],\"faulty\":0,\"file\":\"remarked\",\"refused\":false,\"remarks\":[{\"count\":null,\"first\":null,\"kind\":\"unknown type\",\"layout\":null,\"length\":null,\"line\":5,\"record\":\"SWX\",\"text\":\"CWR 2.2 has no record of this type; it is carried, and nothing more of it is read\"}],\"transactions\":1}\n",
                )
                .complains("absent: stopped: read\n"),
            Step::of(&["check", "--json", "clean", "-"])
                .reads(Text::Plain)
                .prints(
                    "{\"faults\":[],\"faulty\":0,\"file\":\"clean\",\"refused\":false,\"remarks\":[],\"transactions\":1}\n\
{\"faults\":[],\"faulty\":0,\"file\":\"-\",\"refused\":false,\"remarks\":[],\"transactions\":1}\n",
                ),
        ],
    )
}

#[test]
fn tells_faults_alone(rt: HostRuntime) -> Result<(), Fail> {
    expect_play(
        &rt,
        &FILES,
        &[],
        &[
            Step::of(&["check", "--quiet", "clean"]),
            Step::of(&["check", "--quiet", "faulty"])
                .ends(1)
                .prints("00001 00000000 NWR rejected 0:J2\n"),
            Step::of(&["check", "--quiet", "refused"])
                .ends(1)
                .prints("refused F9 at line 5\n"),
            Step::of(&["check", "--quiet", "broken"])
                .ends(1)
                .complains("stopped: read\n"),
            Step::of(&["check", "--quiet", "clean", "faulty", "broken", "refused"])
                .ends(1)
                .prints(
                    "faulty: 00001 00000000 NWR rejected 0:J2\n\
refused: refused F9 at line 5\n",
                )
                .complains("broken: stopped: read\n"),
            Step::of(&["check", "clean", "remarked", "--quiet"]),
        ],
    )
}

/// Remarks are no faults.
#[test]
fn tells_faults_alone_to_a_person(rt: HostRuntime) -> Result<(), Fail> {
    expect_play(
        &rt,
        &FILES,
        &[],
        &[
            Step::of(&["check", "--long", "--quiet", "remarked"]),
            Step::of(&["check", "--quiet", "--long", "faulty"])
                .ends(1)
                .prints(
                    "line 3: NWR 0 of transaction 0 in group 1: J2 TITLE IS BLANK\n  \
work title, start 20, length 60: \"                                                            \"\n  \
expected: a title that is not blank\n",
                ),
            Step::of(&["check", "--quiet", "--long", "remarked", "-"])
                .reads(Text::Bytes(b"\xef\xbb\xbfHDR"))
                .ends(1)
                .prints(
                    "-: line 1: no record type: F1 the file does not begin with HDR\n\
-:   record type, start 1, length 3: \"\\xEF\\xBB\\xBF\"\n\
-:   expected: HDR\n\
-: refused F1 at line 1\n",
                ),
        ],
    )
}

/// Once standard output has failed no more files are read.
#[test]
fn stops_where_standard_output_fails(rt: HostRuntime) -> Result<(), Fail> {
    expect_play(
        &rt,
        &FILES,
        &[],
        &[
            Step::of(&["check", "clean", "absent", "faulty"])
                .taking(30)
                .ends(1)
                .prints("clean: 00001 00000000 NWR ok\nc")
                .complains("standard output: stopped: write after 30 bytes\n"),
            Step::of(&["check", "--quiet", "clean", "remarked"]).taking(0),
            Step::of(&["check", "--quiet", "clean", "refused", "absent"])
                .taking(0)
                .ends(1)
                .complains("standard output: stopped: write after 0 bytes\n"),
        ],
    )
}

/// In a list `-` is a file of that name.
#[test]
fn tells_the_files_of_a_list(rt: HostRuntime) -> Result<(), Fail> {
    let ok = "00001 00000000 NWR ok\n1 transactions, 0 with faults\n";
    expect_play(
        &rt,
        &[
            ("./-", Given::Holds(Text::Plain)),
            ("refused", Given::Holds(Text::Miscounted)),
            ("list", Given::Holds(Text::Bytes(b"-\nrefused\nabsent"))),
            ("one", Given::Holds(Text::Bytes(b"-\0"))),
            ("gap", Given::Holds(Text::Bytes(b"\n"))),
        ],
        &[],
        &[
            Step::of(&["check", "--files-from", "list"])
                .ends(1)
                .prints(
                    "-: 00001 00000000 NWR ok\n\
-: 1 transactions, 0 with faults\n\
refused: refused F9 at line 5\n",
                )
                .complains("absent: stopped: read\n"),
            Step::of(&["check", "--null", "--files-from", "one"]).prints(ok),
            Step::of(&["check", "--files-from", "gap"])
                .ends(2)
                .complains("gap: line 1: an empty name\n"),
        ],
    )
}
