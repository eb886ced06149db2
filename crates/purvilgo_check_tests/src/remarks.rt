//! The remarks of `check --long` and `check --json`, which are no faults: of the file `examples/remarks.v22`, of
//! records of each type, and of territories.

use std::alloc::Global;
use std::process::ExitCode;
use std::sync::Wait;
use std::test::Fail;
use std::thread::Threads;
use test_files::file_of_lines;
use test_program::{Fake, expect_program};

/// A file without faults and with four remarks. The title of its first work has an accented letter and is filled up in
/// letters.
const REMARKED: [&str; 14] = [
    "GRHNWR0000102.200000000001",
    "NWR0000000000000000CAF\u{c9} SONG                                                     W201",
    "SPU000000000000000101000000002PUBLISHER A                                   E                                      05000   05000   05000",
    "SPT0000000000000002000000002      050000500005000E0840 001",
    "SPT0000000000000003000000002      050000500005000E0826 001",
    "SWR0000000000000004000000001DOE                                          JANE                           CA                       05000   05000   05000N",
    "SWT0000000000000005000000001050000000000000E0840 001",
    "SWT0000000000000006000000001050000000000000I2136 001",
    "SWX0000000000000007000000003ROE                                          RICHARD                        CA                       00000   00000   00000",
    "NWR0000000100000000NIGHT SONG                                                    W202",
    "SWR0000000100000001000000001DOE                                          JANE                           CA                       10000   10000   10000",
    "PER0000000100000002THE BAND",
    "GRT000010000000200000013",
    "TRL000010000000200000015",
];

/// A check of a file. `rt` starts threads and waits, `words` is the command line, and `lines` are those of the file.
/// `status` is the status that it must have, and `wanted` what it must print.
fn expect_check<T: AllocGlobal + Threads + Wait + Sync>(
    rt: &T,
    words: &[&str],
    lines: &[&str],
    status: ExitCode,
    wanted: &str,
) -> Result<(), Fail> {
    let input = file_of_lines(rt.alloc(), lines)?;
    let fake = Fake::new(rt, words, &input);
    expect_program(fake, status, wanted.as_bytes(), "")
}

/// What a long check prints of this file.
fn expect_long<T: AllocGlobal + Threads + Wait + Sync>(
    rt: &T,
    lines: &[&str],
    status: ExitCode,
    wanted: &str,
) -> Result<(), Fail> {
    expect_check(
        rt,
        &["purvilgo", "check", "--long", "-"],
        lines,
        status,
        wanted,
    )
}

#[test]
fn tells_remarks_behind_the_report(rt: HostRuntime) -> Result<(), Fail> {
    expect_long(
        &rt,
        &REMARKED,
        ExitCode::SUCCESS,
        "2 transactions, 0 with faults\n\
remark, line 3: NWR: bytes above 126: 2, the first at position 23; an accented letter has two bytes in UTF-8, and shifts the rest of its line by one where its field is filled up in letters\n\
remark, line 4: SPU: all its territories are exclusions, and none is an inclusion: it collects nowhere\n\
remark, line 7: SWR: length 151, and the layout ends at 150; what stands after that is not read\n\
remark, line 10: SWX: CWR 2.2 has no record of this type; it is carried, and nothing more of it is read\n",
    )
}

#[test]
fn tells_no_remark_without_the_options(rt: HostRuntime) -> Result<(), Fail> {
    expect_check(
        &rt,
        &["purvilgo", "check", "-"],
        &REMARKED,
        ExitCode::SUCCESS,
        "00001 00000000 NWR ok\n00001 00000001 NWR ok\n2 transactions, 0 with faults\n",
    )
}

#[test]
fn tells_remarks_as_json(rt: HostRuntime) -> Result<(), Fail> {
    expect_check(
        &rt,
        &["purvilgo", "check", "--json", "-"],
        &REMARKED,
        ExitCode::SUCCESS,
        "{\"faults\":[],\"faulty\":0,\"refused\":false,\"remarks\":[{\"count\":2,\"first\":23,\"kind\":\"high bytes\",\"layout\":null,\"length\":null,\"line\":3,\"record\":\"NWR\",\"text\":\"bytes above 126: 2, the first at position 23; an accented letter has two bytes in UTF-8, and shifts the rest of its line by one where its field is filled up in letters\"},{\"count\":null,\"first\":null,\"kind\":\"only exclusions\",\"layout\":null,\"length\":null,\"line\":4,\"record\":\"SPU\",\"text\":\"all its territories are exclusions, and none is an inclusion: it collects nowhere\"},{\"count\":null,\"first\":null,\"kind\":\"past layout\",\"layout\":150,\"length\":151,\"line\":7,\"record\":\"SWR\",\"text\":\"length 151, and the layout ends at 150; what stands after that is not read\"},{\"count\":null,\"first\":null,\"kind\":\"unknown type\",\"layout\":null,\"length\":null,\"line\":10,\"record\":\"SWX\",\"text\":\"CWR 2.2 has no record of this type; it is carried, and nothing more of it is read\"}],\"transactions\":2}\n",
    )
}

/// The remarks of a line come in their order, behind all faults, and leave the status.
#[test]
fn tells_remarks_behind_faults(rt: HostRuntime) -> Result<(), Fail> {
    let lines = [
        "GRHNWR0000102.200000000001",
        "NWR0000000000000000SONG ONE                                                      W1            T0345246802",
        "SWR0000000000000001000000001DO\u{cb}                                          JANE                           CA                       10000   10000   10000",
        "SWX0000000000000002\u{fc}\u{fc}",
        "GRT000010000000100000005",
        "TRL000010000000100000007",
    ];
    expect_long(
        &rt,
        &lines,
        ExitCode::FAILURE,
        "line 3: NWR 0 of transaction 0 in group 1: J4 ISWC IS NOT VALID\n  \
ISWC, start 96, length 11: \"T0345246802\"\n  \
expected: T, these nine digits and their check digit 1\n\
line 4: SWR 1 of transaction 0 in group 1: J6 SHARE IS NOT VALID\n  \
PR ownership share, start 130, length 5: \" 1000\"\n  \
MR ownership share, start 138, length 5: \" 1000\"\n  \
SR ownership share, start 146, length 5: \" 1000\"\n  \
expected: five digits from 00000 to 10000, or blanks\n\
1 transactions, 1 with faults\n\
remark, line 4: SWR: bytes above 126: 2, the first at position 31; an accented letter has two bytes in UTF-8, and shifts the rest of its line by one where its field is filled up in letters\n\
remark, line 4: SWR: length 151, and the layout ends at 150; what stands after that is not read\n\
remark, line 5: SWX: bytes above 126: 4, the first at position 20; an accented letter has two bytes in UTF-8, and shifts the rest of its line by one where its field is filled up in letters\n\
remark, line 5: SWX: CWR 2.2 has no record of this type; it is carried, and nothing more of it is read\n",
    )
}

/// If a file is refused there are remarks on the lines before the faulty one, whatever that one and those after it
/// have.
#[test]
fn tells_remarks_before_the_fault_of_a_file(rt: HostRuntime) -> Result<(), Fail> {
    let lines = [
        "GRHNWR0000102.200000000001",
        "NWR0000000000000000SONG ONE                                                      W1",
        "SWX0000000000000001",
        "SWY0000000000000009\u{fc}",
        "SWZ0000000000000003\u{fc}",
        "GRT000010000000100000005",
        "TRL000010000000100000007",
    ];
    expect_long(
        &rt,
        &lines,
        ExitCode::FAILURE,
        "line 5: SWY 2 of transaction 0 in group 1: F8 transaction or record sequences do not run\n  \
record sequence, start 12, length 8: \"00000009\"\n  \
expected: transaction sequence 0, record sequence 2\n\
refused F8 at line 5\n\
remark, line 4: SWX: CWR 2.2 has no record of this type; it is carried, and nothing more of it is read\n",
    )
}

/// A record of each type that has a layout, and the position of its layout's last byte, as the profile has them.
const LAYOUTS: [(&str, usize); 17] = [
    (
        "HDRPB000000123PUBLISHER A                                  01.102024050112000020240501",
        167,
    ),
    ("GRHNWR0000102.200000000001", 28),
    (
        "NWR0000000000000000SONG ONE                                                      W1",
        194,
    ),
    ("SPU000000000000000101000000002", 136),
    ("SPT0000000000000002000000002      000000000000000I2136", 58),
    ("OPU0000000000000003", 136),
    ("SWR0000000000000004000000001", 150),
    ("SWT0000000000000005000000001000000000000000I2136", 52),
    ("PWR0000000000000006000000002", 110),
    ("OWR0000000000000007", 150),
    ("ALT0000000000000008OTHER NAME", 83),
    ("XRF0000000000000009", 38),
    ("GRT000010000000100000012", 37),
    ("GRHREV0000202.200000000001", 28),
    (
        "REV0000000000000000SONG ONE                                                      W1",
        194,
    ),
    ("OWR0000000000000001", 150),
    ("GRT000020000000100000004", 37),
];

/// These records, each filled with blanks to its layout and `more` bytes beyond it, and the trailer of the file.
fn filled(alloc: Global, more: usize) -> Result<Vec<u8>, Fail> {
    let mut text = Vec::new(alloc);
    for (line, layout) in LAYOUTS {
        put_filled(&mut text, line, layout.saturating_add(more))?;
    }
    put_filled(
        &mut text,
        "TRL000020000000200000018",
        24usize.saturating_add(more),
    )?;
    Ok(text)
}

fn put_filled(text: &mut Vec<u8>, line: &str, length: usize) -> Result<(), Fail> {
    text.extend_from_slice(line.as_bytes())?;
    for _ in 0..length.saturating_sub(line.len()) {
        text.push(b' ')?;
    }
    text.extend_from_slice(b"\r\n")?;
    Ok(())
}

/// What is printed of records that are a blank longer than their layouts.
const LONGER: &str = "2 transactions, 0 with faults\n\
remark, line 1: HDR: length 168, and the layout ends at 167; what stands after that is not read\n\
remark, line 2: GRH: length 29, and the layout ends at 28; what stands after that is not read\n\
remark, line 3: NWR: length 195, and the layout ends at 194; what stands after that is not read\n\
remark, line 4: SPU: length 137, and the layout ends at 136; what stands after that is not read\n\
remark, line 5: SPT: length 59, and the layout ends at 58; what stands after that is not read\n\
remark, line 6: OPU: length 137, and the layout ends at 136; what stands after that is not read\n\
remark, line 7: SWR: length 151, and the layout ends at 150; what stands after that is not read\n\
remark, line 8: SWT: length 53, and the layout ends at 52; what stands after that is not read\n\
remark, line 9: PWR: length 111, and the layout ends at 110; what stands after that is not read\n\
remark, line 10: OWR: length 151, and the layout ends at 150; what stands after that is not read\n\
remark, line 11: ALT: length 84, and the layout ends at 83; what stands after that is not read\n\
remark, line 12: XRF: length 39, and the layout ends at 38; what stands after that is not read\n\
remark, line 13: GRT: length 38, and the layout ends at 37; what stands after that is not read\n\
remark, line 14: GRH: length 29, and the layout ends at 28; what stands after that is not read\n\
remark, line 15: REV: length 195, and the layout ends at 194; what stands after that is not read\n\
remark, line 16: OWR: length 151, and the layout ends at 150; what stands after that is not read\n\
remark, line 17: GRT: length 38, and the layout ends at 37; what stands after that is not read\n\
remark, line 18: TRL: length 25, and the layout ends at 24; what stands after that is not read\n";

#[test]
fn tells_lines_that_go_past_their_layouts(rt: HostRuntime) -> Result<(), Fail> {
    let alloc = rt.alloc();
    for (more, wanted) in [(0, "2 transactions, 0 with faults\n"), (1, LONGER)] {
        let input = filled(alloc, more)?;
        let fake = Fake::new(&rt, &["purvilgo", "check", "--long", "-"], &input);
        expect_program(fake, ExitCode::SUCCESS, wanted.as_bytes(), "")?;
    }
    Ok(())
}

/// Records of each other type of CWR 2.2 stand in a work without a remark.
#[test]
fn knows_the_types_of_the_standard(rt: HostRuntime) -> Result<(), Fail> {
    let lines = [
        "GRHNWR0000102.200000000001",
        "NWR0000000000000000SONG ONE                                                      W1",
        "NPN0000000000000001",
        "OPT0000000000000002",
        "NWN0000000000000003",
        "OWR0000000000000004",
        "OWT0000000000000005",
        "NOW0000000000000006",
        "NAT0000000000000007",
        "EWT0000000000000008",
        "NET0000000000000009",
        "VER0000000000000010",
        "NVT0000000000000011",
        "PER0000000000000012",
        "NPR0000000000000013",
        "REC0000000000000014",
        "ORN0000000000000015",
        "INS0000000000000016",
        "IND0000000000000017",
        "COM0000000000000018",
        "NCT0000000000000019",
        "ARI0000000000000020",
        "TER0000000000000021",
        "IPA0000000000000022",
        "NPA0000000000000023",
        "MSG0000000000000024",
        "WRK0000000000000025",
        "GRT000010000000100000028",
        "TRL000010000000100000030",
    ];
    expect_long(
        &rt,
        &lines,
        ExitCode::SUCCESS,
        "1 transactions, 0 with faults\n\
remark, line 28: WRK: CWR 2.2 has no record of this type; it is carried, and nothing more of it is read\n",
    )
}

/// Territories count for the last SPU, or SWR, before them, up to the end of the transaction.
#[test]
fn tells_of_whom_all_territories_are_exclusions(rt: HostRuntime) -> Result<(), Fail> {
    let lines = [
        "GRHNWR0000102.200000000001",
        "NWR0000000000000000SONG ONE                                                      W1",
        "SPU000000000000000101000000002",
        "SPU000000000000000201000000004",
        "SPT0000000000000003000000004      000000000000000E0840",
        "SPT0000000000000004000000004      000000000000000I2136",
        "SWR0000000000000005000000001",
        "SWT0000000000000006000000001000000000000000E0840",
        "PWR0000000000000007",
        "SWT0000000000000008000000001000000000000000E0826",
        "SWR0000000000000009000000003",
        "PER0000000000000010",
        "SWT0000000000000011000000003000000000000000E0840",
        "NWR0000000100000000SONG TWO                                                      W2",
        "SPU000000010000000101000000002",
        "SPT0000000100000002000000002      000000000000000E0840",
        "OPU0000000100000003",
        "SWR0000000100000004000000001",
        "SWT0000000100000005000000001000000000000000I2136",
        "GRT000010000000200000020",
        "TRL000010000000200000022",
    ];
    expect_long(
        &rt,
        &lines,
        ExitCode::SUCCESS,
        "2 transactions, 0 with faults\n\
remark, line 8: SWR: all its territories are exclusions, and none is an inclusion: it collects nowhere\n\
remark, line 12: SWR: all its territories are exclusions, and none is an inclusion: it collects nowhere\n\
remark, line 16: SPU: all its territories are exclusions, and none is an inclusion: it collects nowhere\n",
    )
}

/// An indicator that is neither I nor E is a fault, and no exclusion.
#[test]
fn tells_no_exclusions_where_an_indicator_is_wrong(rt: HostRuntime) -> Result<(), Fail> {
    let lines = [
        "GRHNWR0000102.200000000001",
        "NWR0000000000000000SONG ONE                                                      W1",
        "SWR0000000000000001000000001",
        "SWT0000000000000002000000001000000000000000E0840",
        "SWT0000000000000003000000001000000000000000X2136",
        "GRT000010000000100000006",
        "TRL000010000000100000008",
    ];
    expect_long(
        &rt,
        &lines,
        ExitCode::FAILURE,
        "line 6: SWT 3 of transaction 0 in group 1: J14 INDICATOR OR TERRITORY IS NOT VALID\n  \
inclusion/exclusion indicator, start 44, length 1: \"X\"\n  \
expected: the indicator I or E, and a code of one to four digits\n\
1 transactions, 1 with faults\n",
    )
}
