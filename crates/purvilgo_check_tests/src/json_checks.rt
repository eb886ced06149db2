//! What `check --json` prints: one object on one line, of files with faults and without.

use purvilgo_command::run_program;
use std::process::ExitCode;
use std::sync::Wait;
use std::test::Fail;
use std::thread::Threads;
use test_comparisons::{same, same_bytes};
use test_files::{file_of_lines, miscounted, plain_file};
use test_program::{Fake, expect_program};

/// What is printed of this file, with this status.
fn expect_json<T: AllocGlobal + Threads + Wait + Sync>(
    rt: &T,
    input: &[u8],
    status: ExitCode,
    wanted: &str,
) -> Result<(), Fail> {
    let fake = Fake::new(rt, &["purvilgo", "check", "--json", "-"], input);
    expect_program(fake, status, wanted.as_bytes(), "")
}

#[test]
fn tells_that_nothing_is_wrong(rt: HostRuntime) -> Result<(), Fail> {
    let input = plain_file(rt.alloc())?;
    expect_json(
        &rt,
        &input,
        ExitCode::SUCCESS,
        "{\"faults\":[],\"faulty\":0,\"refused\":false,\"remarks\":[],\"transactions\":1}\n",
    )
}

#[test]
fn tells_the_faults_of_transactions(rt: HostRuntime) -> Result<(), Fail> {
    let lines = [
        "GRHNWR0000102.200000000001",
        "NWR0000000000000000                                                              W1            T0345246802",
        "SWR0000000000000001000000001DOE                                                                         CA",
        "GRT000010000000100000004",
        "TRL000010000000100000006",
    ];
    let input = file_of_lines(rt.alloc(), &lines)?;
    let wanted =
        "{\"faults\":[{\"byte\":null,\"expected\":\"a title that is not blank\",\"fields\":[{\"bytes\":\"                                                            \",\"length\":60,\"name\":\"work title\",\"start\":20}],\"group\":1,\"line\":3,\"record\":\"NWR\",\"rule\":\"J2\",\"sequence\":0,\"text\":\"TITLE IS BLANK\",\"transaction\":0},{\"byte\":null,\"expected\":\"T, these nine digits and their check digit 1\",\"fields\":[{\"bytes\":\"T0345246802\",\"length\":11,\"name\":\"ISWC\",\"start\":96}],\"group\":1,\"line\":3,\"record\":\"NWR\",\"rule\":\"J4\",\"sequence\":0,\"text\":\"ISWC IS NOT VALID\",\"transaction\":0}],\"faulty\":1,\"refused\":false,\"remarks\":[],\"transactions\":1}\n";
    expect_json(&rt, &input, ExitCode::FAILURE, wanted)
}

#[test]
fn tells_the_fault_of_a_file(rt: HostRuntime) -> Result<(), Fail> {
    let input = miscounted(rt.alloc())?;
    let wanted =
        "{\"faults\":[{\"byte\":null,\"expected\":\"transaction count 1, record count 4\",\"fields\":[{\"bytes\":\"00000002\",\"length\":8,\"name\":\"record count\",\"start\":17}],\"group\":1,\"line\":5,\"record\":\"GRT\",\"rule\":\"F9\",\"sequence\":null,\"text\":\"the counts of GRT are not those of the group\",\"transaction\":null}],\"faulty\":0,\"refused\":true,\"remarks\":[],\"transactions\":0}\n";
    expect_json(&rt, &input, ExitCode::FAILURE, wanted)
}

#[test]
fn tells_the_place_of_a_byte(rt: HostRuntime) -> Result<(), Fail> {
    let input =
        b"HDRPB000000123PUBLISHER A                                  01.102024050112000020240501\r\nGRH\tNWR\r\n";
    let wanted =
        "{\"faults\":[{\"byte\":{\"byte\":9,\"in_file\":92,\"in_line\":4},\"expected\":\"no byte below 32\",\"fields\":[],\"group\":1,\"line\":2,\"record\":\"GRH\",\"rule\":\"F2\",\"sequence\":null,\"text\":\"a control character in a line\",\"transaction\":null}],\"faulty\":0,\"refused\":true,\"remarks\":[],\"transactions\":0}\n";
    expect_json(&rt, input, ExitCode::FAILURE, wanted)
}

#[test]
fn tells_each_byte_as_the_character_with_its_number(rt: HostRuntime) -> Result<(), Fail> {
    let mark =
        "{\"count\":null,\"first\":null,\"kind\":\"byte order mark\",\"layout\":null,\"length\":null,\"line\":1,\"record\":null,\"text\":\"the file begins with a byte order mark of UTF-8, which is no part of CWR; write it without one\"}";
    let cases: [(&[u8], &str, &str); 3] = [
        (b"\xef\xbb\xbfHDR", "\u{ef}\u{bb}\u{bf}", mark),
        (b"\xff\x80\x7fHDR", "\u{ff}\u{80}\u{7f}", ""),
        (b"H\t\"HDR", "H\\t\\\"", ""),
    ];
    for (input, told, remarked) in cases {
        let alloc = rt.alloc();
        let wanted = format!(in alloc;
            "{{\"faults\":[{{\"byte\":null,\"expected\":\"HDR\",\"fields\":[{{\"bytes\":\"{told}\",\"length\":3,\"name\":\"record type\",\"start\":1}}],\"group\":null,\"line\":1,\"record\":null,\"rule\":\"F1\",\"sequence\":null,\"text\":\"the file does not begin with HDR\",\"transaction\":null}}],\"faulty\":0,\"refused\":true,\"remarks\":[{remarked}],\"transactions\":0}}\n"
        )?;
        expect_json(&rt, input, ExitCode::FAILURE, wanted.as_str())?;
    }
    Ok(())
}

/// Nothing must be printed on standard output, and standard error must name the word that is not taken.
fn expect_not_taken(ended: ExitCode, printed: &[u8], told: &str) -> Result<(), Fail> {
    same_bytes("its standard output", printed, b"")?;
    same("--json", &told.contains("--json"), &true)?;
    same("its status", &ended, &ExitCode::from(2))
}

#[test]
fn is_not_taken_with_the_other_forms(rt: HostRuntime) -> Result<(), Fail> {
    for form in ["--long", "--quiet"] {
        let words = ["purvilgo", "check", form, "--json", "-"];
        let fake = Fake::new(&rt, &words, b"");
        let ended = run_program(&fake);
        let (printed, told) = fake.into_texts();
        expect_not_taken(ended, &printed, &told)?;
    }
    Ok(())
}
