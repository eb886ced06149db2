//! The remarks of `check --long` and `check --json` on the file itself: what it begins with, that a second one follows
//! it, and values in its HDR.

use std::alloc::Global;
use std::process::ExitCode;
use std::sync::Wait;
use std::test::Fail;
use std::thread::Threads;
use test_program::{Fake, expect_program};

/// A file without groups.
const EMPTY: &[u8] =
    b"HDRPB000000123PUBLISHER A                                  01.102024050112000020240501\r\nTRL000000000000000000002\r\n";

/// A check of a file. `rt` starts threads and waits, `form` is the option for the form, and `input` is the file.
/// `status` is the status that it must have, and `wanted` what it must print.
fn expect_check<T: AllocGlobal + Threads + Wait + Sync>(
    rt: &T,
    form: &str,
    input: &[u8],
    status: ExitCode,
    wanted: &str,
) -> Result<(), Fail> {
    let words = ["purvilgo", "check", form, "-"];
    let fake = Fake::new(rt, &words, input);
    expect_program(fake, status, wanted.as_bytes(), "")
}

/// Files that do not begin as a text of CWR: the three bytes there as they are shown, and the remark.
const BEGINNINGS: [(&[u8], &str, &str); 5] = [
    (
        b"\xef\xbb\xbf",
        "\\xEF\\xBB\\xBF",
        "remark, line 1: the file begins with a byte order mark of UTF-8, which is no part of CWR; write it without one\n",
    ),
    (
        b"\xff\xfeH\x00D\x00R\x00",
        "\\xFF\\xFEH",
        "remark, line 1: the file is UTF-16, which has two bytes for a letter; write it in ASCII, with one byte for a letter\n",
    ),
    (
        b"\xfe\xff\x00H\x00D\x00R",
        "\\xFE\\xFF\\x00",
        "remark, line 1: the file is UTF-16, which has two bytes for a letter; write it in ASCII, with one byte for a letter\n",
    ),
    (
        b"\x1f\x8b\x08\x00",
        "\\x1F\\x8B\\x08",
        "remark, line 1: the file is compressed by gzip; unpack it, and send what is in it\n",
    ),
    (b"\xef\xbb\x7f", "\\xEF\\xBB\\x7F", ""),
];

#[test]
fn tells_what_a_file_begins_with(rt: HostRuntime) -> Result<(), Fail> {
    for (begin, told, remark) in BEGINNINGS {
        let alloc = rt.alloc();
        let mut input = Vec::new(alloc);
        input.extend_from_slice(begin)?;
        input.extend_from_slice(EMPTY)?;
        let wanted = format!(in alloc;
            "line 1: no record type: F1 the file does not begin with HDR\n  record type, start 1, length 3: \"{told}\"\n  expected: HDR\nrefused F1 at line 1\n{remark}"
        )?;
        expect_check(&rt, "--long", &input, ExitCode::FAILURE, wanted.as_str())?;
    }
    Ok(())
}

/// Two files, one behind the other, with lines of blanks between them.
fn two_files(alloc: Global) -> Result<Vec<u8>, Fail> {
    let mut text = Vec::new(alloc);
    text.extend_from_slice(EMPTY)?;
    text.extend_from_slice(b"\x1a\r\n  \r\n")?;
    text.extend_from_slice(EMPTY)?;
    Ok(text)
}

#[test]
fn tells_that_a_second_file_begins(rt: HostRuntime) -> Result<(), Fail> {
    let input = two_files(rt.alloc())?;
    expect_check(
        &rt,
        "--long",
        &input,
        ExitCode::FAILURE,
        "line 5: after TRL: F11 no TRL at the end, or something after it\n  byte 72, position 1 of the line, 122 of the file\n  expected: blanks and bytes 26 alone\nrefused F11 at line 5\nremark, line 5: HDR: a second file begins here; send each file by itself\n",
    )
}

/// The first line of a file, and what is printed of it before the other remarks on that line.
const HEADERS: [(&[u8], &str); 5] = [
    (
        b"HDR01987654321PUBLISHER A                                  01.102024050112000020240501               2.2001",
        "",
    ),
    (
        b"HDRPB000000123PUBLISHER A                                  01.102024050112000020240501               2.1001",
        "remark, line 1: HDR: CWR version \"2.1\"; the file is read as CWR 2.2\n",
    ),
    (
        b"HDRXX000000123PUBLISHER A                                  01.102024050112000020240501",
        "remark, line 1: HDR: sender type \"XX\"; CWR has PB, AA, SO or WR there, or the first two digits of a number of more than nine\n",
    ),
    (
        b"HDR1\xe9000000123PUBLISHER A                                  01.102024050112000020240501               3\x7f ",
        "remark, line 1: HDR: CWR version \"3\\x7F \"; the file is read as CWR 2.2\nremark, line 1: HDR: sender type \"1\\xE9\"; CWR has PB, AA, SO or WR there, or the first two digits of a number of more than nine\nremark, line 1: HDR: bytes above 126: 2, the first at position 5; an accented letter has two bytes in UTF-8, and shifts the rest of its line by one where its field is filled up in letters\n",
    ),
    (
        b"HDRAA000000123PUBLISHER A                                  01.102024050112000020240501               \\\"",
        "remark, line 1: HDR: CWR version \"\\\" \"; the file is read as CWR 2.2\n",
    ),
];

#[test]
fn tells_what_a_header_says(rt: HostRuntime) -> Result<(), Fail> {
    for (header, remarks) in HEADERS {
        let alloc = rt.alloc();
        let mut input = Vec::new(alloc);
        input.extend_from_slice(header)?;
        input.extend_from_slice(b"\nTRL000000000000000000002\n")?;
        let wanted = format!(in alloc; "0 transactions, 0 with faults\n{remarks}")?;
        expect_check(&rt, "--long", &input, ExitCode::SUCCESS, wanted.as_str())?;
    }
    Ok(())
}

/// The remarks on HDR are printed also if that line is the faulty one.
#[test]
fn tells_what_a_faulty_header_says_as_json(rt: HostRuntime) -> Result<(), Fail> {
    expect_check(
        &rt,
        "--json",
        b"HDRP\xe9000000123PUBLISHER A                                  01.102024050112000020240230               2.1",
        ExitCode::FAILURE,
        "{\"faults\":[{\"byte\":null,\"expected\":\"a date as YYYYMMDD, a time as HHMMSS\",\"fields\":[{\"bytes\":\"20240230\",\"length\":8,\"name\":\"transmission date\",\"start\":79}],\"group\":null,\"line\":1,\"record\":\"HDR\",\"rule\":\"F3\",\"sequence\":null,\"text\":\"no record type, or a wrong date or time in HDR\",\"transaction\":null}],\"faulty\":0,\"refused\":true,\"remarks\":[{\"count\":null,\"first\":null,\"kind\":\"CWR version\",\"layout\":null,\"length\":null,\"line\":1,\"record\":\"HDR\",\"text\":\"CWR version \\\"2.1\\\"; the file is read as CWR 2.2\"},{\"count\":null,\"first\":null,\"kind\":\"sender type\",\"layout\":null,\"length\":null,\"line\":1,\"record\":\"HDR\",\"text\":\"sender type \\\"P\u{e9}\\\"; CWR has PB, AA, SO or WR there, or the first two digits of a number of more than nine\"}],\"transactions\":0}\n",
    )
}

#[test]
fn tells_a_second_file_as_json(rt: HostRuntime) -> Result<(), Fail> {
    let input = two_files(rt.alloc())?;
    expect_check(
        &rt,
        "--json",
        &input,
        ExitCode::FAILURE,
        "{\"faults\":[{\"byte\":{\"byte\":72,\"in_file\":122,\"in_line\":1},\"expected\":\"blanks and bytes 26 alone\",\"fields\":[],\"group\":null,\"line\":5,\"record\":null,\"rule\":\"F11\",\"sequence\":null,\"text\":\"no TRL at the end, or something after it\",\"transaction\":null}],\"faulty\":0,\"refused\":true,\"remarks\":[{\"count\":null,\"first\":null,\"kind\":\"second file\",\"layout\":null,\"length\":null,\"line\":5,\"record\":\"HDR\",\"text\":\"a second file begins here; send each file by itself\"}],\"transactions\":0}\n",
    )
}

/// The bytes of a party number that a rule requires are shown as those that stand there.
#[test]
fn shows_what_was_expected(rt: HostRuntime) -> Result<(), Fail> {
    expect_check(
        &rt,
        "--long",
        b"HDRPB000000123PUBLISHER A                                  01.102024050112000020240501\n\
GRHNWR0000102.200000000001\n\
NWR0000000000000000SONG ONE                                                      W1\n\
SWR0000000000000001A\\\xe9000001DOE\n\
SWT0000000000000002A\\\x7f000001000000000000000I2136\n\
GRT000010000000100000005\n\
TRL000010000000100000007\n",
        ExitCode::FAILURE,
        "line 5: SWT 2 of transaction 0 in group 1: J8 TERRITORY RECORD OF ANOTHER PARTY\n  \
interested party number, start 20, length 9: \"A\\\\x7F000001\"\n  \
expected: \"A\\\\xE9000001\"\n\
1 transactions, 1 with faults\n\
remark, line 4: SWR: bytes above 126: 1, the first at position 22; an accented letter has two bytes in UTF-8, and shifts the rest of its line by one where its field is filled up in letters\n\
remark, line 5: SWT: bytes above 126: 1, the first at position 22; an accented letter has two bytes in UTF-8, and shifts the rest of its line by one where its field is filled up in letters\n",
    )
}
