//! A report as JSON: bytes as a text, and one more member. These calls take the system's allocator.

use cwr_remarks::remarked_json_of_file;
use cwr_report::{Report, report_on};
use report_json::{
    json_text_of_file, json_text_with, json_text_with_text, put_json_text, text_value,
};
use std::alloc::Global;
use std::test::Fail;
use test_comparisons::{same, same_bytes};
use test_files::plain_file;

/// Bytes, and their text by RFC 8259, each byte as the character with its number. The cases are: fewer bytes than are
/// looked at together; that number of bytes which stand for themselves, next to others that do not; and one byte that
/// does not, in the first, the second and the last place.
const TEXTS: [(&[u8], &[u8]); 6] = [
    (
        b"\x00\x01\x1f\x7f\x80\xff\"\\/\x08\t\n\x0b\x0c\r",
        b"\"\\u0000\\u0001\\u001f\x7f\xc2\x80\xc3\xbf\\\"\\\\/\\b\\t\\n\\u000b\\f\\r\"",
    ),
    (b" !#[]\x7f0123456789", b"\" !#[]\x7f0123456789\""),
    (b"\xe90123456789abcdef", b"\"\xc3\xa90123456789abcdef\""),
    (
        b"0123456789abcdef\x1a0123456789abcdef",
        b"\"0123456789abcdef\\u001a0123456789abcdef\"",
    ),
    (b"0123456789abcde\"", b"\"0123456789abcde\\\"\""),
    (
        b"0123456789abcdef0123456789abcde\\",
        b"\"0123456789abcdef0123456789abcde\\\\\"",
    ),
];

#[test]
fn texts_of_json(rt: HostRuntime) -> Result<(), Fail> {
    for (bytes, wanted) in TEXTS {
        let mut text = Vec::new(rt.alloc());
        put_json_text(&mut text, bytes)?;
        same_bytes("a text", &text, wanted)?;
    }
    Ok(())
}

/// The name of a member, and the report with it on a file without faults: names before those of a report, between them,
/// after them, and each of its own.
const MEMBERS: [(&str, &[u8]); 9] = [
    (
        "Z\"",
        b"{\"Z\\\"\":\"more\",\"faults\":[],\"faulty\":0,\"refused\":false,\"transactions\":1}\n",
    ),
    (
        "faults",
        b"{\"faults\":\"more\",\"faulty\":0,\"refused\":false,\"transactions\":1}\n",
    ),
    (
        "faults.",
        b"{\"faults\":[],\"faults.\":\"more\",\"faulty\":0,\"refused\":false,\"transactions\":1}\n",
    ),
    (
        "faulty",
        b"{\"faults\":[],\"faulty\":\"more\",\"refused\":false,\"transactions\":1}\n",
    ),
    (
        "ref",
        b"{\"faults\":[],\"faulty\":0,\"ref\":\"more\",\"refused\":false,\"transactions\":1}\n",
    ),
    (
        "refused",
        b"{\"faults\":[],\"faulty\":0,\"refused\":\"more\",\"transactions\":1}\n",
    ),
    (
        "remarks",
        b"{\"faults\":[],\"faulty\":0,\"refused\":false,\"remarks\":\"more\",\"transactions\":1}\n",
    ),
    (
        "transactions",
        b"{\"faults\":[],\"faulty\":0,\"refused\":false,\"transactions\":\"more\"}\n",
    ),
    (
        "zone",
        b"{\"faults\":[],\"faulty\":0,\"refused\":false,\"transactions\":1,\"zone\":\"more\"}\n",
    ),
];

/// The report with each of these members, and with a text that is no value's.
fn expect_members(alloc: Global, file: &[u8], report: &Report) -> Result<(), Fail> {
    for (name, wanted) in MEMBERS {
        let more = text_value(alloc, b"more")?;
        let text = json_text_with(alloc, file, report, name, more)?;
        same_bytes(name, &text, wanted)?;
    }
    let text = json_text_with_text(alloc, file, report, "part", b" ,\xff")?;
    same_bytes(
        "part",
        &text,
        b"{\"faults\":[],\"faulty\":0,\"part\": ,\xff,\"refused\":false,\"transactions\":1}\n",
    )
}

/// The name of a member, and the report with it on a file with a name.
const NAMED: [(&str, &[u8]); 3] = [
    (
        "fault",
        b"{\"fault\":1,\"faults\":[],\"faulty\":0,\"file\":\"in/\\\"\xc3\xa9\\\".v22\",\"refused\":false,\"transactions\":1}\n",
    ),
    (
        "file",
        b"{\"faults\":[],\"faulty\":0,\"file\":1,\"refused\":false,\"transactions\":1}\n",
    ),
    (
        "files",
        b"{\"faults\":[],\"faulty\":0,\"file\":\"in/\\\"\xc3\xa9\\\".v22\",\"files\":1,\"refused\":false,\"transactions\":1}\n",
    ),
];

/// The report with each of these members, and that of a check.
fn expect_named(alloc: Global, file: &[u8], report: &Report) -> Result<(), Fail> {
    for (name, wanted) in NAMED {
        let text = json_text_of_file(alloc, file, report, "in/\"\u{e9}\".v22", name, b"1")?;
        same_bytes(name, &text, wanted)?;
    }
    let checked = remarked_json_of_file(alloc, "-", file)?;
    same("clean", &checked.clean, &true)?;
    same_bytes(
        "a check",
        &checked.text,
        b"{\"faults\":[],\"faulty\":0,\"file\":\"-\",\"refused\":false,\"remarks\":[],\"transactions\":1}\n",
    )
}

#[test]
fn members_of_json(rt: HostRuntime) -> Result<(), Fail> {
    let file = plain_file(rt.alloc())?;
    let report = report_on(rt.alloc(), &file)?;
    expect_members(rt.alloc(), &file, &report)?;
    expect_named(rt.alloc(), &file, &report)
}
