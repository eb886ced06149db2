//! Reports on files for a person, and remarks.

use cwr_remarks::{Remark, Remarked, put_remarks, remarked_long, remarks, remarks_before};
use cwr_report::report_on;
use failing_alloc::{Ended, FailingAlloc, Sweep, answered, refuse_each, refused};
use report_texts::{
    check_faults, check_long, long_text, put_fault_lines, put_named_lines, put_shown,
};
use std::alloc::Global;
use std::test::Fail;
use test_comparisons::{same, same_bytes, same_lists};
use test_files::{file_of_lines, miscounted, plain_file};

/// A file of one work without a title, with two records of types that CWR 2.2 does not have.
fn untitled_file(alloc: Global) -> Result<Vec<u8>, Fail> {
    file_of_lines(
        alloc,
        &[
            "GRHNWR0000102.200000000001",
            "NWR0000000000000000                                                              W1",
            "SWX0000000000000001",
            "SWY0000000000000002",
            "OWR0000000000000003",
            "GRT000010000000100000006",
            "TRL000010000000100000008",
        ],
    )
}

/// The report on it.
const UNTITLED: &[u8] =
    b"line 3: NWR 0 of transaction 0 in group 1: J2 TITLE IS BLANK\n  work title, start 20, length 60: \"                                                            \"\n  expected: a title that is not blank\n1 transactions, 1 with faults\n";

/// The fault alone.
const UNTITLED_FAULTS: &[u8] =
    b"line 3: NWR 0 of transaction 0 in group 1: J2 TITLE IS BLANK\n  work title, start 20, length 60: \"                                                            \"\n  expected: a title that is not blank\n";

/// The same, with its remarks.
const UNTITLED_REMARKED: &[u8] =
    b"line 3: NWR 0 of transaction 0 in group 1: J2 TITLE IS BLANK\n  work title, start 20, length 60: \"                                                            \"\n  expected: a title that is not blank\n1 transactions, 1 with faults\nremark, line 4: SWX: CWR 2.2 has no record of this type; it is carried, and nothing more of it is read\nremark, line 5: SWY: CWR 2.2 has no record of this type; it is carried, and nothing more of it is read\n";

/// The report on the file with a wrong count.
const MISCOUNTED: &[u8] =
    b"line 5: GRT of group 1: F9 the counts of GRT are not those of the group\n  record count, start 17, length 8: \"00000002\"\n  expected: transaction count 1, record count 4\nrefused F9 at line 5\n";

/// The report on two files in one: the first is well-formed.
const TWICE: &[u8] =
    b"line 7: after TRL: F11 no TRL at the end, or something after it\n  byte 72, position 1 of the line, 418 of the file\n  expected: blanks and bytes 26 alone\nrefused F11 at line 7\nremark, line 7: HDR: a second file begins here; send each file by itself\n";

/// The report on the first two bytes of a file in UTF-16.
const IN_UTF16: &[u8] =
    b"line 1: no record type: F1 the file does not begin with HDR\n  record type, start 1, length 3: \"\\xFF\\xFE\"\n  expected: HDR\nrefused F1 at line 1\nremark, line 1: the file is UTF-16, which has two bytes for a letter; write it in ASCII, with one byte for a letter\n";

fn unknown(line: u64, rtype: [u8; 3]) -> Remark {
    Remark {
        line,
        rtype: Some(rtype),
        what: Remarked::UnknownType,
    }
}

/// The remarks on the file.
fn both_remarks() -> [Remark; 2] {
    [unknown(4, *b"SWX"), unknown(5, *b"SWY")]
}

#[derive(Drop)]
struct ReportOn<'a>(&'a [u8]);

impl Sweep for ReportOn<'_> {
    fn ends(&self, memory: &FailingAlloc) -> Ended {
        match report_on(memory, self.0) {
            Ok(report) => {
                let counts = (report.findings.len(), report.transactions, report.faulty);
                same("refused", &report.refused.is_some(), &false)?;
                answered(same("counts", &counts, &(1, 1, 1)))
            }
            Err(_) => Ok(true),
        }
    }
}

/// A file, and the report on it.
#[derive(Drop)]
struct LongText<'a>(&'a [u8], &'a [u8]);

impl Sweep for LongText<'_> {
    fn ends(&self, memory: &FailingAlloc) -> Ended {
        let Ok(report) = report_on(memory, self.0) else {
            return Ok(true);
        };
        match long_text(memory, self.0, &report) {
            Ok(text) => answered(same_bytes("text", &text, self.1)),
            Err(_) => Ok(true),
        }
    }
}

#[derive(Drop)]
struct CheckLong<'a>(&'a [u8], &'a [u8]);

impl Sweep for CheckLong<'_> {
    fn ends(&self, memory: &FailingAlloc) -> Ended {
        match check_long(memory, self.0) {
            Ok(checked) => {
                same("clean", &checked.clean, &false)?;
                answered(same_bytes("text", &checked.text, self.1))
            }
            Err(_) => Ok(true),
        }
    }
}

/// The faults alone.
#[derive(Drop)]
struct CheckFaults<'a>(&'a [u8], &'a [u8]);

impl Sweep for CheckFaults<'_> {
    fn ends(&self, memory: &FailingAlloc) -> Ended {
        match check_faults(memory, self.0) {
            Ok(checked) => {
                same("clean", &checked.clean, &false)?;
                answered(same_bytes("text", &checked.text, self.1))
            }
            Err(_) => Ok(true),
        }
    }
}

/// Bytes that are shown, behind two others. A failed allocation leaves the first bytes of what would be there.
struct PutShown;

impl Sweep for PutShown {
    fn ends(&self, memory: &FailingAlloc) -> Ended {
        let mut text = Vec::new(memory);
        if text.extend_from_slice(b"1\n").is_err() {
            return Ok(true);
        }
        if put_shown(&mut text, b"\x00\x1f !\"\\~\x7f\x80\xa9\xff").is_ok() {
            return answered(same_bytes("text", &text, SHOWN));
        }
        same("what stood there", &text.starts_with(b"1\n"), &true)?;
        refused(same("a front", &SHOWN.starts_with(&text), &true))
    }
}

const SHOWN: &[u8] = b"1\n\\x00\\x1F !\"\\~\\x7F\\x80\\xA9\\xFF";

/// The report on a file with a name, and its faults alone, behind two others. A failed allocation leaves the first
/// bytes of that.
struct PutLines;

impl Sweep for PutLines {
    fn ends(&self, memory: &FailingAlloc) -> Ended {
        let mut text = Vec::new(memory);
        if text.extend_from_slice(b"1\n").is_err() {
            return Ok(true);
        }
        let is_told = put_named_lines(&mut text, "in/a", CHECKED).is_ok()
            && put_fault_lines(&mut text, CHECKED).is_ok()
            && put_fault_lines(&mut text, b"refused F9 at line 5\n").is_ok();
        if is_told {
            return answered(same_bytes("text", &text, TOLD_LINES));
        }
        same("what stood there", &text.starts_with(b"1\n"), &true)?;
        refused(same("a front", &TOLD_LINES.starts_with(&text), &true))
    }
}

/// What a check prints of two transactions, a line without an end, and lines as no check prints them.
const CHECKED: &[u8] =
    b"00001 00000000 NWR ok\n00002 00000000 REV rejected 0:J2 1:J7\n2 transactions, 1 with faults\n\n00001 00000000 NWR  rejected\nrefuse";

const TOLD_LINES: &[u8] =
    b"1\nin/a: 00001 00000000 NWR ok\nin/a: 00002 00000000 REV rejected 0:J2 1:J7\nin/a: 2 transactions, 1 with faults\nin/a: \nin/a: 00001 00000000 NWR  rejected\nin/a: refuse\n00002 00000000 REV rejected 0:J2 1:J7\nrefused F9 at line 5\n";

#[derive(Drop)]
struct RemarkedLong<'a>(&'a [u8], &'a [u8]);

impl Sweep for RemarkedLong<'_> {
    fn ends(&self, memory: &FailingAlloc) -> Ended {
        match remarked_long(memory, self.0) {
            Ok(checked) => {
                same("clean", &checked.clean, &false)?;
                answered(same_bytes("text", &checked.text, self.1))
            }
            Err(_) => Ok(true),
        }
    }
}

#[derive(Drop)]
struct Remarks<'a>(&'a [u8]);

impl Sweep for Remarks<'_> {
    fn ends(&self, memory: &FailingAlloc) -> Ended {
        match remarks(memory, self.0) {
            Ok(found) => answered(same_lists("remarks", &found, &both_remarks())),
            Err(_) => Ok(true),
        }
    }
}

/// Those before line 5.
#[derive(Drop)]
struct RemarksBefore<'a>(&'a [u8]);

impl Sweep for RemarksBefore<'_> {
    fn ends(&self, memory: &FailingAlloc) -> Ended {
        match remarks_before(memory, self.0, 5) {
            Ok(found) => answered(same_lists("remarks", &found, &[unknown(4, *b"SWX")])),
            Err(_) => Ok(true),
        }
    }
}

/// Remarks behind two bytes. A failed allocation leaves the first bytes of what would be there.
struct PutRemarks;

impl Sweep for PutRemarks {
    fn ends(&self, memory: &FailingAlloc) -> Ended {
        let mut text = Vec::new(memory);
        if text.extend_from_slice(b"1\n").is_err() {
            return Ok(true);
        }
        let is_told = put_remarks(
            &mut text,
            &[unknown(12, *b"SWX"), unknown(13, *b"S\t\xff")],
        ).is_ok();
        if is_told {
            return answered(same_bytes("text", &text, TOLD));
        }
        same("what stood there", &text.starts_with(b"1\n"), &true)?;
        refused(same("a front", &TOLD.starts_with(&text), &true))
    }
}

const TOLD: &[u8] =
    b"1\nremark, line 12: SWX: CWR 2.2 has no record of this type; it is carried, and nothing more of it is read\nremark, line 13: S\\x09\\xFF: CWR 2.2 has no record of this type; it is carried, and nothing more of it is read\n";

#[test]
fn reports(rt: HostRuntime) -> Result<(), Fail> {
    let alloc = rt.alloc();
    let untitled = untitled_file(alloc)?;
    let miscounted = miscounted(alloc)?;
    refuse_each(alloc, &ReportOn(&untitled))?;
    refuse_each(alloc, &LongText(&untitled, UNTITLED))?;
    refuse_each(alloc, &LongText(&miscounted, MISCOUNTED))?;
    refuse_each(alloc, &CheckLong(&untitled, UNTITLED))?;
    refuse_each(alloc, &CheckLong(&miscounted, MISCOUNTED))?;
    refuse_each(alloc, &CheckFaults(&untitled, UNTITLED_FAULTS))?;
    refuse_each(alloc, &CheckFaults(&miscounted, MISCOUNTED))?;
    refuse_each(alloc, &PutShown)?;
    refuse_each(alloc, &PutLines)
}

#[test]
fn remarks_on_files(rt: HostRuntime) -> Result<(), Fail> {
    let alloc = rt.alloc();
    let untitled = untitled_file(alloc)?;
    let miscounted = miscounted(alloc)?;
    refuse_each(alloc, &Remarks(&untitled))?;
    refuse_each(alloc, &RemarksBefore(&untitled))?;
    refuse_each(alloc, &PutRemarks)?;
    refuse_each(alloc, &RemarkedLong(&untitled, UNTITLED_REMARKED))?;
    refuse_each(alloc, &RemarkedLong(&miscounted, MISCOUNTED))?;
    let mut twice = plain_file(alloc)?;
    twice.extend_from_slice(&untitled)?;
    refuse_each(alloc, &RemarkedLong(&twice, TWICE))?;
    refuse_each(alloc, &RemarkedLong(b"\xff\xfe", IN_UTF16))
}
