ghost use Rattle.std.specs.Prelude.{◌≡◌, ◌∷◌, ◌++◌, [], map, true, false, codes, option_map, IfOk, OnOk};
ghost use Rattle.std.specs.Str.Lines.{lines};
ghost use Rattle.serde_json.specs.Data.{Data, Members, member, string, array, object, put as with_member};
ghost use Rattle.serde_json.specs.View.{view, items_of};
ghost use Rattle.serde_json.specs.Written.{compact_text, comma_if, items_text, has_float};
ghost use Rattle.report_json.specs.Json.{json_line, fault_object, finding_data, file_data, faults_data, report_members, with_file, report_json, IsJsonCheck};
ghost use Rattle.report_json.specs.JsonText.{member_text, left_text, line_with_text, behind_file, own_name, own_data};

use crate::json_faults::{put_file_finding, put_finding};
use crate::json_members::{Member, ReportMember, put_last, put_member, put_member_name};
use crate::json_strings::put_string;
use crate::json_values::{put_bool, put_comma};
use cwr_check::Checked;
use cwr_field::{Memory, put_decimal};
use cwr_grammar::Lines;
use cwr_report::{FileFinding, Finding, Report, Walk, line_of, report_on};
use serde_json::Value;
use std::alloc::Global;
use std::cmp::Ordering;

/// Checks a file as `cwr_check::check_text` does, and reports what is wrong as one JSON object, on one line.
///
/// A text has the character with its number for each byte of the file, so it has all of them whatever they are. The
/// file is clean if `check_text` finds it clean. If an allocation fails, the result is `Memory` alone.
pub fn check_json(alloc: Global, bytes: &[u8]) -> Result<Checked<Global>, Memory>
    ensures { IfOk result (λ checked. IsJsonCheck bytes.now checked.text.items checked.clean) }
{
    let report = report_on(alloc, bytes)?;
    let text = json_text(alloc, bytes, &report)?;
    let clean = report.is_clean();
    Ok(Checked { text, clean })
}

/// A report as JSON: one object, and LF. `bytes` is the file that it is a report on.
pub fn json_text(alloc: Global, bytes: &[u8], report: &Report) -> Result<Vec<u8>, Memory>
    ensures { IfOk result (λ text. text.items ≡ report_json (lines bytes.now) report.now) }
{
    json_report_line(alloc, bytes, report, None, None)
}

/// A report as JSON, with one more member: one object, and LF.
///
/// The text is allocated by `alloc`, and `bytes` is the file that `report` is on. The member is called `name`, and
/// `more` is its value, without fractions. It replaces a member of the report with that name. The members stand in the
/// order of their names.
pub fn json_text_with(
    alloc: Global,
    bytes: &[u8],
    report: &Report,
    name: &str,
    more: Value,
) -> Result<Vec<u8>, Memory>
    requires { has_float (view more) ≡ false }
    ensures { IfOk result (λ text. text.items ≡ json_line (object (with_member name.now (view more) (report_members (lines bytes.now) report.now)))) }
{
    let value = more.to_string(alloc)?;
    json_text_with_text(alloc, bytes, report, name, value.as_bytes())
}

/// A report as JSON, with one more member whose value is given as a text: one object, and LF.
///
/// The text is allocated by `alloc`, and `bytes` is the file that `report` is on. The member is called `name`, and
/// `more` stands behind the name as it is given, whatever bytes it has. It replaces a member of the report with that
/// name. The members stand in the order of their names. If `more` is the text of a value, as `to_string` gives it, the
/// result is that of [`json_text_with`] with the value.
pub fn json_text_with_text(
    alloc: Global,
    bytes: &[u8],
    report: &Report,
    name: &str,
    more: &[u8],
) -> Result<Vec<u8>, Memory>
    ensures text { IfOk result (λ text. text.items ≡ line_with_text name.now more.now (report_members (lines bytes.now) report.now)) }
    ensures value { (value : Data) → more.now ≡ compact_text value → IfOk result (λ text. text.items ≡ json_line (object (with_member name.now value (report_members (lines bytes.now) report.now)))) }
{
    let member = Member { name, text: more };
    json_report_line(alloc, bytes, report, None, Some(member))
}

/// The same as [`json_text_with_text`], with a member `file` in addition, a text.
///
/// The text is allocated by `alloc`, and `bytes` is the file that `report` is on. `file` is the name of the file. The
/// member with a text for its value is called `name`, and `more` is that text.
pub fn json_text_of_file(
    alloc: Global,
    bytes: &[u8],
    report: &Report,
    file: &str,
    name: &str,
    more: &[u8],
) -> Result<Vec<u8>, Memory>
    ensures text { IfOk result (λ text. text.items ≡ line_with_text name.now more.now (with_member (codes "file") (string file.now) (report_members (lines bytes.now) report.now))) }
    ensures value { (value : Data) → more.now ≡ compact_text value → IfOk result (λ text. text.items ≡ json_line (object (with_member name.now value (with_member (codes "file") (string file.now) (report_members (lines bytes.now) report.now))))) }
{
    let member = Member { name, text: more };
    json_report_line(alloc, bytes, report, Some(file), Some(member))
}

/// A report as one JSON object, and LF. The text is allocated by `alloc`, and `bytes` is the file that `report` is on.
/// `file` is the file's name, and `more` one more member, if there are such.
fn json_report_line(
    alloc: Global,
    bytes: &[u8],
    report: &Report,
    file: Option<&str>,
    more: Option<Member>,
) -> Result<Vec<u8>, Memory>
    ensures { IfOk result (λ text. text.items ≡ 123 ∷ (left_text false more.entry (with_file (option_map (λ name. name.now) file.entry) (report_members (lines bytes.now) report.now)) ++ 10 ∷ [])) }
{
    let mut text = Vec::new(alloc);
    let mut buffer = Vec::new(alloc);
    text.push(b'{')?;
    put_members(&mut text, &mut buffer, bytes, report, file, more)?;
    text.push(b'\n')?;
    Ok(text)
}

/// Appends the members, and ends the object. `out` is the text so far, and `buffer` a scratch buffer for texts. `bytes`
/// is the file that `report` is on, `file` its name, if it is to be a member, and `more` one more member, if any.
fn put_members(
    out: &mut Vec<u8>,
    buffer: &mut Vec<u8>,
    bytes: &[u8],
    report: &Report,
    file: Option<&str>,
    more: Option<Member>,
) -> Result<(), Memory>
    ensures { OnOk result (out.new.items ≡ out.old.items ++ left_text false more.entry (with_file (option_map (λ name. name.now) file.entry) (report_members (lines bytes.now) report.now))) }
{
    let more = put_next(
        out,
        buffer,
        bytes,
        report,
        false,
        more,
        ReportMember::Faults,
    )?;
    let more = put_next(out, buffer, bytes, report, true, more, ReportMember::Faulty)?;
    let more = put_file(out, buffer, bytes, report, file, more)?;
    let more = put_next(
        out,
        buffer,
        bytes,
        report,
        true,
        more,
        ReportMember::Refused,
    )?;
    let more = put_next(
        out,
        buffer,
        bytes,
        report,
        true,
        more,
        ReportMember::Transactions,
    )?;
    put_last(out, more)
}

/// Appends the name of the file, if there is one, and the additional member if it comes before that or replaces it.
/// Returns the additional member unless it was appended.
///
/// `out` is the text so far, and `buffer` a scratch buffer for texts. `bytes` is the file that `report` is on, `file`
/// its name, and `more` the additional member.
fn put_file<'a>(
    out: &mut Vec<u8>,
    buffer: &mut Vec<u8>,
    bytes: &[u8],
    report: &Report,
    file: Option<&str>,
    more: Option<Member<'a>>,
) -> Result<Option<Member<'a>>, Memory>
    ensures { (ms : Members) → IfOk result (λ left. out.new.items ++ left_text true left ms ≡ out.old.items ++ left_text true more.entry
        (behind_file (option_map (λ name. name.now) file.entry) ms)) }
{
    match file {
        None => Ok(more),
        Some(name) => put_next(
            out,
            buffer,
            bytes,
            report,
            true,
            more,
            ReportMember::File(name),
        ),
    }
}

/// Appends a member of a report, and the additional member if it comes before that or replaces it. Returns the
/// additional member unless it was appended.
///
/// `out` is the text so far, and `buffer` a scratch buffer for texts. `bytes` is the file that `report` is on. `later`
/// says whether a member stands before, `more` is the additional member, and `own` the member of the report.
fn put_next<'a>(
    out: &mut Vec<u8>,
    buffer: &mut Vec<u8>,
    bytes: &[u8],
    report: &Report,
    later: bool,
    more: Option<Member<'a>>,
    own: ReportMember,
) -> Result<Option<Member<'a>>, Memory>
    ensures { (ms : Members) → IfOk result (λ left. out.new.items ++ left_text true left ms ≡ out.old.items ++ left_text later more.entry
        (member (own_name own.entry) (own_data (lines bytes.now) report.now own.entry) ms)) }
{
    let Some(member) = more else {
        put_own(out, buffer, bytes, report, later, own)?;
        return Ok(None);
    };
    match member.name.cmp(own.name()) {
        Ordering::Less => {
            put_member(out, later, member.name, member.text)?;
            put_own(out, buffer, bytes, report, true, own)?;
            Ok(None)
        }
        Ordering::Equal => {
            put_member(out, later, own.name(), member.text)?;
            Ok(None)
        }
        Ordering::Greater => {
            put_own(out, buffer, bytes, report, later, own)?;
            Ok(Some(member))
        }
    }
}

/// Appends a member of a report. `out` is the text so far, and `buffer` a scratch buffer for texts. `bytes` is the file
/// that `report` is on. `later` says whether a comma is needed before the member `own`.
fn put_own(
    out: &mut Vec<u8>,
    buffer: &mut Vec<u8>,
    bytes: &[u8],
    report: &Report,
    later: bool,
    own: ReportMember,
) -> Result<(), Memory>
    ensures { OnOk result (out.new.items ≡ out.old.items ++ member_text later (own_name own.entry)
        (compact_text (own_data (lines bytes.now) report.now own.entry))) }
{
    put_member_name(out, later, own.name())?;
    match own {
        ReportMember::Faults => put_faults(out, buffer, bytes, &report.findings, &report.refused),
        ReportMember::Faulty => put_decimal(out, report.faulty),
        ReportMember::File(name) => put_string(out, name),
        ReportMember::Refused => put_bool(out, report.refused.is_some()),
        ReportMember::Transactions => put_decimal(out, report.transactions),
    }
}

/// Appends the faults of the transactions, or the one of the file. `out` is the text so far, and `buffer` a scratch
/// buffer for texts. `bytes` is the file, `findings` has the faults of its transactions, and `refused` that of the
/// file.
fn put_faults(
    out: &mut Vec<u8>,
    buffer: &mut Vec<u8>,
    bytes: &[u8],
    findings: &[Finding],
    refused: &Option<FileFinding>,
) -> Result<(), Memory>
    ensures { OnOk result (out.new.items ≡ out.old.items ++ compact_text (array (items_of (faults_data (lines bytes.now) findings.now refused.now)))) }
{
    match refused {
        None => put_findings(out, buffer, bytes, findings),
        Some(refused) => put_refused(out, buffer, bytes, refused),
    }
}

/// Appends the faults of transactions. The file is walked once if the faults are in the order of its lines.
fn put_findings(
    out: &mut Vec<u8>,
    buffer: &mut Vec<u8>,
    bytes: &[u8],
    findings: &[Finding],
) -> Result<(), Memory>
    ensures { OnOk result (out.new.items ≡ out.old.items ++ 91 ∷ items_text false (items_of (map (finding_data (lines bytes.now)) findings.now))) }
{
    out.push(b'[')?;
    let mut walk = Walk::new(Lines::of(bytes), false);
    let mut later = false;
    for finding in findings {
        let line = walk.go_to(Lines::of(bytes), finding.line.saturating_sub(1));
        put_item(out, buffer, line, later, finding)?;
        later = true;
    }
    out.push(b']')?;
    Ok(())
}

/// Appends the next fault of a transaction. `out` is the text so far, `buffer` a scratch buffer for texts, and `line`
/// the faulty line. `later` says whether a comma is needed before the fault `finding`.
fn put_item(
    out: &mut Vec<u8>,
    buffer: &mut Vec<u8>,
    line: &[u8],
    later: bool,
    finding: &Finding,
) -> Result<(), Memory>
    ensures { OnOk result (out.new.items ≡ out.old.items ++ (comma_if later ++ compact_text (fault_object line.now finding.now))) }
{
    put_comma(out, later)?;
    put_finding(out, buffer, line, finding)?;
    Ok(())
}

/// Appends the fault of a file, alone.
fn put_refused(
    out: &mut Vec<u8>,
    buffer: &mut Vec<u8>,
    bytes: &[u8],
    refused: &FileFinding,
) -> Result<(), Memory>
    ensures { OnOk result (out.new.items ≡ out.old.items ++ 91 ∷ (compact_text (file_data (lines bytes.now) refused.now) ++ 93 ∷ [])) }
{
    out.push(b'[')?;
    put_file_finding(out, buffer, line_of(bytes, refused.line), refused)?;
    out.push(b']')?;
    Ok(())
}
