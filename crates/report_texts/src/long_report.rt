ghost use Rattle.std.specs.Prelude.{◌≡◌, ◌++◌, IfOk, OnOk};
ghost use Rattle.std.specs.List.{flat_map};
ghost use Rattle.std.specs.Str.Lines.{lines};
ghost use Rattle.report_texts.specs.FileText.{file_text};
ghost use Rattle.report_texts.specs.LongText.{finding_text};
ghost use Rattle.report_texts.specs.ReportText.{report_text, faults_text, IsLongCheck, IsFaultsCheck};

use crate::file_lines::put_file_finding;
use crate::long_lines::put_finding;
use cwr_check::{Checked, put_total};
use cwr_field::Memory;
use cwr_grammar::Lines;
use cwr_report::{FileFinding, Finding, Report, Walk, line_of, report_on};
use std::alloc::Allocator;

/// Checks a file as `cwr_check::check_text` does, and reports to a person what is wrong, where, and what was expected.
///
/// The file is clean if `check_text` finds it clean. If an allocation fails, the result is `Memory` alone.
pub fn check_long<A: Allocator + Copy>(alloc: A, bytes: &[u8]) -> Result<Checked<A>, Memory>
    ensures { IfOk result (λ checked. IsLongCheck bytes.now checked.text.items checked.clean) }
{
    let report = report_on(alloc, bytes)?;
    let text = long_text(alloc, bytes, &report)?;
    let clean = report.is_clean();
    Ok(Checked { text, clean })
}

/// Checks a file as [`check_long`] does, and reports its faults alone. The last line is left out if the file is
/// well-formed, so there is no text for a file without faults.
///
/// The file is clean if `check_text` finds it clean. If an allocation fails, the result is `Memory` alone.
pub fn check_faults<A: Allocator + Copy>(alloc: A, bytes: &[u8]) -> Result<Checked<A>, Memory>
    ensures { IfOk result (λ checked. IsFaultsCheck bytes.now checked.text.items checked.clean) }
{
    let report = report_on(alloc, bytes)?;
    let text = faults_text(alloc, bytes, &report)?;
    let clean = report.is_clean();
    Ok(Checked { text, clean })
}

/// The lines on the faults of a report.
fn faults_text<A: Allocator + Copy>(
    alloc: A,
    bytes: &[u8],
    report: &Report<A>,
) -> Result<Vec<u8, A>, Memory>
    ensures { IfOk result (λ text. text.items ≡ faults_text (lines bytes.now) report.now) }
{
    let mut text = Vec::new(alloc);
    match &report.refused {
        Some(refused) => put_refused(&mut text, bytes, refused)?,
        None => put_findings(&mut text, bytes, &report.findings)?,
    }
    Ok(text)
}

/// The text of a report for a person. `bytes` is the file that it is a report on.
///
/// Each fault has a line with its place and its rule, a line for each field that breaks the rule, and a line with what
/// was expected. The last line has the number of transactions with faults, or says that the file is refused. Each line
/// has LF at its end. If an allocation fails, the result is `Memory` alone.
pub fn long_text<A: Allocator + Copy>(
    alloc: A,
    bytes: &[u8],
    report: &Report<A>,
) -> Result<Vec<u8, A>, Memory>
    ensures { IfOk result (λ text. text.items ≡ report_text (lines bytes.now) report.now) }
{
    let mut text = faults_text(alloc, bytes, report)?;
    if report.refused.is_none() {
        put_total(&mut text, report.transactions, report.faulty)?;
    }
    Ok(text)
}

/// Appends the lines for a file that is refused.
fn put_refused<A: Allocator>(
    out: &mut Vec<u8, A>,
    bytes: &[u8],
    refused: &FileFinding,
) -> Result<(), Memory>
    ensures { OnOk result (out.new.items ≡ out.old.items ++ file_text (lines bytes.now) refused.now) }
{
    put_file_finding(out, line_of(bytes, refused.line), refused)
}

/// Appends the lines for each fault. The file is walked once if the faults are in the order of its lines.
fn put_findings<A: Allocator>(
    out: &mut Vec<u8, A>,
    bytes: &[u8],
    findings: &[Finding],
) -> Result<(), Memory>
    ensures { OnOk result (out.new.items ≡ out.old.items ++ flat_map (finding_text (lines bytes.now)) findings.now) }
{
    let mut walk = Walk::new(Lines::of(bytes), false);
    for finding in findings {
        let line = walk.go_to(Lines::of(bytes), finding.line.saturating_sub(1));
        put_finding(out, line, finding)?;
    }
    Ok(())
}
