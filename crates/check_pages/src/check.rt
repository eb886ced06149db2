//! The page of a check.

ghost use Rattle.std.specs.Prelude.{◌≡◌, ◌<◌, ◌^◌, ◌++◌, [], IfOk, OnOk};
ghost use Rattle.std.specs.Io.KnownBytes.{Appends, Keeps, append_known};
ghost use Rattle.std.specs.Str.Lines.{lines};
ghost use Rattle.html_text.specs.Pieces.{page_text};
ghost use Rattle.check_pages.specs.CheckPages.{all_remarks_pieces, check_page, faults_pieces, remarks_head_pieces, IsCheckPage};
ghost use Rattle.check_pages.specs.Facts.{front_pieces};
ghost use Rattle.check_pages.specs.RefusedFiles.{refused_pieces};
ghost use Rattle.check_pages.specs.RemarkSections.{remarks_pieces};
ghost use Rattle.check_pages.specs.Sections.{findings_pieces};

use crate::facts::{fault_count, put_front, put_signs};
use crate::refused::put_refused;
use crate::remark_sections::put_remark;
use crate::rooms::Rooms;
use crate::rule_counts::RuleCounts;
use crate::sections::put_finding;
use cwr_field::Memory;
use cwr_grammar::Lines;
use cwr_remarks::{Remark, remarks_on_file};
use cwr_report::{FileFinding, Finding, Report, Walk, line_of, report_on};
use html_text::{Fragment, PageError, markup, put, write_block};
use std::alloc::Allocator;
use std::io::Write;

/// What is gathered of a page is written once it has at least so many bytes.
const LONG: usize = 65_536;

/// A complete page of a check: what it was written to, and whether the file is clean.
#[derive(Debug, Drop)]
pub struct WrittenPage<W: Drop> {
    /// What it was written to.
    pub to: W,
    /// Whether the file is well-formed and none of its transactions has a fault.
    pub clean: bool,
}

/// Checks a file as `cwr_report::report_on` does, and writes a page of HTML with its faults and its remarks, for a
/// browser. Returns `to`, and whether the file is clean. `name` is the name of the file.
///
/// The page has the outcome, what HDR says of the file, and the rules that are broken. Then comes each line with faults:
/// a box with its first 4,096 bytes, where the fields that break a rule are marked, and below it the faults. Then comes
/// each line with remarks in the same way. The page needs no other file, and runs no script. It is written block by
/// block, so it is never in memory as a whole. On an error `to` is dropped.
pub fn check_page<W: Write + Drop, A: Allocator + Copy + Drop>(
    alloc: A,
    mut to: W,
    name: &str,
    bytes: &[u8],
) -> Result<WrittenPage<W>, PageError>
    ensures { IfOk result (λ told. IsCheckPage name.now bytes.now (W.contents to) (W.contents told.to) told.clean) }
{
    let report = report_on(alloc, bytes)?;
    let remarks = remarks_on_file(alloc, bytes, &report.refused)?;
    let clean = report.is_clean();
    write_page(alloc, &mut to, name.as_bytes(), bytes, &report, &remarks)?;
    Ok(WrittenPage { to, clean })
}

/// Writes the page of a report and of remarks.
fn write_page<W: Write, A: Allocator + Copy + Drop>(
    alloc: A,
    to: &mut W,
    name: &[u8],
    bytes: &[u8],
    report: &Report<A>,
    remarks: &[Remark],
) -> Result<(), PageError>
    ensures { OnOk result (Appends (W.contents to.old) (W.contents to.new) (page_text (check_page name.now bytes.now report.now remarks.now))) }
{
    let mut rooms = Rooms {
        out: Vec::new(alloc),
        text: Vec::new(alloc),
        spots: Vec::new(alloc),
    };
    let faults = fault_count(&report.findings, &report.refused);
    write_front(to, &mut rooms, name, bytes, report, remarks.len() as u64)?;
    write_faults(to, &mut rooms, bytes, &report.findings, &report.refused)?;
    write_all_remarks(to, &mut rooms, bytes, faults, remarks)?;
    write_block(to, markup(Fragment::End))
}

/// Writes what stands above the faults.
fn write_front<W: Write, A: Allocator + Copy + Drop>(
    to: &mut W,
    rooms: &mut Rooms<A>,
    name: &[u8],
    bytes: &[u8],
    report: &Report<A>,
    remarks: u64,
) -> Result<(), PageError>
    requires { remarks < 2 ^ 63 }
    ensures { OnOk result (Appends (W.contents to.old) (W.contents to.new) (page_text (front_pieces name.now (lines bytes.now) report.now remarks))) }
{
    rooms.out.clear();
    put_front(
        &mut rooms.out,
        &mut rooms.text,
        name,
        bytes,
        report,
        remarks,
    )?;
    write_block(to, &rooms.out)
}

/// Writes the faults.
#[tactic(auto, unfolding(crate::specs::CheckPages::faults_pieces))]
fn write_faults<W: Write, A: Allocator + Copy + Drop>(
    to: &mut W,
    rooms: &mut Rooms<A>,
    bytes: &[u8],
    findings: &[Finding],
    refused: &Option<FileFinding>,
) -> Result<(), PageError>
    ensures { OnOk result (Appends (W.contents to.old) (W.contents to.new) (page_text (faults_pieces (lines bytes.now) findings.now refused.now))) }
{
    match refused {
        None => write_findings(to, rooms, bytes, findings),
        Some(refused) => write_refused(to, rooms, line_of(bytes, refused.line), refused),
    }
}

/// Writes the fault for which a file is refused. `line` has the bytes of the faulty line.
fn write_refused<W: Write, A: Allocator + Copy + Drop>(
    to: &mut W,
    rooms: &mut Rooms<A>,
    line: &[u8],
    refused: &FileFinding,
) -> Result<(), PageError>
    ensures { OnOk result (Appends (W.contents to.old) (W.contents to.new) (page_text (refused_pieces line.now refused.now))) }
{
    rooms.out.clear();
    put_refused(rooms, line, refused)?;
    write_block(to, &rooms.out)
}

/// Writes what is gathered, if it is long, and forgets it then. So a page is written in few and long blocks.
fn write_long<W: Write, A: Allocator>(
    to: &mut W,
    gathered: &mut Vec<u8, A>,
) -> Result<(), PageError>
    ensures { OnOk result (Keeps (append_known (W.contents to.old) gathered.old.items) (append_known (W.contents to.new) gathered.new.items)) }
{
    if gathered.len() < LONG {
        return Ok(());
    }
    write_block(to, gathered)?;
    gathered.clear();
    Ok(())
}

/// Writes the findings, a section for each line. The file is walked once if they are in the order of its lines.
fn write_findings<W: Write, A: Allocator + Copy + Drop>(
    to: &mut W,
    rooms: &mut Rooms<A>,
    bytes: &[u8],
    findings: &[Finding],
) -> Result<(), PageError>
    ensures { OnOk result (Appends (W.contents to.old) (W.contents to.new) (page_text (findings_pieces (lines bytes.now) findings.now [] findings.now))) }
{
    let totals = RuleCounts::of(findings);
    let mut seen = RuleCounts::new();
    let mut before = 0;
    let mut walk = Walk::new(Lines::of(bytes), false);
    let mut left = findings;
    rooms.out.clear();
    while let Some((finding, later)) = left.split_first() {
        let line = walk.go_to(Lines::of(bytes), finding.line.saturating_sub(1));
        let number = finding.fault.number;
        let k = seen.count(number) + 1;
        put_finding(rooms, line, before, k, totals.count(number), finding, later)?;
        write_long(to, &mut rooms.out)?;
        seen.add(number);
        before = finding.line;
        left = later;
    }
    write_block(to, &rooms.out)
}

/// Writes the remarks, if there are some, on a file with so many faults.
fn write_all_remarks<W: Write, A: Allocator + Copy + Drop>(
    to: &mut W,
    rooms: &mut Rooms<A>,
    bytes: &[u8],
    faults: u64,
    remarks: &[Remark],
) -> Result<(), PageError>
    ensures { OnOk result (Appends (W.contents to.old) (W.contents to.new) (page_text (all_remarks_pieces (lines bytes.now) faults remarks.now))) }
{
    if remarks.is_empty() {
        return Ok(());
    }
    rooms.out.clear();
    put_remarks_head(&mut rooms.out, faults)?;
    write_block(to, &rooms.out)?;
    write_remarks(to, rooms, bytes, remarks)
}

/// Appends the heading of the remarks on a file with so many faults.
#[tactic(auto, using(html_text::proofs::lemmas::Pages::page_append), unfolding(crate::specs::CheckPages::remarks_head_pieces))]
fn put_remarks_head<A: Allocator>(out: &mut Vec<u8, A>, faults: u64) -> Result<(), Memory>
    ensures { OnOk result (out.new.items ≡ out.old.items ++ page_text (remarks_head_pieces faults)) }
{
    put(out, Fragment::RemarksHead)?;
    if faults > 0 {
        return Ok(());
    }
    put_signs(out)
}

/// Writes the remarks, a section for each line.
fn write_remarks<W: Write, A: Allocator + Copy + Drop>(
    to: &mut W,
    rooms: &mut Rooms<A>,
    bytes: &[u8],
    remarks: &[Remark],
) -> Result<(), PageError>
    ensures { OnOk result (Appends (W.contents to.old) (W.contents to.new) (page_text (remarks_pieces (lines bytes.now) 0 remarks.now))) }
{
    let mut before = 0;
    let mut walk = Walk::new(Lines::of(bytes), false);
    let mut left = remarks;
    rooms.out.clear();
    while let Some((remark, later)) = left.split_first() {
        let line = walk.go_to(Lines::of(bytes), remark.line.saturating_sub(1));
        put_remark(rooms, line, before, remark, later)?;
        write_long(to, &mut rooms.out)?;
        before = remark.line;
        left = later;
    }
    write_block(to, &rooms.out)
}
