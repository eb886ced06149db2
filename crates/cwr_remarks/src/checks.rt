ghost use Rattle.std.specs.Prelude.{◌≡◌, ◌++◌, codes, option_map, IfOk, OnOk};
ghost use Rattle.std.specs.Str.Lines.{lines};
ghost use Rattle.serde_json.specs.Data.{object, put as with_member};
ghost use Rattle.report_json.specs.Json.{json_line, report_members, with_file};
ghost use Rattle.cwr_report.specs.Report.{IsToldBy};
ghost use Rattle.cwr_remarks.specs.Json.{remarks_data};
ghost use Rattle.cwr_remarks.specs.Checks.{remarks_on_lines, remarks_on_file, remarked_object, IsRemarkedLong, IsRemarkedJson, IsRemarkedJsonOfFile};
ghost use Rattle.cwr_remarks.specs.Remarks.{remarks_to};
ghost use Rattle.cwr_remarks.specs.SecondFile.{second_file};

use crate::front::{push_front, push_second};
use crate::json_list::put_json_list;
use crate::remark::Remark;
use crate::remarking::{push_remarks, push_remarks_before};
use crate::texts::put_remarks;
use cwr_field::Memory;
use cwr_report::{FileFinding, Report, report_on};
use report_json::{json_text_of_file, json_text_with_text};
use report_texts::{Checked, long_text};
use std::alloc::{Allocator, Global};

/// Checks a file as `report_texts::check_long` does, and puts its remarks behind that report.
///
/// The remarks on the file itself come first, at line 1: a byte order mark, UTF-16 or gzip; in HDR, a version of CWR
/// that is not 2.2 and a sender type that CWR does not have. Those on the lines follow, as `remarks` has them.
///
/// If the file is refused, these are the remarks on the lines before the faulty one. The only remark on the faulty line
/// is that a second file begins there: a line with HDR after TRL. Remarks do not change whether the file is clean. If
/// an allocation fails, the result is `Memory` alone.
pub fn remarked_long<A: Allocator + Copy>(alloc: A, bytes: &[u8]) -> Result<Checked<A>, Memory>
    ensures { IfOk result (λ checked. IsRemarkedLong bytes.now checked.text.items checked.clean) }
{
    let report = report_on(alloc, bytes)?;
    let found = remarks_on_file(alloc, bytes, &report.refused)?;
    let mut text = long_text(alloc, bytes, &report)?;
    put_remarks(&mut text, &found)?;
    let clean = report.is_clean();
    Ok(Checked { text, clean })
}

/// Checks a file as `report_json::check_json` does, and adds its remarks as one more member, `remarks`: a list of
/// objects.
///
/// They are those of [`remarked_long`]. They do not change whether the file is clean. If an allocation fails, the
/// result is `Memory` alone.
pub fn remarked_json(alloc: Global, bytes: &[u8]) -> Result<Checked<Global>, Memory>
    ensures { IfOk result (λ checked. IsRemarkedJson bytes.now checked.text.items checked.clean) }
{
    remarked_object(alloc, None, bytes)
}

/// The same for a file with a name, which is one more member, `file`, a text behind `faulty`. So the objects of several
/// files can be told apart.
pub fn remarked_json_of_file(
    alloc: Global,
    name: &str,
    bytes: &[u8],
) -> Result<Checked<Global>, Memory>
    ensures { IfOk result (λ checked. IsRemarkedJsonOfFile name.now bytes.now checked.text.items checked.clean) }
{
    remarked_object(alloc, Some(name), bytes)
}

fn remarked_object(
    alloc: Global,
    file: Option<&str>,
    bytes: &[u8],
) -> Result<Checked<Global>, Memory>
    ensures { IfOk result (λ checked. IsToldBy (remarked_object (option_map (λ name. name.now) file.entry)) bytes.now checked.text.items checked.clean) }
{
    let report = report_on(alloc, bytes)?;
    let found = remarks_on_file(alloc, bytes, &report.refused)?;
    let text = json_with_remarks(alloc, file, bytes, &report, &found)?;
    let clean = report.is_clean();
    Ok(Checked { text, clean })
}

/// A report as JSON, with remarks. The text is allocated by `alloc`. `file` is the name of the file, if it is to be a
/// member, `bytes` the file that `report` is on, and `found` has the remarks.
fn json_with_remarks(
    alloc: Global,
    file: Option<&str>,
    bytes: &[u8],
    report: &Report,
    found: &[Remark],
) -> Result<Vec<u8>, Memory>
    ensures { IfOk result (λ text. text.items ≡ json_line (object (with_member (codes "remarks") (remarks_data found.now)
        (with_file (option_map (λ name. name.now) file.entry) (report_members (lines bytes.now) report.now))))) }
{
    let mut told = Vec::new(alloc);
    put_json_list(alloc, &mut told, found)?;
    match file {
        None => json_text_with_text(alloc, bytes, report, "remarks", &told),
        Some(name) => json_text_of_file(alloc, bytes, report, name, "remarks", &told),
    }
}

/// The remarks on a file, on the file as a whole and then on its lines. `refused` is the fault for which it is refused,
/// if it is. If an allocation fails, the result is `Memory` alone.
pub fn remarks_on_file<A: Allocator>(
    alloc: A,
    bytes: &[u8],
    refused: &Option<FileFinding>,
) -> Result<Vec<Remark, A>, Memory>
    ensures { IfOk result (λ found. found.items ≡ remarks_on_file bytes.now refused.now) }
{
    let mut found = Vec::new(alloc);
    push_front(&mut found, bytes)?;
    push_on_lines(&mut found, bytes, refused)?;
    Ok(found)
}

/// Appends the remarks on the lines. If the file is refused, these are those on the lines before the faulty one, and
/// that a second file begins there, if one does.
fn push_on_lines<A: Allocator>(
    found: &mut Vec<Remark, A>,
    bytes: &[u8],
    refused: &Option<FileFinding>,
) -> Result<(), Memory>
    ensures { OnOk result (found.new.items ≡ found.old.items ++ remarks_on_lines (lines bytes.now) refused.now) }
{
    match refused {
        None => push_remarks(found, bytes),
        Some(refused) => push_before_fault(found, bytes, refused),
    }
}

fn push_before_fault<A: Allocator>(
    found: &mut Vec<Remark, A>,
    bytes: &[u8],
    refused: &FileFinding,
) -> Result<(), Memory>
    ensures { OnOk result (found.new.items ≡ found.old.items ++ (remarks_to refused.now.line 1 (lines bytes.now) ++ second_file refused.now)) }
{
    push_remarks_before(found, bytes, refused.line)?;
    push_second(found, refused)?;
    Ok(())
}
