//! What stands above the faults of a page.

ghost use Rattle.std.specs.Prelude.{◌≡◌, ◌<◌, ◌^◌, ◌++◌, length, OnOk};
ghost use Rattle.std.specs.List.{count_by};
ghost use Rattle.std.specs.Str.Lines.{lines};
ghost use Rattle.html_text.specs.Pieces.{page_text};
ghost use Rattle.check_pages.specs.Facts.{counts_pieces, css_pieces, fault_count, facts_pieces, front_pieces, index_pieces, is_group_line, linked_pieces, outcome_pieces, refusal_pieces, refused_by_pieces, rulers_pieces, rules_pieces, signs_pieces, some_header_pieces, style_pieces, faulty_pieces, title_pieces};
ghost use Rattle.check_pages.specs.RuleIndex.{rows_pieces};

use crate::boxes::put_where;
use crate::faults::{OF_FILES, OF_TRANSACTIONS, put_rule};
use crate::header::put_header;
use crate::rule_counts::RuleCounts;
use crate::rule_index::put_broken_row;
use crate::ruler::put_ruler;
use cwr_field::Memory;
use cwr_grammar::Lines;
use cwr_record::{RecordType, field_at};
use cwr_report::{FileFinding, Finding, Report, line_of};
use html_text::{Fragment, put, put_name, put_number, put_text};
use report_texts::file_rule_text;
use std::alloc::Allocator;

/// A page with more faults and remarks has many sections.
const FEW_SECTIONS: u64 = 1000;

/// The last row, from 0, of lines with the ruler of few rows.
const LAST_OF_FEW_ROWS: u64 = 2;

/// The last row of the longest line that is shown.
const LAST_ROW: u64 = 51;

/// The last rule of transactions.
const LAST_RULE: u8 = 15;

/// Appends what stands above the faults. `text` is a buffer, `name` the name of the file, and `remarks` the number of
/// remarks.
#[tactic(auto, using(html_text::proofs::lemmas::Pages::page_append), unfolding(crate::specs::Facts::front_pieces))]
pub(crate) fn put_front<A: Allocator>(
    out: &mut Vec<u8, A>,
    text: &mut Vec<u8, A>,
    name: &[u8],
    bytes: &[u8],
    report: &Report<A>,
    remarks: u64,
) -> Result<(), Memory>
    requires { remarks < 2 ^ 63 }
    ensures { OnOk result (out.new.items ≡ out.old.items ++ page_text (front_pieces name.now (lines bytes.now) report.now remarks)) }
{
    let many = fault_count(&report.findings, &report.refused) + remarks > FEW_SECTIONS;
    put_title(out, name, many)?;
    put_outcome(out, report.faulty, report.transactions, &report.refused)?;
    put_facts(out, bytes, report, remarks)?;
    put_index(out, text, &report.findings, &report.refused)
}

/// The number of faults: one if the file is refused.
pub(crate) fn fault_count(findings: &[Finding], refused: &Option<FileFinding>) -> u64
    ensures value { result ≡ fault_count findings.now refused.now }
    ensures few { result < 2 ^ 63 }
{
    match refused {
        None => findings.len() as u64,
        Some(_) => 1,
    }
}

/// Appends the beginning of the page, up to its heading.
#[tactic(auto, using(html_text::proofs::lemmas::Pages::page_append), unfolding(crate::specs::Facts::title_pieces))]
fn put_title<A: Allocator>(out: &mut Vec<u8, A>, name: &[u8], many: bool) -> Result<(), Memory>
    ensures { OnOk result (out.new.items ≡ out.old.items ++ page_text (title_pieces name.now many)) }
{
    put(out, Fragment::Head)?;
    put_name(out, name)?;
    put(out, Fragment::CheckTitle)?;
    put_style(out, many)?;
    put(out, Fragment::CheckOf)?;
    put_name(out, name)?;
    put(out, Fragment::H1End)
}

/// Appends the style of the page.
#[tactic(auto, using(html_text::proofs::lemmas::Pages::page_append), unfolding(crate::specs::Facts::style_pieces))]
fn put_style<A: Allocator>(out: &mut Vec<u8, A>, many: bool) -> Result<(), Memory>
    ensures { OnOk result (out.new.items ≡ out.old.items ++ page_text (style_pieces many)) }
{
    put_css(out)?;
    put_rulers(out)?;
    put_where(out, many, Fragment::StyleMany)?;
    put(out, Fragment::StyleEnd)
}

/// Appends the style of the page, but for rulers.
#[tactic(auto, unfolding(crate::specs::Facts::css_pieces))]
fn put_css<A: Allocator>(out: &mut Vec<u8, A>) -> Result<(), Memory>
    ensures { OnOk result (out.new.items ≡ out.old.items ++ page_text css_pieces) }
{
    put(out, Fragment::Style)?;
    put(out, Fragment::StyleText)?;
    put(out, Fragment::StyleTables)?;
    put(out, Fragment::StyleCheck)?;
    put(out, Fragment::StyleLines)
}

/// Appends the rulers.
#[tactic(auto, using(html_text::proofs::lemmas::Pages::page_append), unfolding(crate::specs::Facts::rulers_pieces))]
fn put_rulers<A: Allocator>(out: &mut Vec<u8, A>) -> Result<(), Memory>
    ensures { OnOk result (out.new.items ≡ out.old.items ++ page_text rulers_pieces) }
{
    put_ruler(out, LAST_OF_FEW_ROWS)?;
    put(out, Fragment::StyleLong)?;
    put_ruler(out, LAST_ROW)?;
    put(out, Fragment::StyleRulerEnd)
}

/// Appends the outcome of the check.
#[tactic(auto, unfolding(crate::specs::Facts::outcome_pieces))]
fn put_outcome<A: Allocator>(
    out: &mut Vec<u8, A>,
    faulty: u64,
    all: u64,
    refused: &Option<FileFinding>,
) -> Result<(), Memory>
    ensures { OnOk result (out.new.items ≡ out.old.items ++ page_text (outcome_pieces faulty all refused.now)) }
{
    match refused {
        None => put_faulty_of_all(out, faulty, all),
        Some(refused) => put_refusal(out, refused),
    }
}

/// Appends that a file is refused.
#[tactic(auto, using(html_text::proofs::lemmas::Pages::page_append), unfolding(crate::specs::Facts::refusal_pieces))]
fn put_refusal<A: Allocator>(out: &mut Vec<u8, A>, refused: &FileFinding) -> Result<(), Memory>
    ensures { OnOk result (out.new.items ≡ out.old.items ++ page_text (refusal_pieces refused.now)) }
{
    put_refused_by(out, refused.number)?;
    put_text(out, file_rule_text(refused.number))?;
    put(out, Fragment::RefusedLine)?;
    put_number(out, refused.line)?;
    put(out, Fragment::RefusedEnd)
}

/// Appends the rule by which a file is refused.
#[tactic(auto, using(html_text::proofs::lemmas::Pages::page_append), unfolding(crate::specs::Facts::refused_by_pieces))]
fn put_refused_by<A: Allocator>(out: &mut Vec<u8, A>, number: u8) -> Result<(), Memory>
    ensures { OnOk result (out.new.items ≡ out.old.items ++ page_text (refused_by_pieces number)) }
{
    put(out, Fragment::Refused)?;
    put_rule(out, OF_FILES, number)?;
    put(out, Fragment::First)?;
    put_rule(out, OF_FILES, number)?;
    put(out, Fragment::Colon)
}

/// Appends how many transactions of a well-formed file have faults.
#[tactic(auto, unfolding(crate::specs::Facts::faulty_pieces))]
fn put_faulty_of_all<A: Allocator>(
    out: &mut Vec<u8, A>,
    faulty: u64,
    all: u64,
) -> Result<(), Memory>
    ensures { OnOk result (out.new.items ≡ out.old.items ++ page_text (faulty_pieces faulty all)) }
{
    if faulty == 0 {
        put(out, Fragment::Clean)?;
        put_number(out, all)?;
        return put(out, Fragment::FaultyEnd);
    }
    put(out, Fragment::Faulty)?;
    put_number(out, faulty)?;
    put(out, Fragment::FaultyOf)?;
    put_number(out, all)?;
    put(out, Fragment::FaultyEnd)
}

/// Appends what is known of a file, which has so many remarks.
#[tactic(auto, using(html_text::proofs::lemmas::Pages::page_append), unfolding(crate::specs::Facts::facts_pieces))]
fn put_facts<A: Allocator>(
    out: &mut Vec<u8, A>,
    bytes: &[u8],
    report: &Report<A>,
    remarks: u64,
) -> Result<(), Memory>
    ensures { OnOk result (out.new.items ≡ out.old.items ++ page_text (facts_pieces (lines bytes.now) report.now remarks)) }
{
    put(out, Fragment::Facts)?;
    put_some_header(out, line_of(bytes, 1), &report.refused)?;
    put_counts(out, bytes, report.transactions, &report.refused)?;
    put_linked(
        out,
        Fragment::Faults,
        fault_count(&report.findings, &report.refused),
    )?;
    put_linked(out, Fragment::Remarks, remarks)?;
    put(out, Fragment::FactsEnd)
}

/// Appends what HDR says, if the file is not refused, or for a line behind HDR.
#[tactic(auto, unfolding(crate::specs::Facts::some_header_pieces))]
fn put_some_header<A: Allocator>(
    out: &mut Vec<u8, A>,
    line: &[u8],
    refused: &Option<FileFinding>,
) -> Result<(), Memory>
    ensures { OnOk result (out.new.items ≡ out.old.items ++ page_text (some_header_pieces line.now refused.now)) }
{
    match refused {
        Some(refused) if refused.line <= 1 => Ok(()),
        _ => put_header(out, line),
    }
}

/// Appends how many groups and transactions a well-formed file has.
#[tactic(auto, unfolding(crate::specs::Facts::counts_pieces))]
fn put_counts<A: Allocator>(
    out: &mut Vec<u8, A>,
    bytes: &[u8],
    transactions: u64,
    refused: &Option<FileFinding>,
) -> Result<(), Memory>
    ensures { OnOk result (out.new.items ≡ out.old.items ++ page_text (counts_pieces (lines bytes.now) transactions refused.now)) }
{
    if refused.is_some() {
        return Ok(());
    }
    put(out, Fragment::Groups)?;
    put_number(out, count_groups(bytes))?;
    put(out, Fragment::Dd)?;
    put(out, Fragment::Transactions)?;
    put_number(out, transactions)?;
    put(out, Fragment::Dd)
}

/// The number of lines that begin a group.
fn count_groups(bytes: &[u8]) -> u64
    ensures { result ≡ count_by is_group_line (lines bytes.now) }
{
    let mut groups = 0;
    for line in Lines::of(bytes) {
        if is_group_line(line) {
            groups += 1;
        }
    }
    groups
}

/// Whether a line begins a group.
fn is_group_line(line: &[u8]) -> bool
    ensures { result ≡ is_group_line line.now }
{
    field_at(line, RecordType::COLUMN).bytes::<3>() == *b"GRH"
}

/// Appends a number with a link to what is counted, if there is some.
#[tactic(auto, unfolding(crate::specs::Facts::linked_pieces))]
fn put_linked<A: Allocator>(
    out: &mut Vec<u8, A>,
    begin: Fragment,
    number: u64,
) -> Result<(), Memory>
    ensures { OnOk result (out.new.items ≡ out.old.items ++ page_text (linked_pieces begin number)) }
{
    if number == 0 {
        return Ok(());
    }
    put(out, begin)?;
    put_number(out, number)?;
    put(out, Fragment::ADd)
}

/// Appends the index by rule, and the heading of the faults, if there are some.
#[tactic(auto, using(html_text::proofs::lemmas::Pages::page_append), unfolding(crate::specs::Facts::index_pieces))]
fn put_index<A: Allocator>(
    out: &mut Vec<u8, A>,
    text: &mut Vec<u8, A>,
    findings: &[Finding],
    refused: &Option<FileFinding>,
) -> Result<(), Memory>
    ensures { OnOk result (out.new.items ≡ out.old.items ++ page_text (index_pieces findings.now refused.now)) }
{
    if fault_count(findings, refused) == 0 {
        return Ok(());
    }
    put(out, Fragment::Rules)?;
    put_rules(out, text, findings, refused)?;
    put(out, Fragment::RulesEnd)?;
    put(out, Fragment::FaultsHead)?;
    put_signs(out)
}

/// Appends what the signs in boxes are.
#[tactic(auto, unfolding(crate::specs::Facts::signs_pieces))]
pub(crate) fn put_signs<A: Allocator>(out: &mut Vec<u8, A>) -> Result<(), Memory>
    ensures { OnOk result (out.new.items ≡ out.old.items ++ page_text signs_pieces) }
{
    put(out, Fragment::Signs)?;
    put(out, Fragment::Blank)?;
    put(out, Fragment::SignsBeyond)?;
    put(out, Fragment::Beyond)?;
    put(out, Fragment::SignsEnd)
}

/// Appends the rules that are broken.
#[tactic(auto, unfolding(crate::specs::Facts::rules_pieces))]
fn put_rules<A: Allocator>(
    out: &mut Vec<u8, A>,
    text: &mut Vec<u8, A>,
    findings: &[Finding],
    refused: &Option<FileFinding>,
) -> Result<(), Memory>
    ensures { OnOk result (out.new.items ≡ out.old.items ++ page_text (rules_pieces findings.now refused.now)) }
{
    match refused {
        None => put_rows(out, text, findings),
        Some(refused) => put_broken_row(out, text, OF_FILES, refused.number, 1),
    }
}

/// Appends the rows of the rules of transactions that are broken.
fn put_rows<A: Allocator>(
    out: &mut Vec<u8, A>,
    text: &mut Vec<u8, A>,
    findings: &[Finding],
) -> Result<(), Memory>
    ensures { OnOk result (out.new.items ≡ out.old.items ++ page_text (rows_pieces findings.now 15)) }
{
    let tally = RuleCounts::of(findings);
    for before in 0..LAST_RULE {
        put_broken_row(
            out,
            text,
            OF_TRANSACTIONS,
            before + 1,
            tally.count(before + 1),
        )?;
    }
    Ok(())
}
