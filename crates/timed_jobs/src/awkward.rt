//! What occurs seldom: every rule broken, files that are refused, groups without a transaction, a work of very many
//! records, and small and large files verified.

use crate::chance::Chance;
use crate::crowds::crowd_of_titles;
use crate::digest::Digest;
use crate::refused::refused_file;
use crate::reports::take;
use crate::sheet::empty_groups;
use crate::verified::verified;
use cwr_check::Checked;
use cwr_field::Memory;
use cwr_remarks::{remarked_json, remarked_long};
use cwr_report::report_on;
use report_json::{json_text_with, text_value};
use std::alloc::Global;

/// A text with what JSON escapes, in short and as `\u001b`, and with a letter of two bytes.
const SAID: &str = "\"CAFÉ SONG\" \\ AND MORE OF THIS KIND\x1b";

/// Reports on works of which each breaks a rule or has a remark, on files that are refused, on groups without a
/// transaction, and on a work of very many records; and small and large files against a register.
pub(crate) fn awkward(alloc: Global, size: u32, chance: &mut Chance) -> Result<Digest, Memory> {
    let mut digest = Digest::new();
    for _ in 0..8 {
        let text = refused_file(alloc, size, 0, chance)?;
        digest_all_reports(alloc, &text, &mut digest)?;
    }
    for fault in 1..=12u32 {
        let text = refused_file(alloc, size / 4, fault, chance)?;
        digest_all_reports(alloc, &text, &mut digest)?;
    }
    let many = size.saturating_mul(8);
    digest_all_reports(alloc, &empty_groups(alloc, many)?, &mut digest)?;
    let titles = crowd_of_titles(alloc, many, chance)?;
    digest_all_reports(alloc, &titles, &mut digest)?;
    verified(alloc, size, chance, &mut digest)?;
    Ok(digest)
}

/// The reports on a file, as they are and with one more member.
fn digest_all_reports(alloc: Global, text: &[u8], digest: &mut Digest) -> Result<(), Memory> {
    digest_reports(alloc, text, digest)?;
    digest_reports_with_member(alloc, text, digest)
}

/// The reports on a file, for a program and for a person.
fn digest_reports(alloc: Global, text: &[u8], digest: &mut Digest) -> Result<(), Memory> {
    take(remarked_json(alloc, text)?, digest);
    take_unquoted(alloc, &remarked_long(alloc, text)?, digest)
}

/// The report for a person, each line up to its first quote. What is quoted is taken from the report for a program; how
/// a byte that is not printed is shown between quotes differs from build to build.
fn take_unquoted(alloc: Global, told: &Checked, digest: &mut Digest) -> Result<(), Memory> {
    let mut unquoted = Vec::with_capacity(alloc, told.text.len())?;
    let mut quoted = false;
    for byte in &told.text {
        match *byte {
            b'\n' => quoted = false,
            b'"' => quoted = true,
            _ => {}
        }
        if !quoted {
            unquoted.push(*byte)?;
        }
    }
    digest.text(&unquoted);
    digest.number(told.clean as u64);
    Ok(())
}

/// The report on a file, with one more member before, between, in place of and behind those that it has.
fn digest_reports_with_member(
    alloc: Global,
    text: &[u8],
    digest: &mut Digest,
) -> Result<(), Memory> {
    let report = report_on(alloc, text)?;
    for name in ["a", "found", "refused", "z"] {
        let value = text_value(alloc, SAID.as_bytes())?;
        digest.text(&json_text_with(alloc, text, &report, name, value)?);
    }
    Ok(())
}
