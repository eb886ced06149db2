//! What `check --html` and `summary --html` print: a page that begins and ends as one of HTML, its heading, the status;
//! and which arguments they are not taken with.

use crate::printed_tables::REGISTER;
use purvilgo_command::run_program;
use std::process::ExitCode;
use std::sync::Wait;
use std::test::Fail;
use std::thread::Threads;
use test_comparisons::{same, same_bytes, same_text};
use test_files::{miscounted, plain_file};
use test_program::{Fake, expect_program};

/// What a page begins with.
const BEGIN: &[u8] = b"<!DOCTYPE html>\n<html lang=\"en\">\n<head>\n<meta charset=\"utf-8\">\n";

/// What a page ends with.
const END: &[u8] = b"</main>\n</body>\n</html>\n";

/// Whether some bytes stand in a page.
fn stands_in(page: &[u8], text: &[u8]) -> bool {
    !text.is_empty() && page.windows(text.len()).any(|part| part == text)
}

/// The program must print a page with this text alone, and end with this status.
fn expect_page<T: AllocGlobal + Threads + Wait + Sync>(
    fake: Fake<T>,
    status: ExitCode,
    text: &[u8],
) -> Result<(), Fail> {
    let ended = run_program(&fake);
    let (page, told) = fake.into_texts();
    same_text("standard error", told.as_str(), "")?;
    same_bytes("its begin", page.get(..BEGIN.len()).unwrap_or(&[]), BEGIN)?;
    let end = page.len().saturating_sub(END.len());
    same_bytes("its end", page.get(end..).unwrap_or(&[]), END)?;
    same("its text", &stands_in(&page, text), &true)?;
    same("its status", &ended, &status)
}

#[test]
fn shows_a_clean_file(rt: HostRuntime) -> Result<(), Fail> {
    let input = plain_file(rt.alloc())?;
    let fake = Fake::new(&rt, &["purvilgo", "check", "--html", "-"], &input);
    let text =
        b"<h1>Check of standard input</h1>\n<p class=\"outcome\">No faults in 1 transactions.</p>\n";
    expect_page(fake, ExitCode::SUCCESS, text)
}

#[test]
fn shows_a_refused_file(rt: HostRuntime) -> Result<(), Fail> {
    let input = miscounted(rt.alloc())?;
    let fake = Fake::new(&rt, &["purvilgo", "check", "--html", "-"], &input);
    let text =
        b"<a href=\"#F9.1\">F9: the counts of GRT are not those of the group</a>, at line 5.</p>\n";
    expect_page(fake, ExitCode::FAILURE, text)
}

#[test]
fn shows_a_register(rt: HostRuntime) -> Result<(), Fail> {
    let words = ["purvilgo", "summary", "--html", "-"];
    let text =
        b"<tr><th scope=\"row\">conflicts (CO)</th><td class=\"number\">1</td><td><svg viewBox=\"0 0 320 10\" preserveAspectRatio=\"none\" role=\"img\" aria-label=\"1 of 3\"><rect width=\"107\" height=\"10\"/></svg></td></tr>\n";
    expect_page(Fake::new(&rt, &words, REGISTER), ExitCode::SUCCESS, text)
}

#[test]
fn shows_no_refused_register(rt: HostRuntime) -> Result<(), Fail> {
    let words = ["purvilgo", "summary", "--html", "-"];
    let fake = Fake::new(&rt, &words, b"no register\n");
    expect_program(fake, ExitCode::FAILURE, b"refused G1 at line 1\n", "")
}

#[test]
fn takes_one_file_alone(rt: HostRuntime) -> Result<(), Fail> {
    let words = ["purvilgo", "check", "--html", "a.v22", "b.v22"];
    let told = "--html goes with one FILE alone\n";
    expect_program(Fake::new(&rt, &words, b""), ExitCode::from(2), b"", told)
}

#[test]
fn prints_no_page_of_a_file_that_is_not_there(rt: HostRuntime) -> Result<(), Fail> {
    let words = ["purvilgo", "check", "--html", "a.v22"];
    let told = "stopped: read\n";
    expect_program(Fake::new(&rt, &words, b""), ExitCode::FAILURE, b"", told)
}

#[test]
fn is_not_taken_with_the_other_forms(rt: HostRuntime) -> Result<(), Fail> {
    for form in ["--long", "--json", "--quiet"] {
        let words = ["purvilgo", "check", form, "--html", "-"];
        let fake = Fake::new(&rt, &words, b"");
        let ended = run_program(&fake);
        let (printed, told) = fake.into_texts();
        same_bytes("its standard output", &printed, b"")?;
        same("--html", &told.contains("--html"), &true)?;
        same("its status", &ended, &ExitCode::from(2))?;
    }
    Ok(())
}

/// A page of which standard output takes the first bytes alone.
#[test]
fn tells_that_a_page_is_cut(rt: HostRuntime) -> Result<(), Fail> {
    let input = plain_file(rt.alloc())?;
    let fake = Fake::new(&rt, &["purvilgo", "check", "--html", "-"], &input).taking(15);
    let told = "standard output: stopped: write after 15 bytes\n";
    expect_program(fake, ExitCode::FAILURE, b"<!DOCTYPE html>", told)
}

#[test]
fn tells_that_the_page_of_a_summary_is_cut(rt: HostRuntime) -> Result<(), Fail> {
    let words = ["purvilgo", "summary", "--html", "-"];
    let fake = Fake::new(&rt, &words, REGISTER).taking(15);
    let told = "standard output: stopped: write after 15 bytes\n";
    expect_program(fake, ExitCode::FAILURE, b"<!DOCTYPE html>", told)
}
