//! Pages of checks.

use crate::pages::{
    CLEAN, CLEAN_PAGE, CLEAN_SIZE, FAULTY, FAULTY_PAGE, FAULTY_SIZE, REFUSED, REFUSED_PAGE,
    REFUSED_SIZE,
};
use check_pages::{PageError, WrittenPage, check_page};
use std::alloc::Global;
use std::io;
use std::io::Write;
use std::test::Fail;
use test_comparisons::{same, same_bytes};

/// The name of each file.
const NAME: &str = "a \"b\" & c.v22";

/// What a page of a file of that name begins with.
const HEAD: &[u8] = b"<!DOCTYPE html>\n\
<html lang=\"en\">\n\
<head>\n\
<meta charset=\"utf-8\">\n\
<meta name=\"viewport\" content=\"width=device-width, initial-scale=1\">\n\
<meta http-equiv=\"Content-Security-Policy\" content=\"default-src 'none'; style-src 'unsafe-inline'\">\n\
<title>a &quot;b&quot; &amp; c.v22: purvilgo check</title>\n\
<style>\n";

/// The heading of its page.
const HEADING: &[u8] = b"<h1>Check of a &quot;b&quot; &amp; c.v22";

/// A writer that takes nothing.
#[derive(Drop)]
struct Full;

impl Write for Full {
    fn write(&mut self, _bytes: &[u8]) -> io::Result<usize> {
        Err(io::Error::from(io::ErrorKind::StorageFull))
    }

    fn flush(&mut self) -> io::Result<()> {
        Ok(())
    }
}

/// A complete page.
fn whole<W: Drop>(page: Result<WrittenPage<W>, PageError>) -> Result<WrittenPage<W>, Fail> {
    match page {
        Ok(page) => Ok(page),
        Err(error) => Err(Fail::new(format_args!("the page ends with {error:?}"))),
    }
}

/// The last bytes of a page.
fn last(page: &[u8], count: usize) -> &[u8] {
    page.get(page.len().saturating_sub(count)..).unwrap_or(&[])
}

/// The page of a file must have this size, and must end with its heading and this text.
fn expect_page(
    alloc: Global,
    bytes: &[u8],
    clean: bool,
    size: usize,
    text: &[u8],
) -> Result<(), Fail> {
    let page = whole(check_page(alloc, Vec::new(alloc), NAME, bytes))?;
    same("whether it is clean", &page.clean, &clean)?;
    same_bytes("its begin", page.to.get(..HEAD.len()).unwrap_or(&[]), HEAD)?;
    same_bytes("its text", last(&page.to, text.len()), text)?;
    let mut end = HEADING.to_vec(alloc)?;
    end.extend_from_slice(text)?;
    same_bytes("its heading", last(&page.to, end.len()), &end)?;
    same("its size", &page.to.len(), &size)
}

#[test]
fn shows_faults_and_a_remark(rt: HostRuntime) -> Result<(), Fail> {
    expect_page(rt.alloc(), FAULTY, false, FAULTY_SIZE, FAULTY_PAGE)
}

#[test]
fn shows_why_a_file_is_refused(rt: HostRuntime) -> Result<(), Fail> {
    expect_page(rt.alloc(), REFUSED, false, REFUSED_SIZE, REFUSED_PAGE)
}

#[test]
fn shows_that_a_file_is_clean(rt: HostRuntime) -> Result<(), Fail> {
    expect_page(rt.alloc(), CLEAN, true, CLEAN_SIZE, CLEAN_PAGE)
}

#[test]
fn tells_a_failed_write(rt: HostRuntime) -> Result<(), Fail> {
    let page = check_page(rt.alloc(), Full, NAME, FAULTY);
    same("its end", &page.err(), &Some(PageError::Write))
}
