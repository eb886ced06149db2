//! Pages of summaries.

use std::alloc::Global;
use std::io;
use std::io::Write;
use std::test::Fail;
use summary_pages::{PageError, summary_page};
use test_comparisons::{same, same_bytes};
use work_registry::{Book, read_register};

/// The name of each register.
const NAME: &str = "a \"b\" & c.txt";

/// The heading of its page.
const HEADING: &[u8] = b"<h1>Summary of a &quot;b&quot; &amp; c.txt";

/// A claim, a conflict and a rejection.
const REGISTER: &[u8] = b"REG00000003\n\
ENT00000001PB000000123NWRSONG ONE                                                    W1            T0345246801000000006000000000006000000000006000AS0000000100000001000000000\n\
ENT00000002PB000000456NWRSONG ONE                                                    W7            T0345246801000000005000000000005000000000005000CO0000000100000000000000000\n\
ENT00000003PB000000456REVSONG ONE                                                    W7                       000000005000000000005000000000005000RJ00000000000000000000000010000000004REV\n";

/// What stands behind the heading of its page, by the prototype of the pages.
const PAGE: &[u8] = b"</h1>\n\
<dl>\n\
<dt>entries</dt><dd>3</dd>\n\
<dt>works</dt><dd>1</dd>\n\
<dt>current claims</dt><dd>1</dd>\n\
<dt>submitters</dt><dd>2</dd>\n\
</dl>\n\
<h2>Entries by status</h2>\n\
<table>\n\
<thead><tr><th scope=\"col\">status</th><th scope=\"col\" class=\"number\">entries</th><th scope=\"col\">whole bar: 3</th></tr></thead>\n\
<tbody>\n\
<tr><th scope=\"row\">accepted (AS)</th><td class=\"number\">1</td><td><svg viewBox=\"0 0 320 10\" preserveAspectRatio=\"none\" role=\"img\" aria-label=\"1 of 3\"><rect width=\"107\" height=\"10\"/></svg></td></tr>\n\
<tr><th scope=\"row\">duplicates (DU)</th><td class=\"number\">0</td><td><svg viewBox=\"0 0 320 10\" preserveAspectRatio=\"none\" role=\"img\" aria-label=\"0 of 3\"><rect width=\"0\" height=\"10\"/></svg></td></tr>\n\
<tr><th scope=\"row\">conflicts (CO)</th><td class=\"number\">1</td><td><svg viewBox=\"0 0 320 10\" preserveAspectRatio=\"none\" role=\"img\" aria-label=\"1 of 3\"><rect width=\"107\" height=\"10\"/></svg></td></tr>\n\
<tr><th scope=\"row\">rejected (RJ)</th><td class=\"number\">1</td><td><svg viewBox=\"0 0 320 10\" preserveAspectRatio=\"none\" role=\"img\" aria-label=\"1 of 3\"><rect width=\"107\" height=\"10\"/></svg></td></tr>\n\
</tbody>\n\
</table>\n\
<h2>Works by what is left of the performing right</h2>\n\
<table>\n\
<thead><tr><th scope=\"col\">left</th><th scope=\"col\" class=\"number\">works</th><th scope=\"col\">whole bar: 1</th></tr></thead>\n\
<tbody>\n\
<tr><th scope=\"row\">none</th><td class=\"number\">0</td><td><svg viewBox=\"0 0 320 10\" preserveAspectRatio=\"none\" role=\"img\" aria-label=\"0 of 1\"><rect width=\"0\" height=\"10\"/></svg></td></tr>\n\
<tr><th scope=\"row\">up to a quarter</th><td class=\"number\">0</td><td><svg viewBox=\"0 0 320 10\" preserveAspectRatio=\"none\" role=\"img\" aria-label=\"0 of 1\"><rect width=\"0\" height=\"10\"/></svg></td></tr>\n\
<tr><th scope=\"row\">up to a half</th><td class=\"number\">1</td><td><svg viewBox=\"0 0 320 10\" preserveAspectRatio=\"none\" role=\"img\" aria-label=\"1 of 1\"><rect width=\"320\" height=\"10\"/></svg></td></tr>\n\
<tr><th scope=\"row\">more than a half</th><td class=\"number\">0</td><td><svg viewBox=\"0 0 320 10\" preserveAspectRatio=\"none\" role=\"img\" aria-label=\"0 of 1\"><rect width=\"0\" height=\"10\"/></svg></td></tr>\n\
<tr><th scope=\"row\">all</th><td class=\"number\">0</td><td><svg viewBox=\"0 0 320 10\" preserveAspectRatio=\"none\" role=\"img\" aria-label=\"0 of 1\"><rect width=\"0\" height=\"10\"/></svg></td></tr>\n\
</tbody>\n\
</table>\n\
<h2>Works by what is left of the mechanical right</h2>\n\
<table>\n\
<thead><tr><th scope=\"col\">left</th><th scope=\"col\" class=\"number\">works</th><th scope=\"col\">whole bar: 1</th></tr></thead>\n\
<tbody>\n\
<tr><th scope=\"row\">none</th><td class=\"number\">0</td><td><svg viewBox=\"0 0 320 10\" preserveAspectRatio=\"none\" role=\"img\" aria-label=\"0 of 1\"><rect width=\"0\" height=\"10\"/></svg></td></tr>\n\
<tr><th scope=\"row\">up to a quarter</th><td class=\"number\">0</td><td><svg viewBox=\"0 0 320 10\" preserveAspectRatio=\"none\" role=\"img\" aria-label=\"0 of 1\"><rect width=\"0\" height=\"10\"/></svg></td></tr>\n\
<tr><th scope=\"row\">up to a half</th><td class=\"number\">1</td><td><svg viewBox=\"0 0 320 10\" preserveAspectRatio=\"none\" role=\"img\" aria-label=\"1 of 1\"><rect width=\"320\" height=\"10\"/></svg></td></tr>\n\
<tr><th scope=\"row\">more than a half</th><td class=\"number\">0</td><td><svg viewBox=\"0 0 320 10\" preserveAspectRatio=\"none\" role=\"img\" aria-label=\"0 of 1\"><rect width=\"0\" height=\"10\"/></svg></td></tr>\n\
<tr><th scope=\"row\">all</th><td class=\"number\">0</td><td><svg viewBox=\"0 0 320 10\" preserveAspectRatio=\"none\" role=\"img\" aria-label=\"0 of 1\"><rect width=\"0\" height=\"10\"/></svg></td></tr>\n\
</tbody>\n\
</table>\n\
<h2>Works by what is left of the synchronization right</h2>\n\
<table>\n\
<thead><tr><th scope=\"col\">left</th><th scope=\"col\" class=\"number\">works</th><th scope=\"col\">whole bar: 1</th></tr></thead>\n\
<tbody>\n\
<tr><th scope=\"row\">none</th><td class=\"number\">0</td><td><svg viewBox=\"0 0 320 10\" preserveAspectRatio=\"none\" role=\"img\" aria-label=\"0 of 1\"><rect width=\"0\" height=\"10\"/></svg></td></tr>\n\
<tr><th scope=\"row\">up to a quarter</th><td class=\"number\">0</td><td><svg viewBox=\"0 0 320 10\" preserveAspectRatio=\"none\" role=\"img\" aria-label=\"0 of 1\"><rect width=\"0\" height=\"10\"/></svg></td></tr>\n\
<tr><th scope=\"row\">up to a half</th><td class=\"number\">1</td><td><svg viewBox=\"0 0 320 10\" preserveAspectRatio=\"none\" role=\"img\" aria-label=\"1 of 1\"><rect width=\"320\" height=\"10\"/></svg></td></tr>\n\
<tr><th scope=\"row\">more than a half</th><td class=\"number\">0</td><td><svg viewBox=\"0 0 320 10\" preserveAspectRatio=\"none\" role=\"img\" aria-label=\"0 of 1\"><rect width=\"0\" height=\"10\"/></svg></td></tr>\n\
<tr><th scope=\"row\">all</th><td class=\"number\">0</td><td><svg viewBox=\"0 0 320 10\" preserveAspectRatio=\"none\" role=\"img\" aria-label=\"0 of 1\"><rect width=\"0\" height=\"10\"/></svg></td></tr>\n\
</tbody>\n\
</table>\n\
<h2>Submitters with the most entries, ten at most</h2>\n\
<table>\n\
<thead><tr><th scope=\"col\">submitter</th><th scope=\"col\" class=\"number\">entries</th><th scope=\"col\">whole bar: 2</th></tr></thead>\n\
<tbody>\n\
<tr><th scope=\"row\"><code>PB000000456</code></th><td class=\"number\">2</td><td><svg viewBox=\"0 0 320 10\" preserveAspectRatio=\"none\" role=\"img\" aria-label=\"2 of 2\"><rect width=\"320\" height=\"10\"/></svg></td></tr>\n\
<tr><th scope=\"row\"><code>PB000000123</code></th><td class=\"number\">1</td><td><svg viewBox=\"0 0 320 10\" preserveAspectRatio=\"none\" role=\"img\" aria-label=\"1 of 2\"><rect width=\"160\" height=\"10\"/></svg></td></tr>\n\
</tbody>\n\
</table>\n\
<h2>Works with the most conflicts, ten at most</h2>\n\
<table>\n\
<thead><tr><th scope=\"col\">work</th><th scope=\"col\" class=\"number\">conflicts</th><th scope=\"col\">whole bar: 1</th></tr></thead>\n\
<tbody>\n\
<tr><th scope=\"row\">1</th><td class=\"number\">1</td><td><svg viewBox=\"0 0 320 10\" preserveAspectRatio=\"none\" role=\"img\" aria-label=\"1 of 1\"><rect width=\"320\" height=\"10\"/></svg></td></tr>\n\
</tbody>\n\
</table>\n\
</main>\n\
</body>\n\
</html>\n";

/// The size of its page.
const SIZE: usize = 8335;

/// What stands behind the heading of the page of a register without entries.
const EMPTY_PAGE: &[u8] = b"</h1>\n\
<dl>\n\
<dt>entries</dt><dd>0</dd>\n\
<dt>works</dt><dd>0</dd>\n\
<dt>current claims</dt><dd>0</dd>\n\
<dt>submitters</dt><dd>0</dd>\n\
</dl>\n\
<h2>Entries by status</h2>\n\
<table>\n\
<thead><tr><th scope=\"col\">status</th><th scope=\"col\" class=\"number\">entries</th><th scope=\"col\">whole bar: 0</th></tr></thead>\n\
<tbody>\n\
<tr><th scope=\"row\">accepted (AS)</th><td class=\"number\">0</td><td><svg viewBox=\"0 0 320 10\" preserveAspectRatio=\"none\" role=\"img\" aria-label=\"0 of 0\"><rect width=\"0\" height=\"10\"/></svg></td></tr>\n\
<tr><th scope=\"row\">duplicates (DU)</th><td class=\"number\">0</td><td><svg viewBox=\"0 0 320 10\" preserveAspectRatio=\"none\" role=\"img\" aria-label=\"0 of 0\"><rect width=\"0\" height=\"10\"/></svg></td></tr>\n\
<tr><th scope=\"row\">conflicts (CO)</th><td class=\"number\">0</td><td><svg viewBox=\"0 0 320 10\" preserveAspectRatio=\"none\" role=\"img\" aria-label=\"0 of 0\"><rect width=\"0\" height=\"10\"/></svg></td></tr>\n\
<tr><th scope=\"row\">rejected (RJ)</th><td class=\"number\">0</td><td><svg viewBox=\"0 0 320 10\" preserveAspectRatio=\"none\" role=\"img\" aria-label=\"0 of 0\"><rect width=\"0\" height=\"10\"/></svg></td></tr>\n\
</tbody>\n\
</table>\n\
<h2>Works by what is left of the performing right</h2>\n\
<table>\n\
<thead><tr><th scope=\"col\">left</th><th scope=\"col\" class=\"number\">works</th><th scope=\"col\">whole bar: 0</th></tr></thead>\n\
<tbody>\n\
<tr><th scope=\"row\">none</th><td class=\"number\">0</td><td><svg viewBox=\"0 0 320 10\" preserveAspectRatio=\"none\" role=\"img\" aria-label=\"0 of 0\"><rect width=\"0\" height=\"10\"/></svg></td></tr>\n\
<tr><th scope=\"row\">up to a quarter</th><td class=\"number\">0</td><td><svg viewBox=\"0 0 320 10\" preserveAspectRatio=\"none\" role=\"img\" aria-label=\"0 of 0\"><rect width=\"0\" height=\"10\"/></svg></td></tr>\n\
<tr><th scope=\"row\">up to a half</th><td class=\"number\">0</td><td><svg viewBox=\"0 0 320 10\" preserveAspectRatio=\"none\" role=\"img\" aria-label=\"0 of 0\"><rect width=\"0\" height=\"10\"/></svg></td></tr>\n\
<tr><th scope=\"row\">more than a half</th><td class=\"number\">0</td><td><svg viewBox=\"0 0 320 10\" preserveAspectRatio=\"none\" role=\"img\" aria-label=\"0 of 0\"><rect width=\"0\" height=\"10\"/></svg></td></tr>\n\
<tr><th scope=\"row\">all</th><td class=\"number\">0</td><td><svg viewBox=\"0 0 320 10\" preserveAspectRatio=\"none\" role=\"img\" aria-label=\"0 of 0\"><rect width=\"0\" height=\"10\"/></svg></td></tr>\n\
</tbody>\n\
</table>\n\
<h2>Works by what is left of the mechanical right</h2>\n\
<table>\n\
<thead><tr><th scope=\"col\">left</th><th scope=\"col\" class=\"number\">works</th><th scope=\"col\">whole bar: 0</th></tr></thead>\n\
<tbody>\n\
<tr><th scope=\"row\">none</th><td class=\"number\">0</td><td><svg viewBox=\"0 0 320 10\" preserveAspectRatio=\"none\" role=\"img\" aria-label=\"0 of 0\"><rect width=\"0\" height=\"10\"/></svg></td></tr>\n\
<tr><th scope=\"row\">up to a quarter</th><td class=\"number\">0</td><td><svg viewBox=\"0 0 320 10\" preserveAspectRatio=\"none\" role=\"img\" aria-label=\"0 of 0\"><rect width=\"0\" height=\"10\"/></svg></td></tr>\n\
<tr><th scope=\"row\">up to a half</th><td class=\"number\">0</td><td><svg viewBox=\"0 0 320 10\" preserveAspectRatio=\"none\" role=\"img\" aria-label=\"0 of 0\"><rect width=\"0\" height=\"10\"/></svg></td></tr>\n\
<tr><th scope=\"row\">more than a half</th><td class=\"number\">0</td><td><svg viewBox=\"0 0 320 10\" preserveAspectRatio=\"none\" role=\"img\" aria-label=\"0 of 0\"><rect width=\"0\" height=\"10\"/></svg></td></tr>\n\
<tr><th scope=\"row\">all</th><td class=\"number\">0</td><td><svg viewBox=\"0 0 320 10\" preserveAspectRatio=\"none\" role=\"img\" aria-label=\"0 of 0\"><rect width=\"0\" height=\"10\"/></svg></td></tr>\n\
</tbody>\n\
</table>\n\
<h2>Works by what is left of the synchronization right</h2>\n\
<table>\n\
<thead><tr><th scope=\"col\">left</th><th scope=\"col\" class=\"number\">works</th><th scope=\"col\">whole bar: 0</th></tr></thead>\n\
<tbody>\n\
<tr><th scope=\"row\">none</th><td class=\"number\">0</td><td><svg viewBox=\"0 0 320 10\" preserveAspectRatio=\"none\" role=\"img\" aria-label=\"0 of 0\"><rect width=\"0\" height=\"10\"/></svg></td></tr>\n\
<tr><th scope=\"row\">up to a quarter</th><td class=\"number\">0</td><td><svg viewBox=\"0 0 320 10\" preserveAspectRatio=\"none\" role=\"img\" aria-label=\"0 of 0\"><rect width=\"0\" height=\"10\"/></svg></td></tr>\n\
<tr><th scope=\"row\">up to a half</th><td class=\"number\">0</td><td><svg viewBox=\"0 0 320 10\" preserveAspectRatio=\"none\" role=\"img\" aria-label=\"0 of 0\"><rect width=\"0\" height=\"10\"/></svg></td></tr>\n\
<tr><th scope=\"row\">more than a half</th><td class=\"number\">0</td><td><svg viewBox=\"0 0 320 10\" preserveAspectRatio=\"none\" role=\"img\" aria-label=\"0 of 0\"><rect width=\"0\" height=\"10\"/></svg></td></tr>\n\
<tr><th scope=\"row\">all</th><td class=\"number\">0</td><td><svg viewBox=\"0 0 320 10\" preserveAspectRatio=\"none\" role=\"img\" aria-label=\"0 of 0\"><rect width=\"0\" height=\"10\"/></svg></td></tr>\n\
</tbody>\n\
</table>\n\
</main>\n\
</body>\n\
</html>\n";

/// The size of that page.
const EMPTY_SIZE: usize = 7282;

/// A writer that takes nothing.
#[derive(Drop)]
struct Full;

impl Write for Full {
    fn write(&mut self, _bytes: &[u8]) -> io::Result<usize> {
        Err(io::Error::from(io::ErrorKind::StorageFull))
    }

    fn flush(&mut self) -> io::Result<()> {
        Ok(())
    }
}

/// The book of a register.
fn book_of(alloc: Global, register: &[u8]) -> Result<Book, Fail> {
    let Ok(book) = read_register(alloc, register, 100) else {
        return Err(Fail::new("the register is refused"));
    };
    Ok(book)
}

/// The last bytes of a page.
fn last(page: &[u8], count: usize) -> &[u8] {
    page.get(page.len().saturating_sub(count)..).unwrap_or(&[])
}

/// The page of a register.
fn page_of(alloc: Global, register: &[u8]) -> Result<Vec<u8>, Fail> {
    let book = book_of(alloc, register)?;
    match summary_page(alloc, Vec::new(alloc), NAME, &book) {
        Ok(page) => Ok(page),
        Err(_) => Err(Fail::new("the page is not written")),
    }
}

/// The page of a register must have this size, and must end with its heading and this text.
fn expect_page(alloc: Global, register: &[u8], size: usize, wanted: &[u8]) -> Result<(), Fail> {
    let page = page_of(alloc, register)?;
    same("the size", &page.len(), &size)?;
    let mut text = HEADING.to_vec(alloc)?;
    text.extend_from_slice(wanted)?;
    same_bytes("the page", last(&page, text.len()), &text)
}

#[test]
fn shows_summaries(rt: HostRuntime) -> Result<(), Fail> {
    expect_page(rt.alloc(), REGISTER, SIZE, PAGE)
}

#[test]
fn shows_a_register_without_entries(rt: HostRuntime) -> Result<(), Fail> {
    expect_page(rt.alloc(), b"REG00000000\n", EMPTY_SIZE, EMPTY_PAGE)
}

#[test]
fn tells_a_failed_write_of_a_summary(rt: HostRuntime) -> Result<(), Fail> {
    let alloc = rt.alloc();
    let book = book_of(alloc, REGISTER)?;
    match summary_page(alloc, Full, NAME, &book) {
        Err(PageError::Write) => Ok(()),
        _ => Err(Fail::new("the write did not fail")),
    }
}
