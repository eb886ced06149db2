//! Pages of checks.

use check_pages::{PageError, WrittenPage, check_page};
use failing_alloc::{Ended, FailingAlloc, Sweep, answered, refuse_each, refused};
use std::alloc::Global;
use std::test::Fail;
use test_comparisons::{same, same_bytes};
use test_files::{file_of_lines, miscounted, plain_file, work};

/// The name of each file.
const NAME: &str = "a & b.v22";

/// What every page of a file of that name has above its outcome.
const HEADING: &[u8] = b"<h1>Check of a &amp; b.v22</h1>\n<p class=\"outcome\">";

/// The end of every page.
const END: &[u8] = b"</main>\n</body>\n</html>\n";

/// A page that is written where there is memory, of a file with these bytes.
#[derive(Drop)]
struct CheckPage<'a> {
    alloc: Global,
    bytes: &'a [u8],
    page: &'a [u8],
    clean: bool,
}

impl Sweep for CheckPage<'_> {
    fn ends(&self, memory: &FailingAlloc) -> Ended {
        let mut text = Vec::new(self.alloc);
        match check_page(memory, &mut text, NAME, self.bytes) {
            Ok(page) => {
                same("clean", &page.clean, &self.clean)?;
                answered(same_bytes("page", &text, self.page))
            }
            Err(PageError::Memory) => {
                refused(same("a front", &self.page.starts_with(&text), &true))
            }
            Err(PageError::Write) => Err(Fail::new("a failed write")),
        }
    }
}

/// A complete page.
fn whole<W: Drop>(page: Result<WrittenPage<W>, PageError>) -> Result<W, Fail> {
    match page {
        Ok(page) => Ok(page.to),
        Err(_) => Err(Fail::new("the page is not written")),
    }
}

/// A page must have this text.
fn expect_text(page: &[u8], text: &[u8]) -> Result<(), Fail> {
    let has = !text.is_empty() && page.windows(text.len()).any(|part| part == text);
    same("whether it has the text", &has, &true)
}

/// The page of a file must be a page from its begin to its end, and must have this text.
fn expect_page(page: &[u8], text: &[u8]) -> Result<(), Fail> {
    same("its begin", &page.starts_with(b"<!DOCTYPE html>\n"), &true)?;
    same("its end", &page.ends_with(END), &true)?;
    expect_text(page, HEADING)?;
    expect_text(page, text)
}

/// Refuses each request for the page of a file, which must have this text.
fn refuse_page(alloc: Global, bytes: &[u8], clean: bool, text: &[u8]) -> Result<(), Fail> {
    let page = whole(check_page(alloc, Vec::new(alloc), NAME, bytes))?;
    expect_page(&page, text)?;
    refuse_each(
        alloc,
        &CheckPage {
            alloc,
            bytes,
            page: &page,
            clean,
        },
    )
}

/// The facts of the plain file, which is clean.
const CLEAN: &[u8] = b"No faults in 1 transactions.</p>\n\
<dl>\n\
<dt>submitter</dt><dd><code>PB 000000123 PUBLISHER A</code></dd>\n\
<dt>created</dt><dd>2024-05-01 12:00:00</dd>\n\
<dt>groups</dt><dd>1</dd>\n\
<dt>transactions</dt><dd>1</dd>\n\
</dl>\n\
</main>\n\
</body>\n";

#[test]
fn page_of_a_clean_file(rt: HostRuntime) -> Result<(), Fail> {
    let alloc = rt.alloc();
    refuse_page(alloc, &plain_file(alloc)?, true, CLEAN)
}

/// The fault of a work without a title.
const FAULTY: &[u8] = b"<h4 id=\"J2.1\"><a href=\"#J2\">J2</a> TITLE IS BLANK</h4>\n\
<p>work title, start 20, length 60: <code>";

#[test]
fn page_of_a_faulty_file(rt: HostRuntime) -> Result<(), Fail> {
    let alloc = rt.alloc();
    let file = file_of_lines(
        alloc,
        &[
            "GRHNWR0000102.200000000001",
            "NWR0000000000000000                                                              W1",
            "OWR0000000000000001",
            "GRT000010000000100000004",
            "TRL000010000000100000006",
        ],
    )?;
    refuse_page(alloc, &file, false, FAULTY)
}

/// The last of the remarks on two records of types that CWR 2.2 does not have.
const LAST_REMARK: &[u8] = b"<h3>Line 5: SWY</h3>\n\
<pre><code><mark>SWY</mark>0000000000000002\xc2\xac</code></pre>\n\
<p><span class=\"dim\">remark:</span> CWR 2.2 has no record of this type; it is carried, and nothing more of it is read</p>\n\
</section>\n\
</main>\n\
</body>\n";

/// The file of a work that begins with the line `head`, with two such records.
fn remarked_file(alloc: Global, head: &str) -> Result<Vec<u8>, Fail> {
    file_of_lines(
        alloc,
        &[
            "GRHNWR0000102.200000000001",
            head,
            "SWX0000000000000001",
            "SWY0000000000000002",
            "OWR0000000000000003",
            "GRT000010000000100000006",
            "TRL000010000000100000008",
        ],
    )
}

#[test]
fn page_of_a_file_with_remarks(rt: HostRuntime) -> Result<(), Fail> {
    let alloc = rt.alloc();
    let file = remarked_file(alloc, &work(alloc, "NWR", 0, "W1", "")?)?;
    refuse_page(alloc, &file, true, LAST_REMARK)
}

#[test]
fn page_of_a_file_with_faults_and_remarks(rt: HostRuntime) -> Result<(), Fail> {
    let alloc = rt.alloc();
    let head =
        "NWR0000000000000000                                                              W1";
    refuse_page(alloc, &remarked_file(alloc, head)?, false, LAST_REMARK)
}

/// Why the file with a wrong count is refused.
const MISCOUNTED: &[u8] =
    b"<span class=\"bad\">Refused</span> by <a href=\"#F9.1\">F9: the counts of GRT are not those of the group</a>, at line 5.</p>\n";

/// The remark on the first two bytes of a file in UTF-16.
const IN_UTF16: &[u8] =
    b"the file is UTF-16, which has two bytes for a letter; write it in ASCII, with one byte for a letter</p>\n";

#[test]
fn pages_of_refused_files(rt: HostRuntime) -> Result<(), Fail> {
    let alloc = rt.alloc();
    refuse_page(alloc, &miscounted(alloc)?, false, MISCOUNTED)?;
    refuse_page(alloc, b"\xff\xfe", false, IN_UTF16)
}
