//! Summaries of registers.

use crate::at_book::{AtBook, BookFirst, Made};
use failing_alloc::{Ended, FailingAlloc, answered, refuse_each, refused};
use register_tables::{SubmitterEntries, most_entries};
use std::alloc::Global;
use std::test::Fail;
use summary_pages::{PageError, summary_page};
use test_comparisons::{same, same_bytes, same_lists};
use work_registry::{Book, RegisterRefusal, read_register};

/// The name of the register.
const NAME: &str = "a & b.register";

/// A claim, a conflict and a rejection.
const REGISTER: &[u8] = b"REG00000003\n\
ENT00000001PB000000123NWRSONG ONE                                                    W1            T0345246801000000006000000000006000000000006000AS0000000100000001000000000\n\
ENT00000002PB000000456NWRSONG ONE                                                    W7            T0345246801000000005000000000005000000000005000CO0000000100000000000000000\n\
ENT00000003PB000000456REVSONG ONE                                                    W7                       000000005000000000005000000000005000RJ00000000000000000000000010000000004REV\n";

/// The heading and the first numbers of its page.
const HEADING: &[u8] = b"<h1>Summary of a &amp; b.register</h1>\n\
<dl>\n\
<dt>entries</dt><dd>3</dd>\n\
<dt>works</dt><dd>1</dd>\n\
<dt>current claims</dt><dd>1</dd>\n\
<dt>submitters</dt><dd>2</dd>\n\
</dl>\n";

/// The end of its page: the one work that has a conflict.
const END: &[u8] =
    b"<tr><th scope=\"row\">1</th><td class=\"number\">1</td><td><svg viewBox=\"0 0 320 10\" preserveAspectRatio=\"none\" role=\"img\" aria-label=\"1 of 1\"><rect width=\"320\" height=\"10\"/></svg></td></tr>\n\
</tbody>\n\
</table>\n\
</main>\n\
</body>\n\
</html>\n";

/// The book of the register; `None` if an allocation failed.
fn read<'m>(memory: &'m FailingAlloc) -> Made<'m> {
    match read_register(memory, REGISTER, 100) {
        Ok(book) => Ok(Some(book)),
        Err(RegisterRefusal::Memory) => Ok(None),
        Err(RegisterRefusal::Fault { .. }) => Err(Fail::new("a fault")),
    }
}

#[derive(Drop)]
struct MostEntries;

impl AtBook for MostEntries {
    fn made<'m>(&self, memory: &'m FailingAlloc) -> Made<'m> {
        read(memory)
    }

    fn ends_at<'m>(&self, memory: &'m FailingAlloc, book: &mut Book<&'m FailingAlloc>) -> Ended {
        match most_entries(memory, book) {
            Ok(most) => answered(same_lists("submitters", &most, &both_submitters())),
            Err(_) => refused(same("entries", &book.len(), &3)),
        }
    }
}

/// The submitters of the register, first the one with the most entries.
fn both_submitters() -> [SubmitterEntries; 2] {
    [
        SubmitterEntries {
            submitter: *b"PB000000456",
            entries: 2,
        },
        SubmitterEntries {
            submitter: *b"PB000000123",
            entries: 1,
        },
    ]
}

/// A page that is written where there is memory.
#[derive(Drop)]
struct SummaryPage<'a> {
    alloc: Global,
    page: &'a [u8],
}

impl AtBook for SummaryPage<'_> {
    fn made<'m>(&self, memory: &'m FailingAlloc) -> Made<'m> {
        read(memory)
    }

    fn ends_at<'m>(&self, memory: &'m FailingAlloc, book: &mut Book<&'m FailingAlloc>) -> Ended {
        let mut text = Vec::new(self.alloc);
        match summary_page(memory, &mut text, NAME, book) {
            Ok(_) => answered(same_bytes("page", &text, self.page)),
            Err(PageError::Memory) => refused(same("what is written", &text.len(), &0)),
            Err(PageError::Write) => Err(Fail::new("a failed write")),
        }
    }
}

/// The page of the register.
fn page_of(alloc: Global) -> Result<Vec<u8>, Fail> {
    match read_register(alloc, REGISTER, 100) {
        Ok(book) => page_of_book(alloc, &book),
        Err(_) => Err(Fail::new("the register is refused")),
    }
}

/// The page of its book.
fn page_of_book(alloc: Global, book: &Book) -> Result<Vec<u8>, Fail> {
    match summary_page(alloc, Vec::new(alloc), NAME, book) {
        Ok(page) => Ok(page),
        Err(_) => Err(Fail::new("the page is not written")),
    }
}

/// Its begin, its heading and its end.
fn expect_parts(page: &[u8]) -> Result<(), Fail> {
    let has = page.windows(HEADING.len()).any(|part| part == HEADING);
    same("whether it has the heading", &has, &true)?;
    same("its begin", &page.starts_with(b"<!DOCTYPE html>\n"), &true)?;
    same("its end", &page.ends_with(END), &true)
}

#[test]
fn submitters_with_the_most_entries(rt: HostRuntime) -> Result<(), Fail> {
    refuse_each(rt.alloc(), &BookFirst(MostEntries))
}

#[test]
fn pages_of_summaries(rt: HostRuntime) -> Result<(), Fail> {
    let alloc = rt.alloc();
    let page = page_of(alloc)?;
    expect_parts(&page)?;
    refuse_each(alloc, &BookFirst(SummaryPage { alloc, page: &page }))
}
