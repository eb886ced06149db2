//! The texts of pages, of rules and of answers.

ghost use Rattle.std.specs.Prelude.{◌≡◌, ◌++◌, IfOk, OnOk};
ghost use Rattle.rule_pages.specs.Answers.{answer_text};
ghost use Rattle.rule_pages.specs.Texts.{page_text, texts_of_pages};

use crate::answers::{answer_title, done_then, given_for, meaning_of};
use crate::page::Page;
use crate::pages::{put_heading, put_line, put_page};
use cwr_field::Memory;
use cwr_record::Status;
use std::alloc::Allocator;

/// The texts of these pages, in their order.
///
/// The text for a rule is that of [`pages_text`](crate::pages_text). The text for an answer is a line with its code and
/// its name, and then three lines: what it means, what it is given for, and what a publisher does then. Each line has
/// LF at its end. If an allocation fails, there is no text.
pub fn texts_of_pages<A: Allocator>(alloc: A, pages: &[Page]) -> Result<Vec<u8, A>, Memory>
    ensures { IfOk result (λ text. text.items ≡ texts_of_pages pages.now) }
{
    let mut text = Vec::new(alloc);
    for page in pages {
        put_text(&mut text, *page)?;
    }
    Ok(text)
}

/// Appends the text of a page.
fn put_text<A: Allocator>(out: &mut Vec<u8, A>, page: Page) -> Result<(), Memory>
    ensures { OnOk result (out.new.items ≡ out.old.items ++ page_text page) }
{
    match page {
        Page::Rule(rule) => put_page(out, rule),
        Page::Answer(status) => put_answer(out, status),
    }
}

/// Appends the page of an answer.
fn put_answer<A: Allocator>(out: &mut Vec<u8, A>, status: Status) -> Result<(), Memory>
    ensures { OnOk result (out.new.items ≡ out.old.items ++ answer_text status) }
{
    put_heading(out, status.code(), answer_title(status))?;
    put_line(out, b"means", meaning_of(status))?;
    put_line(out, b"given for", given_for(status))?;
    put_line(out, b"then", done_then(status))?;
    Ok(())
}
