//! The pages of rules.

ghost use Rattle.std.specs.Prelude.{◌≡◌, ◌++◌, IfOk, OnOk};
ghost use Rattle.rule_pages.specs.Pages.{heading_text, line_text, page_text, pages_text};

use crate::rule::{Rule, name_of};
use crate::texts::{fix, requirement, title, violation};
use cwr_field::Memory;
use std::alloc::Allocator;

/// The pages of these rules, in their order.
///
/// A page is a line with the rule's name and the name of its fault, and then three lines: what it requires, an example
/// that breaks it, and how to fix that. Each line has LF at its end. If an allocation fails, there is no text.
pub fn pages_text<A: Allocator>(alloc: A, rules: &[Rule]) -> Result<Vec<u8, A>, Memory>
    ensures { IfOk result (λ text. text.items ≡ pages_text rules.now) }
{
    let mut text = Vec::new(alloc);
    for rule in rules {
        put_page(&mut text, *rule)?;
    }
    Ok(text)
}

/// Appends the page of a rule.
pub(crate) fn put_page<A: Allocator>(out: &mut Vec<u8, A>, rule: Rule) -> Result<(), Memory>
    ensures { OnOk result (out.new.items ≡ out.old.items ++ page_text rule) }
{
    put_heading(out, name_of(rule), title(rule))?;
    put_line(out, b"requires", requirement(rule))?;
    put_line(out, b"broken by", violation(rule))?;
    put_line(out, b"fixed by", fix(rule))?;
    Ok(())
}

/// Appends the first line of a page: a name, and what it is called.
pub(crate) fn put_heading<A: Allocator>(
    out: &mut Vec<u8, A>,
    name: &[u8],
    title: &[u8],
) -> Result<(), Memory>
    ensures { OnOk result (out.new.items ≡ out.old.items ++ heading_text name.now title.now) }
{
    out.extend_from_slice(name)?;
    out.extend_from_slice(b" ")?;
    out.extend_from_slice(title)?;
    out.extend_from_slice(b"\n")?;
    Ok(())
}

/// Appends a line of a page.
pub(crate) fn put_line<A: Allocator>(
    out: &mut Vec<u8, A>,
    label: &[u8],
    text: &[u8],
) -> Result<(), Memory>
    ensures { OnOk result (out.new.items ≡ out.old.items ++ line_text label.now text.now) }
{
    out.extend_from_slice(b"  ")?;
    out.extend_from_slice(label)?;
    out.extend_from_slice(b": ")?;
    out.extend_from_slice(text)?;
    out.extend_from_slice(b"\n")?;
    Ok(())
}
