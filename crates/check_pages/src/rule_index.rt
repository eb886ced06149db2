//! The rules that are broken.

ghost use Rattle.std.specs.Prelude.{◌≡◌, ◌∷◌, ◌++◌, OnOk};
ghost use Rattle.std.specs.Fmt.{decimal};
ghost use Rattle.html_text.specs.Pieces.{page_text};
ghost use Rattle.check_pages.specs.RuleIndex.{broken_row_pieces, row_count_pieces, row_page_pieces, row_pieces, row_title_pieces, some_row_pieces};

use crate::faults::put_rule;
use cwr_field::Memory;
use html_text::{Fragment, put, put_number, put_text};
use rule_pages::{Rule, fix, requirement, rule_named, title, violation};
use std::alloc::Allocator;

/// Appends the row of the rule with this letter and number, if it is broken. `text` is a buffer, and `total` is how
/// often.
#[tactic(auto, unfolding(crate::specs::RuleIndex::broken_row_pieces))]
pub(crate) fn put_broken_row<A: Allocator>(
    out: &mut Vec<u8, A>,
    text: &mut Vec<u8, A>,
    letter: u8,
    number: u8,
    total: u64,
) -> Result<(), Memory>
    ensures { OnOk result (out.new.items ≡ out.old.items ++ page_text (broken_row_pieces letter number total)) }
{
    if total == 0 {
        return Ok(());
    }
    set_name(text, letter, number)?;
    put_some_row(out, letter, number, total, rule_named(text))
}

/// Sets a text to the name of a rule.
fn set_name<A: Allocator>(text: &mut Vec<u8, A>, letter: u8, number: u8) -> Result<(), Memory>
    ensures { OnOk result (text.new.items ≡ letter ∷ decimal number) }
{
    text.clear();
    text.push(letter)?;
    put_number(text, number as u64)
}

/// Appends the row of a rule, if there is one.
#[tactic(auto, unfolding(crate::specs::RuleIndex::some_row_pieces))]
fn put_some_row<A: Allocator>(
    out: &mut Vec<u8, A>,
    letter: u8,
    number: u8,
    total: u64,
    rule: Option<Rule>,
) -> Result<(), Memory>
    ensures { OnOk result (out.new.items ≡ out.old.items ++ page_text (some_row_pieces letter number total rule)) }
{
    match rule {
        None => Ok(()),
        Some(rule) => put_row(out, letter, number, total, rule),
    }
}

/// Appends the row of a rule.
#[tactic(auto, using(html_text::proofs::lemmas::Pages::page_append), unfolding(crate::specs::RuleIndex::row_pieces))]
fn put_row<A: Allocator>(
    out: &mut Vec<u8, A>,
    letter: u8,
    number: u8,
    total: u64,
    rule: Rule,
) -> Result<(), Memory>
    ensures { OnOk result (out.new.items ≡ out.old.items ++ page_text (row_pieces letter number total rule)) }
{
    put_row_title(out, letter, number, rule)?;
    put_row_page(out, rule)?;
    put_row_count(out, letter, number, total)
}

/// Appends the name of a rule, and of its fault.
#[tactic(auto, using(html_text::proofs::lemmas::Pages::page_append), unfolding(crate::specs::RuleIndex::row_title_pieces))]
fn put_row_title<A: Allocator>(
    out: &mut Vec<u8, A>,
    letter: u8,
    number: u8,
    rule: Rule,
) -> Result<(), Memory>
    ensures { OnOk result (out.new.items ≡ out.old.items ++ page_text (row_title_pieces letter number rule)) }
{
    put(out, Fragment::Rule)?;
    put_rule(out, letter, number)?;
    put(out, Fragment::RuleTitle)?;
    put_text(out, title(rule))?;
    put(out, Fragment::RulePage)?;
    put_rule(out, letter, number)
}

/// Appends what a rule requires, an example that breaks it, and how to fix that.
#[tactic(auto, using(html_text::proofs::lemmas::Pages::page_append), unfolding(crate::specs::RuleIndex::row_page_pieces))]
fn put_row_page<A: Allocator>(out: &mut Vec<u8, A>, rule: Rule) -> Result<(), Memory>
    ensures { OnOk result (out.new.items ≡ out.old.items ++ page_text (row_page_pieces rule)) }
{
    put(out, Fragment::RuleRequires)?;
    put_text(out, requirement(rule))?;
    put(out, Fragment::RuleBroken)?;
    put_text(out, violation(rule))?;
    put(out, Fragment::RuleFixed)?;
    put_text(out, fix(rule))
}

/// Appends how often a rule is broken.
#[tactic(auto, using(html_text::proofs::lemmas::Pages::page_append), unfolding(crate::specs::RuleIndex::row_count_pieces))]
fn put_row_count<A: Allocator>(
    out: &mut Vec<u8, A>,
    letter: u8,
    number: u8,
    total: u64,
) -> Result<(), Memory>
    ensures { OnOk result (out.new.items ≡ out.old.items ++ page_text (row_count_pieces letter number total)) }
{
    put(out, Fragment::RuleCount)?;
    put_rule(out, letter, number)?;
    put(out, Fragment::First)?;
    put_number(out, total)?;
    put(out, Fragment::RuleEnd)
}
