//! What the definition of the page of a summary means: the bytes of a register stand in its text alone, and how wide its
//! bars are.
//!
//! A law is a function that does nothing. Its contract is what is proved.

ghost use Rattle.std.specs.Prelude.{◌≡◌, ◌<◌, ◌≤◌, ◌+◌, ◌-◌, ◌*◌, ◌/◌, ℕ, List};
ghost use Rattle.work_registry.specs.EntryValue.{EntryValue};
ghost use Rattle.html_text.specs.Contexts.{Text, behind};
ghost use Rattle.summary_pages.specs.SummaryPage.{bar_width, summary_page};

/// What the bar of a number shows: its part of the whole, rounded up. So each number but 0 is seen, and the bar of the
/// whole is 320 wide.
pub fn bars_are_parts()
    ensures part { (n whole : ℕ) → 0 < whole → n ≤ whole → bar_width n whole ≡ (320 * n + whole - 1) / whole }
    ensures seen { (n whole : ℕ) → 0 < n → n ≤ whole → 0 < bar_width n whole }
    ensures full { (whole : ℕ) → 0 < whole → bar_width whole whole ≡ 320 }
{}

/// Each piece of a page stands in its place. A byte that is no markup stands in text, between tags, and never within a tag
/// or in the style. Between the quotes of an attribute only numbers stand and the bytes F and J, the letters of rules,
/// and in a text of the style only numbers. A page begins and ends in text.
pub fn bytes_stand_in_text()
    ensures summary { (name : List ℕ) (history : List EntryValue) → behind Text (summary_page name history) ≡ Text }
{}
