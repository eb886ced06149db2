ghost use Rattle.std.specs.Prelude.{◌≡◌};
ghost use Rattle.std.specs.List.{find};
ghost use Rattle.std.specs.Str.{bytes_eq};
ghost use Rattle.rule_pages.specs.Names.{every_page, name_meant, page_name, page_named};

use crate::rule::{Rule, name_of};
use crate::words::stands_for;
use cwr_record::Status;

/// What there is a page on.
#[derive(Clone, Copy, Debug, PartialEq, Eq)]
pub enum Page {
    /// A rule of the profile.
    Rule(Rule),
    /// An answer of an acknowledgement.
    Answer(Status),
}

const PAGES: [Page; 35] = [
    Page::Rule(Rule::F1),
    Page::Rule(Rule::F2),
    Page::Rule(Rule::F3),
    Page::Rule(Rule::F4),
    Page::Rule(Rule::F5),
    Page::Rule(Rule::F6),
    Page::Rule(Rule::F7),
    Page::Rule(Rule::F8),
    Page::Rule(Rule::F9),
    Page::Rule(Rule::F10),
    Page::Rule(Rule::F11),
    Page::Rule(Rule::F12),
    Page::Rule(Rule::J1),
    Page::Rule(Rule::J2),
    Page::Rule(Rule::J3),
    Page::Rule(Rule::J4),
    Page::Rule(Rule::J5),
    Page::Rule(Rule::J6),
    Page::Rule(Rule::J7),
    Page::Rule(Rule::J8),
    Page::Rule(Rule::J9),
    Page::Rule(Rule::J10),
    Page::Rule(Rule::J11),
    Page::Rule(Rule::J12),
    Page::Rule(Rule::J13),
    Page::Rule(Rule::J14),
    Page::Rule(Rule::J15),
    Page::Rule(Rule::G1),
    Page::Rule(Rule::G2),
    Page::Rule(Rule::G3),
    Page::Rule(Rule::G4),
    Page::Answer(Status::Accepted),
    Page::Answer(Status::Duplicate),
    Page::Answer(Status::Conflict),
    Page::Answer(Status::Rejected),
];

/// Every page: of the rules F1 to F12, J1 to J15 and G1 to G4, and then of the answers AS, DU, CO and RJ, in this
/// order.
pub fn every_page() -> &'static [Page]
    ensures { result.now ≡ every_page }
{
    &PAGES
}

/// The page that a word names; `None` if it names none.
///
/// A rule is named by its letter, in either case, and its number in one to three digits, as `j8` or `J08`; a number
/// alone is that of an MSG record, so `011` names J11. An answer is named by its two letters, in either case.
pub fn page_named(word: &[u8]) -> Option<Page>
    ensures { result ≡ page_named word.now }
{
    found_in(&PAGES, word)
}

/// The first of these pages that a word names.
fn found_in(pages: &[Page], word: &[u8]) -> Option<Page>
    ensures { result ≡ find (λ p. bytes_eq (page_name p) (name_meant word.now)) pages.now }
{
    for page in pages {
        if stands_for(word, page_name(*page)) {
            return Some(*page);
        }
    }
    None
}

/// The subject of a page, as its first line has it: the name of a rule, such as `F9`, or the code of an answer, such as
/// `AS`.
pub fn page_name(page: Page) -> &'static [u8]
    ensures { result.now ≡ page_name page }
{
    match page {
        Page::Rule(rule) => name_of(rule),
        Page::Answer(status) => status.code(),
    }
}
