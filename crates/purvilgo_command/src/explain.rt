//! What the rules require, and what the answers mean.

use crate::arguments::{Argument, CommandWords};
use crate::help::EXPLAIN_HELP;
use crate::printing::is_printed;
use crate::status::{BAD_WORDS, no_memory, status_of};
use clap::ArgMatches;
use rule_pages::{Page, every_page, page_named, texts_of_pages};
use std::process::ExitCode;

/// `explain [RULE..]`.
pub(crate) const EXPLAIN: CommandWords = CommandWords {
    name: "explain",
    about: "Prints what rules require and what answers mean, and what to do then",
    arguments: &[Argument::AnyWords(
        "RULE",
        "a rule, such as F9 or 011, or an answer, such as CO; else all of them",
    )],
    more: EXPLAIN_HELP,
};

/// Prints the pages that the words name on standard output, or all pages if there are no words. A word that names none
/// is reported on standard error, and then nothing else is printed.
pub(crate) fn explain_rules<R: AllocGlobal + Print + Eprint>(
    rt: &R,
    given: &ArgMatches,
) -> ExitCode {
    let mut pages = Vec::new(rt.alloc());
    for word in given.get_strs("RULE").unwrap_or(&[]) {
        let Some(page) = page_named(word.as_bytes()) else {
            let _ = eprintln!(rt; "no rule {word}");
            return ExitCode::from(BAD_WORDS);
        };
        if pages.push(page).is_err() {
            return no_memory(rt);
        }
    }
    if pages.is_empty() {
        print_pages(rt, every_page())
    } else {
        print_pages(rt, &pages)
    }
}

fn print_pages<R: AllocGlobal + Print + Eprint>(rt: &R, pages: &[Page]) -> ExitCode {
    let Ok(text) = texts_of_pages(rt.alloc(), pages) else {
        return no_memory(rt);
    };
    status_of(is_printed(rt, &text))
}
